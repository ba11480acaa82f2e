//! The words of types that are not supported.
ghost use Rattle.std.specs.Prelude.{◌≡◌, length, drop};
ghost use Rattle.xf_shape.specs.TypeWords.{one_of, floats, all_digits, digits_behind, is_other_integer, type_number};

use crate::width::width_of;

fn is_float(word: &[u8]) -> bool
    ensures { result ≡ one_of floats word.now }
{
    word == b"f16".as_slice()
        || word == b"f32".as_slice()
        || word == b"f64".as_slice()
        || word == b"f80".as_slice()
        || word == b"f128".as_slice()
        || word == b"bf16".as_slice()
        || word == b"tf32".as_slice()
}

fn all_digits(bytes: &[u8]) -> bool
    ensures { result ≡ all_digits bytes.now }
{
    for b in bytes {
        if !b.is_ascii_digit() {
            return false;
        }
    }
    true
}

/// Whether a word is these letters and one digit or more.
fn digits_behind(letters: &[u8], word: &[u8]) -> bool
    ensures { result ≡ digits_behind letters.now word.now }
{
    word.starts_with(letters) && word != letters && all_digits(&word[letters.len()..])
}

/// Whether a word is an integer type that is no width.
fn is_other_integer(word: &[u8]) -> bool
    ensures { result ≡ is_other_integer word.now }
{
    width_of(word).is_none()
        && (digits_behind(b"i", word) || digits_behind(b"si", word) || digits_behind(b"ui", word))
}

/// The number of the form of MLIR that a word of a type is, where that is not supported: 1 a float, 4 an integer of
/// another width, 5 `memref` and `vector`.
pub fn type_number(word: &[u8]) -> Option<u32>
    ensures { result ≡ type_number word.now }
{
    if is_float(word) || word.starts_with(b"f8E") {
        Some(1)
    } else if is_other_integer(word) {
        Some(4)
    } else if word == b"memref".as_slice() || word == b"vector".as_slice() {
        Some(5)
    } else {
        None
    }
}
