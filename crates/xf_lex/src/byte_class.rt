//! Bytes by class.
ghost use Rattle.std.specs.Prelude.{◌≡◌, ◌≤◌, length};
ghost use Rattle.xf_lex.specs.Bytes.{is_name_start, is_blank, is_mark, run, starts, gap};
ghost use Rattle.xf_lex.specs.Classes.{has};

use xf_type::{is_digit, is_letter, is_word_byte};

/// A set of bytes that a token is made of.
#[derive(Clone, Copy, Debug, PartialEq, Eq)]
pub enum Class {
    Digit,
    /// A byte of a word behind its first.
    WordByte,
    /// A byte of a value's name that began with no digit.
    NameByte,
    /// A byte of a shape behind its first.
    ShapeByte,
}

pub fn is_name_start(b: u8) -> bool
    ensures { result ≡ is_name_start b }
{
    is_letter(b) || (b == b'$' || b == b'.' || b == b'-')
}

fn is_blank(b: u8) -> bool
    ensures { result ≡ is_blank b }
{
    b == b' ' || b == b'\t' || (b == b'\r' || b == b'\n')
}

pub fn is_mark(b: u8) -> bool
    ensures { result ≡ is_mark b }
{
    let bracket = b == b'('
        || b == b')'
        || (b == b'{' || b == b'}')
        || (b == b'[' || b == b']' || (b == b'<' || b == b'>'));
    bracket || (b == b',' || b == b':' || (b == b'=' || b == b'-') || b == b'?')
}

fn has(class: Class, b: u8) -> bool
    ensures { result ≡ has class b }
{
    match class {
        Class::Digit => is_digit(b),
        Class::WordByte => is_word_byte(b),
        Class::NameByte => is_name_start(b) || is_digit(b),
        Class::ShapeByte => !(b == b'>' || b == b'\n'),
    }
}

/// How many bytes at the front are of a class.
pub fn run(class: Class, bytes: &[u8]) -> usize
    ensures value { result ≡ run (has class) bytes.now }
    ensures within { result ≤ length bytes.now }
{
    let mut count = 0;
    for b in bytes {
        if !has(class, *b) {
            return count;
        }
        count += 1;
    }
    count
}

/// Whether bytes begin with a byte.
pub fn starts(x: u8, bytes: &[u8]) -> bool
    ensures { result ≡ starts x bytes.now }
{
    match bytes {
        [] => false,
        [b, ..] => *b == x,
    }
}

/// How many bytes of blanks and comments are at the front.
pub fn gap(bytes: &[u8]) -> usize
    ensures value { result ≡ gap bytes.now }
    ensures within { result ≤ length bytes.now }
{
    let mut inside = false;
    for (i, b) in bytes.iter().enumerate() {
        let b = *b;
        if inside {
            inside = b != b'\n';
        } else if !is_blank(b) {
            if b != b'/' || !starts(b'/', &bytes[i + 1..]) {
                return i;
            }
            inside = true;
        }
    }
    bytes.len()
}
