//! Bytes by class, and the numbers that digits write.
ghost use Rattle.std.specs.Prelude.{◌≡◌, ◌≤◌, ◌^◌, min};
ghost use Rattle.std.specs.Char.{digit_value};
ghost use Rattle.std.specs.Str.Parse.{digits_value};
ghost use Rattle.xf_type.specs.Bytes.{is_digit, is_letter, is_word_byte, is_hex};

/// Whether a byte is a decimal digit.
pub fn is_digit(b: u8) -> bool
    ensures { result ≡ is_digit b }
{
    b'0' <= b && b <= b'9'
}

/// Whether a byte is a letter or `_`.
pub fn is_letter(b: u8) -> bool
    ensures { result ≡ is_letter b }
{
    b'a' <= b && b <= b'z' || b'A' <= b && b <= b'Z' || b == b'_'
}

/// Whether a byte may stand in a word behind its first: a letter, a digit, `_`, `$` or `.`.
pub fn is_word_byte(b: u8) -> bool
    ensures { result ≡ is_word_byte b }
{
    is_letter(b) || is_digit(b) || (b == b'$' || b == b'.')
}

/// Whether a byte is a hexadecimal digit.
pub fn is_hex(b: u8) -> bool
    ensures { result ≡ is_hex b }
{
    is_digit(b) || b'a' <= b && b <= b'f' || b'A' <= b && b <= b'F'
}

/// What a digit counts, a letter from 10 on as in numbers of greater bases; a byte that is none counts 36.
pub fn digit_value(b: u8) -> u32
    ensures value { result ≡ digit_value b }
    ensures small { result ≤ 36 }
{
    match b {
        b'0'..=b'9' => u32::from(b - b'0'),
        b'A'..=b'Z' => u32::from(b - b'A') + 10,
        b'a'..=b'z' => u32::from(b - b'a') + 10,
        _ => 36,
    }
}

/// More than the number of any integer of a text.
pub const TOO_LARGE: u128 = 1 << 64;

/// The number that decimal digits write, or 2^64 where it is that or more.
pub fn number_of(digits: &[u8]) -> u128
    ensures { result ≡ min (digits_value 10 digits.now) (2 ^ 64) }
{
    let mut value = 0;
    for b in digits {
        value = (value * 10 + u128::from(digit_value(*b))).min(TOO_LARGE);
    }
    value
}
