//! What a string stands for.
ghost use Rattle.std.specs.Prelude.{◌≡◌, ◌≤◌, drop, length, IfOk};
ghost use Rattle.std.specs.Str.{bytes_eq};
ghost use Rattle.xf_format.specs.Strings.{escaped_byte, step_of, decoded};

use std::alloc::Global;
use xf_type::{ByteList, NoMemory, digit_value, is_hex};

/// What stands before a byte of a string.
#[derive(Clone, Copy)]
enum Escape {
    /// Nothing that belongs to it.
    Nothing,
    /// A `\`.
    Backslash,
    /// A `\` and this hexadecimal digit.
    Digit(u8),
}

/// What a byte of a string is.
#[derive(Clone, Copy)]
enum StringStep {
    /// The quote behind the string.
    End,
    /// A part of an escape, which the next byte goes on with.
    Wait(Escape),
    /// The last of those that stand for this byte.
    Byte(u8),
}

/// All bytes but the first.
pub fn behind_first(bytes: &[u8]) -> &[u8]
    ensures { result.now ≡ drop 1 bytes.now }
{
    match bytes {
        [] => bytes,
        [_, rest @ ..] => rest,
    }
}

/// The byte that a letter or a mark behind a `\` stands for.
fn escaped_byte(b: u8) -> u8
    ensures { result ≡ escaped_byte b }
{
    match b {
        b'n' => b'\n',
        b't' => b'\t',
        b => b,
    }
}

/// What a byte is behind that.
fn step_of(escape: Escape, b: u8) -> StringStep
    ensures { result ≡ step_of escape b }
{
    match escape {
        Escape::Nothing if b == b'"' => StringStep::End,
        Escape::Nothing if b == b'\\' => StringStep::Wait(Escape::Backslash),
        Escape::Nothing => StringStep::Byte(b),
        Escape::Backslash if is_hex(b) => StringStep::Wait(Escape::Digit(b)),
        Escape::Backslash => StringStep::Byte(escaped_byte(b)),
        Escape::Digit(a) => StringStep::Byte(((digit_value(a) * 16 + digit_value(b)) % 256) as u8),
    }
}

/// The bytes that a string with its quotes stands for. Refuses for want of memory alone.
pub fn decoded(alloc: Global, quoted: &[u8]) -> Result<ByteList, NoMemory>
    ensures { IfOk result (λ bytes. bytes ≡ decoded quoted.now) }
{
    let mut bytes = ByteList::new(alloc);
    let mut escape = Escape::Nothing;
    let inner = behind_first(quoted);
    for b in inner {
        match step_of(escape, *b) {
            StringStep::End => return Ok(bytes),
            StringStep::Wait(next) => escape = next,
            StringStep::Byte(byte) => {
                bytes.push(byte)?;
                escape = Escape::Nothing;
            }
        }
    }
    Ok(bytes)
}

/// How many bytes a string with its quotes stands for.
pub fn decoded_len(quoted: &[u8]) -> usize
    ensures { result ≡ length (decoded quoted.now) }
{
    let mut count = 0;
    let mut escape = Escape::Nothing;
    let inner = behind_first(quoted);
    for b in inner {
        match step_of(escape, *b) {
            StringStep::End => return count,
            StringStep::Wait(next) => escape = next,
            StringStep::Byte(_) => {
                count += 1;
                escape = Escape::Nothing;
            }
        }
    }
    count
}

/// Whether a string with its quotes stands for these bytes.
pub fn stands_for(quoted: &[u8], bytes: &[u8]) -> bool
    ensures { result ≡ bytes_eq (decoded quoted.now) bytes.now }
{
    let mut rest = bytes;
    let mut escape = Escape::Nothing;
    let inner = behind_first(quoted);
    for b in inner {
        match step_of(escape, *b) {
            StringStep::End => return rest.is_empty(),
            StringStep::Wait(next) => escape = next,
            StringStep::Byte(byte) => match rest {
                [first, others @ ..] if byte == *first => {
                    rest = others;
                    escape = Escape::Nothing;
                }
                _ => return false,
            },
        }
    }
    rest.is_empty()
}
