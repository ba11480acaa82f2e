//! What stands first in a text.
ghost use Rattle.std.specs.Prelude.{◌≡◌, ◌≤◌, ◌<◌, ◌+◌, length};
ghost use Rattle.xf_lex.specs.Lexemes.{string_of, string_at, value_at, named_at, hash_at, shape_at, integer_of};
ghost use Rattle.xf_lex.specs.Lexemes.{sign_at, token_at, IsWithin};

use crate::byte_class::{Class, is_mark, is_name_start, run, starts};
use crate::quoted::{escaped, quoted};
use crate::token::TokenKind;
use xf_span::Code;
use xf_type::{TOO_LARGE, is_digit, is_letter, number_of};

/// What stands first in a text.
#[derive(Clone, Copy, Debug, PartialEq, Eq)]
pub enum Lexeme {
    /// Nothing.
    End,
    /// A token, and how many bytes it has.
    Token(TokenKind, usize),
    /// What makes no token, and how many bytes stand in front of the one that is at fault.
    Fault(Code, usize),
}

/// The string with these bytes between its quotes, if it is closed.
fn string_of(bytes: &[u8], closed: bool) -> Lexeme
    ensures value { result ≡ string_of bytes.now closed }
    ensures within { IsWithin result (length bytes.now + 2) }
{
    if !closed {
        return Lexeme::Fault(Code::L2, 0);
    }
    let good = escaped(bytes);
    if good < bytes.len() {
        Lexeme::Fault(Code::L1, good + 1)
    } else {
        Lexeme::Token(TokenKind::Text, bytes.len() + 2)
    }
}

/// What a quote begins, by what stands behind it.
fn string_at(bytes: &[u8]) -> Lexeme
    ensures value { result ≡ string_at bytes.now }
    ensures within { IsWithin result (length bytes.now + 1) }
{
    let (inside, behind) = bytes.split_at(quoted(bytes));
    string_of(inside, starts(b'"', behind))
}

/// What a `%` begins, by what stands behind it.
fn value_at(bytes: &[u8]) -> Lexeme
    ensures value { result ≡ value_at bytes.now }
    ensures within { IsWithin result (length bytes.now + 1) }
{
    match bytes {
        [] => Lexeme::Fault(Code::L1, 0),
        [b, rest @ ..] => {
            if is_digit(*b) {
                Lexeme::Token(TokenKind::Value, run(Class::Digit, rest) + 2)
            } else if is_name_start(*b) {
                Lexeme::Token(TokenKind::Value, run(Class::NameByte, rest) + 2)
            } else {
                Lexeme::Fault(Code::L1, 0)
            }
        }
    }
}

/// What the first byte of a kind of token begins that goes on with a word.
fn named_at(kind: TokenKind, bytes: &[u8]) -> Lexeme
    ensures value { result ≡ named_at kind bytes.now }
    ensures within { IsWithin result (length bytes.now + 1) }
{
    match bytes {
        [] => Lexeme::Fault(Code::L1, 0),
        [b, rest @ ..] => {
            if is_letter(*b) {
                Lexeme::Token(kind, run(Class::WordByte, rest) + 2)
            } else {
                Lexeme::Fault(Code::L1, 0)
            }
        }
    }
}

/// What a `#` begins, by what stands behind it.
fn hash_at(bytes: &[u8]) -> Lexeme
    ensures value { result ≡ hash_at bytes.now }
    ensures within { IsWithin result (length bytes.now + 1) }
{
    match bytes {
        [] => Lexeme::Fault(Code::L1, 0),
        [b, rest @ ..] => {
            if is_digit(*b) {
                Lexeme::Token(TokenKind::Hash, run(Class::Digit, rest) + 2)
            } else {
                named_at(TokenKind::Hash, bytes)
            }
        }
    }
}

/// What a `<` after the word `tensor` begins, by what stands behind it.
fn shape_at(bytes: &[u8]) -> Lexeme
    ensures value { result ≡ shape_at bytes.now }
    ensures within { IsWithin result (length bytes.now + 1) }
{
    let count = run(Class::ShapeByte, bytes);
    if starts(b'>', &bytes[count..]) {
        Lexeme::Token(TokenKind::Shape, count + 2)
    } else {
        Lexeme::Fault(Code::L1, 0)
    }
}

/// What digits are.
fn integer_of(digits: &[u8]) -> Lexeme
    requires { 0 < length digits.now }
    ensures value { result ≡ integer_of digits.now }
    ensures within { IsWithin result (length digits.now) }
{
    if number_of(digits) < TOO_LARGE {
        Lexeme::Token(TokenKind::Integer, digits.len())
    } else {
        Lexeme::Fault(Code::L3, 0)
    }
}

/// What a byte begins that is no letter, no digit and no quote, by what stands behind it.
fn sign_at(b: u8, rest: &[u8]) -> Lexeme
    ensures value { result ≡ sign_at b rest.now }
    ensures within { IsWithin result (length rest.now + 1) }
{
    if b == b'%' {
        value_at(rest)
    } else if b == b'@' {
        named_at(TokenKind::Symbol, rest)
    } else if b == b'^' {
        named_at(TokenKind::BlockName, rest)
    } else if b == b'!' {
        named_at(TokenKind::DialectType, rest)
    } else if b == b'#' {
        hash_at(rest)
    } else if b == b'-' && starts(b'>', rest) {
        Lexeme::Token(TokenKind::Arrow, 2)
    } else if is_mark(b) {
        Lexeme::Token(TokenKind::Mark(b), 1)
    } else {
        Lexeme::Fault(Code::L1, 0)
    }
}

/// What stands first in a text that begins with no blank and no comment: the longest token, or a
/// fault. `after_tensor` tells whether the token before is the word `tensor`.
pub fn token_at(after_tensor: bool, bytes: &[u8]) -> Lexeme
    ensures value { result ≡ token_at after_tensor bytes.now }
    ensures within { IsWithin result (length bytes.now) }
{
    match bytes {
        [] => Lexeme::End,
        [b, rest @ ..] => {
            let b = *b;
            if is_letter(b) {
                Lexeme::Token(TokenKind::Word, run(Class::WordByte, rest) + 1)
            } else if is_digit(b) {
                integer_of(&bytes[..run(Class::Digit, rest) + 1])
            } else if b == b'"' {
                string_at(rest)
            } else if b == b'<' && after_tensor {
                shape_at(rest)
            } else {
                sign_at(b, rest)
            }
        }
    }
}
