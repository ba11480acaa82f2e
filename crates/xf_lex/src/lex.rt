//! The tokens of a text.
ghost use Rattle.std.specs.Prelude.{◌≡◌, ◌≤◌, ◌<◌, ◌+◌, length, take, IfOk, IfErr};
ghost use Rattle.std.specs.Str.{IsUtf8};
ghost use Rattle.std.specs.Str.Lossy.{utf8_valid_len};
ghost use Rattle.xf_span.specs.Fault.{fault_at};
ghost use Rattle.xf_span.specs.declared.code.Code.TheVariants.{L4};
ghost use Rattle.xf_span.specs.Place.{place_after, first_place};
ghost use Rattle.xf_lex.specs.Lexes.{is_tensor, Lexes, IsRefused};

use crate::byte_class::gap;
use crate::lexeme::{Lexeme, token_at};
use crate::token::{Token, TokenBytes, TokenKind, TokenList};
use std::alloc::Global;
use xf_span::{Code, FIRST_PLACE, Fault, LexFault, place_after};
use xf_type::ListOf;

/// How many bytes stand before the first that is not UTF-8, or else in all.
fn valid_len(bytes: &[u8]) -> usize
    ensures value { result ≡ utf8_valid_len bytes.now }
    ensures within { result ≤ length bytes.now }
    ensures whole { result ≡ length bytes.now → IsUtf8 bytes.now }
{
    match str::from_utf8(bytes) {
        Ok(_) => bytes.len(),
        Err(fault) => fault.valid_up_to(),
    }
}

/// Whether a token is the word `tensor`.
fn is_tensor(kind: TokenKind, word: &[u8]) -> bool
    ensures { result ≡ is_tensor kind word.now }
{
    match kind {
        TokenKind::Word => word == b"tensor".as_slice(),
        _ => false,
    }
}

/// The fault of a text that is UTF-8 for so many bytes.
fn ill_formed(bytes: &[u8], valid: usize) -> Fault
    requires { valid ≤ length bytes.now }
    ensures { result ≡ fault_at L4 (place_after first_place (take valid bytes.now)) }
{
    Fault::at(Code::L4, place_after(FIRST_PLACE, &bytes[..valid]))
}

/// The tokens of a text, in order, with their bytes and places. It refuses a text with a fault, and
/// answers the first: a byte that makes no token, a string without its end, an integer above
/// 2^64 - 1, or bytes that are not UTF-8. It takes time in the length of the text.
pub fn tokens(alloc: Global, bytes: &[u8]) -> Result<TokenList<'_>, LexFault>
    ensures found { IfOk result (λ tokens. Lexes bytes.now tokens) }
    ensures fault { IfErr result (λ fault. IsRefused bytes.now fault) }
{
    let valid = valid_len(bytes);
    let mut tokens = ListOf::new(alloc);
    let mut after_tensor = false;
    let mut place = FIRST_PLACE;
    let mut rest = bytes;
    'tokens: loop {
        let (blanks, text) = rest.split_at(gap(rest));
        let at = place_after(place, blanks);
        let (kind, length) = match token_at(after_tensor, text) {
            Lexeme::Token(kind, length) => (kind, length),
            Lexeme::End if valid == bytes.len() => return Ok(tokens),
            Lexeme::Fault(code, inside) if bytes.len() - text.len() + inside < valid => {
                return Err(Fault::at(code, place_after(at, &text[..inside])).into());
            }
            _ => return Err(ill_formed(bytes, valid).into()),
        };
        let (word, after) = text.split_at(length);
        tokens.push(Token {
            kind,
            bytes: TokenBytes::new(word),
            place: at,
        })?;
        after_tensor = is_tensor(kind, word);
        place = place_after(at, word);
        rest = after;
    }
}
