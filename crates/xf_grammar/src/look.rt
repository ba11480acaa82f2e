//! What stands at a number in a list of tokens.
ghost use Rattle.std.specs.Prelude.{◌≡◌, ◌<◌, length, IsTrue};
ghost use Rattle.xf_grammar.specs.Tokens.{looks, says, word_at, number_of, number_at, is_index_at};

use xf_lex::{Token, TokenKind};
use xf_type::{TOO_LARGE, number_of};

/// Whether a token of this kind stands there.
pub fn looks(tokens: &[Token], at: usize, kind: TokenKind) -> bool
    ensures value { result ≡ looks tokens.now at kind }
    ensures within { IsTrue result → at < length tokens.now }
{
    if at < tokens.len() {
        tokens[at].kind == kind
    } else {
        false
    }
}

/// The bytes of the word that stands there; no bytes where no word stands there.
pub fn word_at<'a>(tokens: &'a [Token], at: usize) -> &'a [u8]
    ensures { result.now ≡ word_at tokens.now at }
{
    if at < tokens.len() {
        let token = &tokens[at];
        match token.kind {
            TokenKind::Word => token.bytes.as_slice(),
            _ => &[],
        }
    } else {
        &[]
    }
}

/// Whether this word stands there.
pub fn says(tokens: &[Token], at: usize, word: &[u8]) -> bool
    ensures value { result ≡ says tokens.now at word.now }
    ensures within { IsTrue result → at < length tokens.now }
{
    if at < tokens.len() {
        let token = &tokens[at];
        match token.kind {
            TokenKind::Word => token.bytes.as_slice() == word,
            _ => false,
        }
    } else {
        false
    }
}

/// The number that decimal digits write, or 2^64 - 1 where it is more.
pub fn number(digits: &[u8]) -> u64
    ensures { result ≡ number_of digits.now }
{
    let value = number_of(digits);
    if value < TOO_LARGE {
        value as u64
    } else {
        u64::MAX
    }
}

/// The number that the integer writes that stands there, or the digits behind a `#`.
pub fn number_at(tokens: &[Token], at: usize) -> u64
    ensures { result ≡ number_at tokens.now at }
{
    if at >= tokens.len() {
        return 0;
    }
    let token = &tokens[at];
    match (token.kind, token.bytes.as_slice()) {
        (TokenKind::Integer, digits) => number(digits),
        (TokenKind::Hash, [_, digits @ ..]) => number(digits),
        _ => 0,
    }
}

/// Whether a `#` and digits stand there, as behind the name of a value.
pub fn is_index_at(tokens: &[Token], at: usize) -> bool
    ensures value { result ≡ is_index_at tokens.now at }
    ensures within { IsTrue result → at < length tokens.now }
{
    if at >= tokens.len() {
        return false;
    }
    let token = &tokens[at];
    match (token.kind, token.bytes.as_slice()) {
        (TokenKind::Hash, [_, b, ..]) => b.is_ascii_digit(),
        _ => false,
    }
}
