//! Names and strings, which are lists of bytes of the tree: whether they are short enough.
ghost use Rattle.std.specs.Prelude.{◌≡◌, ◌<◌, length, IsTrue};
ghost use Rattle.xf_grammar.specs.Tokens.{terminal_at};
ghost use Rattle.xf_format.specs.Tests.{is_symbol, is_name, is_string};

use crate::parts::MOST_ENTRIES;
use crate::quoted::{behind_first, decoded_len};
use xf_lex::{Token, TokenKind};

/// Whether a symbol stands there that is short enough.
pub fn is_symbol(tokens: &[Token], at: usize) -> bool
    ensures value { result ≡ is_symbol (terminal_at tokens.now at) }
    ensures within { IsTrue result → at < length tokens.now }
{
    if at >= tokens.len() {
        return false;
    }
    let token = &tokens[at];
    match token.kind {
        TokenKind::Symbol => behind_first(token.bytes.as_slice()).len() <= MOST_ENTRIES,
        _ => false,
    }
}

/// Whether a word stands there that is short enough for the name of an attribute.
pub fn is_name(tokens: &[Token], at: usize) -> bool
    ensures value { result ≡ is_name (terminal_at tokens.now at) }
    ensures within { IsTrue result → at < length tokens.now }
{
    if at >= tokens.len() {
        return false;
    }
    let token = &tokens[at];
    match token.kind {
        TokenKind::Word => token.bytes.as_slice().len() <= MOST_ENTRIES,
        _ => false,
    }
}

/// Whether a string stands there that stands for few enough bytes. It takes time in its length.
pub fn is_string(tokens: &[Token], at: usize) -> bool
    ensures value { result ≡ is_string (terminal_at tokens.now at) }
    ensures within { IsTrue result → at < length tokens.now }
{
    if at >= tokens.len() {
        return false;
    }
    let token = &tokens[at];
    match token.kind {
        TokenKind::Text => decoded_len(token.bytes.as_slice()) <= MOST_ENTRIES,
        _ => false,
    }
}
