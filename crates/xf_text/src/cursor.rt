//! Tokens, read from the front on.
ghost use Rattle.std.specs.Prelude.{◌≡◌, [], ◌↔◌, map, IsTrue};
ghost use Rattle.xf_lex.specs.Layout.{plain};
ghost use Rattle.xf_text.specs.Tokens.{token, word, mark};
ghost use Rattle.xf_text.specs.Reading.{Gives, behind, begins, bytes_front};

use std::marker::Model;
use xf_lex::{Token, TokenKind};

/// The tokens that are left to read. After a `None` it stands at some later token.
#[derive(Drop)]
pub struct Cursor<'a> {
    rest: &'a [Token<'a>],
}

impl<'a> Model for Cursor<'a> {
    ghost use Rattle.std.specs.Prelude.{List, map};
    ghost use Rattle.xf_lex.specs.Layout.{Plain, plain};

    ghost Value = { List Plain };

    ghost view = { λ cursor. map plain cursor.rest.now };
}

impl<'a> Cursor<'a> {
    /// At the first of these tokens.
    pub fn new(tokens: &'a [Token<'a>]) -> Cursor<'a>
        ensures { result ≡ map plain tokens.now }
    {
        Cursor { rest: tokens }
    }

    /// Whether no token is left.
    pub fn is_at_end(&self) -> bool
        ensures { IsTrue result ↔ (self.now ≡ []) }
    {
        self.rest.is_empty()
    }

    /// Whether this word stands next.
    pub fn is_at_word(&self, text: &[u8]) -> bool
        ensures { result ≡ begins (word text.now) self.now }
    {
        match self.rest {
            [] => false,
            [next, ..] => { next.kind == TokenKind::Word && next.bytes.as_slice() == text }
        }
    }

    /// Goes behind this token, or gives `None` where it does not stand next.
    pub fn expect(&mut self, kind: TokenKind, bytes: &[u8]) -> Option<()>
        ensures { Gives (λ _. self.new) result (behind (token kind bytes.now) self.old) }
    {
        match self.rest {
            [] => None,
            [next, rest @ ..] => {
                if next.kind == kind && next.bytes.as_slice() == bytes {
                    self.rest = rest;
                    Some(())
                } else {
                    None
                }
            }
        }
    }

    /// Goes behind a token of this kind and gives its bytes, or `None` where none stands next.
    pub fn bytes(&mut self, kind: TokenKind) -> Option<&'a [u8]>
        ensures { Gives (λ bytes. (bytes.now, self.new)) result (bytes_front kind self.old) }
    {
        match self.rest {
            [] => None,
            [next, rest @ ..] => {
                if next.kind == kind {
                    self.rest = rest;
                    Some(next.bytes.as_slice())
                } else {
                    None
                }
            }
        }
    }

    /// Goes behind a word.
    pub fn word(&mut self, text: &[u8]) -> Option<()>
        ensures { Gives (λ _. self.new) result (behind (word text.now) self.old) }
    {
        self.expect(TokenKind::Word, text)
    }

    /// Goes behind a mark.
    pub fn mark(&mut self, b: u8) -> Option<()>
        ensures { Gives (λ _. self.new) result (behind (mark b) self.old) }
    {
        self.expect(TokenKind::Mark(b), &[b])
    }
}
