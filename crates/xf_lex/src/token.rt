//! Tokens.
ghost use Rattle.std.specs.Prelude.{◌≡◌};

use std::marker::Model;
use xf_span::Place;
use xf_type::ListOf;

/// What a token is. A word is a letter or `_`, then letters, digits, `_`, `$` and `.`.
#[derive(Clone, Copy, Debug, PartialEq, Eq)]
pub enum TokenKind {
    /// A word.
    Word,
    /// `%`, then digits, or a letter or one of `$`, `.`, `_` and `-` with letters, digits and these
    /// behind it.
    Value,
    /// `@` and a word.
    Symbol,
    /// `^` and a word.
    BlockName,
    /// `#` and a word or digits.
    Hash,
    /// `!` and a word.
    DialectType,
    /// Decimal digits, which write at most 2^64 - 1.
    Integer,
    /// A string with its quotes and escapes.
    Text,
    /// What stands between `<` and `>` after the word `tensor`, with these marks.
    Shape,
    /// `->`.
    Arrow,
    /// A mark of one byte: one of `( ) { } [ ] < > , : = - ?`.
    Mark(u8),
}

/// The bytes of a token, where they stand in the text.
#[derive(Debug, Drop)]
pub struct TokenBytes<'a> {
    bytes: &'a [u8],
}

impl<'a> Model for TokenBytes<'a> {
    ghost use Rattle.std.specs.Prelude.{List, ℕ};

    ghost Value = { List ℕ };

    ghost view = { λ token. token.bytes.now };
}

impl<'a> TokenBytes<'a> {
    /// These bytes of a text, which are not copied.
    pub fn new(bytes: &'a [u8]) -> TokenBytes<'a>
        ensures { result ≡ bytes.now }
    {
        TokenBytes { bytes }
    }

    /// The bytes, for as long as the text stands.
    pub fn as_slice(&self) -> &'a [u8]
        ensures { result.now ≡ self.now }
    {
        self.bytes
    }
}

/// A token, with its bytes as they stand in the text and the place of the first of them.
#[derive(Debug, Drop)]
pub struct Token<'a> {
    pub kind: TokenKind,
    pub bytes: TokenBytes<'a>,
    pub place: Place,
}

/// The tokens of a text, in order.
pub type TokenList<'a> = ListOf<Token<'a>>;
