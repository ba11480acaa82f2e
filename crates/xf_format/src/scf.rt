//! The rows of scf, as they are printed.
ghost use Rattle.std.specs.Prelude.{◌≡◌};
ghost use Rattle.xf_format.specs.Words.{lookup};
ghost use Rattle.xf_format.specs.Scf.{words};

use crate::row::{FormatElement, Keyword, Row};

/// `scf.for %arg0 = %0 to %1 step %2 iter_args(%arg1 = %3) -> (i32) : i64`
pub const FOR: [FormatElement; 9] = [
    FormatElement::Argument,
    FormatElement::Mark(true, b'='),
    FormatElement::Use(0),
    FormatElement::Word(true, Keyword::To),
    FormatElement::Use(1),
    FormatElement::Word(true, Keyword::Step),
    FormatElement::Use(2),
    FormatElement::IterArgs,
    FormatElement::LoopWidth,
];

/// `scf.if %0 -> (i32)`
pub const IF: [FormatElement; 2] = [FormatElement::Use(0), FormatElement::IfResults];

/// `{..}` behind the bodies of a loop and an if.
pub const TAIL: [FormatElement; 1] = [FormatElement::Dictionary];

/// The row of the dialect that a word begins.
pub fn row_of(word: &[u8]) -> Option<Row>
    ensures { result ≡ lookup words word.now }
{
    if word == b"scf.for".as_slice() {
        Some(Row::For)
    } else if word == b"scf.if".as_slice() {
        Some(Row::If)
    } else if word == b"scf.yield".as_slice() {
        Some(Row::Yield)
    } else {
        None
    }
}
