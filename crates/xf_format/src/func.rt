//! The rows of func, as they are printed.
ghost use Rattle.std.specs.Prelude.{◌≡◌};
ghost use Rattle.xf_format.specs.Words.{lookup};
ghost use Rattle.xf_format.specs.Func.{words};

use crate::row::{FormatElement, Row};

/// `func.func private @name(%arg0: i32) -> i32 attributes {..}`
pub const FUNCTION: [FormatElement; 5] = [
    FormatElement::FunctionName,
    FormatElement::Mark(false, b'('),
    FormatElement::Params,
    FormatElement::FunctionResults,
    FormatElement::Attributes,
];

/// `func.return {..} %0 : i32`
pub const TERMINATOR: [FormatElement; 2] = [FormatElement::Dictionary, FormatElement::Operands];

/// `func.call @name(%0) {..} : (i32) -> i32`
pub const CALL: [FormatElement; 8] = [
    FormatElement::Symbol,
    FormatElement::Mark(false, b'('),
    FormatElement::Uses(0, b')'),
    FormatElement::Dictionary,
    FormatElement::Mark(true, b':'),
    FormatElement::Mark(true, b'('),
    FormatElement::Types,
    FormatElement::CallResults,
];

/// The row of the dialect that a word begins.
pub fn row_of(word: &[u8]) -> Option<Row>
    ensures { result ≡ lookup words word.now }
{
    if word == b"func.func".as_slice() {
        Some(Row::Function)
    } else if word == b"func.return".as_slice() {
        Some(Row::Return)
    } else if word == b"return".as_slice() {
        Some(Row::Return)
    } else if word == b"func.call".as_slice() {
        Some(Row::Call)
    } else if word == b"call".as_slice() {
        Some(Row::Call)
    } else {
        None
    }
}
