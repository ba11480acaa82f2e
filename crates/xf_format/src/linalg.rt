//! The rows of linalg, as they are printed.
ghost use Rattle.std.specs.Prelude.{◌≡◌};
ghost use Rattle.xf_format.specs.Words.{lookup};
ghost use Rattle.xf_format.specs.Linalg.{words};

use crate::row::{FormatElement, Keyword, Row};
use xf_ir::NamedKind;

/// `linalg.matmul {..} ins(%0, %1 : type, type) outs(%2 : type) -> type`
pub const NAMED: [FormatElement; 5] = [
    FormatElement::Dictionary,
    FormatElement::Ins,
    FormatElement::Outs,
    FormatElement::Arrow,
    FormatElement::ResultType,
];

/// `linalg.yield {..} %0 : i32`
pub const YIELD: [FormatElement; 4] = [
    FormatElement::Dictionary,
    FormatElement::Use(0),
    FormatElement::Mark(true, b':'),
    FormatElement::WidthOf(0),
];

/// `linalg.generic {indexing_maps = [..], iterator_types = [..]} ins(%0 : type) outs(%1 : type) attrs = {..}`
pub const GENERIC: [FormatElement; 14] = [
    FormatElement::Mark(true, b'{'),
    FormatElement::Word(false, Keyword::IndexingMaps),
    FormatElement::Mark(true, b'='),
    FormatElement::Mark(true, b'['),
    FormatElement::Maps,
    FormatElement::Mark(false, b','),
    FormatElement::Word(true, Keyword::IteratorTypes),
    FormatElement::Mark(true, b'='),
    FormatElement::Mark(true, b'['),
    FormatElement::Iterators,
    FormatElement::Mark(false, b'}'),
    FormatElement::SomeIns,
    FormatElement::Outs,
    FormatElement::MarkedAttributes,
];

/// `^bb0(%arg0: i32):`
pub const HEADER: [FormatElement; 4] = [
    FormatElement::BlockName,
    FormatElement::Mark(false, b'('),
    FormatElement::BlockParams,
    FormatElement::Mark(false, b':'),
];

/// `-> type`
pub const TAIL: [FormatElement; 2] = [FormatElement::Arrow, FormatElement::ResultType];

/// The row of the dialect that a word begins.
pub fn row_of(word: &[u8]) -> Option<Row>
    ensures { result ≡ lookup words word.now }
{
    if word == b"linalg.matmul".as_slice() {
        Some(Row::Named(NamedKind::Matmul))
    } else if word == b"linalg.batch_matmul".as_slice() {
        Some(Row::Named(NamedKind::BatchMatmul))
    } else if word == b"linalg.matvec".as_slice() {
        Some(Row::Named(NamedKind::Matvec))
    } else if word == b"linalg.dot".as_slice() {
        Some(Row::Named(NamedKind::Dot))
    } else if word == b"linalg.fill".as_slice() {
        Some(Row::Named(NamedKind::Fill))
    } else if word == b"linalg.yield".as_slice() {
        Some(Row::LinalgYield)
    } else if word == b"linalg.generic".as_slice() {
        Some(Row::Generic)
    } else {
        None
    }
}
