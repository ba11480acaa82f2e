//! The rows of tensor, as they are printed.
ghost use Rattle.std.specs.Prelude.{◌≡◌};
ghost use Rattle.xf_format.specs.Words.{lookup};
ghost use Rattle.xf_format.specs.Tensor.{words};

use crate::row::{FormatElement, Keyword, Row, Side};

/// `tensor.empty(%0, %1) {..} : tensor<?x?xi32>`
pub const EMPTY: [FormatElement; 5] = [
    FormatElement::Mark(false, b'('),
    FormatElement::Uses(0, b')'),
    FormatElement::Dictionary,
    FormatElement::Mark(true, b':'),
    FormatElement::ResultTensor,
];

/// `tensor.dim {..} %0, %1 : tensor<?xi32>`
pub const DIM: [FormatElement; 6] = [
    FormatElement::Dictionary,
    FormatElement::Use(0),
    FormatElement::Mark(false, b','),
    FormatElement::Use(1),
    FormatElement::Mark(true, b':'),
    FormatElement::TensorOf(0),
];

/// `tensor.extract %0[%1, %2] {..} : tensor<4x4xi32>`
pub const EXTRACT: [FormatElement; 6] = [
    FormatElement::Use(0),
    FormatElement::Mark(false, b'['),
    FormatElement::Uses(1, b']'),
    FormatElement::Dictionary,
    FormatElement::Mark(true, b':'),
    FormatElement::TensorOf(0),
];

/// `tensor.insert %0 into %1[%2, %3] {..} : tensor<4x4xi32>`
pub const INSERT: [FormatElement; 8] = [
    FormatElement::Use(0),
    FormatElement::Word(true, Keyword::Into),
    FormatElement::Use(1),
    FormatElement::Mark(false, b'['),
    FormatElement::Uses(2, b']'),
    FormatElement::Dictionary,
    FormatElement::Mark(true, b':'),
    FormatElement::TensorOf(1),
];

/// `tensor.extract_slice %0[0, %1] [4, %2] [1, 1] {..} : tensor<8x8xi32> to tensor<4x?xi32>`
pub const EXTRACT_SLICE: [FormatElement; 12] = [
    FormatElement::Use(0),
    FormatElement::Mark(false, b'['),
    FormatElement::Places(Side::Offsets),
    FormatElement::Mark(true, b'['),
    FormatElement::Places(Side::Sizes),
    FormatElement::Mark(true, b'['),
    FormatElement::Strides,
    FormatElement::Dictionary,
    FormatElement::Mark(true, b':'),
    FormatElement::TypeOf(0),
    FormatElement::Word(true, Keyword::To),
    FormatElement::ResultType,
];

/// `tensor.insert_slice %0 into %1[0, %2] [4, %3] [1, 1] {..} : tensor<4x?xi32> into tensor<8x8xi32>`
pub const INSERT_SLICE: [FormatElement; 14] = [
    FormatElement::Use(0),
    FormatElement::Word(true, Keyword::Into),
    FormatElement::Use(1),
    FormatElement::Mark(false, b'['),
    FormatElement::Places(Side::Offsets),
    FormatElement::Mark(true, b'['),
    FormatElement::Places(Side::Sizes),
    FormatElement::Mark(true, b'['),
    FormatElement::Strides,
    FormatElement::Dictionary,
    FormatElement::Mark(true, b':'),
    FormatElement::TypeOf(0),
    FormatElement::Word(true, Keyword::Into),
    FormatElement::TypeOf(1),
];

/// `tensor.cast %0 {..} : tensor<4xi32> to tensor<?xi32>`
pub const CAST: [FormatElement; 6] = [
    FormatElement::Use(0),
    FormatElement::Dictionary,
    FormatElement::Mark(true, b':'),
    FormatElement::TypeOf(0),
    FormatElement::Word(true, Keyword::To),
    FormatElement::ResultType,
];

/// The row of the dialect that a word begins.
pub fn row_of(word: &[u8]) -> Option<Row>
    ensures { result ≡ lookup words word.now }
{
    if word == b"tensor.empty".as_slice() {
        Some(Row::Empty)
    } else if word == b"tensor.dim".as_slice() {
        Some(Row::Dim)
    } else if word == b"tensor.extract".as_slice() {
        Some(Row::Extract)
    } else if word == b"tensor.insert".as_slice() {
        Some(Row::Insert)
    } else if word == b"tensor.extract_slice".as_slice() {
        Some(Row::ExtractSlice)
    } else if word == b"tensor.insert_slice".as_slice() {
        Some(Row::InsertSlice)
    } else if word == b"tensor.cast".as_slice() {
        Some(Row::Cast)
    } else {
        None
    }
}
