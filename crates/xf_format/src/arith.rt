//! The rows of arith, as they are printed.
ghost use Rattle.std.specs.Prelude.{◌≡◌};
ghost use Rattle.xf_format.specs.Words.{lookup};
ghost use Rattle.xf_format.specs.Arith.{words, singles, binaries, conversions};

use crate::row::{FormatElement, Keyword, Row};
use xf_type::{BinKind, ConvKind};

/// `arith.constant {..} 5 : i32`
pub const CONSTANT: [FormatElement; 2] = [FormatElement::Dictionary, FormatElement::Literal];

/// `arith.addi %0, %1 {..} : i32`
pub const BINARY: [FormatElement; 6] = [
    FormatElement::Use(0),
    FormatElement::Mark(false, b','),
    FormatElement::Use(1),
    FormatElement::Dictionary,
    FormatElement::Mark(true, b':'),
    FormatElement::Width(0),
];

/// `arith.cmpi slt, %0, %1 {..} : i32`
pub const COMPARE: [FormatElement; 8] = [
    FormatElement::Predicate,
    FormatElement::Mark(false, b','),
    FormatElement::Use(0),
    FormatElement::Mark(false, b','),
    FormatElement::Use(1),
    FormatElement::Dictionary,
    FormatElement::Mark(true, b':'),
    FormatElement::Width(0),
];

/// `arith.select %0, %1, %2 {..} : i32`
pub const SELECT: [FormatElement; 8] = [
    FormatElement::Use(0),
    FormatElement::Mark(false, b','),
    FormatElement::Use(1),
    FormatElement::Mark(false, b','),
    FormatElement::Use(2),
    FormatElement::Dictionary,
    FormatElement::Mark(true, b':'),
    FormatElement::Width(0),
];

/// `arith.extsi %0 {..} : i8 to i32`
pub const CONVERT: [FormatElement; 6] = [
    FormatElement::Use(0),
    FormatElement::Dictionary,
    FormatElement::Mark(true, b':'),
    FormatElement::Width(0),
    FormatElement::Word(true, Keyword::To),
    FormatElement::Width(1),
];

/// The operations on two numbers.
const BINARIES: [BinKind; 13] = [
    BinKind::Addi,
    BinKind::Subi,
    BinKind::Muli,
    BinKind::Andi,
    BinKind::Ori,
    BinKind::Xori,
    BinKind::Shli,
    BinKind::Shrui,
    BinKind::Shrsi,
    BinKind::Minsi,
    BinKind::Maxsi,
    BinKind::Minui,
    BinKind::Maxui,
];

/// The conversions.
const CONVERSIONS: [ConvKind; 5] = [
    ConvKind::Extsi,
    ConvKind::Extui,
    ConvKind::Trunci,
    ConvKind::IndexCast,
    ConvKind::IndexCastui,
];

/// The row of the operation on two numbers that a word begins.
fn binary_of(word: &[u8]) -> Option<Row>
    ensures { result ≡ lookup binaries word.now }
{
    let all = BINARIES.as_slice();
    for kind in all {
        if word == kind.spelling() {
            return Some(Row::Binary(*kind));
        }
    }
    None
}

/// The row of the conversion that a word begins.
fn conversion_of(word: &[u8]) -> Option<Row>
    ensures { result ≡ lookup conversions word.now }
{
    let all = CONVERSIONS.as_slice();
    for kind in all {
        if word == kind.spelling() {
            return Some(Row::Convert(*kind));
        }
    }
    None
}

/// The row with a word of its own that a word begins.
fn single_of(word: &[u8]) -> Option<Row>
    ensures { result ≡ lookup singles word.now }
{
    if word == b"arith.constant".as_slice() {
        Some(Row::Constant)
    } else if word == b"arith.cmpi".as_slice() {
        Some(Row::Compare)
    } else if word == b"arith.select".as_slice() {
        Some(Row::Select)
    } else {
        None
    }
}

/// The row of the dialect that a word begins.
pub fn row_of(word: &[u8]) -> Option<Row>
    ensures { result ≡ lookup words word.now }
{
    if let Some(row) = single_of(word) {
        return Some(row);
    }
    if let Some(row) = binary_of(word) {
        return Some(row);
    }
    conversion_of(word)
}
