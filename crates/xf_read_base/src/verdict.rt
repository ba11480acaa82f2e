//! The code of the fault at the token that fits no head.
ghost use Rattle.std.specs.Prelude.{◌≡◌, ◌+◌, length};
ghost use Rattle.xf_shape.specs.TypeWords.{one_of, begins};
ghost use Rattle.xf_grammar.specs.Tokens.{terminal_at};
ghost use Rattle.xf_read_base.specs.Verdicts.{has_dot, is_row, divisions, dotted_number, is_module, is_function};
ghost use Rattle.xf_read_base.specs.Verdicts.{word_number, attribute_words, begins_attribute, begins_constant};
ghost use Rattle.xf_read_base.specs.Verdicts.{anywhere, number_if, unnamed_number, operation_number, file_number};
ghost use Rattle.xf_read_base.specs.Verdicts.{value_number, listed_number, is_not_built, listed, verdict};
ghost use Rattle.xf_read_base.specs.Verdicts.{begins_stride, begins_result, goes_on_affine};

use crate::texts::text;
use xf_format::{Expected, Row, row_of};
use xf_grammar::{looks, says, word_at};
use xf_lex::{Token, TokenKind};
use xf_shape::{inside_marks, shape_number, type_number, width_of};

/// What a token is that fits no head.
#[derive(Clone, Copy, Debug, PartialEq, Eq)]
pub enum Verdict {
    /// A token that no text has there.
    Syntax,
    /// A form of MLIR that is not supported, by its number.
    OutOfProfile(u32),
    /// A form that is not built yet.
    NotBuilt,
    /// The item, name or string with which a list of the tree would have 2^32 entries, or an operation
    /// behind as many as there may be.
    TooMany,
    /// A region inside as many as may be open.
    TooDeep,
}

fn is_division(word: &[u8]) -> bool
    ensures { result ≡ one_of divisions word.now }
{
    word == b"arith.divsi".as_slice()
        || word == b"arith.divui".as_slice()
        || word == b"arith.ceildivsi".as_slice()
        || word == b"arith.ceildivui".as_slice()
        || word == b"arith.floordivsi".as_slice()
        || word == b"arith.remsi".as_slice()
        || word == b"arith.remui".as_slice()
        || word == b"arith.divf".as_slice()
        || word == b"arith.remf".as_slice()
}

/// Whether a word is that of an operation of payloads.
pub fn is_row(word: &[u8]) -> bool
    ensures { result ≡ is_row word.now }
{
    row_of(word).is_some()
}

fn is_attribute_word(word: &[u8]) -> bool
    ensures { result ≡ one_of attribute_words word.now }
{
    word == b"dense".as_slice()
        || word == b"dense_resource".as_slice()
        || word == b"sparse".as_slice()
        || word == b"array".as_slice()
        || word == b"affine_map".as_slice()
        || word == b"affine_set".as_slice()
        || word == b"strided".as_slice()
        || word == b"distinct".as_slice()
        || word == b"opaque".as_slice()
        || word == b"tensor".as_slice()
        || word == b"complex".as_slice()
        || word == b"tuple".as_slice()
        || word == b"none".as_slice()
}

fn begins(prefix: &[u8], word: &[u8]) -> bool
    ensures { result ≡ begins prefix.now word.now }
{
    word.starts_with(prefix)
}

fn has_dot(word: &[u8]) -> bool
    ensures { result ≡ has_dot word.now }
{
    word.contains(&b'.')
}

/// The number of a word with a dot in the place of an operation.
fn dotted_number(word: &[u8]) -> Option<u32>
    ensures { result ≡ dotted_number word.now }
{
    if is_division(word) {
        Some(2)
    } else if begins(b"memref.", word) || begins(b"vector.", word) {
        Some(5)
    } else if begins(b"affine.", word) {
        Some(6)
    } else if begins(b"cf.", word) {
        Some(7)
    } else if begins(b"scf.", word) && !is_row(word) {
        Some(8)
    } else if word == b"linalg.index".as_slice() {
        Some(10)
    } else if begins(b"linalg.", word) && !is_row(word) {
        Some(9)
    } else if has_dot(word) {
        Some(21)
    } else {
        None
    }
}

/// Whether a word is that of a module.
fn is_module(word: &[u8]) -> bool
    ensures { result ≡ is_module word.now }
{
    match row_of(word) {
        Some(Row::Module) => true,
        _ => word == b"builtin.module".as_slice(),
    }
}

/// Whether a word is that of a function.
fn is_function(word: &[u8]) -> bool
    ensures { result ≡ is_function word.now }
{
    matches!(row_of(word), Some(Row::Function))
}

/// The number of a word in the place of an operation or a function.
fn word_number(word: &[u8]) -> Option<u32>
    ensures { result ≡ word_number word.now }
{
    if is_module(word) {
        Some(15)
    } else {
        dotted_number(word)
    }
}

/// Whether a token begins an attribute that is not supported.
fn begins_attribute(tokens: &[Token], at: usize) -> bool
    ensures { result ≡ begins_attribute (terminal_at tokens.now at) }
{
    let word = word_at(tokens, at);
    looks(tokens, at, TokenKind::Mark(b'['))
        || looks(tokens, at, TokenKind::Mark(b'{'))
        || looks(tokens, at, TokenKind::Mark(b'('))
        || looks(tokens, at, TokenKind::Symbol)
        || looks(tokens, at, TokenKind::Hash)
        || looks(tokens, at, TokenKind::DialectType)
        || is_attribute_word(word)
        || width_of(word).is_some()
}

/// Whether a token begins a constant that is not supported.
fn begins_constant(tokens: &[Token], at: usize) -> bool
    ensures { result ≡ begins_constant (terminal_at tokens.now at) }
{
    looks(tokens, at, TokenKind::Text) || says(tokens, at, b"unit") || begins_attribute(tokens, at)
}

/// The number of what is not supported wherever it stands.
fn anywhere(tokens: &[Token], at: usize, next: usize) -> Option<u32>
    ensures { result ≡ anywhere (terminal_at tokens.now at) (terminal_at tokens.now next) }
{
    if says(tokens, at, b"overflow") && looks(tokens, next, TokenKind::Mark(b'<')) {
        Some(3)
    } else if looks(tokens, at, TokenKind::Mark(b'<'))
        && looks(tokens, next, TokenKind::Mark(b'{'))
    {
        Some(11)
    } else if says(tokens, at, b"loc") && looks(tokens, next, TokenKind::Mark(b'(')) {
        Some(12)
    } else {
        None
    }
}

/// The number of a string or of the name of a block.
fn unnamed_number(tokens: &[Token], at: usize) -> Option<u32>
    ensures { result ≡ unnamed_number (terminal_at tokens.now at) }
{
    if looks(tokens, at, TokenKind::Text) {
        Some(11)
    } else if looks(tokens, at, TokenKind::BlockName) {
        Some(7)
    } else {
        None
    }
}

/// The number of a token in the place of an operation or a function.
fn operation_number(tokens: &[Token], at: usize) -> Option<u32>
    ensures { result ≡ operation_number (terminal_at tokens.now at) }
{
    unnamed_number(tokens, at).or(word_number(word_at(tokens, at)))
}

/// The number of a token where a file begins.
fn file_number(tokens: &[Token], at: usize) -> Option<u32>
    ensures { result ≡ file_number (terminal_at tokens.now at) }
{
    unnamed_number(tokens, at).or(dotted_number(word_at(tokens, at)))
}

fn number_if(is_listed: bool, number: u32) -> Option<u32>
    ensures { result ≡ number_if is_listed number }
{
    if is_listed { Some(number) } else { None }
}

/// The number of a token in the place of a value: of a type its own, else that of other attributes.
fn value_number(tokens: &[Token], at: usize, is_value: bool) -> Option<u32>
    ensures { result ≡ value_number is_value (terminal_at tokens.now at) }
{
    type_number(word_at(tokens, at)).or(number_if(is_value, 14))
}

/// Whether a token begins a stride, which is another than 1.
fn begins_stride(tokens: &[Token], at: usize) -> bool
    ensures { result ≡ begins_stride (terminal_at tokens.now at) }
{
    looks(tokens, at, TokenKind::Integer)
        || looks(tokens, at, TokenKind::Mark(b'-'))
        || looks(tokens, at, TokenKind::Value)
}

/// Whether a token begins a result of an affine map, which is no dimension.
fn begins_result(tokens: &[Token], at: usize) -> bool
    ensures { result ≡ begins_result (terminal_at tokens.now at) }
{
    looks(tokens, at, TokenKind::Integer)
        || looks(tokens, at, TokenKind::Mark(b'-'))
        || looks(tokens, at, TokenKind::Mark(b'('))
}

/// Whether an affine expression goes on with a token behind a dimension.
fn goes_on_affine(tokens: &[Token], at: usize) -> bool
    ensures { result ≡ goes_on_affine (terminal_at tokens.now at) }
{
    let word = word_at(tokens, at);
    looks(tokens, at, TokenKind::Mark(b'-'))
        || word == b"floordiv".as_slice()
        || word == b"ceildiv".as_slice()
        || word == b"mod".as_slice()
}

/// The number of what is not supported in the place of what was due.
fn listed_number(tokens: &[Token], at: usize, due: Expected) -> Option<u32>
    ensures { result ≡ listed_number due (terminal_at tokens.now at) }
{
    let word = word_at(tokens, at);
    match due {
        Expected::File => file_number(tokens, at),
        Expected::Function | Expected::Operation => operation_number(tokens, at),
        Expected::ArithWidth if says(tokens, at, b"tensor") => Some(18),
        Expected::Type | Expected::Width | Expected::ArithWidth => type_number(word),
        Expected::Shape => shape_number(inside_marks(text(tokens, at))),
        Expected::AttributeValue => value_number(tokens, at, begins_attribute(tokens, at)),
        Expected::ConstantValue => value_number(tokens, at, begins_constant(tokens, at)),
        Expected::FunctionName => number_if(
            word == b"public".as_slice() || word == b"nested".as_slice(),
            19,
        ),
        Expected::AfterArgument | Expected::AfterResult => {
            number_if(looks(tokens, at, TokenKind::Mark(b'{')), 13)
        }
        Expected::DenseItem => number_if(looks(tokens, at, TokenKind::Text), 14),
        Expected::Stride => number_if(begins_stride(tokens, at), 16),
        Expected::AfterDimensions => number_if(looks(tokens, at, TokenKind::Mark(b'[')), 6),
        Expected::MapResult => number_if(begins_result(tokens, at), 6),
        Expected::DimensionTwice => Some(6),
        Expected::AfterMapResult => number_if(goes_on_affine(tokens, at), 6),
        Expected::Outs => number_if(
            looks(tokens, at, TokenKind::Arrow)
                || looks(tokens, at, TokenKind::Mark(b'{'))
                || says(tokens, at, b"attrs"),
            20,
        ),
        Expected::OutsOperand => number_if(looks(tokens, at, TokenKind::Mark(b')')), 20),
        Expected::AfterOut => number_if(looks(tokens, at, TokenKind::Mark(b',')), 20),
        Expected::FunctionBody => number_if(
            looks(tokens, at, TokenKind::Mark(b'}')) || is_function(word),
            19,
        ),
        Expected::ListEnd | Expected::NestLimit | Expected::Other => None,
    }
}

/// Whether a token begins what is not built yet.
fn is_not_built(tokens: &[Token], at: usize, due: Expected) -> bool
    ensures { result ≡ is_not_built due (terminal_at tokens.now at) }
{
    match due {
        Expected::File => looks(tokens, at, TokenKind::Hash),
        _ => false,
    }
}

/// The number of the token behind a token; behind the end stands the end.
#[tactic(auto, using(crate::proofs::Ends::seen_past))]
fn behind(tokens: &[Token], at: usize) -> usize
    ensures { terminal_at tokens.now result ≡ terminal_at tokens.now (at + 1) }
{
    if at < tokens.len() { at + 1 } else { at }
}

/// What the token is that fits no head, by what was due there.
pub fn judge(tokens: &[Token], at: usize, due: Expected) -> Verdict
    ensures { result ≡ verdict due (terminal_at tokens.now at) (terminal_at tokens.now (at + 1)) }
{
    match due {
        Expected::ListEnd => return Verdict::TooMany,
        Expected::NestLimit => return Verdict::TooDeep,
        _ => {}
    }
    if let Some(number) = anywhere(tokens, at, behind(tokens, at)) {
        return Verdict::OutOfProfile(number);
    }
    if is_not_built(tokens, at, due) {
        return Verdict::NotBuilt;
    }
    match listed_number(tokens, at, due) {
        Some(number) => Verdict::OutOfProfile(number),
        None => Verdict::Syntax,
    }
}
