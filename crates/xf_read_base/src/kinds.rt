//! The kinds of operations.
ghost use Rattle.std.specs.Prelude.{◌≡◌, drop, IfOk};
ghost use Rattle.std.specs.Option.{option_map};
ghost use Rattle.xf_dense.specs.Actions as elements;
ghost use Rattle.xf_format.specs.Parts.{text_at, literal_said, said};
ghost use Rattle.xf_read_base.specs.Numbers.{integer_bits};
ghost use Rattle.xf_read_base.specs.Structured.{aliases_in};
ghost use Rattle.xf_read_base.specs.Values.{bits_said, word_said, width_at, predicate_or, dense_said};
ghost use Rattle.xf_read_base.specs.Values.{constant_said, kind_said};

use crate::alias::Alias;
use crate::elements::{numbers, shape_at};
use crate::entries::{signed, truth_bits};
use crate::structured::{maps, window};
use crate::texts::text;
use std::alloc::Global;
use xf_dense::Body;
use xf_format::{Literal, Parts, Row, behind_first, has_room};
use xf_grammar::number;
use xf_ir::Kind;
use xf_lex::Token;
use xf_type::{
    ByteList, CmpKind, Duplicate, ListOf, NoMemory, PayloadType, Shape, TypeList, Width, wrap,
};

/// The number of a literal of a width.
pub fn integer_bits(width: Width, negative: bool, number: u64) -> u128
    ensures { result ≡ integer_bits width negative number }
{
    if has_room(width, negative, number) {
        u128::from(wrap(width, signed(negative, number)))
    } else if negative {
        u128::MAX - u128::from(number) + 1
    } else {
        u128::from(number)
    }
}

fn literal_bits(tokens: &[Token], width: Width, literal: Option<Literal>) -> u128
    ensures { result ≡ bits_said width (option_map (literal_said tokens.now) literal) }
{
    match literal {
        None | Some(Literal::Elements) => 0,
        Some(Literal::Truth(truth)) => u128::from(truth_bits(truth)),
        Some(Literal::Integer { negative, token }) => {
            integer_bits(width, negative, number(text(tokens, token)))
        }
    }
}

/// The word of a symbol.
fn symbol(alloc: Global, tokens: &[Token], at: usize) -> Result<ByteList, NoMemory>
    ensures { IfOk result (λ symbol. symbol ≡ drop 1 (text_at tokens.now at)) }
{
    ByteList::from_slice(alloc, behind_first(text(tokens, at)))
}

fn symbol_or(alloc: Global, tokens: &[Token], at: Option<usize>) -> Result<ByteList, NoMemory>
    ensures { IfOk result (λ symbol. symbol ≡ word_said (option_map (text_at tokens.now) at)) }
{
    match at {
        None => Ok(ByteList::new(alloc)),
        Some(at) => symbol(alloc, tokens, at),
    }
}

fn module_symbol(
    alloc: Global,
    tokens: &[Token],
    at: Option<usize>,
) -> Result<Option<ByteList>, NoMemory>
    ensures { IfOk result (λ symbol. symbol ≡ option_map (drop 1) (option_map (text_at tokens.now) at)) }
{
    match at {
        None => Ok(None),
        Some(at) => Ok(Some(symbol(alloc, tokens, at)?)),
    }
}

/// The width that is stated at a number.
fn width_at(types: &TypeList, at: usize) -> Width
    ensures { result ≡ width_at types.now at }
{
    match types.get(at) {
        None => Width::Index,
        Some(PayloadType::Scalar(width)) => *width,
        Some(PayloadType::Tensor(shape)) => shape.elem,
    }
}

fn predicate_or(predicate: Option<CmpKind>) -> CmpKind
    ensures { result ≡ predicate_or predicate }
{
    match predicate {
        None => CmpKind::Eq,
        Some(kind) => kind,
    }
}

/// A constant that is a tensor of this shape. Refuses for want of memory alone.
fn dense(alloc: Global, tokens: &[Token], shape: Shape, body: &Body) -> Result<Kind, NoMemory>
    ensures { IfOk result (λ kind. kind ≡ dense_said shape (elements.said tokens.now body.now)) }
{
    let numbers = numbers(alloc, tokens, shape.elem, body)?;
    Ok(Kind::Dense { shape, numbers })
}

/// A constant, which is a tensor where it has a body. Refuses for want of memory alone.
fn constant(alloc: Global, tokens: &[Token], parts: &Parts) -> Result<Kind, NoMemory>
    ensures { IfOk result (λ kind. kind ≡ constant_said parts.now.types (elements.said tokens.now parts.now.dense)
        (option_map (literal_said tokens.now) parts.now.literal)) }
{
    match parts.literal {
        Some(Literal::Elements) => {
            let shape = shape_at(alloc, &parts.types, 0)?;
            dense(alloc, tokens, shape, &parts.dense)
        }
        literal => {
            let width = width_at(&parts.types, 0);
            let bits = literal_bits(tokens, width, literal);
            Ok(Kind::Constant { width, bits })
        }
    }
}

/// The kind of an operation, with the attributes of its own, by what the aliases of maps stand for; an
/// alias that is not among them for the map without dimensions. It takes time in the length of the head
/// and the number of its aliases among all. Refuses for want of memory alone.
pub fn kind_of(
    alloc: Global,
    tokens: &[Token],
    aliases: &[Alias],
    parts: &Parts,
) -> Result<Kind, NoMemory>
    ensures { IfOk result (λ kind. kind
        ≡ kind_said (aliases_in aliases.now) parts.now.row (said tokens.now parts.now)) }
{
    let width = width_at(&parts.types, 0);
    Ok(match parts.row {
        Row::Module => Kind::Module {
            symbol: module_symbol(alloc, tokens, parts.symbol)?,
        },
        Row::Function => Kind::Func {
            symbol: symbol_or(alloc, tokens, parts.symbol)?,
            private: parts.private,
            results: parts.results.duplicate(alloc)?,
        },
        Row::Return => Kind::Return,
        Row::Call => Kind::Call {
            callee: symbol_or(alloc, tokens, parts.symbol)?,
        },
        Row::Constant => constant(alloc, tokens, parts)?,
        Row::Binary(kind) => Kind::Binary { kind, width },
        Row::Compare => Kind::Compare {
            kind: predicate_or(parts.predicate),
            width,
        },
        Row::Select => Kind::Select { width },
        Row::Convert(kind) => Kind::Convert {
            kind,
            from: width,
            to: width_at(&parts.types, 1),
        },
        Row::For => Kind::For { width },
        Row::If => Kind::If,
        Row::Empty => Kind::Empty,
        Row::Dim => Kind::Dim,
        Row::Extract => Kind::Extract,
        Row::Insert => Kind::Insert,
        Row::ExtractSlice => Kind::ExtractSlice {
            offsets: window(alloc, tokens, parts.offsets.as_slice())?,
            sizes: window(alloc, tokens, parts.sizes.as_slice())?,
        },
        Row::InsertSlice => Kind::InsertSlice {
            offsets: window(alloc, tokens, parts.offsets.as_slice())?,
            sizes: window(alloc, tokens, parts.sizes.as_slice())?,
        },
        Row::Cast => Kind::Cast,
        Row::Named(kind) => Kind::Named { kind },
        Row::Generic => Kind::Generic {
            maps: maps(alloc, tokens, aliases, parts.maps.as_slice())?,
            iterators: ListOf::from_slice(alloc, parts.iterators.as_slice())?,
        },
        Row::LinalgYield => Kind::LinalgYield,
        Row::Yield => Kind::Yield,
    })
}
