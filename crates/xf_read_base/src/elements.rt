//! The numbers of a dense constant.
ghost use Rattle.std.specs.Prelude.{◌≡◌, ◌==◌, [], map, IfOk};
ghost use Rattle.std.specs.List.{list_all};
ghost use Rattle.xf_dense.specs.Actions.{literal_said, said};
ghost use Rattle.xf_read_base.specs.Elements.{element_bits, common, shortened, numbers_meant, shape_at};

use crate::entries::truth_bits;
use crate::kinds::integer_bits;
use std::alloc::Global;
use xf_dense::{Body, Literal};
use xf_grammar::number_at;
use xf_ir::NumberList;
use xf_lex::Token;
use xf_type::{DimList, Duplicate, ListOf, NoMemory, PayloadType, Shape, TypeList, Width};

/// The number of an element, as that of a scalar of its width.
fn element_bits(tokens: &[Token], width: Width, literal: Literal) -> u128
    ensures { result ≡ element_bits width (literal_said tokens.now literal) }
{
    match literal {
        Literal::Truth(truth) => u128::from(truth_bits(truth)),
        Literal::Integer { negative, token } => {
            integer_bits(width, negative, number_at(tokens, token))
        }
    }
}

/// The numbers of literals, in their order. Refuses for want of memory alone.
fn all_bits(
    alloc: Global,
    tokens: &[Token],
    width: Width,
    literals: &[Literal],
) -> Result<NumberList, NoMemory>
    ensures { IfOk result (λ numbers. numbers ≡ map (element_bits width) (map (literal_said tokens.now) literals.now)) }
{
    let mut numbers = ListOf::new(alloc);
    for literal in literals {
        numbers.push(element_bits(tokens, width, *literal))?;
    }
    Ok(numbers)
}

/// Whether each number is this one.
fn all_are(number: u128, numbers: &[u128]) -> bool
    ensures { result ≡ list_all (λ k. k == number) numbers.now }
{
    for other in numbers {
        if *other != number {
            return false;
        }
    }
    true
}

/// The number that all are, where there is one.
fn common(numbers: &[u128]) -> Option<u128>
    ensures { result ≡ common numbers.now }
{
    match numbers {
        [] => None,
        [first, rest @ ..] => {
            if all_are(*first, rest) {
                Some(*first)
            } else {
                None
            }
        }
    }
}

/// One number where all are equal, and all of them else. Refuses for want of memory alone.
fn shortened(alloc: Global, numbers: NumberList) -> Result<NumberList, NoMemory>
    ensures { IfOk result (λ short. short ≡ shortened numbers) }
{
    match common(numbers.as_slice()) {
        None => Ok(numbers),
        Some(number) => ListOf::from_slice(alloc, &[number]),
    }
}

/// The numbers of a body, in the order of the text, or the one that all are. It takes time in the number
/// of literals and their bytes, and refuses for want of memory alone.
pub fn numbers(
    alloc: Global,
    tokens: &[Token],
    width: Width,
    body: &Body,
) -> Result<NumberList, NoMemory>
    ensures { IfOk result (λ numbers. numbers ≡ numbers_meant width (said tokens.now body.now)) }
{
    let numbers = all_bits(alloc, tokens, width, body.literals.as_slice())?;
    shortened(alloc, numbers)
}

/// The shape that is stated at a number; of a width, that of one element. Refuses for want of memory
/// alone.
pub fn shape_at(alloc: Global, types: &TypeList, at: usize) -> Result<Shape, NoMemory>
    ensures { IfOk result (λ shape. shape ≡ shape_at types.now at) }
{
    match types.get(at) {
        None => Ok(scalar(alloc, Width::Index)),
        Some(PayloadType::Scalar(width)) => Ok(scalar(alloc, *width)),
        Some(PayloadType::Tensor(shape)) => shape.duplicate(alloc),
    }
}

/// The shape without dimensions.
fn scalar(alloc: Global, elem: Width) -> Shape
    ensures { result ≡ record { dims = []; elem = elem } }
{
    Shape {
        dims: DimList::new(alloc),
        elem,
    }
}
