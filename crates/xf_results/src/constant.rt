//! The constants that give values.
ghost use Rattle.std.specs.Prelude.{◌≡◌, IfOk, map};
ghost use Rattle.xf_ir.specs.Lists.{every};
ghost use Rattle.xf_type.specs.declared.payload_type.Dim.TheVariants.{Fixed};
ghost use Rattle.xf_results.specs.Results.{are_numbers, constant_of, is_number, is_of_numbers, number_or_zero, shortest};

use std::alloc::{AllocError, Global};
use xf_ir::{Kind, NumberList};
use xf_rules_shape::all_equal;
use xf_sem::Value;
use xf_type::{Dim, DimList, Elem, ListOf, NoMemory, Shape};

fn is_number(elem: Elem) -> bool
    ensures { result ≡ is_number elem }
{
    match elem {
        Elem::Num(_) => true,
        Elem::NoNumber => false,
    }
}

fn all_numbers(elems: &[Elem]) -> bool
    ensures { result ≡ every is_number elems.now }
{
    for elem in elems {
        if !is_number(*elem) {
            return false;
        }
    }
    true
}

fn is_of_numbers(value: &Value) -> bool
    ensures { result ≡ is_of_numbers value.now }
{
    match value {
        Value::Scalar { elem, .. } => is_number(*elem),
        Value::Tensor { elems, .. } => all_numbers(elems.as_slice()),
    }
}

/// Whether each element of each value is a number. Takes time in the number of elements.
pub fn are_numbers(values: &[Value]) -> bool
    ensures { result ≡ are_numbers values.now }
{
    for value in values {
        if !is_of_numbers(value) {
            return false;
        }
    }
    true
}

fn number_or_zero(elem: Elem) -> u64
    ensures { result ≡ number_or_zero elem }
{
    match elem {
        Elem::Num(number) => number,
        Elem::NoNumber => 0,
    }
}

/// The numbers of elements. Refuses for want of memory alone.
fn numbers_of(alloc: Global, elems: &[Elem]) -> Result<NumberList, NoMemory>
    ensures { IfOk result (λ numbers. numbers ≡ map number_or_zero elems.now) }
{
    let mut numbers = Vec::new(alloc);
    for elem in elems {
        if numbers.push(number_or_zero(*elem) as u128).is_err() {
            return Err(AllocError);
        }
    }
    Ok(ListOf::from_vec(numbers))
}

/// One number where all are equal, and all of them else. Refuses for want of memory alone.
fn shortest(alloc: Global, numbers: NumberList) -> Result<NumberList, NoMemory>
    ensures { IfOk result (λ short. short ≡ shortest numbers) }
{
    match numbers.as_slice() {
        [first, ..] if all_equal(numbers.as_slice()) => ListOf::from_slice(alloc, &[*first]),
        _ => Ok(numbers),
    }
}

/// Fixed dimensions of these sizes. Refuses for want of memory alone.
fn dims_of(alloc: Global, sizes: &[u32]) -> Result<DimList, NoMemory>
    ensures { IfOk result (λ dims. dims ≡ map Fixed sizes.now) }
{
    let mut dims = Vec::new(alloc);
    for size in sizes {
        dims.push(Dim::Fixed(*size))?;
    }
    Ok(ListOf::from_vec(dims))
}

/// The constant that gives a value; what is no number is 0 in it. Refuses for want of memory alone.
pub fn constant_of(alloc: Global, value: &Value) -> Result<Kind, NoMemory>
    ensures { IfOk result (λ kind. kind ≡ constant_of value.now) }
{
    match value {
        Value::Scalar { width, elem } => Ok(Kind::Constant {
            width: *width,
            bits: number_or_zero(*elem) as u128,
        }),
        Value::Tensor {
            width,
            shape,
            elems,
        } => {
            let numbers = numbers_of(alloc, elems.as_slice())?;
            let dims = dims_of(alloc, shape.as_slice())?;
            Ok(Kind::Dense {
                shape: Shape { dims, elem: *width },
                numbers: shortest(alloc, numbers)?,
            })
        }
    }
}
