//! Dense constants.
ghost use Rattle.std.specs.Prelude.{◌≡◌, IfOk, Some, MatchBool, true, length, min};
ghost use Rattle.xf_points.specs.Points.{product};
ghost use Rattle.xf_sem.specs.Tensors.{dense_given, dense_items, only_if, tensor};
ghost use Rattle.xf_sem.specs.Values.{fits_width};
ghost use Rattle.xf_eval_values.specs.Given.{given_run, listed_one};
ghost use Rattle.xf_eval_values.specs.Meets.{Meets};
ghost use Rattle.xf_eval_tensors.specs.Dense.{number_elem, dense_elem, dense_list, AllFit, SomeUnfit};

use crate::shape::sizes_with;
use std::alloc::{AllocError, Global};
use xf_eval_values::{Held, Stop, Tensor, admit, product_within};
use xf_ir::OpName;
use xf_sem::{ElemList, SizeList};
use xf_type::{Elem, ListOf, NoMemory, PayloadType, Shape, Width, greatest};

/// The number of an element: the one of all, or the next of the list.
fn number_at(numbers: &[u128], at: usize) -> Option<u128>
    ensures { number_elem result ≡ dense_elem numbers.now at }
{
    match numbers {
        [number] => Some(*number),
        _ => match numbers.get(at) {
            None => None,
            Some(number) => Some(*number),
        },
    }
}

/// An element, where it is one of the width.
fn elem_at(width: Width, numbers: &[u128], at: usize) -> Option<Elem>
    ensures { result ≡ only_if (fits_width width (dense_elem numbers.now at)) (dense_elem numbers.now at) }
{
    match number_at(numbers, at) {
        None => Some(Elem::NoNumber),
        Some(number) => {
            if number > greatest(width) as u128 {
                None
            } else {
                Some(Elem::Num(number as u64))
            }
        }
    }
}

/// An element that is one of the width.
fn fitting_elem(width: Width, numbers: &[u128], at: usize) -> Elem
    requires { fits_width width (dense_elem numbers.now at) ≡ true }
    ensures { result ≡ dense_elem numbers.now at }
{
    match elem_at(width, numbers, at) {
        None => Elem::NoNumber,
        Some(elem) => elem,
    }
}

/// Whether the first elements, so many, are of the width.
fn first_fit(width: Width, numbers: &[u128], count: usize) -> bool
    ensures { MatchBool result (AllFit width numbers.now count) (SomeUnfit width numbers.now count) }
{
    for at in 0..count {
        if elem_at(width, numbers, at).is_none() {
            return false;
        }
    }
    true
}

/// How many of the numbers are elements of a tensor of these sizes.
fn used(sizes: &[u32], numbers: &[u128]) -> usize
    ensures { result ≡ min (product sizes.now) (length numbers.now) }
{
    match product_within(sizes, numbers.len() as u64) {
        None => numbers.len(),
        Some(count) => count as usize,
    }
}

/// Whether the elements of a tensor of these sizes are of the width.
fn elements_fit(width: Width, sizes: &[u32], numbers: &[u128]) -> bool
    ensures { MatchBool result (AllFit width numbers.now (product sizes.now))
        (SomeUnfit width numbers.now (product sizes.now)) }
{
    first_fit(width, numbers, used(sizes, numbers))
}

/// The first elements, so many, which are of the width. Refuses for want of memory alone.
fn elements(alloc: Global, width: Width, numbers: &[u128], count: u64) -> Result<ElemList, NoMemory>
    requires { AllFit width numbers.now count }
    ensures { IfOk result (λ elems. elems ≡ dense_list numbers.now count) }
{
    let mut elems = Vec::new(alloc);
    for at in 0..count {
        if elems
            .push(fitting_elem(width, numbers, at as usize))
            .is_err()
        {
            return Err(AllocError);
        }
    }
    Ok(ListOf::from_vec(elems))
}

/// The tensor of these sizes and numbers, where it fits the type of the one result and the budget has its units.
fn dense_of(
    alloc: Global,
    op: OpName,
    types: &[PayloadType],
    width: Width,
    sizes: SizeList,
    numbers: &[u128],
    budget: &mut u64,
) -> Result<Held, Stop>
    ensures { Meets (given_run op types.now 0 (Some (tensor width sizes (dense_items sizes numbers.now))))
        budget.old budget.new (listed_one result) }
{
    if !elements_fit(width, sizes.as_slice(), numbers) {
        return Err(Stop::Undefined(op));
    }
    match admit(op, types, width, sizes.as_slice(), 0, budget) {
        Err(stop) => Err(stop),
        Ok(count) => {
            let elems = elements(alloc, width, numbers, count)?;
            Ok(Held::tensor(
                alloc,
                Tensor {
                    width,
                    shape: sizes,
                    elems,
                },
            )?)
        }
    }
}

/// The tensor of a dense constant: of the type's sizes, where none is dynamic, and these numbers, or the one number of
/// all.
pub fn dense(
    alloc: Global,
    op: OpName,
    types: &[PayloadType],
    shape: &Shape,
    numbers: &[u128],
    budget: &mut u64,
) -> Result<Held, Stop>
    ensures { Meets (given_run op types.now 0 (dense_given shape.now numbers.now))
        budget.old budget.new (listed_one result) }
{
    match sizes_with(alloc, shape.dims.as_slice(), &[])? {
        None => Err(Stop::Undefined(op)),
        Some(sizes) => dense_of(alloc, op, types, shape.elem, sizes, numbers, budget),
    }
}
