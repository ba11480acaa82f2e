//! Tensors that are made.
ghost use Rattle.std.specs.Prelude.{◌≡◌, IfOk, Some, replicate};
ghost use Rattle.xf_type.specs.Integers.{FitsWidth};
ghost use Rattle.xf_sem.specs.Tensors.{empty_given, tensor};
ghost use Rattle.xf_eval_values.specs.Given.{given_run, listed_one};
ghost use Rattle.xf_eval_values.specs.Meets.{Meets};
ghost use Rattle.xf_eval_tensors.specs.Sizes.{empty_by};

use crate::index::indices;
use crate::shape::sizes_with;
use std::alloc::{AllocError, Global};
use xf_eval_values::{Held, Stop, Tensor, admit};
use xf_ir::OpName;
use xf_sem::{ElemList, SizeList};
use xf_type::{Elem, ListOf, NoMemory, PayloadType, Shape, Width};

/// An element, so many times.
fn repeated(alloc: Global, elem: Elem, count: u64) -> Result<ElemList, NoMemory>
    ensures { IfOk result (λ elems. elems ≡ replicate count elem) }
{
    let mut elems = Vec::new(alloc);
    for at in 0..count {
        let _turn = at;
        if elems.push(elem).is_err() {
            return Err(AllocError);
        }
    }
    Ok(ListOf::from_vec(elems))
}

/// A tensor of these sizes whose elements are all the same, where it fits the type of the one result and the budget has
/// its units.
pub fn filled(
    alloc: Global,
    op: OpName,
    types: &[PayloadType],
    width: Width,
    sizes: SizeList,
    elem: Elem,
    budget: &mut u64,
) -> Result<Held, Stop>
    requires { FitsWidth width elem }
    ensures { Meets (given_run op types.now 0 (Some (tensor width sizes (λ p. elem))))
        budget.old budget.new (listed_one result) }
{
    match admit(op, types, width, sizes.as_slice(), 0, budget) {
        Err(stop) => Err(stop),
        Ok(count) => {
            let elems = repeated(alloc, elem, count)?;
            Ok(Held::tensor(
                alloc,
                Tensor {
                    width,
                    shape: sizes,
                    elems,
                },
            )?)
        }
    }
}

/// A tensor of a type, without numbers, whose dynamic dimensions have the sizes that the operands are.
fn empty_of(
    alloc: Global,
    op: OpName,
    types: &[PayloadType],
    shape: &Shape,
    args: &[Held],
    budget: &mut u64,
) -> Result<Held, Stop>
    ensures { Meets (given_run op types.now 0 (empty_by shape.now args.now))
        budget.old budget.new (listed_one result) }
{
    let numbers = match indices(alloc, args)? {
        None => return Err(Stop::Undefined(op)),
        Some(numbers) => numbers,
    };
    match sizes_with(alloc, shape.dims.as_slice(), numbers.as_slice())? {
        None => Err(Stop::Undefined(op)),
        Some(sizes) => filled(alloc, op, types, shape.elem, sizes, Elem::NoNumber, budget),
    }
}

/// A tensor without numbers of the type of the one result.
#[tactic(auto, using(crate::proofs::MadeLemmas::empty_is))]
pub fn empty(
    alloc: Global,
    op: OpName,
    types: &[PayloadType],
    args: &[Held],
    budget: &mut u64,
) -> Result<Held, Stop>
    ensures { Meets (given_run op types.now 0 (empty_given types.now args.now))
        budget.old budget.new (listed_one result) }
{
    match types {
        [wanted] => match wanted {
            PayloadType::Tensor(shape) => empty_of(alloc, op, types, shape, args, budget),
            PayloadType::Scalar(_) => Err(Stop::Undefined(op)),
        },
        _ => Err(Stop::Undefined(op)),
    }
}
