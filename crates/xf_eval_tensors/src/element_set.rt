//! Tensors with one element changed.
ghost use Rattle.std.specs.Prelude.{◌≡◌, ◌<◌, ◌∷◌, IfOk, length, set};
ghost use Rattle.xf_type.specs.Integers.{FitsWidth};
ghost use Rattle.xf_points.specs.Points.{Below, place};
ghost use Rattle.xf_sem.specs.Tensors.{inserted};
ghost use Rattle.xf_sem.specs.Values.{IsValue};
ghost use Rattle.xf_eval_values.specs.Held.{as_value};
ghost use Rattle.xf_eval_tensors.specs.Indices.{with_elem};
ghost use Rattle.xf_eval_values.specs.Given.{given_run, listed_one};
ghost use Rattle.xf_eval_values.specs.Meets.{Meets};

use crate::index::index_in;
use std::alloc::Global;
use xf_eval_points::place_of;
use xf_eval_values::{Held, Stop, Tensor, admit};
use xf_ir::OpName;
use xf_sem::ElemList;
use xf_type::{Elem, ListOf, NoMemory, PayloadType, same_width};

/// The elements of a tensor of these sizes with one at an index changed. Refuses for want of memory alone.
fn changed(
    alloc: Global,
    sizes: &[u32],
    elems: &[Elem],
    index: &[u32],
    elem: Elem,
) -> Result<ElemList, NoMemory>
    requires { place sizes.now index.now < length elems.now }
    ensures { IfOk result (λ all. all ≡ set elems.now (place sizes.now index.now) elem) }
{
    let mut all = ListOf::from_slice(alloc, elems)?;
    all.set(place_of(sizes, index) as usize, elem);
    Ok(all)
}

/// A tensor with the element at an index changed. Refuses for want of memory alone.
fn with_element(alloc: Global, tensor: &Tensor, index: &[u32], elem: Elem) -> Result<Held, NoMemory>
    requires is_value { IsValue (as_value tensor.now) }
    requires inside { Below index.now tensor.now.shape }
    requires fits { FitsWidth tensor.now.width elem }
    ensures { IfOk result (λ value. value ≡ with_elem tensor.now index.now elem) }
{
    let shape = ListOf::from_slice(alloc, tensor.shape.as_slice())?;
    let elems = changed(
        alloc,
        tensor.shape.as_slice(),
        tensor.elems.as_slice(),
        index,
        elem,
    )?;
    Held::tensor(
        alloc,
        Tensor {
            width: tensor.width,
            shape,
            elems,
        },
    )
}

/// A tensor with an element at an index, where the index lies in it.
fn insert_at(
    alloc: Global,
    op: OpName,
    types: &[PayloadType],
    part: &Held,
    target: &Held,
    index: &[Held],
    budget: &mut u64,
) -> Result<Held, Stop>
    ensures { Meets (given_run op types.now 0 (inserted (part.now ∷ (target.now ∷ index.now))))
        budget.old budget.new (listed_one result) }
{
    let Some(elem) = part.as_scalar() else {
        return Err(Stop::Undefined(op));
    };
    let Some(tensor) = target.as_tensor() else {
        return Err(Stop::Undefined(op));
    };
    let index = match index_in(alloc, tensor.shape.as_slice(), index)? {
        None => return Err(Stop::Undefined(op)),
        Some(index) => index,
    };
    if !same_width(part.width(), tensor.width) {
        return Err(Stop::Undefined(op));
    }
    match admit(op, types, tensor.width, tensor.shape.as_slice(), 0, budget) {
        Err(stop) => Err(stop),
        Ok(_) => Ok(with_element(alloc, tensor, index.as_slice(), elem)?),
    }
}

/// A tensor with an element at an index, where the index lies in it.
pub fn insert(
    alloc: Global,
    op: OpName,
    types: &[PayloadType],
    args: &[Held],
    budget: &mut u64,
) -> Result<Held, Stop>
    ensures { Meets (given_run op types.now 0 (inserted args.now)) budget.old budget.new (listed_one result) }
{
    match args {
        [part, target, index @ ..] => insert_at(alloc, op, types, part, target, index, budget),
        _ => Err(Stop::Undefined(op)),
    }
}
