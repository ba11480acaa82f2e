//! Slices of tensors.
ghost use Rattle.std.specs.Prelude.{◌≡◌, ◌∷◌, IfOk, Some, length};
ghost use Rattle.xf_sem.specs.Tensors.{slice_given};
ghost use Rattle.xf_sem.specs.Values.{IsValue};
ghost use Rattle.xf_eval_values.specs.Given.{given_run, listed_one};
ghost use Rattle.xf_eval_values.specs.Held.{as_value};
ghost use Rattle.xf_eval_values.specs.Meets.{Meets};
ghost use Rattle.xf_eval_tensors.specs.Slices.{cut_out, elems_in};

use crate::windows::{sizes_of, slice_spans};
use std::alloc::Global;
use xf_eval_points::{Span, advance, are_open, begin, element_of, room_for};
use xf_eval_values::{Held, Stop, Tensor, admit};
use xf_ir::{OpName, SliceIndex};
use xf_sem::ElemList;
use xf_type::{Elem, ListOf, NoMemory, PayloadType};

/// The elements of a tensor at the points of a box, in order.
fn elems_by_point(
    alloc: Global,
    tensor: &Tensor,
    spans: &[Span],
    point: &mut [u32],
) -> Result<Vec<Elem>, NoMemory>
    requires { length point.old ≡ length spans.now }
    ensures { IfOk result (λ elems. elems.items ≡ elems_in tensor.now spans.now) }
{
    let mut elems = Vec::new(alloc);
    begin(spans, point);
    let mut more = are_open(spans);
    while more {
        let elem = element_of(tensor.shape.as_slice(), tensor.elems.as_slice(), point);
        elems.push(elem)?;
        more = advance(spans, point);
    }
    Ok(elems)
}

/// The elements of a tensor in a box. Refuses for want of memory alone.
fn elems_in(alloc: Global, tensor: &Tensor, spans: &[Span]) -> Result<ElemList, NoMemory>
    ensures { IfOk result (λ elems. elems ≡ elems_in tensor.now spans.now) }
{
    let mut point = room_for(alloc, spans.len())?;
    let elems = elems_by_point(alloc, tensor, spans, &mut point)?;
    Ok(ListOf::from_vec(elems))
}

/// A box of a tensor. Its units are taken before an element is read.
fn cut_out(
    alloc: Global,
    op: OpName,
    types: &[PayloadType],
    tensor: &Tensor,
    spans: &[Span],
    budget: &mut u64,
) -> Result<Held, Stop>
    requires { IsValue (as_value tensor.now) }
    ensures { Meets (given_run op types.now 0 (Some (cut_out tensor.now spans.now)))
        budget.old budget.new (listed_one result) }
{
    let shape = sizes_of(alloc, spans)?;
    match admit(op, types, tensor.width, shape.as_slice(), 0, budget) {
        Err(stop) => Err(stop),
        Ok(_) => {
            let elems = elems_in(alloc, tensor, spans)?;
            Ok(Held::tensor(
                alloc,
                Tensor {
                    width: tensor.width,
                    shape,
                    elems,
                },
            )?)
        }
    }
}

/// A slice of a tensor, where it lies within it.
fn extract_from(
    alloc: Global,
    op: OpName,
    types: &[PayloadType],
    offsets: &[SliceIndex],
    lengths: &[SliceIndex],
    source: &Held,
    args: &[Held],
    budget: &mut u64,
) -> Result<Held, Stop>
    ensures { Meets (given_run op types.now 0 (slice_given offsets.now lengths.now (source.now ∷ args.now)))
        budget.old budget.new (listed_one result) }
{
    let Some(tensor) = source.as_tensor() else {
        return Err(Stop::Undefined(op));
    };
    match slice_spans(alloc, offsets, lengths, args, tensor.shape.as_slice())? {
        None => Err(Stop::Undefined(op)),
        Some(spans) => cut_out(alloc, op, types, tensor, spans.as_slice(), budget),
    }
}

/// A slice of a tensor with strides of 1, where it lies within it. The operands are the tensor, the open offsets, and
/// then the open sizes. Costs time for each element of the slice.
pub fn extract_slice(
    alloc: Global,
    op: OpName,
    types: &[PayloadType],
    offsets: &[SliceIndex],
    lengths: &[SliceIndex],
    args: &[Held],
    budget: &mut u64,
) -> Result<Held, Stop>
    ensures { Meets (given_run op types.now 0 (slice_given offsets.now lengths.now args.now))
        budget.old budget.new (listed_one result) }
{
    match args {
        [source, args @ ..] => {
            extract_from(alloc, op, types, offsets, lengths, source, args, budget)
        }
        [] => Err(Stop::Undefined(op)),
    }
}
