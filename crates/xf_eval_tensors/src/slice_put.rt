//! Tensors with a slice overwritten.
ghost use Rattle.std.specs.Prelude.{◌≡◌, ◌∷◌, IfOk, Some, length};
ghost use Rattle.xf_points.specs.Points.{listed, same_point};
ghost use Rattle.xf_points.specs.Windows.{has, inside, taken_from};
ghost use Rattle.xf_sem.specs.Tensors.{slice_put};
ghost use Rattle.xf_sem.specs.Values.{IsValue};
ghost use Rattle.xf_eval_values.specs.Given.{given_run, listed_one};
ghost use Rattle.xf_eval_values.specs.Held.{as_value};
ghost use Rattle.xf_eval_values.specs.Meets.{Meets};
ghost use Rattle.xf_eval_points.specs.Onto.{whole_spans};
ghost use Rattle.xf_eval_points.specs.Spans.{window_of};
ghost use Rattle.xf_eval_tensors.specs.Slices.{item_over, put_over, span_sizes, windows_of};

use crate::windows::slice_spans;
use std::alloc::Global;
use xf_eval_points::{Span, advance, are_open, begin, element_of, room_for, whole_spans};
use xf_eval_values::{Held, Stop, Tensor, admit};
use xf_ir::{OpName, SliceIndex};
use xf_sem::ElemList;
use xf_type::{Elem, ListOf, NoMemory, PayloadType, same_width};

/// Whether a number is one of a span.
fn has(span: Span, number: u32) -> bool
    ensures { result ≡ has (window_of span) number }
{
    span.from <= number && number < span.to
}

/// Whether a point lies in a box.
#[tactic(auto, using(crate::proofs::PutLemmas::unequal_box))]
fn is_inside(spans: &[Span], point: &[u32]) -> bool
    ensures { result ≡ inside (windows_of spans.now) point.now }
{
    if spans.len() != point.len() {
        return false;
    }
    for at in 0..spans.len() {
        if !has(spans[at], point[at]) {
            return false;
        }
    }
    true
}

/// Whether a box has these sizes.
#[tactic(auto, using(crate::proofs::PutLemmas::unequal_sizes))]
fn has_sizes(sizes: &[u32], spans: &[Span]) -> bool
    ensures { result ≡ same_point sizes.now (span_sizes spans.now) }
{
    if sizes.len() != spans.len() {
        return false;
    }
    for at in 0..sizes.len() {
        if sizes[at] != spans[at].to.saturating_sub(spans[at].from) {
            return false;
        }
    }
    true
}

/// The point of a box that a point of the whole is.
fn take_from(spans: &[Span], point: &[u32], local: &mut [u32])
    requires point { length point.now ≡ length spans.now }
    requires room { length local.old ≡ length spans.now }
    ensures { local.new ≡ taken_from (windows_of spans.now) point.now }
{
    for at in 0..spans.len() {
        local[at] = point[at].saturating_sub(spans[at].from);
    }
}

/// The element at a point of a tensor with a box overwritten.
fn elem_at(
    source: &Tensor,
    target: &Tensor,
    spans: &[Span],
    point: &[u32],
    local: &mut [u32],
) -> Elem
    requires { length local.old ≡ length spans.now }
    ensures elem { result ≡ item_over source.now target.now spans.now point.now }
    ensures room { length local.new ≡ length spans.now }
{
    if is_inside(spans, point) {
        take_from(spans, point, local);
        element_of(source.shape.as_slice(), source.elems.as_slice(), local)
    } else {
        element_of(target.shape.as_slice(), target.elems.as_slice(), point)
    }
}

/// The elements of a tensor with a box overwritten, point by point.
fn elems_by_point(
    alloc: Global,
    source: &Tensor,
    target: &Tensor,
    spans: &[Span],
    outer: &[Span],
    point: &mut [u32],
    local: &mut [u32],
) -> Result<Vec<Elem>, NoMemory>
    requires outer { outer.now ≡ whole_spans target.now.shape }
    requires point { length point.old ≡ length outer.now }
    requires room { length local.old ≡ length spans.now }
    ensures { IfOk result (λ elems. elems.items
        ≡ listed target.now.shape (item_over source.now target.now spans.now)) }
{
    let mut elems = Vec::new(alloc);
    begin(outer, point);
    let mut more = are_open(outer);
    while more {
        elems.push(elem_at(source, target, spans, point, local))?;
        more = advance(outer, point);
    }
    Ok(elems)
}

/// The elements of a tensor with a box overwritten. Refuses for want of memory alone.
fn elems_with(
    alloc: Global,
    source: &Tensor,
    target: &Tensor,
    spans: &[Span],
) -> Result<ElemList, NoMemory>
    ensures { IfOk result (λ elems. elems ≡ listed target.now.shape (item_over source.now target.now spans.now)) }
{
    let outer = whole_spans(alloc, target.shape.as_slice())?;
    let mut point = room_for(alloc, outer.len())?;
    let mut local = room_for(alloc, spans.len())?;
    let elems = elems_by_point(
        alloc,
        source,
        target,
        spans,
        outer.as_slice(),
        &mut point,
        &mut local,
    )?;
    Ok(ListOf::from_vec(elems))
}

/// A tensor with a box overwritten by another of its width. Its units are taken before an element is read.
fn put_over(
    alloc: Global,
    op: OpName,
    types: &[PayloadType],
    source: &Tensor,
    target: &Tensor,
    spans: &[Span],
    budget: &mut u64,
) -> Result<Held, Stop>
    requires source { IsValue (as_value source.now) }
    requires target { IsValue (as_value target.now) }
    requires width { source.now.width ≡ target.now.width }
    ensures { Meets (given_run op types.now 0 (Some (put_over source.now target.now spans.now)))
        budget.old budget.new (listed_one result) }
{
    match admit(op, types, target.width, target.shape.as_slice(), 0, budget) {
        Err(stop) => Err(stop),
        Ok(_) => {
            let elems = elems_with(alloc, source, target, spans)?;
            let shape = ListOf::from_slice(alloc, target.shape.as_slice())?;
            Ok(Held::tensor(
                alloc,
                Tensor {
                    width: target.width,
                    shape,
                    elems,
                },
            )?)
        }
    }
}

/// A tensor with a slice overwritten by another tensor, where the slice lies within it and has the other's sizes.
fn insert_into(
    alloc: Global,
    op: OpName,
    types: &[PayloadType],
    offsets: &[SliceIndex],
    lengths: &[SliceIndex],
    source: &Held,
    target: &Held,
    args: &[Held],
    budget: &mut u64,
) -> Result<Held, Stop>
    ensures { Meets (given_run op types.now 0
        (slice_put offsets.now lengths.now (source.now ∷ (target.now ∷ args.now))))
        budget.old budget.new (listed_one result) }
{
    let Some(part) = source.as_tensor() else {
        return Err(Stop::Undefined(op));
    };
    let Some(whole) = target.as_tensor() else {
        return Err(Stop::Undefined(op));
    };
    let spans = match slice_spans(alloc, offsets, lengths, args, whole.shape.as_slice())? {
        None => return Err(Stop::Undefined(op)),
        Some(spans) => spans,
    };
    if !same_width(part.width, whole.width) {
        return Err(Stop::Undefined(op));
    }
    if !has_sizes(part.shape.as_slice(), spans.as_slice()) {
        return Err(Stop::Undefined(op));
    }
    put_over(alloc, op, types, part, whole, spans.as_slice(), budget)
}

/// A tensor with a slice with strides of 1 overwritten by another tensor, where the slice lies within it and has the
/// other's sizes. The operands are the other tensor, the tensor, the open offsets, and then the open sizes. Costs time
/// for each element of the result.
pub fn insert_slice(
    alloc: Global,
    op: OpName,
    types: &[PayloadType],
    offsets: &[SliceIndex],
    lengths: &[SliceIndex],
    args: &[Held],
    budget: &mut u64,
) -> Result<Held, Stop>
    ensures { Meets (given_run op types.now 0 (slice_put offsets.now lengths.now args.now))
        budget.old budget.new (listed_one result) }
{
    match args {
        [source, target, args @ ..] => insert_into(
            alloc, op, types, offsets, lengths, source, target, args, budget,
        ),
        _ => Err(Stop::Undefined(op)),
    }
}
