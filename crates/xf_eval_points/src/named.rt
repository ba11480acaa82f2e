//! The operations of linalg that have a name.
ghost use Rattle.std.specs.Prelude.{◌≡◌, ◌<◌, ◌-◌, ◌^◌, length, IfOk};
ghost use Rattle.xf_ir.specs.Lists.{Each};
ghost use Rattle.xf_points.specs.Points.{Below, at};
ghost use Rattle.xf_points.specs.Folds.{everywhere, folded};
ghost use Rattle.xf_points.specs.Operands.{step_of, structured};
ghost use Rattle.xf_sem.specs.Structured.{body_of, operands};
ghost use Rattle.xf_sem.specs.Tensors.{items_of};
ghost use Rattle.xf_sem.specs.Values.{IsValue};
ghost use Rattle.xf_eval_values.specs.Held.{as_value};
ghost use Rattle.xf_eval_points.specs.Frames.{made};
ghost use Rattle.xf_eval_points.specs.Spans.{spread};
ghost use Rattle.xf_eval_points.specs.Onto.{whole_spans};

use crate::body::body_at;
use crate::onto::{spans_onto, whole_spans};
use crate::place::element_of;
use crate::span::{Span, advance, are_open, begin, room_for};
use std::alloc::Global;
use xf_eval_values::{Held, Tensor};
use xf_ir::NamedKind;
use xf_sem::ElemList;
use xf_type::{Elem, ListOf, NoMemory, PlaceList, Width};

/// What the points of a box do to an element, one after another.
fn fold_box(
    kind: NamedKind,
    width: Width,
    maps: &[PlaceList],
    ins: &[Held],
    spans: &[Span],
    point: &mut [u32],
    start: Elem,
) -> Elem
    requires same { length maps.now ≡ length ins.now }
    requires room { length point.old ≡ length spans.now }
    ensures { result ≡ folded everywhere (step_of (body_of kind width) (operands maps.now ins.now)) (spread spans.now) start }
{
    begin(spans, point);
    let mut more = are_open(spans);
    let mut elem = start;
    while more {
        elem = body_at(kind, width, maps, ins, point, elem);
        more = advance(spans, point);
    }
    elem
}

/// The element of the result at an index.
fn element_at_index(
    kind: NamedKind,
    maps: &[PlaceList],
    ins: &[Held],
    extents: &[u32],
    out_map: &[u32],
    out: &Tensor,
    index: &[u32],
    spans: &mut Vec<Span>,
    point: &mut [u32],
) -> Result<Elem, NoMemory>
    requires same { length maps.now ≡ length ins.now }
    requires room { length point.old ≡ length extents.now }
    requires below { Below index.now (at out_map.now extents.now) }
    requires small { Each (λ i. i < 2 ^ 32 - 1) index.now }
    ensures { IfOk result (λ elem. elem ≡ structured extents.now out_map.now (body_of kind out.now.width)
        (operands maps.now ins.now) (items_of (as_value out.now)) index.now) }
{
    spans_onto(extents, out_map, index, spans)?;
    let start = element_of(out.shape.as_slice(), out.elems.as_slice(), index);
    Ok(fold_box(kind, out.width, maps, ins, spans.as_slice(), point, start))
}

/// The elements of the result, index by index.
fn elems_by_index(
    alloc: Global,
    kind: NamedKind,
    maps: &[PlaceList],
    ins: &[Held],
    extents: &[u32],
    out_map: &[u32],
    out: &Tensor,
    outer: &[Span],
    index: &mut [u32],
    point: &mut [u32],
) -> Result<Vec<Elem>, NoMemory>
    requires same { length maps.now ≡ length ins.now }
    requires out { out.now.shape ≡ at out_map.now extents.now }
    requires is_value { IsValue (as_value out.now) }
    requires outer { outer.now ≡ whole_spans out.now.shape }
    requires index { length index.old ≡ length outer.now }
    requires room { length point.old ≡ length extents.now }
    ensures { IfOk result (λ elems. elems.items
        ≡ made (body_of kind out.now.width) extents.now maps.now ins.now out_map.now out.now) }
{
    let mut spans = Vec::new(alloc);
    let mut elems = Vec::new(alloc);
    begin(outer, index);
    let mut more = are_open(outer);
    while more {
        let elem = element_at_index(
            kind, maps, ins, extents, out_map, out, index, &mut spans, point,
        )?;
        elems.push(elem)?;
        more = advance(outer, index);
    }
    Ok(elems)
}

/// The elements of the result. Refuses for want of memory alone.
pub fn named_elems(
    alloc: Global,
    kind: NamedKind,
    maps: &[PlaceList],
    ins: &[Held],
    extents: &[u32],
    out_map: &[u32],
    out: &Tensor,
) -> Result<ElemList, NoMemory>
    requires same { length maps.now ≡ length ins.now }
    requires out { out.now.shape ≡ at out_map.now extents.now }
    requires is_value { IsValue (as_value out.now) }
    ensures { IfOk result (λ elems. elems ≡ made (body_of kind out.now.width) extents.now maps.now ins.now out_map.now out.now) }
{
    let outer = whole_spans(alloc, out.shape.as_slice())?;
    let mut index = room_for(alloc, outer.len())?;
    let mut point = room_for(alloc, extents.len())?;
    let elems = elems_by_index(
        alloc,
        kind,
        maps,
        ins,
        extents,
        out_map,
        out,
        outer.as_slice(),
        &mut index,
        &mut point,
    )?;
    Ok(ListOf::from_vec(elems))
}
