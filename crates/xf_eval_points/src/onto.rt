//! The points that lead to an index of an out.
ghost use Rattle.std.specs.Prelude.{◌≡◌, ◌<◌, ◌+◌, ◌^◌, IfOk, OnOk, ◌-◌};
ghost use Rattle.xf_ir.specs.Lists.{Each};
ghost use Rattle.xf_eval_points.specs.Onto.{span_onto, spans_onto, whole_spans};

use crate::span::Span;
use std::alloc::Global;
use xf_type::NoMemory;

/// The numbers of a dimension of this extent that lead to an index of the out by its map: those that each place of the
/// map that has the dimension allows.
fn span_onto(dim: usize, extent: u32, map: &[u32], index: &[u32]) -> Span
    requires { Each (λ i. i < 2 ^ 32 - 1) index.now }
    ensures { result ≡ span_onto dim extent map.now index.now }
{
    let mut span = Span {
        from: 0,
        to: extent,
    };
    for at in 0..map.len() {
        if at >= index.len() {
            return span;
        }
        if map[at] as usize == dim {
            span = Span {
                from: span.from.max(index[at]),
                to: span.to.min(index[at] + 1),
            };
        }
    }
    span
}

/// The box of the points that lead to an index of the out, in place of what `spans` held.
pub fn spans_onto(
    extents: &[u32],
    map: &[u32],
    index: &[u32],
    spans: &mut Vec<Span>,
) -> Result<(), NoMemory>
    requires { Each (λ i. i < 2 ^ 32 - 1) index.now }
    ensures { OnOk result (spans.new.items ≡ spans_onto map.now index.now extents.now) }
{
    spans.clear();
    for dim in 0..extents.len() {
        spans.push(span_onto(dim, extents[dim], map, index))?;
    }
    Ok(())
}

/// The box of all indices of a tensor of these sizes.
pub fn whole_spans(alloc: Global, sizes: &[u32]) -> Result<Vec<Span>, NoMemory>
    ensures { IfOk result (λ spans. spans.items ≡ whole_spans sizes.now) }
{
    let mut spans = Vec::new(alloc);
    for size in sizes {
        spans.push(Span { from: 0, to: *size })?;
    }
    Ok(spans)
}
