//! The windows of slices, by their offsets and sizes.
ghost use Rattle.std.specs.Prelude.{◌≡◌, IfOk};
ghost use Rattle.xf_ir.specs.RuleTypes.{open_count};
ghost use Rattle.xf_eval_tensors.specs.Slices.{natural_in, settled_in, span_in, spans_in, span_sizes, slice_spans};

use crate::index::indices;
use std::alloc::Global;
use xf_eval_points::Span;
use xf_eval_values::Held;
use xf_ir::{NumberList, SliceIndex};
use xf_sem::SizeList;
use xf_type::{ListOf, NoMemory};

/// The numbers of the dimensions that the windows of a slice have.
pub type SpanList = ListOf<Span>;

/// A number that is not negative.
fn natural(number: i128) -> Option<u128>
    ensures { result ≡ natural_in number }
{
    if number < 0 {
        None
    } else {
        Some(number as u128)
    }
}

/// How many offsets or sizes are operands.
fn open_count(indices: &[SliceIndex]) -> usize
    ensures { result ≡ open_count indices.now }
{
    let mut count = 0;
    for index in indices {
        match index {
            SliceIndex::Fixed(_) => {}
            SliceIndex::Dynamic => count += 1,
        }
    }
    count
}

/// Offsets, or sizes, whose open ones are these numbers, in order. None where one is negative, and where there are more
/// numbers or fewer. Refuses for want of memory alone.
fn settled(
    alloc: Global,
    indices: &[SliceIndex],
    numbers: &[u64],
) -> Result<Option<NumberList>, NoMemory>
    ensures { IfOk result (λ all. all ≡ settled_in indices.now numbers.now) }
{
    let mut all = ListOf::new(alloc);
    let mut next = 0;
    for index in indices {
        let number = match index {
            SliceIndex::Fixed(number) => match natural(*number) {
                None => return Ok(None),
                Some(number) => number,
            },
            SliceIndex::Dynamic => {
                if next >= numbers.len() {
                    return Ok(None);
                }
                let number = numbers[next];
                next += 1;
                number as u128
            }
        };
        all.push(number)?;
    }
    if next < numbers.len() {
        return Ok(None);
    }
    Ok(Some(all))
}

/// The numbers of a dimension that a window has, where it lies within the extent.
fn span_in(offset: u128, size: u128, extent: u32) -> Option<Span>
    ensures { result ≡ span_in offset size extent }
{
    if offset > extent as u128 || size > extent as u128 - offset {
        return None;
    }
    Some(Span {
        from: offset as u32,
        to: (offset + size) as u32,
    })
}

/// The numbers of each dimension that a window has, where each lies within its extent, and there are as many offsets
/// and sizes as extents. Refuses for want of memory alone.
fn spans_in(
    alloc: Global,
    offsets: &[u128],
    sizes: &[u128],
    extents: &[u32],
) -> Result<Option<SpanList>, NoMemory>
    ensures { IfOk result (λ spans. spans ≡ spans_in offsets.now sizes.now extents.now) }
{
    if offsets.len() != extents.len() {
        return Ok(None);
    }
    if sizes.len() != extents.len() {
        return Ok(None);
    }
    let mut spans = ListOf::new(alloc);
    for at in 0..extents.len() {
        match span_in(offsets[at], sizes[at], extents[at]) {
            None => return Ok(None),
            Some(span) => spans.push(span)?,
        }
    }
    Ok(Some(spans))
}

/// The box of a slice of a tensor of these extents: the operands are its open offsets, and then its open sizes. None
/// where it does not lie within the tensor. Refuses for want of memory alone.
pub fn slice_spans(
    alloc: Global,
    offsets: &[SliceIndex],
    lengths: &[SliceIndex],
    args: &[Held],
    extents: &[u32],
) -> Result<Option<SpanList>, NoMemory>
    ensures { IfOk result (λ spans. spans ≡ slice_spans offsets.now lengths.now args.now extents.now) }
{
    let numbers = match indices(alloc, args)? {
        None => return Ok(None),
        Some(numbers) => numbers,
    };
    let open = open_count(offsets).min(numbers.len());
    let own = match settled(alloc, offsets, &numbers.as_slice()[..open])? {
        None => return Ok(None),
        Some(own) => own,
    };
    match settled(alloc, lengths, &numbers.as_slice()[open..])? {
        None => Ok(None),
        Some(sizes) => spans_in(alloc, own.as_slice(), sizes.as_slice(), extents),
    }
}

/// How many numbers each dimension of a box has. Refuses for want of memory alone.
pub fn sizes_of(alloc: Global, spans: &[Span]) -> Result<SizeList, NoMemory>
    ensures { IfOk result (λ sizes. sizes ≡ span_sizes spans.now) }
{
    let mut sizes = ListOf::new(alloc);
    for span in spans {
        sizes.push(span.to.saturating_sub(span.from))?;
    }
    Ok(sizes)
}
