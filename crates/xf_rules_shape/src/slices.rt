//! Slices of tensors.
ghost use Rattle.std.specs.Prelude.{◌≡◌};
ghost use Rattle.xf_ir.specs.Lists.{every};
ghost use Rattle.xf_ir.specs.RuleSlices.{is_at_least_zero, size_fits, sizes_fit, slice_fits, slice_between, slices};
ghost use Rattle.xf_rules.specs.OperandTypes.{operand_type, operand_types};

use xf_ir::{Kind, SliceIndex};
use xf_rules::{behind_first, first_type};
use xf_type::{Dim, PayloadType, Shape, same_width};

/// Whether an offset or a size that is a number is at least 0.
fn is_at_least_zero(index: SliceIndex) -> bool
    ensures { result ≡ is_at_least_zero index }
{
    match index {
        SliceIndex::Fixed(number) => number >= 0,
        SliceIndex::Dynamic => true,
    }
}

fn are_at_least_zero(indices: &[SliceIndex]) -> bool
    ensures { result ≡ every is_at_least_zero indices.now }
{
    for index in indices {
        if !is_at_least_zero(*index) {
            return false;
        }
    }
    true
}

/// Whether a dimension is fixed exactly where its size is a number, and equal to it.
fn size_fits(size: SliceIndex, dim: Dim) -> bool
    ensures { result ≡ size_fits size dim }
{
    match size {
        SliceIndex::Fixed(number) => match dim {
            Dim::Fixed(extent) => number == extent as i128,
            Dim::Dynamic => false,
        },
        SliceIndex::Dynamic => match dim {
            Dim::Fixed(_) => false,
            Dim::Dynamic => true,
        },
    }
}

#[tactic(auto, using(crate::proofs::SliceLemmas::unequal_sizes))]
fn sizes_fit(sizes: &[SliceIndex], dims: &[Dim]) -> bool
    ensures { result ≡ sizes_fit sizes.now dims.now }
{
    if sizes.len() != dims.len() {
        return false;
    }
    for at in 0..sizes.len() {
        if !size_fits(sizes[at], dims[at]) {
            return false;
        }
    }
    true
}

/// Whether rank and element type stay, offsets and sizes are at least 0, and the smaller shape has the sizes.
fn slice_fits(offsets: &[SliceIndex], sizes: &[SliceIndex], smaller: &Shape, larger: &Shape) -> bool
    ensures { result ≡ slice_fits offsets.now sizes.now smaller.now larger.now }
{
    (smaller.dims.len() == larger.dims.len() && same_width(smaller.elem, larger.elem))
        && ((are_at_least_zero(offsets) && are_at_least_zero(sizes))
            && sizes_fit(sizes, smaller.dims.as_slice()))
}

/// Whether there is a slice between two types, the smaller first.
fn slice_between(
    offsets: &[SliceIndex],
    sizes: &[SliceIndex],
    smaller: Option<&PayloadType>,
    larger: Option<&PayloadType>,
) -> bool
    ensures { result ≡ slice_between offsets.now sizes.now (operand_type smaller.entry) (operand_type larger.entry) }
{
    match (smaller, larger) {
        (Some(PayloadType::Tensor(smaller)), Some(PayloadType::Tensor(larger))) => {
            slice_fits(offsets, sizes, smaller, larger)
        }
        _ => false,
    }
}

/// Whether a slice, taken or put in, keeps rank and element type, has offsets and sizes of at least 0, and the smaller
/// of its types has a fixed dimension exactly where the size is a number, and equal to it. Any other operation passes.
///
/// Takes time in the number of dimensions.
pub fn slices_fit(kind: &Kind, types: &[Option<&PayloadType>], results: &[PayloadType]) -> bool
    ensures { result ≡ slices kind.now (operand_types types.now) results.now }
{
    match kind {
        Kind::ExtractSlice { offsets, sizes } => slice_between(
            offsets.as_slice(),
            sizes.as_slice(),
            results.first(),
            first_type(types),
        ),
        Kind::InsertSlice { offsets, sizes } => slice_between(
            offsets.as_slice(),
            sizes.as_slice(),
            first_type(types),
            first_type(behind_first(types)),
        ),
        _ => true,
    }
}
