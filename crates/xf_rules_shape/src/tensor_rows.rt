//! Numbers and types of the operands and results of tensor operations.
ghost use Rattle.std.specs.Prelude.{◌≡◌, ◌+◌, ◌&&◌, ◌∷◌, [], Some, true};
ghost use Rattle.xf_ir.specs.Lists.{every, is_empty, behind_first};
ghost use Rattle.xf_ir.specs.RuleTypes.{empty_row, dim_row, extract_row, insert_row, open_count, slice_indices};
ghost use Rattle.xf_ir.specs.RuleTypes.{is_one_tensor, extract_slice_row, insert_slice_row, dims_cast, cast_row};
ghost use Rattle.xf_type.specs.Equal.{same_items, same_width};
ghost use Rattle.xf_ir.specs.Types.{have_types, are_indices, dynamic_count, is_tensor_with};
ghost use Rattle.xf_type.specs.declared.payload_type.PayloadType.TheVariants.{Scalar, Tensor};
ghost use Rattle.xf_rules.specs.OperandTypes.{operand_type, operand_types, is_index_type};

use xf_ir::SliceIndex;
use xf_rules::{are_scalars, behind_first, first_type, is_scalar_operand, is_tensor_of};
use xf_type::{Dim, PayloadType, Shape, Width, same_width};

/// Whether each operand is visible and of the type `index`.
fn are_all_indices(types: &[Option<&PayloadType>]) -> bool
    ensures { result ≡ every is_index_type (operand_types types.now) }
{
    for ty in types {
        if !is_scalar_operand(*ty, Width::Index) {
            return false;
        }
    }
    true
}

/// Whether the operands are so many values of the type `index`.
#[tactic(auto, using(crate::proofs::Indices::indices_all, crate::proofs::Indices::other_count))]
fn are_indices(types: &[Option<&PayloadType>], count: usize) -> bool
    ensures { result ≡ are_indices count (operand_types types.now) }
{
    types.len() == count && are_all_indices(types)
}

/// How many dimensions are dynamic.
fn dynamic_count(dims: &[Dim]) -> usize
    ensures { result ≡ dynamic_count dims.now }
{
    let mut count = 0;
    for dim in dims {
        if let Dim::Dynamic = *dim {
            count += 1;
        }
    }
    count
}

/// How many offsets or sizes are operands.
fn open_count(indices: &[SliceIndex]) -> usize
    ensures { result ≡ open_count indices.now }
{
    let mut count = 0;
    for index in indices {
        if let SliceIndex::Dynamic = *index {
            count += 1;
        }
    }
    count
}

/// Whether the type of a result is a tensor, and the operands are one size for each of its dynamic dimensions.
fn has_sizes(ty: &PayloadType, types: &[Option<&PayloadType>]) -> bool
    ensures { result
        ≡ is_tensor_with (λ s. are_indices (dynamic_count s.dims) (operand_types types.now)) (Some ty.now) }
{
    match ty {
        PayloadType::Scalar(_) => false,
        PayloadType::Tensor(shape) => are_indices(types, dynamic_count(shape.dims.as_slice())),
    }
}

/// Whether there is one result, a tensor, and one operand for each of its dynamic dimensions.
pub fn empty_row(types: &[Option<&PayloadType>], results: &[PayloadType]) -> bool
    ensures { result ≡ empty_row (operand_types types.now) results.now }
{
    match results {
        [] => false,
        [first, rest @ ..] => has_sizes(first, types) && rest.is_empty(),
    }
}

fn is_tensor(ty: Option<&PayloadType>) -> bool
    ensures { result ≡ is_tensor_with (λ s. true) (operand_type ty.entry) }
{
    match ty {
        Some(PayloadType::Tensor(_)) => true,
        _ => false,
    }
}

/// Whether the operands are a tensor and an index, and the result is an index.
pub fn dim_row(types: &[Option<&PayloadType>], results: &[PayloadType]) -> bool
    ensures { result ≡ dim_row (operand_types types.now) results.now }
{
    is_tensor(first_type(types))
        && (are_indices(behind_first(types), 1) && are_scalars(results, &[Width::Index]))
}

/// Whether the operands are a tensor and one index for each of its dimensions, and the result is its element.
pub fn extract_row(types: &[Option<&PayloadType>], results: &[PayloadType]) -> bool
    ensures { result ≡ extract_row (operand_types types.now) results.now }
{
    match first_type(types) {
        Some(PayloadType::Tensor(shape)) => {
            are_indices(behind_first(types), shape.dims.len())
                && are_scalars(results, &[shape.elem])
        }
        _ => false,
    }
}

/// Whether a value and a tensor of this shape, which has its own type, are an element and a tensor that it goes into.
#[tactic(auto, using(crate::proofs::Indices::target_itself))]
fn takes_element(value: Option<&PayloadType>, shape: &Shape) -> bool
    ensures { result ≡ have_types (operand_type value.entry ∷ (Some (Tensor shape.now) ∷ [])) (Scalar shape.now.elem
        ∷ (Tensor shape.now ∷ [])) }
{
    is_scalar_operand(value, shape.elem)
}

/// Whether the operands are an element, the tensor that it goes into and one index for each of its dimensions, and the
/// result has the tensor's type.
pub fn insert_row(types: &[Option<&PayloadType>], results: &[PayloadType]) -> bool
    ensures { result ≡ insert_row (operand_types types.now) results.now }
{
    let rest = behind_first(types);
    match first_type(rest) {
        Some(PayloadType::Tensor(shape)) => {
            (takes_element(first_type(types), shape) && is_tensor_of(results, shape))
                && are_indices(behind_first(rest), shape.dims.len())
        }
        _ => false,
    }
}

/// Whether the operands are one index for each offset and each size that is an operand.
#[tactic(auto, using(crate::proofs::Indices::sum_is, crate::proofs::Indices::too_few, crate::proofs::Indices::sum_not))]
fn are_slice_indices(
    offsets: &[SliceIndex],
    sizes: &[SliceIndex],
    types: &[Option<&PayloadType>],
) -> bool
    ensures { result ≡ are_indices (open_count offsets.now + open_count sizes.now) (operand_types types.now) }
{
    let open = open_count(offsets);
    // no sum, which might not fit a word
    types.len() >= open && types.len() - open == open_count(sizes) && are_all_indices(types)
}

/// Whether there are one offset and one size for each dimension of the larger type, and an index operand for each that
/// is none.
fn slice_indices(
    offsets: &[SliceIndex],
    sizes: &[SliceIndex],
    larger: &Shape,
    types: &[Option<&PayloadType>],
) -> bool
    ensures { result ≡ slice_indices offsets.now sizes.now larger.now (operand_types types.now) }
{
    (offsets.len() == larger.dims.len() && sizes.len() == larger.dims.len())
        && are_slice_indices(offsets, sizes, types)
}

fn is_one_tensor(types: &[PayloadType]) -> bool
    ensures { result ≡ is_one_tensor types.now }
{
    match types {
        [] => false,
        [first, rest @ ..] => is_tensor(Some(first)) && rest.is_empty(),
    }
}

/// Whether the operands are the source and the indices of a slice of it, and the result is a tensor.
pub fn extract_slice_row(
    offsets: &[SliceIndex],
    sizes: &[SliceIndex],
    types: &[Option<&PayloadType>],
    results: &[PayloadType],
) -> bool
    ensures { result ≡ extract_slice_row offsets.now sizes.now (operand_types types.now) results.now }
{
    match first_type(types) {
        Some(PayloadType::Tensor(shape)) => {
            slice_indices(offsets, sizes, shape, behind_first(types)) && is_one_tensor(results)
        }
        _ => false,
    }
}

/// Whether the operands are the source, the target and the indices of a slice of it, and the result has the target's
/// type.
pub fn insert_slice_row(
    offsets: &[SliceIndex],
    sizes: &[SliceIndex],
    types: &[Option<&PayloadType>],
    results: &[PayloadType],
) -> bool
    ensures { result ≡ insert_slice_row offsets.now sizes.now (operand_types types.now) results.now }
{
    let rest = behind_first(types);
    is_tensor(first_type(types))
        && match first_type(rest) {
            Some(PayloadType::Tensor(shape)) => {
                slice_indices(offsets, sizes, shape, behind_first(rest))
                    && is_tensor_of(results, shape)
            }
            _ => false,
        }
}

/// Whether two extents may be the same: they are not fixed and different.
fn dims_cast(a: Dim, b: Dim) -> bool
    ensures { result ≡ dims_cast a b }
{
    match a {
        Dim::Dynamic => true,
        Dim::Fixed(extent) => match b {
            Dim::Dynamic => true,
            Dim::Fixed(other) => extent == other,
        },
    }
}

/// Whether two lists of dimensions have one length, and extents that may be the same.
#[tactic(auto, using(crate::proofs::Indices::other_rank))]
fn all_cast(a: &[Dim], b: &[Dim]) -> bool
    ensures { result ≡ same_items dims_cast a.now b.now }
{
    if a.len() != b.len() {
        return false;
    }
    for at in 0..a.len() {
        if !dims_cast(a[at], b[at]) {
            return false;
        }
    }
    true
}

/// Whether a type is that of a tensor to which a tensor of the shape may be cast: of the same rank and the same
/// elements, and no dimension is fixed in both with different extents.
fn may_cast(shape: &Shape, ty: &PayloadType) -> bool
    ensures { result ≡ is_tensor_with (λ b. same_width shape.now.elem b.elem
        && same_items dims_cast shape.now.dims b.dims) (Some ty.now) }
{
    match ty {
        PayloadType::Scalar(_) => false,
        PayloadType::Tensor(other) => {
            same_width(shape.elem, other.elem)
                && all_cast(shape.dims.as_slice(), other.dims.as_slice())
        }
    }
}

/// Whether there is no operand behind the first.
#[tactic(auto, using(crate::proofs::Indices::one_alone, crate::proofs::Indices::not_alone))]
fn is_alone(types: &[Option<&PayloadType>]) -> bool
    ensures { result ≡ is_empty (behind_first (operand_types types.now)) }
{
    match types {
        [] => true,
        [_] => true,
        _ => false,
    }
}

/// Whether the operand is a tensor, and the result one to which it may be cast.
pub fn cast_row(types: &[Option<&PayloadType>], results: &[PayloadType]) -> bool
    ensures { result ≡ cast_row (operand_types types.now) results.now }
{
    match results {
        [] => false,
        [first, rest @ ..] => match first_type(types) {
            Some(PayloadType::Tensor(shape)) => {
                may_cast(shape, first) && (is_alone(types) && rest.is_empty())
            }
            _ => false,
        },
    }
}
