//! Tests of types.
ghost use Rattle.std.specs.Prelude.{◌≡◌, ◌∷◌, [], map};
ghost use Rattle.xf_ir.specs.Lists.{every, behind_first};
ghost use Rattle.xf_type.specs.Equal.{same_type, same_types};
ghost use Rattle.xf_ir.specs.Types.{known, has_type, have_types, first_type, last_type, element_of};
ghost use Rattle.xf_ir.specs.RuleBlocks.{element_type};
ghost use Rattle.xf_type.specs.declared.payload_type.PayloadType.TheVariants.{Scalar, Tensor};
ghost use Rattle.xf_rules.specs.OperandTypes.{operand_type, operand_types, scalars};

use xf_type::{PayloadType, Shape, Width, same_shape, same_type, same_width};

/// Whether an operand is visible and has this type.
pub fn has_type(ty: Option<&PayloadType>, wanted: &PayloadType) -> bool
    ensures { result ≡ has_type (operand_type ty.entry) wanted.now }
{
    match ty {
        None => false,
        Some(ty) => same_type(ty, wanted),
    }
}

/// Whether the operands have these types, one for one.
#[tactic(auto, using(crate::proofs::Operands::unequal_types))]
pub fn have_types(types: &[Option<&PayloadType>], wanted: &[PayloadType]) -> bool
    ensures { result ≡ have_types (operand_types types.now) wanted.now }
{
    if types.len() != wanted.len() {
        return false;
    }
    for at in 0..types.len() {
        if !has_type(types[at], &wanted[at]) {
            return false;
        }
    }
    true
}

/// Whether each operand is visible.
pub fn are_known(types: &[Option<&PayloadType>]) -> bool
    ensures { result ≡ every known (operand_types types.now) }
{
    for ty in types {
        if ty.is_none() {
            return false;
        }
    }
    true
}

/// The width of the elements of a type; a scalar is its own element.
pub fn element_of(ty: &PayloadType) -> Width
    ensures { result ≡ element_of ty.now }
{
    match ty {
        PayloadType::Scalar(width) => *width,
        PayloadType::Tensor(shape) => shape.elem,
    }
}

/// Whether a type is the scalar of this width.
pub fn is_scalar(ty: &PayloadType, width: Width) -> bool
    ensures { result ≡ same_type ty.now (Scalar width) }
{
    match ty {
        PayloadType::Scalar(own) => same_width(*own, width),
        PayloadType::Tensor(_) => false,
    }
}

/// Whether a type is that of one element of an operand, where the operand is visible.
pub fn is_element(ty: Option<&PayloadType>, wanted: &PayloadType) -> bool
    ensures { result ≡ has_type (element_type (operand_type ty.entry)) wanted.now }
{
    match ty {
        None => false,
        Some(ty) => match wanted {
            PayloadType::Scalar(width) => same_width(element_of(ty), *width),
            PayloadType::Tensor(_) => false,
        },
    }
}

/// Whether the types are those of one element of each operand, one for one.
#[tactic(auto, using(crate::proofs::Operands::unequal_elements))]
pub fn are_elements(types: &[Option<&PayloadType>], wanted: &[PayloadType]) -> bool
    ensures { result ≡ have_types (map element_type (operand_types types.now)) wanted.now }
{
    if types.len() != wanted.len() {
        return false;
    }
    for at in 0..types.len() {
        if !is_element(types[at], &wanted[at]) {
            return false;
        }
    }
    true
}

/// Whether an operand is visible and of the scalar type of this width.
pub fn is_scalar_operand(ty: Option<&PayloadType>, width: Width) -> bool
    ensures { result ≡ has_type (operand_type ty.entry) (Scalar width) }
{
    match ty {
        None => false,
        Some(ty) => is_scalar(ty, width),
    }
}

/// Whether the operands are scalars of these widths, one for one.
#[tactic(auto, using(crate::proofs::Operands::unequal_scalars))]
pub fn have_scalars(types: &[Option<&PayloadType>], widths: &[Width]) -> bool
    ensures { result ≡ have_types (operand_types types.now) (scalars widths.now) }
{
    if types.len() != widths.len() {
        return false;
    }
    for at in 0..types.len() {
        if !is_scalar_operand(types[at], widths[at]) {
            return false;
        }
    }
    true
}

/// Whether the types are scalars of these widths, one for one.
#[tactic(auto, using(crate::proofs::Operands::unequal_widths))]
pub fn are_scalars(types: &[PayloadType], widths: &[Width]) -> bool
    ensures { result ≡ same_types types.now (scalars widths.now) }
{
    if types.len() != widths.len() {
        return false;
    }
    for at in 0..types.len() {
        if !is_scalar(&types[at], widths[at]) {
            return false;
        }
    }
    true
}

/// Whether there is one type, a tensor of this shape.
pub fn is_tensor_of(types: &[PayloadType], shape: &Shape) -> bool
    ensures { result ≡ same_types types.now (Tensor shape.now ∷ []) }
{
    match types {
        [PayloadType::Tensor(own)] => same_shape(own, shape),
        _ => false,
    }
}

/// The type of the first operand, where there is one and it is visible.
pub fn first_type<'a>(types: &[Option<&'a PayloadType>]) -> Option<&'a PayloadType>
    ensures { operand_type result ≡ first_type (operand_types types.now) }
{
    match types {
        [] => None,
        [first, ..] => *first,
    }
}

/// The operands behind the first.
pub fn behind_first<'a, 'b>(types: &'a [Option<&'b PayloadType>]) -> &'a [Option<&'b PayloadType>]
    ensures { operand_types result.now ≡ behind_first (operand_types types.now) }
{
    match types {
        [] => &[],
        [_, rest @ ..] => rest,
    }
}

/// The type of the last operand, where there is one and it is visible.
#[tactic(auto, using(crate::proofs::Operands::last_operand))]
pub fn last_type<'a>(types: &[Option<&'a PayloadType>]) -> Option<&'a PayloadType>
    ensures { operand_type result ≡ last_type (operand_types types.now) }
{
    match types {
        [] => None,
        [.., last] => *last,
    }
}

/// Whether there are no operands.
#[tactic(auto, using(crate::proofs::Operands::some_operands))]
pub fn has_no_operands(types: &[Option<&PayloadType>]) -> bool
    ensures { result ≡ have_types (operand_types types.now) [] }
{
    match types {
        [] => true,
        _ => false,
    }
}

/// Whether there are no results.
pub fn has_no_results(results: &[PayloadType]) -> bool
    ensures { result ≡ same_types results.now [] }
{
    match results {
        [] => true,
        _ => false,
    }
}
