//! Numbers and types of the operands and results of structured operations.
ghost use Rattle.std.specs.Prelude.{◌≡◌};
ghost use Rattle.xf_ir.specs.Lists.{every};
ghost use Rattle.xf_ir.specs.RuleTypes.{out_row, operand_count, has_element, fill_fits, named_row};
ghost use Rattle.xf_ir.specs.Types.{is_scalar, is_tensor_with, last_type};
ghost use Rattle.xf_rules.specs.OperandTypes.{operand_type, operand_types};

use xf_ir::NamedKind;
use xf_rules::{element_of, first_type, is_tensor_of, last_type};
use xf_type::{PayloadType, Width, same_width};

/// Whether the last operand, the out, is a tensor, and the one result has its type.
pub fn out_row(types: &[Option<&PayloadType>], results: &[PayloadType]) -> bool
    ensures { result ≡ out_row (operand_types types.now) results.now }
{
    match last_type(types) {
        Some(PayloadType::Tensor(shape)) => is_tensor_of(results, shape),
        _ => false,
    }
}

fn operand_count(kind: NamedKind) -> usize
    ensures { result ≡ operand_count kind }
{
    match kind {
        NamedKind::Matmul => 3,
        NamedKind::BatchMatmul => 3,
        NamedKind::Matvec => 3,
        NamedKind::Dot => 3,
        NamedKind::Fill => 2,
    }
}

/// Whether an operand is visible, and its elements have this width.
fn has_element(width: Width, ty: Option<&PayloadType>) -> bool
    ensures { result ≡ has_element width (operand_type ty.entry) }
{
    match ty {
        None => false,
        Some(ty) => same_width(element_of(ty), width),
    }
}

fn have_element(width: Width, types: &[Option<&PayloadType>]) -> bool
    ensures { result ≡ every (has_element width) (operand_types types.now) }
{
    for ty in types {
        if !has_element(width, *ty) {
            return false;
        }
    }
    true
}

/// Whether the elements of all operands have the width of the out's, which is a tensor.
fn have_out_element(types: &[Option<&PayloadType>]) -> bool
    ensures { result ≡ is_tensor_with (λ s. every (has_element s.elem) (operand_types types.now))
        (last_type (operand_types types.now)) }
{
    match last_type(types) {
        Some(PayloadType::Tensor(shape)) => have_element(shape.elem, types),
        _ => false,
    }
}

fn is_any_scalar(ty: Option<&PayloadType>) -> bool
    ensures { result ≡ is_scalar (operand_type ty.entry) }
{
    match ty {
        Some(PayloadType::Scalar(_)) => true,
        _ => false,
    }
}

/// Whether the value that a fill takes is a scalar.
fn fill_fits(kind: NamedKind, types: &[Option<&PayloadType>]) -> bool
    ensures { result ≡ fill_fits kind (operand_types types.now) }
{
    match kind {
        NamedKind::Fill => is_any_scalar(first_type(types)),
        _ => true,
    }
}

/// Whether there are as many operands as the kind takes, all of the out's element type, and the result has the out's
/// type.
#[tactic(auto, using(xf_rules::proofs::Operands::operands_length))]
pub fn named_row(kind: NamedKind, types: &[Option<&PayloadType>], results: &[PayloadType]) -> bool
    ensures { result ≡ named_row kind (operand_types types.now) results.now }
{
    types.len() == operand_count(kind)
        && (out_row(types, results) && (have_out_element(types) && fill_fits(kind, types)))
}
