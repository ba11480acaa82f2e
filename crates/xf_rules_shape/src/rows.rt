//! Numbers and types of operands and results, for each kind.
ghost use Rattle.std.specs.Prelude.{◌≡◌, ◌∷◌, []};
ghost use Rattle.xf_ir.specs.RuleTypes.{takes_gives, row_of};
ghost use Rattle.xf_type.specs.declared.payload_type.PayloadType.TheVariants.{Tensor};
ghost use Rattle.xf_rules.specs.Given.{callee_seen, gives_seen};
ghost use Rattle.xf_rules.specs.OperandTypes.{operand_types};

use crate::linalg_rows::{named_row, out_row};
use crate::tensor_rows::{
    cast_row, dim_row, empty_row, extract_row, extract_slice_row, insert_row, insert_slice_row,
};
use xf_ir::{Kind, Signature};
use xf_rules::{
    Yielded, are_inputs, gives_row, has_no_operands, have_scalars, is_bare, is_tensor_of, loop_row,
    scalar_row,
};
use xf_type::{PayloadType, Shape, Width};

/// Whether a dense constant of this shape has no operands, and a tensor of the shape as result.
fn dense_row(shape: &Shape, types: &[Option<&PayloadType>], results: &[PayloadType]) -> bool
    ensures { result ≡ takes_gives [] (Tensor shape.now ∷ []) (operand_types types.now) results.now }
{
    has_no_operands(types) && is_tensor_of(results, shape)
}

/// Whether operands and results have the numbers and types that belong to an operation of that kind. The terminator of
/// the block in which it stands gives values of some types, and a call's callee, where there is one, has a signature.
///
/// Takes time in the number of operands and results and the length of their types.
pub fn types_fit(
    kind: &Kind,
    gives: Yielded<'_>,
    callee: Option<Signature<'_>>,
    types: &[Option<&PayloadType>],
    results: &[PayloadType],
) -> bool
    ensures { result ≡ row_of (λ symbol. callee_seen callee.entry) (gives_seen gives.entry) kind.now
        (operand_types types.now) results.now }
{
    match kind {
        Kind::Module { .. } | Kind::Func { .. } => is_bare(types, results),
        Kind::Return | Kind::Yield | Kind::LinalgYield => gives_row(gives, types, results),
        Kind::Call { .. } => are_inputs(callee, types),
        Kind::Constant { width, .. } => scalar_row(&[], &[*width], types, results),
        Kind::Dense { shape, .. } => dense_row(shape, types, results),
        Kind::Binary { width, .. } => scalar_row(&[*width, *width], &[*width], types, results),
        Kind::Compare { width, .. } => scalar_row(&[*width, *width], &[Width::I1], types, results),
        Kind::Select { width } => {
            scalar_row(&[Width::I1, *width, *width], &[*width], types, results)
        }
        Kind::Convert { from, to, .. } => scalar_row(&[*from], &[*to], types, results),
        Kind::For { width } => loop_row(*width, types, results),
        Kind::If => have_scalars(types, &[Width::I1]),
        Kind::Empty => empty_row(types, results),
        Kind::Dim => dim_row(types, results),
        Kind::Extract => extract_row(types, results),
        Kind::Insert => insert_row(types, results),
        Kind::ExtractSlice { offsets, sizes } => {
            extract_slice_row(offsets.as_slice(), sizes.as_slice(), types, results)
        }
        Kind::InsertSlice { offsets, sizes } => {
            insert_slice_row(offsets.as_slice(), sizes.as_slice(), types, results)
        }
        Kind::Cast => cast_row(types, results),
        Kind::Named { kind } => named_row(*kind, types, results),
        Kind::Generic { .. } => out_row(types, results),
    }
}
