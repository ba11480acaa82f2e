//! Numbers and types of operands and results: the rows of func, arith and scf.
ghost use Rattle.std.specs.Prelude.{◌≡◌, ◌∷◌, []};
ghost use Rattle.xf_ir.specs.Calls.{callee_agrees};
ghost use Rattle.xf_ir.specs.RuleTypes.{takes_gives, are_inputs};
ghost use Rattle.xf_ir.specs.Types.{have_types};
ghost use Rattle.xf_type.specs.declared.payload_type.PayloadType.TheVariants.{Scalar};
ghost use Rattle.xf_rules.specs.Given.{callee_seen, gives_seen};
ghost use Rattle.xf_rules.specs.OperandTypes.{operand_types, scalars};

use crate::given::Yielded;
use crate::types::{
    are_scalars, has_no_operands, has_no_results, have_scalars, have_types, is_scalar_operand,
};
use xf_ir::{Kind, Signature};
use xf_type::{PayloadType, Width, same_types};

/// Whether there are no operands and no results.
pub fn is_bare(types: &[Option<&PayloadType>], results: &[PayloadType]) -> bool
    ensures { result ≡ takes_gives [] [] (operand_types types.now) results.now }
{
    has_no_operands(types) && has_no_results(results)
}

/// Whether the operands are what a terminator gives.
fn has_given(gives: Yielded<'_>, types: &[Option<&PayloadType>]) -> bool
    ensures { result ≡ have_types (operand_types types.now) (gives_seen gives.entry) }
{
    match gives {
        Yielded::Types(wanted) => have_types(types, wanted),
        Yielded::Element(width) => have_scalars(types, &[width]),
        Yielded::Nothing => has_no_operands(types),
    }
}

/// Whether the operands are what a terminator gives, and there are no results.
pub fn gives_row(
    gives: Yielded<'_>,
    types: &[Option<&PayloadType>],
    results: &[PayloadType],
) -> bool
    ensures { result ≡ takes_gives (gives_seen gives.entry) [] (operand_types types.now) results.now }
{
    has_given(gives, types) && has_no_results(results)
}

/// Whether the operands of a call are the callee's arguments; where there is no callee, that is another rule's.
pub fn are_inputs(callee: Option<Signature<'_>>, types: &[Option<&PayloadType>]) -> bool
    ensures { result ≡ are_inputs (callee_seen callee.entry) (operand_types types.now) }
{
    match callee {
        None => true,
        Some(callee) => have_types(types, callee.inputs),
    }
}

/// Whether the operands and the results are scalars of these widths.
pub fn scalar_row(
    takes: &[Width],
    gives: &[Width],
    types: &[Option<&PayloadType>],
    results: &[PayloadType],
) -> bool
    ensures { result ≡ takes_gives (scalars takes.now) (scalars gives.now) (operand_types types.now) results.now }
{
    have_scalars(types, takes) && are_scalars(results, gives)
}

/// Whether a loop takes its bounds and its step, of the width of its induction value, and then what its results begin
/// as.
#[tactic(auto, using(crate::proofs::Operands::few_for_loop))]
pub fn loop_row(width: Width, types: &[Option<&PayloadType>], results: &[PayloadType]) -> bool
    ensures { result ≡ have_types (operand_types types.now)
        (Scalar width ∷ (Scalar width ∷ (Scalar width ∷ results.now))) }
{
    match types {
        [lower, upper, step, rest @ ..] => {
            is_scalar_operand(*lower, width)
                && (is_scalar_operand(*upper, width)
                    && (is_scalar_operand(*step, width) && have_types(rest, results)))
        }
        _ => false,
    }
}

/// Whether a call has a callee, and its results are what the callee returns. Any other operation passes.
///
/// Takes time in the number of results and the length of their types.
pub fn callee_agrees(kind: &Kind, callee: Option<Signature<'_>>, results: &[PayloadType]) -> bool
    ensures { result ≡ callee_agrees (λ symbol. callee_seen callee.entry) kind.now results.now }
{
    match kind {
        Kind::Call { .. } => match callee {
            None => false,
            Some(callee) => same_types(results, callee.results),
        },
        _ => true,
    }
}
