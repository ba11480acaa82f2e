//! Regions, the arguments of their blocks, and the ends of blocks.
ghost use Rattle.std.specs.Prelude.{◌≡◌, ◌&&◌, ◌||◌, not, ◌∷◌, map};
ghost use Rattle.xf_ir.specs.Kinds.{is_terminator, ends_for, is_endless, is_generic, is_arith, is_return, is_yield};
ghost use Rattle.xf_ir.specs.Kinds.{is_linalg_yield};
ghost use Rattle.xf_ir.specs.RuleBlocks.{block_args, element_type, args_fit, else_fits, blocks_fit, block_ends};
ghost use Rattle.xf_ir.specs.RuleBlocks.{blocks_end};
ghost use Rattle.xf_type.specs.Equal.{same_types};
ghost use Rattle.xf_ir.specs.Lists.{every};
ghost use Rattle.xf_ir.specs.Types.{known, have_types};
ghost use Rattle.xf_ir.specs.View.{ops_of, regions_of};
ghost use Rattle.xf_type.specs.declared.payload_type.PayloadType.TheVariants.{Scalar};
ghost use Rattle.xf_rules.specs.OperandTypes.{operand_types};

use crate::types::{are_elements, are_known, is_scalar};
use xf_ir::{Block, Kind, Op};
use xf_type::{PayloadType, Width, same_types};

/// Whether the arguments of a loop's block are the induction value of this width, and one for each result.
fn are_loop_args(args: &[PayloadType], width: Width, results: &[PayloadType]) -> bool
    ensures { result ≡ same_types args.now (Scalar width ∷ results.now) }
{
    match args {
        [] => false,
        [first, rest @ ..] => is_scalar(first, width) && same_types(rest, results),
    }
}

/// Whether the arguments of a body of linalg are one element of each operand; where an operand is not visible, its
/// visibility alone is asked for.
fn are_body_args(types: &[Option<&PayloadType>], args: &[PayloadType]) -> bool
    ensures { result ≡ (not (every known (operand_types types.now))
        || have_types (map element_type (operand_types types.now)) args.now) }
{
    !are_known(types) || are_elements(types, args)
}

/// Whether the arguments of the first block are those that belong to the kind.
fn args_fit(
    kind: &Kind,
    types: &[Option<&PayloadType>],
    results: &[PayloadType],
    args: &[PayloadType],
) -> bool
    ensures { result ≡ args_fit kind.now (operand_types types.now) results.now args.now }
{
    match kind {
        Kind::Func { .. } => true,
        Kind::For { width } => are_loop_args(args, *width, results),
        Kind::Generic { .. } => are_body_args(types, args),
        _ => args.is_empty(),
    }
}

/// Whether there is a block of else, without arguments, where there may be one.
#[tactic(auto, using(crate::proofs::BlockLemmas::no_blocks))]
fn else_fits(kind: &Kind, results: &[PayloadType], rest: &[Block]) -> bool
    ensures { result ≡ else_fits kind.now results.now (block_args (regions_of rest.now)) }
{
    match rest {
        [] => !kind.has_else() || results.is_empty(),
        [block, more @ ..] => kind.has_else()
            && (block.args.as_slice().is_empty() && more.is_empty()),
    }
}

/// Whether an operation whose operands and results have these types has the regions that belong to its kind, each with
/// the block arguments that belong to it.
///
/// Takes time in the number of operands, results and block arguments.
pub fn regions_fit(
    kind: &Kind,
    types: &[Option<&PayloadType>],
    results: &[PayloadType],
    regions: &[Block],
) -> bool
    ensures { result ≡ blocks_fit kind.now (operand_types types.now) results.now (block_args (regions_of regions.now)) }
{
    match regions {
        [] => !kind.has_body(),
        [block, rest @ ..] => {
            kind.has_body()
                && (args_fit(kind, types, results, block.args.as_slice())
                    && else_fits(kind, results, rest))
        }
    }
}

/// Whether it ends a function.
fn is_return(kind: &Kind) -> bool
    ensures { result ≡ is_return kind.now }
{
    match kind {
        Kind::Return => true,
        _ => false,
    }
}

/// Whether it ends a block of scf.
fn is_yield(kind: &Kind) -> bool
    ensures { result ≡ is_yield kind.now }
{
    match kind {
        Kind::Yield => true,
        _ => false,
    }
}

/// Whether it ends the body of a `linalg.generic`.
fn is_linalg_yield(kind: &Kind) -> bool
    ensures { result ≡ is_linalg_yield kind.now }
{
    match kind {
        Kind::LinalgYield => true,
        _ => false,
    }
}

/// Whether an operation of that kind ends a block of the holder.
fn ends_for(holder: &Kind, kind: &Kind) -> bool
    ensures { result ≡ ends_for holder.now kind.now }
{
    match holder {
        Kind::Func { .. } => is_return(kind),
        Kind::For { .. } => is_yield(kind),
        Kind::If => is_yield(kind),
        Kind::Generic { .. } => is_linalg_yield(kind),
        _ => false,
    }
}

/// Whether a block of the holder goes without a terminator.
fn is_endless(holder: &Kind) -> bool
    ensures { result ≡ is_endless holder.now }
{
    match holder {
        Kind::Module { .. } => true,
        _ => false,
    }
}

/// Whether a block of the holder may have an operation of that kind as its last.
fn ends_in(holder: &Kind, last: &Kind) -> bool
    ensures { result ≡ (is_endless holder.now || ends_for holder.now last.now) }
{
    is_endless(holder) || ends_for(holder, last)
}

/// Whether a block of the holder ends in the holder's terminator.
fn block_ends(holder: &Kind, ops: &[Op]) -> bool
    ensures { result ≡ block_ends holder.now (ops_of ops.now) }
{
    match ops {
        [] => is_endless(holder),
        [.., last] => ends_in(holder, &last.kind),
    }
}

/// Whether each block that an operation of the holder's kind holds ends in the holder's terminator; a module's block
/// needs none.
///
/// Takes time in the number of regions.
pub fn blocks_end(holder: &Kind, regions: &[Block]) -> bool
    ensures { result ≡ blocks_end holder.now (regions_of regions.now) }
{
    for block in regions {
        if !block_ends(holder, block.ops.as_slice()) {
            return false;
        }
    }
    true
}

/// Whether an operation that stands in a block of the holder is no terminator, or is the holder's and the last of its
/// block.
pub fn stands_at_end(holder: &Kind, kind: &Kind, is_last: bool) -> bool
    ensures { result ≡ (not (is_terminator kind.now) || (is_last && ends_for holder.now kind.now)) }
{
    !kind.ends_block() || (is_last && ends_for(holder, kind))
}

/// Whether it is an operation of the arith dialect.
fn is_arith(kind: &Kind) -> bool
    ensures { result ≡ is_arith kind.now }
{
    match kind {
        Kind::Constant { .. } => true,
        Kind::Dense { .. } => true,
        Kind::Binary { .. } => true,
        Kind::Compare { .. } => true,
        Kind::Select { .. } => true,
        Kind::Convert { .. } => true,
        _ => false,
    }
}

/// Whether an operation that stands in a block of the holder may stand there: a body of linalg holds operations of
/// arith and its yield alone.
pub fn fits_body(holder: &Kind, kind: &Kind) -> bool
    ensures { result ≡ (not (is_generic holder.now) || (is_arith kind.now || is_linalg_yield kind.now)) }
{
    !holder.is_generic() || (is_arith(kind) || is_linalg_yield(kind))
}
