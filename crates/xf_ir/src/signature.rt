//! The signatures of functions.
ghost use Rattle.std.specs.Prelude.{◌≡◌, Some};
ghost use Rattle.xf_ir.specs.Calls.{first_args, signature};
ghost use Rattle.xf_ir.specs.Kinds.{returned_types};
ghost use Rattle.xf_ir.specs.Signatures.{signature_seen};
ghost use Rattle.xf_ir.specs.View.{regions_of};

use crate::kind::Kind;
use crate::op::{Block, Op};
use xf_type::PayloadType;

/// The types of a function's arguments and of what it returns.
#[derive(Clone, Copy)]
pub struct Signature<'a> {
    pub inputs: &'a [PayloadType],
    pub results: &'a [PayloadType],
}

/// The types of the arguments of the first block.
pub fn first_args(regions: &[Block]) -> &[PayloadType]
    ensures { result.now ≡ first_args (regions_of regions.now) }
{
    match regions {
        [] => &[],
        [block, ..] => block.args.as_slice(),
    }
}

/// The types of what a function returns; none where it is no function.
pub fn returned_types(kind: &Kind) -> &[PayloadType]
    ensures { result.now ≡ returned_types kind.now }
{
    match kind {
        Kind::Func { results, .. } => results.as_slice(),
        _ => &[],
    }
}

/// The signature of a function.
pub fn signature_of(function: &Op) -> Signature<'_>
    ensures { Some (signature_seen result) ≡ signature (Some function.now) }
{
    Signature {
        inputs: first_args(&function.regions),
        results: returned_types(&function.kind),
    }
}
