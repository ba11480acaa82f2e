//! The ranges of types: ranks, and fixed dimensions.
ghost use Rattle.std.specs.Prelude.{◌≡◌, ◌&&◌};
ghost use Rattle.xf_ir.specs.Kinds.{returned_types};
ghost use Rattle.xf_ir.specs.Lists.{every};
ghost use Rattle.xf_ir.specs.RuleAttributes.{dim_fits, type_fits};
ghost use Rattle.xf_ir.specs.RuleBlocks.{block_args};
ghost use Rattle.xf_ir.specs.Types.{dims_of};
ghost use Rattle.xf_ir.specs.View.{regions_of};

use xf_ir::{Block, Kind};
use xf_type::{Dim, PayloadType};

/// The greatest rank of a type.
const MOST_DIMS: usize = 8;

/// What each fixed dimension is below.
const EXTENTS_END: u32 = 1 << 31;

fn dim_fits(dim: Dim) -> bool
    ensures { result ≡ dim_fits dim }
{
    match dim {
        Dim::Fixed(extent) => extent < EXTENTS_END,
        Dim::Dynamic => true,
    }
}

fn dims_fit(dims: &[Dim]) -> bool
    ensures { result ≡ every dim_fits dims.now }
{
    for dim in dims {
        if !dim_fits(*dim) {
            return false;
        }
    }
    true
}

/// The dimensions of a type; a scalar has none.
pub fn dims_of(ty: &PayloadType) -> &[Dim]
    ensures { result.now ≡ dims_of ty.now }
{
    match ty {
        PayloadType::Scalar(_) => &[],
        PayloadType::Tensor(shape) => shape.dims.as_slice(),
    }
}

/// Whether the rank of a type is at most 8 and its fixed dimensions are below 2^31.
fn is_in_range(ty: &PayloadType) -> bool
    ensures { result ≡ type_fits ty.now }
{
    let dims = dims_of(ty);
    dims.len() <= MOST_DIMS && dims_fit(dims)
}

fn are_in_range(types: &[PayloadType]) -> bool
    ensures { result ≡ every type_fits types.now }
{
    for ty in types {
        if !is_in_range(ty) {
            return false;
        }
    }
    true
}

/// The types that a function returns; nothing else returns any.
fn returned_types(kind: &Kind) -> &[PayloadType]
    ensures { result.now ≡ returned_types kind.now }
{
    match kind {
        Kind::Func { results, .. } => results.as_slice(),
        _ => &[],
    }
}

fn args_in_range(regions: &[Block]) -> bool
    ensures { result ≡ every (every type_fits) (block_args (regions_of regions.now)) }
{
    for block in regions {
        if !are_in_range(block.args.as_slice()) {
            return false;
        }
    }
    true
}

/// Whether the types of an operation's results, of its block arguments and, for a function, of what it returns have
/// ranks of at most 8 and fixed dimensions below 2^31.
///
/// Takes time in the length of these types.
pub fn types_in_range(kind: &Kind, results: &[PayloadType], regions: &[Block]) -> bool
    ensures { result ≡ (every type_fits results.now && (every type_fits (returned_types kind.now)
        && every (every type_fits) (block_args (regions_of regions.now)))) }
{
    are_in_range(results) && (are_in_range(returned_types(kind)) && args_in_range(regions))
}
