//! The maps of the operations of linalg that have a name.
ghost use Rattle.std.specs.Prelude.{◌≡◌, ◌∷◌, [], IfOk};
ghost use Rattle.xf_ir.specs.RuleLinalg.{counted, named_maps};
ghost use Rattle.xf_sem.specs.Structured.{dims_of_first};
ghost use Rattle.xf_eval_points.specs.Frames.{maps_seen};

use std::alloc::Global;
use xf_ir::NamedKind;
use xf_type::{ListOf, NoMemory, PlaceList};

/// Three lists of dimensions.
fn three(
    alloc: Global,
    first: &[u32],
    second: &[u32],
    third: &[u32],
) -> Result<ListOf<PlaceList>, NoMemory>
    ensures { IfOk result (λ maps. maps ≡ first.now ∷ (second.now ∷ (third.now ∷ []))) }
{
    let mut maps = ListOf::new(alloc);
    maps.push(ListOf::from_slice(alloc, first)?)?;
    maps.push(ListOf::from_slice(alloc, second)?)?;
    maps.push(ListOf::from_slice(alloc, third)?)?;
    Ok(maps)
}

/// So many dimensions in order. As many as a number of a dimension has values are more than memory holds.
fn all_dims(alloc: Global, rank: usize) -> Result<PlaceList, NoMemory>
    ensures { IfOk result (λ dims. dims ≡ counted 0 rank) }
{
    let Ok(rank) = u32::try_from(rank) else {
        return Err(std::alloc::AllocError);
    };
    let mut dims = Vec::new(alloc);
    for dim in 0..rank {
        dims.push(dim)?;
    }
    Ok(ListOf::from_vec(dims))
}

/// The dimensions that each map of an operation with a name selects, over an out of this rank. Refuses for want of
/// memory alone.
pub fn dims_of_named(
    alloc: Global,
    kind: NamedKind,
    rank: usize,
) -> Result<ListOf<PlaceList>, NoMemory>
    ensures { IfOk result (λ maps. maps ≡ maps_seen (named_maps kind rank)) }
{
    match kind {
        NamedKind::Matmul => three(alloc, &[0, 2], &[2, 1], &[0, 1]),
        NamedKind::BatchMatmul => three(alloc, &[0, 1, 3], &[0, 3, 2], &[0, 1, 2]),
        NamedKind::Matvec => three(alloc, &[0, 1], &[1], &[0]),
        NamedKind::Dot => three(alloc, &[0], &[0], &[]),
        NamedKind::Fill => {
            let mut maps = ListOf::new(alloc);
            maps.push(ListOf::new(alloc))?;
            maps.push(all_dims(alloc, rank)?)?;
            Ok(maps)
        }
    }
}

/// How many dimensions an operation with a name has, over an out of this rank.
pub fn rank_of_named(kind: NamedKind, rank: usize) -> usize
    ensures { result ≡ dims_of_first (named_maps kind rank) }
{
    match kind {
        NamedKind::Matmul => 3,
        NamedKind::BatchMatmul => 4,
        NamedKind::Matvec => 2,
        NamedKind::Dot => 1,
        NamedKind::Fill => rank,
    }
}
