//! The extents of structured operations, from their operands through their maps.
ghost use Rattle.std.specs.Prelude.{◌≡◌, [], IfOk, IfSome};
ghost use Rattle.xf_points.specs.Points.{at, same_point};
ghost use Rattle.xf_sem.specs.Structured.{extent_in, extent_of, extents, agree, front, last_or, out_of};
ghost use Rattle.xf_eval_points.specs.Frames.{maps_seen, shapes, agreed};
ghost use Rattle.std.specs.Option.{option_copied};
ghost use Rattle.xf_sem.specs.Values.{IsValue};
ghost use Rattle.xf_eval_values.specs.Held.{as_value, tensor_of};

use crate::place::select;
use std::alloc::Global;
use xf_eval_values::{Held, Tensor};
use xf_type::{AffineMap, Duplicate, ListOf, NoMemory, PlaceList};

/// The dimensions that each of the maps of a generic selects.
pub fn dims_of_maps(alloc: Global, maps: &[AffineMap]) -> Result<ListOf<PlaceList>, NoMemory>
    ensures { IfOk result (λ all. all ≡ maps_seen maps.now) }
{
    let mut all = ListOf::new(alloc);
    if maps.is_empty() {
        all.push(ListOf::new(alloc))?;
        return Ok(all);
    }
    for map in maps {
        all.push(map.results.duplicate(alloc)?)?;
    }
    Ok(all)
}

/// The extent of a dimension in an operand of these sizes, at the first place of its map that has it.
fn extent_in(dim: usize, map: &[u32], sizes: &[u32]) -> Option<u32>
    ensures { result ≡ extent_in dim map.now sizes.now }
{
    for at in 0..map.len() {
        if at >= sizes.len() {
            return None;
        }
        if map[at] as usize == dim {
            return Some(sizes[at]);
        }
    }
    None
}

/// The extent of a dimension in the first operand whose map has it; 0 where none has.
fn extent_of(dim: usize, maps: &[PlaceList], args: &[Held]) -> u32
    ensures { result ≡ extent_of dim maps.now (shapes args.now) }
{
    for at in 0..maps.len() {
        if at >= args.len() {
            return 0;
        }
        if let Some(extent) = extent_in(dim, maps[at].as_slice(), args[at].sizes()) {
            return extent;
        }
    }
    0
}

/// The extents of so many dimensions. Refuses for want of memory alone.
pub fn extents(
    alloc: Global,
    rank: usize,
    maps: &[PlaceList],
    args: &[Held],
) -> Result<ListOf<u32>, NoMemory>
    ensures { IfOk result (λ es. es ≡ extents rank maps.now (shapes args.now)) }
{
    let mut all = Vec::new(alloc);
    for dim in 0..rank {
        all.push(extent_of(dim, maps, args))?;
    }
    Ok(ListOf::from_vec(all))
}

/// Whether the sizes are the extents that a map selects.
#[tactic(auto, using(crate::proofs::FrameLemmas::unequal_sizes))]
fn has_sizes(extents: &[u32], map: &[u32], sizes: &[u32]) -> bool
    ensures { result ≡ same_point sizes.now (at map.now extents.now) }
{
    if sizes.len() != map.len() {
        return false;
    }
    for dim in 0..sizes.len() {
        if sizes[dim] != select(map, dim, extents) {
            return false;
        }
    }
    true
}

/// Whether each operand has the extents that its map selects.
#[tactic(auto, using(crate::proofs::FrameLemmas::unequal_maps))]
pub fn agree(extents: &[u32], maps: &[PlaceList], args: &[Held]) -> bool
    ensures { result ≡ agree extents.now maps.now (shapes args.now) }
{
    if maps.len() != args.len() {
        return false;
    }
    for at in 0..maps.len() {
        if !has_sizes(extents, maps[at].as_slice(), args[at].sizes()) {
            return false;
        }
    }
    true
}

/// The extents of so many dimensions, where each operand has those that its map selects. Refuses for want of memory
/// alone.
pub fn agreed_extents(
    alloc: Global,
    rank: usize,
    maps: &[PlaceList],
    args: &[Held],
) -> Result<Option<ListOf<u32>>, NoMemory>
    ensures { IfOk result (λ es. es ≡ agreed rank maps.now args.now) }
{
    let all = extents(alloc, rank, maps, args)?;
    if agree(all.as_slice(), maps, args) {
        Ok(Some(all))
    } else {
        Ok(None)
    }
}

/// The maps of what is read: all but that of the out, which is the last.
#[tactic(auto, using(crate::proofs::ShapeLemmas::front_taken))]
pub fn in_maps(maps: &[PlaceList]) -> &[PlaceList]
    ensures { result.now ≡ front maps.now }
{
    if maps.is_empty() {
        return maps;
    }
    &maps[..maps.len() - 1]
}

/// What the map of the out selects.
#[tactic(auto, using(crate::proofs::ShapeLemmas::last_got))]
pub fn out_map(maps: &[PlaceList]) -> &[u32]
    ensures { result.now ≡ last_or [] maps.now }
{
    if maps.is_empty() {
        return &[];
    }
    maps[maps.len() - 1].as_slice()
}

/// The operands that are read: all but the out, which is the last.
#[tactic(auto, using(crate::proofs::ShapeLemmas::front_taken))]
pub fn ins_of(args: &[Held]) -> &[Held]
    ensures { result.now ≡ front args.now }
{
    if args.is_empty() {
        return args;
    }
    &args[..args.len() - 1]
}

/// The out, where it is a tensor.
#[tactic(auto, using(crate::proofs::ShapeLemmas::out_got))]
pub fn out_tensor(args: &[Held]) -> Option<&Tensor>
    ensures parts { option_copied result ≡ tensor_of (out_of args.now) }
    ensures is_value { IfSome result (λ t. IsValue (as_value t.now)) }
{
    if args.is_empty() {
        return None;
    }
    args[args.len() - 1].as_tensor()
}
