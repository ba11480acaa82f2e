//! The extents of the dimensions of structured operations.
ghost use Rattle.std.specs.Prelude.{◌≡◌, ◌++◌, IfOk, OnOk};
ghost use Rattle.std.specs.BTreeMap.{get};
ghost use Rattle.std.specs.Ordering.{nat_cmp};
ghost use Rattle.xf_ir.specs.RuleLinalg.{maps_of, named_maps, by_dims, extents, dims_or_none, extents_agree};
ghost use Rattle.xf_ir.specs.RuleLinalg.{rank_or_none};
ghost use Rattle.xf_ir.specs.Types.{last_type};
ghost use Rattle.xf_rules_shape.specs.Extents.{dims_at, extents_by_three, fits_known, learned};
ghost use Rattle.xf_rules.specs.OperandTypes.{operand_type, operand_types};

use crate::ranges::dims_of;
use std::alloc::Global;
use std::collections::BTreeMap;
use xf_ir::{Kind, NamedKind};
use xf_type::{AffineMap, Dim, NoMemory, PayloadType};

/// The dimensions of an operand; none where it is not visible.
fn dims_or_none<'a>(ty: Option<&'a PayloadType>) -> &'a [Dim]
    ensures { result.now ≡ dims_or_none (operand_type ty.entry) }
{
    match ty {
        None => &[],
        Some(ty) => dims_of(ty),
    }
}

/// Adds the extents of an operand, by the dimensions of its map. Refuses for want of memory alone.
fn add_extents(pairs: &mut Vec<(u32, Dim)>, dims: &[u32], extents: &[Dim]) -> Result<(), NoMemory>
    ensures { OnOk result (pairs.new.items ≡ pairs.old.items ++ by_dims dims.now extents.now) }
{
    for at in 0..dims.len().min(extents.len()) {
        pairs.push((dims[at], extents[at]))?;
    }
    Ok(())
}

/// The extents of all operands, by the dimensions of their maps. Refuses for want of memory alone.
fn extents_of(
    alloc: Global,
    maps: &[AffineMap],
    types: &[Option<&PayloadType>],
) -> Result<Vec<(u32, Dim)>, NoMemory>
    ensures { IfOk result (λ pairs. pairs.items ≡ extents maps.now (operand_types types.now)) }
{
    let mut pairs = Vec::new(alloc);
    for at in 0..maps.len().min(types.len()) {
        let extents = dims_or_none(types[at]);
        add_extents(&mut pairs, maps[at].results.as_slice(), extents)?;
    }
    Ok(pairs)
}

/// Notes a fixed extent of a dimension, and tells whether it is the one that was noted before, where there is one.
/// Refuses for want of memory alone.
fn note(known: &mut BTreeMap<u32, u32>, dim: u32, extent: Dim) -> Result<bool, NoMemory>
    ensures fits { IfOk result (λ fit. fit ≡ fits_known (get nat_cmp known.old) (dim, extent)) }
    ensures ok { OnOk result (get nat_cmp known.new ≡ learned (get nat_cmp known.old) (dim, extent)) }
{
    match extent {
        Dim::Dynamic => Ok(true),
        Dim::Fixed(extent) => match known.insert(dim, extent)? {
            None => Ok(true),
            Some(before) => Ok(before == extent),
        },
    }
}

/// Whether the fixed extents of each dimension agree. Refuses for want of memory alone.
#[tactic(auto, using(crate::proofs::ExtentLemmas::agree_from_none))]
fn agree(alloc: Global, pairs: &[(u32, Dim)]) -> Result<bool, NoMemory>
    ensures { IfOk result (λ fit. fit ≡ extents_agree pairs.now) }
{
    let mut known = BTreeMap::new(alloc);
    for pair in pairs {
        if !note(&mut known, pair.0, pair.1)? {
            return Ok(false);
        }
    }
    Ok(true)
}

/// The dimensions of the operand with that number; none where there is none or it is not visible.
#[tactic(auto, using(crate::proofs::ExtentLemmas::dims_here, crate::proofs::ExtentLemmas::dims_beyond))]
fn dims_at<'a>(types: &[Option<&'a PayloadType>], at: usize) -> &'a [Dim]
    ensures { result.now ≡ dims_at (operand_types types.now) at }
{
    if at < types.len() {
        dims_or_none(types[at])
    } else {
        &[]
    }
}

/// Whether the fixed extents of each dimension agree, where the maps of three operands have these results. Refuses for
/// want of memory alone.
fn three_agree(
    alloc: Global,
    left: &[u32],
    right: &[u32],
    out: &[u32],
    types: &[Option<&PayloadType>],
) -> Result<bool, NoMemory>
    ensures { IfOk result (λ fit. fit
        ≡ extents_agree (extents_by_three left.now right.now out.now (operand_types types.now))) }
{
    let mut pairs = Vec::new(alloc);
    add_extents(&mut pairs, left, dims_at(types, 0))?;
    add_extents(&mut pairs, right, dims_at(types, 1))?;
    add_extents(&mut pairs, out, dims_at(types, 2))?;
    agree(alloc, pairs.as_slice())
}

/// Whether the fixed extents of each dimension of an operation with a name agree. Those of a fill do, since its out
/// alone has dimensions. Refuses for want of memory alone.
#[tactic(auto, using(crate::proofs::ExtentLemmas::three_maps, crate::proofs::ExtentLemmas::fill_agrees))]
fn named_extents_agree(
    alloc: Global,
    kind: NamedKind,
    types: &[Option<&PayloadType>],
) -> Result<bool, NoMemory>
    ensures { let os = operand_types types.now in
        IfOk result (λ fit. fit ≡ extents_agree (extents (named_maps kind (rank_or_none (last_type os))) os)) }
{
    match kind {
        NamedKind::Matmul => three_agree(alloc, &[0, 2], &[2, 1], &[0, 1], types),
        NamedKind::BatchMatmul => three_agree(alloc, &[0, 1, 3], &[0, 3, 2], &[0, 1, 2], types),
        NamedKind::Matvec => three_agree(alloc, &[0, 1], &[1], &[0], types),
        NamedKind::Dot => three_agree(alloc, &[0], &[0], &[], types),
        NamedKind::Fill => Ok(true),
    }
}

/// Whether the fixed extents of each dimension of a linalg.generic agree. Refuses for want of memory alone.
fn generic_extents_agree(
    alloc: Global,
    maps: &[AffineMap],
    types: &[Option<&PayloadType>],
) -> Result<bool, NoMemory>
    ensures { IfOk result (λ fit. fit ≡ extents_agree (extents maps.now (operand_types types.now))) }
{
    let pairs = extents_of(alloc, maps, types)?;
    agree(alloc, pairs.as_slice())
}

/// Whether the fixed extents of each dimension of a structured operation agree: the extents that the operands have
/// where their maps have the dimension. Any other operation passes.
///
/// Takes time in the number of extents and its logarithm. Refuses for want of memory alone.
pub fn extents_agree(
    alloc: Global,
    kind: &Kind,
    types: &[Option<&PayloadType>],
) -> Result<bool, NoMemory>
    ensures { let os = operand_types types.now in
        IfOk result (λ fit. fit ≡ extents_agree (extents (maps_of kind.now os) os)) }
{
    match kind {
        Kind::Named { kind } => named_extents_agree(alloc, *kind, types),
        Kind::Generic { maps, .. } => generic_extents_agree(alloc, maps.as_slice(), types),
        _ => Ok(true),
    }
}
