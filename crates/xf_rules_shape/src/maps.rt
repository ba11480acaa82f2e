//! The maps and iterators of structured operations.
ghost use Rattle.std.specs.Prelude.{◌≡◌, ◌||◌, not, length, nat_lt, IfOk, OnOk};
ghost use Rattle.std.specs.FinSet as set;
ghost use Rattle.xf_ir.specs.Lists.{every};
ghost use Rattle.xf_ir.specs.RuleLinalg.{is_structured, maps_of, iterators_of, counted, numbers_once, is_projection};
ghost use Rattle.xf_ir.specs.RuleLinalg.{has_rank, have_ranks, are_covered, maps_fit, is_parallel, last_results};
ghost use Rattle.xf_ir.specs.RuleLinalg.{iterators_fit, rank_or_none};
ghost use Rattle.xf_ir.specs.Types.{last_type};
ghost use Rattle.xf_rules_shape.specs.Dims.{with_dims, with_results, iterators_fit_set, named_ranks, are_ranks};
ghost use Rattle.xf_rules.specs.OperandTypes.{operand_type, operand_types};

use crate::dim_set::DimSet;
use crate::ranges::dims_of;
use std::alloc::Global;
use xf_ir::{IteratorKind, Kind, NamedKind};
use xf_rules::last_type;
use xf_type::{AffineMap, NoMemory, PayloadType};

/// Whether no number stands twice. Refuses for want of memory alone.
#[tactic(auto, using(crate::proofs::DimSets::once_by_set))]
fn numbers_once(alloc: Global, numbers: &[u32]) -> Result<bool, NoMemory>
    ensures { IfOk result (λ once. once ≡ numbers_once numbers.now) }
{
    let mut seen = DimSet::new(alloc);
    for number in numbers {
        if !seen.insert(*number as usize)? {
            return Ok(false);
        }
    }
    Ok(true)
}

/// Whether each number is below a count.
fn are_below(count: usize, numbers: &[u32]) -> bool
    ensures { result ≡ every (λ d. nat_lt d count) numbers.now }
{
    for number in numbers {
        if *number as usize >= count {
            return false;
        }
    }
    true
}

/// Whether a map is a projected permutation of so many dimensions. Refuses for want of memory alone.
fn is_projection(alloc: Global, count: usize, map: &AffineMap) -> Result<bool, NoMemory>
    ensures { IfOk result (λ fit. fit ≡ is_projection count map.now) }
{
    let numbers = map.results.as_slice();
    if map.dims as usize == count && are_below(count, numbers) {
        numbers_once(alloc, numbers)
    } else {
        Ok(false)
    }
}

/// Whether each map is a projected permutation of so many dimensions. Refuses for want of memory alone.
fn are_projections(alloc: Global, count: usize, maps: &[AffineMap]) -> Result<bool, NoMemory>
    ensures { IfOk result (λ fit. fit ≡ every (is_projection count) maps.now) }
{
    for map in maps {
        if !is_projection(alloc, count, map)? {
            return Ok(false);
        }
    }
    Ok(true)
}

/// Whether an operand is visible and has that rank.
fn has_rank(rank: usize, ty: Option<&PayloadType>) -> bool
    ensures { result ≡ has_rank rank (operand_type ty.entry) }
{
    match ty {
        None => false,
        Some(ty) => dims_of(ty).len() == rank,
    }
}

/// Whether there is one map for each operand, with as many results as its rank.
#[tactic(auto, using(crate::proofs::NamedMaps::other_maps))]
fn have_ranks(maps: &[AffineMap], types: &[Option<&PayloadType>]) -> bool
    ensures { result ≡ have_ranks maps.now (operand_types types.now) }
{
    if maps.len() != types.len() {
        return false;
    }
    for at in 0..maps.len() {
        if !has_rank(maps[at].results.len(), types[at]) {
            return false;
        }
    }
    true
}

/// Whether the operands have these ranks, one for one.
#[tactic(auto, using(crate::proofs::NamedMaps::other_ranks))]
fn are_ranks(ranks: &[usize], types: &[Option<&PayloadType>]) -> bool
    ensures { result ≡ are_ranks ranks.now (operand_types types.now) }
{
    if ranks.len() != types.len() {
        return false;
    }
    for at in 0..ranks.len() {
        if !has_rank(ranks[at], types[at]) {
            return false;
        }
    }
    true
}

/// Puts numbers into a set. Refuses for want of memory alone.
fn add_dims(dims: &mut DimSet, numbers: &[u32]) -> Result<(), NoMemory>
    ensures { OnOk result (dims.new ≡ with_dims dims.old numbers.now) }
{
    for number in numbers {
        dims.insert(*number as usize)?;
    }
    Ok(())
}

/// Puts the results of maps into a set. Refuses for want of memory alone.
fn add_results(dims: &mut DimSet, maps: &[AffineMap]) -> Result<(), NoMemory>
    ensures { OnOk result (dims.new ≡ with_results dims.old maps.now) }
{
    for map in maps {
        add_dims(dims, map.results.as_slice())?;
    }
    Ok(())
}

/// Whether each of so many dimensions is in some map. Refuses for want of memory alone.
#[tactic(auto, using(crate::proofs::DimSets::covered_by_set))]
fn are_covered(alloc: Global, maps: &[AffineMap], count: usize) -> Result<bool, NoMemory>
    ensures { IfOk result (λ fit. fit ≡ are_covered maps.now count) }
{
    let mut covered = DimSet::new(alloc);
    add_results(&mut covered, maps)?;
    Ok(has_all(&covered, count))
}

/// Whether a set has each number below a count.
#[tactic(auto, using(crate::proofs::DimSets::has_next, crate::proofs::DimSets::lacks_next))]
fn has_all(dims: &DimSet, count: usize) -> bool
    ensures { result ≡ every (set.contains dims.now) (counted 0 count) }
{
    for number in 0..count {
        if !dims.contains(number) {
            return false;
        }
    }
    true
}

/// The rank of an operand, 0 where it is not visible.
fn rank_or_none(ty: Option<&PayloadType>) -> usize
    ensures { result ≡ rank_or_none (operand_type ty.entry) }
{
    match ty {
        None => 0,
        Some(ty) => dims_of(ty).len(),
    }
}

/// Whether the operands of an operation with a name have the ranks of its maps, which are projected permutations and
/// have all dimensions.
fn named_maps_fit(kind: NamedKind, types: &[Option<&PayloadType>]) -> bool
    ensures { result
        ≡ are_ranks (named_ranks kind (rank_or_none (last_type (operand_types types.now)))) (operand_types types.now) }
{
    match kind {
        NamedKind::Matmul => are_ranks(&[2, 2, 2], types),
        NamedKind::BatchMatmul => are_ranks(&[3, 3, 3], types),
        NamedKind::Matvec => are_ranks(&[2, 1, 1], types),
        NamedKind::Dot => are_ranks(&[1, 1, 0], types),
        NamedKind::Fill => are_ranks(&[0, rank_or_none(last_type(types))], types),
    }
}

/// Whether maps are projected permutations of so many dimensions, one for each operand, with as many results as its
/// rank, and each dimension is in some map. Refuses for want of memory alone.
fn generic_maps_fit(
    alloc: Global,
    maps: &[AffineMap],
    count: usize,
    types: &[Option<&PayloadType>],
) -> Result<bool, NoMemory>
    ensures { IfOk result (λ fit. fit ≡ maps_fit maps.now count (operand_types types.now)) }
{
    if !have_ranks(maps, types) || !are_projections(alloc, count, maps)? {
        return Ok(false);
    }
    are_covered(alloc, maps, count)
}

/// Whether the maps of a structured operation are projected permutations over as many dimensions as iterators, one for
/// each operand, with as many results as the operand's rank (0 for a scalar), and each dimension is in some map. Any
/// other operation passes.
///
/// Takes time in the number of dimensions and of the maps' results and its logarithm. Refuses for want of memory alone.
#[tactic(auto, using(crate::proofs::NamedMaps::named_fit))]
pub fn maps_fit(
    alloc: Global,
    kind: &Kind,
    types: &[Option<&PayloadType>],
) -> Result<bool, NoMemory>
    ensures { let os = operand_types types.now in IfOk result (λ fit. fit
        ≡ (not (is_structured kind.now) || maps_fit (maps_of kind.now os) (length (iterators_of kind.now os)) os)) }
{
    match kind {
        Kind::Named { kind } => Ok(named_maps_fit(*kind, types)),
        Kind::Generic { maps, iterators } => {
            generic_maps_fit(alloc, maps.as_slice(), iterators.len(), types)
        }
        _ => Ok(true),
    }
}

/// Whether it is a parallel dimension.
fn is_parallel(iterator: IteratorKind) -> bool
    ensures { result ≡ is_parallel iterator }
{
    match iterator {
        IteratorKind::Parallel => true,
        IteratorKind::Reduction => false,
    }
}

/// Whether each dimension is parallel exactly where a set has it.
fn iterators_fit_set(out: &DimSet, iterators: &[IteratorKind]) -> bool
    ensures { result ≡ iterators_fit_set out.now 0 iterators.now }
{
    for dim in 0..iterators.len() {
        if is_parallel(iterators[dim]) != out.contains(dim) {
            return false;
        }
    }
    true
}

/// The results of the last map; none where there is no map.
#[tactic(auto, using(crate::proofs::NamedMaps::last_map))]
fn last_results(maps: &[AffineMap]) -> &[u32]
    ensures { result.now ≡ last_results maps.now }
{
    match maps {
        [] => &[],
        [.., last] => last.results.as_slice(),
    }
}

/// Whether each dimension is parallel exactly where the out's map has it. Refuses for want of memory alone.
#[tactic(auto, using(crate::proofs::DimSets::fit_by_set))]
fn generic_iterators_fit(
    alloc: Global,
    maps: &[AffineMap],
    iterators: &[IteratorKind],
) -> Result<bool, NoMemory>
    ensures { IfOk result (λ fit. fit ≡ iterators_fit (last_results maps.now) 0 iterators.now) }
{
    let mut out = DimSet::new(alloc);
    add_dims(&mut out, last_results(maps))?;
    Ok(iterators_fit_set(&out, iterators))
}

/// Whether each dimension of a structured operation is parallel exactly where the out's map has it, and else a
/// reduction. Those of an operation with a name always are, and an operation that is not structured passes.
///
/// Takes time in the number of dimensions and its logarithm. Refuses for want of memory alone.
#[tactic(auto, using(crate::proofs::NamedMaps::named_iterators_fit))]
pub fn iterators_fit(
    alloc: Global,
    kind: &Kind,
    types: &[Option<&PayloadType>],
) -> Result<bool, NoMemory>
    ensures { let os = operand_types types.now in
        IfOk result (λ fit. fit ≡ iterators_fit (last_results (maps_of kind.now os)) 0 (iterators_of kind.now os)) }
{
    match kind {
        Kind::Generic { maps, iterators } => {
            generic_iterators_fit(alloc, maps.as_slice(), iterators.as_slice())
        }
        _ => Ok(true),
    }
}
