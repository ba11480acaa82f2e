//! Where operations stand, and trees put there.
ghost use Rattle.std.specs.Prelude.{◌≡◌, ◌<◌, ◌^◌, IfOk, OnOk};
ghost use Rattle.xf_ir.specs.Bounds.{TreeIsShort};
ghost use Rattle.xf_ir.specs.Spots.{ops_insert, regions_insert, tree_put, body_put, tree_locate, spot_at};
ghost use Rattle.xf_ir.specs.View.{ops_of, regions_of};

use crate::name::OpName;
use crate::op::{Block, Op};
use crate::values::ValueList;
use crate::walk::find_below;
use std::alloc::Global;
use xf_type::{Duplicate, NoMemory};

/// A place for an operation: in a region of the parent, before the operation of that number.
#[derive(Clone, Copy, Debug, PartialEq, Eq)]
pub struct Spot {
    pub parent: OpName,
    pub region: u32,
    pub at: u32,
}

/// An operation, with the spot where it stands.
#[derive(Drop)]
pub struct Located {
    pub spot: Spot,
    pub tree: Op,
}

/// The number of a place in a short list.
fn place_number(number: usize) -> u32
    requires { number < 2 ^ 32 }
    ensures { result ≡ number }
{
    number as u32
}

/// The spot of the first operation of the name that an operation holds, or `None` where there is none.
pub(crate) fn spot_of(op: &Op, name: OpName) -> Option<Spot>
    requires { TreeIsShort op.now }
    ensures { result ≡ spot_at (tree_locate name op.now) }
{
    for (region, block) in op.regions.iter().enumerate() {
        for (at, inner) in block.ops.iter().enumerate() {
            if inner.name == name {
                return Some(Spot {
                    parent: op.name,
                    region: place_number(region),
                    at: place_number(at),
                });
            }
            if let Some(spot) = spot_of(inner, name) {
                return Some(spot);
            }
        }
    }
    None
}

/// A copy of the first operation of the name that an operation holds, with its spot, or `None` where there is none.
///
/// Refuses for want of memory alone.
pub(crate) fn locate(alloc: Global, op: &Op, name: OpName) -> Result<Option<Located>, NoMemory>
    requires { TreeIsShort op.now }
    ensures { IfOk result (λ found. found ≡ tree_locate name op.now) }
{
    match (spot_of(op, name), find_below(op, name)) {
        (Some(spot), Some(found)) => Ok(Some(Located {
            spot,
            tree: found.copy(alloc)?,
        })),
        _ => Ok(None),
    }
}

/// Puts the tree before the operation of that number, or nowhere where there are fewer.
fn insert_in_block(ops: &mut Vec<Op>, at: u32, tree: Op) -> Result<(), NoMemory>
    ensures { OnOk result (ops_of ops.new.items ≡ ops_insert at tree (ops_of ops.old.items)) }
{
    let at = at as usize;
    if at <= ops.len() {
        ops.insert(at, tree)?;
    }
    Ok(())
}

/// Puts the tree into that region, or nowhere where there are fewer.
fn insert_in_regions(
    regions: &mut Vec<Block>,
    region: u32,
    at: u32,
    tree: Op,
) -> Result<(), NoMemory>
    ensures { OnOk result
        (regions_of regions.new.items ≡ regions_insert region at tree (regions_of regions.old.items)) }
{
    let region = region as usize;
    if region < regions.len() {
        let block = &mut regions[region];
        insert_in_block(&mut block.ops, at, tree)?;
    }
    Ok(())
}

/// A copy of the operation with a tree in its own region.
fn with_tree_here(alloc: Global, op: &Op, region: u32, at: u32, tree: &Op) -> Result<Op, NoMemory>
    ensures { IfOk result (λ o. o ≡ record op.now { regions = regions_insert region at tree.now op.now.regions }) }
{
    let mut copy = op.copy(alloc)?;
    insert_in_regions(&mut copy.regions, region, at, tree.copy(alloc)?)?;
    Ok(copy)
}

/// A copy of the operation with other regions.
pub(crate) fn with_regions(alloc: Global, op: &Op, regions: Vec<Block>) -> Result<Op, NoMemory>
    ensures { IfOk result (λ o. o ≡ record op.now { regions = regions_of regions.items }) }
{
    Ok(Op {
        name: op.name,
        kind: op.kind.duplicate(alloc)?,
        attrs: op.attrs.duplicate(alloc)?,
        operands: ValueList::from_slice(alloc, op.operands.as_slice())?,
        results: op.results.duplicate(alloc)?,
        regions,
    })
}

/// A copy of the operation with a tree at a spot of what it holds. Refuses for want of memory alone.
#[cycle(put)]
pub(crate) fn with_tree(alloc: Global, op: &Op, at: Spot, tree: &Op) -> Result<Op, NoMemory>
    ensures { IfOk result (λ o. o ≡ tree_put at tree.now op.now) }
{
    if op.name == at.parent {
        return with_tree_here(alloc, op, at.region, at.at, tree);
    }
    let mut regions = Vec::new(alloc);
    for block in &op.regions {
        regions.push(block_with_tree(alloc, block, at, tree)?)?;
    }
    with_regions(alloc, op, regions)
}

/// A copy of the block with a tree at a spot of what it holds.
#[cycle(put)]
fn block_with_tree(alloc: Global, block: &Block, at: Spot, tree: &Op) -> Result<Block, NoMemory>
    ensures { IfOk result (λ b. b ≡ body_put at tree.now block.now) }
{
    let mut ops = Vec::new(alloc);
    for op in &block.ops {
        ops.push(with_tree(alloc, op, at, tree)?)?;
    }
    Ok(Block {
        args: block.args.duplicate(alloc)?,
        ops,
    })
}
