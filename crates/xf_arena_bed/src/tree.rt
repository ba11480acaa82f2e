//! Trees of operations.
ghost use Rattle.std.specs.Prelude.{◌≡◌, Some, IfOk, OnOk};
ghost use Rattle.xf_ir.specs.RuleBlocks.{block_args};
ghost use Rattle.xf_ir.specs.Tree.{Tree};
ghost use Rattle.xf_ir.specs.View.{regions_of};
ghost use Rattle.xf_ir.specs.Walk.{tree_find};
ghost use Rattle.xf_arena_tree.specs.Puts.{bare};
ghost use Rattle.xf_arena_tree.specs.Rebuilds.{regions_push};
ghost use Rattle.xf_arena_bed.specs.Live.{name_of, IsLive};

use crate::args::ArgsList;
use crate::bed::Bed;
use crate::node::OpId;
use std::alloc::Global;
use xf_ir::{Block, Op, ValueList};
use xf_type::{Duplicate, NoMemory};

/// Blocks with these arguments, and no operations.
fn blank_blocks(alloc: Global, args: &ArgsList) -> Result<Vec<Block>, NoMemory>
    ensures { IfOk result (λ blocks. regions_of blocks.items ≡ bare args.now) }
{
    let mut blocks = Vec::new(alloc);
    for region in 0..args.len() {
        let types = args.get(region);
        blocks.push(Block {
            args: types.duplicate(alloc)?,
            ops: Vec::new(alloc),
        })?;
    }
    Ok(blocks)
}

/// Puts a tree at the end of a region's block.
fn push_tree(regions: &mut Vec<Block>, region: u32, tree: Op) -> Result<(), NoMemory>
    ensures { OnOk result (regions_of regions.new.items ≡ regions_push region tree (regions_of regions.old.items)) }
{
    let region = region as usize;
    if region < regions.len() {
        let block = &mut regions[region];
        block.ops.push(tree)?;
    }
    Ok(())
}

impl Bed {
    /// Blocks with the arguments of an operation's regions, and no operations.
    fn empty_blocks(&self, alloc: Global, id: OpId) -> Result<Vec<Block>, NoMemory>
        requires { IsLive self.now id }
        ensures { IfOk result (λ blocks. (t : Tree) → tree_find (name_of id) self.now.root ≡ Some t
            → regions_of blocks.items ≡ bare (block_args t.regions)) }
    {
        match self.get(id) {
            Some(node) => blank_blocks(alloc, &node.regions),
            None => unreachable!(),
        }
    }

    /// An operation with these regions.
    fn with_regions(&self, alloc: Global, id: OpId, regions: Vec<Block>) -> Result<Op, NoMemory>
        requires { IsLive self.now id }
        ensures { IfOk result (λ made. (t : Tree) → tree_find (name_of id) self.now.root ≡ Some t
            → regions_of regions.items ≡ t.regions → made ≡ t) }
    {
        match self.get(id) {
            Some(node) => Ok(Op {
                name: node.name,
                kind: node.kind.duplicate(alloc)?,
                attrs: node.attrs.duplicate(alloc)?,
                operands: ValueList::from_slice(alloc, node.operands.as_slice())?,
                results: node.results.duplicate(alloc)?,
                regions,
            }),
            None => unreachable!(),
        }
    }

    /// The tree of an operation. Refuses for want of memory alone. Takes time in the size of the tree.
    pub fn tree_of(&self, alloc: Global, id: OpId) -> Result<Op, NoMemory>
        requires { IsLive self.now id }
        ensures { IfOk result (λ tree. tree_find (name_of id) self.now.root ≡ Some tree) }
    {
        let mut regions = self.empty_blocks(alloc, id)?;
        for kid in self.kids(id) {
            let tree = self.tree_of(alloc, kid.id)?;
            push_tree(&mut regions, kid.region, tree)?;
        }
        self.with_regions(alloc, id, regions)
    }
}
