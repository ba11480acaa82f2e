//! Trees put among the operations, with no memory but that of the slots.
ghost use Rattle.std.specs.Prelude.{◌≡◌, ℕ, ◌+◌, ◌<◌, ◌≤◌, ◌^◌, length, Some, None, true, false};
ghost use Rattle.xf_ir.specs.declared.name.OpName.{OpName};
ghost use Rattle.xf_ir.specs.Bounds.{TreeIsShort, OpsShort};
ghost use Rattle.xf_ir.specs.Count.{tree_count, ops_count};
ghost use Rattle.xf_ir.specs.Spots.{ops_length, regions_get};
ghost use Rattle.xf_ir.specs.Tree.{cons, no_ops};
ghost use Rattle.xf_ir.specs.View.{ops_of, regions_of};
ghost use Rattle.xf_arena_tree.specs.Names.{ops_has, OpsDistinct};
ghost use Rattle.xf_arena_tree.specs.Without.{OpsWhere};
ghost use Rattle.xf_arena_tree.specs.Puts.{tree_put, StandsAt};
ghost use Rattle.xf_arena_tree.specs.Fills.{hollow, puts_in, AreShort};
ghost use Rattle.xf_arena_bed.specs.declared.node.OpId.{OpId};
ghost use Rattle.xf_arena_bed.specs.Blocks.{args_in};
ghost use Rattle.xf_arena_bed.specs.Live.{name_of, names_of, IsLive, AreLive, partly};

use crate::args::ArgsList;
use crate::bed::Bed;
use crate::node::{Node, OpId};
use std::alloc::Global;
use xf_ir::{Block, Op, OpName, Spot};

/// The operations of a region's block, which is empty afterwards.
fn take_ops(alloc: Global, regions: &mut Vec<Block>, region: u32) -> Vec<Op>
    requires { region < length regions.old.items }
    ensures taken { regions_get region (regions_of regions.old.items) ≡ Some (ops_of result.items) }
    ensures left { hollow (region + 1) (regions_of regions.new.items)
        ≡ hollow (region + 1) (regions_of regions.old.items) }
    ensures count { length regions.new.items ≡ length regions.old.items }
{
    let block = &mut regions[region as usize];
    std::mem::replace(&mut block.ops, Vec::new(alloc))
}

/// The node with the arguments of these blocks.
fn with_blocks(mut node: Node, blocks: Vec<Block>) -> Node
    ensures { result ≡ record node { regions = args_in blocks.items } }
{
    node.regions = ArgsList::of_blocks(blocks);
    node
}

impl Bed {
    /// Puts a tree behind the sibling, or before all others that the parent holds. Takes time in the number of its
    /// operations, and no memory.
    #[cycle(restore)]
    pub fn put_tree(
        &mut self,
        alloc: Global,
        tree: Op,
        parent: OpId,
        at: Spot,
        sibling: Option<OpId>,
    ) -> OpId
        requires live { IsLive self.old parent }
        requires sibling { AreLive self.old sibling }
        requires place { OpsWhere (name_of parent) (StandsAt at.region at.at (names_of sibling))
            (cons self.old.root no_ops) }
        requires fresh { (x : OpName) → ops_has x (cons tree no_ops) ≡ true
            → ops_has x (cons self.old.root no_ops) ≡ false }
        requires distinct { OpsDistinct (cons tree no_ops) }
        requires room { tree_count self.old.root + tree_count tree ≤ length self.old.seats }
        requires short { TreeIsShort tree }
        ensures root { self.new.root ≡ tree_put (name_of parent) at.region at.at tree self.old.root }
        ensures count { tree_count self.new.root ≤ tree_count self.old.root + tree_count tree }
        ensures names { OpsDistinct (cons self.new.root no_ops) }
        ensures live { IsLive self.new result }
        ensures name { name_of result ≡ tree.name }
        ensures slots { length self.new.seats ≡ length self.old.seats }
        ensures seats { (id : OpId) → IsLive self.old id → IsLive self.new id }
    {
        let Op {
            name,
            kind,
            attrs,
            operands,
            results,
            regions,
        } = tree;
        let node = Node {
            name,
            kind,
            attrs,
            operands,
            results,
            regions: ArgsList::of_blocks(Vec::new(alloc)),
            parent: Some((parent, at.region)),
        };
        self.put_from(alloc, node, regions, 0, parent, at, sibling)
    }

    /// Puts a tree whose first regions are still empty; what its later regions hold stands in the blocks.
    #[cycle(restore)]
    fn put_from(
        &mut self,
        alloc: Global,
        node: Node,
        mut regions: Vec<Block>,
        region: u32,
        parent: OpId,
        at: Spot,
        sibling: Option<OpId>,
    ) -> OpId
        requires within { region ≤ length regions.items }
        requires few { length regions.items < 2 ^ 32 }
        requires home { node.parent ≡ Some (parent, at.region) }
        requires live { IsLive self.old parent }
        requires sibling { AreLive self.old sibling }
        requires place { OpsWhere (name_of parent) (StandsAt at.region at.at (names_of sibling))
            (cons self.old.root no_ops) }
        requires fresh { (x : OpName) → ops_has x (cons (partly node region (regions_of regions.items)) no_ops) ≡ true
            → ops_has x (cons self.old.root no_ops) ≡ false }
        requires distinct { OpsDistinct (cons (partly node region (regions_of regions.items)) no_ops) }
        requires room { tree_count self.old.root + tree_count (partly node region (regions_of regions.items))
            ≤ length self.old.seats }
        requires short { AreShort (hollow region (regions_of regions.items)) }
        ensures root { self.new.root
            ≡ tree_put (name_of parent) at.region at.at (partly node region (regions_of regions.items)) self.old.root }
        ensures count { tree_count self.new.root
            ≤ tree_count self.old.root + tree_count (partly node region (regions_of regions.items)) }
        ensures names { OpsDistinct (cons self.new.root no_ops) }
        ensures live { IsLive self.new result }
        ensures name { name_of result ≡ node.name }
        ensures slots { length self.new.seats ≡ length self.old.seats }
        ensures seats { (id : OpId) → IsLive self.old id → IsLive self.new id }
    {
        if region as usize == regions.len() {
            return self.put_leaf(with_blocks(node, regions), parent, at, sibling);
        }
        let ops = take_ops(alloc, &mut regions, region);
        let id = self.put_from(alloc, node, regions, region + 1, parent, at, sibling);
        self.put_ops(alloc, ops, id, region);
        id
    }

    /// Puts operations into a region, one after another; it and those before it are empty.
    #[cycle(restore)]
    fn put_ops(&mut self, alloc: Global, ops: Vec<Op>, parent: OpId, region: u32)
        requires live { IsLive self.old parent }
        requires place { OpsWhere (name_of parent) (StandsAt region 0 None) (cons self.old.root no_ops) }
        requires other { ops_has (name_of parent) (ops_of ops.items) ≡ false }
        requires fresh { (x : OpName) → ops_has x (ops_of ops.items) ≡ true
            → ops_has x (cons self.old.root no_ops) ≡ false }
        requires distinct { OpsDistinct (ops_of ops.items) }
        requires names { OpsDistinct (cons self.old.root no_ops) }
        requires room { tree_count self.old.root + ops_count (ops_of ops.items) ≤ length self.old.seats }
        requires short { OpsShort (ops_of ops.items) }
        requires few { ops_length (ops_of ops.items) < 2 ^ 32 }
        ensures root { self.new.root ≡ puts_in (name_of parent) region 0 (ops_of ops.items) self.old.root }
        ensures count { tree_count self.new.root ≤ tree_count self.old.root + ops_count (ops_of ops.items) }
        ensures names { OpsDistinct (cons self.new.root no_ops) }
        ensures slots { length self.new.seats ≡ length self.old.seats }
        ensures seats { (id : OpId) → IsLive self.old id → IsLive self.new id }
    {
        let mut sibling = None;
        let mut at = 0;
        for op in ops {
            let spot = Spot {
                parent: OpName(parent.serial),
                region,
                at,
            };
            sibling = Some(self.put_tree(alloc, op, parent, spot, sibling));
            at += 1;
        }
    }
}
