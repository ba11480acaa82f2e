//! Operations in slots, with links among those that an operation holds.
ghost use Rattle.std.specs.Prelude.{◌≡◌, ℕ, ◌+◌, ◌<◌, ◌==◌, length, slice_set, Some, None, true, false, IfSome, IfNone};
ghost use Rattle.std.specs.Prelude.{List, ◌∷◌, ◌++◌, option_map};
ghost use Rattle.xf_ir.specs.declared.name.OpName.{OpName};
ghost use Rattle.xf_ir.specs.Count.{tree_count};
ghost use Rattle.xf_ir.specs.Edits.{tree_erased};
ghost use Rattle.xf_ir.specs.Tree.{Tree, cons, no_ops};
ghost use Rattle.xf_ir.specs.Walk.{tree_find};
ghost use Rattle.xf_arena_tree.specs.Names.{ops_has, OpsDistinct};
ghost use Rattle.xf_arena_tree.specs.Without.{tree_without, OpsLeaf, OpsWhere};
ghost use Rattle.xf_arena_tree.specs.Puts.{tree_put, StandsAt};
ghost use Rattle.xf_arena_tree.specs.Kids.{Inner, inner_of, first_item};
ghost use Rattle.xf_arena_bed.specs.declared.node.OpId.{OpId};
ghost use Rattle.xf_arena_bed.specs.Kids.{inner_kid};
ghost use Rattle.xf_arena_tree.specs.Inner.{IsInner};
ghost use Rattle.xf_arena_bed.specs.Value.{seat_at};
ghost use Rattle.xf_arena_bed.specs.Live.{name_of, names_of, IsLive, AreLive, leaf_of};
ghost use Rattle.xf_arena_bed.specs.Finds.{shown_node, shown_tree};

use crate::kid::{Kid, kid_seen, number_before};
use crate::node::{Node, OpId, set_node};
use std::marker::Model;
use xf_index::NameIndex;
use xf_ir::Spot;
use xf_rings::Rings;

/// A tree of operations, each in a slot. Seen as the tree, with the name of the operation in each slot.
///
/// The operations of all blocks that one operation holds stand in one ring of links, in order.
#[derive(Drop)]
pub struct Bed {
    pub(crate) nodes: Vec<Option<Node>>,
    pub(crate) links: Rings,
    pub(crate) free: Vec<u32>,
    pub(crate) index: NameIndex,
    pub(crate) root: u32,
    pub(crate) live: u64,
}

impl Model for Bed {
    ghost use Rattle.xf_arena_bed.specs.Value.{Layout, layout_code};

    ghost Value = { Layout };

    ghost coded = { layout_code };

    ghost use Rattle.xf_arena_bed.specs.View.{layout_of, IsBed};

    ghost view = { layout_of };

    ghost invariant = { IsBed };
}

impl Bed {
    /// How many operations there are.
    pub fn live(&self) -> u64
        ensures { result ≡ tree_count self.now.root }
    {
        self.live
    }

    /// The operation, or `None` exactly where the slot does not hold the operation of that name.
    pub fn get(&self, id: OpId) -> Option<&Node>
        ensures live { IfSome result (λ n. IsLive self.now id) }
        ensures shown { IfSome result
            (λ n. Some (shown_node n.now) ≡ option_map shown_tree (tree_find (name_of id) self.now.root)) }
        ensures none { IfNone result (IsLive self.now id → ⊥) }
    {
        let slot = id.slot as usize;
        if slot >= self.nodes.len() {
            return None;
        }
        match &self.nodes[slot] {
            Some(node) => if node.name.0 == id.serial {
                Some(node)
            } else {
                None
            },
            None => None,
        }
    }

    /// Takes out an operation that holds no others.
    pub fn erase_leaf(&mut self, id: OpId)
        requires live { IsLive self.old id }
        requires low { (self.old.root.name.0 == id.serial) ≡ false }
        requires leaf { OpsLeaf (name_of id) (cons self.old.root no_ops) }
        ensures root { self.new.root ≡ tree_without (name_of id) self.old.root }
        ensures seats { self.new.seats ≡ slice_set self.old.seats id.slot None }
    {
        let _before = self.links.unlink(2 * id.slot + 1);
        self.index.remove(id.slot);
        set_node(&mut self.nodes, id.slot, None);
        self.live -= 1;
        self.free.push_reserved(id.slot);
    }

    /// Puts an operation that holds no others, behind the sibling or before all others that the parent holds.
    pub fn put_leaf(&mut self, node: Node, parent: OpId, at: Spot, sibling: Option<OpId>) -> OpId
        requires live { IsLive self.old parent }
        requires home { node.parent ≡ Some (parent, at.region) }
        requires sibling { AreLive self.old sibling }
        requires place { OpsWhere (name_of parent) (StandsAt at.region at.at (names_of sibling))
            (cons self.old.root no_ops) }
        requires is_new { ops_has node.name (cons self.old.root no_ops) ≡ false }
        requires room { tree_count self.old.root < length self.old.seats }
        ensures root { self.new.root ≡ tree_put (name_of parent) at.region at.at (leaf_of node) self.old.root }
        ensures count { tree_count self.new.root ≡ tree_count self.old.root + 1 }
        ensures names { OpsDistinct (cons self.new.root no_ops) }
        ensures live { IsLive self.new result }
        ensures name { name_of result ≡ node.name }
        ensures slots { length self.new.seats ≡ length self.old.seats }
        ensures seats { (id : OpId) → IsLive self.old id → IsLive self.new id }
    {
        let Some(slot) = self.free.pop() else {
            unreachable!()
        };
        let serial = node.name.0;
        self.index.put(slot, serial);
        set_node(&mut self.nodes, slot, Some(node));
        self.links
            .link(number_before(parent, sibling), 2 * slot + 1);
        self.live += 1;
        OpId { slot, serial }
    }

    /// The first operation that one holds, with its region.
    pub fn first_kid(&self, id: OpId) -> Option<Kid>
        requires live { IsLive self.now id }
        ensures live { IfSome result (λ k. IsLive self.now k.id) }
        ensures first { (t : Tree) → tree_find (name_of id) self.now.root ≡ Some t
            → inner_kid result ≡ first_item (inner_of 0 t.regions) }
    {
        kid_seen(self.nodes.as_slice(), self.links.next(2 * id.slot))
    }

    /// The operation behind one among those that their parent holds, with its region.
    pub fn next_kid(&self, id: OpId) -> Option<Kid>
        requires live { IsLive self.now id }
        ensures live { IfSome result (λ k. IsLive self.now k.id) }
        ensures next { (t : Tree) (us vs : List Inner) (r : ℕ) → tree_find t.name self.now.root ≡ Some t
            → inner_of 0 t.regions ≡ us ++ record { name = name_of id; region = r } ∷ vs
            → inner_kid result ≡ first_item vs }
    {
        kid_seen(self.nodes.as_slice(), self.links.next(2 * id.slot + 1))
    }

    /// The last operation that one holds.
    pub fn last_kid(&self, id: OpId) -> Option<OpId>
        requires live { IsLive self.now id }
        requires low { (self.now.root.name.0 == id.serial) ≡ false }
        ensures exact { (o : OpName) → tree_without o self.now.root ≡ tree_erased o self.now.root }
        ensures none { IfNone result (OpsLeaf (name_of id) (cons self.now.root no_ops)) }
        ensures live { IfSome result (λ k. IsLive self.now k) }
        ensures inner { IfSome result (λ k. IsInner (name_of k) (name_of id) self.now.root) }
    {
        let last = self.links.prev(2 * id.slot);
        if last == 2 * id.slot {
            return None;
        }
        let slot = last / 2;
        match &self.nodes[slot as usize] {
            Some(node) => Some(OpId {
                slot,
                serial: node.name.0,
            }),
            None => unreachable!(),
        }
    }
}
