//! Trees taken out, and put at spots.
ghost use Rattle.std.specs.Prelude.{◌≡◌, ℕ, ◌+◌, ◌<◌, ◌≤◌, ◌^◌, ◌==◌, length, true, false, Some, OnOk, OnErr, IfOk};
ghost use Rattle.xf_ir.specs.declared.name.OpName.{OpName};
ghost use Rattle.xf_ir.specs.Bounds.{TreeIsShort};
ghost use Rattle.xf_ir.specs.Count.{tree_count};
ghost use Rattle.xf_ir.specs.Edits.{tree_erased};
ghost use Rattle.xf_ir.specs.Lists.{Each, Once, is_among};
ghost use Rattle.xf_ir.specs.Spots.{IsSpot, tree_put};
ghost use Rattle.xf_ir.specs.Tree.{cons, no_ops};
ghost use Rattle.xf_ir.specs.Walk.{tree_names};
ghost use Rattle.xf_arena_tree.specs.Names.{ops_has};
ghost use Rattle.xf_arena_bed.specs.declared.node.OpId.{OpId};
ghost use Rattle.xf_arena_bed.specs.Value.{seat_at};
ghost use Rattle.xf_arena_bed.specs.Live.{name_of, IsLive};

use crate::bed::Bed;
use crate::node::OpId;
use std::alloc::Global;
use xf_ir::{Op, Spot, count};
use xf_type::NoMemory;

impl Bed {
    /// Takes out an operation with all that it holds; all others stay in their slots. Takes time in the number of
    /// operations that go, and no memory.
    pub fn erase(&mut self, id: OpId)
        requires live { IsLive self.old id }
        requires low { (self.old.root.name.0 == id.serial) ≡ false }
        ensures root { self.new.root ≡ tree_erased (name_of id) self.old.root }
        ensures slots { length self.new.seats ≡ length self.old.seats }
        ensures seats { (s : ℕ) (n : OpName) → seat_at self.old.seats s ≡ Some n
            → ops_has n (cons self.new.root no_ops) ≡ true → seat_at self.new.seats s ≡ Some n }
    {
        let mut last = self.last_kid(id);
        while let Some(kid) = last {
            self.erase(kid);
            last = self.last_kid(id);
        }
        self.erase_leaf(id);
    }

    /// Puts a tree of new names at a spot, and takes slots for it where too few are free; all others stay in their
    /// slots.
    ///
    /// Refuses for want of memory alone, and then all operations are as before.
    pub fn insert(&mut self, alloc: Global, tree: Op, at: Spot) -> Result<OpId, NoMemory>
        requires fresh { Each (λ n. is_among n (tree_names self.old.root) ≡ false) (tree_names tree) }
        requires once { Once (tree_names tree) }
        requires spot { IsSpot at self.old.root }
        requires few { tree_count tree < 2 ^ 32 }
        requires short { TreeIsShort tree }
        ensures root { OnOk result (self.new.root ≡ tree_put at tree self.old.root) }
        ensures live { IfOk result (λ id. IsLive self.new id) }
        ensures name { IfOk result (λ id. name_of id ≡ tree.name) }
        ensures slots { length self.old.seats ≤ length self.new.seats }
        ensures seats { (id : OpId) → IsLive self.old id → IsLive self.new id }
        ensures err { OnErr result (self.new.root ≡ self.old.root) }
    {
        self.reserve(alloc, count(&tree))?;
        Ok(self.restore(alloc, tree, at))
    }

    /// Puts a tree of new names at a spot; all others stay in their slots. Takes time in the number of its operations
    /// and of those before the spot, and no memory: it needs as many free slots.
    pub fn restore(&mut self, alloc: Global, tree: Op, at: Spot) -> OpId
        requires fresh { Each (λ n. is_among n (tree_names self.old.root) ≡ false) (tree_names tree) }
        requires once { Once (tree_names tree) }
        requires spot { IsSpot at self.old.root }
        requires room { tree_count self.old.root + tree_count tree ≤ length self.old.seats }
        requires short { TreeIsShort tree }
        ensures root { self.new.root ≡ tree_put at tree self.old.root }
        ensures live { IsLive self.new result }
        ensures name { name_of result ≡ tree.name }
        ensures slots { length self.new.seats ≡ length self.old.seats }
        ensures seats { (id : OpId) → IsLive self.old id → IsLive self.new id }
    {
        match self.id_of(at.parent) {
            Some(parent) => {
                let sibling = self.sibling(parent, at);
                self.put_tree(alloc, tree, parent, at, sibling)
            }
            None => unreachable!(),
        }
    }
}
