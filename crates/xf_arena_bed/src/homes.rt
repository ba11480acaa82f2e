//! Where operations stand.
ghost use Rattle.std.specs.Prelude.{◌≡◌, ◌==◌, true, false, Some, IfSome, IfNone};
ghost use Rattle.xf_ir.specs.Spots.{tree_locate, spot_at};
ghost use Rattle.xf_ir.specs.Tree.{Tree};
ghost use Rattle.xf_ir.specs.Walk.{tree_find};
ghost use Rattle.xf_arena_tree.specs.Kids.{inner_of};
ghost use Rattle.xf_arena_bed.specs.Live.{name_of, names_of, IsLive, AreLive};
ghost use Rattle.xf_arena_bed.specs.Homes.{tree_holder, holder_named, tree_index, count_before, tree_behind};

use crate::bed::Bed;
use crate::node::OpId;
use xf_ir::{OpName, Spot};

impl Bed {
    /// The operation that holds one, with the number of the region, or `None` exactly for the root.
    ///
    /// Takes constant time.
    pub fn parent(&self, id: OpId) -> Option<(OpId, u32)>
        requires { IsLive self.now id }
        ensures live { IfSome result (λ h. IsLive self.now h.0) }
        ensures holder { holder_named result ≡ tree_holder (name_of id) self.now.root }
        ensures inner { IfSome result (λ h. (self.now.root.name.0 == id.serial) ≡ false) }
        ensures root { IfNone result ((self.now.root.name.0 == id.serial) ≡ true) }
    {
        match &self.nodes[id.slot as usize] {
            Some(node) => node.parent,
            None => unreachable!(),
        }
    }

    /// How many operations of a region stand before one that the parent holds there.
    ///
    /// Takes time in the number of operations that the parent holds before it.
    fn index_in(&self, parent: OpId, region: u32, id: OpId) -> u32
        requires { IsLive self.now parent }
        ensures { (t : Tree) → tree_find (name_of parent) self.now.root ≡ Some t
            → result ≡ count_before (name_of id) region (inner_of 0 t.regions) }
    {
        let _ = &self.nodes; // for the proof, which needs that slots are few
        let mut before = 0;
        for kid in self.kids(parent) {
            if kid.id.serial == id.serial {
                break;
            }
            if kid.region == region {
                before += 1;
            }
        }
        before
    }

    /// How many operations stand before one in its block; none do before the root.
    ///
    /// Takes time in the number of operations that its parent holds before it.
    pub fn index_of(&self, id: OpId) -> u32
        requires { IsLive self.now id }
        ensures { result ≡ tree_index (name_of id) self.now.root }
    {
        let _ = &self.nodes; // for the proof, which needs that names are distinct
        match self.parent(id) {
            Some((parent, region)) => self.index_in(parent, region, id),
            None => 0,
        }
    }

    /// The spot where an operation stands, or `None` exactly for the root.
    ///
    /// Takes time in the number of operations that its parent holds before it.
    pub fn spot_of(&self, id: OpId) -> Option<Spot>
        requires { IsLive self.now id }
        ensures spot { result ≡ spot_at (tree_locate (name_of id) self.now.root) }
        ensures inner { IfSome result (λ s. (self.now.root.name.0 == id.serial) ≡ false) }
        ensures root { IfNone result ((self.now.root.name.0 == id.serial) ≡ true) }
    {
        let (parent, region) = self.parent(id)?;
        Some(Spot {
            parent: OpName(parent.serial),
            region,
            at: self.index_of(id),
        })
    }

    /// The operation behind one in its block, or `None` exactly where it is the last one, or the root.
    ///
    /// Takes constant time.
    pub fn behind(&self, id: OpId) -> Option<OpId>
        requires { IsLive self.now id }
        ensures live { AreLive self.now result }
        ensures next { names_of result ≡ tree_behind (name_of id) self.now.root }
    {
        let _ = &self.nodes; // for the proof, which needs that names are distinct
        match self.parent(id) {
            Some((_, region)) => self.after(id, region),
            None => None,
        }
    }
}
