//! Places of operations.
ghost use Rattle.std.specs.Prelude.{◌≡◌, List, ◌∷◌, ◌++◌, Some};
ghost use Rattle.xf_ir.specs.Tree.{Tree, cons, no_ops};
ghost use Rattle.xf_ir.specs.Walk.{tree_find};
ghost use Rattle.xf_arena_tree.specs.Kids.{Inner, inner_of, first_item, names_in};
ghost use Rattle.xf_arena_tree.specs.Without.{OpsWhere};
ghost use Rattle.xf_arena_tree.specs.Puts.{InRange, StandsAt};
ghost use Rattle.xf_arena_bed.specs.Live.{name_of, names_of, IsLive, AreLive};

use crate::bed::Bed;
use crate::node::OpId;
use xf_ir::Spot;

impl Bed {
    /// The operation behind which one at that spot stands, of this region or an earlier one; `None` where none does.
    ///
    /// Takes time in the number of operations before the spot.
    pub fn sibling(&self, parent: OpId, at: Spot) -> Option<OpId>
        requires live { IsLive self.now parent }
        requires range { OpsWhere (name_of parent) (InRange at.region at.at) (cons self.now.root no_ops) }
        ensures live { AreLive self.now result }
        ensures place { OpsWhere (name_of parent) (StandsAt at.region at.at (names_of result))
            (cons self.now.root no_ops) }
    {
        let mut before = None;
        let mut left = at.at;
        for kid in self.kids(parent) {
            if kid.region > at.region {
                break;
            }
            if kid.region == at.region {
                if left == 0 {
                    break;
                }
                left -= 1;
            }
            before = Some(kid.id);
        }
        before
    }

    /// The first operation of a region's block, or `None` exactly where the block is empty.
    ///
    /// Takes constant time for the first region, and else time in the operations of the regions before.
    pub fn first(&self, id: OpId, region: u32) -> Option<OpId>
        requires { IsLive self.now id }
        ensures live { AreLive self.now result }
        ensures first { (t : Tree) → tree_find (name_of id) self.now.root ≡ Some t
            → names_of result ≡ first_item (names_in region (inner_of 0 t.regions)) }
    {
        for kid in self.kids(id) {
            if kid.region == region {
                return Some(kid.id);
            }
        }
        None
    }

    /// The operation behind one in its block, or `None` exactly where it is the last one. Takes constant time.
    pub fn after(&self, id: OpId, region: u32) -> Option<OpId>
        requires { IsLive self.now id }
        ensures live { AreLive self.now result }
        ensures next { (t : Tree) (us vs : List Inner) → tree_find t.name self.now.root ≡ Some t
            → inner_of 0 t.regions ≡ us ++ record { name = name_of id; region = region } ∷ vs
            → names_of result ≡ first_item (names_in region vs) }
    {
        match self.next_kid(id) {
            Some(kid) => if kid.region == region {
                Some(kid.id)
            } else {
                None
            },
            None => None,
        }
    }
}
