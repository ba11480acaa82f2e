//! Operations moved to other places.
ghost use Rattle.std.specs.Prelude.{◌≡◌, ◌==◌, slice_set, Some, IfSome, IsSome, true, false};
ghost use Rattle.xf_ir.specs.Edits.{tree_erased, tree_moved};
ghost use Rattle.xf_ir.specs.Spots.{IsSpot};
ghost use Rattle.xf_ir.specs.Tree.{Tree, cons, no_ops};
ghost use Rattle.xf_ir.specs.Walk.{tree_find};
ghost use Rattle.xf_arena_tree.specs.Names.{ops_has, OpsDistinct};
ghost use Rattle.xf_arena_tree.specs.Without.{tree_without, regions_without, OpsWhere};
ghost use Rattle.xf_arena_tree.specs.Puts.{tree_put, InRange, StandsAt};
ghost use Rattle.xf_arena_bed.specs.Live.{name_of, names_of, IsLive, AreLive};
ghost use Rattle.xf_arena_bed.specs.Sits.{node_at};

use crate::bed::Bed;
use crate::kid::number_before;
use crate::node::{Node, OpId};
use xf_ir::Spot;

/// Gives the operation in a slot another parent.
fn set_parent(nodes: &mut Vec<Option<Node>>, slot: u32, parent: OpId, region: u32)
    requires { IsSome (node_at nodes.old.items slot) }
    ensures { IfSome (node_at nodes.old.items slot) (λ n. nodes.new.items
        ≡ slice_set nodes.old.items slot (Some (record n { parent = Some (parent, region) }))) }
{
    match &mut nodes[slot as usize] {
        Some(node) => node.parent = Some((parent, region)),
        None => unreachable!(),
    }
}

impl Bed {
    /// Puts an operation at a spot of what is left without it; all operations stay in their slots. Takes time in the
    /// number of operations before the spot, and no memory.
    pub fn move_op(&mut self, id: OpId, to: Spot)
        requires live { IsLive self.old id }
        requires low { (self.old.root.name.0 == id.serial) ≡ false }
        requires spot { IsSpot to (tree_erased (name_of id) self.old.root) }
        ensures root { self.new.root ≡ tree_moved (name_of id) to self.old.root }
        ensures seats { self.new.seats ≡ self.old.seats }
    {
        let parent = self.parent_at(to, id);
        let sibling = self.sibling_beside(parent, to, id);
        self.relink(id, parent, to, sibling);
    }

    /// The parent of a spot of what is left without an operation.
    fn parent_at(&self, at: Spot, other: OpId) -> OpId
        requires live { IsLive self.now other }
        requires low { (self.now.root.name.0 == other.serial) ≡ false }
        requires spot { IsSpot at (tree_erased (name_of other) self.now.root) }
        ensures live { IsLive self.now result }
        ensures name { name_of result ≡ at.parent }
        ensures inside { ops_has (name_of result) (cons (tree_without (name_of other) self.now.root) no_ops) ≡ true }
        ensures range { OpsWhere (name_of result)
            (λ rs. InRange at.region at.at (regions_without (name_of other) rs)) (cons self.now.root no_ops) }
        ensures names { OpsDistinct (cons self.now.root no_ops) }
        ensures found { (t : Tree) × (tree_find (name_of other) self.now.root ≡ Some t) }
    {
        match self.index.find(at.parent.0) {
            Some(slot) => OpId {
                slot,
                serial: at.parent.0,
            },
            None => unreachable!(),
        }
    }

    /// The operation behind which one at that spot stands once another one is taken out; `None` where none does.
    ///
    /// Takes time in the number of operations before the spot.
    fn sibling_beside(&self, parent: OpId, at: Spot, other: OpId) -> Option<OpId>
        requires live { IsLive self.now parent }
        requires range { OpsWhere (name_of parent)
            (λ rs. InRange at.region at.at (regions_without (name_of other) rs)) (cons self.now.root no_ops) }
        ensures live { AreLive self.now result }
        ensures place { OpsWhere (name_of parent)
            (λ rs. StandsAt at.region at.at (names_of result) (regions_without (name_of other) rs))
            (cons self.now.root no_ops) }
    {
        let mut before = None;
        let mut left = at.at;
        for kid in self.kids(parent) {
            if kid.id.serial == other.serial {
                continue;
            }
            if kid.region > at.region {
                break;
            }
            if kid.region == at.region {
                if left == 0 {
                    break;
                }
                left -= 1;
            }
            before = Some(kid.id);
        }
        before
    }

    /// Takes an operation out of its row, and puts it behind the sibling or before all others that the parent holds.
    fn relink(&mut self, id: OpId, parent: OpId, at: Spot, sibling: Option<OpId>)
        requires live { IsLive self.old id }
        requires low { (self.old.root.name.0 == id.serial) ≡ false }
        requires parent { IsLive self.old parent }
        requires inside { ops_has (name_of parent) (cons (tree_without (name_of id) self.old.root) no_ops) ≡ true }
        requires sibling { AreLive self.old sibling }
        requires place { OpsWhere (name_of parent) (StandsAt at.region at.at (names_of sibling))
            (cons (tree_without (name_of id) self.old.root) no_ops) }
        ensures root { (t : Tree) → tree_find (name_of id) self.old.root ≡ Some t → self.new.root
            ≡ tree_put (name_of parent) at.region at.at t (tree_without (name_of id) self.old.root) }
        ensures seats { self.new.seats ≡ self.old.seats }
    {
        let _before = self.links.unlink(2 * id.slot + 1);
        set_parent(&mut self.nodes, id.slot, parent, at.region);
        self.links
            .link(number_before(parent, sibling), 2 * id.slot + 1);
    }
}
