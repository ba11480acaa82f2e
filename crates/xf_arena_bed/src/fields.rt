//! What operations have, changed in their slots.
ghost use Rattle.std.specs.Prelude.{◌≡◌, slice_set, Some, IfSome, IsSome};
ghost use Rattle.xf_ir.specs.Changes.{tree_attributed};
ghost use Rattle.xf_ir.specs.Tree.{Tree};
ghost use Rattle.xf_ir.specs.Walk.{tree_find};
ghost use Rattle.xf_arena_bed.specs.Live.{name_of, IsLive};
ghost use Rattle.xf_arena_bed.specs.Sits.{node_at};

use crate::bed::Bed;
use crate::node::{Node, OpId};
use xf_ir::AttrList;

/// Gives the operation in a slot other attributes, and answers the old ones.
fn exchange(nodes: &mut Vec<Option<Node>>, slot: u32, attrs: AttrList) -> AttrList
    requires { IsSome (node_at nodes.old.items slot) }
    ensures old { IfSome (node_at nodes.old.items slot) (λ n. result ≡ n.attrs) }
    ensures new { IfSome (node_at nodes.old.items slot)
        (λ n. nodes.new.items ≡ slice_set nodes.old.items slot (Some (record n { attrs = attrs }))) }
{
    match &mut nodes[slot as usize] {
        Some(node) => std::mem::replace(&mut node.attrs, attrs),
        None => unreachable!(),
    }
}

impl Bed {
    /// Gives an operation other attributes, and answers the old ones. Takes constant time, and no memory.
    pub fn exchange_attrs(&mut self, id: OpId, attrs: AttrList) -> AttrList
        requires { IsLive self.old id }
        ensures root { self.new.root ≡ tree_attributed (name_of id) (λ ds. attrs) self.old.root }
        ensures seats { self.new.seats ≡ self.old.seats }
        ensures old { (t : Tree) → tree_find (name_of id) self.old.root ≡ Some t → result ≡ t.attrs }
    {
        exchange(&mut self.nodes, id.slot, attrs)
    }
}
