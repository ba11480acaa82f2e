//! The operations of a module, each in a slot.

ghost use Rattle.std.specs.Prelude.{◌≡◌, ◌<◌, length, slice_set};

use crate::args::ArgsList;
use xf_ir::{AttrList, Kind, OpName, ValueList};
use xf_type::TypeList;

/// An operation of an arena: its slot, and its name, which no other operation ever gets.
#[derive(Clone, Copy, Debug, PartialEq, Eq)]
pub struct OpId {
    pub slot: u32,
    pub serial: u64,
}

/// What an operation has, without what it holds: the types of the arguments of each region's block, and the
/// operation around it with the number of the region, which the root has not.
#[derive(Drop)]
pub struct Node {
    pub name: OpName,
    pub kind: Kind,
    pub attrs: AttrList,
    pub operands: ValueList,
    pub results: TypeList,
    pub regions: ArgsList,
    pub parent: Option<(OpId, u32)>,
}

/// Puts what a slot holds.
pub(crate) fn set_node(nodes: &mut Vec<Option<Node>>, slot: u32, node: Option<Node>)
    requires { slot < length nodes.old.items }
    ensures { nodes.new.items ≡ slice_set nodes.old.items slot node }
{
    nodes[slot as usize] = node;
}
