//! The walk over the operations that one holds.
ghost use Rattle.std.specs.Prelude.{◌≡◌, ◌++◌, [], Some, option_to_list, IfNone};
ghost use Rattle.std.specs.Iterator.{YieldsFirst, item_count};
ghost use Rattle.xf_ir.specs.Lists.{Each};
ghost use Rattle.xf_ir.specs.Tree.{Tree, cons, no_ops};
ghost use Rattle.xf_ir.specs.Walk.{tree_find};
ghost use Rattle.xf_arena_tree.specs.Names.{OpsDistinct};
ghost use Rattle.xf_arena_tree.specs.Kids.{inner_of};
ghost use Rattle.xf_arena_bed.specs.Live.{name_of, IsLive};
ghost use Rattle.xf_arena_bed.specs.Kids.{kids_left, AreKids, inner_kids};

use crate::bed::Bed;
use crate::kid::{Kid, kid_seen};
use crate::node::{Node, OpId};
use std::marker::Model;
use xf_rings::Members;

/// The operations that one holds, in order, one after another; each takes constant time. Seen as the list of those that
/// are left.
#[derive(Drop)]
pub struct Kids<'a> {
    nodes: &'a [Option<Node>],
    members: Members<'a>,
}

impl<'a> Model for Kids<'a> {
    ghost use Rattle.std.specs.Prelude.{List};
    ghost use Rattle.xf_arena_bed.specs.declared.kid.Kid.{Kid};
    ghost use Rattle.xf_arena_bed.specs.Kids.{kids_left, AreKids};

    ghost Value = { List Kid };

    ghost view = { λ w. kids_left w.nodes.now w.members };

    ghost invariant = { λ w. AreKids w.nodes.now w.members };
}

impl<'a> Kids<'a> {
    /// The next one, or `None` after the last one.
    pub fn advance(&mut self) -> Option<Kid>
        ensures left { self.old ≡ option_to_list result ++ self.new }
        ensures end { IfNone result (self.old ≡ []) }
    {
        let number = self.members.advance()?;
        match kid_seen(self.nodes, number) {
            Some(kid) => Some(kid),
            None => unreachable!(),
        }
    }
}

impl<'a> Iterator for Kids<'a> {
    type Item = Kid;

    ghost next_gives = { YieldsFirst (λ s. s) };

    ghost remaining = { item_count (λ s. s) };

    fn next(&mut self) -> Option<Kid> {
        self.advance()
    }
}

impl Bed {
    /// The operations that one holds, in the order of its regions and blocks.
    pub fn kids(&self, id: OpId) -> Kids<'_>
        requires { IsLive self.now id }
        ensures names { OpsDistinct (cons self.now.root no_ops) }
        ensures found { (t : Tree) × (tree_find (name_of id) self.now.root ≡ Some t) }
        ensures live { Each (λ k. IsLive self.now k.id) result }
        ensures all { (t : Tree) → tree_find (name_of id) self.now.root ≡ Some t
            → inner_kids result ≡ inner_of 0 t.regions }
    {
        Kids {
            nodes: self.nodes.as_slice(),
            members: Members::of(&self.links, 2 * id.slot),
        }
    }
}
