//! Slots, and what they hold.
ghost use Rattle.std.specs.Prelude.{◌≡◌, ℕ, ◌+◌, ◌<◌, ◌≤◌, ◌^◌, [], ◌∷◌, ◌++◌, length};
ghost use Rattle.std.specs.Prelude.{Some, None, IfSome, IfNone, IfOk, OnOk, OnErr};
ghost use Rattle.xf_index.specs.Index.{name_at};
ghost use Rattle.xf_ir.specs.Count.{tree_count};
ghost use Rattle.xf_ir.specs.Tree.{cons, no_ops};
ghost use Rattle.xf_ir.specs.Walk.{tree_find};
ghost use Rattle.xf_arena_tree.specs.Names.{OpsDistinct};
ghost use Rattle.xf_arena_bed.specs.declared.node.OpId.{OpId};
ghost use Rattle.xf_arena_bed.specs.Live.{name_of, IsLive, leaf_of};

use crate::bed::Bed;
use crate::node::{Node, OpId};
use std::alloc::{AllocError, Global};
use xf_index::NameIndex;
use xf_ir::OpName;
use xf_rings::Rings;
use xf_type::NoMemory;

/// Lets the index have a slot more than there are.
fn grow_index(index: &mut NameIndex, alloc: Global, slots: usize) -> Result<(), NoMemory>
    requires { slots ≤ length index.old }
    ensures same { (s : ℕ) → name_at index.new s ≡ name_at index.old s }
    ensures room { length index.old ≤ length index.new }
    ensures few { slots < 2 ^ 31 }
    ensures ok { OnOk result (slots < length index.new) }
{
    if slots < index.size() as usize {
        return Ok(());
    }
    index.grow(alloc)
}

impl Bed {
    /// The operation that stands in no other.
    pub fn root(&self) -> OpId
        ensures live { IsLive self.now result }
        ensures name { name_of result ≡ self.now.root.name }
    {
        match &self.nodes[self.root as usize] {
            Some(node) => OpId {
                slot: self.root,
                serial: node.name.0,
            },
            None => unreachable!(),
        }
    }

    /// The operation of a name, or `None` exactly where none has it.
    pub fn id_of(&self, name: OpName) -> Option<OpId>
        ensures live { IfSome result (λ id. IsLive self.now id) }
        ensures name { IfSome result (λ id. name_of id ≡ name) }
        ensures none { IfNone result (tree_find name self.now.root ≡ None) }
        ensures distinct { OpsDistinct (cons self.now.root no_ops) }
    {
        match self.index.find(name.0) {
            Some(slot) => Some(OpId {
                slot,
                serial: name.0,
            }),
            None => None,
        }
    }

    /// One operation alone, in one slot. Refuses for want of memory alone.
    pub fn start(alloc: Global, node: Node) -> Result<Bed, NoMemory>
        requires { node.parent ≡ None }
        ensures { IfOk result (λ b. b ≡ record { root = leaf_of node; seats = Some node.name ∷ [] }) }
    {
        let serial = node.name.0;
        let mut links = Rings::new(alloc);
        links.grow_twice()?;
        let mut index = NameIndex::new(alloc);
        index.grow(alloc)?;
        let mut free = Vec::new(alloc);
        free.reserve(1)?;
        let mut nodes = Vec::new(alloc);
        nodes.reserve(1)?;
        index.put(0, serial);
        nodes.push_reserved(Some(node));
        Ok(Bed {
            nodes,
            links,
            free,
            index,
            root: 0,
            live: 1,
        })
    }

    /// How many slots are free.
    pub fn free_slots(&self) -> u64
        ensures { tree_count self.now.root + result ≡ length self.now.seats }
    {
        self.free.len() as u64
    }

    /// Free slots for so many operations more. Refuses for want of memory alone, and then all operations are as before.
    pub fn reserve(&mut self, alloc: Global, count: u64) -> Result<(), NoMemory>
        ensures root { self.new.root ≡ self.old.root }
        ensures seats { (id : OpId) → IsLive self.old id → IsLive self.new id }
        ensures slots { length self.old.seats ≤ length self.new.seats }
        ensures ok { OnOk result (tree_count self.new.root + count ≤ length self.new.seats) }
    {
        let free = self.free_slots();
        if free < count {
            for _slot in free..count {
                self.grow(alloc)?;
            }
        }
        Ok(())
    }

    /// One slot more, which is free. Takes constant time, but for the growth of its lists, which double.
    ///
    /// Refuses for want of memory alone, which from 2^31 slots on there always is, and is then what it was.
    pub fn grow(&mut self, alloc: Global) -> Result<(), NoMemory>
        ensures root { self.new.root ≡ self.old.root }
        ensures ok { OnOk result (self.new.seats ≡ self.old.seats ++ None ∷ []) }
        ensures err { OnErr result (self.new ≡ self.old) }
    {
        let slots = self.nodes.len();
        grow_index(&mut self.index, alloc, slots)?;
        self.nodes.reserve(1)?;
        let more = slots + 1 - self.free.len();
        self.free.reserve(more)?;
        self.links.grow_twice()?;
        self.nodes.push_reserved(None);
        self.free.push_reserved(slots as u32);
        Ok(())
    }
}
