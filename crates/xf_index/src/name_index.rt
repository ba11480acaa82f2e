//! Slots by the names that they hold.
ghost use Rattle.std.specs.Prelude.{◌≡◌, ◌≢◌, ℕ, ◌<◌, ◌^◌, [], length, slice_set, replicate, Some, None};
ghost use Rattle.std.specs.Prelude.{IfSome, IfNone, IfOk, OnOk, OnErr};
ghost use Rattle.xf_index.specs.Index.{name_at, AllBelow, IsGrown};
ghost use Rattle.xf_rings.specs.Groups.{In};

use crate::near::Near;
use std::alloc::{AllocError, Global};
use std::marker::Model;
use xf_rings::Groups;
use xf_type::NoMemory;

/// Slots, each of which may hold a name. Seen as the list of the names that they hold.
#[derive(Drop)]
pub struct NameIndex {
    names: Vec<Option<u64>>,
    groups: Groups,
}

impl Model for NameIndex {
    ghost use Rattle.std.specs.Prelude.{ℕ, List, Option};
    ghost use Rattle.xf_index.specs.Index.{IsIndex};

    ghost Value = { List (Option ℕ) };

    ghost view = { λ a. a.names.items };

    ghost invariant = { λ a. IsIndex a.names.items a.groups };
}

impl NameIndex {
    /// No slots, which takes no memory.
    pub fn new(alloc: Global) -> NameIndex
        ensures { result ≡ [] }
    {
        NameIndex {
            names: Vec::new(alloc),
            groups: Groups::new(alloc),
        }
    }

    /// As many free slots.
    fn with_size(alloc: Global, size: u32) -> Result<NameIndex, NoMemory>
        requires { size < 2 ^ 31 }
        ensures { IfOk result (λ index. index ≡ replicate size None) }
    {
        let names = vec![in alloc; None; size as usize]?;
        let groups = Groups::with_size(alloc, 2 * size)?;
        Ok(NameIndex { names, groups })
    }

    /// How many slots there are, fewer than 2^31.
    pub fn size(&self) -> u32
        ensures value { result ≡ length self.now }
        ensures few { result < 2 ^ 31 }
    {
        self.names.len() as u32
    }

    /// More slots, about twice as many, each of the new ones free. Takes time by their number.
    ///
    /// Refuses for want of memory alone, which from 2^30 slots on there always is, and is then what it was.
    pub fn grow(&mut self, alloc: Global) -> Result<(), NoMemory>
        ensures ok { OnOk result (IsGrown self.old self.new) }
        ensures err { OnErr result (self.new ≡ self.old) }
    {
        let size = self.size();
        if size >= 1 << 30 {
            return Err(AllocError);
        }
        let mut bigger = NameIndex::with_size(alloc, 2 * size + 1)?;
        for slot in 0..size {
            if let Some(name) = self.name(slot) {
                bigger.put(slot, name);
            }
        }
        *self = bigger;
        Ok(())
    }

    /// The name that a slot holds.
    pub fn name(&self, slot: u32) -> Option<u64>
        requires { slot < length self.now }
        ensures { result ≡ name_at self.now slot }
    {
        self.names[slot as usize]
    }

    /// Slots among which are all that hold the name. Takes constant time, and no memory.
    pub fn near(&self, name: u64) -> Near<'_>
        requires { 0 < length self.now }
        ensures within { AllBelow (length self.now) result }
        ensures all { (s : ℕ) → name_at self.now s ≡ Some name → In s result }
    {
        let size = self.names.len() as u64;
        let bucket = (name % size) as u32;
        Near::of(self.groups.members(2 * bucket + 1))
    }

    /// A slot that holds the name, or `None` exactly where none does. Takes constant time where names are spread well.
    pub fn find(&self, name: u64) -> Option<u32>
        ensures some { IfSome result (λ s. name_at self.now s ≡ Some name) }
        ensures none { IfNone result ((s : ℕ) → name_at self.now s ≡ Some name → ⊥) }
    {
        if self.names.is_empty() {
            return None;
        }
        for slot in self.near(name) {
            if self.name(slot) == Some(name) {
                return Some(slot);
            }
        }
        None
    }

    /// Lets a free slot hold a name. Takes constant time, and no memory.
    pub fn put(&mut self, slot: u32, name: u64)
        requires within { slot < length self.old }
        requires free { name_at self.old slot ≡ None }
        ensures { self.new ≡ slice_set self.old slot (Some name) }
    {
        let size = self.names.len() as u64;
        let bucket = (name % size) as u32;
        self.groups.join(2 * slot, 2 * bucket + 1);
        self.names[slot as usize] = Some(name);
    }

    /// Lets a slot hold no name; it is free for the next one. Takes constant time.
    pub fn remove(&mut self, slot: u32)
        requires within { slot < length self.old }
        requires held { name_at self.old slot ≢ None }
        ensures { self.new ≡ slice_set self.old slot None }
    {
        self.groups.leave(2 * slot);
        self.names[slot as usize] = None;
    }
}
