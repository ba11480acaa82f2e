//! Groups of numbers, each with a head.
ghost use Rattle.std.specs.Prelude.{◌≡◌, ◌≢◌, ℕ, ◌<◌, ◌≤◌, ◌^◌, ◌∷◌, [], ◌++◌, length, slice_index, slice_set};
ghost use Rattle.std.specs.Prelude.{OnOk, OnErr, IfOk};
ghost use Rattle.xf_rings.specs.Groups.{AreMembers, upto};

use crate::members::Members;
use crate::rings::Rings;
use std::alloc::Global;
use std::marker::Model;
use xf_type::NoMemory;

/// Numbers in groups, each with a head. Seen as the list that has at each number the head of its group.
#[derive(Drop)]
pub struct Groups {
    rings: Rings,
    owner: Vec<u32>,
}

impl Model for Groups {
    ghost use Rattle.std.specs.Prelude.{ℕ, List};
    ghost use Rattle.xf_rings.specs.Groups.{AreGroups};

    ghost Value = { List ℕ };

    ghost view = { λ g. g.owner.items };

    ghost invariant = { λ g. AreGroups g.rings g.owner.items };
}

impl Groups {
    /// No numbers, which takes no memory.
    pub fn new(alloc: Global) -> Groups
        ensures { result ≡ [] }
    {
        Groups {
            rings: Rings::new(alloc),
            owner: Vec::new(alloc),
        }
    }

    /// As many numbers, each the head of a group of its own. Takes time by their number.
    ///
    /// Refuses for want of memory alone.
    pub fn with_size(alloc: Global, size: u32) -> Result<Groups, NoMemory>
        ensures { IfOk result (λ g. g ≡ upto size) }
    {
        let mut groups = Groups::new(alloc);
        for _at in 0..size {
            groups.grow()?;
        }
        Ok(groups)
    }

    /// One number more, the head of a group of its own. Refuses for want of memory alone, and is then what it was.
    pub fn grow(&mut self) -> Result<(), NoMemory>
        requires { length self.old < 2 ^ 32 }
        ensures ok { OnOk result (self.new ≡ self.old ++ length self.old ∷ []) }
        ensures err { OnErr result (self.new ≡ self.old) }
    {
        self.owner.reserve(1)?;
        let at = self.owner.len() as u32;
        self.rings.grow()?;
        self.owner.push_reserved(at);
        Ok(())
    }

    /// The head of a number's group.
    pub fn head(&self, at: u32) -> u32
        requires { at < length self.now }
        ensures { result ≡ slice_index self.now at }
    {
        self.owner[at as usize]
    }

    /// Puts a head that no other number has into another group.
    pub fn join(&mut self, at: u32, head: u32)
        requires at_in { at < length self.old }
        requires head_in { head < length self.old }
        requires alone { (c : ℕ) → c < length self.old → slice_index self.old c ≡ at → c ≡ at }
        requires loose { slice_index self.old at ≡ at }
        requires is_head { slice_index self.old head ≡ head }
        requires other { at ≢ head }
        ensures { self.new ≡ slice_set self.old at head }
    {
        self.rings.link(head, at);
        self.owner[at as usize] = head;
    }

    /// Takes a number that is no head out of its group; it is a head of its own then.
    pub fn leave(&mut self, at: u32)
        requires at_in { at < length self.old }
        requires other { slice_index self.old at ≢ at }
        ensures { self.new ≡ slice_set self.old at at }
    {
        let _before = self.rings.unlink(at);
        self.owner[at as usize] = at;
    }

    /// The members of a group, each once. Takes constant time, and no memory.
    pub fn members(&self, head: u32) -> Members<'_>
        requires head_in { head < length self.now }
        requires is_head { slice_index self.now head ≡ head }
        ensures { AreMembers self.now head result }
    {
        Members::of(&self.rings, head)
    }
}
