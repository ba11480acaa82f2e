//! Rings: each number below the size is followed by one, and follows one.
ghost use Rattle.std.specs.Prelude.{◌≡◌, ◌≢◌, ◌+◌, ◌<◌, ◌^◌, [], ◌∷◌, ◌++◌, length, slice_index, OnOk, OnErr};
ghost use Rattle.xf_rings.specs.Ring.{linked, unlinked, After};

use std::alloc::Global;
use std::marker::Model;
use xf_type::NoMemory;

/// Numbers in rings. Seen as the list that has at each number the one after it.
#[derive(Drop)]
pub struct Rings {
    next: Vec<u32>,
    prev: Vec<u32>,
}

impl Model for Rings {
    ghost use Rattle.std.specs.Prelude.{ℕ, List};
    ghost use Rattle.xf_rings.specs.Mirror.{Mirror};

    ghost Value = { List ℕ };

    ghost view = { λ r. r.next.items };

    ghost invariant = { λ r. Mirror r.next.items r.prev.items };
}

impl Rings {
    /// No numbers, which takes no memory.
    pub fn new(alloc: Global) -> Rings
        ensures { result ≡ [] }
    {
        Rings {
            next: Vec::new(alloc),
            prev: Vec::new(alloc),
        }
    }

    /// One number more, a ring of its own. Refuses for want of memory alone, and is then what it was.
    pub fn grow(&mut self) -> Result<(), NoMemory>
        requires { length self.old < 2 ^ 32 }
        ensures ok { OnOk result (self.new ≡ self.old ++ length self.old ∷ []) }
        ensures err { OnErr result (self.new ≡ self.old) }
    {
        self.next.reserve(1)?;
        self.prev.reserve(1)?;
        let at = self.next.len() as u32;
        self.next.push_reserved(at);
        self.prev.push_reserved(at);
        Ok(())
    }

    /// Two numbers more, each a ring of its own. Refuses for want of memory alone, and is then what it was.
    pub fn grow_twice(&mut self) -> Result<(), NoMemory>
        requires { length self.old + 1 < 2 ^ 32 }
        ensures ok { OnOk result (self.new ≡ self.old ++ length self.old ∷ [] ++ (length self.old + 1) ∷ []) }
        ensures err { OnErr result (self.new ≡ self.old) }
    {
        self.next.reserve(2)?;
        self.prev.reserve(2)?;
        let at = self.next.len() as u32;
        self.next.push_reserved(at);
        self.prev.push_reserved(at);
        self.next.push_reserved(at + 1);
        self.prev.push_reserved(at + 1);
        Ok(())
    }

    /// How many numbers there are.
    pub fn size(&self) -> usize
        ensures { result ≡ length self.now }
    {
        self.next.len()
    }

    /// The one after a number.
    pub fn next(&self, at: u32) -> u32
        requires { at < length self.now }
        ensures value { result ≡ slice_index self.now at }
        ensures within { result < length self.now }
    {
        self.next[at as usize]
    }

    /// The one before a number.
    pub fn prev(&self, at: u32) -> u32
        requires { at < length self.now }
        ensures { After self.now result at }
    {
        self.prev[at as usize]
    }

    /// Takes a number out of its ring; it is a ring of its own then. Answers the one before it.
    pub fn unlink(&mut self, at: u32) -> u32
        requires { at < length self.old }
        ensures before { After self.old result at }
        ensures done { self.new ≡ unlinked result at self.old }
    {
        let before = self.prev[at as usize];
        let after = self.next[at as usize];
        self.next[before as usize] = after;
        self.prev[after as usize] = before;
        self.next[at as usize] = at;
        self.prev[at as usize] = at;
        before
    }

    /// Puts a number that is a ring of its own after another one.
    pub fn link(&mut self, before: u32, at: u32)
        requires before_in { before < length self.old }
        requires at_in { at < length self.old }
        requires loose { slice_index self.old at ≡ at }
        requires other { before ≢ at }
        ensures { self.new ≡ linked before at self.old }
    {
        let after = self.next[before as usize];
        self.next[at as usize] = after;
        self.prev[after as usize] = at;
        self.next[before as usize] = at;
        self.prev[at as usize] = before;
    }
}
