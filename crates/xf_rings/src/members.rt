//! The walk over the members of a group.
ghost use Rattle.std.specs.Prelude.{◌≡◌, ◌<◌, ◌++◌, [], length, option_to_list, IfNone};
ghost use Rattle.std.specs.Iterator.{YieldsFirst, item_count};
ghost use Rattle.xf_rings.specs.Ring.{chain};
ghost use Rattle.xf_rings.specs.Groups.{IsLeft};

use crate::rings::Rings;
use std::marker::Model;

/// The members of a group, one after another; each takes constant time. Seen as the list of those that are left.
#[derive(Drop)]
pub struct Members<'a> {
    rings: &'a Rings,
    at: u32,
    head: u32,
}

impl<'a> Model for Members<'a> {
    ghost use Rattle.std.specs.Prelude.{ℕ, List, length};
    ghost use Rattle.xf_rings.specs.Ring.{chain};
    ghost use Rattle.xf_rings.specs.Groups.{IsLeft};

    ghost Value = { List ℕ };

    ghost view = { λ m. chain m.rings.now (length m.rings.now) m.at m.head };

    ghost invariant = { λ m. IsLeft m.rings.now m.at m.head (chain m.rings.now (length m.rings.now) m.at m.head) };
}

impl<'a> Members<'a> {
    /// The numbers of a ring after one, up to it.
    pub fn of(rings: &'a Rings, head: u32) -> Members<'a>
        requires { IsLeft rings.now head head (chain rings.now (length rings.now) head head) }
        ensures { result ≡ chain rings.now (length rings.now) head head }
    {
        Members {
            rings,
            at: head,
            head,
        }
    }

    /// The next member, or `None` after the last one.
    pub fn advance(&mut self) -> Option<u32>
        ensures left { self.old ≡ option_to_list result ++ self.new }
        ensures end { IfNone result (self.old ≡ []) }
    {
        let next = self.rings.next(self.at);
        if next == self.head {
            return None;
        }
        self.at = next;
        Some(next)
    }
}

impl<'a> Iterator for Members<'a> {
    type Item = u32;

    ghost next_gives = { YieldsFirst (λ s. s) };

    ghost remaining = { item_count (λ s. s) };

    fn next(&mut self) -> Option<u32> {
        self.advance()
    }
}
