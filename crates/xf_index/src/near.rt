//! The walk over the slots in which a name may be.
ghost use Rattle.std.specs.Prelude.{◌≡◌, ◌++◌, [], option_to_list, IfNone};
ghost use Rattle.std.specs.Iterator.{YieldsFirst, item_count};
ghost use Rattle.xf_index.specs.Index.{halves};

use std::marker::Model;
use xf_rings::Members;

/// The slots in which a name may be, one after another. Seen as the list of those that are left.
#[derive(Drop)]
pub struct Near<'a> {
    members: Members<'a>,
}

impl<'a> Model for Near<'a> {
    ghost use Rattle.std.specs.Prelude.{ℕ, List};
    ghost use Rattle.xf_index.specs.Index.{halves};

    ghost Value = { List ℕ };

    ghost view = { λ n. halves n.members };
}

impl<'a> Near<'a> {
    /// The slots of these members.
    pub(crate) fn of(members: Members<'a>) -> Near<'a>
        ensures { result ≡ halves members.entry }
    {
        Near { members }
    }

    /// The next slot, or `None` after the last one.
    pub fn advance(&mut self) -> Option<u32>
        ensures left { self.old ≡ option_to_list result ++ self.new }
        ensures end { IfNone result (self.old ≡ []) }
    {
        match self.members.advance() {
            Some(member) => Some(member / 2),
            None => None,
        }
    }
}

impl<'a> Iterator for Near<'a> {
    type Item = u32;

    ghost next_gives = { YieldsFirst (λ s. s) };

    ghost remaining = { item_count (λ s. s) };

    fn next(&mut self) -> Option<u32> {
        self.advance()
    }
}
