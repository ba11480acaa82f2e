//! The walk over the uses of a value.
ghost use Rattle.std.specs.Prelude.{◌≡◌, ◌++◌, [], option_to_list, IfNone};
ghost use Rattle.std.specs.Iterator.{YieldsFirst, item_count};
ghost use Rattle.xf_uses.specs.Walks.{uses_left, AreOperands, members_left};

use crate::cell::{CellName, Use};
use std::marker::Model;
use xf_rings::Members;

/// The uses of a value, one after another; each takes constant time. Seen as the list of those that are left.
#[derive(Drop)]
pub struct Uses<'a> {
    cells: &'a [Option<CellName>],
    members: Option<Members<'a>>,
}

impl<'a> Model for Uses<'a> {
    ghost use Rattle.std.specs.Prelude.{List};
    ghost use Rattle.xf_uses.specs.declared.cell.Use.{Use};
    ghost use Rattle.xf_uses.specs.Walks.{uses_left, AreOperands, members_left};

    ghost Value = { List Use };

    ghost view = { λ w. uses_left w.cells.now (members_left w.members) };

    ghost invariant = { λ w. AreOperands w.cells.now (members_left w.members) };
}

impl<'a> Uses<'a> {
    /// The uses that these members of a value's group stand for.
    pub(crate) fn of(cells: &'a [Option<CellName>], members: Members<'a>) -> Uses<'a>
        requires { AreOperands cells.now members }
        ensures { result ≡ uses_left cells.now members.entry }
    {
        Uses {
            cells,
            members: Some(members),
        }
    }

    /// No uses.
    pub(crate) fn none() -> Uses<'a>
        ensures { result ≡ [] }
    {
        Uses {
            cells: &[],
            members: None,
        }
    }

    /// The next use, or `None` after the last one.
    pub fn advance(&mut self) -> Option<Use>
        ensures left { self.old ≡ option_to_list result ++ self.new }
        ensures end { IfNone result (self.old ≡ []) }
    {
        let member = next_member(&mut self.members)?;
        let cell = self.cells[member as usize];
        match cell {
            Some(CellName::Operand { op, num }) => Some(Use { op, operand: num }),
            _ => unreachable!(),
        }
    }
}

/// The next member, or `None` after the last one.
fn next_member(members: &mut Option<Members<'_>>) -> Option<u32>
    ensures left { members_left members.old ≡ option_to_list result ++ members_left members.new }
    ensures end { IfNone result (members_left members.old ≡ []) }
{
    match members {
        Some(members) => members.advance(),
        None => None,
    }
}

impl<'a> Iterator for Uses<'a> {
    type Item = Use;

    ghost next_gives = { YieldsFirst (λ s. s) };

    ghost remaining = { item_count (λ s. s) };

    fn next(&mut self) -> Option<Use> {
        self.advance()
    }
}
