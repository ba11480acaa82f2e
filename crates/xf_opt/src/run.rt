//! The run of the schedule that erases dead code.
ghost use Rattle.std.specs.Prelude.{◌≡◌, ◌≤◌, ◌+◌, [], length, OnOk};
ghost use Rattle.xf_ir.specs.Choices.{MayErase, weight_at};
ghost use Rattle.xf_ir.specs.Edits.{edited};
ghost use Rattle.xf_sem.specs.Keeps.{KeepsMeaning};
ghost use Rattle.xf_opt.specs.Form.{IsFirstForm};
ghost use Rattle.xf_opt.specs.Run.{Runs};

use crate::journal::{Entry, Journal};
use std::alloc::Global;
use xf_ir::{Edit, Module, OpName, apply_edit, first_dead};
use xf_type::NoMemory;

/// The module itself, to which the main argument of a schedule is bound.
const ROOT: OpName = OpName(0);

/// The kind of the choice that erases an operation.
const ERASING: u8 = 17;

/// Erases the operations that nothing uses, until none is left, and notes each choice in the
/// journal. After a refusal, which comes for want of memory alone, nothing is said of either.
///
/// Takes for each operation that is erased a walk over the module.
pub fn erase_dead(alloc: Global, m: &mut Module, journal: &mut Journal) -> Result<(), NoMemory>
    requires form { IsFirstForm m.old }
    requires root { m.old.root.name ≡ record { 0 = 0 } }
    requires fresh { journal.old ≡ [] }
    ensures runs { OnOk result (Runs m.old journal.new m.new) }
    ensures few { OnOk result (length journal.new ≤ weight_at m.old (record { 0 = 0 }) + 1) }
    ensures form { OnOk result (IsFirstForm m.new) }
    ensures keeps { OnOk result (KeepsMeaning m.old m.new) }
{
    while let Some(name) = first_dead(alloc, m, ROOT)? {
        journal.push(Entry::Choose {
            kind: ERASING,
            op: name,
        })?;
        apply_edit(alloc, m, &Edit::Erase { op: name })?;
    }
    journal.push(Entry::EndScope)?;
    Ok(())
}
