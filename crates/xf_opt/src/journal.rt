//! The choices that a run makes.
ghost use Rattle.std.specs.Prelude.{◌≡◌, [], ◌∷◌, ◌++◌, OnOk, OnErr};

use std::alloc::Global;
use std::marker::Model;
use xf_ir::OpName;
use xf_type::{ListOf, NoMemory};

/// One step of a run that its script leaves open.
#[derive(Drop)]
pub enum Entry {
    /// A rewriting choice: its kind and the operation that it changes.
    Choose { kind: u8, op: OpName },
    /// The scope of a target has no choice left.
    EndScope,
}

/// The entries of a run, in order.
#[derive(Drop)]
pub struct Journal {
    entries: ListOf<Entry>,
}

impl Model for Journal {
    ghost use Rattle.std.specs.Prelude.{List};
    ghost use Rattle.xf_opt.specs.declared.journal.Entry.{Entry};

    ghost Value = { List Entry };

    ghost view = { λ j. j.entries };
}

impl Journal {
    /// The empty journal.
    pub fn new(alloc: Global) -> Journal
        ensures { result ≡ [] }
    {
        Journal {
            entries: ListOf::new(alloc),
        }
    }

    /// Adds an entry at the end; after a refusal the journal is what it was.
    pub fn push(&mut self, e: Entry) -> Result<(), NoMemory>
        ensures ok { OnOk result (self.new ≡ self.old ++ e ∷ []) }
        ensures err { OnErr result (self.new ≡ self.old) }
    {
        self.entries.push(e)
    }

    /// The entries in order.
    pub fn entries(&self) -> &[Entry]
        ensures { result.now ≡ self.now }
    {
        self.entries.as_slice()
    }
}
