//! The names that are visible where an operation stands.
ghost use Rattle.std.specs.Prelude.{◌≡◌, ◌≤◌, ◌∷◌, ◌++◌, [], is_some, length, take, drop, IfOk, OnOk, max, ◌==◌, ◌||◌};
ghost use Rattle.std.specs.Option.{option_copied};
ghost use Rattle.xf_read.specs.Scopes.{named, beside, no_names, with_name};
ghost use Rattle.xf_read.specs.Visible.{names_in, put_back, before, Grows};

use std::alloc::Global;
use std::collections::BTreeMap;
use xf_ir::OpName;
use xf_type::{NoMemory, TypeList};

/// What defines the values of a name.
#[derive(Clone, Copy, Debug, PartialEq, Eq)]
pub enum Definer {
    /// An operation: its results.
    Results(OpName),
    /// A block of an operation: its argument of that number.
    Argument(OpName, u32),
    /// Nothing: a function's symbol is the name of no value.
    Symbol,
}

/// What the visible names of one text stand for.
#[derive(Debug, Drop)]
pub struct Named {
    /// The most values that one of the names has.
    pub most: u32,
    /// Whether one of the names has one value.
    pub single: bool,
    /// What defines the values of the last of the names.
    pub definer: Definer,
    /// The types of those values, where they are known.
    pub types: TypeList,
}

impl Named {
    /// What one name of so many values stands for.
    pub fn new(count: u32, definer: Definer, types: TypeList) -> Named
        ensures { result ≡ named count definer types }
    {
        Named {
            most: count,
            single: count == 1,
            definer,
            types,
        }
    }

    /// What a name stands for beside those of the same text that are visible already.
    fn beside(self, visible: Option<&Named>) -> Named
        ensures { result ≡ beside (option_copied visible.entry) self }
    {
        match visible {
            None => self,
            Some(visible) => Named {
                most: visible.most.max(self.most),
                single: visible.single || self.single,
                ..self
            },
        }
    }
}

/// A name that stands for something else than before.
#[derive(Drop)]
pub struct Hidden<'a> {
    pub name: &'a [u8],
    /// What it stood for.
    pub before: Option<Named>,
}

/// The texts that are visible as names, each with what it stands for, and the changes that led there.
#[derive(Drop)]
pub struct VisibleNames<'a> {
    pub visible: BTreeMap<&'a [u8], Named>,
    pub changes: Vec<Hidden<'a>>,
}

impl<'a> VisibleNames<'a> {
    /// No names.
    pub fn new(alloc: Global) -> VisibleNames<'a>
        ensures { names_in result ≡ no_names }
    {
        VisibleNames {
            visible: BTreeMap::new(alloc),
            changes: Vec::new(alloc),
        }
    }

    /// What a name stands for. It takes time in the logarithm of the number of names.
    pub fn look(&self, name: &[u8]) -> Option<&Named>
        ensures { option_copied result ≡ names_in self.now name.now }
    {
        self.visible.get(name)
    }

    /// Lets a name stand for something, beside those of the same text, and tells whether that text
    /// was visible as a name before.
    ///
    /// Refuses for want of memory alone.
    pub fn enter(&mut self, name: &'a [u8], named: Named) -> Result<bool, NoMemory>
        ensures seen { IfOk result (λ seen. seen ≡ is_some (names_in self.old name.entry.now)) }
        ensures names { OnOk result (names_in self.new ≡ with_name name.entry.now named (names_in self.old)) }
        ensures grows { OnOk result (Grows self.old self.new) }
    {
        let together = named.beside(self.look(name));
        let before = self.visible.insert(name, together)?;
        let seen = before.is_some();
        self.changes.push(Hidden { name, before })?;
        Ok(seen)
    }

    /// Lets a name stand for what it stood for before a change.
    fn put_back(&mut self, change: Hidden<'a>) -> Result<(), NoMemory>
        ensures names { OnOk result (names_in self.new ≡ put_back change.entry (names_in self.old)) }
        ensures changes { OnOk result (self.new.changes ≡ self.old.changes) }
    {
        let Hidden { name, before } = change;
        match before {
            Some(named) => {
                self.visible.insert(name, named)?;
            }
            None => {
                self.visible.remove(name);
            }
        }
        Ok(())
    }

    /// How many changes led here.
    pub fn height(&self) -> usize
        ensures { result ≡ length self.now.changes.items }
    {
        self.changes.len()
    }

    /// Takes all changes but the first ones back.
    ///
    /// Refuses for want of memory alone.
    pub fn leave(&mut self, height: usize) -> Result<(), NoMemory>
        requires { height ≤ length self.old.changes.items }
        ensures names { OnOk result (names_in self.new ≡
            before (drop height self.old.changes.items) (names_in self.old)) }
        ensures changes { OnOk result (self.new.changes.items ≡ take height self.old.changes.items) }
    {
        'changes: while self.changes.len() > height {
            match self.changes.pop() {
                Some(change) => self.put_back(change)?,
                None => return Ok(()),
            }
        }
        Ok(())
    }
}
