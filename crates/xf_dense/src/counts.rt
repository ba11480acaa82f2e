//! How many items each of the lists has that are open.
ghost use Rattle.std.specs.Prelude.{◌≡◌, [], ◌∷◌, OnOk, MatchOption};

use std::alloc::Global;
use std::marker::Model;
use xf_type::NoMemory;

/// A number for each open list. Contracts see them with the innermost list first.
#[derive(Drop)]
pub struct Counts {
    numbers: Vec<usize>,
}

impl Model for Counts {
    ghost use Rattle.std.specs.Prelude.{ℕ, List, reverse};
    ghost use Rattle.std.specs.Coded.{coded_list, coded_ℕ};

    ghost Value = { List ℕ };

    ghost coded = { coded_list coded_ℕ };

    ghost view = { λ counts. reverse counts.numbers.items };
}

impl Counts {
    /// No list is open.
    pub fn new(alloc: Global) -> Counts
        ensures { result ≡ [] }
    {
        Counts {
            numbers: Vec::new(alloc),
        }
    }

    /// A list is opened in the innermost one, and has so many items.
    pub fn push(&mut self, count: usize) -> Result<(), NoMemory>
        ensures { OnOk result (self.new ≡ count ∷ self.old) }
    {
        self.numbers.push(count)?;
        Ok(())
    }

    /// Takes the innermost list away and answers how many items it has, or `None` where no list is open.
    pub fn pop(&mut self) -> Option<usize>
        ensures { MatchOption result ((self.old ≡ []) × (self.new ≡ [])) (λ count. self.old ≡ count ∷ self.new) }
    {
        self.numbers.pop()
    }
}
