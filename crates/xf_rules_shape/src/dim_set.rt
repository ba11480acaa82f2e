//! Sets of numbers of dimensions.
ghost use Rattle.std.specs.Prelude.{◌≡◌, OnOk, OnErr, IfOk, not};
ghost use Rattle.std.specs.FinSet as set;

use std::alloc::Global;
use std::collections::BTreeSet;
use std::marker::Model;
use xf_type::NoMemory;

/// A set of numbers of dimensions, which contracts see as a finite set.
#[derive(Drop)]
pub struct DimSet {
    numbers: BTreeSet<usize>,
}

impl Model for DimSet {
    ghost use Rattle.std.specs.Ordering.{nat_cmp};
    ghost use Rattle.std.specs.FinSet as set;
    ghost use Rattle.std.specs.Coded.{coded_ℕ};

    ghost Value = { set.FinSet nat_cmp };

    ghost coded = { set.code coded_ℕ };

    ghost view = { λ s. set.from_list s.numbers.keys };
}

impl DimSet {
    /// The empty set, which takes no memory until a number goes in.
    pub fn new(alloc: Global) -> DimSet
        ensures { result ≡ set.empty }
    {
        DimSet {
            numbers: BTreeSet::new(alloc),
        }
    }

    /// Puts a number in, and tells whether it is new there. Takes time in the logarithm of the set's size.
    ///
    /// Refuses for want of memory alone, and then leaves the set as it was.
    pub fn insert(&mut self, number: usize) -> Result<bool, NoMemory>
        ensures new { IfOk result (λ new. new ≡ not (set.contains self.old number)) }
        ensures ok { OnOk result (self.new ≡ set.insert self.old number) }
        ensures err { OnErr result (self.new ≡ self.old) }
    {
        Ok(self.numbers.insert(number)?)
    }

    /// Whether the set has the number. Takes time in the logarithm of the set's size.
    pub fn contains(&self, number: usize) -> bool
        ensures { result ≡ set.contains self.now number }
    {
        self.numbers.contains(&number)
    }
}
