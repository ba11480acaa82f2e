//! Sets of operation names.
ghost use Rattle.std.specs.Prelude.{◌≡◌, OnOk, OnErr, IfOk, not};
ghost use Rattle.std.specs.Ordering.{nat_cmp};
ghost use Rattle.std.specs.FinSet as set;

use crate::name::OpName;
use std::alloc::Global;
use std::collections::BTreeSet;
use std::marker::Model;
use xf_type::NoMemory;

/// A set of operation names, which contracts see as the finite set of their numbers.
#[derive(Drop)]
pub struct NameSet {
    numbers: BTreeSet<u64>,
}

impl Model for NameSet {
    ghost use Rattle.std.specs.Ordering.{nat_cmp};
    ghost use Rattle.std.specs.FinSet as set;
    ghost use Rattle.std.specs.Coded.{coded_ℕ};

    ghost Value = { set.FinSet nat_cmp };

    ghost coded = { set.code coded_ℕ };

    ghost view = { λ s. set.from_list s.numbers.keys };
}

impl NameSet {
    /// The empty set, which takes no memory until a name goes in.
    pub fn new(alloc: Global) -> NameSet
        ensures { result ≡ set.empty }
    {
        NameSet {
            numbers: BTreeSet::new(alloc),
        }
    }

    /// Puts a name in, and tells whether it is new there. Takes time in the logarithm of the set's size.
    ///
    /// Refuses for want of memory alone, and then leaves the set as it was.
    pub fn insert(&mut self, name: OpName) -> Result<bool, NoMemory>
        ensures new { IfOk result (λ new. new ≡ not (set.contains self.old name.0)) }
        ensures ok { OnOk result (self.new ≡ set.insert self.old name.0) }
        ensures err { OnErr result (self.new ≡ self.old) }
    {
        Ok(self.numbers.insert(name.0)?)
    }

    /// Whether the set has the name. Takes time in the logarithm of the set's size.
    pub fn contains(&self, name: OpName) -> bool
        ensures { result ≡ set.contains self.now name.0 }
    {
        self.numbers.contains(&name.0)
    }
}
