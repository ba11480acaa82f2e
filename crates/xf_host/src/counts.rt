//! A count for each path, which stays at its greatest value once it is there.
ghost use Rattle.std.specs.Prelude.{◌≡◌, ◌≢◌, ◌≤◌, ℕ, List, OnOk, IsSome};
ghost use Rattle.std.specs.BTreeMap.{get_by_text};
ghost use Rattle.xf_host.specs.Count.{count_at, one_more, HasRisen};

use crate::NoMemory;
use std::alloc::Global;
use std::collections::BTreeMap;

/// Counts by path.
#[derive(Drop)]
pub struct PathCounts {
    pub counts: BTreeMap<String, u64>,
    alloc: Global,
}

impl PathCounts {
    /// Every path has the count 0.
    pub fn new(alloc: Global) -> PathCounts
        ensures { (q : List ℕ) → count_at result.counts q ≡ 0 }
    {
        PathCounts {
            counts: BTreeMap::new(alloc),
            alloc,
        }
    }

    /// Makes the entry of a path, so that counting takes no memory. No count changes.
    #[tactic(auto, using(std::proofs::lemmas::Map::Text::text_keys))]
    pub fn prepare(&mut self, path: &str) -> Result<(), NoMemory>
        ensures same { (q : List ℕ) → count_at self.new.counts q ≡ count_at self.old.counts q }
        ensures ready { OnOk result (IsSome (get_by_text self.new.counts path.now)) }
    {
        if !self.counts.contains_key(path) {
            let key = String::from_str(self.alloc, path)?;
            self.counts.insert(key, 0)?;
        }
        Ok(())
    }

    /// Counts one more for a path that has an entry.
    #[tactic(auto, using(std::proofs::lemmas::Map::Text::text_keys))]
    pub fn raise(&mut self, path: &str)
        requires { IsSome (get_by_text self.old.counts path.now) }
        ensures this { count_at self.new.counts path.now
            ≡ one_more (count_at self.old.counts path.now) }
        ensures risen { HasRisen (count_at self.old.counts path.now)
            (count_at self.new.counts path.now) }
        ensures grows { count_at self.old.counts path.now ≤ count_at self.new.counts path.now }
        ensures others { (q : List ℕ) → q ≢ path.now
            → count_at self.new.counts q ≡ count_at self.old.counts q }
    {
        if let Some(count) = self.counts.get_mut(path) {
            *count = count.saturating_add(1);
        }
    }
}
