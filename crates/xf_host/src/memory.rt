//! Files and a sink in memory, with failures that a test plans.
ghost use Rattle.std.specs.Prelude.{◌≡◌, ◌≢◌, ◌≤◌, ◌++◌, ◌⊎◌, ℕ, List, [], ◌∷◌, Some, None, take, OnOk, OnErr, IfSome};
ghost use Rattle.std.specs.Prelude.{IsErrOf, IsSome, IsNone, IsSomeAnd};

use crate::NoMemory;
use crate::counts::PathCounts;
use crate::files::{FileFail, Files};
use crate::sink::{Sink, SinkFail};
use std::alloc::Global;
use std::collections::BTreeMap;

/// Files in memory. A read fails only at an absent path, or where its number is planned.
#[derive(Drop)]
pub struct MemFiles {
    files: BTreeMap<String, Vec<u8>>,
    planned: Vec<u64>,
    calls: u64,
    faults: PathCounts,
    alloc: Global,
}

impl MemFiles {
    ghost use Rattle.xf_host.specs.Memory.{file_at, read_faults, reads_made, planned_reads};

    /// No file, no planned failure and no read so far.
    pub fn new(alloc: Global) -> MemFiles
        ensures files { (q : List ℕ) → file_at result q ≡ None }
        ensures faults { (q : List ℕ) → read_faults result q ≡ 0 }
        ensures made { reads_made result ≡ 0 }
        ensures planned { planned_reads result ≡ [] }
    {
        MemFiles {
            files: BTreeMap::new(alloc),
            planned: Vec::new(alloc),
            calls: 0,
            faults: PathCounts::new(alloc),
            alloc,
        }
    }

    /// Puts a copy of the bytes at a path, in place of a file that was there.
    #[tactic(auto, using(std::proofs::lemmas::Map::Text::text_keys))]
    pub fn add(&mut self, path: &str, bytes: &[u8]) -> Result<(), NoMemory>
        ensures ok { OnOk result (file_at self.new path.now ≡ Some bytes.now) }
        ensures others { (q : List ℕ) → q ≢ path.now → file_at self.new q ≡ file_at self.old q }
        ensures err { OnErr result (file_at self.new path.now ≡ file_at self.old path.now) }
        ensures faults { (q : List ℕ) → read_faults self.new q ≡ read_faults self.old q }
        ensures made { reads_made self.new ≡ reads_made self.old }
        ensures planned { planned_reads self.new ≡ planned_reads self.old }
    {
        let key = String::from_str(self.alloc, path)?;
        let held = Vec::from_slice(self.alloc, bytes)?;
        self.files.insert(key, held)?;
        Ok(())
    }

    /// Lets the read of this number, counted from 0, fail.
    pub fn fail_at(&mut self, call: u64) -> Result<(), NoMemory>
        ensures ok { OnOk result (planned_reads self.new ≡ planned_reads self.old ++ call ∷ []) }
        ensures err { OnErr result (planned_reads self.new ≡ planned_reads self.old) }
        ensures files { (q : List ℕ) → file_at self.new q ≡ file_at self.old q }
        ensures faults { (q : List ℕ) → read_faults self.new q ≡ read_faults self.old q }
        ensures made { reads_made self.new ≡ reads_made self.old }
    {
        self.planned.push(call)?;
        Ok(())
    }
}

impl Files for MemFiles {
    ghost use Rattle.xf_host.specs.Memory.{file_at, read_faults, reads_made, planned_reads, IsPlannedRead, reads_after};
    ghost use Rattle.xf_host.specs.Memory.{read_faults_after};

    ghost holds = { λ s q. file_at s q };

    ghost faults = { λ s q. read_faults s q };

    /// After an error nothing was appended, and a read that memory stopped is not counted.
    fn read(&mut self, path: &str, max: usize, into: &mut Vec<u8>) -> Result<(), FileFail>
        ensures ok { OnOk result (IfSome (file_at self.old path.now) (λ bytes.
            into.new.items ≡ into.old.items ++ take max bytes)) }
        ensures err { OnErr result (into.new.items ≡ into.old.items) }
        ensures told { (q : List ℕ) → file_at self.new q ≡ file_at self.old q }
        ensures planned { planned_reads self.new ≡ planned_reads self.old }

        // A read fails at an absent path or a planned call, and nowhere else.
        ensures why { IsErrOf result FileFail.Failed
            → IsPlannedRead self.old ⊎ IsNone (file_at self.old path.now) }
        ensures present { OnOk result (IsSome (file_at self.old path.now)) }
        ensures unplanned { OnOk result (¬ (IsPlannedRead self.old)) }

        // The counts.
        ensures made { reads_made self.new ≡ reads_after result (reads_made self.old) }
        ensures faults { read_faults self.new path.now
            ≡ read_faults_after result (read_faults self.old path.now) }
        ensures grows { read_faults self.old path.now ≤ read_faults self.new path.now }
        ensures others { (q : List ℕ) → q ≢ path.now
            → read_faults self.new q ≡ read_faults self.old q }
    {
        self.faults.prepare(path)?;
        if self.planned.contains(&self.calls) {
            self.faults.raise(path);
            self.calls = self.calls.saturating_add(1);
            return Err(FileFail::Failed);
        }
        let Some(bytes) = self.files.get(path) else {
            self.faults.raise(path);
            self.calls = self.calls.saturating_add(1);
            return Err(FileFail::Failed);
        };
        let front = max.min(bytes.len());
        into.extend_from_slice(&bytes[..front])?;
        self.calls = self.calls.saturating_add(1);
        Ok(())
    }
}

/// A sink in memory. A write fails only where its number is planned.
#[derive(Drop)]
pub struct MemSink {
    bytes: Vec<u8>,
    planned: BTreeMap<u64, usize>,
    calls: u64,
    faults: u64,
}

impl MemSink {
    ghost use Rattle.xf_host.specs.Memory.{taken_bytes, write_faults, writes_made, planned_write};

    /// No bytes, no planned failure and no write so far.
    pub fn new(alloc: Global) -> MemSink
        ensures bytes { taken_bytes result ≡ [] }
        ensures faults { write_faults result ≡ 0 }
        ensures made { writes_made result ≡ 0 }
        ensures planned { (c : ℕ) → planned_write result c ≡ None }
    {
        MemSink {
            bytes: Vec::new(alloc),
            planned: BTreeMap::new(alloc),
            calls: 0,
            faults: 0,
        }
    }

    /// Lets the write of this number, counted from 0, take only the first `kept` bytes of its
    /// piece, or all if it is shorter, and fail.
    pub fn fail_at(&mut self, call: u64, kept: usize) -> Result<(), NoMemory>
        ensures ok { OnOk result (planned_write self.new call ≡ Some kept) }
        ensures others { (c : ℕ) → c ≢ call → planned_write self.new c ≡ planned_write self.old c }
        ensures err { OnErr result (planned_write self.new call ≡ planned_write self.old call) }
        ensures bytes { taken_bytes self.new ≡ taken_bytes self.old }
        ensures faults { write_faults self.new ≡ write_faults self.old }
        ensures made { writes_made self.new ≡ writes_made self.old }
    {
        self.planned.insert(call, kept)?;
        Ok(())
    }

    /// The bytes that were taken so far.
    pub fn bytes(&self) -> &[u8]
        ensures { result.now ≡ taken_bytes self.now }
    {
        self.bytes.as_slice()
    }
}

impl Sink for MemSink {
    ghost use Rattle.xf_host.specs.Memory.{taken_bytes, write_faults, writes_made, planned_write, writes_after};
    ghost use Rattle.xf_host.specs.Memory.{write_faults_after};

    ghost written = { λ s. Some (taken_bytes s) };

    ghost faults = { λ s. write_faults s };

    /// A write that memory stopped is not counted.
    fn write(&mut self, piece: &[u8]) -> Result<(), SinkFail>
        ensures ok { OnOk result (taken_bytes self.new ≡ taken_bytes self.old ++ piece.now) }
        ensures memory { IsErrOf result SinkFail.NoMemory
            → taken_bytes self.new ≡ taken_bytes self.old }

        // A write fails at a planned call, of which it takes the planned bytes, and nowhere else.
        ensures failed { IsErrOf result SinkFail.Failed
            → IsSomeAnd (planned_write self.old (writes_made self.old)) (λ kept.
            taken_bytes self.new ≡ taken_bytes self.old ++ take kept piece.now) }
        ensures unplanned { OnOk result (IsNone (planned_write self.old (writes_made self.old))) }
        ensures planned { (c : ℕ) → planned_write self.new c ≡ planned_write self.old c }

        // The counts.
        ensures made { writes_made self.new ≡ writes_after result (writes_made self.old) }
        ensures faults { write_faults self.new
            ≡ write_faults_after result (write_faults self.old) }
        ensures grows { write_faults self.old ≤ write_faults self.new }
    {
        let Some(kept) = self.planned.get(&self.calls).copied() else {
            self.bytes.extend_from_slice(piece)?;
            self.calls = self.calls.saturating_add(1);
            return Ok(());
        };
        let taken = kept.min(piece.len());
        self.bytes.extend_from_slice(&piece[..taken])?;
        self.calls = self.calls.saturating_add(1);
        self.faults = self.faults.saturating_add(1);
        Err(SinkFail::Failed)
    }
}
