//! Files and streams of the system. No clause tells what they hold.
ghost use Rattle.std.specs.Prelude.{◌≡◌, ℕ, List, None};
ghost use Rattle.xf_host.specs.Count.{count_at};
ghost use Rattle.xf_host.specs.Reads.{AppendsAtMost};

use crate::counts::PathCounts;
use crate::files::{FileFail, Files};
use crate::sink::{Sink, SinkFail};
use std::alloc::Global;
use std::fs;
use std::io::{Read, Write};

/// The most bytes that one read asks for.
const BUFFER: usize = 4096;

/// The files of the system.
#[derive(Drop)]
pub struct RealFiles<'a, R> {
    rt: &'a R,
    faults: PathCounts,
}

impl<'a, R: std::rt::Files> RealFiles<'a, R> {
    /// The files that the runtime opens, and no failed read so far.
    pub fn new(rt: &'a R, alloc: Global) -> RealFiles<'a, R>
        ensures { (q : List ℕ) → ⟦<RealFiles<'a, R> as Files>⟧.faults result q ≡ 0 }
    {
        RealFiles {
            rt,
            faults: PathCounts::new(alloc),
        }
    }
}

/// Appends the first `max` bytes that a reader gives, or all if they are fewer.
fn read_prefix<S: Read>(reader: &mut S, max: usize, into: &mut Vec<u8>) -> Result<(), FileFail>
    ensures { AppendsAtMost max into.old.items into.new.items }
{
    let mut buffer = [0u8; BUFFER];
    let mut left = max;
    while left > 0 {
        let wanted = left.min(BUFFER);
        let Ok(count) = reader.read(&mut buffer[..wanted]) else {
            return Err(FileFail::Failed);
        };
        if count == 0 {
            return Ok(());
        }
        into.extend_from_slice(&buffer[..count])?;
        left -= count;
    }
    Ok(())
}

impl<'a, R: std::rt::Files> Files for RealFiles<'a, R> {
    ghost holds = { λ _ _. None };

    ghost faults = { λ s q. count_at s.faults.counts q };

    fn read(&mut self, path: &str, max: usize, into: &mut Vec<u8>) -> Result<(), FileFail> {
        self.faults.prepare(path)?;
        let result = match fs::open(self.rt, path) {
            Ok(mut file) => read_prefix(&mut file, max, into),
            Err(_) => Err(FileFail::Failed),
        };
        if let Err(FileFail::Failed) = &result {
            self.faults.raise(path);
        }
        result
    }
}

/// A stream of the system.
#[derive(Drop)]
pub struct RealSink<W> {
    writer: W,
    faults: u64,
}

impl<W: Write + Drop> RealSink<W> {
    /// Writes to this writer, with no failed write so far.
    pub fn new(writer: W) -> RealSink<W>
        ensures { ⟦<RealSink<W> as Sink>⟧.faults result ≡ 0 }
    {
        RealSink { writer, faults: 0 }
    }
}

/// Writes and flushes the whole piece, and tells whether the writer took it.
fn write_whole<W: Write>(writer: &mut W, piece: &[u8]) -> bool {
    let mut rest = piece;
    while !rest.is_empty() {
        match writer.write(rest) {
            Ok(0) => return false,
            Ok(count) => rest = &rest[count..],
            Err(_) => return false,
        }
    }
    writer.flush().is_ok()
}

impl<W: Write + Drop> Sink for RealSink<W> {
    ghost written = { λ _. None };

    ghost faults = { λ s. s.faults };

    fn write(&mut self, piece: &[u8]) -> Result<(), SinkFail> {
        if write_whole(&mut self.writer, piece) {
            return Ok(());
        }
        self.faults = self.faults.saturating_add(1);
        Err(SinkFail::Failed)
    }
}
