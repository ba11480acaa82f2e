//! A case: a call of the program over files in memory, and how it ends.

use std::alloc::{AllocError, Global};
use xf_host::memory::{MemFiles, MemSink};

/// A file in memory.
#[derive(Clone, Drop)]
pub struct File {
    pub path: String,
    pub bytes: Vec<u8>,
}

/// A write that fails, by its number from 0 on, and how many bytes of it are taken.
#[derive(Clone, Copy)]
pub struct FailingWrite {
    pub call: u64,
    pub kept: usize,
}

/// Calls with each of the first bytes of a file, from one number of bytes to another.
#[derive(Clone, Drop)]
pub struct Cut {
    pub path: String,
    pub from: usize,
    pub to: usize,
}

/// How a call ends.
#[derive(Clone, Drop)]
pub struct End {
    pub status: u8,
    pub out: Vec<u8>,
    pub err: Vec<u8>,
    /// Whether `err` is only what the line begins with.
    pub err_is_prefix: bool,
    /// How much of the line was written: `whole`, `failed` or `memory`.
    pub told: String,
    /// The entries of the journal, with commas between them.
    pub journal: String,
}

/// A call and its end.
#[derive(Clone, Drop)]
pub struct Case {
    pub name: String,
    pub words: Vec<String>,
    pub files: Vec<File>,
    pub failing_reads: Vec<u64>,
    pub failing_out: Vec<FailingWrite>,
    pub failing_err: Vec<FailingWrite>,
    /// The file of which only first bytes are given, in a call for each number of them.
    pub cut: Option<Cut>,
    /// The file that holds in a second call what the first one wrote.
    pub again: Option<String>,
    pub end: End,
}

impl End {
    /// Status 0, and nothing is written.
    pub fn new(alloc: Global) -> Result<End, AllocError> {
        Ok(End {
            status: 0,
            out: Vec::new(alloc),
            err: Vec::new(alloc),
            err_is_prefix: false,
            told: String::from_str(alloc, "whole")?,
            journal: String::new(alloc),
        })
    }
}

impl Case {
    /// A call without words over no files, none of which fails.
    pub fn new(alloc: Global) -> Result<Case, AllocError> {
        Ok(Case {
            name: String::new(alloc),
            words: Vec::new(alloc),
            files: Vec::new(alloc),
            failing_reads: Vec::new(alloc),
            failing_out: Vec::new(alloc),
            failing_err: Vec::new(alloc),
            cut: None,
            again: None,
            end: End::new(alloc)?,
        })
    }

    /// What a file holds, where it is one of the case.
    pub fn bytes_of(&self, path: &str) -> Option<&[u8]> {
        for file in &self.files {
            if file.path.as_str() == path {
                return Some(file.bytes.as_slice());
            }
        }
        None
    }

    /// The files and the reads of them that fail.
    pub fn files(&self, alloc: Global) -> Result<MemFiles, AllocError> {
        let mut files = MemFiles::new(alloc);
        for file in &self.files {
            files.add(file.path.as_str(), file.bytes.as_slice())?;
        }
        for call in &self.failing_reads {
            files.fail_at(*call)?;
        }
        Ok(files)
    }
}

/// A sink whose writes of these numbers fail.
pub fn sink(alloc: Global, failing: &[FailingWrite]) -> Result<MemSink, AllocError> {
    let mut sink = MemSink::new(alloc);
    for write in failing {
        sink.fail_at(write.call, write.kept)?;
    }
    Ok(sink)
}
