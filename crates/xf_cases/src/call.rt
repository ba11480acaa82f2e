//! The calls of a case.

use crate::case::{Case, Cut, End, sink};
use crate::differences::add_differences;
use std::alloc::{AllocError, Global};
use xf_host::memory::{MemFiles, MemSink};
use xf_opt::{Entry, Journal, Told, transform_main};

/// How a call ended, and what it wrote.
#[derive(Drop)]
pub struct Ended {
    pub status: u8,
    pub out: MemSink,
    pub err: MemSink,
    pub told: &'static str,
    pub journal: String,
}

fn told(told: Told) -> &'static str {
    match told {
        Told::Whole => "whole",
        Told::Failed => "failed",
        Told::NoMemory => "memory",
    }
}

fn add_entry(text: &mut String, entry: &Entry) -> Result<(), AllocError> {
    match entry {
        Entry::Choose { kind, op } => write!(text, "choose {kind} of {}", op.0),
        Entry::EndScope => text.push_str("end of scope"),
    }
}

/// The entries of a journal, with commas between them.
fn entries(alloc: Global, journal: &Journal) -> Result<String, AllocError> {
    let mut text = String::new(alloc);
    for entry in journal.entries() {
        if !text.is_empty() {
            text.push_str(", ")?;
        }
        add_entry(&mut text, entry)?;
    }
    Ok(text)
}

/// Calls the program over these files.
fn call(alloc: Global, case: &Case, mut files: MemFiles) -> Result<Ended, AllocError> {
    let mut out = sink(alloc, case.failing_out.as_slice())?;
    let mut err = sink(alloc, case.failing_err.as_slice())?;
    let outcome = transform_main(alloc, case.words.as_slice(), &mut files, &mut out, &mut err);
    Ok(Ended {
        status: outcome.status,
        out,
        err,
        told: told(outcome.told),
        journal: entries(alloc, &outcome.journal)?,
    })
}

/// Calls the program where a file holds other bytes.
fn call_with(alloc: Global, case: &Case, path: &str, bytes: &[u8]) -> Result<Ended, AllocError> {
    let mut files = case.files(alloc)?;
    files.add(path, bytes)?;
    call(alloc, case, files)
}

/// Adds what differs in calls with each of the first bytes of a file.
fn add_cut_differences(
    alloc: Global,
    case: &Case,
    cut: &Cut,
    into: &mut String,
) -> Result<(), AllocError> {
    let bytes = case.bytes_of(cut.path.as_str()).unwrap_or(&[]);
    for end in cut.from..=cut.to {
        let prefix = bytes.get(..end).unwrap_or(bytes);
        let ended = call_with(alloc, case, cut.path.as_str(), prefix)?;
        let mut found = String::new(alloc);
        add_differences(&mut found, &ended, &case.end)?;
        if !found.is_empty() {
            write!(
                into,
                "  with the first {end} bytes of {}\n{found}",
                cut.path
            )?;
        }
    }
    Ok(())
}

/// The end of a second call, over what the first one wrote: the same, and no choice is left.
fn second_end(alloc: Global, end: &End) -> Result<End, AllocError> {
    let mut second = end.clone()?;
    let last = match end.journal.as_str().rsplit_once(", ") {
        Some((_, last)) => last,
        None => end.journal.as_str(),
    };
    second.journal = String::from_str(alloc, last)?;
    Ok(second)
}

/// Adds what differs in a call, and in a second one where the case has one.
fn add_call_differences(alloc: Global, case: &Case, into: &mut String) -> Result<(), AllocError> {
    let ended = call(alloc, case, case.files(alloc)?)?;
    add_differences(into, &ended, &case.end)?;
    let Some(path) = &case.again else {
        return Ok(());
    };
    let second = call_with(alloc, case, path.as_str(), ended.out.bytes())?;
    let mut found = String::new(alloc);
    add_differences(&mut found, &second, &second_end(alloc, &case.end)?)?;
    if !found.is_empty() {
        write!(into, "  over what was written\n{found}")?;
    }
    Ok(())
}

/// What differs between the ends of a case's calls and the end that it states; nothing where they agree.
pub fn differences(alloc: Global, case: &Case) -> Result<String, AllocError> {
    let mut text = String::new(alloc);
    match &case.cut {
        Some(cut) => add_cut_differences(alloc, case, cut, &mut text)?,
        None => add_call_differences(alloc, case, &mut text)?,
    }
    Ok(text)
}
