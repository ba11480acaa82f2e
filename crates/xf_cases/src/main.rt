//! Makes each call of the top call that the files of cases in its folder state, over files and sinks in memory, and
//! tells each case that ends otherwise.
#![tactic(auto)]

mod call;
mod case;
mod differences;
mod fault;
mod reader;
mod text;

use crate::call::differences;
use crate::case::Case;
use crate::reader::read_cases;
use anyhow::{Context, Result};
use std::fs;
use std::process::ExitCode;

/// The names of the files of cases in the folder, in order.
fn file_names(rt: &HostRuntime) -> Result<Vec<String>> {
    let mut names = Vec::new(rt.alloc());
    for entry in fs::read_dir(rt, ".")? {
        let entry = entry?;
        if entry.file_name().ends_with(".cases") {
            names.push(String::from_str(rt.alloc(), entry.file_name())?)?;
        }
    }
    names.sort()?;
    Ok(names)
}

/// The cases of a file.
fn cases_of(rt: &HostRuntime, name: &str) -> Result<Vec<Case>> {
    let text = fs::read_to_string(rt, name).context(format_args!("{name}"))?;
    read_cases(rt.alloc(), text.as_str()).context(format_args!("{name}"))
}

/// Tells which of the cases end otherwise than they state, and how many do.
fn tell_differing(rt: &HostRuntime, name: &str, cases: &[Case]) -> Result<usize> {
    let mut differing = 0usize;
    for case in cases {
        let found = differences(rt.alloc(), case)?;
        if !found.is_empty() {
            print!(rt; "{name}: {}\n{found}", case.name)?;
            differing = differing.saturating_add(1);
        }
    }
    Ok(differing)
}

/// Tells which cases differ and how many there are, and whether none differs.
fn run(rt: &HostRuntime) -> Result<bool> {
    let mut count = 0usize;
    let mut differing = 0usize;
    for name in &file_names(rt)? {
        let cases = cases_of(rt, name.as_str())?;
        let found = tell_differing(rt, name.as_str(), cases.as_slice())?;
        count = count.saturating_add(cases.len());
        differing = differing.saturating_add(found);
    }
    if differing == 0 {
        println!(rt; "{count} cases")?;
    } else {
        println!(rt; "{differing} of {count} cases differ")?;
    }
    Ok(differing == 0)
}

fn main(rt: HostRuntime) -> ExitCode {
    match run(&rt) {
        Ok(true) => ExitCode::from(0),
        Ok(false) => ExitCode::from(1),
        Err(error) => {
            let _told = eprintln!(rt; "xf_cases: {error:#}");
            ExitCode::from(2)
        }
    }
}
