//! Carries out a transform script on a payload module and writes the new module.
#![tactic(auto)]

use std::env;
use std::io::ErrorKind;
use std::process::ExitCode;
use xf_host::real::{RealFiles, RealSink};
use xf_opt::{Refusal, tell, transform_main};

/// Why the words after the program's name are not there.
#[derive(Debug, Drop)]
enum WordsFail {
    NotText,
    NoMemory,
}

/// The words after the program's name.
fn words(rt: &(impl std::rt::Env + AllocGlobal)) -> Result<Vec<String>, WordsFail> {
    let args = match env::args(rt) {
        Ok(args) => args,
        Err(e) if e.kind() == ErrorKind::OutOfMemory => return Err(WordsFail::NoMemory),
        Err(_) => return Err(WordsFail::NotText),
    };
    match args.skip(1).collect(rt.alloc()) {
        Ok(words) => Ok(words),
        Err(_) => Err(WordsFail::NoMemory),
    }
}

fn main(rt: HostRuntime) -> ExitCode {
    let mut err = RealSink::new(rt.stderr());
    let words = match words(&rt) {
        Ok(words) => words,
        Err(WordsFail::NotText) => {
            let _told = tell(&mut err, "", Refusal::Words);
            return ExitCode::from(1);
        }
        Err(WordsFail::NoMemory) => {
            let _told = tell(&mut err, "", Refusal::NoMemory);
            return ExitCode::from(9);
        }
    };
    let mut files = RealFiles::new(&rt, rt.alloc());
    let mut out = RealSink::new(rt.stdout());
    let outcome = transform_main(rt.alloc(), words.as_slice(), &mut files, &mut out, &mut err);
    ExitCode::from(outcome.status)
}
