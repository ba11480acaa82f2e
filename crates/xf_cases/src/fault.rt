//! Why a file of cases is refused.

use std::alloc::{AllocError, AllocFailed};
use thiserror::Error;

/// What is wrong with a line.
#[derive(Clone, Copy, Debug, PartialEq, Eq, Error)]
pub enum Cause {
    #[error("no heading begins so")]
    Heading,
    #[error("a text is \"..\", N times \"..\" or lines")]
    NoText,
    #[error("a number is missing")]
    NoNumber,
    #[error("a word is missing")]
    NoWord,
    #[error("the case has no file of this path")]
    NoFile,
    #[error("no text stands before it")]
    NothingBefore,
    #[error("no escape is spelt so")]
    BadEscape,
    #[error("lines end with --")]
    OpenLines,
    #[error("out of memory")]
    NoMemory,
}

impl From<AllocError> for Cause {
    fn from(_refused: AllocError) -> Cause {
        Cause::NoMemory
    }
}

impl<T: Drop> From<AllocFailed<T>> for Cause {
    fn from(_refused: AllocFailed<T>) -> Cause {
        Cause::NoMemory
    }
}

/// A line of a file of cases that cannot be read.
#[derive(Clone, Copy, Debug, Error)]
#[error("line {line}: {cause}")]
pub struct Malformed {
    pub line: u64,
    pub cause: Cause,
}
