//! Faults, and what a call that reads a text answers.
ghost use Rattle.std.specs.Prelude.{◌≡◌};

use crate::code::Code;
use crate::place::Place;
use std::alloc::{AllocError, AllocFailed};
use thiserror::Error;

/// A fault, and what its line tells.
#[derive(Clone, Copy, Debug, PartialEq, Eq)]
pub struct Fault {
    pub code: Code,
    /// Where the fault stands, if that is known.
    pub place: Option<Place>,
    /// Which form of MLIR is not supported, of [`Code::A6`]; else 0.
    pub number: u32,
    /// The fault of the last region, of [`Code::S18`]; the fault's own code with the place where
    /// the handle is consumed, of [`Code::F3`] and [`Code::U1`].
    pub other: Option<(Code, Place)>,
}

impl Fault {
    ghost use Rattle.xf_span.specs.Fault.{plain_fault, fault_at, numbered_fault, related_fault};
    ghost use Rattle.xf_span.specs.declared.code.Code.TheVariants.{A6, S18, F3, U1};

    /// A fault without a place.
    pub fn plain(code: Code) -> Fault
        ensures { result ≡ plain_fault code }
    {
        Fault {
            code,
            place: None,
            number: 0,
            other: None,
        }
    }

    /// A fault at a place.
    pub fn at(code: Code, place: Place) -> Fault
        ensures { result ≡ fault_at code place }
    {
        Fault {
            place: Some(place),
            ..Fault::plain(code)
        }
    }

    /// A form of MLIR that is not supported, by its number.
    pub fn out_of_profile(place: Place, number: u32) -> Fault
        ensures { result ≡ numbered_fault A6 place number }
    {
        Fault {
            number,
            ..Fault::at(Code::A6, place)
        }
    }

    /// Alternatives whose regions all failed, the last with this code at this place.
    pub fn all_alternatives(place: Place, last: Code, last_place: Place) -> Fault
        ensures { result ≡ related_fault S18 place last last_place }
    {
        Fault {
            other: Some((last, last_place)),
            ..Fault::at(Code::S18, place)
        }
    }

    /// A use of a handle that was consumed before.
    pub fn invalid_handle(place: Place, consumed: Place) -> Fault
        ensures { result ≡ related_fault F3 place F3 consumed }
    {
        Fault {
            other: Some((Code::F3, consumed)),
            ..Fault::at(Code::F3, place)
        }
    }

    /// A use of a handle that may be consumed before.
    pub fn may_use(place: Place, consumed: Place) -> Fault
        ensures { result ≡ related_fault U1 place U1 consumed }
    {
        Fault {
            other: Some((Code::U1, consumed)),
            ..Fault::at(Code::U1, place)
        }
    }
}

/// Why a text is refused.
#[derive(Clone, Copy, Debug, PartialEq, Eq, Error)]
pub enum TextFault {
    /// The text has this fault.
    #[error("the text has a fault")]
    At(Fault),
    /// Memory was refused.
    #[error("out of memory")]
    NoMemory,
}

/// Why the bytes of a text are not taken apart.
pub type LexFault = TextFault;

/// Why a payload is not read.
pub type ReadFault = TextFault;

/// Why a script is not read.
pub type ScriptFault = TextFault;

impl From<Fault> for TextFault {
    ghost use Rattle.xf_span.specs.declared.fault.TextFault.TheVariants.{At};

    ghost from_gives = { λ fault e. e ≡ At fault };

    fn from(fault: Fault) -> TextFault {
        TextFault::At(fault)
    }
}

impl From<AllocError> for TextFault {
    ghost use Rattle.xf_span.specs.declared.fault.TextFault.TheVariants.{NoMemory};

    ghost from_gives = { λ _ e. e ≡ NoMemory };

    fn from(_refused: AllocError) -> TextFault {
        TextFault::NoMemory
    }
}

/// What a collection could not take is dropped.
impl<T: Drop> From<AllocFailed<T>> for TextFault {
    ghost use Rattle.xf_span.specs.declared.fault.TextFault.TheVariants.{NoMemory};

    ghost from_gives = { λ _ e. e ≡ NoMemory };

    fn from(_refused: AllocFailed<T>) -> TextFault {
        TextFault::NoMemory
    }
}
