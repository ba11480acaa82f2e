//! The faults that are answered.
ghost use Rattle.std.specs.Prelude.{◌≡◌};
ghost use Rattle.xf_read.specs.Spells.{unread, first_fault};

use crate::faults::Faults;
use crate::walk::place_of;
use xf_format::Stopped;
use xf_lex::Token;
use xf_read_base::due_fault;
use xf_span::{Code, Fault, ReadFault};

/// Why a text is not answered whose syntax is not read.
pub fn unread(tokens: &[Token], fault: Stopped) -> ReadFault
    ensures { result ≡ unread tokens.now fault }
{
    match fault {
        Stopped::NoMemory => ReadFault::NoMemory,
        Stopped::At(at, due) => ReadFault::At(due_fault(tokens, at, due)),
    }
}

/// The fault of the first check of names and types that finds one.
pub fn first_fault(tokens: &[Token], faults: Faults) -> Option<Fault>
    ensures { result ≡ first_fault tokens.now faults }
{
    if let Some(at) = faults.undefined {
        return Some(Fault::at(Code::A2, place_of(tokens, at)));
    }
    if let Some(at) = faults.twice {
        return Some(Fault::at(Code::A3, place_of(tokens, at)));
    }
    match faults.mismatch {
        Some(at) => Some(Fault::at(Code::A4, place_of(tokens, at))),
        None => None,
    }
}
