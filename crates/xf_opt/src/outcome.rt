//! How a call ends.
ghost use Rattle.std.specs.Prelude.{◌≡◌, ℕ, List};
ghost use Rattle.xf_span.specs.Fault.{plain_fault};
ghost use Rattle.xf_span.specs.Line.{line_of, HasLine};
ghost use Rattle.xf_opt.specs.Refusals.{row, row_of, status_of, path_of, fault_of};
ghost use Rattle.xf_opt.specs.Told.{TellsLine};

use crate::journal::Journal;
use xf_host::sink::{Sink, SinkFail};
use xf_span::{Code, Fault, write_fault};

/// How much of the line of a refusal was written.
#[derive(Clone, Copy, Debug, PartialEq, Eq)]
pub enum Told {
    Whole,
    Failed,
    NoMemory,
}

/// The end of a call.
#[derive(Drop)]
pub struct Outcome {
    /// 0: the text was written; 1: words; 2: a read failed; 3: a write failed; 4: the payload is
    /// refused; 5: the script is refused; 9: want of memory.
    pub status: u8,
    /// What ended the call; nothing exactly at 0.
    pub fault: Option<Fault>,
    pub told: Told,
    /// The choices of the run; empty where the words ask for no run, and where the call ended before
    /// it. At 9 of a run nothing is said of it.
    pub journal: Journal,
}

/// Why a call writes no text, or not all of it.
#[derive(Clone, Copy, Debug, PartialEq, Eq)]
pub enum Refusal {
    Words,
    ScriptRead,
    PayloadRead,
    /// The script is no schedule of the form that is supported.
    Script,
    /// The payload's file has this fault.
    Payload(Fault),
    Write,
    NoMemory,
}

/// The file whose path a line names.
#[derive(Clone, Copy, Debug)]
enum File {
    Neither,
    Script,
    Payload,
}

/// What a call that is refused tells.
#[derive(Clone, Copy, Debug)]
struct StatusRow {
    status: u8,
    fault: Fault,
    file: File,
}

/// The row of a refusal that has no more to it than its code.
fn plain_row(status: u8, code: Code, file: File) -> StatusRow
    ensures { result ≡ row status (plain_fault code) file }
{
    StatusRow {
        status,
        fault: Fault::plain(code),
        file,
    }
}

impl Refusal {
    /// The status of a call that ends so, its fault, and the file that the line names.
    fn row(self) -> StatusRow
        ensures { result ≡ row_of self }
    {
        match self {
            Refusal::Words => plain_row(1, Code::Words, File::Neither),
            Refusal::ScriptRead => plain_row(2, Code::ReadFailed, File::Script),
            Refusal::PayloadRead => plain_row(2, Code::ReadFailed, File::Payload),
            Refusal::Script => plain_row(5, Code::N1, File::Script),
            Refusal::Payload(fault) => StatusRow {
                status: 4,
                fault,
                file: File::Payload,
            },
            Refusal::Write => plain_row(3, Code::WriteFailed, File::Neither),
            Refusal::NoMemory => plain_row(9, Code::OutOfMemory, File::Neither),
        }
    }

    /// The status of a call that ends so.
    pub fn status(self) -> u8
        ensures { result ≡ status_of self }
    {
        self.row().status
    }

    /// The fault that ends the call.
    pub fn fault(self) -> Fault
        ensures { result ≡ fault_of self }
    {
        self.row().fault
    }

    /// The path that the line begins with; nothing where it names none.
    pub fn path<'w>(self, script: &'w str, payload: &'w str) -> &'w str
        ensures { result.now ≡ path_of self script.now payload.now }
    {
        match self.row().file {
            File::Neither => "",
            File::Script => script,
            File::Payload => payload,
        }
    }
}

/// Writes the line of a refusal, whose fault has what the line tells; the path is empty where the line names none.
pub fn tell<E: Sink>(err: &mut E, path: &str, refusal: Refusal) -> Told
    requires { HasLine (fault_of refusal) }
    ensures { TellsLine result (line_of path.now (fault_of refusal))
        (E.written err.old) (E.written err.new) (E.faults err.old) (E.faults err.new) }
{
    match write_fault(err, path, &refusal.fault()) {
        Ok(()) => Told::Whole,
        Err(SinkFail::Failed) => Told::Failed,
        Err(SinkFail::NoMemory) => Told::NoMemory,
    }
}
