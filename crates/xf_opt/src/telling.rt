//! The commands `verify` and `print`: a payload judged, as its bytes, and what is told of it.
ghost use Rattle.std.specs.Prelude.{◌≡◌, [], ℕ, List, IfErr};
ghost use Rattle.xf_host.specs.Count.{HasRisen};
ghost use Rattle.xf_span.specs.Line.{HasLine};
ghost use Rattle.xf_opt.specs.Words.{verify, print};
ghost use Rattle.xf_opt.specs.Stages.{EndsAt, EndsBefore};
ghost use Rattle.xf_opt.specs.Stages as stage;
ghost use Rattle.xf_opt.specs.Files.{JudgesPayload};
ghost use Rattle.xf_opt.specs.Owes.{Writes};
ghost use Rattle.xf_opt.specs.Refusals.{end_of, fault_in, fault_of, file_of, HasFile};

use crate::outcome::Refusal;
use std::alloc::Global;
use xf_host::sink::{Sink, SinkFail};
use xf_payload::read_payload;
use xf_print::print;
use xf_span::TextFault;

/// Judges a payload, and writes `ok` where it is valid.
pub fn verify_payload<S: Sink>(alloc: Global, bytes: &[u8], out: &mut S) -> Result<(), Refusal>
    ensures past_reads { EndsBefore stage.script (end_of result) → ⊥ }
    ensures file { (p : List ℕ) → IfErr result (λ r. HasFile (file_of r) (verify p)) }
    ensures payload { (p : List ℕ) → JudgesPayload (end_of result) (fault_in result)
        (S.written out.old) (S.written out.new) (verify p) bytes.now }
    ensures write { EndsAt stage.write (end_of result) → HasRisen (S.faults out.old) (S.faults out.new) }
    ensures text { (p : List ℕ) → Writes (end_of result) []
        (S.written out.old) (S.written out.new) (verify p) bytes.now }
    ensures untouched { EndsBefore stage.write (end_of result) → out.new ≡ out.old }
    ensures line { IfErr result (λ r. HasLine (fault_of r)) }
{
    let _module = match read_payload(alloc, bytes) {
        Ok(module) => module,
        Err(TextFault::At(fault)) => return Err(Refusal::Payload(fault)),
        Err(TextFault::NoMemory) => return Err(Refusal::NoMemory),
    };
    match out.write(b"ok\n") {
        Ok(()) => Ok(()),
        Err(SinkFail::Failed) => Err(Refusal::Write),
        Err(SinkFail::NoMemory) => Err(Refusal::NoMemory),
    }
}

/// Writes a payload in the printed form, where it is valid.
pub fn print_payload<S: Sink>(alloc: Global, bytes: &[u8], out: &mut S) -> Result<(), Refusal>
    ensures past_reads { EndsBefore stage.script (end_of result) → ⊥ }
    ensures file { (p : List ℕ) → IfErr result (λ r. HasFile (file_of r) (print p)) }
    ensures payload { (p : List ℕ) → JudgesPayload (end_of result) (fault_in result)
        (S.written out.old) (S.written out.new) (print p) bytes.now }
    ensures write { EndsAt stage.write (end_of result) → HasRisen (S.faults out.old) (S.faults out.new) }
    ensures text { (p : List ℕ) → Writes (end_of result) []
        (S.written out.old) (S.written out.new) (print p) bytes.now }
    ensures untouched { EndsBefore stage.write (end_of result) → out.new ≡ out.old }
    ensures line { IfErr result (λ r. HasLine (fault_of r)) }
{
    let module = match read_payload(alloc, bytes) {
        Ok(module) => module,
        Err(TextFault::At(fault)) => return Err(Refusal::Payload(fault)),
        Err(TextFault::NoMemory) => return Err(Refusal::NoMemory),
    };
    match print(alloc, &module, out) {
        Ok(()) => Ok(()),
        Err(SinkFail::Failed) => Err(Refusal::Write),
        Err(SinkFail::NoMemory) => Err(Refusal::NoMemory),
    }
}
