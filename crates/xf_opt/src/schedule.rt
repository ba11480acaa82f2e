//! The command `run`: a schedule carried out on a payload, both as their bytes.
ghost use Rattle.std.specs.Prelude.{◌≡◌, ◌≤◌, ◌↔◌, ⊤, ℕ, List, [], length, true, false, IsTrue, IfOk, IfErr};
ghost use Rattle.xf_host.specs.Count.{HasRisen};
ghost use Rattle.xf_span.specs.Place.{first_place};
ghost use Rattle.xf_span.specs.declared.code.Code.TheVariants as code;
ghost use Rattle.xf_span.specs.Fault.{fault_at};
ghost use Rattle.xf_span.specs.Line.{HasLine};
ghost use Rattle.xf_span.specs.Limit.{file_limit};
ghost use Rattle.xf_payload.specs.Payload.{IsTellable};
ghost use Rattle.xf_opt.specs.Words.{run};
ghost use Rattle.xf_opt.specs.Stages.{EndsAt, EndsBefore};
ghost use Rattle.xf_opt.specs.Stages as stage;
ghost use Rattle.xf_opt.specs.Files.{IsScriptFile, IsRunnable, JudgesScript, JudgesPayload};
ghost use Rattle.xf_opt.specs.Owes.{Writes};
ghost use Rattle.xf_opt.specs.Refusals.{end_of, fault_in, fault_of, RefusesBy};

use crate::form::is_first_form;
use crate::journal::Journal;
use crate::outcome::Refusal;
use crate::run::erase_dead;
use std::alloc::Global;
use xf_host::sink::{Sink, SinkFail};
use xf_ir::Module;
use xf_payload::read_payload;
use xf_print::print;
use xf_span::{Code, FILE_LIMIT, FIRST_PLACE, Fault, TextFault};
use xf_text::is_script;
use xf_type::NoMemory;

/// Whether a file of these bytes is not too long.
fn fits(bytes: &[u8]) -> bool
    ensures { IsTrue result ↔ (length bytes.now ≤ file_limit) }
{
    bytes.len() <= FILE_LIMIT
}

/// Whether the bytes of a file, read up to one byte past the greatest length, are the schedule.
fn is_script_file(alloc: Global, bytes: &[u8]) -> Result<bool, NoMemory>
    ensures yes { IfOk result (λ answer. answer ≡ true → IsScriptFile bytes.now) }
    ensures no { IfOk result (λ answer. answer ≡ false → IsScriptFile bytes.now → ⊥) }
{
    if !fits(bytes) {
        return Ok(false);
    }
    is_script(alloc, bytes)
}

/// The fault of a valid payload that is not of the form that a run takes.
fn outside() -> Fault
    ensures { result ≡ fault_at code.N1 first_place }
{
    Fault::at(Code::N1, FIRST_PLACE)
}

/// The payload of a run: a valid module of the form that it takes.
#[tactic(auto, using(crate::proofs::Ending::refused_alike, crate::proofs::Ending::outside_refused))]
fn runnable(alloc: Global, bytes: &[u8]) -> Result<Module, TextFault>
    ensures ok { IfOk result (λ m. IsRunnable bytes.now m) }
    ensures refusal { IfErr result (RefusesBy (run [] []) bytes.now) }
    ensures line { IfErr result IsTellable }
{
    let module = match read_payload(alloc, bytes) {
        Ok(module) => module,
        Err(fault) => return Err(fault),
    };
    if is_first_form(&module) {
        Ok(module)
    } else {
        Err(TextFault::At(outside()))
    }
}

/// Carries out a script on a payload, both as their bytes, and writes the new module. It judges the
/// script before the payload.
pub fn carry_out<S: Sink>(
    alloc: Global,
    script: &[u8],
    payload: &[u8],
    out: &mut S,
    journal: &mut Journal,
) -> Result<(), Refusal>
    requires fresh { journal.old ≡ [] }
    ensures past_reads { EndsBefore stage.script (end_of result) → ⊥ }
    ensures script { JudgesScript (end_of result) (S.written out.old) (S.written out.new) script.now }
    ensures payload { (s p : List ℕ) → JudgesPayload (end_of result) (fault_in result)
        (S.written out.old) (S.written out.new) (run s p) payload.now }
    ensures write { EndsAt stage.write (end_of result) → HasRisen (S.faults out.old) (S.faults out.new) }
    ensures text { (s p : List ℕ) → Writes (end_of result) journal.new
        (S.written out.old) (S.written out.new) (run s p) payload.now }
    ensures untouched { EndsBefore stage.write (end_of result) → out.new ≡ out.old }
    ensures unrun { EndsBefore stage.run (end_of result) → journal.new ≡ [] }
    ensures line { IfErr result (λ r. HasLine (fault_of r)) }
{
    match is_script_file(alloc, script) {
        Ok(true) => {}
        Ok(false) => return Err(Refusal::Script),
        Err(_) => return Err(Refusal::NoMemory),
    }
    let mut module = match runnable(alloc, payload) {
        Ok(module) => module,
        Err(TextFault::At(fault)) => return Err(Refusal::Payload(fault)),
        Err(TextFault::NoMemory) => return Err(Refusal::NoMemory),
    };
    match erase_dead(alloc, &mut module, journal) {
        Ok(()) => {}
        Err(_) => return Err(Refusal::NoMemory),
    }
    match print(alloc, &module, out) {
        Ok(()) => Ok(()),
        Err(SinkFail::Failed) => Err(Refusal::Write),
        Err(SinkFail::NoMemory) => Err(Refusal::NoMemory),
    }
}
