//! The top call.
ghost use Rattle.std.specs.Prelude.{◌≡◌, ◌≢◌, ◌≤◌, ◌↔◌, ◌+◌, ℕ, List, [], Some, None, IsNone, IfOk, IfErr, IfSome};
ghost use Rattle.std.specs.Prelude.{IsErrOf, take};
ghost use Rattle.xf_host.specs.Count.{HasRisen};
ghost use Rattle.xf_span.specs.Line.{HasLine};
ghost use Rattle.xf_span.specs.Limit.{file_limit};
ghost use Rattle.xf_opt.specs.Words.{texts, run, verify, print, command_of};
ghost use Rattle.xf_opt.specs.Paths.{RunsNoScript, OnScript, OnPayload, HasReadFault, OthersStay};
ghost use Rattle.xf_opt.specs.Stages.{EndsAt, EndsBefore};
ghost use Rattle.xf_opt.specs.Stages as stage;
ghost use Rattle.xf_opt.specs.Statuses.{IsStatus, ending, FaultIs};
ghost use Rattle.xf_opt.specs.Files.{JudgesScript, JudgesPayload};
ghost use Rattle.xf_opt.specs.Owes.{Writes};
ghost use Rattle.xf_opt.specs.Refusals.{asked_by, end_of, stage_of, fault_in, fault_of, file_of, HasFile, HasRisenOf};
ghost use Rattle.xf_opt.specs.Told.{TellsEnd};

use crate::journal::Journal;
use crate::outcome::{Outcome, Refusal, Told, tell};
use crate::schedule::carry_out;
use crate::telling::{print_payload, verify_payload};
use crate::words::{Command, parse};
use std::alloc::Global;
use xf_host::files::{FileFail, Files};
use xf_host::sink::Sink;
use xf_span::FILE_LIMIT;

/// Reads a file, and at most one byte past the greatest length.
fn read_file<F: Files>(alloc: Global, files: &mut F, path: &str) -> Result<Vec<u8>, FileFail>
    ensures told { (q : List ℕ) → F.holds files.new q ≡ F.holds files.old q }
    ensures bytes { IfOk result (λ bytes. IfSome (F.holds files.old path.now)
        (λ file. bytes.items ≡ take (file_limit + 1) file)) }
    ensures cause { IsErrOf result FileFail.Failed
        → HasRisen (F.faults files.old path.now) (F.faults files.new path.now) }
    ensures grows { F.faults files.old path.now ≤ F.faults files.new path.now }
    ensures others { (q : List ℕ) → q ≢ path.now → F.faults files.new q ≡ F.faults files.old q }
{
    let mut bytes = Vec::new(alloc);
    match files.read(path, FILE_LIMIT + 1, &mut bytes) {
        Ok(()) => Ok(bytes),
        Err(fail) => Err(fail),
    }
}

/// Reads the script and the payload, and carries the one out on the other.
fn run<F: Files, S: Sink>(
    alloc: Global,
    script: &str,
    payload: &str,
    files: &mut F,
    out: &mut S,
    journal: &mut Journal,
) -> Result<(), Refusal>
    requires fresh { journal.old ≡ [] }
    ensures holds { (q : List ℕ) → F.holds files.new q ≡ F.holds files.old q }
    ensures others { OthersStay (Some (run script.now payload.now)) (F.faults files.old) (F.faults files.new) }
    ensures past_words { EndsBefore stage.reads (end_of result) → ⊥ }
    ensures file { IfErr result (λ r. HasFile (file_of r) (run script.now payload.now)) }
    ensures reads { IfErr result (λ r. EndsAt stage.reads (stage_of r)
        → HasRisenOf (file_of r) (run script.now payload.now) (F.faults files.old) (F.faults files.new)) }
    ensures script { IfSome (F.holds files.old script.now) (JudgesScript (end_of result)
        (S.written out.old) (S.written out.new)) }
    ensures payload { IfSome (F.holds files.old payload.now) (JudgesPayload (end_of result) (fault_in result)
        (S.written out.old) (S.written out.new) (run script.now payload.now)) }
    ensures text { IfSome (F.holds files.old payload.now) (Writes (end_of result) journal.new
        (S.written out.old) (S.written out.new) (run script.now payload.now)) }
    ensures write { EndsAt stage.write (end_of result) → HasRisen (S.faults out.old) (S.faults out.new) }
    ensures untouched { EndsBefore stage.write (end_of result) → out.new ≡ out.old }
    ensures line { IfErr result (λ r. HasLine (fault_of r)) }
    ensures unrun { EndsBefore stage.run (end_of result) → journal.new ≡ [] }
{
    let script = match read_file(alloc, files, script) {
        Ok(bytes) => bytes,
        Err(FileFail::Failed) => return Err(Refusal::ScriptRead),
        Err(FileFail::NoMemory) => return Err(Refusal::NoMemory),
    };
    let payload = match read_file(alloc, files, payload) {
        Ok(bytes) => bytes,
        Err(FileFail::Failed) => return Err(Refusal::PayloadRead),
        Err(FileFail::NoMemory) => return Err(Refusal::NoMemory),
    };
    carry_out(alloc, script.as_slice(), payload.as_slice(), out, journal)
}

/// Reads the payload, and judges it.
fn verify<F: Files, S: Sink>(
    alloc: Global,
    payload: &str,
    files: &mut F,
    out: &mut S,
) -> Result<(), Refusal>
    ensures holds { (q : List ℕ) → F.holds files.new q ≡ F.holds files.old q }
    ensures others { OthersStay (Some (verify payload.now)) (F.faults files.old) (F.faults files.new) }
    ensures past_words { EndsBefore stage.reads (end_of result) → ⊥ }
    ensures file { IfErr result (λ r. HasFile (file_of r) (verify payload.now)) }
    ensures reads { IfErr result (λ r. EndsAt stage.reads (stage_of r)
        → HasRisenOf (file_of r) (verify payload.now) (F.faults files.old) (F.faults files.new)) }
    ensures payload { IfSome (F.holds files.old payload.now) (JudgesPayload (end_of result) (fault_in result)
        (S.written out.old) (S.written out.new) (verify payload.now)) }
    ensures text { IfSome (F.holds files.old payload.now) (Writes (end_of result) []
        (S.written out.old) (S.written out.new) (verify payload.now)) }
    ensures write { EndsAt stage.write (end_of result) → HasRisen (S.faults out.old) (S.faults out.new) }
    ensures untouched { EndsBefore stage.write (end_of result) → out.new ≡ out.old }
    ensures line { IfErr result (λ r. HasLine (fault_of r)) }
{
    let bytes = match read_file(alloc, files, payload) {
        Ok(bytes) => bytes,
        Err(FileFail::Failed) => return Err(Refusal::PayloadRead),
        Err(FileFail::NoMemory) => return Err(Refusal::NoMemory),
    };
    verify_payload(alloc, bytes.as_slice(), out)
}

/// Reads the payload, and writes it in the printed form.
fn print<F: Files, S: Sink>(
    alloc: Global,
    payload: &str,
    files: &mut F,
    out: &mut S,
) -> Result<(), Refusal>
    ensures holds { (q : List ℕ) → F.holds files.new q ≡ F.holds files.old q }
    ensures others { OthersStay (Some (print payload.now)) (F.faults files.old) (F.faults files.new) }
    ensures past_words { EndsBefore stage.reads (end_of result) → ⊥ }
    ensures file { IfErr result (λ r. HasFile (file_of r) (print payload.now)) }
    ensures reads { IfErr result (λ r. EndsAt stage.reads (stage_of r)
        → HasRisenOf (file_of r) (print payload.now) (F.faults files.old) (F.faults files.new)) }
    ensures payload { IfSome (F.holds files.old payload.now) (JudgesPayload (end_of result) (fault_in result)
        (S.written out.old) (S.written out.new) (print payload.now)) }
    ensures text { IfSome (F.holds files.old payload.now) (Writes (end_of result) []
        (S.written out.old) (S.written out.new) (print payload.now)) }
    ensures write { EndsAt stage.write (end_of result) → HasRisen (S.faults out.old) (S.faults out.new) }
    ensures untouched { EndsBefore stage.write (end_of result) → out.new ≡ out.old }
    ensures line { IfErr result (λ r. HasLine (fault_of r)) }
{
    let bytes = match read_file(alloc, files, payload) {
        Ok(bytes) => bytes,
        Err(FileFail::Failed) => return Err(Refusal::PayloadRead),
        Err(FileFail::NoMemory) => return Err(Refusal::NoMemory),
    };
    print_payload(alloc, bytes.as_slice(), out)
}

/// Reads the files of a command, and carries it out.
fn execute<F: Files, S: Sink>(
    alloc: Global,
    command: Command,
    files: &mut F,
    out: &mut S,
    journal: &mut Journal,
) -> Result<(), Refusal>
    requires fresh { journal.old ≡ [] }
    ensures holds { (q : List ℕ) → F.holds files.new q ≡ F.holds files.old q }
    ensures others { OthersStay (Some (asked_by command.entry)) (F.faults files.old) (F.faults files.new) }
    ensures past_words { EndsBefore stage.reads (end_of result) → ⊥ }
    ensures file { IfErr result (λ r. HasFile (file_of r) (asked_by command.entry)) }
    ensures reads { IfErr result (λ r. EndsAt stage.reads (stage_of r)
        → HasRisenOf (file_of r) (asked_by command.entry) (F.faults files.old) (F.faults files.new)) }
    ensures script { OnScript (Some (asked_by command.entry)) (F.holds files.old)
        (JudgesScript (end_of result) (S.written out.old) (S.written out.new)) }
    ensures payload { OnPayload (Some (asked_by command.entry)) (F.holds files.old)
        (JudgesPayload (end_of result) (fault_in result) (S.written out.old) (S.written out.new)) }
    ensures text { OnPayload (Some (asked_by command.entry)) (F.holds files.old)
        (Writes (end_of result) journal.new (S.written out.old) (S.written out.new)) }
    ensures write { EndsAt stage.write (end_of result) → HasRisen (S.faults out.old) (S.faults out.new) }
    ensures untouched { EndsBefore stage.write (end_of result) → out.new ≡ out.old }
    ensures line { IfErr result (λ r. HasLine (fault_of r)) }
    ensures unrun { EndsBefore stage.run (end_of result) → journal.new ≡ [] }
    ensures journal { RunsNoScript (Some (asked_by command.entry)) → journal.new ≡ [] }
{
    match command {
        Command::Run { script, payload } => run(alloc, script, payload, files, out, journal),
        Command::Verify { payload } => verify(alloc, payload, files, out),
        Command::Print { payload } => print(alloc, payload, files, out),
    }
}

/// Carries out what the words after the program's name ask for.
///
/// - `run --script S --payload P` reads both files, erases the dead code of the payload as the script
///   says, and writes the new module.
/// - `verify --payload P` judges the payload by the rules of valid modules, and writes `ok`.
/// - `print --payload P` writes the payload in the printed form.
///
/// Takes time in the length of the files, and for each operation that is erased a walk over the
/// module.
#[tactic(auto, using(crate::proofs::Statuses::words_told))]
pub fn transform_main<F: Files, S: Sink, E: Sink>(
    alloc: Global,
    words: &[String],
    files: &mut F,
    out: &mut S,
    err: &mut E,
) -> Outcome
    // When each status comes: past a stage its condition held, and a call that ended there has the cause.
    ensures known { IsStatus result.status }
    ensures words { EndsAt stage.words (ending result.status) ↔ IsNone (command_of (texts words.now)) }
    ensures reads { EndsAt stage.reads (ending result.status)
        → HasReadFault (command_of (texts words.now)) (F.faults files.old) (F.faults files.new) }
    ensures script { OnScript (command_of (texts words.now)) (F.holds files.old)
        (JudgesScript (ending result.status) (S.written out.old) (S.written out.new)) }
    ensures payload { OnPayload (command_of (texts words.now)) (F.holds files.old)
        (JudgesPayload (ending result.status) result.fault (S.written out.old) (S.written out.new)) }
    ensures write { EndsAt stage.write (ending result.status) → HasRisen (S.faults out.old) (S.faults out.new) }

    // What was written.
    ensures text { OnPayload (command_of (texts words.now)) (F.holds files.old)
        (Writes (ending result.status) result.journal (S.written out.old) (S.written out.new)) }
    ensures untouched { EndsBefore stage.write (ending result.status) → out.new ≡ out.old }
    ensures unrun { EndsBefore stage.run (ending result.status) → result.journal ≡ [] }
    ensures journal { RunsNoScript (command_of (texts words.now)) → result.journal ≡ [] }

    // What was read.
    ensures holds { (path : List ℕ) → F.holds files.new path ≡ F.holds files.old path }
    ensures others { OthersStay (command_of (texts words.now)) (F.faults files.old) (F.faults files.new) }
    ensures unread { EndsAt stage.words (ending result.status) → files.new ≡ files.old }

    // What was told.
    ensures fault { FaultIs result.status result.fault }
    ensures quiet { result.status ≡ 0 → err.new ≡ err.old }
    ensures told { TellsEnd (command_of (texts words.now)) (F.faults files.old) (F.faults files.new) result.status
        result.fault result.told (E.written err.old) (E.written err.new) (E.faults err.old) (E.faults err.new) }
{
    let mut journal = Journal::new(alloc);
    let Some(command) = parse(words) else {
        let told = tell(err, "", Refusal::Words);
        return Outcome {
            status: 1,
            fault: Some(Refusal::Words.fault()),
            told,
            journal,
        };
    };
    match execute(alloc, command, files, out, &mut journal) {
        Ok(()) => Outcome {
            status: 0,
            fault: None,
            told: Told::Whole,
            journal,
        },
        Err(refusal) => {
            let path = refusal.path(command.script(), command.payload());
            let told = tell(err, path, refusal);
            Outcome {
                status: refusal.status(),
                fault: Some(refusal.fault()),
                told,
                journal,
            }
        }
    }
}
