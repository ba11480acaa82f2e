//! The valid module that a file's bytes spell.
ghost use Rattle.std.specs.Prelude.{◌≡◌, ◌≤◌, ◌↔◌, length, IfOk, IfErr, IsTrue, Some};
ghost use Rattle.xf_ir.specs.Valid.{IsValid};
ghost use Rattle.xf_ir.specs.Violations.{first_violation};
ghost use Rattle.xf_span.specs.Limit.{file_limit};
ghost use Rattle.xf_payload.specs.Payload.{rule_code, rule_fault, place_or_first, IsPayload, IsRefused, IsTellable};
ghost use Rattle.xf_payload.specs.Payload.{IsJudged};

use std::alloc::Global;
use xf_ir::{Module, OpName, Rule};
use xf_read::{PlaceOfList, ReadModule, read_module};
use xf_span::{Code, FILE_LIMIT, FIRST_PLACE, Fault, TextFault};
use xf_verify::{VerifyFault, verify};

/// The code of a rule.
fn rule_code(rule: Rule) -> Code
    ensures { result ≡ rule_code rule }
{
    match rule {
        Rule::Names => Code::V1,
        Rule::Functions => Code::V2,
        Rule::Regions => Code::V3,
        Rule::Blocks => Code::V4,
        Rule::Uses => Code::V5,
        Rule::Types => Code::V6,
        Rule::Attributes => Code::V7,
        Rule::Callees => Code::V8,
        Rule::Chains => Code::V9,
        Rule::Maps => Code::V10,
        Rule::Iterators => Code::V11,
        Rule::Reductions => Code::V12,
        Rule::Extents => Code::V13,
        Rule::Bodies => Code::V14,
        Rule::Ranges => Code::V15,
        Rule::Slices => Code::V16,
    }
}

/// The fault of an operation that breaks a rule.
fn rule_fault(places: &PlaceOfList, rule: Rule, op: OpName) -> Fault
    ensures { result ≡ rule_fault places.now (record { rule = rule; op = op }) }
{
    let place = match places.get(op.0 as usize) {
        Some(place) => *place,
        None => FIRST_PLACE,
    };
    Fault::at(rule_code(rule), place)
}

/// Judges a module that was read by the rules.
#[tactic(auto, using(crate::proofs::Refused::verdict_told))]
fn judge(alloc: Global, read: &ReadModule) -> Result<(), TextFault>
    ensures valid { IfOk result (λ _. IsValid read.now.module) }
    ensures fault { IfErr result (IsJudged read.now.module read.now.places) }
{
    match verify(alloc, &read.module) {
        Ok(()) => Ok(()),
        Err(VerifyFault::NoMemory) => Err(TextFault::NoMemory),
        Err(VerifyFault::Rule { rule, op }) => {
            let rule = Rule::numbered(rule);
            Err(TextFault::At(rule_fault(&read.places, rule, op)))
        }
    }
}

/// The valid module of bytes that are not too long.
#[tactic(auto, using(crate::proofs::Refused::unread_refused, crate::proofs::Refused::judged_refused))]
fn module_of(alloc: Global, bytes: &[u8]) -> Result<Module, TextFault>
    requires { length bytes.now ≤ file_limit }
    ensures ok { IfOk result (λ m. IsPayload bytes.now m) }
    ensures fault { IfErr result (IsRefused bytes.now) }
{
    let read = match read_module(alloc, bytes) {
        Ok(read) => read,
        Err(fault) => return Err(fault),
    };
    if let Err(fault) = judge(alloc, &read) {
        return Err(fault);
    }
    let ReadModule {
        module,
        places: _places,
    } = read;
    Ok(module)
}

/// The valid module that a file's bytes spell.
///
/// It refuses a file of more than 8,388,608 bytes, whatever they are; else a file that spells no
/// module, with its first fault; else one whose module breaks a rule, with the first operation that
/// breaks one. The bytes may be those of the file's front, with at least one byte past the greatest
/// length where the file has one. It takes time in the length of the text and the logarithm of the
/// number of names.
#[tactic(auto, using(crate::proofs::Lines::refused_line))]
pub fn read_payload(alloc: Global, bytes: &[u8]) -> Result<Module, TextFault>
    ensures ok { IfOk result (λ m. IsPayload bytes.now m) }
    ensures fault { IfErr result (IsRefused bytes.now) }
    ensures line { IfErr result IsTellable }
{
    if bytes.len() > FILE_LIMIT {
        return Err(TextFault::At(Fault::at(Code::A8, FIRST_PLACE)));
    }
    match module_of(alloc, bytes) {
        Ok(module) => Ok(module),
        Err(fault) => Err(fault),
    }
}
