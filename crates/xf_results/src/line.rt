//! Lines of results.
ghost use Rattle.std.specs.Prelude.{◌≡◌, ◌++◌, drop, IfOk, OnOk};
ghost use Rattle.xf_host.specs.Writes.{WritesText, FailsByCount};
ghost use Rattle.xf_results.specs.Results.{result_line, results_text, width_text};

use crate::constant::constant_of;
use std::alloc::Global;
use xf_host::sink::{Sink, SinkFail};
use xf_print::write_literal;
use xf_sem::Value;
use xf_type::{NoMemory, Width};

/// All but the first byte.
fn behind_first(bytes: &[u8]) -> &[u8]
    ensures { result.now ≡ drop 1 bytes.now }
{
    match bytes {
        [] => &[],
        [_, rest @ ..] => rest,
    }
}

/// Appends the width of a value whose constant is printed without one.
fn write_width(value: &Value, line: &mut Vec<u8>) -> Result<(), NoMemory>
    ensures { OnOk result (line.new.items ≡ line.old.items ++ width_text value.now) }
{
    match value {
        Value::Scalar {
            width: Width::I1,
            ..
        } => line.extend_from_slice(b" : i1"),
        _ => Ok(()),
    }
}

/// The line of a result, behind a blank. Refuses for want of memory alone.
fn line_of(alloc: Global, value: &Value) -> Result<Vec<u8>, NoMemory>
    ensures { IfOk result (λ line. drop 1 line.items ≡ result_line value.now) }
{
    let kind = constant_of(alloc, value)?;
    let mut line = Vec::new(alloc);
    write_literal(&kind, &mut line)?;
    write_width(value, &mut line)?;
    line.push(b'\n')?;
    Ok(line)
}

/// Writes the line of a result.
fn write_result<S: Sink>(alloc: Global, value: &Value, sink: &mut S) -> Result<(), SinkFail>
    ensures text { WritesText result (result_line value.now) (S.written sink.old) (S.written sink.new) }
    ensures count { FailsByCount result (S.faults sink.old) (S.faults sink.new) }
{
    let line = line_of(alloc, value)?;
    sink.write(behind_first(line.as_slice()))
}

/// Writes each value on a line, as its constant is printed, with its type; each line is one write. What is no number is
/// written as 0, so that `are_numbers` is asked before.
///
/// Takes time in the number of elements. Where the sink fails, or memory is refused, a prefix of the lines is written.
pub fn write_results<S: Sink>(alloc: Global, values: &[Value], sink: &mut S) -> Result<(), SinkFail>
    ensures text { WritesText result (results_text values.now) (S.written sink.old) (S.written sink.new) }
    ensures count { FailsByCount result (S.faults sink.old) (S.faults sink.new) }
{
    for value in values {
        write_result(alloc, value, sink)?;
    }
    Ok(())
}
