//! The line that tells of a fault, written in pieces.
ghost use Rattle.std.specs.Prelude.{◌≡◌, ◌++◌, IsSome, codes, decimal};
ghost use Rattle.std.specs.List.{flat_map};
ghost use Rattle.xf_host.specs.Writes.{WritesText, FailsByCount};
ghost use Rattle.xf_span.specs.Code.{code_text};
ghost use Rattle.xf_span.specs.Line.{HasLine, line_of};
ghost use Rattle.xf_span.specs.Line.{head_text, named_text, last_text, with_place};

use crate::code::Code;
use crate::fault::Fault;
use crate::place::Place;
use crate::table::{LineForm, line_form, name_of, text_of};
use itoa::Buffer;
use xf_host::sink::{Sink, SinkFail};

/// Writes the line of a fault, its line feed included, in pieces and with no memory of its own.
/// `path` is the path of the file that the fault is about. It refuses only as the sink does, and
/// has then written a prefix of the line.
pub fn write_fault<S: Sink>(sink: &mut S, path: &str, fault: &Fault) -> Result<(), SinkFail>
    requires { HasLine fault.now }
    ensures text { WritesText result (line_of path.now fault.now)
        (S.written sink.old) (S.written sink.new) }
    ensures count { FailsByCount result (S.faults sink.old) (S.faults sink.new) }
{
    match line_form(fault.code) {
        LineForm::Usage => sink.write(b"transform_opt: words not understood\n"),
        LineForm::Read => write_pieces(sink, &[path.as_bytes(), b": read failed", b"\n"]),
        LineForm::Write => sink.write(b"out: write failed\n"),
        LineForm::Memory => sink.write(b"out of memory\n"),
        LineForm::Unplaced => write_named(sink, path, None, fault),
        LineForm::Placed => write_named(sink, path, fault.place, fault),
        LineForm::PlacedIfKnown => write_named(sink, path, fault.place, fault),
        LineForm::Unnamed => write_coded(sink, path, fault.place, fault, &[b"\n"]),
        LineForm::Numbered => write_numbered(sink, path, fault),
        LineForm::LastFault => write_last(sink, path, fault),
        LineForm::Consumed => write_consumed(sink, path, fault, ", consumed at "),
        LineForm::MayBeConsumed => write_consumed(sink, path, fault, ", may be consumed at "),
    }
}

/// Writes the line of a fault with nothing after its name.
fn write_named<S: Sink>(
    sink: &mut S,
    path: &str,
    place: Option<Place>,
    fault: &Fault,
) -> Result<(), SinkFail>
    ensures text { WritesText result
        (head_text path.now place ++ named_text fault.now.code ++ codes "\n")
        (S.written sink.old) (S.written sink.new) }
    ensures count { FailsByCount result (S.faults sink.old) (S.faults sink.new) }
{
    let name = name_of(&fault.code);
    write_coded(sink, path, place, fault, &[b" ", name.as_bytes(), b"\n"])
}

/// Writes the line of a fault with a number after its name.
fn write_numbered<S: Sink>(sink: &mut S, path: &str, fault: &Fault) -> Result<(), SinkFail>
    ensures text { WritesText result
        (head_text path.now fault.now.place ++ named_text fault.now.code
        ++ codes " " ++ decimal fault.now.number ++ codes "\n")
        (S.written sink.old) (S.written sink.new) }
    ensures count { FailsByCount result (S.faults sink.old) (S.faults sink.new) }
{
    let mut number = Buffer::new();
    write_coded(
        sink,
        path,
        fault.place,
        fault,
        &[
            b" ",
            name_of(&fault.code).as_bytes(),
            b" ",
            number.format(fault.number).as_bytes(),
            b"\n",
        ],
    )
}

/// Writes the line of a fault that tells of the fault of a last region.
fn write_last<S: Sink>(sink: &mut S, path: &str, fault: &Fault) -> Result<(), SinkFail>
    requires { IsSome fault.now.other }
    ensures text { WritesText result
        (head_text path.now fault.now.place ++ named_text fault.now.code
        ++ last_text fault.now.other ++ codes "\n")
        (S.written sink.old) (S.written sink.new) }
    ensures count { FailsByCount result (S.faults sink.old) (S.faults sink.new) }
{
    let Some((last, place)) = &fault.other else {
        unreachable!()
    };
    let mut line = Buffer::new();
    let mut col = Buffer::new();
    write_coded(
        sink,
        path,
        fault.place,
        fault,
        &[
            b" ",
            name_of(&fault.code).as_bytes(),
            b", last ",
            text_of(last).as_bytes(),
            b" at ",
            line.format(place.line).as_bytes(),
            b":",
            col.format(place.col).as_bytes(),
            b"\n",
        ],
    )
}

/// Writes the line of a fault that tells, after these words, where a handle is consumed.
fn write_consumed<S: Sink>(
    sink: &mut S,
    path: &str,
    fault: &Fault,
    words: &str,
) -> Result<(), SinkFail>
    requires { IsSome fault.now.other }
    ensures text { WritesText result
        (head_text path.now fault.now.place ++ named_text fault.now.code
        ++ with_place words.now fault.now.other ++ codes "\n")
        (S.written sink.old) (S.written sink.new) }
    ensures count { FailsByCount result (S.faults sink.old) (S.faults sink.new) }
{
    let Some((_, place)) = &fault.other else {
        unreachable!()
    };
    let mut line = Buffer::new();
    let mut col = Buffer::new();
    write_coded(
        sink,
        path,
        fault.place,
        fault,
        &[
            b" ",
            name_of(&fault.code).as_bytes(),
            words.as_bytes(),
            line.format(place.line).as_bytes(),
            b":",
            col.format(place.col).as_bytes(),
            b"\n",
        ],
    )
}

/// Writes the path, the place and the code of a fault, and the rest of its line.
fn write_coded<S: Sink>(
    sink: &mut S,
    path: &str,
    place: Option<Place>,
    fault: &Fault,
    rest: &[&[u8]],
) -> Result<(), SinkFail>
    ensures text { WritesText result
        (head_text path.now place ++ code_text fault.now.code ++ flat_map (λ p. p.now) rest.now)
        (S.written sink.old) (S.written sink.new) }
    ensures count { FailsByCount result (S.faults sink.old) (S.faults sink.new) }
{
    write_start(sink, path, place, &fault.code)?;
    write_pieces(sink, rest)
}

/// Writes the path, the place and the code of a fault.
fn write_start<S: Sink>(
    sink: &mut S,
    path: &str,
    place: Option<Place>,
    code: &Code,
) -> Result<(), SinkFail>
    ensures text { WritesText result (head_text path.now place ++ code_text code.now)
        (S.written sink.old) (S.written sink.new) }
    ensures count { FailsByCount result (S.faults sink.old) (S.faults sink.new) }
{
    let Some(place) = place else {
        return write_pieces(sink, &[path.as_bytes(), b": ", text_of(code).as_bytes()]);
    };
    let mut line = Buffer::new();
    let mut col = Buffer::new();
    write_pieces(
        sink,
        &[
            path.as_bytes(),
            b":",
            line.format(place.line).as_bytes(),
            b":",
            col.format(place.col).as_bytes(),
            b": ",
            text_of(code).as_bytes(),
        ],
    )
}

/// Writes pieces one after another.
fn write_pieces<S: Sink>(sink: &mut S, pieces: &[&[u8]]) -> Result<(), SinkFail>
    ensures text { WritesText result (flat_map (λ p. p.now) pieces.now)
        (S.written sink.old) (S.written sink.new) }
    ensures count { FailsByCount result (S.faults sink.old) (S.faults sink.new) }
{
    for piece in pieces {
        sink.write(piece)?;
    }
    Ok(())
}
