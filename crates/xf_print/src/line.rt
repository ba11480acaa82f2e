//! Lines, each made in a buffer that is used again. They refuse for want of memory alone.
ghost use Rattle.std.specs.Prelude.{◌≡◌, ◌*◌, ◌++◌, OnOk, IfOk, false, replicate};
ghost use Rattle.xf_print.specs.Lines.{brace_text, closed, fed, header_text, op_row, opening, some_text};
ghost use Rattle.xf_print_base.specs.Index.{names_of};

use crate::row::{op_row, write_op_slots, write_opening};
use xf_format::{Body, Row, row_bodies, row_header};
use xf_ir::Op;
use xf_print_base::Index;
use xf_type::NoMemory;

/// Begins a line: two blanks for each level.
fn begin(margin: u64, line: &mut Vec<u8>) -> Result<(), NoMemory>
    ensures { OnOk result (line.new.items ≡ replicate (2 * margin) 32) }
{
    line.clear();
    for _ in 0..margin {
        line.extend_from_slice(b"  ")?;
    }
    Ok(())
}

/// Begins the line of an operation, up to its blocks.
pub fn make_opening(
    names: &Index<'_>,
    margin: u64,
    op: &Op,
    line: &mut Vec<u8>,
) -> Result<(), NoMemory>
    ensures { OnOk result (line.new.items
        ≡ replicate (2 * margin) 32 ++ opening (names_of names.now) op.now) }
{
    begin(margin, line)?;
    write_opening(names, op, line)
}

/// Begins the line that ends a block.
pub fn make_closing(margin: u64, line: &mut Vec<u8>) -> Result<(), NoMemory>
    ensures { OnOk result (line.new.items ≡ closed margin) }
{
    begin(margin, line)?;
    line.push(b'}')?;
    Ok(())
}

/// Appends what begins a block that is not the first.
fn write_other_brace(row: Row, line: &mut Vec<u8>) -> Result<(), NoMemory>
    ensures { OnOk result (line.new.items ≡ line.old.items ++ brace_text row false) }
{
    match row_bodies(row) {
        Body::None => line.extend_from_slice(b" {"),
        Body::One => line.extend_from_slice(b" else {"),
        Body::WithElse => line.extend_from_slice(b" else {"),
    }
}

/// Appends what begins a block, the first one or another.
pub fn write_brace(first: bool, op: &Op, line: &mut Vec<u8>) -> Result<(), NoMemory>
    ensures { OnOk result (line.new.items ≡ line.old.items ++ brace_text (op_row op.now.kind) first) }
{
    if first {
        line.extend_from_slice(b" {")
    } else {
        write_other_brace(op_row(op), line)
    }
}

/// Makes the line before the operations of a block, and answers whether there is one.
pub fn make_header(
    names: &Index<'_>,
    margin: u64,
    op: &Op,
    line: &mut Vec<u8>,
) -> Result<bool, NoMemory>
    ensures { IfOk result (λ some. some_text some line.new.items
        ≡ fed (header_text (names_of names.now) margin op.now)) }
{
    match row_header(op_row(op)) {
        [] => Ok(false),
        [_, rest @ ..] => {
            begin(margin, line)?;
            line.extend_from_slice(b"^bb0")?;
            write_op_slots(rest, names, op, line)?;
            line.push(b'\n')?;
            Ok(true)
        }
    }
}
