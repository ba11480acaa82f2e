//! The row of an operation, and what begins it, appended to the line so far. They refuse for want of memory alone.
ghost use Rattle.std.specs.Prelude.{◌≡◌, ◌++◌, OnOk};
ghost use Rattle.xf_print.specs.Lines.{count_text, head_text, op_row, opening, results_text, slots_text, tail_text};
ghost use Rattle.xf_print_base.specs.Index.{names_of};
ghost use Rattle.xf_printed.specs.PrintedForm.{word_of};

use crate::slot::write_slots;
use xf_format::{FormatElement, Row, row_slots, row_tail};
use xf_ir::{Kind, Op};
use xf_print_base::{Index, write_number};
use xf_type::{NoMemory, PayloadType};

/// The word of an operation: that of its kind, but a module has the short one.
fn word_of(kind: &Kind) -> &'static [u8]
    ensures { result.now ≡ word_of kind.now }
{
    match kind {
        Kind::Module { .. } => b"module",
        _ => kind.spelling(),
    }
}

/// The row that the word of an operation begins.
#[tactic(auto, unfolding(crate::specs::Lines::op_row))]
fn row_of(kind: &Kind) -> Row
    ensures { result ≡ op_row kind.now }
{
    match kind {
        Kind::Module { .. } => Row::Module,
        Kind::Func { .. } => Row::Function,
        Kind::Return => Row::Return,
        Kind::Call { .. } => Row::Call,
        Kind::Constant { .. } => Row::Constant,
        Kind::Dense { .. } => Row::Constant,
        Kind::Binary { kind, .. } => Row::Binary(*kind),
        Kind::Compare { .. } => Row::Compare,
        Kind::Select { .. } => Row::Select,
        Kind::Convert { kind, .. } => Row::Convert(*kind),
        Kind::For { .. } => Row::For,
        Kind::If => Row::If,
        Kind::Yield => Row::Yield,
        Kind::Empty => Row::Empty,
        Kind::Dim => Row::Dim,
        Kind::Extract => Row::Extract,
        Kind::Insert => Row::Insert,
        Kind::ExtractSlice { .. } => Row::ExtractSlice,
        Kind::InsertSlice { .. } => Row::InsertSlice,
        Kind::Cast => Row::Cast,
        Kind::Named { kind } => Row::Named(*kind),
        Kind::Generic { .. } => Row::Generic,
        Kind::LinalgYield => Row::LinalgYield,
    }
}

/// The row of an operation.
pub fn op_row(op: &Op) -> Row
    ensures { result ≡ op_row op.now.kind }
{
    row_of(&op.kind)
}

/// Appends how many results there are, where they are several.
fn write_count(results: &[PayloadType], line: &mut Vec<u8>) -> Result<(), NoMemory>
    ensures { OnOk result (line.new.items ≡ line.old.items ++ count_text results.now) }
{
    match results {
        [_] => Ok(()),
        _ => {
            line.push(b':')?;
            write_number(results.len() as u128, line)
        }
    }
}

/// Appends the number of an operation's results, how many they are where they are several, and `=`;
/// nothing for no results.
fn write_results(number: u64, results: &[PayloadType], line: &mut Vec<u8>) -> Result<(), NoMemory>
    ensures { OnOk result (line.new.items ≡ line.old.items ++ results_text number results.now) }
{
    if results.is_empty() {
        return Ok(());
    }
    line.push(b'%')?;
    write_number(u128::from(number), line)?;
    write_count(results, line)?;
    line.extend_from_slice(b" = ")?;
    Ok(())
}

/// Appends the name of an operation's results, and its word.
fn write_head(names: &Index<'_>, op: &Op, line: &mut Vec<u8>) -> Result<(), NoMemory>
    ensures { OnOk result (line.new.items ≡ line.old.items ++ head_text (names_of names.now) op.now) }
{
    write_results(names.number_of(op.name), op.results.as_slice(), line)?;
    line.extend_from_slice(word_of(&op.kind))
}

/// Appends what slots of an operation write.
pub fn write_op_slots(
    slots: &[FormatElement],
    names: &Index<'_>,
    op: &Op,
    line: &mut Vec<u8>,
) -> Result<(), NoMemory>
    ensures { OnOk result (line.new.items
        ≡ line.old.items ++ slots_text (names_of names.now) op.now slots.now) }
{
    write_slots(slots, names, names.first_of(op.name), op, line)
}

/// Appends an operation up to its blocks.
#[tactic(auto, unfolding(crate::specs::Lines::opening))]
pub fn write_opening(names: &Index<'_>, op: &Op, line: &mut Vec<u8>) -> Result<(), NoMemory>
    ensures { OnOk result (line.new.items ≡ line.old.items ++ opening (names_of names.now) op.now) }
{
    let slots = row_slots(op_row(op));
    write_head(names, op, line)?;
    write_op_slots(slots, names, op, line)
}

/// Appends what stands behind the blocks of an operation.
#[tactic(auto, unfolding(crate::specs::Lines::tail_text))]
pub fn write_tail(names: &Index<'_>, op: &Op, line: &mut Vec<u8>) -> Result<(), NoMemory>
    ensures { OnOk result (line.new.items ≡ line.old.items ++ tail_text (names_of names.now) op.now) }
{
    let slots = row_tail(op_row(op));
    write_op_slots(slots, names, op, line)
}
