//! The operands of a `linalg` operation, those that it reads and the one that it writes, appended to the line so far.
//! They refuse for want of memory alone.
ghost use Rattle.std.specs.Prelude.{◌≡◌, ◌-◌, ◌++◌, OnOk, length, slice_get, take};
ghost use Rattle.xf_format.specs.Rules.{ins_rule, outs_rule, some_ins_rule, typed_rule};
ghost use Rattle.xf_print_base.specs.Index.{names_of};
ghost use Rattle.xf_printed.specs.Items.{ins_fill, outs_fill, rule_text, typed_uses_fill};
ghost use Rattle.xf_printed.specs.Structured.{some_ins_fill};

use crate::index::Index;
use crate::types::write_some_type;
use crate::values::{operand_type, write_operand, write_use_types, write_uses};
use xf_ir::ValueName;
use xf_type::NoMemory;

/// The operands but for the last one, which is the out.
pub fn ins_of(operands: &[ValueName]) -> &[ValueName]
    ensures { result.now ≡ take (length operands.now - 1) operands.now }
{
    operands.split_at(operands.len().saturating_sub(1)).0
}

/// Appends values and their types, and the parenthesis behind them.
#[tactic(auto, using(crate::proofs::InsAndOuts::typed_text, std::proofs::lemmas::Grind::common_steps))]
fn write_typed_uses(
    names: &Index<'_>,
    values: &[ValueName],
    line: &mut Vec<u8>,
) -> Result<(), NoMemory>
    ensures { OnOk result (line.new.items
        ≡ line.old.items ++ rule_text typed_rule (typed_uses_fill (names_of names.now) values.now)) }
{
    write_uses(false, names, values, line)?;
    line.extend_from_slice(b" :")?;
    write_use_types(true, names, values, line)?;
    line.push(b')')?;
    Ok(())
}

/// Appends the values that an operation reads, with their types.
#[tactic(auto, using(crate::proofs::InsAndOuts::ins_text, std::proofs::lemmas::Grind::common_steps))]
pub fn write_ins(
    names: &Index<'_>,
    values: &[ValueName],
    line: &mut Vec<u8>,
) -> Result<(), NoMemory>
    ensures { OnOk result (line.new.items
        ≡ line.old.items ++ rule_text ins_rule (ins_fill (names_of names.now) values.now)) }
{
    line.extend_from_slice(b" ins(")?;
    write_typed_uses(names, values, line)
}

/// The same, or nothing for no values.
#[tactic(auto, using(crate::proofs::InsAndOuts::some_ins))]
pub fn write_some_ins(
    names: &Index<'_>,
    values: &[ValueName],
    line: &mut Vec<u8>,
) -> Result<(), NoMemory>
    ensures { OnOk result (line.new.items
        ≡ line.old.items ++ rule_text some_ins_rule (some_ins_fill (names_of names.now) values.now)) }
{
    match values {
        [] => Ok(()),
        [_, ..] => write_ins(names, values, line),
    }
}

/// Appends the last operand with its type, or blanks alone where there is none.
#[tactic(auto, using(crate::proofs::InsAndOuts::outs_text, std::proofs::lemmas::Grind::common_steps))]
pub fn write_outs(
    names: &Index<'_>,
    operands: &[ValueName],
    line: &mut Vec<u8>,
) -> Result<(), NoMemory>
    ensures { OnOk result (line.new.items ≡ line.old.items ++ rule_text outs_rule
        (outs_fill (names_of names.now) (slice_get operands.now (length operands.now - 1)))) }
{
    let last = operands.len().saturating_sub(1);
    line.extend_from_slice(b" outs(")?;
    write_operand(false, names, operands, last, line)?;
    line.extend_from_slice(b" :")?;
    write_some_type(true, operand_type(names, operands, last), line)?;
    line.push(b')')?;
    Ok(())
}
