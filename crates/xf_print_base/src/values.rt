//! Operands, their types and lists of them, appended to the line so far. They refuse for want of memory alone.
ghost use Rattle.std.specs.Prelude.{◌≡◌, ◌+◌, suc, ◌++◌, OnOk, drop, option_and_then, slice_get};
ghost use Rattle.std.specs.Option.{option_copied};
ghost use Rattle.xf_format.specs.Rules.{language, operands_rule, pair_rule, param_rule, type_rule, use_rule};
ghost use Rattle.xf_grammar.specs.Grammar.{begun, gap_of, listed, written};
ghost use Rattle.xf_grammar.specs.Layout.{text};
ghost use Rattle.xf_print_base.specs.Index.{names_of};
ghost use Rattle.xf_printed.specs.Items.{operand_fill, operands_fill, pair_fill, pairs, param_fill, params, rule_text};
ghost use Rattle.xf_printed.specs.Items.{some_fill, value_fill, value_type_fill};
ghost use Rattle.xf_printed.specs.Names.{type_of};

use crate::index::{Index, write_argument};
use crate::types::write_type;
use crate::words::write_gap;
use xf_ir::ValueName;
use xf_type::{NoMemory, PayloadType};

/// The operands behind the first ones.
#[tactic(auto, using(crate::proofs::ListLemmas::drop_least))]
pub fn operands_behind(operands: &[ValueName], count: usize) -> &[ValueName]
    ensures { result.now ≡ drop count operands.now }
{
    operands.split_at(count.min(operands.len())).1
}

/// The operand with that number.
fn nth(operands: &[ValueName], at: usize) -> Option<&ValueName>
    ensures { option_copied result ≡ slice_get operands.now at }
{
    operands.get(at)
}

/// Appends the name of the operand with that number.
#[tactic(auto, using(crate::proofs::Texts::no_use_text))]
pub fn write_operand(
    gap: bool,
    names: &Index<'_>,
    operands: &[ValueName],
    at: usize,
    line: &mut Vec<u8>,
) -> Result<(), NoMemory>
    ensures { OnOk result (line.new.items ≡ line.old.items
        ++ rule_text (use_rule gap) (operand_fill (names_of names.now) (slice_get operands.now at))) }
{
    match nth(operands, at) {
        None => write_gap(gap, line),
        Some(value) => names.write_use(gap, *value, line),
    }
}

/// The type of the operand with that number.
pub fn operand_type<'a>(
    names: &Index<'a>,
    operands: &[ValueName],
    at: usize,
) -> Option<&'a PayloadType>
    ensures { option_copied result ≡ option_and_then (type_of (names_of names.now)) (slice_get operands.now at) }
{
    names.type_of(*nth(operands, at)?)
}

/// Appends values, with a comma between each two.
pub fn write_uses(
    gap: bool,
    names: &Index<'_>,
    values: &[ValueName],
    line: &mut Vec<u8>,
) -> Result<(), NoMemory>
    ensures { OnOk result (line.new.items ≡ line.old.items
        ++ rule_text (listed (use_rule gap)) (some_fill (value_fill (names_of names.now)) values.now)) }
{
    let [first, rest @ ..] = values else {
        return Ok(());
    };
    names.write_use(gap, *first, line)?;
    for value in rest {
        line.push(b',')?;
        names.write_use(true, *value, line)?;
    }
    Ok(())
}

/// Appends the types of values, with a comma between each two.
pub fn write_use_types(
    gap: bool,
    names: &Index<'_>,
    values: &[ValueName],
    line: &mut Vec<u8>,
) -> Result<(), NoMemory>
    ensures { OnOk result (line.new.items ≡ line.old.items
        ++ rule_text (listed (type_rule gap)) (some_fill (value_type_fill (names_of names.now)) values.now)) }
{
    let [first, rest @ ..] = values else {
        return Ok(());
    };
    names.write_type_of(gap, *first, line)?;
    for value in rest {
        line.push(b',')?;
        names.write_type_of(true, *value, line)?;
    }
    Ok(())
}

/// Appends values and their types, or nothing for no values.
#[tactic(auto, using(crate::proofs::Texts::some_operands))]
pub fn write_operands(
    names: &Index<'_>,
    values: &[ValueName],
    line: &mut Vec<u8>,
) -> Result<(), NoMemory>
    ensures { OnOk result (line.new.items
        ≡ line.old.items ++ rule_text operands_rule (operands_fill (names_of names.now) values.now)) }
{
    match values {
        [] => Ok(()),
        [_, ..] => {
            write_uses(true, names, values, line)?;
            line.extend_from_slice(b" :")?;
            write_use_types(true, names, values, line)?;
            Ok(())
        }
    }
}

fn write_param(
    gap: bool,
    number: u128,
    of: &PayloadType,
    line: &mut Vec<u8>,
) -> Result<(), NoMemory>
    ensures { OnOk result (line.new.items ≡ line.old.items ++ text (begun (gap_of gap)
        (written language param_rule (param_fill (record { number = number; of = of.now }))))) }
{
    write_argument(gap, number, line)?;
    line.push(b':')?;
    write_type(true, of, line)?;
    Ok(())
}

/// Appends arguments with their types, of which `first` is the first number.
pub fn write_params(first: u64, types: &[PayloadType], line: &mut Vec<u8>) -> Result<(), NoMemory>
    ensures { OnOk result (line.new.items
        ≡ line.old.items ++ rule_text (listed param_rule) (some_fill param_fill (params first types.now))) }
{
    let [of, rest @ ..] = types else {
        return Ok(());
    };
    let mut number = u128::from(first);
    write_param(false, number, of, line)?;
    for of in rest {
        number += 1;
        line.push(b',')?;
        write_param(true, number, of, line)?;
    }
    Ok(())
}

fn write_pair(
    gap: bool,
    names: &Index<'_>,
    number: u128,
    value: ValueName,
    line: &mut Vec<u8>,
) -> Result<(), NoMemory>
    ensures { OnOk result (line.new.items ≡ line.old.items ++ text (begun (gap_of gap) (written language pair_rule
        (pair_fill (names_of names.now) (record { number = number; first_value = value }))))) }
{
    write_argument(gap, number, line)?;
    line.extend_from_slice(b" =")?;
    names.write_use(true, value, line)?;
    Ok(())
}

/// Appends the arguments behind number `before`, each with the value that it begins with.
pub fn write_pairs(
    names: &Index<'_>,
    before: u64,
    values: &[ValueName],
    line: &mut Vec<u8>,
) -> Result<(), NoMemory>
    ensures { OnOk result (line.new.items ≡ line.old.items
        ++ rule_text (listed pair_rule) (some_fill (pair_fill (names_of names.now)) (pairs (suc before) values.now))) }
{
    let [value, rest @ ..] = values else {
        return Ok(());
    };
    let mut number = u128::from(before) + 1;
    write_pair(false, names, number, *value, line)?;
    for value in rest {
        number += 1;
        line.push(b',')?;
        write_pair(true, names, number, *value, line)?;
    }
    Ok(())
}
