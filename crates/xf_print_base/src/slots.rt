//! Single slots, filled and appended to the line so far. They refuse for want of memory alone.
ghost use Rattle.std.specs.Prelude.{◌≡◌, ◌++◌, OnOk, true, false, codes, slice_get};
ghost use Rattle.xf_format.specs.declared.expected.Expected.TheVariants as due;
ghost use Rattle.xf_format.specs.declared.list.Item.TheVariants as item;
ghost use Rattle.xf_format.specs.Rules.{argument_rule, block_name_rule, call_results_rule, enclosed_rule};
ghost use Rattle.xf_format.specs.Rules.{function_name_rule};
ghost use Rattle.xf_format.specs.Rules.{function_results_rule, if_results_rule, iter_args_rule, kind_rule};
ghost use Rattle.xf_format.specs.Rules.{listed_results_rule, literal_rule, loop_width_rule, module_name_rule};
ghost use Rattle.xf_format.specs.Rules.{predicate_rule, result_rule, result_tensor_rule, result_types_rule};
ghost use Rattle.xf_format.specs.Rules.{symbol_rule, until_rule, width_rule, word_rule};
ghost use Rattle.xf_format.specs.Words.{spelling};
ghost use Rattle.xf_grammar.specs.Tokens.{close_paren};
ghost use Rattle.xf_lex.specs.declared.token.TokenKind.TheVariants as token;
ghost use Rattle.xf_print_base.specs.Index.{names_of};
ghost use Rattle.xf_printed.specs.Fills.{function_name_fill, is_private, loop_width_fill, module_name_fill};
ghost use Rattle.xf_printed.specs.Fills.{predicate_or_none, scalar_fill, symbol_fill, symbol_or_none, symbol_printed};
ghost use Rattle.xf_printed.specs.Fills.{width_or_none, widths_of};
ghost use Rattle.xf_printed.specs.Items.{argument_fill, call_results_fill, function_results_fill, if_results_fill};
ghost use Rattle.xf_printed.specs.Items.{iter_args_fill, listed_results_fill, mark_fill, param_fill, params};
ghost use Rattle.xf_printed.specs.Items.{result_types_fill, rule_text, tensor_or_none, type_or_none};
ghost use Rattle.xf_printed.specs.Items.{token_fill, until_fill, value_fill, value_type_fill, word_fill};

use crate::index::{Index, write_argument};
use crate::kinds::{is_private, predicate_or_none, symbol_of, symbol_or_none, width_of};
use crate::number::write_literal;
use crate::types::{write_result, write_results, write_some_tensor, write_some_type};
use crate::values::{operands_behind, write_pairs, write_params, write_use_types, write_uses};
use crate::words::{write_gap, write_word};
use xf_format::Keyword;
use xf_ir::{Kind, ValueName};
use xf_type::{NoMemory, PayloadType, Width};

/// Appends a mark.
#[tactic(auto, unfolding(xf_format::specs::Rules::kind_rule))]
pub fn write_mark(gap: bool, mark: u8, line: &mut Vec<u8>) -> Result<(), NoMemory>
    ensures { OnOk result (line.new.items ≡ line.old.items
        ++ rule_text (kind_rule gap due.Other (token.Mark mark)) (mark_fill (token.Mark mark))) }
{
    write_gap(gap, line)?;
    line.push(mark)?;
    Ok(())
}

/// Appends an arrow.
#[tactic(auto, unfolding(xf_format::specs::Rules::kind_rule))]
pub fn write_arrow(line: &mut Vec<u8>) -> Result<(), NoMemory>
    ensures { OnOk result (line.new.items
        ≡ line.old.items ++ rule_text (kind_rule true due.Other token.Arrow) (mark_fill token.Arrow)) }
{
    line.extend_from_slice(b" ->")
}

/// Appends a word of a row.
#[tactic(auto, unfolding(xf_format::specs::Rules::word_rule))]
pub fn write_keyword(gap: bool, word: Keyword, line: &mut Vec<u8>) -> Result<(), NoMemory>
    ensures { OnOk result (line.new.items
        ≡ line.old.items ++ rule_text (word_rule gap (spelling word)) (word_fill (spelling word))) }
{
    write_word(gap, word.spelling(), line)
}

/// Appends the name of a block.
#[tactic(auto, unfolding(xf_format::specs::Rules::block_name_rule))]
pub fn write_block_name(line: &mut Vec<u8>) -> Result<(), NoMemory>
    ensures { OnOk result (line.new.items
        ≡ line.old.items ++ rule_text block_name_rule (token_fill token.BlockName (codes "^bb0"))) }
{
    line.extend_from_slice(b" ^bb0")
}

// ---- symbols

#[tactic(auto, unfolding(xf_format::specs::Rules::symbol_rule))]
fn write_bytes_symbol(symbol: &[u8], line: &mut Vec<u8>) -> Result<(), NoMemory>
    ensures { OnOk result (line.new.items ≡ line.old.items ++ rule_text symbol_rule (symbol_fill symbol.now)) }
{
    line.extend_from_slice(b" @")?;
    line.extend_from_slice(symbol)
}

/// Appends the symbol of a call.
pub fn write_symbol(kind: &Kind, line: &mut Vec<u8>) -> Result<(), NoMemory>
    ensures { OnOk result (line.new.items
        ≡ line.old.items ++ rule_text symbol_rule (symbol_fill (symbol_or_none kind.now))) }
{
    write_bytes_symbol(symbol_or_none(kind), line)
}

/// Appends the symbol of a module, or nothing where it has none.
#[tactic(auto, unfolding(xf_format::specs::Rules::module_name_rule, xf_format::specs::Rules::symbol_rule))]
pub fn write_module_name(kind: &Kind, line: &mut Vec<u8>) -> Result<(), NoMemory>
    ensures { OnOk result (line.new.items
        ≡ line.old.items ++ rule_text module_name_rule (module_name_fill (symbol_printed kind.now))) }
{
    match symbol_of(kind) {
        Some(symbol) => write_bytes_symbol(symbol, line),
        None => Ok(()),
    }
}

/// Appends the symbol of a function, behind `private` or not.
#[tactic(auto, unfolding(xf_format::specs::Rules::function_name_rule, xf_format::specs::Rules::symbol_rule))]
pub fn write_function_name(kind: &Kind, line: &mut Vec<u8>) -> Result<(), NoMemory>
    ensures { OnOk result (line.new.items ≡ line.old.items
        ++ rule_text function_name_rule (function_name_fill (is_private kind.now) (symbol_or_none kind.now))) }
{
    if is_private(kind) {
        line.extend_from_slice(b" private")?;
    }
    write_symbol(kind, line)
}

// ---- what kinds state

/// Appends the predicate of a comparison.
#[tactic(auto, unfolding(xf_format::specs::Rules::predicate_rule))]
pub fn write_predicate(kind: &Kind, line: &mut Vec<u8>) -> Result<(), NoMemory>
    ensures { OnOk result (line.new.items
        ≡ line.old.items ++ rule_text predicate_rule (word_fill (predicate_or_none kind.now))) }
{
    write_word(true, predicate_or_none(kind), line)
}

/// Appends the value of a constant scalar.
#[tactic(auto, using(crate::proofs::Texts::scalar_text))]
pub fn write_scalar(width: Width, bits: u128, line: &mut Vec<u8>) -> Result<(), NoMemory>
    ensures { OnOk result (line.new.items ≡ line.old.items ++ rule_text literal_rule (scalar_fill width bits)) }
{
    write_literal(width, bits, line)
}

/// Appends the width with that number.
#[tactic(auto, unfolding(xf_format::specs::Rules::width_rule))]
pub fn write_width(kind: &Kind, at: u8, line: &mut Vec<u8>) -> Result<(), NoMemory>
    ensures { OnOk result (line.new.items ≡ line.old.items
        ++ rule_text (width_rule true due.ArithWidth) (width_or_none (slice_get (widths_of kind.now) at))) }
{
    match width_of(kind, at) {
        Some(width) => write_word(true, width.spelling(), line),
        None => write_gap(true, line),
    }
}

/// Appends the width of a loop, or nothing for `index`.
#[tactic(auto, unfolding(xf_format::specs::Rules::loop_width_rule, xf_format::specs::Rules::width_rule))]
pub fn write_loop_width(kind: &Kind, line: &mut Vec<u8>) -> Result<(), NoMemory>
    ensures { OnOk result (line.new.items
        ≡ line.old.items ++ rule_text loop_width_rule (loop_width_fill (slice_get (widths_of kind.now) 0))) }
{
    match width_of(kind, 0) {
        None | Some(Width::Index) => Ok(()),
        Some(width) => {
            line.extend_from_slice(b" :")?;
            write_word(true, width.spelling(), line)
        }
    }
}

// ---- operands and types in parentheses

/// Appends the name of the argument with that number.
#[tactic(auto, unfolding(xf_format::specs::Rules::argument_rule))]
pub fn write_first(first: u64, line: &mut Vec<u8>) -> Result<(), NoMemory>
    ensures { OnOk result (line.new.items ≡ line.old.items ++ rule_text (argument_rule true) (argument_fill first)) }
{
    write_argument(true, u128::from(first), line)
}

/// Appends values up to a mark.
#[tactic(auto, using(crate::proofs::Texts::until_text, std::proofs::lemmas::Grind::common_steps))]
pub fn write_uses_until(
    mark: u8,
    names: &Index<'_>,
    values: &[ValueName],
    line: &mut Vec<u8>,
) -> Result<(), NoMemory>
    ensures { OnOk result (line.new.items
        ≡ line.old.items ++ rule_text (until_rule (token.Mark mark) due.Other (item.Use false))
        (until_fill (token.Mark mark) (value_fill (names_of names.now)) values.now)) }
{
    write_uses(false, names, values, line)?;
    line.push(mark)?;
    Ok(())
}

/// Appends the types of values up to a parenthesis.
#[tactic(auto, using(crate::proofs::Texts::until_text, std::proofs::lemmas::Grind::common_steps))]
pub fn write_enclosed_types(
    names: &Index<'_>,
    values: &[ValueName],
    line: &mut Vec<u8>,
) -> Result<(), NoMemory>
    ensures { OnOk result (line.new.items ≡ line.old.items ++ rule_text (enclosed_rule (item.Type false) due.Other)
        (until_fill close_paren (value_type_fill (names_of names.now)) values.now)) }
{
    write_use_types(false, names, values, line)?;
    line.push(b')')?;
    Ok(())
}

/// Appends arguments with their types up to a parenthesis.
#[tactic(auto, using(crate::proofs::Texts::until_text, std::proofs::lemmas::Grind::common_steps))]
pub fn write_enclosed_params(
    first: u64,
    types: &[PayloadType],
    line: &mut Vec<u8>,
) -> Result<(), NoMemory>
    ensures { OnOk result (line.new.items ≡ line.old.items ++ rule_text (enclosed_rule item.Param due.AfterArgument)
        (until_fill close_paren param_fill (params first types.now))) }
{
    write_params(first, types, line)?;
    line.push(b')')?;
    Ok(())
}

/// The same of a block.
#[tactic(auto, using(crate::proofs::Texts::until_text, std::proofs::lemmas::Grind::common_steps))]
pub fn write_block_params(
    first: u64,
    types: &[PayloadType],
    line: &mut Vec<u8>,
) -> Result<(), NoMemory>
    ensures { OnOk result (line.new.items ≡ line.old.items ++ rule_text (enclosed_rule item.Param due.Other)
        (until_fill close_paren param_fill (params first types.now))) }
{
    write_params(first, types, line)?;
    line.push(b')')?;
    Ok(())
}

// ---- results

/// Appends the type of the first result behind a blank, or the blank alone where there is none.
#[tactic(auto, using(crate::proofs::Texts::same_some_result))]
pub fn write_result_type(types: &[PayloadType], line: &mut Vec<u8>) -> Result<(), NoMemory>
    ensures { OnOk result (line.new.items
        ≡ line.old.items ++ rule_text (result_rule true) (type_or_none (slice_get types.now 0))) }
{
    write_some_type(true, types.first(), line)
}

/// Appends the type of the first result, a tensor type, behind a blank, or the blank alone for another type and for
/// none.
#[tactic(auto, using(crate::proofs::Texts::same_result_tensor))]
pub fn write_result_tensor(types: &[PayloadType], line: &mut Vec<u8>) -> Result<(), NoMemory>
    ensures { OnOk result (line.new.items
        ≡ line.old.items ++ rule_text (result_tensor_rule true) (tensor_or_none (slice_get types.now 0))) }
{
    write_some_tensor(types.first(), line)
}

/// Appends types in parentheses.
#[tactic(auto, using(crate::proofs::Results::listed_text, std::proofs::lemmas::Grind::common_steps))]
pub fn write_listed_results(types: &[PayloadType], line: &mut Vec<u8>) -> Result<(), NoMemory>
    ensures { OnOk result (line.new.items
        ≡ line.old.items ++ rule_text listed_results_rule (listed_results_fill types.now)) }
{
    line.extend_from_slice(b" (")?;
    write_results(false, types, line)?;
    line.push(b')')?;
    Ok(())
}

/// Appends types behind an arrow: one without parentheses, none and several with.
fn write_result_types(types: &[PayloadType], line: &mut Vec<u8>) -> Result<(), NoMemory>
    ensures { OnOk result (line.new.items
        ≡ line.old.items ++ rule_text (result_types_rule due.Other) (result_types_fill types.now)) }
{
    match types {
        [] => write_listed_results(types, line),
        [of] => write_result(true, of, line),
        [_, _, ..] => write_listed_results(types, line),
    }
}

/// Appends an arrow and the types of results.
#[tactic(auto, using(crate::proofs::Results::call_results_text, std::proofs::lemmas::Grind::common_steps))]
pub fn write_call_results(types: &[PayloadType], line: &mut Vec<u8>) -> Result<(), NoMemory>
    ensures { OnOk result (line.new.items
        ≡ line.old.items ++ rule_text call_results_rule (call_results_fill types.now)) }
{
    line.extend_from_slice(b" ->")?;
    write_result_types(types, line)?;
    Ok(())
}

/// Appends an arrow and the types that a function returns, or nothing for none.
#[tactic(auto, using(crate::proofs::Results::function_results))]
pub fn write_function_results(types: &[PayloadType], line: &mut Vec<u8>) -> Result<(), NoMemory>
    ensures { OnOk result (line.new.items
        ≡ line.old.items ++ rule_text function_results_rule (function_results_fill types.now)) }
{
    match types {
        [] => Ok(()),
        [_, ..] => write_call_results(types, line),
    }
}

/// Appends an arrow and types in parentheses.
fn write_arrow_listed(types: &[PayloadType], line: &mut Vec<u8>) -> Result<(), NoMemory>
    ensures { OnOk result (line.new.items
        ≡ line.old.items ++ (codes " ->" ++ rule_text listed_results_rule (listed_results_fill types.now))) }
{
    line.extend_from_slice(b" ->")?;
    write_listed_results(types, line)
}

/// Appends an arrow and the types of an if, or nothing for none.
#[tactic(auto, using(crate::proofs::Results::if_results))]
pub fn write_if_results(types: &[PayloadType], line: &mut Vec<u8>) -> Result<(), NoMemory>
    ensures { OnOk result (line.new.items
        ≡ line.old.items ++ rule_text if_results_rule (if_results_fill types.now)) }
{
    match types {
        [] => Ok(()),
        [_, ..] => write_arrow_listed(types, line),
    }
}

/// Appends what a loop with results carries: its arguments behind the first, their first values and their types;
/// or nothing for no results.
#[tactic(auto, using(crate::proofs::Results::iter_args))]
pub fn write_iter_args(
    names: &Index<'_>,
    first: u64,
    operands: &[ValueName],
    results: &[PayloadType],
    line: &mut Vec<u8>,
) -> Result<(), NoMemory>
    ensures { OnOk result (line.new.items ≡ line.old.items
        ++ rule_text iter_args_rule (iter_args_fill (names_of names.now) first operands.now results.now)) }
{
    match results {
        [] => Ok(()),
        [_, ..] => {
            line.extend_from_slice(b" iter_args(")?;
            write_pairs(names, first, operands_behind(operands, 3), line)?;
            line.push(b')')?;
            write_arrow_listed(results, line)?;
            Ok(())
        }
    }
}
