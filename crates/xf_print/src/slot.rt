//! The slots of a row, filled by an operation and appended to the line so far. They refuse for want of memory alone.
ghost use Rattle.std.specs.Prelude.{◌≡◌, ◌++◌, OnOk};
ghost use Rattle.xf_format.specs.Rules.{literal_rule, slot_rule, slots_rule};
ghost use Rattle.xf_print_base.specs.Index.{names_of};
ghost use Rattle.xf_printed.specs.Fills.{literal_fill, rule_text, slot_fill, slots_fill};

use crate::dense::write_dense;
use xf_format::{FormatElement, Side};
use xf_ir::{Kind, Op, first_args, returned_types};
use xf_print_base::{
    Index, ins_of, operand_type, operands_behind, write_arrow, write_attributes, write_block_name,
    write_block_params, write_call_results, write_dictionary, write_enclosed_params,
    write_enclosed_types, write_first, write_function_name, write_function_results,
    write_if_results, write_ins, write_iter_args, write_iterators, write_keyword, write_loop_width,
    write_maps, write_mark, write_marked, write_module_name, write_offsets, write_operand,
    write_operands, write_outs, write_predicate, write_result_tensor, write_result_type,
    write_scalar, write_sizes, write_some_ins, write_some_scalar, write_some_tensor,
    write_some_type, write_strides, write_symbol, write_uses_until, write_width,
};
use xf_type::NoMemory;

/// Appends the value of a constant behind a blank, or nothing for another kind. Takes time in the number of its
/// elements.
pub fn write_literal(kind: &Kind, line: &mut Vec<u8>) -> Result<(), NoMemory>
    ensures { OnOk result (line.new.items ≡ line.old.items ++ rule_text literal_rule (literal_fill kind.now)) }
{
    match kind {
        Kind::Constant { width, bits } => write_scalar(*width, *bits, line),
        Kind::Dense { shape, numbers } => write_dense(shape, numbers.as_slice(), line),
        _ => Ok(()),
    }
}

/// Appends what a slot writes; `first` is the first number of the arguments of the operation's block.
pub fn write_slot(
    slot: FormatElement,
    names: &Index<'_>,
    first: u64,
    op: &Op,
    line: &mut Vec<u8>,
) -> Result<(), NoMemory>
    ensures { OnOk result (line.new.items ≡ line.old.items
        ++ rule_text (slot_rule slot) (slot_fill (names_of names.now) first op.now slot)) }
{
    let kind = &op.kind;
    let attrs = op.attrs.as_slice();
    let operands = op.operands.as_slice();
    let results = op.results.as_slice();
    match slot {
        FormatElement::Mark(gap, mark) => write_mark(gap, mark, line),
        FormatElement::Word(gap, word) => write_keyword(gap, word, line),
        FormatElement::ModuleName => write_module_name(kind, line),
        FormatElement::FunctionName => write_function_name(kind, line),
        FormatElement::Symbol => write_symbol(kind, line),
        FormatElement::Attributes => write_attributes(attrs, line),
        FormatElement::Dictionary => write_dictionary(attrs, line),
        FormatElement::Literal => write_literal(kind, line),
        FormatElement::Predicate => write_predicate(kind, line),
        FormatElement::Argument => write_first(first, line),
        FormatElement::Use(at) => write_operand(true, names, operands, usize::from(at), line),
        FormatElement::Width(at) => write_width(kind, at, line),
        FormatElement::Uses(from, mark) => {
            let behind = operands_behind(operands, usize::from(from));
            write_uses_until(mark, names, behind, line)
        }
        FormatElement::TypeOf(at) => {
            write_some_type(true, operand_type(names, operands, usize::from(at)), line)
        }
        FormatElement::TensorOf(at) => {
            write_some_tensor(operand_type(names, operands, usize::from(at)), line)
        }
        FormatElement::WidthOf(at) => {
            write_some_scalar(operand_type(names, operands, usize::from(at)), line)
        }
        FormatElement::ResultType => write_result_type(results, line),
        FormatElement::ResultTensor => write_result_tensor(results, line),
        FormatElement::Arrow => write_arrow(line),
        FormatElement::Ins => write_ins(names, ins_of(operands), line),
        FormatElement::SomeIns => write_some_ins(names, ins_of(operands), line),
        FormatElement::Outs => write_outs(names, operands, line),
        FormatElement::Types => write_enclosed_types(names, operands, line),
        FormatElement::Params => {
            write_enclosed_params(first, first_args(op.regions.as_slice()), line)
        }
        FormatElement::BlockParams => {
            write_block_params(first, first_args(op.regions.as_slice()), line)
        }
        FormatElement::Operands => write_operands(names, operands, line),
        FormatElement::CallResults => write_call_results(results, line),
        FormatElement::FunctionResults => write_function_results(returned_types(kind), line),
        FormatElement::IfResults => write_if_results(results, line),
        FormatElement::IterArgs => write_iter_args(names, first, operands, results, line),
        FormatElement::LoopWidth => write_loop_width(kind, line),
        FormatElement::BlockName => write_block_name(line),
        FormatElement::Places(Side::Offsets) => write_offsets(kind, names, operands, line),
        FormatElement::Places(Side::Sizes) => write_sizes(kind, names, operands, line),
        FormatElement::Strides => write_strides(kind, line),
        FormatElement::Maps => write_maps(kind, line),
        FormatElement::Iterators => write_iterators(kind, line),
        FormatElement::MarkedAttributes => write_marked(attrs, line),
    }
}

/// Appends what slots write, one behind the other.
pub fn write_slots(
    slots: &[FormatElement],
    names: &Index<'_>,
    first: u64,
    op: &Op,
    line: &mut Vec<u8>,
) -> Result<(), NoMemory>
    ensures { OnOk result (line.new.items ≡ line.old.items
        ++ rule_text (slots_rule slots.now) (slots_fill (names_of names.now) first op.now slots.now)) }
{
    for slot in slots {
        write_slot(*slot, names, first, op, line)?;
    }
    Ok(())
}
