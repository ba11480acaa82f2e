//! The slots of a row.
ghost use Rattle.std.specs.Prelude.{◌≡◌, ◌≤◌, length, Bool, IfOk, OnOk};
ghost use Rattle.xf_type.specs.declared.payload_type.PayloadType.TheVariants.{Scalar};
ghost use Rattle.xf_type.specs.declared.payload_type.Width.TheVariants as width;
ghost use Rattle.xf_format.specs.declared.parts.Literal.TheVariants as literal;
ghost use Rattle.xf_format.specs.Actions.{free};
ghost use Rattle.xf_format.specs.Parts.{with_type, with_literal};
ghost use Rattle.xf_format.specs.Reading.{Gives};
ghost use Rattle.xf_format.specs.Rules.{by, attributes_rule, call_results_rule, dictionary_rule, enclosed_rule};
ghost use Rattle.xf_format.specs.Rules.{function_results_rule, if_results_rule, iter_args_rule, listed_results_rule};
ghost use Rattle.xf_format.specs.Rules.{literal_rule, loop_width_rule, number_rule, operands_rule, result_types_rule};
ghost use Rattle.xf_format.specs.Rules.{slot_rule, slots_rule, typed_rule, ins_rule, some_ins_rule, outs_rule};
ghost use Rattle.xf_format.specs.Rules.{until_rule, marked_rule};
ghost use Rattle.xf_format.specs.declared.expected.Expected.TheVariants as due;
ghost use Rattle.xf_dense.specs.Nests.{close_bracket};

use crate::elements::dense_at;
use crate::expected::{Expected, Stopped};
use crate::list::{Item, list_at, list_until};
use crate::maps::maps_at;
use crate::parts::{Literal, MOST_ENTRIES, Parts};
use crate::row::FormatElement;
use crate::single::{
    argument_at, block_name_at, expects, function_name_at, module_name_at, predicate_at, result_at,
    result_tensor_at, symbol_at, tensor_at, type_at, use_at, width_at, word_is,
};
use std::alloc::Global;
use xf_grammar::{looks, says};
use xf_lex::{Token, TokenKind};
use xf_type::{NoMemory, PayloadType, Width};

/// An integer with its width.
#[tactic(auto, unfolding(crate::specs::Rules::number_rule))]
fn number_is(
    tokens: &[Token],
    negative: bool,
    due: Expected,
    parts: &mut Parts,
    at: usize,
) -> Result<usize, Stopped>
    ensures gives { (gap : Bool) → Gives (λ n. (free parts.new, n))
        result (by (number_rule gap negative due) tokens.now parts.old at) }
    ensures within { IfOk result (λ n. (at ≤ n) × (n ≤ length tokens.now)) }
{
    if !looks(tokens, at, TokenKind::Integer) {
        return Err(Stopped::At(at, due));
    }
    parts.literal = Some(Literal::Integer {
        negative,
        token: at,
    });
    let at = expects(
        tokens,
        TokenKind::Mark(b':'),
        Expected::Other,
        parts,
        at + 1,
    )?;
    width_at(tokens, Expected::Width, parts, at)
}

/// Sets the literal to a truth value, with its width.
fn add_truth(parts: &mut Parts, truth: bool) -> Result<(), NoMemory>
    ensures { OnOk result (parts.new ≡ with_type (Scalar width.I1) (with_literal (literal.Truth truth) parts.old)) }
{
    parts.literal = Some(Literal::Truth(truth));
    parts.types.push(PayloadType::Scalar(Width::I1))?;
    Ok(())
}

/// The value of a constant.
#[tactic(auto, unfolding(crate::specs::Rules::literal_rule))]
fn literal_at(
    alloc: Global,
    tokens: &[Token],
    parts: &mut Parts,
    at: usize,
) -> Result<usize, Stopped>
    ensures gives { Gives (λ n. (free parts.new, n)) result (by literal_rule tokens.now parts.old at) }
    ensures within { IfOk result (λ n. (at ≤ n) × (n ≤ length tokens.now)) }
{
    if says(tokens, at, b"true") {
        if parts.types.len() >= MOST_ENTRIES {
            return Err(Stopped::At(at, Expected::ListEnd));
        }
        add_truth(parts, true)?;
        return Ok(at + 1);
    }
    if says(tokens, at, b"false") {
        if parts.types.len() >= MOST_ENTRIES {
            return Err(Stopped::At(at, Expected::ListEnd));
        }
        add_truth(parts, false)?;
        return Ok(at + 1);
    }
    if says(tokens, at, b"dense") {
        return dense_at(alloc, tokens, parts, at + 1);
    }
    if looks(tokens, at, TokenKind::Mark(b'-')) {
        return number_is(tokens, true, Expected::Other, parts, at + 1);
    }
    number_is(tokens, false, Expected::ConstantValue, parts, at)
}

/// Discardable attributes, which may be left out.
#[tactic(auto, unfolding(crate::specs::Rules::dictionary_rule))]
pub fn dictionary_at(
    alloc: Global,
    tokens: &[Token],
    parts: &mut Parts,
    at: usize,
) -> Result<usize, Stopped>
    requires { at ≤ length tokens.now }
    ensures gives { Gives (λ n. (free parts.new, n)) result (by dictionary_rule tokens.now parts.old at) }
    ensures within { IfOk result (λ n. (at ≤ n) × (n ≤ length tokens.now)) }
{
    if looks(tokens, at, TokenKind::Mark(b'{')) {
        list_until(
            alloc,
            tokens,
            Item::Entry,
            TokenKind::Mark(b'}'),
            Expected::Other,
            parts,
            at + 1,
        )
    } else {
        Ok(at)
    }
}

/// `attributes` and discardable attributes, which may be left out.
#[tactic(auto, unfolding(crate::specs::Rules::attributes_rule))]
fn attributes_at(
    alloc: Global,
    tokens: &[Token],
    parts: &mut Parts,
    at: usize,
) -> Result<usize, Stopped>
    requires { at ≤ length tokens.now }
    ensures gives { Gives (λ n. (free parts.new, n)) result (by attributes_rule tokens.now parts.old at) }
    ensures within { IfOk result (λ n. (at ≤ n) × (n ≤ length tokens.now)) }
{
    if !says(tokens, at, b"attributes") {
        return Ok(at);
    }
    let at = expects(
        tokens,
        TokenKind::Mark(b'{'),
        Expected::Other,
        parts,
        at + 1,
    )?;
    list_until(
        alloc,
        tokens,
        Item::Entry,
        TokenKind::Mark(b'}'),
        Expected::Other,
        parts,
        at,
    )
}

/// `attrs =` and discardable attributes, which may be left out.
#[tactic(auto, unfolding(crate::specs::Rules::marked_rule))]
fn marked_at(
    alloc: Global,
    tokens: &[Token],
    parts: &mut Parts,
    at: usize,
) -> Result<usize, Stopped>
    requires { at ≤ length tokens.now }
    ensures gives { Gives (λ n. (free parts.new, n)) result (by marked_rule tokens.now parts.old at) }
    ensures within { IfOk result (λ n. (at ≤ n) × (n ≤ length tokens.now)) }
{
    if !says(tokens, at, b"attrs") {
        return Ok(at);
    }
    let (equals, open) = (TokenKind::Mark(b'='), TokenKind::Mark(b'{'));
    let at = expects(tokens, equals, Expected::Other, parts, at + 1)?;
    let at = expects(tokens, open, Expected::Other, parts, at)?;
    let close = TokenKind::Mark(b'}');
    list_until(
        alloc,
        tokens,
        Item::Entry,
        close,
        Expected::Other,
        parts,
        at,
    )
}

/// Items up to a `)`. `due` is due behind an item.
fn enclosed(
    alloc: Global,
    tokens: &[Token],
    item: Item,
    due: Expected,
    parts: &mut Parts,
    at: usize,
) -> Result<usize, Stopped>
    ensures gives { Gives (λ n. (free parts.new, n)) result (by (enclosed_rule item due) tokens.now parts.old at) }
    ensures within { IfOk result (λ n. (at ≤ n) × (n ≤ length tokens.now)) }
{
    list_until(alloc, tokens, item, TokenKind::Mark(b')'), due, parts, at)
}

/// Items up to a `]`.
fn bracketed(
    alloc: Global,
    tokens: &[Token],
    item: Item,
    parts: &mut Parts,
    at: usize,
) -> Result<usize, Stopped>
    ensures gives { Gives (λ n. (free parts.new, n))
        result (by (until_rule close_bracket due.Other item) tokens.now parts.old at) }
    ensures within { IfOk result (λ n. (at ≤ n) × (n ≤ length tokens.now)) }
{
    let close = TokenKind::Mark(b']');
    list_until(alloc, tokens, item, close, Expected::Other, parts, at)
}

/// One result type, or result types in parentheses. `due` is due behind one of those.
#[tactic(auto, unfolding(crate::specs::Rules::result_types_rule))]
fn result_types_at(
    alloc: Global,
    tokens: &[Token],
    due: Expected,
    parts: &mut Parts,
    at: usize,
) -> Result<usize, Stopped>
    ensures gives { Gives (λ n. (free parts.new, n)) result (by (result_types_rule due) tokens.now parts.old at) }
    ensures within { IfOk result (λ n. (at ≤ n) × (n ≤ length tokens.now)) }
{
    if looks(tokens, at, TokenKind::Mark(b'(')) {
        enclosed(alloc, tokens, Item::Result, due, parts, at + 1)
    } else {
        result_at(alloc, tokens, parts, at)
    }
}

/// `->` and the result types of a call.
#[tactic(auto, unfolding(crate::specs::Rules::call_results_rule))]
fn call_results_at(
    alloc: Global,
    tokens: &[Token],
    parts: &mut Parts,
    at: usize,
) -> Result<usize, Stopped>
    ensures gives { Gives (λ n. (free parts.new, n)) result (by call_results_rule tokens.now parts.old at) }
    ensures within { IfOk result (λ n. (at ≤ n) × (n ≤ length tokens.now)) }
{
    let at = expects(tokens, TokenKind::Arrow, Expected::Other, parts, at)?;
    result_types_at(alloc, tokens, Expected::Other, parts, at)
}

/// `->` and the result types of a function, which may be left out.
#[tactic(auto, unfolding(crate::specs::Rules::function_results_rule))]
fn function_results_at(
    alloc: Global,
    tokens: &[Token],
    parts: &mut Parts,
    at: usize,
) -> Result<usize, Stopped>
    requires { at ≤ length tokens.now }
    ensures gives { Gives (λ n. (free parts.new, n)) result (by function_results_rule tokens.now parts.old at) }
    ensures within { IfOk result (λ n. (at ≤ n) × (n ≤ length tokens.now)) }
{
    if looks(tokens, at, TokenKind::Arrow) {
        result_types_at(alloc, tokens, Expected::AfterResult, parts, at + 1)
    } else {
        Ok(at)
    }
}

/// Result types in parentheses.
#[tactic(auto, unfolding(crate::specs::Rules::listed_results_rule))]
fn listed_results_at(
    alloc: Global,
    tokens: &[Token],
    parts: &mut Parts,
    at: usize,
) -> Result<usize, Stopped>
    ensures gives { Gives (λ n. (free parts.new, n)) result (by listed_results_rule tokens.now parts.old at) }
    ensures within { IfOk result (λ n. (at ≤ n) × (n ≤ length tokens.now)) }
{
    let at = expects(tokens, TokenKind::Mark(b'('), Expected::Other, parts, at)?;
    enclosed(alloc, tokens, Item::Result, Expected::Other, parts, at)
}

/// `->` and result types in parentheses, which may be left out.
#[tactic(auto, unfolding(crate::specs::Rules::if_results_rule))]
fn if_results_at(
    alloc: Global,
    tokens: &[Token],
    parts: &mut Parts,
    at: usize,
) -> Result<usize, Stopped>
    requires { at ≤ length tokens.now }
    ensures gives { Gives (λ n. (free parts.new, n)) result (by if_results_rule tokens.now parts.old at) }
    ensures within { IfOk result (λ n. (at ≤ n) × (n ≤ length tokens.now)) }
{
    if looks(tokens, at, TokenKind::Arrow) {
        listed_results_at(alloc, tokens, parts, at + 1)
    } else {
        Ok(at)
    }
}

/// Operands, `:` and their types, which may be left out.
#[tactic(auto, unfolding(crate::specs::Rules::operands_rule))]
fn operands_at(
    alloc: Global,
    tokens: &[Token],
    parts: &mut Parts,
    at: usize,
) -> Result<usize, Stopped>
    requires { at ≤ length tokens.now }
    ensures gives { Gives (λ n. (free parts.new, n)) result (by operands_rule tokens.now parts.old at) }
    ensures within { IfOk result (λ n. (at ≤ n) × (n ≤ length tokens.now)) }
{
    if !looks(tokens, at, TokenKind::Value) {
        return Ok(at);
    }
    let at = list_at(alloc, tokens, Item::Use(true), parts, at)?;
    let at = expects(tokens, TokenKind::Mark(b':'), Expected::Other, parts, at)?;
    list_at(alloc, tokens, Item::Type(true), parts, at)
}

/// `iter_args` with its pairs, and `->` with result types, which may be left out.
#[tactic(auto, unfolding(crate::specs::Rules::iter_args_rule))]
fn iter_args_at(
    alloc: Global,
    tokens: &[Token],
    parts: &mut Parts,
    at: usize,
) -> Result<usize, Stopped>
    requires { at ≤ length tokens.now }
    ensures gives { Gives (λ n. (free parts.new, n)) result (by iter_args_rule tokens.now parts.old at) }
    ensures within { IfOk result (λ n. (at ≤ n) × (n ≤ length tokens.now)) }
{
    if !says(tokens, at, b"iter_args") {
        return Ok(at);
    }
    let at = expects(
        tokens,
        TokenKind::Mark(b'('),
        Expected::Other,
        parts,
        at + 1,
    )?;
    let at = enclosed(alloc, tokens, Item::Pair, Expected::Other, parts, at)?;
    let at = expects(tokens, TokenKind::Arrow, Expected::Other, parts, at)?;
    listed_results_at(alloc, tokens, parts, at)
}

/// Operands, `:` and their types, and the `)` behind them.
#[tactic(auto, unfolding(crate::specs::Rules::typed_rule))]
fn typed_at(alloc: Global, tokens: &[Token], parts: &mut Parts, at: usize) -> Result<usize, Stopped>
    ensures gives { Gives (λ n. (free parts.new, n)) result (by typed_rule tokens.now parts.old at) }
    ensures within { IfOk result (λ n. (at ≤ n) × (n ≤ length tokens.now)) }
{
    let at = list_at(alloc, tokens, Item::Use(false), parts, at)?;
    let at = expects(tokens, TokenKind::Mark(b':'), Expected::Other, parts, at)?;
    let at = list_at(alloc, tokens, Item::Type(true), parts, at)?;
    expects(tokens, TokenKind::Mark(b')'), Expected::Other, parts, at)
}

/// `ins` with operands and their types in parentheses.
#[tactic(auto, unfolding(crate::specs::Rules::ins_rule))]
fn ins_at(alloc: Global, tokens: &[Token], parts: &mut Parts, at: usize) -> Result<usize, Stopped>
    ensures gives { Gives (λ n. (free parts.new, n)) result (by ins_rule tokens.now parts.old at) }
    ensures within { IfOk result (λ n. (at ≤ n) × (n ≤ length tokens.now)) }
{
    let at = word_is(tokens, b"ins", parts, at)?;
    let at = expects(tokens, TokenKind::Mark(b'('), Expected::Other, parts, at)?;
    typed_at(alloc, tokens, parts, at)
}

/// The same, which may be left out.
#[tactic(auto, unfolding(crate::specs::Rules::some_ins_rule))]
fn some_ins_at(
    alloc: Global,
    tokens: &[Token],
    parts: &mut Parts,
    at: usize,
) -> Result<usize, Stopped>
    requires { at ≤ length tokens.now }
    ensures gives { Gives (λ n. (free parts.new, n)) result (by some_ins_rule tokens.now parts.old at) }
    ensures within { IfOk result (λ n. (at ≤ n) × (n ≤ length tokens.now)) }
{
    if !says(tokens, at, b"ins") {
        return Ok(at);
    }
    let open = TokenKind::Mark(b'(');
    let at = expects(tokens, open, Expected::Other, parts, at + 1)?;
    typed_at(alloc, tokens, parts, at)
}

/// `outs` with an operand and its type in parentheses.
#[tactic(auto, unfolding(crate::specs::Rules::outs_rule))]
fn outs_at(alloc: Global, tokens: &[Token], parts: &mut Parts, at: usize) -> Result<usize, Stopped>
    ensures gives { Gives (λ n. (free parts.new, n)) result (by outs_rule tokens.now parts.old at) }
    ensures within { IfOk result (λ n. (at ≤ n) × (n ≤ length tokens.now)) }
{
    if !says(tokens, at, b"outs") {
        return Err(Stopped::At(at, Expected::Outs));
    }
    let at = expects(
        tokens,
        TokenKind::Mark(b'('),
        Expected::Other,
        parts,
        at + 1,
    )?;
    if !looks(tokens, at, TokenKind::Value) {
        return Err(Stopped::At(at, Expected::OutsOperand));
    }
    let at = use_at(tokens, parts, at)?;
    let at = expects(tokens, TokenKind::Mark(b':'), Expected::AfterOut, parts, at)?;
    let at = type_at(alloc, tokens, parts, at)?;
    expects(tokens, TokenKind::Mark(b')'), Expected::Other, parts, at)
}

/// `:` and the width of a loop, else `index`.
#[tactic(auto, unfolding(crate::specs::Rules::loop_width_rule))]
fn loop_width_at(tokens: &[Token], parts: &mut Parts, at: usize) -> Result<usize, Stopped>
    requires { at ≤ length tokens.now }
    ensures gives { Gives (λ n. (free parts.new, n)) result (by loop_width_rule tokens.now parts.old at) }
    ensures within { IfOk result (λ n. (at ≤ n) × (n ≤ length tokens.now)) }
{
    if looks(tokens, at, TokenKind::Mark(b':')) {
        return width_at(tokens, Expected::Width, parts, at + 1);
    }
    if parts.types.len() >= MOST_ENTRIES {
        return Err(Stopped::At(at, Expected::ListEnd));
    }
    parts.types.push(PayloadType::Scalar(Width::Index))?;
    Ok(at)
}

/// A slot.
fn slot_at(
    alloc: Global,
    tokens: &[Token],
    slot: FormatElement,
    parts: &mut Parts,
    at: usize,
) -> Result<usize, Stopped>
    requires { at ≤ length tokens.now }
    ensures gives { Gives (λ n. (free parts.new, n)) result (by (slot_rule slot) tokens.now parts.old at) }
    ensures within { IfOk result (λ n. (at ≤ n) × (n ≤ length tokens.now)) }
{
    match slot {
        FormatElement::Mark(_, b) => expects(
            tokens,
            TokenKind::Mark(b),
            Expected::Other,
            parts,
            at,
        ),
        FormatElement::Word(_, keyword) => word_is(tokens, keyword.spelling(), parts, at),
        FormatElement::ModuleName => module_name_at(tokens, parts, at),
        FormatElement::FunctionName => function_name_at(tokens, parts, at),
        FormatElement::Symbol => symbol_at(tokens, parts, at),
        FormatElement::Attributes => attributes_at(alloc, tokens, parts, at),
        FormatElement::Dictionary => dictionary_at(alloc, tokens, parts, at),
        FormatElement::Literal => literal_at(alloc, tokens, parts, at),
        FormatElement::Predicate => predicate_at(tokens, parts, at),
        FormatElement::Argument => argument_at(tokens, parts, at),
        FormatElement::Use(_) => use_at(tokens, parts, at),
        FormatElement::Width(_) => width_at(tokens, Expected::ArithWidth, parts, at),
        FormatElement::Uses(_, close) => list_until(
            alloc,
            tokens,
            Item::Use(false),
            TokenKind::Mark(close),
            Expected::Other,
            parts,
            at,
        ),
        FormatElement::TypeOf(_) => type_at(alloc, tokens, parts, at),
        FormatElement::TensorOf(_) => tensor_at(alloc, tokens, parts, at),
        FormatElement::WidthOf(_) => width_at(tokens, Expected::Width, parts, at),
        FormatElement::ResultType => result_at(alloc, tokens, parts, at),
        FormatElement::ResultTensor => result_tensor_at(alloc, tokens, parts, at),
        FormatElement::Arrow => expects(tokens, TokenKind::Arrow, Expected::Other, parts, at),
        FormatElement::Ins => ins_at(alloc, tokens, parts, at),
        FormatElement::SomeIns => some_ins_at(alloc, tokens, parts, at),
        FormatElement::Outs => outs_at(alloc, tokens, parts, at),
        FormatElement::Types => enclosed(
            alloc,
            tokens,
            Item::Type(false),
            Expected::Other,
            parts,
            at,
        ),
        FormatElement::Params => enclosed(
            alloc,
            tokens,
            Item::Param,
            Expected::AfterArgument,
            parts,
            at,
        ),
        FormatElement::BlockParams => enclosed(
            alloc,
            tokens,
            Item::Param,
            Expected::Other,
            parts,
            at,
        ),
        FormatElement::Operands => operands_at(alloc, tokens, parts, at),
        FormatElement::CallResults => call_results_at(alloc, tokens, parts, at),
        FormatElement::FunctionResults => function_results_at(alloc, tokens, parts, at),
        FormatElement::IfResults => if_results_at(alloc, tokens, parts, at),
        FormatElement::IterArgs => iter_args_at(alloc, tokens, parts, at),
        FormatElement::LoopWidth => loop_width_at(tokens, parts, at),
        FormatElement::BlockName => block_name_at(tokens, parts, at),
        FormatElement::Places(side) => bracketed(alloc, tokens, Item::Place(side), parts, at),
        FormatElement::Strides => bracketed(alloc, tokens, Item::Stride, parts, at),
        FormatElement::Maps => maps_at(alloc, tokens, parts, at),
        FormatElement::Iterators => bracketed(alloc, tokens, Item::Iterator, parts, at),
        FormatElement::MarkedAttributes => marked_at(alloc, tokens, parts, at),
    }
}

/// What the slots of a row write, from a token on.
pub fn slots_at(
    alloc: Global,
    tokens: &[Token],
    slots: &[FormatElement],
    parts: &mut Parts,
    at: usize,
) -> Result<usize, Stopped>
    requires { at ≤ length tokens.now }
    ensures gives { Gives (λ n. (free parts.new, n)) result (by (slots_rule slots.now) tokens.now parts.old at) }
    ensures within { IfOk result (λ n. (at ≤ n) × (n ≤ length tokens.now)) }
{
    let mut at = at;
    for slot in slots {
        at = slot_at(alloc, tokens, *slot, parts, at)?;
    }
    Ok(at)
}
