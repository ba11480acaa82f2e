//! Parts of one token or two.
ghost use Rattle.std.specs.Prelude.{◌≡◌, ◌<◌, ◌≤◌, length, Bool, IfOk};
ghost use Rattle.xf_grammar.specs.Tokens.{terminal_at};
ghost use Rattle.xf_format.specs.Actions.{free};
ghost use Rattle.xf_format.specs.Parts.{count_at};
ghost use Rattle.xf_format.specs.Reading.{Gives, ShapeTold};
ghost use Rattle.xf_format.specs.Rules.{by, argument_rule, block_name_rule, function_name_rule, kind_rule};
ghost use Rattle.xf_format.specs.Rules.{module_name_rule, predicate_rule, result_rule, result_tensor_rule};
ghost use Rattle.xf_format.specs.Rules.{symbol_rule, tensor_rule, type_rule, use_rule, width_rule, word_rule};
ghost use Rattle.xf_format.specs.declared.expected.Expected.TheVariants as due;

use crate::expected::{Expected, Stopped};
use crate::names::is_symbol;
use crate::parts::{MOST_ENTRIES, Parts, Ref, Use};
use crate::word::predicate_of;
use std::alloc::Global;
use xf_grammar::{is_index_at, looks, number_at, says, word_at};
use xf_lex::{Token, TokenKind};
use xf_shape::{shape_of, width_of};
use xf_type::{PayloadType, Shape};

/// A token of this kind, which is due.
#[tactic(auto, unfolding(crate::specs::Rules::kind_rule))]
pub fn expects(
    tokens: &[Token],
    kind: TokenKind,
    due: Expected,
    parts: &Parts,
    at: usize,
) -> Result<usize, Stopped>
    ensures gives { (gap : Bool) → Gives (λ n. (free parts.now, n))
        result (by (kind_rule gap due kind) tokens.now parts.now at) }
    ensures within { IfOk result (λ n. (at ≤ n) × (n ≤ length tokens.now)) }
{
    if looks(tokens, at, kind) {
        Ok(at + 1)
    } else {
        Err(Stopped::At(at, due))
    }
}

/// A word.
#[tactic(auto, unfolding(crate::specs::Rules::word_rule))]
pub fn word_is(tokens: &[Token], word: &[u8], parts: &Parts, at: usize) -> Result<usize, Stopped>
    ensures gives { (gap : Bool) → Gives (λ n. (free parts.now, n))
        result (by (word_rule gap word.now) tokens.now parts.now at) }
    ensures within { IfOk result (λ n. (at ≤ n) × (n ≤ length tokens.now)) }
{
    if says(tokens, at, word) {
        Ok(at + 1)
    } else {
        Err(Stopped::At(at, Expected::Other))
    }
}

/// A symbol.
#[tactic(auto, unfolding(crate::specs::Rules::symbol_rule))]
pub fn symbol_at(tokens: &[Token], parts: &mut Parts, at: usize) -> Result<usize, Stopped>
    ensures gives { Gives (λ n. (free parts.new, n)) result (by symbol_rule tokens.now parts.old at) }
    ensures within { IfOk result (λ n. (at ≤ n) × (n ≤ length tokens.now)) }
{
    if is_symbol(tokens, at) {
        parts.symbol = Some(at);
        return Ok(at + 1);
    }
    if looks(tokens, at, TokenKind::Symbol) {
        return Err(Stopped::At(at, Expected::ListEnd));
    }
    Err(Stopped::At(at, Expected::Other))
}

/// The symbol of a module, which may be left out.
#[tactic(auto, unfolding(crate::specs::Rules::module_name_rule))]
pub fn module_name_at(tokens: &[Token], parts: &mut Parts, at: usize) -> Result<usize, Stopped>
    requires { at ≤ length tokens.now }
    ensures gives { Gives (λ n. (free parts.new, n)) result (by module_name_rule tokens.now parts.old at) }
    ensures within { IfOk result (λ n. (at ≤ n) × (n ≤ length tokens.now)) }
{
    if is_symbol(tokens, at) {
        parts.symbol = Some(at);
        return Ok(at + 1);
    }
    if looks(tokens, at, TokenKind::Symbol) {
        return Err(Stopped::At(at, Expected::ListEnd));
    }
    Ok(at)
}

/// The symbol of a function, with `private` before it or not.
#[tactic(auto, unfolding(crate::specs::Rules::function_name_rule))]
pub fn function_name_at(tokens: &[Token], parts: &mut Parts, at: usize) -> Result<usize, Stopped>
    ensures gives { Gives (λ n. (free parts.new, n)) result (by function_name_rule tokens.now parts.old at) }
    ensures within { IfOk result (λ n. (at ≤ n) × (n ≤ length tokens.now)) }
{
    if says(tokens, at, b"private") {
        parts.private = true;
        return symbol_at(tokens, parts, at + 1);
    }
    if is_symbol(tokens, at) {
        parts.symbol = Some(at);
        return Ok(at + 1);
    }
    if looks(tokens, at, TokenKind::Symbol) {
        return Err(Stopped::At(at, Expected::ListEnd));
    }
    Err(Stopped::At(at, Expected::FunctionName))
}

/// The name of a block argument.
#[tactic(auto, unfolding(crate::specs::Rules::argument_rule))]
pub fn argument_at(tokens: &[Token], parts: &mut Parts, at: usize) -> Result<usize, Stopped>
    ensures gives { (gap : Bool) → Gives (λ n. (free parts.new, n))
        result (by (argument_rule gap) tokens.now parts.old at) }
    ensures within { IfOk result (λ n. (at ≤ n) × (n ≤ length tokens.now)) }
{
    if !looks(tokens, at, TokenKind::Value) {
        return Err(Stopped::At(at, Expected::Other));
    }
    if parts.args.len() >= MOST_ENTRIES {
        return Err(Stopped::At(at, Expected::ListEnd));
    }
    parts.args.push(Ref {
        token: at,
        count: 1,
    })?;
    Ok(at + 1)
}

/// The number that stands there, or 2^32 - 1 where it is more.
pub fn count_at(tokens: &[Token], at: usize) -> u32
    ensures { result ≡ count_at tokens.now at }
{
    let number = number_at(tokens, at);
    if number <= u64::from(u32::MAX) {
        number as u32
    } else {
        u32::MAX
    }
}

/// The name of an operand, with its number or without.
#[tactic(auto, unfolding(crate::specs::Rules::use_rule))]
pub fn use_at(tokens: &[Token], parts: &mut Parts, at: usize) -> Result<usize, Stopped>
    ensures gives { (gap : Bool) → Gives (λ n. (free parts.new, n)) result (by (use_rule gap) tokens.now parts.old at) }
    ensures within { IfOk result (λ n. (at ≤ n) × (n ≤ length tokens.now)) }
{
    if !looks(tokens, at, TokenKind::Value) {
        return Err(Stopped::At(at, Expected::Other));
    }
    if parts.uses.len() >= MOST_ENTRIES {
        return Err(Stopped::At(at, Expected::ListEnd));
    }
    let next = at + 1;
    if is_index_at(tokens, next) {
        let number = Some(count_at(tokens, next));
        parts.uses.push(Use { token: at, number })?;
        return Ok(next + 1);
    }
    parts.uses.push(Use {
        token: at,
        number: None,
    })?;
    Ok(next)
}

/// A width.
#[tactic(auto, unfolding(crate::specs::Rules::width_rule))]
pub fn width_at(
    tokens: &[Token],
    due: Expected,
    parts: &mut Parts,
    at: usize,
) -> Result<usize, Stopped>
    ensures gives { (gap : Bool) → Gives (λ n. (free parts.new, n))
        result (by (width_rule gap due) tokens.now parts.old at) }
    ensures within { IfOk result (λ n. (at ≤ n) × (n ≤ length tokens.now)) }
{
    match width_of(word_at(tokens, at)) {
        Some(width) => {
            if parts.types.len() >= MOST_ENTRIES {
                return Err(Stopped::At(at, Expected::ListEnd));
            }
            parts.types.push(PayloadType::Scalar(width))?;
            Ok(at + 1)
        }
        None => Err(Stopped::At(at, due)),
    }
}

/// The tensor type that a shape token writes, where one is due.
pub fn shape_at(alloc: Global, tokens: &[Token], at: usize) -> Result<Shape, Stopped>
    ensures told { ShapeTold (terminal_at tokens.now at) at result }
    ensures within { IfOk result (λ s. at < length tokens.now) }
{
    if at >= tokens.len() {
        return Err(Stopped::At(at, Expected::Other));
    }
    let token = &tokens[at];
    match token.kind {
        TokenKind::Shape => match shape_of(alloc, token.bytes.as_slice())? {
            Some(shape) => Ok(shape),
            None => Err(Stopped::At(at, Expected::Shape)),
        },
        _ => Err(Stopped::At(at, Expected::Other)),
    }
}

/// A tensor type.
#[tactic(auto, unfolding(crate::specs::Rules::tensor_rule))]
pub fn tensor_at(
    alloc: Global,
    tokens: &[Token],
    parts: &mut Parts,
    at: usize,
) -> Result<usize, Stopped>
    ensures gives { (gap : Bool) → Gives (λ n. (free parts.new, n))
        result (by (tensor_rule gap) tokens.now parts.old at) }
    ensures within { IfOk result (λ n. (at ≤ n) × (n ≤ length tokens.now)) }
{
    if !says(tokens, at, b"tensor") {
        return Err(Stopped::At(at, Expected::Type));
    }
    if parts.types.len() >= MOST_ENTRIES {
        return Err(Stopped::At(at, Expected::ListEnd));
    }
    let next = at + 1;
    let shape = shape_at(alloc, tokens, next)?;
    parts.types.push(PayloadType::Tensor(shape))?;
    Ok(next + 1)
}

/// A type.
#[tactic(auto, unfolding(crate::specs::Rules::type_rule, crate::specs::Rules::tensor_rule))]
pub fn type_at(
    alloc: Global,
    tokens: &[Token],
    parts: &mut Parts,
    at: usize,
) -> Result<usize, Stopped>
    ensures gives { (gap : Bool) → Gives (λ n. (free parts.new, n))
        result (by (type_rule gap) tokens.now parts.old at) }
    ensures within { IfOk result (λ n. (at ≤ n) × (n ≤ length tokens.now)) }
{
    match width_of(word_at(tokens, at)) {
        Some(width) => {
            if parts.types.len() >= MOST_ENTRIES {
                return Err(Stopped::At(at, Expected::ListEnd));
            }
            parts.types.push(PayloadType::Scalar(width))?;
            Ok(at + 1)
        }
        None => tensor_at(alloc, tokens, parts, at),
    }
}

/// A tensor type of a result.
#[tactic(auto, unfolding(crate::specs::Rules::result_tensor_rule))]
pub fn result_tensor_at(
    alloc: Global,
    tokens: &[Token],
    parts: &mut Parts,
    at: usize,
) -> Result<usize, Stopped>
    ensures gives { (gap : Bool) → Gives (λ n. (free parts.new, n))
        result (by (result_tensor_rule gap) tokens.now parts.old at) }
    ensures within { IfOk result (λ n. (at ≤ n) × (n ≤ length tokens.now)) }
{
    if !says(tokens, at, b"tensor") {
        return Err(Stopped::At(at, Expected::Type));
    }
    if parts.results.len() >= MOST_ENTRIES {
        return Err(Stopped::At(at, Expected::ListEnd));
    }
    let next = at + 1;
    let shape = shape_at(alloc, tokens, next)?;
    parts.results.push(PayloadType::Tensor(shape))?;
    Ok(next + 1)
}

/// A type of a result.
#[tactic(auto, unfolding(crate::specs::Rules::result_rule, crate::specs::Rules::result_tensor_rule))]
pub fn result_at(
    alloc: Global,
    tokens: &[Token],
    parts: &mut Parts,
    at: usize,
) -> Result<usize, Stopped>
    ensures gives { (gap : Bool) → Gives (λ n. (free parts.new, n))
        result (by (result_rule gap) tokens.now parts.old at) }
    ensures within { IfOk result (λ n. (at ≤ n) × (n ≤ length tokens.now)) }
{
    match width_of(word_at(tokens, at)) {
        Some(width) => {
            if parts.results.len() >= MOST_ENTRIES {
                return Err(Stopped::At(at, Expected::ListEnd));
            }
            parts.results.push(PayloadType::Scalar(width))?;
            Ok(at + 1)
        }
        None => result_tensor_at(alloc, tokens, parts, at),
    }
}

/// The predicate of a comparison.
#[tactic(auto, unfolding(crate::specs::Rules::predicate_rule))]
pub fn predicate_at(tokens: &[Token], parts: &mut Parts, at: usize) -> Result<usize, Stopped>
    ensures gives { Gives (λ n. (free parts.new, n)) result (by predicate_rule tokens.now parts.old at) }
    ensures within { IfOk result (λ n. (at ≤ n) × (n ≤ length tokens.now)) }
{
    match predicate_of(word_at(tokens, at)) {
        Some(kind) => {
            parts.predicate = Some(kind);
            Ok(at + 1)
        }
        None => Err(Stopped::At(at, Expected::Other)),
    }
}

/// The name of a block.
#[tactic(auto, unfolding(crate::specs::Rules::block_name_rule))]
pub fn block_name_at(tokens: &[Token], parts: &Parts, at: usize) -> Result<usize, Stopped>
    ensures gives { Gives (λ n. (free parts.now, n)) result (by block_name_rule tokens.now parts.now at) }
    ensures within { IfOk result (λ n. (at ≤ n) × (n ≤ length tokens.now)) }
{
    if looks(tokens, at, TokenKind::BlockName) {
        Ok(at + 1)
    } else {
        Err(Stopped::At(at, Expected::Other))
    }
}
