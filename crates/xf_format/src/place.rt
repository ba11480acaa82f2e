//! The windows of slices.
ghost use Rattle.std.specs.Prelude.{◌≡◌, ◌<◌, ◌≤◌, length, Bool, IfOk, OnOk, IsTrue};
ghost use Rattle.xf_grammar.specs.Tokens.{terminal_at};
ghost use Rattle.xf_format.specs.Actions.{free, places_of};
ghost use Rattle.xf_format.specs.Parts.{with_place};
ghost use Rattle.xf_format.specs.Reading.{Gives};
ghost use Rattle.xf_format.specs.Rules.{by, place_rule, stride_rule};
ghost use Rattle.xf_format.specs.Tests.{is_one};

use crate::expected::{Expected, Stopped};
use crate::parts::{MOST_ENTRIES, Parts, PlaceEntry};
use crate::row::Side;
use crate::single::use_at;
use xf_grammar::{looks, number_at};
use xf_lex::{Token, TokenKind};
use xf_type::NoMemory;

/// How many offsets or sizes there are.
fn place_count(side: Side, parts: &Parts) -> usize
    ensures { result ≡ length (places_of side parts.now) }
{
    match side {
        Side::Offsets => parts.offsets.len(),
        Side::Sizes => parts.sizes.len(),
    }
}

/// Adds an offset or a size.
fn add_place(side: Side, entry: PlaceEntry, parts: &mut Parts) -> Result<(), NoMemory>
    ensures { OnOk result (parts.new ≡ with_place side entry parts.old) }
{
    match side {
        Side::Offsets => parts.offsets.push(entry),
        Side::Sizes => parts.sizes.push(entry),
    }
}

/// An offset or a size: an integer, with a `-` before it or not, or an operand.
#[tactic(auto, unfolding(crate::specs::Rules::place_rule))]
pub fn place_at(
    tokens: &[Token],
    side: Side,
    parts: &mut Parts,
    at: usize,
) -> Result<usize, Stopped>
    ensures gives { Gives (λ n. (free parts.new, n)) result (by (place_rule side) tokens.now parts.old at) }
    ensures within { IfOk result (λ n. (at ≤ n) × (n ≤ length tokens.now)) }
{
    let negative = looks(tokens, at, TokenKind::Mark(b'-'));
    let is_value = looks(tokens, at, TokenKind::Value);
    if !is_value && !negative && !looks(tokens, at, TokenKind::Integer) {
        return Err(Stopped::At(at, Expected::Other));
    }
    if place_count(side, parts) >= MOST_ENTRIES {
        return Err(Stopped::At(at, Expected::ListEnd));
    }
    if is_value {
        add_place(side, PlaceEntry::Value, parts)?;
        return use_at(tokens, parts, at);
    }
    let token = if negative { at + 1 } else { at };
    if !looks(tokens, token, TokenKind::Integer) {
        return Err(Stopped::At(token, Expected::Other));
    }
    add_place(side, PlaceEntry::Number { negative, token }, parts)?;
    Ok(token + 1)
}

/// Whether the integer 1 stands there.
fn is_one(tokens: &[Token], at: usize) -> bool
    ensures value { result ≡ is_one (terminal_at tokens.now at) }
    ensures within { IsTrue result → at < length tokens.now }
{
    looks(tokens, at, TokenKind::Integer) && number_at(tokens, at) == 1
}

/// A stride, which is 1.
#[tactic(auto, unfolding(crate::specs::Rules::stride_rule))]
pub fn stride_at(tokens: &[Token], parts: &Parts, at: usize) -> Result<usize, Stopped>
    ensures gives { Gives (λ n. (free parts.now, n)) result (by stride_rule tokens.now parts.now at) }
    ensures within { IfOk result (λ n. (at ≤ n) × (n ≤ length tokens.now)) }
{
    if is_one(tokens, at) {
        Ok(at + 1)
    } else {
        Err(Stopped::At(at, Expected::Stride))
    }
}
