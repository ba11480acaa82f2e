//! Lists with commas between their items.
ghost use Rattle.std.specs.Prelude.{◌≡◌, ◌≤◌, length, IfOk};
ghost use Rattle.xf_grammar.specs.Grammar.{listed};
ghost use Rattle.xf_format.specs.Actions.{free};
ghost use Rattle.xf_format.specs.Reading.{Gives};
ghost use Rattle.xf_format.specs.Rules.{by, item_rule, pair_rule, param_rule, until_rule};

use crate::dictionary::entry_at;
use crate::dimension::{dimension_at, given_at};
use crate::expected::{Expected, Stopped};
use crate::iterator::iterator_at;
use crate::parts::{MOST_ENTRIES, Parts};
use crate::place::{place_at, stride_at};
use crate::row::Side;
use crate::single::{argument_at, expects, result_at, type_at, use_at};
use std::alloc::Global;
use xf_grammar::looks;
use xf_lex::{Token, TokenKind};

/// What stands in a list. `true` says that a blank stands before its first item in print.
#[derive(Clone, Copy)]
pub enum Item {
    /// An operand.
    Use(bool),
    /// A type.
    Type(bool),
    /// A type of a result.
    Result,
    /// A block argument and its type.
    Param,
    /// A block argument and an operand, with `=` between them.
    Pair,
    /// A discardable attribute.
    Entry,
    /// An offset or a size of a window.
    Place(Side),
    /// A stride, which is 1.
    Stride,
    /// An iterator type.
    Iterator,
    /// The next dimension of a map.
    Dimension,
    /// A dimension that a map gives.
    Given,
}

/// A block argument with its type.
#[tactic(auto, unfolding(crate::specs::Rules::param_rule))]
fn param_at(alloc: Global, tokens: &[Token], parts: &mut Parts, at: usize) -> Result<usize, Stopped>
    ensures gives { Gives (λ n. (free parts.new, n)) result (by param_rule tokens.now parts.old at) }
    ensures within { IfOk result (λ n. (at ≤ n) × (n ≤ length tokens.now)) }
{
    let at = argument_at(tokens, parts, at)?;
    let at = expects(tokens, TokenKind::Mark(b':'), Expected::Other, parts, at)?;
    type_at(alloc, tokens, parts, at)
}

/// A block argument and an operand, with `=` between them.
#[tactic(auto, unfolding(crate::specs::Rules::pair_rule))]
fn pair_at(tokens: &[Token], parts: &mut Parts, at: usize) -> Result<usize, Stopped>
    ensures gives { Gives (λ n. (free parts.new, n)) result (by pair_rule tokens.now parts.old at) }
    ensures within { IfOk result (λ n. (at ≤ n) × (n ≤ length tokens.now)) }
{
    if !looks(tokens, at, TokenKind::Value) {
        return Err(Stopped::At(at, Expected::Other));
    }
    if parts.uses.len() >= MOST_ENTRIES {
        return Err(Stopped::At(at, Expected::ListEnd));
    }
    let at = argument_at(tokens, parts, at)?;
    let at = expects(tokens, TokenKind::Mark(b'='), Expected::Other, parts, at)?;
    use_at(tokens, parts, at)
}

/// An item.
fn item_at(
    alloc: Global,
    tokens: &[Token],
    item: Item,
    parts: &mut Parts,
    at: usize,
) -> Result<usize, Stopped>
    ensures gives { Gives (λ n. (free parts.new, n)) result (by (item_rule item) tokens.now parts.old at) }
    ensures within { IfOk result (λ n. (at ≤ n) × (n ≤ length tokens.now)) }
{
    match item {
        Item::Use(_) => use_at(tokens, parts, at),
        Item::Type(_) => type_at(alloc, tokens, parts, at),
        Item::Result => result_at(alloc, tokens, parts, at),
        Item::Param => param_at(alloc, tokens, parts, at),
        Item::Pair => pair_at(tokens, parts, at),
        Item::Entry => entry_at(tokens, parts, at),
        Item::Place(side) => place_at(tokens, side, parts, at),
        Item::Stride => stride_at(tokens, parts, at),
        Item::Iterator => iterator_at(tokens, parts, at),
        Item::Dimension => dimension_at(tokens, parts, at),
        Item::Given => given_at(tokens, parts, at),
    }
}

/// One item or several, with commas between them.
pub fn list_at(
    alloc: Global,
    tokens: &[Token],
    item: Item,
    parts: &mut Parts,
    at: usize,
) -> Result<usize, Stopped>
    ensures gives { Gives (λ n. (free parts.new, n)) result (by (listed (item_rule item)) tokens.now parts.old at) }
    ensures within { IfOk result (λ n. (at ≤ n) × (n ≤ length tokens.now)) }
{
    let mut at = item_at(alloc, tokens, item, parts, at)?;
    'list: while looks(tokens, at, TokenKind::Mark(b',')) {
        at = item_at(alloc, tokens, item, parts, at + 1)?;
    }
    Ok(at)
}

/// Items, possibly none, and the token that ends them. `due` is due behind an item.
#[tactic(auto, unfolding(crate::specs::Rules::until_rule))]
pub fn list_until(
    alloc: Global,
    tokens: &[Token],
    item: Item,
    close: TokenKind,
    due: Expected,
    parts: &mut Parts,
    at: usize,
) -> Result<usize, Stopped>
    ensures gives { Gives (λ n. (free parts.new, n)) result (by (until_rule close due item) tokens.now parts.old at) }
    ensures within { IfOk result (λ n. (at ≤ n) × (n ≤ length tokens.now)) }
{
    if looks(tokens, at, close) {
        return Ok(at + 1);
    }
    let at = list_at(alloc, tokens, item, parts, at)?;
    expects(tokens, close, due, parts, at)
}
