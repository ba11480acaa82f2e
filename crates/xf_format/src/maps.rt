//! The maps of `linalg.generic`.
ghost use Rattle.std.specs.Prelude.{◌≡◌, ◌≤◌, length, IfOk, OnOk};
ghost use Rattle.xf_grammar.specs.Grammar.{listed};
ghost use Rattle.xf_format.specs.Actions.{free};
ghost use Rattle.xf_format.specs.Parts.{with_maps};
ghost use Rattle.xf_format.specs.Reading.{Gives};
ghost use Rattle.xf_format.specs.Rules.{by, map_form_rule, map_rule, maps_rule};
ghost use Rattle.xf_format.specs.declared.parts.MapEntry.TheVariants as entry;

use crate::expected::{Expected, Stopped};
use crate::list::{Item, list_until};
use crate::parts::{MOST_ENTRIES, MapEntry, Parts};
use crate::single::expects;
use std::alloc::Global;
use std::mem;
use xf_grammar::{looks, says};
use xf_lex::{Token, TokenKind};
use xf_type::{AffineMap, NoMemory, PlaceList};

/// What stands behind the word of a map, read into the map of the parts.
#[tactic(auto, unfolding(crate::specs::Rules::map_form_rule))]
fn map_form_at(
    alloc: Global,
    tokens: &[Token],
    parts: &mut Parts,
    at: usize,
) -> Result<usize, Stopped>
    ensures gives { Gives (λ n. (free parts.new, n)) result (by map_form_rule tokens.now parts.old at) }
    ensures within { IfOk result (λ n. (at ≤ n) × (n ≤ length tokens.now)) }
{
    let close = TokenKind::Mark(b')');
    let at = expects(tokens, TokenKind::Mark(b'<'), Expected::Other, parts, at)?;
    let at = expects(tokens, TokenKind::Mark(b'('), Expected::Other, parts, at)?;
    let at = list_until(
        alloc,
        tokens,
        Item::Dimension,
        close,
        Expected::Other,
        parts,
        at,
    )?;
    let at = expects(
        tokens,
        TokenKind::Arrow,
        Expected::AfterDimensions,
        parts,
        at,
    )?;
    let at = expects(tokens, TokenKind::Mark(b'('), Expected::Other, parts, at)?;
    let due = Expected::AfterMapResult;
    let at = list_until(alloc, tokens, Item::Given, close, due, parts, at)?;
    expects(tokens, TokenKind::Mark(b'>'), Expected::Other, parts, at)
}

/// The map that is read is whole.
fn end_map(alloc: Global, parts: &mut Parts) -> Result<(), NoMemory>
    ensures { OnOk result (parts.new ≡ with_maps (entry.Written parts.old.map) parts.old) }
{
    let next = AffineMap {
        dims: 0,
        results: PlaceList::new(alloc),
    };
    let map = mem::replace(&mut parts.map, next);
    parts.maps.push(MapEntry::Written(map))
}

/// An alias of a map.
fn add_alias(alloc: Global, token: usize, parts: &mut Parts) -> Result<(), NoMemory>
    ensures { OnOk result (parts.new ≡ with_maps (entry.Alias token) parts.old) }
{
    parts.map = AffineMap {
        dims: 0,
        results: PlaceList::new(alloc),
    };
    parts.maps.push(MapEntry::Alias(token))
}

/// A map, or an alias of one.
#[tactic(auto, unfolding(crate::specs::Rules::map_rule))]
pub fn map_at(
    alloc: Global,
    tokens: &[Token],
    parts: &mut Parts,
    at: usize,
) -> Result<usize, Stopped>
    ensures gives { Gives (λ n. (free parts.new, n)) result (by map_rule tokens.now parts.old at) }
    ensures within { IfOk result (λ n. (at ≤ n) × (n ≤ length tokens.now)) }
{
    let is_alias = looks(tokens, at, TokenKind::Hash);
    if !is_alias && !says(tokens, at, b"affine_map") {
        return Err(Stopped::At(at, Expected::Other));
    }
    if parts.maps.len() >= MOST_ENTRIES {
        return Err(Stopped::At(at, Expected::ListEnd));
    }
    if is_alias {
        add_alias(alloc, at, parts)?;
        return Ok(at + 1);
    }
    let next = map_form_at(alloc, tokens, parts, at + 1)?;
    if parts.maps.len() >= MOST_ENTRIES {
        return Err(Stopped::At(next, Expected::ListEnd));
    }
    end_map(alloc, parts)?;
    Ok(next)
}

/// One map or several, with commas between them.
fn map_list_at(
    alloc: Global,
    tokens: &[Token],
    parts: &mut Parts,
    at: usize,
) -> Result<usize, Stopped>
    ensures gives { Gives (λ n. (free parts.new, n)) result (by (listed map_rule) tokens.now parts.old at) }
    ensures within { IfOk result (λ n. (at ≤ n) × (n ≤ length tokens.now)) }
{
    let mut at = map_at(alloc, tokens, parts, at)?;
    'list: while looks(tokens, at, TokenKind::Mark(b',')) {
        at = map_at(alloc, tokens, parts, at + 1)?;
    }
    Ok(at)
}

/// Maps, possibly none, and the `]` behind them.
#[tactic(auto, unfolding(crate::specs::Rules::maps_rule))]
pub fn maps_at(
    alloc: Global,
    tokens: &[Token],
    parts: &mut Parts,
    at: usize,
) -> Result<usize, Stopped>
    ensures gives { Gives (λ n. (free parts.new, n)) result (by maps_rule tokens.now parts.old at) }
    ensures within { IfOk result (λ n. (at ≤ n) × (n ≤ length tokens.now)) }
{
    let close = TokenKind::Mark(b']');
    if looks(tokens, at, close) {
        return Ok(at + 1);
    }
    let at = map_list_at(alloc, tokens, parts, at)?;
    expects(tokens, close, Expected::Other, parts, at)
}
