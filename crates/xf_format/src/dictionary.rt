//! Discardable attributes.
ghost use Rattle.std.specs.Prelude.{◌≡◌, ◌<◌, ◌≤◌, [], ◌∷◌, length, Bool, IfOk, OnOk};
ghost use Rattle.xf_type.specs.Limits.{most_entries};
ghost use Rattle.xf_format.specs.Actions.{free};
ghost use Rattle.xf_format.specs.Parts.{with_entry};
ghost use Rattle.xf_format.specs.Reading.{Gives};
ghost use Rattle.xf_format.specs.Rules.{by, by_held, entry_number_rule, entry_rule, entry_value_rule};
ghost use Rattle.xf_format.specs.Rules.{entry_width_rule};
ghost use Rattle.xf_format.specs.Tests.{has_room};

use crate::expected::{Expected, Stopped};
use crate::names::{is_name, is_string};
use crate::parts::{AttrEntry, EntryValue, MOST_ENTRIES, Parts};
use xf_grammar::{looks, number_at, says, word_at};
use xf_lex::{Token, TokenKind};
use xf_shape::width_of;
use xf_type::{NoMemory, Width};

/// Whether a width has room for a number: -2^(bits - 1) <= n <= 2^bits - 1.
pub fn has_room(width: Width, negative: bool, number: u64) -> bool
    ensures { result ≡ has_room width negative number }
{
    let greatest = match width {
        Width::I1 => 1,
        Width::I8 => 0xFF,
        Width::I16 => 0xFFFF,
        Width::I32 => 0xFFFF_FFFF,
        Width::I64 | Width::Index => u64::MAX,
    };
    if negative {
        number <= greatest / 2 + 1
    } else {
        number <= greatest
    }
}

/// Adds an attribute.
fn add_entry(parts: &mut Parts, name: usize, value: EntryValue) -> Result<(), NoMemory>
    ensures { OnOk result (parts.new ≡ with_entry name value parts.old) }
{
    parts.entries.push(AttrEntry { name, value })?;
    Ok(())
}

/// The width of an integer, behind its colon. The tokens `name` and `digits` are held.
#[tactic(auto, unfolding(crate::specs::Rules::entry_width_rule))]
fn entry_typed(
    tokens: &[Token],
    name: usize,
    negative: bool,
    digits: usize,
    parts: &mut Parts,
    at: usize,
) -> Result<usize, Stopped>
    requires { length parts.old.entries < most_entries }
    ensures gives { Gives (λ n. (free parts.new, n))
        result (by_held (entry_width_rule negative) tokens.now (name ∷ digits ∷ []) parts.old at) }
    ensures within { IfOk result (λ n. (at ≤ n) × (n ≤ length tokens.now)) }
{
    let Some(width) = width_of(word_at(tokens, at)) else {
        return Err(Stopped::At(at, Expected::Width));
    };
    if !has_room(width, negative, number_at(tokens, digits)) {
        return Err(Stopped::At(at, Expected::Other));
    }
    add_entry(
        parts,
        name,
        EntryValue::Integer {
            negative,
            token: digits,
            width,
        },
    )?;
    Ok(at + 1)
}

/// An integer, with its width or without. The token `name` is held.
#[tactic(auto, unfolding(crate::specs::Rules::entry_number_rule))]
fn entry_number(
    tokens: &[Token],
    name: usize,
    negative: bool,
    due: Expected,
    parts: &mut Parts,
    at: usize,
) -> Result<usize, Stopped>
    requires { length parts.old.entries < most_entries }
    ensures gives { (gap : Bool) → Gives (λ n. (free parts.new, n))
        result (by_held (entry_number_rule gap negative due) tokens.now (name ∷ []) parts.old at) }
    ensures within { IfOk result (λ n. (at ≤ n) × (n ≤ length tokens.now)) }
{
    if !looks(tokens, at, TokenKind::Integer) {
        return Err(Stopped::At(at, due));
    }
    if !has_room(Width::I64, negative, number_at(tokens, at)) {
        return Err(Stopped::At(at, Expected::Other));
    }
    let next = at + 1;
    if looks(tokens, next, TokenKind::Mark(b':')) {
        return entry_typed(tokens, name, negative, at, parts, next + 1);
    }
    add_entry(
        parts,
        name,
        EntryValue::Integer {
            negative,
            token: at,
            width: Width::I64,
        },
    )?;
    Ok(next)
}

/// The value of an attribute. The token `name` is held.
#[tactic(auto, unfolding(crate::specs::Rules::entry_value_rule))]
fn entry_value(
    tokens: &[Token],
    name: usize,
    parts: &mut Parts,
    at: usize,
) -> Result<usize, Stopped>
    requires { length parts.old.entries < most_entries }
    ensures gives { Gives (λ n. (free parts.new, n))
        result (by_held entry_value_rule tokens.now (name ∷ []) parts.old at) }
    ensures within { IfOk result (λ n. (at ≤ n) × (n ≤ length tokens.now)) }
{
    if says(tokens, at, b"true") {
        add_entry(parts, name, EntryValue::Truth(true))?;
        return Ok(at + 1);
    }
    if says(tokens, at, b"false") {
        add_entry(parts, name, EntryValue::Truth(false))?;
        return Ok(at + 1);
    }
    if says(tokens, at, b"unit") {
        add_entry(parts, name, EntryValue::Unit)?;
        return Ok(at + 1);
    }
    if is_string(tokens, at) {
        add_entry(parts, name, EntryValue::Text(at))?;
        return Ok(at + 1);
    }
    if looks(tokens, at, TokenKind::Text) {
        return Err(Stopped::At(at, Expected::ListEnd));
    }
    if looks(tokens, at, TokenKind::Mark(b'-')) {
        return entry_number(tokens, name, true, Expected::Other, parts, at + 1);
    }
    entry_number(tokens, name, false, Expected::AttributeValue, parts, at)
}

/// An attribute: a word, and `=` and a value or neither.
#[tactic(auto, unfolding(crate::specs::Rules::entry_rule))]
pub fn entry_at(tokens: &[Token], parts: &mut Parts, at: usize) -> Result<usize, Stopped>
    ensures gives { Gives (λ n. (free parts.new, n)) result (by entry_rule tokens.now parts.old at) }
    ensures within { IfOk result (λ n. (at ≤ n) × (n ≤ length tokens.now)) }
{
    if !is_name(tokens, at) {
        if looks(tokens, at, TokenKind::Word) {
            return Err(Stopped::At(at, Expected::ListEnd));
        }
        return Err(Stopped::At(at, Expected::Other));
    }
    if parts.entries.len() >= MOST_ENTRIES {
        return Err(Stopped::At(at, Expected::ListEnd));
    }
    let next = at + 1;
    if looks(tokens, next, TokenKind::Mark(b'=')) {
        return entry_value(tokens, at, parts, next + 1);
    }
    add_entry(parts, at, EntryValue::Unit)?;
    Ok(next)
}
