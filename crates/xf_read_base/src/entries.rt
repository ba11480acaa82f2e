//! Discardable attributes.
ghost use Rattle.std.specs.Prelude.{◌≡◌, if◌then◌else◌, map, Some, None, false, IfOk};
ghost use Rattle.xf_format.specs.Parts.{entry_said, value_said};
ghost use Rattle.xf_ir.specs.Walk.{first_of};
ghost use Rattle.xf_read_base.specs.Attributes.{attrs_in, entries_twice};
ghost use Rattle.xf_read_base.specs.Values.{signed, truth_bits, attr_value, attrs_said};

use crate::texts::text;
use std::alloc::Global;
use std::collections::BTreeMap;
use xf_format::{AttrEntry, EntryValue, decoded};
use xf_grammar::number;
use xf_ir::{Attr, AttrList};
use xf_lex::Token;
use xf_type::{AttrValue, ByteList, ListOf, NoMemory, Width, wrap};

/// The integer that digits write, with a `-` before them or not.
pub fn signed(negative: bool, number: u64) -> i128
    ensures { result ≡ signed negative number }
{
    let number = i128::from(number);
    if negative { -number } else { number }
}

/// The bits of a truth value.
pub fn truth_bits(truth: bool) -> u64
    ensures { result ≡ truth_bits truth }
{
    if truth { 1 } else { 0 }
}

/// The value of an attribute. Refuses for want of memory alone.
fn attr_value(alloc: Global, tokens: &[Token], value: EntryValue) -> Result<AttrValue, NoMemory>
    ensures { IfOk result (λ read. read ≡ attr_value (value_said tokens.now value)) }
{
    Ok(match value {
        EntryValue::Unit => AttrValue::Unit,
        EntryValue::Truth(truth) => AttrValue::Int {
            width: Width::I1,
            bits: truth_bits(truth),
        },
        EntryValue::Integer {
            negative,
            token,
            width,
        } => AttrValue::Int {
            width,
            bits: wrap(width, signed(negative, number(text(tokens, token)))),
        },
        EntryValue::Text(token) => AttrValue::Text(decoded(alloc, text(tokens, token))?),
    })
}

/// The attributes of a map, in its order. Refuses for want of memory alone.
fn attributes_of(alloc: Global, values: BTreeMap<&[u8], AttrValue>) -> Result<AttrList, NoMemory>
    ensures { IfOk result (λ attrs. attrs ≡ attrs_in values.entry.entries) }
{
    let mut attrs = AttrList::new(alloc);
    for (name, value) in values {
        let name = ByteList::from_slice(alloc, name)?;
        attrs.push(Attr { name, value })?;
    }
    Ok(attrs)
}

/// The first token that is refused: one of those before, or this one where it is refused too.
fn first_twice(before: Option<usize>, is_twice: bool, at: usize) -> Option<usize>
    ensures { result ≡ first_of before (if is_twice then Some at else None) }
{
    match before {
        Some(first) => Some(first),
        None if is_twice => Some(at),
        None => None,
    }
}

/// The attributes, sorted by the bytes of their names; and the token of the first whose name stands
/// before. It takes time in the number of entries and its logarithm. Refuses for want of memory
/// alone.
pub fn attributes(
    alloc: Global,
    tokens: &[Token],
    entries: &[AttrEntry],
) -> Result<(AttrList, Option<usize>), NoMemory>
    ensures attrs { IfOk result (λ r. r.0 ≡ attrs_said (map (entry_said tokens.now) entries.now)) }
    ensures twice { IfOk result (λ r. r.1 ≡ entries_twice tokens.now (λ name. false) entries.now) }
{
    let mut values = BTreeMap::new(alloc);
    let mut twice = None;
    for entry in entries {
        let value = attr_value(alloc, tokens, entry.value)?;
        let before = values.insert(text(tokens, entry.name), value)?;
        twice = first_twice(twice, before.is_some(), entry.name);
    }
    Ok((attributes_of(alloc, values)?, twice))
}
