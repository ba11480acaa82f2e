//! The dimensions of a map, and those that it gives.
ghost use Rattle.std.specs.Prelude.{◌≡◌, ◌<◌, ◌≤◌, length, IfOk, OnOk, IsTrue};
ghost use Rattle.std.specs.List.{list_all};
ghost use Rattle.xf_type.specs.Bytes.{is_digit};
ghost use Rattle.xf_grammar.specs.Tokens.{word_at, terminal_at};
ghost use Rattle.xf_format.specs.Actions.{free};
ghost use Rattle.xf_format.specs.Parts.{giving, widened, with_map};
ghost use Rattle.xf_format.specs.Reading.{Gives};
ghost use Rattle.xf_format.specs.Rules.{by, dimension_rule, given_rule};
ghost use Rattle.xf_format.specs.Tests.{gives};
ghost use Rattle.xf_format.specs.Words.{dimension_by, dimension_of, leads};

use crate::expected::{Expected, Stopped};
use crate::parts::{MOST_ENTRIES, Parts};
use xf_grammar::{number, word_at};
use xf_lex::Token;
use xf_type::{AffineMap, NoMemory, is_digit};

/// Whether all bytes are digits.
fn are_digits(bytes: &[u8]) -> bool
    ensures { result ≡ list_all is_digit bytes.now }
{
    for b in bytes {
        if !is_digit(*b) {
            return false;
        }
    }
    true
}

/// Whether some digits begin with no 0 that stands before others.
fn leads(digits: &[u8]) -> bool
    ensures { result ≡ leads digits.now }
{
    match digits {
        [] => false,
        [_] => true,
        [first, ..] => *first != b'0',
    }
}

/// The dimension that a word means.
fn dimension_of(word: &[u8]) -> Option<u64>
    ensures { result ≡ dimension_of word.now }
{
    match word {
        [b'd', digits @ ..] if are_digits(digits) && leads(digits) => Some(number(digits)),
        _ => None,
    }
}

/// Whether a map gives a dimension. It takes time in the number of its results.
fn gives(results: &[u32], dimension: u32) -> bool
    ensures { result ≡ gives results.now dimension }
{
    for given in results {
        if *given == dimension {
            return true;
        }
    }
    false
}

/// One dimension more.
fn widen(parts: &mut Parts)
    requires { parts.old.map.dims < 4294967295 }
    ensures { parts.new ≡ with_map (widened parts.old.map) parts.old }
{
    parts.map.dims += 1;
}

/// The next dimension of a map.
#[tactic(auto, unfolding(crate::specs::Rules::dimension_rule))]
pub fn dimension_at(tokens: &[Token], parts: &mut Parts, at: usize) -> Result<usize, Stopped>
    ensures gives { Gives (λ n. (free parts.new, n)) result (by dimension_rule tokens.now parts.old at) }
    ensures within { IfOk result (λ n. (at ≤ n) × (n ≤ length tokens.now)) }
{
    match dimension_of(word_at(tokens, at)) {
        Some(next) if next == u64::from(parts.map.dims) => {
            if parts.map.dims == u32::MAX {
                return Err(Stopped::At(at, Expected::ListEnd));
            }
            widen(parts);
            Ok(at + 1)
        }
        _ => Err(Stopped::At(at, Expected::Other)),
    }
}

/// Adds a dimension that a map gives.
fn give(dimension: u32, map: &mut AffineMap) -> Result<(), NoMemory>
    ensures { OnOk result (map.new ≡ giving dimension map.old) }
{
    map.results.push(dimension)
}

/// A dimension that a map gives.
#[tactic(auto, unfolding(crate::specs::Rules::given_rule))]
pub fn given_at(tokens: &[Token], parts: &mut Parts, at: usize) -> Result<usize, Stopped>
    ensures gives { Gives (λ n. (free parts.new, n)) result (by given_rule tokens.now parts.old at) }
    ensures within { IfOk result (λ n. (at ≤ n) × (n ≤ length tokens.now)) }
{
    let dimension = match dimension_of(word_at(tokens, at)) {
        Some(dimension) if dimension < u64::from(parts.map.dims) => dimension as u32,
        _ => return Err(Stopped::At(at, Expected::MapResult)),
    };
    if gives(parts.map.results.as_slice(), dimension) {
        return Err(Stopped::At(at, Expected::DimensionTwice));
    }
    if parts.map.results.len() >= MOST_ENTRIES {
        return Err(Stopped::At(at, Expected::ListEnd));
    }
    give(dimension, &mut parts.map)?;
    Ok(at + 1)
}
