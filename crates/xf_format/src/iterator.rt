//! Iterator types.
ghost use Rattle.std.specs.Prelude.{◌≡◌, ◌<◌, ◌≤◌, length, IfOk, OnOk, IsTrue};
ghost use Rattle.xf_grammar.specs.Tokens.{terminal_at};
ghost use Rattle.xf_format.specs.Actions.{free};
ghost use Rattle.xf_format.specs.Parts.{with_iterator};
ghost use Rattle.xf_format.specs.Reading.{Gives};
ghost use Rattle.xf_format.specs.Rules.{by, iterator_rule};
ghost use Rattle.xf_format.specs.Tests.{stands_for};

use crate::expected::{Expected, Stopped};
use crate::parts::{MOST_ENTRIES, Parts};
use crate::quoted::stands_for as bytes_stand_for;
use xf_ir::IteratorKind;
use xf_lex::{Token, TokenKind};
use xf_type::NoMemory;

/// Whether a string stands there that stands for these bytes.
fn stands_for(tokens: &[Token], bytes: &[u8], at: usize) -> bool
    ensures value { result ≡ stands_for bytes.now (terminal_at tokens.now at) }
    ensures within { IsTrue result → at < length tokens.now }
{
    if at >= tokens.len() {
        return false;
    }
    let token = &tokens[at];
    match token.kind {
        TokenKind::Text => bytes_stand_for(token.bytes.as_slice(), bytes),
        _ => false,
    }
}

/// Adds an iterator type.
fn add_iterator(kind: IteratorKind, parts: &mut Parts) -> Result<(), NoMemory>
    ensures { OnOk result (parts.new ≡ with_iterator kind parts.old) }
{
    parts.iterators.push(kind)
}

/// An iterator type in quotes.
#[tactic(auto, unfolding(crate::specs::Rules::iterator_rule))]
pub fn iterator_at(tokens: &[Token], parts: &mut Parts, at: usize) -> Result<usize, Stopped>
    ensures gives { Gives (λ n. (free parts.new, n)) result (by iterator_rule tokens.now parts.old at) }
    ensures within { IfOk result (λ n. (at ≤ n) × (n ≤ length tokens.now)) }
{
    let kind = if stands_for(tokens, b"parallel", at) {
        IteratorKind::Parallel
    } else if stands_for(tokens, b"reduction", at) {
        IteratorKind::Reduction
    } else {
        return Err(Stopped::At(at, Expected::Other));
    };
    if parts.iterators.len() >= MOST_ENTRIES {
        return Err(Stopped::At(at, Expected::ListEnd));
    }
    add_iterator(kind, parts)?;
    Ok(at + 1)
}
