//! Heads of operations.
ghost use Rattle.std.specs.Prelude.{◌≡◌, ◌<◌, ◌≤◌, [], ◌∷◌, length, IfOk};
ghost use Rattle.xf_format.specs.Actions.{free};
ghost use Rattle.xf_format.specs.Format.{due_before, format, payload_head_at};
ghost use Rattle.xf_format.specs.Reading.{Gives};
ghost use Rattle.xf_format.specs.Rules.{by, by_held, due_at, defines_rule, row_rule, head_rule};

use crate::expected::{Expected, Stopped};
use crate::parts::{Parts, Ref};
use crate::row::{Level, Row, has_operations, row_slots, stands};
use crate::single::{count_at, expects};
use crate::slot::slots_at;
use crate::word::row_of;
use std::alloc::Global;
use xf_grammar::{looks, word_at};
use xf_lex::{Token, TokenKind};

/// What stands behind the name of results, which is the token `name`, up to the word of the operation.
#[tactic(auto, unfolding(crate::specs::Rules::defines_rule))]
fn defines_at(tokens: &[Token], name: usize, parts: &mut Parts, at: usize) -> Result<usize, Stopped>
    ensures gives { Gives (λ n. (free parts.new, n)) result (by_held defines_rule tokens.now (name ∷ []) parts.old at) }
    ensures within { IfOk result (λ n. (at ≤ n) × (n ≤ length tokens.now)) }
{
    let mut count = 1;
    let mut next = at;
    if looks(tokens, at, TokenKind::Mark(b':')) {
        next = at + 1;
        if !looks(tokens, next, TokenKind::Integer) {
            return Err(Stopped::At(next, Expected::Other));
        }
        count = count_at(tokens, next);
        next = next + 1;
    }
    parts.defines.push(Ref { token: name, count })?;
    expects(tokens, TokenKind::Mark(b'='), Expected::Other, parts, next)
}

/// What is due where an operation begins.
pub fn due_at(level: Level) -> Expected
    ensures { result ≡ due_at level }
{
    match level {
        Level::File => Expected::File,
        Level::Functions => Expected::Function,
        Level::Body | Level::Any => Expected::Operation,
    }
}

/// What is due where a body of an operation begins.
pub fn due_before(row: Row) -> Expected
    ensures { result ≡ due_before row }
{
    match row {
        Row::Function => Expected::FunctionBody,
        _ => Expected::Other,
    }
}

/// The word of an operation, and its row.
#[tactic(auto, unfolding(crate::specs::Rules::row_rule))]
fn row_at(tokens: &[Token], level: Level, parts: &mut Parts, at: usize) -> Result<usize, Stopped>
    ensures gives { Gives (λ n. (free parts.new, n)) result (by (row_rule level) tokens.now parts.old at) }
    ensures within { IfOk result (λ n. (at < n) × (n ≤ length tokens.now)) }
{
    match row_of(word_at(tokens, at)) {
        Some(row) if stands(level, row) => {
            parts.row = row;
            Ok(at + 1)
        }
        _ => Err(Stopped::At(at, due_at(level))),
    }
}

/// The names of the results of an operation, and its word.
#[tactic(auto, unfolding(crate::specs::Rules::head_rule))]
fn begin_at(tokens: &[Token], level: Level, parts: &mut Parts, at: usize) -> Result<usize, Stopped>
    ensures gives { Gives (λ n. (free parts.new, n)) result (by (head_rule level) tokens.now parts.old at) }
    ensures within { IfOk result (λ n. (at < n) × (n ≤ length tokens.now)) }
{
    if has_operations(level) && looks(tokens, at, TokenKind::Value) {
        let next = defines_at(tokens, at, parts, at + 1)?;
        return row_at(tokens, Level::Body, parts, next);
    }
    row_at(tokens, level, parts, at)
}

/// The head of the operation at a token and its slots, and the number of the token behind them. It
/// refuses with the first token that fits no head, which is the end where all before fit, and with what
/// was due there.
pub fn head_at(
    alloc: Global,
    tokens: &[Token],
    level: Level,
    at: usize,
) -> Result<(Parts, usize), Stopped>
    ensures gives { Gives (λ x. ((x.0.row, free x.0), x.1)) result (payload_head_at tokens.now level at) }
    ensures within { IfOk result (λ x. (at < x.1) × (x.1 ≤ length tokens.now)) }
{
    let mut parts = Parts::new(alloc, Row::Module);
    let next = begin_at(tokens, level, &mut parts, at)?;
    let slots = row_slots(parts.row);
    let next = slots_at(alloc, tokens, slots, &mut parts, next)?;
    Ok((parts, next))
}

/// Whether the terminator of an operation's bodies may be left out: of a loop and an if without results.
pub fn may_end_open(parts: &Parts) -> bool
    ensures { result ≡ format.ends_open parts.now }
{
    match parts.row {
        Row::For | Row::If => parts.results.is_empty(),
        _ => false,
    }
}
