//! The machine that reads a body, token by token.
ghost use Rattle.std.specs.Prelude.{◌≡◌, ◌<◌, ◌≤◌, ◌^◌, ◌+◌, false, length, reverse, IfOk, IsTrue};
ghost use Rattle.xf_grammar.specs.Grammar.{stops};
ghost use Rattle.xf_grammar.specs.Tokens.{terminal_at};
ghost use Rattle.xf_dense.specs.declared.state.State.{State};
ghost use Rattle.xf_dense.specs.Actions.{free, add, shape_is};
ghost use Rattle.xf_dense.specs.Machine.{language, over, takes_literals, takes_lists, inner, wanted, may_go_on};
ghost use Rattle.xf_dense.specs.Machine.{may_end, list_begins, item_begins, step, comma_follows, list_ends};
ghost use Rattle.xf_dense.specs.Machine.{behind_list, outer, due_at};
ghost use Rattle.xf_dense.specs.Reading.{body_at, Gives, RankAtMost, literal_at, literal_read, moved, Within};

use crate::body::{Body, ExtentList, Literal};
use crate::expected::{Due, Stopped};
use crate::state::{Stage, State};
use std::alloc::Global;
use std::mem;
use xf_grammar::{looks, says};
use xf_lex::{Token, TokenKind};
use xf_type::ListOf;

/// How many literals a body may have.
const MOST_LITERALS: usize = 0xffff_ffff;

/// Whether the items of the innermost list may be literals.
fn takes_literals(rank: Option<usize>) -> bool
    ensures { result ≡ takes_literals rank }
{
    match rank {
        None => true,
        Some(rank) => rank == 0,
    }
}

/// Whether they may be lists.
fn takes_lists(rank: Option<usize>) -> bool
    ensures { result ≡ takes_lists rank }
{
    rank != Some(0)
}

/// How deep the items of an item are.
fn inner(rank: Option<usize>) -> Option<usize>
    ensures { result ≡ inner rank }
{
    match rank {
        Some(rank) if rank > 0 => Some(rank - 1),
        _ => None,
    }
}

/// How many items the innermost list is to have, where one of its level is closed.
fn wanted(rank: Option<usize>, known: &ExtentList) -> Option<usize>
    ensures { result ≡ wanted rank known.now }
{
    match rank {
        Some(rank) => known.get(rank).copied(),
        None => None,
    }
}

/// Whether a list with so many items may have one more.
fn may_go_on(wanted: Option<usize>, count: usize) -> bool
    ensures { result ≡ may_go_on wanted count }
{
    match wanted {
        Some(most) => count < most,
        None => true,
    }
}

/// Whether a list with so many items may end.
fn may_end(wanted: Option<usize>, count: usize) -> bool
    ensures { result ≡ may_end wanted count }
{
    match wanted {
        Some(all) => count == all,
        None => true,
    }
}

/// How deep a list is whose items are this deep.
fn outer(rank: Option<usize>) -> Option<usize>
    requires { RankAtMost (2 ^ 63) rank }
    ensures { result ≡ outer rank }
{
    match rank {
        Some(rank) => Some(rank + 1),
        None => None,
    }
}

/// A list is opened.
fn list_begins(
    tokens: &[Token],
    state: &mut State,
    body: &mut Body,
    at: usize,
) -> Result<(), Stopped>
    requires within { Within at state.old }
    ensures gives { Gives (λ _. ((state.new, free body.new), at + 1)) result
        (moved (list_begins state.old) (terminal_at tokens.now at) (free body.old) at) }
    ensures within { IfOk result (λ _. Within (at + 1) state.new) }
{
    if !takes_lists(state.rank) {
        return Err(Stopped::At(at, Due::Other));
    }
    state.counts.push(0)?;
    state.stage = Stage::Item;
    state.rank = inner(state.rank);
    Ok(())
}

/// A literal is read.
fn literal_ends(
    literal: Literal,
    state: &mut State,
    body: &mut Body,
    at: usize,
) -> Result<(), Stopped>
    requires small { at < 2 ^ 63 }
    requires within { Within at state.old }
    ensures gives { Gives (λ _. ((state.new, free body.new), at + 1)) result
        (literal_read literal state.old body.old at) }
    ensures within { IfOk result (λ _. Within (at + 1) state.new) }
{
    if body.literals.len() >= MOST_LITERALS {
        return Err(Stopped::At(at, Due::End));
    }
    body.literals.push(literal)?;
    match state.counts.pop() {
        None => state.stage = Stage::End,
        Some(count) => {
            state.counts.push(count + 1)?;
            state.stage = Stage::Behind;
            state.rank = Some(0);
        }
    }
    Ok(())
}

/// The literal of one token that stands there.
fn literal_at(tokens: &[Token], at: usize) -> Option<Literal>
    ensures { result ≡ literal_at (terminal_at tokens.now at) at }
{
    if looks(tokens, at, TokenKind::Integer) {
        Some(Literal::Integer {
            negative: false,
            token: at,
        })
    } else if says(tokens, at, b"true") {
        Some(Literal::Truth(true))
    } else if says(tokens, at, b"false") {
        Some(Literal::Truth(false))
    } else {
        None
    }
}

/// An item begins.
fn item_begins(
    tokens: &[Token],
    state: &mut State,
    body: &mut Body,
    at: usize,
) -> Result<(), Stopped>
    requires small { at < 2 ^ 63 }
    requires within { Within at state.old }
    ensures gives { Gives (λ _. ((state.new, free body.new), at + 1)) result
        (moved (item_begins state.old (terminal_at tokens.now at)) (terminal_at tokens.now at) (free body.old) at) }
    ensures within { IfOk result (λ _. Within (at + 1) state.new) }
{
    if looks(tokens, at, TokenKind::Mark(b'[')) {
        return list_begins(tokens, state, body, at);
    }
    let negative = looks(tokens, at, TokenKind::Mark(b'-'));
    match literal_at(tokens, at) {
        None if !negative => Err(Stopped::At(at, Due::Item)),
        _ if !takes_literals(state.rank) => Err(Stopped::At(at, Due::Other)),
        Some(literal) => literal_ends(literal, state, body, at),
        None => {
            state.stage = Stage::Digits;
            Ok(())
        }
    }
}

/// A comma, behind an item.
fn comma_follows(
    tokens: &[Token],
    state: &mut State,
    body: &mut Body,
    at: usize,
) -> Result<(), Stopped>
    requires within { Within at state.old }
    ensures gives { Gives (λ _. ((state.new, free body.new), at + 1)) result
        (moved (comma_follows state.old.counts state.old) (terminal_at tokens.now at) (free body.old) at) }
    ensures within { IfOk result (λ _. Within (at + 1) state.new) }
{
    match state.counts.pop() {
        Some(count) if may_go_on(wanted(state.rank, &state.known), count) => {
            state.counts.push(count)?;
            state.stage = Stage::Item;
            Ok(())
        }
        _ => Err(Stopped::At(at, Due::Other)),
    }
}

/// The outermost list is closed: what is known of the lists are the extents of the body.
fn body_ends(alloc: Global, state: &mut State, body: &mut Body)
    ensures state { state.new ≡ over }
    ensures body { free body.new ≡ add (shape_is (reverse state.old.known)) (free body.old) }
{
    let known = mem::replace(&mut state.known, ListOf::new(alloc));
    let mut extents = known.into_vec();
    extents.reverse();
    body.extents = Some(ListOf::from_vec(extents));
    *state = State::new(alloc, Stage::End);
}

/// A list is closed, which is taken from the open ones already.
fn behind_list(
    alloc: Global,
    tokens: &[Token],
    state: &mut State,
    body: &mut Body,
    at: usize,
) -> Result<(), Stopped>
    requires small { at < 2 ^ 63 }
    requires within { Within at state.old }
    ensures gives { Gives (λ _. ((state.new, free body.new), at + 1)) result
        (moved (behind_list state.old.counts (outer state.old.rank) state.old.known) (terminal_at tokens.now at)
        (free body.old) at) }
    ensures within { IfOk result (λ _. Within (at + 1) state.new) }
{
    match state.counts.pop() {
        None => body_ends(alloc, state, body),
        Some(count) => {
            state.counts.push(count + 1)?;
            state.stage = Stage::Behind;
            state.rank = outer(state.rank);
        }
    }
    Ok(())
}

/// A closing bracket, behind an item.
fn list_ends(
    alloc: Global,
    tokens: &[Token],
    state: &mut State,
    body: &mut Body,
    at: usize,
) -> Result<(), Stopped>
    requires small { at < 2 ^ 63 }
    requires within { Within at state.old }
    ensures gives { Gives (λ _. ((state.new, free body.new), at + 1)) result
        (moved (list_ends state.old.counts state.old) (terminal_at tokens.now at) (free body.old) at) }
    ensures within { IfOk result (λ _. Within (at + 1) state.new) }
{
    let wanted = wanted(state.rank, &state.known);
    match state.counts.pop() {
        Some(count) if may_end(wanted, count) => {
            if wanted.is_none() {
                state.known.push(count)?;
            }
            behind_list(alloc, tokens, state, body, at)
        }
        _ => Err(Stopped::At(at, Due::Other)),
    }
}

/// One turn of the machine, at a token before which it does not end.
fn turn(
    alloc: Global,
    tokens: &[Token],
    state: &mut State,
    body: &mut Body,
    at: usize,
) -> Result<(), Stopped>
    requires goes_on { stops language state.old (terminal_at tokens.now at) ≡ false }
    requires small { at < 2 ^ 63 }
    requires within { Within at state.old }
    ensures gives { Gives (λ _. ((state.new, free body.new), at + 1)) result
        (moved (step state.old (terminal_at tokens.now at)) (terminal_at tokens.now at) (free body.old) at) }
    ensures within { IfOk result (λ _. Within (at + 1) state.new) }
{
    match state.stage {
        Stage::Start | Stage::Item => item_begins(tokens, state, body, at),
        Stage::Digits if looks(tokens, at, TokenKind::Integer) => {
            let literal = Literal::Integer {
                negative: true,
                token: at,
            };
            literal_ends(literal, state, body, at)
        }
        Stage::Behind if looks(tokens, at, TokenKind::Mark(b',')) => comma_follows(
            tokens, state, body, at,
        ),
        Stage::Behind if looks(tokens, at, TokenKind::Mark(b']')) => list_ends(
            alloc, tokens, state, body, at,
        ),
        _ => Err(Stopped::At(at, Due::Other)),
    }
}

/// What is due at the end of a text, at which no body ends.
fn due_at(stage: Stage) -> Due
    ensures { result ≡ due_at stage }
{
    match stage {
        Stage::Start | Stage::Item => Due::Item,
        Stage::Digits | Stage::Behind | Stage::End => Due::Other,
    }
}

/// Whether a body ends before the token that stands there.
fn ends(tokens: &[Token], stage: Stage, at: usize) -> bool
    ensures within { IsTrue result → at < length tokens.now }
    ensures value { (state : State) → state.stage ≡ stage → result ≡ stops language state (terminal_at tokens.now at) }
{
    match stage {
        Stage::Start | Stage::End => looks(tokens, at, TokenKind::Mark(b'>')),
        _ => false,
    }
}

/// The body of a dense constant that begins with the token `at`, and the number of the token behind it,
/// which is its `>`. It refuses with the first token that fits no body, which is the end where all before
/// fit, and with what was due there; or for want of memory. It takes time and memory in the number of tokens,
/// and no more calls inside one another where lists are deep.
pub fn body_at(alloc: Global, tokens: &[Token], at: usize) -> Result<(Body, usize), Stopped>
    ensures gives { Gives (λ x. (free x.0, x.1)) result (body_at tokens.now at) }
    ensures within { IfOk result (λ x. (at ≤ x.1) × (x.1 < length tokens.now)) }
{
    let mut state = State::new(alloc, Stage::Start);
    let mut body = Body::new(alloc);
    let mut next = at;
    'scan: while !ends(tokens, state.stage, next) {
        if next >= tokens.len() {
            return Err(Stopped::At(next, due_at(state.stage)));
        }
        turn(alloc, tokens, &mut state, &mut body, next)?;
        next += 1;
    }
    Ok((body, next))
}
