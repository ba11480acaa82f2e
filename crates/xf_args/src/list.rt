//! Arguments, one after another.
ghost use Rattle.std.specs.Prelude.{◌≡◌, ◌≤◌, length, IfOk};
ghost use Rattle.xf_args.specs.Arguments.{argument_at, arguments_of, behind, is_truth, value_of, EndsIn, Lists};

use crate::constant::argument_of;
use std::alloc::{AllocError, Global};
use xf_eval_values::{Held, HeldList};
use xf_format::{FormatElement, Literal, Parts, Row, Stopped, slots_at};
use xf_grammar::{looks, says};
use xf_lex::{Token, TokenKind, tokens};
use xf_read_base::kind_of;
use xf_span::LexFault;
use xf_type::{ListOf, NoMemory};

fn is_truth(literal: Option<Literal>) -> bool
    ensures { result ≡ is_truth literal }
{
    matches!(literal, Some(Literal::Truth(_)))
}

/// Where an argument ends.
fn behind(tokens: &[Token], literal: Option<Literal>, at: usize) -> usize
    requires { at ≤ length tokens.now }
    ensures value { result ≡ behind tokens.now literal at }
    ensures within { result ≤ length tokens.now }
{
    if is_truth(literal)
        && looks(tokens, at, TokenKind::Mark(b':'))
        && says(tokens, at + 1, b"i1")
    {
        at + 2
    } else {
        at
    }
}

/// The value of a constant with these parts.
fn value_of(alloc: Global, tokens: &[Token], parts: &Parts) -> Result<Option<Held>, NoMemory>
    ensures { IfOk result (λ value. value ≡ value_of tokens.now parts.now) }
{
    let kind = kind_of(alloc, tokens, &[], parts)?;
    argument_of(alloc, &kind)
}

/// The argument at a token, and where it ends. Refuses for want of memory alone.
fn argument_at(
    alloc: Global,
    tokens: &[Token],
    at: usize,
) -> Result<Option<(Held, usize)>, NoMemory>
    requires { at ≤ length tokens.now }
    ensures value { IfOk result (λ x. x ≡ argument_at tokens.now at) }
    ensures within { IfOk result (λ x. EndsIn tokens.now x) }
{
    let mut parts = Parts::new(alloc, Row::Constant);
    match slots_at(alloc, tokens, &[FormatElement::Literal], &mut parts, at) {
        Err(Stopped::NoMemory) => Err(AllocError),
        Err(Stopped::At(_, _)) => Ok(None),
        Ok(next) => match value_of(alloc, tokens, &parts)? {
            None => Ok(None),
            Some(value) => Ok(Some((value, behind(tokens, parts.literal, next)))),
        },
    }
}

/// The arguments that tokens list; none where they list none. Refuses for want of memory alone.
pub fn arguments_at(alloc: Global, tokens: &[Token]) -> Result<Option<HeldList>, NoMemory>
    ensures { IfOk result (λ values. values ≡ arguments_of tokens.now) }
{
    let mut values = ListOf::new(alloc);
    if tokens.is_empty() {
        return Ok(Some(values));
    }
    let mut at = 0;
    for turn in 0..tokens.len() {
        let _turn = turn;
        let (value, next) = match argument_at(alloc, tokens, at)? {
            None => return Ok(None),
            Some(found) => found,
        };
        values.push(value)?;
        if next == tokens.len() {
            return Ok(Some(values));
        }
        if !looks(tokens, next, TokenKind::Mark(b',')) {
            return Ok(None);
        }
        at = next + 1;
    }
    Ok(None)
}

/// The arguments that a text lists, in its order; none where it is of no such form. A text of blanks and comments lists
/// no arguments. Takes time in the length of the text and the number of elements of its constants, and refuses for want
/// of memory alone.
pub fn arguments(alloc: Global, text: &[u8]) -> Result<Option<HeldList>, NoMemory>
    ensures { IfOk result (λ values. Lists text.now values) }
{
    match tokens(alloc, text) {
        Ok(tokens) => arguments_at(alloc, tokens.as_slice()),
        Err(LexFault::NoMemory) => Err(AllocError),
        Err(LexFault::At(_)) => Ok(None),
    }
}
