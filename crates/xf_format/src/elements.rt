//! The value of a constant that is a tensor.
ghost use Rattle.std.specs.Prelude.{◌≡◌, ◌≤◌, length, IfOk};
ghost use Rattle.xf_dense.specs.Machine.{start};
ghost use Rattle.xf_format.specs.Actions.{free};
ghost use Rattle.xf_format.specs.Parts.{with_body, with_literal};
ghost use Rattle.xf_format.specs.Reading.{Gives};
ghost use Rattle.xf_grammar.specs.Grammar.{scan};
ghost use Rattle.xf_format.specs.Rules.{by, dense_rule, dense_type_rule};
ghost use Rattle.xf_format.specs.Tests.{due_in};
ghost use Rattle.xf_dense.specs.Actions.{no_body};
ghost use Rattle.xf_format.specs.declared.parts.Literal.TheVariants as literal;

use crate::expected::{Expected, Stopped};
use crate::parts::{Literal, MOST_ENTRIES, Parts};
use crate::single::{expects, shape_at};
use std::alloc::Global;
use xf_dense::{Body, Due, Stopped as BodyStopped, body_at as read_body, fits_shape};
use xf_grammar::says;
use xf_lex::{Token, TokenKind};
use xf_type::PayloadType;

/// What is due in a body is due in the operation.
fn due_in(due: Due) -> Expected
    ensures { result ≡ due_in due }
{
    match due {
        Due::Item => Expected::DenseItem,
        Due::End => Expected::ListEnd,
        Due::Other => Expected::Other,
    }
}

/// The value is a tensor, and its body follows.
fn begin_elements(alloc: Global, parts: &mut Parts)
    ensures { parts.new ≡ with_body no_body (with_literal literal.Elements parts.old) }
{
    parts.literal = Some(Literal::Elements);
    parts.dense = Body::new(alloc);
}

/// The body of a tensor.
fn body_at(alloc: Global, tokens: &[Token], parts: &mut Parts, at: usize) -> Result<usize, Stopped>
    requires { parts.old.dense ≡ no_body }
    ensures gives { Gives (λ n. (free parts.new, n)) result (by (scan start) tokens.now parts.old at) }
    ensures within { IfOk result (λ n. (at ≤ n) × (n ≤ length tokens.now)) }
{
    match read_body(alloc, tokens, at) {
        Ok((body, next)) => {
            parts.dense = body;
            Ok(next)
        }
        Err(BodyStopped::NoMemory) => Err(Stopped::NoMemory),
        Err(BodyStopped::At(place, due)) => Err(Stopped::At(place, due_in(due))),
    }
}

/// The type for whose elements the body stands.
#[tactic(auto, unfolding(crate::specs::Rules::dense_type_rule))]
fn dense_type_at(
    alloc: Global,
    tokens: &[Token],
    parts: &mut Parts,
    at: usize,
) -> Result<usize, Stopped>
    ensures gives { Gives (λ n. (free parts.new, n)) result (by dense_type_rule tokens.now parts.old at) }
    ensures within { IfOk result (λ n. (at ≤ n) × (n ≤ length tokens.now)) }
{
    if !says(tokens, at, b"tensor") {
        return Err(Stopped::At(at, Expected::Type));
    }
    if parts.types.len() >= MOST_ENTRIES {
        return Err(Stopped::At(at, Expected::ListEnd));
    }
    let next = at + 1;
    let shape = shape_at(alloc, tokens, next)?;
    if !fits_shape(&parts.dense, &shape) {
        return Err(Stopped::At(next, Expected::Other));
    }
    parts.types.push(PayloadType::Tensor(shape))?;
    Ok(next + 1)
}

/// The body and the type of a tensor, behind the word `dense`.
#[tactic(auto, unfolding(crate::specs::Rules::dense_rule))]
pub fn dense_at(
    alloc: Global,
    tokens: &[Token],
    parts: &mut Parts,
    at: usize,
) -> Result<usize, Stopped>
    ensures gives { Gives (λ n. (free parts.new, n)) result (by dense_rule tokens.now parts.old at) }
    ensures within { IfOk result (λ n. (at ≤ n) × (n ≤ length tokens.now)) }
{
    begin_elements(alloc, parts);
    let at = expects(tokens, TokenKind::Mark(b'<'), Expected::Other, parts, at)?;
    let at = body_at(alloc, tokens, parts, at)?;
    let at = expects(tokens, TokenKind::Mark(b'>'), Expected::Other, parts, at)?;
    let at = expects(tokens, TokenKind::Mark(b':'), Expected::Other, parts, at)?;
    dense_type_at(alloc, tokens, parts, at)
}
