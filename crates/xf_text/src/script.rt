//! The schedule of a run.
ghost use Rattle.std.specs.Prelude.{◌≡◌, map, true, false, IfOk};
ghost use Rattle.xf_lex.specs.Layout.{plain};
ghost use Rattle.xf_text.specs.Script.{any_op, IsScript};
ghost use Rattle.xf_text.specs.Reading.{Gives, behind, sequence_front, step_front, yield_front, script_front};
ghost use Rattle.xf_text.specs.Reading.{script_read};

use crate::cursor::Cursor;
use std::alloc::{AllocError, Global};
use xf_lex::{Token, TokenKind, tokens};
use xf_span::LexFault;
use xf_type::NoMemory;

/// `!transform.any_op`.
fn handle_type(cursor: &mut Cursor) -> Option<()>
    ensures { Gives (λ _. cursor.new) result (behind any_op cursor.old) }
{
    cursor.expect(TokenKind::DialectType, b"!transform.any_op")
}

/// The module and its main sequence, up to the `{` of that, with the name of its argument.
#[tactic(auto, unfolding(crate::specs::Reading::sequence_front))]
fn sequence<'a>(cursor: &mut Cursor<'a>) -> Option<&'a [u8]>
    ensures { Gives (λ name. (name.now, cursor.new)) result (sequence_front cursor.old) }
{
    cursor.word(b"module")?;
    cursor.word(b"attributes")?;
    cursor.mark(b'{')?;
    cursor.word(b"transform.with_named_sequence")?;
    cursor.mark(b'}')?;
    cursor.mark(b'{')?;
    cursor.word(b"transform.named_sequence")?;
    cursor.expect(TokenKind::Symbol, b"@__transform_main")?;
    cursor.mark(b'(')?;
    let argument = cursor.bytes(TokenKind::Value)?;
    cursor.mark(b':')?;
    handle_type(cursor)?;
    cursor.mark(b')')?;
    cursor.mark(b'{')?;
    Some(argument)
}

/// The step that erases dead code, with the name of its target.
#[tactic(auto, unfolding(crate::specs::Reading::step_front))]
fn step<'a>(cursor: &mut Cursor<'a>) -> Option<&'a [u8]>
    ensures { Gives (λ name. (name.now, cursor.new)) result (step_front cursor.old) }
{
    cursor.word(b"transform.apply_dce")?;
    cursor.word(b"to")?;
    let target = cursor.bytes(TokenKind::Value)?;
    cursor.mark(b':')?;
    handle_type(cursor)?;
    Some(target)
}

/// The end of the sequence, which may be left out.
#[tactic(auto, unfolding(crate::specs::Reading::yield_front))]
fn yield_step(cursor: &mut Cursor) -> Option<()>
    ensures { Gives (λ _. cursor.new) result (yield_front cursor.old) }
{
    if cursor.is_at_word(b"transform.yield") {
        cursor.word(b"transform.yield")
    } else {
        Some(())
    }
}

#[tactic(auto, unfolding(crate::specs::Reading::script_front))]
fn script<'a>(cursor: &mut Cursor<'a>) -> Option<&'a [u8]>
    ensures { Gives (λ name. (name.now, cursor.new)) result (script_front cursor.old) }
{
    let argument = sequence(cursor)?;
    let target = step(cursor)?;
    if argument != target {
        return None;
    }
    yield_step(cursor)?;
    cursor.mark(b'}')?;
    cursor.mark(b'}')?;
    Some(argument)
}

/// The name of a script's argument.
#[tactic(auto, unfolding(crate::specs::Reading::script_read))]
fn argument<'a>(tokens: &'a [Token<'a>]) -> Option<&'a [u8]>
    ensures { Gives (λ name. name.now) result (script_read (map plain tokens.now)) }
{
    let mut cursor = Cursor::new(tokens);
    let argument = script(&mut cursor)?;
    if !cursor.is_at_end() {
        return None;
    }
    Some(argument)
}

/// Whether a text is the schedule that erases the dead code of its argument. It takes time in the length of the text.
pub fn is_script(alloc: Global, bytes: &[u8]) -> Result<bool, NoMemory>
    ensures yes { IfOk result (λ answer. answer ≡ true → IsScript bytes.now) }
    ensures no { IfOk result (λ answer. answer ≡ false → IsScript bytes.now → ⊥) }
{
    match tokens(alloc, bytes) {
        Ok(tokens) => Ok(argument(tokens.as_slice()).is_some()),
        Err(LexFault::At(_)) => Ok(false),
        Err(LexFault::NoMemory) => Err(AllocError),
    }
}
