//! Texts as case files spell them.

use crate::fault::Cause;
use std::alloc::Global;

/// A text of a heading.
#[derive(Clone, Copy)]
pub enum Text<'a> {
    /// `"TEXT"`, or `N times "TEXT"`.
    Quoted { times: u64, spelt: &'a str },
    /// `lines`: the lines that follow, up to `--`.
    Lines,
}

impl<'a> Text<'a> {
    /// Reads a text behind its heading.
    pub fn parse(word: &'a str) -> Result<Text<'a>, Cause> {
        if word == "lines" {
            return Ok(Text::Lines);
        }
        if let Some(spelt) = quoted(word) {
            return Ok(Text::Quoted { times: 1, spelt });
        }
        let Some((number, rest)) = word.split_once(" times ") else {
            return Err(Cause::NoText);
        };
        match (number.parse::<u64>(), quoted(rest)) {
            (Ok(times), Some(spelt)) => Ok(Text::Quoted { times, spelt }),
            _ => Err(Cause::NoText),
        }
    }
}

/// What stands between the quotes at the ends of a word. Quotes in between stand for themselves.
fn quoted(word: &str) -> Option<&str> {
    word.strip_prefix('"')?.strip_suffix('"')
}

/// Where a byte of a quoted text stands.
#[derive(Clone, Copy)]
enum State {
    Plain,
    /// Behind a backslash.
    Escape,
    /// Behind `\x`.
    HighDigit,
    /// Behind `\x` and a digit of this value.
    LowDigit(u8),
}

fn digit(byte: u8) -> Result<u8, Cause> {
    match char::from(byte).to_digit(16) {
        Some(value) => u8::try_from(value).map_err(|_| Cause::BadEscape),
        None => Err(Cause::BadEscape),
    }
}

/// Adds a number in decimal digits.
fn add_number(alloc: Global, into: &mut Vec<u8>, number: u64) -> Result<(), Cause> {
    let digits = format!(in alloc; "{number}")?;
    into.extend_from_slice(digits.as_bytes())?;
    Ok(())
}

/// Adds what an escape stands for: `\n`, `\t`, `\r`, `\\`, the number of the turn as `\#`, and the next one as `\+`.
fn add_escaped(alloc: Global, into: &mut Vec<u8>, byte: u8, turn: u64) -> Result<State, Cause> {
    match byte {
        b'n' => into.push(b'\n')?,
        b't' => into.push(b'\t')?,
        b'r' => into.push(b'\r')?,
        b'\\' => into.push(b'\\')?,
        b'#' => add_number(alloc, into, turn)?,
        b'+' => add_number(alloc, into, turn.saturating_add(1))?,
        b'x' => return Ok(State::HighDigit),
        _ => return Err(Cause::BadEscape),
    }
    Ok(State::Plain)
}

fn add_byte(
    alloc: Global,
    into: &mut Vec<u8>,
    state: State,
    byte: u8,
    turn: u64,
) -> Result<State, Cause> {
    match state {
        State::Plain if byte == b'\\' => Ok(State::Escape),
        State::Plain => {
            into.push(byte)?;
            Ok(State::Plain)
        }
        State::Escape => add_escaped(alloc, into, byte, turn),
        State::HighDigit => Ok(State::LowDigit(digit(byte)?)),
        State::LowDigit(high) => {
            into.push((high << 4) | digit(byte)?)?;
            Ok(State::Plain)
        }
    }
}

/// Adds a quoted text once.
fn add_turn(alloc: Global, into: &mut Vec<u8>, spelt: &str, turn: u64) -> Result<(), Cause> {
    let mut state = State::Plain;
    for byte in spelt.bytes() {
        state = add_byte(alloc, into, state, byte, turn)?;
    }
    match state {
        State::Plain => Ok(()),
        _ => Err(Cause::BadEscape),
    }
}

/// Adds a quoted text so many times; the turns count from 0.
pub fn add_quoted(alloc: Global, into: &mut Vec<u8>, spelt: &str, times: u64) -> Result<(), Cause> {
    for turn in 0..times {
        add_turn(alloc, into, spelt, turn)?;
    }
    Ok(())
}

/// A quoted text as text.
pub fn unquoted(alloc: Global, word: &str) -> Result<String, Cause> {
    let Some(spelt) = quoted(word) else {
        return Err(Cause::NoText);
    };
    let mut bytes = Vec::new(alloc);
    add_turn(alloc, &mut bytes, spelt, 0)?;
    match str::from_utf8(bytes.as_slice()) {
        Ok(text) => Ok(String::from_str(alloc, text)?),
        Err(_) => Err(Cause::NoText),
    }
}
