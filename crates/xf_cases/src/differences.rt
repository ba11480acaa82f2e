//! What differs between two ends of a call.

use crate::call::Ended;
use crate::case::End;
use std::alloc::AllocError;

/// How many bytes two texts begin with alike.
fn alike(found: &[u8], expected: &[u8]) -> usize {
    let mut count = 0usize;
    for (a, b) in found.iter().zip(expected.iter()) {
        if *a != *b {
            return count;
        }
        count = count.saturating_add(1);
    }
    count
}

/// The line of a text in which a byte stands; the text's end is in its last line.
fn line_at(text: &[u8], at: usize) -> &[u8] {
    let mut line: &[u8] = &[];
    let mut passed = 0usize;
    for part in text.split(|byte| *byte == b'\n') {
        line = part;
        passed = passed.saturating_add(part.len()).saturating_add(1);
        if at < passed {
            return line;
        }
    }
    line
}

/// The number of the line in which a byte stands.
fn line_number(text: &[u8], at: usize) -> usize {
    let prefix = text.get(..at).unwrap_or(text);
    let mut number = 1usize;
    for byte in prefix {
        if *byte == b'\n' {
            number = number.saturating_add(1);
        }
    }
    number
}

/// Adds a line of a text between quotes.
fn add_quoted(into: &mut String, line: &[u8]) -> Result<(), AllocError> {
    match str::from_utf8(line) {
        Ok(text) => write!(into, "{text:?}"),
        Err(_) => write!(into, "{line:?}"),
    }
}

/// Adds the first line in which two texts differ.
fn add_texts(
    into: &mut String,
    name: &str,
    found: &[u8],
    expected: &[u8],
) -> Result<(), AllocError> {
    if found == expected {
        return Ok(());
    }
    let at = alike(found, expected);
    write!(into, "  {name}, line {}: ", line_number(found, at))?;
    add_quoted(into, line_at(found, at))?;
    into.push_str(", expected ")?;
    add_quoted(into, line_at(expected, at))?;
    into.push_str("\n")
}

/// Adds a difference between two words.
fn add_words(into: &mut String, name: &str, found: &str, expected: &str) -> Result<(), AllocError> {
    if found == expected {
        return Ok(());
    }
    writeln!(into, "  {name}: {found}, expected {expected}")
}

/// What was told, as far as it is compared.
fn told_prefix<'a>(found: &'a [u8], end: &End) -> &'a [u8] {
    if end.err_is_prefix {
        found.get(..end.err.len()).unwrap_or(found)
    } else {
        found
    }
}

/// Adds a line for each part in which a call ended otherwise than expected.
pub fn add_differences(into: &mut String, ended: &Ended, end: &End) -> Result<(), AllocError> {
    if ended.status != end.status {
        writeln!(into, "  status: {}, expected {}", ended.status, end.status)?;
    }
    add_texts(into, "out", ended.out.bytes(), end.out.as_slice())?;
    let told = told_prefix(ended.err.bytes(), end);
    add_texts(into, "err", told, end.err.as_slice())?;
    add_words(into, "told", ended.told, end.told.as_str())?;
    add_words(
        into,
        "journal",
        ended.journal.as_str(),
        end.journal.as_str(),
    )
}
