//! Single words and numbers, appended to the line so far. They refuse for want of memory alone.
ghost use Rattle.std.specs.Prelude.{◌≡◌, ◌++◌, OnOk, decimal};
ghost use Rattle.std.specs.Fmt.{signed_decimal};
ghost use Rattle.xf_grammar.specs.Grammar.{gap_of};
ghost use Rattle.xf_grammar.specs.Layout.{gap_text};

use itoa::Buffer;
use xf_type::NoMemory;

/// Appends a blank, or nothing.
pub fn write_gap(gap: bool, line: &mut Vec<u8>) -> Result<(), NoMemory>
    ensures { OnOk result (line.new.items ≡ line.old.items ++ gap_text (gap_of gap)) }
{
    if gap {
        line.push(b' ')?;
    }
    Ok(())
}

/// Appends a word, with a blank before it or none.
pub fn write_word(gap: bool, word: &[u8], line: &mut Vec<u8>) -> Result<(), NoMemory>
    ensures { OnOk result (line.new.items ≡ line.old.items ++ (gap_text (gap_of gap) ++ word.now)) }
{
    write_gap(gap, line)?;
    line.extend_from_slice(word)
}

/// Appends a number.
pub fn write_number(number: u128, line: &mut Vec<u8>) -> Result<(), NoMemory>
    ensures { OnOk result (line.new.items ≡ line.old.items ++ decimal number) }
{
    line.extend_from_slice(Buffer::new().format(number).as_bytes())
}

/// Appends a number with its sign.
pub fn write_integer(number: i128, line: &mut Vec<u8>) -> Result<(), NoMemory>
    ensures { OnOk result (line.new.items ≡ line.old.items ++ signed_decimal number) }
{
    line.extend_from_slice(Buffer::new().format(number).as_bytes())
}
