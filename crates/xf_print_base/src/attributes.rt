//! Dictionaries of attributes, appended to the line so far. They refuse for want of memory alone.
ghost use Rattle.std.specs.Prelude.{◌≡◌, ◌<◌, ◌++◌, OnOk};
ghost use Rattle.std.specs.List.{flat_map};
ghost use Rattle.xf_format.specs.Rules.{attributes_rule, dictionary_rule, entry_rule, language, marked_rule};
ghost use Rattle.xf_grammar.specs.Grammar.{begun, gap_of, listed, written};
ghost use Rattle.xf_grammar.specs.Layout.{text};
ghost use Rattle.xf_print_base.specs.Texts.{value_text};
ghost use Rattle.xf_printed.specs.Attributes.{hex_digit, is_plain, byte_text, string_text};
ghost use Rattle.xf_printed.specs.Items.{attributes_fill, dictionary_fill, entry_fill, rule_text, some_fill};
ghost use Rattle.xf_printed.specs.Structured.{marked_fill};

use crate::number::write_literal;
use crate::words::write_word;
use xf_ir::Attr;
use xf_type::{AttrValue, NoMemory};

fn hex_digit(digit: u8) -> u8
    requires { digit < 16 }
    ensures { result ≡ hex_digit digit }
{
    if digit < 10 { 48 + digit } else { 55 + digit }
}

/// Whether a byte of a string stands for itself.
fn is_plain(byte: u8) -> bool
    ensures { result ≡ is_plain byte }
{
    32 <= byte && byte <= 126 && !(byte == b'"' || byte == b'\\')
}

fn write_byte(byte: u8, line: &mut Vec<u8>) -> Result<(), NoMemory>
    ensures { OnOk result (line.new.items ≡ line.old.items ++ byte_text byte) }
{
    if is_plain(byte) {
        line.push(byte)?;
    } else {
        line.push(b'\\')?;
        line.push(hex_digit(byte / 16))?;
        line.push(hex_digit(byte % 16))?;
    }
    Ok(())
}

fn write_bytes(bytes: &[u8], line: &mut Vec<u8>) -> Result<(), NoMemory>
    ensures { OnOk result (line.new.items ≡ line.old.items ++ flat_map byte_text bytes.now) }
{
    for byte in bytes {
        write_byte(*byte, line)?;
    }
    Ok(())
}

fn write_string(bytes: &[u8], line: &mut Vec<u8>) -> Result<(), NoMemory>
    ensures { OnOk result (line.new.items ≡ line.old.items ++ string_text bytes.now) }
{
    line.push(b'"')?;
    write_bytes(bytes, line)?;
    line.push(b'"')?;
    Ok(())
}

fn write_value(value: &AttrValue, line: &mut Vec<u8>) -> Result<(), NoMemory>
    ensures { OnOk result (line.new.items ≡ line.old.items ++ value_text value.now) }
{
    match value {
        AttrValue::Unit => Ok(()),
        AttrValue::Int { width, bits } => {
            line.extend_from_slice(b" =")?;
            write_literal(*width, u128::from(*bits), line)
        }
        AttrValue::Text(bytes) => {
            line.extend_from_slice(b" = ")?;
            write_string(bytes.as_slice(), line)
        }
    }
}

#[tactic(auto, using(crate::proofs::Texts::entry_text, std::proofs::lemmas::Grind::common_steps))]
fn write_entry(gap: bool, attr: &Attr, line: &mut Vec<u8>) -> Result<(), NoMemory>
    ensures { OnOk result (line.new.items
        ≡ line.old.items ++ text (begun (gap_of gap) (written language entry_rule (entry_fill attr.now)))) }
{
    write_word(gap, attr.name.as_slice(), line)?;
    write_value(&attr.value, line)?;
    Ok(())
}

fn write_entries(attrs: &[Attr], line: &mut Vec<u8>) -> Result<(), NoMemory>
    ensures { OnOk result (line.new.items
        ≡ line.old.items ++ rule_text (listed entry_rule) (some_fill entry_fill attrs.now)) }
{
    let [first, rest @ ..] = attrs else {
        return Ok(());
    };
    write_entry(false, first, line)?;
    for attr in rest {
        line.push(b',')?;
        write_entry(true, attr, line)?;
    }
    Ok(())
}

/// Appends attributes in braces behind a blank, or nothing where there are none.
#[tactic(auto, using(crate::proofs::Texts::some_dictionary))]
pub fn write_dictionary(attrs: &[Attr], line: &mut Vec<u8>) -> Result<(), NoMemory>
    ensures { OnOk result (line.new.items ≡ line.old.items ++ rule_text dictionary_rule (dictionary_fill attrs.now)) }
{
    match attrs {
        [] => Ok(()),
        [_, ..] => {
            line.extend_from_slice(b" {")?;
            write_entries(attrs, line)?;
            line.push(b'}')?;
            Ok(())
        }
    }
}

/// Appends `attributes` and attributes in braces, or nothing where there are none.
#[tactic(auto, using(crate::proofs::Texts::no_attributes, std::proofs::lemmas::Grind::common_steps))]
pub fn write_attributes(attrs: &[Attr], line: &mut Vec<u8>) -> Result<(), NoMemory>
    ensures { OnOk result (line.new.items ≡ line.old.items ++ rule_text attributes_rule (attributes_fill attrs.now)) }
{
    match attrs {
        [] => Ok(()),
        [_, ..] => {
            line.extend_from_slice(b" attributes")?;
            write_dictionary(attrs, line)?;
            Ok(())
        }
    }
}

/// Appends `attrs =` and attributes in braces, or nothing where there are none.
#[tactic(auto, using(crate::proofs::Texts::no_marked, std::proofs::lemmas::Grind::common_steps))]
pub fn write_marked(attrs: &[Attr], line: &mut Vec<u8>) -> Result<(), NoMemory>
    ensures { OnOk result (line.new.items ≡ line.old.items ++ rule_text marked_rule (marked_fill attrs.now)) }
{
    match attrs {
        [] => Ok(()),
        [_, ..] => {
            line.extend_from_slice(b" attrs =")?;
            write_dictionary(attrs, line)?;
            Ok(())
        }
    }
}
