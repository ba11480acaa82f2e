//! Numbers of a width, each appended to the line so far. They refuse for want of memory alone.
ghost use Rattle.std.specs.Prelude.{◌≡◌, ◌-◌, ◌^◌, ◌++◌, OnOk};
ghost use Rattle.std.specs.Fmt.{signed_decimal};
ghost use Rattle.xf_type.specs.Integers.{bits_of, signed_value};
ghost use Rattle.xf_print_base.specs.Texts.{literal_text};
ghost use Rattle.xf_printed.specs.Numbers.{is_set, number_text, truth_word};

use crate::words::{write_number, write_word};
use xf_type::{NoMemory, Width};

/// The number from which on a number of the width is negative.
fn first_negative(width: Width) -> u128
    ensures { result ≡ 2 ^ (bits_of width - 1) }
{
    match width {
        Width::I1 => 1,
        Width::I8 => 0x80,
        Width::I16 => 0x8000,
        Width::I32 => 0x8000_0000,
        Width::I64 => 0x8000_0000_0000_0000,
        Width::Index => 0x8000_0000_0000_0000,
    }
}

/// Appends a number of a width as it reads in two's complement.
fn write_signed(width: Width, bits: u128, line: &mut Vec<u8>) -> Result<(), NoMemory>
    ensures { OnOk result (line.new.items
        ≡ line.old.items ++ signed_decimal (signed_value width bits)) }
{
    let half = first_negative(width);
    if bits < half {
        write_number(bits, line)
    } else if bits < half * 2 {
        line.push(b'-')?;
        write_number(half * 2 - bits, line)
    } else {
        write_number(bits - half * 2, line)
    }
}

fn write_truth(bits: u128, line: &mut Vec<u8>) -> Result<(), NoMemory>
    ensures { OnOk result (line.new.items ≡ line.old.items ++ truth_word (is_set bits)) }
{
    if bits == 0 {
        line.extend_from_slice(b"false")
    } else {
        line.extend_from_slice(b"true")
    }
}

/// Appends a number of a width: a signed decimal, or `true` or `false` for `i1`.
pub fn write_number_of(width: Width, bits: u128, line: &mut Vec<u8>) -> Result<(), NoMemory>
    ensures { OnOk result (line.new.items ≡ line.old.items ++ number_text width bits) }
{
    match width {
        Width::I1 => write_truth(bits, line),
        _ => write_signed(width, bits, line),
    }
}

/// Appends a blank and a number with its type, which is left out for `i1`.
pub fn write_literal(width: Width, bits: u128, line: &mut Vec<u8>) -> Result<(), NoMemory>
    ensures { OnOk result (line.new.items ≡ line.old.items ++ literal_text width bits) }
{
    line.push(b' ')?;
    write_number_of(width, bits, line)?;
    match width {
        Width::I1 => Ok(()),
        _ => {
            line.extend_from_slice(b" :")?;
            write_word(true, width.spelling(), line)
        }
    }
}
