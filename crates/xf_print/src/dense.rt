//! Dense constants, appended to the line so far. They refuse for want of memory alone.
ghost use Rattle.std.specs.Prelude.{◌≡◌, [], ◌∷◌, ◌++◌, ◌/◌, OnOk, IfOk, take, drop};
ghost use Rattle.xf_dense.specs.Printed.{first_number, nest_of, row_nests};
ghost use Rattle.xf_format.specs.Rules.{literal_rule};
ghost use Rattle.xf_ir.specs.declared.kind.Kind.TheVariants as kind;
ghost use Rattle.xf_print.specs.Bodies.{body_text, nest_text, nests_text};
ghost use Rattle.xf_printed.specs.Fills.{literal_fill, rule_text};
ghost use Rattle.xf_type.specs.declared.payload_type.Dim.TheVariants.{Fixed};

use xf_print_base::{write_number_of, write_tensor};
use xf_type::{Dim, NoMemory, Shape, Width};

/// The first number; 0 where there is none.
fn first_number(numbers: &[u128]) -> u128
    ensures { result ≡ first_number numbers.now }
{
    match numbers {
        [] => 0,
        [first, ..] => *first,
    }
}

/// Appends the first number.
fn write_first(width: Width, numbers: &[u128], line: &mut Vec<u8>) -> Result<(), NoMemory>
    ensures { OnOk result (line.new.items ≡ line.old.items ++ nest_text (nest_of width [] numbers.now)) }
{
    write_number_of(width, first_number(numbers), line)?;
    Ok(())
}

/// How many numbers a row has, where so many rows share them.
#[tactic(auto, using(crate::proofs::RowLemmas::none_shared))]
fn row_len(numbers: usize, rows: u32) -> usize
    ensures { result ≡ numbers / rows }
{
    if rows == 0 {
        0
    } else {
        numbers / rows as usize
    }
}

/// Appends the row of that many numbers at the front, and answers the numbers behind it.
#[cycle(rows)]
#[tactic(auto, using(crate::proofs::RowLemmas::take_least, crate::proofs::RowLemmas::drop_least))]
fn write_row<'a>(
    width: Width,
    dims: &[Dim],
    size: usize,
    numbers: &'a [u128],
    line: &mut Vec<u8>,
) -> Result<&'a [u128], NoMemory>
    ensures line { OnOk result (line.new.items
        ≡ line.old.items ++ nest_text (nest_of width dims.now (take size numbers.now))) }
    ensures behind { IfOk result (λ behind. behind.now ≡ drop size numbers.now) }
{
    let (row, behind) = numbers.split_at(size.min(numbers.len()));
    write_nested(width, dims, row, line)?;
    Ok(behind)
}

/// Appends so many rows of that many numbers and one of what is left, with a comma and a blank between each two.
#[cycle(rows)]
fn write_rows(
    width: Width,
    more: u32,
    dims: &[Dim],
    size: usize,
    numbers: &[u128],
    line: &mut Vec<u8>,
) -> Result<(), NoMemory>
    ensures { OnOk result (line.new.items
        ≡ line.old.items ++ nests_text (row_nests (nest_of width dims.now) more size numbers.now)) }
{
    let mut left = numbers;
    for _ in 0..more {
        left = write_row(width, dims, size, left, line)?;
        line.extend_from_slice(b", ")?;
    }
    write_nested(width, dims, left, line)?;
    Ok(())
}

/// Appends numbers as a list of so many rows, which are nested lists of the other dimensions.
#[cycle(rows)]
fn write_list(
    width: Width,
    extent: u32,
    dims: &[Dim],
    numbers: &[u128],
    line: &mut Vec<u8>,
) -> Result<(), NoMemory>
    ensures { OnOk result (line.new.items
        ≡ line.old.items ++ nest_text (nest_of width (Fixed extent ∷ dims.now) numbers.now)) }
{
    line.push(b'[')?;
    let size = row_len(numbers.len(), extent);
    write_rows(width, extent.saturating_sub(1), dims, size, numbers, line)?;
    line.push(b']')?;
    Ok(())
}

/// Appends numbers as nested lists of the dimensions.
#[cycle(rows)]
fn write_nested(
    width: Width,
    dims: &[Dim],
    numbers: &[u128],
    line: &mut Vec<u8>,
) -> Result<(), NoMemory>
    ensures { OnOk result (line.new.items
        ≡ line.old.items ++ nest_text (nest_of width dims.now numbers.now)) }
{
    match dims {
        [] => write_first(width, numbers, line),
        [Dim::Dynamic, rest @ ..] => write_nested(width, rest, numbers, line),
        [Dim::Fixed(extent), rest @ ..] => write_list(width, *extent, rest, numbers, line),
    }
}

/// Appends the body of a dense constant: nothing for no numbers, a number for one, and else nested lists.
fn write_body(shape: &Shape, numbers: &[u128], line: &mut Vec<u8>) -> Result<(), NoMemory>
    ensures { OnOk result (line.new.items ≡ line.old.items ++ body_text shape.now numbers.now) }
{
    match numbers {
        [] => Ok(()),
        [number] => write_number_of(shape.elem, *number, line),
        _ => write_nested(shape.elem, shape.dims.as_slice(), numbers, line),
    }
}

/// Appends a constant tensor, behind a blank.
pub fn write_dense(shape: &Shape, numbers: &[u128], line: &mut Vec<u8>) -> Result<(), NoMemory>
    ensures { OnOk result (line.new.items
        ≡ line.old.items ++ rule_text literal_rule (literal_fill (kind.Dense shape.now numbers.now))) }
{
    line.extend_from_slice(b" dense<")?;
    write_body(shape, numbers, line)?;
    line.extend_from_slice(b"> :")?;
    write_tensor(true, shape, line)?;
    Ok(())
}
