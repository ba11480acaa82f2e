//! Types, appended to the line so far. They refuse for want of memory alone.
ghost use Rattle.std.specs.Prelude.{◌≡◌, ◌++◌, OnOk, codes, true};
ghost use Rattle.std.specs.List.{flat_map};
ghost use Rattle.std.specs.Option.{option_copied};
ghost use Rattle.xf_format.specs.declared.expected.Expected.TheVariants as due;
ghost use Rattle.xf_format.specs.Rules.{result_rule, result_tensor_rule, tensor_rule, type_rule, width_rule};
ghost use Rattle.xf_grammar.specs.Grammar.{listed};
ghost use Rattle.xf_printed.specs.Items.{rule_text, scalar_or_none, shape_text, some_fill, tensor_fill, tensor_or_none};
ghost use Rattle.xf_printed.specs.Items.{type_fill, type_or_none};
ghost use Rattle.xf_printed.specs.Words.{dim_text};
ghost use Rattle.xf_type.specs.Spelling.{width_spelling};

use crate::words::{write_gap, write_number, write_word};
use xf_type::{Dim, NoMemory, PayloadType, Shape, Width};

fn write_dim(dim: Dim, line: &mut Vec<u8>) -> Result<(), NoMemory>
    ensures { OnOk result (line.new.items ≡ line.old.items ++ dim_text dim) }
{
    match dim {
        Dim::Fixed(extent) => {
            write_number(u128::from(extent), line)?;
            line.push(b'x')?;
        }
        Dim::Dynamic => line.extend_from_slice(b"?x")?,
    }
    Ok(())
}

fn write_dims(dims: &[Dim], line: &mut Vec<u8>) -> Result<(), NoMemory>
    ensures { OnOk result (line.new.items ≡ line.old.items ++ flat_map dim_text dims.now) }
{
    for dim in dims {
        write_dim(*dim, line)?;
    }
    Ok(())
}

fn write_shape(dims: &[Dim], elem: Width, line: &mut Vec<u8>) -> Result<(), NoMemory>
    ensures { OnOk result (line.new.items ≡ line.old.items ++ (codes "<"
        ++ (flat_map dim_text dims.now ++ (width_spelling elem ++ codes ">")))) }
{
    line.push(b'<')?;
    write_dims(dims, line)?;
    line.extend_from_slice(elem.spelling())?;
    line.push(b'>')?;
    Ok(())
}

/// Appends the type of a tensor of that shape.
#[tactic(auto, unfolding(xf_format::specs::Rules::tensor_rule))]
pub fn write_tensor(gap: bool, shape: &Shape, line: &mut Vec<u8>) -> Result<(), NoMemory>
    ensures { OnOk result (line.new.items
        ≡ line.old.items ++ rule_text (tensor_rule gap) (tensor_fill shape.now)) }
{
    write_word(gap, b"tensor", line)?;
    write_shape(shape.dims.as_slice(), shape.elem, line)
}

/// Appends a type.
#[tactic(auto, unfolding(xf_format::specs::Rules::type_rule, xf_format::specs::Rules::tensor_rule))]
pub fn write_type(gap: bool, of: &PayloadType, line: &mut Vec<u8>) -> Result<(), NoMemory>
    ensures { OnOk result (line.new.items ≡ line.old.items ++ rule_text (type_rule gap) (type_fill of.now)) }
{
    match of {
        PayloadType::Scalar(width) => write_word(gap, width.spelling(), line),
        PayloadType::Tensor(shape) => write_tensor(gap, shape, line),
    }
}

/// Appends a type, or no word where none is known.
#[tactic(auto, using(crate::proofs::Texts::no_type))]
pub fn write_some_type(
    gap: bool,
    of: Option<&PayloadType>,
    line: &mut Vec<u8>,
) -> Result<(), NoMemory>
    ensures { OnOk result (line.new.items
        ≡ line.old.items ++ rule_text (type_rule gap) (type_or_none (option_copied of.entry))) }
{
    match of {
        Some(of) => write_type(gap, of, line),
        None => write_gap(gap, line),
    }
}

/// Appends the type of a tensor behind a blank, or the blank alone for another type and for none.
#[tactic(auto, unfolding(xf_format::specs::Rules::tensor_rule))]
pub fn write_some_tensor(of: Option<&PayloadType>, line: &mut Vec<u8>) -> Result<(), NoMemory>
    ensures { OnOk result (line.new.items
        ≡ line.old.items ++ rule_text (tensor_rule true) (tensor_or_none (option_copied of.entry))) }
{
    match of {
        Some(PayloadType::Tensor(shape)) => write_tensor(true, shape, line),
        _ => write_gap(true, line),
    }
}

/// Appends the type of a scalar behind a blank, or the blank alone for another type and for none.
#[tactic(auto, unfolding(xf_format::specs::Rules::width_rule))]
pub fn write_some_scalar(of: Option<&PayloadType>, line: &mut Vec<u8>) -> Result<(), NoMemory>
    ensures { OnOk result (line.new.items ≡ line.old.items
        ++ rule_text (width_rule true due.Width) (scalar_or_none (option_copied of.entry))) }
{
    match of {
        Some(PayloadType::Scalar(width)) => write_word(true, width.spelling(), line),
        _ => write_gap(true, line),
    }
}

/// Appends a type of a result.
#[tactic(auto, using(crate::proofs::Texts::same_result))]
pub fn write_result(gap: bool, of: &PayloadType, line: &mut Vec<u8>) -> Result<(), NoMemory>
    ensures { OnOk result (line.new.items ≡ line.old.items ++ rule_text (result_rule gap) (type_fill of.now)) }
{
    write_type(gap, of, line)
}

/// Appends types of results, with a comma between each two.
pub fn write_results(gap: bool, types: &[PayloadType], line: &mut Vec<u8>) -> Result<(), NoMemory>
    ensures { OnOk result (line.new.items
        ≡ line.old.items ++ rule_text (listed (result_rule gap)) (some_fill type_fill types.now)) }
{
    let [first, rest @ ..] = types else {
        return Ok(());
    };
    write_result(gap, first, line)?;
    for of in rest {
        line.push(b',')?;
        write_result(true, of, line)?;
    }
    Ok(())
}
