//! How the values of an operation follow from what its row states: the types of operands, of results and of block
//! arguments, and how many operands there are.
ghost use Rattle.std.specs.Prelude.{◌≡◌, IfOk, drop, length};
ghost use Rattle.std.specs.Option.{option_copied};
ghost use Rattle.xf_format.specs.Columns.{operand_types, result_types, argument_types, operand_count};
ghost use Rattle.xf_format.specs.Columns.{operand_type, one_type, element_of, types_given, types_taken, is_counted};

use crate::parts::Parts;
use crate::row::Row;
use std::alloc::Global;
use xf_type::{Duplicate, ListOf, NoMemory, PayloadType, TypeList, Width};

/// Which of the types that a row states belongs to an operand.
#[derive(Clone, Copy)]
pub enum OperandTypes {
    /// To the operands from this one on, one behind the other.
    Listed(u8),
    /// The first one, to each operand from this one on.
    Same(u8),
    /// The first one to the first three operands, and those of the results to the others.
    Loop,
}

/// What the types of the results are.
#[derive(Clone, Copy)]
pub enum ResultTypes {
    /// There are none.
    Nothing,
    /// Those that stand behind `->`, or as a type of the result.
    Listed,
    /// The one of the types that are stated with this number, from 0 on.
    Stated(u8),
    /// One of this width.
    Scalar(Width),
    /// One of the width of the elements of the first type.
    Element,
}

/// What the types of the block arguments are.
#[derive(Clone, Copy)]
pub enum ArgumentTypes {
    /// There are none.
    Nothing,
    /// Those that are stated.
    Stated,
    /// The one that is stated, and those of the results.
    Loop,
    /// Those that are stated behind the types of the operands.
    Behind,
}

/// How many operands there are to be.
#[derive(Clone, Copy)]
pub enum OperandCount {
    /// As many as the text has.
    Any,
    /// As many as types that are stated.
    Types,
    /// Three, and as many as results.
    Loop,
    /// No more than types that are stated.
    AtMost,
}

/// Which types belong to the operands of a row.
fn operand_types(row: Row) -> OperandTypes
    ensures { result ≡ operand_types row }
{
    match row {
        Row::Binary(_) | Row::Compare => OperandTypes::Same(0),
        Row::Select => OperandTypes::Same(1),
        Row::For => OperandTypes::Loop,
        Row::Insert => OperandTypes::Listed(1),
        _ => OperandTypes::Listed(0),
    }
}

/// What the types of the results of a row are.
fn result_types(row: Row) -> ResultTypes
    ensures { result ≡ result_types row }
{
    match row {
        Row::Call | Row::For | Row::If => ResultTypes::Listed,
        Row::Empty | Row::Cast | Row::ExtractSlice => ResultTypes::Listed,
        Row::Named(_) | Row::Generic => ResultTypes::Listed,
        Row::Constant | Row::Binary(_) | Row::Select | Row::Insert => ResultTypes::Stated(0),
        Row::Convert(_) | Row::InsertSlice => ResultTypes::Stated(1),
        Row::Compare => ResultTypes::Scalar(Width::I1),
        Row::Dim => ResultTypes::Scalar(Width::Index),
        Row::Extract => ResultTypes::Element,
        _ => ResultTypes::Nothing,
    }
}

/// What the types of the block arguments of a row are.
fn argument_types(row: Row) -> ArgumentTypes
    ensures { result ≡ argument_types row }
{
    match row {
        Row::Function => ArgumentTypes::Stated,
        Row::For => ArgumentTypes::Loop,
        Row::Generic => ArgumentTypes::Behind,
        _ => ArgumentTypes::Nothing,
    }
}

/// How many operands an operation of a row is to have.
fn operand_count(row: Row) -> OperandCount
    ensures { result ≡ operand_count row }
{
    match row {
        Row::Return | Row::Call | Row::Yield | Row::Named(_) => OperandCount::Types,
        Row::For => OperandCount::Loop,
        Row::Generic => OperandCount::AtMost,
        _ => OperandCount::Any,
    }
}

/// The type that is stated for an operand.
pub fn operand_type(parts: &Parts, at: usize) -> Option<&PayloadType>
    ensures { option_copied result
        ≡ operand_type (operand_types parts.now.row) parts.now.types parts.now.results at }
{
    match operand_types(parts.row) {
        OperandTypes::Listed(first) if at < first as usize => None,
        OperandTypes::Listed(first) => parts.types.get(at - first as usize),
        OperandTypes::Same(first) if at < first as usize => None,
        OperandTypes::Same(_) => parts.types.get(0),
        OperandTypes::Loop if at < 3 => parts.types.get(0),
        OperandTypes::Loop => parts.results.get(at - 3),
    }
}

/// The type, where it is there.
fn one_type(alloc: Global, ty: Option<&PayloadType>) -> Result<TypeList, NoMemory>
    ensures { IfOk result (λ types. types ≡ one_type (option_copied ty.entry)) }
{
    let mut types = TypeList::new(alloc);
    if let Some(ty) = ty {
        types.push(ty.duplicate(alloc)?)?;
    }
    Ok(types)
}

/// The type of the elements of a tensor; of a width, itself.
fn element_of(ty: &PayloadType) -> PayloadType
    ensures { result ≡ element_of ty.now }
{
    match ty {
        PayloadType::Scalar(width) => PayloadType::Scalar(*width),
        PayloadType::Tensor(shape) => PayloadType::Scalar(shape.elem),
    }
}

/// The types of the results. It refuses for want of memory alone.
pub fn types_given(alloc: Global, parts: &Parts) -> Result<TypeList, NoMemory>
    ensures { IfOk result (λ types. types
        ≡ types_given (result_types parts.now.row) parts.now.types parts.now.results) }
{
    match result_types(parts.row) {
        ResultTypes::Nothing => Ok(TypeList::new(alloc)),
        ResultTypes::Listed => parts.results.duplicate(alloc),
        ResultTypes::Stated(at) => one_type(alloc, parts.types.get(at as usize)),
        ResultTypes::Scalar(width) => one_type(alloc, Some(&PayloadType::Scalar(width))),
        ResultTypes::Element => match parts.types.get(0) {
            None => Ok(TypeList::new(alloc)),
            Some(ty) => one_type(alloc, Some(&element_of(ty))),
        },
    }
}

/// The types behind so many. It refuses for want of memory alone.
#[tactic(auto, using(std::proofs::lemmas::List::drop_min, std::proofs::lemmas::Grind::common_steps))]
fn types_behind(alloc: Global, types: &TypeList, count: usize) -> Result<TypeList, NoMemory>
    ensures { IfOk result (λ behind. behind ≡ drop count types.now) }
{
    let mut behind = TypeList::new(alloc);
    let (_, rest) = types.as_slice().split_at(count.min(types.len()));
    for ty in rest {
        behind.push(ty.duplicate(alloc)?)?;
    }
    Ok(behind)
}

/// The types of the block arguments. It refuses for want of memory alone.
pub fn types_taken(alloc: Global, parts: &Parts) -> Result<TypeList, NoMemory>
    ensures { IfOk result (λ types. types
        ≡ types_taken (argument_types parts.now.row) (length parts.now.uses) parts.now.types parts.now.results) }
{
    match argument_types(parts.row) {
        ArgumentTypes::Nothing => Ok(TypeList::new(alloc)),
        ArgumentTypes::Stated => parts.types.duplicate(alloc),
        ArgumentTypes::Loop => {
            let mut types = parts.types.duplicate(alloc)?;
            types.append(parts.results.duplicate(alloc)?)?;
            Ok(types)
        }
        ArgumentTypes::Behind => types_behind(alloc, &parts.types, parts.uses.len()),
    }
}

/// Whether there are as many operands as there are to be.
pub fn is_counted(parts: &Parts) -> bool
    ensures { result ≡ is_counted (operand_count parts.now.row) parts.now.types parts.now.results
        (length parts.now.uses) }
{
    let uses = parts.uses.len();
    match operand_count(parts.row) {
        OperandCount::Any => true,
        OperandCount::Types => uses == parts.types.len(),
        OperandCount::Loop => uses >= 3 && uses - 3 == parts.results.len(),
        OperandCount::AtMost => uses <= parts.types.len(),
    }
}
