//! Trees of a million operations, of 32 nested regions and of a million numbers: built, copied, counted, searched,
//! edited and dropped.
ghost use Rattle.std.specs.Prelude.{◌≡◌};

use crate::bounds::count_few;
use crate::trees::{function, holder, one_type, operation};
use std::alloc::Global;
use std::test::Fail;
use xf_ir::{Edit, Kind, Module, NumberList, Op, OpList, OpName, Spot, apply_edit};
use xf_type::{AttrValue, Dim, ListOf, NoMemory, PayloadType, Shape, TypeList, Width};

/// How many operations the block of a function has.
const OPERATIONS: u64 = 1_000_000;

/// How many regions are nested.
const LEVELS: u64 = 32;

/// How many numbers a dense constant has.
const NUMBERS: u64 = 1_000_000;

/// A module of a function of these operations.
fn module(alloc: Global, ops: OpList) -> Result<Module, NoMemory> {
    function(alloc, ListOf::new(alloc), ListOf::new(alloc), ops)
}

/// A constant.
fn constant(alloc: Global, name: u64) -> Result<Op, NoMemory> {
    let kind = Kind::Constant {
        width: Width::I32,
        bits: 7,
    };
    operation(alloc, name, kind, &[], i32_type(alloc)?)
}

fn i32_type(alloc: Global) -> Result<TypeList, NoMemory> {
    one_type(alloc, PayloadType::Scalar(Width::I32))
}

/// A module of a function of that many constants, with the names from 2 on.
fn flat(alloc: Global) -> Result<Module, NoMemory> {
    let mut ops = Vec::new(alloc);
    for name in 2..OPERATIONS + 2 {
        ops.push(constant(alloc, name)?)?;
    }
    module(alloc, ops)
}

/// A loop or a branch, by turns, that holds these operations.
fn level(alloc: Global, name: u64, ops: OpList) -> Result<Op, NoMemory> {
    let kind = if name % 2 == 0 {
        Kind::For {
            width: Width::Index,
        }
    } else {
        Kind::If
    };
    holder(alloc, name, kind, ListOf::new(alloc), ops)
}

/// A module of a function of nested regions, with the names from 2 on, and a constant in the innermost.
fn nested(alloc: Global) -> Result<Module, NoMemory> {
    let mut ops = Vec::new(alloc);
    ops.push(constant(alloc, LEVELS + 2)?)?;
    for name in (2..LEVELS + 2).rev() {
        let held = level(alloc, name, ops)?;
        ops = Vec::new(alloc);
        ops.push(held)?;
    }
    module(alloc, ops)
}

/// Whether the module has so many operations, and one of the last name.
fn has_all(m: &Module, number: u64, last: OpName) -> bool {
    count_few(&m.root) == Some(number) && m.find(last).is_some()
}

/// Gives an operation an attribute.
fn note(alloc: Global, m: &mut Module, op: OpName) -> Result<(), NoMemory> {
    let e = Edit::SetAttr {
        op,
        key: ListOf::from_slice(alloc, b"note")?,
        value: Some(AttrValue::Unit),
    };
    apply_edit(alloc, m, &e)
}

/// Moves an operation to the front of the function.
fn move_to_front(alloc: Global, m: &mut Module, op: OpName) -> Result<(), NoMemory> {
    let to = Spot {
        parent: OpName(1),
        region: 0,
        at: 0,
    };
    let e = Edit::Move { op, to };
    apply_edit(alloc, m, &e)
}

fn erase(alloc: Global, m: &mut Module, op: OpName) -> Result<(), NoMemory> {
    let e = Edit::Erase { op };
    apply_edit(alloc, m, &e)
}

/// Whether an operation has one attribute.
fn is_noted(m: &Module, op: OpName) -> bool {
    match m.find(op) {
        Some(op) => op.attrs.len() == 1,
        None => false,
    }
}

/// Whether the operation is moved to the front of the function, gets an attribute there, and is erased.
fn edits(alloc: Global, m: &mut Module, number: u64, op: OpName) -> Result<bool, NoMemory> {
    move_to_front(alloc, m, op)?;
    note(alloc, m, op)?;
    let noted = count_few(&m.root) == Some(number) && is_noted(m, op);
    erase(alloc, m, op)?;
    Ok(noted && count_few(&m.root) == number.checked_sub(1) && m.find(op).is_none())
}

/// Whether a copy has the operations of the module, and is edited while the module stays as it is.
fn copy_is_edited(
    alloc: Global,
    m: &Module,
    copy: &mut Module,
    number: u64,
    last: OpName,
) -> Result<bool, NoMemory> {
    let copied = has_all(copy, number, last);
    let edited = edits(alloc, copy, number, last)?;
    Ok(copied && edited && has_all(m, number, last))
}

/// The same of a copy of the module.
fn is_copied_and_edited(
    alloc: Global,
    m: &Module,
    number: u64,
    last: OpName,
) -> Result<bool, NoMemory> {
    let mut copy = m.copy(alloc)?;
    copy_is_edited(alloc, m, &mut copy, number, last)
}

fn flat_is_edited(alloc: Global) -> Result<bool, NoMemory> {
    let m = flat(alloc)?;
    is_copied_and_edited(alloc, &m, OPERATIONS + 2, OpName(OPERATIONS + 1))
}

#[test]
fn a_block_of_a_million_operations_is_copied_and_edited(rt: HostRuntime) -> Result<(), Fail> {
    assert!(rt; flat_is_edited(rt.alloc())?);
    Ok(())
}

fn nested_is_edited(alloc: Global) -> Result<bool, NoMemory> {
    let m = nested(alloc)?;
    is_copied_and_edited(alloc, &m, LEVELS + 3, OpName(LEVELS + 2))
}

#[test]
fn thirty_two_nested_regions_are_copied_and_edited(rt: HostRuntime) -> Result<(), Fail> {
    assert!(rt; nested_is_edited(rt.alloc())?);
    Ok(())
}

/// The numbers from 0 on.
fn numbers(alloc: Global) -> Result<NumberList, NoMemory> {
    let mut numbers = ListOf::new(alloc);
    for number in 0..NUMBERS {
        numbers.push(number as u128)?;
    }
    Ok(numbers)
}

/// A dense constant of these numbers.
fn dense(alloc: Global) -> Result<Op, NoMemory> {
    let mut dims = ListOf::new(alloc);
    dims.push(Dim::Fixed(1_000_000))?;
    let kind = Kind::Dense {
        shape: Shape {
            dims,
            elem: Width::I32,
        },
        numbers: numbers(alloc)?,
    };
    operation(alloc, 0, kind, &[], i32_type(alloc)?)
}

/// The numbers of a dense constant, or none.
fn numbers_of(op: &Op) -> &[u128] {
    match &op.kind {
        Kind::Dense { numbers, .. } => numbers.as_slice(),
        _ => &[],
    }
}

fn copy_has_the_numbers(alloc: Global, op: &Op) -> Result<bool, NoMemory> {
    let copy = op.copy(alloc)?;
    Ok(numbers_of(op).len() == 1_000_000 && numbers_of(&copy) == numbers_of(op))
}

fn dense_is_copied(alloc: Global) -> Result<bool, NoMemory> {
    let op = dense(alloc)?;
    copy_has_the_numbers(alloc, &op)
}

#[test]
fn a_constant_of_a_million_numbers_is_copied(rt: HostRuntime) -> Result<(), Fail> {
    assert!(rt; dense_is_copied(rt.alloc())?);
    Ok(())
}
