//! Values with many uses.

use std::alloc::Global;
use std::test::Fail;
use xf_type::NoMemory;
use xf_uses::{CellName, Definition, UseLists};

/// How many operations use one value.
const USES: u64 = 100_000;

/// The first result of an operation.
fn result(op: u64) -> Definition {
    Definition::Result { op, num: 0 }
}

/// Defines the first result of an operation, with one cell more.
fn define(alloc: Global, lists: &mut UseLists, op: u64) -> Result<(), NoMemory> {
    lists.grow(alloc)?;
    put_back(lists, op);
    Ok(())
}

/// Defines the first result of an operation again, in a cell that is there.
fn put_back(lists: &mut UseLists, op: u64) {
    let value = result(op);
    if !lists.is_full() && !lists.has(CellName::Value(value)) {
        lists.define(value);
    }
}

/// Lets an operation use a result, with one cell more.
fn add(alloc: Global, lists: &mut UseLists, op: u64, of: u64) -> Result<(), NoMemory> {
    lists.grow(alloc)?;
    let value = result(of);
    if !lists.is_full()
        && !lists.has(CellName::Operand { op, num: 0 })
        && lists.has(CellName::Value(value))
    {
        lists.add(op, 0, value);
    }
    Ok(())
}

/// Lets an operation use another result.
fn set(lists: &mut UseLists, op: u64, of: u64) {
    let value = result(of);
    if lists.has(CellName::Operand { op, num: 0 }) && lists.has(CellName::Value(value)) {
        lists.set(op, 0, value);
    }
}

/// Takes the operand of an operation away.
fn remove(lists: &mut UseLists, op: u64) {
    if lists.has(CellName::Operand { op, num: 0 }) {
        lists.remove(op, 0);
    }
}

/// Takes a result away that is not used.
fn undefine(lists: &mut UseLists, op: u64) {
    let value = result(op);
    if lists.has(CellName::Value(value)) && !lists.is_used(value) {
        lists.undefine(value);
    }
}

/// How many uses a result has, and the sum of the operations that use it.
fn used(lists: &UseLists, op: u64) -> (u64, u64) {
    let mut number: u64 = 0;
    let mut sum: u64 = 0;
    for found in lists.uses_of(result(op)) {
        number = number.wrapping_add(1);
        sum = sum.wrapping_add(found.op);
    }
    (number, sum)
}

/// Two results, and many operations that use the first.
fn many(alloc: Global) -> Result<UseLists, NoMemory> {
    let mut lists = UseLists::new(alloc)?;
    define(alloc, &mut lists, 0)?;
    define(alloc, &mut lists, 1)?;
    for op in 2..USES + 2 {
        add(alloc, &mut lists, op, 0)?;
    }
    Ok(lists)
}

#[test]
fn many_uses_are_found_and_moved(rt: HostRuntime) -> Result<(), Fail> {
    let mut lists = many(rt.alloc())?;
    assert_eq!(rt; used(&lists, 0), (USES, USES * (USES + 3) / 2));
    assert_eq!(rt; used(&lists, 1), (0, 0));
    assert_eq!(rt; used(&lists, 2), (0, 0));
    for op in 2..USES / 2 + 2 {
        set(&mut lists, op, 1);
    }
    assert_eq!(rt; used(&lists, 0).0, USES / 2);
    assert_eq!(rt; used(&lists, 1), (USES / 2, USES / 2 * (USES / 2 + 3) / 2));
    Ok(())
}

#[test]
fn cells_serve_again(rt: HostRuntime) -> Result<(), Fail> {
    let mut lists = many(rt.alloc())?;
    assert!(rt; lists.is_full());
    undefine(&mut lists, 0);
    assert!(rt;
        lists.has(CellName::Value(result(0))),
        "a used result stays"
    );
    for op in 2..USES + 2 {
        remove(&mut lists, op);
    }
    undefine(&mut lists, 0);
    assert!(rt; !lists.has(CellName::Value(result(0))));
    for op in 2..USES + 3 {
        put_back(&mut lists, op);
    }
    assert!(rt; lists.is_full(), "as many cells as before");
    put_back(&mut lists, 0);
    assert!(rt; !lists.has(CellName::Value(result(0))));
    Ok(())
}

#[test]
fn arguments_are_apart(rt: HostRuntime) -> Result<(), Fail> {
    let mut lists = UseLists::new(rt.alloc())?;
    let first = Definition::Argument {
        op: 0,
        region: 0,
        num: 1,
    };
    let second = Definition::Argument {
        op: 0,
        region: 1,
        num: 0,
    };
    lists.grow(rt.alloc())?;
    if !lists.is_full() && !lists.has(CellName::Value(first)) {
        lists.define(first);
    }
    assert!(rt; lists.has(CellName::Value(first)));
    assert!(rt; !lists.has(CellName::Value(second)));
    Ok(())
}
