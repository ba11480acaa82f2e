//! Each form of edit, made and undone.

use crate::bounds::is_short;
use crate::outline::add_module;
use crate::trees::{one_type, operation};
use std::alloc::Global;
use std::process::Abort;
use std::test::Fail;
use xf_ir::{
    Change, ChangeList, Edit, Kind, Module, OpName, Spot, ValueList, ValueName, apply_edit, inverse,
};
use xf_read::read_module;
use xf_type::{AttrValue, ListOf, NoMemory, PayloadType, Width};

/// The payload that is edited. Its operations have the names 0 to 7, from the module to the return, in the order of
/// the text; name 6 has the `scf.yield` that is left out.
const PAYLOAD: &str = "func.func @f(%a: i32, %b: i1) -> i32 {
  %c = arith.constant 2 : i32
  %d = arith.addi %a, %c : i32
  scf.if %b {
    %e = arith.addi %d, %d {note = 7 : i8} : i32
  }
  return %d : i32
}
";

/// Its outline.
const FIRST: &str = "2 arith.constant 2 -> 1
3 arith.addi %1/0.0 %2.0 -> 1
5 arith.addi %3.0 %3.0 -> 1 {note=7}
6 scf.yield -> 0
4 scf.if %1/0.1 -> 0 (0 2)
7 func.return %3.0 -> 0
1 func.func f -> 0 (2 4)
0 builtin.module -> 0 (0 1)
";

/// Its outline with the constant.
const INSERTED: &str = "2 arith.constant 2 -> 1
3 arith.addi %1/0.0 %2.0 -> 1
5 arith.addi %3.0 %3.0 -> 1 {note=7}
6 scf.yield -> 0
4 scf.if %1/0.1 -> 0 (0 2)
20 arith.constant 9 -> 1
7 func.return %3.0 -> 0
1 func.func f -> 0 (2 5)
0 builtin.module -> 0 (0 1)
";

/// Its outline without the branch.
const ERASED: &str = "2 arith.constant 2 -> 1
3 arith.addi %1/0.0 %2.0 -> 1
7 func.return %3.0 -> 0
1 func.func f -> 0 (2 3)
0 builtin.module -> 0 (0 1)
";

/// Its outline with other uses.
const CHANGED: &str = "2 arith.constant 2 -> 1
3 arith.addi %1/0.0 %1/0.0 -> 1
5 arith.addi %2.0 %3.0 -> 1 {note=7}
6 scf.yield -> 0
4 scf.if %1/0.1 -> 0 (0 2)
7 func.return %3.0 -> 0
1 func.func f -> 0 (2 4)
0 builtin.module -> 0 (0 1)
";

/// Its outline without the sum.
const REPLACED: &str = "2 arith.constant 2 -> 1
5 arith.addi %1/0.0 %1/0.0 -> 1 {note=7}
6 scf.yield -> 0
4 scf.if %1/0.1 -> 0 (0 2)
7 func.return %1/0.0 -> 0
1 func.func f -> 0 (2 3)
0 builtin.module -> 0 (0 1)
";

/// Its outline with a sum moved out of the branch.
const MOVED: &str = "2 arith.constant 2 -> 1
3 arith.addi %1/0.0 %2.0 -> 1
5 arith.addi %3.0 %3.0 -> 1 {note=7}
6 scf.yield -> 0
4 scf.if %1/0.1 -> 0 (0 1)
7 func.return %3.0 -> 0
1 func.func f -> 0 (2 5)
0 builtin.module -> 0 (0 1)
";

/// Its outline with an attribute.
const NOTED: &str = "2 arith.constant 2 -> 1 {note:new}
3 arith.addi %1/0.0 %2.0 -> 1
5 arith.addi %3.0 %3.0 -> 1 {note=7}
6 scf.yield -> 0
4 scf.if %1/0.1 -> 0 (0 2)
7 func.return %3.0 -> 0
1 func.func f -> 0 (2 4)
0 builtin.module -> 0 (0 1)
";

/// Its outline without an attribute.
const NOT_NOTED: &str = "2 arith.constant 2 -> 1
3 arith.addi %1/0.0 %2.0 -> 1
5 arith.addi %3.0 %3.0 -> 1
6 scf.yield -> 0
4 scf.if %1/0.1 -> 0 (0 2)
7 func.return %3.0 -> 0
1 func.func f -> 0 (2 4)
0 builtin.module -> 0 (0 1)
";

/// The argument `%a`, and the results `%c` and `%d`.
const A: ValueName = ValueName::Arg {
    op: OpName(1),
    region: 0,
    num: 0,
};

const C: ValueName = ValueName::Result {
    op: OpName(2),
    num: 0,
};

const D: ValueName = ValueName::Result {
    op: OpName(3),
    num: 0,
};

/// A place in the function, before its operation of that number.
fn before(at: u32) -> Spot {
    Spot {
        parent: OpName(1),
        region: 0,
        at,
    }
}

fn form(e: &Edit) -> &'static str {
    match e {
        Edit::Insert { .. } => "Insert",
        Edit::Erase { .. } => "Erase",
        Edit::ReplaceUses { .. } => "ReplaceUses",
        Edit::Replace { .. } => "Replace",
        Edit::Restore { .. } => "Restore",
        Edit::Move { .. } => "Move",
        Edit::SetAttr { .. } => "SetAttr",
    }
}

/// Makes an edit, puts its inverse into a list, and tells the form of the edit and what the module is then.
fn make(
    alloc: Global,
    m: &mut Module,
    e: &Edit,
    inverses: &mut Vec<Edit>,
    told: &mut String,
) -> Result<(), NoMemory> {
    if is_short(&m.root) {
        inverses.push(inverse(alloc, m, e)?)?;
    }
    apply_edit(alloc, m, e)?;
    writeln!(told, "{}", form(e))?;
    add_module(alloc, told, m)
}

/// Makes the edits, and answers their inverses.
fn make_all(
    alloc: Global,
    m: &mut Module,
    edits: &[Edit],
    told: &mut String,
) -> Result<Vec<Edit>, NoMemory> {
    let mut inverses = Vec::new(alloc);
    for e in edits {
        make(alloc, m, e, &mut inverses, told)?;
    }
    Ok(inverses)
}

/// Makes a copy of the edit, then its inverse, then the inverse of that and the inverse of that one; tells each module.
fn turns(alloc: Global, m: &mut Module, e: &Edit, told: &mut String) -> Result<(), NoMemory> {
    let mut edits = Vec::new(alloc);
    edits.push(e.copy(alloc)?)?;
    for _ in 0..4 {
        edits = make_all(alloc, m, edits.as_slice(), told)?;
    }
    Ok(())
}

/// Puts the payload behind others. A list of modules is dropped at less cost to the check than a module is.
fn add_payload(alloc: Global, modules: &mut Vec<Module>) -> Result<(), Fail> {
    let read = read_module(alloc, PAYLOAD.as_bytes())?;
    modules.push(read.module)?;
    Ok(())
}

/// What the payload is while an edit is made and undone, twice.
fn payload_turns(alloc: Global, e: &Edit, told: &mut String) -> Result<(), Fail> {
    let mut modules = Vec::new(alloc);
    add_payload(alloc, &mut modules)?;
    for m in modules.iter_mut() {
        turns(alloc, m, e, told)?;
    }
    Ok(())
}

/// Asserts that an edit gives the module of that outline, and that its inverse, of that form, gives the payload again;
/// and so does the inverse of the inverse, with its own.
fn assert_turns(
    rt: &impl Abort,
    alloc: Global,
    e: &Edit,
    edited: &str,
    back: &str,
) -> Result<(), Fail> {
    let mut told = String::new(alloc);
    payload_turns(alloc, e, &mut told)?;
    let there = form(e);
    let wanted = format!(in alloc;
        "{there}\n{edited}{back}\n{FIRST}{there}\n{edited}{back}\n{FIRST}"
    )?;
    assert_eq!(rt; told.as_str(), wanted.as_str());
    Ok(())
}

/// Puts a constant before the return.
fn insertion(alloc: Global) -> Result<Edit, NoMemory> {
    let kind = Kind::Constant {
        width: Width::I32,
        bits: 9,
    };
    let results = one_type(alloc, PayloadType::Scalar(Width::I32))?;
    Ok(Edit::Insert {
        tree: operation(alloc, 20, kind, &[], results)?,
        at: before(3),
    })
}

/// The change of an operand from one value to another.
fn change(op: u64, operand: u32, old: ValueName, new: ValueName) -> Change {
    Change {
        op: OpName(op),
        operand,
        old,
        new,
    }
}

/// Puts the argument in the place of the sum.
fn replacement(alloc: Global) -> Result<Edit, NoMemory> {
    let changes = [change(5, 0, D, A), change(5, 1, D, A), change(7, 0, D, A)];
    Ok(Edit::Replace {
        op: OpName(3),
        by: ValueList::from_slice(alloc, &[A])?,
        changes: ChangeList::from_slice(alloc, &changes)?,
    })
}

/// Gives an operation's attribute `note` a value, or takes it away.
fn noted(alloc: Global, op: u64, value: Option<AttrValue>) -> Result<Edit, NoMemory> {
    Ok(Edit::SetAttr {
        op: OpName(op),
        key: ListOf::from_slice(alloc, b"note")?,
        value,
    })
}

/// Lets the sum in the branch take the constant, and the first sum the argument twice.
fn other_uses(alloc: Global) -> Result<Edit, NoMemory> {
    let changes = [change(3, 1, C, A), change(5, 0, D, C)];
    Ok(Edit::ReplaceUses {
        changes: ChangeList::from_slice(alloc, &changes)?,
    })
}

/// Moves the sum in the branch before it.
fn moved() -> Edit {
    Edit::Move {
        op: OpName(5),
        to: before(2),
    }
}

#[test]
fn each_edit_is_undone_by_its_inverse(rt: HostRuntime) -> Result<(), Fail> {
    let alloc = rt.alloc();
    let erasure = Edit::Erase { op: OpName(4) };
    let note = Some(AttrValue::Text(ListOf::from_slice(alloc, b"new")?));
    assert_turns(&rt, alloc, &insertion(alloc)?, INSERTED, "Erase")?;
    assert_turns(&rt, alloc, &erasure, ERASED, "Insert")?;
    assert_turns(&rt, alloc, &other_uses(alloc)?, CHANGED, "ReplaceUses")?;
    assert_turns(&rt, alloc, &replacement(alloc)?, REPLACED, "Restore")?;
    assert_turns(&rt, alloc, &moved(), MOVED, "Move")?;
    assert_turns(&rt, alloc, &noted(alloc, 2, note)?, NOTED, "SetAttr")?;
    assert_turns(&rt, alloc, &noted(alloc, 5, None)?, NOT_NOTED, "SetAttr")
}
