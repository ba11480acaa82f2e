//! Copies of modules and of what may take the place of an operation.

use crate::outline::{add_line, add_module};
use std::alloc::Global;
use std::process::Abort;
use std::test::Fail;
use xf_ir::{Module, Op, OpName, Snippet, ValueList, ValueName};
use xf_read::read_module;
use xf_type::NoMemory;

/// A payload with attributes, nested regions, a call, and types of each kind.
const PAYLOAD: &str = "module @m {
  func.func private @g(%x: i32) -> i32 attributes {far} {
    return %x : i32
  }
  func.func @f(%a: i32, %b: i1, %n: index) -> i32 {
    %c = call @g(%a) {note = \"of a call\"} : (i32) -> i32
    %r = scf.if %b -> (i32) {
      %s = scf.for %i = %n to %n step %n iter_args(%t = %c) -> (i32) {
        scf.yield %t : i32
      } {turns = 3 : i64}
      scf.yield %s : i32
    } else {
      scf.yield %a : i32
    }
    return %r : i32
  }
}
";

/// The payload, in a list: a list of modules is dropped at less cost to the check than a module is.
fn payload(alloc: Global) -> Result<Vec<Module>, Fail> {
    let mut modules = Vec::new(alloc);
    let read = read_module(alloc, PAYLOAD.as_bytes())?;
    modules.push(read.module)?;
    Ok(modules)
}

fn copies(alloc: Global, modules: &[Module]) -> Result<Vec<Module>, NoMemory> {
    let mut copies = Vec::new(alloc);
    for m in modules {
        copies.push(m.copy(alloc)?)?;
    }
    Ok(copies)
}

/// The outline of each module, and the name that its next operation gets.
fn outlines(alloc: Global, modules: &[Module]) -> Result<String, NoMemory> {
    let mut told = String::new(alloc);
    for m in modules {
        add_module(alloc, &mut told, m)?;
        writeln!(told, "next {}", m.next)?;
    }
    Ok(told)
}

#[test]
fn a_copy_of_a_module_has_the_same_outline(rt: HostRuntime) -> Result<(), Fail> {
    let alloc = rt.alloc();
    let modules = payload(alloc)?;
    let copies = copies(alloc, modules.as_slice())?;
    let wanted = outlines(alloc, modules.as_slice())?;
    assert_eq!(rt;
        outlines(alloc, copies.as_slice())?.as_str(),
        wanted.as_str()
    );
    assert!(rt; wanted.as_str().ends_with("next 11\n"), "{wanted}");
    Ok(())
}

/// The lines of operations.
fn lines(alloc: Global, ops: &[Op]) -> Result<String, NoMemory> {
    let mut text = String::new(alloc);
    for op in ops {
        add_line(&mut text, op)?;
    }
    Ok(text)
}

/// A snippet of the operation of a name, whose results are free values, behind others.
fn add_snippet(
    alloc: Global,
    m: &Module,
    name: OpName,
    snippets: &mut Vec<Snippet>,
) -> Result<(), NoMemory> {
    let mut ops = Vec::new(alloc);
    if let Some(op) = m.find(name) {
        ops.push(op.copy(alloc)?)?;
    }
    let results = ValueList::from_slice(alloc, &[ValueName::Free(3), ValueName::Free(4)])?;
    snippets.push(Snippet { ops, results })?;
    Ok(())
}

/// What a copy of a snippet has.
fn copied_lines(alloc: Global, snippet: &Snippet) -> Result<String, NoMemory> {
    let copy = snippet.copy(alloc)?;
    let mut text = lines(alloc, copy.ops.as_slice())?;
    write!(text, "{:?}", copy.results.as_slice())?;
    Ok(text)
}

/// Asserts that a copy of each snippet has these lines.
fn assert_copies(
    rt: &impl Abort,
    alloc: Global,
    snippets: &[Snippet],
    wanted: &str,
) -> Result<(), Fail> {
    for snippet in snippets {
        assert_eq!(rt; copied_lines(alloc, snippet)?.as_str(), wanted);
    }
    Ok(())
}

#[test]
fn a_copy_of_a_snippet_has_its_operations_and_results(rt: HostRuntime) -> Result<(), Fail> {
    let alloc = rt.alloc();
    let modules = payload(alloc)?;
    let mut snippets = Vec::new(alloc);
    for m in modules.as_slice() {
        add_snippet(alloc, m, OpName(5), &mut snippets)?;
    }
    assert_eq!(rt; snippets.len(), 1);
    let wanted = "5 scf.if %3/0.1 -> 1 (0 2) (0 1)\n[Free(3), Free(4)]";
    assert_copies(&rt, alloc, snippets.as_slice(), wanted)
}
