//! The printed form of a module, written line by line.
ghost use Rattle.std.specs.Prelude.{◌≡◌, ◌++◌, OnOk, true, IfOk, [], ◌∷◌, codes};
ghost use Rattle.xf_host.specs.Writes.{WritesText, FailsByCount};
ghost use Rattle.xf_ir.specs.Placed.{functions_of};
ghost use Rattle.xf_ir.specs.View.{ops_of, regions_of};
ghost use Rattle.xf_print.specs.Lines.{block_text, body_text, brace_text, closed, end_line, fed, function_text};
ghost use Rattle.xf_print.specs.Lines.{functions_text, header_text, op_row, op_text, opened_text, ops_text, rest_text};
ghost use Rattle.xf_print.specs.Lines.{tail_text, tree_text};
ghost use Rattle.xf_print_base.specs.Index.{names_of};
ghost use Rattle.xf_printed.specs.PrintedForm.{is_empty_yield, printed_form};

use crate::line::{make_closing, make_header, make_opening, write_brace};
use crate::row::{write_opening, write_tail};
use std::alloc::Global;
use xf_host::sink::{Sink, SinkFail};
use xf_ir::{Block, Kind, Module, Op};
use xf_print_base::{Index, sum};

/// Whether an operation is a yield that is left out: without operands and attributes.
fn is_empty_yield(op: &Op) -> bool
    ensures { result ≡ is_empty_yield op.now.kind op.now.attrs op.now.operands }
{
    match &op.kind {
        Kind::Yield => op.attrs.as_slice().is_empty() && op.operands.as_slice().is_empty(),
        _ => false,
    }
}

/// Writes the line so far, and what begins a block behind it.
fn print_brace<S: Sink>(
    first: bool,
    op: &Op,
    line: &mut Vec<u8>,
    sink: &mut S,
) -> Result<(), SinkFail>
    ensures text { WritesText result ((line.old.items ++ brace_text (op_row op.now.kind) first) ++ 10 ∷ [])
        (S.written sink.old) (S.written sink.new) }
    ensures count { FailsByCount result (S.faults sink.old) (S.faults sink.new) }
{
    write_brace(first, op, line)?;
    line.extend_from_slice(b"\n")?;
    sink.write(line.as_slice())
}

/// Writes the line before the operations of a block, where there is one.
fn print_header<S: Sink>(
    names: &Index<'_>,
    margin: u64,
    op: &Op,
    line: &mut Vec<u8>,
    sink: &mut S,
) -> Result<(), SinkFail>
    ensures text { WritesText result (fed (header_text (names_of names.now) margin op.now))
        (S.written sink.old) (S.written sink.new) }
    ensures count { FailsByCount result (S.faults sink.old) (S.faults sink.new) }
{
    if !make_header(names, margin, op, line)? {
        return Ok(());
    }
    sink.write(line.as_slice())
}

/// Writes the line so far, and what stands before the operations of a block.
fn print_opened<S: Sink>(
    names: &Index<'_>,
    margin: u64,
    op: &Op,
    first: bool,
    line: &mut Vec<u8>,
    sink: &mut S,
) -> Result<(), SinkFail>
    ensures text { WritesText result
        ((line.old.items ++ opened_text (names_of names.now) margin op.now first) ++ 10 ∷ [])
        (S.written sink.old) (S.written sink.new) }
    ensures count { FailsByCount result (S.faults sink.old) (S.faults sink.new) }
{
    print_brace(first, op, line, sink)?;
    print_header(names, margin, op, line, sink)
}

/// Writes the line so far, and what stands behind the blocks of an operation.
fn print_tail<S: Sink>(
    names: &Index<'_>,
    op: &Op,
    line: &mut Vec<u8>,
    sink: &mut S,
) -> Result<(), SinkFail>
    ensures text { WritesText result ((line.old.items ++ tail_text (names_of names.now) op.now) ++ 10 ∷ [])
        (S.written sink.old) (S.written sink.new) }
    ensures count { FailsByCount result (S.faults sink.old) (S.faults sink.new) }
{
    write_tail(names, op, line)?;
    line.extend_from_slice(b"\n")?;
    sink.write(line.as_slice())
}

/// Writes the operations of a block.
#[cycle(print)]
fn print_ops<S: Sink>(
    names: &Index<'_>,
    margin: u64,
    ops: &[Op],
    line: &mut Vec<u8>,
    sink: &mut S,
) -> Result<(), SinkFail>
    ensures text { WritesText result (fed (ops_text (names_of names.now) margin (ops_of ops.now)))
        (S.written sink.old) (S.written sink.new) }
    ensures count { FailsByCount result (S.faults sink.old) (S.faults sink.new) }
{
    for op in ops {
        print_op(names, margin, op, line, sink)?;
    }
    Ok(())
}

/// Writes an operation of a block, but no empty yield.
#[cycle(print)]
fn print_op<S: Sink>(
    names: &Index<'_>,
    margin: u64,
    op: &Op,
    line: &mut Vec<u8>,
    sink: &mut S,
) -> Result<(), SinkFail>
    ensures text { WritesText result (fed (op_text (names_of names.now) margin op.now))
        (S.written sink.old) (S.written sink.new) }
    ensures count { FailsByCount result (S.faults sink.old) (S.faults sink.new) }
{
    if is_empty_yield(op) {
        return Ok(());
    }
    print_tree(names, margin, op, line, sink)
}

/// Writes an operation and what it holds.
#[cycle(print)]
fn print_tree<S: Sink>(
    names: &Index<'_>,
    margin: u64,
    op: &Op,
    line: &mut Vec<u8>,
    sink: &mut S,
) -> Result<(), SinkFail>
    ensures text { WritesText result (fed (tree_text (names_of names.now) margin op.now))
        (S.written sink.old) (S.written sink.new) }
    ensures count { FailsByCount result (S.faults sink.old) (S.faults sink.new) }
{
    make_opening(names, margin, op, line)?;
    print_rest(names, margin, op, line, sink)
}

/// Writes the line so far, the blocks of an operation, and what stands behind them.
#[cycle(print)]
fn print_rest<S: Sink>(
    names: &Index<'_>,
    margin: u64,
    op: &Op,
    line: &mut Vec<u8>,
    sink: &mut S,
) -> Result<(), SinkFail>
    ensures text { WritesText result
        ((line.old.items ++ rest_text (names_of names.now) margin op.now true op.now.regions) ++ 10 ∷ [])
        (S.written sink.old) (S.written sink.new) }
    ensures count { FailsByCount result (S.faults sink.old) (S.faults sink.new) }
{
    let blocks = op.regions.as_slice();
    let mut first = true;
    for block in blocks {
        print_block(names, margin, op, first, block, line, sink)?;
        first = false;
    }
    print_tail(names, op, line, sink)
}

/// Writes what a block holds.
#[cycle(print)]
fn print_inner<S: Sink>(
    names: &Index<'_>,
    margin: u64,
    block: &Block,
    line: &mut Vec<u8>,
    sink: &mut S,
) -> Result<(), SinkFail>
    ensures text { WritesText result (fed (ops_text (names_of names.now) margin block.now.ops))
        (S.written sink.old) (S.written sink.new) }
    ensures count { FailsByCount result (S.faults sink.old) (S.faults sink.new) }
{
    print_ops(names, margin, block.ops.as_slice(), line, sink)
}

/// Writes the line so far and a block behind it, and begins the line that ends the block.
#[cycle(print)]
fn print_block<S: Sink>(
    names: &Index<'_>,
    margin: u64,
    op: &Op,
    first: bool,
    block: &Block,
    line: &mut Vec<u8>,
    sink: &mut S,
) -> Result<(), SinkFail>
    ensures text { WritesText result
        ((line.old.items ++ block_text (names_of names.now) margin op.now first block.now.ops) ++ 10 ∷ [])
        (S.written sink.old) (S.written sink.new) }
    ensures line { OnOk result (line.new.items ≡ closed margin) }
    ensures count { FailsByCount result (S.faults sink.old) (S.faults sink.new) }
{
    let inner = sum(margin, 1)?;
    print_opened(names, margin, op, first, line, sink)?;
    print_inner(names, inner, block, line, sink)?;
    make_closing(margin, line)?;
    Ok(())
}

/// Writes a function, whose values get names of their own.
fn print_function<S: Sink>(
    alloc: Global,
    function: &Op,
    line: &mut Vec<u8>,
    sink: &mut S,
) -> Result<(), SinkFail>
    ensures text { WritesText result (fed (function_text function.now))
        (S.written sink.old) (S.written sink.new) }
    ensures count { FailsByCount result (S.faults sink.old) (S.faults sink.new) }
{
    let mut names = Index::new(alloc);
    names.add_op(function)?;
    print_tree(&names, 1, function, line, sink)
}

/// Writes functions.
fn print_functions<S: Sink>(
    alloc: Global,
    functions: &[Op],
    line: &mut Vec<u8>,
    sink: &mut S,
) -> Result<(), SinkFail>
    ensures text { WritesText result (fed (functions_text (ops_of functions.now)))
        (S.written sink.old) (S.written sink.new) }
    ensures count { FailsByCount result (S.faults sink.old) (S.faults sink.new) }
{
    for function in functions {
        print_function(alloc, function, line, sink)?;
    }
    Ok(())
}

/// The functions of a module.
fn functions_of(m: &Module) -> &[Op]
    ensures { ops_of result.now ≡ functions_of m.now }
{
    let root = &m.root;
    match root.regions.as_slice() {
        [] => &[],
        [block, ..] => block.ops.as_slice(),
    }
}

/// Writes the end of a module.
fn print_end<S: Sink>(
    names: &Index<'_>,
    root: &Op,
    line: &mut Vec<u8>,
    sink: &mut S,
) -> Result<(), SinkFail>
    ensures text { WritesText result (end_line (names_of names.now) root.now)
        (S.written sink.old) (S.written sink.new) }
    ensures count { FailsByCount result (S.faults sink.old) (S.faults sink.new) }
{
    make_closing(0, line)?;
    print_tail(names, root, line, sink)
}

/// Writes the functions of a module, and its end.
fn print_functions_and_end<S: Sink>(
    alloc: Global,
    names: &Index<'_>,
    m: &Module,
    line: &mut Vec<u8>,
    sink: &mut S,
) -> Result<(), SinkFail>
    ensures text { WritesText result
        (fed (functions_text (functions_of m.now)) ++ end_line (names_of names.now) m.now.root)
        (S.written sink.old) (S.written sink.new) }
    ensures count { FailsByCount result (S.faults sink.old) (S.faults sink.new) }
{
    print_functions(alloc, functions_of(m), line, sink)?;
    print_end(names, &m.root, line, sink)
}

/// Writes the line so far, and a module behind it.
fn print_body<S: Sink>(
    alloc: Global,
    names: &Index<'_>,
    m: &Module,
    line: &mut Vec<u8>,
    sink: &mut S,
) -> Result<(), SinkFail>
    ensures text { WritesText result (line.old.items ++ body_text (names_of names.now) m.now)
        (S.written sink.old) (S.written sink.new) }
    ensures count { FailsByCount result (S.faults sink.old) (S.faults sink.new) }
{
    print_opened(names, 0, &m.root, true, line, sink)?;
    print_functions_and_end(alloc, names, m, line, sink)
}

/// Writes the printed form of a module: each line, with its line feed, by one write. It refuses as the
/// sink does, and for want of memory. The time is linear in the text, but for the search of names in an ordered index.
pub fn print<S: Sink>(alloc: Global, m: &Module, sink: &mut S) -> Result<(), SinkFail>
    ensures text { WritesText result (printed_form m.now) (S.written sink.old) (S.written sink.new) }
    ensures count { FailsByCount result (S.faults sink.old) (S.faults sink.new) }
{
    let names = Index::new(alloc);
    let mut line = Vec::new(alloc);
    write_opening(&names, &m.root, &mut line)?;
    print_body(alloc, &names, m, &mut line, sink)
}
