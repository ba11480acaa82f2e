//! The functions of a module: they alone stand in its root, and their symbols are different.
ghost use Rattle.std.specs.Prelude.{◌≡◌, true, [], IfOk, OnOk};
ghost use Rattle.xf_ir.specs.Kinds.{is_module, is_function};
ghost use Rattle.xf_ir.specs.Lists.{texts_once};
ghost use Rattle.xf_ir.specs.Placed.{functions_of};
ghost use Rattle.xf_ir.specs.Valid.{symbols_before, symbols_of, symbols_in};
ghost use Rattle.xf_ir.specs.View.{ops_of, regions_of};
ghost use Rattle.xf_ir.specs.Violations.{regions_inner, functions_alone, blocks_alone, holds_functions};
ghost use Rattle.xf_verify.specs.Symbols.{symbols_seen, no_symbols, new_symbols, with_symbols};

use std::alloc::Global;
use std::collections::BTreeSet;
use xf_ir::{Block, Kind, Module, Op};
use xf_type::NoMemory;

/// The operations of the module's first block.
pub fn functions_of(m: &Module) -> &[Op]
    ensures { ops_of result.now ≡ functions_of m.now }
{
    match m.root.regions.first() {
        Some(block) => &block.ops,
        None => &[],
    }
}

/// Whether it is a module.
fn is_module(kind: &Kind) -> bool
    ensures { result ≡ is_module kind.now }
{
    matches!(kind, Kind::Module { .. })
}

/// Whether it is a function.
fn is_function(kind: &Kind) -> bool
    ensures { result ≡ is_function kind.now }
{
    matches!(kind, Kind::Func { .. })
}

/// Whether an operation holds no module and no function.
fn holds_no_container(op: &Op) -> bool
    ensures { result ≡ regions_inner op.now.regions }
{
    for block in &op.regions {
        for inner in &block.ops {
            if inner.kind.is_container() || !holds_no_container(inner) {
                return false;
            }
        }
    }
    true
}

/// Whether these are functions, which hold no other and no module.
fn are_functions(ops: &[Op]) -> bool
    ensures { result ≡ functions_alone (ops_of ops.now) }
{
    for op in ops {
        if !is_function(&op.kind) || !holds_no_container(op) {
            return false;
        }
    }
    true
}

/// Whether the blocks hold functions alone.
fn hold_functions(blocks: &[Block]) -> bool
    ensures { result ≡ blocks_alone (regions_of blocks.now) }
{
    for block in blocks {
        if !are_functions(&block.ops) {
            return false;
        }
    }
    true
}

/// Adds the symbol of a function, and tells whether it was not there before.
fn add_symbol<'a>(symbols: &mut BTreeSet<&'a [u8]>, kind: &'a Kind) -> Result<bool, NoMemory>
    ensures new { IfOk result (λ new. new ≡ new_symbols (symbols_seen symbols.old) (symbols_before kind.now [])) }
    ensures symbols { OnOk result (symbols_seen symbols.new
        ≡ with_symbols (symbols_before kind.now []) (symbols_seen symbols.old)) }
{
    match kind {
        Kind::Func { symbol, .. } => Ok(symbols.insert(symbol.as_slice())?),
        _ => Ok(true),
    }
}

/// Adds the symbols of functions, and tells whether none of them was there before.
fn add_symbols<'a>(symbols: &mut BTreeSet<&'a [u8]>, ops: &'a [Op]) -> Result<bool, NoMemory>
    ensures new { IfOk result (λ new. new ≡ new_symbols (symbols_seen symbols.old) (symbols_of (ops_of ops.now))) }
    ensures symbols { IfOk result (λ new. new ≡ true
        → symbols_seen symbols.new ≡ with_symbols (symbols_of (ops_of ops.now)) (symbols_seen symbols.old)) }
{
    for op in ops {
        if !add_symbol(symbols, &op.kind)? {
            return Ok(false);
        }
    }
    Ok(true)
}

/// Whether the functions of blocks have different symbols.
fn symbols_differ(alloc: Global, blocks: &[Block]) -> Result<bool, NoMemory>
    ensures { IfOk result (λ differ. differ ≡ texts_once (symbols_in (regions_of blocks.now))) }
{
    let mut symbols = BTreeSet::new(alloc);
    for block in blocks {
        if !add_symbols(&mut symbols, &block.ops)? {
            return Ok(false);
        }
    }
    Ok(true)
}

/// Whether the root is a module that holds functions alone, with different symbols, and no other
/// operation is a module or a function.
///
/// Refuses for want of memory alone. Takes time in the number of operations, and a look-up among
/// the symbols for each function.
pub fn holds_functions(alloc: Global, m: &Module) -> Result<bool, NoMemory>
    ensures { IfOk result (λ holds. holds ≡ holds_functions m.now) }
{
    if !is_module(&m.root.kind) || !hold_functions(&m.root.regions) {
        return Ok(false);
    }
    symbols_differ(alloc, &m.root.regions)
}
