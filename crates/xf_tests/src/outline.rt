//! Modules in lines, one for each operation, so that a test sees all of a tree.

use std::alloc::Global;
use xf_ir::{Attr, Block, Kind, Module, Op, ValueName, walk_post};
use xf_type::{AttrValue, NoMemory};

/// Adds a value: `%2.0` is result 0 of operation 2, `%1/0.3` argument 3 of its region 0, `?4` the free value 4.
fn add_value(text: &mut String, value: ValueName) -> Result<(), NoMemory> {
    match value {
        ValueName::Result { op, num } => write!(text, " %{}.{num}", op.0),
        ValueName::Arg { op, region, num } => write!(text, " %{}/{region}.{num}", op.0),
        ValueName::Free(num) => write!(text, " ?{num}"),
    }
}

fn add_values(text: &mut String, values: &[ValueName]) -> Result<(), NoMemory> {
    for value in values {
        add_value(text, *value)?;
    }
    Ok(())
}

fn add_bytes(text: &mut String, bytes: &[u8]) -> Result<(), NoMemory> {
    match str::from_utf8(bytes) {
        Ok(word) => text.push_str(word),
        Err(_) => text.push_str("?"),
    }
}

/// Adds an attribute as `{name}`, `{name=7}` or `{name:text}`.
fn add_attr(text: &mut String, attr: &Attr) -> Result<(), NoMemory> {
    text.push_str(" {")?;
    add_bytes(text, attr.name.as_slice())?;
    match &attr.value {
        AttrValue::Unit => {}
        AttrValue::Int { bits, .. } => write!(text, "={bits}")?,
        AttrValue::Text(bytes) => {
            text.push_str(":")?;
            add_bytes(text, bytes.as_slice())?;
        }
    }
    text.push_str("}")
}

fn add_attrs(text: &mut String, attrs: &[Attr]) -> Result<(), NoMemory> {
    for attr in attrs {
        add_attr(text, attr)?;
    }
    Ok(())
}

/// Adds how many arguments and operations each block has.
fn add_blocks(text: &mut String, blocks: &[Block]) -> Result<(), NoMemory> {
    for block in blocks {
        write!(text, " ({} {})", block.args.len(), block.ops.len())?;
    }
    Ok(())
}

/// Adds the numbers of a constant, and the symbol of a function.
fn add_kind(text: &mut String, kind: &Kind) -> Result<(), NoMemory> {
    add_bytes(text, kind.spelling())?;
    match kind {
        Kind::Constant { bits, .. } => write!(text, " {bits}"),
        Kind::Func { symbol, .. } => {
            text.push_str(" ")?;
            add_bytes(text, symbol.as_slice())
        }
        _ => Ok(()),
    }
}

/// Adds an operation: its name, kind, operands, number of results, attributes and blocks.
pub fn add_line(text: &mut String, op: &Op) -> Result<(), NoMemory> {
    write!(text, "{} ", op.name.0)?;
    add_kind(text, &op.kind)?;
    add_values(text, op.operands.as_slice())?;
    write!(text, " -> {}", op.results.len())?;
    add_attrs(text, op.attrs.as_slice())?;
    add_blocks(text, op.regions.as_slice())?;
    text.push_str("\n")
}

/// Adds the operations of a module in post-order: each stands behind what its blocks hold, so the lines tell the tree.
pub fn add_module(alloc: Global, text: &mut String, m: &Module) -> Result<(), NoMemory> {
    let names = walk_post(alloc, &m.root)?;
    for name in names.as_slice() {
        if let Some(op) = m.find(*name) {
            add_line(text, op)?;
        }
    }
    Ok(())
}
