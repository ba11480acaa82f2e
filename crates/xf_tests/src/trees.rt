//! Operations and modules as tests build them.

use std::alloc::Global;
use xf_ir::{Block, BlockList, Kind, Module, Op, OpList, OpName, ValueList, ValueName};
use xf_type::{ListOf, NoMemory, PayloadType, TypeList};

/// One type.
pub fn one_type(alloc: Global, item: PayloadType) -> Result<TypeList, NoMemory> {
    let mut types = ListOf::new(alloc);
    types.push(item)?;
    Ok(types)
}

/// An operation without attributes and regions.
pub fn operation(
    alloc: Global,
    name: u64,
    kind: Kind,
    operands: &[ValueName],
    results: TypeList,
) -> Result<Op, NoMemory> {
    Ok(Op {
        name: OpName(name),
        kind,
        attrs: ListOf::new(alloc),
        operands: ValueList::from_slice(alloc, operands)?,
        results,
        regions: Vec::new(alloc),
    })
}

/// One region.
pub fn block(alloc: Global, args: TypeList, ops: OpList) -> Result<BlockList, NoMemory> {
    let mut regions = Vec::new(alloc);
    regions.push(Block { args, ops })?;
    Ok(regions)
}

/// An operation of one region that takes and gives nothing.
pub fn holder(
    alloc: Global,
    name: u64,
    kind: Kind,
    args: TypeList,
    ops: OpList,
) -> Result<Op, NoMemory> {
    let mut op = operation(alloc, name, kind, &[], ListOf::new(alloc))?;
    op.regions = block(alloc, args, ops)?;
    Ok(op)
}

/// The module of one function, which has the name 1.
pub fn function(
    alloc: Global,
    args: TypeList,
    results: TypeList,
    ops: OpList,
) -> Result<Module, NoMemory> {
    let kind = Kind::Func {
        symbol: ListOf::from_slice(alloc, b"f")?,
        private: false,
        results,
    };
    let mut functions = Vec::new(alloc);
    functions.push(holder(alloc, 1, kind, args, ops)?)?;
    let root = Kind::Module { symbol: None };
    Ok(Module {
        root: holder(alloc, 0, root, ListOf::new(alloc), functions)?,
        next: 2_000_000,
    })
}
