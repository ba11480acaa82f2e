//! Changes of uses.
ghost use Rattle.std.specs.Prelude.{◌≡◌, ◌+◌, map, IfOk};
ghost use Rattle.xf_ir.specs.Changes.{value_changed, operands_changed, tree_changed, body_changed, turned};

use crate::name::{OpName, ValueName};
use crate::op::{Block, Op};
use crate::values::ValueList;
use std::alloc::Global;
use xf_type::{Duplicate, ListOf, NoMemory};

/// A change of one use: the operand of that number of the operation, with its value before and after.
#[derive(Clone, Copy, Debug, PartialEq, Eq)]
pub struct Change {
    pub op: OpName,
    pub operand: u32,
    pub old: ValueName,
    pub new: ValueName,
}

/// Changes of uses, of different places.
pub type ChangeList = ListOf<Change>;

/// The value at an operand after the changes.
fn changed_value(changes: &[Change], op: OpName, operand: usize, value: ValueName) -> ValueName
    ensures { result ≡ value_changed changes.now op operand value }
{
    for change in changes {
        if change.op == op && change.operand as usize == operand {
            return change.new;
        }
    }
    value
}

/// The operands of an operation after the changes.
fn changed_operands(
    alloc: Global,
    changes: &[Change],
    op: OpName,
    operands: &[ValueName],
) -> Result<ValueList, NoMemory>
    ensures { IfOk result (λ vs. vs ≡ operands_changed changes.now op 0 operands.now) }
{
    let mut changed = ValueList::new(alloc);
    for (operand, value) in operands.iter().enumerate() {
        changed.push(changed_value(changes, op, operand, *value))?;
    }
    Ok(changed)
}

/// A copy of the operation with changed uses in it and in what it holds. Refuses for want of memory alone.
#[cycle(changes)]
pub(crate) fn with_changes(alloc: Global, op: &Op, changes: &[Change]) -> Result<Op, NoMemory>
    ensures { IfOk result (λ o. o ≡ tree_changed changes.now op.now) }
{
    let mut regions = Vec::new(alloc);
    for block in &op.regions {
        regions.push(block_with_changes(alloc, block, changes)?)?;
    }
    Ok(Op {
        name: op.name,
        kind: op.kind.duplicate(alloc)?,
        attrs: op.attrs.duplicate(alloc)?,
        operands: changed_operands(alloc, changes, op.name, op.operands.as_slice())?,
        results: op.results.duplicate(alloc)?,
        regions,
    })
}

/// A copy of the block with changed uses in what it holds.
#[cycle(changes)]
fn block_with_changes(alloc: Global, block: &Block, changes: &[Change]) -> Result<Block, NoMemory>
    ensures { IfOk result (λ b. b ≡ body_changed changes.now block.now) }
{
    let mut ops = Vec::new(alloc);
    for op in &block.ops {
        ops.push(with_changes(alloc, op, changes)?)?;
    }
    Ok(Block {
        args: block.args.duplicate(alloc)?,
        ops,
    })
}

/// The changes back, in the same order.
pub(crate) fn turn(alloc: Global, changes: &[Change]) -> Result<ChangeList, NoMemory>
    ensures { IfOk result (λ back. back ≡ map turned changes.now) }
{
    let mut back = ListOf::new(alloc);
    for change in changes {
        back.push(Change {
            op: change.op,
            operand: change.operand,
            old: change.new,
            new: change.old,
        })?;
    }
    Ok(back)
}
