//! The numbers by which cells are found.
ghost use Rattle.std.specs.Prelude.{◌≡◌};
ghost use Rattle.xf_uses.specs.Cells.{mixed, value_number, cell_number};

use crate::cell::{CellName, Definition};

/// The number of an operation and others; it starts again behind 64 bits.
fn mixed(op: u64, more: u64) -> u64
    ensures { result ≡ mixed op more }
{
    op.wrapping_mul(3).wrapping_add(more)
}

/// The number by which a value's cell is found.
fn value_number(value: Definition) -> u64
    ensures { result ≡ value_number value }
{
    match value {
        Definition::Result { op, num } => mixed(op, 1 + num as u64),
        Definition::Argument { op, region, num } => mixed(op, 2 + region as u64 + num as u64),
    }
}

/// The number by which a cell is found.
pub(crate) fn cell_number(name: CellName) -> u64
    ensures { result ≡ cell_number name }
{
    match name {
        CellName::Operand { op, num } => mixed(op, num as u64),
        CellName::Value(value) => value_number(value),
    }
}
