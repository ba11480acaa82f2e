//! What cells stand for.

/// What defines a value: a result of an operation, or an argument of the block of a region that it holds, each by the
/// operation's number.
#[derive(Clone, Copy, Debug, PartialEq, Eq)]
pub enum Definition {
    /// The result of that number.
    Result { op: u64, num: u32 },
    /// The argument of that number, of the block of that region.
    Argument { op: u64, region: u32, num: u32 },
}

/// What a cell stands for: an operand of an operation, or a value.
#[derive(Clone, Copy, Debug, PartialEq, Eq)]
pub enum CellName {
    /// The operand of that number.
    Operand { op: u64, num: u32 },
    /// What defines the value.
    Value(Definition),
}

/// A use of a value: the operation, and the number of its operand.
#[derive(Clone, Copy, Debug, PartialEq, Eq)]
pub struct Use {
    pub op: u64,
    pub operand: u32,
}
