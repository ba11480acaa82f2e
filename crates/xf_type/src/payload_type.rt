//! The types of payload values.

use crate::list::DimList;

/// The width of an integer. `Index` has 64 bits.
#[derive(Clone, Copy, Debug, PartialEq, Eq)]
pub enum Width {
    I1,
    I8,
    I16,
    I32,
    I64,
    Index,
}

/// An element of a value: a number below 2^bits of its width, or no number, as an operation gives that has no result.
#[derive(Clone, Copy, Debug, PartialEq, Eq)]
pub enum Elem {
    Num(u64),
    NoNumber,
}

/// The extent of a dimension in a tensor type, which may be known only when the program runs.
#[derive(Clone, Copy, Debug, PartialEq, Eq)]
pub enum Dim {
    Fixed(u32),
    Dynamic,
}

/// The type of a tensor.
#[derive(Debug, Drop)]
pub struct Shape {
    pub dims: DimList,
    pub elem: Width,
}

/// The type of a payload value.
#[derive(Debug, Drop)]
pub enum PayloadType {
    Scalar(Width),
    Tensor(Shape),
}
