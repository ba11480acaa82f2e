//! What a caller tells of other operations.

use xf_type::{PayloadType, Width};

/// The types of the values that the terminator of a block gives to the operation that holds the block.
#[derive(Clone, Copy)]
pub enum Yielded<'a> {
    Types(&'a [PayloadType]),
    /// One scalar of that width, as the body of a `linalg.generic` gives.
    Element(Width),
    Nothing,
}
