//! The values that a payload computes with.
ghost use Rattle.std.specs.Prelude.{◌≡◌, ◌↔◌, IsTrue};

use std::alloc::Global;
use xf_type::{Duplicate, Elem, Equals, ListOf, NoMemory, Width};

/// The sizes of a tensor, the outermost first.
pub type SizeList = ListOf<u32>;
/// The elements of a tensor, in row-major order.
pub type ElemList = ListOf<Elem>;

/// A value of a payload: an integer, or a tensor of integers, of a width.
#[derive(Debug, Drop)]
pub enum Value {
    Scalar {
        width: Width,
        elem: Elem,
    },
    /// As many elements as the product of the sizes.
    Tensor {
        width: Width,
        shape: SizeList,
        elems: ElemList,
    },
}

impl Duplicate for Value {
    fn duplicate(&self, alloc: Global) -> Result<Value, NoMemory> {
        Ok(match self {
            Value::Scalar { width, elem } => Value::Scalar {
                width: *width,
                elem: *elem,
            },
            Value::Tensor {
                width,
                shape,
                elems,
            } => Value::Tensor {
                width: *width,
                shape: shape.duplicate(alloc)?,
                elems: ListOf::from_slice(alloc, elems.as_slice())?,
            },
        })
    }
}

/// Whether two lists of elements are equal.
fn has_equal_elems(left: &[Elem], right: &[Elem]) -> bool
    ensures { IsTrue result ↔ (left.now ≡ right.now) }
{
    if left.len() != right.len() {
        return false;
    }
    for at in 0..left.len() {
        if left[at] != right[at] {
            return false;
        }
    }
    true
}

impl Equals for Value {
    fn equals(&self, other: &Value) -> bool {
        match (self, other) {
            (
                Value::Scalar { width, elem },
                Value::Scalar {
                    width: wanted,
                    elem: wanted_elem,
                },
            ) => *width == *wanted && *elem == *wanted_elem,
            (
                Value::Tensor {
                    width,
                    shape,
                    elems,
                },
                Value::Tensor {
                    width: wanted,
                    shape: wanted_shape,
                    elems: wanted_elems,
                },
            ) => {
                *width == *wanted
                    && shape.equals(wanted_shape)
                    && has_equal_elems(elems.as_slice(), wanted_elems.as_slice())
            }
            _ => false,
        }
    }
}
