//! Tests whether two values are equal.
ghost use Rattle.std.specs.Prelude.{◌≡◌, ◌↔◌, IsTrue};
ghost use Rattle.xf_type.specs.Equal.{same_width, same_shape, same_type, same_types};

use crate::attribute::{AffineMap, AttrValue};
use crate::list::ListOf;
use crate::payload_type::{Dim, PayloadType, Shape, Width};

/// A value of which a test tells whether another is the same.
pub trait Equals {
    /// Whether the two values are equal. It takes time in the length of the lists inside.
    fn equals(&self, other: &Self) -> bool
        ensures { IsTrue result ↔ (self.now ≡ other.now) };
}

impl Equals for u8 {
    fn equals(&self, other: &u8) -> bool {
        *self == *other
    }
}

impl Equals for u32 {
    fn equals(&self, other: &u32) -> bool {
        *self == *other
    }
}

impl Equals for u64 {
    fn equals(&self, other: &u64) -> bool {
        *self == *other
    }
}

impl Equals for Width {
    fn equals(&self, other: &Width) -> bool {
        *self == *other
    }
}

impl Equals for Dim {
    fn equals(&self, other: &Dim) -> bool {
        match (*self, *other) {
            (Dim::Fixed(extent), Dim::Fixed(wanted)) => extent == wanted,
            (Dim::Dynamic, Dim::Dynamic) => true,
            _ => false,
        }
    }
}

impl<T: Equals> Equals for ListOf<T> {
    fn equals(&self, other: &ListOf<T>) -> bool {
        let left = self.as_slice();
        let right = other.as_slice();
        if left.len() != right.len() {
            return false;
        }
        for at in 0..left.len() {
            if !left[at].equals(&right[at]) {
                return false;
            }
        }
        true
    }
}

impl Equals for Shape {
    fn equals(&self, other: &Shape) -> bool {
        self.elem == other.elem && self.dims.equals(&other.dims)
    }
}

impl Equals for PayloadType {
    fn equals(&self, other: &PayloadType) -> bool {
        match (self, other) {
            (PayloadType::Scalar(width), PayloadType::Scalar(wanted)) => *width == *wanted,
            (PayloadType::Tensor(shape), PayloadType::Tensor(wanted)) => shape.equals(wanted),
            _ => false,
        }
    }
}

impl Equals for AttrValue {
    fn equals(&self, other: &AttrValue) -> bool {
        match (self, other) {
            (AttrValue::Unit, AttrValue::Unit) => true,
            (
                AttrValue::Int { width, bits },
                AttrValue::Int {
                    width: wanted,
                    bits: wanted_bits,
                },
            ) => *width == *wanted && *bits == *wanted_bits,
            (AttrValue::Text(bytes), AttrValue::Text(wanted)) => bytes.equals(wanted),
            _ => false,
        }
    }
}

impl Equals for AffineMap {
    fn equals(&self, other: &AffineMap) -> bool {
        self.dims == other.dims && self.results.equals(&other.results)
    }
}

/// Whether two widths are equal.
#[tactic(auto, using(crate::proofs::EqualTypes::same_width_by))]
pub fn same_width(a: Width, b: Width) -> bool
    ensures { result ≡ same_width a b }
{
    a == b
}

/// Whether two shapes are equal.
pub fn same_shape(a: &Shape, b: &Shape) -> bool
    ensures { result ≡ same_shape a.now b.now }
{
    a.equals(b)
}

/// Whether two types are equal.
pub fn same_type(a: &PayloadType, b: &PayloadType) -> bool
    ensures { result ≡ same_type a.now b.now }
{
    a.equals(b)
}

/// Whether the types are these, one for one.
#[tactic(auto, using(crate::proofs::EqualTypes::unequal_lengths))]
pub fn same_types(types: &[PayloadType], wanted: &[PayloadType]) -> bool
    ensures { result ≡ same_types types.now wanted.now }
{
    if types.len() != wanted.len() {
        return false;
    }
    for at in 0..types.len() {
        if !same_type(&types[at], &wanted[at]) {
            return false;
        }
    }
    true
}
