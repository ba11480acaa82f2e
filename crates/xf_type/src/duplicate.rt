//! Copies of values that own memory.
ghost use Rattle.std.specs.Prelude.{◌≡◌, IfOk, IsOk};

use crate::NoMemory;
use crate::attribute::{AffineMap, AttrValue};
use crate::list::ListOf;
use crate::payload_type::{Dim, PayloadType, Shape};
use std::alloc::Global;

/// A value of which a copy can be made that equals it.
pub trait Duplicate: Drop {
    /// A copy, which equals the value. It fails only where there is no memory.
    fn duplicate(&self, alloc: Global) -> Result<Self, NoMemory>
        ensures { IfOk result (λ copy. copy ≡ self.now) };
}

impl Duplicate for u8 {
    fn duplicate(&self, _alloc: Global) -> Result<u8, NoMemory> {
        Ok(*self)
    }
}

impl Duplicate for u32 {
    fn duplicate(&self, _alloc: Global) -> Result<u32, NoMemory> {
        Ok(*self)
    }
}

impl Duplicate for u64 {
    fn duplicate(&self, _alloc: Global) -> Result<u64, NoMemory> {
        Ok(*self)
    }
}

impl Duplicate for u128 {
    fn duplicate(&self, _alloc: Global) -> Result<u128, NoMemory> {
        Ok(*self)
    }
}

impl Duplicate for Dim {
    fn duplicate(&self, _alloc: Global) -> Result<Dim, NoMemory> {
        Ok(*self)
    }
}

impl<T: Duplicate> Duplicate for ListOf<T> {
    fn duplicate(&self, alloc: Global) -> Result<ListOf<T>, NoMemory> {
        let items = self.as_slice();
        let mut copies = Vec::with_capacity(alloc, items.len())?;
        for item in items {
            copies.push(item.duplicate(alloc)?)?;
        }
        Ok(ListOf::from_vec(copies))
    }
}

impl Duplicate for Shape {
    fn duplicate(&self, alloc: Global) -> Result<Shape, NoMemory> {
        Ok(Shape {
            dims: self.dims.duplicate(alloc)?,
            elem: self.elem,
        })
    }
}

impl Duplicate for PayloadType {
    fn duplicate(&self, alloc: Global) -> Result<PayloadType, NoMemory> {
        Ok(match self {
            PayloadType::Scalar(width) => PayloadType::Scalar(*width),
            PayloadType::Tensor(shape) => PayloadType::Tensor(shape.duplicate(alloc)?),
        })
    }
}

impl Duplicate for AttrValue {
    fn duplicate(&self, alloc: Global) -> Result<AttrValue, NoMemory> {
        Ok(match self {
            AttrValue::Unit => AttrValue::Unit,
            AttrValue::Int { width, bits } => AttrValue::Int {
                width: *width,
                bits: *bits,
            },
            AttrValue::Text(bytes) => AttrValue::Text(bytes.duplicate(alloc)?),
        })
    }
}

impl Duplicate for AffineMap {
    fn duplicate(&self, alloc: Global) -> Result<AffineMap, NoMemory> {
        Ok(AffineMap {
            dims: self.dims,
            results: self.results.duplicate(alloc)?,
        })
    }
}
