//! Copies of trees and of what they are made of.
ghost use Rattle.std.specs.Prelude.{◌≡◌, IfOk};

use crate::kind::{Attr, IteratorKind, Kind, SliceIndex};
use crate::op::{Block, Module, Op};
use crate::values::ValueList;
use std::alloc::Global;
use xf_type::{ByteList, Duplicate, NoMemory};

impl Duplicate for SliceIndex {
    fn duplicate(&self, _alloc: Global) -> Result<SliceIndex, NoMemory> {
        Ok(*self)
    }
}

impl Duplicate for IteratorKind {
    fn duplicate(&self, _alloc: Global) -> Result<IteratorKind, NoMemory> {
        Ok(*self)
    }
}

impl Duplicate for Attr {
    fn duplicate(&self, alloc: Global) -> Result<Attr, NoMemory> {
        Ok(Attr {
            name: self.name.duplicate(alloc)?,
            value: self.value.duplicate(alloc)?,
        })
    }
}

/// A copy of an optional symbol.
fn copy_symbol(alloc: Global, symbol: &Option<ByteList>) -> Result<Option<ByteList>, NoMemory>
    ensures { IfOk result (λ copy. copy ≡ symbol.now) }
{
    match symbol {
        None => Ok(None),
        Some(bytes) => Ok(Some(bytes.duplicate(alloc)?)),
    }
}

impl Duplicate for Kind {
    fn duplicate(&self, alloc: Global) -> Result<Kind, NoMemory> {
        Ok(match self {
            Kind::Module { symbol } => Kind::Module {
                symbol: copy_symbol(alloc, symbol)?,
            },
            Kind::Func {
                symbol,
                private,
                results,
            } => Kind::Func {
                symbol: symbol.duplicate(alloc)?,
                private: *private,
                results: results.duplicate(alloc)?,
            },
            Kind::Return => Kind::Return,
            Kind::Call { callee } => Kind::Call {
                callee: callee.duplicate(alloc)?,
            },
            Kind::Constant { width, bits } => Kind::Constant {
                width: *width,
                bits: *bits,
            },
            Kind::Dense { shape, numbers } => Kind::Dense {
                shape: shape.duplicate(alloc)?,
                numbers: numbers.duplicate(alloc)?,
            },
            Kind::Binary { kind, width } => Kind::Binary {
                kind: *kind,
                width: *width,
            },
            Kind::Compare { kind, width } => Kind::Compare {
                kind: *kind,
                width: *width,
            },
            Kind::Select { width } => Kind::Select { width: *width },
            Kind::Convert { kind, from, to } => Kind::Convert {
                kind: *kind,
                from: *from,
                to: *to,
            },
            Kind::For { width } => Kind::For { width: *width },
            Kind::If => Kind::If,
            Kind::Yield => Kind::Yield,
            Kind::Empty => Kind::Empty,
            Kind::Dim => Kind::Dim,
            Kind::Extract => Kind::Extract,
            Kind::Insert => Kind::Insert,
            Kind::ExtractSlice { offsets, sizes } => Kind::ExtractSlice {
                offsets: offsets.duplicate(alloc)?,
                sizes: sizes.duplicate(alloc)?,
            },
            Kind::InsertSlice { offsets, sizes } => Kind::InsertSlice {
                offsets: offsets.duplicate(alloc)?,
                sizes: sizes.duplicate(alloc)?,
            },
            Kind::Cast => Kind::Cast,
            Kind::Named { kind } => Kind::Named { kind: *kind },
            Kind::Generic { maps, iterators } => Kind::Generic {
                maps: maps.duplicate(alloc)?,
                iterators: iterators.duplicate(alloc)?,
            },
            Kind::LinalgYield => Kind::LinalgYield,
        })
    }
}

impl Op {
    /// A copy, equal in all that the operation has and holds. Refuses for want of memory alone.
    #[cycle(copy)]
    pub fn copy(&self, alloc: Global) -> Result<Op, NoMemory>
        ensures { IfOk result (λ copy. copy ≡ self.now) }
    {
        let mut regions = Vec::new(alloc);
        for block in &self.regions {
            regions.push(block.copy(alloc)?)?;
        }
        Ok(Op {
            name: self.name,
            kind: self.kind.duplicate(alloc)?,
            attrs: self.attrs.duplicate(alloc)?,
            operands: ValueList::from_slice(alloc, self.operands.as_slice())?,
            results: self.results.duplicate(alloc)?,
            regions,
        })
    }
}

impl Block {
    /// A copy, equal in its arguments and operations. Refuses for want of memory alone.
    #[cycle(copy)]
    pub fn copy(&self, alloc: Global) -> Result<Block, NoMemory>
        ensures { IfOk result (λ copy. copy ≡ self.now) }
    {
        let mut ops = Vec::new(alloc);
        for op in &self.ops {
            ops.push(op.copy(alloc)?)?;
        }
        Ok(Block {
            args: self.args.duplicate(alloc)?,
            ops,
        })
    }
}

impl Module {
    /// A copy of the module, with the same names. Refuses for want of memory alone.
    pub fn copy(&self, alloc: Global) -> Result<Module, NoMemory>
        ensures { IfOk result (λ copy. copy ≡ self.now) }
    {
        Ok(Module {
            root: self.root.copy(alloc)?,
            next: self.next,
        })
    }
}
