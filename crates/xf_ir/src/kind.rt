//! What an operation is, with the attributes of its own.
ghost use Rattle.std.specs.Prelude.{◌≡◌};
ghost use Rattle.xf_ir.specs.Kinds.{is_container, has_body, has_else, is_terminator, is_generic};

use xf_type::{
    AffineMap, AttrValue, BinKind, ByteList, CmpKind, ConvKind, ListOf, Shape, TypeList, Width,
};

/// A discardable attribute.
#[derive(Drop)]
pub struct Attr {
    pub name: ByteList,
    pub value: AttrValue,
}

/// Discardable attributes, sorted by the bytes of their names.
pub type AttrList = ListOf<Attr>;

/// An offset or a size of a slice, as `static_offsets` and `static_sizes` of MLIR hold it.
#[derive(Clone, Copy, Debug, PartialEq, Eq)]
pub enum SliceIndex {
    /// A number as it is written.
    Fixed(i128),
    /// The next index operand that no earlier one takes.
    Dynamic,
}

/// The offsets or the sizes of a slice, in the order of the dimensions.
pub type SliceIndexList = ListOf<SliceIndex>;

/// What a dimension of a `linalg.generic` is.
#[derive(Clone, Copy, Debug, PartialEq, Eq)]
pub enum IteratorKind {
    Parallel,
    Reduction,
}

/// The iterator types of a `linalg.generic`, in the order of the dimensions.
pub type IteratorList = ListOf<IteratorKind>;

/// The indexing maps of a `linalg.generic`, in the order of its operands.
pub type MapList = ListOf<AffineMap>;

/// The numbers of a dense constant.
pub type NumberList = ListOf<u128>;

/// A `linalg` operation with a name, whose maps and body follow from it.
#[derive(Clone, Copy, Debug, PartialEq, Eq)]
pub enum NamedKind {
    Matmul,
    BatchMatmul,
    Matvec,
    Dot,
    Fill,
}

/// The kind of an operation, with the attributes that belong to it.
///
/// A number of a constant is that of its bits where it fits the width, so below 2^bits. A literal that does not fit has
/// a number of at least 2^bits: itself, or 2^128 less its magnitude where it is negative.
#[derive(Drop)]
pub enum Kind {
    /// `builtin.module`: one region of functions.
    Module {
        symbol: Option<ByteList>,
    },
    /// `func.func`: one region, whose block has the function's arguments; `results` are the types that it returns.
    Func {
        symbol: ByteList,
        private: bool,
        results: TypeList,
    },
    /// `func.return`: ends a function.
    Return,
    /// `func.call` of the function of that symbol.
    Call {
        callee: ByteList,
    },
    /// `arith.constant` of a scalar.
    Constant {
        width: Width,
        bits: u128,
    },
    /// `arith.constant` of a tensor: its numbers in row-major order, or the one number of all elements where they are
    /// equal.
    Dense {
        shape: Shape,
        numbers: NumberList,
    },
    /// A binary operation of `arith` on scalars.
    Binary {
        kind: BinKind,
        width: Width,
    },
    /// `arith.cmpi` on scalars of that width.
    Compare {
        kind: CmpKind,
        width: Width,
    },
    /// `arith.select` between scalars of that width.
    Select {
        width: Width,
    },
    /// A conversion of `arith` from one width to another.
    Convert {
        kind: ConvKind,
        from: Width,
        to: Width,
    },
    /// `scf.for` over an induction value of that width: one region.
    For {
        width: Width,
    },
    /// `scf.if`: one region, or two.
    If,
    /// `scf.yield`: ends a block of `scf.for` and `scf.if`.
    Yield,
    /// `tensor.empty`: its operands are the sizes of the dynamic dimensions.
    Empty,
    /// `tensor.dim`.
    Dim,
    /// `tensor.extract`.
    Extract,
    /// `tensor.insert`.
    Insert,
    /// `tensor.extract_slice` with strides of 1.
    ExtractSlice {
        offsets: SliceIndexList,
        sizes: SliceIndexList,
    },
    /// `tensor.insert_slice` with strides of 1.
    InsertSlice {
        offsets: SliceIndexList,
        sizes: SliceIndexList,
    },
    /// `tensor.cast`.
    Cast,
    /// A `linalg` operation with a name. Its last operand is the out.
    Named {
        kind: NamedKind,
    },
    /// `linalg.generic`: one region. Its last operand is the out.
    Generic {
        maps: MapList,
        iterators: IteratorList,
    },
    /// `linalg.yield`: ends the body of `linalg.generic`.
    LinalgYield,
}

impl Kind {
    /// Whether it is a module or a function.
    pub fn is_container(&self) -> bool
        ensures { result ≡ is_container self.now }
    {
        match self {
            Kind::Module { .. } => true,
            Kind::Func { .. } => true,
            _ => false,
        }
    }

    /// Whether it has a region.
    pub fn has_body(&self) -> bool
        ensures { result ≡ has_body self.now }
    {
        match self {
            Kind::Module { .. } => true,
            Kind::Func { .. } => true,
            Kind::For { .. } => true,
            Kind::If => true,
            Kind::Generic { .. } => true,
            _ => false,
        }
    }

    /// Whether it has a second region, that of else, which it may lack where it has no results.
    pub fn has_else(&self) -> bool
        ensures { result ≡ has_else self.now }
    {
        match self {
            Kind::If => true,
            _ => false,
        }
    }

    /// Whether it is a terminator, which ends a block.
    pub fn ends_block(&self) -> bool
        ensures { result ≡ is_terminator self.now }
    {
        match self {
            Kind::Return => true,
            Kind::Yield => true,
            Kind::LinalgYield => true,
            _ => false,
        }
    }

    /// Whether its block is a body of linalg.
    pub fn is_generic(&self) -> bool
        ensures { result ≡ is_generic self.now }
    {
        match self {
            Kind::Generic { .. } => true,
            _ => false,
        }
    }
}
