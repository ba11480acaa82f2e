//! How widths, and the words of the `arith` dialect, are spelt.
ghost use Rattle.std.specs.Prelude.{◌≡◌, codes};
ghost use Rattle.xf_type.specs.Spelling.{width_spelling, predicate_spelling, binary_spelling, conversion_spelling};

use crate::kind::{BinKind, CmpKind, ConvKind};
use crate::payload_type::Width;

impl Width {
    /// The type of integers of this width, as `i32`.
    pub fn spelling(self) -> &'static [u8]
        ensures { result.now ≡ width_spelling self }
    {
        match self {
            Width::I1 => b"i1",
            Width::I8 => b"i8",
            Width::I16 => b"i16",
            Width::I32 => b"i32",
            Width::I64 => b"i64",
            Width::Index => b"index",
        }
    }
}

impl CmpKind {
    /// The word of the comparison, as `slt`.
    pub fn spelling(self) -> &'static [u8]
        ensures { result.now ≡ predicate_spelling self }
    {
        match self {
            CmpKind::Eq => b"eq",
            CmpKind::Ne => b"ne",
            CmpKind::Slt => b"slt",
            CmpKind::Sle => b"sle",
            CmpKind::Sgt => b"sgt",
            CmpKind::Sge => b"sge",
            CmpKind::Ult => b"ult",
            CmpKind::Ule => b"ule",
            CmpKind::Ugt => b"ugt",
            CmpKind::Uge => b"uge",
        }
    }
}

impl BinKind {
    /// The name of the operation, as `arith.addi`.
    pub fn spelling(self) -> &'static [u8]
        ensures { result.now ≡ binary_spelling self }
    {
        match self {
            BinKind::Addi => b"arith.addi",
            BinKind::Subi => b"arith.subi",
            BinKind::Muli => b"arith.muli",
            BinKind::Andi => b"arith.andi",
            BinKind::Ori => b"arith.ori",
            BinKind::Xori => b"arith.xori",
            BinKind::Shli => b"arith.shli",
            BinKind::Shrui => b"arith.shrui",
            BinKind::Shrsi => b"arith.shrsi",
            BinKind::Minsi => b"arith.minsi",
            BinKind::Maxsi => b"arith.maxsi",
            BinKind::Minui => b"arith.minui",
            BinKind::Maxui => b"arith.maxui",
        }
    }
}

impl ConvKind {
    /// The name of the operation, as `arith.extsi`.
    pub fn spelling(self) -> &'static [u8]
        ensures { result.now ≡ conversion_spelling self }
    {
        match self {
            ConvKind::Extsi => b"arith.extsi",
            ConvKind::Extui => b"arith.extui",
            ConvKind::Trunci => b"arith.trunci",
            ConvKind::IndexCast => b"arith.index_cast",
            ConvKind::IndexCastui => b"arith.index_castui",
        }
    }
}
