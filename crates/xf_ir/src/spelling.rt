//! How kinds are spelt.
ghost use Rattle.std.specs.Prelude.{◌≡◌, codes};
ghost use Rattle.xf_ir.specs.Spelling.{named_spelling, spelling};

use crate::kind::{Kind, NamedKind};

fn named_spelling(kind: NamedKind) -> &'static [u8]
    ensures { result.now ≡ named_spelling kind }
{
    match kind {
        NamedKind::Matmul => b"linalg.matmul",
        NamedKind::BatchMatmul => b"linalg.batch_matmul",
        NamedKind::Matvec => b"linalg.matvec",
        NamedKind::Dot => b"linalg.dot",
        NamedKind::Fill => b"linalg.fill",
    }
}

impl Kind {
    /// The name of the operation, as `arith.addi`.
    pub fn spelling(&self) -> &'static [u8]
        ensures { result.now ≡ spelling self.now }
    {
        match self {
            Kind::Module { .. } => b"builtin.module",
            Kind::Func { .. } => b"func.func",
            Kind::Return => b"func.return",
            Kind::Call { .. } => b"func.call",
            Kind::Constant { .. } => b"arith.constant",
            Kind::Dense { .. } => b"arith.constant",
            Kind::Binary { kind, .. } => kind.spelling(),
            Kind::Compare { .. } => b"arith.cmpi",
            Kind::Select { .. } => b"arith.select",
            Kind::Convert { kind, .. } => kind.spelling(),
            Kind::For { .. } => b"scf.for",
            Kind::If => b"scf.if",
            Kind::Yield => b"scf.yield",
            Kind::Empty => b"tensor.empty",
            Kind::Dim => b"tensor.dim",
            Kind::Extract => b"tensor.extract",
            Kind::Insert => b"tensor.insert",
            Kind::ExtractSlice { .. } => b"tensor.extract_slice",
            Kind::InsertSlice { .. } => b"tensor.insert_slice",
            Kind::Cast => b"tensor.cast",
            Kind::Named { kind } => named_spelling(*kind),
            Kind::Generic { .. } => b"linalg.generic",
            Kind::LinalgYield => b"linalg.yield",
        }
    }
}
