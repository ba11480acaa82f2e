//! The words of predicates and operations.
ghost use Rattle.std.specs.Prelude.{◌≡◌};
ghost use Rattle.xf_format.specs.Rows.{words};
ghost use Rattle.xf_format.specs.Words.{lookup, predicates};

use crate::row::Row;
use crate::{arith, builtin, func, linalg, scf, tensor};
use xf_type::CmpKind;

/// All predicates.
const PREDICATES: [CmpKind; 10] = [
    CmpKind::Eq,
    CmpKind::Ne,
    CmpKind::Slt,
    CmpKind::Sle,
    CmpKind::Sgt,
    CmpKind::Sge,
    CmpKind::Ult,
    CmpKind::Ule,
    CmpKind::Ugt,
    CmpKind::Uge,
];

/// The predicate that a word means.
pub fn predicate_of(word: &[u8]) -> Option<CmpKind>
    ensures { result ≡ lookup predicates word.now }
{
    let all = PREDICATES.as_slice();
    for kind in all {
        if word == kind.spelling() {
            return Some(*kind);
        }
    }
    None
}

/// The row that a word begins.
pub fn row_of(word: &[u8]) -> Option<Row>
    ensures { result ≡ lookup words word.now }
{
    if let Some(row) = builtin::row_of(word) {
        return Some(row);
    }
    if let Some(row) = func::row_of(word) {
        return Some(row);
    }
    if let Some(row) = arith::row_of(word) {
        return Some(row);
    }
    if let Some(row) = scf::row_of(word) {
        return Some(row);
    }
    if let Some(row) = tensor::row_of(word) {
        return Some(row);
    }
    linalg::row_of(word)
}
