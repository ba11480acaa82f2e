//! The attributes that belong to a kind.
ghost use Rattle.std.specs.Prelude.{◌≡◌};
ghost use Rattle.xf_ir.specs.RuleAttributes.{kind_fits};

use crate::dense::dense_fits;
use xf_ir::Kind;
use xf_rules::{conversion_fits, fits_bits, is_word, is_word_or_none};

/// Whether the attributes that belong to the kind fit: symbols are words, numbers fit their widths, a dense constant
/// has a fixed shape of at most 1,048,576 elements and the numbers of them, and a conversion leads between widths that
/// it converts.
///
/// Takes time in the length of the attributes.
pub fn kind_fits(kind: &Kind) -> bool
    ensures { result ≡ kind_fits kind.now }
{
    match kind {
        Kind::Module { symbol } => is_word_or_none(symbol),
        Kind::Func { symbol, .. } => is_word(symbol.as_slice()),
        Kind::Call { callee } => is_word(callee.as_slice()),
        Kind::Constant { width, bits } => fits_bits(*width, *bits),
        Kind::Dense { shape, numbers } => dense_fits(shape, numbers.as_slice()),
        Kind::Convert { kind, from, to } => conversion_fits(*kind, *from, *to),
        _ => true,
    }
}
