//! The words of widths.
ghost use Rattle.std.specs.Prelude.{◌≡◌};
ghost use Rattle.xf_shape.specs.Widths.{lookup, widths};

use xf_type::Width;

/// All widths.
const WIDTHS: [Width; 6] = [
    Width::I1,
    Width::I8,
    Width::I16,
    Width::I32,
    Width::I64,
    Width::Index,
];

/// The width that a word means.
pub fn width_of(word: &[u8]) -> Option<Width>
    ensures { result ≡ lookup widths word.now }
{
    let all = WIDTHS.as_slice();
    for width in all {
        if word == width.spelling() {
            return Some(*width);
        }
    }
    None
}
