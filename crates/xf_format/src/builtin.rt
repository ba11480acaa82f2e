//! The rows of builtin, as they are printed.
ghost use Rattle.std.specs.Prelude.{◌≡◌};
ghost use Rattle.xf_format.specs.Words.{lookup};
ghost use Rattle.xf_format.specs.Builtin.{words};

use crate::row::{FormatElement, Row};

/// `module @name attributes {..}`
pub const MODULE: [FormatElement; 2] = [FormatElement::ModuleName, FormatElement::Attributes];

/// The row of the dialect that a word begins.
pub fn row_of(word: &[u8]) -> Option<Row>
    ensures { result ≡ lookup words word.now }
{
    if word == b"module".as_slice() {
        Some(Row::Module)
    } else {
        None
    }
}
