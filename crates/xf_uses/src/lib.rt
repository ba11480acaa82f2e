//! Which operand uses which value, both ways, with no memory but that of the cells.
//!
//! Its contract for the layer above: `UseLists` is seen as cells, each of which may stand for an operand or a value.
//! Where the cells stand for exactly the operands and values of a payload (`AreUses`), each call leaves cells that
//! stand for exactly those of the payload that it changes, and `uses_of` gives exactly the uses of a value, each once.
//! Each operand and each value takes one cell; only `grow` takes memory, and no call takes a cell away.
//! `specs/Uses.antt` has what contracts say, `specs/Cells.antt` the cells.
#![tactic(auto)]

mod cell;
mod number;
mod use_lists;
mod uses;

pub use cell::{CellName, Definition, Use};
pub use use_lists::UseLists;
pub use uses::Uses;
