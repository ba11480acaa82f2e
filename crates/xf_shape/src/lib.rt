//! The tensor type that a shape token writes, both ways: what its bytes mean (`specs/Shapes.antt`), how it is
//! written (`specs/Written.antt`), and the law that what is written is read again (`specs/Laws.antt`); the words of
//! widths, and the numbers of the types of MLIR that are not supported.
#![tactic(auto)]

mod law;
mod shape;
mod type_word;
mod width;

pub use law::written_shapes_are_read;
pub use shape::{inside_marks, shape_number, shape_of};
pub use type_word::type_number;
pub use width::width_of;
