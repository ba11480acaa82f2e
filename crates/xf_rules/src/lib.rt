//! The rules of a valid module as tests of one operation where it stands: its kind, its attributes, the types of its
//! operands and results, and its regions. Here stand those of builtin, func, arith and scf, and what they share with
//! those of tensor and linalg. What the rules need to know of other operations is given by the caller.
#![tactic(auto)]

mod attributes;
mod blocks;
mod given;
mod rows;
mod types;

pub use attributes::{attributes_fit, conversion_fits, fits_bits, is_word, is_word_or_none};
pub use blocks::{blocks_end, fits_body, regions_fit, stands_at_end};
pub use given::Yielded;
pub use rows::{are_inputs, callee_agrees, gives_row, is_bare, loop_row, scalar_row};
pub use types::{
    are_scalars, behind_first, element_of, first_type, has_no_operands, have_scalars,
    is_scalar_operand, is_tensor_of, last_type,
};
