//! What an evaluation holds: values, which share the elements of a tensor, and the values that are visible in the blocks
//! that it is in.
#![tactic(auto)]

mod admission;
mod fits;
mod held;
mod stack;
mod stop;

pub use admission::{
    admit, admit_made, admit_points, admit_values, are_sizes, fits_width, product_within,
};
pub use fits::{fit_types, fits_scalar, fits_tensor};
pub use held::{Held, HeldList, Tensor};
pub use stack::{Entry, Stack, operands};
pub use stop::{Stop, charge};
