//! The lines of results: each value as a constant is printed, with its type.
//!
//! Its contract for the layer above: `write_results` writes a line for each value (`specs/Results.antt`), and
//! `are_numbers` tells whether each element of each value is a number, as those of constants are.
#![tactic(auto)]

mod constant;
mod line;

pub use constant::are_numbers;
pub use line::write_results;
