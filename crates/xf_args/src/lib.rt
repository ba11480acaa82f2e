//! The arguments of a call, as a text lists them: constants in the spelling of `arith.constant`, separated by commas.
//!
//! Its contract for the layer above: `arguments` answers the values that a text lists, or none exactly where its tokens
//! list none (`specs/Arguments.antt`). A constant is read by the rules by which a payload's constants are, and held to
//! the rules of constants of valid modules; behind `true` and `false` their width may stand.
#![tactic(auto)]

mod constant;
mod list;

pub use list::{arguments, arguments_at};
