//! What a payload module means, for every kind of operation, and what it means that another module keeps that
//! meaning.
//!
//! The contract of the crate is its laws. The definitions stand in `specs`: `Values` (values and the types that they
//! fit), `Meaning` (environments, runs in units, the table of the kinds, functions), with what the kinds do in
//! `Actions` (arith), `Control` (scf), `Tensors` and `Structured` (linalg); `Keeps` (a kept meaning); `Surroundings`,
//! `Replacing` and `Placing` (what may be changed where it stands).
#![tactic(auto)]

mod laws;
mod value;

pub use laws::{
    copying_keeps, erasing_keeps, fitting_is_tested, keeping_composes, keeping_is_reflexive,
    named_is_generic, names_do_not_matter, plain_is_defined, points_give, renaming_keeps,
    replacement_may, replacing_keeps, results_are_over_sets, same_replaces, surroundings_keep,
    turns_are_counted, values_fit,
};
pub use value::{ElemList, SizeList, Value};
