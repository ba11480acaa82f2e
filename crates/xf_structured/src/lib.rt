//! Laws of structured operations by the blocks that they enter.
//!
//! The contract of the crate is its laws. The definitions stand in `specs/Bodies.antt`.
#![tactic(auto)]

mod laws;

pub use laws::bodies_give;
