//! The heads of the operations of tensor and linalg, and of constants that are tensors.
#![tactic(auto)]

mod spelt;

pub use spelt::head;
