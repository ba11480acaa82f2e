//! The tokens of a text as a grammar sees them. Readings go over a list of tokens by numbers: what
//! stands at a number is seen by its kind, and by its bytes where they tell more than the kind.
#![tactic(auto)]

mod look;

pub use look::{is_index_at, looks, number, number_at, says, word_at};
