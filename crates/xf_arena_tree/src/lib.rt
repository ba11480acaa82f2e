//! Laws of trees that are edited, and what they define and use.
//!
//! `specs/Names.antt` has the names of a tree, `Without.antt` and `Puts.antt` the edits in the form that the proofs use
//! (`proofs/BridgeLemmas.antt`: those of `xf_ir`, where names occur once), `Kids.antt` places among what an operation
//! holds, `Fills.antt` trees that are filled block by block, and `Listed.antt` operands and values as lists.
#![tactic(auto)]

mod definition;

pub use definition::definition_of;
