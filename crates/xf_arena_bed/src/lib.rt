//! The operations of a module in slots, linked to their neighbours, and seen as the tree.
//!
//! Its contract for the layer above: `Bed` is seen as a tree, with the name of the operation in each slot (`Layout` of
//! `specs/Value.antt`). An `OpId` is a slot with a name, and live where the slot holds the operation of that name
//! (`specs/Live.antt`); a name that is never given again is stale for ever once its operation is gone. Each edit leaves
//! the tree that the definitions of `xf_ir` say, and each operation that stays in its slot. What one operation holds
//! stands in one ring, in the order of its regions, and each knows the operation around it and its region, so `parent`
//! takes constant time; only `start`, `grow`, `reserve` and `insert` take memory.
#![tactic(auto)]

mod args;
mod bed;
mod edit;
mod fields;
mod homes;
mod kid;
mod kids;
mod moves;
mod node;
mod restore;
mod slots;
mod tree;
mod walk;

pub use args::ArgsList;
pub use bed::Bed;
pub use kid::Kid;
pub use kids::Kids;
pub use node::{Node, OpId};
