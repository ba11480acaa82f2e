//! Rings and groups of numbers, linked by number, with no memory but that of the numbers.
//!
//! Its contract for the layer above: `Rings` is seen as the list that has at each number the one after it, and each
//! call is an equation on that list; `Groups` is seen as the list that has at each number the head of its group, and
//! `members` gives exactly the members of a group, each once. Linking, unlinking, joining and leaving take constant
//! time and no memory; only growth takes it, and after a refusal nothing has changed. `specs/Ring.antt` says what a
//! list is after a number was put in or taken out, and what a path along the links is; `specs/Groups.antt` says which
//! numbers are the members of a group.
#![tactic(auto)]

mod groups;
mod members;
mod rings;

pub use groups::Groups;
pub use members::Members;
pub use rings::Rings;
