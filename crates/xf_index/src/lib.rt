//! Which slots hold a name, with no memory but that of the slots.
//!
//! Its contract for the layer above: `NameIndex` is seen as the list that has at each slot the name that it holds, if
//! any; `find` gives a slot that holds a name, or none exactly where none does, and `near` gives among others all
//! slots that hold it. `put` and `remove` are equations on that list and take no memory, so what a removal gives back
//! serves the next name; only `grow` takes memory. Names are numbers of the caller, one for each thing or its hash.
//! `specs/Index.antt` has what contracts say.
#![tactic(auto)]

mod name_index;
mod near;

pub use name_index::NameIndex;
pub use near::Near;
