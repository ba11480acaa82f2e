//! What heads of operations mean: the kind and the attributes of an operation from its parts, the fault at
//! a token that fits no text, and the heads of the module, func, arith and scf dialects.
#![tactic(auto)]

mod alias;
mod elements;
mod entries;
mod heads;
mod kinds;
mod spelt;
mod stop;
mod structured;
mod texts;
mod verdict;

pub use alias::{Alias, AliasList};
pub use entries::attributes;
pub use heads::Head;
pub use kinds::kind_of;
pub use spelt::{count_used, head, head_of, is_other};
pub use stop::{due_fault, stop_place};
pub use texts::text;
pub use verdict::{Verdict, judge};
pub use xf_format::{Ref, RefList};
