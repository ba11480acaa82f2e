//! The reader of payloads: from bytes to the syntax tree, and from there to names, types and the
//! module.
#![tactic(auto)]

mod defining;
mod faults;
mod head;
mod law;
mod read;
mod scope;
mod stop;
mod types;
mod uses;
mod walk;

pub use faults::Faults;
pub use law::{one_meaning, spelt_modules_are_bounded};
pub use read::{ReadModule, read_module};
pub use scope::{Definer, Named};
pub use walk::PlaceOfList;
