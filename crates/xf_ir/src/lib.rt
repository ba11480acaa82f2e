//! The payload tree: operations, blocks and modules, the walks over them, and the edits that change them.
#![tactic(auto)]

mod attributes;
mod change;
mod copy;
mod dead;
mod edit;
mod kind;
mod name;
mod name_set;
mod op;
mod rule;
mod signature;
mod snippet;
mod spelling;
mod spot;
mod values;
mod walk;

pub use change::{Change, ChangeList};
pub use dead::first_dead;
pub use edit::{Edit, apply_edit, inverse};
pub use kind::{
    Attr, AttrList, IteratorKind, IteratorList, Kind, MapList, NamedKind, NumberList, SliceIndex,
    SliceIndexList,
};
pub use name::{OpName, ValueName};
pub use name_set::NameSet;
pub use op::{Block, BlockList, Module, Op, OpList};
pub use rule::Rule;
pub use signature::{Signature, first_args, returned_types, signature_of};
pub use snippet::Snippet;
pub use spot::{Located, Spot};
pub use values::ValueList;
pub use walk::{NameList, count, walk_post};
