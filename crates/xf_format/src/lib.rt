//! The format of payloads as one table: the words, slots, bodies and tail of each row, the rules of the
//! slots as grammars, and the reading of an operation by them.
#![tactic(auto)]

mod arith;
mod builtin;
mod columns;
mod dictionary;
mod dimension;
mod elements;
mod expected;
mod func;
mod heads;
mod iterator;
mod law;
mod linalg;
mod list;
mod maps;
mod names;
mod parts;
mod place;
mod quoted;
mod row;
mod scf;
mod single;
mod slot;
mod tensor;
mod word;

pub use columns::{
    ArgumentTypes, OperandCount, OperandTypes, ResultTypes, is_counted, operand_type, types_given,
    types_taken,
};
pub use dictionary::has_room;
pub use expected::{Expected, Stopped};
pub use heads::{due_at, due_before, head_at, may_end_open};
pub use law::{heads_are_bounded, heads_are_read_as_written, no_head_goes_on};
pub use list::Item;
pub use maps::map_at;
pub use parts::{
    AttrEntry, EntryList, EntryValue, Literal, MapEntry, MapEntryList, Parts, PlaceEntry,
    PlaceEntryList, Ref, RefList, Use, UseList,
};
pub use quoted::{behind_first, decoded, decoded_len};
pub use row::{
    Body, FormatElement, Keyword, Level, Row, Side, behind, has_operations, inside, is_yield,
    row_bodies, row_header, row_slots, row_tail, stands,
};
pub use single::expects;
pub use slot::slots_at;
pub use word::{predicate_of, row_of};
pub use xf_shape::width_of;
