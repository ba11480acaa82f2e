//! Points of iteration spaces by counters, elements of tensors at indices, and the operations of linalg that have a name.
#![tactic(auto)]

mod body;
mod frame;
mod named;
mod named_maps;
mod onto;
mod place;
mod span;

pub use body::body_at;
pub use frame::{agreed_extents, dims_of_maps, in_maps, ins_of, out_map, out_tensor};
pub use named::named_elems;
pub use named_maps::{dims_of_named, rank_of_named};
pub use onto::{spans_onto, whole_spans};
pub use place::{element_at, element_of, place_of, read, select};
pub use span::{Span, advance, are_open, begin, room_for};
