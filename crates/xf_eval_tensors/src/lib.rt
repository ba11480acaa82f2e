//! The operations of tensor on held values: sizes, elements, slices, casts, dense constants and tensors without
//! numbers; and the operations of linalg that have a name. The contract of each is what its definition in `xf_sem`
//! gives, in its units.
#![tactic(auto)]

mod constant;
mod element;
mod element_set;
mod index;
mod made;
mod shape;
mod slice;
mod slice_put;
mod structured;
mod windows;

pub use constant::dense;
pub use element::{dim, extract};
pub use element_set::insert;
pub use index::{index_in, index_of, indices};
pub use made::{empty, filled};
pub use shape::cast;
pub use slice::extract_slice;
pub use slice_put::insert_slice;
pub use structured::named;
