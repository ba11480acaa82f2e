//! The rules of a valid module as tests of one operation where it stands: those of tensor and linalg, and those that
//! ask each kind for its own.
#![tactic(auto)]

mod attributes;
mod dense;
mod dim_set;
mod extents;
mod linalg_rows;
mod maps;
mod ranges;
mod reduction;
mod rows;
mod slices;
mod tensor_rows;

pub use attributes::kind_fits;
pub use dense::all_equal;
pub use extents::extents_agree;
pub use maps::{iterators_fit, maps_fit};
pub use ranges::types_in_range;
pub use reduction::reduces;
pub use rows::types_fit;
pub use slices::slices_fit;
