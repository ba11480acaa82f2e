//! The values of attributes, and the maps of structured operations.

use crate::list::{ByteList, PlaceList};
use crate::payload_type::Width;

/// The value of an attribute.
#[derive(Debug, Drop)]
pub enum AttrValue {
    Unit,
    /// An integer of a width, as its bits.
    Int { width: Width, bits: u64 },
    /// The bytes of a string.
    Text(ByteList),
}

/// A map from `dims` dimensions to the dimensions whose numbers `results` lists.
#[derive(Debug, Drop)]
pub struct AffineMap {
    pub dims: u32,
    pub results: PlaceList,
}
