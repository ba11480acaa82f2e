//! The names that stand for maps.

use xf_type::{AffineMap, ByteList, ListOf};

/// A name of a map, `#name = affine_map<..>`.
#[derive(Debug, Drop)]
pub struct Alias {
    /// The name with its `#`.
    pub name: ByteList,
    pub map: AffineMap,
}

/// Names of maps, in the order of the text. One that stands twice stands for its first map.
pub type AliasList = ListOf<Alias>;
