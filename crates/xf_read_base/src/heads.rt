//! The head of an operation as it is answered.

use xf_format::RefList;
use xf_ir::{AttrList, Kind};
use xf_type::TypeList;

/// What stands before the first brace of a region of an operation: its kind; its discardable
/// attributes, sorted by their names; the names of its results, of its block arguments and of its
/// operands, by their tokens, where an operand `%n#i` has the number i, and any other 0; the types that
/// are stated, in the order of the text, where a loop without a width states `index`; and the number of
/// the first token behind it.
#[derive(Drop)]
pub struct Head {
    pub kind: Kind,
    pub attrs: AttrList,
    pub defines: RefList,
    pub args: RefList,
    pub uses: RefList,
    pub types: TypeList,
    pub next: usize,
}
