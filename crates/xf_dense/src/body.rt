//! What is read of the body of a dense constant, by the tokens that write it.
ghost use Rattle.std.specs.Prelude.{◌≡◌};
ghost use Rattle.xf_dense.specs.Actions.{no_body};

use std::alloc::Global;
use xf_type::ListOf;

/// One element, or the one that stands for all of them.
#[derive(Clone, Copy, Debug, PartialEq, Eq)]
pub enum Literal {
    /// `true` or `false`.
    Truth(bool),
    /// The number that the token with this number writes, with a `-` before it or not.
    Integer { negative: bool, token: usize },
}

/// Literals in the order of the text, so the innermost dimension varies fastest.
pub type LiteralList = ListOf<Literal>;
/// How many items the lists of each level have, the outermost first.
pub type ExtentList = ListOf<usize>;

/// What a body has: nothing; one literal and no extents, which stands for all elements; or the literals
/// of nested lists and the extents of these.
#[derive(Debug, Drop)]
pub struct Body {
    pub literals: LiteralList,
    pub extents: Option<ExtentList>,
}

impl Body {
    /// A body with nothing in it.
    pub fn new(alloc: Global) -> Body
        ensures { result ≡ no_body }
    {
        Body {
            literals: ListOf::new(alloc),
            extents: None,
        }
    }
}
