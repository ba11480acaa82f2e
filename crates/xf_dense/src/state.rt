//! Where a reading of the body of a dense constant stands.
ghost use Rattle.std.specs.Prelude.{◌≡◌};
ghost use Rattle.xf_dense.specs.Machine.{at_stage};

use crate::body::ExtentList;
use crate::counts::Counts;
use std::alloc::Global;
use xf_type::ListOf;

/// What may stand at the next token.
#[derive(Clone, Copy)]
pub enum Stage {
    /// Nothing is read yet: an item, or the end of the body.
    Start,
    /// An item.
    Item,
    /// An integer, behind its sign.
    Digits,
    /// A comma or a bracket, behind an item.
    Behind,
    /// The end of the body, behind one literal or the outermost list.
    End,
}

/// The lists that are open, and what is known of all lists.
#[derive(Drop)]
pub struct State {
    pub stage: Stage,
    /// How many items each open list has.
    pub counts: Counts,
    /// How deep the items of the innermost list are, where one is read: 0 for literals.
    pub rank: Option<usize>,
    /// How many items the lists have whose items are this deep, of each depth of which one is closed.
    pub known: ExtentList,
}

impl State {
    /// No list is open, and nothing is known.
    pub fn new(alloc: Global, stage: Stage) -> State
        ensures { result ≡ at_stage stage }
    {
        State {
            stage,
            counts: Counts::new(alloc),
            rank: None,
            known: ListOf::new(alloc),
        }
    }
}
