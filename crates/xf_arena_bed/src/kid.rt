//! What stands at a number of the links.
ghost use Rattle.std.specs.Prelude.{◌≡◌, ◌<◌, ◌^◌};
ghost use Rattle.std.specs.Option.{ForSome};
ghost use Rattle.xf_arena_bed.specs.Kids.{kid_seen};
ghost use Rattle.xf_arena_bed.specs.Live.{number_before};

use crate::node::{Node, OpId};

/// An operation that another one holds, with the number of its region.
#[derive(Clone, Copy, Debug, PartialEq, Eq)]
pub struct Kid {
    pub id: OpId,
    pub region: u32,
}

/// The operation of that number, or `None` where the number stands before a first one.
pub(crate) fn kid_seen(nodes: &[Option<Node>], number: u32) -> Option<Kid>
    ensures { result ≡ kid_seen nodes.now number }
{
    if number % 2 == 0 {
        return None;
    }
    let slot = number / 2;
    if slot as usize >= nodes.len() {
        return None;
    }
    match &nodes[slot as usize] {
        Some(node) => match node.parent {
            Some((_, region)) => Some(Kid {
                id: OpId {
                    slot,
                    serial: node.name.0,
                },
                region,
            }),
            None => None,
        },
        None => None,
    }
}

/// The number behind which a child is linked: its sibling's, or the one before the first child.
pub(crate) fn number_before(parent: OpId, sibling: Option<OpId>) -> u32
    requires parent { parent.slot < 2 ^ 31 }
    requires sibling { ForSome sibling (λ k. k.slot < 2 ^ 31) }
    ensures { result ≡ number_before parent sibling }
{
    match sibling {
        Some(kid) => 2 * kid.slot + 1,
        None => 2 * parent.slot,
    }
}
