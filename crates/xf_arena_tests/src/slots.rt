//! An operation in one of many slots.

use std::alloc::Global;
use std::test::Fail;
use xf_arena_bed::{ArgsList, Bed, Node};
use xf_ir::{Kind, OpName, ValueList};
use xf_type::{ListOf, NoMemory};

/// How many slots there are.
const SLOTS: u64 = 100_000;

/// An operation that stands in no other and holds none.
fn alone(alloc: Global, name: u64) -> Result<Bed, NoMemory> {
    Bed::start(
        alloc,
        Node {
            name: OpName(name),
            kind: Kind::Return,
            attrs: ListOf::new(alloc),
            operands: ValueList::new(alloc),
            results: ListOf::new(alloc),
            regions: ArgsList::of_blocks(Vec::new(alloc)),
            parent: None,
        },
    )
}

#[test]
fn the_root_stays_among_many_slots(rt: HostRuntime) -> Result<(), Fail> {
    let mut bed = alone(rt.alloc(), 7)?;
    let root = bed.root();
    bed.reserve(rt.alloc(), SLOTS)?;
    assert_eq!(rt; bed.live(), 1);
    assert!(rt; bed.free_slots() >= SLOTS);
    assert_eq!(rt; bed.root(), root);
    assert_eq!(rt; bed.id_of(OpName(7)), Some(root));
    assert_eq!(rt; bed.id_of(OpName(8)), None);
    assert!(rt; bed.get(root).is_some());
    Ok(())
}
