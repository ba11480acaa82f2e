//! An index of many names.

use std::alloc::Global;
use std::test::Fail;
use xf_index::NameIndex;
use xf_type::NoMemory;

/// How many names there are.
const NAMES: u32 = 1_000_000;

/// Lets a slot hold a name, where it is free.
fn put(index: &mut NameIndex, slot: u32, name: u64) {
    if slot < index.size() && index.name(slot).is_none() {
        index.put(slot, name);
    }
}

/// Lets a slot hold no name, where it holds one.
fn remove(index: &mut NameIndex, slot: u32) {
    if slot < index.size() && index.name(slot).is_some() {
        index.remove(slot);
    }
}

/// Lets a slot hold a name, and makes room for it.
fn add(alloc: Global, index: &mut NameIndex, slot: u32, name: u64) -> Result<(), NoMemory> {
    if slot >= index.size() {
        index.grow(alloc)?;
    }
    put(index, slot, name);
    Ok(())
}

#[test]
fn many_names_are_found(rt: HostRuntime) -> Result<(), Fail> {
    let mut index = NameIndex::new(rt.alloc());
    assert_eq!(rt; index.find(7), None);
    for slot in 0..NAMES {
        add(rt.alloc(), &mut index, slot, 7 * slot as u64)?;
    }
    for slot in 0..NAMES {
        assert_eq!(rt; index.find(7 * slot as u64), Some(slot));
    }
    assert_eq!(rt; index.find(3), None);
    Ok(())
}

#[test]
fn a_removed_name_gives_its_room_back(rt: HostRuntime) -> Result<(), Fail> {
    let mut index = NameIndex::new(rt.alloc());
    for slot in 0..NAMES {
        add(rt.alloc(), &mut index, slot, slot as u64)?;
    }
    let size = index.size();
    for slot in 0..NAMES {
        remove(&mut index, slot);
        put(&mut index, slot, NAMES as u64 + slot as u64);
    }
    assert_eq!(rt; index.size(), size);
    assert_eq!(rt; index.find(0), None);
    assert_eq!(rt; index.find(NAMES as u64), Some(0));
    Ok(())
}
