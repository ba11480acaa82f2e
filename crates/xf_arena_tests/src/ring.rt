//! A million numbers in one ring: built, walked, and taken out from the front, from the back and from the middle.

use std::alloc::Global;
use std::test::Fail;
use xf_rings::Rings;
use xf_type::NoMemory;

/// How many numbers there are.
const NUMBERS: u32 = 1_000_000;

/// Puts a number after another, where it is alone.
fn link(rings: &mut Rings, before: u32, at: u32) {
    let size = rings.size();
    if (before as usize) < size && (at as usize) < size && rings.next(at) == at && before != at {
        rings.link(before, at);
    }
}

/// Takes a number out.
fn unlink(rings: &mut Rings, at: u32) {
    if (at as usize) < rings.size() {
        let _before = rings.unlink(at);
    }
}

/// The number after another.
fn after(rings: &Rings, at: u32) -> u32 {
    if (at as usize) < rings.size() {
        rings.next(at)
    } else {
        at
    }
}

/// The number before another.
fn before(rings: &Rings, at: u32) -> u32 {
    if (at as usize) < rings.size() {
        rings.prev(at)
    } else {
        at
    }
}

/// How many numbers are in the ring of the first, besides it.
fn walked(rings: &Rings) -> u32 {
    let mut at = 0;
    for number in 0..NUMBERS {
        at = after(rings, at);
        if at == 0 {
            return number;
        }
    }
    NUMBERS
}

/// A ring of as many numbers, in order.
fn ring(alloc: Global, numbers: u32) -> Result<Rings, NoMemory> {
    let mut rings = Rings::new(alloc);
    for at in 0..numbers {
        if rings.size() < numbers as usize {
            rings.grow()?;
        }
        if at > 0 {
            link(&mut rings, at - 1, at);
        }
    }
    Ok(rings)
}

#[test]
fn a_long_ring_is_walked_and_emptied(rt: HostRuntime) -> Result<(), Fail> {
    let mut rings = ring(rt.alloc(), NUMBERS)?;
    assert_eq!(rt; rings.size(), NUMBERS as usize);
    assert_eq!(rt; walked(&rings), NUMBERS - 1);
    for at in 1..250_000 {
        unlink(&mut rings, at);
    }
    for at in 750_000..NUMBERS {
        unlink(&mut rings, NUMBERS - 1 - (at - 750_000));
    }
    assert_eq!(rt; after(&rings, 0), 250_000);
    assert_eq!(rt; before(&rings, 0), 749_999);
    assert_eq!(rt; walked(&rings), 500_000);
    for at in 0..250_000 {
        unlink(&mut rings, 500_000 + at);
        unlink(&mut rings, 499_999 - at);
    }
    assert_eq!(rt; walked(&rings), 0);
    Ok(())
}
