//! Markers of a kind, and of a generator, that has no equality and no hash.
use crate::worlds::entity;
use saveload::{MarkerAllocator, SimpleMarker, SimpleMarkerAllocator, UuidMarker};
use std::alloc::Global;
use std::collections::HashMap;
use std::hash::Hash;
use std::test::Fail;
use uuid::Uuid;

// A kind, and a generator, of which nothing is known.
struct Bare;

// The marker of a number.
fn numbered(alloc: Global, id: u64) -> Result<SimpleMarker<Bare>, Fail> {
    let mut allocator = SimpleMarkerAllocator::new(alloc);
    let marker = allocator.allocate(entity(0, 1)?, Some(id));
    Ok(marker.ok().ok_or("no marker")?)
}

// The marker of an identifier of sixteen like bytes.
fn labelled(byte: u8) -> UuidMarker<Bare> {
    UuidMarker::new(Uuid::from_bytes([byte; 16]))
}

// What is kept for a third marker, of two that are kept with a number each.
fn kept<M: Eq + Hash + Copy + Drop>(
    alloc: Global,
    first: M,
    second: M,
    wanted: M,
) -> Result<Option<u64>, Fail> {
    let mut numbers = HashMap::new(alloc);
    numbers.insert(first, 1u64)?;
    numbers.insert(second, 2u64)?;
    Ok(numbers.get(&wanted).copied())
}

#[test]
fn numbers_are_compared_and_hashed_whatever_their_kind(rt: HostRuntime) -> Result<(), Fail> {
    let alloc = rt.alloc();
    let (three, again, four) = (
        numbered(alloc, 3)?,
        numbered(alloc, 3)?,
        numbered(alloc, 4)?,
    );
    assert!(rt; three == again);
    assert!(rt; three != four);
    assert!(rt; kept(alloc, three, four, again)? == Some(1));
    assert!(rt; kept(alloc, three, four, numbered(alloc, 5)?)? == None);
    Ok(())
}

#[test]
fn identifiers_are_compared_and_hashed_whatever_their_generator(
    rt: HostRuntime,
) -> Result<(), Fail> {
    let alloc = rt.alloc();
    assert!(rt; labelled(3) == labelled(3));
    assert!(rt; labelled(3) != labelled(4));
    assert!(rt; kept(alloc, labelled(3), labelled(4), labelled(4))? == Some(2));
    assert!(rt; kept(alloc, labelled(3), labelled(4), labelled(5))? == None);
    Ok(())
}
