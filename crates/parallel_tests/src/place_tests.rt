//! Components that threads change in their places.
use crate::components::{Lying, Valued, filled};
use hibits::{BitSet, Index};
use joins_parallel::par_for_each;
use std::alloc::{Alloc, Global};
use std::test::Fail;
use std::thread::Threads;
use storages::{MaskedStorage, UnprotectedStorage};

// Adds the multiples of a step, so many, to a set, and says whether that succeeded.
fn add_multiples(set: &mut BitSet, count: u32, step: u32) -> bool {
    let mut done = true;
    for place in 0..count {
        done = done && set.add(place.saturating_mul(step)).is_ok();
    }
    done
}

// Adds its index and a thousand to each component at the members of a set.
fn raise_members(
    rt: &(impl Threads + Alloc<A = Global> + Sync),
    storage: &mut MaskedStorage<Lying>,
    members: &BitSet,
) -> bool {
    let change = |lying: &mut Lying, index: Index| {
        lying.0 = lying.0.wrapping_add(u64::from(index)).wrapping_add(1000);
    };
    par_for_each(rt, storage, members, change).is_ok()
}

// What a place must have: twice the place and a thousand at the multiples of six, the place at other even ones, and nothing at odd ones.
fn wanted(place: u32) -> Option<u64> {
    let number = u64::from(place / 2);
    if place % 2 == 1 {
        None
    } else if place % 6 == 0 {
        Some(number.wrapping_add(u64::from(place)).wrapping_add(1000))
    } else {
        Some(number)
    }
}

// What stands at a place.
fn found<T: Valued<Value = u64>>(storage: &MaskedStorage<T>, place: u32) -> Option<u64>
where
    T::Storage: UnprotectedStorage<T>,
{
    match storage.get(place) {
        Some(component) => Some(component.value()),
        None => None,
    }
}

// How many of the first places have what they must.
fn right_places<T: Valued<Value = u64>>(storage: &MaskedStorage<T>, count: u32) -> u32
where
    T::Storage: UnprotectedStorage<T>,
{
    let mut right: u32 = 0;
    for place in 0..count {
        if found(storage, place) == wanted(place) {
            right = right.saturating_add(1);
        }
    }
    right
}

// Whether the multiples of three alone are changed, so many, in a storage whose components are at even places below a count.
fn members_are_changed(
    rt: &(impl Threads + Alloc<A = Global> + Sync),
    storage: &mut MaskedStorage<Lying>,
    members: u32,
    places: u32,
) -> bool {
    let mut set = BitSet::new(rt.alloc());
    add_multiples(&mut set, members, 3)
        && raise_members(rt, storage, &set)
        && right_places(storage, places) == places
}

#[test]
fn members_alone_are_changed_in_their_places(rt: HostRuntime) -> Result<(), Fail> {
    let mut storage = filled::<Lying>(rt.alloc(), 5000, 2)?;
    assert!(rt; members_are_changed(&rt, &mut storage, 6000, 10_000));
    Ok(())
}

#[test]
fn few_places_are_changed_without_threads(rt: HostRuntime) -> Result<(), Fail> {
    let mut storage = filled::<Lying>(rt.alloc(), 10, 2)?;
    assert!(rt; members_are_changed(&rt, &mut storage, 10, 20));
    Ok(())
}
