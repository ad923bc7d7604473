//! The vector with default values.
use crate::asserts::{equal, gives, holds};
use crate::kinds::{fill, put_all};
use crate::numbers::{InDefaultVec, Number};
use crate::shelf::{Placed, Sliced};
use crate::world::{new_world, populate};
use entities::Entity;
use std::alloc::{AllocError, Global};
use std::process::Abort;
use std::test::Fail;
use storages::{SliceAccessMut, TryDefault};

/// The index of each entity, and `more`.
pub fn indices(alloc: Global, list: &[Entity], more: u32) -> Result<Vec<u32>, AllocError> {
    let mut numbers = Vec::new(alloc);
    for e in list {
        numbers.push(e.id().wrapping_add(more))?;
    }
    Ok(numbers)
}

// A thousand lie at the places of their entities.
fn lie_at_places<R: Abort, S: Sliced>(
    rt: &R,
    alloc: Global,
    shelf: &mut S,
    list: &[Entity],
) -> Result<(), Fail> {
    equal!(rt; list.len(), 1000);
    fill(rt, shelf, list, 2718);
    let numbers = indices(alloc, list, 2718)?;
    holds!(rt; shelf.shows_slice(numbers.as_slice()));
    Ok(())
}

// The places that no component uses have the default value.
fn unused_are_zero<R: Abort, S: Placed>(rt: &R, shelf: &mut S) {
    put_all(rt, shelf, &[(1, 1), (3, 3)]);
    holds!(rt; shelf.has_slice(&[0, 1, 0, 3]));
    gives!(rt; shelf.take_out(3), Some(3));
    holds!(rt; shelf.has_slice(&[0, 1, 0, 0]));
    holds!(rt; shelf.clear_all());
    holds!(rt; shelf.has_slice(&[]));
}

// What is written to the slice is found at the indices, and nowhere else.
fn five_more_at_each_place<R: Abort, S: Placed>(rt: &R, shelf: &mut S) {
    put_all(rt, shelf, &[(1, 1), (3, 3)]);
    shelf.add_to_slice(5);
    holds!(rt; shelf.has_slice(&[5, 6, 5, 8]));
    gives!(rt; shelf.number_in(3), Some(8));
    gives!(rt; shelf.number_in(2), None);
}

// The places of a thousand entities, or else those without a component, and what is written to the slice after `clear`.
fn tell<R: Abort, S: Placed>(
    rt: &R,
    alloc: Global,
    shelf: &mut S,
    list: &[Entity],
) -> Result<(), Fail> {
    if !list.is_empty() {
        return lie_at_places(rt, alloc, shelf, list);
    }
    unused_are_zero(rt, shelf);
    five_more_at_each_place(rt, shelf);
    Ok(())
}

// The same of a new storage and so many entities.
fn tell_of_new<R: Abort, T: Number>(rt: &R, alloc: Global, count: u32) -> Result<(), Fail>
where
    T::Storage: SliceAccessMut<T> + TryDefault,
{
    let mut world = new_world::<T>(alloc)?;
    let list = populate(alloc, &mut world.entities, count)?;
    tell(rt, alloc, &mut world, list.as_slice())
}

// The type stands here alone.
fn told<R: Abort>(rt: &R, alloc: Global, count: u32) -> Result<(), Fail> {
    tell_of_new::<R, InDefaultVec>(rt, alloc, count)
}

#[test]
fn default_vec_test_slice_access(rt: HostRuntime) -> Result<(), Fail> {
    told(&rt, rt.alloc(), 1000)
}

#[test]
fn default_vec_test_defaults(rt: HostRuntime) -> Result<(), Fail> {
    told(&rt, rt.alloc(), 0)
}
