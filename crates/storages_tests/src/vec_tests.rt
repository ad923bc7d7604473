//! The vector of options.
use crate::asserts::{equal, gives, holds};
use crate::default_vec_tests::indices;
use crate::kinds::{fill, put_all};
use crate::numbers::{InVec, Number, Shared};
use crate::shelf::Gapped;
use crate::world::{empty, new_world, populate};
use entities::Entity;
use std::alloc::{AllocError, Global};
use std::process::Abort;
use std::rc::Rc;
use std::test::Fail;
use storages::{MaskedStorage, SliceAccess, TryDefault};

// A thousand lie at the places of their entities.
fn lie_at_places<R: Abort, S: Gapped>(
    rt: &R,
    alloc: Global,
    shelf: &mut S,
    list: &[Entity],
) -> Result<(), Fail> {
    equal!(rt; list.len(), 1000);
    fill(rt, shelf, list, 2718);
    let numbers = indices(alloc, list, 2718)?;
    holds!(rt; shelf.shows_numbers(numbers.as_slice()));
    Ok(())
}

// The place of a component that is taken out stays, and has none.
fn slice_stays_as_long<R: Abort, S: Gapped>(rt: &R, shelf: &mut S) {
    put_all(rt, shelf, &[(2, 5)]);
    holds!(rt; shelf.has_places(&[false, false, true]));
    gives!(rt; shelf.take_out(2), Some(5));
    holds!(rt; shelf.has_places(&[false, false, false]));
}

// The places of a thousand entities, or else that of a component that is taken out.
fn tell<R: Abort, S: Gapped>(
    rt: &R,
    alloc: Global,
    shelf: &mut S,
    list: &[Entity],
) -> Result<(), Fail> {
    if !list.is_empty() {
        return lie_at_places(rt, alloc, shelf, list);
    }
    slice_stays_as_long(rt, shelf);
    Ok(())
}

// The same of a new storage and so many entities.
fn tell_of_new<R: Abort, T: Number>(rt: &R, alloc: Global, count: u32) -> Result<(), Fail>
where
    T::Storage: SliceAccess<T, Element = Option<T>> + TryDefault,
{
    let mut world = new_world::<T>(alloc)?;
    let list = populate(alloc, &mut world.entities, count)?;
    tell(rt, alloc, &mut world, list.as_slice())
}

// The type stands here alone.
fn told<R: Abort>(rt: &R, alloc: Global, count: u32) -> Result<(), Fail> {
    tell_of_new::<R, InVec>(rt, alloc, count)
}

#[test]
fn vec_test_maybeuninit_slice(rt: HostRuntime) -> Result<(), Fail> {
    told(&rt, rt.alloc(), 1000)
}

#[test]
fn vector_slice_has_options(rt: HostRuntime) -> Result<(), Fail> {
    told(&rt, rt.alloc(), 0)
}

// A hundred share the value, one of which is replaced.
fn are_shared<T: Drop>(
    masked: &mut MaskedStorage<Shared<T>>,
    first: &Rc<T>,
) -> Result<bool, AllocError> {
    for id in 0..100u32 {
        if masked.put(2 * id + 1, Shared(first.clone()?)).is_err() {
            return Ok(false);
        }
    }
    Ok(masked.put(1, Shared(first.clone()?)).is_ok())
}

// Each component that is let go gives its share of the value up.
fn shares_are_given_up<T: Drop>(
    masked: &mut MaskedStorage<Shared<T>>,
    first: &Rc<T>,
) -> Result<bool, AllocError> {
    let all = are_shared(masked, first)? && Rc::strong_count(first) == 101;
    masked.drop(1)?;
    let one_less = Rc::strong_count(first) == 100;
    masked.clear()?;
    Ok(all && one_less && Rc::strong_count(first) == 1)
}

// A component whose value no other thread may share is put and read.
fn is_put_and_read<T: Drop + PartialEq>(
    masked: &mut MaskedStorage<Shared<T>>,
    first: &Rc<T>,
) -> Result<bool, AllocError> {
    if masked.put(0, Shared(first.clone()?)).is_err() {
        return Ok(false);
    }
    match masked.get(0) {
        Some(found) => Ok(*found.0 == **first),
        None => Ok(false),
    }
}

// What is told of a storage whose components share a value.
#[derive(Clone, Copy)]
enum Sharing {
    IsGivenUp,
    IsPutAndRead,
}

// A value that the components of a new storage share.
fn is_shared<T: Drop + PartialEq>(alloc: Global, value: T, story: Sharing) -> Result<bool, Fail> {
    let first = Rc::new(alloc, value)?;
    let mut masked = empty::<Shared<T>>(alloc)?;
    match story {
        Sharing::IsGivenUp => Ok(shares_are_given_up(&mut masked, &first)?),
        Sharing::IsPutAndRead => Ok(is_put_and_read(&mut masked, &first)?),
    }
}

#[test]
fn vec_arc(rt: HostRuntime) -> Result<(), Fail> {
    assert!(rt; is_shared(rt.alloc(), 7u32, Sharing::IsGivenUp)?);
    Ok(())
}

#[test]
fn non_send_component_is_accepted(rt: HostRuntime) -> Result<(), Fail> {
    assert!(rt; is_shared(rt.alloc(), 7u32, Sharing::IsPutAndRead)?);
    Ok(())
}
