//! Storages that are updated in threads.
use crate::components::{Told, Valued, filled};
use hibits::BitSetAll;
use joins::IndexedStorage;
use joins_parallel::{Remake, par_restrict_mut, par_update};
use std::alloc::{Alloc, Global};
use std::test::Fail;
use std::thread::Threads;
use storages::ComponentEvent::Modified;
use storages::{ComponentEvent, MaskedStorage, ReaderId, Tracked, UnprotectedStorage};

// Ten times an odd number, and nothing for an even one.
fn ten_times_odd<T: Valued<Value = u64>>(component: &T) -> Option<T> {
    let number = component.value();
    if number % 2 == 1 {
        Some(T::new(number.wrapping_mul(10)))
    } else {
        None
    }
}

// What stands at the first three indices.
fn three<T: Valued<Value = u64>>(storage: &MaskedStorage<T>) -> Option<(u64, u64, u64)>
where
    T::Storage: UnprotectedStorage<T>,
{
    match (storage.get(0), storage.get(1), storage.get(2)) {
        (Some(a), Some(b), Some(c)) => Some((a.value(), b.value(), c.value())),
        _ => None,
    }
}

// Updates by ten times the odd numbers.
fn update<T: Valued<Value = u64> + Send + Sync>(
    rt: &(impl Threads + Alloc<A = Global> + Sync),
    storage: &mut MaskedStorage<T>,
) -> bool
where
    T::Storage: UnprotectedStorage<T> + Sync,
{
    let made = |told: &T, _index: u32| -> Option<T> { ten_times_odd(told) };
    par_update(rt, storage, BitSetAll, made).is_ok()
}

// Whether the first reader reads just these events.
fn reads<T: Valued>(storage: &mut MaskedStorage<T>, wanted: &[ComponentEvent]) -> bool
where
    T::Storage: Tracked<T>,
{
    match storage.read(&ReaderId::of(0)) {
        Ok(events) => events.as_slice() == wanted,
        Err(_) => false,
    }
}

// Whether the odd numbers of three are replaced, and the reader reads so, ascending.
fn odd_ones_are_told<T: Valued<Value = u64>>(storage: &mut MaskedStorage<T>) -> bool
where
    T::Storage: Tracked<T>,
{
    three(storage) == Some((10, 2, 30)) && reads(storage, &[Modified(0), Modified(2)])
}

// What replaces a component by ten times an odd number.
#[derive(Drop)]
struct TenTimesOdd;

impl<T: Valued<Value = u64>> Remake<T, u32> for TenTimesOdd
where
    T::Storage: UnprotectedStorage<T>,
{
    ghost makes = { λ _ _ _ _. Unit {0} };

    fn remake(&self, paired: &IndexedStorage<'_, T>, _index: u32) -> Option<T>
        ensures { Unit {0} }
    {
        ten_times_odd(paired.get_unchecked())
    }
}

// Whether an update replaces the odd numbers of three, and tells so.
fn an_update_is_told<T: Valued<Value = u64> + Send + Sync>(
    rt: &(impl Threads + Alloc<A = Global> + Sync),
    storage: &mut MaskedStorage<T>,
) -> bool
where
    T::Storage: Tracked<T> + Sync,
{
    storage.register_reader().is_ok() && update(rt, storage) && odd_ones_are_told(storage)
}

// Whether an update replaced the odd numbers and told so, or was refused and changed nothing.
fn all_or_nothing<T: Valued<Value = u64> + Send + Sync>(
    rt: &(impl Threads + Alloc<A = Global> + Sync),
    storage: &mut MaskedStorage<T>,
) -> bool
where
    T::Storage: Tracked<T> + Sync,
{
    if storage.register_reader().is_err() {
        return false;
    }
    if update(rt, storage) {
        odd_ones_are_told(storage)
    } else {
        three(storage) == Some((1, 2, 3)) && reads(storage, &[])
    }
}

// Whether what is made of the storage paired with each index replaces the odd numbers of three, and is told.
fn a_remake_is_told<T: Valued<Value = u64> + Send + Sync>(
    rt: &(impl Threads + Alloc<A = Global> + Sync),
    storage: &mut MaskedStorage<T>,
) -> bool
where
    T::Storage: Tracked<T> + Sync,
{
    storage.register_reader().is_ok()
        && par_restrict_mut(rt, storage, BitSetAll, TenTimesOdd).is_ok()
        && odd_ones_are_told(storage)
}

// What is done to a storage.
#[derive(Clone, Copy)]
enum Story {
    Update,
    UpdateOrRefusal,
    Remake,
}

// Whether a story of a storage of three numbers comes true.
fn is_true_of<T: Valued<Value = u64> + Send + Sync>(
    rt: &(impl Threads + Alloc<A = Global> + Sync),
    storage: &mut MaskedStorage<T>,
    story: Story,
) -> bool
where
    T::Storage: Tracked<T> + Sync,
{
    match story {
        Story::Update => an_update_is_told(rt, storage),
        Story::UpdateOrRefusal => all_or_nothing(rt, storage),
        Story::Remake => a_remake_is_told(rt, storage),
    }
}

// The same of a storage of its own. The storage's type is known here alone: what calls a story of a known type is slow to prove.
fn comes_true(rt: &(impl Threads + Alloc<A = Global> + Sync), story: Story) -> Result<bool, Fail> {
    let mut storage = filled::<Told>(rt.alloc(), 3, 1)?;
    Ok(is_true_of(rt, &mut storage, story))
}

#[test]
fn odd_numbers_are_replaced_and_told_ascending(rt: HostRuntime) -> Result<(), Fail> {
    assert!(rt; comes_true(&rt, Story::Update)?);
    Ok(())
}

// With `rt try --test --fail-alloc N` each allocation of the update is refused in turn.
#[test]
fn an_update_is_done_or_refused_as_a_whole(rt: HostRuntime) -> Result<(), Fail> {
    assert!(rt; comes_true(&rt, Story::UpdateOrRefusal)?);
    Ok(())
}

#[test]
fn what_is_made_of_a_paired_storage_is_told_ascending(rt: HostRuntime) -> Result<(), Fail> {
    assert!(rt; comes_true(&rt, Story::Remake)?);
    Ok(())
}
