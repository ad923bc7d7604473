//! Calls of parallel updates meet: the first waits for the last, on two processors or more. An update on one thread would wait in vain.
use crate::components::{Lying, Number, Valued, filled};
use crate::meeting_tests::meet;
use hibits::BitSetAll;
use joins::IndexedStorage;
use joins_parallel::{Remake, par_for_each, par_restrict_mut, par_update};
use std::alloc::{Alloc, Global};
use std::sync::atomic::AtomicU64;
use std::test::Fail;
use std::thread::Threads;
use storages::{MaskedStorage, UnprotectedStorage};

// What a component becomes whose call met the others.
const MET: u64 = 1_000_000;

// What a component becomes by its call.
fn number_after(flag: &AtomicU64, number: u64, last: u64) -> u64 {
    if meet(flag, number, last) { MET } else { 0 }
}

// Whether the components of the indices up to the last became what they become where all calls met.
fn all_met<T: Valued<Value = u64>>(storage: &MaskedStorage<T>, last: u32) -> bool
where
    T::Storage: UnprotectedStorage<T>,
{
    for id in 0..=last {
        match storage.get(id) {
            Some(component) if component.value() == MET => {}
            _ => return false,
        }
    }
    true
}

// An update whose calls wait for one another.
fn update(
    rt: &(impl Threads + Alloc<A = Global> + Sync),
    storage: &mut MaskedStorage<Number>,
    flag: &AtomicU64,
    last: u32,
) -> bool {
    let made = |component: &Number, _index: u32| -> Option<Number> {
        Some(Number::new(number_after(flag, component.value(), u64::from(last))))
    };
    par_update(rt, storage, BitSetAll, made).is_ok()
}

// The same in place.
fn change_in_place(
    rt: &(impl Threads + Alloc<A = Global> + Sync),
    storage: &mut MaskedStorage<Lying>,
    flag: &AtomicU64,
    last: u32,
) -> bool {
    let change = |lying: &mut Lying, _index: u32| {
        lying.0 = number_after(flag, lying.0, u64::from(last));
    };
    par_for_each(rt, storage, BitSetAll, change).is_ok()
}

// The same of the storage paired with each index.
#[derive(Drop)]
struct Meeting<'a> {
    flag: &'a AtomicU64,
    last: u64,
}

impl<'a> Remake<Number, u32> for Meeting<'a> {
    ghost makes = { λ _ _ _ _. Unit {0} };

    fn remake(&self, paired: &IndexedStorage<'_, Number>, _index: u32) -> Option<Number>
        ensures { Unit {0} }
    {
        let number = paired.get_unchecked().value();
        Some(Number::new(number_after(self.flag, number, self.last)))
    }
}

// Whether the calls of an update of a storage meet.
fn updates_meet(
    rt: &(impl Threads + Alloc<A = Global> + Sync),
    storage: &mut MaskedStorage<Number>,
    last: u32,
) -> bool {
    let flag = AtomicU64::new(0);
    update(rt, storage, &flag, last) && all_met(storage, last)
}

// Whether those that are given the paired storage do.
fn remakes_meet(
    rt: &(impl Threads + Alloc<A = Global> + Sync),
    storage: &mut MaskedStorage<Number>,
    last: u32,
) -> bool {
    let flag = AtomicU64::new(0);
    let meeting = Meeting {
        flag: &flag,
        last: u64::from(last),
    };
    par_restrict_mut(rt, storage, BitSetAll, meeting).is_ok() && all_met(storage, last)
}

// Whether those that change components in their places do.
fn changes_meet(
    rt: &(impl Threads + Alloc<A = Global> + Sync),
    storage: &mut MaskedStorage<Lying>,
    last: u32,
) -> bool {
    let flag = AtomicU64::new(0);
    change_in_place(rt, storage, &flag, last) && all_met(storage, last)
}

#[test]
fn calls_of_an_update_meet(rt: HostRuntime) -> Result<(), Fail> {
    let mut storage = filled::<Number>(rt.alloc(), 4096, 1)?;
    assert!(rt; updates_meet(&rt, &mut storage, 4095));
    Ok(())
}

#[test]
fn calls_of_a_remake_meet(rt: HostRuntime) -> Result<(), Fail> {
    let mut storage = filled::<Number>(rt.alloc(), 4096, 1)?;
    assert!(rt; remakes_meet(&rt, &mut storage, 4095));
    Ok(())
}

#[test]
fn calls_that_change_in_place_meet(rt: HostRuntime) -> Result<(), Fail> {
    let mut storage = filled::<Lying>(rt.alloc(), 4096, 1)?;
    assert!(rt; changes_meet(&rt, &mut storage, 4095));
    Ok(())
}

#[test]
fn calls_of_an_update_meet_where_it_is_cut_at_words(rt: HostRuntime) -> Result<(), Fail> {
    let mut storage = filled::<Number>(rt.alloc(), 131_072, 1)?;
    assert!(rt; updates_meet(&rt, &mut storage, 131_071));
    Ok(())
}

#[test]
fn calls_of_a_remake_meet_where_it_is_cut_at_words(rt: HostRuntime) -> Result<(), Fail> {
    let mut storage = filled::<Number>(rt.alloc(), 131_072, 1)?;
    assert!(rt; remakes_meet(&rt, &mut storage, 131_071));
    Ok(())
}

#[test]
fn calls_that_change_many_words_in_place_meet(rt: HostRuntime) -> Result<(), Fail> {
    let mut storage = filled::<Lying>(rt.alloc(), 131_072, 1)?;
    assert!(rt; changes_meet(&rt, &mut storage, 131_071));
    Ok(())
}
