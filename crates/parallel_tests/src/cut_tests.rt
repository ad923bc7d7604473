//! Joins over many words of 64 indices are cut at words, those over fewer at indices, and what they give is the same.
use crate::components::{Lying, Number, Valued, filled, mapped};
use hibits::{BitSet, BitSetAll, Index};
use joins::IndexedStorage;
use joins_parallel::{ParJoin, Remake, par_for_each, par_restrict_mut, par_update};
use std::alloc::{Alloc, AllocError, Global};
use std::sync::atomic::{AtomicU64, Ordering};
use std::test::Fail;
use std::thread::Threads;
use storages::{MaskedStorage, UnprotectedStorage};

// 2,048 words of 64 indices, and one less.
const MANY: u32 = 131_072;

const FEWER: u32 = 131_008;

// The indices below a count, as a set.
fn below(alloc: Global, count: u32) -> Result<BitSet, Fail> {
    let mut set = BitSet::new(alloc);
    for id in 0..count {
        if set.add(id).is_err() {
            return Err(Fail::new("refused"));
        }
    }
    Ok(set)
}

// Twice each index of a set. The calls are counted.
fn doubles(
    rt: &(impl Threads + Alloc<A = Global> + Sync),
    set: &BitSet,
    calls: &AtomicU64,
) -> Result<Vec<u32>, AllocError> {
    mapped(rt, set, |index: Index| -> u32 {
        calls.fetch_add(1, Ordering::Relaxed);
        index.wrapping_mul(2)
    })
}

// Whether a list has twice each index below a count, in turn, for as many calls.
fn are_doubles(list: &[u32], count: u32, calls: u64) -> bool {
    let mut next: u32 = 0;
    let mut right = true;
    for double in list {
        right = right && *double == next.wrapping_mul(2);
        next = next.wrapping_add(1);
    }
    right && next == count && calls == u64::from(count)
}

// Whether a set of the indices below a count is mapped to their doubles by a call for each, and counted, cut at words or not.
fn is_mapped(
    rt: &(impl Threads + Alloc<A = Global> + Sync),
    set: &BitSet,
    count: u32,
    at_words: bool,
) -> bool {
    let calls = AtomicU64::new(0);
    let Ok(list) = doubles(rt, set, &calls) else {
        return false;
    };
    let Ok(counted) = set.par_join().count(rt) else {
        return false;
    };
    are_doubles(&list, count, calls.load(Ordering::Relaxed))
        && counted == count as usize
        && set.par_join().is_cut_at_words() == at_words
}

#[test]
fn many_words_are_mapped_by_words(rt: HostRuntime) -> Result<(), Fail> {
    let set = below(rt.alloc(), MANY)?;
    assert!(rt; is_mapped(&rt, &set, MANY, true));
    Ok(())
}

#[test]
fn fewer_words_are_mapped_by_indices(rt: HostRuntime) -> Result<(), Fail> {
    let set = below(rt.alloc(), FEWER)?;
    assert!(rt; is_mapped(&rt, &set, FEWER, false));
    Ok(())
}

// Whether the components of the indices below a count are their numbers and one, where as many calls were made.
fn are_raised<T: Valued<Value = u64>>(storage: &MaskedStorage<T>, count: u32, calls: u64) -> bool
where
    T::Storage: UnprotectedStorage<T>,
{
    for id in 0..count {
        match storage.get(id) {
            Some(component) if component.value() == u64::from(id).wrapping_add(1) => {}
            _ => return false,
        }
    }
    calls == u64::from(count)
}

// A number and one. The call is counted.
fn raised(calls: &AtomicU64, number: u64) -> u64 {
    calls.fetch_add(1, Ordering::Relaxed);
    number.wrapping_add(1)
}

// Whether an update raises each of so many numbers by one call.
fn is_updated(
    rt: &(impl Threads + Alloc<A = Global> + Sync),
    storage: &mut MaskedStorage<Number>,
    count: u32,
) -> bool {
    let calls = AtomicU64::new(0);
    let made = |component: &Number, _index: Index| -> Option<Number> {
        Some(Number::new(raised(&calls, component.value())))
    };
    par_update(rt, storage, BitSetAll, made).is_ok()
        && are_raised(storage, count, calls.load(Ordering::Relaxed))
}

// The same of the storage paired with each index.
#[derive(Drop)]
struct Raising<'a> {
    calls: &'a AtomicU64,
}

impl<'a> Remake<Number, u32> for Raising<'a> {
    ghost makes = { λ _ _ _ _. Unit {0} };

    fn remake(&self, paired: &IndexedStorage<'_, Number>, _index: u32) -> Option<Number>
        ensures { Unit {0} }
    {
        let number = paired.get_unchecked().value();
        Some(Number::new(raised(self.calls, number)))
    }
}

fn is_remade(
    rt: &(impl Threads + Alloc<A = Global> + Sync),
    storage: &mut MaskedStorage<Number>,
    count: u32,
) -> bool {
    let calls = AtomicU64::new(0);
    par_restrict_mut(rt, storage, BitSetAll, Raising { calls: &calls }).is_ok()
        && are_raised(storage, count, calls.load(Ordering::Relaxed))
}

// The same in place.
fn is_changed(
    rt: &(impl Threads + Alloc<A = Global> + Sync),
    storage: &mut MaskedStorage<Lying>,
    count: u32,
) -> bool {
    let calls = AtomicU64::new(0);
    let change = |lying: &mut Lying, _index: Index| {
        lying.0 = raised(&calls, lying.0);
    };
    par_for_each(rt, storage, BitSetAll, change).is_ok()
        && are_raised(storage, count, calls.load(Ordering::Relaxed))
}

#[test]
fn each_index_of_many_words_is_updated_once(rt: HostRuntime) -> Result<(), Fail> {
    let mut storage = filled::<Number>(rt.alloc(), MANY, 1)?;
    assert!(rt; is_updated(&rt, &mut storage, MANY));
    Ok(())
}

#[test]
fn each_index_of_fewer_words_is_updated_once(rt: HostRuntime) -> Result<(), Fail> {
    let mut storage = filled::<Number>(rt.alloc(), FEWER, 1)?;
    assert!(rt; is_updated(&rt, &mut storage, FEWER));
    Ok(())
}

#[test]
fn each_index_of_many_words_is_remade_once(rt: HostRuntime) -> Result<(), Fail> {
    let mut storage = filled::<Number>(rt.alloc(), MANY, 1)?;
    assert!(rt; is_remade(&rt, &mut storage, MANY));
    Ok(())
}

#[test]
fn each_index_of_many_words_is_changed_once_in_its_place(rt: HostRuntime) -> Result<(), Fail> {
    let mut storage = filled::<Lying>(rt.alloc(), MANY, 1)?;
    assert!(rt; is_changed(&rt, &mut storage, MANY));
    Ok(())
}
