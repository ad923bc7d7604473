//! Calls of parallel joins meet: the first waits for the last, on two processors or more.
use crate::components::{Number, Valued, all_true, filled, mapped};
use std::alloc::{Alloc, AllocError, Global};
use std::sync::atomic::{AtomicU64, Ordering};
use std::test::Fail;
use std::thread::Threads;
use storages::{MaskedStorage, UnprotectedStorage};

// How many turns the first call waits at most.
const MOST_TURNS: u32 = 100_000_000;

/// Waits for the flag in the call with number 0, and sets it in the call with the last.
pub fn meet(flag: &AtomicU64, number: u64, last: u64) -> bool {
    if number == last {
        flag.store(1, Ordering::SeqCst);
    }
    if number == 0 {
        for _turn in 0..MOST_TURNS {
            if flag.load(Ordering::SeqCst) == 1 {
                return true;
            }
        }
        return false;
    }
    true
}

// What the calls over the numbers of a storage answer.
fn calls<T: Valued<Value = u64> + Sync>(
    rt: &(impl Threads + Alloc<A = Global> + Sync),
    storage: &MaskedStorage<T>,
    flag: &AtomicU64,
    last: u64,
) -> Result<Vec<bool>, AllocError>
where
    T::Storage: UnprotectedStorage<T> + Sync,
{
    mapped(rt, storage, |component: &T| -> bool {
        meet(flag, component.value(), last)
    })
}

// Whether the calls over so many numbers meet.
fn calls_meet(
    rt: &(impl Threads + Alloc<A = Global> + Sync),
    storage: &MaskedStorage<Number>,
    count: u32,
) -> bool {
    let flag = AtomicU64::new(0);
    match calls(rt, storage, &flag, u64::from(count).wrapping_sub(1)) {
        Ok(met) => all_true(&met, count as usize),
        Err(_) => false,
    }
}

#[test]
fn calls_meet_over_indices(rt: HostRuntime) -> Result<(), Fail> {
    let storage = filled::<Number>(rt.alloc(), 4096, 1)?;
    assert!(rt; calls_meet(&rt, &storage, 4096));
    Ok(())
}

#[test]
fn calls_meet_over_words(rt: HostRuntime) -> Result<(), Fail> {
    let storage = filled::<Number>(rt.alloc(), 4096, 64)?;
    assert!(rt; calls_meet(&rt, &storage, 4096));
    Ok(())
}

#[test]
fn calls_meet_where_a_join_is_cut_at_words(rt: HostRuntime) -> Result<(), Fail> {
    let storage = filled::<Number>(rt.alloc(), 131_072, 1)?;
    assert!(rt; calls_meet(&rt, &storage, 131_072));
    Ok(())
}
