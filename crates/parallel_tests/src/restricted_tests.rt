//! Restricted storages that threads read.
use crate::components::{Told, Valued, filled, mapped};
use entities::EntitiesRes;
use joins::{PairedStorage, RestrictedStorage};
use std::alloc::{Alloc, AllocError, Global};
use std::test::Fail;
use std::thread::Threads;
use storages::{MaskedStorage, UnprotectedStorage};

// The numbers that threads look at, by their indices.
fn numbers<T: Valued<Value = u64> + Sync>(
    rt: &(impl Threads + Alloc<A = Global> + Sync),
    entities: &EntitiesRes,
    storage: &MaskedStorage<T>,
) -> Result<Vec<u64>, AllocError>
where
    T::Storage: UnprotectedStorage<T> + Sync,
{
    let restricted = RestrictedStorage::new(entities, storage);
    mapped(rt, &restricted, |paired: PairedStorage<'_, T>| -> u64 {
        paired.get_unchecked().value()
    })
}

#[test]
fn a_restricted_storage_is_read_in_threads(rt: HostRuntime) -> Result<(), Fail> {
    let entities = EntitiesRes::new(rt.alloc());
    let storage = filled::<Told>(rt.alloc(), 3, 1)?;
    assert!(rt; numbers(&rt, &entities, &storage)?.as_slice() == [1, 2, 3].as_slice());
    Ok(())
}
