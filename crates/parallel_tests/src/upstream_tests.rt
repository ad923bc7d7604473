//! The tests of parallel joins that specs has, over values.
use crate::components::{
    CompBool, CompInt, Flag, Number, OfPlace, Valued, all_true, filled, listed, mapped,
};
use entities::{EntitiesRes, Entity};
use hibits::BitSetAll;
use joins::{IndexedStorage, Join};
use joins_parallel::{ParJoin, Remake, par_restrict_mut, par_update};
use std::alloc::{Alloc, AllocError, Global};
use std::test::Fail;
use std::thread::Threads;
use storages::{MaskedStorage, TryDefault, UnprotectedStorage};

// What a join of both gives.
fn both<I: Valued<Value = i8> + Sync, B: Valued<Value = bool> + Sync>(
    rt: &(impl Threads + Alloc<A = Global> + Sync),
    ints: &MaskedStorage<I>,
    bools: &MaskedStorage<B>,
) -> Result<Vec<(i8, bool)>, AllocError>
where
    I::Storage: UnprotectedStorage<I> + Sync,
    B::Storage: UnprotectedStorage<B> + Sync,
{
    mapped(rt, (ints, bools), |pair: (&I, &B)| -> (i8, bool) {
        (pair.0.value(), pair.1.value())
    })
}

// Whether a join of both gives each number that has a truth beside it, where of three numbers two have one.
fn two_are_joined<I: Valued<Value = i8> + Sync, B: Valued<Value = bool> + Sync>(
    rt: &(impl Threads + Alloc<A = Global> + Sync),
) -> Result<bool, Fail>
where
    I::Storage: UnprotectedStorage<I> + TryDefault + Sync,
    B::Storage: UnprotectedStorage<B> + TryDefault + Sync,
{
    let ints = listed::<I>(rt.alloc(), &[1, 2, 3])?;
    let bools = listed::<B>(rt.alloc(), &[false, true])?;
    let list = both(rt, &ints, &bools)?;
    Ok(list.as_slice() == [(1, false), (2, true)].as_slice())
}

#[test]
fn par_join_two_components(rt: HostRuntime) -> Result<(), Fail> {
    assert!(rt; two_are_joined::<CompInt, CompBool>(&rt)?);
    Ok(())
}

// What a join of the numbers gives, and of the truths that may be beside them: 2 where there is none.
fn with_maybe<I: Valued<Value = i8> + Sync, B: Valued<Value = bool> + Sync>(
    rt: &(impl Threads + Alloc<A = Global> + Sync),
    ints: &MaskedStorage<I>,
    bools: &MaskedStorage<B>,
) -> Result<Vec<(i8, u8)>, AllocError>
where
    I::Storage: UnprotectedStorage<I> + Sync,
    B::Storage: UnprotectedStorage<B> + Sync,
{
    mapped(
        rt,
        (ints, bools.maybe()),
        |pair: (&I, Option<&B>)| -> (i8, u8) {
            match pair.1 {
                Some(truth) => (pair.0.value(), if truth.value() { 1 } else { 0 }),
                None => (pair.0.value(), 2),
            }
        },
    )
}

// Whether such a join gives all three numbers.
fn three_are_joined<I: Valued<Value = i8> + Sync, B: Valued<Value = bool> + Sync>(
    rt: &(impl Threads + Alloc<A = Global> + Sync),
) -> Result<bool, Fail>
where
    I::Storage: UnprotectedStorage<I> + TryDefault + Sync,
    B::Storage: UnprotectedStorage<B> + TryDefault + Sync,
{
    let ints = listed::<I>(rt.alloc(), &[1, 2, 3])?;
    let bools = listed::<B>(rt.alloc(), &[false, true])?;
    let list = with_maybe(rt, &ints, &bools)?;
    Ok(list.as_slice() == [(1, 0), (2, 1), (3, 2)].as_slice())
}

#[test]
fn par_join_with_maybe(rt: HostRuntime) -> Result<(), Fail> {
    assert!(rt; three_are_joined::<CompInt, CompBool>(&rt)?);
    Ok(())
}

// Adds one to each number of an entity.
fn add_one<T: Valued<Value = i8> + Send + Sync>(
    rt: &(impl Threads + Alloc<A = Global> + Sync),
    ints: &mut MaskedStorage<T>,
    entities: &EntitiesRes,
) -> bool
where
    T::Storage: UnprotectedStorage<T> + Sync,
{
    let made = |int: &T, _entity: Entity| -> Option<T> {
        Some(T::new(int.value().wrapping_add(1)))
    };
    par_update(rt, ints, entities, made).is_ok()
}

// Adds one so often.
fn add_often<T: Valued<Value = i8> + Send + Sync>(
    rt: &(impl Threads + Alloc<A = Global> + Sync),
    ints: &mut MaskedStorage<T>,
    entities: &EntitiesRes,
    count: u32,
) -> bool
where
    T::Storage: UnprotectedStorage<T> + Sync,
{
    let mut done = true;
    for _ in 0..count {
        done = add_one(rt, ints, entities) && done;
    }
    done
}

// Whether each number of an entity is 127.
fn are_highest<T: Valued<Value = i8> + Sync>(
    rt: &(impl Threads + Alloc<A = Global> + Sync),
    ints: &MaskedStorage<T>,
    entities: &EntitiesRes,
) -> Result<Vec<bool>, AllocError>
where
    T::Storage: UnprotectedStorage<T> + Sync,
{
    mapped(rt, (ints, entities), |pair: (&T, Entity)| -> bool {
        pair.0.value() == 127
    })
}

// Where entities are born.
trait Birthplace: Drop {
    // One without entities.
    fn new(alloc: Global) -> Self;

    // The entities.
    fn entities(&mut self) -> &mut EntitiesRes;
}

impl Birthplace for EntitiesRes {
    fn new(alloc: Global) -> Self {
        EntitiesRes::new(alloc)
    }

    fn entities(&mut self) -> &mut EntitiesRes {
        self
    }
}

// A thousand entities are born, and whether that succeeded.
fn bear_thousand(entities: &mut EntitiesRes) -> bool {
    let mut done = true;
    for _ in 0..1000u32 {
        done = done && entities.create().is_ok();
    }
    done
}

// Whether the lowest number of each entity is the highest after 255 updates.
fn numbers_are_counted<E: Birthplace, T: OfPlace + Valued<Value = i8> + Send + Sync>(
    rt: &(impl Threads + Alloc<A = Global> + Sync),
) -> Result<bool, Fail>
where
    T::Storage: UnprotectedStorage<T> + TryDefault + Sync,
{
    let mut ints = filled::<T>(rt.alloc(), 1000, 1)?;
    let mut birthplace = E::new(rt.alloc());
    let entities = birthplace.entities();
    Ok(
        bear_thousand(entities)
            && add_often(rt, &mut ints, entities, 255)
            && all_true(&are_highest(rt, &ints, entities)?, 1000),
    )
}

#[test]
fn par_join_many_entities_and_systems(rt: HostRuntime) -> Result<(), Fail> {
    assert!(rt; numbers_are_counted::<EntitiesRes, CompInt>(&rt)?);
    Ok(())
}

// What asks a paired storage twice for its component, and replaces it by 100 more where both agree.
#[derive(Drop)]
struct HundredMore;

impl<T: Valued<Value = u64>> Remake<T, u32> for HundredMore
where
    T::Storage: UnprotectedStorage<T>,
{
    ghost makes = { λ _ _ _ _. Unit {0} };

    fn remake(&self, paired: &IndexedStorage<'_, T>, index: u32) -> Option<T>
        ensures { Unit {0} }
    {
        let once = paired.get_unchecked().value();
        let again = paired.get_unchecked().value();
        if once == again && paired.index() == index {
            Some(T::new(once.wrapping_add(100)))
        } else {
            None
        }
    }
}

// Whether each number is 100 more than its index.
fn are_more<T: Valued<Value = u64> + Sync>(
    rt: &(impl Threads + Alloc<A = Global> + Sync),
    storage: &MaskedStorage<T>,
) -> Result<Vec<bool>, AllocError>
where
    T::Storage: UnprotectedStorage<T> + Sync,
{
    mapped(rt, (storage, BitSetAll), |pair: (&T, u32)| -> bool {
        pair.0.value() == u64::from(pair.1).wrapping_add(100)
    })
}

// Whether each of fifty numbers becomes 100 more.
fn fifty_become_more<T: OfPlace + Valued<Value = u64> + Send + Sync>(
    rt: &(impl Threads + Alloc<A = Global> + Sync),
) -> Result<bool, Fail>
where
    T::Storage: UnprotectedStorage<T> + TryDefault + Sync,
{
    let mut storage = filled::<T>(rt.alloc(), 50, 1)?;
    Ok(
        par_restrict_mut(rt, &mut storage, BitSetAll, HundredMore).is_ok()
            && all_true(&are_more(rt, &storage)?, 50),
    )
}

#[test]
fn par_restricted_storage(rt: HostRuntime) -> Result<(), Fail> {
    assert!(rt; fifty_become_more::<Number>(&rt)?);
    Ok(())
}

// How many members the mask of fifty components without data has.
fn members_of_mask<T: OfPlace>(
    rt: &(impl Threads + Alloc<A = Global> + Sync),
) -> Result<usize, Fail>
where
    T::Storage: UnprotectedStorage<T> + TryDefault,
{
    let storage = filled::<T>(rt.alloc(), 50, 1)?;
    Ok(storage.mask().par_join().count(rt)?)
}

#[test]
fn par_storage_mask(rt: HostRuntime) -> Result<(), Fail> {
    assert_eq!(rt; members_of_mask::<Flag>(&rt)?, 50);
    Ok(())
}
