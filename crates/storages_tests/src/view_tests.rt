//! Views beside entities that die.
use crate::asserts::{equal, gives, holds, replaces};
use crate::kinds::nth;
use crate::numbers::{InVec, Number};
use crate::shelf::{Entries, Seen, Shelf};
use crate::stories::{Story, in_hash, in_null, in_vec};
use crate::world::{new_world, populate};
use entities::Entity;
use std::alloc::Global;
use std::process::Abort;
use std::test::Fail;
use storages::{InsertError, NotLent, SliceAccess, TryDefault};

// The refusals of a stale entity have texts.
fn stale_is_told<R: Abort, S: Shelf>(
    rt: &R,
    alloc: Global,
    shelf: &mut S,
    stale: Entity,
) -> Result<(), Fail> {
    equal!(rt;
        shelf.insertion_text(alloc, stale)?.as_str(),
        "Tried to insert component for entity entity Entity(0, Generation(1)), but the generation is no longer valid; it should be Generation(2)"
    );
    equal!(rt;
        shelf.entry_text(alloc, stale)?.as_str(),
        "Tried to attempting to get an entry to a storage entity Entity(0, Generation(1)), but the generation is no longer valid; it should be Generation(-1)"
    );
    Ok(())
}

// The stale entity finds nothing, before and after the other has a number.
fn reaches_nothing<R: Abort, S: Shelf>(rt: &R, shelf: &mut S, stale: Entity, other: Entity) {
    gives!(rt; shelf.at(stale), None);
    replaces!(rt; shelf.put(other, 2), Some(None));
    gives!(rt; shelf.at(stale), None);
    gives!(rt; shelf.take(stale), None);
    gives!(rt; shelf.at(other), Some(2));
}

/// A stale entity, and another of its index, where nobody was born before.
pub fn stale<R: Abort, S: Shelf>(rt: &R, alloc: Global, shelf: &mut S) -> Result<(), Fail> {
    let first = shelf.bear_in_vain()?;
    let second = shelf.bear()?;
    equal!(rt; Entity::from_parts(0, 2), Some(second));
    stale_is_told(rt, alloc, shelf, first)?;
    reaches_nothing(rt, shelf, first, second);
    Ok(())
}

#[test]
fn stale_entities_are_told(rt: HostRuntime) -> Result<(), Fail> {
    in_vec(&rt, rt.alloc(), 0, &[Story::Stale])
}

#[test]
fn refusals_have_texts(rt: HostRuntime) -> Result<(), Fail> {
    let alloc = rt.alloc();
    let refused = InsertError::OutOfMemory(3u32);
    let texts = format!(in alloc;
        "{}; {}; {refused}; {refused:?}",
        NotLent::Absent,
        NotLent::OutOfMemory
    )?;
    assert_eq!(rt;
        texts.as_str(),
        "there is no component; out of memory; out of memory; OutOfMemory(3)"
    );
    Ok(())
}

/// All are inserted; every third is lent to write to, and the others are read.
pub fn are_marked_and_lent<R: Abort, S: Shelf>(rt: &R, shelf: &mut S, list: &[Entity]) {
    for e in list {
        replaces!(rt; shelf.put(*e, 0), Some(None));
    }
    for e in list {
        holds!(rt; shelf.is_marked(e.id()));
        if e.id() % 3 == 0 {
            holds!(rt; shelf.add(*e, 0));
        } else {
            gives!(rt; shelf.at(*e), Some(0));
        }
    }
    equal!(rt; shelf.count(), 50);
    equal!(rt; shelf.members(), 50);
}

#[test]
fn storage_mask(rt: HostRuntime) -> Result<(), Fail> {
    in_null(&rt, rt.alloc(), 50, &[Story::MarkedAndLent])
}

// What a view to read shows of the second of three entities, which alone has a number.
fn second_is_read<R: Abort, S: Seen>(rt: &R, shelf: &S, list: &[Entity]) {
    equal!(rt; list.len(), 3);
    holds!(rt; shelf.sees(nth(rt, list, 1)));
    holds!(rt; shelf.holds(nth(rt, list, 1)));
    holds!(rt; shelf.excludes(1));
    holds!(rt; !shelf.excludes(0));
    equal!(rt; shelf.extent(), (2, 1, false));
    holds!(rt; shelf.knows(nth(rt, list, 2)));
}

// The second of three entities gets a number, which views show then.
fn second_is_seen<R: Abort, S: Seen>(rt: &R, shelf: &mut S, list: &[Entity]) -> Result<(), Fail> {
    equal!(rt; list.len(), 3);
    replaces!(rt; shelf.put(nth(rt, list, 1), 1), Some(None));
    holds!(rt; shelf.excludes_to_write(1));
    second_is_read(rt, shelf, list);
    holds!(rt; shelf.copy_holds(nth(rt, list, 1), nth(rt, list, 0), 2)?);
    Ok(())
}

// The same of a new storage.
fn seen_in_new<R: Abort, T: Number>(rt: &R, alloc: Global) -> Result<(), Fail>
where
    T::Storage: SliceAccess<T> + TryDefault,
{
    let mut world = new_world::<T>(alloc)?;
    let list = populate(alloc, &mut world.entities, 3)?;
    second_is_seen(rt, &mut world, list.as_slice())
}

#[test]
fn views_to_read(rt: HostRuntime) -> Result<(), Fail> {
    seen_in_new::<_, InVec>(&rt, rt.alloc())
}

/// A view to write by its trait, by a reference too, and what views show of that by their trait.
pub fn by_trait<R: Abort, S: Entries>(rt: &R, shelf: &mut S, list: &[Entity]) {
    equal!(rt; list.len(), 1);
    let e = nth(rt, list, 0);
    gives!(rt; shelf.lent_by_trait(e), Some(0));
    holds!(rt; shelf.take_by_trait(e));
    holds!(rt; shelf.take_by_trait(e));
    replaces!(rt; shelf.put_by_trait(e, 2), Some(None));
    replaces!(rt; shelf.put_by_trait(e, 3), Some(Some(2)));
    holds!(rt; shelf.add_by_trait(e));
    gives!(rt; shelf.lent_by_trait(e), Some(4));
    equal!(rt; shelf.shown_by_trait(e), (Some(4), Some(4), Some(4)));
}

#[test]
fn views_by_trait(rt: HostRuntime) -> Result<(), Fail> {
    in_hash(&rt, rt.alloc(), 1, &[Story::ByTrait])
}
