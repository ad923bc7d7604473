//! The calls of a shelf, one call of the library in each.
use crate::numbers::Number;
use crate::shelf::Shelf;
use crate::world::{World, born};
use entities::{EntitiesRes, Entity};
use hibits::{BitSet, INDEX_LIMIT};
use std::alloc::{AllocError, Global};
use std::fmt::Display;
use std::test::Fail;
use storages::{AnyStorage, MaskedStorage, UnprotectedStorage, WithComponent};

/// The number of a component, if there is one.
pub fn shown<T: Number>(found: Option<&T>) -> Option<u32> {
    match found {
        Some(value) => Some(value.number()),
        None => None,
    }
}

/// The number of a component that was let go.
pub fn given<T: Number>(found: Option<T>) -> Option<u32> {
    match found {
        Some(value) => Some(value.number()),
        None => None,
    }
}

/// Adds to a number, past the greatest from 0 on.
pub fn increase<T: Number>(value: &mut T, number: u32) {
    *value = T::of(value.number().wrapping_add(number));
}

/// A text of what was refused.
fn text<E: Display>(alloc: Global, refused: &E) -> Result<String, Fail> {
    Ok(format!(in alloc; "{refused}")?)
}

/// How many members a walk over a set meets.
fn members(set: &BitSet) -> u32 {
    let mut count = 0u32;
    for _id in set.iter() {
        count = count.wrapping_add(1);
    }
    count
}

/// Kills an entity.
fn kill(entities: &mut EntitiesRes, e: Entity) -> bool {
    entities.alloc_mut().kill(&[e]).is_ok()
}

/// A new entity with one number, and then another.
fn built<T: Number>(
    entities: &mut EntitiesRes,
    masked: &mut MaskedStorage<T>,
    number: u32,
    other: u32,
) -> Option<Entity>
where
    T::Storage: UnprotectedStorage<T>,
{
    let builder = entities.build_entity().ok()?;
    let builder = builder.with(masked, T::of(number)).ok()?;
    let builder = builder.with(masked, T::of(other)).ok()?;
    Some(builder.build())
}

/// Lets the components of a list go.
fn drop_list<S: AnyStorage>(storage: &mut S, list: &[Entity]) -> Result<(), AllocError> {
    storage.reserve_drop(list)?;
    storage.drop(list);
    Ok(())
}

impl<T: Number> Shelf for World<T>
where
    T::Storage: UnprotectedStorage<T>,
{
    fn bear(&mut self) -> Result<Entity, Fail> {
        born(&mut self.entities)
    }

    fn bear_in_vain(&mut self) -> Result<Entity, Fail> {
        let e = self.entities.alloc_mut().allocate().ok().ok_or("a birth")?;
        if kill(&mut self.entities, e) {
            Ok(e)
        } else {
            Err(Fail::from("not killed"))
        }
    }

    fn lives(&self, e: Entity) -> bool {
        self.entities.is_alive(e)
    }

    fn put(&mut self, e: Entity, number: u32) -> Option<Option<u32>> {
        match self.view().insert(e, T::of(number)) {
            Ok(old) => Some(given(old)),
            Err(_) => None,
        }
    }

    fn take(&mut self, e: Entity) -> Option<u32> {
        match self.view().remove(e) {
            Ok(old) => given(old),
            Err(_) => None,
        }
    }

    fn at(&mut self, e: Entity) -> Option<u32> {
        shown(self.view().get(e))
    }

    fn add(&mut self, e: Entity, number: u32) -> bool {
        match self.view().get_mut(e) {
            Ok(value) => {
                increase(value, number);
                true
            }
            Err(_) => false,
        }
    }

    fn add_or_default(&mut self, e: Entity, number: u32) -> bool {
        match self.view().get_mut_or_default(e) {
            Ok(value) => {
                increase(value, number);
                true
            }
            Err(_) => false,
        }
    }

    fn count(&mut self) -> usize {
        self.view().count()
    }

    fn is_empty(&mut self) -> bool {
        self.view().is_empty()
    }

    fn clear(&mut self) -> bool {
        self.view().clear().is_ok()
    }

    fn is_marked(&mut self, id: u32) -> bool {
        self.view().mask().contains(id)
    }

    fn members(&mut self) -> u32 {
        members(self.view().mask())
    }

    fn drop_list(&mut self, list: &[Entity]) -> bool {
        drop_list(&mut self.masked, list).is_ok()
    }

    fn put_in(&mut self, id: u32, number: u32) -> bool {
        id < INDEX_LIMIT && self.masked.put(id, T::of(number)).is_ok()
    }

    fn take_out(&mut self, id: u32) -> Option<u32> {
        match self.masked.remove(id) {
            Ok(old) => given(old),
            Err(_) => None,
        }
    }

    fn number_in(&self, id: u32) -> Option<u32> {
        shown(self.masked.get(id))
    }

    fn contains(&self, id: u32) -> bool {
        self.masked.contains(id)
    }

    fn lend(&mut self, id: u32) -> bool {
        self.masked.get_mut(id).is_ok()
    }

    fn lend_or_default(&mut self, id: u32) -> bool {
        id < INDEX_LIMIT && self.masked.get_mut_or_default(id).is_ok()
    }

    fn insert_in(&mut self, id: u32, number: u32, more: u32) -> bool {
        if id >= INDEX_LIMIT || self.masked.contains(id) {
            return false;
        }
        match self.masked.insert_mut(id, T::of(number)) {
            Ok(value) => {
                increase(value, more);
                true
            }
            Err(_) => false,
        }
    }

    fn add_present(&mut self, id: u32, number: u32) -> bool {
        if !self.masked.contains(id) {
            return false;
        }
        match self.masked.present_mut(id) {
            Ok(value) => {
                increase(value, number);
                true
            }
            Err(_) => false,
        }
    }

    fn take_present(&mut self, id: u32) -> Option<u32> {
        if !self.masked.contains(id) {
            return None;
        }
        match self.masked.remove_present(id) {
            Ok(old) => Some(old.number()),
            Err(_) => None,
        }
    }

    fn drop_in(&mut self, id: u32) -> bool {
        self.masked.drop(id).is_ok()
    }

    fn reserve_events(&mut self, count: usize) -> bool {
        self.masked.reserve_events(count).is_ok()
    }

    fn count_in(&self) -> usize {
        self.masked.count()
    }

    fn build(&mut self, number: u32, other: u32) -> Option<Entity> {
        built(&mut self.entities, &mut self.masked, number, other)
    }

    fn insertion_text(&mut self, alloc: Global, e: Entity) -> Result<String, Fail> {
        match self.view().insert(e, T::of(1)) {
            Err(refused) => text(alloc, &refused),
            Ok(_) => Err(Fail::from("not refused")),
        }
    }

    fn entry_text(&mut self, alloc: Global, e: Entity) -> Result<String, Fail> {
        match self.view().live(e) {
            Err(wrong) => text(alloc, &wrong),
            Ok(_) => Err(Fail::from("not refused")),
        }
    }
}
