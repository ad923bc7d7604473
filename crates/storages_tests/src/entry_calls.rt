//! The calls of a shelf by entries and by traits.
use crate::numbers::Number;
use crate::shelf::Entries;
use crate::shelf_calls::{given, increase, shown};
use crate::world::World;
use entities::Entity;
use hibits::INDEX_LIMIT;
use std::cell::Cell;
use storages::{
    GenericReadStorage, GenericWriteStorage, MaskedStorage, StorageEntry, UnprotectedStorage,
};

/// The number that the entry of an index lends, if it is occupied.
fn occupied<T: Number>(masked: &mut MaskedStorage<T>, id: u32) -> Option<u32>
where
    T::Storage: UnprotectedStorage<T>,
{
    if id >= INDEX_LIMIT {
        return None;
    }
    match masked.entry(id) {
        StorageEntry::Occupied(mut entry) => match entry.get_mut() {
            Ok(value) => Some(value.number()),
            Err(_) => None,
        },
        StorageEntry::Vacant(_entry) => None,
    }
}

/// Takes the number of an index out, or puts fifteen there if it has none.
fn toggle<T: Number>(masked: &mut MaskedStorage<T>, id: u32) -> bool
where
    T::Storage: UnprotectedStorage<T>,
{
    if id >= INDEX_LIMIT {
        return false;
    }
    match masked.entry(id) {
        StorageEntry::Occupied(entry) => entry.remove().is_ok(),
        StorageEntry::Vacant(entry) => entry.insert(T::of(15)).is_ok(),
    }
}

/// Replaces the number of an index by its entry, and answers the one that was there.
fn replace<T: Number>(masked: &mut MaskedStorage<T>, id: u32, number: u32) -> Option<Option<u32>>
where
    T::Storage: UnprotectedStorage<T>,
{
    if id >= INDEX_LIMIT {
        return None;
    }
    match masked.entry(id).replace(T::of(number)) {
        Ok(replaced) => Some(given(replaced.before)),
        Err(_) => None,
    }
}

/// Puts a number at an index where there is none, by its entry, and answers the one that is there then.
fn or_insert<T: Number>(masked: &mut MaskedStorage<T>, id: u32, number: u32) -> Option<u32>
where
    T::Storage: UnprotectedStorage<T>,
{
    if id >= INDEX_LIMIT {
        return None;
    }
    match masked.entry(id).or_insert(T::of(number)) {
        Ok(value) => Some(value.number()),
        Err(_) => None,
    }
}

/// The same of a closure, which counts its calls.
fn or_insert_with<T: Number>(
    masked: &mut MaskedStorage<T>,
    id: u32,
    number: u32,
    calls: &Cell<u32>,
) -> Option<u32>
where
    T::Storage: UnprotectedStorage<T>,
{
    if id >= INDEX_LIMIT {
        return None;
    }
    match masked.entry(id).or_insert_with(|| {
        calls.set(calls.get().wrapping_add(1));
        T::of(number)
    }) {
        Ok(value) => Some(value.number()),
        Err(_) => None,
    }
}

/// Any view lends a number, or 0.
fn lent_through<T: Number, S: GenericWriteStorage<Component = T>>(
    view: &mut S,
    e: Entity,
) -> Option<u32> {
    match view.get_mut_or_default(e) {
        Ok(value) => Some(value.number()),
        Err(_) => None,
    }
}

/// Any view adds one.
fn add_through<T: Number, S: GenericWriteStorage<Component = T>>(view: &mut S, e: Entity) -> bool {
    match view.get_mut(e) {
        Ok(value) => {
            increase(value, 1);
            true
        }
        Err(_) => false,
    }
}

/// Any view inserts.
fn put_through<T: Number, S: GenericWriteStorage<Component = T>>(
    view: &mut S,
    e: Entity,
    number: u32,
) -> Option<Option<u32>> {
    match view.insert(e, T::of(number)) {
        Ok(old) => Some(given(old)),
        Err(_) => None,
    }
}

/// Any view removes.
fn take_through<T: Number, S: GenericWriteStorage<Component = T>>(view: &mut S, e: Entity) -> bool {
    GenericWriteStorage::remove(view, e).is_ok()
}

/// The number that any view reads.
fn read<T: Number, S: GenericReadStorage<Component = T>>(view: &S, e: Entity) -> Option<u32> {
    shown(view.get(e))
}

/// A reference to any view lends a number, or 0.
fn lent_by_reference<T: Number, S: GenericWriteStorage<Component = T>>(
    view: &mut S,
    e: Entity,
) -> Option<u32> {
    let mut reference = &mut *view;
    lent_through(&mut reference, e)
}

/// A reference to any view inserts.
fn put_by_reference<T: Number, S: GenericWriteStorage<Component = T>>(
    view: &mut S,
    e: Entity,
    number: u32,
) -> Option<Option<u32>> {
    let mut reference = &mut *view;
    put_through(&mut reference, e, number)
}

impl<T: Number> Entries for World<T>
where
    T::Storage: UnprotectedStorage<T>,
{
    fn or_insert(&mut self, e: Entity, number: u32) -> Option<u32> {
        match self.view().live(e) {
            Ok(masked) => or_insert(masked, e.id(), number),
            Err(_) => None,
        }
    }

    fn or_insert_with(&mut self, e: Entity, number: u32, calls: &Cell<u32>) -> Option<u32> {
        match self.view().live(e) {
            Ok(masked) => or_insert_with(masked, e.id(), number, calls),
            Err(_) => None,
        }
    }

    fn occupied(&mut self, e: Entity) -> Option<u32> {
        match self.view().live(e) {
            Ok(masked) => occupied(masked, e.id()),
            Err(_) => None,
        }
    }

    fn toggle(&mut self, e: Entity) -> bool {
        match self.view().live(e) {
            Ok(masked) => toggle(masked, e.id()),
            Err(_) => false,
        }
    }

    fn replace(&mut self, e: Entity, number: u32) -> Option<Option<u32>> {
        match self.view().live(e) {
            Ok(masked) => replace(masked, e.id(), number),
            Err(_) => None,
        }
    }

    fn write_entry(&mut self, id: u32, number: u32) -> Option<(u32, u32)> {
        if id >= INDEX_LIMIT {
            return None;
        }
        match self.masked.entry(id) {
            StorageEntry::Occupied(mut entry) => {
                let before = entry.get().number();
                let _ = entry.insert(T::of(number)).ok()?;
                increase(entry.get_mut().ok()?, 1);
                Some((before, entry.get().number()))
            }
            StorageEntry::Vacant(_entry) => None,
        }
    }

    fn lend_entry(&mut self, id: u32) -> bool {
        if id >= INDEX_LIMIT {
            return false;
        }
        match self.masked.entry(id) {
            StorageEntry::Occupied(entry) => match entry.into_mut() {
                Ok(value) => {
                    increase(value, 1);
                    true
                }
                Err(_) => false,
            },
            StorageEntry::Vacant(_entry) => false,
        }
    }

    fn take_entry(&mut self, id: u32) -> Option<u32> {
        if id >= INDEX_LIMIT {
            return None;
        }
        match self.masked.entry(id) {
            StorageEntry::Occupied(entry) => given(entry.remove().ok()),
            StorageEntry::Vacant(_entry) => None,
        }
    }

    fn lent_by_trait(&mut self, e: Entity) -> Option<u32> {
        lent_by_reference(&mut self.view(), e)
    }

    fn add_by_trait(&mut self, e: Entity) -> bool {
        add_through(&mut self.view(), e)
    }

    fn put_by_trait(&mut self, e: Entity, number: u32) -> Option<Option<u32>> {
        put_by_reference(&mut self.view(), e, number)
    }

    fn take_by_trait(&mut self, e: Entity) -> bool {
        take_through(&mut self.view(), e)
    }

    fn shown_by_trait(&mut self, e: Entity) -> (Option<u32>, Option<u32>, Option<u32>) {
        let view = self.view();
        let by_view = read(&view, e);
        let by_reference = read(&&view, e);
        (by_view, by_reference, read(&self.read(), e))
    }
}
