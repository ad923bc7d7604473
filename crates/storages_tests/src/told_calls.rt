//! The calls of a shelf whose changes are told, whose slice is shown, or that is read by two views.
use crate::numbers::Number;
use crate::shelf::{Gapped, Placed, Seen, Sliced, Told};
use crate::world::World;
use entities::Entity;
use std::test::Fail;
use storages::{
    ComponentEvent, ReadStorage, ReaderId, SliceAccess, SliceAccessMut, StorageEntry, Tracked,
};

impl<T: Number> Told for World<T>
where
    T::Storage: Tracked<T>,
{
    fn listen(&mut self) -> Option<u64> {
        match self.view().register_reader() {
            Ok(id) => Some(id.number()),
            Err(_) => None,
        }
    }

    fn events(&mut self, reader: u64) -> Option<Vec<ComponentEvent>> {
        self.view().read(&ReaderId::of(reader)).ok()
    }

    fn end(&mut self, reader: u64) -> bool {
        self.view().drop_reader(ReaderId::of(reader)).is_ok()
    }

    fn emits(&mut self) -> bool {
        self.view().event_emission()
    }

    fn emit(&mut self, on: bool) {
        self.view().set_event_emission(on);
    }

    fn flag(&mut self, event: ComponentEvent) -> bool {
        self.view().flag(event).is_ok()
    }

    fn put_by_entry(&mut self, e: Entity, number: u32) -> bool {
        match self.view().live(e) {
            Ok(masked) => match masked.entry(e.id()) {
                StorageEntry::Vacant(entry) => entry.insert(T::of(number)).is_ok(),
                StorageEntry::Occupied(_entry) => false,
            },
            Err(_) => false,
        }
    }

    fn wants_room(&self) -> bool {
        self.masked.needs_room()
    }

    fn write_in_channel(&mut self, event: ComponentEvent) -> bool {
        match self.masked.channel_mut() {
            Some(channel) => channel.single_write(event).is_ok(),
            None => false,
        }
    }
}

/// Whether these are the numbers.
fn are<T: Number>(values: &[T], numbers: &[u32]) -> bool {
    for (value, number) in values.iter().zip(numbers) {
        if value.number() != *number {
            return false;
        }
    }
    values.len() == numbers.len()
}

/// Adds to each number.
fn add_to_each<T: Number>(values: &mut [T], number: u32) {
    for value in values {
        *value = T::of(value.number().wrapping_add(number));
    }
}

impl<T: Number> Sliced for World<T>
where
    T::Storage: SliceAccess<T, Element = T>,
{
    fn has_slice(&self, numbers: &[u32]) -> bool {
        are(self.masked.as_slice(), numbers)
    }

    fn shows_slice(&mut self, numbers: &[u32]) -> bool {
        are(self.view().as_slice(), numbers)
    }

    fn clear_all(&mut self) -> bool {
        self.masked.clear().is_ok()
    }
}

impl<T: Number> Placed for World<T>
where
    T::Storage: SliceAccessMut<T>,
{
    fn add_to_slice(&mut self, number: u32) {
        add_to_each(self.masked.as_mut_slice(), number);
    }
}

/// Whether there is a component at each place.
fn are_some<T: Number>(values: &[Option<T>], wanted: &[bool]) -> bool {
    for (value, some) in values.iter().zip(wanted) {
        if value.is_some() != *some {
            return false;
        }
    }
    values.len() == wanted.len()
}

/// Whether these are the numbers, with none that is absent.
fn are_all<T: Number>(values: &[Option<T>], numbers: &[u32]) -> bool {
    for (value, number) in values.iter().zip(numbers) {
        match value {
            Some(v) if v.number() == *number => {}
            _ => return false,
        }
    }
    values.len() == numbers.len()
}

impl<T: Number> Gapped for World<T>
where
    T::Storage: SliceAccess<T, Element = Option<T>>,
{
    fn has_places(&self, wanted: &[bool]) -> bool {
        are_some(self.masked.as_slice(), wanted)
    }

    fn shows_numbers(&mut self, numbers: &[u32]) -> bool {
        are_all(self.view().as_slice(), numbers)
    }
}

/// Whether a view has the first entity alone of two, and its mask no third index.
fn has_one<T: Number>(view: &ReadStorage<'_, T>, one: Entity, other: Entity, id: u32) -> bool {
    let there = view.contains(one);
    let others = view.contains(other) || view.mask().contains(id);
    there && !others
}

impl<T: Number> Seen for World<T>
where
    T::Storage: SliceAccess<T>,
{
    fn sees(&self, e: Entity) -> bool {
        self.read().get(e).is_some()
    }

    fn holds(&self, e: Entity) -> bool {
        self.read().contains(e)
    }

    fn excludes(&self, id: u32) -> bool {
        let view = self.read();
        (!&view).0.contains(id)
    }

    fn excludes_to_write(&mut self, id: u32) -> bool {
        let view = self.view();
        (!&view).0.contains(id)
    }

    fn extent(&self) -> (usize, usize, bool) {
        let view = self.read();
        (view.as_slice().len(), view.count(), view.is_empty())
    }

    fn knows(&self, e: Entity) -> bool {
        self.read().fetched_entities().is_alive(e)
    }

    fn copy_holds(&self, one: Entity, other: Entity, id: u32) -> Result<bool, Fail> {
        let copy = self.read().clone()?;
        Ok(has_one(&copy, one, other, id))
    }
}
