//! What tests ask of entities and a storage of numbers, in calls whose types say nothing of the storage: a function that names a storage's type,
//! or a parameter of one, is slow to prove, and a story that is told of whatever is a shelf is not.
use entities::Entity;
use hibits::BitSet;
use std::alloc::Global;
use std::cell::Cell;
use std::test::Fail;
use storages::ComponentEvent;

/// Entities, and a storage of numbers, by its calls. What may be refused answers whether it was not.
pub trait Shelf {
    /// A birth.
    fn bear(&mut self) -> Result<Entity, Fail>;

    /// A birth and a death.
    fn bear_in_vain(&mut self) -> Result<Entity, Fail>;

    /// Whether an entity lives.
    fn lives(&self, e: Entity) -> bool;

    /// Inserts a number at an entity, and answers the one that was there.
    fn put(&mut self, e: Entity, number: u32) -> Option<Option<u32>>;

    /// Removes the number of an entity.
    fn take(&mut self, e: Entity) -> Option<u32>;

    /// The number of an entity.
    fn at(&mut self, e: Entity) -> Option<u32>;

    /// Adds to the number of an entity.
    fn add(&mut self, e: Entity, number: u32) -> bool;

    /// Adds to the number of an entity, or to 0.
    fn add_or_default(&mut self, e: Entity, number: u32) -> bool;

    /// How many entities have a number.
    fn count(&mut self) -> usize;

    /// Whether none has one.
    fn is_empty(&mut self) -> bool;

    /// Removes every number.
    fn clear(&mut self) -> bool;

    /// Whether the mask has an index.
    fn is_marked(&mut self, id: u32) -> bool;

    /// How many indices a walk over the mask meets.
    fn members(&mut self) -> u32;

    /// Removes the numbers of a list of entities.
    fn drop_list(&mut self, list: &[Entity]) -> bool;

    /// Puts a number at an index, that of no entity perhaps.
    fn put_in(&mut self, id: u32, number: u32) -> bool;

    /// Takes the number of an index out.
    fn take_out(&mut self, id: u32) -> Option<u32>;

    /// The number of an index.
    fn number_in(&self, id: u32) -> Option<u32>;

    /// Whether an index has a number.
    fn contains(&self, id: u32) -> bool;

    /// Lends the number of an index.
    fn lend(&mut self, id: u32) -> bool;

    /// Lends the number of an index, or 0.
    fn lend_or_default(&mut self, id: u32) -> bool;

    /// Puts a number at an index without one, and adds to it as it is lent.
    fn insert_in(&mut self, id: u32, number: u32, more: u32) -> bool;

    /// Adds to the number of an index that has one.
    fn add_present(&mut self, id: u32, number: u32) -> bool;

    /// Takes the number of an index out that has one.
    fn take_present(&mut self, id: u32) -> Option<u32>;

    /// Lets the number of an index go.
    fn drop_in(&mut self, id: u32) -> bool;

    /// Gets room for events.
    fn reserve_events(&mut self, count: usize) -> bool;

    /// How many indices have a number.
    fn count_in(&self) -> usize;

    /// A new entity that is built with one number, and then another.
    fn build(&mut self, number: u32, other: u32) -> Option<Entity>;

    /// The text of an insertion that is refused.
    fn insertion_text(&mut self, alloc: Global, e: Entity) -> Result<String, Fail>;

    /// The text of an entry that is refused.
    fn entry_text(&mut self, alloc: Global, e: Entity) -> Result<String, Fail>;
}

/// The same, by entries and by traits.
pub trait Entries: Shelf {
    /// The number at an entity that lives, or this one, put there by its entry.
    fn or_insert(&mut self, e: Entity, number: u32) -> Option<u32>;

    /// The same of a closure, which counts its calls.
    fn or_insert_with(&mut self, e: Entity, number: u32, calls: &Cell<u32>) -> Option<u32>;

    /// The number that the entry of an entity lends, if it is occupied.
    fn occupied(&mut self, e: Entity) -> Option<u32>;

    /// Takes the number of an entity out, or puts fifteen there if it has none.
    fn toggle(&mut self, e: Entity) -> bool;

    /// Replaces the number of an entity by its entry, and answers the one that was there.
    fn replace(&mut self, e: Entity, number: u32) -> Option<Option<u32>>;

    /// Replaces the number of an occupied entry and adds one to it. It answers what the entry showed before and after.
    fn write_entry(&mut self, id: u32, number: u32) -> Option<(u32, u32)>;

    /// Adds one through what an occupied entry lends for good.
    fn lend_entry(&mut self, id: u32) -> bool;

    /// Takes the number of an occupied entry out.
    fn take_entry(&mut self, id: u32) -> Option<u32>;

    /// A view to write by its trait: a number that is lent or 0.
    fn lent_by_trait(&mut self, e: Entity) -> Option<u32>;

    /// The same, that adds one.
    fn add_by_trait(&mut self, e: Entity) -> bool;

    /// The same, that inserts.
    fn put_by_trait(&mut self, e: Entity, number: u32) -> Option<Option<u32>>;

    /// The same, that removes.
    fn take_by_trait(&mut self, e: Entity) -> bool;

    /// The number that a view to write shows by its trait, that a reference to it shows, and that a view to read shows.
    fn shown_by_trait(&mut self, e: Entity) -> (Option<u32>, Option<u32>, Option<u32>);
}

/// A storage that tells of each change.
pub trait Told: Shelf {
    /// The number of a new reader.
    fn listen(&mut self) -> Option<u64>;

    /// The events that a reader has not read yet.
    fn events(&mut self, reader: u64) -> Option<Vec<ComponentEvent>>;

    /// Ends a reader.
    fn end(&mut self, reader: u64) -> bool;

    /// Whether each change is told.
    fn emits(&mut self) -> bool;

    /// Whether each change is to be told.
    fn emit(&mut self, on: bool);

    /// Tells an event by hand.
    fn flag(&mut self, event: ComponentEvent) -> bool;

    /// Puts a number at an entity by its vacant entry.
    fn put_by_entry(&mut self, e: Entity, number: u32) -> bool;

    /// Whether an event can be refused.
    fn wants_room(&self) -> bool;

    /// Writes an event in the channel that is lent.
    fn write_in_channel(&mut self, event: ComponentEvent) -> bool;
}

/// A storage whose slice has a number at each place.
pub trait Sliced: Shelf {
    /// Whether these are the numbers of the slice.
    fn has_slice(&self, numbers: &[u32]) -> bool;

    /// The same of a view's slice.
    fn shows_slice(&mut self, numbers: &[u32]) -> bool;

    /// Removes every number.
    fn clear_all(&mut self) -> bool;
}

/// A storage whose slice has the index's number at each place, or the default.
pub trait Placed: Sliced {
    /// Adds to the number at each place.
    fn add_to_slice(&mut self, number: u32);
}

/// A storage whose slice has a number at some places.
pub trait Gapped: Shelf {
    /// Whether the slice has a number at just these places.
    fn has_places(&self, wanted: &[bool]) -> bool;

    /// Whether these are the numbers of a view's slice.
    fn shows_numbers(&mut self, numbers: &[u32]) -> bool;
}

/// A storage that is read by two views.
pub trait Seen: Shelf {
    /// Whether a view to read shows a number at an entity.
    fn sees(&self, e: Entity) -> bool;

    /// Whether a view to read has it.
    fn holds(&self, e: Entity) -> bool;

    /// Whether a view's absence excludes an index.
    fn excludes(&self, id: u32) -> bool;

    /// The same of a view to write.
    fn excludes_to_write(&mut self, id: u32) -> bool;

    /// How long a view's slice is, how many numbers it counts, and whether it has none.
    fn extent(&self) -> (usize, usize, bool);

    /// Whether an entity lives for a view.
    fn knows(&self, e: Entity) -> bool;

    /// Whether a copy of a view has the first entity alone of two, and the mask of that copy no third index.
    fn copy_holds(&self, one: Entity, other: Entity, id: u32) -> Result<bool, Fail>;
}

/// The indices of each kind of event.
#[derive(Drop)]
pub struct Sorted {
    /// Those that were inserted.
    pub inserted: BitSet,
    /// Those that were modified.
    pub modified: BitSet,
    /// Those that were removed.
    pub removed: BitSet,
}
