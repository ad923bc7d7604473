//! A storage to write to, beside the entities.
ghost use Rattle.std.specs.Prelude.{◌≡◌, ◌↔◌, ◌<◌, ℕ, Some, None, Ok, Err, true, false, IfOk, IfErr, IsOk, OnOk, OnErr, IsSome, is_some, is_ok, option_copied, length, IsTrue};
ghost use Rattle.std.specs.Borrow.{sem};
ghost use Rattle.std.specs.FinMap as map;
ghost use Rattle.std.specs.FinSet as set;
ghost use Rattle.entities.specs.Census.{population};
ghost use Rattle.entities.specs.Population.{generation_now, generation_reported, index_of, number_of};
ghost use Rattle.storages.specs.Limit.{IsIndex};
ghost use Rattle.storages.specs.Meaning.{HasRoom};
ghost use Rattle.storages.specs.Slot.{IsSame, Puts, Takes, Clears, indices_of};
ghost use Rattle.storages.specs.Life.{is_alive};

use crate::life::is_living;
use crate::masked::{MaskedStorage, NotLent};
use crate::unprotected::{Component, UnprotectedStorage};
use entities::{EntitiesRes, Entity, WrongGeneration};
use hibits::BitSet;
use std::alloc::AllocError;
use std::fmt::Debug;
use std::{error, fmt, mem};

/// What a refused insertion was to do, as `WrongGeneration` names it.
pub const INSERT: &str = "insert component for entity";

// What a refused entry was to do.
const ENTRY: &str = "attempting to get an entry to a storage";

/// Why a component was not inserted, with the component. Nothing has changed.
///
/// `specs::WriteStorage::insert` tells the first alone, and lets the component go.
#[derive(Debug, Drop)]
pub enum InsertError<T> {
    /// The entity is not alive: the refusal, with the generation that its index has now, and the component. The storage
    /// is as it was.
    WrongGeneration(WrongGeneration, T),
    /// There is no memory for the component, or for a tracked storage's event: the component. The storage is as it was.
    OutOfMemory(T),
}

impl<T> fmt::Display for InsertError<T> {
    ghost use Rattle.storages.specs.Texts.{insert_text};

    ghost output = { λ e. Some (insert_text e) };

    fn fmt<W: fmt::Write>(&self, f: &mut fmt::Formatter<W>) -> fmt::Result {
        match self {
            InsertError::WrongGeneration(wrong, _) => write!(f, "{wrong}"),
            InsertError::OutOfMemory(_) => write!(f, "out of memory"),
        }
    }
}

impl<T: Debug + Drop> error::Error for InsertError<T> {}

/// A storage to write to, beside the entities that its components belong to. An entity that is not alive reaches
/// nothing. Ports `specs::WriteStorage`.
#[derive(Drop)]
pub struct WriteStorage<'a, T: Component> {
    pub(crate) entities: &'a EntitiesRes,
    pub(crate) data: &'a mut MaskedStorage<T>,
}

impl<'a, T: Component> WriteStorage<'a, T> {
    ghost use Rattle.storages.specs.WriteView.{slot, entities_of, storage_name, found, lends_masked, lends_live};

    /// A view of a storage.
    pub fn new(entities: &'a EntitiesRes, masked: &'a mut MaskedStorage<T>) -> Self
        ensures same_reference { storage_name result ≡ masked.entry.ghost_name }
        ensures slot { slot result ≡ masked.old }
        ensures entities { entities_of result ≡ entities.now }
    {
        WriteStorage {
            entities,
            data: masked,
        }
    }

    /// Whether the entity is alive and has a component.
    #[inline(always)]
    pub fn contains(&self, entity: Entity) -> bool
        ensures { result ≡ is_some (found self.now entity) }
    {
        is_living(self.entities, entity) && self.data.contains(entity.id())
    }

    /// The storage without the entities, to read.
    #[inline(always)]
    pub fn storage(&self) -> &MaskedStorage<T>
        ensures { result.now ≡ slot self.now }
    {
        self.data
    }

    /// The indices that have a component.
    #[inline(always)]
    pub fn mask(&self) -> &BitSet
        ensures { (q : ℕ) → set.contains result.now.members q ≡ map.contains_key (slot self.now).map q }
    {
        self.data.mask()
    }

    /// How many indices have a component. It reads the words of the mask.
    pub fn count(&self) -> usize
        ensures { result ≡ length (indices_of (slot self.now)) }
    {
        self.data.count()
    }

    /// Whether no index has a component.
    #[inline(always)]
    pub fn is_empty(&self) -> bool
        ensures { IsTrue result ↔ ((slot self.now).map ≡ map.empty) }
    {
        self.data.is_empty()
    }

    /// The storage without its mask.
    pub fn unprotected_storage(&self) -> &T::Storage
        ensures present { (q : ℕ) → IsSome (map.get (slot self.now).map q) → (T.Storage.meaning result.now).at q ≡ map.get (slot self.now).map q }
        ensures absent { (q : ℕ) → map.get (slot self.now).map q ≡ None → (T.Storage.meaning result.now).is_free q ≡ true }
        ensures extent { (T.Storage.meaning result.now).extent ≡ (slot self.now).extent }
        ensures order { (T.Storage.meaning result.now).order ≡ (slot self.now).order }
        ensures channel { (T.Storage.meaning result.now).channel ≡ (slot self.now).channel }
        ensures room { (T.Storage.meaning result.now).room ≡ (slot self.now).room }
        ensures inner_room { (T.Storage.meaning result.now).inner_room ≡ (slot self.now).inner_room }
    {
        self.data.unprotected_storage()
    }

    /// The entities.
    #[inline(always)]
    pub fn fetched_entities(&self) -> &'a EntitiesRes
        ensures { result.now ≡ entities_of self.now }
    {
        self.entities
    }

    /// The storage without the entities.
    #[inline(always)]
    pub fn masked_mut(&mut self) -> &mut MaskedStorage<T>
        ensures* lends { sem 𝓛 (lends_masked T.row T.Storage.row T.Storage.meaning self.entry result) }
        ensures slot { result.now ≡ slot self.old }
    {
        &mut *self.data
    }

    /// The storage without the entities, if the entity is alive: its `entry` then has the component of the entity's
    /// index. It stands for `specs::Storage::entry`.
    ///
    /// Where a place that the storage lent was written to, the view is known to have it once the storage is looked at
    /// again: a caller writes `let _masked = &*masked;` after the last write.
    #[inline(always)]
    pub fn live(&mut self, entity: Entity) -> Result<&mut MaskedStorage<T>, WrongGeneration>
        ensures* lends { sem 𝓛 (lends_live T.row T.Storage.row T.Storage.meaning self.entry result) }
        ensures alive { is_ok result ≡ is_alive (population (entities_of self.old)) entity }
        ensures slot { IfOk result (λ r. r.now ≡ slot self.old) }
        ensures limit { OnOk result (IsIndex (index_of entity)) }
        ensures entity { IfErr result (λ w. w.entity ≡ entity) }
        ensures action { IfErr result (λ w. w.action.now ≡ ENTRY.now) }
        ensures actual { IfErr result (λ w. number_of w.actual_gen ≡ generation_reported (population (entities_of self.old)) (index_of entity)) }
    {
        if !is_living(self.entities, entity) {
            return Err(self.entities.wrong_generation(ENTRY, entity));
        }
        Ok(&mut *self.data)
    }
}

impl<'a, T: Component> WriteStorage<'a, T>
where
    T::Storage: UnprotectedStorage<T>,
{
    ghost use Rattle.storages.specs.WriteView.{slot, entities_of, storage_name, found, lends_found, lends_filled, IsInsertError};

    /// The component of an entity that is alive.
    #[inline(always)]
    pub fn get(&self, entity: Entity) -> Option<&T>
        ensures { option_copied result ≡ found self.now entity }
    {
        if is_living(self.entities, entity) {
            self.data.get(entity.id())
        } else {
            None
        }
    }

    /// The component of an entity that is alive, to write to.
    #[inline(always)]
    pub fn get_mut(&mut self, entity: Entity) -> Result<&mut T, NotLent>
        ensures* writes_back { sem 𝓛 (lends_found T.row T.Storage.row T.Storage.meaning self.entry entity result) }
        ensures value { IfOk result (λ x. found self.old entity ≡ Some x.now) }
        ensures absent { (result ≡ Err NotLent.Absent) ↔ (found self.old entity ≡ None) }
        ensures succeeds { IsSome (found self.old entity) → HasRoom (slot self.old).room 1 → IsOk result }
    {
        if !is_living(self.entities, entity) {
            return Err(NotLent::Absent);
        }
        self.data.get_mut(entity.id())
    }

    /// The component of an entity that is alive, to write to, which is a default value if there was none. Ports
    /// `specs::storage::GenericWriteStorage::get_mut_or_default`.
    #[inline(always)]
    pub fn get_mut_or_default(&mut self, entity: Entity) -> Result<&mut T, NotLent>
    where
        T: Default + Drop,
        ensures* writes_back { sem 𝓛 (lends_filled T.row T.Storage.row T.Storage.meaning self.entry entity result) }
        ensures old { IfOk result (λ x. (y : T) → found self.old entity ≡ Some y → x.now ≡ y) }
        ensures new { found self.old entity ≡ None → IfOk result (λ x. T.is_default x.now) }
        ensures absent { (result ≡ Err NotLent.Absent) ↔ (is_alive (population (entities_of self.old)) entity ≡ false) }
        ensures succeeds { IsSome (found self.old entity) → HasRoom (slot self.old).room 1 → IsOk result }
    {
        if !is_living(self.entities, entity) {
            return Err(NotLent::Absent);
        }
        self.data.get_mut_or_default(entity.id())
    }

    /// Puts a component at an entity that is alive, and answers the one that was there. It takes memory only where
    /// there was none, or for a tracked storage's event. After an error nothing has changed.
    #[inline(always)]
    pub fn insert(&mut self, entity: Entity, value: T) -> Result<Option<T>, InsertError<T>>
        ensures same_reference { storage_name self.new ≡ storage_name self.old }
        ensures entities { entities_of self.new ≡ entities_of self.old }
        ensures replaced { IfOk result (λ before. before ≡ found self.old entity) }
        ensures alive { OnOk result (is_alive (population (entities_of self.old)) entity ≡ true) }
        ensures ok { OnOk result (Puts (slot self.old) (slot self.new) (index_of entity) value (is_some (found self.old entity))) }
        ensures err { OnErr result (IsSame (slot self.old) (slot self.new)) }
        ensures succeeds { IsSome (found self.old entity) → HasRoom (slot self.old).room 1 → IsOk result }
        ensures refused { IfErr result (λ e. IsInsertError e entity value INSERT.now (is_alive (population (entities_of self.old)) entity)
            (generation_now (population (entities_of self.old)) (index_of entity))) }
    {
        if !is_living(self.entities, entity) {
            let error = WrongGeneration {
                action: INSERT,
                actual_gen: self.entities.entity(entity.id()).generation(),
                entity,
            };
            return Err(InsertError::WrongGeneration(error, value));
        }
        if self.data.contains(entity.id()) {
            match self.data.present_mut(entity.id()) {
                Ok(place) => Ok(Some(mem::replace(place, value))),
                Err(_) => Err(InsertError::OutOfMemory(value)),
            }
        } else {
            match self.data.insert(entity.id(), value) {
                Ok(()) => Ok(None),
                Err((_, value)) => Err(InsertError::OutOfMemory(value)),
            }
        }
    }

    /// Takes the component of an entity that is alive out, if there is one. After an error nothing has changed.
    #[inline(always)]
    pub fn remove(&mut self, entity: Entity) -> Result<Option<T>, AllocError>
        ensures same_reference { storage_name self.new ≡ storage_name self.old }
        ensures entities { entities_of self.new ≡ entities_of self.old }
        ensures value { IfOk result (λ x. x ≡ found self.old entity) }
        ensures removed { OnOk result (IsSome (found self.old entity) → Takes (slot self.old) (slot self.new) (index_of entity)) }
        ensures absent { found self.old entity ≡ None → (result ≡ Ok None) × (slot self.new ≡ slot self.old) }
        ensures err { OnErr result (IsSame (slot self.old) (slot self.new)) }
        ensures succeeds { HasRoom (slot self.old).room 1 → IsOk result }
    {
        if !is_living(self.entities, entity) {
            return Ok(None);
        }
        self.data.remove(entity.id())
    }

    /// Takes every component out. A tracked storage emits a removal for each, ascending. After an error nothing has
    /// changed.
    pub fn clear(&mut self) -> Result<(), AllocError>
        ensures same_reference { storage_name self.new ≡ storage_name self.old }
        ensures entities { entities_of self.new ≡ entities_of self.old }
        ensures ok { OnOk result (Clears (slot self.old) (slot self.new)) }
        ensures err { OnErr result (IsSame (slot self.old) (slot self.new)) }
        ensures succeeds { HasRoom (slot self.old).room (length (indices_of (slot self.old))) → IsOk result }
    {
        self.data.clear()
    }
}
