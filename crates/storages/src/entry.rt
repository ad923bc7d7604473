//! The place of an index in a storage, which has a component or has none.
ghost use Rattle.std.specs.Prelude.{◌≡◌, Some, None, true, false, IfOk, IfErr, IsOk, OnOk, OnErr, IsSome, unwrap_or, Ok};
ghost use Rattle.std.specs.Borrow.{sem};
ghost use Rattle.std.specs.FinMap as map;
ghost use Rattle.storages.specs.Meaning.{HasRoom};
ghost use Rattle.storages.specs.Slot.{IsSame, Puts, Takes, Inserts};
ghost use Rattle.storages.specs.Limit.{IsIndex};

use crate::masked::{MaskedStorage, Replaced};
use crate::unprotected::{Component, UnprotectedStorage};
use hibits::Index;
use std::alloc::AllocError;
use std::mem;

/// The place of an index that has a component. Ports `specs::storage::OccupiedEntry`.
#[derive(Drop)]
pub struct OccupiedEntry<'a, T: Component> {
    masked: &'a mut MaskedStorage<T>,
    id: Index,
    ghost present: { IsSome (map.get masked.now.map id) },
    ghost within: { IsIndex id },
}

/// The place of an index that has none. Ports `specs::storage::VacantEntry`.
#[derive(Drop)]
pub struct VacantEntry<'a, T: Component> {
    masked: &'a mut MaskedStorage<T>,
    id: Index,
    ghost absent: { map.get masked.now.map id ≡ None },
    ghost within: { IsIndex id },
}

/// The place of an index. Ports `specs::storage::StorageEntry`.
#[derive(Drop)]
pub enum StorageEntry<'a, T: Component> {
    /// The index has a component.
    Occupied(OccupiedEntry<'a, T>),
    /// The index has none.
    Vacant(VacantEntry<'a, T>),
}

impl<T: Component> MaskedStorage<T> {
    ghost use Rattle.storages.specs.Entry.{entry_ref, entry_id, is_occupied};

    /// The place of an index. It takes no memory.
    #[inline]
    pub fn entry(&mut self, id: Index) -> StorageEntry<'_, T>
        requires { IsIndex id }
        ensures same_reference { (entry_ref result).ghost_name ≡ self.entry.ghost_name }
        ensures slot { (entry_ref result).now ≡ self.old }
        ensures id { entry_id result ≡ id }
        ensures occupied { is_occupied result ≡ map.contains_key self.old.map id }
    {
        if self.contains(id) {
            StorageEntry::Occupied(OccupiedEntry { id, masked: self })
        } else {
            StorageEntry::Vacant(VacantEntry { id, masked: self })
        }
    }
}

impl<'a, T: Component> OccupiedEntry<'a, T>
where
    T::Storage: UnprotectedStorage<T>,
{
    ghost use Rattle.storages.specs.Entry.{slot_at, id_at, name_at, lends_occupied, lends_within, rests_occupied};
    ghost use Rattle.storages.specs.Replaced.{storage_of, before_of};

    /// The component.
    #[inline]
    pub fn get(&self) -> &T
        ensures { map.get (slot_at self.now).map (id_at self.now) ≡ Some result.now }
    {
        match self.masked.get(self.id) {
            Some(value) => value,
            None => unreachable!(),
        }
    }

    /// The component, to write to. Memory may be refused for a tracked storage's event; then nothing has changed.
    #[inline]
    pub fn get_mut(&mut self) -> Result<&mut T, AllocError>
        ensures* writes_back { sem 𝓛 (lends_within T.row T.Storage.row self.entry result) }
        ensures value { IfOk result (λ x. map.get (slot_at self.old).map (id_at self.old) ≡ Some x.now) }
        ensures succeeds { HasRoom (slot_at self.old).room 1 → IsOk result }
    {
        let id = self.id;
        let masked = &mut *self.masked;
        masked.present_mut(id)
    }

    /// The component, to write to for as long as the storage is lent. Memory may be refused for a tracked storage's
    /// event; then nothing has changed.
    #[inline]
    pub fn into_mut(self) -> Result<&'a mut T, AllocError>
        ensures* writes_back { sem 𝓛 (lends_occupied T.row T.Storage.row T.Storage.meaning self.entry result) }
        ensures value { IfOk result (λ x. map.get (slot_at self.entry).map (id_at self.entry) ≡ Some x.now) }
        ensures succeeds { HasRoom (slot_at self.entry).room 1 → IsOk result }
    {
        let OccupiedEntry { id, masked } = self;
        masked.present_mut(id)
    }

    // `into_mut`, which hands a component that is not needed back with an error.
    #[inline]
    fn into_mut_or(self, value: T) -> Result<&'a mut T, (AllocError, T)>
    where
        T: Drop,
        ensures* writes_back { sem 𝓛 (lends_occupied T.row T.Storage.row T.Storage.meaning self.entry result) }
        ensures value { IfOk result (λ x. map.get (slot_at self.entry).map (id_at self.entry) ≡ Some x.now) }
        ensures value_returned { IfErr result (λ e. e.1 ≡ value) }
        ensures succeeds { HasRoom (slot_at self.entry).room 1 → IsOk result }
    {
        let OccupiedEntry { masked, id } = self;
        masked.present_mut_or(id, value)
    }

    // `into_mut`, with an error that can hand a component back.
    #[inline]
    fn into_mut_or_none(self) -> Result<&'a mut T, (AllocError, Option<T>)>
        ensures* writes_back { sem 𝓛 (lends_occupied T.row T.Storage.row T.Storage.meaning self.entry result) }
        ensures value { IfOk result (λ x. map.get (slot_at self.entry).map (id_at self.entry) ≡ Some x.now) }
        ensures nothing { IfErr result (λ e. e.1 ≡ None) }
        ensures succeeds { HasRoom (slot_at self.entry).room 1 → IsOk result }
    {
        let OccupiedEntry { masked, id } = self;
        masked.present_mut_or_none(id)
    }

    /// Puts a component in the place of the old one, which is answered. Where memory is refused for a tracked
    /// storage's event nothing has changed, and the component is handed back.
    #[inline]
    pub fn insert(&mut self, value: T) -> Result<T, (AllocError, T)>
        ensures same_reference { name_at self.new ≡ name_at self.old }
        ensures id { id_at self.new ≡ id_at self.old }
        ensures before { IfOk result (λ x. map.get (slot_at self.old).map (id_at self.old) ≡ Some x) }
        ensures ok { OnOk result (Puts (slot_at self.old) (slot_at self.new) (id_at self.old) value true) }
        ensures err { OnErr result (IsSame (slot_at self.old) (slot_at self.new)) }
        ensures value_returned { IfErr result (λ e. e.1 ≡ value) }
        ensures succeeds { HasRoom (slot_at self.old).room 1 → IsOk result }
    {
        match self.masked.present_mut(self.id) {
            Ok(place) => Ok(mem::replace(place, value)),
            Err(e) => Err((e, value)),
        }
    }

    // `insert`, which gives the storage back.
    #[inline]
    fn replace(self, value: T) -> Result<Replaced<'a, T>, (AllocError, T)>
        ensures* rests { sem 𝓛 (rests_occupied T.row T.Storage.row self.entry result) }
        ensures same_reference { IfOk result (λ r. (storage_of r).ghost_name ≡ name_at self.entry) }
        ensures before { IfOk result (λ r. before_of r ≡ map.get (slot_at self.entry).map (id_at self.entry)) }
        ensures ok { IfOk result (λ r. Puts (slot_at self.entry) (storage_of r).now (id_at self.entry) value true) }
        ensures value_returned { IfErr result (λ e. e.1 ≡ value) }
        ensures succeeds { HasRoom (slot_at self.entry).room 1 → IsOk result }
    {
        let OccupiedEntry { masked, id } = self;
        masked.replaced(id, value)
    }

    /// Takes the component out. Memory may be refused for a tracked storage's event; then nothing has changed.
    #[inline]
    pub fn remove(self) -> Result<T, AllocError>
        ensures value { IfOk result (λ x. map.get (slot_at self.entry).map (id_at self.entry) ≡ Some x) }
        ensures ok { OnOk result (Takes (slot_at self.entry) self.exit.0.now (id_at self.entry)) }
        ensures err { OnErr result (IsSame (slot_at self.entry) self.exit.0.now) }
        ensures succeeds { HasRoom (slot_at self.entry).room 1 → IsOk result }
    {
        let id = self.id;
        self.masked.remove_present(id)
    }
}

impl<'a, T: Component> VacantEntry<'a, T>
where
    T::Storage: UnprotectedStorage<T>,
{
    ghost use Rattle.storages.specs.Entry.{lends_vacant, rests_vacant, vacant_slot, vacant_id, vacant_name};
    ghost use Rattle.storages.specs.Replaced.{storage_of, before_of};

    /// Puts a component there, and lends it to write to. A tracked storage emits an insertion and a modification.
    /// Where memory is refused nothing has changed, and the component is handed back.
    #[inline]
    pub fn insert(self, value: T) -> Result<&'a mut T, (AllocError, T)>
        ensures* writes_back { sem 𝓛 (lends_vacant T.row T.Storage.row T.Storage.meaning self.entry result) }
        ensures value { IfOk result (λ x. x.now ≡ value) }
        ensures value_returned { IfErr result (λ e. e.1 ≡ value) }
    {
        let VacantEntry { id, masked } = self;
        masked.insert_mut(id, value)
    }

    // `insert`, which gives the storage back, with the component written as it was put there.
    #[inline]
    fn replace(self, value: T) -> Result<Replaced<'a, T>, (AllocError, T)>
        ensures* rests { sem 𝓛 (rests_vacant T.row T.Storage.row self.entry result) }
        ensures same_reference { IfOk result (λ r. (storage_of r).ghost_name ≡ vacant_name self.entry) }
        ensures before { IfOk result (λ r. before_of r ≡ None) }
        ensures ok { IfOk result (λ r. Inserts (vacant_slot self.entry) (storage_of r).now (vacant_id self.entry) value) }
        ensures value_returned { IfErr result (λ e. e.1 ≡ value) }
    {
        let VacantEntry { masked, id } = self;
        match masked.insert_mut(id, value) {
            Ok(_place) => Ok(Replaced {
                before: None,
                masked,
            }),
            Err(e) => Err(e),
        }
    }

    // `insert`, with an error that hands the component back as an option.
    #[inline]
    fn insert_or_some(self, value: T) -> Result<&'a mut T, (AllocError, Option<T>)>
        ensures* writes_back { sem 𝓛 (lends_vacant T.row T.Storage.row T.Storage.meaning self.entry result) }
        ensures value { IfOk result (λ x. x.now ≡ value) }
        ensures value_returned { IfErr result (λ e. e.1 ≡ Some value) }
    {
        let VacantEntry { id, masked } = self;
        masked.insert_mut_or_some(id, value)
    }

    // `insert` of what a closure gives.
    #[inline]
    fn insert_made<F: FnOnce() -> T>(self, make: F) -> Result<&'a mut T, (AllocError, Option<T>)>
        requires { F.pre make }
        ensures* writes_back { sem 𝓛 (lends_vacant T.row T.Storage.row T.Storage.meaning self.entry result) }
        ensures value { IfOk result (λ x. F.post make x.now) }
        ensures value_returned { IfErr result (λ e. (x : T) × (e.1 ≡ Some x) × F.post make x) }
    {
        let value = make();
        self.insert_or_some(value)
    }
}

impl<'a, T: Component> StorageEntry<'a, T>
where
    T::Storage: UnprotectedStorage<T>,
{
    ghost use Rattle.storages.specs.Entry.{entry_ref, entry_id, is_occupied, Fills, lends_entry, rests_entry};
    ghost use Rattle.storages.specs.Replaced.{storage_of, before_of};

    /// The component, or this one if there is none, to write to. Where memory is refused nothing has changed, and the
    /// component that was passed is handed back.
    #[inline]
    pub fn or_insert(self, value: T) -> Result<&'a mut T, (AllocError, T)>
    where
        T: Drop,
        ensures* writes_back { sem 𝓛 (lends_entry T.row T.Storage.row self.entry result) }
        ensures value { IfOk result (λ x. x.now ≡ unwrap_or (map.get (entry_ref self.entry).now.map (entry_id self.entry)) value) }
        ensures value_returned { IfErr result (λ e. e.1 ≡ value) }
        ensures succeeds { is_occupied self.entry ≡ true → HasRoom (entry_ref self.entry).now.room 1 → IsOk result }
    {
        match self {
            StorageEntry::Occupied(entry) => entry.into_mut_or(value),
            StorageEntry::Vacant(entry) => entry.insert(value),
        }
    }
    /// The component, or what a closure gives if there is none, to write to. The closure is called only where there is
    /// none. Where memory is refused nothing has changed, and what the closure gave is handed back.
    #[inline]
    pub fn or_insert_with<F: FnOnce() -> T + Drop>(
        self,
        make: F,
    ) -> Result<&'a mut T, (AllocError, Option<T>)>
        requires { is_occupied self ≡ false → F.pre make }
        ensures* writes_back { sem 𝓛 (lends_entry T.row T.Storage.row self.entry result) }
        ensures old { is_occupied self.entry ≡ true → IfOk result (λ x. map.get (entry_ref self.entry).now.map (entry_id self.entry) ≡ Some x.now) }
        ensures made { is_occupied self.entry ≡ false → IfOk result (λ x. F.post make x.now) }
        ensures nothing { is_occupied self.entry ≡ true → IfErr result (λ e. e.1 ≡ None) }
        ensures value_returned { is_occupied self.entry ≡ false → IfErr result (λ e. (x : T) × (e.1 ≡ Some x) × F.post make x) }
        ensures succeeds { is_occupied self.entry ≡ true → HasRoom (entry_ref self.entry).now.room 1 → IsOk result }
    {
        match self {
            StorageEntry::Occupied(entry) => entry.into_mut_or_none(),
            StorageEntry::Vacant(entry) => entry.insert_made(make),
        }
    }

    /// Puts a component there, and answers the one that was there, with the storage. A tracked storage emits a
    /// modification, after an insertion if there was none, as it does at `VacantEntry::insert`. Where memory is refused
    /// nothing has changed, and the component is handed back.
    #[inline]
    pub fn replace(self, value: T) -> Result<Replaced<'a, T>, (AllocError, T)>
        ensures* rests { sem 𝓛 (rests_entry T.row T.Storage.row self.entry result) }
        ensures same_reference { IfOk result (λ r. (storage_of r).ghost_name ≡ (entry_ref self.entry).ghost_name) }
        ensures before { IfOk result (λ r. before_of r ≡ map.get (entry_ref self.entry).now.map (entry_id self.entry)) }
        ensures ok { IfOk result (λ r. Fills T.row T.Storage.row self.entry (storage_of r).now value) }
        ensures value_returned { IfErr result (λ e. e.1 ≡ value) }
        ensures succeeds { is_occupied self.entry ≡ true → HasRoom (entry_ref self.entry).now.room 1 → IsOk result }
    {
        match self {
            StorageEntry::Occupied(entry) => entry.replace(value),
            StorageEntry::Vacant(entry) => entry.replace(value),
        }
    }
}
