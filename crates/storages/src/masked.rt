//! A storage with the set of the indices at which it has a component.
ghost use Rattle.std.specs.Prelude.{◌≡◌, ◌↔◌, ◌<◌, ℕ, Some, None, true, false, IfOk, IfErr, IsOk, OnOk, OnErr, IsSome, is_some, length, option_copied, IsTrue, ◌||◌};
ghost use Rattle.std.specs.Borrow.{sem};
ghost use Rattle.std.specs.FinMap as map;
ghost use Rattle.std.specs.FinSet as set;
ghost use Rattle.storages.specs.Limit.{IsIndex};
ghost use Rattle.storages.specs.Channel.{is_heard};
ghost use Rattle.storages.specs.Meaning.{HasRoom};

use crate::unprotected::{Component, UnprotectedStorage};
use hibits::{BitSet, Index};
use std::alloc::{AllocError, Global};
use std::marker::Model;
use std::mem;
use thiserror::Error;

/// Why no component was lent for writing. The storage is as it was.
#[derive(Clone, Copy, PartialEq, Eq, Debug, Error)]
pub enum NotLent {
    /// There is no component, or the entity is not alive.
    #[error("there is no component")]
    Absent,
    /// There is no memory for the event of a tracked storage, or for a default component.
    #[error("out of memory")]
    OutOfMemory,
}

/// A storage with its mask, the set of the indices that have a component.
///
/// Contracts see it as a finite map from indices to components, with the channel of its events. Ports
/// `specs::storage::MaskedStorage`.
#[derive(Drop)]
pub struct MaskedStorage<T: Component> {
    mask: BitSet,
    pub(crate) inner: T::Storage,
}

impl<T: Component> Model for MaskedStorage<T> {
    ghost use Rattle.storages.specs.Slot.{Slot, slot_of, slot_code};
    ghost use Rattle.storages.specs.Meaning.{Masks};

    ghost Value = { Slot T };

    ghost coded = { slot_code T.code };

    ghost view = { λ s. slot_of s.mask.members (T.Storage.meaning s.inner) };

    ghost invariant = { λ s. Masks s.mask.members (T.Storage.meaning s.inner) };
}

/// What was at an index before a component was put there, and the storage.
///
/// `specs::storage::StorageEntry::replace` answers the component alone.
#[derive(Drop)]
pub struct Replaced<'a, T: Component> {
    /// The component that was there, and `None` where there was none.
    pub before: Option<T>,
    /// The storage, with the new component.
    pub masked: &'a mut MaskedStorage<T>,
}

impl<T: Component> MaskedStorage<T> {
    ghost use Rattle.storages.specs.Slot.{indices_of};

    /// A storage without components, over one that is empty.
    pub fn new(alloc: Global, inner: T::Storage) -> Self
        requires { (q : ℕ) → (T.Storage.meaning inner).is_free q ≡ true }
        ensures map { result.map ≡ map.empty }
        ensures extent { result.extent ≡ (T.Storage.meaning inner).extent }
        ensures order { result.order ≡ (T.Storage.meaning inner).order }
        ensures channel { result.channel ≡ (T.Storage.meaning inner).channel }
        ensures room { result.room ≡ (T.Storage.meaning inner).room }
        ensures inner_room { result.inner_room ≡ (T.Storage.meaning inner).inner_room }
    {
        MaskedStorage {
            mask: BitSet::new(alloc),
            inner,
        }
    }

    /// The indices that have a component.
    #[inline(always)]
    pub fn mask(&self) -> &BitSet
        ensures { (q : ℕ) → set.contains result.now.members q ≡ map.contains_key self.now.map q }
    {
        &self.mask
    }

    /// The storage without its mask.
    #[inline(always)]
    pub fn unprotected_storage(&self) -> &T::Storage
        ensures present { (q : ℕ) → IsSome (map.get self.now.map q) → (T.Storage.meaning result.now).at q ≡ map.get self.now.map q }
        ensures absent { (q : ℕ) → map.get self.now.map q ≡ None → (T.Storage.meaning result.now).is_free q ≡ true }
        ensures extent { (T.Storage.meaning result.now).extent ≡ self.now.extent }
        ensures order { (T.Storage.meaning result.now).order ≡ self.now.order }
        ensures channel { (T.Storage.meaning result.now).channel ≡ self.now.channel }
        ensures room { (T.Storage.meaning result.now).room ≡ self.now.room }
        ensures inner_room { (T.Storage.meaning result.now).inner_room ≡ self.now.inner_room }
    {
        &self.inner
    }

    /// The mask and the storage without it, for one who takes the components out. It takes constant time.
    #[inline(always)]
    pub fn into_parts(self) -> (BitSet, T::Storage)
        ensures mask { (q : ℕ) → set.contains result.0.members q ≡ map.contains_key self.map q }
        ensures present { (q : ℕ) → IsSome (map.get self.map q) → (T.Storage.meaning result.1).at q ≡ map.get self.map q }
        ensures absent { (q : ℕ) → map.get self.map q ≡ None → (T.Storage.meaning result.1).is_free q ≡ true }
        ensures extent { (T.Storage.meaning result.1).extent ≡ self.extent }
        ensures order { (T.Storage.meaning result.1).order ≡ self.order }
        ensures channel { (T.Storage.meaning result.1).channel ≡ self.channel }
        ensures room { (T.Storage.meaning result.1).room ≡ self.room }
        ensures inner_room { (T.Storage.meaning result.1).inner_room ≡ self.inner_room }
    {
        let MaskedStorage { mask, inner } = self;
        (mask, inner)
    }

    /// How many indices have a component. It reads the words of the mask.
    pub fn count(&self) -> usize
        ensures { result ≡ length (indices_of self.now) }
    {
        self.mask.count()
    }

    /// Whether no index has a component.
    #[inline(always)]
    pub fn is_empty(&self) -> bool
        ensures { IsTrue result ↔ (self.now.map ≡ map.empty) }
    {
        self.mask.is_empty()
    }

    /// Whether an index has a component.
    #[inline(always)]
    pub fn contains(&self, id: Index) -> bool
        ensures { result ≡ map.contains_key self.now.map id }
    {
        self.mask.contains(id)
    }
}

impl<T: Component> MaskedStorage<T>
where
    T::Storage: UnprotectedStorage<T>,
{
    ghost use Rattle.storages.specs.Replaced.{storage_of, before_of, rests_if_refused};
    ghost use Rattle.storages.specs.Slot.{IsSame, Puts, Takes, Clears, indices_of};
    ghost use Rattle.storages.specs.Lending.{lends_present, lends_inserted, lends_filled};

    /// The component of an index.
    #[inline(always)]
    pub fn get(&self, id: Index) -> Option<&T>
        ensures { option_copied result ≡ map.get self.now.map id }
    {
        if self.mask.contains(id) {
            Some(self.inner.get(id))
        } else {
            None
        }
    }

    /// The component of an index that has one, to write to.
    #[inline(always)]
    pub fn present_mut(&mut self, id: Index) -> Result<&mut T, AllocError>
        requires { IsSome (map.get self.old.map id) }
        ensures* writes_back { sem 𝓛 (lends_present T.row T.Storage.row T.Storage.meaning self.entry id result) }
        ensures value { IfOk result (λ x. map.get self.old.map id ≡ Some x.now) }
        ensures succeeds { HasRoom self.old.room 1 → IsOk result }
    {
        self.inner.get_mut(id)
    }

    /// `present_mut`, with the error of `get_mut`.
    #[inline(always)]
    pub fn lend_present(&mut self, id: Index) -> Result<&mut T, NotLent>
        requires { IsSome (map.get self.old.map id) }
        ensures* writes_back { sem 𝓛 (lends_present T.row T.Storage.row T.Storage.meaning self.entry id result) }
        ensures value { IfOk result (λ x. map.get self.old.map id ≡ Some x.now) }
        ensures refused { IfErr result (λ e. e ≡ NotLent.OutOfMemory) }
        ensures succeeds { HasRoom self.old.room 1 → IsOk result }
    {
        match self.present_mut(id) {
            Ok(component) => Ok(component),
            Err(_) => Err(NotLent::OutOfMemory),
        }
    }

    // `present_mut`, which hands a component that is not needed back with an error.
    #[inline(always)]
    pub(crate) fn present_mut_or(&mut self, id: Index, value: T) -> Result<&mut T, (AllocError, T)>
    where
        T: Drop,
        requires { IsSome (map.get self.old.map id) }
        ensures* writes_back { sem 𝓛 (lends_present T.row T.Storage.row T.Storage.meaning self.entry id result) }
        ensures value { IfOk result (λ x. map.get self.old.map id ≡ Some x.now) }
        ensures value_returned { IfErr result (λ e. e.1 ≡ value) }
        ensures succeeds { HasRoom self.old.room 1 → IsOk result }
    {
        match self.present_mut(id) {
            Ok(place) => Ok(place),
            Err(e) => Err((e, value)),
        }
    }

    // `present_mut`, with an error that can hand a component back.
    #[inline(always)]
    pub(crate) fn present_mut_or_none(
        &mut self,
        id: Index,
    ) -> Result<&mut T, (AllocError, Option<T>)>
        requires { IsSome (map.get self.old.map id) }
        ensures* writes_back { sem 𝓛 (lends_present T.row T.Storage.row T.Storage.meaning self.entry id result) }
        ensures value { IfOk result (λ x. map.get self.old.map id ≡ Some x.now) }
        ensures nothing { IfErr result (λ e. e.1 ≡ None) }
        ensures succeeds { HasRoom self.old.room 1 → IsOk result }
    {
        match self.present_mut(id) {
            Ok(place) => Ok(place),
            Err(e) => Err((e, None)),
        }
    }

    /// The component of an index, to write to.
    #[inline(always)]
    pub fn get_mut(&mut self, id: Index) -> Result<&mut T, NotLent>
        ensures* writes_back { sem 𝓛 (lends_present T.row T.Storage.row T.Storage.meaning self.entry id result) }
        ensures value { IfOk result (λ x. map.get self.old.map id ≡ Some x.now) }
        ensures absent { (result ≡ Err NotLent.Absent) ↔ (map.get self.old.map id ≡ None) }
        ensures succeeds { IsSome (map.get self.old.map id) → HasRoom self.old.room 1 → IsOk result }
    {
        if !self.contains(id) {
            return Err(NotLent::Absent);
        }
        match self.present_mut(id) {
            Ok(value) => Ok(value),
            Err(_) => Err(NotLent::OutOfMemory),
        }
    }

    /// Inserts a component at an index that has none. Where memory is refused nothing has changed, and the component
    /// is handed back.
    #[inline(always)]
    pub fn insert(&mut self, id: Index, value: T) -> Result<(), (AllocError, T)>
        requires absent { map.get self.old.map id ≡ None }
        requires limit { IsIndex id }
        ensures ok { OnOk result (Puts self.old self.new id value false) }
        ensures err { OnErr result (IsSame self.old self.new) }
        ensures value_returned { IfErr result (λ e. e.1 ≡ value) }
    {
        if self.mask.reserve_for(id).is_err() {
            return Err((AllocError, value));
        }
        match self.inner.insert(id, value) {
            Ok(()) => {}
            Err(e) => return Err(e),
        }
        let _ = self.mask.add(id);
        Ok(())
    }

    /// Puts a component at an index, and answers the one that was there. It takes memory only where there was none, or
    /// for a tracked storage's event. Where memory is refused nothing has changed, and the component is handed back.
    #[inline(always)]
    pub fn put(&mut self, id: Index, value: T) -> Result<Option<T>, (AllocError, T)>
        requires { IsIndex id }
        ensures before { IfOk result (λ before. before ≡ map.get self.old.map id) }
        ensures ok { OnOk result (Puts self.old self.new id value (map.contains_key self.old.map id)) }
        ensures err { OnErr result (IsSame self.old self.new) }
        ensures value_returned { IfErr result (λ e. e.1 ≡ value) }
        ensures succeeds { IsSome (map.get self.old.map id) → HasRoom self.old.room 1 → IsOk result }
    {
        if self.contains(id) {
            match self.present_mut(id) {
                Ok(place) => Ok(Some(mem::replace(place, value))),
                Err(e) => Err((e, value)),
            }
        } else {
            match self.insert(id, value) {
                Ok(()) => Ok(None),
                Err(e) => Err(e),
            }
        }
    }

    // `put`, which gives the storage back.
    #[inline(always)]
    pub(crate) fn replaced(
        &mut self,
        id: Index,
        value: T,
    ) -> Result<Replaced<'_, T>, (AllocError, T)>
        requires { IsIndex id }
        ensures* rests { sem 𝓛 (rests_if_refused T.row T.Storage.row T.Storage.meaning self.entry result) }
        ensures same_reference { IfOk result (λ r. (storage_of r).ghost_name ≡ self.entry.ghost_name) }
        ensures before { IfOk result (λ r. before_of r ≡ map.get self.old.map id) }
        ensures ok { IfOk result (λ r. Puts self.old (storage_of r).now id value (map.contains_key self.old.map id)) }
        ensures value_returned { IfErr result (λ e. e.1 ≡ value) }
        ensures succeeds { IsSome (map.get self.old.map id) → HasRoom self.old.room 1 → IsOk result }
    {
        match self.put(id, value) {
            Ok(before) => Ok(Replaced {
                before,
                masked: self,
            }),
            Err(e) => Err(e),
        }
    }

    /// Inserts a component at an index that has none, and lends it to write to. A tracked storage emits an insertion
    /// and a modification. Where memory is refused nothing has changed, and the component is handed back.
    #[inline(always)]
    pub fn insert_mut(&mut self, id: Index, value: T) -> Result<&mut T, (AllocError, T)>
        requires absent { map.get self.old.map id ≡ None }
        requires limit { IsIndex id }
        ensures* writes_back { sem 𝓛 (lends_inserted T.row T.Storage.row T.Storage.meaning self.entry id result) }
        ensures value { IfOk result (λ x. x.now ≡ value) }
        ensures value_returned { IfErr result (λ e. e.1 ≡ value) }
    {
        match self.reserve_events(2) {
            Ok(()) => {}
            Err(e) => return Err((e, value)),
        }
        match self.insert(id, value) {
            Ok(()) => {}
            Err(e) => return Err(e),
        }
        match self.present_mut(id) {
            Ok(place) => Ok(place),
            Err(_) => unreachable!(),
        }
    }

    /// The component of an index, to write to, which is a default value if there was none. A tracked storage emits a
    /// modification, after an insertion if there was none. Where memory is refused nothing has changed.
    #[inline(always)]
    #[tactic(auto, using(crate::proofs::Slot::fills_there, crate::proofs::Slot::fills_new))]
    pub fn get_mut_or_default(&mut self, id: Index) -> Result<&mut T, NotLent>
    where
        T: Default + Drop,
        requires { IsIndex id }
        ensures* writes_back { sem 𝓛 (lends_filled T.row T.Storage.row T.Storage.meaning self.entry id result) }
        ensures old { IfOk result (λ x. (y : T) → map.get self.old.map id ≡ Some y → x.now ≡ y) }
        ensures new { map.get self.old.map id ≡ None → IfOk result (λ x. T.is_default x.now) }
        ensures refused { IfErr result (λ e. e ≡ NotLent.OutOfMemory) }
        ensures succeeds { IsSome (map.get self.old.map id) → HasRoom self.old.room 1 → IsOk result }
    {
        if self.contains(id) {
            return self.get_mut(id);
        }
        self.insert_default(id)
    }

    // A default value at an index that has none, to write to.
    #[inline(always)]
    fn insert_default(&mut self, id: Index) -> Result<&mut T, NotLent>
    where
        T: Default + Drop,
        requires absent { map.get self.old.map id ≡ None }
        requires limit { IsIndex id }
        ensures* writes_back { sem 𝓛 (lends_inserted T.row T.Storage.row T.Storage.meaning self.entry id result) }
        ensures value { IfOk result (λ x. T.is_default x.now) }
        ensures refused { IfErr result (λ e. e ≡ NotLent.OutOfMemory) }
    {
        match self.insert_mut(id, T::default()) {
            Ok(place) => Ok(place),
            Err(refused) => {
                let (_error, _value) = refused;
                Err(NotLent::OutOfMemory)
            }
        }
    }

    // `insert_mut`, with an error that hands the component back as an option.
    #[inline(always)]
    pub(crate) fn insert_mut_or_some(
        &mut self,
        id: Index,
        value: T,
    ) -> Result<&mut T, (AllocError, Option<T>)>
        requires absent { map.get self.old.map id ≡ None }
        requires limit { IsIndex id }
        ensures* writes_back { sem 𝓛 (lends_inserted T.row T.Storage.row T.Storage.meaning self.entry id result) }
        ensures value { IfOk result (λ x. x.now ≡ value) }
        ensures value_returned { IfErr result (λ e. e.1 ≡ Some value) }
    {
        match self.insert_mut(id, value) {
            Ok(place) => Ok(place),
            Err(refused) => {
                let (e, value) = refused;
                Err((e, Some(value)))
            }
        }
    }

    /// Takes the component of an index that has one out. After an error nothing has changed.
    #[inline(always)]
    pub fn remove_present(&mut self, id: Index) -> Result<T, AllocError>
        requires { IsSome (map.get self.old.map id) }
        ensures value { IfOk result (λ x. map.get self.old.map id ≡ Some x) }
        ensures ok { OnOk result (Takes self.old self.new id) }
        ensures err { OnErr result (IsSame self.old self.new) }
        ensures succeeds { HasRoom self.old.room 1 → IsOk result }
    {
        let value = self.inner.remove(id)?;
        self.mask.remove(id);
        Ok(value)
    }

    /// Takes the component of an index out, if there is one. After an error nothing has changed.
    #[inline(always)]
    pub fn remove(&mut self, id: Index) -> Result<Option<T>, AllocError>
        ensures value { IfOk result (λ x. x ≡ map.get self.old.map id) }
        ensures removed { IfOk result (λ x. IsSome x → Takes self.old self.new id) }
        ensures absent { map.get self.old.map id ≡ None → (result ≡ Ok None) × (self.new ≡ self.old) }
        ensures err { OnErr result (IsSame self.old self.new) }
        ensures succeeds { HasRoom self.old.room 1 → IsOk result }
    {
        if !self.contains(id) {
            return Ok(None);
        }
        match self.remove_present(id) {
            Ok(value) => Ok(Some(value)),
            Err(e) => Err(e),
        }
    }

    /// Takes the component of an index out, if there is one, and lets it go. After an error nothing has changed.
    pub fn drop(&mut self, id: Index) -> Result<(), AllocError>
        ensures dropped { OnOk result (IsSome (map.get self.old.map id) → Takes self.old self.new id) }
        ensures absent { map.get self.old.map id ≡ None → IsOk result × (self.new ≡ self.old) }
        ensures err { OnErr result (IsSame self.old self.new) }
        ensures succeeds { HasRoom self.old.room 1 → IsOk result }
    {
        if !self.contains(id) {
            return Ok(());
        }
        self.reserve_events(1)?;
        self.drop_present(id);
        Ok(())
    }

    /// Takes the component of an index that has one out and lets it go, in room that is there for the event.
    #[inline(always)]
    pub fn drop_present(&mut self, id: Index)
        requires present { IsSome (map.get self.old.map id) }
        requires ready { HasRoom self.old.room 1 }
        ensures { Takes self.old self.new id }
    {
        self.inner.drop(id);
        self.mask.remove(id);
    }

    /// Takes every component out. A tracked storage emits a removal for each, ascending. After an error nothing has
    /// changed.
    pub fn clear(&mut self) -> Result<(), AllocError>
        ensures ok { OnOk result (Clears self.old self.new) }
        ensures err { OnErr result (IsSame self.old self.new) }
        ensures succeeds { HasRoom self.old.room (length (indices_of self.old)) → IsOk result }
    {
        self.inner.clean(&self.mask)?;
        self.mask.clear();
        Ok(())
    }

    /// Makes room for the events of the next `n` calls that insert, lend for writing, or take out, of which then only
    /// those that insert can be refused.
    pub fn reserve_events(&mut self, n: usize) -> Result<(), AllocError>
        ensures same { IsSame self.old self.new }
        ensures ok { OnOk result (HasRoom self.new.room n) }
        ensures succeeds { HasRoom self.old.room n → IsOk result }
    {
        self.inner.reserve_events(n)
    }

    /// Whether a call that emits an event can be refused: while the inner storage's can, or a reader is registered and
    /// events are emitted.
    #[inline(always)]
    pub fn needs_room(&self) -> bool
        ensures told { result ≡ is_some self.now.room }
        ensures wanted { result ≡ (is_some self.now.inner_room || is_heard self.now.channel) }
        ensures inner { (n : ℕ) → HasRoom self.now.room n → HasRoom self.now.inner_room n }
    {
        self.inner.needs_room()
    }
}
