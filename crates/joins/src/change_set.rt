//! Values that were added to entities, until someone applies them.
ghost use Rattle.std.specs.Prelude.{◌≡◌, ◌↔◌, ◌≤◌, ℕ, None, Some, Err, option_copied, IsSome, IfSome, IfNone, OnOk, OnErr, IfOk, IfErr};
ghost use Rattle.std.specs.Borrow.{sem};
ghost use Rattle.std.specs.FinMap as map;
ghost use Rattle.std.specs.FinSet as set;
ghost use Rattle.entities.specs.Population.{index_of};
ghost use Rattle.storages.specs.Limit.{IsIndex};
ghost use Rattle.joins.specs.Changes.{with_change, all_changed, StopsIn, value_at};

use crate::combine::Combine;
use entities::Entity;
use hibits::{BitSet, INDEX_LIMIT, Index};
use std::alloc::{AllocError, Global};
use std::marker::Model;
use storages::{Component, MaskedStorage, TryDefault, UnprotectedStorage, VecStorage};

/// Why a value was not added. The change set is as before.
#[derive(Clone, Copy, Debug, PartialEq, Eq, thiserror::Error)]
pub enum ChangeError {
    /// The value that is there refused to take the new one in.
    #[error("the value refuses to combine with another")]
    Refused,
    /// The entity's index is not below `INDEX_LIMIT`.
    #[error("the index is not below the limit")]
    IndexLimit,
    /// Memory was refused for the entity's first value.
    #[error("out of memory")]
    OutOfMemory,
}

// What a change set keeps at an index.
#[derive(Drop)]
pub struct Change<T> {
    pub(crate) value: T,
}

impl<T: Drop> Component for Change<T> {
    type Storage = VecStorage<Self>;
}

/// For each entity's index the values that were added there, combined in the order of the calls. Only the index of an entity counts.
///
/// Each value lies at the place of its index, so that an addition to one that is there is one look, and a join reads them in order. It takes the
/// room of an `Option` of a value (16 bytes for a number of 64 bits) for each index up to the greatest that had one since it was last cleared,
/// and as it grows up to four times that.
///
/// Contracts see it as a finite map from indices to values. Ports `specs::changeset::ChangeSet`.
pub struct ChangeSet<T: Drop> {
    changes: MaskedStorage<Change<T>>,
}

impl<T: Drop> Drop for ChangeSet<T> {
    fn drop(self) {
        let ChangeSet { changes: _changes } = self;
    }
}

impl<T: Drop> Model for ChangeSet<T> {
    ghost use Rattle.std.specs.Prelude.{◌≡◌, false, is_some};
    ghost use Rattle.std.specs.Coded.{coded_ℕ};
    ghost use Rattle.std.specs.Ordering.{nat_cmp};
    ghost use Rattle.std.specs.FinMap as map;
    ghost use Rattle.joins.specs.Held.{held};

    ghost Value = { map.FinMap nat_cmp T };

    ghost coded = { map.code coded_ℕ T.code };

    ghost view = { λ s. held s.changes.map };

    ghost invariant = { λ s. is_some s.changes.room ≡ false };
}

impl<T: Combine + Drop> ChangeSet<T> {
    ghost use Rattle.joins.specs.ChangeLends.{lends_change};
    ghost use Rattle.joins.specs.Given.{value_given};

    /// Without values.
    pub fn new(alloc: Global) -> Self
        ensures { result ≡ map.empty }
    {
        let Ok(values) = VecStorage::try_default(alloc) else {
            unreachable!()
        };
        ChangeSet {
            changes: MaskedStorage::new(alloc, values),
        }
    }

    /// Adds a value at an entity's index, to the one that is there, if there is one. It takes memory only where there is none.
    #[inline(always)]
    pub fn add(&mut self, entity: Entity, value: T) -> Result<(), ChangeError>
        ensures ok { OnOk result (self.new ≡ with_change T.combined self.old (index_of entity) value) }
        ensures err { OnErr result (self.new ≡ self.old) }
        ensures refused { (result ≡ Err ChangeError.Refused) → value_at self.old (index_of entity) (λ x. T.may_refuse x value) }
        ensures limit { (result ≡ Err ChangeError.IndexLimit) ↔ (INDEX_LIMIT ≤ index_of entity) }
        ensures memory { (result ≡ Err ChangeError.OutOfMemory) → map.get self.old (index_of entity) ≡ None }
    {
        let id = entity.id();
        if id >= INDEX_LIMIT {
            return Err(ChangeError::IndexLimit);
        }
        if is_there(&self.changes, id) {
            return self.combine_at(id, value);
        }
        match self.changes.insert(id, Change { value }) {
            Ok(()) => {}
            Err(_) => return Err(ChangeError::OutOfMemory),
        }
        Ok(())
    }

    // Adds a value to the one that is there.
    #[inline(always)]
    fn combine_at(&mut self, id: Index, value: T) -> Result<(), ChangeError>
        requires { IsSome (map.get self.old id) }
        ensures ok { OnOk result (self.new ≡ with_change T.combined self.old id value) }
        ensures err { OnErr result (self.new ≡ self.old) }
        ensures refused { OnErr result (value_at self.old id (λ x. T.may_refuse x value)) }
        ensures error { IfErr result (λ e. e ≡ ChangeError.Refused) }
    {
        let Ok(change) = self.changes.present_mut(id) else {
            unreachable!()
        };
        match change.value.combine(value) {
            Ok(()) => {}
            Err(_) => return Err(ChangeError::Refused),
        }
        Ok(())
    }

    /// Adds the values of a list, in its order, until one is refused. What came before it stays added.
    pub fn extend(&mut self, list: Vec<(Entity, T)>) -> Result<(), ChangeError>
        ensures ok { OnOk result (self.new ≡ all_changed T.combined list.items self.old) }
        ensures err { IfErr result (StopsIn T.combined T.may_refuse list.items self.old self.new) }
    {
        for (entity, value) in list {
            self.add(entity, value)?;
        }
        Ok(())
    }

    /// A change set with the values of a list, added in its order. Where one is refused there is no change set.
    pub fn from_list(alloc: Global, list: Vec<(Entity, T)>) -> Result<Self, ChangeError>
        ensures ok { IfOk result (λ s. s ≡ all_changed T.combined list.items map.empty) }
        ensures err { IfErr result (λ e. (m : _) × StopsIn T.combined T.may_refuse list.items map.empty m e) }
    {
        let mut changes = ChangeSet::new(alloc);
        changes.extend(list)?;
        Ok(changes)
    }

    /// The indices that have a value.
    #[inline(always)]
    pub fn mask(&self) -> &BitSet
        ensures { (q : ℕ) → set.contains result.now.members q ≡ map.contains_key self.now q }
    {
        self.changes.mask()
    }

    // The indices that have a value, and the values, apart.
    #[inline(always)]
    pub(crate) fn into_parts(self) -> (BitSet, VecStorage<Change<T>>)
        ensures mask { (q : ℕ) → set.contains result.0.members q ≡ map.contains_key self q }
        ensures values { (q : ℕ) → value_given result.1 q ≡ map.get self q }
    {
        let ChangeSet { changes } = self;
        changes.into_parts()
    }

    // The value of an index that has one.
    #[inline(always)]
    pub(crate) fn present(&self, id: Index) -> &T
        requires { IsSome (map.get self.now id) }
        ensures { map.get self.now id ≡ Some result.now }
    {
        &self.changes.unprotected_storage().get(id).value
    }

    /// The value of an index.
    #[inline(always)]
    pub fn get(&self, id: Index) -> Option<&T>
        ensures { option_copied result ≡ map.get self.now id }
    {
        match self.changes.get(id) {
            Some(change) => Some(&change.value),
            None => None,
        }
    }

    /// The value of an index, to write to. It takes no memory.
    #[inline(always)]
    pub fn get_mut(&mut self, id: Index) -> Option<&mut T>
        ensures* writes_back { sem 𝓛 (lends_change T.row self.entry id result) }
        ensures value { IfSome result (λ x. map.get self.old id ≡ Some x.now) }
        ensures absent { IfNone result (map.get self.old id ≡ None) }
    {
        match self.changes.get_mut(id) {
            Ok(change) => Some(&mut change.value),
            Err(_) => None,
        }
    }

    /// Takes every value out.
    pub fn clear(&mut self)
        ensures { self.new ≡ map.empty }
    {
        match self.changes.clear() {
            Ok(()) => {}
            Err(_) => unreachable!(),
        }
    }
}

// Whether there is a value at an index. Its place tells, so the mask is not asked.
#[inline(always)]
fn is_there<T: Drop>(changes: &MaskedStorage<Change<T>>, id: Index) -> bool
    ensures { result ≡ map.contains_key changes.now.map id }
{
    match changes.as_slice().get(id as usize) {
        Some(place) => place.is_some(),
        None => false,
    }
}
