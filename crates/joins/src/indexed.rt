//! A storage to read, with an index of it.
ghost use Rattle.std.specs.Prelude.{◌≡◌, ℕ, Some, None, true, false, IfSome, IfNone, option_copied};
ghost use Rattle.std.specs.FinMap as map;
ghost use Rattle.entities.specs.Census.{population};
ghost use Rattle.entities.specs.Population.{index_of, IsAlive};

use entities::{EntitiesRes, Entity};
use hibits::Index;
use std::marker::Model;
use storages::{Component, MaskedStorage, UnprotectedStorage};

/// A storage to read, with an index that has a component: what a restricted storage gives at its index, to look before it is written.
///
/// Contracts see it as the storage's value and the index. It stands for `specs::storage::PairedStorage` where no entities are at hand: `get` is passed them.
#[derive(Drop)]
pub struct IndexedStorage<'a, T: Component> {
    storage: &'a MaskedStorage<T>,
    index: Index,
}

impl<'a, T: Component> Model for IndexedStorage<'a, T> {
    ghost use Rattle.std.specs.Prelude.{◌≡◌, true};
    ghost use Rattle.std.specs.FinMap as map;
    ghost use Rattle.joins.specs.Indexed.{Indexed, indexed_code};

    ghost Value = { Indexed T };

    ghost coded = { indexed_code T.code };

    ghost view = { λ p. record { slot = p.storage.now; index = p.index } };

    ghost invariant = { λ p. map.contains_key p.storage.now.map p.index ≡ true };
}

impl<'a, T: Component> IndexedStorage<'a, T> {
    /// A storage with an index that has a component.
    #[inline(always)]
    pub fn new(storage: &'a MaskedStorage<T>, index: Index) -> Self
        requires { map.contains_key storage.now.map index ≡ true }
        ensures slot { result.slot ≡ storage.now }
        ensures index { result.index ≡ index }
    {
        IndexedStorage { storage, index }
    }

    /// The index.
    #[inline(always)]
    pub fn index(&self) -> Index
        ensures { result ≡ self.now.index }
    {
        self.index
    }

    /// The component of the index, which is there: nothing is looked up.
    #[inline(always)]
    pub fn get_unchecked(&self) -> &T
    where
        T::Storage: UnprotectedStorage<T>,
        ensures { map.get self.now.slot.map self.now.index ≡ Some result.now }
    {
        self.storage.unprotected_storage().get(self.index)
    }

    /// The component of an entity, if it is alive and has one.
    #[inline(always)]
    pub fn get(&self, entity: Entity, entities: &EntitiesRes) -> Option<&T>
    where
        T::Storage: UnprotectedStorage<T>,
        ensures present { IfSome result (λ r. IsAlive (population entities.now) entity × (map.get self.now.slot.map (index_of entity) ≡ Some r.now)) }
        ensures absent { IfNone result (IsAlive (population entities.now) entity → map.get self.now.slot.map (index_of entity) ≡ None) }
    {
        if !entities.is_alive(entity) {
            return None;
        }
        self.storage.get(entity.id())
    }
}
