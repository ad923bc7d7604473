//! Restricted storages to read, as joins: they give a view of the storage from an index on which it has a component.
ghost use Rattle.std.specs.Prelude.{◌≡◌, true, Some, length, option_copied, refl};
ghost use Rattle.hibits.specs.Left.{left};
ghost use Rattle.std.specs.FinMap as map;

use crate::join::Join;
use crate::living::is_living;
use crate::lookup::Lookup;
use crate::repeatable::RepeatableJoin;
use entities::{EntitiesRes, Entity};
use hibits::{BitSet, Index};
use storages::{Component, MaskedStorage, ReadStorage, UnprotectedStorage, WriteStorage};

/// A storage to read, whose components are looked at where they are asked for. Ports `specs::storage::RestrictedStorage`.
#[derive(Drop)]
pub struct RestrictedStorage<'a, T: Component> {
    entities: &'a EntitiesRes,
    storage: &'a MaskedStorage<T>,
}

/// A storage, and an index at which it has a component. Ports `specs::storage::PairedStorage`.
#[derive(Drop)]
pub struct PairedStorage<'a, T: Component> {
    entities: &'a EntitiesRes,
    storage: &'a MaskedStorage<T>,
    id: Index,
    ghost there: { map.contains_key storage.now.map id ≡ true },
}

impl<'a, T: Component> RestrictedStorage<'a, T> {
    ghost use Rattle.joins.specs.Restricted.{slot, entities_of, paired_slot, paired_index, paired_entities};

    /// A restricted view of a storage.
    #[inline(always)]
    pub fn new(entities: &'a EntitiesRes, storage: &'a MaskedStorage<T>) -> Self
        ensures slot { slot result ≡ storage.now }
        ensures entities { entities_of result ≡ entities.now }
    {
        RestrictedStorage { entities, storage }
    }

    // The storage with an index at which it has a component.
    #[inline(always)]
    fn paired(&self, id: Index) -> PairedStorage<'_, T>
        requires { map.contains_key (slot self.now).map id ≡ true }
        ensures index { paired_index result ≡ id }
        ensures slot { paired_slot result ≡ slot self.now }
        ensures entities { paired_entities result ≡ entities_of self.now }
    {
        PairedStorage {
            entities: self.entities,
            storage: self.storage,
            id,
        }
    }
}

impl<'a, T: Component> PairedStorage<'a, T>
where
    T::Storage: UnprotectedStorage<T>,
{
    ghost use Rattle.joins.specs.Restricted.{paired_slot, paired_index, paired_found};

    /// The component at the index that the join gave this for.
    #[inline(always)]
    pub fn get_unchecked(&self) -> &T
        ensures { map.get (paired_slot self.now).map (paired_index self.now) ≡ Some result.now }
    {
        self.storage.unprotected_storage().get(self.id)
    }

    /// The component of any entity that is alive.
    #[inline(always)]
    pub fn get(&self, entity: Entity) -> Option<&T>
        ensures { option_copied result ≡ paired_found self.now entity }
    {
        if is_living(self.entities, entity) {
            self.storage.get(entity.id())
        } else {
            None
        }
    }
}

impl<'a, 'b, T: Component> Join for &'b RestrictedStorage<'a, T> {
    ghost use Rattle.joins.specs.Restricted.{slot, entities_of, paired_slot, paired_index, paired_entities};

    type Type = PairedStorage<'b, T>;

    type Value = &'b RestrictedStorage<'a, T>;

    type Mask = &'b BitSet;

    ghost has = { λ j i. map.contains_key (slot j.now).map i };

    ghost cost = { λ _. 1 };

    ghost most = { λ j. length (left (λ i. map.contains_key (slot j.now).map i) 0) };

    ghost repeats = { true };

    ghost gives = { λ j i r. (paired_index r ≡ i) × (paired_slot r ≡ slot j.now) × (paired_entities r ≡ entities_of j.now) };

    ghost can_get = { λ v i. map.contains_key (slot v.now).map i };

    ghost value_gives = { λ v i r. (paired_index r ≡ i) × (paired_slot r ≡ slot v.now) × (paired_entities r ≡ entities_of v.now) };

    #[inline(always)]
    fn open(self) -> (&'b BitSet, &'b RestrictedStorage<'a, T>) {
        let mask = self.storage.mask();
        mask.sized();
        (mask, self)
    }

    #[inline(always)]
    fn get(value: &mut &'b RestrictedStorage<'a, T>, id: Index) -> PairedStorage<'b, T> {
        let view: &'b RestrictedStorage<'a, T> = *value;
        view.paired(id)
    }

    #[inline(always)]
    fn is_unconstrained() -> bool {
        false
    }
}

impl<'a, 'b, T: Component> Lookup<PairedStorage<'b, T>> for &'b RestrictedStorage<'a, T> {
    ghost use Rattle.joins.specs.Restricted.{slot, entities_of, paired_slot, paired_index, paired_entities};

    ghost can_look = { λ v i. map.contains_key (slot v.now).map i };

    ghost finds = { λ v i r. (paired_index r ≡ i) × (paired_slot r ≡ slot v.now) × (paired_entities r ≡ entities_of v.now) };

    #[inline(always)]
    fn at(&self, id: Index) -> PairedStorage<'b, T> {
        let view: &'b RestrictedStorage<'a, T> = *self;
        view.paired(id)
    }
}

impl<'a, 'b, T: Component> RepeatableJoin for &'b RestrictedStorage<'a, T> {
    ghost again = { refl };

    ghost ready = { λ v i h. h };

    ghost same = { λ v i r h. h };
}

/// What can be restricted to reading.
pub trait Restrict<T: Component> {
    /// A restricted view of the storage, to be joined by reference. Ports `specs::Storage::restrict`.
    fn restrict(&self) -> RestrictedStorage<'_, T>;
}

impl<'a, T: Component> Restrict<T> for ReadStorage<'a, T> {
    ghost use Rattle.joins.specs.Restricted.{slot, entities_of};
    ghost use Rattle.storages.specs.ReadView as reading;

    #[inline(always)]
    fn restrict(&self) -> RestrictedStorage<'_, T>
        ensures slot { slot result ≡ reading.slot self.now }
        ensures entities { entities_of result ≡ reading.entities_of self.now }
    {
        RestrictedStorage::new(self.fetched_entities(), self.storage())
    }
}

impl<'a, T: Component> Restrict<T> for WriteStorage<'a, T> {
    ghost use Rattle.joins.specs.Restricted.{slot, entities_of};
    ghost use Rattle.storages.specs.WriteView as writing;

    #[inline(always)]
    fn restrict(&self) -> RestrictedStorage<'_, T>
        ensures slot { slot result ≡ writing.slot self.now }
        ensures entities { entities_of result ≡ writing.entities_of self.now }
    {
        RestrictedStorage::new(self.fetched_entities(), self.storage())
    }
}
