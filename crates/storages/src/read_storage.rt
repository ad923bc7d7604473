//! A storage to read, beside the entities.
ghost use Rattle.std.specs.Prelude.{length, ◌↔◌, IsTrue, ◌≡◌, ℕ, None, true, IsSome, is_some, option_copied, ⊤};
ghost use Rattle.std.specs.FinMap as map;
ghost use Rattle.std.specs.FinSet as set;
ghost use Rattle.storages.specs.Slot.{indices_of};

use crate::life::is_living;
use crate::masked::MaskedStorage;
use crate::unprotected::{Component, UnprotectedStorage};
use entities::{EntitiesRes, Entity};
use hibits::BitSet;
use std::alloc::AllocError;

/// A storage to read, beside the entities that its components belong to. An entity that is not alive reaches nothing.
/// Ports `specs::ReadStorage`.
#[derive(Drop)]
pub struct ReadStorage<'a, T: Component> {
    entities: &'a EntitiesRes,
    data: &'a MaskedStorage<T>,
}

/// A second view of the same storage. It takes no memory, and so is never refused.
impl<T: Component> Clone for ReadStorage<'_, T> {
    ghost is_clone = { λ a b. a ≡ b };

    ghost is_infallible = { λ _. ⊤ };

    fn clone(&self) -> Result<Self, AllocError> {
        Ok(ReadStorage {
            entities: self.entities,
            data: self.data,
        })
    }
}

impl<'a, T: Component> ReadStorage<'a, T> {
    ghost use Rattle.storages.specs.ReadView.{slot, entities_of, found};

    /// A view of a storage.
    pub fn new(entities: &'a EntitiesRes, masked: &'a MaskedStorage<T>) -> Self
        ensures slot { slot result ≡ masked.now }
        ensures entities { entities_of result ≡ entities.now }
    {
        ReadStorage {
            entities,
            data: masked,
        }
    }

    /// Whether the entity is alive and has a component.
    #[inline(always)]
    pub fn contains(&self, entity: Entity) -> bool
        ensures { result ≡ is_some (found self.now entity) }
    {
        is_living(self.entities, entity) && self.data.contains(entity.id())
    }

    /// The storage without the entities, to read.
    #[inline(always)]
    pub fn storage(&self) -> &MaskedStorage<T>
        ensures { result.now ≡ slot self.now }
    {
        self.data
    }

    /// The indices that have a component.
    #[inline(always)]
    pub fn mask(&self) -> &BitSet
        ensures { (q : ℕ) → set.contains result.now.members q ≡ map.contains_key (slot self.now).map q }
    {
        self.data.mask()
    }

    /// How many indices have a component. It reads the words of the mask.
    pub fn count(&self) -> usize
        ensures { result ≡ length (indices_of (slot self.now)) }
    {
        self.data.count()
    }

    /// Whether no index has a component.
    #[inline(always)]
    pub fn is_empty(&self) -> bool
        ensures { IsTrue result ↔ ((slot self.now).map ≡ map.empty) }
    {
        self.data.is_empty()
    }

    /// The storage without its mask.
    pub fn unprotected_storage(&self) -> &T::Storage
        ensures present { (q : ℕ) → IsSome (map.get (slot self.now).map q) → (T.Storage.meaning result.now).at q ≡ map.get (slot self.now).map q }
        ensures absent { (q : ℕ) → map.get (slot self.now).map q ≡ None → (T.Storage.meaning result.now).is_free q ≡ true }
        ensures extent { (T.Storage.meaning result.now).extent ≡ (slot self.now).extent }
        ensures order { (T.Storage.meaning result.now).order ≡ (slot self.now).order }
        ensures channel { (T.Storage.meaning result.now).channel ≡ (slot self.now).channel }
        ensures room { (T.Storage.meaning result.now).room ≡ (slot self.now).room }
        ensures inner_room { (T.Storage.meaning result.now).inner_room ≡ (slot self.now).inner_room }
    {
        self.data.unprotected_storage()
    }

    /// The entities.
    #[inline(always)]
    pub fn fetched_entities(&self) -> &'a EntitiesRes
        ensures { result.now ≡ entities_of self.now }
    {
        self.entities
    }
}

impl<'a, T: Component> ReadStorage<'a, T>
where
    T::Storage: UnprotectedStorage<T>,
{
    ghost use Rattle.storages.specs.ReadView.{found};

    /// The component of an entity that is alive.
    #[inline(always)]
    pub fn get(&self, entity: Entity) -> Option<&T>
        ensures { option_copied result ≡ found self.now entity }
    {
        if is_living(self.entities, entity) {
            self.data.get(entity.id())
        } else {
            None
        }
    }
}
