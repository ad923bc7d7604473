//! The removal of the components of many entities, whatever their type.
ghost use Rattle.std.specs.Prelude.{◌≡◌, ℕ, Bool, false, cond, List, IsOk, OnOk, OnErr, length};
ghost use Rattle.entities.specs.Deaths.{has_index};
ghost use Rattle.entities.specs.declared.entity.Entity.{Entity};
ghost use Rattle.storages.specs.Meaning.{HasRoom};

use crate::masked::MaskedStorage;
use crate::unprotected::{Component, UnprotectedStorage};
use entities::Entity;
use std::alloc::AllocError;

/// A storage of components of whatever type. Ports `specs::storage::AnyStorage`.
pub trait AnyStorage {
    // Nothing changed that a caller can see.
    ghost IsUnchanged: { Self → Self → Type 0 };

    // There is room for the events of the removal of these entities' components.
    ghost IsReadyFor: { Self → List Entity → Type 0 };

    // The storage lost the components of these entities' indices.
    ghost HasLost: { Self → Self → List Entity → Type 0 };

    // Whether an index has a component.
    ghost has: { Self → ℕ → Bool };

    // What is unchanged has the same indices.
    ghost stays: { (s t : Self) → IsUnchanged s t → (q : ℕ) → has t q ≡ has s q };

    // What lost the components of entities has none at their indices, and at each other one if there was one.
    ghost loses: { (s t : Self) (es : List Entity) → HasLost s t es → (q : ℕ) → has t q ≡ cond (has_index es q) false (has s q) };

    /// Makes room for the events of a removal.
    fn reserve_drop(&mut self, list: &[Entity]) -> Result<(), AllocError>
        ensures same { IsUnchanged self.old self.new }
        ensures ok { OnOk result (IsReadyFor self.new list.now) }
        ensures succeeds { IsReadyFor self.old list.now → IsOk result };

    /// Takes the components of the indices of these entities out, in the list's order, whether the entities live or not.
    /// After an error nothing has changed.
    fn drop(&mut self, list: &[Entity])
        requires { IsReadyFor self.old list.now }
        ensures { HasLost self.old self.new list.now };
}

impl<T: Component> AnyStorage for MaskedStorage<T>
where
    T::Storage: UnprotectedStorage<T>,
{
    ghost use Rattle.storages.specs.Slot.{IsSame};
    ghost use Rattle.storages.specs.Removals.{Loses, unless_lost};
    ghost use Rattle.std.specs.FinMap as map;
    ghost use Rattle.std.proofs.Common.{ap, ◌∙◌, is_some};

    ghost IsUnchanged = { λ s t. IsSame s t };

    ghost IsReadyFor = { λ s es. HasRoom s.room (length es) };

    ghost HasLost = { λ s t es. Loses s t es };

    ghost has = { λ s q. is_some (map.get s.map q) };

    ghost stays = { λ s t same q. ap (λ m. is_some (map.get m q)) same.map };

    ghost loses = { λ s t es lost q. ap is_some (lost.get q) ∙ unless_lost (has_index es q) (map.get s.map q) };

    fn reserve_drop(&mut self, list: &[Entity]) -> Result<(), AllocError> {
        self.reserve_events(list.len())
    }

    fn drop(&mut self, list: &[Entity]) {
        self.drop_all(list);
    }
}

impl<T: Component> MaskedStorage<T>
where
    T::Storage: UnprotectedStorage<T>,
{
    ghost use Rattle.storages.specs.Removals.{Loses};

    /// Takes the components of the indices of these entities out, in the list's order, in room that is there for the
    /// events.
    pub fn drop_all(&mut self, list: &[Entity])
        requires { HasRoom self.old.room (length list.now) }
        ensures { Loses self.old self.new list.now }
    {
        for e in list {
            let id = e.id();
            if self.contains(id) {
                self.drop_present(id);
            }
        }
    }
}
