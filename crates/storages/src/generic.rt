//! Reading and writing through whatever view.
ghost use Rattle.std.specs.Prelude.{refl, ◌≡◌, ◌↔◌, Option, Some, None, Ok, Err, true, false, is_some, IfOk, IfErr, IsOk, OnOk, OnErr, IsSome, option_copied};
ghost use Rattle.std.specs.Borrow.{sem};
ghost use Rattle.std.proofs.Common.{◌∙◌};
ghost use Rattle.entities.specs.declared.entity.Entity.{Entity};
ghost use Rattle.entities.specs.Census.{Census, population};
ghost use Rattle.entities.specs.Population.{generation_now, index_of};
ghost use Rattle.storages.specs.Life.{is_alive};
ghost use Rattle.storages.specs.Found.{found_in};
ghost use Rattle.storages.specs.Meaning.{HasRoom};
ghost use Rattle.storages.specs.Slot.{IsSame, Puts, Takes};
ghost use Rattle.storages.specs.Generic.{Sight, lends_seen, lends_seen_or_default};
ghost use Rattle.storages.specs.WriteView.{IsInsertError};

use crate::masked::NotLent;
use crate::read_storage::ReadStorage;
use crate::unprotected::{Component, UnprotectedStorage};
use crate::write_storage::{INSERT, InsertError, WriteStorage};
use entities::Entity;
use std::alloc::AllocError;

/// What components can be read through. Ports `specs::storage::GenericReadStorage`.
pub trait GenericReadStorage {
    /// The type of the components.
    type Component: Component;

    // The entities and the storage.
    ghost sight: { Self → Sight Self.Component };

    // The component of an entity that is alive.
    ghost found: { Self → Entity → Option Self.Component };

    // An entity that is alive finds what the storage has at its index, and any other finds nothing.
    ghost found_in_sight: { (v : Self) (e : Entity) → found v e ≡ found_in (sight v).entities (sight v).slot e };

    /// The component of an entity that is alive.
    fn get(&self, entity: Entity) -> Option<&Self::Component>
        ensures { option_copied result ≡ found self.now entity };
}

impl<'a, T: Component> GenericReadStorage for ReadStorage<'a, T>
where
    T::Storage: UnprotectedStorage<T>,
{
    type Component = T;

    ghost use Rattle.storages.specs.ReadView.{slot, entities_of, found as found_by};

    ghost sight = { λ v. record { entities = entities_of v; slot = slot v } };

    ghost found = { λ v e. found_by v e };

    ghost found_in_sight = { λ v e. refl };

    #[inline]
    fn get(&self, entity: Entity) -> Option<&T> {
        ReadStorage::get(self, entity)
    }
}

impl<'a, T: Component> GenericReadStorage for WriteStorage<'a, T>
where
    T::Storage: UnprotectedStorage<T>,
{
    type Component = T;

    ghost use Rattle.storages.specs.WriteView.{slot, entities_of, found as found_by};

    ghost sight = { λ v. record { entities = entities_of v; slot = slot v } };

    ghost found = { λ v e. found_by v e };

    ghost found_in_sight = { λ v e. refl };

    #[inline]
    fn get(&self, entity: Entity) -> Option<&T> {
        WriteStorage::get(self, entity)
    }
}

impl<S: GenericReadStorage> GenericReadStorage for &S {
    type Component = S::Component;

    ghost sight = { λ v. S.sight v.now };

    ghost found = { λ v e. S.found v.now e };

    ghost found_in_sight = { λ v e. S.found_in_sight v.now e };

    #[inline]
    fn get(&self, entity: Entity) -> Option<&S::Component> {
        (**self).get(entity)
    }
}

/// What components can be written through. Ports `specs::storage::GenericWriteStorage`.
pub trait GenericWriteStorage {
    /// The type of the components.
    type Component: Component;

    // The entities and the storage.
    ghost sight: { Self → Sight Self.Component };

    // The views are of the same storage: what is done to the later is done to the one behind the first.
    ghost SameView: { Self → Self → Type 0 };

    // Each view is one of its own storage, and a view of a later one's storage is one of the first's.
    ghost same_itself: { (v : Self) → SameView v v };

    ghost same_on: { (u v w : Self) → SameView u v → SameView v w → SameView u w };

    /// The component of an entity that is alive, to write to.
    fn get_mut(&mut self, entity: Entity) -> Result<&mut Self::Component, NotLent>
        ensures* writes_back { sem 𝓛 (lends_seen Self.row Self.Component.row sight SameView self.entry entity result) }
        ensures value { IfOk result (λ x. found_in (sight self.old).entities (sight self.old).slot entity ≡ Some x.now) }
        ensures absent { (result ≡ Err NotLent.Absent) ↔ (found_in (sight self.old).entities (sight self.old).slot entity ≡ None) }
        ensures succeeds { IsSome (found_in (sight self.old).entities (sight self.old).slot entity) → HasRoom (sight self.old).slot.room 1 → IsOk result };

    /// The component of an entity that is alive, to write to, which is a default value if there was none.
    fn get_mut_or_default(&mut self, entity: Entity) -> Result<&mut Self::Component, NotLent>
    where
        Self::Component: Default + Drop,
        ensures* writes_back { sem 𝓛 (lends_seen_or_default Self.row Self.Component.row sight SameView self.entry entity result) }
        ensures old { IfOk result (λ x. (y : Self.Component) → found_in (sight self.old).entities (sight self.old).slot entity ≡ Some y → x.now ≡ y) }
        ensures new { found_in (sight self.old).entities (sight self.old).slot entity ≡ None → IfOk result (λ x. Self.Component.is_default x.now) }
        ensures absent { (result ≡ Err NotLent.Absent) ↔ (is_alive (population (sight self.old).entities) entity ≡ false) }
        ensures succeeds { IsSome (found_in (sight self.old).entities (sight self.old).slot entity) → HasRoom (sight self.old).slot.room 1 → IsOk result };

    /// Puts a component at an entity that is alive, and answers the one that was there. After an error nothing has
    /// changed.
    fn insert(
        &mut self,
        entity: Entity,
        component: Self::Component,
    ) -> Result<Option<Self::Component>, InsertError<Self::Component>>
        ensures same_view { SameView self.old self.new }
        ensures entities { (sight self.new).entities ≡ (sight self.old).entities }
        ensures replaced { IfOk result (λ before. before ≡ found_in (sight self.old).entities (sight self.old).slot entity) }
        ensures alive { OnOk result (is_alive (population (sight self.old).entities) entity ≡ true) }
        ensures ok { OnOk result (Puts (sight self.old).slot (sight self.new).slot (index_of entity) component (is_some (found_in (sight self.old).entities (sight self.old).slot entity))) }
        ensures err { OnErr result (IsSame (sight self.old).slot (sight self.new).slot) }
        ensures succeeds { IsSome (found_in (sight self.old).entities (sight self.old).slot entity) → HasRoom (sight self.old).slot.room 1 → IsOk result }
        ensures refused { IfErr result (λ e. IsInsertError e entity component INSERT.now (is_alive (population (sight self.old).entities) entity)
            (generation_now (population (sight self.old).entities) (index_of entity))) };

    /// Takes the component of an entity that is alive out, if there is one, and lets it go. After an error nothing has
    /// changed.
    fn remove(&mut self, entity: Entity) -> Result<(), AllocError>
    where
        Self::Component: Drop,
        ensures same_view { SameView self.old self.new }
        ensures entities { (sight self.new).entities ≡ (sight self.old).entities }
        ensures removed { OnOk result (IsSome (found_in (sight self.old).entities (sight self.old).slot entity) → Takes (sight self.old).slot (sight self.new).slot (index_of entity)) }
        ensures absent { found_in (sight self.old).entities (sight self.old).slot entity ≡ None → IsOk result × ((sight self.new).slot ≡ (sight self.old).slot) }
        ensures err { OnErr result (IsSame (sight self.old).slot (sight self.new).slot) }
        ensures succeeds { HasRoom (sight self.old).slot.room 1 → IsOk result };
}

impl<'a, T: Component + Drop> GenericWriteStorage for WriteStorage<'a, T>
where
    T::Storage: UnprotectedStorage<T>,
{
    type Component = T;

    ghost use Rattle.storages.specs.WriteView.{slot, entities_of, storage_name};

    ghost sight = { λ v. record { entities = entities_of v; slot = slot v } };

    ghost SameView = { λ v w. storage_name w ≡ storage_name v };

    ghost same_itself = { λ v. refl };

    ghost same_on = { λ u v w a b. b ∙ a };

    #[inline]
    fn get_mut(&mut self, entity: Entity) -> Result<&mut T, NotLent> {
        WriteStorage::get_mut(self, entity)
    }

    #[inline]
    fn insert(&mut self, entity: Entity, component: T) -> Result<Option<T>, InsertError<T>> {
        WriteStorage::insert(self, entity, component)
    }

    #[inline]
    fn get_mut_or_default(&mut self, entity: Entity) -> Result<&mut T, NotLent>
    where
        T: Default + Drop,
    {
        WriteStorage::get_mut_or_default(self, entity)
    }

    #[inline]
    fn remove(&mut self, entity: Entity) -> Result<(), AllocError>
    where
        T: Drop,
    {
        match WriteStorage::remove(self, entity) {
            Ok(_) => Ok(()),
            Err(e) => Err(e),
        }
    }
}

impl<S: GenericWriteStorage> GenericWriteStorage for &mut S {
    type Component = S::Component;

    ghost sight = { λ v. S.sight v.now };

    ghost SameView = { λ v w. (w.ghost_name ≡ v.ghost_name) × S.SameView v.now w.now };

    ghost same_itself = { λ v. (refl, S.same_itself v.now) };

    ghost same_on = { λ u v w a b. (b.0 ∙ a.0, S.same_on u.now v.now w.now a.1 b.1) };

    #[inline]
    fn get_mut(&mut self, entity: Entity) -> Result<&mut S::Component, NotLent> {
        (**self).get_mut(entity)
    }

    #[inline]
    fn get_mut_or_default(&mut self, entity: Entity) -> Result<&mut S::Component, NotLent>
    where
        S::Component: Default + Drop,
    {
        (**self).get_mut_or_default(entity)
    }

    #[inline]
    fn insert(
        &mut self,
        entity: Entity,
        component: S::Component,
    ) -> Result<Option<S::Component>, InsertError<S::Component>> {
        (**self).insert(entity, component)
    }

    #[inline]
    fn remove(&mut self, entity: Entity) -> Result<(), AllocError>
    where
        S::Component: Drop,
    {
        (**self).remove(entity)
    }
}
