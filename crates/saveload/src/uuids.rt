//! Markers that are identifiers of sixteen random bytes.
ghost use Rattle.std.specs.Prelude.{◌≡◌, ◌⊎◌, true, false, Option, Some, None, Ok, Err, IfOk, IfErr, OnOk, OnErr, is_some, ⊤, refl};
ghost use Rattle.entities.specs.Census.{population};
ghost use Rattle.storages.specs.Life.{is_alive};
ghost use Rattle.storages.specs.Slot.{IsSame};
ghost use Rattle.storages.specs.WriteView.{slot, entities_of, found, storage_name};
ghost use Rattle.saveload.specs.Naming.{put_id};
ghost use Rattle.saveload.specs.Marking.{MarksNew, MayHaveGiven, IsOfIds};
ghost use Rattle.saveload.specs.Remapping.{living_ids};
ghost use Rattle.saveload.specs.Uuids.{same_uuids, same_bytes, drawn_from, after_draw, IsDrawn};
ghost use Rattle.std.specs.HashMap as hash;

use crate::mark_error::MarkError;
use crate::marker::{IdSupply, Marker, MarkerAllocator};
use crate::remapping::remapped;
use entities::{EntitiesRes, Entity};
use rand_core::Rng;
use std::alloc::{AllocError, Global};
use std::collections::HashMap;
use std::hash::Hash;
use std::marker::PhantomData;
use storages::{Component, MaskedStorage, VecStorage, WriteStorage};
use uuid::Uuid;

/// A marker that is an identifier of sixteen bytes, drawn from a generator `R`. Ports `specs::saveload::UuidMarker`.
#[derive_where(PartialEq, Eq, Hash)]
pub struct UuidMarker<R> {
    uuid: Uuid,
    generator: PhantomData<R>,
}

impl<R> UuidMarker<R> {
    /// The marker of an identifier.
    pub fn new(uuid: Uuid) -> Self
        ensures { result.uuid ≡ uuid }
    {
        UuidMarker {
            uuid,
            generator: PhantomData,
        }
    }

    /// Its identifier.
    pub fn uuid(&self) -> Uuid
        ensures { result ≡ self.now.uuid }
    {
        self.uuid
    }
}

impl<R: Rng> UuidMarker<R> {
    /// A marker whose identifier is drawn from a generator.
    pub fn new_random(generator: &mut R) -> Self
        ensures drawn { result.uuid ≡ drawn_from (R.stream generator.old) }
        ensures after { R.stream generator.new ≡ after_draw (R.stream generator.old) }
    {
        UuidMarker::new(Uuid::new_v4(generator))
    }
}

impl<R> Clone for UuidMarker<R> {
    ghost is_clone = { λ a b. a ≡ b };

    ghost is_infallible = { λ _. ⊤ };

    fn clone(&self) -> Result<Self, AllocError> {
        Ok(UuidMarker::new(self.uuid))
    }
}

impl<R> Copy for UuidMarker<R> {}

impl<R> Component for UuidMarker<R> {
    type Storage = VecStorage<Self>;
}

impl<R> Marker for UuidMarker<R> {
    type Identifier = Uuid;

    type Allocator = UuidMarkerAllocator<R>;

    ghost id_of = { λ m. m.uuid };

    ghost updated = { λ old new. new };

    fn id(&self) -> Uuid {
        self.uuid
    }

    /// The newer marker stays.
    fn update(&mut self, new: Self) {
        *self = new;
    }

    ghost same_ids = { same_uuids };
}

/// Gives identifiers that a generator draws. Ports `specs::saveload::UuidMarkerAllocator`, into which the generator is handed.
pub struct UuidMarkerAllocator<R> {
    generator: R,
    mapping: HashMap<Uuid, Entity>,
}

impl<R: Drop> Drop for UuidMarkerAllocator<R> {
    fn drop(self) {
        let UuidMarkerAllocator {
            generator: _generator,
            mapping: _mapping,
        } = self;
    }
}

impl<R> UuidMarkerAllocator<R> {
    ghost use Rattle.saveload.specs.Uuids.{given_uuids};

    /// One that has given no identifier. It takes no memory.
    pub fn new(alloc: Global, generator: R) -> Self
        ensures mapping { (id : _) → given_uuids result id ≡ None }
        ensures generator { result.generator ≡ generator }
    {
        UuidMarkerAllocator {
            generator,
            mapping: HashMap::new(alloc),
        }
    }
}

impl<R> UuidMarkerAllocator<R> {
    ghost use Rattle.saveload.specs.Uuids.{given_uuids};

    // Maps an identifier to an entity.
    fn map_to(&mut self, id: Uuid, entity: Entity) -> Result<UuidMarker<R>, MarkError>
        ensures id { IfOk result (λ m. m.uuid ≡ id) }
        ensures mapped { OnOk result (given_uuids self.new ≡ put_id (⟦<Uuid as PartialEq>⟧.eq) (given_uuids self.old) id entity) }
        ensures err { OnErr result (given_uuids self.new ≡ given_uuids self.old) }
        ensures refused { IfErr result (λ e. e ≡ MarkError.OutOfMemory) }
        ensures generator { self.new.generator ≡ self.old.generator }
    {
        if self.mapping.insert(id, entity).is_err() {
            return Err(MarkError::OutOfMemory);
        }
        Ok(UuidMarker::new(id))
    }
}

// A new identifier, which names nobody. The bytes that were drawn are used up.
fn draw<R: Rng>(generator: &mut R, mapping: &HashMap<Uuid, Entity>) -> Result<Uuid, MarkError>
    ensures new { IfOk result (λ id. IsDrawn (hash.get same_bytes mapping.now) (R.stream generator.old) id) }
    ensures taken { IfErr result (λ e. (e ≡ MarkError.IdTaken) × (is_some (hash.get same_bytes mapping.now (drawn_from (R.stream generator.old))) ≡ true)) }
    ensures after { R.stream generator.new ≡ after_draw (R.stream generator.old) }
{
    let id = Uuid::new_v4(generator);
    if mapping.contains_key(&id) {
        return Err(MarkError::IdTaken);
    }
    Ok(id)
}

impl<R> IdSupply<UuidMarker<R>> for UuidMarkerAllocator<R> {
    ghost ids = { λ a. None };

    ghost ComesNext = { λ left m. left ≡ None };
}

impl<R: Rng> MarkerAllocator<UuidMarker<R>> for UuidMarkerAllocator<R> {
    ghost use Rattle.saveload.specs.Uuids.{given_uuids, uuid_of_marker};

    ghost mapping = { λ a. given_uuids a };

    ghost MayBeNew = { λ a id. IsDrawn (given_uuids a) (R.stream a.generator) id };

    ghost ids_past = { λ a ids. None };

    ghost ids_now = { λ a. refl };

    ghost comes = { λ a m e. refl };

    ghost coming = { λ a. drawn_from (R.stream a.generator) };

    ghost new_is_coming = { λ a id drawn. drawn.0 };

    ghost unmapped = { λ a id counted drawn. drawn.1 };

    fn allocate(&mut self, entity: Entity, id: Option<Uuid>) -> Result<UuidMarker<R>, MarkError>
        ensures given { (i : _) → id ≡ Some i → IfOk result (λ m. m.uuid ≡ i) }
        ensures new { id ≡ None → IfOk result (λ m. IsDrawn (given_uuids self.old) (R.stream self.old.generator) m.uuid) }
        ensures mapped { IfOk result (λ m. given_uuids self.new ≡ put_id (⟦<Uuid as PartialEq>⟧.eq) (given_uuids self.old) m.uuid entity) }
        ensures err { OnErr result (given_uuids self.new ≡ given_uuids self.old) }
        ensures refused { IfErr result IsOfIds }
        ensures given_refused { (i : _) → id ≡ Some i → IfErr result (λ e. e ≡ MarkError.OutOfMemory) }
        ensures taken { result ≡ Err MarkError.IdTaken → (id ≡ None) × (is_some (given_uuids self.old (drawn_from (R.stream self.old.generator))) ≡ true) }
        ensures never_used_up { result ≡ Err MarkError.IdsExhausted → ⊥ }
        ensures draws { id ≡ None → R.stream self.new.generator ≡ after_draw (R.stream self.old.generator) }
        ensures draws_none { (i : _) → id ≡ Some i → self.new.generator ≡ self.old.generator }
    {
        match id {
            Some(given) => self.map_to(given, entity),
            None => {
                let drawn = draw(&mut self.generator, &self.mapping)?;
                self.map_to(drawn, entity)
            }
        }
    }

    fn retrieve_entity_internal(&self, id: Uuid) -> Option<Entity> {
        self.mapping.get(&id).copied()
    }

    /// As the trait says. Nothing is drawn.
    fn maintain(
        &mut self,
        alloc: Global,
        entities: &EntitiesRes,
        storage: &MaskedStorage<UuidMarker<R>>,
    ) -> Result<(), AllocError>
        ensures ok { OnOk result (given_uuids self.new ≡ living_ids uuid_of_marker (⟦<Uuid as PartialEq>⟧.eq) (population entities.now) storage.now) }
        ensures err { OnErr result (given_uuids self.new ≡ given_uuids self.old) }
        ensures generator { self.new.generator ≡ self.old.generator }
    {
        self.mapping = remapped(alloc, entities, storage)?;
        Ok(())
    }

    /// As the trait says. Where memory is refused, no identifier is mapped; the bytes that were drawn are used up.
    fn mark(
        &mut self,
        entity: Entity,
        storage: &mut WriteStorage<'_, UuidMarker<R>>,
    ) -> Result<Option<bool>, MarkError>
        ensures same_reference { storage_name storage.new ≡ storage_name storage.old }
        ensures entities { entities_of storage.new ≡ entities_of storage.old }
        ensures dead { IfOk result (λ o. is_some o ≡ is_alive (population (entities_of storage.old)) entity) }
        ensures is_new { IfOk result (λ o. o ≡ Some true → found storage.old entity ≡ None) }
        ensures old { IfOk result (λ o. (o ≡ Some true → ⊥) → (slot storage.new ≡ slot storage.old) × (given_uuids self.new ≡ given_uuids self.old)) }
        ensures old_self { IfOk result (λ o. (o ≡ Some true → ⊥) → self.new ≡ self.old) }
        ensures was { IfOk result (λ o. o ≡ Some false → is_some (found storage.old entity) ≡ true) }
        ensures new { IfOk result (λ o. o ≡ Some true → MarksNew uuid_of_marker (⟦<Uuid as PartialEq>⟧.eq) (IsDrawn (given_uuids self.old) (R.stream self.old.generator)) entity (given_uuids self.old) (given_uuids self.new) (slot storage.old) (slot storage.new)) }
        ensures alive { OnErr result (is_alive (population (entities_of storage.old)) entity ≡ true) }
        ensures unmarked { OnErr result (found storage.old entity ≡ None) }
        ensures err { OnErr result (IsSame (slot storage.old) (slot storage.new)) }
        ensures err_given { OnErr result (given_uuids self.new ≡ given_uuids self.old) }
        ensures err_mapped { OnErr result (MayHaveGiven (⟦<Uuid as PartialEq>⟧.eq) (IsDrawn (given_uuids self.old) (R.stream self.old.generator)) entity (given_uuids self.old) (given_uuids self.new)) }
        ensures refused { IfErr result IsOfIds }
        ensures taken { result ≡ Err MarkError.IdTaken → is_some (given_uuids self.old (drawn_from (R.stream self.old.generator))) ≡ true }
        ensures never_used_up { result ≡ Err MarkError.IdsExhausted → ⊥ }
        ensures draws { IfOk result (λ o. o ≡ Some true → R.stream self.new.generator ≡ after_draw (R.stream self.old.generator)) }
        ensures err_draws { OnErr result (R.stream self.new.generator ≡ after_draw (R.stream self.old.generator)) }
    {
        if !storage.fetched_entities().is_alive(entity) {
            return Ok(None);
        }
        if storage.contains(entity) {
            return Ok(Some(false));
        }
        let id = draw(&mut self.generator, &self.mapping)?;
        if self.mapping.reserve(1).is_err() {
            return Err(MarkError::OutOfMemory);
        }
        if storage.insert(entity, UuidMarker::new(id)).is_err() {
            return Err(MarkError::OutOfMemory);
        }
        match self.mapping.insert(id, entity) {
            Ok(_) => {}
            Err(_) => unreachable!(),
        }
        Ok(Some(true))
    }
}
