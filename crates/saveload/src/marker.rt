//! Markers, and what gives them their ids.
ghost use Rattle.std.specs.Prelude.{◌≡◌, ◌↔◌, ◌⊎◌, true, false, ℕ, List, [], Option, Some, None, Ok, Err, IfSome, IfOk, IfErr, OnOk, OnErr, IsTrue, is_some};
ghost use Rattle.std.specs.FinMap as finmap;
ghost use Rattle.entities.specs.declared.entity.Entity.{Entity};
ghost use Rattle.entities.specs.Census.{population};
ghost use Rattle.entities.specs.Population.{NoneFree, NoneUnused, IsAlive, mark, index_of};
ghost use Rattle.storages.specs.Life.{is_alive};
ghost use Rattle.storages.specs.Limit.{IsIndex};
ghost use Rattle.storages.specs.Slot.{IsSame};
ghost use Rattle.storages.specs.WriteView.{slot, entities_of, found, storage_name};
ghost use Rattle.saveload.specs.Naming.{naming, ids_in, CanBeNamed, Names, NamesNone, UpdatesKnown, PutsWhole, once_given, put_id, put_at};
ghost use Rattle.saveload.specs.Remapping.{living_ids};
ghost use Rattle.saveload.specs.Told.{IsTold};
ghost use Rattle.saveload.specs.Marking.{MarksNew, IsOfIds, MayHaveGiven, TakesOne};

use crate::mark_error::MarkError;
use entities::{CreateError, EntitiesRes, Entity};
use hibits::Index;
use std::alloc::{AllocError, Global};
use storages::{Component, MaskedStorage, UnprotectedStorage, WriteStorage};

/// A component that names its entity by an id. Two markers of one id may differ in what else they hold.
///
/// Ports `specs::saveload::Marker`, whose `Allocator` here need not be one: who calls it asks for that.
pub trait Marker: Component<Storage: UnprotectedStorage<Self>> + Clone + Drop + Sized {
    /// The type of the ids.
    type Identifier: Copy + Eq;

    /// What gives the ids.
    type Allocator;

    // The id of a marker.
    ghost id_of: { Self → Self.Identifier };

    // What is left of a marker once a newer one came: the newer one, where nothing else is written.
    ghost updated: { Self → Self → Self } = { λ old new. new };

    /// The id, which stays the same.
    fn id(&self) -> Self::Identifier
        ensures { result ≡ id_of self.now };

    /// Takes over what a newer marker of the same id holds, as the marker's `updated` says. The id stays.
    fn update(&mut self, new: Self)
        requires { id_of self.old ≡ id_of new }
        ensures same_id { id_of self.new ≡ id_of self.old }
        ensures takes { self.new ≡ updated self.old new };

    // Two ids are equal just where the test says so.
    ghost same_ids: { (a b : Self.Identifier) → IsTrue (Self.Identifier.eq a b) ↔ (a ≡ b) };
}

/// How many ids are left for new markers, and which of these markers comes next. It has no function, so that a bound by it costs a proof next to
/// nothing.
pub trait IdSupply<M> {
    // How many new ids are left, and none where that can't be told: ids that are drawn may turn out to be taken.
    ghost ids: { Self → Option ℕ };

    // Which markers a new one may be while so many ids are left.
    ghost ComesNext: { Option ℕ → M → Type 0 };
}

/// Gives ids to entities, and finds entities by ids. It is a finite map from ids to entities.
///
/// Ports `specs::saveload::MarkerAllocator`.
pub trait MarkerAllocator<M: Marker>: IdSupply<M> {
    // The entity that each id is mapped to.
    ghost mapping: { Self → M.Identifier → Option Entity };

    // Whether an id may be given as a new one.
    ghost MayBeNew: { Self → M.Identifier → Type 0 };

    // How many are left once these ids were given from outside, one after another.
    ghost ids_past: { Self → List M.Identifier → Option ℕ };

    // The id that a new marker gets next, unless it is taken.
    ghost coming: { Self → M.Identifier };

    ghost new_is_coming: { (a : Self) (id : M.Identifier) → MayBeNew a id → id ≡ coming a };

    /// A marker of the given id, or of a new one, which is then mapped to the entity. A refusal leaves the map; for a given id
    /// it is want of memory. Whether a new one is left is looked at before memory is asked for.
    fn allocate(&mut self, entity: Entity, id: Option<M::Identifier>) -> Result<M, MarkError>
        ensures given { (i : M.Identifier) → id ≡ Some i → IfOk result (λ m. M.id_of m ≡ i) }
        ensures new { id ≡ None → IfOk result (λ m. MayBeNew self.old (M.id_of m)) }
        ensures mapped { IfOk result (λ m. mapping self.new ≡ put_id M.Identifier.eq (mapping self.old) (M.id_of m) entity) }
        ensures err { OnErr result (mapping self.new ≡ mapping self.old) }
        ensures refused { IfErr result IsOfIds }
        ensures given_refused { (i : M.Identifier) → id ≡ Some i → IfErr result (λ e. e ≡ MarkError.OutOfMemory) }
        ensures takes { id ≡ None → OnOk result (TakesOne (Self.ids self.old) (Self.ids self.new)) }
        ensures passes { (i : M.Identifier) → id ≡ Some i → OnOk result (ids_past self.new ≡ once_given (ids_past self.old) i) }
        ensures err_ids { OnErr result (ids_past self.new ≡ ids_past self.old) }
        ensures used_up { result ≡ Err MarkError.IdsExhausted → Self.ids self.old ≡ Some 0 }
        ensures memory { id ≡ None → result ≡ Err MarkError.OutOfMemory → Self.ids self.old ≡ Some 0 → ⊥ }
        ensures drawn { result ≡ Err MarkError.IdTaken → Self.ids self.old ≡ None }
        ensures taken { result ≡ Err MarkError.IdTaken → is_some (mapping self.old (coming self.old)) ≡ true };

    /// The entity that an id is mapped to.
    fn retrieve_entity_internal(&self, id: M::Identifier) -> Option<Entity>
        ensures { result ≡ mapping self.now id };

    /// The entity that a marker names: the one that its id is mapped to, if that is alive and has a marker of this id, which is
    /// then updated; else a new one, whose birth is pending, with this marker. Each other marker stays as it was.
    ///
    /// After a refusal each marker is as it was; an entity that was made is marked, and the id may be mapped to it. Want of memory is told
    /// only where there is an entity to update, or an index that is free or unused.
    fn retrieve_entity(
        &mut self,
        marker: M,
        storage: &mut MaskedStorage<M>,
        entities: &mut EntitiesRes,
    ) -> Result<Entity, CreateError>
        ensures named { IfOk result (λ e. Names M.Identifier.eq (naming M.id_of mapping ids_past entities.old self.old storage.old) (M.id_of marker) e (naming M.id_of mapping ids_past entities.new self.new storage.new)) }
        ensures err { OnErr result (NamesNone M.Identifier.eq (naming M.id_of mapping ids_past entities.old self.old storage.old) (M.id_of marker) (naming M.id_of mapping ids_past entities.new self.new storage.new)) }
        ensures limit { result ≡ Err CreateError.IndexLimit → NoneFree (population entities.old) × NoneUnused (population entities.old) }
        ensures memory { result ≡ Err CreateError.OutOfMemory → CanBeNamed (naming M.id_of mapping ids_past entities.old self.old storage.old) (M.id_of marker) }
        ensures told { IsTold storage.old storage.new }
        ensures known { IfOk result (λ e. UpdatesKnown M.updated (naming M.id_of mapping ids_past entities.old self.old storage.old) (M.id_of marker) marker e storage.old storage.new) }
        ensures whole { IfOk result (λ e. PutsWhole (naming M.id_of mapping ids_past entities.old self.old storage.old) (M.id_of marker) marker e storage.old storage.new) }
        ensures kept { OnErr result (storage.new.map ≡ storage.old.map) }
    {
        let id = marker.id();
        if let Some(known) = named_by(self.retrieve_entity_internal(id), entities, storage, id) {
            update_at(storage, known.id(), marker)?;
            return Ok(known);
        }
        let made = entities.create()?;
        if self.allocate(made, Some(id)).is_err() {
            return Err(given_up(entities, made));
        }
        if put_marker(storage, made.id(), marker).is_err() {
            return Err(given_up(entities, made));
        }
        Ok(made)
    }

    /// Forgets each id but those of the entities that live and have a marker: of two markers with one id that of the higher index is kept. A
    /// refused call forgets none.
    fn maintain(
        &mut self,
        alloc: Global,
        entities: &EntitiesRes,
        storage: &MaskedStorage<M>,
    ) -> Result<(), AllocError>
        ensures ok { OnOk result (mapping self.new ≡ living_ids M.id_of M.Identifier.eq (population entities.now) storage.now) }
        ensures err { OnErr result (mapping self.new ≡ mapping self.old) }
        ensures ids { ids_past self.new ≡ ids_past self.old };

    /// Gives an entity that is alive a marker of a new id, if it has none. The answer is whether it is new, and none for an
    /// entity that isn't alive; the marker is then found in the storage.
    ///
    /// The entity and its marker are looked for first, then whether an id is left: a refused entity is alive and has none, and want of memory is
    /// not told where the ids are used up. A refused call takes no id, and leaves the storage as before; where
    /// memory for the marker was refused, an id may stay mapped.
    fn mark(
        &mut self,
        entity: Entity,
        storage: &mut WriteStorage<'_, M>,
    ) -> Result<Option<bool>, MarkError>
        ensures same_reference { storage_name storage.new ≡ storage_name storage.old }
        ensures entities { entities_of storage.new ≡ entities_of storage.old }
        ensures dead { IfOk result (λ o. is_some o ≡ is_alive (population (entities_of storage.old)) entity) }
        ensures is_new { IfOk result (λ o. o ≡ Some true → found storage.old entity ≡ None) }
        ensures old { IfOk result (λ o. (o ≡ Some true → ⊥) → (slot storage.new ≡ slot storage.old) × (mapping self.new ≡ mapping self.old)) }
        ensures old_self { IfOk result (λ o. (o ≡ Some true → ⊥) → self.new ≡ self.old) }
        ensures was { IfOk result (λ o. o ≡ Some false → is_some (found storage.old entity) ≡ true) }
        ensures new { IfOk result (λ o. o ≡ Some true → MarksNew M.id_of M.Identifier.eq (MayBeNew self.old) entity (mapping self.old) (mapping self.new) (slot storage.old) (slot storage.new)) }
        ensures takes { IfOk result (λ o. o ≡ Some true → TakesOne (Self.ids self.old) (Self.ids self.new)) }
        ensures alive { OnErr result (is_alive (population (entities_of storage.old)) entity ≡ true) }
        ensures unmarked { OnErr result (found storage.old entity ≡ None) }
        ensures err { OnErr result (IsSame (slot storage.old) (slot storage.new)) }
        ensures err_mapped { OnErr result (MayHaveGiven M.Identifier.eq (MayBeNew self.old) entity (mapping self.old) (mapping self.new)) }
        ensures err_ids { OnErr result (Self.ids self.new ≡ Self.ids self.old) }
        ensures err_past { OnErr result (ids_past self.new ≡ ids_past self.old) }
        ensures refused { IfErr result IsOfIds }
        ensures used_up { result ≡ Err MarkError.IdsExhausted → Self.ids self.old ≡ Some 0 }
        ensures memory { result ≡ Err MarkError.OutOfMemory → Self.ids self.old ≡ Some 0 → ⊥ }
        ensures drawn { result ≡ Err MarkError.IdTaken → Self.ids self.old ≡ None }
        ensures taken { result ≡ Err MarkError.IdTaken → is_some (mapping self.old (coming self.old)) ≡ true };

    ghost ids_now: { (a : Self) → ids_past a [] ≡ Self.ids a };

    ghost comes: { (a : Self) (m : M) → MayBeNew a (M.id_of m) → Self.ComesNext (Self.ids a) m };

    // Where ids are drawn, a new one is mapped to nobody.
    ghost unmapped: { (a : Self) (id : M.Identifier) → Self.ids a ≡ None → MayBeNew a id → mapping a id ≡ None };
}

// Of the entity that an id is mapped to, if there is one, whether the id names it: it is alive and has a marker of this id.
fn named_by<M: Marker>(
    mapped: Option<Entity>,
    entities: &EntitiesRes,
    storage: &MaskedStorage<M>,
    id: M::Identifier,
) -> Option<Entity>
    ensures mapped { IfSome result (λ e. mapped ≡ Some e) }
    ensures alive { IfSome result (λ e. IsAlive (population entities.now) e) }
    ensures agrees { IfSome result (λ e. ids_in M.id_of storage.now (index_of e) ≡ Some id) }
    ensures unknown { result ≡ None → IfSome mapped (λ e. IsAlive (population entities.now) e → ids_in M.id_of storage.now (index_of e) ≡ Some id → ⊥) }
{
    let known = mapped?;
    if entities.is_alive(known) && is_marked_with(storage, known.id(), id) {
        Some(known)
    } else {
        None
    }
}

// Whether an index has a marker of this id.
fn is_marked_with<M: Marker>(storage: &MaskedStorage<M>, index: Index, id: M::Identifier) -> bool
    ensures { IsTrue result ↔ (ids_in M.id_of storage.now index ≡ Some id) }
{
    match storage.get(index) {
        Some(marker) => marker.id() == id,
        None => false,
    }
}

// Updates the marker of an index that has one of the same id.
fn update_at<M: Marker>(
    storage: &mut MaskedStorage<M>,
    index: Index,
    marker: M,
) -> Result<(), CreateError>
    requires { ids_in M.id_of storage.old index ≡ Some (M.id_of marker) }
    ensures ids { OnOk result (ids_in M.id_of storage.new ≡ ids_in M.id_of storage.old) }
    ensures known { (m : M) → finmap.get storage.old.map index ≡ Some m → OnOk result (storage.new.map ≡ finmap.insert storage.old.map index (M.updated m marker)) }
    ensures err { OnErr result (storage.new.map ≡ storage.old.map) }
    ensures told { IsTold storage.old storage.new }
    ensures refused { IfErr result (λ e. e ≡ CreateError.OutOfMemory) }
{
    match storage.get_mut(index) {
        Ok(place) => {
            place.update(marker);
            Ok(())
        }
        Err(_) => Err(CreateError::OutOfMemory),
    }
}

// Marks an entity that was made in vain.
fn given_up(entities: &mut EntitiesRes, made: Entity) -> CreateError
    ensures error { result ≡ CreateError.OutOfMemory }
    ensures marked { IsAlive (population entities.old) made → population entities.new ≡ mark (population entities.old) (index_of made) }
{
    let _ = entities.delete(made);
    CreateError::OutOfMemory
}

// Puts a marker at an index.
fn put_marker<M: Marker>(
    storage: &mut MaskedStorage<M>,
    index: Index,
    marker: M,
) -> Result<(), AllocError>
    requires { IsIndex index }
    ensures ok { OnOk result (storage.new.map ≡ finmap.insert storage.old.map index marker) }
    ensures ids { OnOk result (ids_in M.id_of storage.new ≡ put_at (ids_in M.id_of storage.old) index (M.id_of marker)) }
    ensures err { OnErr result (storage.new.map ≡ storage.old.map) }
    ensures told { IsTold storage.old storage.new }
{
    match storage.put(index, marker) {
        Ok(_) => Ok(()),
        Err(_) => Err(AllocError),
    }
}
