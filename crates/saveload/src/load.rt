//! Loading records into storages that are lent.
ghost use Rattle.std.specs.Prelude.{◌≡◌, ◌++◌, true, false, ℕ, Option, Some, None, Ok, Err, IfOk, IfErr, OnOk, OnErr, is_some};
ghost use Rattle.std.specs.FinMap as finmap;
ghost use Rattle.storages.specs.Found.{found_in};
ghost use Rattle.entities.specs.declared.entity.Entity.{Entity as Being};
ghost use Rattle.entities.specs.Census.{population};
ghost use Rattle.entities.specs.Population.{index_of};
ghost use Rattle.storages.specs.Life.{is_alive};
ghost use Rattle.saveload.specs.Conversion.{Conversion, IsFaithful, GivesEach};
ghost use Rattle.saveload.specs.Naming.{NamesAllOf};
ghost use Rattle.saveload.specs.Places.{place, both};
ghost use Rattle.saveload.specs.Loads.{column, beside, PutsSaved, PutsWithRest, LoadsOneInto, LoadsInto};
ghost use Rattle.saveload.specs.Told.{IsTold, StoresOnce, StoresSaved, StoresWithRest, StoresRecord, StoresEach};
ghost use Rattle.storages.specs.Slot.{Puts, Takes};
ghost use Rattle.saveload.specs.declared.error.LoadError.{LoadError as Refusal};
ghost use Rattle.saveload.specs.Stops.{IsOfStoring, PutsSome, PutsSomeWithRest, StopsNamingOf, RefusesOneInto, StopsInto};

use crate::convert::ConvertSaveload;
use crate::entity_data::EntityData;
use crate::error::LoadError;
use crate::marker::{Marker, MarkerAllocator};
use entities::{EntitiesRes, Entity};
use std::alloc::{AllocError, Global};
use storages::{Component, MaskedStorage, UnprotectedStorage, WriteStorage};

/// A tuple of one to six storages that are lent for a load.
///
/// Ports `specs::saveload::DeserializeComponents`; its call for whole lists is `deserialize`.
pub trait DeserializeComponents<M: Marker> {
    // A place for each storage.
    type Row;

    type Data: Drop;

    ghost conversion: { Conversion M Self.Row Self.Data };

    ghost rows: { Self → ℕ → Self.Row };

    // Of what was saved, an error of one of its places, an old row and a new one: the places before that one are the new row's, and the others the old one's.
    ghost Partly: { Self.Data → Refusal → Self.Row → Self.Row → Self.Row → Type 0 };

    // The same storages are lent, and each was changed by insertions and removals alone, of which its readers were told.
    ghost Changes: { Self → Self → Type 0 };

    // Of an index and a row: each place of the row was put there, or what was there was taken out, and the readers of each storage were told of that once, and of nothing else.
    ghost Stores: { Self → ℕ → Self.Row → Self → Type 0 };

    /// The markers that the data mentions, place by place.
    fn mentions(alloc: Global, saved: &Self::Data) -> Result<Vec<M>, AllocError>
        requires { (m n : M) → M.is_clone m n → m ≡ n }
        ensures { IfOk result (λ v. v.items ≡ conversion.mentions saved.now) };

    /// Stores what was saved at an entity that is alive, place by place, by the entities that `ids` gives: a component, which takes
    /// the place of the one that was there, or none, which takes that one out. After a refusal the places before the refused one stay. An
    /// entity that is not alive gets nothing, and is not refused: the storages stay as they were, and their readers are told of nothing.
    ///
    /// Ports `DeserializeComponents::deserialize_entity`.
    fn deserialize_entity<F: Fn(M) -> Option<Entity>>(
        &mut self,
        alloc: Global,
        entities: &EntitiesRes,
        entity: Entity,
        saved: Self::Data,
        ids: F,
    ) -> Result<(), LoadError>
        requires { F.IsAlwaysCallable ids }
        ensures changes { Changes self.old self.new }
        ensures once { is_alive (population entities.now) entity ≡ true → OnOk result (StoresSaved Stores conversion (F.post ids) saved entity self.old self.new) }
        ensures rows { is_alive (population entities.now) entity ≡ true → OnOk result (PutsSaved conversion (F.post ids) saved entity (rows self.old) (rows self.new)) }
        ensures stopped { is_alive (population entities.now) entity ≡ true → IfErr result (λ e. PutsSome Partly conversion (F.post ids) saved entity e (rows self.old) (rows self.new)) }
        ensures refused { (f : M → Being) → GivesEach (F.post ids) (conversion.mentions saved) f → IfErr result (IsOfStoring (conversion.unloaded saved)) }
        ensures dead { is_alive (population entities.now) entity ≡ false → rows self.new ≡ rows self.old }
        ensures untouched { is_alive (population entities.now) entity ≡ false → self.new ≡ self.old }
        ensures alive { OnErr result (is_alive (population entities.now) entity ≡ true) };

    ghost faithful: { IsFaithful conversion };

    ghost changes_self: { (s : Self) → Changes s s };

    ghost changes_both: { (s t u : Self) → Changes s t → Changes t u → Changes s u };
}

// Puts the markers that a place mentions at the end of a list.
pub(crate) fn add_mentions<M: Marker, T: ConvertSaveload<M>>(
    alloc: Global,
    list: &mut Vec<M>,
    saved: &Option<T::Data>,
) -> Result<(), AllocError>
    requires { (m n : M) → M.is_clone m n → m ≡ n }
    ensures { OnOk result (list.new.items ≡ list.old.items ++ (place T.conversion).mentions saved.now) }
{
    if let Some(saved) = saved {
        let mut mentioned = T::mentions(alloc, saved)?;
        if list.is_empty() {
            *list = mentioned;
        } else {
            list.append(&mut mentioned)?;
        }
    }
    Ok(())
}

// The same of two places.
pub(crate) fn add_two<M: Marker, A: ConvertSaveload<M>, B: ConvertSaveload<M>>(
    alloc: Global,
    list: &mut Vec<M>,
    first: &Option<A::Data>,
    second: &Option<B::Data>,
) -> Result<(), AllocError>
    requires { (m n : M) → M.is_clone m n → m ≡ n }
    ensures { OnOk result (list.new.items ≡ list.old.items ++ ((place A.conversion).mentions first.now ++ (place B.conversion).mentions second.now)) }
{
    add_mentions::<M, A>(alloc, list, first)?;
    add_mentions::<M, B>(alloc, list, second)?;
    Ok(())
}

// The same of three places.
pub(crate) fn add_three<
    M: Marker,
    A: ConvertSaveload<M>,
    B: ConvertSaveload<M>,
    C: ConvertSaveload<M>,
>(
    alloc: Global,
    list: &mut Vec<M>,
    first: &Option<A::Data>,
    second: &Option<B::Data>,
    third: &Option<C::Data>,
) -> Result<(), AllocError>
    requires { (m n : M) → M.is_clone m n → m ≡ n }
    ensures { OnOk result (list.new.items ≡ list.old.items
        ++ ((place A.conversion).mentions first.now ++ ((place B.conversion).mentions second.now ++ (place C.conversion).mentions third.now))) }
{
    add_mentions::<M, A>(alloc, list, first)?;
    add_two::<M, B, C>(alloc, list, second, third)?;
    Ok(())
}

// Stores a place of an entity, if that is alive.
pub(crate) fn store_place<
    M: Marker,
    T: Component<Storage: UnprotectedStorage<T>> + Drop + ConvertSaveload<M>,
    F: Fn(M) -> Option<Entity>,
>(
    alloc: Global,
    entities: &EntitiesRes,
    masked: &mut MaskedStorage<T>,
    entity: Entity,
    saved: Option<T::Data>,
    ids: &F,
) -> Result<(), LoadError>
    requires { F.IsAlwaysCallable ids.now }
    ensures stored { is_alive (population entities.now) entity ≡ true
        → OnOk result (PutsSaved (place T.conversion) (F.post ids.now) saved entity (column masked.old) (column masked.new)) }
    ensures once { is_alive (population entities.now) entity ≡ true
        → OnOk result (StoresSaved StoresOnce (place T.conversion) (F.post ids.now) saved entity masked.old masked.new) }
    ensures told { IsTold masked.old masked.new }
    ensures err { OnErr result (column masked.new ≡ column masked.old) }
    ensures dead { is_alive (population entities.now) entity ≡ false → column masked.new ≡ column masked.old }
    ensures untouched { is_alive (population entities.now) entity ≡ false → masked.new ≡ masked.old }
    ensures alive { OnErr result (is_alive (population entities.now) entity ≡ true) }
    ensures refused { (f : M → Being) → GivesEach (F.post ids.now) ((place T.conversion).mentions saved) f
        → IfErr result (IsOfStoring ((place T.conversion).unloaded saved)) }
{
    if !entities.is_alive(entity) {
        return Ok(());
    }
    match saved {
        Some(saved) => {
            let value = T::convert_from(saved, alloc, ids)?;
            put_at(entities, masked, entity, value)?;
            Ok(())
        }
        None => {
            take_out(entities, masked, entity)?;
            Ok(())
        }
    }
}

// Stores a first place of an entity, and the rest of its row.
pub(crate) fn store_with_rest<
    M: Marker,
    A: Component<Storage: UnprotectedStorage<A>> + Drop + ConvertSaveload<M>,
    R: DeserializeComponents<M>,
    F: Fn(M) -> Option<Entity>,
>(
    alloc: Global,
    entities: &EntitiesRes,
    entity: Entity,
    first: &mut MaskedStorage<A>,
    rest: &mut R,
    saved: (Option<<A as ConvertSaveload<M>>::Data>, R::Data),
    ids: F,
) -> Result<(), LoadError>
    requires { F.IsAlwaysCallable ids }
    ensures told { IsTold first.old first.new }
    ensures changes { R.Changes rest.old rest.new }
    ensures once { is_alive (population entities.now) entity ≡ true
        → OnOk result (StoresWithRest R.Stores A.conversion R.conversion (F.post ids) saved entity first.old rest.old first.new rest.new) }
    ensures rows { is_alive (population entities.now) entity ≡ true
        → OnOk result (PutsWithRest A.conversion R.conversion (F.post ids) saved entity first.old (R.rows rest.old) first.new (R.rows rest.new)) }
    ensures stopped { is_alive (population entities.now) entity ≡ true → IfErr result (λ e. PutsSomeWithRest R.Partly A.conversion R.conversion
        (F.post ids) saved entity e first.old (R.rows rest.old) first.new (R.rows rest.new)) }
    ensures refused { (f : M → Being) → GivesEach (F.post ids) ((both (place A.conversion) R.conversion).mentions saved) f
        → IfErr result (IsOfStoring ((both (place A.conversion) R.conversion).unloaded saved)) }
    ensures dead { is_alive (population entities.now) entity ≡ false → beside first.new (R.rows rest.new) ≡ beside first.old (R.rows rest.old) }
    ensures untouched { is_alive (population entities.now) entity ≡ false → (first.new ≡ first.old) × (rest.new ≡ rest.old) }
    ensures alive { OnErr result (is_alive (population entities.now) entity ≡ true) }
{
    let (place, others) = saved;
    store_place(alloc, entities, first, entity, place, &ids)?;
    rest.deserialize_entity(alloc, entities, entity, others, ids)
}

// Puts a component at an entity that is alive.
fn put_at<T: Component<Storage: UnprotectedStorage<T>> + Drop>(
    entities: &EntitiesRes,
    masked: &mut MaskedStorage<T>,
    entity: Entity,
    value: T,
) -> Result<(), AllocError>
    requires alive { is_alive (population entities.now) entity ≡ true }
    ensures ok { OnOk result (masked.new.map ≡ finmap.insert masked.old.map (index_of entity) value) }
    ensures once { OnOk result (Puts masked.old masked.new (index_of entity) value (is_some (finmap.get masked.old.map (index_of entity)))) }
    ensures told { IsTold masked.old masked.new }
    ensures err { OnErr result (masked.new.map ≡ masked.old.map) }
{
    match WriteStorage::new(entities, masked).insert(entity, value) {
        Ok(_) => Ok(()),
        Err(_) => Err(AllocError),
    }
}

// Takes the component of an entity that is alive out.
fn take_out<T: Component<Storage: UnprotectedStorage<T>> + Drop>(
    entities: &EntitiesRes,
    masked: &mut MaskedStorage<T>,
    entity: Entity,
) -> Result<(), AllocError>
    ensures present { is_some (found_in entities.now masked.old entity) ≡ true → OnOk result (masked.new.map ≡ finmap.remove masked.old.map (index_of entity)) }
    ensures absent { found_in entities.now masked.old entity ≡ None → OnOk result (masked.new.map ≡ masked.old.map) }
    ensures once { is_alive (population entities.now) entity ≡ true → OnOk result (StoresOnce masked.old (index_of entity) None masked.new) }
    ensures told { IsTold masked.old masked.new }
    ensures err { OnErr result (masked.new.map ≡ masked.old.map) }
{
    match WriteStorage::new(entities, masked).remove(entity) {
        Ok(_) => Ok(()),
        Err(e) => Err(e),
    }
}

/// Loads records in order. Each names its entity by its marker, then those that its components mention, place by place; an id names
/// the entity that it is mapped to, if that is alive and has a marker of this id, and else a new one, whose birth is pending. Then its
/// places are stored, where none takes the component out. After a refusal the records before the refused one are loaded, and of that
/// one the entities made and the places before the refused one stay.
///
/// Ports `DeserializeComponents::deserialize`.
pub fn deserialize<M: Marker, P: DeserializeComponents<M>>(
    alloc: Global,
    masked: &mut P,
    entities: &mut EntitiesRes,
    markers: &mut MaskedStorage<M>,
    allocator: &mut M::Allocator,
    list: Vec<EntityData<M, P::Data>>,
) -> Result<(), LoadError>
where
    M::Allocator: MarkerAllocator<M>,
    requires { (m n : M) → M.is_clone m n → m ≡ n }
    ensures changes { P.Changes masked.old masked.new }
    ensures each { OnOk result (StoresEach P.Stores P.conversion masked.old list.items masked.new) }
    ensures told { IsTold markers.old markers.new }
    ensures loaded { OnOk result (LoadsInto M.id_of M.Identifier.eq P.conversion M.Allocator.mapping M.Allocator.ids_past P.rows
        entities.old allocator.old markers.old masked.old list.items entities.new allocator.new markers.new masked.new) }
    ensures refused { IfErr result (λ e. StopsInto M.id_of M.Identifier.eq P.conversion P.Partly M.Allocator.mapping M.Allocator.ids_past P.rows
        entities.old allocator.old markers.old masked.old list.items e entities.new allocator.new markers.new masked.new) }
{
    for saved in list {
        load_record(alloc, masked, entities, markers, allocator, saved)?;
    }
    Ok(())
}

// Loads a record.
fn load_record<M: Marker, P: DeserializeComponents<M>>(
    alloc: Global,
    masked: &mut P,
    entities: &mut EntitiesRes,
    markers: &mut MaskedStorage<M>,
    allocator: &mut M::Allocator,
    saved: EntityData<M, P::Data>,
) -> Result<(), LoadError>
where
    M::Allocator: MarkerAllocator<M>,
    requires { (m n : M) → M.is_clone m n → m ≡ n }
    ensures changes { P.Changes masked.old masked.new }
    ensures each { OnOk result (StoresRecord P.Stores P.conversion masked.old saved masked.new) }
    ensures told { IsTold markers.old markers.new }
    ensures loaded { OnOk result (LoadsOneInto M.id_of M.Identifier.eq P.conversion M.Allocator.mapping M.Allocator.ids_past P.rows
        entities.old allocator.old markers.old masked.old saved entities.new allocator.new markers.new masked.new) }
    ensures refused { IfErr result (λ e. RefusesOneInto M.id_of M.Identifier.eq P.conversion P.Partly M.Allocator.mapping M.Allocator.ids_past P.rows
        entities.old allocator.old markers.old masked.old saved e entities.new allocator.new markers.new masked.new) }
{
    let EntityData { marker, components } = saved;
    let entity = allocator.retrieve_entity(marker, markers, entities)?;
    let mentioned = P::mentions(alloc, &components)?;
    name_all(mentioned, markers, entities, allocator)?;
    masked.deserialize_entity(alloc, entities, entity, components, |m: M| {
        allocator.retrieve_entity_internal(m.id())
    })
}

// Names what markers name, in order.
fn name_all<M: Marker>(
    mentioned: Vec<M>,
    markers: &mut MaskedStorage<M>,
    entities: &mut EntitiesRes,
    allocator: &mut M::Allocator,
) -> Result<(), LoadError>
where
    M::Allocator: MarkerAllocator<M>,
    ensures told { IsTold markers.old markers.new }
    ensures named { OnOk result (NamesAllOf M.id_of M.Identifier.eq M.Allocator.mapping M.Allocator.ids_past
        entities.old allocator.old markers.old mentioned.items entities.new allocator.new markers.new) }
    ensures refused { IfErr result (λ e. StopsNamingOf M.id_of M.Identifier.eq M.Allocator.mapping M.Allocator.ids_past
        entities.old allocator.old markers.old mentioned.items e entities.new allocator.new markers.new) }
{
    for m in mentioned {
        let _ = allocator.retrieve_entity(m, markers, entities)?;
    }
    Ok(())
}
