//! Saving the entities that have markers, and those that they refer to.
ghost use Rattle.std.specs.Prelude.{◌≡◌, ◌++◌, ℕ, true, Some, None, Err, IfOk, IfErr, OnOk, OnErr, IsOk, IsSome, List, [], ◌∷◌};
ghost use Rattle.std.specs.FinMap as map;
ghost use Rattle.entities.specs.declared.entity.Entity.{Entity};
ghost use Rattle.entities.specs.Census.{population};
ghost use Rattle.hibits.specs.Left.{left};
ghost use Rattle.storages.specs.Found.{found_in};
ghost use Rattle.storages.specs.Limit.{IsIndex};
ghost use Rattle.storages.specs.ReadView.{found};
ghost use Rattle.storages.specs.WriteView.{slot, entities_of, storage_name, found as found_by};
ghost use Rattle.saveload.specs.Conversion.{AllNamed, Has, Refuses};
ghost use Rattle.saveload.specs.Saved.{IsRecord, IsSavedList, DistinctIds, TellsApart, HoldsReferences, RefusesSave, all_marked, marked_read, marked_by};
ghost use Rattle.saveload.specs.Closing.{IsMentioned, MarksSome, RefusesAll, SavesWhole};
ghost use Rattle.saveload.specs.Marking.{MarksUntil};

use crate::entity_data::EntityData;
use crate::error::SaveError;
use crate::marker::{Marker, MarkerAllocator};
use crate::marking::mark_all;
use crate::places::SerializeComponents;
use entities::{EntitiesRes, Entity};
use hibits::{BitSetAnd, Walk};
use std::alloc::{AllocError, Global};
use storages::{MaskedStorage, ReadStorage, WriteStorage};

/// Saves every entity that is alive and has a marker, ascending. It marks nothing: a reference to one without a marker is refused, so what a
/// saved list refers to is saved in it. Where none has a marker it takes no memory, and is not refused.
///
/// Ports `SerializeComponents::serialize`.
pub fn serialize<M: Marker + Copy, P: SerializeComponents<M>>(
    alloc: Global,
    places: &P,
    markers: &ReadStorage<'_, M>,
) -> Result<Vec<EntityData<M, P::Data>>, SaveError>
    ensures saved { IfOk result (λ rs. IsSavedList P.conversion (λ e. found markers.now e) (λ e. P.values places.now e)
        (marked_read markers.now) rs.items) }
    ensures holds { OnOk result (HoldsReferences P.conversion (λ e. P.values places.now e) (marked_read markers.now)) }
    ensures distinct { TellsApart M.id_of (λ e. found markers.now e) → IfOk result (λ rs. DistinctIds M.id_of rs.items) }
    ensures refused { IfErr result (RefusesSave P.conversion (λ e. found markers.now e) (λ e. P.values places.now e)
        (marked_read markers.now)) }
    ensures idle { marked_read markers.now ≡ [] → IsOk result }
{
    let list = marked(alloc, markers.fetched_entities(), markers.storage())?;
    save_list(alloc, places, markers, &list)
}

/// Saves every entity that is alive and has a marker, ascending, and then those that they lead to, which get markers, in the order in
/// which they are first mentioned. It stops at the first that is mentioned and not alive, even where another one at its index has a marker. After a
/// refusal the markers that were given stay: of those that are mentioned the first ones, which are alive, have one, in that order. Each was given
/// a new id, which names it, in that order; one that was refused may have left its id with the allocator.
///
/// Ports `SerializeComponents::serialize_recursive`.
pub fn serialize_recursive<M: Marker + Copy, A: MarkerAllocator<M>, P: SerializeComponents<M>>(
    alloc: Global,
    places: &P,
    allocator: &mut A,
    markers: &mut WriteStorage<'_, M>,
) -> Result<Vec<EntityData<M, P::Data>>, SaveError>
    ensures same_reference { storage_name markers.new ≡ storage_name markers.old }
    ensures entities { entities_of markers.new ≡ entities_of markers.old }
    ensures ok { IfOk result (λ rs. SavesWhole P.conversion (λ e. P.values places.now e) M.id_of M.Identifier.eq A.MayBeNew A.mapping A.ids
        allocator.old markers.old allocator.new markers.new rs.items) }
    ensures distinct { TellsApart M.id_of (λ e. found_by markers.new e) → IfOk result (λ rs. DistinctIds M.id_of rs.items) }
    ensures marks { MarksSome (population (entities_of markers.old)) (IsMentioned (λ e. P.conversion.references (P.values places.now e))
        (marked_by markers.old)) (slot markers.old) (slot markers.new) }
    ensures refused { IfErr result (RefusesAll P.conversion (population (entities_of markers.old)) (λ e. P.values places.now e)
        (marked_by markers.old) (slot markers.old) (slot markers.new)) }
    ensures stops { OnErr result (MarksUntil M.id_of M.Identifier.eq A.MayBeNew A.mapping A.ids allocator.old (slot markers.old) allocator.new (slot markers.new)) }
    ensures used_up { result ≡ Err SaveError.IdsExhausted → A.ids allocator.new ≡ Some 0 }
    ensures drawn { result ≡ Err SaveError.IdTaken → A.ids allocator.new ≡ None }
{
    let mut list = marked(alloc, markers.fetched_entities(), markers.storage())?;
    mark_all(alloc, places, allocator, markers, &mut list)?;
    let marked = ReadStorage::new(markers.fetched_entities(), markers.storage());
    save_list(alloc, places, &marked, &list)
}

// The entities that are alive and have a marker, ascending.
pub(crate) fn marked<M: Marker>(
    alloc: Global,
    entities: &EntitiesRes,
    markers: &MaskedStorage<M>,
) -> Result<Vec<Entity>, AllocError>
    ensures list { IfOk result (λ v. v.items ≡ all_marked (population entities.now) markers.now) }
    ensures whole { IfOk result (λ v. (e : Entity) → IsSome (found_in entities.now markers.now e) → Has v.items e) }
    ensures idle { all_marked (population entities.now) markers.now ≡ [] → IsOk result }
{
    limited(markers);
    let mask = BitSetAnd(entities.living(), markers.mask());
    let mut list = Vec::new(alloc);
    let mut walk = Walk::new(&mask);
    while let Some(i) = walk.next(&mask) {
        list.push(entities.entity(i))?;
    }
    Ok(list)
}

// Each index that has a marker lies below the limit. It reads one word of the mask.
fn limited<M: Marker>(markers: &MaskedStorage<M>)
    ensures { (i : ℕ) → map.contains_key markers.now.map i ≡ true → IsIndex i }
{
    let _first = markers.mask().contains(0);
}

// Saves the entities of a list, which are alive and have markers.
fn save_list<M: Marker + Copy, P: SerializeComponents<M>>(
    alloc: Global,
    places: &P,
    markers: &ReadStorage<'_, M>,
    list: &[Entity],
) -> Result<Vec<EntityData<M, P::Data>>, SaveError>
    requires { AllNamed (λ e. found markers.now e) list.now }
    ensures saved { IfOk result (λ rs. IsSavedList P.conversion (λ e. found markers.now e) (λ e. P.values places.now e) list.now rs.items) }
    ensures refused { IfErr result (RefusesSave P.conversion (λ e. found markers.now e) (λ e. P.values places.now e) list.now) }
    ensures idle { list.now ≡ [] → IsOk result }
{
    let mut records = Vec::with_capacity(alloc, list.len())?;
    for e in list {
        let saved = save_one(alloc, places, markers, *e)?;
        if records.push(saved).is_err() {
            return Err(SaveError::OutOfMemory);
        }
    }
    Ok(records)
}

// Saves an entity, which is alive and has a marker.
pub(crate) fn save_one<M: Marker + Copy, P: SerializeComponents<M>>(
    alloc: Global,
    places: &P,
    markers: &ReadStorage<'_, M>,
    entity: Entity,
) -> Result<EntityData<M, P::Data>, SaveError>
    requires { IsSome (found markers.now entity) }
    ensures saved { IfOk result (IsRecord P.conversion (λ e. found markers.now e) (λ e. P.values places.now e) entity) }
    ensures refused { IfErr result (Refuses (P.conversion.unsaved (P.values places.now entity)) (λ e. found markers.now e)
        (P.conversion.references (P.values places.now entity))) }
{
    match markers.get(entity) {
        Some(marker) => {
            let components = places.serialize_entity(
                alloc,
                entity,
                |x: Entity| markers.get(x).copied(),
            )?;
            Ok(EntityData {
                marker: *marker,
                components,
            })
        }
        None => Err(SaveError::Unmarked(entity)),
    }
}
