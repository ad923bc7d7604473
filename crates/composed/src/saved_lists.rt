//! Lists that a world saves and loads, by the storages that it lends.
ghost use Rattle.std.specs.Prelude.{◌≡◌, IfOk, IfErr, OnOk, IsSome, string_bytes};
ghost use Rattle.entities.specs.Census.{population};
ghost use Rattle.storages.specs.Found.{found_in};
ghost use Rattle.saveload.specs.Json.{IsTextOf};
ghost use Rattle.saveload.specs.Places.{place};
ghost use Rattle.saveload.specs.Saved.{IsSavedList, HoldsReferences, RefusesSave, DistinctIds, TellsApart, all_marked};
ghost use Rattle.specs.specs.Laws.Gone.{KeepsGone};
ghost use Rattle.composed.specs.Loading.{stand, LoadsRecords, StopsRecords};
ghost use Rattle.composed.specs.Saves.{NotSaved};
ghost use Rattle.composed.specs.Stored.{LeavesIn, rows_of_one, TellsOne, StoresInOne, rows_of_two, TellsTwo, StoresInTwo};
ghost use Rattle.saveload.specs.Stops.{PartlyOne, PartlyTwo};
ghost use Rattle.saveload.specs.Tuples.{one_place, two_places};

use crate::marking::Marking;
use crate::saved_error::SaveWorldError;
use saveload::{
    ConvertSaveload, DeserializeComponents, EntityData, JsonData, JsonPlaces, LoadError, Marker,
    MarkerAllocator, SerializeComponents, deserialize, serialize_to_json,
};
use specs::{EntitiesRes, loads_keep};
use std::alloc::Global;
use storages::{Component, MaskedStorage, ReadStorage, UnprotectedStorage};

// Loads a list, with markers that are registered.
pub(crate) fn load_list<M: Marker, P: DeserializeComponents<M>>(
    alloc: Global,
    masked: &mut P,
    entities: &mut EntitiesRes,
    marking: &mut Marking<M, M::Allocator>,
    list: Vec<EntityData<M, P::Data>>,
) -> Result<(), LoadError>
where
    M::Allocator: MarkerAllocator<M>,
    requires clones { (m n : M) → M.is_clone m n → m ≡ n }
    requires registered { IsSome marking.old.markers.field }
    ensures gone { KeepsGone (population entities.old) (population entities.new) }
    ensures changes { P.Changes masked.old masked.new }
    ensures loaded { OnOk result (LeavesIn marking.old.markers.field marking.new.markers.field
        (λ m m'. LoadsRecords M.id_of M.Identifier.eq P.conversion M.Allocator.mapping M.Allocator.ids_past P.rows P.Changes P.Stores
        list.items (stand entities.old marking.old.allocator masked.old m) (stand entities.new marking.new.allocator masked.new m'))) }
    ensures refused { IfErr result (λ e. LeavesIn marking.old.markers.field marking.new.markers.field
        (λ m m'. StopsRecords M.id_of M.Identifier.eq P.conversion M.Allocator.mapping M.Allocator.ids_past P.rows P.Changes P.Partly
        list.items e (stand entities.old marking.old.allocator masked.old m) (stand entities.new marking.new.allocator masked.new m'))) }
{
    loads_keep::<M, P>();
    match &mut marking.markers.field {
        None => unreachable!(),
        Some(markers) => {
            deserialize(
                alloc,
                masked,
                entities,
                markers,
                &mut marking.allocator,
                list,
            )
        }
    }
}

// Loads a list into one storage.
pub(crate) fn load_one<M: Marker, A>(
    alloc: Global,
    one: &mut MaskedStorage<A>,
    entities: &mut EntitiesRes,
    marking: &mut Marking<M, M::Allocator>,
    list: Vec<EntityData<M, (Option<A::Data>,)>>,
) -> Result<(), LoadError>
where
    A: Component<Storage: UnprotectedStorage<A>> + Drop + ConvertSaveload<M>,
    M::Allocator: MarkerAllocator<M>,
    requires clones { (m n : M) → M.is_clone m n → m ≡ n }
    requires registered { IsSome marking.old.markers.field }
    ensures gone { KeepsGone (population entities.old) (population entities.new) }
    ensures loaded { OnOk result (LeavesIn marking.old.markers.field marking.new.markers.field
        (λ m m'. LoadsRecords M.id_of M.Identifier.eq (one_place A.conversion) M.Allocator.mapping M.Allocator.ids_past
        rows_of_one TellsOne StoresInOne list.items (stand entities.old marking.old.allocator (record { 0 = one.old }) m) (stand entities.new marking.new.allocator (record { 0 = one.new }) m'))) }
    ensures refused { IfErr result (λ e. LeavesIn marking.old.markers.field marking.new.markers.field
        (λ m m'. StopsRecords M.id_of M.Identifier.eq (one_place A.conversion) M.Allocator.mapping M.Allocator.ids_past
        rows_of_one TellsOne (PartlyOne (one_place A.conversion).unloaded) list.items e (stand entities.old marking.old.allocator (record { 0 = one.old }) m)
        (stand entities.new marking.new.allocator (record { 0 = one.new }) m'))) }
{
    load_list(alloc, &mut (one,), entities, marking, list)
}

// A list of records with two places.
type TwoRecords<M, A, B> = Vec<
    EntityData<
        M,
        (
            Option<<A as ConvertSaveload<M>>::Data>,
            Option<<B as ConvertSaveload<M>>::Data>,
        ),
    >,
>;

// Loads a list into two storages.
pub(crate) fn load_two<M: Marker, A, B>(
    given: (Global, TwoRecords<M, A, B>),
    entities: &mut EntitiesRes,
    marking: &mut Marking<M, M::Allocator>,
    one: &mut MaskedStorage<A>,
    other: &mut MaskedStorage<B>,
) -> Result<(), LoadError>
where
    A: Component<Storage: UnprotectedStorage<A>> + Drop + ConvertSaveload<M>,
    B: Component<Storage: UnprotectedStorage<B>> + Drop + ConvertSaveload<M>,
    M::Allocator: MarkerAllocator<M>,
    requires clones { (m n : M) → M.is_clone m n → m ≡ n }
    requires registered { IsSome marking.old.markers.field }
    ensures gone { KeepsGone (population entities.old) (population entities.new) }
    ensures loaded { OnOk result (LeavesIn marking.old.markers.field marking.new.markers.field
        (λ m m'. LoadsRecords M.id_of M.Identifier.eq (two_places A.conversion B.conversion) M.Allocator.mapping M.Allocator.ids_past
        rows_of_two TellsTwo StoresInTwo given.1.items (stand entities.old marking.old.allocator (one.old, other.old) m) (stand entities.new marking.new.allocator (one.new, other.new) m'))) }
    ensures refused { IfErr result (λ e. LeavesIn marking.old.markers.field marking.new.markers.field
        (λ m m'. StopsRecords M.id_of M.Identifier.eq (two_places A.conversion B.conversion) M.Allocator.mapping M.Allocator.ids_past
        rows_of_two TellsTwo (PartlyTwo (place A.conversion).unloaded (place B.conversion).unloaded) given.1.items e
        (stand entities.old marking.old.allocator (one.old, other.old) m) (stand entities.new marking.new.allocator (one.new, other.new) m'))) }
{
    let (alloc, list) = given;
    load_list(alloc, &mut (one, other), entities, marking, list)
}

// The text of those that are alive and have a marker.
pub(crate) fn save_text<M: Marker + Copy + JsonData, P: SerializeComponents<M>>(
    alloc: Global,
    places: &P,
    entities: &EntitiesRes,
    markers: &MaskedStorage<M>,
) -> Result<String, SaveWorldError>
where
    P::Data: JsonPlaces,
    ensures saved { IfOk result (λ s. IsTextOf M.json M.from P.Data.places P.Data.from
        (IsSavedList P.conversion (λ e. found_in entities.now markers.now e) (λ e. P.values places.now e) (all_marked (population entities.now) markers.now)) (string_bytes s)) }
    ensures holds { OnOk result (HoldsReferences P.conversion (λ e. P.values places.now e) (all_marked (population entities.now) markers.now)) }
    ensures distinct { IfOk result (λ s. TellsApart M.id_of (λ e. found_in entities.now markers.now e)
        → IsTextOf M.json M.from P.Data.places P.Data.from (DistinctIds M.id_of) (string_bytes s)) }
    ensures refused { IfErr result (NotSaved ⊥ (RefusesSave P.conversion (λ e. found_in entities.now markers.now e) (λ e. P.values places.now e)
        (all_marked (population entities.now) markers.now))) }
{
    match serialize_to_json(alloc, places, &ReadStorage::new(entities, markers)) {
        Ok(text) => Ok(text),
        Err(error) => Err(SaveWorldError::Refused(error)),
    }
}
