//! Component types that are saved together.
ghost use Rattle.std.specs.Prelude.{◌≡◌, ℕ, Option, IfOk, IfErr, OnOk, string_bytes};
ghost use Rattle.entities.specs.Census.{Census, population};
ghost use Rattle.entities.specs.declared.entity.Entity.{Entity as Being};
ghost use Rattle.storages.specs.Found.{found_in};
ghost use Rattle.saveload.specs.Conversion.{Conversion};
ghost use Rattle.saveload.specs.Json.{IsTextOf};
ghost use Rattle.saveload.specs.Places.{place};
ghost use Rattle.saveload.specs.Saved.{DistinctIds, TellsApart};
ghost use Rattle.saveload.specs.Stops.{PartlyOne, PartlyTwo};
ghost use Rattle.saveload.specs.Tuples.{one_place, two_places};
ghost use Rattle.saveload.specs.declared.error.LoadError.{LoadError as Refusal};
ghost use Rattle.specs.specs.Laws.Gone.{KeepsGone};
ghost use Rattle.composed.specs.Stored.{OnBoth, IsMissing, LeavesBoth, one_of, two_of, rows_of_one, TellsOne, StoresInOne, rows_of_two, TellsTwo, StoresInTwo};
ghost use Rattle.composed.specs.Saves.{IsSavedOf, HoldsAllOf, RefusesOf, NotSaved};
ghost use Rattle.composed.specs.Loading.{list_in, stand, LoadsList, StopsList, NotLoaded, IsUnreadOr, IsSame};

use crate::marking::Marking;
use crate::saved_error::{LoadWorldError, SaveWorldError};
use crate::saved_lists::{load_one, load_two, save_text};
use crate::two::TwoFields;
use saveload::{ConvertSaveload, JsonData, JsonPlaces, Marker, MarkerAllocator, from_json};
use specs::{EntitiesRes, Field};
use std::alloc::Global;
use storages::{Component, MaskedStorage, ReadStorage, UnprotectedStorage};

/// A tuple of one or two component types whose storages stand in a struct, saved and loaded together. The places `P` are inferred.
///
/// Ports the tuples of `specs::saveload::SerializeComponents` and `specs::saveload::DeserializeComponents`, by the component types alone.
pub trait SavedTypes<M: Marker + Copy + JsonData, F, P> {
    // The storages of the types.
    type Lent;

    // A place for each of them.
    type Row;

    type Data: JsonPlaces + Drop;

    ghost conversion: { Conversion M Self.Row Self.Data };

    // The storages of a struct, or none, where one of them is not registered.
    ghost lent: { F → Option Self.Lent };

    ghost with_lent: { F → Self.Lent → F };

    // What an entity has in them.
    ghost values: { Census → Self.Lent → Being → Self.Row };

    // And an index.
    ghost rows: { Self.Lent → ℕ → Self.Row };

    // Of what was saved, an error of one of its places, an old row and a new one: the places before that one are the new row's, and the others the old one's.
    ghost Partly: { Self.Data → Refusal → Self.Row → Self.Row → Self.Row → Type 0 };

    // Each storage was changed by insertions and removals alone, of which its readers were told.
    ghost Changes: { Self.Lent → Self.Lent → Type 0 };

    // Of an index and a row: each place of the row was put there, or what was there was taken out, and the readers of each storage were told of that once, and of nothing else.
    ghost Stores: { Self.Lent → ℕ → Self.Row → Self.Lent → Type 0 };

    /// The text of those that are alive and have a marker.
    fn save(
        alloc: Global,
        fields: &F,
        entities: &EntitiesRes,
        marking: &Marking<M, M::Allocator>,
    ) -> Result<String, SaveWorldError>
        ensures saved { IfOk result (λ s. OnBoth (lent fields.now) marking.now.markers.field (λ l m. IsTextOf M.json M.from Self.Data.places Self.Data.from
            (IsSavedOf conversion values entities.now l m) (string_bytes s))) }
        ensures holds { OnOk result (OnBoth (lent fields.now) marking.now.markers.field (HoldsAllOf conversion values entities.now)) }
        ensures distinct { IfOk result (λ s. OnBoth (lent fields.now) marking.now.markers.field (λ l m. TellsApart M.id_of (λ e. found_in entities.now m e)
            → IsTextOf M.json M.from Self.Data.places Self.Data.from (DistinctIds M.id_of) (string_bytes s))) }
        ensures refused { IfErr result (NotSaved (IsMissing (lent fields.now) marking.now.markers.field)
            (λ e. OnBoth (lent fields.now) marking.now.markers.field (RefusesOf conversion values entities.now e))) };

    /// Takes up those of a text.
    fn load(
        alloc: Global,
        fields: &mut F,
        entities: &mut EntitiesRes,
        marking: &mut Marking<M, M::Allocator>,
        text: &str,
    ) -> Result<(), LoadWorldError>
    where
        M::Allocator: MarkerAllocator<M>,
        requires { (m n : M) → M.is_clone m n → m ≡ n }
        ensures gone { KeepsGone (population entities.old) (population entities.new) }
        ensures loaded { OnOk result (LeavesBoth lent with_lent (λ l m l' m'. LoadsList M.id_of M.Identifier.eq conversion M.Allocator.mapping M.Allocator.ids_past rows Changes Stores
            (list_in M.from Self.Data.from text.now) (stand entities.old marking.old.allocator l m) (stand entities.new marking.new.allocator l' m'))
            fields.old marking.old.markers.field fields.new marking.new.markers.field) }
        ensures refused { IfErr result (NotLoaded (IsMissing (lent fields.old) marking.old.markers.field × IsSame fields.old entities.old marking.old fields.new entities.new marking.new)
            (λ e. IsUnreadOr (lent fields.old) marking.old.markers.field (list_in M.from Self.Data.from text.now) (IsSame fields.old entities.old marking.old fields.new entities.new marking.new)
            (LeavesBoth lent with_lent (λ l m l' m'. StopsList M.id_of M.Identifier.eq conversion M.Allocator.mapping M.Allocator.ids_past rows Changes Partly
            (list_in M.from Self.Data.from text.now) e (stand entities.old marking.old.allocator l m) (stand entities.new marking.new.allocator l' m'))
            fields.old marking.old.markers.field fields.new marking.new.markers.field) e)) };
}

impl<M: Marker + Copy + JsonData, A, F: Field<MaskedStorage<A>, P>, P> SavedTypes<M, F, P> for (A,)
where
    A: Component<Storage: UnprotectedStorage<A>> + Drop + ConvertSaveload<M>,
    A::Data: JsonData,
{
    type Lent = (MaskedStorage<A>,);

    type Row = (Option<A>,);

    type Data = (Option<<A as ConvertSaveload<M>>::Data>,);

    ghost conversion = { one_place A.conversion };

    ghost lent = { λ f. one_of (λ s. record { 0 = s }) (F.part f) };

    ghost with_lent = { λ f l. F.with_part f l.0 };

    ghost values = { λ c l e. record { 0 = found_in c l.0 e } };

    ghost rows = { rows_of_one };

    ghost Partly = { PartlyOne (one_place A.conversion).unloaded };

    ghost Changes = { TellsOne };

    ghost Stores = { StoresInOne };

    fn save(
        alloc: Global,
        fields: &F,
        entities: &EntitiesRes,
        marking: &Marking<M, M::Allocator>,
    ) -> Result<String, SaveWorldError> {
        let (Some(one), Some(markers)) = (fields.field(), &marking.markers.field) else {
            return Err(SaveWorldError::Unregistered);
        };
        let places = (ReadStorage::new(entities, one),);
        save_text(alloc, &places, entities, markers)
    }

    fn load(
        alloc: Global,
        fields: &mut F,
        entities: &mut EntitiesRes,
        marking: &mut Marking<M, M::Allocator>,
        text: &str,
    ) -> Result<(), LoadWorldError>
    where
        M::Allocator: MarkerAllocator<M>,
    {
        if fields.field().is_none() || marking.markers.field.is_none() {
            return Err(LoadWorldError::Unregistered);
        }
        let list = match from_json(alloc, text) {
            Ok(list) => list,
            Err(error) => return Err(LoadWorldError::Refused(error)),
        };
        match fields.field_mut() {
            None => Err(LoadWorldError::Unregistered),
            Some(one) => match load_one(alloc, one, entities, marking, list) {
                Ok(()) => Ok(()),
                Err(error) => Err(LoadWorldError::Refused(error)),
            },
        }
    }
}

impl<M: Marker + Copy + JsonData, A, B, F, P> SavedTypes<M, F, P> for (A, B)
where
    F: TwoFields<MaskedStorage<A>, MaskedStorage<B>, P>,
    A: Component<Storage: UnprotectedStorage<A>> + Drop + ConvertSaveload<M>,
    A::Data: JsonData,
    B: Component<Storage: UnprotectedStorage<B>> + Drop + ConvertSaveload<M>,
    B::Data: JsonData,
{
    type Lent = (MaskedStorage<A>, MaskedStorage<B>);

    type Row = (Option<A>, Option<B>);

    type Data = (
        Option<<A as ConvertSaveload<M>>::Data>,
        Option<<B as ConvertSaveload<M>>::Data>,
    );

    ghost conversion = { two_places A.conversion B.conversion };

    ghost lent = { λ f. two_of (F.one f) (F.other f) };

    ghost with_lent = { λ f l. F.with_two f l.0 l.1 };

    ghost values = { λ c l e. (found_in c l.0 e, found_in c l.1 e) };

    ghost rows = { rows_of_two };

    ghost Partly = { PartlyTwo (place A.conversion).unloaded (place B.conversion).unloaded };

    ghost Changes = { TellsTwo };

    ghost Stores = { StoresInTwo };

    fn save(
        alloc: Global,
        fields: &F,
        entities: &EntitiesRes,
        marking: &Marking<M, M::Allocator>,
    ) -> Result<String, SaveWorldError> {
        let (Some((one, other)), Some(markers)) = (fields.two(), &marking.markers.field) else {
            return Err(SaveWorldError::Unregistered);
        };
        let places = (
            ReadStorage::new(entities, one),
            ReadStorage::new(entities, other),
        );
        save_text(alloc, &places, entities, markers)
    }

    fn load(
        alloc: Global,
        fields: &mut F,
        entities: &mut EntitiesRes,
        marking: &mut Marking<M, M::Allocator>,
        text: &str,
    ) -> Result<(), LoadWorldError>
    where
        M::Allocator: MarkerAllocator<M>,
    {
        if !fields.has_two() || marking.markers.field.is_none() {
            return Err(LoadWorldError::Unregistered);
        }
        let list = match from_json(alloc, text) {
            Ok(list) => list,
            Err(error) => return Err(LoadWorldError::Refused(error)),
        };
        let loaded = fields.with_two_beside((alloc, list), entities, marking, load_two::<M, A, B>);
        match loaded {
            None => Err(LoadWorldError::Unregistered),
            Some(Ok(())) => Ok(()),
            Some(Err(error)) => Err(LoadWorldError::Refused(error)),
        }
    }
}
