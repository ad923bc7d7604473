//! What is saved in one world and loaded into another, in which nobody lives, is renamed, one to one: from the calls' contracts alone.
ghost use Rattle.std.specs.Prelude.{◌≡◌, ◌++◌, List, Option, IfSome, OnSome, OnOk};
ghost use Rattle.entities.specs.declared.entity.Entity.{Entity as Being};
ghost use Rattle.saveload.specs.Law.{IsEmpty, IsRenaming};
ghost use Rattle.saveload.specs.Loads.{column, loading};
ghost use Rattle.saveload.specs.Saved.{IsSavedList, DistinctIds, TellsApart, HoldsReferences, marked_by, marked_read};
ghost use Rattle.saveload.specs.Tuples.{two_places};
ghost use Rattle.storages.specs.ReadView.{found as seen};
ghost use Rattle.storages.specs.WriteView.{found};

use crate::saving::taken_up;
use saveload::{
    ConvertSaveload, EntityData, JsonData, JsonPlaces, LoadError, Marker, MarkerAllocator,
    SerializeComponents, from_json, serialize_recursive, serialize_to_json,
};
use specs::EntitiesRes;
use std::alloc::Global;
use storages::{Component, MaskedStorage, ReadStorage, UnprotectedStorage, WriteStorage};

/// What is saved, by way of a text: it is whole, and its ids differ where those of the markers do.
pub fn saved_and_read<M: Marker + Copy + JsonData + Drop, P: SerializeComponents<M>>(
    alloc: Global,
    places: &P,
    markers: &ReadStorage<'_, M>,
) -> Option<Vec<EntityData<M, P::Data>>>
where
    P::Data: JsonPlaces,
    ensures saved { IfSome result (λ list. IsSavedList P.conversion (λ e. seen markers.now e) (λ e. P.values places.now e) (marked_read markers.now) list.items) }
    ensures holds { OnSome result (HoldsReferences P.conversion (λ e. P.values places.now e) (marked_read markers.now)) }
    ensures distinct { TellsApart M.id_of (λ e. seen markers.now e) → IfSome result (λ list. DistinctIds M.id_of list.items) }
{
    let Ok(text) = serialize_to_json(alloc, places, markers) else {
        return None;
    };
    from_json(alloc, text.as_str()).ok()
}

/// Carries all that live and have a marker, with two components each, from one world over into another, by way of a text. Where nobody lived
/// there, no id was mapped there, and no two had markers of one id, each is renamed, one to one. Where the save was refused nothing is loaded.
pub fn carried_over<M, A, B>(
    alloc: Global,
    places: &(ReadStorage<'_, A>, ReadStorage<'_, B>),
    markers: &ReadStorage<'_, M>,
    masked: &mut (&mut MaskedStorage<A>, &mut MaskedStorage<B>),
    entities: &mut EntitiesRes,
    others: &mut MaskedStorage<M>,
    allocator: &mut M::Allocator,
) -> Result<(), LoadError>
where
    M: Marker + Copy + JsonData,
    M::Allocator: MarkerAllocator<M>,
    A: Component<Storage: UnprotectedStorage<A>> + Drop + ConvertSaveload<M>,
    B: Component<Storage: UnprotectedStorage<B>> + Drop + ConvertSaveload<M>,
    <A as ConvertSaveload<M>>::Data: JsonData,
    <B as ConvertSaveload<M>>::Data: JsonData,
    requires { (m n : M) → M.is_clone m n → m ≡ n }
    ensures { TellsApart M.id_of (λ e. seen markers.now e)
        → IsEmpty {V = Option A × Option B} (loading M.id_of M.Allocator.mapping M.Allocator.ids_past (λ s i. (column s.0.now i, column s.1.now i)) entities.old allocator.old others.old masked.old)
        → OnOk result (IsRenaming M.id_of (two_places A.conversion B.conversion) (λ e. seen markers.now e) (λ e. (seen places.now.0 e, seen places.now.1 e)) (marked_read markers.now)
        (loading M.id_of M.Allocator.mapping M.Allocator.ids_past (λ s i. (column s.0.now i, column s.1.now i)) entities.new allocator.new others.new masked.new)) }
{
    let Some(list) = saved_and_read(alloc, places, markers) else {
        return Err(LoadError::NotTheForm);
    };
    taken_up(alloc, masked, entities, others, allocator, list)?;
    Ok(())
}

/// The same of those that have markers and of all that these lead to, which get markers first: the list of them begins with those that had markers.
/// Those that they refer to are carried over with them, so each link leads to the one that it led to.
pub fn carried_over_whole<M, A, B>(
    alloc: Global,
    places: &(ReadStorage<'_, A>, ReadStorage<'_, B>),
    giver: &mut M::Allocator,
    markers: &mut WriteStorage<'_, M>,
    masked: &mut (&mut MaskedStorage<A>, &mut MaskedStorage<B>),
    entities: &mut EntitiesRes,
    others: &mut MaskedStorage<M>,
    allocator: &mut M::Allocator,
) -> Result<(), LoadError>
where
    M: Marker + Copy,
    M::Allocator: MarkerAllocator<M>,
    A: Component<Storage: UnprotectedStorage<A>> + Drop + ConvertSaveload<M>,
    B: Component<Storage: UnprotectedStorage<B>> + Drop + ConvertSaveload<M>,
    requires { (m n : M) → M.is_clone m n → m ≡ n }
    ensures { TellsApart M.id_of (λ e. found markers.new e)
        → IsEmpty {V = Option A × Option B} (loading M.id_of M.Allocator.mapping M.Allocator.ids_past (λ s i. (column s.0.now i, column s.1.now i)) entities.old allocator.old others.old masked.old)
        → OnOk result ((es added : List Being) × (es ≡ marked_by markers.old ++ added)
        × IsRenaming M.id_of (two_places A.conversion B.conversion) (λ e. found markers.new e) (λ e. (seen places.now.0 e, seen places.now.1 e)) es
        (loading M.id_of M.Allocator.mapping M.Allocator.ids_past (λ s i. (column s.0.now i, column s.1.now i)) entities.new allocator.new others.new masked.new)) }
{
    let Ok(list) = serialize_recursive(alloc, places, giver, markers) else {
        return Err(LoadError::NotTheForm);
    };
    taken_up(alloc, masked, entities, others, allocator, list)?;
    Ok(())
}
