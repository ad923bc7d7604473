//! What is saved and loaded elsewhere is renamed, one to one; what marking says of the ids.
ghost use Rattle.std.specs.Prelude.{◌≡◌, ◌<◌, ◌^◌, ℕ, None, Some, IsTrue, IfSome, OnSome, OnOk, is_some, true};
ghost use Rattle.entities.specs.Census.{population};
ghost use Rattle.saveload.specs.Law.{RenamesInto};
ghost use Rattle.saveload.specs.Naming.{once_given};
ghost use Rattle.saveload.specs.Saved.{IsSavedList, marked_read};
ghost use Rattle.saveload.specs.Simple.{given};
ghost use Rattle.saveload.specs.Told.{IsTold, StoresEach, StoresOnce};
ghost use Rattle.saveload.specs.Tuples.{two_places};
ghost use Rattle.storages.specs.Life.{is_alive};
ghost use Rattle.storages.specs.ReadView.{found as seen};
ghost use Rattle.storages.specs.WriteView.{entities_of, found};

use saveload::{
    ConvertSaveload, DeserializeComponents, EntityData, JsonData, JsonPlaces, LoadError, MarkError,
    Marker, MarkerAllocator, SaveError, SerializeComponents, SimpleMarker, SimpleMarkerAllocator,
    deserialize, from_json, next_number_is_new, one_renaming, serialize_recursive,
    serialize_to_json,
};
use specs::{EntitiesRes, Entity};
use std::alloc::Global;
use storages::{Component, MaskedStorage, ReadStorage, UnprotectedStorage, WriteStorage};

/// Loads a list where nobody lives and no id is mapped. Wherever it was saved whole, with distinct ids, it is renamed, one to one.
pub fn taken_up<M: Marker, P: DeserializeComponents<M>>(
    alloc: Global,
    masked: &mut P,
    entities: &mut EntitiesRes,
    markers: &mut MaskedStorage<M>,
    allocator: &mut M::Allocator,
    list: Vec<EntityData<M, P::Data>>,
) -> Result<(), LoadError>
where
    M::Allocator: MarkerAllocator<M>,
    requires { (m n : M) → M.is_clone m n → m ≡ n }
    ensures { OnOk result (RenamesInto M.id_of P.conversion M.Allocator.mapping M.Allocator.ids_past P.rows
        entities.old allocator.old markers.old masked.old list.items entities.new allocator.new markers.new masked.new) }
{
    one_renaming::<M, P>();
    deserialize(alloc, masked, entities, markers, allocator, list)
}

/// The same into two storages: their readers were told of each change, and those of the markers too; where all is loaded, of one change a record and
/// place that was stored or taken out.
pub fn taken_up_in_two<M: Marker, A, B>(
    alloc: Global,
    masked: &mut (&mut MaskedStorage<A>, &mut MaskedStorage<B>),
    entities: &mut EntitiesRes,
    markers: &mut MaskedStorage<M>,
    allocator: &mut M::Allocator,
    list: Vec<EntityData<M, (Option<A::Data>, Option<B::Data>)>>,
) -> Result<(), LoadError>
where
    M::Allocator: MarkerAllocator<M>,
    A: Component<Storage: UnprotectedStorage<A>> + Drop + ConvertSaveload<M>,
    B: Component<Storage: UnprotectedStorage<B>> + Drop + ConvertSaveload<M>,
    requires { (m n : M) → M.is_clone m n → m ≡ n }
    ensures first { IsTold masked.old.0.now masked.new.0.now }
    ensures second { IsTold masked.old.1.now masked.new.1.now }
    ensures markers { IsTold markers.old markers.new }
    ensures each { OnOk result (StoresEach (λ s i row t. StoresOnce s.0.now i row.0 t.0.now × StoresOnce s.1.now i row.1 t.1.now)
        (two_places A.conversion B.conversion) masked.old list.items masked.new) }
{
    deserialize(alloc, masked, entities, markers, allocator, list)
}

/// Loads where no number is mapped. The next new number is then mapped to nobody, so that none is given twice.
pub fn taken_up_by_numbers<T, P: DeserializeComponents<SimpleMarker<T>>>(
    alloc: Global,
    masked: &mut P,
    entities: &mut EntitiesRes,
    markers: &mut MaskedStorage<SimpleMarker<T>>,
    allocator: &mut SimpleMarkerAllocator<T>,
    list: Vec<EntityData<SimpleMarker<T>, P::Data>>,
) -> Result<(), LoadError>
    requires { (id : ℕ) → given allocator.old id ≡ None }
    ensures { OnOk result (allocator.new.next < 2 ^ 64 → given allocator.new allocator.new.next ≡ None) }
{
    next_number_is_new::<T, P>();
    deserialize(alloc, masked, entities, markers, allocator, list)
}

/// The entity that a marker names, if its id was mapped to none: a new one, and its id counts as given.
pub fn named_anew<M: Marker, A: MarkerAllocator<M>>(
    allocator: &mut A,
    marker: M,
    markers: &mut MaskedStorage<M>,
    entities: &mut EntitiesRes,
) -> Option<Entity>
    requires { A.mapping allocator.old (M.id_of marker) ≡ None }
    ensures mapped { IfSome result (λ e. A.mapping allocator.new (M.id_of marker) ≡ Some e) }
    ensures given { OnSome result (A.ids_past allocator.new ≡ once_given (A.ids_past allocator.old) (M.id_of marker)) }
{
    allocator.retrieve_entity(marker, markers, entities).ok()
}

/// What is saved, by way of a text.
pub fn saved_by_text<M: Marker + Copy + JsonData + Drop, P: SerializeComponents<M>>(
    alloc: Global,
    places: &P,
    markers: &ReadStorage<'_, M>,
) -> Option<Vec<EntityData<M, P::Data>>>
where
    P::Data: JsonPlaces,
    ensures { IfSome result (λ list. IsSavedList P.conversion (λ e. seen markers.now e) (λ e. P.values places.now e) (marked_read markers.now) list.items) }
{
    let Ok(text) = serialize_to_json(alloc, places, markers) else {
        return None;
    };
    from_json(alloc, text.as_str()).ok()
}

/// Whether a save that marks finds the ids used up: none is left then.
pub fn lacks_ids<M: Marker + Copy, A: MarkerAllocator<M>, P: SerializeComponents<M>>(
    alloc: Global,
    places: &P,
    allocator: &mut A,
    markers: &mut WriteStorage<'_, M>,
) -> bool
    ensures { IsTrue result → A.ids allocator.new ≡ Some 0 }
{
    match serialize_recursive(alloc, places, allocator, markers) {
        Err(SaveError::IdsExhausted) => true,
        _ => false,
    }
}

/// Whether an entity is refused a marker: it is alive and has none.
pub fn stays_unmarked<M: Marker, A: MarkerAllocator<M>>(
    allocator: &mut A,
    e: Entity,
    markers: &mut WriteStorage<'_, M>,
) -> bool
    ensures alive { IsTrue result → is_alive (population (entities_of markers.old)) e ≡ true }
    ensures unmarked { IsTrue result → found markers.old e ≡ None }
    ensures left { IsTrue result → A.ids allocator.new ≡ A.ids allocator.old }
{
    allocator.mark(e, markers).is_err()
}

/// Where ids are drawn, a new marker's id was mapped to nobody, and one that was refused as taken is mapped to somebody.
pub fn drawn_for<M: Marker, A: MarkerAllocator<M>>(allocator: &mut A, e: Entity) -> Option<M>
    requires { A.ids allocator.old ≡ None }
    ensures new { IfSome result (λ m. A.mapping allocator.old (M.id_of m) ≡ None) }
    ensures coming { IfSome result (λ m. M.id_of m ≡ A.coming allocator.old) }
{
    allocator.allocate(e, None).ok()
}

/// Whether an entity is refused a marker since the id that was drawn for it is taken.
pub fn finds_it_taken<M: Marker, A: MarkerAllocator<M>>(
    allocator: &mut A,
    e: Entity,
    markers: &mut WriteStorage<'_, M>,
) -> bool
    ensures { IsTrue result → is_some (A.mapping allocator.old (A.coming allocator.old)) ≡ true }
{
    match allocator.mark(e, markers) {
        Err(MarkError::IdTaken) => true,
        _ => false,
    }
}
