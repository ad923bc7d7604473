//! A world, saved and loaded in one call each.
ghost use Rattle.std.specs.Prelude.{◌≡◌, Option, IfOk, IfErr, OnOk, string_bytes};
ghost use Rattle.entities.specs.Census.{Census, population};
ghost use Rattle.storages.specs.Found.{found_in};
ghost use Rattle.storages.specs.Slot.{Slot};
ghost use Rattle.saveload.specs.Json.{IsTextOf};
ghost use Rattle.saveload.specs.Saved.{DistinctIds, TellsApart};
ghost use Rattle.specs.specs.Laws.Gone.{KeepsGone};
ghost use Rattle.composed.specs.Stored.{OnBoth, IsMissing, LeavesBoth};
ghost use Rattle.composed.specs.Saves.{IsSavedOf, HoldsAllOf, RefusesOf, NotSaved};
ghost use Rattle.composed.specs.Loading.{list_in, stand, LoadsList, StopsList, NotLoaded, IsUnreadOr};

use crate::both::Both;
use crate::marking::Marking;
use crate::saved_error::{LoadWorldError, SaveWorldError};
use crate::saved_types::SavedTypes;
use saveload::{JsonData, Marker, MarkerAllocator};
use specs::{Core, Held, Parts, World, WorldParts};
use std::alloc::Global;

/// A world, a core or the parts of one, whose storages are those of a struct `F` and the markers beside them. `T` names the component types that are
/// saved, one or two of them; where each stands is inferred, as in `world.save_to_json::<(Name, Target), _>(alloc)`.
///
/// Ports `SerializeComponents::serialize` and `DeserializeComponents::deserialize` over a `World`, with JSON.
pub trait SavesWorld<F, M: Marker + Copy + JsonData>: Sized
where
    M::Allocator: MarkerAllocator<M>,
{
    ghost entities: { Self → Census };

    ghost fields: { Self → F };

    ghost markers: { Self → Option (Slot M) };

    ghost allocator: { Self → M.Allocator };

    ghost left: { Self → Census → F → Option (Slot M) → M.Allocator → Self };

    /// The compact text of those that are alive and have a marker, ascending, each with its marker and its components of the types `T`; nothing changes.
    /// It marks nothing: a component that refers to an entity without a marker is refused. Where one of the types or the markers are not registered it
    /// is `Unregistered`, and whatever `serialize_to_json` refuses is `Refused`. It takes what `serialize_to_json` takes.
    fn save_to_json<T: SavedTypes<M, F, P>, P>(
        &mut self,
        alloc: Global,
    ) -> Result<String, SaveWorldError>
        ensures saved { IfOk result (λ s. OnBoth (T.lent (fields self.old)) (markers self.old) (λ l m. IsTextOf M.json M.from T.Data.places T.Data.from
            (IsSavedOf T.conversion T.values (entities self.old) l m) (string_bytes s))) }
        ensures holds { OnOk result (OnBoth (T.lent (fields self.old)) (markers self.old) (HoldsAllOf T.conversion T.values (entities self.old))) }
        ensures distinct { IfOk result (λ s. OnBoth (T.lent (fields self.old)) (markers self.old) (λ l m. TellsApart M.id_of (λ e. found_in (entities self.old) m e)
            → IsTextOf M.json M.from T.Data.places T.Data.from (DistinctIds M.id_of) (string_bytes s))) }
        ensures refused { IfErr result (NotSaved (IsMissing (T.lent (fields self.old)) (markers self.old))
            (λ e. OnBoth (T.lent (fields self.old)) (markers self.old) (RefusesOf T.conversion T.values (entities self.old) e))) }
        ensures same { self.new ≡ self.old };

    /// Loads what a text holds, record by record, into the storages of the types `T`, in the order in which they were saved. An id names the entity that
    /// it is mapped to, if that is alive and has a marker of this id, and else a new one, whose birth is pending; links lead to the entities that their
    /// ids name. The places of a record take the place of what its entity had.
    ///
    /// Where one of the types or the markers are not registered it is `Unregistered`, and where the text is not of the form of a saved list of these
    /// types it is refused as `NotTheForm`: nothing changed. After another refusal the records before the refused one are loaded, and of that one the
    /// entities made and the places before the refused one stay. It takes what `from_json` and `deserialize` take.
    fn load_from_json<T: SavedTypes<M, F, P>, P>(
        &mut self,
        alloc: Global,
        text: &str,
    ) -> Result<(), LoadWorldError>
        requires { (m n : M) → M.is_clone m n → m ≡ n }
        ensures gone { KeepsGone (population (entities self.old)) (population (entities self.new)) }
        ensures loaded { OnOk result (LeavesBoth T.lent T.with_lent (λ l m l' m'. LoadsList M.id_of M.Identifier.eq T.conversion M.Allocator.mapping M.Allocator.ids_past T.rows T.Changes T.Stores
            (list_in M.from T.Data.from text.now) (stand (entities self.old) (allocator self.old) l m) (stand (entities self.new) (allocator self.new) l' m'))
            (fields self.old) (markers self.old) (fields self.new) (markers self.new)) }
        ensures refused { IfErr result (NotLoaded (IsMissing (T.lent (fields self.old)) (markers self.old) × (self.new ≡ self.old))
            (λ e. IsUnreadOr (T.lent (fields self.old)) (markers self.old) (list_in M.from T.Data.from text.now) (self.new ≡ self.old)
            (LeavesBoth T.lent T.with_lent (λ l m l' m'. StopsList M.id_of M.Identifier.eq T.conversion M.Allocator.mapping M.Allocator.ids_past T.rows T.Changes T.Partly
            (list_in M.from T.Data.from text.now) e (stand (entities self.old) (allocator self.old) l m) (stand (entities self.new) (allocator self.new) l' m'))
            (fields self.old) (markers self.old) (fields self.new) (markers self.new)) e)) }
        ensures only { self.new ≡ left self.old (entities self.new) (fields self.new) (markers self.new) (allocator self.new) };
}

impl<F, M: Marker + Copy + JsonData> SavesWorld<F, M> for Parts<Both<F, Marking<M, M::Allocator>>>
where
    M::Allocator: MarkerAllocator<M>,
{
    ghost entities = { λ p. p.entities };

    ghost fields = { λ p. p.storages.first };

    ghost markers = { λ p. p.storages.rest.markers.field };

    ghost allocator = { λ p. p.storages.rest.allocator };

    ghost left = { λ p e f m a. record { entities = e; storages = record { first = f; rest = record { markers = record { field = m }; allocator = a } } } };

    fn save_to_json<T: SavedTypes<M, F, P>, P>(
        &mut self,
        alloc: Global,
    ) -> Result<String, SaveWorldError> {
        let Parts { entities, storages } = self;
        T::save(alloc, &storages.first, entities, &storages.rest)
    }

    fn load_from_json<T: SavedTypes<M, F, P>, P>(
        &mut self,
        alloc: Global,
        text: &str,
    ) -> Result<(), LoadWorldError> {
        let Parts { entities, storages } = self;
        let Both { first, rest } = storages;
        T::load(alloc, first, entities, rest, text)
    }
}

impl<F: Held, M: Marker + Copy + JsonData> SavesWorld<F, M>
    for Core<Both<F, Marking<M, M::Allocator>>>
where
    M::Allocator: MarkerAllocator<M>,
{
    ghost entities = { λ c. c.parts.entities };

    ghost fields = { λ c. c.parts.storages.first };

    ghost markers = { λ c. c.parts.storages.rest.markers.field };

    ghost allocator = { λ c. c.parts.storages.rest.allocator };

    ghost left = { λ c e f m a. record c { parts = record { entities = e; storages = record { first = f; rest = record { markers = record { field = m }; allocator = a } } } } };

    fn save_to_json<T: SavedTypes<M, F, P>, P>(
        &mut self,
        alloc: Global,
    ) -> Result<String, SaveWorldError> {
        self.parts().save_to_json::<T, P>(alloc)
    }

    fn load_from_json<T: SavedTypes<M, F, P>, P>(
        &mut self,
        alloc: Global,
        text: &str,
    ) -> Result<(), LoadWorldError> {
        self.parts().load_from_json::<T, P>(alloc, text)
    }
}

impl<F: Held, M: Marker + Copy + JsonData, J: Drop> SavesWorld<F, M>
    for World<Both<F, Marking<M, M::Allocator>>, J>
where
    M::Allocator: MarkerAllocator<M>,
{
    ghost entities = { λ w. w.parts.core.parts.entities };

    ghost fields = { λ w. w.parts.core.parts.storages.first };

    ghost markers = { λ w. w.parts.core.parts.storages.rest.markers.field };

    ghost allocator = { λ w. w.parts.core.parts.storages.rest.allocator };

    ghost left = { λ w e f m a. let q = w.parts in let c = q.core in record w {
      parts =
          record q { core = record c { parts = record { entities = e; storages = record { first = f; rest = record { markers = record { field = m }; allocator = a } } } } };
    } };

    fn save_to_json<T: SavedTypes<M, F, P>, P>(
        &mut self,
        alloc: Global,
    ) -> Result<String, SaveWorldError> {
        let WorldParts { core, lazy: _ } = self.parts();
        core.save_to_json::<T, P>(alloc)
    }

    fn load_from_json<T: SavedTypes<M, F, P>, P>(
        &mut self,
        alloc: Global,
        text: &str,
    ) -> Result<(), LoadWorldError> {
        let WorldParts { core, lazy: _ } = self.parts();
        core.load_from_json::<T, P>(alloc, text)
    }
}
