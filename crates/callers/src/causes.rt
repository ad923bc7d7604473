//! Components whose conversion has no causes of its own to fail.
ghost use Rattle.std.specs.Prelude.{◌≡◌, List, ℕ, Err};

use saveload::{
    DeserializeComponents, EntityData, LoadError, Marker, MarkerAllocator, SaveError,
    SerializeComponents, deserialize, serialize,
};
use specs::EntitiesRes;
use std::alloc::Global;
use storages::{MaskedStorage, ReadStorage};

/// Saves what no conversion refuses: no cause of its own is told.
pub fn saved_without_causes<M: Marker + Copy, P: SerializeComponents<M>>(
    alloc: Global,
    places: &P,
    markers: &ReadStorage<'_, M>,
) -> Result<Vec<EntityData<M, P::Data>>, SaveError>
    requires { (row : P.Row) (text : List ℕ) → P.conversion.unsaved row text → ⊥ }
    ensures { (text : _) → result ≡ Err (SaveError.Custom text) → ⊥ }
{
    serialize(alloc, places, markers)
}

/// Loads what no conversion refuses: no cause of its own is told.
pub fn taken_up_without_causes<M: Marker, P: DeserializeComponents<M>>(
    alloc: Global,
    masked: &mut P,
    entities: &mut EntitiesRes,
    markers: &mut MaskedStorage<M>,
    allocator: &mut M::Allocator,
    list: Vec<EntityData<M, P::Data>>,
) -> Result<(), LoadError>
where
    M::Allocator: MarkerAllocator<M>,
    requires same { (m n : M) → M.is_clone m n → m ≡ n }
    requires plain { (d : P.Data) (text : List ℕ) → P.conversion.unloaded d text → ⊥ }
    ensures { (text : _) → result ≡ Err (LoadError.Custom text) → ⊥ }
{
    deserialize(alloc, masked, entities, markers, allocator, list)
}
