//! The ids of those that live and have a marker.
ghost use Rattle.std.specs.Prelude.{◌≡◌, None, IfOk, OnOk};
ghost use Rattle.std.specs.HashMap as hash;
ghost use Rattle.entities.specs.Census.{population};
ghost use Rattle.entities.specs.Population.{index_of};
ghost use Rattle.saveload.specs.Naming.{ids_in};
ghost use Rattle.saveload.specs.Remapping.{living_ids, put_all, put_own};

use crate::marker::Marker;
use crate::save::marked;
use entities::{EntitiesRes, Entity};
use std::alloc::{AllocError, Global};
use std::collections::HashMap;
use std::hash::Hash;
use storages::MaskedStorage;

// The map from the ids of the entities that live and have a marker to these.
pub(crate) fn remapped<M: Marker>(
    alloc: Global,
    entities: &EntitiesRes,
    storage: &MaskedStorage<M>,
) -> Result<HashMap<M::Identifier, Entity>, AllocError>
where
    M::Identifier: Hash,
    ensures { IfOk result (λ ids. hash.get M.Identifier.eq ids ≡ living_ids M.id_of M.Identifier.eq (population entities.now) storage.now) }
{
    let list = marked(alloc, entities, storage)?;
    ids_of(alloc, storage, &list)
}

// The map from the ids of a list of entities to these, put one after another.
fn ids_of<M: Marker>(
    alloc: Global,
    storage: &MaskedStorage<M>,
    list: &[Entity],
) -> Result<HashMap<M::Identifier, Entity>, AllocError>
where
    M::Identifier: Hash,
    ensures { IfOk result (λ ids. hash.get M.Identifier.eq ids ≡ put_all M.Identifier.eq (ids_in M.id_of storage.now) list.now (λ _. None)) }
{
    let mut ids = HashMap::new(alloc);
    for e in list {
        map_to(&mut ids, storage, *e)?;
    }
    Ok(ids)
}

// Maps the id of an entity's marker to it, if it has one.
fn map_to<M: Marker>(
    ids: &mut HashMap<M::Identifier, Entity>,
    storage: &MaskedStorage<M>,
    e: Entity,
) -> Result<(), AllocError>
where
    M::Identifier: Hash,
    ensures { OnOk result (hash.get M.Identifier.eq ids.new ≡ put_own M.Identifier.eq (ids_in M.id_of storage.now (index_of e)) e (hash.get M.Identifier.eq ids.old)) }
{
    let Some(marker) = storage.get(e.id()) else {
        return Ok(());
    };
    ids.insert(marker.id(), e)?;
    Ok(())
}
