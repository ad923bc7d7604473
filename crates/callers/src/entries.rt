//! The place of one index, written through.
ghost use Rattle.std.specs.Prelude.{◌≡◌, true, Ok, IfOk, IfSome};
ghost use Rattle.std.specs.FinMap as map;
ghost use Rattle.entities.specs.Population.{index_of};
ghost use Rattle.storages.specs.Limit.{IsIndex};
ghost use Rattle.storages.specs.WriteView.{slot};

use crate::components::Health;
use entities::Entity;
use std::alloc::AllocError;
use storages::{MaskedStorage, StorageEntry, WriteStorage};

/// Ninety points at an entity that is alive, whether it had health or not.
pub fn ninety_at(view: &mut WriteStorage<'_, Health>, e: Entity) -> bool
    ensures { result ≡ true → (slot view.new).map ≡ map.insert (slot view.old).map (index_of e) (record { points = 90; shield = 1 }) }
{
    match view.live(e) {
        Ok(masked) => {
            match masked.entry(e.id()).or_insert(Health::default()) {
                Ok(place) => {
                    *place = Health {
                        points: 90,
                        shield: 1,
                    }
                }
                Err(_) => return false,
            }
            let _masked = &*masked;
            true
        }
        Err(_) => false,
    }
}

/// Three points at an index that has health, which is found there afterwards.
#[tactic(auto, using(storages::specs::Finds::got_put))]
pub fn three_and_found(
    masked: &mut MaskedStorage<Health>,
    id: u32,
) -> Result<Option<u32>, AllocError>
    requires { IsIndex id }
    ensures { IfOk result (λ points. IfSome points (λ n. n ≡ 3)) }
{
    match masked.entry(id) {
        StorageEntry::Occupied(entry) => {
            let place = entry.into_mut()?;
            *place = Health {
                points: 3,
                shield: 3,
            };
        }
        StorageEntry::Vacant(_entry) => return Ok(None),
    }
    match masked.get(id) {
        Some(health) => Ok(Some(health.points)),
        None => unreachable!(),
    }
}

/// What was at an index is taken out through its place.
pub fn taken(masked: &mut MaskedStorage<Health>, id: u32) -> Result<bool, AllocError>
    requires { IsIndex id }
    ensures told { IfOk result (λ there. there ≡ map.contains_key masked.old.map id) }
    ensures gone { result ≡ Ok true → masked.new.map ≡ map.remove masked.old.map id }
{
    match masked.entry(id) {
        StorageEntry::Occupied(entry) => {
            entry.remove()?;
            Ok(true)
        }
        StorageEntry::Vacant(_entry) => Ok(false),
    }
}
