//! A component of one's own, from insertion to removal.
ghost use Rattle.std.specs.Prelude.{◌≡◌, ◌≢◌, None, Some, true, false, IfOk, IfSome, IsSome, OnOk};
ghost use Rattle.std.specs.FinMap as map;
ghost use Rattle.entities.specs.Census.{population};
ghost use Rattle.entities.specs.Population.{index_of};
ghost use Rattle.storages.specs.Life.{is_alive};
ghost use Rattle.storages.specs.ReadView.{entities_of};
ghost use Rattle.storages.specs.WriteView.{slot, found};

use entities::Entity;
use std::alloc::{AllocError, Global};
use storages::{
    Component, DenseVecStorage, InsertError, MaskedStorage, ReadStorage, TryDefault, WriteStorage,
};

/// How healthy an entity is.
#[derive(Clone, Copy, PartialEq, Eq, Debug, Default)]
pub struct Health {
    /// What is left of its health.
    pub points: u32,
    /// What a hit has to pass first.
    pub shield: u32,
}

impl Component for Health {
    type Storage = DenseVecStorage<Self>;
}

/// A storage without healths, in which no event needs room.
pub fn healths(alloc: Global) -> Result<MaskedStorage<Health>, String>
    ensures map { IfOk result (λ s. s.map ≡ map.empty) }
    ensures room { IfOk result (λ s. s.room ≡ None) }
{
    Ok(MaskedStorage::new(alloc, DenseVecStorage::try_default(alloc)?))
}

/// The same, which takes no memory: it is never refused.
pub fn no_healths(alloc: Global) -> MaskedStorage<Health>
    ensures { result.map ≡ map.empty }
{
    match DenseVecStorage::try_default(alloc) {
        Ok(storage) => MaskedStorage::new(alloc, storage),
        Err(_) => unreachable!(),
    }
}

/// What was inserted is found.
#[tactic(auto, using(storages::specs::Finds::found_put))]
pub fn inserted_and_found(
    view: &mut WriteStorage<'_, Health>,
    e: Entity,
) -> Result<u32, InsertError<Health>>
    ensures { IfOk result (λ points. points ≡ 100) }
{
    view.insert(
        e,
        Health {
            points: 100,
            shield: 5,
        },
    )?;
    match view.get(e) {
        Some(health) => Ok(health.points),
        None => unreachable!(),
    }
}

/// A hit on an entity with health is never refused, and one on an entity without changes nothing.
pub fn hit(view: &mut WriteStorage<'_, Health>, e: Entity, damage: u32) -> Option<u32>
    requires { (slot view.old).room ≡ None }
    ensures none { found view.old e ≡ None → result ≡ None }
    ensures some { IsSome (found view.old e) → IsSome result }
{
    match view.get_mut(e) {
        Ok(health) => {
            health.points = health.points.saturating_sub(damage);
            Some(health.points)
        }
        Err(_) => None,
    }
}

/// A component that was taken out is found no more.
#[tactic(auto, using(storages::specs::Finds::found_gone))]
pub fn taken_and_gone(view: &mut WriteStorage<'_, Health>, e: Entity) -> Result<bool, AllocError>
    ensures { IfOk result (λ there. there ≡ false) }
{
    view.remove(e)?;
    Ok(view.contains(e))
}

/// A removal leaves the components of other entities.
#[tactic(auto, using(storages::specs::Finds::found_left))]
pub fn removed_beside(
    view: &mut WriteStorage<'_, Health>,
    e: Entity,
    other: Entity,
) -> Result<(), AllocError>
    requires { index_of other ≢ index_of e }
    ensures { OnOk result (found view.new other ≡ found view.old other) }
{
    view.remove(e)?;
    Ok(())
}

/// An entity that is not alive finds nothing, whatever the storage has at its index.
#[tactic(auto, using(storages::specs::Finds::found_dead))]
pub fn dead_and_gone(view: &ReadStorage<'_, Health>, e: Entity) -> bool
    requires { is_alive (population (entities_of view.now)) e ≡ false }
    ensures { result ≡ false }
{
    view.contains(e)
}

/// A second view is always there.
pub fn viewed_twice(view: &ReadStorage<'_, Health>, e: Entity) -> bool
    ensures { result ≡ true }
{
    match view.clone() {
        Ok(second) => second.contains(e) == view.contains(e),
        Err(_) => unreachable!(),
    }
}
