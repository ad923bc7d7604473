//! Calls of entities and of phases, one in each function, none of which has a contract.
use entities::{Closed, EntitiesRes, Entity, OpenError};
use phase_threads::{Turn, in_threads};
use std::alloc::Global;
use std::test::Fail;
use std::thread::Threads;

/// The entity of an index and its first generation.
pub fn first_of(index: u32) -> Option<Entity> {
    Entity::from_parts(index, 1)
}

/// An entity whose birth is pending.
pub fn raised(entities: &mut EntitiesRes) -> Result<Entity, Fail> {
    Ok(entities.create().ok().ok_or("a birth")?)
}

/// Whether an entity is alive, be it merged or pending.
pub fn is_there(entities: &EntitiesRes, e: Entity) -> bool {
    entities.is_alive(e)
}

/// Whether an entity is alive and merged.
pub fn is_merged(entities: &mut EntitiesRes, e: Entity) -> bool {
    entities.alloc_mut().is_merged(e)
}

/// Whether an entity's index is marked.
pub fn is_marked(entities: &EntitiesRes, e: Entity) -> bool {
    entities.marked().contains(e.id())
}

/// How many entities are alive and merged.
pub fn merged_count(entities: &EntitiesRes) -> usize {
    entities.alive().count()
}

/// Those that die at a merge.
pub fn dead_of_merge(alloc: Global, entities: &mut EntitiesRes) -> Result<Vec<Entity>, Fail> {
    Ok(entities.alloc_mut().merge(alloc)?)
}

/// A phase with this reserve and as many passes, each of which takes the turn in a thread.
pub fn pressed<T: Turn + Sync>(
    rt: &(impl Threads + Sync),
    alloc: Global,
    entities: &mut EntitiesRes,
    reserve: u32,
    passes: usize,
    turn: &T,
) -> Result<(Closed, Vec<T::Answer>), OpenError> {
    in_threads(rt, alloc, entities, reserve, passes, turn)
}
