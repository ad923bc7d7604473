//! Calls of a world, one in each function, none of which has a contract. A call of the library is slow to prove wherever it stands, and a call of
//! one of these is not: stories are told by these alone.
use composed::Empty;
use script_slots::{Health, Position};
use specs::{
    CloneStorages, Command, Entity, Has, Index, Job, JobList, Maintained, Reply, SetExpr, Storages,
    World, WorldJob, component, slot, value,
};
use std::alloc::{AllocError, Global};
use std::test::Fail;
use storages::{Component, UnprotectedStorage};

/// The entity of an index and a generation.
pub fn entity(index: u32, generation: i32) -> Result<Entity, Fail> {
    Ok(Entity::from_parts(index, generation).ok_or("a generation that is 0")?)
}

/// The slot of positions.
pub fn positions<P, S: Has<Position, P>>() -> S::Slot {
    slot::<Position, S, _>()
}

/// The slot of healths.
pub fn healths<H, S: Has<Health, H>>() -> S::Slot {
    slot::<Health, S, _>()
}

/// A position, as a value.
pub fn position<P, S: Has<Position, P>>(x: i64) -> S::Value {
    value::<_, S, _>(Position(x))
}

/// A health, as a value.
pub fn health<H, S: Has<Health, H>>(points: i64) -> S::Value {
    value::<_, S, _>(Health(points))
}

/// The position that a value is.
fn position_of<P, S: Storages + Has<Position, P>>(value: S::Value) -> Option<i64> {
    match component::<Position, S, _>(value) {
        Ok(Position(x)) => Some(x),
        Err(_) => None,
    }
}

/// A new world over empty storages.
pub fn fresh<S: Storages + Empty, J: WorldJob<S>>(alloc: Global) -> World<S, J> {
    World::new(alloc, S::empty(alloc))
}

/// The reply to a command.
pub fn does<S: CloneStorages, J: WorldJob<S>>(
    world: &mut World<S, J>,
    command: Command<S, J>,
) -> Reply<S::Value> {
    world.apply(command)
}

/// Whether a command is done, and nothing is replied but that.
pub fn is_done<S: CloneStorages, J: WorldJob<S>>(
    world: &mut World<S, J>,
    command: Command<S, J>,
) -> bool {
    matches!(does(world, command), Reply::Done)
}

/// The entity that is born by a command.
pub fn born<S: CloneStorages, J: WorldJob<S>>(
    world: &mut World<S, J>,
    birth: Command<S, J>,
) -> Option<Entity> {
    match does(world, birth) {
        Reply::Entity(e) => Some(e),
        _ => None,
    }
}

/// Puts a value at an entity that has none of its slot, and answers whether it went so.
pub fn put<S: CloneStorages, J: WorldJob<S>>(
    world: &mut World<S, J>,
    e: Entity,
    value: S::Value,
) -> bool {
    matches!(does(world, Command::Insert(e, value)), Reply::Value(None))
}

/// The value of an entity in a slot, or none.
pub fn got<S: CloneStorages, J: WorldJob<S>>(
    world: &mut World<S, J>,
    slot: S::Slot,
    e: Entity,
) -> Option<S::Value> {
    match does(world, Command::Get(slot, e)) {
        Reply::Value(found) => found,
        _ => None,
    }
}

/// Whether an entity has a value in a slot.
pub fn has<S: CloneStorages, J: WorldJob<S>>(
    world: &mut World<S, J>,
    slot: S::Slot,
    e: Entity,
) -> bool {
    got(world, slot, e).is_some()
}

/// The position of an entity, by a command.
pub fn position_at<P, S: CloneStorages + Has<Position, P>, J: WorldJob<S>>(
    world: &mut World<S, J>,
    e: Entity,
) -> Option<i64> {
    match got(world, positions::<P, S>(), e) {
        Some(found) => position_of::<P, S>(found),
        None => None,
    }
}

/// The replies to commands.
pub fn run<S: CloneStorages>(
    world: &mut World<S>,
    commands: Vec<Command<S>>,
) -> Result<Vec<Reply<S::Value>>, AllocError> {
    world.run(commands)
}

/// Registers a component type.
pub fn register<T: Component, I, S: Storages + Has<T, I>, J: WorldJob<S>>(
    world: &mut World<S, J>,
) -> bool
where
    T::Storage: UnprotectedStorage<T>,
{
    world.register::<T, I>().is_ok()
}

/// Registers positions and healths.
pub fn register_both<P, H, S: Storages + Has<Position, P> + Has<Health, H>, J: WorldJob<S>>(
    world: &mut World<S, J>,
) -> bool {
    let there = register::<Position, P, S, J>(world);
    register::<Health, H, S, J>(world) && there
}

/// Whether an entity is alive and merged.
pub fn lives<S: Storages, J: WorldJob<S>>(world: &World<S, J>, e: Entity) -> bool {
    world.is_alive(e)
}

/// Whether an entity is alive, be it merged or pending.
pub fn is_there<S: Storages, J: WorldJob<S>>(world: &World<S, J>, e: Entity) -> bool {
    world.entities().is_alive(e)
}

/// The entity of an index.
pub fn entity_at<S: Storages, J: WorldJob<S>>(world: &World<S, J>, index: Index) -> Entity {
    world.entities().entity(index)
}

/// An entity whose birth is pending.
pub fn raised<S: Storages, J: WorldJob<S>>(world: &mut World<S, J>) -> Result<Entity, Fail> {
    let entities = &mut world.parts().core.parts().entities;
    Ok(entities.create().ok().ok_or("a birth")?)
}

/// Deletes an entity, and answers whether it was not refused.
pub fn delete<S: Storages, J: WorldJob<S>>(world: &mut World<S, J>, e: Entity) -> bool {
    world.delete_entity(e).is_ok()
}

/// Marks an entity, which then dies with the next maintain, and answers whether it was not refused.
pub fn mark<S: Storages, J: WorldJob<S>>(world: &mut World<S, J>, e: Entity) -> bool {
    world.parts().core.parts().entities.delete(e).is_ok()
}

/// What maintaining a world came to.
pub fn maintained<S: Storages, J: WorldJob<S>>(
    world: &mut World<S, J>,
    limit: u64,
) -> Result<Maintained, AllocError> {
    world.maintain(limit)
}

/// Whether just these die when a world is maintained.
pub fn die<S: Storages, J: WorldJob<S>>(world: &mut World<S, J>, dead: &[Entity]) -> bool {
    match maintained(world, 0) {
        Ok(told) => told.deleted.as_slice() == dead,
        Err(_) => false,
    }
}

/// How many jobs ran, how many refusals they counted, and how many wait, where none found no memory.
pub fn done<S: Storages, J: WorldJob<S>>(
    world: &mut World<S, J>,
    limit: u64,
) -> Option<(u64, u128, usize)> {
    match maintained(world, limit) {
        Ok(m) if !m.stopped => Some((m.ran, m.refused, m.left)),
        _ => None,
    }
}

/// The indices of a selection, or none where it is refused.
pub fn selected<S: Storages>(world: &World<S>, set: &SetExpr<S::Slot>) -> Option<Vec<Index>> {
    world.select(set).ok()
}

/// Whether a selection gives these indices.
pub fn selects<S: Storages>(world: &World<S>, set: &SetExpr<S::Slot>, indices: &[Index]) -> bool {
    match selected(world, set) {
        Some(list) => list.as_slice() == indices,
        None => false,
    }
}

/// Queues a job.
pub fn queue<S: Storages, J: WorldJob<S>>(world: &mut World<S, J>, job: Job<S, J>) -> bool {
    world.parts().lazy.push(job).is_ok()
}

/// Queues a job of the user's.
pub fn execute<S: Storages, J: WorldJob<S>>(world: &mut World<S, J>, job: J) -> bool {
    world.parts().lazy.exec(job).is_ok()
}

/// Queues an insertion.
pub fn insert_later<S: Storages, J: WorldJob<S>>(
    world: &mut World<S, J>,
    e: Entity,
    value: S::Value,
) -> bool {
    world.parts().lazy.insert(e, value).is_ok()
}

/// Queues insertions as one job.
pub fn insert_all_later<S: Storages, J: WorldJob<S>>(
    world: &mut World<S, J>,
    pairs: Vec<(Entity, S::Value)>,
) -> bool {
    world.parts().lazy.insert_all(pairs).is_ok()
}

/// Queues a removal.
pub fn remove_later<S: Storages, J: WorldJob<S>>(
    world: &mut World<S, J>,
    slot: S::Slot,
    e: Entity,
) -> bool {
    world.parts().lazy.remove(slot, e).is_ok()
}

/// A list of one job.
fn list_of<S: Storages, J: WorldJob<S>>(alloc: Global, job: Job<S, J>) -> Option<JobList<S, J>> {
    let mut list = JobList::new(alloc);
    match list.push(job) {
        Ok(()) => Some(list),
        Err(_) => None,
    }
}

/// Appends a list of one job.
pub fn append_one<S: Storages, J: WorldJob<S>>(
    alloc: Global,
    world: &mut World<S, J>,
    job: Job<S, J>,
) -> bool {
    match list_of(alloc, job) {
        Some(list) => world.parts().lazy.append(list).is_ok(),
        None => false,
    }
}
