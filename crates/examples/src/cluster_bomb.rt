//! Bombs that burst: births and deaths wait for `maintain`, since storages are lent while their entities are walked.
use crate::basic::{Moves, place, show};
use crate::game::{Fuse, Position, Velocity};
use anyhow::Result;
use composed::{
    Component, EntitiesRes, Entity, Field, ForEach, Has, LazyUpdate, MaskedStorage, Parts,
    Storages, World, WorldParts, WriteStorage, value,
};

/// The ways that fragments go.
const WAYS: [Velocity; 4] = [
    Velocity { x: 1.0, y: 0.0 },
    Velocity { x: 0.0, y: 1.0 },
    Velocity { x: -1.0, y: 0.0 },
    Velocity { x: 0.0, y: -1.0 },
];

/// Queues a component of an entity.
fn queue<T: Component, S: Storages + Has<T, I>, I>(
    lazy: &mut LazyUpdate<S>,
    entity: Entity,
    component: T,
) -> Result<()> {
    lazy.insert(entity, value::<T, S, I>(component))?;
    Ok(())
}

/// A bomb is marked, and fragments are born where it was. All wait for `maintain`.
fn burst<P, V, S: Storages + Has<Position, P> + Has<Velocity, V>>(
    entities: &mut EntitiesRes,
    lazy: &mut LazyUpdate<S>,
    bomb: Entity,
    position: Position,
) -> Result<()> {
    entities.delete(bomb)?;
    for way in WAYS {
        let fragment = entities.create()?;
        queue(lazy, fragment, position)?;
        queue(lazy, fragment, way)?;
    }
    Ok(())
}

/// Each fuse burns by a step, and a bomb whose fuse is out bursts.
fn burn<P, V, S: Storages + Has<Position, P> + Has<Velocity, V>>(
    entities: &mut EntitiesRes,
    fuses: &mut MaskedStorage<Fuse>,
    positions: &MaskedStorage<Position>,
    lazy: &mut LazyUpdate<S>,
) -> Result<()> {
    fuses.try_for_each_with((positions.mask(), positions), |fuse, (id, position)| {
        if fuse.0 > 0 {
            fuse.0 -= 1;
            return Ok(());
        }
        burst(entities, lazy, entities.entity(id), *position)
    })?;
    Ok(())
}

/// Fuses burn, all fly on, and what waited is done.
fn turn<P, V, S: Storages + Has<Position, P> + Has<Velocity, V> + Moves>(
    world: &mut World<S>,
    fuses: &mut MaskedStorage<Fuse>,
    step: u32,
    text: &mut String,
) -> Result<()> {
    let WorldParts { core, lazy } = world.parts();
    let Parts { entities, storages } = core.parts();
    if let Some(positions) = Field::<MaskedStorage<Position>, P>::field(storages) {
        burn(entities, fuses, positions, lazy)?;
    }
    storages.step()?;
    let done = world.maintain(u64::MAX)?;
    let died = done.deleted.len();
    write!(text, "step {step}: {died} died, {} jobs;", done.ran)?;
    show(text, world)
}

/// A bomb flies, bursts, and its fragments fly on. Fuses are kept beside the world.
pub fn explode<P, V, S: Storages + Has<Position, P> + Has<Velocity, V> + Moves>(
    world: &mut World<S>,
    fuses: &mut MaskedStorage<Fuse>,
    text: &mut String,
) -> Result<()> {
    world.register::<Position, _>()?;
    world.register::<Velocity, _>()?;
    let bomb = place(
        world,
        Position { x: 0.0, y: 0.0 },
        Some(Velocity { x: 2.0, y: 1.0 }),
    )?;
    WriteStorage::new(world.entities(), fuses).insert(bomb, Fuse(2))?;
    for step in 1..=5 {
        turn(world, fuses, step, text)?;
    }
    Ok(())
}
