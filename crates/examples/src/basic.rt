//! Entities that move: two component types, a system over their storages, and a few steps.
use crate::game::{Position, Stores, Velocity};
use anyhow::Result;
use composed::{Builder, Empty, Entity, ForEach, Has, MaskedStorage, Storages, TwoFields, World};
use std::alloc::{AllocError, Global};

/// Moves each entity that has a velocity by one step.
pub fn move_all(
    positions: &mut MaskedStorage<Position>,
    velocities: &MaskedStorage<Velocity>,
) -> Result<(), AllocError> {
    positions.for_each_with(velocities, |position, velocity| {
        position.x += velocity.x;
        position.y += velocity.y;
    })
}

/// Storages of entities that move.
pub trait Moves {
    /// One step.
    fn step(&mut self) -> Result<(), AllocError>;
}

impl Moves for Stores {
    fn step(&mut self) -> Result<(), AllocError> {
        let moved = self.with_two(|positions: &mut MaskedStorage<
            Position,
        >, velocities: &mut MaskedStorage<Velocity>| { move_all(positions, velocities) });
        moved.unwrap_or(Ok(()))
    }
}

/// An entity with a position, and with a velocity if it has one.
pub fn place<P, V, S: Has<Position, P> + Has<Velocity, V>>(
    world: &mut World<S>,
    position: Position,
    velocity: Option<Velocity>,
) -> Result<Entity> {
    let builder = world.create_entity()?.with(position)?;
    Ok(builder.maybe_with(velocity)?.build())
}

/// Where each entity is, to the end of a line.
pub fn show<P, S: Has<Position, P>>(text: &mut String, world: &World<S>) -> Result<()> {
    let positions = world.read_storage::<Position, _>()?;
    for id in positions.mask().iter() {
        if let Some(Position { x, y }) = positions.storage().get(id).copied() {
            write!(text, " {id}:({x:.1}, {y:.1})")?;
        }
    }
    writeln!(text)?;
    Ok(())
}

/// Two entities that go their ways, and one that stays where it is.
const WALKERS: [(Position, Option<Velocity>); 3] = [
    (
        Position { x: 0.0, y: 0.0 },
        Some(Velocity { x: 1.0, y: 0.5 }),
    ),
    (
        Position { x: 4.0, y: 4.0 },
        Some(Velocity { x: -1.0, y: 0.0 }),
    ),
    (Position { x: 2.0, y: 2.0 }, None),
];

/// The world as it begins.
fn begin<P, V, S: Has<Position, P> + Has<Velocity, V>>(world: &mut World<S>) -> Result<()> {
    world.register::<Position, _>()?;
    world.register::<Velocity, _>()?;
    for (position, velocity) in WALKERS {
        place(world, position, velocity)?;
    }
    Ok(())
}

/// Three steps.
fn walk<P, V, S: Has<Position, P> + Has<Velocity, V> + Moves>(
    world: &mut World<S>,
    text: &mut String,
) -> Result<()> {
    begin(world)?;
    for step in 1..=3 {
        world.parts().core.parts().storages.step()?;
        write!(text, "step {step}:")?;
        show(text, world)?;
    }
    Ok(())
}

/// What they lead to in a new world. It is a local here alone, where the type of its storages is not known: a function that owns storages of a
/// known type is slow to prove.
fn told<P, V, S: Empty + Storages + Has<Position, P> + Has<Velocity, V> + Moves + Drop>(
    alloc: Global,
) -> Result<String> {
    let mut text = String::new(alloc);
    let mut world = World::new(alloc, S::empty(alloc));
    walk(&mut world, &mut text)?;
    Ok(text)
}

/// Where all are after each step.
pub fn basic(alloc: Global) -> Result<String> {
    told::<_, _, Stores>(alloc)
}
