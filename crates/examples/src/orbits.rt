//! Particles that fly around a sun, as a picture of their paths.
use crate::basic::{Moves, place};
use crate::game::{Position, Stores, Velocity};
use anyhow::Result;
use composed::{ForEach, Has, MaskedStorage, TwoFields, World};
use std::alloc::AllocError;

/// Pulls each particle to the sun, which is at the origin: the nearer, the stronger.
fn pull_all(
    velocities: &mut MaskedStorage<Velocity>,
    positions: &MaskedStorage<Position>,
) -> Result<(), AllocError> {
    velocities.for_each_with(positions, |velocity, position| {
        let distance = position.x.hypot(position.y);
        let pull = -1800.0 / (distance * distance * distance);
        velocity.x += position.x * pull;
        velocity.y += position.y * pull;
    })
}

/// Storages of particles that are pulled.
pub trait Pulls: Moves {
    /// The pull of one step.
    fn pull(&mut self) -> Result<(), AllocError>;
}

impl Pulls for Stores {
    fn pull(&mut self) -> Result<(), AllocError> {
        let pulled = self.with_two(|positions: &mut MaskedStorage<
            Position,
        >, velocities: &mut MaskedStorage<Velocity>| { pull_all(velocities, positions) });
        pulled.unwrap_or(Ok(()))
    }
}

/// Where the particles begin, and how fast.
const PARTICLES: [(Position, Velocity); 5] = [
    (Position { x: 40.0, y: 0.0 }, Velocity { x: 0.0, y: 6.6 }),
    (Position { x: -75.0, y: 0.0 }, Velocity { x: 0.0, y: 4.0 }),
    (Position { x: 0.0, y: 110.0 }, Velocity { x: 3.6, y: 0.0 }),
    (Position { x: 0.0, y: -150.0 }, Velocity { x: -2.4, y: 0.0 }),
    (Position { x: 185.0, y: 0.0 }, Velocity { x: 0.0, y: 1.4 }),
];

/// The particles begin.
fn launch<P, V, S: Has<Position, P> + Has<Velocity, V>>(world: &mut World<S>) -> Result<()> {
    world.register::<Position, _>()?;
    world.register::<Velocity, _>()?;
    for (position, velocity) in PARTICLES {
        place(world, position, Some(velocity))?;
    }
    Ok(())
}

/// A dot for each particle, in its own colour.
fn draw<P, S: Has<Position, P>>(picture: &mut String, world: &World<S>) -> Result<()> {
    let positions = world.read_storage::<Position, _>()?;
    for id in positions.mask().iter() {
        if let Some(Position { x, y }) = positions.storage().get(id).copied() {
            let hue = id % 5 * 72;
            writeln!(
                picture,
                "<circle cx=\"{x:.1}\" cy=\"{y:.1}\" r=\"1\" fill=\"hsl({hue},60%,45%)\"/>"
            )?;
        }
    }
    Ok(())
}

/// So many steps, each drawn.
pub fn fly<P, V, S: Has<Position, P> + Has<Velocity, V> + Pulls>(
    world: &mut World<S>,
    picture: &mut String,
    steps: u32,
) -> Result<()> {
    launch(world)?;
    writeln!(
        picture,
        "<svg xmlns=\"http://www.w3.org/2000/svg\" viewBox=\"-120 -185 325 310\">"
    )?;
    writeln!(
        picture,
        "<text x=\"-110\" y=\"-170\" font-size=\"8\">Five particles around a sun, a dot each step: the slower, the denser</text>"
    )?;
    writeln!(picture, "<circle r=\"8\" fill=\"orange\"/>")?;
    for _step in 0..steps {
        world.parts().core.parts().storages.pull()?;
        world.parts().core.parts().storages.step()?;
        draw(picture, world)?;
    }
    writeln!(picture, "</svg>")?;
    Ok(())
}
