//! What is told of a game. A function that names its storages is slow to prove, so one does for two examples.
use crate::basic::Moves;
use crate::cluster_bomb::explode;
use crate::game::{Fuse, Position, Stores, Velocity};
use crate::orbits::{Pulls, fly};
use anyhow::{Result, bail};
use composed::{Empty, Has, HashMapStorage, MaskedStorage, Storages, TryDefault, World};
use std::alloc::Global;

/// What can be told of a game.
#[derive(Clone, Copy)]
enum Tale {
    /// A bomb bursts.
    ClusterBomb,
    /// Particles fly around a sun.
    Orbits,
}

/// Tells it of a world over whatever storages have what it needs.
fn tell<P, V, S>(
    tale: Tale,
    world: &mut World<S>,
    fuses: &mut MaskedStorage<Fuse>,
    text: &mut String,
) -> Result<()>
where
    S: Storages + Has<Position, P> + Has<Velocity, V> + Moves + Pulls,
{
    match tale {
        Tale::ClusterBomb => explode(world, fuses, text),
        Tale::Orbits => fly(world, text, 165),
    }
}

/// The text of a tale of a new world.
fn told_of<P, V, S>(alloc: Global, tale: Tale) -> Result<String>
where
    S: Empty + Storages + Has<Position, P> + Has<Velocity, V> + Moves + Pulls + Drop,
{
    let mut text = String::new(alloc);
    let mut world = World::new(alloc, S::empty(alloc));
    let Ok(kept) = HashMapStorage::try_default(alloc) else {
        bail!("out of memory");
    };
    let mut fuses = MaskedStorage::new(alloc, kept);
    tell(tale, &mut world, &mut fuses, &mut text)?;
    Ok(text)
}

/// The storages are these here alone.
fn told(alloc: Global, tale: Tale) -> Result<String> {
    told_of::<_, _, Stores>(alloc, tale)
}

/// A bomb's way, and that of its fragments.
pub fn cluster_bomb(alloc: Global) -> Result<String> {
    told(alloc, Tale::ClusterBomb)
}

/// The picture of orbits.
pub fn orbits(alloc: Global) -> Result<String> {
    told(alloc, Tale::Orbits)
}
