//! A turn: how all move, who meets whom, and what waits for its end.
use crate::parts::{Hunts, Name, Position, Score, Stores, Velocity};
use anyhow::{Context, Result};
use composed::{
    Act, Core, DeleteError, Doing, EntitiesRes, Entity, ForEach, Has, InsertError, LazyUpdate,
    Link, MaskedStorage, Parts, ReadStorage, SavesWorld, Storages, WithTwo,
};
use std::alloc::{AllocError, Global};
use std::cmp::OrderedFloat;
use std::marker::PhantomData;

/// What is done, where the scores are at place `O`.
#[derive(Debug, Drop)]
pub enum Deed<O> {
    /// A rock bursts.
    Burst(Entity),
    /// A ship gets a point.
    Point(Entity, PhantomData<O>),
}

impl<O, S: Storages + Has<Score, O>> Act<S> for Deed<O> {
    fn act(
        self,
        core: &mut Core<S>,
        _queue: &mut LazyUpdate<S, Doing<Self>>,
    ) -> Result<(), (Self, AllocError)> {
        match self {
            Deed::Burst(rock) => match core.delete_entity(rock) {
                Err(DeleteError::OutOfMemory) => Err((Deed::Burst(rock), AllocError)),
                _ => Ok(()),
            },
            Deed::Point(ship, of) => {
                let Ok(mut scores) = core.write_storage::<Score, O>() else {
                    return Ok(());
                };
                let points = scores.get(ship).map_or(0, |score: &Score| score.0);
                match scores.insert(ship, Score(points.saturating_add(1))) {
                    Err(InsertError::OutOfMemory(_)) => Err((Deed::Point(ship, of), AllocError)),
                    _ => Ok(()),
                }
            }
        }
    }
}

/// How wide and how high space is.
pub const SIZE: f64 = 1000.0;

/// Space has no edge: who leaves it on one side comes in on the other.
fn wrapped(x: f64) -> f64 {
    let x = if x < 0.0 { x + SIZE } else { x };
    if x > SIZE { x - SIZE } else { x }
}

/// Each with a velocity moves by it.
fn move_all(
    _entities: &EntitiesRes,
    positions: &mut MaskedStorage<Position>,
    velocities: &mut MaskedStorage<Velocity>,
) -> Result<()> {
    Ok(positions.for_each_with(&*velocities, |at: &mut Position, way: &Velocity| {
        *at = Position(wrapped(at.0 + way.0), wrapped(at.1 + way.1));
    })?)
}

/// What is done by two storages at once, for the one struct of storages of the game. All else asks for less than the struct, and is proved faster.
pub trait Plays: Sized {
    /// All move by a turn.
    fn step(core: &mut Core<Self>) -> Result<()>;

    /// Loads into others what is saved of these. It answers the text.
    fn carry(from: &mut Parts<Self>, to: &mut Parts<Self>, alloc: Global) -> Result<String>;
}

impl Plays for Stores {
    fn step(core: &mut Core<Self>) -> Result<()> {
        core.with_two(move_all).context("not registered")?
    }

    fn carry(from: &mut Parts<Self>, to: &mut Parts<Self>, alloc: Global) -> Result<String> {
        let text = from.save_to_json::<(Name, Link<Hunts>), _>(alloc)?;
        to.load_from_json::<(Name, Link<Hunts>), _>(alloc, text.as_str())?;
        Ok(text)
    }
}

/// An entity, and where it is.
pub type Seen = (Entity, Position);

/// All that have a place, by their x.
pub fn swept(
    entities: &EntitiesRes,
    positions: &ReadStorage<'_, Position>,
    alloc: Global,
) -> Result<Vec<Seen>> {
    let mut list = Vec::new(alloc);
    for id in positions.mask().iter() {
        if let Some(at) = positions.storage().get(id) {
            list.push((entities.entity(id), *at))?;
        }
    }
    list.sort_by_key(|seen| OrderedFloat(seen.1.0))?;
    Ok(list)
}

/// The pairs that are nearer than a distance.
pub fn pairs(list: &[Seen], alloc: Global, near: f64) -> Result<Vec<(Seen, Seen)>> {
    let mut met = Vec::new(alloc);
    for (i, one) in list.iter().enumerate() {
        for other in list.iter().skip(i).skip(1) {
            let (x, y) = (other.1.0 - one.1.0, other.1.1 - one.1.1);
            if x > near {
                break;
            }
            if x * x + y * y < near * near {
                met.push((*one, *other))?;
            }
        }
    }
    Ok(met)
}
