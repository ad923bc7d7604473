//! A table of points that follows the events of a storage, and never looks at the rest of it.
use crate::game::Score;
use anyhow::{Result, bail};
use composed::{
    Builder, ComponentEvent, Empty, Entity, Has, Index, MaskedStorage, Only, ReaderId, Storages,
    World,
};
use std::alloc::Global;
use std::collections::BTreeMap;

/// The points by index, as the events told them.
type Table = BTreeMap<Index, i64>;

/// Takes up what happened since the table last followed, in order, and writes a line of it.
fn follow(
    table: &mut Table,
    scores: &mut MaskedStorage<Score>,
    reader: &ReaderId,
    text: &mut String,
) -> Result<()> {
    let Ok(events) = scores.read(reader) else {
        bail!("nobody reads by this number");
    };
    for event in events {
        write!(text, "{event:?} ")?;
        match event {
            ComponentEvent::Inserted(id) | ComponentEvent::Modified(id) => {
                if let Some(score) = scores.get(id) {
                    table.insert(id, score.0)?;
                }
            }
            ComponentEvent::Removed(id) => {
                table.remove(&id);
            }
        }
    }
    writeln!(text, "-> {table:?}")?;
    Ok(())
}

/// Two entities, and a reader that is told of their points.
fn begin<I, S: Has<Score, I>>(world: &mut World<S>) -> Result<(Entity, Entity, ReaderId)> {
    world.register::<Score, _>()?;
    let first = world.create_entity()?.build();
    let second = world.create_entity()?.build();
    let mut scores = world.write_storage::<Score, _>()?;
    let reader = scores.masked_mut().register_reader()?;
    Ok((first, second, reader))
}

/// Gives points to entities, changes those of one, and takes those of another.
fn play<I, S: Storages + Has<Score, I>>(
    alloc: Global,
    world: &mut World<S>,
    text: &mut String,
) -> Result<()> {
    let table = &mut Table::new(alloc);
    let (first, second, reader) = begin(world)?;
    let mut scores = world.write_storage::<Score, _>()?;
    scores.insert(first, Score(10))?;
    scores.insert(second, Score(20))?;
    follow(table, scores.masked_mut(), &reader, text)?;
    scores.get_mut(first)?.0 = 35;
    follow(table, scores.masked_mut(), &reader, text)?;
    scores.remove(second)?;
    scores.insert(second, Score(5))?;
    follow(table, scores.masked_mut(), &reader, text)?;
    if world.delete_entity(first).is_err() {
        bail!("the entity does not live");
    }
    let mut scores = world.write_storage::<Score, _>()?;
    follow(table, scores.masked_mut(), &reader, text)?;
    Ok(())
}

/// What is told of a new world, whose storages are of a type that is not known here.
fn told<I, S: Empty + Storages + Has<Score, I> + Drop>(alloc: Global) -> Result<String> {
    let mut text = String::new(alloc);
    let mut world = World::new(alloc, S::empty(alloc));
    play(alloc, &mut world, &mut text)?;
    Ok(text)
}

/// The events, and the table after each turn.
pub fn ordered_tracking(alloc: Global) -> Result<String> {
    told::<_, Only<Score>>(alloc)
}
