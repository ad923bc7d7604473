//! Phases of nobody, and of one who was pending before.
use crate::calls::{dead_of_merge, is_marked, is_merged, is_there, pressed, raised};
use crate::turns::{Delete, Spawn, SpawnTwice};
use entities::{Closed, EntitiesRes, Entity, INDEX_LIMIT, OpenError};
use std::alloc::Global;
use std::test::Fail;
use std::thread::Threads;

/// What a phase with this reserve and as many passes comes to, each of which creates once, in threads.
fn spawned(
    rt: &(impl Threads + Sync),
    alloc: Global,
    entities: &mut EntitiesRes,
    reserve: u32,
    passes: usize,
) -> Result<Closed, OpenError> {
    match pressed(rt, alloc, entities, reserve, passes, &Spawn) {
        Ok((closed, _)) => Ok(closed),
        Err(error) => Err(error),
    }
}

/// What a phase without a reserve comes to, of which so many passes come back.
fn nobody_born(passes_back: usize) -> Result<Closed, OpenError> {
    Ok(Closed {
        births: 0,
        marks: 0,
        passes_back,
    })
}

/// Whether the one pass of a phase without a reserve is refused at each of two births.
fn is_refused_twice(rt: &(impl Threads + Sync), alloc: Global, entities: &mut EntitiesRes) -> bool {
    match pressed(rt, alloc, entities, 0, 1, &SpawnTwice) {
        Ok((closed, answers)) => {
            answers.as_slice() == [(true, true)].as_slice() && Ok(closed) == nobody_born(1)
        }
        Err(_) => false,
    }
}

/// Whether phases without a reserve bear nobody, be there a pass or not, and too many passes are told before too great a reserve.
pub fn nobody_is_born(
    rt: &(impl Threads + Sync),
    alloc: Global,
    entities: &mut EntitiesRes,
) -> Result<bool, Fail> {
    let empty = spawned(rt, alloc, entities, 0, 0) == nobody_born(0);
    let refused = is_refused_twice(rt, alloc, entities);
    let many = spawned(rt, alloc, entities, INDEX_LIMIT + 1, 4_097)
        == Err(OpenError::TooManyPasses);
    let first = raised(entities)?;
    Ok(empty && refused && many && first.id() == 0)
}

/// How many marks a phase comes to whose 64 passes each delete an entity.
fn marks_of_all(
    rt: &(impl Threads + Sync),
    alloc: Global,
    entities: &mut EntitiesRes,
    entity: Entity,
) -> Option<usize> {
    match pressed(rt, alloc, entities, 0, 64, &Delete { entity }) {
        Ok((closed, answers)) => {
            if answers.iter().all(|could| *could) {
                Some(closed.marks)
            } else {
                None
            }
        }
        Err(_) => None,
    }
}

/// Whether an entity whose birth is pending at the opening, and which all passes delete, is never merged, and dies at the merge.
pub fn pending_one_dies(
    rt: &(impl Threads + Sync),
    alloc: Global,
    entities: &mut EntitiesRes,
) -> Result<bool, Fail> {
    let e = raised(entities)?;
    let before = is_there(entities, e) && !is_merged(entities, e) && !is_marked(entities, e);
    let told = marks_of_all(rt, alloc, entities, e) == Some(1);
    let between = is_there(entities, e) && !is_merged(entities, e) && is_marked(entities, e);
    let dead = dead_of_merge(alloc, entities)?;
    let died = dead.as_slice() == [e].as_slice() && !is_there(entities, e);
    Ok(before && told && between && died && !is_merged(entities, e))
}
