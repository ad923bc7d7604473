//! More passes than entities in the reserve, and more of both than processors.
use crate::calls::{dead_of_merge, first_of, is_there, merged_count, pressed};
use crate::turns::DeleteEven;
use entities::{Closed, EntitiesRes, Entity};
use std::alloc::Global;
use std::collections::HashSet;
use std::test::Fail;
use std::thread::Threads;

const RESERVE: u32 = 3_000;

const PASSES: usize = 4_096;

/// Whether an entity is the first of an index of the reserve.
fn is_of_reserve(e: Entity) -> bool {
    e.id() < RESERVE && Some(e) == first_of(e.id())
}

/// How many passes were given an entity of the reserve that no other was given.
fn given_once(alloc: Global, answers: &[Option<Entity>]) -> usize {
    let mut given = HashSet::new(alloc);
    for answer in answers {
        if let Some(e) = answer {
            if is_of_reserve(*e) {
                let _ = given.insert(*e);
            }
        }
    }
    given.len()
}

/// How many passes were given nothing.
fn refused(answers: &[Option<Entity>]) -> usize {
    answers.iter().filter(|answer| answer.is_none()).count()
}

/// Whether the dead of a merge are the first entities of the even indices of the reserve, ascending.
fn are_the_even(dead: &[Entity]) -> bool {
    for (e, index) in dead.iter().zip(0..RESERVE) {
        if Some(*e) != first_of(index.wrapping_mul(2)) {
            return false;
        }
    }
    dead.len() == 1_500
}

/// Whether an entity is the first of its index, and lives if this is odd and only then.
fn lives_if_odd(entities: &EntitiesRes, index: u32) -> bool {
    match first_of(index) {
        Some(e) => is_there(entities, e) == (index % 2 == 1),
        None => false,
    }
}

/// Whether of the reserve those of odd indices are alive, and nobody else is.
fn the_odd_live(entities: &EntitiesRes) -> bool {
    for index in 0..RESERVE {
        if !lives_if_odd(entities, index) {
            return false;
        }
    }
    merged_count(entities) == 1_500
}

/// Whether a phase of 3,000 entities and 4,096 passes comes to what it must.
fn is_as_told(alloc: Global, closed: Closed, answers: &[Option<Entity>]) -> bool {
    let wanted = Closed {
        births: 3_000,
        marks: 1_500,
        passes_back: PASSES,
    };
    closed == wanted && given_once(alloc, answers) == 3_000 && refused(answers) == 1_096
}

/// Whether 4,096 passes are given 3,000 entities, each once, and those of even indices, which they delete, die at the merge.
pub fn half_of_them_die(
    rt: &(impl Threads + Sync),
    alloc: Global,
    entities: &mut EntitiesRes,
) -> Result<bool, Fail> {
    let Ok((closed, answers)) = pressed(rt, alloc, entities, RESERVE, PASSES, &DeleteEven) else {
        return Ok(false);
    };
    let told = is_as_told(alloc, closed, answers.as_slice());
    let dead = dead_of_merge(alloc, entities)?;
    Ok(told && are_the_even(dead.as_slice()) && the_odd_live(entities))
}
