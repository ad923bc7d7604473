//! Worlds that find entities by their health.
use crate::asserts::{equal, holds};
use crate::calls::{born, fresh, health, register};
use crate::stories::{self, told};
use composed::Empty;
use script_slots::{Health, HealthValue};
use specs::{
    CloneStorages, Command, Entity, Has, Index, KeyIndex, Storages, World, WorldIndexError,
};
use std::alloc::Global;
use std::process::Abort;
use std::test::Fail;

type Board = KeyIndex<Health, HealthValue>;

/// An index of the healths.
fn made<H, S: Storages + Has<Health, H>>(world: &mut World<S>) -> Result<Board, WorldIndexError> {
    world.make_index(HealthValue)
}

/// Why no index is made, if none is.
fn refusal<H, S: Storages + Has<Health, H>>(world: &mut World<S>) -> Option<WorldIndexError> {
    made(world).err()
}

/// Whether a run of one insertion is answered, and the index is refreshed then.
fn runs<H, S: CloneStorages + Has<Health, H>>(
    alloc: Global,
    world: &mut World<S>,
    board: &mut Board,
    e: Entity,
    points: i64,
) -> Result<bool, Fail> {
    let mut commands = Vec::new(alloc);
    commands.push(Command::Insert(e, health::<H, S>(points)))?;
    match world.run_indexed(commands, board) {
        Ok((replies, Ok(()))) => Ok(replies.len() == 1),
        _ => Ok(false),
    }
}

/// Whether just these indices have so much health.
fn has(board: &Board, points: i64, indices: &[Index]) -> bool {
    match board.at(points) {
        Ok(list) => list == indices,
        Err(_) => false,
    }
}

/// Each run of an insertion is done, and the index follows it.
fn follow<R: Abort, H, S: CloneStorages + Has<Health, H>>(
    rt: &R,
    alloc: Global,
    world: &mut World<S>,
) -> Result<(), Fail> {
    holds!(rt; register::<Health, H, S, _>(world));
    let e = born(world, Command::Create).ok_or("a birth")?;
    let mut board = made(world).ok().ok_or("an index")?;
    holds!(rt; runs(alloc, world, &mut board, e, 3)?);
    holds!(rt; has(&board, 3, &[0]));
    holds!(rt; runs(alloc, world, &mut board, e, 4)?);
    holds!(rt; has(&board, 3, &[]));
    holds!(rt; has(&board, 4, &[0]));
    Ok(())
}

/// What is told of worlds with an index.
#[derive(Clone, Copy)]
pub enum Story {
    /// Runs that an index follows.
    Follow,
    /// No healths.
    HaveNoHealths,
}

/// Tells a story of a world.
pub fn tell<R: Abort, H, S: CloneStorages + Has<Health, H>>(
    rt: &R,
    alloc: Global,
    story: Story,
    world: &mut World<S>,
) -> Result<(), Fail> {
    match story {
        Story::Follow => follow(rt, alloc, world),
        Story::HaveNoHealths => {
            equal!(rt; refusal(world), Some(WorldIndexError::Unregistered));
            Ok(())
        }
    }
}

/// Tells a story of a new world.
pub fn tell_of_new<R: Abort, H, S: CloneStorages + Empty + Has<Health, H> + Drop>(
    rt: &R,
    alloc: Global,
    story: Story,
) -> Result<(), Fail> {
    let mut world = fresh::<S, _>(alloc);
    tell(rt, alloc, story, &mut world)
}

#[test]
fn runs_and_their_refreshes_are_ok_where_memory_is_ample(rt: HostRuntime) -> Result<(), Fail> {
    told(&rt, rt.alloc(), stories::Story::Indexed(Story::Follow))
}

#[test]
fn no_index_is_made_of_a_slot_that_is_not_registered(rt: HostRuntime) -> Result<(), Fail> {
    told(
        &rt,
        rt.alloc(),
        stories::Story::Indexed(Story::HaveNoHealths),
    )
}
