//! A board that finds entities by their points, and is kept from what happens to these.
use crate::game::Score;
use anyhow::{Result, bail};
use composed::{Builder, Empty, Has, KeyIndex, KeyOf, Only, Storages, World};
use std::alloc::Global;

/// Entities are found by their points.
#[derive(Clone, Copy)]
struct Points;

impl KeyOf<Score> for Points {
    type Key = i64;

    ghost key = { λ s score. score.0 };

    fn key_of(&self, score: &Score) -> i64 {
        score.0
    }
}

/// Takes up what happened since the board was last asked, and writes who has so many points.
fn show<I, S: Has<Score, I>>(
    text: &mut String,
    world: &mut World<S>,
    board: &mut KeyIndex<Score, Points>,
    points: i64,
) -> Result<()> {
    world.refresh_index(board)?;
    let Ok(who) = board.at(points) else {
        bail!("the board was not refreshed");
    };
    writeln!(text, "{points} points: {who:?}")?;
    Ok(())
}

/// Two entities with as many points, of which one gets more, and one loses them.
fn play<I, S: Storages + Has<Score, I>>(world: &mut World<S>, text: &mut String) -> Result<()> {
    world.register::<Score, _>()?;
    let board = &mut world.make_index::<Score, _, _>(Points)?;
    let first = world.create_entity()?.with(Score(10))?.build();
    let second = world.create_entity()?.with(Score(10))?.build();
    show(text, world, board, 10)?;
    world.write_storage::<Score, _>()?.get_mut(first)?.0 = 35;
    show(text, world, board, 35)?;
    world.write_storage::<Score, _>()?.remove(second)?;
    show(text, world, board, 10)
}

/// What the board answers, in a new world.
fn told<I, S: Empty + Storages + Has<Score, I> + Drop>(alloc: Global) -> Result<String> {
    let mut text = String::new(alloc);
    let mut world = World::new(alloc, S::empty(alloc));
    play(&mut world, &mut text)?;
    Ok(text)
}

/// Who had so many points, after each change.
pub fn score_board(alloc: Global) -> Result<String> {
    told::<_, Only<Score>>(alloc)
}
