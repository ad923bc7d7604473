//! Boards whose memory is refused. These tests are right whichever request of a run is refused (`tools/refused_tests.py` refuses each in turn), so
//! that what sets a story up is tried again.
use crate::calls::{
    Board, Score, adds, board, ends, has_the_same, is_stale, leaves, no_scores, refreshed, scores,
};
use entities::{EntitiesRes, Entity};
use key_index::IndexError;
use std::alloc::Global;
use std::cell::Cell;
use std::process::Abort;
use std::test::Fail;
use storages::{MaskedStorage, WriteStorage};

/// How often a call is made at most where as many requests are refused as a test names.
const TRIES: u32 = 3;

/// No player has so many points or more.
const NO_POINTS: u32 = 50;

/// Whether a player is born, if need be at another try.
fn is_born(entities: &mut EntitiesRes) -> bool {
    for _ in 0..TRIES {
        if entities.create().is_ok() {
            return true;
        }
    }
    false
}

/// Whether so many players are born.
fn born(entities: &mut EntitiesRes, count: u32) -> bool {
    for _ in 0..count {
        if !is_born(entities) {
            return false;
        }
    }
    true
}

/// A storage without scores.
fn fresh(alloc: Global) -> Result<MaskedStorage<Score>, Fail> {
    for _ in 0..TRIES {
        if let Some(masked) = no_scores(alloc) {
            return Ok(masked);
        }
    }
    Err(Fail::new("a storage"))
}

/// An index of what the storage has now.
fn made<'a>(
    alloc: Global,
    asked: &'a Cell<u32>,
    view: &mut WriteStorage<'_, Score>,
) -> Result<Board<'a>, Fail> {
    for _ in 0..TRIES {
        if let Some(board) = board(alloc, asked, view) {
            return Ok(board);
        }
    }
    Err(Fail::new("an index"))
}

/// What is done to a score.
#[derive(Clone, Copy)]
enum Change {
    /// So many points.
    Scores(u32),
    /// Points that few others have.
    ScoresOwn,
    /// So many points more.
    Adds(u32),
    /// No score.
    Leaves,
}

/// Whether a change is done.
fn changes(view: &mut WriteStorage<'_, Score>, player: Entity, change: Change) -> bool {
    match change {
        Change::Scores(points) => scores(view, player, points),
        Change::ScoresOwn => scores(view, player, player.id() % NO_POINTS),
        Change::Adds(points) => adds(view, player, points),
        Change::Leaves => leaves(view, player),
    }
}

/// The same, if need be at another try.
fn changes_at_last(view: &mut WriteStorage<'_, Score>, player: Entity, change: Change) -> bool {
    for _ in 0..TRIES {
        if changes(view, player, change) {
            return true;
        }
    }
    false
}

/// The players of some indices change, before a refresh.
#[derive(Clone, Copy)]
struct Step {
    first: u32,
    end: u32,
    change: Change,
}

impl Step {
    fn new(first: u32, end: u32, change: Change) -> Self {
        Step { first, end, change }
    }
}

/// Whether an index answers for no number of points.
fn is_all_stale(board: &Board<'_>) -> bool {
    (0..NO_POINTS).all(|points| is_stale(board, points))
}

/// Whether an index answers for each number of points what another does.
fn is_the_same(board: &Board<'_>, other: &Board<'_>) -> bool {
    (0..NO_POINTS).all(|points| has_the_same(board, other, points))
}

/// A board, and how many refreshes may still be refused memory.
#[derive(Drop)]
struct Tried<'a> {
    board: Board<'a>,
    left: u32,
}

/// A refused refresh answers want of memory, and leaves the board stale. The one that is not refused leaves what a board that is made now has.
fn follows<R: Abort>(
    rt: &R,
    alloc: Global,
    tried: &mut Tried<'_>,
    view: &mut WriteStorage<'_, Score>,
) -> Result<(), Fail> {
    let mut answer = refreshed(&mut tried.board, view);
    for _ in 0..TRIES {
        if answer.is_ok() || tried.left == 0 {
            break;
        }
        tried.left = tried.left.saturating_sub(1);
        assert_eq!(rt; answer, Err(IndexError::OutOfMemory));
        assert!(rt; is_all_stale(&tried.board));
        answer = refreshed(&mut tried.board, view);
    }
    assert_eq!(rt; answer, Ok(()));
    let asked = Cell::new(0);
    let anew = made(alloc, &asked, view)?;
    assert!(rt; is_the_same(&tried.board, &anew));
    ends(anew, view);
    Ok(())
}

/// After each step the board follows.
fn tell_of<R: Abort>(
    rt: &R,
    alloc: Global,
    entities: &EntitiesRes,
    view: &mut WriteStorage<'_, Score>,
    tried: &mut Tried<'_>,
    steps: &[Step],
) -> Result<(), Fail> {
    for step in steps {
        for index in step.first..step.end {
            assert!(rt; changes_at_last(view, entities.entity(index), step.change));
        }
        follows(rt, alloc, tried, view)?;
    }
    Ok(())
}

/// A board that finds one player, and is then kept through some steps, in which so many refreshes at most may be refused.
fn tell<R: Abort>(
    rt: &R,
    alloc: Global,
    entities: &EntitiesRes,
    view: &mut WriteStorage<'_, Score>,
    refusals: u32,
    steps: &[Step],
) -> Result<(), Fail> {
    let asked = Cell::new(0);
    assert!(rt; changes_at_last(view, entities.entity(10), Change::Scores(5)));
    let mut tried = Tried {
        board: made(alloc, &asked, view)?,
        left: refusals,
    };
    tell_of(rt, alloc, entities, view, &mut tried, steps)?;
    ends(tried.board, view);
    Ok(())
}

#[test]
fn a_refused_refresh_leaves_the_index_stale_until_the_next(rt: HostRuntime) -> Result<(), Fail> {
    let mut entities = EntitiesRes::new(rt.alloc());
    assert!(rt; born(&mut entities, 260));
    let mut masked = fresh(rt.alloc())?;
    let mut view = WriteStorage::new(&entities, &mut masked);
    let steps = [
        // the list of a first key, and that of another page of keys
        Step::new(0, 1, Change::Scores(3)),
        Step::new(256, 257, Change::Scores(3)),
        // a list that grows, and many lists
        Step::new(1, 9, Change::Scores(3)),
        Step::new(9, 60, Change::ScoresOwn),
        // lists that are left
        Step::new(0, 1, Change::Adds(1)),
        Step::new(3, 5, Change::Leaves),
        Step::new(5, 40, Change::Adds(7)),
    ];
    tell(&rt, rt.alloc(), &entities, &mut view, 1, &steps)
}

#[test]
fn a_stale_index_whose_refresh_is_refused_stays_stale(rt: HostRuntime) -> Result<(), Fail> {
    let mut entities = EntitiesRes::new(rt.alloc());
    assert!(rt; born(&mut entities, 12));
    let mut masked = fresh(rt.alloc())?;
    let mut view = WriteStorage::new(&entities, &mut masked);
    let steps = [
        Step::new(0, 1, Change::Scores(3)),
        Step::new(1, 10, Change::ScoresOwn),
    ];
    tell(&rt, rt.alloc(), &entities, &mut view, 2, &steps)
}
