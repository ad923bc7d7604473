//! Scores and their index, one call of the library in each function, none of which has a contract: tests are told by these alone.
use entities::{EntitiesRes, Entity};
use key_index::{IndexError, KeyIndex, KeyOf};
use std::alloc::Global;
use std::cell::Cell;
use std::test::Fail;
use storages::{Component, FlaggedStorage, MaskedStorage, TryDefault, VecStorage, WriteStorage};

/// The points of a player. Readers are told of each change.
#[derive(Clone, Copy, PartialEq, Eq, Debug)]
pub struct Score(u32);

impl Component for Score {
    type Storage = FlaggedStorage<Self, VecStorage<Self>>;
}

/// Players are found by their points. It counts how often it is asked.
#[derive(Drop)]
pub struct Points<'a> {
    asked: &'a Cell<u32>,
}

impl<'a> KeyOf<Score> for Points<'a> {
    type Key = u32;

    ghost key = { λ s x. x.0 };

    fn key_of(&self, component: &Score) -> u32 {
        self.asked.set(self.asked.get().saturating_add(1));
        component.0
    }
}

/// An index of players by their points.
pub type Board<'a> = KeyIndex<Score, Points<'a>>;

/// A storage without scores, if there is memory for it.
pub fn no_scores(alloc: Global) -> Option<MaskedStorage<Score>> {
    match <FlaggedStorage<Score, VecStorage<Score>> as TryDefault>::try_default(alloc) {
        Ok(inner) => Some(MaskedStorage::new(alloc, inner)),
        Err(_) => None,
    }
}

/// So many players.
pub fn players(alloc: Global, entities: &mut EntitiesRes, count: u32) -> Result<Vec<Entity>, Fail> {
    let mut list = Vec::new(alloc);
    for _ in 0..count {
        list.push(entities.create().ok().ok_or("a birth")?)?;
    }
    Ok(list)
}

/// The player of a place in the list.
pub fn player(list: &[Entity], place: usize) -> Result<Entity, Fail> {
    Ok(list.get(place).copied().ok_or("a player")?)
}

/// Whether a player has a score now.
pub fn scores(view: &mut WriteStorage<'_, Score>, player: Entity, points: u32) -> bool {
    view.insert(player, Score(points)).is_ok()
}

/// Whether a score was written to in place.
pub fn adds(view: &mut WriteStorage<'_, Score>, player: Entity, points: u32) -> bool {
    match view.get_mut(player) {
        Ok(score) => {
            score.0 = score.0.saturating_add(points);
            true
        }
        Err(_) => false,
    }
}

/// Whether a player had a score, and has none now.
pub fn leaves(view: &mut WriteStorage<'_, Score>, player: Entity) -> bool {
    matches!(view.remove(player), Ok(Some(_)))
}

/// An index of what the storage has now, if there is memory for it.
pub fn board<'a>(
    alloc: Global,
    asked: &'a Cell<u32>,
    view: &mut WriteStorage<'_, Score>,
) -> Option<Board<'a>> {
    KeyIndex::new(alloc, Points { asked }, view).ok()
}

/// What a refresh answers.
pub fn refreshed(
    board: &mut Board<'_>,
    view: &mut WriteStorage<'_, Score>,
) -> Result<(), IndexError> {
    board.refresh(view)
}

/// Whether just these indices have so many points.
pub fn has(board: &Board<'_>, points: u32, indices: &[u32]) -> bool {
    match board.at(points) {
        Ok(list) => list == indices,
        Err(_) => false,
    }
}

/// Whether an index answers, and as another one does.
pub fn has_the_same(board: &Board<'_>, other: &Board<'_>, points: u32) -> bool {
    match (board.at(points), other.at(points)) {
        (Ok(list), Ok(wanted)) => list == wanted,
        _ => false,
    }
}

/// Whether an index answers that it is stale.
pub fn is_stale(board: &Board<'_>, points: u32) -> bool {
    board.at(points).is_err()
}

/// Ends an index.
pub fn ends(board: Board<'_>, view: &mut WriteStorage<'_, Score>) {
    board.end(view);
}

/// Whether the number of an index's reader is registered.
pub fn is_followed(view: &mut WriteStorage<'_, Score>, board: &Board<'_>) -> bool {
    view.read(board.reader()).is_ok()
}
