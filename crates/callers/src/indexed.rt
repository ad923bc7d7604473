//! Players by their points, from an index of a world.
ghost use Rattle.std.specs.Prelude.{◌≡◌, true, IfSome};
ghost use Rattle.specs.specs.Indexing.{IsEmitting, Knows};
ghost use Rattle.specs.specs.Reading.Following.{IsFollowed};
ghost use Rattle.specs.specs.World.State.{core_state};

use specs::{Component, Core, DenseVecStorage, FlaggedStorage, Has, KeyIndex, KeyOf, WriteStorage};

/// The points of a player. Readers are told of each change.
#[derive(Clone, Copy, Debug, PartialEq, Eq)]
pub struct Points(pub u32);

impl Component for Points {
    type Storage = FlaggedStorage<Self, DenseVecStorage<Self>>;
}

/// Players are found by their points.
#[derive(Clone, Copy)]
pub struct ByPoints;

impl KeyOf<Points> for ByPoints {
    type Key = u32;

    ghost key = { λ s points. points.0 };

    fn key_of(&self, component: &Points) -> u32 {
        component.0
    }
}

/// An index of the players now: it knows which ones it has to look at, and its reader follows the points where these tell of their changes.
pub fn board<S: Has<Points, I>, I>(core: &mut Core<S>) -> Option<KeyIndex<Points, ByPoints>>
    ensures knows { IfSome result (λ x. Knows (λ (s : ByPoints) (p : Points). p.0) x (S.part core.new.parts.storages)) }
    ensures followed { IfSome result (λ x. IsEmitting (S.part core.old.parts.storages) → IsFollowed S.the_slot x.reader (core_state S.table S.ids core.new)) }
{
    core.make_index(ByPoints).ok()
}

/// Whether a second refresh went well where the first did, which it always does: nothing is left to read.
pub fn refreshed_twice(
    index: &mut KeyIndex<Points, ByPoints>,
    points: &mut WriteStorage<'_, Points>,
) -> bool
    ensures { result ≡ true }
{
    match index.refresh(points) {
        Ok(()) => index.refresh(points).is_ok(),
        Err(_) => true,
    }
}
