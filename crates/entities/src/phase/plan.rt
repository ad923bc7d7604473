//! What a phase was opened with.
ghost use Rattle.std.specs.Prelude.{◌≡◌, ◌≢◌, ℕ, MatchOption, Some, slice_get};

use crate::entities_res::EntitiesRes;
use crate::entity::{Entity, Index};
use std::snapshot::Snapshot;

/// What a phase was opened with: the reserve, and where its entities stand in it.
#[derive(Drop)]
pub struct Plan {
    /// The entities at the opening, for proofs alone.
    pub(crate) opening: Snapshot<EntitiesRes>,
    pub(crate) reserve: Vec<Entity>,
    /// By free index, its place in the reserve; empty where no free index is in it.
    pub(crate) places: Vec<Index>,
    /// How many indices were born at the opening.
    pub(crate) born: Index,
    /// How many of the reserve are of free indices.
    pub(crate) revived: Index,
    pub(crate) passes: usize,
    /// The number of words of marks.
    pub(crate) width: usize,
}

impl Plan {
    ghost use Rattle.entities.specs.Phase.Plan.{AreLocated, place_of_index};

    /// Where an entity of this index would stand in the reserve.
    #[inline]
    fn place_of_index(&self, index: Index) -> usize
        ensures { result ≡ place_of_index self.now.places.items self.now.born self.now.revived index }
    {
        if (index as usize) < self.places.len() {
            return self.places[index as usize] as usize;
        }
        index.saturating_sub(self.born) as usize + self.revived as usize
    }

    /// Where the entity stands in the reserve. It takes constant time.
    #[inline]
    pub(crate) fn place_of(&self, entity: Entity) -> Option<usize>
        requires { AreLocated self.now }
        ensures { MatchOption result ((k : ℕ) → slice_get self.now.reserve.items k ≢ Some entity) (λ k. slice_get self.now.reserve.items k ≡ Some entity) }
    {
        let place = self.place_of_index(entity.0);
        if place >= self.reserve.len() {
            return None;
        }
        if self.reserve[place] != entity {
            return None;
        }
        Some(place)
    }
}
