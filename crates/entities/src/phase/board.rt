//! The words of a phase, with the plan.
ghost use Rattle.entities.specs.declared.entity.Entity.{Entity};
ghost use Rattle.std.specs.Prelude.{◌≡◌, ℕ, ◌+◌, ◌*◌, ◌<◌, ◌≤◌, ◌^◌, length, slice_get, Some};

use crate::phase::plan::Plan;
use crate::phase::rule::Words;

/// The words that the passes of a phase step on: a cursor, and a bit for each index.
pub struct Board {
    pub(crate) words: Words,
    pub(crate) plan: Plan,
    pub(crate) ghost keyed: { plan ≡ words.shared.key },
    pub(crate) ghost sized: { words.shared.table_id.words ≡ plan.width + 1 },
    pub(crate) ghost slotless: { words.shared.table_id.slots ≡ 0 },
    pub(crate) ghost narrow: { plan.width < 2 ^ 26 },
    pub(crate) ghost fits: { length plan.reserve.items + plan.passes + 1 < 2 ^ 64 },
    pub(crate) ghost reserve_within: { (k : ℕ) (e : Entity) → slice_get plan.reserve.items k ≡ Some e → e.0 < 64 * plan.width },
    pub(crate) ghost born_within: { length plan.opening.value.generations ≤ 64 * plan.width },
}
