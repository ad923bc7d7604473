//! Closing a phase.
ghost use Rattle.std.specs.Mem.Slots.{slots_items, slots_len, IsFull};
ghost use Rattle.std.specs.Prelude.{◌≡◌, ℕ, ◌+◌, ◌*◌, ◌/◌, ◌<◌, ◌≤◌, ◌^◌, ◌++◌, [], true, length, min, slice_index};
ghost use Rattle.std.specs.List.{All};
ghost use Rattle.entities.specs.Phase.Trace.{Each};
ghost use Rattle.entities.specs.Phase.Rule.{IsEnded, bit_of};
ghost use Rattle.entities.specs.Phase.Plan.{phase_of};
ghost use Rattle.entities.specs.Phase.Board.{IsPassOf, IsHome, record_of};
ghost use Rattle.hibits.specs.Counts.{count_below};
ghost use Rattle.entities.specs.Census.{population};
ghost use Rattle.entities.specs.Population.{lives};
ghost use Rattle.entities.specs.Phase.Reserve.{with_marks};
ghost use Rattle.entities.specs.Phase.Rule.{marks_index, marks_below};

use crate::entities_res::EntitiesRes;
use crate::entity::Index;
use crate::phase::board::Board;
use crate::phase::pass::Pass;
use crate::phase::plan::Plan;
use crate::phase::rule::{BothRecords, Record, Sits, Words};
use atomic_table::Closed as ClosedTable;
use std::alloc::Global;

/// The words of a phase whose passes have ended.
pub(crate) struct Ended {
    pub(crate) words: ClosedTable<(), Global>,
    pub(crate) plan: Plan,
}

/// Joins the records of the passes into the keeper's.
fn gather(words: &Words, keeper: &mut Record, mut passes: Vec<Pass>)
    requires keeper { (keeper.old.table_id ≡ words.now.shared.table_id) × (0 < words.now.shared.table_id.words) × (keeper.old.me ≡ ([], [])) }
    requires passes { Each (IsHome words.now.shared.table_id) passes.items }
    ensures { (keeper.new.table_id ≡ keeper.old.table_id) × (keeper.new.me ≡ (record_of passes.items, [])) }
{
    while let Some(pass) = passes.pop() {
        let Pass { record, spent: _ } = pass;
        words.shared.join_seat::<BothRecords>(keeper, record);
    }
}

impl Board {
    pub(crate) fn finish(self, passes: Vec<Pass>) -> Ended
        requires { All (IsPassOf self) passes.items }
        ensures plan { result.plan ≡ self.plan }
        ensures words { IsFull result.words.words × (slots_len result.words.words ≡ self.plan.width + 1) × (slots_len result.words.slots ≡ 0) }
        ensures ended { IsEnded (phase_of self.plan) self.plan.width (slots_items result.words.words) (record_of passes.items) }
    {
        let Board { words, plan } = self;
        let mut keeper = words.shared.load_new_seat::<Sits>(0).1;
        gather(&words, &mut keeper, passes);
        Ended {
            words: words.close_with(keeper),
            plan,
        }
    }
}

impl Ended {
    pub(crate) fn births(&self) -> usize
        requires { IsFull self.now.words.words × (0 < slots_len self.now.words.words) }
        ensures { result ≡ min (slice_index (slots_items self.now.words.words) 0) (length self.now.plan.reserve.items) }
    {
        let drawn = self.words.word(0);
        let reserve = self.plan.reserve.len();
        if drawn < reserve as u64 {
            drawn as usize
        } else {
            reserve
        }
    }

    pub(crate) fn is_marked(&self, index: usize) -> bool
        requires { IsFull self.now.words.words × (index / 64 + 1 < slots_len self.now.words.words) }
        ensures { result ≡ bit_of index (slice_index (slots_items self.now.words.words) (index / 64 + 1)) }
    {
        self.words.word(index / 64 + 1) & (1 << (index % 64)) != 0
    }

    /// Whether no index of this word is marked.
    pub(crate) fn has_none(&self, word: usize) -> bool
        requires { IsFull self.now.words.words × (word + 1 < slots_len self.now.words.words) }
        ensures { result ≡ true → slice_index (slots_items self.now.words.words) (word + 1) ≡ 0 }
    {
        self.words.word(word + 1) == 0
    }

    pub(crate) fn free(self)
        requires { slots_len self.words.slots ≡ 0 }
    {
        let Ended { words, plan: _ } = self;
        words.free();
    }
}

/// Marks what the words mark, and tells how many that are.
pub(crate) fn mark_all(entities: &mut EntitiesRes, ended: &Ended) -> usize
    requires words { IsFull ended.now.words.words × (slots_len ended.now.words.words ≡ ended.now.plan.width + 1) × (ended.now.plan.width < 2 ^ 26) }
    requires alive { (i : ℕ) → i < 64 * ended.now.plan.width → marks_index (slots_items ended.now.words.words) i ≡ true → lives (population entities.old) i ≡ true }
    ensures marked { population entities.new ≡ with_marks (marks_below (slots_items ended.now.words.words) (64 * ended.now.plan.width)) (population entities.old) }
    ensures room { entities.new.room ≡ entities.old.room }
    ensures count { result ≡ count_below (marks_index (slots_items ended.now.words.words)) (64 * ended.now.plan.width) }
{
    let end = 64 * ended.plan.width;
    let mut marks = 0;
    let mut index = 0;
    while index < end {
        if index % 64 == 0 && ended.has_none(index / 64) {
            index += 64;
        } else {
            if ended.is_marked(index) {
                entities.mark_index(index as Index);
                marks += 1;
            }
            index += 1;
        }
    }
    marks
}
