//! The four kinds of step.
ghost use Rattle.std.specs.Prelude.{◌≡◌, ℕ, ◌+◌, ◌/◌, ◌%◌, ◌^◌, ◌<◌, Bool, false, true, not, ◌==◌, ◌++◌, ◌∷◌, [], length, bit_and};
ghost use Rattle.entities.specs.declared.phase.trace.Step.TheVariants.{Draw, Look, Mark, Peek};
ghost use Rattle.entities.specs.Phase.Trace.{Each, AreCalls, misses};
ghost use Rattle.entities.specs.Phase.Rule.{Among, IsSeen, IsOne};
ghost use Rattle.entities.specs.Phase.Plan.{phase_of};
ghost use Rattle.entities.specs.Phase.Board.{IsPassOf, IsNext, steps_of_pass};

use crate::phase::board::Board;
use crate::phase::pass::Pass;
use crate::phase::rule::{Asked, Draws, Looks, Marks, Peeks};

impl Board {
    #[inline]
    pub(crate) fn draw(&self, pass: &mut Pass) -> u64
        requires { IsPassOf self.now pass.old × (pass.old.spent ≡ false) }
        ensures spent { pass.new.spent ≡ pass.old.spent }
        ensures step { IsNext pass.old pass.new (Draw result ∷ []) }
    {
        self.words.shared.fetch_add::<Draws>(&mut pass.record, 0, 1)
    }

    #[inline]
    pub(crate) fn look(&self, pass: &mut Pass) -> u64
        requires { IsPassOf self.now pass.old }
        ensures spent { pass.new.spent ≡ pass.old.spent }
        ensures step { IsNext pass.old pass.new (Look result ∷ []) }
        ensures seen { Each (IsSeen result) (steps_of_pass pass.old) }
    {
        self.words.shared.load::<Looks>(&mut pass.record, 0)
    }

    #[inline]
    pub(crate) fn mark_as<I: Asked>(&self, pass: &mut Pass, index: u32)
        requires pass { (pass.old.record.table_id ≡ self.now.words.shared.table_id) × (pass.old.record.me.1 ≡ []) × IsOne pass.old.record.me.0 }
        requires calls { AreCalls (phase_of self.now.plan) (steps_of_pass pass.old ++ Mark index ∷ []) }
        requires index { (index ≡ I.index) × (index / 64 < self.now.plan.width) }
        ensures spent { pass.new.spent ≡ pass.old.spent }
        ensures step { IsNext pass.old pass.new (Mark index ∷ []) }
    {
        let word = index as usize / 64 + 1;
        self.words
            .shared
            .fetch_or::<Marks<I>>(&mut pass.record, word, 1 << (index % 64));
    }

    #[inline]
    pub(crate) fn peek_as<I: Asked>(&self, pass: &mut Pass, index: u32) -> bool
        requires pass { (pass.old.record.table_id ≡ self.now.words.shared.table_id) × (pass.old.record.me.1 ≡ []) × IsOne pass.old.record.me.0 }
        requires calls { (b : Bool) → AreCalls (phase_of self.now.plan) (steps_of_pass pass.old ++ Peek index b ∷ []) }
        requires index { (index ≡ I.index) × (index / 64 < self.now.plan.width) }
        ensures spent { pass.new.spent ≡ pass.old.spent }
        ensures step { IsNext pass.old pass.new (Peek index result ∷ []) }
        ensures own { Among (Mark index) (steps_of_pass pass.old) → result ≡ true }
    {
        let word = index as usize / 64 + 1;
        let found = self.words.shared.load::<Peeks<I>>(&mut pass.record, word);
        found & (1 << (index % 64)) != 0
    }
}
