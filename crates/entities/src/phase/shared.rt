//! An opened phase, as threads share it.
ghost use Rattle.std.specs.Prelude.{◌≡◌, ℕ, ◌≤◌, ◌∷◌, [], false, true, length, IfOk, IfErr, Some, slice_get, slice_index_or, ◌<◌, nat_lt};
ghost use Rattle.entities.specs.declared.phase.pass.Pass.{Pass};
ghost use Rattle.entities.specs.declared.phase.trace.Step.TheVariants.{Draw, Look, Mark, Peek};
ghost use Rattle.entities.specs.Census.{population};
ghost use Rattle.entities.specs.Population.{generation_reported, index_of, number_of};
ghost use Rattle.std.specs.List.{All, Contains};
ghost use Rattle.entities.specs.Phase.Board.{IsPassOf, IsNext, record_of, is_spent};
ghost use Rattle.entities.specs.Phase.Opened.{entities_of, board_of, phase_opened};
ghost use Rattle.entities.specs.Phase.Calls.{IsOpen, SpentSteps, AliveSteps, MarkSteps, PendingSteps, IsClosed};
ghost use Rattle.entities.specs.Phase.Given.{Gains, AreGivenOnce, AreTakenUp, AreAllTheirs, SawAlive, given_of, marks_of};

use crate::entities_res::EntitiesRes;
use crate::entity::{DELETE, Entity, WrongGeneration};
use crate::phase::board::Board;
use crate::phase::closing::mark_all;
use crate::phase::pass::Pass;
use std::marker::Brand;
use thiserror::Error;

/// An open phase over the entities that it was opened from, with its board. Its calls take it by shared reference and a pass alone, from several
/// threads at once; none waits, and none takes memory. It must be spent by `close`. The board's type is a parameter, so that a caller's
/// proof follows the reference.
pub struct Shared<'a, T = Board> {
    pub(crate) entities: &'a mut EntitiesRes,
    pub(crate) board: T,
}

/// The reserve is used up, and this pass is spent: it gets no more.
#[derive(Clone, Copy, Debug, PartialEq, Eq, Drop, Error)]
#[error("the reserve is used up")]
pub struct Exhausted;

/// What a phase came to: how many entities were born, how many indices were marked, and how many passes were given back.
#[derive(Clone, Copy, Debug, PartialEq, Eq, Drop)]
pub struct Closed {
    /// How many entities were born, which are the first of the reserve.
    pub births: usize,
    /// How many indices were marked in the phase, each counted once, also one that was marked before.
    pub marks: usize,
    /// How many passes were given back.
    pub passes_back: usize,
}

impl<'a> Shared<'a> {
    /// The entities as they were at the opening.
    pub fn entities(&self) -> &EntitiesRes
        ensures { result.now ≡ entities_of self.now }
    {
        self.entities
    }

    /// Gives the pass an entity of the reserve, which nobody else is given. Where the reserve is used up, the pass is spent. It is one
    /// atomic addition, and of a spent pass no step.
    #[inline]
    pub fn create(&self, pass: &mut Pass) -> Result<Entity, Exhausted>
        requires { IsPassOf (board_of self.now) pass.old }
        ensures pass { IsPassOf (board_of self.now) pass.new }
        ensures given { IfOk result (λ e. (t : ℕ) × IsNext pass.old pass.new (Draw t ∷ []) × (slice_get (phase_opened self.now).reserve t ≡ Some e)) }
        ensures gains { IfOk result (λ e. Gains (phase_opened self.now) pass.old pass.new (e ∷ []) []) }
        ensures own { IfOk result (λ e. Contains (given_of (phase_opened self.now) pass.new) e) }
        ensures seen { IfOk result (λ e. SawAlive (phase_opened self.now) pass.new e) }
        ensures nothing { IfErr result (λ _. Gains (phase_opened self.now) pass.old pass.new [] []) }
        ensures unspent { IfOk result (λ _. (is_spent pass.old ≡ false) × (is_spent pass.new ≡ false)) }
        ensures spent { IfErr result (λ _. SpentSteps (board_of self.now) pass.old pass.new) }
    {
        if pass.spent {
            return Err(Exhausted);
        }
        let ticket = self.board.draw(pass);
        if ticket < self.board.plan.reserve.len() as u64 {
            return Ok(self.board.plan.reserve[ticket as usize]);
        }
        pass.spent = true;
        Err(Exhausted)
    }

    /// Whether the entity lives: one of the reserve if it was given out, which is one atomic load, any other if it lived at the opening.
    #[inline]
    pub fn is_alive(&self, pass: &mut Pass, entity: Entity) -> bool
        requires open { IsOpen (entities_of self.now) (board_of self.now) }
        requires pass { IsPassOf (board_of self.now) pass.old }
        ensures pass { IsPassOf (board_of self.now) pass.new }
        ensures spent { is_spent pass.new ≡ is_spent pass.old }
        ensures steps { AliveSteps (board_of self.now) pass.old pass.new entity result }
        ensures nothing { Gains (phase_opened self.now) pass.old pass.new [] [] }
        ensures own { Contains (given_of (phase_opened self.now) pass.old) entity → result ≡ true }
        ensures seen { result ≡ true → SawAlive (phase_opened self.now) pass.new entity }
        ensures stays { SawAlive (phase_opened self.now) pass.old entity → result ≡ true }
    {
        match self.board.plan.place_of(entity) {
            Some(place) => (place as u64) < self.board.look(pass),
            None => self.entities.is_alive(entity),
        }
    }

    /// Marks an entity that lives, as `is_alive` finds it, by an atomic "or": it dies at the next merge after the phase. Any other is refused,
    /// with the generation that its index had at the opening. An "or" is built as a load and a compare-and-exchange, which repeats where
    /// another thread wrote between them.
    #[inline]
    pub fn delete(&self, pass: &mut Pass, entity: Entity) -> Result<(), WrongGeneration>
        requires open { IsOpen (entities_of self.now) (board_of self.now) }
        requires pass { IsPassOf (board_of self.now) pass.old }
        ensures pass { IsPassOf (board_of self.now) pass.new }
        ensures spent { is_spent pass.new ≡ is_spent pass.old }
        ensures marked { IfOk result (λ _. MarkSteps (board_of self.now) pass.old pass.new entity) }
        ensures gains { IfOk result (λ _. Gains (phase_opened self.now) pass.old pass.new [] (index_of entity ∷ [])) }
        ensures nothing { IfErr result (λ _. Gains (phase_opened self.now) pass.old pass.new [] []) }
        ensures own { IfErr result (λ _. Contains (given_of (phase_opened self.now) pass.old) entity → ⊥) }
        ensures own_mark { IfOk result (λ _. Contains (marks_of pass.new) (index_of entity)) }
        ensures seen { IfOk result (λ _. SawAlive (phase_opened self.now) pass.new entity) }
        ensures stays { IfErr result (λ _. SawAlive (phase_opened self.now) pass.old entity → ⊥) }
        ensures refused { IfErr result (λ w. AliveSteps (board_of self.now) pass.old pass.new entity false × (w.entity ≡ entity)) }
        ensures actual { IfErr result (λ w. number_of w.actual_gen ≡ generation_reported (population (entities_of self.now)) (index_of entity)) }
        ensures action { IfErr result (λ w. w.action.now ≡ DELETE.now) }
    {
        if !self.is_alive(pass, entity) {
            return Err(self.entities.wrong_generation(DELETE, entity));
        }
        self.board.mark_as::<Brand>(pass, entity.0);
        Ok(())
    }

    /// Whether the entity lives, as `is_alive` finds it, and is marked, before the opening or in the phase, by one atomic load more.
    #[inline]
    pub fn pending(&self, pass: &mut Pass, entity: Entity) -> bool
        requires open { IsOpen (entities_of self.now) (board_of self.now) }
        requires pass { IsPassOf (board_of self.now) pass.old }
        ensures pass { IsPassOf (board_of self.now) pass.new }
        ensures spent { is_spent pass.new ≡ is_spent pass.old }
        ensures steps { PendingSteps (board_of self.now) pass.old pass.new entity result }
        ensures nothing { Gains (phase_opened self.now) pass.old pass.new [] [] }
        ensures own { Contains (marks_of pass.old) (index_of entity) → SawAlive (phase_opened self.now) pass.old entity → result ≡ true }
        ensures seen { result ≡ true → SawAlive (phase_opened self.now) pass.new entity }
    {
        if !self.is_alive(pass, entity) {
            return false;
        }
        let found = self.board.peek_as::<Brand>(pass, entity.0);
        found || self.entities.marked().contains(entity.0)
    }

    /// Ends the phase, with the passes that came back: the first of the reserve are born, pending, and what was marked is marked. It takes
    /// no memory, and time in proportion to the births, the marks, and the words of marks, each of which is of 64 indices.
    pub fn close(self, passes: Vec<Pass>) -> Closed
        requires open { IsOpen (entities_of self) (board_of self) }
        requires passes { All (IsPassOf (board_of self)) passes.items }
        ensures closed { IsClosed (phase_opened self.entry) (record_of passes.items) (population (entities_of self.entry)) (population self.exit.0.now) result.births result.marks }
        ensures once { AreGivenOnce (phase_opened self.entry) passes.items }
        ensures taken_up { AreTakenUp (phase_opened self.entry) passes.items (population self.exit.0.now) }
        ensures theirs { length passes.items ≡ (phase_opened self.entry).passes → AreAllTheirs (phase_opened self.entry) passes.items (population (entities_of self.entry)) (population self.exit.0.now) }
        ensures room { self.exit.0.now.room ≡ (entities_of self.entry).room }
        ensures back { result.passes_back ≡ length passes.items }
        ensures spent { (k : ℕ) (d : Pass) → k < length passes.items → is_spent (slice_index_or passes.items k d) ≡ true → result.births ≡ length (phase_opened self.entry).reserve }
    {
        let Shared { entities, board } = self;
        let passes_back = passes.len();
        let ended = board.finish(passes);
        let births = ended.births();
        entities.bear_reserved(births);
        let marks = mark_all(entities, &ended);
        ended.free();
        Closed {
            births,
            marks,
            passes_back,
        }
    }
}
