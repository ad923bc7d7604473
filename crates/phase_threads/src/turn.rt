//! What a pass does.
ghost use Rattle.entities.specs.declared.phase.pass.Pass.{Pass};
ghost use Rattle.entities.specs.Phase.Trace.{Phase};
ghost use Rattle.entities.specs.Phase.Board.{IsPassOf};
ghost use Rattle.entities.specs.Phase.Opened.{entities_of, board_of, phase_opened};
ghost use Rattle.entities.specs.Phase.Calls.{IsOpen};
ghost use Rattle.entities.specs.Phase.Given.{IsBlank};

use entities::{Pass, Shared};

/// What a pass of a phase does in a thread of its own. It stands for a closure: its fields are what the closure would capture.
///
/// An impl writes no clause: that the phase is open, and the pass is of it, stands here.
pub trait Turn {
    /// What a turn answers, as the entities that its pass was given.
    type Answer: Send + Drop;

    /// What an answer tells of its phase and its pass, for proofs alone. An impl that leaves it out promises nothing of its answers.
    ghost tells: { Self → Phase → Pass → Self.Answer → Type 0 } = { λ _ _ _ _. Unit {0} };

    /// Makes the calls of one pass, which has made none yet.
    fn turn(&self, shared: &Shared<'_>, pass: &mut Pass) -> Self::Answer
        requires open { IsOpen (entities_of shared.now) (board_of shared.now) }
        requires pass { IsPassOf (board_of shared.now) pass.old }
        requires blank { IsBlank (phase_opened shared.now) pass.old }
        ensures pass { IsPassOf (board_of shared.now) pass.new }
        ensures told { tells self.now (phase_opened shared.now) pass.new result };
}
