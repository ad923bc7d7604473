//! Jobs of the user's.
ghost use Rattle.std.specs.Prelude.{◌≡◌, ℕ, List, ◌++◌, OnOk, OnErr, IfErr};
ghost use Rattle.specs.specs.Laws.Evolving.{Evolves, ValuesLive};
ghost use Rattle.specs.specs.Reading.Following.{IsFollowed, Spared};
ghost use Rattle.specs.specs.Job.Queue.{queued, QueuesMore};
ghost use Rattle.specs.specs.Laws.Reached.{OnlyLiving};
ghost use Rattle.specs.specs.World.State.{State, core_state};
ghost use Rattle.specs.specs.declared.job.Job.{Job};

use crate::job::LazyUpdate;
use crate::slots::Held;
use crate::world::Core;
use std::alloc::AllocError;

/// A job of the user's, which `World::maintain` does when its turn comes. Ports what `LazyUpdate::exec_mut` is given.
pub trait WorldJob<S: Held>: Sized + Drop {
    /// What the job may do: from a state, with the further jobs that it queues, to a state.
    ghost does: { Self → State S.Slot S.Value → List (Job S Self S.Slot S.Value) → State S.Slot S.Value → Type 0 };

    /// In which states the job may find no memory. A job that takes none says `⊥`, and is never handed back.
    ghost wants: { Self → State S.Slot S.Value → Type 0 };

    /// The readers of slots that the job spares: it neither reads nor ends the reader, leaves the slot's events on, writes none by hand, and
    /// queues only jobs that spare it.
    ghost spares: { Self → S.Slot → ℕ → Type 0 };

    /// Does the job. Where memory is refused, core and queue are as before, and the job is handed back.
    fn update(
        self,
        core: &mut Core<S>,
        queue: &mut LazyUpdate<S, Self>,
    ) -> Result<(), (Self, AllocError)>
        ensures ok { OnOk result (QueuesMore queue.old queue.new (λ more. does self (core_state S.table S.ids core.old) more (core_state S.table S.ids core.new))) }
        ensures back { IfErr result (λ r. r.0 ≡ self) }
        ensures wanted { OnErr result (wants self (core_state S.table S.ids core.old)) }
        ensures err_core { OnErr result (core_state S.table S.ids core.new ≡ core_state S.table S.ids core.old) }
        ensures err_queue { OnErr result (queued queue.new ≡ queued queue.old) };

    /// The population changes by steps of its own alone.
    ghost grows: { (j : Self) (old new : State S.Slot S.Value) (more : List (Job S Self S.Slot S.Value)) → does j old more new → Evolves old.people new.people };

    /// If each index with a value lived, it still does.
    ghost lives: { (j : Self) (old new : State S.Slot S.Value) (more : List (Job S Self S.Slot S.Value)) → does j old more new → OnlyLiving old → ValuesLive new };

    /// A reader that is spared goes on to follow its slot.
    ghost tells: { (j : Self) (slot : S.Slot) (n : ℕ) (old new : State S.Slot S.Value) (more : List (Job S Self S.Slot S.Value)) → does j old more new
        → spares j slot n → IsFollowed slot n old → Spared spares slot n old more new };
}
