//! Jobs of the user's without laws of their own.
ghost use Rattle.std.specs.Prelude.{◌≡◌, OnOk, OnErr, IfErr};
ghost use Rattle.std.specs.Fn.{CalledAtMut};
ghost use Rattle.specs.specs.Laws.Going.{GoesOn, Lengthens};
ghost use Rattle.specs.specs.Job.Queue.{queued};
ghost use Rattle.specs.specs.Job.Repeating.{CallsInTurn};
ghost use Rattle.specs.specs.World.State.{State, core_state};

use crate::job::{LazyUpdate, WorldJob};
use crate::slots::{Held, Storages};
use crate::world::Core;
use std::alloc::AllocError;

/// A job of the user's that changes a core by its calls alone, each of which goes on by steps of the model, so that it states no law. As
/// `Doing` it is a job of a world's. Ports what `LazyUpdate::exec_mut` is given.
pub trait Act<S: Held>: Sized + Drop {
    /// What the act comes to, for proofs alone. An impl that leaves it out promises nothing but that the model goes on.
    ghost acts: { Self → State S.Slot S.Value → State S.Slot S.Value → Type 0 } = { λ _ _ _. Unit {0} };

    /// Does the job, and queues whatever comes after it. Where memory is refused before anything changed, the job is handed back; where it is
    /// refused later, the job queues what is left of it, or lets it be, and ends.
    fn act(
        self,
        core: &mut Core<S>,
        queue: &mut LazyUpdate<S, Doing<Self>>,
    ) -> Result<(), (Self, AllocError)>
        ensures goes_on { GoesOn (core_state S.table S.ids core.old) (core_state S.table S.ids core.new) }
        ensures acts { OnOk result (acts self (core_state S.table S.ids core.old) (core_state S.table S.ids core.new)) }
        ensures lengthens { Lengthens (queued queue.old) (queued queue.new) }
        ensures back { IfErr result (λ r. r.0 ≡ self) }
        ensures err_core { OnErr result (core_state S.table S.ids core.new ≡ core_state S.table S.ids core.old) }
        ensures err_queue { OnErr result (queued queue.new ≡ queued queue.old) };
}

/// An act as a job of a world's, which does it when its turn comes, and may find no memory in any state. It spares every reader.
#[derive(Drop)]
pub struct Doing<A>(pub A);

impl<S: Storages, A: Act<S>> WorldJob<S> for Doing<A> {
    ghost use Rattle.specs.specs.Laws.Going.{ComesOf};
    ghost use Rattle.specs.specs.Laws.GoingLaws.{comes_grows, comes_lives, comes_tells};

    ghost does = { λ j old more new. ComesOf old new × A.acts j.0 old new };

    ghost wants = { λ j s. Unit {0} };

    ghost spares = { λ j slot n. Unit {0} };

    fn update(
        self,
        core: &mut Core<S>,
        queue: &mut LazyUpdate<S, Self>,
    ) -> Result<(), (Self, AllocError)> {
        match self.0.act(core, queue) {
            Ok(()) => Ok(()),
            Err((act, refused)) => Err((Doing(act), refused)),
        }
    }

    ghost grows = { λ j old new more c. comes_grows old new c.0 };

    ghost lives = { λ j old new more c w. comes_lives old new c.0 w };

    ghost tells = { λ j slot n old new more c spared l. comes_tells slot n (λ k. S.Slot.eq k slot) (λ k. S.exact k slot) old new more c.0 l };
}

impl<S: Held> Core<S> {
    /// Calls `f` so many times, each time on the core as the call before left it.
    pub fn repeat<F: FnMut(&mut Core<S>)>(&mut self, count: u32, mut f: F)
        requires callable { F.IsAlwaysCallable f }
        requires goes_on { (g : F) (x : _) (h : F) (y : _) → CalledAtMut F.FnMut g x tt h y → GoesOn (core_state S.table S.ids x) (core_state S.table S.ids y) }
        ensures calls { (g : F) × CallsInTurn (λ f x h y. CalledAtMut F.FnMut f x tt h y) count f self.old g self.new }
        ensures goes_on { GoesOn (core_state S.table S.ids self.old) (core_state S.table S.ids self.new) }
    {
        for _i in 0..count {
            f(self);
        }
    }
}
