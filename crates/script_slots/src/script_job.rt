//! The jobs of a script's own.
ghost use Rattle.std.specs.Prelude.{◌≡◌, [], ◌∷◌, ◌++◌, IfErr, OnOk, OnErr};
ghost use Rattle.specs.specs.World.State.{core_state};
ghost use Rattle.specs.specs.World.People.{BirthWantsMemory};
ghost use Rattle.specs.specs.Job.Queue.{queued};
ghost use Rattle.specs.specs.declared.job.Job.TheVariants.{Own};
ghost use Rattle.script_slots.specs.Jobs.{MayRaise};
ghost use Rattle.script_slots.specs.declared.script_job.ScriptJob.TheVariants.{Again};

use specs::{Core, CreateError, Held, LazyUpdate, WorldJob};
use std::alloc::AllocError;

/// A job of a script's own.
#[derive(Drop)]
pub enum ScriptJob {
    /// Queues itself again.
    Again,
    /// Makes an entity whose birth is pending, or nothing where no index is left.
    Create,
}

impl<S: Held> WorldJob<S> for ScriptJob {
    ghost use Rattle.script_slots.specs.Jobs.{Does, Wants, Spares, grows, lives_on, tells};

    ghost does = { Does };

    ghost wants = { Wants };

    ghost spares = { Spares };

    fn update(
        self,
        core: &mut Core<S>,
        queue: &mut LazyUpdate<S, ScriptJob>,
    ) -> Result<(), (ScriptJob, AllocError)> {
        match self {
            ScriptJob::Again => again(queue),
            ScriptJob::Create => match raise(core) {
                Ok(()) => Ok(()),
                Err(refused) => Err((ScriptJob::Create, refused)),
            },
        }
    }

    ghost grows = { grows };

    ghost lives = { lives_on S.place };

    ghost tells = { λ j slot n old new more s spared l. tells j slot n old new more s l };
}

/// The job that queues itself is queued again.
fn again<S: Held>(queue: &mut LazyUpdate<S, ScriptJob>) -> Result<(), (ScriptJob, AllocError)>
    ensures ok { OnOk result (queued queue.new ≡ queued queue.old ++ Own Again ∷ []) }
    ensures back { IfErr result (λ r. r.0 ≡ Again) }
    ensures err { OnErr result (queued queue.new ≡ queued queue.old) }
{
    match queue.exec(ScriptJob::Again) {
        Ok(()) => Ok(()),
        Err(failed) => Err((failed.value, AllocError)),
    }
}

/// A pending birth, or nothing where no index is left.
fn raise<S: Held>(core: &mut Core<S>) -> Result<(), AllocError>
    ensures ok { OnOk result (MayRaise (core_state S.table S.ids core.old) (core_state S.table S.ids core.new)) }
    ensures wanted { OnErr result (BirthWantsMemory (core_state S.table S.ids core.old).people) }
    ensures err { OnErr result (core_state S.table S.ids core.new ≡ core_state S.table S.ids core.old) }
{
    match core.parts().entities.create() {
        Ok(_e) => Ok(()),
        Err(CreateError::IndexLimit) => Ok(()),
        Err(CreateError::OutOfMemory) => Err(AllocError),
    }
}
