//! Opening a phase.
ghost use Rattle.std.specs.Prelude.{◌≡◌, ℕ, ◌+◌, ◌-◌, ◌<◌, ◌≤◌, ◌^◌, length, max, IfOk, IfErr, IsOk};
ghost use Rattle.std.specs.Borrow.{sem};
ghost use Rattle.entities.specs.Census.{population};

use crate::entities_res::EntitiesRes;
use crate::phase::pass::Pass;
use crate::phase::reserve::plan_of;
use crate::phase::shared::Shared;
use crate::phase::start::start;
use std::alloc::{AllocError, Global};
use thiserror::Error;

/// The most passes that a phase may have.
pub const MOST_PASSES: usize = 4096;

/// Why no phase was opened. The entities are as they were.
#[derive(Clone, Copy, Debug, PartialEq, Eq, Drop, Error)]
pub enum OpenError {
    /// There are more passes than `MOST_PASSES`. It is tested first, before any work.
    #[error("too many passes")]
    TooManyPasses,
    /// Fewer indices than the reserve asks for are free or unused. It is tested next, before any memory is taken.
    #[error("fewer indices than the reserve are left")]
    IndexLimit,
    /// There is no memory for the phase, or for the births, marks and deaths of its reserve.
    #[error("out of memory")]
    OutOfMemory,
}

impl From<AllocError> for OpenError {
    ghost use Rattle.entities.specs.declared.phase.opening.OpenError.TheVariants.{OutOfMemory};
    ghost use Rattle.std.specs.Prelude.{◌≡◌};

    ghost from_gives = { λ _ e. e ≡ OutOfMemory };

    fn from(_error: AllocError) -> OpenError {
        OpenError::OutOfMemory
    }
}

impl EntitiesRes {
    ghost use Rattle.entities.specs.Phase.Lending.{OpenRests, name_of_phase};
    ghost use Rattle.entities.specs.Phase.Reserve.{IsReserve, givable};
    ghost use Rattle.entities.specs.Phase.Calls.{IsOpen, EveryOrderIsSound};
    ghost use Rattle.entities.specs.Phase.Board.{AreFresh, IsPassOf};
    ghost use Rattle.entities.specs.Phase.Opened.{entities_of, board_of, phase_opened};
    ghost use Rattle.entities.specs.Phase.Given.{IsBlank};
    ghost use Rattle.std.specs.List.{All};

    /// Opens a phase, in which passes make and delete entities from several threads at once: `reserve` entities are set aside, which the
    /// passes may be given, and `passes` passes are made. All memory of the phase is got here: of every step, of closing, and of the
    /// reserve's later marks and deaths. It takes time in proportion to the reserve, the passes and the indices that were ever born.
    ///
    /// The errors are tested in the order of `OpenError`; after one, the entities are as they were.
    pub fn open(
        &mut self,
        alloc: Global,
        reserve: u32,
        passes: usize,
    ) -> Result<(Shared<'_>, Vec<Pass>), OpenError>
        ensures* rests { sem 𝓛 (OpenRests self.entry result) }
        ensures same_reference { IfOk result (λ r. name_of_phase r ≡ self.entry.ghost_name) }
        ensures open { IfOk result (λ r. IsOpen (entities_of r.0) (board_of r.0)) }
        ensures same { IfOk result (λ r. population (entities_of r.0) ≡ population self.old) }
        ensures room { IfOk result (λ r. self.old.room ≤ (entities_of r.0).room) }
        ensures takes { IfOk result (λ r. (entities_of r.0).room ≤ max self.old.room (length self.old.generations + reserve)) }
        ensures plan { IfOk result (λ r. (phase_opened r.0).opening ≡ population self.old) }
        ensures sizes { IfOk result (λ r. (length (phase_opened r.0).reserve ≡ reserve) × ((phase_opened r.0).passes ≡ passes)) }
        ensures reserve { IfOk result (λ r. IsReserve (population self.old) (phase_opened r.0).reserve) }
        ensures passes { IfOk result (λ r. AreFresh (board_of r.0) 0 r.1.items × (length r.1.items ≡ passes)) }
        ensures blank { IfOk result (λ r. All (IsBlank (phase_opened r.0)) r.1.items) }
        ensures of_phase { IfOk result (λ r. All (IsPassOf (board_of r.0)) r.1.items) }
        ensures law { IfOk result (λ r. EveryOrderIsSound (phase_opened r.0)) }
        ensures many { IfErr result (λ e. e ≡ OpenError.TooManyPasses → MOST_PASSES < passes) }
        ensures limit { IfErr result (λ e. e ≡ OpenError.IndexLimit → passes ≤ MOST_PASSES × givable (population self.old) < reserve) }
        ensures memory { IfErr result (λ e. e ≡ OpenError.OutOfMemory → passes ≤ MOST_PASSES × reserve ≤ givable (population self.old)) }
        ensures few { IfOk result (λ _. passes ≤ MOST_PASSES × reserve ≤ givable (population self.old)) }
    {
        if passes > MOST_PASSES {
            return Err(OpenError::TooManyPasses);
        }
        let plan = match plan_of(self, alloc, reserve as usize, passes) {
            Ok(plan) => plan,
            Err(error) => return Err(error),
        };
        let (board, passes) = match start(alloc, plan) {
            Ok(started) => started,
            Err(AllocError) => return Err(OpenError::OutOfMemory),
        };
        Ok((
            Shared {
                entities: self,
                board,
            },
            passes,
        ))
    }
}
