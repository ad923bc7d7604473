//! Worlds without jobs of the user's.
use crate::job::{LazyUpdate, WorldJob};
use crate::slots::Held;
use crate::world::Core;
use std::alloc::AllocError;

/// The job type of a world whose user has no jobs of their own. A job of it does nothing.
#[derive(Clone, Copy, Debug, PartialEq, Eq, Drop)]
pub struct NoJob;

impl<S: Held> WorldJob<S> for NoJob {
    ghost use Rattle.specs.specs.Laws.Lawful.{DoesNothing, still_grows, still_lives, nothing_tells};

    ghost does = { λ j old more new. DoesNothing old more new };

    ghost wants = { λ j s. ⊥ };

    ghost spares = { λ j slot n. Unit {0} };

    fn update(
        self,
        _core: &mut Core<S>,
        _queue: &mut LazyUpdate<S, NoJob>,
    ) -> Result<(), (NoJob, AllocError)> {
        Ok(())
    }

    ghost grows = { λ j old new more s. still_grows old new s.1 };

    ghost lives = { λ j old new more s w. still_lives old new s.1 w };

    ghost tells = { λ j slot n old new more s spared l. nothing_tells _ slot n old new more s l };
}
