//! Entities that are born as they are asked for.
use crate::slots::Held;
use crate::world::Core;
use entities::{CreateError, Entity};

/// Entities that are born at once, as they are asked for. It ends where no index is left, and after want of memory, which is its last
/// item. Ports `specs::world::CreateIter`.
#[derive(Drop)]
pub struct CreateIter<'a, S> {
    pub(crate) core: &'a mut Core<S>,
    pub(crate) ended: bool,
}

impl<'a, S: Held> Iterator for CreateIter<'a, S> {
    type Item = Result<Entity, CreateError>;

    ghost use Rattle.specs.specs.Builder.Creating.{CreatesNext};

    ghost next_gives = { CreatesNext S.table S.ids };

    fn next(&mut self) -> Option<Result<Entity, CreateError>> {
        if self.ended {
            return None;
        }
        match self.core.bear_lawfully() {
            Ok(entity) => Some(Ok(entity)),
            Err(CreateError::IndexLimit) => None,
            Err(CreateError::OutOfMemory) => {
                self.ended = true;
                Some(Err(CreateError::OutOfMemory))
            }
        }
    }
}
