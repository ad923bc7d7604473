//! Entities made as they are asked for.
use crate::allocator::CreateError;
use crate::entities_res::EntitiesRes;
use crate::entity::Entity;

/// Entities made as they are asked for, whose births are pending. It ends where no index is left, and after want of memory, which is its
/// last item.
///
/// Ports `specs::world::CreateIterAtomic`.
#[derive(Drop)]
pub struct CreateIterAtomic<'a> {
    pub(crate) entities: &'a mut EntitiesRes,
    pub(crate) ended: bool,
}

impl<'a> Iterator for CreateIterAtomic<'a> {
    type Item = Result<Entity, CreateError>;

    ghost use Rattle.entities.specs.Creates.{CreatesNext};

    ghost next_gives = { CreatesNext };

    fn next(&mut self) -> Option<Result<Entity, CreateError>> {
        if self.ended {
            return None;
        }
        match self.entities.create() {
            Ok(entity) => Some(Ok(entity)),
            Err(CreateError::IndexLimit) => None,
            Err(CreateError::OutOfMemory) => {
                self.ended = true;
                Some(Err(CreateError::OutOfMemory))
            }
        }
    }
}
