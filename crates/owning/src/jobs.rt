//! Jobs that put components which own memory.
use crate::names::InVec;
use composed::{Act, Core, Doing, Entity, Has, InsertError, LazyUpdate};
use std::alloc::{AllocError, Global};
use std::marker::PhantomData;

/// What becomes of the name of an entity, where the names are at place `I`.
#[derive(Drop)]
pub enum Renaming<I> {
    /// It is called so.
    Called(Entity, String, PhantomData<I>),
    /// Its name is the empty text.
    Unnamed(Entity, Global, PhantomData<I>),
}

impl<I, S: Has<InVec, I>> Act<S> for Renaming<I> {
    fn act(
        self,
        core: &mut Core<S>,
        _queue: &mut LazyUpdate<S, Doing<Self>>,
    ) -> Result<(), (Self, AllocError)> {
        let Ok(mut names) = core.write_storage::<InVec, I>() else {
            return Ok(());
        };
        match self {
            Renaming::Called(entity, name, of) => match names.insert(entity, InVec(name)) {
                Err(InsertError::OutOfMemory(InVec(name))) => {
                    Err((Renaming::Called(entity, name, of), AllocError))
                }
                _ => Ok(()),
            },
            Renaming::Unnamed(entity, alloc, of) => {
                match names.insert(entity, InVec(String::new(alloc))) {
                    Err(InsertError::OutOfMemory(_)) => {
                        Err((Renaming::Unnamed(entity, alloc, of), AllocError))
                    }
                    _ => Ok(()),
                }
            }
        }
    }
}
