//! Why nothing was saved or loaded.
ghost use Rattle.std.specs.Prelude.{◌≡◌};
ghost use Rattle.saveload.specs.declared.error.SaveError.TheVariants.{OutOfMemory as NotSaved};
ghost use Rattle.saveload.specs.declared.error.LoadError.TheVariants.{OutOfMemory as NotLoaded};
ghost use Rattle.saveload.specs.Stops.{of_creating};

use entities::{CreateError, Entity};
use std::alloc::AllocError;
use thiserror::Error;

/// Why nothing was saved. The components are as before; a recursive save keeps the markers that it gave.
#[derive(Debug, Drop, Error)]
pub enum SaveError {
    /// A saved component refers to this entity, which has no marker, or isn't alive.
    #[error("an entity without a marker is referred to")]
    Unmarked(Entity),
    /// Every id was given out.
    #[error("every id was given out")]
    IdsExhausted,
    /// The new id already names an entity.
    #[error("the id is taken")]
    IdTaken,
    /// A conversion failed, for a cause of its own.
    #[error("{0}")]
    Custom(String),
    /// There is no memory.
    #[error("out of memory")]
    OutOfMemory,
}

impl From<AllocError> for SaveError {
    ghost from_gives = { λ x e. e ≡ NotSaved };

    fn from(_error: AllocError) -> Self {
        SaveError::OutOfMemory
    }
}

/// Why a load stopped. The records before the refused one are loaded.
#[derive(Debug, Drop, Error)]
pub enum LoadError {
    /// The text is not a list of records, or an id was asked for that names no entity. Nothing of the text was loaded.
    #[error("not the form of a saved list")]
    NotTheForm,
    /// No index is left for an entity.
    #[error("every index below the limit is used")]
    IndexLimit,
    /// A conversion failed, for a cause of its own.
    #[error("{0}")]
    Custom(String),
    /// There is no memory.
    #[error("out of memory")]
    OutOfMemory,
}

impl From<AllocError> for LoadError {
    ghost from_gives = { λ x e. e ≡ NotLoaded };

    fn from(_error: AllocError) -> Self {
        LoadError::OutOfMemory
    }
}

impl From<CreateError> for LoadError {
    ghost from_gives = { λ x e. e ≡ of_creating x };

    fn from(error: CreateError) -> Self {
        match error {
            CreateError::IndexLimit => LoadError::IndexLimit,
            CreateError::OutOfMemory => LoadError::OutOfMemory,
        }
    }
}
