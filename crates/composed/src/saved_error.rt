//! Why a world was not saved, or not loaded.
ghost use Rattle.std.specs.Prelude.{◌≡◌};
ghost use Rattle.composed.specs.declared.saved_error.SaveWorldError.TheVariants.{Refused as NotSaved};
ghost use Rattle.composed.specs.declared.saved_error.LoadWorldError.TheVariants.{Refused as NotLoaded};

use saveload::{LoadError, SaveError};
use thiserror::Error;

/// Why a world was not saved.
#[derive(Debug, Drop, Error)]
pub enum SaveWorldError {
    /// One of the component types that are saved, or the markers, are not registered. Nothing changed.
    #[error("a component type or the markers are not registered")]
    Unregistered,
    /// The save was refused. The components are as before; a recursive save keeps the markers that it gave.
    #[error("{0}")]
    Refused(SaveError),
}

impl From<SaveError> for SaveWorldError {
    ghost from_gives = { λ x e. e ≡ NotSaved x };

    fn from(error: SaveError) -> Self {
        SaveWorldError::Refused(error)
    }
}

/// Why a world was not loaded.
#[derive(Debug, Drop, Error)]
pub enum LoadWorldError {
    /// One of the component types that are loaded, or the markers, are not registered. Nothing changed.
    #[error("a component type or the markers are not registered")]
    Unregistered,
    /// The load was refused. Where the text is not of the form nothing changed; else the records before the refused one are loaded.
    #[error("{0}")]
    Refused(LoadError),
}

impl From<LoadError> for LoadWorldError {
    ghost from_gives = { λ x e. e ≡ NotLoaded x };

    fn from(error: LoadError) -> Self {
        LoadWorldError::Refused(error)
    }
}
