//! The error that a user's code may pass on.
ghost use Rattle.std.specs.Prelude.{◌≡◌, Some};
ghost use Rattle.entities.specs.Texts.{error_text};

use crate::entity::WrongGeneration;
use std::fmt;

/// A text of the user's, or an entity that was refused.
///
/// Ports `specs::error::Error`; the text stands for a boxed error.
#[derive(Debug, Drop)]
pub enum Error {
    /// A text of the user's.
    Custom(String),
    /// An entity that was refused, since it doesn't live.
    WrongGeneration(WrongGeneration),
}

impl fmt::Display for Error {
    ghost output = { λ e. Some (error_text e) };

    fn fmt<W: fmt::Write>(&self, f: &mut fmt::Formatter<W>) -> fmt::Result {
        match self {
            Error::Custom(text) => write!(f, "Custom: {text}"),
            Error::WrongGeneration(wrong) => write!(f, "Wrong generation: {wrong}"),
        }
    }
}

impl From<WrongGeneration> for Error {
    ghost use Rattle.entities.specs.declared.error.Error.TheVariants.{WrongGeneration};

    ghost from_gives = { λ w e. e ≡ WrongGeneration w };

    fn from(refused: WrongGeneration) -> Error {
        Error::WrongGeneration(refused)
    }
}

impl std::error::Error for Error {}
