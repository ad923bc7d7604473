//! The numbers of readers.
ghost use Rattle.std.specs.Prelude.{◌≡◌};

use std::marker::Model;
use thiserror::Error;

/// The number of a reader. Ports `shrev::ReaderId`.
#[derive(Drop, Debug, PartialEq, Eq)]
pub struct ReaderId {
    pub(crate) number: u64,
}

impl Model for ReaderId {
    ghost use Rattle.std.specs.Prelude.{ℕ};
    ghost use Rattle.std.specs.Coded.{coded_ℕ};

    ghost Value = { ℕ };

    ghost coded = { coded_ℕ };

    ghost view = { λ r. r.number };

    ghost inverse = { λ n. record { number = n } };
}

impl ReaderId {
    /// The reader with a number.
    pub fn of(number: u64) -> ReaderId
        ensures { result ≡ number }
    {
        ReaderId { number }
    }

    /// How many readers were registered before it.
    pub fn number(&self) -> u64
        ensures { result ≡ self.now }
    {
        self.number
    }
}

/// The number is of no registered reader. Nothing has changed. Not in specs, whose channel panics there.
#[derive(Clone, Copy, Debug, PartialEq, Eq, Error)]
#[error("the number is of no registered reader")]
pub struct UnknownReader;
