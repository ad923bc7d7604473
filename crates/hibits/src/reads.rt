//! A counter of words.
ghost use Rattle.std.specs.Prelude.{◌≡◌, ◌+◌, ◌-◌, ◌^◌, min};

use std::marker::Model;

/// How many words of plain sets were read. It stays at the greatest `u64`.
#[derive(Clone, Copy, PartialEq, Eq, Debug)]
pub struct Reads {
    count: u64,
}

impl Model for Reads {
    ghost use Rattle.std.specs.Prelude.{ℕ};

    ghost Value = { ℕ };

    ghost view = { λ r. r.count };

    ghost inverse = { λ n. record { count = n } };
}

impl Reads {
    /// No word yet.
    pub fn new() -> Self
        ensures { result ≡ 0 }
    {
        Reads { count: 0 }
    }

    /// How many words were read.
    #[inline(always)]
    pub fn count(&self) -> u64
        ensures { result ≡ self.now }
    {
        self.count
    }

    /// Counts one word more.
    #[inline(always)]
    pub fn add_one(&mut self)
        ensures { self.new ≡ min (self.old + 1) (2 ^ 64 - 1) }
    {
        *self = Reads {
            count: Reads::count(self).saturating_add(1),
        };
    }
}
