//! Keys as a tree orders them.
ghost use Rattle.std.specs.Prelude.{◌≡◌};

use std::cmp::Ordering;
use std::marker::Model;

/// A key as a tree orders it, which is just as keys are ordered. A search goes on past the keys that are less, so `cmp` tests that first: at numbers a step
/// of a search then takes fewer instructions.
///
/// Contracts see it as the key.
#[derive(Drop)]
pub(crate) struct Ranked<Q: Ord + Copy> {
    key: Q,
}

impl<Q: Ord + Copy> Model for Ranked<Q> {
    ghost Value = { Q };

    ghost view = { λ r. r.key };
}

impl<Q: Ord + Copy> Ranked<Q> {
    pub(crate) fn new(key: Q) -> Self
        ensures { result ≡ key }
    {
        Ranked { key }
    }
}

impl<Q: Ord + Copy> PartialEq for Ranked<Q> {
    ghost eq = { Q.eq };

    ghost laws = { Q.PartialEq.laws };

    fn eq(&self, other: &Self) -> bool {
        self.key == other.key
    }
}

impl<Q: Ord + Copy> Eq for Ranked<Q> {
    ghost laws = { Q.Eq.laws };
}

impl<Q: Ord + Copy> PartialOrd for Ranked<Q> {
    ghost partial_cmp = { Q.partial_cmp };

    ghost laws = { Q.PartialOrd.laws };

    fn partial_cmp(&self, other: &Self) -> Option<Ordering> {
        self.key.partial_cmp(&other.key)
    }
}

impl<Q: Ord + Copy> Ord for Ranked<Q> {
    ghost cmp = { Q.cmp };

    ghost total = { Q.total };

    ghost matches_partial_cmp = { Q.matches_partial_cmp };

    ghost matches_eq = { Q.matches_eq };

    fn cmp(&self, other: &Self) -> Ordering {
        if self.key > other.key {
            Ordering::Greater
        } else if self.key == other.key {
            Ordering::Equal
        } else {
            Ordering::Less
        }
    }
}
