//! The indices that a word stands for.
ghost use Rattle.std.specs.Prelude.{◌≡◌, ℕ, ◌+◌, ◌-◌, ◌*◌, ◌^◌, ◌<◌, ◌≤◌, [], ◌∷◌, MatchOption, IfSome, IfNone, length};
ghost use Rattle.hibits.specs.Words.{indices_of};

use crate::limits::{INDEX_LIMIT, Index, LAYERS};
use std::marker::Model;

/// The indices that a word of layer 0 stands for by its bits, ascending: bit `j` of the word at place `w` stands for the index `64 w + j`. A list of
/// these is a list of indices in one word for up to 64 of them. `hibitset` has no such list.
#[derive(Clone, Copy)]
pub struct WordIndices {
    place: u32,
    word: u64,
}

impl Model for WordIndices {
    ghost use Rattle.std.specs.Prelude.{ℕ, ◌^◌, ◌<◌, ◌-◌};
    ghost use Rattle.hibits.specs.declared.limits.TheConstants.{LAYERS};

    // the place, and the word
    ghost Value = { ℕ × ℕ };

    ghost view = { λ a. (a.place, a.word) };

    ghost inverse = { λ p. record { place = p.0; word = p.1 } };

    ghost invariant = { λ a. a.place < 64 ^ (LAYERS - 1) };
}

impl WordIndices {
    /// Those of the word at a place below `64 ^ (LAYERS - 1)`.
    #[inline(always)]
    pub fn new(place: u32, word: u64) -> Self
        requires { place < 64 ^ (LAYERS - 1) }
        ensures { result ≡ (place, word) }
    {
        WordIndices { place, word }
    }

    /// How many there are.
    #[inline(always)]
    pub fn count(&self) -> u32
        ensures { result ≡ length (indices_of self.now) }
    {
        self.word.count_ones()
    }

    /// Takes the least off.
    #[inline(always)]
    pub fn next(&mut self) -> Option<Index>
        ensures items { MatchOption result (indices_of self.old ≡ []) (λ i. indices_of self.old ≡ i ∷ indices_of self.new) }
        ensures below { IfSome result (λ i. i < INDEX_LIMIT) }
        ensures stays { IfNone result (self.new ≡ self.old) }
    {
        if self.word == 0 {
            return None;
        }
        let index = 64 * self.place + self.word.trailing_zeros();
        self.word &= self.word - 1;
        Some(index)
    }
}
