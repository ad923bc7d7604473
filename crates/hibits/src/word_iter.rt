//! The words of a set or of a view, ascending.
ghost use Rattle.std.specs.Prelude.{◌≡◌, ℕ, ◌+◌, ◌-◌, ◌*◌, ◌^◌, ◌<◌, ◌≤◌, Bool, true, [], ◌∷◌, MatchOption, IfSome, IfNone, min};
ghost use Rattle.std.specs.Iterator.{YieldsFirst, item_count, MakesProgress};
ghost use Rattle.hibits.specs.Words.{IsNextWord, words_from};

use crate::layers::Layers;
use crate::limits::{INDEX_LIMIT, LAYERS};
use crate::walk::Walk;
use std::marker::Model;

/// The words of layer 0 of a set or of a view that are not 0, ascending, each with its place before it: bit `j` of the word at place `w` stands
/// for the index `64 w + j`. So members are gone over 64 at a time. `hibitset` has no such walk.
#[derive(Drop)]
pub struct WordIter<M: Layers> {
    mask: M,
    walk: Walk,
}

impl<M: Layers> Model for WordIter<M> {
    ghost use Rattle.hibits.specs.Walking.{Walking};

    ghost Value = { Walking M };

    ghost use Rattle.hibits.specs.WalkOf.{IsWordWalkOf, next_place, words_read};

    ghost view = { λ a. record { mask = a.mask; position = next_place a.walk; reads = words_read a.walk } };

    ghost invariant = { λ a. IsWordWalkOf (M.has a.mask) (M.cost a.mask) a.walk };
}

impl<M: Layers> WordIter<M> {
    /// Starts at the first word. It reads the top word.
    pub fn new(mask: M) -> Self
        ensures mask { result.mask ≡ mask }
        ensures position { result.position ≡ 0 }
        ensures reads { result.reads ≡ min (M.cost mask) (2 ^ 64 - 1) }
    {
        let walk = Walk::by_words(&mask);
        WordIter { mask, walk }
    }

    /// The next word that is not 0, with its place before it. It is the iterator's `next`, and says what stays as well.
    #[inline(always)]
    pub fn next(&mut self) -> Option<(u32, u64)>
        ensures items { MatchOption result (words_from (M.has self.old.mask 0) self.old.position ≡ []) (λ r. words_from (M.has self.old.mask 0) self.old.position ≡ r ∷ words_from (M.has self.old.mask 0) self.new.position) }
        ensures mask { self.new.mask ≡ self.old.mask }
        ensures reads { self.old.reads ≤ self.new.reads }
        ensures next { IfSome result (λ r. IsNextWord (M.has self.old.mask 0) self.old.position r.0 r.1) }
        ensures after { IfSome result (λ r. self.new.position ≡ r.0 + 1) }
        ensures below { IfSome result (λ r. r.0 < 64 ^ (LAYERS - 1)) }
        ensures end { IfNone result ((i : ℕ) → 64 * self.old.position ≤ i → i < INDEX_LIMIT → M.has self.old.mask 0 i ≡ true → ⊥) }
        ensures stays { IfNone result (self.new.position ≡ self.old.position) }
    {
        self.walk.next_word(&self.mask)
    }

    /// What is walked.
    #[inline(always)]
    pub fn mask(&self) -> &M
        ensures { result.now ≡ self.now.mask }
    {
        &self.mask
    }

    /// How many words of plain sets were read so far: at most one of each for the top, and one for each bit that is
    /// set in the layers above the lowest, of which none has more than `most`.
    #[inline(always)]
    pub fn reads(&self) -> u64
        ensures reads { result ≡ self.now.reads }
        ensures bound { result ≤ M.cost self.now.mask * ((LAYERS - 1) * M.most self.now.mask + 1) }
    {
        self.walk.reads()
    }
}

impl<M: Layers + Drop> Iterator for WordIter<M> {
    type Item = (u32, u64);

    ghost next_gives = { YieldsFirst (λ s. words_from (M.has s.mask 0) s.position) };

    ghost remaining = { item_count (λ s. words_from (M.has s.mask 0) s.position) };

    #[inline(always)]
    fn next(&mut self) -> Option<(u32, u64)> {
        WordIter::next(self)
    }
}
