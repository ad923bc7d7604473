//! The members of a set or of a view, ascending.
ghost use Rattle.std.specs.Prelude.{◌≡◌, ℕ, ◌+◌, ◌-◌, ◌*◌, ◌^◌, ◌<◌, ◌≤◌, Bool, true, List, [], ◌∷◌, MatchOption, IfSome, IfNone, min, length};
ghost use Rattle.std.specs.Iterator.{YieldsFirst, item_count, MakesProgress};
ghost use Rattle.std.specs.Bool.{⊤};
ghost use Rattle.std.specs.List.{Contains};
ghost use Rattle.std.specs.List.Sorted.{IsStrictlyIncreasing};
ghost use Rattle.hibits.specs.Walks.{IsNext};
ghost use Rattle.hibits.specs.Left.{left};

use crate::layers::Layers;
use crate::limits::{INDEX_LIMIT, Index, LAYERS};
use crate::walk::Walk;
use std::alloc::AllocError;
use std::marker::Model;

/// The members of a set or of a view, ascending. Ports `hibitset::BitIter`.
#[derive(Drop)]
pub struct BitIter<M: Layers> {
    mask: M,
    walk: Walk,
}

impl<M: Layers> Model for BitIter<M> {
    ghost use Rattle.hibits.specs.Walking.{Walking};

    ghost Value = { Walking M };

    ghost use Rattle.hibits.specs.WalkOf.{IsWalkOf, position, words_read};

    ghost view = { λ a. record { mask = a.mask; position = position a.walk; reads = words_read a.walk } };

    ghost invariant = { λ a. IsWalkOf (M.has a.mask) (M.cost a.mask) a.walk };
}

/// The copy walks on from the same place, and has read as many words.
impl<M: Layers + Copy> Clone for BitIter<M> {
    ghost is_clone = { λ x y. y ≡ x };

    ghost is_infallible = { λ _. ⊤ };

    #[inline(always)]
    fn clone(&self) -> Result<Self, AllocError> {
        Ok(BitIter {
            mask: self.mask,
            walk: self.walk,
        })
    }
}

impl<M: Layers> BitIter<M> {
    /// Starts at the first member. It reads the top word.
    pub fn new(mask: M) -> Self
        ensures mask { result.mask ≡ mask }
        ensures position { result.position ≡ 0 }

        // The list that the walk gives is that of the members, ascending.
        ensures ascends { IsStrictlyIncreasing (left (M.has mask 0) 0) }
        ensures holds { (i : ℕ) → i < INDEX_LIMIT → M.has mask 0 i ≡ true → Contains (left (M.has mask 0) 0) i }
        ensures members { (i : ℕ) → Contains (left (M.has mask 0) 0) i → i < INDEX_LIMIT × (M.has mask 0 i ≡ true) }

        ensures reads { result.reads ≡ min (M.cost mask) (2 ^ 64 - 1) }
    {
        let walk = Walk::new(&mask);
        BitIter { mask, walk }
    }

    /// The least member that isn't walked. It is the iterator's `next`, and says what stays as well.
    #[inline(always)]
    pub fn next(&mut self) -> Option<Index>
        ensures items { MatchOption result (left (M.has self.old.mask 0) self.old.position ≡ []) (λ i. left (M.has self.old.mask 0) self.old.position ≡ i ∷ left (M.has self.old.mask 0) self.new.position) }
        ensures mask { self.new.mask ≡ self.old.mask }
        ensures reads { self.old.reads ≤ self.new.reads }
        ensures next { IfSome result (IsNext (M.has self.old.mask 0) self.old.position) }
        ensures after { IfSome result (λ i. self.new.position ≡ i + 1) }
        ensures below { IfSome result (λ i. i < INDEX_LIMIT) }
        ensures end { IfNone result ((i : ℕ) → self.old.position ≤ i → i < INDEX_LIMIT → M.has self.old.mask 0 i ≡ true → ⊥) }
        ensures stays { IfNone result (self.new.position ≡ self.old.position) }
    {
        self.walk.next(&self.mask)
    }

    /// What is walked.
    #[inline(always)]
    pub fn mask(&self) -> &M
        ensures { result.now ≡ self.now.mask }
    {
        &self.mask
    }

    /// How many words of plain sets were read so far: at most one of each for the top, and one for each bit that is
    /// set in the layers above the lowest, of which none has more than `most`.
    #[inline(always)]
    pub fn reads(&self) -> u64
        ensures reads { result ≡ self.now.reads }
        ensures bound { result ≤ M.cost self.now.mask * ((LAYERS - 1) * M.most self.now.mask + 1) }
    {
        self.walk.reads()
    }
}

impl<M: Layers + Drop> Iterator for BitIter<M> {
    type Item = Index;

    ghost next_gives = { YieldsFirst (λ s. left (M.has s.mask 0) s.position) };

    ghost remaining = { item_count (λ s. left (M.has s.mask 0) s.position) };

    #[inline(always)]
    fn next(&mut self) -> Option<Index> {
        BitIter::next(self)
    }
}
