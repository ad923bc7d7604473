//! Sets that are made of others, word by word.
ghost use Rattle.std.specs.Prelude.{◌≡◌, ℕ, nat_lt, ◌+◌, ◌-◌, ◌*◌, ◌/◌, ◌^◌, ◌<◌, ◌≤◌, Bool, true, not, cond, ◌==◌, ◌&&◌, ◌||◌, min};
ghost use Rattle.std.specs.Int.{bit_at};
ghost use Rattle.hibits.specs.Views.{in_one, outside, everywhere, and_covers, and_few, or_covers, or_views_few, one_covers, one_few, outside_covers, all_covers, all_few};
ghost use Rattle.hibits.specs.declared.limits.TheConstants.{LAYERS};

use crate::layers::{BitSetLike, Layers};
use crate::limits::{INDEX_LIMIT, Index, LAYERS};
use crate::reads::Reads;

/// The members of both. Ports `hibitset::BitSetAnd`.
#[derive(Clone, Copy, Debug)]
pub struct BitSetAnd<A, B>(pub A, pub B);

impl<A: Layers, B: Layers> Layers for BitSetAnd<A, B> {
    ghost has = { λ s l i. A.has s.0 l i && B.has s.1 l i };

    ghost cost = { λ s. A.cost s.0 + B.cost s.1 };

    ghost most = { λ s. min (A.most s.0) (B.most s.1) };

    ghost covers = { λ s l i. and_covers _ _ _ _ (A.covers s.0 l i) (B.covers s.1 l i) };

    ghost few = { λ s l n lt le. and_few _ _ _ _ n (A.few s.0 l n lt le) (B.few s.1 l n lt le) };

    #[inline(always)]
    fn word(&self, level: usize, place: u32, reads: &mut Reads) -> u64 {
        self.0.word(level, place, reads) & self.1.word(level, place, reads)
    }
}

impl<A: BitSetLike, B: BitSetLike> BitSetLike for BitSetAnd<A, B> {
    #[inline(always)]
    fn contains(&self, id: Index) -> bool {
        self.0.contains(id) && self.1.contains(id)
    }
}

/// The members of either. Ports `hibitset::BitSetOr`.
#[derive(Clone, Copy, Debug)]
pub struct BitSetOr<A, B>(pub A, pub B);

impl<A: Layers, B: Layers> Layers for BitSetOr<A, B> {
    ghost has = { λ s l i. A.has s.0 l i || B.has s.1 l i };

    ghost cost = { λ s. A.cost s.0 + B.cost s.1 };

    ghost most = { λ s. A.most s.0 + B.most s.1 };

    ghost covers = { λ s l i. or_covers _ _ _ _ (A.covers s.0 l i) (B.covers s.1 l i) };

    ghost few = { λ s l n lt le. or_views_few _ _ _ _ n (A.few s.0 l n lt le) (B.few s.1 l n lt le) };

    #[inline(always)]
    fn word(&self, level: usize, place: u32, reads: &mut Reads) -> u64 {
        self.0.word(level, place, reads) | self.1.word(level, place, reads)
    }
}

impl<A: BitSetLike, B: BitSetLike> BitSetLike for BitSetOr<A, B> {
    #[inline(always)]
    fn contains(&self, id: Index) -> bool {
        self.0.contains(id) || self.1.contains(id)
    }
}

/// The members of one and not of the other. Ports `hibitset::BitSetXor`.
#[derive(Clone, Copy, Debug)]
pub struct BitSetXor<A, B>(pub A, pub B);

impl<A: Layers, B: Layers> Layers for BitSetXor<A, B> {
    // The layers above the lowest are those of `BitSetOr`, since equal words of a layer say nothing of those below.
    ghost has = { λ s. in_one (A.has s.0) (B.has s.1) };

    ghost cost = { λ s. A.cost s.0 + B.cost s.1 };

    ghost most = { λ s. A.most s.0 + B.most s.1 };

    ghost covers = { λ s l i. one_covers (A.has s.0) (B.has s.1) l i (A.covers s.0 l i) (B.covers s.1 l i) };

    ghost few = { λ s l n lt le. one_few (A.has s.0) (B.has s.1) (A.most s.0) (B.most s.1) l n (A.few s.0 l n lt le) (B.few s.1 l n lt le) };

    #[inline(always)]
    fn word(&self, level: usize, place: u32, reads: &mut Reads) -> u64 {
        let first = self.0.word(level, place, reads);
        let second = self.1.word(level, place, reads);
        if level == 0 {
            first ^ second
        } else {
            first | second
        }
    }
}

impl<A: BitSetLike, B: BitSetLike> BitSetLike for BitSetXor<A, B> {
    #[inline(always)]
    fn contains(&self, id: Index) -> bool {
        self.0.contains(id) != self.1.contains(id)
    }
}

/// The indices below the limit that are no members. Ports `hibitset::BitSetNot`.
#[derive(Clone, Copy, Debug)]
pub struct BitSetNot<A>(pub A);

impl<A: Layers> Layers for BitSetNot<A> {
    // The layers above the lowest are full, since a full word and one that is partly set look the same from above.
    ghost has = { λ s. outside (A.has s.0) };

    ghost cost = { λ s. A.cost s.0 };

    ghost most = { λ _. 64 ^ LAYERS };

    ghost covers = { λ s l i. outside_covers (A.has s.0) l i };

    ghost few = { λ s l n lt le. all_few (outside (A.has s.0) l) l n le };

    #[inline(always)]
    fn word(&self, level: usize, place: u32, reads: &mut Reads) -> u64 {
        let word = self.0.word(level, place, reads);
        if level == 0 { !word } else { u64::MAX }
    }
}

impl<A: BitSetLike> BitSetLike for BitSetNot<A> {
    #[inline(always)]
    fn contains(&self, id: Index) -> bool {
        !self.0.contains(id) && id < INDEX_LIMIT
    }
}

/// Every index below the limit. Ports `hibitset::BitSetAll`.
#[derive(Clone, Copy, PartialEq, Eq, Debug)]
pub struct BitSetAll;

impl Layers for BitSetAll {
    ghost has = { λ _. everywhere };

    ghost cost = { λ _. 0 };

    ghost most = { λ _. 64 ^ LAYERS };

    ghost covers = { λ _ l i. all_covers l i };

    ghost few = { λ _ l n lt le. all_few (everywhere l) l n le };

    #[inline(always)]
    fn word(&self, _level: usize, _place: u32, reads: &mut Reads) -> u64 {
        // That the count stays is a fact of `u64`, which a proof has once the count is read.
        let _same = reads.count();
        u64::MAX
    }
}

impl BitSetLike for BitSetAll {
    #[inline(always)]
    fn contains(&self, id: Index) -> bool {
        id < INDEX_LIMIT
    }
}
