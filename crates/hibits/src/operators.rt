//! `&`, `|`, `^` and `!` of sets and views. Ports the operators of `hibitset`'s sets, on references.
ghost use Rattle.std.specs.Prelude.{◌≡◌};

use crate::bit_set::BitSet;
use crate::layers::Layers;
use crate::views::{BitSetAll, BitSetAnd, BitSetNot, BitSetOr, BitSetXor};
use std::ops::{BitAnd, BitOr, BitXor, Not};

impl<'a, M: Layers> BitAnd<M> for &'a BitSet {
    type Output = BitSetAnd<&'a BitSet, M>;

    ghost bitand_gives = { λ a b r. (r.0 ≡ a) × (r.1 ≡ b) };

    #[inline(always)]
    fn bitand(self, other: M) -> BitSetAnd<&'a BitSet, M> {
        BitSetAnd(self, other)
    }
}

impl<'a, M: Layers> BitOr<M> for &'a BitSet {
    type Output = BitSetOr<&'a BitSet, M>;

    ghost bitor_gives = { λ a b r. (r.0 ≡ a) × (r.1 ≡ b) };

    #[inline(always)]
    fn bitor(self, other: M) -> BitSetOr<&'a BitSet, M> {
        BitSetOr(self, other)
    }
}

impl<'a, M: Layers> BitXor<M> for &'a BitSet {
    type Output = BitSetXor<&'a BitSet, M>;

    ghost bitxor_gives = { λ a b r. (r.0 ≡ a) × (r.1 ≡ b) };

    #[inline(always)]
    fn bitxor(self, other: M) -> BitSetXor<&'a BitSet, M> {
        BitSetXor(self, other)
    }
}

impl<'a> Not for &'a BitSet {
    type Output = BitSetNot<&'a BitSet>;

    ghost not_gives = { λ a r. r.0 ≡ a };

    #[inline(always)]
    fn not(self) -> BitSetNot<&'a BitSet> {
        BitSetNot(self)
    }
}

impl<'a, A, B, M: Layers> BitAnd<M> for &'a BitSetAnd<A, B> {
    type Output = BitSetAnd<&'a BitSetAnd<A, B>, M>;

    ghost bitand_gives = { λ a b r. (r.0 ≡ a) × (r.1 ≡ b) };

    #[inline(always)]
    fn bitand(self, other: M) -> BitSetAnd<&'a BitSetAnd<A, B>, M> {
        BitSetAnd(self, other)
    }
}

impl<'a, A, B, M: Layers> BitOr<M> for &'a BitSetAnd<A, B> {
    type Output = BitSetOr<&'a BitSetAnd<A, B>, M>;

    ghost bitor_gives = { λ a b r. (r.0 ≡ a) × (r.1 ≡ b) };

    #[inline(always)]
    fn bitor(self, other: M) -> BitSetOr<&'a BitSetAnd<A, B>, M> {
        BitSetOr(self, other)
    }
}

impl<'a, A, B, M: Layers> BitXor<M> for &'a BitSetAnd<A, B> {
    type Output = BitSetXor<&'a BitSetAnd<A, B>, M>;

    ghost bitxor_gives = { λ a b r. (r.0 ≡ a) × (r.1 ≡ b) };

    #[inline(always)]
    fn bitxor(self, other: M) -> BitSetXor<&'a BitSetAnd<A, B>, M> {
        BitSetXor(self, other)
    }
}

impl<'a, A, B> Not for &'a BitSetAnd<A, B> {
    type Output = BitSetNot<&'a BitSetAnd<A, B>>;

    ghost not_gives = { λ a r. r.0 ≡ a };

    #[inline(always)]
    fn not(self) -> BitSetNot<&'a BitSetAnd<A, B>> {
        BitSetNot(self)
    }
}

impl<'a, A, B, M: Layers> BitAnd<M> for &'a BitSetOr<A, B> {
    type Output = BitSetAnd<&'a BitSetOr<A, B>, M>;

    ghost bitand_gives = { λ a b r. (r.0 ≡ a) × (r.1 ≡ b) };

    #[inline(always)]
    fn bitand(self, other: M) -> BitSetAnd<&'a BitSetOr<A, B>, M> {
        BitSetAnd(self, other)
    }
}

impl<'a, A, B, M: Layers> BitOr<M> for &'a BitSetOr<A, B> {
    type Output = BitSetOr<&'a BitSetOr<A, B>, M>;

    ghost bitor_gives = { λ a b r. (r.0 ≡ a) × (r.1 ≡ b) };

    #[inline(always)]
    fn bitor(self, other: M) -> BitSetOr<&'a BitSetOr<A, B>, M> {
        BitSetOr(self, other)
    }
}

impl<'a, A, B, M: Layers> BitXor<M> for &'a BitSetOr<A, B> {
    type Output = BitSetXor<&'a BitSetOr<A, B>, M>;

    ghost bitxor_gives = { λ a b r. (r.0 ≡ a) × (r.1 ≡ b) };

    #[inline(always)]
    fn bitxor(self, other: M) -> BitSetXor<&'a BitSetOr<A, B>, M> {
        BitSetXor(self, other)
    }
}

impl<'a, A, B> Not for &'a BitSetOr<A, B> {
    type Output = BitSetNot<&'a BitSetOr<A, B>>;

    ghost not_gives = { λ a r. r.0 ≡ a };

    #[inline(always)]
    fn not(self) -> BitSetNot<&'a BitSetOr<A, B>> {
        BitSetNot(self)
    }
}

impl<'a, A, B, M: Layers> BitAnd<M> for &'a BitSetXor<A, B> {
    type Output = BitSetAnd<&'a BitSetXor<A, B>, M>;

    ghost bitand_gives = { λ a b r. (r.0 ≡ a) × (r.1 ≡ b) };

    #[inline(always)]
    fn bitand(self, other: M) -> BitSetAnd<&'a BitSetXor<A, B>, M> {
        BitSetAnd(self, other)
    }
}

impl<'a, A, B, M: Layers> BitOr<M> for &'a BitSetXor<A, B> {
    type Output = BitSetOr<&'a BitSetXor<A, B>, M>;

    ghost bitor_gives = { λ a b r. (r.0 ≡ a) × (r.1 ≡ b) };

    #[inline(always)]
    fn bitor(self, other: M) -> BitSetOr<&'a BitSetXor<A, B>, M> {
        BitSetOr(self, other)
    }
}

impl<'a, A, B, M: Layers> BitXor<M> for &'a BitSetXor<A, B> {
    type Output = BitSetXor<&'a BitSetXor<A, B>, M>;

    ghost bitxor_gives = { λ a b r. (r.0 ≡ a) × (r.1 ≡ b) };

    #[inline(always)]
    fn bitxor(self, other: M) -> BitSetXor<&'a BitSetXor<A, B>, M> {
        BitSetXor(self, other)
    }
}

impl<'a, A, B> Not for &'a BitSetXor<A, B> {
    type Output = BitSetNot<&'a BitSetXor<A, B>>;

    ghost not_gives = { λ a r. r.0 ≡ a };

    #[inline(always)]
    fn not(self) -> BitSetNot<&'a BitSetXor<A, B>> {
        BitSetNot(self)
    }
}

impl<'a, A, M: Layers> BitAnd<M> for &'a BitSetNot<A> {
    type Output = BitSetAnd<&'a BitSetNot<A>, M>;

    ghost bitand_gives = { λ a b r. (r.0 ≡ a) × (r.1 ≡ b) };

    #[inline(always)]
    fn bitand(self, other: M) -> BitSetAnd<&'a BitSetNot<A>, M> {
        BitSetAnd(self, other)
    }
}

impl<'a, A, M: Layers> BitOr<M> for &'a BitSetNot<A> {
    type Output = BitSetOr<&'a BitSetNot<A>, M>;

    ghost bitor_gives = { λ a b r. (r.0 ≡ a) × (r.1 ≡ b) };

    #[inline(always)]
    fn bitor(self, other: M) -> BitSetOr<&'a BitSetNot<A>, M> {
        BitSetOr(self, other)
    }
}

impl<'a, A, M: Layers> BitXor<M> for &'a BitSetNot<A> {
    type Output = BitSetXor<&'a BitSetNot<A>, M>;

    ghost bitxor_gives = { λ a b r. (r.0 ≡ a) × (r.1 ≡ b) };

    #[inline(always)]
    fn bitxor(self, other: M) -> BitSetXor<&'a BitSetNot<A>, M> {
        BitSetXor(self, other)
    }
}

impl<'a, A> Not for &'a BitSetNot<A> {
    type Output = BitSetNot<&'a BitSetNot<A>>;

    ghost not_gives = { λ a r. r.0 ≡ a };

    #[inline(always)]
    fn not(self) -> BitSetNot<&'a BitSetNot<A>> {
        BitSetNot(self)
    }
}

impl<'a, M: Layers> BitAnd<M> for &'a BitSetAll {
    type Output = BitSetAnd<&'a BitSetAll, M>;

    ghost bitand_gives = { λ a b r. (r.0 ≡ a) × (r.1 ≡ b) };

    #[inline(always)]
    fn bitand(self, other: M) -> BitSetAnd<&'a BitSetAll, M> {
        BitSetAnd(self, other)
    }
}

impl<'a, M: Layers> BitOr<M> for &'a BitSetAll {
    type Output = BitSetOr<&'a BitSetAll, M>;

    ghost bitor_gives = { λ a b r. (r.0 ≡ a) × (r.1 ≡ b) };

    #[inline(always)]
    fn bitor(self, other: M) -> BitSetOr<&'a BitSetAll, M> {
        BitSetOr(self, other)
    }
}

impl<'a, M: Layers> BitXor<M> for &'a BitSetAll {
    type Output = BitSetXor<&'a BitSetAll, M>;

    ghost bitxor_gives = { λ a b r. (r.0 ≡ a) × (r.1 ≡ b) };

    #[inline(always)]
    fn bitxor(self, other: M) -> BitSetXor<&'a BitSetAll, M> {
        BitSetXor(self, other)
    }
}

impl<'a> Not for &'a BitSetAll {
    type Output = BitSetNot<&'a BitSetAll>;

    ghost not_gives = { λ a r. r.0 ≡ a };

    #[inline(always)]
    fn not(self) -> BitSetNot<&'a BitSetAll> {
        BitSetNot(self)
    }
}
