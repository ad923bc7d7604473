//! The members of all of several sets, as one set.
ghost use Rattle.std.specs.Prelude.{◌≡◌, ℕ, Bool, ◌&&◌, ◌+◌, min};

use hibits::{BitSetAnd, BitSetLike};

/// Several sets that are combined to one, which has the members of all. Ports `specs::join::BitAnd`.
pub trait BitAnd: Sized {
    /// The combined set.
    type Value: BitSetLike;

    // the indices that all have
    ghost has: { Self → ℕ → Bool };

    // how many words of plain sets one word takes
    ghost cost: { Self → ℕ };

    // no layer has more bits set
    ghost most: { Self → ℕ };

    /// The set of the members of all. Nothing is copied or read.
    fn and(self) -> Self::Value
        ensures members { (i : ℕ) → Self.Value.has result 0 i ≡ has self i }
        ensures cost { Self.Value.cost result ≡ cost self }
        ensures most { Self.Value.most result ≡ most self };
}

impl<A: BitSetLike> BitAnd for (A,) {
    type Value = A;

    ghost has = { λ s i. A.has s.0 0 i };

    ghost cost = { λ s. A.cost s.0 };

    ghost most = { λ s. A.most s.0 };

    #[inline(always)]
    fn and(self) -> A {
        self.0
    }
}

impl<A: BitSetLike, B: BitSetLike> BitAnd for (A, B) {
    type Value = BitSetAnd<A, B>;

    ghost has = { λ s i. A.has s.0 0 i && B.has s.1 0 i };

    ghost cost = { λ s. A.cost s.0 + (B.cost s.1) };

    ghost most = { λ s. min (A.most s.0) (B.most s.1) };

    #[inline(always)]
    fn and(self) -> BitSetAnd<A, B> {
        let (a, b) = self;
        BitSetAnd(a, b)
    }
}

impl<A: BitSetLike, B: BitSetLike, C: BitSetLike> BitAnd for (A, B, C) {
    type Value = BitSetAnd<A, BitSetAnd<B, C>>;

    ghost has = { λ s i. A.has s.0 0 i && (B.has s.1 0 i && C.has s.2 0 i) };

    ghost cost = { λ s. A.cost s.0 + (B.cost s.1 + (C.cost s.2)) };

    ghost most = { λ s. min (A.most s.0) (min (B.most s.1) (C.most s.2)) };

    #[inline(always)]
    fn and(self) -> BitSetAnd<A, BitSetAnd<B, C>> {
        let (a, b, c) = self;
        BitSetAnd(a, BitSetAnd(b, c))
    }
}

impl<A: BitSetLike, B: BitSetLike, C: BitSetLike, D: BitSetLike> BitAnd for (A, B, C, D) {
    type Value = BitSetAnd<A, BitSetAnd<B, BitSetAnd<C, D>>>;

    ghost has = { λ s i. A.has s.0 0 i && (B.has s.1 0 i && (C.has s.2 0 i && D.has s.3 0 i)) };

    ghost cost = { λ s. A.cost s.0 + (B.cost s.1 + (C.cost s.2 + (D.cost s.3))) };

    ghost most = { λ s. min (A.most s.0) (min (B.most s.1) (min (C.most s.2) (D.most s.3))) };

    #[inline(always)]
    fn and(self) -> BitSetAnd<A, BitSetAnd<B, BitSetAnd<C, D>>> {
        let (a, b, c, d) = self;
        BitSetAnd(a, BitSetAnd(b, BitSetAnd(c, d)))
    }
}

impl<A: BitSetLike, B: BitSetLike, C: BitSetLike, D: BitSetLike, E: BitSetLike> BitAnd
    for (A, B, C, D, E) {
    type Value = BitSetAnd<A, BitSetAnd<B, BitSetAnd<C, BitSetAnd<D, E>>>>;

    ghost has = { λ s i. A.has s.0 0 i && (B.has s.1 0 i && (C.has s.2 0 i && (D.has s.3 0 i && E.has s.4 0 i))) };

    ghost cost = { λ s. A.cost s.0 + (B.cost s.1 + (C.cost s.2 + (D.cost s.3 + (E.cost s.4)))) };

    ghost most = { λ s. min (A.most s.0) (min (B.most s.1) (min (C.most s.2) (min (D.most s.3) (E.most s.4)))) };

    #[inline(always)]
    fn and(self) -> BitSetAnd<A, BitSetAnd<B, BitSetAnd<C, BitSetAnd<D, E>>>> {
        let (a, b, c, d, e) = self;
        BitSetAnd(a, BitSetAnd(b, BitSetAnd(c, BitSetAnd(d, e))))
    }
}

impl<
    A: BitSetLike,
    B: BitSetLike,
    C: BitSetLike,
    D: BitSetLike,
    E: BitSetLike,
    F: BitSetLike,
> BitAnd for (A, B, C, D, E, F) {
    type Value = BitSetAnd<A, BitSetAnd<B, BitSetAnd<C, BitSetAnd<D, BitSetAnd<E, F>>>>>;

    ghost has = { λ s i. A.has s.0 0 i && (B.has s.1 0 i && (C.has s.2 0 i && (D.has s.3 0 i && (E.has s.4 0 i && F.has s.5 0 i)))) };

    ghost cost = { λ s. A.cost s.0 + (B.cost s.1 + (C.cost s.2 + (D.cost s.3 + (E.cost s.4 + (F.cost s.5))))) };

    ghost most = { λ s. min (A.most s.0) (min (B.most s.1) (min (C.most s.2) (min (D.most s.3) (min (E.most s.4) (F.most s.5))))) };

    #[inline(always)]
    fn and(self) -> BitSetAnd<A, BitSetAnd<B, BitSetAnd<C, BitSetAnd<D, BitSetAnd<E, F>>>>> {
        let (a, b, c, d, e, f) = self;
        BitSetAnd(a, BitSetAnd(b, BitSetAnd(c, BitSetAnd(d, BitSetAnd(e, f)))))
    }
}
