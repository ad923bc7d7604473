//! Sets as joins: they give their indices.
ghost use Rattle.std.specs.Prelude.{◌≡◌, ℕ, ◌<◌, true, false};
ghost use Rattle.std.specs.Borrow.{Bor};
ghost use Rattle.std.specs.FinSet as set;
ghost use Rattle.hibits.specs.Sets.{Layered};

use crate::join::Join;
use hibits::{
    BitSet, BitSetAll, BitSetAnd, BitSetNot, BitSetOr, BitSetXor, INDEX_LIMIT, Index, Layers,
    MaskExpr,
};

impl<'a> Join for &'a BitSet {
    type Type = Index;

    type Value = &'a BitSet;

    type Mask = &'a BitSet;

    ghost has = { λ j i. set.contains j.now.members i };

    ghost cost = { λ _. 1 };

    ghost most = { λ j. set.len j.now.members };

    ghost repeats = { true };

    ghost gives = { λ _ i r. r ≡ i };

    ghost can_get = { λ _ _. true };

    ghost value_gives = { λ _ i r. r ≡ i };

    #[inline(always)]
    fn open(self) -> (&'a BitSet, &'a BitSet) {
        (self, self)
    }

    #[inline(always)]
    fn get(value: &mut &'a BitSet, id: Index) -> Index {
        let _ = value;
        id
    }

    #[inline(always)]
    fn is_unconstrained() -> bool
        ensures may { result ≡ false }
        ensures all { result ≡ true → (j : Bor Layered) (i : ℕ) → i < INDEX_LIMIT → set.contains j.now.members i ≡ true }
    {
        false
    }
}

impl Join for BitSet {
    type Type = Index;

    type Value = ();

    type Mask = BitSet;

    ghost has = { λ j i. set.contains j.members i };

    ghost cost = { λ _. 1 };

    ghost most = { λ j. set.len j.members };

    ghost repeats = { true };

    ghost gives = { λ _ i r. r ≡ i };

    ghost can_get = { λ _ _. true };

    ghost value_gives = { λ _ i r. r ≡ i };

    #[inline(always)]
    fn open(self) -> (BitSet, ()) {
        (self, ())
    }

    #[inline(always)]
    fn get(_value: &mut (), id: Index) -> Index {
        id
    }

    #[inline(always)]
    fn is_unconstrained() -> bool {
        false
    }
}

impl<A: Layers + Drop, B: Layers + Drop> Join for BitSetAnd<A, B> {
    type Type = Index;

    type Value = ();

    type Mask = BitSetAnd<A, B>;

    ghost has = { λ j i. ⟦<BitSetAnd<A, B> as Layers>⟧.has j 0 i };

    ghost cost = { λ j. ⟦<BitSetAnd<A, B> as Layers>⟧.cost j };

    ghost most = { λ j. ⟦<BitSetAnd<A, B> as Layers>⟧.most j };

    ghost repeats = { true };

    ghost gives = { λ _ i r. r ≡ i };

    ghost can_get = { λ _ _. true };

    ghost value_gives = { λ _ i r. r ≡ i };

    #[inline(always)]
    fn open(self) -> (BitSetAnd<A, B>, ()) {
        (self, ())
    }

    #[inline(always)]
    fn get(value: &mut (), id: Index) -> Index {
        let _ = value;
        id
    }

    #[inline(always)]
    fn is_unconstrained() -> bool {
        false
    }
}

impl<A: Layers + Drop, B: Layers + Drop> Join for BitSetOr<A, B> {
    type Type = Index;

    type Value = ();

    type Mask = BitSetOr<A, B>;

    ghost has = { λ j i. ⟦<BitSetOr<A, B> as Layers>⟧.has j 0 i };

    ghost cost = { λ j. ⟦<BitSetOr<A, B> as Layers>⟧.cost j };

    ghost most = { λ j. ⟦<BitSetOr<A, B> as Layers>⟧.most j };

    ghost repeats = { true };

    ghost gives = { λ _ i r. r ≡ i };

    ghost can_get = { λ _ _. true };

    ghost value_gives = { λ _ i r. r ≡ i };

    #[inline(always)]
    fn open(self) -> (BitSetOr<A, B>, ()) {
        (self, ())
    }

    #[inline(always)]
    fn get(value: &mut (), id: Index) -> Index {
        let _ = value;
        id
    }

    #[inline(always)]
    fn is_unconstrained() -> bool {
        false
    }
}

impl<A: Layers + Drop, B: Layers + Drop> Join for BitSetXor<A, B> {
    type Type = Index;

    type Value = ();

    type Mask = BitSetXor<A, B>;

    ghost has = { λ j i. ⟦<BitSetXor<A, B> as Layers>⟧.has j 0 i };

    ghost cost = { λ j. ⟦<BitSetXor<A, B> as Layers>⟧.cost j };

    ghost most = { λ j. ⟦<BitSetXor<A, B> as Layers>⟧.most j };

    ghost repeats = { true };

    ghost gives = { λ _ i r. r ≡ i };

    ghost can_get = { λ _ _. true };

    ghost value_gives = { λ _ i r. r ≡ i };

    #[inline(always)]
    fn open(self) -> (BitSetXor<A, B>, ()) {
        (self, ())
    }

    #[inline(always)]
    fn get(value: &mut (), id: Index) -> Index {
        let _ = value;
        id
    }

    #[inline(always)]
    fn is_unconstrained() -> bool {
        false
    }
}

impl<A: Layers + Drop> Join for BitSetNot<A> {
    type Type = Index;

    type Value = ();

    type Mask = BitSetNot<A>;

    ghost has = { λ j i. ⟦<BitSetNot<A> as Layers>⟧.has j 0 i };

    ghost cost = { λ j. ⟦<BitSetNot<A> as Layers>⟧.cost j };

    ghost most = { λ j. ⟦<BitSetNot<A> as Layers>⟧.most j };

    ghost repeats = { true };

    ghost gives = { λ _ i r. r ≡ i };

    ghost can_get = { λ _ _. true };

    ghost value_gives = { λ _ i r. r ≡ i };

    #[inline(always)]
    fn open(self) -> (BitSetNot<A>, ()) {
        (self, ())
    }

    #[inline(always)]
    fn get(value: &mut (), id: Index) -> Index {
        let _ = value;
        id
    }

    #[inline(always)]
    fn is_unconstrained() -> bool {
        false
    }
}

impl Join for BitSetAll {
    type Type = Index;

    type Value = ();

    type Mask = BitSetAll;

    ghost has = { λ j i. ⟦<BitSetAll as Layers>⟧.has j 0 i };

    ghost cost = { λ j. ⟦<BitSetAll as Layers>⟧.cost j };

    ghost most = { λ j. ⟦<BitSetAll as Layers>⟧.most j };

    ghost repeats = { true };

    ghost gives = { λ _ i r. r ≡ i };

    ghost can_get = { λ _ _. true };

    ghost value_gives = { λ _ i r. r ≡ i };

    #[inline(always)]
    fn open(self) -> (BitSetAll, ()) {
        (self, ())
    }

    #[inline(always)]
    fn get(value: &mut (), id: Index) -> Index {
        let _ = value;
        id
    }

    #[inline(always)]
    fn is_unconstrained() -> bool {
        false
    }
}

impl<M: Layers + Drop> Join for MaskExpr<M> {
    type Type = Index;

    type Value = ();

    type Mask = MaskExpr<M>;

    ghost has = { λ j i. ⟦<MaskExpr<M> as Layers>⟧.has j 0 i };

    ghost cost = { λ j. ⟦<MaskExpr<M> as Layers>⟧.cost j };

    ghost most = { λ j. ⟦<MaskExpr<M> as Layers>⟧.most j };

    ghost repeats = { true };

    ghost gives = { λ _ i r. r ≡ i };

    ghost can_get = { λ _ _. true };

    ghost value_gives = { λ _ i r. r ≡ i };

    #[inline(always)]
    fn open(self) -> (MaskExpr<M>, ()) {
        (self, ())
    }

    #[inline(always)]
    fn get(value: &mut (), id: Index) -> Index {
        let _ = value;
        id
    }

    #[inline(always)]
    fn is_unconstrained() -> bool {
        false
    }
}
