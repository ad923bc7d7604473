//! Sets that stay where they are, as joins: they give their indices.
ghost use Rattle.std.specs.Prelude.{◌≡◌, ℕ, ◌<◌, true, false};
ghost use Rattle.std.specs.Borrow.{Bor};
ghost use Rattle.hibits.specs.declared.views.BitSetAll.{BitSetAll as Everything};

use crate::join::Join;
use hibits::{
    BitSetAll, BitSetAnd, BitSetNot, BitSetOr, BitSetXor, INDEX_LIMIT, Index, Layers, MaskExpr,
};

impl<'a, A: Layers, B: Layers> Join for &'a BitSetAnd<A, B> {
    type Type = Index;

    type Value = ();

    type Mask = &'a BitSetAnd<A, B>;

    ghost has = { λ j i. ⟦<BitSetAnd<A, B> as Layers>⟧.has j.now 0 i };

    ghost cost = { λ j. ⟦<BitSetAnd<A, B> as Layers>⟧.cost j.now };

    ghost most = { λ j. ⟦<BitSetAnd<A, B> as Layers>⟧.most j.now };

    ghost repeats = { true };

    ghost gives = { λ _ i r. r ≡ i };

    ghost can_get = { λ _ _. true };

    ghost value_gives = { λ _ i r. r ≡ i };

    #[inline(always)]
    fn open(self) -> (&'a BitSetAnd<A, B>, ()) {
        (self, ())
    }

    #[inline(always)]
    fn get(value: &mut (), id: Index) -> Index {
        let _ = value;
        id
    }

    #[inline(always)]
    fn is_unconstrained() -> bool {
        false
    }
}

impl<'a, A: Layers, B: Layers> Join for &'a BitSetOr<A, B> {
    type Type = Index;

    type Value = ();

    type Mask = &'a BitSetOr<A, B>;

    ghost has = { λ j i. ⟦<BitSetOr<A, B> as Layers>⟧.has j.now 0 i };

    ghost cost = { λ j. ⟦<BitSetOr<A, B> as Layers>⟧.cost j.now };

    ghost most = { λ j. ⟦<BitSetOr<A, B> as Layers>⟧.most j.now };

    ghost repeats = { true };

    ghost gives = { λ _ i r. r ≡ i };

    ghost can_get = { λ _ _. true };

    ghost value_gives = { λ _ i r. r ≡ i };

    #[inline(always)]
    fn open(self) -> (&'a BitSetOr<A, B>, ()) {
        (self, ())
    }

    #[inline(always)]
    fn get(value: &mut (), id: Index) -> Index {
        let _ = value;
        id
    }

    #[inline(always)]
    fn is_unconstrained() -> bool {
        false
    }
}

impl<'a, A: Layers, B: Layers> Join for &'a BitSetXor<A, B> {
    type Type = Index;

    type Value = ();

    type Mask = &'a BitSetXor<A, B>;

    ghost has = { λ j i. ⟦<BitSetXor<A, B> as Layers>⟧.has j.now 0 i };

    ghost cost = { λ j. ⟦<BitSetXor<A, B> as Layers>⟧.cost j.now };

    ghost most = { λ j. ⟦<BitSetXor<A, B> as Layers>⟧.most j.now };

    ghost repeats = { true };

    ghost gives = { λ _ i r. r ≡ i };

    ghost can_get = { λ _ _. true };

    ghost value_gives = { λ _ i r. r ≡ i };

    #[inline(always)]
    fn open(self) -> (&'a BitSetXor<A, B>, ()) {
        (self, ())
    }

    #[inline(always)]
    fn get(value: &mut (), id: Index) -> Index {
        let _ = value;
        id
    }

    #[inline(always)]
    fn is_unconstrained() -> bool {
        false
    }
}

impl<'a, A: Layers> Join for &'a BitSetNot<A> {
    type Type = Index;

    type Value = ();

    type Mask = &'a BitSetNot<A>;

    ghost has = { λ j i. ⟦<BitSetNot<A> as Layers>⟧.has j.now 0 i };

    ghost cost = { λ j. ⟦<BitSetNot<A> as Layers>⟧.cost j.now };

    ghost most = { λ j. ⟦<BitSetNot<A> as Layers>⟧.most j.now };

    ghost repeats = { true };

    ghost gives = { λ _ i r. r ≡ i };

    ghost can_get = { λ _ _. true };

    ghost value_gives = { λ _ i r. r ≡ i };

    #[inline(always)]
    fn open(self) -> (&'a BitSetNot<A>, ()) {
        (self, ())
    }

    #[inline(always)]
    fn get(value: &mut (), id: Index) -> Index {
        let _ = value;
        id
    }

    #[inline(always)]
    fn is_unconstrained() -> bool {
        false
    }
}

impl<'a> Join for &'a BitSetAll {
    type Type = Index;

    type Value = ();

    type Mask = &'a BitSetAll;

    ghost has = { λ j i. ⟦<BitSetAll as Layers>⟧.has j.now 0 i };

    ghost cost = { λ j. ⟦<BitSetAll as Layers>⟧.cost j.now };

    ghost most = { λ j. ⟦<BitSetAll as Layers>⟧.most j.now };

    ghost repeats = { true };

    ghost gives = { λ _ i r. r ≡ i };

    ghost can_get = { λ _ _. true };

    ghost value_gives = { λ _ i r. r ≡ i };

    #[inline(always)]
    fn open(self) -> (&'a BitSetAll, ()) {
        (self, ())
    }

    #[inline(always)]
    fn get(value: &mut (), id: Index) -> Index
        ensures { result ≡ id }
    {
        let _ = value;
        id
    }

    #[inline(always)]
    fn is_unconstrained() -> bool
        ensures may { result ≡ false }
        ensures all { result ≡ true → (j : Bor Everything) (i : ℕ) → i < INDEX_LIMIT → ⟦<BitSetAll as Layers>⟧.has j.now 0 i ≡ true }
    {
        false
    }
}

impl<'a, M: Layers> Join for &'a MaskExpr<M> {
    type Type = Index;

    type Value = ();

    type Mask = &'a MaskExpr<M>;

    ghost has = { λ j i. ⟦<MaskExpr<M> as Layers>⟧.has j.now 0 i };

    ghost cost = { λ j. ⟦<MaskExpr<M> as Layers>⟧.cost j.now };

    ghost most = { λ j. ⟦<MaskExpr<M> as Layers>⟧.most j.now };

    ghost repeats = { true };

    ghost gives = { λ _ i r. r ≡ i };

    ghost can_get = { λ _ _. true };

    ghost value_gives = { λ _ i r. r ≡ i };

    #[inline(always)]
    fn open(self) -> (&'a MaskExpr<M>, ()) {
        (self, ())
    }

    #[inline(always)]
    fn get(value: &mut (), id: Index) -> Index {
        let _ = value;
        id
    }

    #[inline(always)]
    fn is_unconstrained() -> bool {
        false
    }
}
