//! Joins of one, and of three to six, these by the pair of the first and the rest.

use crate::join::Join;
use hibits::Index;

impl<A: Join> Join for (A,) {
    type Type = (A::Type,);

    type Value = (A::Value,);

    type Mask = A::Mask;

    ghost has = { λ j i. A.has j.0 i };

    ghost cost = { λ j. A.cost j.0 };

    ghost most = { λ j. A.most j.0 };

    ghost repeats = { A.repeats };

    ghost unconstrained = { A.unconstrained };

    ghost gives = { λ j i r. A.gives j.0 i r.0 };

    ghost can_get = { λ v i. A.can_get v.0 i };

    ghost value_gives = { λ v i r. A.value_gives v.0 i r.0 };

    #[inline(always)]
    fn open(self) -> (A::Mask, (A::Value,)) {
        let (a,) = self;
        let (mask, value) = a.open();
        (mask, (value,))
    }

    #[inline(always)]
    fn get(value: &mut (A::Value,), id: Index) -> (A::Type,) {
        (A::get(&mut value.0, id),)
    }

    #[inline(always)]
    fn is_unconstrained() -> bool {
        A::is_unconstrained()
    }
}

impl<A: Join, B: Join, C: Join> Join for (A, B, C) {
    type Type = (A::Type, B::Type, C::Type);

    type Value = <(A, (B, C)) as Join>::Value;

    type Mask = <(A, (B, C)) as Join>::Mask;

    ghost has = { λ j i. ⟦<(A, (B, C)) as Join>⟧.has (j.0, (j.1, j.2)) i };

    ghost cost = { λ j. ⟦<(A, (B, C)) as Join>⟧.cost (j.0, (j.1, j.2)) };

    ghost most = { λ j. ⟦<(A, (B, C)) as Join>⟧.most (j.0, (j.1, j.2)) };

    ghost repeats = { ⟦<(A, (B, C)) as Join>⟧.repeats };

    ghost unconstrained = { ⟦<(A, (B, C)) as Join>⟧.unconstrained };

    ghost gives = { λ j i r. ⟦<(A, (B, C)) as Join>⟧.gives (j.0, (j.1, j.2)) i (r.0, (r.1, r.2)) };

    ghost can_get = { λ v i. ⟦<(A, (B, C)) as Join>⟧.can_get v i };

    ghost value_gives = { λ v i r. ⟦<(A, (B, C)) as Join>⟧.value_gives v i (r.0, (r.1, r.2)) };

    #[inline(always)]
    fn open(self) -> (<(A, (B, C)) as Join>::Mask, <(A, (B, C)) as Join>::Value) {
        let (a, b, c) = self;
        (a, (b, c)).open()
    }

    #[inline(always)]
    fn get(value: &mut <(A, (B, C)) as Join>::Value, id: Index) -> (A::Type, B::Type, C::Type) {
        let (a, (b, c)) = <(A, (B, C)) as Join>::get(value, id);
        (a, b, c)
    }

    #[inline(always)]
    fn is_unconstrained() -> bool {
        <(A, (B, C)) as Join>::is_unconstrained()
    }
}

impl<A: Join, B: Join, C: Join, D: Join> Join for (A, B, C, D) {
    type Type = (A::Type, B::Type, C::Type, D::Type);

    type Value = <(A, (B, C, D)) as Join>::Value;

    type Mask = <(A, (B, C, D)) as Join>::Mask;

    ghost has = { λ j i. ⟦<(A, (B, C, D)) as Join>⟧.has (j.0, (j.1, j.2, j.3)) i };

    ghost cost = { λ j. ⟦<(A, (B, C, D)) as Join>⟧.cost (j.0, (j.1, j.2, j.3)) };

    ghost most = { λ j. ⟦<(A, (B, C, D)) as Join>⟧.most (j.0, (j.1, j.2, j.3)) };

    ghost repeats = { ⟦<(A, (B, C, D)) as Join>⟧.repeats };

    ghost unconstrained = { ⟦<(A, (B, C, D)) as Join>⟧.unconstrained };

    ghost gives = { λ j i r. ⟦<(A, (B, C, D)) as Join>⟧.gives (j.0, (j.1, j.2, j.3)) i (r.0, (r.1, r.2, r.3)) };

    ghost can_get = { λ v i. ⟦<(A, (B, C, D)) as Join>⟧.can_get v i };

    ghost value_gives = { λ v i r. ⟦<(A, (B, C, D)) as Join>⟧.value_gives v i (r.0, (r.1, r.2, r.3)) };

    #[inline(always)]
    fn open(
        self,
    ) -> (
        <(A, (B, C, D)) as Join>::Mask,
        <(A, (B, C, D)) as Join>::Value,
    ) {
        let (a, b, c, d) = self;
        (a, (b, c, d)).open()
    }

    #[inline(always)]
    fn get(
        value: &mut <(A, (B, C, D)) as Join>::Value,
        id: Index,
    ) -> (A::Type, B::Type, C::Type, D::Type) {
        let (a, (b, c, d)) = <(A, (B, C, D)) as Join>::get(value, id);
        (a, b, c, d)
    }

    #[inline(always)]
    fn is_unconstrained() -> bool {
        <(A, (B, C, D)) as Join>::is_unconstrained()
    }
}

impl<A: Join, B: Join, C: Join, D: Join, E: Join> Join for (A, B, C, D, E) {
    type Type = (A::Type, B::Type, C::Type, D::Type, E::Type);

    type Value = <(A, (B, C, D, E)) as Join>::Value;

    type Mask = <(A, (B, C, D, E)) as Join>::Mask;

    ghost has = { λ j i. ⟦<(A, (B, C, D, E)) as Join>⟧.has (j.0, (j.1, j.2, j.3, j.4)) i };

    ghost cost = { λ j. ⟦<(A, (B, C, D, E)) as Join>⟧.cost (j.0, (j.1, j.2, j.3, j.4)) };

    ghost most = { λ j. ⟦<(A, (B, C, D, E)) as Join>⟧.most (j.0, (j.1, j.2, j.3, j.4)) };

    ghost repeats = { ⟦<(A, (B, C, D, E)) as Join>⟧.repeats };

    ghost unconstrained = { ⟦<(A, (B, C, D, E)) as Join>⟧.unconstrained };

    ghost gives = { λ j i r. ⟦<(A, (B, C, D, E)) as Join>⟧.gives (j.0, (j.1, j.2, j.3, j.4)) i (r.0, (r.1, r.2, r.3, r.4)) };

    ghost can_get = { λ v i. ⟦<(A, (B, C, D, E)) as Join>⟧.can_get v i };

    ghost value_gives = { λ v i r. ⟦<(A, (B, C, D, E)) as Join>⟧.value_gives v i (r.0, (r.1, r.2, r.3, r.4)) };

    #[inline(always)]
    fn open(
        self,
    ) -> (
        <(A, (B, C, D, E)) as Join>::Mask,
        <(A, (B, C, D, E)) as Join>::Value,
    ) {
        let (a, b, c, d, e) = self;
        (a, (b, c, d, e)).open()
    }

    #[inline(always)]
    fn get(
        value: &mut <(A, (B, C, D, E)) as Join>::Value,
        id: Index,
    ) -> (A::Type, B::Type, C::Type, D::Type, E::Type) {
        let (a, (b, c, d, e)) = <(A, (B, C, D, E)) as Join>::get(value, id);
        (a, b, c, d, e)
    }

    #[inline(always)]
    fn is_unconstrained() -> bool {
        <(A, (B, C, D, E)) as Join>::is_unconstrained()
    }
}

impl<A: Join, B: Join, C: Join, D: Join, E: Join, F: Join> Join for (A, B, C, D, E, F) {
    type Type = (A::Type, B::Type, C::Type, D::Type, E::Type, F::Type);

    type Value = <(A, (B, C, D, E, F)) as Join>::Value;

    type Mask = <(A, (B, C, D, E, F)) as Join>::Mask;

    ghost has = { λ j i. ⟦<(A, (B, C, D, E, F)) as Join>⟧.has (j.0, (j.1, j.2, j.3, j.4, j.5)) i };

    ghost cost = { λ j. ⟦<(A, (B, C, D, E, F)) as Join>⟧.cost (j.0, (j.1, j.2, j.3, j.4, j.5)) };

    ghost most = { λ j. ⟦<(A, (B, C, D, E, F)) as Join>⟧.most (j.0, (j.1, j.2, j.3, j.4, j.5)) };

    ghost repeats = { ⟦<(A, (B, C, D, E, F)) as Join>⟧.repeats };

    ghost unconstrained = { ⟦<(A, (B, C, D, E, F)) as Join>⟧.unconstrained };

    ghost gives = { λ j i r. ⟦<(A, (B, C, D, E, F)) as Join>⟧.gives (j.0, (j.1, j.2, j.3, j.4, j.5)) i (r.0, (r.1, r.2, r.3, r.4, r.5)) };

    ghost can_get = { λ v i. ⟦<(A, (B, C, D, E, F)) as Join>⟧.can_get v i };

    ghost value_gives = { λ v i r. ⟦<(A, (B, C, D, E, F)) as Join>⟧.value_gives v i (r.0, (r.1, r.2, r.3, r.4, r.5)) };

    #[inline(always)]
    fn open(
        self,
    ) -> (
        <(A, (B, C, D, E, F)) as Join>::Mask,
        <(A, (B, C, D, E, F)) as Join>::Value,
    ) {
        let (a, b, c, d, e, f) = self;
        (a, (b, c, d, e, f)).open()
    }

    #[inline(always)]
    fn get(
        value: &mut <(A, (B, C, D, E, F)) as Join>::Value,
        id: Index,
    ) -> (A::Type, B::Type, C::Type, D::Type, E::Type, F::Type) {
        let (a, (b, c, d, e, f)) = <(A, (B, C, D, E, F)) as Join>::get(value, id);
        (a, b, c, d, e, f)
    }

    #[inline(always)]
    fn is_unconstrained() -> bool {
        <(A, (B, C, D, E, F)) as Join>::is_unconstrained()
    }
}
