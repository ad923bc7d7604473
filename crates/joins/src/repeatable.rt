//! Joins that give at each index as often as they are asked.
ghost use Rattle.std.specs.Prelude.{◌≡◌, ℕ, true, refl};
ghost use Rattle.joins.specs.Both.{both_follow, asked_follows, found_follows};

use crate::change_set::ChangeSet;
use crate::combine::Combine;
use crate::join::Join;
use crate::lookup::Lookup;
use crate::optional::MaybeJoin;
use entities::EntitiesRes;
use hibits::{
    BitSet, BitSetAll, BitSetAnd, BitSetLike, BitSetNot, BitSetOr, BitSetXor, Layers, MaskExpr,
};
use storages::{
    AntiStorage, Component, MaskedStorage, ReadStorage, UnprotectedStorage, WriteStorage,
};

/// A join that gives at each index as often as it is asked, since its values are looked up. It has no method of its own.
pub trait RepeatableJoin: Join
where
    Self::Value: Lookup<Self::Type>,
{
    ghost again: { Self.repeats ≡ true };

    ghost ready: { (v : Self.Value) (i : ℕ) → Self.can_get v i ≡ true → Self.Value.can_look v i ≡ true };

    ghost same: { (v : Self.Value) (i : ℕ) (r : Self.Type) → Self.Value.finds v i r → Self.value_gives v i r };
}

impl<'a, T: Component> RepeatableJoin for &'a MaskedStorage<T>
where
    T::Storage: UnprotectedStorage<T>,
{
    ghost again = { refl };

    ghost ready = { λ v i h. h };

    ghost same = { λ v i r h. h };
}

impl<'a, 'b, T: Component> RepeatableJoin for &'b ReadStorage<'a, T>
where
    T::Storage: UnprotectedStorage<T>,
{
    ghost again = { refl };

    ghost ready = { λ v i h. h };

    ghost same = { λ v i r h. h };
}

impl<'a, 'b, T: Component> RepeatableJoin for &'b WriteStorage<'a, T>
where
    T::Storage: UnprotectedStorage<T>,
{
    ghost again = { refl };

    ghost ready = { λ v i h. h };

    ghost same = { λ v i r h. h };
}

impl<'a, T: Combine + Drop> RepeatableJoin for &'a ChangeSet<T> {
    ghost again = { refl };

    ghost ready = { λ v i h. h };

    ghost same = { λ v i r h. h };
}

impl<'a> RepeatableJoin for &'a EntitiesRes {
    ghost again = { refl };

    ghost ready = { λ v i h. h };

    ghost same = { λ v i r h. h };
}

impl<'a> RepeatableJoin for AntiStorage<'a> {
    ghost again = { refl };

    ghost ready = { λ v i h. h };

    ghost same = { λ v i r h. h };
}

impl<'a> RepeatableJoin for &'a BitSet {
    ghost again = { refl };

    ghost ready = { λ v i h. h };

    ghost same = { λ v i r h. h };
}

impl<A: Layers + Drop, B: Layers + Drop> RepeatableJoin for BitSetAnd<A, B> {
    ghost again = { refl };

    ghost ready = { λ v i h. h };

    ghost same = { λ v i r h. h };
}

impl<A: Layers + Drop, B: Layers + Drop> RepeatableJoin for BitSetOr<A, B> {
    ghost again = { refl };

    ghost ready = { λ v i h. h };

    ghost same = { λ v i r h. h };
}

impl<A: Layers + Drop, B: Layers + Drop> RepeatableJoin for BitSetXor<A, B> {
    ghost again = { refl };

    ghost ready = { λ v i h. h };

    ghost same = { λ v i r h. h };
}

impl<A: Layers + Drop> RepeatableJoin for BitSetNot<A> {
    ghost again = { refl };

    ghost ready = { λ v i h. h };

    ghost same = { λ v i r h. h };
}

impl RepeatableJoin for BitSetAll {
    ghost again = { refl };

    ghost ready = { λ v i h. h };

    ghost same = { λ v i r h. h };
}

impl RepeatableJoin for BitSet {
    ghost again = { refl };

    ghost ready = { λ v i h. h };

    ghost same = { λ v i r h. h };
}

impl<M: Layers + Drop> RepeatableJoin for MaskExpr<M> {
    ghost again = { refl };

    ghost ready = { λ v i h. h };

    ghost same = { λ v i r h. h };
}

impl<'a, A: Layers, B: Layers> RepeatableJoin for &'a BitSetAnd<A, B> {
    ghost again = { refl };

    ghost ready = { λ v i h. h };

    ghost same = { λ v i r h. h };
}

impl<'a, A: Layers, B: Layers> RepeatableJoin for &'a BitSetOr<A, B> {
    ghost again = { refl };

    ghost ready = { λ v i h. h };

    ghost same = { λ v i r h. h };
}

impl<'a, A: Layers, B: Layers> RepeatableJoin for &'a BitSetXor<A, B> {
    ghost again = { refl };

    ghost ready = { λ v i h. h };

    ghost same = { λ v i r h. h };
}

impl<'a, A: Layers> RepeatableJoin for &'a BitSetNot<A> {
    ghost again = { refl };

    ghost ready = { λ v i h. h };

    ghost same = { λ v i r h. h };
}

impl<'a> RepeatableJoin for &'a BitSetAll {
    ghost again = { refl };

    ghost ready = { λ v i h. h };

    ghost same = { λ v i r h. h };
}

impl<'a, M: Layers> RepeatableJoin for &'a MaskExpr<M> {
    ghost again = { refl };

    ghost ready = { λ v i h. h };

    ghost same = { λ v i r h. h };
}

impl<J: RepeatableJoin + Drop> RepeatableJoin for MaybeJoin<J>
where
    J::Mask: BitSetLike,
    J::Value: Lookup<J::Type>,
{
    ghost again = { J.again };

    ghost ready = { λ v i. asked_follows _ _ _ _ (J.ready v.values i) };

    ghost same = { λ v i r h. found_follows _ _ _ _ (λ x w. J.same v.values i x w) h };
}

impl<A: RepeatableJoin> RepeatableJoin for (A,)
where
    A::Value: Lookup<A::Type>,
{
    ghost again = { A.again };

    ghost ready = { λ v i. A.ready v.0 i };

    ghost same = { λ v i r h. A.same v.0 i r.0 h };
}

impl<A: RepeatableJoin, B: RepeatableJoin> RepeatableJoin for (A, B)
where
    A::Value: Lookup<A::Type>,
    B::Value: Lookup<B::Type>,
{
    ghost again = { rw (A.again, B.again) refl };

    ghost ready = { λ v i. both_follow _ _ _ _ (A.ready v.0 i) (B.ready v.1 i) };

    ghost same = { λ v i r h. (A.same v.0 i r.0 h.0, B.same v.1 i r.1 h.1) };
}

impl<A: RepeatableJoin, B: RepeatableJoin, C: RepeatableJoin> RepeatableJoin for (A, B, C)
where
    A::Value: Lookup<A::Type>,
    B::Value: Lookup<B::Type>,
    C::Value: Lookup<C::Type>,
{
    ghost again = { rw (A.again, B.again, C.again) refl };

    ghost ready = { λ v i. both_follow _ _ _ _ (A.ready v.0 i) (both_follow _ _ _ _ (B.ready v.1.0 i) (C.ready v.1.1 i)) };

    ghost same = { λ v i r h. (A.same v.0 i r.0 h.0, (B.same v.1.0 i r.1 h.1, C.same v.1.1 i r.2 h.2)) };
}

impl<A: RepeatableJoin, B: RepeatableJoin, C: RepeatableJoin, D: RepeatableJoin> RepeatableJoin
    for (A, B, C, D)
where
    A::Value: Lookup<A::Type>,
    B::Value: Lookup<B::Type>,
    C::Value: Lookup<C::Type>,
    D::Value: Lookup<D::Type>,
{
    ghost again = { rw (A.again, B.again, C.again, D.again) refl };

    ghost ready = { λ v i. both_follow _ _ _ _ (A.ready v.0 i) (both_follow _ _ _ _ (B.ready v.1.0 i) (both_follow _ _ _ _ (C.ready v.1.1.0 i) (D.ready v.1.1.1 i))) };

    ghost same = { λ v i r h. (A.same v.0 i r.0 h.0, (B.same v.1.0 i r.1 h.1, (C.same v.1.1.0 i r.2 h.2, D.same v.1.1.1 i r.3 h.3))) };
}

impl<
    A: RepeatableJoin,
    B: RepeatableJoin,
    C: RepeatableJoin,
    D: RepeatableJoin,
    E: RepeatableJoin,
> RepeatableJoin for (A, B, C, D, E)
where
    A::Value: Lookup<A::Type>,
    B::Value: Lookup<B::Type>,
    C::Value: Lookup<C::Type>,
    D::Value: Lookup<D::Type>,
    E::Value: Lookup<E::Type>,
{
    ghost again = { rw (A.again, B.again, C.again, D.again, E.again) refl };

    ghost ready = { λ v i. both_follow _ _ _ _ (A.ready v.0 i) (both_follow _ _ _ _ (B.ready v.1.0 i) (both_follow _ _ _ _ (C.ready v.1.1.0 i) (both_follow _ _ _ _ (D.ready v.1.1.1.0 i) (E.ready v.1.1.1.1 i)))) };

    ghost same = { λ v i r h. (A.same v.0 i r.0 h.0, (B.same v.1.0 i r.1 h.1, (C.same v.1.1.0 i r.2 h.2, (D.same v.1.1.1.0 i r.3 h.3, E.same v.1.1.1.1 i r.4 h.4)))) };
}

impl<
    A: RepeatableJoin,
    B: RepeatableJoin,
    C: RepeatableJoin,
    D: RepeatableJoin,
    E: RepeatableJoin,
    F: RepeatableJoin,
> RepeatableJoin for (A, B, C, D, E, F)
where
    A::Value: Lookup<A::Type>,
    B::Value: Lookup<B::Type>,
    C::Value: Lookup<C::Type>,
    D::Value: Lookup<D::Type>,
    E::Value: Lookup<E::Type>,
    F::Value: Lookup<F::Type>,
{
    ghost again = { rw (A.again, B.again, C.again, D.again, E.again, F.again) refl };

    ghost ready = { λ v i. both_follow _ _ _ _ (A.ready v.0 i) (both_follow _ _ _ _ (B.ready v.1.0 i) (both_follow _ _ _ _ (C.ready v.1.1.0 i) (both_follow _ _ _ _ (D.ready v.1.1.1.0 i) (both_follow _ _ _ _ (E.ready v.1.1.1.1.0 i) (F.ready v.1.1.1.1.1 i))))) };

    ghost same = { λ v i r h. (A.same v.0 i r.0 h.0, (B.same v.1.0 i r.1 h.1, (C.same v.1.1.0 i r.2 h.2, (D.same v.1.1.1.0 i r.3 h.3, (E.same v.1.1.1.1.0 i r.4 h.4, F.same v.1.1.1.1.1 i r.5 h.5))))) };
}
