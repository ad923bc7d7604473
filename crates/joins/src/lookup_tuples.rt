//! What is looked up in one, and in three to six, of which each but the first stands in the second of a pair.
ghost use Rattle.std.specs.Prelude.{◌&&◌};

use crate::lookup::Lookup;
use hibits::Index;

impl<A, V: Lookup<A>> Lookup<(A,)> for (V,) {
    ghost can_look = { λ v i. V.can_look v.0 i };

    ghost finds = { λ v i r. V.finds v.0 i r.0 };

    #[inline(always)]
    fn at(&self, id: Index) -> (A,) {
        (self.0.at(id),)
    }
}

impl<A, B, C, V: Lookup<A>, W: Lookup<B>, X: Lookup<C>> Lookup<(A, B, C)> for (V, (W, X)) {
    ghost can_look = { λ v i. V.can_look v.0 i && (W.can_look v.1.0 i && X.can_look v.1.1 i) };

    ghost finds = { λ v i r. V.finds v.0 i r.0 × W.finds v.1.0 i r.1 × X.finds v.1.1 i r.2 };

    #[inline(always)]
    fn at(&self, id: Index) -> (A, B, C) {
        (self.0.at(id), self.1.0.at(id), self.1.1.at(id))
    }
}

impl<A, B, C, D, V: Lookup<A>, W: Lookup<B>, X: Lookup<C>, Y: Lookup<D>> Lookup<(A, B, C, D)>
    for (V, (W, (X, Y))) {
    ghost can_look = { λ v i. V.can_look v.0 i && (W.can_look v.1.0 i && (X.can_look v.1.1.0 i && Y.can_look v.1.1.1 i)) };

    ghost finds = { λ v i r. V.finds v.0 i r.0 × W.finds v.1.0 i r.1 × X.finds v.1.1.0 i r.2 × Y.finds v.1.1.1 i r.3 };

    #[inline(always)]
    fn at(&self, id: Index) -> (A, B, C, D) {
        (
            self.0.at(id),
            self.1.0.at(id),
            self.1.1.0.at(id),
            self.1.1.1.at(id),
        )
    }
}

impl<A, B, C, D, E, V: Lookup<A>, W: Lookup<B>, X: Lookup<C>, Y: Lookup<D>, Z: Lookup<E>> Lookup<
    (A, B, C, D, E),
> for (V, (W, (X, (Y, Z)))) {
    ghost can_look = { λ v i. V.can_look v.0 i && (W.can_look v.1.0 i && (X.can_look v.1.1.0 i && (Y.can_look v.1.1.1.0 i && Z.can_look v.1.1.1.1 i))) };

    ghost finds = { λ v i r. V.finds v.0 i r.0 × W.finds v.1.0 i r.1 × X.finds v.1.1.0 i r.2 × Y.finds v.1.1.1.0 i r.3 × Z.finds v.1.1.1.1 i r.4 };

    #[inline(always)]
    fn at(&self, id: Index) -> (A, B, C, D, E) {
        (
            self.0.at(id),
            self.1.0.at(id),
            self.1.1.0.at(id),
            self.1.1.1.0.at(id),
            self.1.1.1.1.at(id),
        )
    }
}

impl<
    A,
    B,
    C,
    D,
    E,
    F,
    V: Lookup<A>,
    W: Lookup<B>,
    X: Lookup<C>,
    Y: Lookup<D>,
    Z: Lookup<E>,
    U: Lookup<F>,
> Lookup<(A, B, C, D, E, F)> for (V, (W, (X, (Y, (Z, U))))) {
    ghost can_look = { λ v i. V.can_look v.0 i && (W.can_look v.1.0 i && (X.can_look v.1.1.0 i && (Y.can_look v.1.1.1.0 i && (Z.can_look v.1.1.1.1.0 i && U.can_look v.1.1.1.1.1 i)))) };

    ghost finds = { λ v i r. V.finds v.0 i r.0 × W.finds v.1.0 i r.1 × X.finds v.1.1.0 i r.2 × Y.finds v.1.1.1.0 i r.3 × Z.finds v.1.1.1.1.0 i r.4 × U.finds v.1.1.1.1.1 i r.5 };

    #[inline(always)]
    fn at(&self, id: Index) -> (A, B, C, D, E, F) {
        (
            self.0.at(id),
            self.1.0.at(id),
            self.1.1.0.at(id),
            self.1.1.1.0.at(id),
            self.1.1.1.1.0.at(id),
            self.1.1.1.1.1.at(id),
        )
    }
}
