//! Two storages of a struct at once.
ghost use Rattle.std.specs.Prelude.{◌≡◌, ◌⊎◌, ◌↔◌, Option, Some, None, IsSome, IsTrue, IfSome, IfNone, MatchOption};
ghost use Rattle.std.specs.Borrow.{MutBor};
ghost use Rattle.composed.specs.Two.{OnTwo, OnTwoAnd, OnTwoWith};

use crate::both::Both;
use crate::has::{InFirst, InRest};
use specs::Field;
use std::marker::PhantomData;

/// The first type in the first of both, the second in the rest.
pub struct Across<I, J> {
    of: PhantomData<(I, J)>,
}

/// The first type in the rest of both, the second in the first.
pub struct Crossed<I, J> {
    of: PhantomData<(I, J)>,
}

/// A struct with parts of two types at places of their own, each of them or none. Where both types stand in one struct of `Both`, whatever their
/// order and depth, `P` is inferred from them.
pub trait TwoFields<M, N, P>: Sized {
    ghost one: { Self → Option M };

    ghost other: { Self → Option N };

    ghost with_two: { Self → M → N → Self };

    /// Whether it has both. It takes constant time.
    fn has_two(&self) -> bool
        ensures { IsTrue result ↔ (IsSome (one self.now) × IsSome (other self.now)) };

    /// Both, to read them. It is none where one of both is not registered. It takes constant time.
    fn two(&self) -> Option<(&M, &N)>
        ensures { MatchOption result ((one self.now ≡ None) ⊎ (other self.now ≡ None)) (λ r. (one self.now ≡ Some r.0.now) × (other self.now ≡ Some r.1.now)) };

    /// Calls on both, to write to them: what the call left of each is what the struct has, and nothing else changes. It is none, without the call
    /// and without a change, where one of both is not registered. It takes what the call takes.
    /// Ports `SystemData` with two `WriteStorage`, or a `ReadStorage` beside a `WriteStorage`.
    fn with_two<R, F: FnOnce(&mut M, &mut N) -> R>(&mut self, f: F) -> Option<R>
        requires { (x : MutBor M) (y : MutBor N) → one self.old ≡ Some x.now → other self.old ≡ Some y.now → F.pre f x y }
        ensures some { IfSome result (λ r. OnTwo (one self.old) (other self.old) (with_two self.old) (λ x y x' y'. F.post f x y r x' y') self.new) }
        ensures none { IfNone result ((one self.old ≡ None) ⊎ (other self.old ≡ None)) }
        ensures same { IfNone result (self.new ≡ self.old) };

    /// The same with what stands beside the struct, which the call writes too.
    fn with_two_and<E, R, F: FnOnce(&mut E, &mut M, &mut N) -> R>(
        &mut self,
        beside: &mut E,
        f: F,
    ) -> Option<R>
        requires { (e : MutBor E) (x : MutBor M) (y : MutBor N) → e.now ≡ beside.old → one self.old ≡ Some x.now → other self.old ≡ Some y.now → F.pre f e x y }
        ensures some { IfSome result (λ r. OnTwoAnd beside.old (one self.old) (other self.old) (with_two self.old) (λ e x y e' x' y'. F.post f e x y r e' x' y') beside.new self.new) }
        ensures none { IfNone result ((one self.old ≡ None) ⊎ (other self.old ≡ None)) }
        ensures same { IfNone result (self.new ≡ self.old) }
        ensures beside { IfNone result (beside.new ≡ beside.old) };

    /// The same with a value that the call takes, and with two things that stand beside the struct, which it writes too.
    fn with_two_beside<G: Drop, D, E, R, F: FnOnce(G, &mut D, &mut E, &mut M, &mut N) -> R>(
        &mut self,
        given: G,
        first: &mut D,
        rest: &mut E,
        f: F,
    ) -> Option<R>
        requires { (d : MutBor D) (e : MutBor E) (x : MutBor M) (y : MutBor N) → d.now ≡ first.old → e.now ≡ rest.old → one self.old ≡ Some x.now
            → other self.old ≡ Some y.now → F.pre f given d e x y }
        ensures some { IfSome result (λ r. OnTwoWith first.old rest.old (one self.old) (other self.old) (with_two self.old)
            (λ d e x y d' e' x' y'. F.post f given d e x y r d' e' x' y') first.new rest.new self.new) }
        ensures none { IfNone result ((one self.old ≡ None) ⊎ (other self.old ≡ None)) }
        ensures same { IfNone result (self.new ≡ self.old) }
        ensures beside { IfNone result ((first.new ≡ first.old) × (rest.new ≡ rest.old)) };

    ghost puts_one: { (s : Self) (v : M) (w : N) → one (with_two s v w) ≡ Some v };

    ghost puts_other: { (s : Self) (v : M) (w : N) → other (with_two s v w) ≡ Some w };
}

impl<M, N, I, J, A: Field<M, I>, B: Field<N, J>> TwoFields<M, N, Across<I, J>> for Both<A, B> {
    ghost one = { λ s. A.part s.first };

    ghost other = { λ s. B.part s.rest };

    ghost with_two = { λ s v w. record s { first = A.with_part s.first v; rest = B.with_part s.rest w } };

    ghost puts_one = { λ s v w. A.puts s.first v };

    ghost puts_other = { λ s v w. B.puts s.rest w };

    fn has_two(&self) -> bool {
        self.first.field().is_some() && self.rest.field().is_some()
    }

    fn two(&self) -> Option<(&M, &N)> {
        match (self.first.field(), self.rest.field()) {
            (Some(one), Some(other)) => Some((one, other)),
            _ => None,
        }
    }

    fn with_two<R, F: FnOnce(&mut M, &mut N) -> R>(&mut self, f: F) -> Option<R> {
        if self.rest.field().is_none() {
            return None;
        }
        let Both { first, rest } = self;
        match first.field_mut() {
            None => None,
            Some(one) => match rest.field_mut() {
                None => unreachable!(),
                Some(other) => Some(f(one, other)),
            },
        }
    }

    fn with_two_and<E, R, F: FnOnce(&mut E, &mut M, &mut N) -> R>(
        &mut self,
        beside: &mut E,
        f: F,
    ) -> Option<R> {
        if self.rest.field().is_none() {
            return None;
        }
        let Both { first, rest } = self;
        match first.field_mut() {
            None => None,
            Some(one) => match rest.field_mut() {
                None => unreachable!(),
                Some(other) => Some(f(beside, one, other)),
            },
        }
    }

    fn with_two_beside<G: Drop, D, E, R, F: FnOnce(G, &mut D, &mut E, &mut M, &mut N) -> R>(
        &mut self,
        given: G,
        first: &mut D,
        rest: &mut E,
        f: F,
    ) -> Option<R> {
        if self.rest.field().is_none() {
            return None;
        }
        match self.first.field_mut() {
            None => None,
            Some(one) => match self.rest.field_mut() {
                None => unreachable!(),
                Some(other) => Some(f(given, first, rest, one, other)),
            },
        }
    }
}

impl<M, N, I, J, A: Field<N, J>, B: Field<M, I>> TwoFields<M, N, Crossed<I, J>> for Both<A, B> {
    ghost one = { λ s. B.part s.rest };

    ghost other = { λ s. A.part s.first };

    ghost with_two = { λ s v w. record s { first = A.with_part s.first w; rest = B.with_part s.rest v } };

    ghost puts_one = { λ s v w. B.puts s.rest v };

    ghost puts_other = { λ s v w. A.puts s.first w };

    fn has_two(&self) -> bool {
        self.rest.field().is_some() && self.first.field().is_some()
    }

    fn two(&self) -> Option<(&M, &N)> {
        match (self.rest.field(), self.first.field()) {
            (Some(one), Some(other)) => Some((one, other)),
            _ => None,
        }
    }

    fn with_two<R, F: FnOnce(&mut M, &mut N) -> R>(&mut self, f: F) -> Option<R> {
        if self.rest.field().is_none() {
            return None;
        }
        let Both { first, rest } = self;
        match first.field_mut() {
            None => None,
            Some(other) => match rest.field_mut() {
                None => unreachable!(),
                Some(one) => Some(f(one, other)),
            },
        }
    }

    fn with_two_and<E, R, F: FnOnce(&mut E, &mut M, &mut N) -> R>(
        &mut self,
        beside: &mut E,
        f: F,
    ) -> Option<R> {
        if self.rest.field().is_none() {
            return None;
        }
        let Both { first, rest } = self;
        match first.field_mut() {
            None => None,
            Some(other) => match rest.field_mut() {
                None => unreachable!(),
                Some(one) => Some(f(beside, one, other)),
            },
        }
    }

    fn with_two_beside<G: Drop, D, E, R, F: FnOnce(G, &mut D, &mut E, &mut M, &mut N) -> R>(
        &mut self,
        given: G,
        first: &mut D,
        rest: &mut E,
        f: F,
    ) -> Option<R> {
        if self.rest.field().is_none() {
            return None;
        }
        match self.first.field_mut() {
            None => None,
            Some(other) => match self.rest.field_mut() {
                None => unreachable!(),
                Some(one) => Some(f(given, first, rest, one, other)),
            },
        }
    }
}

impl<M, N, P, A: TwoFields<M, N, P>, B> TwoFields<M, N, InFirst<P>> for Both<A, B> {
    ghost one = { λ s. A.one s.first };

    ghost other = { λ s. A.other s.first };

    ghost with_two = { λ s v w. record s { first = A.with_two s.first v w } };

    ghost puts_one = { λ s v w. A.puts_one s.first v w };

    ghost puts_other = { λ s v w. A.puts_other s.first v w };

    fn has_two(&self) -> bool {
        self.first.has_two()
    }

    fn two(&self) -> Option<(&M, &N)> {
        self.first.two()
    }

    fn with_two<R, F: FnOnce(&mut M, &mut N) -> R>(&mut self, f: F) -> Option<R> {
        self.first.with_two(f)
    }

    fn with_two_and<E, R, F: FnOnce(&mut E, &mut M, &mut N) -> R>(
        &mut self,
        beside: &mut E,
        f: F,
    ) -> Option<R> {
        self.first.with_two_and(beside, f)
    }

    fn with_two_beside<G: Drop, D, E, R, F: FnOnce(G, &mut D, &mut E, &mut M, &mut N) -> R>(
        &mut self,
        given: G,
        first: &mut D,
        rest: &mut E,
        f: F,
    ) -> Option<R> {
        self.first.with_two_beside(given, first, rest, f)
    }
}

impl<M, N, P, A, B: TwoFields<M, N, P>> TwoFields<M, N, InRest<P>> for Both<A, B> {
    ghost one = { λ s. B.one s.rest };

    ghost other = { λ s. B.other s.rest };

    ghost with_two = { λ s v w. record s { rest = B.with_two s.rest v w } };

    ghost puts_one = { λ s v w. B.puts_one s.rest v w };

    ghost puts_other = { λ s v w. B.puts_other s.rest v w };

    fn has_two(&self) -> bool {
        self.rest.has_two()
    }

    fn two(&self) -> Option<(&M, &N)> {
        self.rest.two()
    }

    fn with_two<R, F: FnOnce(&mut M, &mut N) -> R>(&mut self, f: F) -> Option<R> {
        self.rest.with_two(f)
    }

    fn with_two_and<E, R, F: FnOnce(&mut E, &mut M, &mut N) -> R>(
        &mut self,
        beside: &mut E,
        f: F,
    ) -> Option<R> {
        self.rest.with_two_and(beside, f)
    }

    fn with_two_beside<G: Drop, D, E, R, F: FnOnce(G, &mut D, &mut E, &mut M, &mut N) -> R>(
        &mut self,
        given: G,
        first: &mut D,
        rest: &mut E,
        f: F,
    ) -> Option<R> {
        self.rest.with_two_beside(given, first, rest, f)
    }
}
