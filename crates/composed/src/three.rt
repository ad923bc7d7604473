//! Three storages of a struct at once.
ghost use Rattle.std.specs.Prelude.{◌≡◌, ◌⊎◌, ◌↔◌, Option, Some, None, IsSome, IsTrue, IfSome, IfNone};
ghost use Rattle.std.specs.Borrow.{MutBor};
ghost use Rattle.composed.specs.Three.{CallsThree, OnThree};

use crate::both::Both;
use crate::has::{InFirst, InRest};
use crate::two::TwoFields;
use specs::Field;
use std::marker::PhantomData;

/// The first type in the first of both, the second and the third in the rest.
pub struct FirstAcross<I, P> {
    of: PhantomData<(I, P)>,
}

/// The first type in the rest of both, the second and the third in the first.
pub struct FirstCrossed<I, P> {
    of: PhantomData<(I, P)>,
}

/// The second type in the first of both, the first and the third in the rest.
pub struct SecondAcross<I, P> {
    of: PhantomData<(I, P)>,
}

/// The second type in the rest of both, the first and the third in the first.
pub struct SecondCrossed<I, P> {
    of: PhantomData<(I, P)>,
}

/// The third type in the first of both, the first and the second in the rest.
pub struct ThirdAcross<I, P> {
    of: PhantomData<(I, P)>,
}

/// The third type in the rest of both, the first and the second in the first.
pub struct ThirdCrossed<I, P> {
    of: PhantomData<(I, P)>,
}

/// A struct with parts of three types at places of their own, each of them or none. Where the types stand in one struct of `Both`, whatever their
/// order and depth, `P` is inferred from them.
pub trait ThreeFields<M, N, O, P>: Sized {
    ghost one: { Self → Option M };

    ghost other: { Self → Option N };

    ghost third: { Self → Option O };

    ghost with_three: { Self → M → N → O → Self };

    /// Calls on the three, to write to them: what the call left of each is what the struct has, and nothing else changes. It is none, without the
    /// call and without a change, where one of them is not registered. It takes what the call takes.
    /// Ports `SystemData` with three storages, of which some may be read alone.
    fn with_three<R, F: FnOnce(&mut M, &mut N, &mut O) -> R>(&mut self, f: F) -> Option<R>
        requires { (x : MutBor M) (y : MutBor N) (z : MutBor O) → one self.old ≡ Some x.now → other self.old ≡ Some y.now → third self.old ≡ Some z.now → F.pre f x y z }
        ensures some { IfSome result (λ r. OnThree (one self.old) (other self.old) (third self.old) (with_three self.old) (λ x y z x' y' z'. F.post f x y z r x' y' z') self.new) }
        ensures none { IfNone result ((one self.old ≡ None) ⊎ (other self.old ≡ None) ⊎ (third self.old ≡ None)) }
        ensures same { IfNone result (self.new ≡ self.old) };

    ghost puts_one: { (s : Self) (u : M) (v : N) (w : O) → one (with_three s u v w) ≡ Some u };

    ghost puts_other: { (s : Self) (u : M) (v : N) (w : O) → other (with_three s u v w) ≡ Some v };

    ghost puts_third: { (s : Self) (u : M) (v : N) (w : O) → third (with_three s u v w) ≡ Some w };
}

impl<M, N, O, I, P, A: Field<M, I>, B: TwoFields<N, O, P>> ThreeFields<M, N, O, FirstAcross<I, P>>
    for Both<A, B> {
    ghost one = { λ s. A.part s.first };

    ghost other = { λ s. B.one s.rest };

    ghost third = { λ s. B.other s.rest };

    ghost with_three = { λ s u v w. record s { first = A.with_part s.first u; rest = B.with_two s.rest v w } };

    ghost puts_one = { λ s u v w. A.puts s.first u };

    ghost puts_other = { λ s u v w. B.puts_one s.rest v w };

    ghost puts_third = { λ s u v w. B.puts_other s.rest v w };

    fn with_three<R, F: FnOnce(&mut M, &mut N, &mut O) -> R>(&mut self, f: F) -> Option<R> {
        if !self.rest.has_two() {
            return None;
        }
        let Both { first, rest } = self;
        match first.field_mut() {
            None => None,
            Some(one) => rest.with_two_and(one, f),
        }
    }
}

impl<M, N, O, I, P, A: TwoFields<N, O, P>, B: Field<M, I>> ThreeFields<M, N, O, FirstCrossed<I, P>>
    for Both<A, B> {
    ghost one = { λ s. B.part s.rest };

    ghost other = { λ s. A.one s.first };

    ghost third = { λ s. A.other s.first };

    ghost with_three = { λ s u v w. record s { rest = B.with_part s.rest u; first = A.with_two s.first v w } };

    ghost puts_one = { λ s u v w. B.puts s.rest u };

    ghost puts_other = { λ s u v w. A.puts_one s.first v w };

    ghost puts_third = { λ s u v w. A.puts_other s.first v w };

    fn with_three<R, F: FnOnce(&mut M, &mut N, &mut O) -> R>(&mut self, f: F) -> Option<R> {
        if !self.first.has_two() {
            return None;
        }
        let Both { first, rest } = self;
        match rest.field_mut() {
            None => None,
            Some(one) => first.with_two_and(one, f),
        }
    }
}

impl<M, N, O, I, P, A: Field<N, I>, B: TwoFields<M, O, P>> ThreeFields<M, N, O, SecondAcross<I, P>>
    for Both<A, B> {
    ghost one = { λ s. B.one s.rest };

    ghost other = { λ s. A.part s.first };

    ghost third = { λ s. B.other s.rest };

    ghost with_three = { λ s u v w. record s { first = A.with_part s.first v; rest = B.with_two s.rest u w } };

    ghost puts_one = { λ s u v w. B.puts_one s.rest u w };

    ghost puts_other = { λ s u v w. A.puts s.first v };

    ghost puts_third = { λ s u v w. B.puts_other s.rest u w };

    fn with_three<R, F: FnOnce(&mut M, &mut N, &mut O) -> R>(&mut self, f: F) -> Option<R> {
        if !self.rest.has_two() {
            return None;
        }
        let Both { first, rest } = self;
        match first.field_mut() {
            None => None,
            Some(other) => rest.with_two_and(
                other,
                |other: &mut N, one: &mut M, third: &mut O| -> R
                    requires { (x : MutBor M) (y : MutBor N) (z : MutBor O) → x.now ≡ one.old → y.now ≡ other.old → z.now ≡ third.old → F.pre f x y z }
                    ensures { CallsThree one.old other.old third.old one.new other.new third.new (λ x y z x' y' z'. F.post f x y z result x' y' z') }
                { called(f, one, other, third) },
            ),
        }
    }
}

impl<M, N, O, I, P, A: TwoFields<M, O, P>, B: Field<N, I>> ThreeFields<M, N, O, SecondCrossed<I, P>>
    for Both<A, B> {
    ghost one = { λ s. A.one s.first };

    ghost other = { λ s. B.part s.rest };

    ghost third = { λ s. A.other s.first };

    ghost with_three = { λ s u v w. record s { rest = B.with_part s.rest v; first = A.with_two s.first u w } };

    ghost puts_one = { λ s u v w. A.puts_one s.first u w };

    ghost puts_other = { λ s u v w. B.puts s.rest v };

    ghost puts_third = { λ s u v w. A.puts_other s.first u w };

    fn with_three<R, F: FnOnce(&mut M, &mut N, &mut O) -> R>(&mut self, f: F) -> Option<R> {
        if !self.first.has_two() {
            return None;
        }
        let Both { first, rest } = self;
        match rest.field_mut() {
            None => None,
            Some(other) => first.with_two_and(
                other,
                |other: &mut N, one: &mut M, third: &mut O| -> R
                    requires { (x : MutBor M) (y : MutBor N) (z : MutBor O) → x.now ≡ one.old → y.now ≡ other.old → z.now ≡ third.old → F.pre f x y z }
                    ensures { CallsThree one.old other.old third.old one.new other.new third.new (λ x y z x' y' z'. F.post f x y z result x' y' z') }
                { called(f, one, other, third) },
            ),
        }
    }
}

impl<M, N, O, I, P, A: Field<O, I>, B: TwoFields<M, N, P>> ThreeFields<M, N, O, ThirdAcross<I, P>>
    for Both<A, B> {
    ghost one = { λ s. B.one s.rest };

    ghost other = { λ s. B.other s.rest };

    ghost third = { λ s. A.part s.first };

    ghost with_three = { λ s u v w. record s { first = A.with_part s.first w; rest = B.with_two s.rest u v } };

    ghost puts_one = { λ s u v w. B.puts_one s.rest u v };

    ghost puts_other = { λ s u v w. B.puts_other s.rest u v };

    ghost puts_third = { λ s u v w. A.puts s.first w };

    fn with_three<R, F: FnOnce(&mut M, &mut N, &mut O) -> R>(&mut self, f: F) -> Option<R> {
        if !self.rest.has_two() {
            return None;
        }
        let Both { first, rest } = self;
        match first.field_mut() {
            None => None,
            Some(third) => rest.with_two_and(
                third,
                |third: &mut O, one: &mut M, other: &mut N| -> R
                    requires { (x : MutBor M) (y : MutBor N) (z : MutBor O) → x.now ≡ one.old → y.now ≡ other.old → z.now ≡ third.old → F.pre f x y z }
                    ensures { CallsThree one.old other.old third.old one.new other.new third.new (λ x y z x' y' z'. F.post f x y z result x' y' z') }
                { called(f, one, other, third) },
            ),
        }
    }
}

impl<M, N, O, I, P, A: TwoFields<M, N, P>, B: Field<O, I>> ThreeFields<M, N, O, ThirdCrossed<I, P>>
    for Both<A, B> {
    ghost one = { λ s. A.one s.first };

    ghost other = { λ s. A.other s.first };

    ghost third = { λ s. B.part s.rest };

    ghost with_three = { λ s u v w. record s { rest = B.with_part s.rest w; first = A.with_two s.first u v } };

    ghost puts_one = { λ s u v w. A.puts_one s.first u v };

    ghost puts_other = { λ s u v w. A.puts_other s.first u v };

    ghost puts_third = { λ s u v w. B.puts s.rest w };

    fn with_three<R, F: FnOnce(&mut M, &mut N, &mut O) -> R>(&mut self, f: F) -> Option<R> {
        if !self.first.has_two() {
            return None;
        }
        let Both { first, rest } = self;
        match rest.field_mut() {
            None => None,
            Some(third) => first.with_two_and(
                third,
                |third: &mut O, one: &mut M, other: &mut N| -> R
                    requires { (x : MutBor M) (y : MutBor N) (z : MutBor O) → x.now ≡ one.old → y.now ≡ other.old → z.now ≡ third.old → F.pre f x y z }
                    ensures { CallsThree one.old other.old third.old one.new other.new third.new (λ x y z x' y' z'. F.post f x y z result x' y' z') }
                { called(f, one, other, third) },
            ),
        }
    }
}

impl<M, N, O, P, A: ThreeFields<M, N, O, P>, B> ThreeFields<M, N, O, InFirst<P>> for Both<A, B> {
    ghost one = { λ s. A.one s.first };

    ghost other = { λ s. A.other s.first };

    ghost third = { λ s. A.third s.first };

    ghost with_three = { λ s u v w. record s { first = A.with_three s.first u v w } };

    ghost puts_one = { λ s u v w. A.puts_one s.first u v w };

    ghost puts_other = { λ s u v w. A.puts_other s.first u v w };

    ghost puts_third = { λ s u v w. A.puts_third s.first u v w };

    fn with_three<R, F: FnOnce(&mut M, &mut N, &mut O) -> R>(&mut self, f: F) -> Option<R> {
        self.first.with_three(f)
    }
}

impl<M, N, O, P, A, B: ThreeFields<M, N, O, P>> ThreeFields<M, N, O, InRest<P>> for Both<A, B> {
    ghost one = { λ s. B.one s.rest };

    ghost other = { λ s. B.other s.rest };

    ghost third = { λ s. B.third s.rest };

    ghost with_three = { λ s u v w. record s { rest = B.with_three s.rest u v w } };

    ghost puts_one = { λ s u v w. B.puts_one s.rest u v w };

    ghost puts_other = { λ s u v w. B.puts_other s.rest u v w };

    ghost puts_third = { λ s u v w. B.puts_third s.rest u v w };

    fn with_three<R, F: FnOnce(&mut M, &mut N, &mut O) -> R>(&mut self, f: F) -> Option<R> {
        self.rest.with_three(f)
    }
}

// The call, in a function of its own: inside a closure it is not proved what `f` may borrow.
fn called<M, N, O, R, F: FnOnce(&mut M, &mut N, &mut O) -> R>(
    f: F,
    one: &mut M,
    other: &mut N,
    third: &mut O,
) -> R
    requires { (x : MutBor M) (y : MutBor N) (z : MutBor O) → x.now ≡ one.old → y.now ≡ other.old → z.now ≡ third.old → F.pre f x y z }
    ensures { CallsThree one.old other.old third.old one.new other.new third.new (λ x y z x' y' z'. F.post f x y z result x' y' z') }
{
    f(one, other, third)
}
