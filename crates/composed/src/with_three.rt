//! Three storages of a world at once, with its entities beside.
ghost use Rattle.std.specs.Prelude.{◌≡◌, ◌⊎◌, Option, Some, None, IfSome, IfNone};
ghost use Rattle.std.specs.Borrow.{Bor, MutBor};
ghost use Rattle.entities.specs.Census.{Census};
ghost use Rattle.composed.specs.Three.{CallsThreeBeside, OnThreeBeside};

use crate::three::ThreeFields;
use specs::{Core, EntitiesRes, Held, Parts, World, WorldParts};

/// Entities beside storages, of which three types can be had at once.
pub trait WithThree<M, N, O, P>: Sized {
    ghost entities: { Self → Census };

    ghost one: { Self → Option M };

    ghost other: { Self → Option N };

    ghost third: { Self → Option O };

    ghost with_three: { Self → M → N → O → Self };

    /// Calls on the entities, to read them, and on the three storages, to write to them: what the call left of each is what is there, and nothing
    /// else changes. It is none, without the call and without a change, where one of them is not registered. It takes what the call takes.
    /// Ports `System::run` over `Entities` and three storages.
    fn with_three<R, F: FnOnce(&EntitiesRes, &mut M, &mut N, &mut O) -> R>(
        &mut self,
        f: F,
    ) -> Option<R>
        requires { (e : Bor Census) (x : MutBor M) (y : MutBor N) (z : MutBor O) → e.now ≡ entities self.old → one self.old ≡ Some x.now
            → other self.old ≡ Some y.now → third self.old ≡ Some z.now → F.pre f e x y z }
        ensures some { IfSome result (λ r. OnThreeBeside (entities self.old) (one self.old) (other self.old) (third self.old) (with_three self.old)
            (λ e x y z x' y' z'. F.post f e x y z r x' y' z') self.new) }
        ensures none { IfNone result ((one self.old ≡ None) ⊎ (other self.old ≡ None) ⊎ (third self.old ≡ None)) }
        ensures same { IfNone result (self.new ≡ self.old) }
        ensures entities { entities self.new ≡ entities self.old };
}

impl<M, N, O, P, S: ThreeFields<M, N, O, P>> WithThree<M, N, O, P> for Parts<S> {
    ghost entities = { λ p. p.entities };

    ghost one = { λ p. S.one p.storages };

    ghost other = { λ p. S.other p.storages };

    ghost third = { λ p. S.third p.storages };

    ghost with_three = { λ p u v w. record p { storages = S.with_three p.storages u v w } };

    fn with_three<R, F: FnOnce(&EntitiesRes, &mut M, &mut N, &mut O) -> R>(
        &mut self,
        f: F,
    ) -> Option<R> {
        let Parts { entities, storages } = self;
        let entities = &*entities;
        storages.with_three(
            |one: &mut M, other: &mut N, third: &mut O| -> R
                requires { (e : Bor Census) (x : MutBor M) (y : MutBor N) (z : MutBor O) → e.now ≡ entities.now → x.now ≡ one.old → y.now ≡ other.old → z.now ≡ third.old → F.pre f e x y z }
                ensures { CallsThreeBeside entities.entry.now one.old other.old third.old one.new other.new third.new (λ e x y z x' y' z'. F.post f e x y z result x' y' z') }
            { called(f, entities, one, other, third) },
        )
    }
}

impl<M, N, O, P, S: Held + ThreeFields<M, N, O, P>> WithThree<M, N, O, P> for Core<S> {
    ghost entities = { λ c. c.parts.entities };

    ghost one = { λ c. S.one c.parts.storages };

    ghost other = { λ c. S.other c.parts.storages };

    ghost third = { λ c. S.third c.parts.storages };

    ghost with_three = { λ c u v w. let p = c.parts in record c { parts = record p { storages = S.with_three p.storages u v w } } };

    fn with_three<R, F: FnOnce(&EntitiesRes, &mut M, &mut N, &mut O) -> R>(
        &mut self,
        f: F,
    ) -> Option<R> {
        self.parts().with_three(f)
    }
}

impl<M, N, O, P, S: Held + ThreeFields<M, N, O, P>, J: Drop> WithThree<M, N, O, P> for World<S, J> {
    ghost entities = { λ w. w.parts.core.parts.entities };

    ghost one = { λ w. S.one w.parts.core.parts.storages };

    ghost other = { λ w. S.other w.parts.core.parts.storages };

    ghost third = { λ w. S.third w.parts.core.parts.storages };

    ghost with_three = { λ w x y z. let q = w.parts in let c = q.core in let p =
        c.parts in record w { parts = record q { core = record c { parts = record p { storages = S.with_three p.storages x y z } } } } };

    fn with_three<R, F: FnOnce(&EntitiesRes, &mut M, &mut N, &mut O) -> R>(
        &mut self,
        f: F,
    ) -> Option<R> {
        let WorldParts { core, lazy: _ } = self.parts();
        core.with_three(f)
    }
}

// The call, in a function of its own: inside a closure it is not proved what `f` may borrow.
fn called<M, N, O, R, F: FnOnce(&EntitiesRes, &mut M, &mut N, &mut O) -> R>(
    f: F,
    entities: &EntitiesRes,
    one: &mut M,
    other: &mut N,
    third: &mut O,
) -> R
    requires { (e : Bor Census) (x : MutBor M) (y : MutBor N) (z : MutBor O) → e.now ≡ entities.now → x.now ≡ one.old → y.now ≡ other.old → z.now ≡ third.old → F.pre f e x y z }
    ensures { CallsThreeBeside entities.now one.old other.old third.old one.new other.new third.new (λ e x y z x' y' z'. F.post f e x y z result x' y' z') }
{
    f(entities, one, other, third)
}
