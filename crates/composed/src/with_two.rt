//! Two storages of a world at once, with its entities beside.
ghost use Rattle.std.specs.Prelude.{◌≡◌, ◌⊎◌, Option, Some, None, IfSome, IfNone};
ghost use Rattle.std.specs.Borrow.{Bor, MutBor};
ghost use Rattle.entities.specs.Census.{Census};
ghost use Rattle.composed.specs.Two.{CallsBeside, OnTwoBeside};

use crate::two::TwoFields;
use specs::{Core, EntitiesRes, Held, Parts, World, WorldParts};

/// Entities beside storages, of which two types can be had at once.
pub trait WithTwo<M, N, P>: Sized {
    ghost entities: { Self → Census };

    ghost one: { Self → Option M };

    ghost other: { Self → Option N };

    ghost with_two: { Self → M → N → Self };

    /// Calls on the entities, to read them, and on both storages, to write to them: what the call left of each is what is there, and nothing else
    /// changes. It is none, without the call and without a change, where one of both is not registered. It takes what the call takes.
    /// Ports `System::run` over `Entities` and two `WriteStorage`, or a `ReadStorage` beside a `WriteStorage`.
    fn with_two<R, F: FnOnce(&EntitiesRes, &mut M, &mut N) -> R>(&mut self, f: F) -> Option<R>
        requires { (e : Bor Census) (x : MutBor M) (y : MutBor N) → e.now ≡ entities self.old → one self.old ≡ Some x.now → other self.old ≡ Some y.now → F.pre f e x y }
        ensures some { IfSome result (λ r. OnTwoBeside (entities self.old) (one self.old) (other self.old) (with_two self.old) (λ e x y x' y'. F.post f e x y r x' y') self.new) }
        ensures none { IfNone result ((one self.old ≡ None) ⊎ (other self.old ≡ None)) }
        ensures same { IfNone result (self.new ≡ self.old) }
        ensures entities { entities self.new ≡ entities self.old };
}

impl<M, N, P, S: TwoFields<M, N, P>> WithTwo<M, N, P> for Parts<S> {
    ghost entities = { λ p. p.entities };

    ghost one = { λ p. S.one p.storages };

    ghost other = { λ p. S.other p.storages };

    ghost with_two = { λ p v w. record p { storages = S.with_two p.storages v w } };

    fn with_two<R, F: FnOnce(&EntitiesRes, &mut M, &mut N) -> R>(&mut self, f: F) -> Option<R> {
        let Parts { entities, storages } = self;
        let entities = &*entities;
        storages.with_two(
            |one: &mut M, other: &mut N| -> R
                requires { (e : Bor Census) (x : MutBor M) (y : MutBor N) → e.now ≡ entities.now → x.now ≡ one.old → y.now ≡ other.old → F.pre f e x y }
                ensures { CallsBeside entities.entry.now one.old other.old one.new other.new (λ e x y x' y'. F.post f e x y result x' y') }
            { called(f, entities, one, other) },
        )
    }
}

impl<M, N, P, S: Held + TwoFields<M, N, P>> WithTwo<M, N, P> for Core<S> {
    ghost entities = { λ c. c.parts.entities };

    ghost one = { λ c. S.one c.parts.storages };

    ghost other = { λ c. S.other c.parts.storages };

    ghost with_two = { λ c v w. let p = c.parts in record c { parts = record p { storages = S.with_two p.storages v w } } };

    fn with_two<R, F: FnOnce(&EntitiesRes, &mut M, &mut N) -> R>(&mut self, f: F) -> Option<R> {
        self.parts().with_two(f)
    }
}

impl<M, N, P, S: Held + TwoFields<M, N, P>, J: Drop> WithTwo<M, N, P> for World<S, J> {
    ghost entities = { λ w. w.parts.core.parts.entities };

    ghost one = { λ w. S.one w.parts.core.parts.storages };

    ghost other = { λ w. S.other w.parts.core.parts.storages };

    ghost with_two = { λ w x y. let q = w.parts in let c = q.core in let p =
        c.parts in record w { parts = record q { core = record c { parts = record p { storages = S.with_two p.storages x y } } } } };

    fn with_two<R, F: FnOnce(&EntitiesRes, &mut M, &mut N) -> R>(&mut self, f: F) -> Option<R> {
        let WorldParts { core, lazy: _ } = self.parts();
        core.with_two(f)
    }
}

// The call, in a function of its own: inside a closure it is not proved what `f` may borrow.
fn called<M, N, R, F: FnOnce(&EntitiesRes, &mut M, &mut N) -> R>(
    f: F,
    entities: &EntitiesRes,
    one: &mut M,
    other: &mut N,
) -> R
    requires { (e : Bor Census) (x : MutBor M) (y : MutBor N) → e.now ≡ entities.now → x.now ≡ one.old → y.now ≡ other.old → F.pre f e x y }
    ensures { CallsBeside entities.now one.old other.old one.new other.new (λ e x y x' y'. F.post f e x y result x' y') }
{
    f(entities, one, other)
}
