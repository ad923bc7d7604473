//! One storage of a world, with its entities beside.
ghost use Rattle.std.specs.Prelude.{◌≡◌, Option, Some, None, IfSome, IfNone};
ghost use Rattle.std.specs.Borrow.{Bor, MutBor};
ghost use Rattle.entities.specs.Census.{Census};
ghost use Rattle.composed.specs.One.{OnOneBeside};

use specs::{Core, EntitiesRes, Field, Held, Parts, World, WorldParts};

/// Entities beside storages, of which one type can be had.
pub trait WithOne<M, P>: Sized {
    ghost entities: { Self → Census };

    ghost one: { Self → Option M };

    ghost with_one: { Self → M → Self };

    /// Calls on the entities, to read them, and on a storage, to write to it: its entries, its restriction and its joins with the living are had
    /// there. What the call left of the storage is what is there, and nothing else changes. It is none, without the call and without a change,
    /// where the storage is not registered. It takes what the call takes.
    /// Ports `System::run` over `Entities` and a `WriteStorage`, and so `Storage::entries` and `restrict_mut`, which hold the entities.
    fn with_one<R, F: FnOnce(&EntitiesRes, &mut M) -> R>(&mut self, f: F) -> Option<R>
        requires { (e : Bor Census) (x : MutBor M) → e.now ≡ entities self.old → one self.old ≡ Some x.now → F.pre f e x }
        ensures some { IfSome result (λ r. OnOneBeside (entities self.old) (one self.old) (with_one self.old) (λ e x x'. F.post f e x r x') self.new) }
        ensures none { IfNone result (one self.old ≡ None) }
        ensures same { IfNone result (self.new ≡ self.old) }
        ensures entities { entities self.new ≡ entities self.old };
}

impl<M, P, S: Field<M, P>> WithOne<M, P> for Parts<S> {
    ghost entities = { λ p. p.entities };

    ghost one = { λ p. S.part p.storages };

    ghost with_one = { λ p w. record p { storages = S.with_part p.storages w } };

    fn with_one<R, F: FnOnce(&EntitiesRes, &mut M) -> R>(&mut self, f: F) -> Option<R> {
        let Parts { entities, storages } = self;
        match storages.field_mut() {
            Some(one) => Some(f(&*entities, one)),
            None => None,
        }
    }
}

impl<M, P, S: Held + Field<M, P>> WithOne<M, P> for Core<S> {
    ghost entities = { λ c. c.parts.entities };

    ghost one = { λ c. S.part c.parts.storages };

    ghost with_one = { λ c w. let p = c.parts in record c { parts = record p { storages = S.with_part p.storages w } } };

    fn with_one<R, F: FnOnce(&EntitiesRes, &mut M) -> R>(&mut self, f: F) -> Option<R> {
        self.parts().with_one(f)
    }
}

impl<M, P, S: Held + Field<M, P>, J: Drop> WithOne<M, P> for World<S, J> {
    ghost entities = { λ w. w.parts.core.parts.entities };

    ghost one = { λ w. S.part w.parts.core.parts.storages };

    ghost with_one = { λ w x. let q = w.parts in let c = q.core in let p = c.parts in record w { parts = record q { core = record c { parts = record p { storages = S.with_part p.storages x } } } } };

    fn with_one<R, F: FnOnce(&EntitiesRes, &mut M) -> R>(&mut self, f: F) -> Option<R> {
        let WorldParts { core, lazy: _ } = self.parts();
        core.with_one(f)
    }
}
