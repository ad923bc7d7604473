//! What is looked up at an index, as often as it is asked, by any thread.
ghost use Rattle.std.specs.Prelude.{◌≡◌, ℕ, Bool, true, false, Some, ◌&&◌};
ghost use Rattle.std.specs.FinMap as map;
ghost use Rattle.entities.specs.Census.{population};
ghost use Rattle.entities.specs.Population.{index_of, generation_of, generation_now};
ghost use Rattle.storages.specs.ReadView.{slot};
ghost use Rattle.storages.specs.WriteView as writing;

use crate::change_set::ChangeSet;
use crate::combine::Combine;
use entities::{EntitiesRes, Entity};
use hibits::{BitSet, Index};
use storages::{Component, MaskedStorage, ReadStorage, UnprotectedStorage, WriteStorage};

/// What is looked up at an index, as often as it is asked, and only read: so several threads may ask at the same time. The values of a join
/// that repeats are of this kind.
pub trait Lookup<T> {
    // whether something may be asked at the index
    ghost can_look: { Self → ℕ → Bool };

    // what stands there
    ghost finds: { Self → ℕ → T → Type 0 };

    /// What stands at the index.
    fn at(&self, id: Index) -> T
        requires { can_look self.now id ≡ true }
        ensures { finds self.now id result };
}

impl<'a, T: Component> Lookup<&'a T> for &'a MaskedStorage<T>
where
    T::Storage: UnprotectedStorage<T>,
{
    ghost can_look = { λ v i. map.contains_key v.now.map i };

    ghost finds = { λ v i r. map.get v.now.map i ≡ Some r.now };

    #[inline(always)]
    fn at(&self, id: Index) -> &'a T {
        let storage: &'a MaskedStorage<T> = *self;
        storage.unprotected_storage().get(id)
    }
}

impl<'a, 'b, T: Component> Lookup<&'b T> for &'b ReadStorage<'a, T>
where
    T::Storage: UnprotectedStorage<T>,
{
    ghost can_look = { λ v i. map.contains_key (slot v.now).map i };

    ghost finds = { λ v i r. map.get (slot v.now).map i ≡ Some r.now };

    #[inline(always)]
    fn at(&self, id: Index) -> &'b T {
        let view: &'b ReadStorage<'a, T> = *self;
        view.unprotected_storage().get(id)
    }
}

impl<'a, 'b, T: Component> Lookup<&'b T> for &'b WriteStorage<'a, T>
where
    T::Storage: UnprotectedStorage<T>,
{
    ghost can_look = { λ v i. map.contains_key (writing.slot v.now).map i };

    ghost finds = { λ v i r. map.get (writing.slot v.now).map i ≡ Some r.now };

    #[inline(always)]
    fn at(&self, id: Index) -> &'b T {
        let view: &'b WriteStorage<'a, T> = *self;
        view.unprotected_storage().get(id)
    }
}

impl<'a, T: Combine + Drop> Lookup<&'a T> for &'a ChangeSet<T> {
    ghost can_look = { λ v i. map.contains_key v.now i };

    ghost finds = { λ v i r. map.get v.now i ≡ Some r.now };

    #[inline(always)]
    fn at(&self, id: Index) -> &'a T {
        let changes: &'a ChangeSet<T> = *self;
        changes.present(id)
    }
}

impl<'a> Lookup<Entity> for &'a EntitiesRes {
    ghost can_look = { λ _ _. true };

    ghost finds = { λ v i r. (index_of r ≡ i) × (generation_of r ≡ generation_now (population v.now) i) };

    #[inline(always)]
    fn at(&self, id: Index) -> Entity {
        self.entity(id)
    }
}

impl<'a> Lookup<Index> for &'a BitSet {
    ghost can_look = { λ _ _. true };

    ghost finds = { λ _ i r. r ≡ i };

    #[inline(always)]
    fn at(&self, id: Index) -> Index {
        id
    }
}

impl<'a> Lookup<()> for &'a BitSet {
    ghost can_look = { λ _ _. true };

    ghost finds = { λ _ _ _. Unit {0} };

    #[inline(always)]
    fn at(&self, _id: Index) {}
}

impl Lookup<Index> for () {
    ghost can_look = { λ _ _. true };

    ghost finds = { λ _ i r. r ≡ i };

    #[inline(always)]
    fn at(&self, id: Index) -> Index {
        id
    }
}

impl<A, B, V: Lookup<A>, W: Lookup<B>> Lookup<(A, B)> for (V, W) {
    ghost can_look = { λ v i. V.can_look v.0 i && W.can_look v.1 i };

    ghost finds = { λ v i r. V.finds v.0 i r.0 × W.finds v.1 i r.1 };

    #[inline(always)]
    fn at(&self, id: Index) -> (A, B) {
        (self.0.at(id), self.1.at(id))
    }
}
