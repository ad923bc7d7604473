//! Entities, and what has no component, as joins.
ghost use Rattle.std.specs.Prelude.{◌≡◌, ℕ, ◌<◌, true, false, not, nat_lt, ◌&&◌, ◌||◌, ◌+◌, length};
ghost use Rattle.std.specs.Borrow.{Bor};
ghost use Rattle.std.specs.FinSet as set;
ghost use Rattle.hibits.specs.Left.{left};
ghost use Rattle.hibits.specs.declared.limits.TheConstants.{INDEX_LIMIT};
ghost use Rattle.entities.specs.Census.{Census, population};
ghost use Rattle.entities.specs.Population.{index_of, generation_of, generation_now};
ghost use Rattle.storages.specs.Life.{is_alive};
ghost use Rattle.storages.specs.declared.anti_storage.AntiStorage.{AntiStorage as Anti};

use crate::join::Join;
use entities::{EntitiesRes, Entity};
use hibits::{BitSet, BitSetNot, BitSetOr, INDEX_LIMIT, Index};
use storages::AntiStorage;

// Whether an entity is alive.
#[inline(always)]
pub(crate) fn is_living(entities: &EntitiesRes, entity: Entity) -> bool
    ensures { result ≡ is_alive (population entities.now) entity }
{
    entities.is_alive(entity)
}

impl<'a> Join for &'a EntitiesRes {
    type Type = Entity;

    type Value = &'a EntitiesRes;

    type Mask = BitSetOr<&'a BitSet, &'a BitSet>;

    ghost has = { λ j i. (population j.now).merged i || (population j.now).pending i };

    ghost cost = { λ _. 2 };

    ghost most = { λ j. length (left (population j.now).merged 0) + length (left (population j.now).pending 0) };

    ghost repeats = { true };

    ghost gives = { λ j i r. (index_of r ≡ i) × (generation_of r ≡ generation_now (population j.now) i) };

    ghost can_get = { λ _ _. true };

    ghost value_gives = { λ v i r. (index_of r ≡ i) × (generation_of r ≡ generation_now (population v.now) i) };

    #[inline(always)]
    fn open(self) -> (BitSetOr<&'a BitSet, &'a BitSet>, &'a EntitiesRes) {
        let living = self.living();
        living.0.sized();
        living.1.sized();
        (living, self)
    }

    #[inline(always)]
    fn get(value: &mut &'a EntitiesRes, id: Index) -> Entity {
        let entities: &'a EntitiesRes = *value;
        entities.entity(id)
    }

    #[inline(always)]
    fn is_unconstrained() -> bool
        ensures may { result ≡ false }
        ensures all { result ≡ true → (j : Bor Census) (i : ℕ) → i < INDEX_LIMIT → ((population j.now).merged i || (population j.now).pending i) ≡ true }
    {
        false
    }
}

impl<'a> Join for AntiStorage<'a> {
    type Type = ();

    type Value = &'a BitSet;

    type Mask = BitSetNot<&'a BitSet>;

    ghost has = { λ j i. nat_lt i INDEX_LIMIT && not (set.contains j.0.now.members i) };

    ghost cost = { λ _. 1 };

    ghost most = { λ _. INDEX_LIMIT };

    ghost repeats = { true };

    ghost gives = { λ _ _ _. Unit {0} };

    ghost can_get = { λ _ _. true };

    ghost value_gives = { λ _ _ _. Unit {0} };

    #[inline(always)]
    fn open(self) -> (BitSetNot<&'a BitSet>, &'a BitSet) {
        (BitSetNot(self.0), self.0)
    }

    #[inline(always)]
    fn get(value: &mut &'a BitSet, id: Index) {
        let _ = value;
        let _ = id;
    }

    #[inline(always)]
    fn is_unconstrained() -> bool
        ensures may { result ≡ false }
        ensures all { result ≡ true → (j : Anti) (i : ℕ) → i < INDEX_LIMIT → (nat_lt i INDEX_LIMIT && not (set.contains j.0.now.members i)) ≡ true }
    {
        false
    }
}
