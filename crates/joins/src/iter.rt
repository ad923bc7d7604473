//! The values of a join.
ghost use Rattle.std.specs.Prelude.{◌≡◌, ℕ, ◌+◌, ◌-◌, ◌*◌, ◌^◌, ◌≤◌, ◌<◌, true, false, MatchOption, IfSome, IfNone, [], ⊤, min};
ghost use Rattle.std.specs.Iterator.{item_count, MakesProgress};
ghost use Rattle.std.specs.List.{FoldsTo, fold};
ghost use Rattle.hibits.specs.Left.{left};
ghost use Rattle.entities.specs.Census.{population};
ghost use Rattle.entities.specs.Population.{index_of, IsAlive};
ghost use Rattle.joins.specs.Next.{GivesNext, GivesLater, GivesStill, GoesForward};

use crate::join::Join;
use crate::lookup::Lookup;
use crate::repeatable::RepeatableJoin;
use entities::{EntitiesRes, Entity};
use hibits::{BitIter, BitSetLike, INDEX_LIMIT, Index, LAYERS, Layers};
use std::alloc::AllocError;

/// The values of a join at its indices, ascending. Ports `specs::join::JoinIter`.
#[derive(Drop)]
pub struct JoinIter<J: Join> {
    keys: BitIter<J::Mask>,
    values: J::Value,
    ghost ready: { (i : ℕ) → keys.position ≤ i → J.Mask.has keys.mask 0 i ≡ true → J.can_get values i ≡ true },
    ghost again: { J.repeats ≡ true → (i : ℕ) → J.Mask.has keys.mask 0 i ≡ true → J.can_get values i ≡ true },
}

impl<J: Join> JoinIter<J> {
    /// At the first index.
    #[inline(always)]
    pub fn new(join: J) -> Self
        ensures mask { (i : ℕ) → J.Mask.has result.keys.mask 0 i ≡ J.has join i }
        ensures items { left (J.Mask.has result.keys.mask 0) 0 ≡ left (J.has join) 0 }
        ensures gives { (i : ℕ) (r : J.Type) → J.value_gives result.values i r → J.gives join i r }
        ensures position { result.keys.position ≡ 0 }
        ensures cost { J.Mask.cost result.keys.mask ≡ J.cost join }
        ensures most { J.Mask.most result.keys.mask ≡ J.most join }
        ensures reads { result.keys.reads ≡ min (J.cost join) (2 ^ 64 - 1) }
    {
        let (mask, values) = join.open();
        JoinIter {
            keys: BitIter::new(mask),
            values,
        }
    }

    /// How many words of plain sets were read so far: at first what one word of the join costs, and no step makes it less. A join of k plain
    /// sets, of which the smallest has n members, reads at most k(4n + 1).
    #[inline(always)]
    pub fn reads(&self) -> u64
        ensures reads { result ≡ self.now.keys.reads }
        ensures bound { result ≤ J.Mask.cost self.now.keys.mask * ((LAYERS - 1) * J.Mask.most self.now.keys.mask + 1) }
    {
        self.keys.reads()
    }

    /// The values at the next index.
    #[inline(always)]
    pub fn next(&mut self) -> Option<J::Type>
        ensures mask { self.new.keys.mask ≡ self.old.keys.mask }
        ensures items { GivesNext (J.Mask.has self.old.keys.mask 0) (J.value_gives self.old.values) self.old.keys.position self.new.keys.position result }
        ensures forward { IfSome result (λ _. (self.old.keys.position < self.new.keys.position) × (self.new.keys.position ≤ INDEX_LIMIT)) }
        ensures ended { IfNone result (left (J.Mask.has self.new.keys.mask 0) self.new.keys.position ≡ []) }
        ensures later_gives { (i : ℕ) (r : J.Type) → self.new.keys.position ≤ i → J.value_gives self.new.values i r → J.value_gives self.old.values i r }
        ensures again_gives { J.repeats ≡ true → (i : ℕ) (r : J.Type) → J.value_gives self.new.values i r → J.value_gives self.old.values i r }
        ensures reads { self.old.keys.reads ≤ self.new.keys.reads }
    {
        let id = self.keys.next()?;
        Some(J::get(&mut self.values, id))
    }

    /// Calls `f` with what the join has at each index that is left, ascending. It has the name and the order of an iterator's `for_each`, and
    /// says more: which values `f` was called with, one call after another.
    pub fn for_each<F: FnMut(J::Type)>(mut self, mut f: F)
        requires called { (state : F) (i : ℕ) (r : J.Type) → J.value_gives self.values i r → F.pre state r }
        ensures calls { (last : F) × FoldsTo (λ p i q. (r : J.Type) × J.value_gives self.values i r × F.step p r tt q) f (left (J.Mask.has self.keys.mask 0) self.keys.position) last }
    {
        while let Some(item) = self.next() {
            f(item);
        }
    }

    /// What `f` makes of `init` and of what the join has at each index that is left, ascending. It has the name and the order of an iterator's
    /// `fold`; `f` keeps what it captured as it is, which callers' proofs then know in each call.
    pub fn fold<B: Drop, F: Fn(B, J::Type) -> B>(mut self, init: B, f: F) -> B
        requires called { (b : B) (i : ℕ) (r : J.Type) → J.value_gives self.values i r → F.pre f b r }
        ensures calls { FoldsTo (λ b i c. (r : J.Type) × J.value_gives self.values i r × F.post f b r c) init (left (J.Mask.has self.keys.mask 0) self.keys.position) result }
        ensures becomes { (to : B → ℕ → B) → ((b : B) (i : ℕ) (r : J.Type) (c : B) → J.value_gives self.values i r → F.post f b r c → c ≡ to b i) → result ≡ fold to init (left (J.Mask.has self.keys.mask 0) self.keys.position) }
    {
        let mut sum = init;
        while let Some(item) = self.next() {
            sum = f(sum, item);
        }
        sum
    }
}

/// The copy walks on from the same place over the same, and has read as many words.
impl<J: Join> Clone for JoinIter<J>
where
    J::Mask: Copy,
    J::Value: Copy,
{
    ghost is_clone = { λ x y. (y.keys ≡ x.keys) × (y.values ≡ x.values) };

    ghost is_infallible = { λ _. ⊤ };

    #[inline(always)]
    fn clone(&self) -> Result<Self, AllocError> {
        Ok(JoinIter {
            keys: self.keys.clone()?,
            values: self.values,
        })
    }
}

impl<J: RepeatableJoin> JoinIter<J>
where
    J::Mask: BitSetLike,
    J::Value: Lookup<J::Type>,
{
    /// The values at an index, wherever the walk is, if the index is in the mask. It walks nothing, and its look into the mask is not
    /// counted in `reads`.
    #[inline(always)]
    pub fn get_unchecked(&self, index: Index) -> Option<J::Type>
        ensures { MatchOption result
            (J.Mask.has self.now.keys.mask 0 index ≡ false)
            (λ r. (J.Mask.has self.now.keys.mask 0 index ≡ true) × J.value_gives self.now.values index r) }
    {
        if self.keys.mask().contains(index) {
            return Some(self.values.at(index));
        }
        None
    }

    /// The values at an entity's index, wherever the walk is, if the entity is alive and the index is in the mask.
    #[inline(always)]
    pub fn get(&self, entity: Entity, entities: &EntitiesRes) -> Option<J::Type>
        ensures present { IfSome result (λ r. IsAlive (population entities.now) entity × (J.Mask.has self.now.keys.mask 0 (index_of entity) ≡ true) × J.value_gives self.now.values (index_of entity) r) }
        ensures absent { IfNone result (IsAlive (population entities.now) entity → J.Mask.has self.now.keys.mask 0 (index_of entity) ≡ false) }
    {
        if !entities.is_alive(entity) {
            return None;
        }
        self.get_unchecked(entity.id())
    }
}

impl<J: Join> Iterator for JoinIter<J> {
    type Item = J::Type;

    ghost next_gives = { λ s r t. (t.keys.mask ≡ s.keys.mask)
        × GivesNext (J.Mask.has s.keys.mask 0) (J.value_gives s.values) s.keys.position t.keys.position r
        × IfNone r (left (J.Mask.has t.keys.mask 0) t.keys.position ≡ [])
        × GivesLater (J.value_gives s.values) (J.value_gives t.values) t.keys.position
        × (J.repeats ≡ true → GivesStill (J.value_gives s.values) (J.value_gives t.values))
        × GoesForward s.keys.position t.keys.position r
        × (s.keys.reads ≤ t.keys.reads) };

    ghost remaining = { item_count (λ s. left (J.Mask.has s.keys.mask 0) s.keys.position) };

    #[inline(always)]
    fn next(&mut self) -> Option<J::Type> {
        JoinIter::next(self)
    }
}
