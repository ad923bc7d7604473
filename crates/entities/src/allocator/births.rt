//! Births.
ghost use Rattle.std.specs.Prelude.{◌≡◌, ◌≢◌, ℕ, ◌+◌, ◌<◌, ◌≤◌, List, [], ◌∷◌, ◌++◌, pos, nat_abs, length, true, IfOk, IsOk, OnErr, IfSome, IfNone, if◌then◌else◌};
ghost use Rattle.std.specs.FinSet as set;
ghost use Rattle.hibits.specs.Sets.{HasRoom};
ghost use Rattle.entities.specs.Population.{MayBeBorn, NoneFree, NoneUnused, IsLeastUnused, is_free, born, born_pending, born_as, index_of, generation_of};
ghost use Rattle.entities.specs.Census.{population};
ghost use Rattle.entities.specs.Kept.{GrowsByNeed, free_at};

use crate::allocator::Allocator;
use crate::entity::{Entity, Generation, Index};
use hibits::{BitSet, INDEX_LIMIT};
use thiserror::Error;

/// Why no entity was made.
#[derive(Clone, Copy, Debug, PartialEq, Eq, Drop, Error)]
pub enum CreateError {
    /// No index is free, and none below the limit is unused. Nothing changed.
    #[error("every index below the limit is used")]
    IndexLimit,
    /// No index is free, and there is no memory for an unused one. Nothing changed.
    #[error("out of memory")]
    OutOfMemory,
}

impl Allocator {
    /// A birth at once, of a free index, or of the least unused one where none is free. In the mean it takes constant time; it takes
    /// memory only where it is an unused index's, and then for as many more as there are, with their marks and deaths.
    ///
    /// Ports `Allocator::allocate`.
    #[inline]
    pub fn allocate(&mut self) -> Result<Entity, CreateError>
        ensures may { IfOk result (λ e. MayBeBorn (population self.old) (index_of e)) }
        ensures below { IfOk result (λ e. index_of e < INDEX_LIMIT) }
        ensures generation { IfOk result (λ e. generation_of e ≡ pos ((population self.old).births (index_of e) + 1)) }
        ensures born { IfOk result (λ e. population self.new ≡ born (population self.old) (index_of e)) }
        ensures limit { result ≡ Err CreateError.IndexLimit → NoneFree (population self.old) × NoneUnused (population self.old) }
        ensures reuses { OnErr result (NoneFree (population self.old)) }
        ensures memory { result ≡ Err CreateError.OutOfMemory → NoneUnused (population self.old) → ⊥ }
        ensures err { OnErr result (self.new ≡ self.old) }
        ensures had_room { length self.old.generations < self.old.room → IsOk result }
        ensures room { self.old.room ≤ self.new.room }
        ensures takes { GrowsByNeed self.old self.new }
    {
        self.give_birth(false)
    }

    /// A birth that is pending until `merge`, else as `allocate`.
    ///
    /// Ports `Allocator::allocate_atomic`.
    #[inline]
    pub fn allocate_atomic(&mut self) -> Result<Entity, CreateError>
        ensures may { IfOk result (λ e. MayBeBorn (population self.old) (index_of e)) }
        ensures below { IfOk result (λ e. index_of e < INDEX_LIMIT) }
        ensures generation { IfOk result (λ e. generation_of e ≡ pos ((population self.old).births (index_of e) + 1)) }
        ensures born { IfOk result (λ e. population self.new ≡ born_pending (population self.old) (index_of e)) }
        ensures limit { result ≡ Err CreateError.IndexLimit → NoneFree (population self.old) × NoneUnused (population self.old) }
        ensures reuses { OnErr result (NoneFree (population self.old)) }
        ensures memory { result ≡ Err CreateError.OutOfMemory → NoneUnused (population self.old) → ⊥ }
        ensures err { OnErr result (self.new ≡ self.old) }
        ensures had_room { length self.old.generations < self.old.room → IsOk result }
        ensures room { self.old.room ≤ self.new.room }
        ensures takes { GrowsByNeed self.old self.new }
    {
        self.give_birth(true)
    }

    #[inline]
    fn give_birth(&mut self, pending: bool) -> Result<Entity, CreateError>
        ensures may { IfOk result (λ e. MayBeBorn (population self.old) (index_of e)) }
        ensures below { IfOk result (λ e. index_of e < INDEX_LIMIT) }
        ensures generation { IfOk result (λ e. generation_of e ≡ pos ((population self.old).births (index_of e) + 1)) }
        ensures born { IfOk result (λ e. population self.new ≡ born_as pending (population self.old) (index_of e)) }
        ensures limit { result ≡ Err CreateError.IndexLimit → NoneFree (population self.old) × NoneUnused (population self.old) }
        ensures reuses { OnErr result (NoneFree (population self.old)) }
        ensures memory { result ≡ Err CreateError.OutOfMemory → NoneUnused (population self.old) → ⊥ }
        ensures err { OnErr result (self.new ≡ self.old) }
        ensures had_room { length self.old.generations < self.old.room → IsOk result }
        ensures room { self.old.room ≤ self.new.room }
        ensures takes { GrowsByNeed self.old self.new }
    {
        if let Some(entity) = self.revive(pending) {
            return Ok(entity);
        }
        self.make_next_room()?;
        Ok(self.bear_next(pending))
    }

    /// The birth of the index that died last of those that are free.
    #[inline]
    pub(crate) fn revive(&mut self, pending: bool) -> Option<Entity>
        ensures free { IfSome result (λ e. is_free (population self.old) (index_of e) ≡ true) }
        ensures below { IfSome result (λ e. index_of e < INDEX_LIMIT) }
        ensures generation { IfSome result (λ e. generation_of e ≡ pos ((population self.old).births (index_of e) + 1)) }
        ensures born { IfSome result (λ e. population self.new ≡ born_as pending (population self.old) (index_of e)) }
        ensures last { IfSome result (λ e. self.old.free ≡ self.new.free ++ index_of e ∷ []) }
        ensures others { (length self.new.generations ≡ length self.old.generations) × (self.new.room ≡ self.old.room) }
        ensures none { IfNone result (NoneFree (population self.old) × (self.old.free ≡ []) × (self.new ≡ self.old)) }
    {
        let Some(index) = self.free.pop() else {
            return None;
        };
        let i = index as usize;
        let generation = reborn(self.generations[i]);
        self.generations[i] = generation;
        enlist(&mut self.alive, &mut self.raised, index, pending);
        Some(Entity(index, Generation(generation)))
    }

    /// The birth of the least unused index, where none is free.
    #[inline]
    pub(crate) fn bear_next(&mut self, pending: bool) -> Entity
        requires none { self.old.free ≡ [] }
        requires room { length self.old.generations < self.old.room }
        ensures index { index_of result ≡ length self.old.generations }
        ensures unused { IsLeastUnused (population self.old) (index_of result) }
        ensures below { index_of result < INDEX_LIMIT }
        ensures generation { generation_of result ≡ pos 1 }
        ensures born { population self.new ≡ born_as pending (population self.old) (index_of result) }
        ensures others { (length self.new.generations ≡ length self.old.generations + 1) × (self.new.free ≡ []) × (self.new.room ≡ self.old.room) }
    {
        let index = self.generations.len() as Index;
        let _ = self.generations.push(1);
        enlist(&mut self.alive, &mut self.raised, index, pending);
        Entity(index, Generation(1))
    }
}

/// The next generation of a dead index.
#[inline]
pub(super) fn reborn(dead: i32) -> i32
    requires { free_at dead ≡ true }
    ensures { result ≡ pos (nat_abs dead + 1) }
{
    1 - dead
}

/// Takes an index up among the pending, or among the merged.
#[inline]
fn enlist(alive: &mut BitSet, raised: &mut BitSet, index: Index, pending: bool)
    requires { HasRoom alive.old index × HasRoom raised.old index }
    ensures raised { raised.new.members ≡ (if pending then set.insert raised.old.members index else raised.old.members) }
    ensures alive { alive.new.members ≡ (if pending then alive.old.members else set.insert alive.old.members index) }
    ensures room { (i : ℕ) → (HasRoom alive.old i → HasRoom alive.new i) × (HasRoom raised.old i → HasRoom raised.new i) }
{
    if pending {
        let _ = raised.add(index);
    } else {
        let _ = alive.add(index);
    }
}
