//! Births in a known order, and marks by index, for a shared phase.
ghost use Rattle.std.specs.Prelude.{◌≡◌, ℕ, ◌+◌, ◌-◌, ◌<◌, ◌≤◌, true, length, slice_get, Some, IfOk};
ghost use Rattle.entities.specs.declared.entity.Entity.{Entity};
ghost use Rattle.entities.specs.Population.{lives, mark, index_of};
ghost use Rattle.entities.specs.Census.{population};
ghost use Rattle.entities.specs.Upcoming.{next_entity, upcoming};
ghost use Rattle.entities.specs.Phase.Reserve.{IsReserve, givable, with_births};

use crate::allocator::Allocator;
use crate::allocator::births::reborn;
use crate::entity::{Entity, Generation, Index};
use hibits::INDEX_LIMIT;
use std::alloc::{AllocError, Global};

impl Allocator {
    /// How many indices were born.
    pub(crate) fn born(&self) -> usize
        ensures born { result ≡ length self.now.generations }
        ensures limit { result ≤ INDEX_LIMIT }
        ensures left { givable (population self.now) ≡ length self.now.free + (INDEX_LIMIT - length self.now.generations) }
    {
        // A look at a field tells the proof what an allocator keeps.
        let _ = &self.room;
        self.generations.len()
    }

    /// How many indices are free.
    pub(crate) fn free_count(&self) -> usize
        ensures { result ≡ length self.now.free }
    {
        self.free.len()
    }

    /// The entity that the birth after `earlier` births more makes.
    #[inline]
    fn next_entity(&self, earlier: usize) -> Entity
        requires { length self.now.generations + (earlier + 1 - length self.now.free) ≤ INDEX_LIMIT }
        ensures { result ≡ next_entity self.now earlier }
    {
        if earlier < self.free.len() {
            let index = self.free[self.free.len() - 1 - earlier];
            let dead = self.generations[index as usize];
            return Entity(index, Generation(reborn(dead)));
        }
        let index = self.generations.len() + (earlier - self.free.len());
        Entity(index as Index, Generation(1))
    }

    /// The entities that the next births make.
    pub(crate) fn upcoming(&self, alloc: Global, count: usize) -> Result<Vec<Entity>, AllocError>
        requires { length self.now.generations + (count - length self.now.free) ≤ INDEX_LIMIT }
        ensures items { IfOk result (λ v. v.items ≡ upcoming self.now count) }
        ensures reserve { IfOk result (λ v. IsReserve (population self.now) v.items) }
        ensures revived { IfOk result (λ v. (k : ℕ) (e : Entity) → slice_get v.items k ≡ Some e → k < length self.now.free → index_of e < length self.now.generations) }
    {
        // A look at a field tells the proof what an allocator keeps.
        let _ = &self.room;
        let mut entities = Vec::with_capacity(alloc, count)?;
        for earlier in 0..count {
            entities.push(self.next_entity(earlier))?;
        }
        Ok(entities)
    }

    /// The next births, pending, of indices that have room.
    pub(crate) fn bear_reserved(&mut self, count: usize)
        requires { count ≤ length self.old.free + (self.old.room - length self.old.generations) }
        ensures born { population self.new ≡ with_births (upcoming self.old count) (population self.old) }
        ensures room { self.new.room ≡ self.old.room }
    {
        // A look at a field tells the proof what an allocator keeps.
        let _ = &self.room;
        for earlier in 0..count {
            match self.revive(true) {
                Some(_) => {}
                None => {
                    let _ = self.bear_next(true);
                }
            }
        }
    }

    /// Marks an index that lives.
    #[inline]
    pub(crate) fn mark_index(&mut self, index: Index)
        requires { lives (population self.old) index ≡ true }
        ensures marked { population self.new ≡ mark (population self.old) index }
        ensures room { self.new.room ≡ self.old.room }
    {
        let _ = self.killed.add(index);
    }
}
