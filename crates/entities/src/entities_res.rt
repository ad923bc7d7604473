//! The entities of a world.
ghost use Rattle.std.specs.Prelude.{◌≡◌, ℕ, ◌+◌, ◌-◌, ◌≤◌, ◌≢◌, ◌<ℤ◌, ◌↔◌, pos, max, true, false, length, slice_get, Some, ◌<◌, IsTrue, IfOk, IfErr, IsOk, OnOk, OnErr};
ghost use Rattle.std.specs.Borrow.{sem, RestsIfErr};
ghost use Rattle.std.specs.FinSet as set;
ghost use Rattle.entities.specs.Population.{no_one, MayBeBorn, NoneFree, NoneUnused, born_pending, mark, lives, IsAlive, generation_now, generation_reported, index_of, generation_of, number_of};
ghost use Rattle.entities.specs.declared.entity.Entity.{Entity};
ghost use Rattle.entities.specs.Census.{population};
ghost use Rattle.entities.specs.Kept.{GrowsByNeed, SameBut};
ghost use Rattle.entities.specs.Upcoming.{upcoming};
ghost use Rattle.entities.specs.Phase.Reserve.{IsReserve, givable, with_births};

use crate::allocator::{Allocator, CreateError};
use crate::create_iter::CreateIterAtomic;
use crate::entity::{DELETE, Entity, Index, WrongGeneration};
use crate::res_builder::EntityResBuilder;
use hibits::{BitSet, BitSetOr, INDEX_LIMIT};
use std::alloc::{AllocError, Global};
use std::marker::Model;

/// The entities of a world. Births are pending and deaths are marks, which its allocator's `merge` takes up.
///
/// Ports `specs::world::EntitiesRes`; the calls that change it take it alone (`&mut`), or go through a shared phase.
pub struct EntitiesRes {
    allocator: Allocator,
}

impl Drop for EntitiesRes {
    fn drop(self) {
        let EntitiesRes {
            allocator: _allocator,
        } = self;
    }
}

impl Model for EntitiesRes {
    ghost use Rattle.entities.specs.Census.{Census, census_code};

    ghost Value = { Census };

    ghost coded = { census_code };

    ghost view = { λ r. r.allocator };
}

impl EntitiesRes {
    ghost use Rattle.entities.specs.Lending.{LendsAllocator, BuilderRests, lent_to_builder, entity_built};
    ghost use Rattle.entities.specs.Creates.{lent_to, has_failed};

    /// The entities of a new world: none. It takes no memory.
    pub fn new(alloc: Global) -> Self
        ensures { population result ≡ no_one }
    {
        EntitiesRes {
            allocator: Allocator::new(alloc),
        }
    }

    /// The allocator, for births and deaths at once, and for `merge`.
    pub fn alloc_mut(&mut self) -> &mut Allocator
        ensures* lends { sem 𝓛 (LendsAllocator self.entry result) }
        ensures value { result.now ≡ self.old }
    {
        &mut self.allocator
    }

    /// Makes an entity, whose birth is pending until the next `merge`. In the mean it takes constant time; a refusal changes nothing.
    ///
    /// Ports `EntitiesRes::create`.
    #[inline]
    pub fn create(&mut self) -> Result<Entity, CreateError>
        ensures may { IfOk result (λ e. MayBeBorn (population self.old) (index_of e)) }
        ensures below { IfOk result (λ e. index_of e < INDEX_LIMIT) }
        ensures generation { IfOk result (λ e. generation_of e ≡ pos ((population self.old).births (index_of e) + 1)) }
        ensures born { IfOk result (λ e. population self.new ≡ born_pending (population self.old) (index_of e)) }
        ensures limit { result ≡ Err CreateError.IndexLimit → NoneFree (population self.old) × NoneUnused (population self.old) }
        ensures reuses { OnErr result (NoneFree (population self.old)) }
        ensures memory { result ≡ Err CreateError.OutOfMemory → NoneUnused (population self.old) → ⊥ }
        ensures err { OnErr result (self.new ≡ self.old) }
        ensures had_room { length self.old.generations < self.old.room → IsOk result }
        ensures room { self.old.room ≤ self.new.room }
        ensures takes { GrowsByNeed self.old self.new }
    {
        self.allocator.allocate_atomic()
    }

    /// Makes entities as they are asked for, by `create`.
    ///
    /// Ports `EntitiesRes::create_iter`.
    pub fn create_iter(&mut self) -> CreateIterAtomic<'_>
        ensures same_reference { (lent_to result).ghost_name ≡ self.entry.ghost_name }
        ensures entities { (lent_to result).now ≡ self.old }
        ensures begun { has_failed result ≡ false }
    {
        CreateIterAtomic {
            entities: self,
            ended: false,
        }
    }

    /// Makes an entity by `create`, and a builder of it. Dropped unbuilt, the builder marks the entity.
    ///
    /// Ports `EntitiesRes::build_entity`.
    pub fn build_entity(&mut self) -> Result<EntityResBuilder<'_>, CreateError>
        ensures* rests { sem 𝓛 (BuilderRests self.entry result) }
        ensures same_reference { IfOk result (λ b. (lent_to_builder b).ghost_name ≡ self.entry.ghost_name) }
        ensures may { IfOk result (λ b. MayBeBorn (population self.old) (index_of (entity_built b))) }
        ensures below { IfOk result (λ b. index_of (entity_built b) < INDEX_LIMIT) }
        ensures generation { IfOk result (λ b. generation_of (entity_built b) ≡ pos ((population self.old).births (index_of (entity_built b)) + 1)) }
        ensures born { IfOk result (λ b. population (lent_to_builder b).now ≡ born_pending (population self.old) (index_of (entity_built b))) }
        ensures alive { IfOk result (λ b. IsAlive (population (lent_to_builder b).now) (entity_built b)) }
        ensures limit { IfErr result (λ e. e ≡ CreateError.IndexLimit → NoneFree (population self.old) × NoneUnused (population self.old)) }
        ensures reuses { OnErr result (NoneFree (population self.old)) }
        ensures memory { IfErr result (λ e. e ≡ CreateError.OutOfMemory → NoneUnused (population self.old) → ⊥) }
        ensures had_room { length self.old.generations < self.old.room → IsOk result }
        ensures room { IfOk result (λ b. self.old.room ≤ (lent_to_builder b).now.room) }
        ensures takes { IfOk result (λ b. GrowsByNeed self.old (lent_to_builder b).now) }
    {
        let entity = self.create()?;
        Ok(EntityResBuilder {
            entities: self,
            entity,
        })
    }

    /// Marks an entity that lives, merged or pending: it dies at the next `merge`. One that doesn't live is refused, and nothing changes.
    ///
    /// Ports `EntitiesRes::delete`.
    pub fn delete(&mut self, e: Entity) -> Result<(), WrongGeneration>
        ensures alive { OnOk result (IsAlive (population self.old) e) }
        ensures marked { OnOk result (population self.new ≡ mark (population self.old) (index_of e)) }
        ensures refused { IfErr result (λ w. (w.entity ≡ e) × (IsAlive (population self.old) e → ⊥)) }
        ensures actual { IfErr result (λ w. number_of w.actual_gen ≡ generation_reported (population self.old) (index_of w.entity)) }
        ensures action { IfErr result (λ w. w.action.now ≡ DELETE.now) }
        ensures err { OnErr result (self.new ≡ self.old) }
        ensures room { self.new.room ≡ self.old.room }
    {
        self.allocator.kill_atomic(e)
    }

    /// Whether the entity's index lives, merged or pending, with its generation. One read.
    ///
    /// Ports `EntitiesRes::is_alive`.
    #[inline]
    pub fn is_alive(&self, e: Entity) -> bool
        ensures alive { IsTrue result ↔ IsAlive (population self.now) e }
        ensures limit { IsTrue result → index_of e < INDEX_LIMIT }
        ensures positive { IsTrue result → pos 0 <ℤ generation_of e }
    {
        self.allocator.is_alive(e)
    }

    /// The entity of an index as it lives or as it died, or, of an index that was never born, as it would first be born.
    ///
    /// Ports `EntitiesRes::entity`.
    #[inline]
    pub fn entity(&self, id: Index) -> Entity
        ensures index { index_of result ≡ id }
        ensures generation { generation_of result ≡ generation_now (population self.now) id }
        ensures not_zero { generation_of result ≢ pos 0 }
    {
        self.allocator.entity(id)
    }

    /// What a refusal of the entity says: the action that was refused, and the merged generation of its index, or 1 where there is none.
    pub fn wrong_generation(&self, action: &'static str, entity: Entity) -> WrongGeneration
        ensures entity { result.entity ≡ entity }
        ensures actual { number_of result.actual_gen ≡ generation_reported (population self.now) (index_of entity) }
        ensures not_zero { number_of result.actual_gen ≢ pos 0 }
        ensures action { result.action.now ≡ action.now }
    {
        self.allocator.wrong_generation(action, entity)
    }

    /// The indices that live merged.
    pub fn alive(&self) -> &BitSet
        ensures { (i : ℕ) → set.contains result.now.members i ≡ (population self.now).merged i }
    {
        self.allocator.alive()
    }

    /// The indices whose birth is pending.
    pub fn raised(&self) -> &BitSet
        ensures { (i : ℕ) → set.contains result.now.members i ≡ (population self.now).pending i }
    {
        self.allocator.raised()
    }

    /// The indices that are marked.
    pub fn marked(&self) -> &BitSet
        ensures { (i : ℕ) → set.contains result.now.members i ≡ (population self.now).marked i }
    {
        self.allocator.marked()
    }

    /// The indices that live, merged or pending, as a mask.
    pub fn living(&self) -> BitSetOr<&BitSet, &BitSet>
        ensures merged { (i : ℕ) → set.contains result.0.now.members i ≡ (population self.now).merged i }
        ensures pending { (i : ℕ) → set.contains result.1.now.members i ≡ (population self.now).pending i }
    {
        BitSetOr(self.allocator.alive(), self.allocator.raised())
    }

    /// How many indices were born.
    pub(crate) fn born(&self) -> usize
        ensures born { result ≡ length self.now.generations }
        ensures limit { result ≤ INDEX_LIMIT }
        ensures left { givable (population self.now) ≡ length self.now.free + (INDEX_LIMIT - length self.now.generations) }
    {
        self.allocator.born()
    }

    /// How many indices are free.
    pub(crate) fn free_count(&self) -> usize
        ensures { result ≡ length self.now.free }
    {
        self.allocator.free_count()
    }

    /// Room for the indices below `end`, for their births, marks and deaths.
    pub(crate) fn make_room(&mut self, end: usize) -> Result<(), AllocError>
        requires { end ≤ INDEX_LIMIT }
        ensures same { SameBut self.old self.new }
        ensures ok { OnOk result (end ≤ self.new.room) }
        ensures err { OnErr result (self.new ≡ self.old) }
        ensures grows { self.old.room ≤ self.new.room }
        ensures bound { self.new.room ≤ max self.old.room end }
    {
        self.allocator.make_room(end)
    }

    /// The entities that the next births make.
    pub(crate) fn upcoming(&self, alloc: Global, count: usize) -> Result<Vec<Entity>, AllocError>
        requires { length self.now.generations + (count - length self.now.free) ≤ INDEX_LIMIT }
        ensures items { IfOk result (λ v. v.items ≡ upcoming self.now count) }
        ensures reserve { IfOk result (λ v. IsReserve (population self.now) v.items) }
        ensures revived { IfOk result (λ v. (k : ℕ) (e : Entity) → slice_get v.items k ≡ Some e → k < length self.now.free → index_of e < length self.now.generations) }
    {
        self.allocator.upcoming(alloc, count)
    }

    /// The next births, pending, of indices that have room.
    pub(crate) fn bear_reserved(&mut self, count: usize)
        requires { count ≤ length self.old.free + (self.old.room - length self.old.generations) }
        ensures born { population self.new ≡ with_births (upcoming self.old count) (population self.old) }
        ensures room { self.new.room ≡ self.old.room }
    {
        self.allocator.bear_reserved(count);
    }

    /// Marks an index that lives.
    #[inline]
    pub(crate) fn mark_index(&mut self, index: Index)
        requires { lives (population self.old) index ≡ true }
        ensures marked { population self.new ≡ mark (population self.old) index }
        ensures room { self.new.room ≡ self.old.room }
    {
        self.allocator.mark_index(index);
    }
}
