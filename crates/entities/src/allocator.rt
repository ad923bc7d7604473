//! The allocator of entities: which indices live, with which generation, and which are to die.
ghost use Rattle.std.specs.Prelude.{◌≡◌, ◌≢◌, ◌<◌, ◌<ℤ◌, pos, ℕ, ◌↔◌, IsTrue, IfSome, option_map};
ghost use Rattle.entities.specs.Population.{no_one, IsAlive, IsMerged, generation_now, generation_merged, generation_reported, index_of, generation_of, number_of};
ghost use Rattle.entities.specs.Census.{population, has};

mod births;
mod deaths;
mod merging;
mod reserve;
mod room;

use crate::INDEX_LIMIT;
use crate::entity::{Entity, Generation, Index, WrongGeneration};
use crate::lowering::is_one_of;
pub use births::CreateError;
use hibits::BitSet;
use std::alloc::Global;
use std::marker::Model;

/// The births and deaths of indices.
///
/// An index that was born has a generation, above zero while it lives and below zero when it is dead. Dead indices that may be born
/// again stand in a stack. Room is got for many indices at once, so that a birth mostly takes none, and a death or a mark never does.
///
/// Ports `specs::world::Allocator`.
pub struct Allocator {
    // By index, the current generation, of pending births too.
    generations: Vec<i32>,
    // The dead indices that may be born again.
    free: Vec<Index>,
    alive: BitSet,
    raised: BitSet,
    killed: BitSet,
    // Each part has room for the indices below this.
    room: usize,
}

impl Drop for Allocator {
    fn drop(self) {
        let Allocator {
            generations: _generations,
            free: _free,
            alive: _alive,
            raised: _raised,
            killed: _killed,
            room: _room,
        } = self;
    }
}

impl Model for Allocator {
    ghost use Rattle.entities.specs.Census.{Census, census_code};
    ghost use Rattle.entities.specs.Kept.{IsKept};
    ghost use Rattle.std.specs.Vec.{vec_capacity};

    ghost Value = { Census };

    ghost coded = { census_code };

    ghost view = { λ a. record { generations = a.generations.items; free = a.free.items; raised = a.raised.members; killed = a.killed.members; room = a.room } };

    ghost invariant = { λ a. IsKept a.generations.items a.free.items a.room (vec_capacity a.generations) (vec_capacity a.free) a.alive a.raised a.killed };
}

impl Allocator {
    /// An allocator of which no index was born. It takes no memory.
    pub fn new(alloc: Global) -> Self
        ensures { population result ≡ no_one }
    {
        Allocator {
            generations: Vec::new(alloc),
            free: Vec::new(alloc),
            alive: BitSet::new(alloc),
            raised: BitSet::new(alloc),
            killed: BitSet::new(alloc),
            room: 0,
        }
    }

    /// The indices that live merged.
    pub fn alive(&self) -> &BitSet
        ensures { (i : ℕ) → has result.now.members i ≡ (population self.now).merged i }
    {
        &self.alive
    }

    /// The indices whose birth is pending.
    pub fn raised(&self) -> &BitSet
        ensures { (i : ℕ) → has result.now.members i ≡ (population self.now).pending i }
    {
        &self.raised
    }

    /// The indices that are marked.
    pub fn marked(&self) -> &BitSet
        ensures { (i : ℕ) → has result.now.members i ≡ (population self.now).marked i }
    {
        &self.killed
    }

    /// Whether the entity's index lives, merged or pending, with its generation. One read.
    ///
    /// Ports `Allocator::is_alive`.
    #[inline]
    pub fn is_alive(&self, e: Entity) -> bool
        ensures alive { IsTrue result ↔ IsAlive (population self.now) e }
        ensures limit { IsTrue result → index_of e < INDEX_LIMIT }
        ensures positive { IsTrue result → pos 0 <ℤ generation_of e }
    {
        is_one_of(&self.generations, e)
    }

    /// Whether the entity's index lives with its generation, and was merged.
    #[inline]
    pub fn is_merged(&self, e: Entity) -> bool
        ensures { IsTrue result ↔ IsMerged (population self.now) e }
    {
        self.is_alive(e) && !self.raised.contains(e.0)
    }

    /// The entity of an index as it lives or as it died, or, of an index that was never born, as it would first be born. Any index has one.
    ///
    /// Ports `Allocator::entity`.
    #[inline]
    pub fn entity(&self, id: Index) -> Entity
        ensures index { index_of result ≡ id }
        ensures generation { generation_of result ≡ generation_now (population self.now) id }
        ensures not_zero { generation_of result ≢ pos 0 }
    {
        let i = id as usize;
        if i < self.generations.len() {
            Entity(id, Generation(self.generations[i]))
        } else {
            Entity(id, Generation(1))
        }
    }

    /// The generation that an index has without its pending birth, or none for one never born, or pending for the first time.
    ///
    /// Ports `Allocator::generation`.
    #[inline]
    pub fn generation(&self, id: Index) -> Option<Generation>
        ensures generation { option_map (λ g. number_of g) result ≡ generation_merged (population self.now) id }
        ensures not_zero { IfSome result (λ g. number_of g ≢ pos 0) }
    {
        let i = id as usize;
        if i >= self.generations.len() {
            return None;
        }
        let g = self.generations[i];
        if !self.raised.contains(id) {
            return Some(Generation(g));
        }
        if g == 1 {
            return None;
        }
        Some(Generation(1 - g))
    }

    /// What a refusal of the entity says: the action that was refused, and the merged generation of its index, or 1 where there is none.
    ///
    /// Ports `Allocator::del_err`, for any action.
    pub fn wrong_generation(&self, action: &'static str, entity: Entity) -> WrongGeneration
        ensures entity { result.entity ≡ entity }
        ensures actual { number_of result.actual_gen ≡ generation_reported (population self.now) (index_of entity) }
        ensures not_zero { number_of result.actual_gen ≢ pos 0 }
        ensures action { result.action.now ≡ action.now }
    {
        let actual_gen = self.generation(entity.0).unwrap_or(Generation(1));
        WrongGeneration {
            action,
            actual_gen,
            entity,
        }
    }
}
