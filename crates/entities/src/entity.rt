//! Entities and generations.
ghost use Rattle.std.specs.Prelude.{◌≡◌, ◌≢◌, ◌↔◌, pos, ◌<ℤ◌, IsTrue, Some, MatchOption};
ghost use Rattle.std.specs.Ordering.{nat_cmp, int_cmp, then_cmp};
ghost use Rattle.std.specs.Cmp.Rules.{comparing, hashing};
ghost use Rattle.std.proofs.Common.{rules};
ghost use Rattle.entities.specs.Equality.{hashed, same_refusal};
ghost use Rattle.entities.specs.Population.{index_of, generation_of};
ghost use Rattle.entities.specs.Texts.{generation_text, entity_text, wrong_text};

use std::cmp::Ordering;
use std::hash::{Hash, Hasher};
use std::{error, fmt};

/// An index of an entity. Indices that are born lie below `INDEX_LIMIT`.
pub type Index = u32;

/// The greatest generation. An index that dies at it is never born again.
pub const LAST_GENERATION: i32 = 2_147_483_647;

/// What a refused death or mark says it tried.
pub const DELETE: &str = "delete";

/// A generation of an index, from 1 to `LAST_GENERATION` while it lives, and the same below zero when it is dead. Never zero.
///
/// Ports `specs::world::Generation`.
#[derive(Clone, Copy, PartialEq, Eq, PartialOrd, Ord, Hash)]
pub struct Generation(pub(crate) i32);

/// One life of an index: the index and its generation. Entities are equal, ordered and hashed by the index, then the generation.
///
/// Ports `specs::Entity`.
#[derive(Clone, Copy, PartialEq, Eq, PartialOrd, Ord)]
pub struct Entity(pub(crate) Index, pub(crate) Generation);

/// An entity was refused, since it doesn't live: what was tried, the generation that its index has, and the entity.
///
/// Ports `specs::error::WrongGeneration`.
#[derive(Clone, Copy, Debug)]
pub struct WrongGeneration {
    /// What was refused, as `DELETE`.
    pub action: &'static str,
    /// The generation that the entity's index has without its pending birth: above zero if it lives, below zero if it is dead, and 1 if it
    /// has none. Never zero.
    pub actual_gen: Generation,
    /// The entity that was refused.
    pub entity: Entity,
}

impl Generation {
    ghost use Rattle.entities.specs.Population.{number_of};

    /// The number, which is not zero. Ports `Generation::id`.
    #[inline]
    pub fn id(self) -> i32
        ensures { result ≡ number_of self }
    {
        let Generation(number) = self;
        number
    }

    /// Whether an entity of this generation may live: the number is above zero. Ports `Generation::is_alive`.
    #[inline]
    pub fn is_alive(self) -> bool
        ensures { IsTrue result ↔ (pos 0 <ℤ number_of self) }
    {
        self.id() > 0
    }
}

impl Entity {
    ghost use Rattle.entities.specs.Population.{number_of};

    /// The entity of an index and a generation, or none for the generation 0. It need not live, nor ever have lived.
    #[inline]
    pub fn from_parts(index: Index, generation: i32) -> Option<Entity>
        ensures { MatchOption result (generation ≡ pos 0) (λ e. (generation ≢ pos 0) × (index_of e ≡ index) × (generation_of e ≡ generation)) }
    {
        if generation == 0 {
            return None;
        }
        Some(Entity(index, Generation(generation)))
    }

    /// The index. Ports `Entity::id`.
    #[inline]
    pub fn id(self) -> Index
        ensures { result ≡ index_of self }
    {
        self.0
    }

    /// The generation. Ports `Entity::gen`, whose name is a reserved word.
    #[inline]
    pub fn generation(self) -> Generation
        ensures { number_of result ≡ generation_of self }
    {
        self.1
    }
}

impl Hash for Entity {
    ghost hash_input = { hashed };

    ghost respects_eq = { Prim.search (hashing, rules) };

    fn hash<H: Hasher>(&self, state: &mut H) {
        let Entity(index, generation) = *self;
        index.hash(state);
        generation.hash(state);
    }
}

impl PartialEq for WrongGeneration {
    ghost eq = { same_refusal };

    ghost laws = { Prim.search (comparing, rules) depth 9 };

    fn eq(&self, other: &WrongGeneration) -> bool {
        self.action == other.action
            && self.actual_gen == other.actual_gen
            && self.entity == other.entity
    }
}

impl Eq for WrongGeneration {
    ghost laws = { Prim.search (comparing, rules) };
}

impl fmt::Debug for Generation {
    ghost debug_output = { λ g. Some (generation_text g) };

    fn fmt<W: fmt::Write>(&self, f: &mut fmt::Formatter<W>) -> fmt::Result {
        let number = self.0;
        write!(f, "Generation({number})")
    }
}

impl fmt::Debug for Entity {
    ghost debug_output = { λ e. Some (entity_text e) };

    fn fmt<W: fmt::Write>(&self, f: &mut fmt::Formatter<W>) -> fmt::Result {
        let index = self.0;
        let generation = self.1;
        write!(f, "Entity({index}, {generation:?})")
    }
}

impl fmt::Display for WrongGeneration {
    ghost output = { λ w. Some (wrong_text w) };

    fn fmt<W: fmt::Write>(&self, f: &mut fmt::Formatter<W>) -> fmt::Result {
        let action = self.action;
        let entity = self.entity;
        let actual = self.actual_gen;
        write!(
            f,
            "Tried to {action} entity {entity:?}, but the generation is no longer valid; it should be {actual:?}"
        )
    }
}

impl error::Error for WrongGeneration {}

/// The order of entities: by index, then by generation.
pub fn order(a: Entity, b: Entity) -> Ordering
    ensures { result ≡ then_cmp (λ x y. nat_cmp (index_of x) (index_of y)) (λ x y. int_cmp (generation_of x) (generation_of y)) a b }
{
    a.cmp(&b)
}
