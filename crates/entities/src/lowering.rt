//! The test of a list of entities: each one's generation is lowered, so that it is dead if it comes again, and then all are raised again.
ghost use Rattle.std.specs.Prelude.{◌≡◌, ◌≤◌, ◌<◌, ◌<ℤ◌, pos, ◌↔◌, IsTrue, List, ℤ, length, take, slice_index_or};
ghost use Rattle.entities.specs.Population.{generation_of};
ghost use Rattle.std.specs.List.{All, Contains};
ghost use Rattle.entities.specs.Lowered.{IsOneOf, AreDistinctOf, IsLowered};

use crate::entity::Entity;

/// Whether an entity has the generation that its index has, above zero.
#[inline]
pub(crate) fn is_one_of(generations: &[i32], e: Entity) -> bool
    ensures one { IsTrue result ↔ IsOneOf generations.now e }
    ensures positive { IsTrue result → pos 0 <ℤ generation_of e }
{
    let i = e.0 as usize;
    i < generations.len() && e.1.0 > 0 && generations[i] == e.1.0
}

/// Lowers those of a list up to the first that is not alive, or equals an earlier one, and tells how many.
pub(crate) fn lower(generations: &mut [i32], list: &[Entity]) -> usize
    ensures within { result ≤ length list.now }
    ensures distinct { AreDistinctOf generations.old (take result list.now) }
    ensures lowered { IsLowered generations.old (take result list.now) generations.new }
    ensures stopped { result < length list.now → (d : Entity) → IsOneOf generations.old (slice_index_or list.now result d) → Contains (take result list.now) (slice_index_or list.now result d) }
{
    for (k, e) in list.iter().enumerate() {
        if !is_one_of(generations, *e) {
            return k;
        }
        generations[e.0 as usize] = -e.1.0;
    }
    list.len()
}

/// Takes back what `lower` did.
pub(crate) fn raise(generations: &mut [i32], list: &[Entity])
    requires { All (λ e. e.0 < length generations.old) list.now }
    ensures { (gs : List ℤ) → All (IsOneOf gs) list.now → IsLowered gs list.now generations.old → generations.new ≡ gs }
{
    for e in list {
        generations[e.0 as usize] = e.1.0;
    }
}
