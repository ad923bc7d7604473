//! The calls of a yard's joins, one walk in each.
use crate::worlds::{Numbered, World};
use crate::yard::Joined;
use entities::{EntitiesRes, Entity};
use hibits::{BitSet, BitSetLike};
use joins::{Join, JoinIter, Lookup, RepeatableJoin, RestrictedStorage};
use std::alloc::{AllocError, Global};
use storages::{MaskedStorage, UnprotectedStorage};

/// The pairs of numbers, by a copy of the walk at each step.
fn pairs<N: Numbered>(
    alloc: Global,
    storage: &MaskedStorage<N>,
) -> Result<Vec<(i32, i32)>, AllocError>
where
    N::Storage: UnprotectedStorage<N>,
{
    let mut list = Vec::new(alloc);
    let mut walk = storage.join();
    while let Some(one) = walk.next() {
        let mut rest = walk.clone()?;
        while let Some(other) = rest.next() {
            list.push((one.number(), other.number()))?;
        }
    }
    Ok(list)
}

/// The sum of the numbers at the indices of a set.
fn sum_at<N: Numbered>(storage: &MaskedStorage<N>, set: &BitSet) -> i32
where
    N::Storage: UnprotectedStorage<N>,
{
    let mut sum: i32 = 0;
    let mut walk = (storage, set).join();
    while let Some((found, _)) = walk.next() {
        sum = sum.wrapping_add(found.number());
    }
    sum
}

/// Where a join is asked.
#[derive(Clone, Copy)]
enum At {
    Entity(Entity),
    Index(u32),
}

/// What a join gives at an entity or an index. A call at a known kind of join is slow to prove, so this one and those below are of whatever kind.
fn found_at<J: RepeatableJoin>(join: J, at: At, entities: &EntitiesRes) -> Option<J::Type>
where
    J::Mask: BitSetLike,
    J::Value: Lookup<J::Type>,
{
    let walk = JoinIter::new(join);
    match at {
        At::Entity(e) => walk.get(e, entities),
        At::Index(id) => walk.get_unchecked(id),
    }
}

/// What a join of both storages gives there: the one call of `found_at` for two of them.
fn both_found<A: Numbered, B: Numbered>(
    first: &MaskedStorage<A>,
    second: &MaskedStorage<B>,
    entities: &EntitiesRes,
    at: At,
) -> Option<(i32, i32)>
where
    A::Storage: UnprotectedStorage<A>,
    B::Storage: UnprotectedStorage<B>,
{
    match found_at((first, second), at, entities) {
        Some((first, second)) => Some((first.number(), second.number())),
        None => None,
    }
}

/// The first three that a join gives.
fn first_three<J: Join>(join: J) -> (Option<J::Type>, Option<J::Type>, Option<J::Type>)
where
    J::Type: Drop,
{
    let mut walk = JoinIter::new(join);
    let first = walk.next();
    let second = walk.next();
    (first, second, walk.next())
}

/// The first that a join gives.
pub fn first_of<J: Join>(join: J) -> Option<J::Type>
where
    J::Type: Drop,
{
    JoinIter::new(join).next()
}

/// How many words a walk has read after one step.
fn reads_of_one<J: Join>(join: J) -> u64
where
    J::Type: Drop,
{
    let mut walk = JoinIter::new(join);
    let _ = walk.next();
    walk.reads()
}

impl<A: Numbered, B: Numbered, C: Numbered> Joined for World<A, B, C>
where
    A::Storage: UnprotectedStorage<A>,
    B::Storage: UnprotectedStorage<B>,
    C::Storage: UnprotectedStorage<C>,
{
    fn both_at(&self, e: Entity) -> Option<(i32, i32)> {
        both_found(&self.first, &self.second, &self.entities, At::Entity(e))
    }

    fn both_in(&self, id: u32) -> Option<(i32, i32)> {
        both_found(&self.first, &self.second, &self.entities, At::Index(id))
    }

    fn restricted_at(&self, e: Entity) -> Option<(i32, i32)> {
        let restricted = RestrictedStorage::new(&self.entities, &self.first);
        let walk = JoinIter::new(&restricted);
        let at = walk.get(e, &self.entities)?.get_unchecked().number();
        let again = walk.get_unchecked(e.id())?.get(e)?.number();
        Some((at, again))
    }

    fn midway(&self, e: Entity) -> Option<(i32, i32, i32)> {
        let mut walk = (&self.first).join();
        let first = walk.next()?.number();
        let there = walk.get(e, &self.entities)?.number();
        let second = walk.next()?.number();
        Some((first, there, second))
    }

    fn both_next(&self) -> Option<(i32, i32)> {
        let mut walk = (&self.first).join();
        let _first = walk.next()?;
        let mut copy = walk.clone().ok()?;
        let here = walk.next()?.number();
        Some((here, copy.next()?.number()))
    }

    fn pairs(&self, alloc: Global) -> Result<Vec<(i32, i32)>, AllocError> {
        pairs(alloc, &self.first)
    }

    fn living(&self) -> Option<Entity> {
        first_of(&self.entities)
    }

    fn reads(&self) -> u64 {
        reads_of_one((&self.first, &self.second))
    }

    fn two(&self) -> Option<((i32, i32), (i32, i32))> {
        match first_three((&self.first, &self.second)) {
            (Some((a, b)), Some((c, d)), None) => {
                Some(((a.number(), b.number()), (c.number(), d.number())))
            }
            _ => None,
        }
    }

    fn three(&self) -> Option<(Entity, i32, i32, bool)> {
        match first_three((&self.entities, &self.first, &self.second)) {
            (Some((entity, first, second)), next, _) => {
                Some((entity, first.number(), second.number(), next.is_none()))
            }
            _ => None,
        }
    }

    fn sum_at(&self, set: &BitSet) -> i32 {
        sum_at(&self.first, set)
    }
}
