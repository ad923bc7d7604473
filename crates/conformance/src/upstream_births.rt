//! Tests of specs on mixed births and deaths, by their names there.
use crate::asserts::holds;
use crate::calls::{
    born, delete, entity_at, fresh, is_done, maintained, mark, position, position_at, positions,
    put, selected,
};
use crate::stories::{Story, told};
use composed::Empty;
use script_slots::Position;
use specs::{CloneStorages, Command, Entity, Has, SetExpr, Storages, World};
use std::alloc::{AllocError, Global};
use std::collections::HashSet;
use std::process::Abort;
use std::test::Fail;

/// The entities that were ever born in a world, and those that nobody deleted yet.
#[derive(Drop)]
struct Nursery {
    given: HashSet<Entity>,
    living: Vec<Entity>,
}

/// Nobody was born yet.
fn empty_nursery(alloc: Global) -> Nursery {
    Nursery {
        given: HashSet::new(alloc),
        living: Vec::new(alloc),
    }
}

impl Nursery {
    /// Takes an entity up, and answers whether it was never given before.
    fn take(&mut self, e: Entity) -> bool {
        matches!(self.given.insert(e), Ok(true)) && self.living.push(e).is_ok()
    }
}

/// A birth, at once or pending. It answers whether the entity was never given before.
fn bear<S: CloneStorages>(world: &mut World<S>, nursery: &mut Nursery, birth: Command<S>) -> bool {
    match born(world, birth) {
        Some(e) => nursery.take(e),
        None => false,
    }
}

/// A birth, and a death at once.
fn bear_in_vain<S: CloneStorages>(world: &mut World<S>) -> bool {
    match born(world, Command::Create) {
        Some(e) => delete(world, e),
        None => false,
    }
}

/// Rounds of births at once and pending, in a fixed order, each with a maintain at its end.
fn bear_round<R: Abort, S: CloneStorages>(
    rt: &R,
    world: &mut World<S>,
    nursery: &mut Nursery,
    count: u32,
) {
    for _ in 0..count {
        holds!(rt; bear(world, nursery, Command::Create));
        holds!(rt; bear_in_vain(world));
        holds!(rt; bear(world, nursery, Command::CreatePending));
        holds!(rt; bear(world, nursery, Command::CreatePending));
        holds!(rt; bear(world, nursery, Command::Create));
    }
    holds!(rt; maintained(world, 0).is_ok());
}

fn bear_rounds<R: Abort, S: CloneStorages>(
    rt: &R,
    world: &mut World<S>,
    nursery: &mut Nursery,
    count: u32,
) {
    for _ in 0..10 {
        bear_round(rt, world, nursery, count);
    }
}

/// Each dies at the next maintain.
fn mark_all<R: Abort, S: Storages>(rt: &R, world: &mut World<S>, nursery: &mut Nursery) {
    for e in nursery.living.as_slice() {
        holds!(rt; mark(world, *e));
    }
    nursery.living.clear();
}

/// Each dies at once.
fn delete_all<R: Abort, S: Storages>(rt: &R, world: &mut World<S>, nursery: &mut Nursery) {
    for e in nursery.living.as_slice() {
        holds!(rt; delete(world, *e));
    }
    nursery.living.clear();
}

fn bears_and_merges<R: Abort, S: CloneStorages>(
    rt: &R,
    world: &mut World<S>,
    nursery: &mut Nursery,
) {
    bear_rounds(rt, world, nursery, 10);
    mark_all(rt, world, nursery);
    bear_rounds(rt, world, nursery, 20);
    delete_all(rt, world, nursery);
    bear_rounds(rt, world, nursery, 40);
}

/// Tells of births and deaths, mixed with merges.
pub fn merges<R: Abort, S: CloneStorages + Empty + Drop>(rt: &R, alloc: Global) {
    let mut world = fresh::<S, _>(alloc);
    let mut nursery = empty_nursery(alloc);
    bears_and_merges(rt, &mut world, &mut nursery);
}

#[test]
fn mixed_create_merge(rt: HostRuntime) -> Result<(), Fail> {
    told(&rt, rt.alloc(), Story::Mixed)
}

/// A linear congruential generator.
#[derive(Drop)]
struct Random(u32);

impl Random {
    fn next(&mut self) -> u32 {
        self.0 = self.0.wrapping_mul(214_013).wrapping_add(2_531_011);
        self.0 % 32_767
    }

    /// The number less 127, as a whole number of 8 bits.
    fn number(&mut self) -> i64 {
        i64::from(self.next().wrapping_add(1) % 256) - 128
    }
}

/// A birth with a position.
fn bear_at<R: Abort, P, S: CloneStorages + Has<Position, P>>(
    rt: &R,
    world: &mut World<S>,
    birth: Command<S>,
    number: i64,
) -> Result<(), Fail> {
    let e = born(world, birth).ok_or("a birth")?;
    holds!(rt; put(world, e, position::<P, S>(number)));
    Ok(())
}

/// The positions of the entities that have one, by index.
fn placed<P, S: CloneStorages + Has<Position, P>>(
    alloc: Global,
    world: &mut World<S>,
) -> Result<Vec<(Entity, i64)>, Fail> {
    let indices = selected(world, &SetExpr::Slot(positions::<P, S>())).ok_or("a selection")?;
    let mut found = Vec::new(alloc);
    for index in indices {
        let e = entity_at(world, index);
        let number = position_at(world, e).ok_or("a position")?;
        found.push((e, number))?;
    }
    Ok(found)
}

/// The entities whose position is no greater than any before it.
fn lowest(alloc: Global, placed: &[(Entity, i64)]) -> Result<Vec<Entity>, AllocError> {
    let mut least = i64::MAX;
    let mut found = Vec::new(alloc);
    for (e, number) in placed {
        if *number <= least {
            least = *number;
            found.push(*e)?;
        }
    }
    Ok(found)
}

/// Marks the last entities of a list.
fn mark_last<R: Abort, S: Storages>(
    rt: &R,
    world: &mut World<S>,
    mut list: Vec<Entity>,
    count: u32,
) {
    for _ in 0..count {
        if let Some(e) = list.pop() {
            holds!(rt; mark(world, e));
        }
    }
}

/// Births of entities that wait for a merge.
fn bear_some<R: Abort, P, S: CloneStorages + Has<Position, P>>(
    rt: &R,
    world: &mut World<S>,
    random: &mut Random,
    count: u32,
) -> Result<(), Fail> {
    for _ in 0..count {
        bear_at(rt, world, Command::CreatePending, random.number())?;
    }
    Ok(())
}

/// The first hundred, born at once.
fn bear_first<R: Abort, P, S: CloneStorages + Has<Position, P>>(
    rt: &R,
    world: &mut World<S>,
    random: &mut Random,
) -> Result<(), Fail> {
    for _ in 0..100 {
        bear_at(rt, world, Command::Create, random.number())?;
    }
    Ok(())
}

fn bears_in_vain<R: Abort, P, S: CloneStorages + Has<Position, P>>(
    rt: &R,
    alloc: Global,
    world: &mut World<S>,
) -> Result<(), Fail> {
    let mut random = Random(0xdead_beef);
    holds!(rt; is_done(world, Command::Register(positions::<P, S>())));
    bear_first(rt, world, &mut random)?;
    for _ in 0..100 {
        let count = random.next() % 25;
        let list = lowest(alloc, placed(alloc, world)?.as_slice())?;
        mark_last(rt, world, list, count);
        bear_some(rt, world, &mut random, count)?;
    }
    Ok(())
}

/// Tells of births and deaths before a merge.
pub fn are_stillborn<R: Abort, P, S: CloneStorages + Empty + Has<Position, P> + Drop>(
    rt: &R,
    alloc: Global,
) -> Result<(), Fail> {
    let mut world = fresh::<S, _>(alloc);
    bears_in_vain::<R, P, S>(rt, alloc, &mut world)
}

#[test]
fn stillborn_entities(rt: HostRuntime) -> Result<(), Fail> {
    told(&rt, rt.alloc(), Story::Stillborn)
}
