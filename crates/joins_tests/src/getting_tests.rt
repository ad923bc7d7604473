//! What a join gives at an entity, wherever its walk is.
use crate::asserts::{equal, gives_two, holds};
use crate::stories::{Story, told};
use crate::yard::Joined;
use entities::Entity;
use hibits::INDEX_LIMIT;
use std::alloc::Global;
use std::process::Abort;
use std::test::Fail;

// A new entity with both.
fn born<R: Abort, Y: Joined>(
    rt: &R,
    yard: &mut Y,
    first: i32,
    second: i32,
) -> Result<Entity, Fail> {
    let entity = yard.bear()?;
    let id = entity.id();
    holds!(rt; yard.put_first(id, (first, 0)));
    holds!(rt; yard.put_second(id, (second, 0)));
    Ok(entity)
}

// The only entity has both, then one, and then dies.
fn comes_and_dies<R: Abort, Y: Joined>(rt: &R, yard: &mut Y, entity: Entity) {
    equal!(rt; yard.living(), Some(entity));
    gives_two!(rt; yard.both_at(entity), Some((1, 1)));
    holds!(rt; yard.take_second(entity.id()));
    gives_two!(rt; yard.both_at(entity), None);
    holds!(rt; yard.kill(entity));
}

// Just the later of two entities of an index has what is there.
fn later_is_given<R: Abort, Y: Joined>(rt: &R, yard: &Y, entity: Entity, next: Entity) {
    equal!(rt; next.id(), entity.id());
    gives_two!(rt; yard.both_at(entity), None);
    gives_two!(rt; yard.both_at(next), Some((2, 0)));
    gives_two!(rt; yard.restricted_at(entity), None);
    gives_two!(rt; yard.restricted_at(next), Some((2, 2)));
    gives_two!(rt; yard.both_in(entity.id()), Some((2, 0)));
}

/// Just the entity of the later birth has what is at an index of which two were born.
pub fn given_by_generation<R: Abort, Y: Joined>(rt: &R, yard: &mut Y) -> Result<(), Fail> {
    let entity = born(rt, yard, 1, 1)?;
    comes_and_dies(rt, yard, entity);
    let next = born(rt, yard, 2, 0)?;
    later_is_given(rt, yard, entity, next);
    Ok(())
}

#[test]
fn getting_specific_entity_with_join(rt: HostRuntime) -> Result<(), Fail> {
    told(&rt, rt.alloc(), 0, Story::GivenByGeneration)
}

/// Two entities, of which a walk looks at the first again.
pub fn looked_midway<R: Abort, Y: Joined>(rt: &R, yard: &mut Y) -> Result<(), Fail> {
    let first = born(rt, yard, 1, 1)?;
    let _second = born(rt, yard, 2, 1)?;
    equal!(rt; yard.midway(first), Some((1, 1, 2)));
    gives_two!(rt; yard.both_next(), Some((2, 2)));
    Ok(())
}

#[test]
fn a_walk_goes_on_after_a_look(rt: HostRuntime) -> Result<(), Fail> {
    told(&rt, rt.alloc(), 0, Story::LookedMidway)
}

/// Four entities, each of which is paired with each later one.
pub fn paired<R: Abort, Y: Joined>(rt: &R, alloc: Global, yard: &mut Y) -> Result<(), Fail> {
    for number in 1..5i32 {
        let _entity = born(rt, yard, number, 0)?;
    }
    let pairs = yard.pairs(alloc)?;
    let wanted = [(1, 2), (1, 3), (1, 4), (2, 3), (2, 4), (3, 4)];
    holds!(rt; pairs.as_slice() == wanted.as_slice());
    Ok(())
}

#[test]
fn copies_of_a_walk_give_each_pair(rt: HostRuntime) -> Result<(), Fail> {
    told(&rt, rt.alloc(), 0, Story::PairsByCopies)
}

/// Three entities, of which the third has a number alone.
pub fn two_have_both<R: Abort, Y: Joined>(rt: &R, yard: &mut Y) -> Result<(), Fail> {
    let _first = born(rt, yard, 1, 0)?;
    let _second = born(rt, yard, 2, 1)?;
    let third = born(rt, yard, 3, 1)?;
    holds!(rt; yard.take_second(third.id()));
    equal!(rt; yard.two(), Some(((1, 0), (2, 1))));
    gives_two!(rt; yard.both_in(0), Some((1, 0)));
    gives_two!(rt; yard.both_in(1), Some((2, 1)));
    gives_two!(rt; yard.both_in(2), None);
    gives_two!(rt; yard.both_in(INDEX_LIMIT), None);
    equal!(rt; yard.reads(), 10);
    Ok(())
}

#[test]
fn join_two_components(rt: HostRuntime) -> Result<(), Fail> {
    told(&rt, rt.alloc(), 0, Story::TwoHaveBoth)
}

/// A storage without components gives nothing, nor one of two that has one alone; the entity stands beside its components.
pub fn joined_from_none_to_one<R: Abort, Y: Joined>(rt: &R, yard: &mut Y) -> Result<(), Fail> {
    equal!(rt; yard.three(), None);
    let first = born(rt, yard, 1, 1)?;
    holds!(rt; yard.take_second(first.id()));
    equal!(rt; yard.three(), None);
    let second = born(rt, yard, 2, 0)?;
    equal!(rt; yard.three(), Some((second, 2, 0, true)));
    Ok(())
}

#[test]
fn a_join_gives_entities_beside_their_components(rt: HostRuntime) -> Result<(), Fail> {
    told(&rt, rt.alloc(), 0, Story::JoinedFromNoneToOne)
}

/// Ten entities with numbers: what a join of their storage and of its absence gives.
pub fn beside_its_absence<R: Abort, Y: Joined>(rt: &R, yard: &mut Y) -> Result<(), Fail> {
    for _ in 0..10u32 {
        let _entity = born(rt, yard, 1, 1)?;
    }
    holds!(rt; yard.is_beside_no_absence());
    Ok(())
}

#[test]
fn a_storage_and_its_absence_share_nothing(rt: HostRuntime) -> Result<(), Fail> {
    told(&rt, rt.alloc(), 0, Story::BesideItsAbsence)
}
