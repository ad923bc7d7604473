//! Worlds, by their calls.
use crate::asserts::{equal, holds};
use crate::callers::{born_in_a_phase, is_gone};
use crate::calls::{
    born, delete, die, does, entity, fresh, health, healths, is_there, lives, mark, position,
    positions, raised, run, selects,
};
use crate::phases::third_pass_is_refused;
use crate::stories::{self, told};
use composed::Empty;
use script_slots::{Health, Position};
use specs::{
    CloneStorages, Command, DeleteError, Entity, Has, Refusal, Reply, SetExpr, Storages, World,
};
use std::alloc::{AllocError, Global};
use std::process::Abort;
use std::test::Fail;

fn bears_again<R: Abort, S: CloneStorages>(rt: &R, world: &mut World<S>) -> Result<(), Fail> {
    let (first, second) = (entity(0, 1)?, entity(0, 2)?);
    equal!(rt; born(world, Command::Create), Some(first));
    holds!(rt; delete(world, first));
    holds!(rt; !lives(world, first));
    equal!(rt; born(world, Command::Create), Some(second));
    Ok(())
}

/// Six commands, of which the last is refused.
fn six<P, H, S: Storages + Has<Position, P> + Has<Health, H>>(
    alloc: Global,
    e: Entity,
) -> Result<Vec<Command<S>>, AllocError> {
    let mut list = Vec::new(alloc);
    list.push(Command::Register(positions::<P, S>()))?;
    list.push(Command::Create)?;
    list.push(Command::Insert(e, position::<P, S>(5)))?;
    list.push(Command::Select(SetExpr::Slot(positions::<P, S>())))?;
    list.push(Command::Count(positions::<P, S>()))?;
    list.push(Command::Get(healths::<H, S>(), e))?;
    Ok(list)
}

fn are_the_six<R: Abort, V>(rt: &R, replies: &[Reply<V>]) {
    assert_eq!(rt; replies.len(), 6);
    holds!(rt; matches!(&replies[0], Reply::Done));
    holds!(rt; matches!(&replies[1], Reply::Entity(_)));
    holds!(rt; matches!(&replies[2], Reply::Value(None)));
    holds!(rt; matches!(&replies[3], Reply::Indices(list) if list.as_slice() == [0].as_slice()));
    holds!(rt; matches!(&replies[4], Reply::Count(1)));
    holds!(rt; matches!(&replies[5], Reply::Refused(Refusal::Unregistered)));
}

fn answers_six<R: Abort, P, H, S: CloneStorages + Has<Position, P> + Has<Health, H>>(
    rt: &R,
    alloc: Global,
    world: &mut World<S>,
) -> Result<(), Fail> {
    let replies = run(world, six(alloc, entity(0, 1)?)?)?;
    are_the_six(rt, replies.as_slice());
    Ok(())
}

fn answers_nothing<R: Abort, S: CloneStorages>(
    rt: &R,
    alloc: Global,
    world: &mut World<S>,
) -> Result<(), Fail> {
    let replies = run(world, Vec::new(alloc))?;
    holds!(rt; replies.is_empty());
    Ok(())
}

/// Two merged entities, of which the first has a position and both have a health, and a pending one.
fn populate<P, H, S: CloneStorages + Has<Position, P> + Has<Health, H>>(
    world: &mut World<S>,
) -> Result<(), Fail> {
    let (e, f) = (entity(0, 1)?, entity(1, 1)?);
    let _ = does(world, Command::Register(positions::<P, S>()));
    let _ = does(world, Command::Register(healths::<H, S>()));
    let _ = does(world, Command::Create);
    let _ = does(world, Command::Create);
    let _ = does(world, Command::CreatePending);
    let _ = does(world, Command::Insert(e, position::<P, S>(5)));
    let _ = does(world, Command::Insert(e, health::<H, S>(6)));
    let _ = does(world, Command::Insert(f, health::<H, S>(7)));
    Ok(())
}

/// Whether a selection is refused since a slot is not registered.
fn is_unregistered<S: Storages>(world: &World<S>, set: &SetExpr<S::Slot>) -> bool {
    matches!(world.select(set), Err(Refusal::Unregistered))
}

fn refuses_positions<R: Abort, P, S: Storages + Has<Position, P>>(rt: &R, world: &World<S>) {
    holds!(rt; is_unregistered(world, &SetExpr::Slot(positions::<P, S>())));
}

fn living_and_slots<R: Abort, P, H, S: CloneStorages + Has<Position, P> + Has<Health, H>>(
    rt: &R,
    world: &mut World<S>,
) -> Result<(), Fail> {
    populate(world)?;
    holds!(rt; selects(world, &SetExpr::Living, &[0, 1, 2]));
    holds!(rt; selects(world, &SetExpr::Slot(positions::<P, S>()), &[0]));
    Ok(())
}

/// The sets of two slots.
fn two_slots<K: Copy>(
    alloc: Global,
    position: K,
    health: K,
) -> Result<(Box<SetExpr<K>>, Box<SetExpr<K>>), AllocError> {
    let position = Box::new(alloc, SetExpr::Slot(position))?;
    let health = Box::new(alloc, SetExpr::Slot(health))?;
    Ok((position, health))
}

fn conjunction<K: Copy>(alloc: Global, position: K, health: K) -> Result<SetExpr<K>, AllocError> {
    let (position, health) = two_slots(alloc, position, health)?;
    Ok(SetExpr::And(position, health))
}

fn disjunction<K: Copy>(alloc: Global, position: K, health: K) -> Result<SetExpr<K>, AllocError> {
    let (position, health) = two_slots(alloc, position, health)?;
    Ok(SetExpr::Or(position, health))
}

fn exclusive<K: Copy>(alloc: Global, position: K, health: K) -> Result<SetExpr<K>, AllocError> {
    let (position, health) = two_slots(alloc, position, health)?;
    Ok(SetExpr::Xor(position, health))
}

/// What has no position, but a health.
fn complement<K: Copy>(alloc: Global, position: K, health: K) -> Result<SetExpr<K>, AllocError> {
    let (position, health) = two_slots(alloc, position, health)?;
    let bare = Box::new(alloc, SetExpr::Not(health))?;
    let either = Box::new(alloc, SetExpr::Or(position, bare))?;
    Ok(SetExpr::Not(either))
}

fn living_without_position<K: Copy>(alloc: Global, position: K) -> Result<SetExpr<K>, AllocError> {
    let position = Box::new(alloc, SetExpr::Slot(position))?;
    let living = Box::new(alloc, SetExpr::Living)?;
    Ok(SetExpr::Xor(living, position))
}

/// The first entity has both components, and the second the health.
fn selects_each<R: Abort, P, H, S: CloneStorages + Has<Position, P> + Has<Health, H>>(
    rt: &R,
    alloc: Global,
    world: &mut World<S>,
) -> Result<(), Fail> {
    populate(world)?;
    let (one, other) = (positions::<P, S>(), healths::<H, S>());
    holds!(rt; selects(world, &conjunction(alloc, one, other)?, &[0]));
    holds!(rt; selects(world, &disjunction(alloc, one, other)?, &[0, 1]));
    holds!(rt; selects(world, &exclusive(alloc, one, other)?, &[1]));
    holds!(rt; selects(world, &complement(alloc, one, other)?, &[1]));
    holds!(rt; selects(world, &living_without_position(alloc, one)?, &[1, 2]));
    Ok(())
}

/// The entity for which the deletion of a list is refused, and the generation that it should have.
fn refused_for<S: Storages>(world: &mut World<S>, list: &[Entity]) -> Option<(Entity, i32)> {
    match world.delete_entities(list) {
        Err(DeleteError::WrongGeneration(wrong)) => Some((wrong.entity, wrong.actual_gen.id())),
        _ => None,
    }
}

/// Deletes a list, and answers whether it was not refused.
fn delete_list<S: Storages>(world: &mut World<S>, list: &[Entity]) -> bool {
    world.delete_entities(list).is_ok()
}

fn refuses_the_first_stale<R: Abort, S: CloneStorages>(
    rt: &R,
    world: &mut World<S>,
) -> Result<(), Fail> {
    let (e, f) = (entity(0, 1)?, entity(1, 1)?);
    equal!(rt; born(world, Command::Create), Some(e));
    equal!(rt; born(world, Command::Create), Some(f));
    equal!(rt; refused_for(world, &[e, f, e]), Some((e, 1)));
    holds!(rt; lives(world, e));
    holds!(rt; lives(world, f));
    holds!(rt; delete_list(world, &[]));
    Ok(())
}

fn ends_at_maintain<R: Abort, S: Storages>(rt: &R, world: &mut World<S>) -> Result<(), Fail> {
    let e = raised(world)?;
    holds!(rt; is_there(world, e));
    holds!(rt; !lives(world, e));
    holds!(rt; mark(world, e));
    holds!(rt; die(world, &[e]));
    holds!(rt; !is_there(world, e));
    let again = raised(world)?;
    equal!(rt; again, entity(0, 2)?);
    holds!(rt; die(world, &[]));
    holds!(rt; lives(world, again));
    Ok(())
}

fn takes_up_a_phase<R: Abort, P, H, S: CloneStorages + Has<Position, P> + Has<Health, H>>(
    rt: &R,
    alloc: Global,
    world: &mut World<S>,
) -> Result<(), Fail> {
    populate(world)?;
    let (doomed, given) = (entity(1, 1)?, entity(3, 1)?);
    equal!(rt; born_in_a_phase(alloc, world, doomed), Some(given));
    holds!(rt; is_there(world, given));
    holds!(rt; is_gone(world, given));
    holds!(rt; lives(world, doomed));
    holds!(rt; die(world, &[doomed]));
    holds!(rt; lives(world, given));
    holds!(rt; !lives(world, doomed));
    holds!(rt; selects(world, &SetExpr::Slot(healths::<H, S>()), &[0]));
    Ok(())
}

/// What is told of a world.
#[derive(Clone, Copy)]
pub enum Story {
    BearsAgain,
    AnswersSix,
    AnswersNothing,
    RefusesPositions,
    LivingAndSlots,
    SelectsEach,
    RefusesTheFirstStale,
    EndsAtMaintain,
    TakesUpAPhase,
    ThirdPassIsRefused,
}

fn tell<R: Abort, P, H, S: CloneStorages + Has<Position, P> + Has<Health, H>>(
    rt: &R,
    alloc: Global,
    story: Story,
    world: &mut World<S>,
) -> Result<(), Fail> {
    match story {
        Story::BearsAgain => bears_again(rt, world),
        Story::AnswersSix => answers_six(rt, alloc, world),
        Story::AnswersNothing => answers_nothing(rt, alloc, world),
        Story::RefusesPositions => {
            refuses_positions(rt, world);
            Ok(())
        }
        Story::LivingAndSlots => living_and_slots(rt, world),
        Story::SelectsEach => selects_each(rt, alloc, world),
        Story::RefusesTheFirstStale => refuses_the_first_stale(rt, world),
        Story::EndsAtMaintain => ends_at_maintain(rt, world),
        Story::TakesUpAPhase => takes_up_a_phase(rt, alloc, world),
        Story::ThirdPassIsRefused => third_pass_is_refused(rt, alloc, world),
    }
}

/// Tells a story of a new world.
pub fn tell_of_new<
    R: Abort,
    P,
    H,
    S: CloneStorages + Empty + Has<Position, P> + Has<Health, H> + Drop,
>(rt: &R, alloc: Global, story: Story) -> Result<(), Fail> {
    let mut world = fresh::<S, _>(alloc);
    tell(rt, alloc, story, &mut world)
}

#[test]
fn a_deleted_index_is_born_again(rt: HostRuntime) -> Result<(), Fail> {
    told(&rt, rt.alloc(), stories::Story::Worlds(Story::BearsAgain))
}

#[test]
fn a_run_answers_each_command(rt: HostRuntime) -> Result<(), Fail> {
    told(&rt, rt.alloc(), stories::Story::Worlds(Story::AnswersSix))
}

#[test]
fn a_run_of_nothing_has_no_reply(rt: HostRuntime) -> Result<(), Fail> {
    told(
        &rt,
        rt.alloc(),
        stories::Story::Worlds(Story::AnswersNothing),
    )
}

#[test]
fn a_slot_that_is_not_registered_is_refused(rt: HostRuntime) -> Result<(), Fail> {
    told(
        &rt,
        rt.alloc(),
        stories::Story::Worlds(Story::RefusesPositions),
    )
}

#[test]
fn the_living_are_merged_and_pending(rt: HostRuntime) -> Result<(), Fail> {
    told(
        &rt,
        rt.alloc(),
        stories::Story::Worlds(Story::LivingAndSlots),
    )
}

#[test]
fn each_expression_selects_its_set(rt: HostRuntime) -> Result<(), Fail> {
    told(&rt, rt.alloc(), stories::Story::Worlds(Story::SelectsEach))
}

#[test]
fn a_refused_list_names_the_first_that_is_stale(rt: HostRuntime) -> Result<(), Fail> {
    told(
        &rt,
        rt.alloc(),
        stories::Story::Worlds(Story::RefusesTheFirstStale),
    )
}

#[test]
fn marks_and_pending_births_end_at_maintain(rt: HostRuntime) -> Result<(), Fail> {
    told(
        &rt,
        rt.alloc(),
        stories::Story::Worlds(Story::EndsAtMaintain),
    )
}

#[test]
fn what_a_phase_left_is_taken_up_by_maintain(rt: HostRuntime) -> Result<(), Fail> {
    told(
        &rt,
        rt.alloc(),
        stories::Story::Worlds(Story::TakesUpAPhase),
    )
}

#[test]
fn a_phase_of_two_entities_refuses_the_third_pass(rt: HostRuntime) -> Result<(), Fail> {
    told(
        &rt,
        rt.alloc(),
        stories::Story::Worlds(Story::ThirdPassIsRefused),
    )
}
