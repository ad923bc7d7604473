//! Jobs that a world does when it is maintained.
use crate::asserts::{equal, holds};
use crate::calls::{
    append_one, born, done, entity, execute, fresh, has, health, healths, insert_all_later,
    is_done, position, position_at, positions, queue, register_both, remove_later,
};
use crate::stories::{self, told};
use composed::Empty;
use script_slots::{Health, Position, ScriptJob};
use specs::{CloneStorages, Command, Entity, Has, Job, Storages, World, WorldJob};
use std::alloc::{AllocError, Global};
use std::process::Abort;
use std::test::Fail;

type Busy<S> = World<S, ScriptJob>;

/// Two entities, and storages for both component types.
fn begin<R: Abort, P, H, S: CloneStorages + Has<Position, P> + Has<Health, H>>(
    rt: &R,
    world: &mut Busy<S>,
) -> Result<(Entity, Entity), Fail> {
    let (first, second) = (entity(0, 1)?, entity(1, 1)?);
    holds!(rt; register_both(world));
    equal!(rt; born(world, Command::Create), Some(first));
    equal!(rt; born(world, Command::Create), Some(second));
    Ok((first, second))
}

fn at<P, S: Storages + Has<Position, P>>(e: Entity, x: i64) -> Job<S, ScriptJob> {
    Job::Insert(e, position::<P, S>(x))
}

/// How many jobs wait.
fn waiting<S: Storages, J: WorldJob<S>>(world: &World<S, J>) -> usize {
    world.waiting()
}

fn repeats<R: Abort, S: Storages>(rt: &R, world: &mut Busy<S>) {
    holds!(rt; execute(world, ScriptJob::Again));
    equal!(rt; done(world, 3), Some((3, 0, 1)));
    equal!(rt; waiting(world), 1);
    equal!(rt; done(world, 0), Some((0, 0, 1)));
}

/// The lists of two workers, of which the second has the last word.
fn appends<R: Abort, P, H, S: CloneStorages + Has<Position, P> + Has<Health, H>>(
    rt: &R,
    alloc: Global,
    world: &mut Busy<S>,
) -> Result<(), Fail> {
    let (e, _) = begin(rt, world)?;
    holds!(rt; append_one(alloc, world, at(e, 1)));
    holds!(rt; append_one(alloc, world, at(e, 2)));
    equal!(rt; position_at(world, e), None);
    equal!(rt; done(world, 9), Some((2, 0, 0)));
    equal!(rt; position_at(world, e), Some(2));
    Ok(())
}

/// Three values, each for its entity.
fn three<V: Drop>(
    alloc: Global,
    first: (Entity, V),
    second: (Entity, V),
    third: (Entity, V),
) -> Result<Vec<(Entity, V)>, AllocError> {
    let mut pairs = Vec::new(alloc);
    pairs.push(first)?;
    pairs.push(second)?;
    pairs.push(third)?;
    Ok(pairs)
}

/// The first pairs of a list are of entities that are alive.
fn all_at_once<R: Abort, P, H, S: CloneStorages + Has<Position, P> + Has<Health, H>>(
    rt: &R,
    alloc: Global,
    world: &mut Busy<S>,
) -> Result<(), Fail> {
    let (first, second) = begin(rt, world)?;
    let pairs = three(
        alloc,
        (first, position::<P, S>(4)),
        (entity(9, 1)?, position::<P, S>(5)),
        (second, health::<H, S>(6)),
    )?;
    holds!(rt; insert_all_later(world, pairs));
    equal!(rt; done(world, 1), Some((1, 1, 0)));
    equal!(rt; position_at(world, first), Some(4));
    holds!(rt; has(world, healths::<H, S>(), second));
    Ok(())
}

fn takes_out<R: Abort, P, H, S: CloneStorages + Has<Position, P> + Has<Health, H>>(
    rt: &R,
    world: &mut Busy<S>,
) -> Result<(), Fail> {
    let (first, second) = begin(rt, world)?;
    holds!(rt; queue(world, at(first, 3)));
    holds!(rt; remove_later(world, positions::<P, S>(), first));
    holds!(rt; remove_later(world, positions::<P, S>(), second));
    equal!(rt; done(world, 1), Some((1, 0, 2)));
    equal!(rt; position_at(world, first), Some(3));
    equal!(rt; done(world, 9), Some((2, 0, 0)));
    equal!(rt; position_at(world, first), None);
    Ok(())
}

fn marks_nobody<R: Abort, P, H, S: CloneStorages + Has<Position, P> + Has<Health, H>>(
    rt: &R,
    world: &mut Busy<S>,
) -> Result<(), Fail> {
    let (first, _) = begin(rt, world)?;
    let job = Job::Mark(healths::<H, S>(), first);
    holds!(rt; is_done(world, Command::Queue(job)));
    equal!(rt; done(world, 9), Some((1, 1, 0)));
    Ok(())
}

/// What is told of a world.
#[derive(Clone, Copy)]
pub enum Story {
    Repeats,
    Appends,
    AllAtOnce,
    TakesOut,
    MarksNobody,
}

fn tell<R: Abort, P, H, S: CloneStorages + Has<Position, P> + Has<Health, H>>(
    rt: &R,
    alloc: Global,
    story: Story,
    world: &mut Busy<S>,
) -> Result<(), Fail> {
    match story {
        Story::Repeats => {
            repeats(rt, world);
            Ok(())
        }
        Story::Appends => appends(rt, alloc, world),
        Story::AllAtOnce => all_at_once(rt, alloc, world),
        Story::TakesOut => takes_out(rt, world),
        Story::MarksNobody => marks_nobody(rt, world),
    }
}

/// Tells a story of a new world.
pub fn tell_of_new<
    R: Abort,
    P,
    H,
    S: CloneStorages + Empty + Has<Position, P> + Has<Health, H> + Drop,
>(rt: &R, alloc: Global, story: Story) -> Result<(), Fail> {
    let mut world = fresh::<S, _>(alloc);
    tell(rt, alloc, story, &mut world)
}

#[test]
fn a_job_that_queues_itself_waits_again(rt: HostRuntime) -> Result<(), Fail> {
    told(&rt, rt.alloc(), stories::Story::Jobs(Story::Repeats))
}

#[test]
fn lists_run_in_the_order_of_their_appending(rt: HostRuntime) -> Result<(), Fail> {
    told(&rt, rt.alloc(), stories::Story::Jobs(Story::Appends))
}

#[test]
fn insertions_of_a_list_go_on_after_a_refused_one(rt: HostRuntime) -> Result<(), Fail> {
    told(&rt, rt.alloc(), stories::Story::Jobs(Story::AllAtOnce))
}

#[test]
fn a_removal_waits_for_its_turn(rt: HostRuntime) -> Result<(), Fail> {
    told(&rt, rt.alloc(), stories::Story::Jobs(Story::TakesOut))
}

#[test]
fn a_marker_is_refused_where_no_slot_is_of_markers(rt: HostRuntime) -> Result<(), Fail> {
    told(&rt, rt.alloc(), stories::Story::Jobs(Story::MarksNobody))
}
