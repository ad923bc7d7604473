//! What phases come to.
ghost use Rattle.entities.specs.Phase.Board.{IsPassOf};
ghost use Rattle.entities.specs.Phase.Opened.{entities_of, board_of};
ghost use Rattle.entities.specs.Phase.Calls.{IsOpen};

use entities::{Closed, EntitiesRes, Entity, Exhausted, INDEX_LIMIT, OpenError, Pass, Shared};
use phase_threads::{Turn, create_all, in_threads, in_threads_by, in_turn};
use std::alloc::Global;
use std::test::Fail;
use std::thread::Threads;

/// A pass that creates once.
#[derive(Drop)]
pub struct Spawn;

impl Turn for Spawn {
    type Answer = Option<Entity>;

    fn turn(&self, shared: &Shared<'_>, pass: &mut Pass) -> Option<Entity> {
        shared.create(pass).ok()
    }
}

/// A pass that creates twice, and deletes one that lived.
#[derive(Drop)]
pub struct Replace {
    pub old: Entity,
}

impl Turn for Replace {
    type Answer = Result<(Entity, Entity), Exhausted>;

    fn turn(&self, shared: &Shared<'_>, pass: &mut Pass) -> Result<(Entity, Entity), Exhausted> {
        let first = shared.create(pass)?;
        let second = shared.create(pass)?;
        let _ = shared.delete(pass, self.old);
        Ok((first, second))
    }
}

/// A pass that deletes an entity. It answers whether it could.
#[derive(Drop)]
pub struct Delete {
    pub entity: Entity,
}

impl Turn for Delete {
    type Answer = bool;

    fn turn(&self, shared: &Shared<'_>, pass: &mut Pass) -> bool {
        shared.delete(pass, self.entity).is_ok()
    }
}

/// What a phase of two entities and three passes answers, by name.
#[derive(Drop)]
struct Answers {
    given: bool,
    refused_once: bool,
    refused_again: bool,
    deleted: bool,
    alive: bool,
    pending: bool,
    not_pending: bool,
    closed: Option<Closed>,
}

fn entity(index: u32) -> Option<Entity> {
    Entity::from_parts(index, 1)
}

/// A pass creates once, and says what it sees of the entity if it is the first that was given one.
fn take_turn(shared: &Shared<'_>, pass: &mut Pass, answers: &mut Answers)
    requires opened { IsOpen (entities_of shared.now) (board_of shared.now) }
    requires pass { IsPassOf (board_of shared.now) pass.old }
    ensures { IsPassOf (board_of shared.now) pass.new }
{
    match shared.create(pass) {
        Ok(e) => {
            if !answers.given {
                answers.not_pending = !shared.pending(pass, e);
                answers.deleted = shared.delete(pass, e).is_ok();
                answers.alive = shared.is_alive(pass, e);
                answers.pending = shared.pending(pass, e);
                answers.given = true;
            }
        }
        Err(_) => {
            answers.refused_once = true;
            answers.refused_again = shared.create(pass).is_err();
        }
    }
}

/// Each of three passes creates once, of two in the reserve, and the first that was given one deletes it.
fn two_for_three(alloc: Global, entities: &mut EntitiesRes) -> Answers {
    let mut answers = Answers {
        given: false,
        refused_once: false,
        refused_again: false,
        deleted: false,
        alive: false,
        pending: false,
        not_pending: false,
        closed: None,
    };
    if let Ok((shared, mut passes)) = entities.open(alloc, 2, 3) {
        for pass in passes.iter_mut() {
            take_turn(&shared, pass, &mut answers);
        }
        answers.closed = Some(shared.close(passes));
    }
    answers
}

/// Whether the entity of an index and its first generation is the one that lives there.
fn lives_first(entities: &EntitiesRes, index: u32) -> bool {
    let e = entities.entity(index);
    entities.is_alive(e) && Some(e) == entity(index)
}

fn create(entities: &mut EntitiesRes) -> Option<Entity> {
    entities.create().ok()
}

fn lives(entities: &EntitiesRes, e: Entity) -> bool {
    entities.is_alive(e)
}

fn lives_at(entities: &EntitiesRes, index: u32) -> bool {
    entities.is_alive(entities.entity(index))
}

/// Those that die at a merge.
fn merged(alloc: Global, entities: &mut EntitiesRes) -> Result<Vec<Entity>, Fail> {
    Ok(entities.alloc_mut().merge(alloc)?)
}

/// Whether the first entity alone is in a list, and does not live.
fn is_dead(entities: &EntitiesRes, dead: &[Entity]) -> bool {
    match dead {
        [e] => Some(*e) == entity(0) && !lives(entities, *e),
        _ => false,
    }
}

/// Whether the first of two entities dies at a merge, and the second lives.
fn first_dies(alloc: Global, entities: &mut EntitiesRes) -> Result<bool, Fail> {
    let dead = merged(alloc, entities)?;
    Ok(is_dead(entities, dead.as_slice()) && lives_first(entities, 1))
}

/// Whether the answers are those of two births, a mark and a refusal.
fn are_as_told(answers: &Answers) -> bool {
    let closed = Some(Closed {
        births: 2,
        marks: 1,
        passes_back: 3,
    });
    let refused = answers.refused_once && answers.refused_again;
    let seen = answers.deleted && answers.alive && answers.pending && answers.not_pending;
    refused && seen && answers.closed == closed
}

/// Whether two of three passes are given an entity, of which the first is deleted.
fn third_is_refused(alloc: Global, entities: &mut EntitiesRes) -> Result<bool, Fail> {
    let answers = two_for_three(alloc, entities);
    Ok(are_as_told(&answers) && first_dies(alloc, entities)?)
}

/// What two passes are given in a phase of two entities, one after the other.
fn two_given(alloc: Global, entities: &mut EntitiesRes) -> (Option<Entity>, Option<Entity>) {
    match entities.open(alloc, 2, 2) {
        Ok((shared, mut passes)) => {
            let first = shared.create(&mut passes[0]).ok();
            let second = shared.create(&mut passes[1]).ok();
            let _ = shared.close(passes);
            (first, second)
        }
        Err(_) => (None, None),
    }
}

fn are_given(
    alloc: Global,
    entities: &mut EntitiesRes,
    wanted: (Option<Entity>, Option<Entity>),
) -> bool {
    two_given(alloc, entities) == wanted
}

fn first_two(entities: &EntitiesRes) -> [Entity; 2] {
    [entities.entity(0), entities.entity(1)]
}

fn kill(entities: &mut EntitiesRes, list: &[Entity]) -> bool {
    entities.alloc_mut().kill(list).is_ok()
}

/// Whether two passes are given the least two that were never born, then those two again, and then the next two.
fn two_are_given(alloc: Global, entities: &mut EntitiesRes) -> Result<bool, Fail> {
    let born = are_given(alloc, entities, (entity(0), entity(1)));
    let both = first_two(entities);
    let killed = kill(entities, &both);
    let second = (Entity::from_parts(1, 2), Entity::from_parts(0, 2));
    let again = are_given(alloc, entities, second);
    let dead = !lives(entities, both[0]) && !lives(entities, both[1]);
    let _ = merged(alloc, entities)?;
    let next = are_given(alloc, entities, (entity(2), entity(3)));
    Ok(born && killed && again && dead && next)
}

/// What a phase with this reserve and as many passes comes to, each of which creates once, in threads.
fn all_create(
    rt: &(impl Threads + Sync),
    alloc: Global,
    entities: &mut EntitiesRes,
    reserve: u32,
    passes: usize,
) -> Result<Closed, OpenError> {
    match entities.open(alloc, reserve, passes) {
        Ok((shared, mut passes)) => {
            create_all(rt, &shared, &mut passes);
            Ok(shared.close(passes))
        }
        Err(error) => Err(error),
    }
}

/// What a phase comes to in which so many are born and nobody is marked, if all of so many passes come back.
fn closed(births: usize, passes_back: usize) -> Result<Closed, OpenError> {
    Ok(Closed {
        births,
        marks: 0,
        passes_back,
    })
}

/// Whether phases in turn come to what they must.
fn phases_go_on(rt: &(impl Threads + Sync), alloc: Global, entities: &mut EntitiesRes) -> bool {
    all_create(rt, alloc, entities, 2, 3) == closed(2, 3)
        && all_create(rt, alloc, entities, 50, 60) == closed(50, 60)
        && lives_at(entities, 51)
        && !lives_at(entities, 52)
        && in_turn(alloc, entities) == 1
        && all_create(rt, alloc, entities, 1, 4097) == Err(OpenError::TooManyPasses)
}

/// Whether as many passes as entities are given all of them.
fn all_are_given(rt: &(impl Threads + Sync), alloc: Global, entities: &mut EntitiesRes) -> bool {
    all_create(rt, alloc, entities, 2, 2) == closed(2, 2)
        && lives_first(entities, 0)
        && lives_first(entities, 1)
}

/// Whether a reserve past the limit is refused, and changes nothing.
fn too_many_are_refused(
    rt: &(impl Threads + Sync),
    alloc: Global,
    entities: &mut EntitiesRes,
) -> bool {
    all_create(rt, alloc, entities, INDEX_LIMIT + 1, 1) == Err(OpenError::IndexLimit)
        && create(entities) == entity(0)
}

/// Whether the entity that lives at an index stands once among what was answered.
fn is_given_once(entities: &EntitiesRes, answers: &[Option<Entity>], index: u32) -> bool {
    let wanted = entity(index);
    answers.iter().filter(|e| **e == wanted).count() == 1 && lives_first(entities, index)
}

/// Whether each of the first four entities stands once among what was answered.
fn each_is_given_once(entities: &EntitiesRes, answers: &[Option<Entity>]) -> bool {
    for index in 0..4u32 {
        if !is_given_once(entities, answers, index) {
            return false;
        }
    }
    true
}

/// Whether four passes in threads, each of which creates once, are given four entities, each of them once.
fn four_are_born(rt: &(impl Threads + Sync), alloc: Global, entities: &mut EntitiesRes) -> bool {
    match in_threads(rt, alloc, entities, 4, 4, &Spawn) {
        Ok((ended, answers)) => {
            Ok(ended) == closed(4, 4)
                && answers.len() == 4
                && each_is_given_once(entities, answers.as_slice())
        }
        Err(_) => false,
    }
}

/// What two passes answer that each delete the entity.
fn deleted_by_two(
    rt: &(impl Threads + Sync),
    alloc: Global,
    entities: &mut EntitiesRes,
    entity: Entity,
) -> Result<(Closed, Vec<bool>), OpenError> {
    in_threads(rt, alloc, entities, 0, 2, &Delete { entity })
}

fn are_both(answers: &[bool]) -> bool {
    matches!(answers, [true, true])
}

/// Whether an entity that two passes in threads delete is marked once, lives on, and dies at the merge.
fn marked_dies_at_the_merge(
    rt: &(impl Threads + Sync),
    alloc: Global,
    entities: &mut EntitiesRes,
) -> Result<bool, Fail> {
    let Some(old) = create(entities) else {
        return Ok(false);
    };
    let Ok((ended, answers)) = deleted_by_two(rt, alloc, entities, old) else {
        return Ok(false);
    };
    let told = are_both(answers.as_slice()) && ended.births == 0 && ended.marks == 1;
    let lived = lives(entities, old);
    let dead = merged(alloc, entities)?;
    Ok(told && lived && is_dead(entities, dead.as_slice()))
}

/// Whether one of two answers is a refusal.
fn one_is_refused(answers: &[Result<(Entity, Entity), Exhausted>]) -> bool {
    match answers {
        [first, second] => first.is_err() != second.is_err(),
        _ => false,
    }
}

/// Whether of two passes in threads that each create twice, of three in the reserve, one is refused. The other one deletes.
fn one_of_two_is_refused(
    rt: &(impl Threads + Sync),
    alloc: Global,
    entities: &mut EntitiesRes,
) -> bool {
    let Some(old) = create(entities) else {
        return false;
    };
    match in_threads(rt, alloc, entities, 3, 2, &Replace { old }) {
        Ok((ended, answers)) => {
            ended.births == 3 && ended.marks == 1 && one_is_refused(answers.as_slice())
        }
        Err(_) => false,
    }
}

/// Two passes create twice each, in threads, and delete one that lived: a closure is the turn.
fn replaced_by_two(
    rt: &(impl Threads + Sync),
    alloc: Global,
    entities: &mut EntitiesRes,
    old: Entity,
) -> Result<usize, OpenError> {
    let (closed, _) = in_threads_by(
        rt,
        alloc,
        entities,
        4,
        2,
        &|shared: &Shared<'_>, pass: &mut Pass| {
            let first = shared.create(pass);
            let second = shared.create(pass);
            let deleted = shared.delete(pass, old);
            first.is_ok() && second.is_ok() && deleted.is_ok()
        },
    )?;
    Ok(closed.births)
}

/// Whether two passes in threads that each create twice and delete one, by a closure, bear four, and the one dies at the merge.
fn a_closure_replaces(
    rt: &(impl Threads + Sync),
    alloc: Global,
    entities: &mut EntitiesRes,
) -> Result<bool, Fail> {
    let Some(old) = create(entities) else {
        return Ok(false);
    };
    let born = replaced_by_two(rt, alloc, entities, old);
    let dead = merged(alloc, entities)?;
    Ok(born == Ok(4) && is_dead(entities, dead.as_slice()))
}

/// Why a phase with this reserve and as many passes in threads, each of which creates once, is not opened.
fn refusal(
    rt: &(impl Threads + Sync),
    alloc: Global,
    entities: &mut EntitiesRes,
    reserve: u32,
    passes: usize,
) -> Option<OpenError> {
    in_threads(rt, alloc, entities, reserve, passes, &Spawn).err()
}

/// Whether a phase in threads that is refused changes nothing, and one without passes bears nobody.
fn refused_leave_all(
    rt: &(impl Threads + Sync),
    alloc: Global,
    entities: &mut EntitiesRes,
) -> bool {
    refusal(rt, alloc, entities, 1, 4097) == Some(OpenError::TooManyPasses)
        && refusal(rt, alloc, entities, INDEX_LIMIT + 1, 1) == Some(OpenError::IndexLimit)
        && refusal(rt, alloc, entities, 1, 0) == None
        && create(entities) == entity(0)
}

/// What is told of entities.
#[derive(Clone, Copy)]
enum Story {
    FourAreBorn,
    AClosureReplaces,
    MarkedDiesAtTheMerge,
    OneOfTwoIsRefused,
    RefusedLeaveAll,
    ThirdIsRefused,
    TwoAreGiven,
    PhasesGoOn,
    AllAreGiven,
    TooManyAreRefused,
}

/// Whether a story comes true where nobody was born. A function that owns entities is slow to prove, so this one does for all stories.
fn comes_true(rt: &(impl Threads + Sync), alloc: Global, story: Story) -> Result<bool, Fail> {
    let mut entities = EntitiesRes::new(alloc);
    match story {
        Story::FourAreBorn => Ok(four_are_born(rt, alloc, &mut entities)),
        Story::AClosureReplaces => a_closure_replaces(rt, alloc, &mut entities),
        Story::MarkedDiesAtTheMerge => marked_dies_at_the_merge(rt, alloc, &mut entities),
        Story::OneOfTwoIsRefused => Ok(one_of_two_is_refused(rt, alloc, &mut entities)),
        Story::RefusedLeaveAll => Ok(refused_leave_all(rt, alloc, &mut entities)),
        Story::ThirdIsRefused => third_is_refused(alloc, &mut entities),
        Story::TwoAreGiven => two_are_given(alloc, &mut entities),
        Story::PhasesGoOn => Ok(phases_go_on(rt, alloc, &mut entities)),
        Story::AllAreGiven => Ok(all_are_given(rt, alloc, &mut entities)),
        Story::TooManyAreRefused => Ok(too_many_are_refused(rt, alloc, &mut entities)),
    }
}

#[test]
fn two_entities_for_three_passes(rt: HostRuntime) -> Result<(), Fail> {
    assert!(rt; comes_true(&rt, rt.alloc(), Story::ThirdIsRefused)?);
    Ok(())
}

#[test]
fn two_passes_are_given_two_entities(rt: HostRuntime) -> Result<(), Fail> {
    assert!(rt; comes_true(&rt, rt.alloc(), Story::TwoAreGiven)?);
    Ok(())
}

#[test]
fn passes_create_in_threads(rt: HostRuntime) -> Result<(), Fail> {
    assert!(rt; comes_true(&rt, rt.alloc(), Story::PhasesGoOn)?);
    assert!(rt; comes_true(&rt, rt.alloc(), Story::AllAreGiven)?);
    assert!(rt; comes_true(&rt, rt.alloc(), Story::TooManyAreRefused)?);
    Ok(())
}

#[test]
fn births_in_four_threads_are_given_once_each(rt: HostRuntime) -> Result<(), Fail> {
    assert!(rt; comes_true(&rt, rt.alloc(), Story::FourAreBorn)?);
    Ok(())
}

#[test]
fn a_closure_creates_and_deletes_in_threads(rt: HostRuntime) -> Result<(), Fail> {
    assert!(rt; comes_true(&rt, rt.alloc(), Story::AClosureReplaces)?);
    Ok(())
}

#[test]
fn what_threads_mark_dies_at_the_merge(rt: HostRuntime) -> Result<(), Fail> {
    assert!(rt; comes_true(&rt, rt.alloc(), Story::MarkedDiesAtTheMerge)?);
    Ok(())
}

#[test]
fn a_reserve_of_three_refuses_one_of_two_pairs(rt: HostRuntime) -> Result<(), Fail> {
    assert!(rt; comes_true(&rt, rt.alloc(), Story::OneOfTwoIsRefused)?);
    Ok(())
}

#[test]
fn a_phase_in_threads_that_is_refused_changes_nothing(rt: HostRuntime) -> Result<(), Fail> {
    assert!(rt; comes_true(&rt, rt.alloc(), Story::RefusedLeaveAll)?);
    Ok(())
}
