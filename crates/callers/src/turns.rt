//! Turns of a phase in threads, as a user writes them: none has a clause or a proof. One tells by a ghost member what its answers are.
ghost use Rattle.std.specs.Prelude.{◌≤◌, IfOk, IfSome};
ghost use Rattle.std.specs.List.{All, AllPairs};
ghost use Rattle.entities.specs.Census.{population};
ghost use Rattle.entities.specs.Population.{IsAlive};
ghost use Rattle.phase_threads.specs.PhaseLaws.{AreOfTwo};

use composed::{EntitiesRes, Entity, OpenError, Pass, Shared, Turn, in_threads, in_threads_by};
use std::alloc::Global;
use std::thread::Threads;

/// A pass that creates once.
#[derive(Drop)]
pub struct Spawn;

impl Turn for Spawn {
    type Answer = Option<Entity>;

    fn turn(&self, shared: &Shared<'_>, pass: &mut Pass) -> Option<Entity> {
        shared.create(pass).ok()
    }
}

/// Two passes create once each, in threads. It answers how many entities were born.
pub fn spawned_by_two(
    rt: &(impl Threads + Sync),
    alloc: Global,
    entities: &mut EntitiesRes,
) -> Result<usize, OpenError>
    ensures { IfOk result (λ births. births ≤ 8) }
{
    let (closed, _) = in_threads(rt, alloc, entities, 8, 2, &Spawn)?;
    Ok(closed.births)
}

/// Two passes create twice each, in threads, and delete one that lived: a closure is the turn.
pub fn replaced_by_two(
    rt: &(impl Threads + Sync),
    alloc: Global,
    entities: &mut EntitiesRes,
    old: Entity,
) -> Result<usize, OpenError>
    ensures { IfOk result (λ births. births ≤ 4) }
{
    let (closed, _) = in_threads_by(
        rt,
        alloc,
        entities,
        4,
        2,
        &|shared: &Shared<'_>, pass: &mut Pass| {
            let first = shared.create(pass);
            let second = shared.create(pass);
            let deleted = shared.delete(pass, old);
            first.is_ok() && second.is_ok() && deleted.is_ok()
        },
    )?;
    Ok(closed.births)
}

/// A pass that creates once, and tells that what it answers was given to it.
#[derive(Drop)]
pub struct Birth;

impl Turn for Birth {
    ghost use Rattle.phase_threads.specs.PhaseLaws.{AnswersItsOwn};

    type Answer = Option<Entity>;

    ghost tells = { λ _. AnswersItsOwn };

    fn turn(&self, shared: &Shared<'_>, pass: &mut Pass) -> Option<Entity> {
        shared.create(pass).ok()
    }
}

/// The entities that four passes were given in threads: they are of different indices, and live.
#[tactic(auto, using(phase_threads::specs::PhaseLaws::answers_live, phase_threads::specs::PhaseLaws::answers_apart))]
pub fn born_of_four(
    rt: &(impl Threads + Sync),
    alloc: Global,
    entities: &mut EntitiesRes,
) -> Result<Vec<Option<Entity>>, OpenError>
    ensures apart { IfOk result (λ born. AllPairs AreOfTwo born.items) }
    ensures alive { IfOk result (λ born. All (λ e. IfSome e (IsAlive (population entities.new))) born.items) }
{
    match in_threads(rt, alloc, entities, 4, 4, &Birth) {
        Ok((_, born)) => Ok(born),
        Err(error) => Err(error),
    }
}
