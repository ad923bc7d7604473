//! Runs jobs.
ghost use Rattle.std.specs.Prelude.{◌≡◌, [], ◌∷◌, Some, None, IfOk, IfErr, OnOk, OnErr, IfSome, IfNone};
ghost use Rattle.specs.specs.World.State.{core_state};
ghost use Rattle.specs.specs.Job.Queue.{queued, to_come};
ghost use Rattle.specs.specs.Job.Jobs.{InsertStep, InsertWantsRoom, InsertsOrKeeps, RemoveStep, MarkStep, MarkWantsRoom, count_of, DoesOrKeeps, RunsJobs};
ghost use Rattle.specs.specs.Slots.Table.{RemovalWantsMemory};
ghost use Rattle.specs.specs.declared.job.Job.{Job};

use crate::command::Refusal;
use crate::job::{Job, LazyUpdate, WorldJob};
use crate::slots::{Held, Storages};
use crate::world::{Core, Parts};
use entities::Entity;
use saveload::MarkError;
use std::alloc::AllocError;
use std::collections::VecDeque;

/// What became of a job: how many refusals it counted, and what is kept of it where it found no memory.
#[derive(Drop)]
pub(crate) struct Outcome<S: Held, J> {
    pub refused: u64,
    pub kept: Option<Job<S, J>>,
}

impl<S: Held, J> Outcome<S, J> {
    /// Nothing is kept.
    fn done(refused: u64) -> Self
        ensures refused { result.refused ≡ refused }
        ensures kept { result.kept ≡ None }
    {
        Outcome {
            refused,
            kept: None,
        }
    }

    /// The job found no memory, and is kept.
    fn kept(job: Job<S, J>) -> Self
        ensures refused { result.refused ≡ 0 }
        ensures kept { result.kept ≡ Some job }
    {
        Outcome {
            refused: 0,
            kept: Some(job),
        }
    }
}

/// What became of a list of insertions: how many refusals it counted, and the rest where one found no memory.
#[derive(Drop)]
pub(crate) struct Inserted<V> {
    pub refused: u64,
    pub rest: Option<Vec<(Entity, V)>>,
}

/// How many jobs ran, how many refusals they counted, and whether one found no memory.
#[derive(Drop)]
pub(crate) struct Ending {
    pub ran: u64,
    pub refused: u128,
    pub stopped: bool,
}

/// An insertion: whether it was refused for another cause than memory. One that finds no memory hands the value back.
fn insert_one<S: Storages>(core: &mut Core<S>, e: Entity, value: S::Value) -> Result<bool, S::Value>
    ensures ok { IfOk result (λ counted. InsertStep S.place (core_state S.table S.ids core.old) e value counted (core_state S.table S.ids core.new)) }
    ensures wants { OnErr result (InsertWantsRoom S.place (core_state S.table S.ids core.old) e value) }
    ensures back { IfErr result (λ v. v ≡ value) }
    ensures err { OnErr result (core_state S.table S.ids core.new ≡ core_state S.table S.ids core.old) }
{
    let Parts { entities, storages } = &mut core.parts;
    match storages.insert(entities, e, value) {
        Ok(_) => Ok(false),
        Err((Refusal::OutOfMemory, value)) => Err(value),
        Err(_) => Ok(true),
    }
}

/// Insertions in order.
fn insert_all<S: Storages>(core: &mut Core<S>, pairs: Vec<(Entity, S::Value)>) -> Inserted<S::Value>
    ensures done { InsertsOrKeeps S.place (core_state S.table S.ids core.old) pairs.items result.refused result.rest (core_state S.table S.ids core.new) }
{
    let mut left = VecDeque::from_vec(pairs);
    let mut refused = 0;
    while let Some((e, value)) = left.pop_front() {
        match insert_one(core, e, value) {
            Ok(counted) => {
                if counted {
                    refused += 1;
                }
            }
            Err(value) => {
                let _ = left.push_front((e, value));
                return Inserted {
                    refused,
                    rest: Some(left.into_vec()),
                };
            }
        }
    }
    Inserted {
        refused,
        rest: None,
    }
}

/// A removal, or nothing where the slot is not registered. It is refused where it finds no memory.
fn remove_one<S: Storages>(core: &mut Core<S>, slot: S::Slot, e: Entity) -> Result<(), AllocError>
    ensures ok { OnOk result (RemoveStep (core_state S.table S.ids core.old) slot e (core_state S.table S.ids core.new)) }
    ensures wants { OnErr result (RemovalWantsMemory (core_state S.table S.ids core.old).people ((core_state S.table S.ids core.old).table slot) e) }
    ensures err { OnErr result (core_state S.table S.ids core.new ≡ core_state S.table S.ids core.old) }
{
    let Parts { entities, storages } = &mut core.parts;
    match storages.remove(entities, slot, e) {
        Ok(_) => Ok(()),
        Err(Refusal::OutOfMemory) => Err(AllocError),
        Err(_) => Ok(()),
    }
}

/// A mark: whether it was refused for another cause than memory, as it is where the entity is not alive. It is an error where it finds no memory.
fn mark_one<S: Storages>(core: &mut Core<S>, slot: S::Slot, e: Entity) -> Result<bool, AllocError>
    ensures ok { IfOk result (λ counted. MarkStep S.marks (core_state S.table S.ids core.old) slot e counted (core_state S.table S.ids core.new)) }
    ensures wants { OnErr result (MarkWantsRoom S.marks (core_state S.table S.ids core.old) slot e) }
    ensures err { OnErr result (core_state S.table S.ids core.new ≡ core_state S.table S.ids core.old) }
{
    let Parts { entities, storages } = &mut core.parts;
    match storages.mark(entities, slot, e) {
        Ok(given) => Ok(given.is_none()),
        Err(MarkError::OutOfMemory) => Err(AllocError),
        Err(_) => Ok(true),
    }
}

/// How much a refusal counts.
fn count_of(counted: bool) -> u64
    ensures { result ≡ count_of counted }
{
    if counted { 1 } else { 0 }
}

/// Does one job.
pub(crate) fn run_one<S: Storages, J: WorldJob<S>>(
    core: &mut Core<S>,
    queue: &mut LazyUpdate<S, J>,
    job: Job<S, J>,
) -> Outcome<S, J>
    ensures done { DoesOrKeeps S.place S.marks J.does J.wants (core_state S.table S.ids core.old) job result.refused result.kept (core_state S.table S.ids core.new)
        (queued queue.old) (queued queue.new) }
{
    match job {
        Job::Insert(e, value) => match insert_one(core, e, value) {
            Ok(counted) => Outcome::done(count_of(counted)),
            Err(value) => Outcome::kept(Job::Insert(e, value)),
        },
        Job::InsertAll(pairs) => {
            let inserted = insert_all(core, pairs);
            let refused = inserted.refused;
            match inserted.rest {
                None => Outcome::done(refused),
                Some(rest) => Outcome {
                    refused,
                    kept: Some(Job::InsertAll(rest)),
                },
            }
        }
        Job::Remove(slot, e) => match remove_one(core, slot, e) {
            Ok(()) => Outcome::done(0),
            Err(_) => Outcome::kept(Job::Remove(slot, e)),
        },
        Job::Mark(slot, e) => match mark_one(core, slot, e) {
            Ok(counted) => Outcome::done(count_of(counted)),
            Err(_) => Outcome::kept(Job::Mark(slot, e)),
        },
        Job::Own(own) => match own.update(core, queue) {
            Ok(()) => Outcome::done(0),
            Err((own, _)) => Outcome::kept(Job::Own(own)),
        },
    }
}

fn next<S: Held, J: Drop>(
    first: &mut Option<Job<S, J>>,
    queue: &mut LazyUpdate<S, J>,
) -> Option<Job<S, J>>
    ensures taken { IfSome result (λ job. to_come first.old queue.old ≡ job ∷ queued queue.new) }
    ensures none { IfNone result (to_come first.old queue.old ≡ queued queue.new) }
    ensures empty { IfNone result (queued queue.new ≡ []) }
    ensures first { first.new ≡ None }
{
    match first.take() {
        Some(job) => Some(job),
        None => queue.take(),
    }
}

/// Runs jobs in order while fewer than `limit` ran: that in `first` before the queue's, those that jobs queue last. One that finds no
/// memory is kept in `first`, and ends the run.
pub(crate) fn run_jobs<S: Storages, J: WorldJob<S>>(
    core: &mut Core<S>,
    first: &mut Option<Job<S, J>>,
    queue: &mut LazyUpdate<S, J>,
    limit: u64,
) -> Ending
    ensures { RunsJobs S.place S.marks J.does J.wants result.stopped limit result.ran result.refused
        (core_state S.table S.ids core.old) (to_come first.old queue.old) (core_state S.table S.ids core.new) (to_come first.new queue.new) }
{
    let mut ran = 0;
    let mut refused: u128 = 0;
    while ran < limit {
        let Some(job) = next(first, queue) else {
            break;
        };
        let outcome = run_one(core, queue, job);
        refused += u128::from(outcome.refused);
        match outcome.kept {
            Some(kept) => {
                *first = Some(kept);
                return Ending {
                    ran,
                    refused,
                    stopped: true,
                };
            }
            None => ran += 1,
        }
    }
    Ending {
        ran,
        refused,
        stopped: false,
    }
}
