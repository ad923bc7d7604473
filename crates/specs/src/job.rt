//! Jobs, and lists of them.
ghost use Rattle.std.specs.Prelude.{◌≡◌, List, [], ◌∷◌, ◌++◌, ◌<◌, ◌^◌, length, IfOk, IsOk, IfErr, OnOk, OnErr, IfSome, IfNone};
ghost use Rattle.std.specs.VecDeque.{deque_len, deque_capacity};
ghost use Rattle.specs.specs.Laws.Going.{Lengthens};
ghost use Rattle.specs.specs.Job.Queue.{queued, listed};
ghost use Rattle.specs.specs.declared.job.Job.TheVariants.{Insert, InsertAll, Remove, Mark, Own};

mod act;
mod no_job;
mod running;
mod world_job;

use crate::slots::Held;
pub use act::{Act, Doing};
use entities::Entity;
pub use no_job::NoJob;
pub(crate) use running::run_jobs;
use std::alloc::{AllocError, AllocFailed, Global};
use std::collections::VecDeque;
pub use world_job::WorldJob;

// From so many jobs on, a full queue gets room for twice as many and no longer for four times as many.
const MANY: usize = 1 << 20;

/// A job, which `World::maintain` does.
#[derive(Drop)]
pub enum Job<S: Held, J = NoJob> {
    /// Puts a value at an entity, in the value's slot.
    Insert(Entity, S::Value),
    /// Puts values at entities, one after another.
    InsertAll(Vec<(Entity, S::Value)>),
    /// Takes the value of an entity out of a slot. Where the slot is not registered it does nothing.
    Remove(S::Slot, Entity),
    /// Gives an entity a marker in a slot of markers, if it has none.
    Mark(S::Slot, Entity),
    /// A job of the user's.
    Own(J),
}

/// The queue of a world's jobs, which `World::maintain` does from the front. Where memory is refused, a call hands back what it was given, and
/// the queue is as before. Each call takes memory for the jobs that it queues alone. Ports `specs::LazyUpdate`.
#[derive(Drop)]
pub struct LazyUpdate<S: Held, J = NoJob> {
    jobs: VecDeque<Job<S, J>>,
}

/// Jobs in order, made where no queue is at hand, to be appended to one.
#[derive(Drop)]
pub struct JobList<S: Held, J = NoJob> {
    jobs: VecDeque<Job<S, J>>,
}

impl<S: Held, J: Drop> LazyUpdate<S, J> {
    /// The empty queue.
    pub fn new(alloc: Global) -> Self
        ensures { queued result ≡ [] }
    {
        LazyUpdate {
            jobs: VecDeque::new(alloc),
        }
    }

    // How many jobs are queued.
    pub(crate) fn count(&self) -> usize
        ensures length { result ≡ length (queued self.now) }
        ensures few { result < 2 ^ 63 }
    {
        self.jobs.len()
    }

    // Takes the first job out.
    pub(crate) fn take(&mut self) -> Option<Job<S, J>>
        ensures taken { IfSome result (λ job. queued self.old ≡ job ∷ queued self.new) }
        ensures none { IfNone result (queued self.old ≡ []) }
        ensures same { IfNone result (queued self.new ≡ []) }
    {
        self.jobs.pop_front()
    }

    // Gets room for one job more, and where there is memory for several times as many, so that a queue that fills up is seldom moved.
    #[inline(always)]
    fn make_room(&mut self) -> Result<(), AllocError>
        ensures same { queued self.new ≡ queued self.old }
        ensures room { OnOk result (deque_len self.new.jobs < deque_capacity self.new.jobs) }
    {
        let len = self.jobs.len();
        if len < self.jobs.capacity() || len < MANY && self.jobs.reserve(3 * len + 1).is_ok() {
            return Ok(());
        }
        self.jobs.reserve(1)
    }

    // Puts a job at the end, where `make_room` got room for it.
    #[inline(always)]
    fn put(&mut self, job: Job<S, J>)
        requires room { deque_len self.old.jobs < deque_capacity self.old.jobs }
        ensures { queued self.new ≡ queued self.old ++ job ∷ [] }
    {
        match self.jobs.push_back(job) {
            Ok(()) => {}
            Err(_) => unreachable!(),
        }
    }

    /// Queues a job.
    #[tactic(auto, using(crate::proofs::Going::longer_by, crate::proofs::Going::no_longer))]
    pub fn push(&mut self, job: Job<S, J>) -> Result<(), AllocFailed<Job<S, J>>>
        ensures ok { OnOk result (queued self.new ≡ queued self.old ++ job ∷ []) }
        ensures back { IfErr result (λ r. r.value ≡ job) }
        ensures err { OnErr result (queued self.new ≡ queued self.old) }
        ensures lengthens { Lengthens (queued self.old) (queued self.new) }
    {
        self.jobs.push_back(job)
    }

    /// Queues an insertion. Ports `LazyUpdate::insert`.
    #[tactic(auto, using(crate::proofs::Going::longer_by, crate::proofs::Going::no_longer))]
    pub fn insert(&mut self, e: Entity, value: S::Value) -> Result<(), AllocFailed<S::Value>>
        ensures ok { OnOk result (queued self.new ≡ queued self.old ++ Insert e value ∷ []) }
        ensures back { IfErr result (λ r. r.value ≡ value) }
        ensures err { OnErr result (queued self.new ≡ queued self.old) }
        ensures lengthens { Lengthens (queued self.old) (queued self.new) }
    {
        if self.make_room().is_err() {
            return Err(AllocFailed { value });
        }
        self.put(Job::Insert(e, value));
        Ok(())
    }

    /// Queues insertions in order, as one job. Ports `LazyUpdate::insert_all`.
    #[tactic(auto, using(crate::proofs::Going::longer_by, crate::proofs::Going::no_longer))]
    pub fn insert_all(
        &mut self,
        pairs: Vec<(Entity, S::Value)>,
    ) -> Result<(), AllocFailed<Vec<(Entity, S::Value)>>>
        ensures ok { OnOk result (queued self.new ≡ queued self.old ++ InsertAll pairs ∷ []) }
        ensures back { IfErr result (λ r. r.value ≡ pairs) }
        ensures err { OnErr result (queued self.new ≡ queued self.old) }
        ensures lengthens { Lengthens (queued self.old) (queued self.new) }
    {
        if self.make_room().is_err() {
            return Err(AllocFailed { value: pairs });
        }
        self.put(Job::InsertAll(pairs));
        Ok(())
    }

    /// Queues a removal. Ports `LazyUpdate::remove`.
    #[tactic(auto, using(crate::proofs::Going::longer_by, crate::proofs::Going::no_longer))]
    pub fn remove(&mut self, slot: S::Slot, e: Entity) -> Result<(), AllocError>
    where
        S::Slot: Drop,
        ensures ok { OnOk result (queued self.new ≡ queued self.old ++ Remove slot e ∷ []) }
        ensures err { OnErr result (queued self.new ≡ queued self.old) }
        ensures lengthens { Lengthens (queued self.old) (queued self.new) }
    {
        self.make_room()?;
        self.put(Job::Remove(slot, e));
        Ok(())
    }

    /// Queues a mark, in a slot of markers.
    #[tactic(auto, using(crate::proofs::Going::longer_by, crate::proofs::Going::no_longer))]
    pub fn mark(&mut self, slot: S::Slot, e: Entity) -> Result<(), AllocError>
    where
        S::Slot: Drop,
        ensures ok { OnOk result (queued self.new ≡ queued self.old ++ Mark slot e ∷ []) }
        ensures err { OnErr result (queued self.new ≡ queued self.old) }
        ensures lengthens { Lengthens (queued self.old) (queued self.new) }
    {
        self.make_room()?;
        self.put(Job::Mark(slot, e));
        Ok(())
    }

    /// Queues a job of the user's. Ports `LazyUpdate::exec` and `LazyUpdate::exec_mut`.
    #[tactic(auto, using(crate::proofs::Going::longer_by, crate::proofs::Going::no_longer))]
    pub fn exec(&mut self, job: J) -> Result<(), AllocFailed<J>>
        ensures ok { OnOk result (queued self.new ≡ queued self.old ++ Own job ∷ []) }
        ensures back { IfErr result (λ r. r.value ≡ job) }
        ensures err { OnErr result (queued self.new ≡ queued self.old) }
        ensures lengthens { Lengthens (queued self.old) (queued self.new) }
    {
        if self.make_room().is_err() {
            return Err(AllocFailed { value: job });
        }
        self.put(Job::Own(job));
        Ok(())
    }

    /// Queues the jobs of a list, in their order. The empty list is not refused.
    #[tactic(auto, using(crate::proofs::Going::longer_by, crate::proofs::Going::no_longer))]
    pub fn append(&mut self, mut list: JobList<S, J>) -> Result<(), AllocFailed<JobList<S, J>>>
    where
        S::Slot: Drop,
        S::Value: Drop,
        ensures ok { OnOk result (queued self.new ≡ queued self.old ++ listed list) }
        ensures back { IfErr result (λ r. listed r.value ≡ listed list) }
        ensures idle { listed list ≡ [] → IsOk result }
        ensures err { OnErr result (queued self.new ≡ queued self.old) }
        ensures lengthens { Lengthens (queued self.old) (queued self.new) }
    {
        if list.jobs.is_empty() {
            return Ok(());
        }
        match self.jobs.append(&mut list.jobs) {
            Ok(()) => Ok(()),
            Err(_) => Err(AllocFailed { value: list }),
        }
    }
}

impl<S: Held, J: Drop> JobList<S, J> {
    /// The empty list.
    pub fn new(alloc: Global) -> Self
        ensures { listed result ≡ [] }
    {
        JobList {
            jobs: VecDeque::new(alloc),
        }
    }

    /// Takes the first job out, so that a list that was refused can be taken apart; none is of the empty list.
    pub fn pop_front(&mut self) -> Option<Job<S, J>>
        ensures taken { IfSome result (λ job. listed self.old ≡ job ∷ listed self.new) }
        ensures none { IfNone result (listed self.old ≡ []) }
        ensures same { IfNone result (listed self.new ≡ []) }
    {
        self.jobs.pop_front()
    }

    /// Puts a job at the end. Where memory is refused, the job is handed back and the list is as before.
    pub fn push(&mut self, job: Job<S, J>) -> Result<(), AllocFailed<Job<S, J>>>
        ensures ok { OnOk result (listed self.new ≡ listed self.old ++ job ∷ []) }
        ensures back { IfErr result (λ r. r.value ≡ job) }
        ensures err { OnErr result (listed self.new ≡ listed self.old) }
    {
        self.jobs.push_back(job)
    }
}
