//! The world.
ghost use Rattle.std.specs.Prelude.{◌≡◌, ℕ, [], ◌++◌, IfOk, IsOk, OnErr, length};
ghost use Rattle.std.specs.Borrow.{sem};
ghost use Rattle.std.specs.List.{All};
ghost use Rattle.entities.specs.Population.{no_one};
ghost use Rattle.specs.specs.Laws.Gone.{IsGone, KeepsGone};
ghost use Rattle.specs.specs.Laws.Runs.{FollowsQuietly};
ghost use Rattle.specs.specs.World.Lending.{LendsWorldParts};
ghost use Rattle.specs.specs.World.People.{NoneMarked};
ghost use Rattle.specs.specs.Laws.Reached.{HasNoValue, IsNew, KeepsLiving, OnlyLiving};
ghost use Rattle.specs.specs.World.State.{state_of};
ghost use Rattle.specs.specs.Job.Steps.{world_state, Maintains, Run};

mod chosen;
mod core_parts;
mod deferred;
mod deref;
mod dropping;
mod everyone;
mod selection;

use crate::command::{Command, Maintained, Reply};
use crate::job::{Job, LazyUpdate, NoJob, WorldJob, run_jobs};
use crate::slots::{CloneStorages, Held, Storages};
pub use core_parts::{Core, DeleteError, Parts};
use std::alloc::{AllocError, Global};

/// What a world lends: its entities with their components, and its queue of jobs.
#[derive(Drop)]
pub struct WorldParts<S: Held, J = NoJob> {
    /// Entities and storages.
    pub core: Core<S>,
    /// The queue.
    pub lazy: LazyUpdate<S, J>,
}

/// Entities, their components, and jobs that wait, those of the user's of type `J`. Ports `specs::World` with `specs::WorldExt`.
#[derive(Drop)]
pub struct World<S: Held, J = NoJob> {
    pub(crate) parts: WorldParts<S, J>,
    // A job that found no memory, which goes before the queue.
    pub(crate) kept: Option<Job<S, J>>,
}

impl<S: Held, J: Drop> World<S, J> {
    /// A world without entities and jobs, over storages that are empty or not registered.
    pub fn new(alloc: Global, storages: S) -> Self
        ensures storages { result.parts.core.parts.storages ≡ storages }
        ensures people { (state_of S.table S.ids result).people ≡ no_one }
        ensures table { (state_of S.table S.ids result).table ≡ S.table storages }
        ensures ids { (state_of S.table S.ids result).ids ≡ S.ids storages }
        ensures jobs { (world_state S.table S.ids result).jobs ≡ [] }
        ensures begins { HasNoValue (S.table storages) → IsNew (state_of S.table S.ids result) }
        ensures living { HasNoValue (S.table storages) → OnlyLiving (state_of S.table S.ids result) }
    {
        World {
            parts: WorldParts {
                core: Core::new(alloc, storages),
                lazy: LazyUpdate::new(alloc),
            },
            kept: None,
        }
    }

    /// Both parts, to change them: `let WorldParts { core, lazy } = world.parts();` lends each.
    pub fn parts(&mut self) -> &mut WorldParts<S, J>
        ensures* lends { sem 𝓛 (LendsWorldParts S.row J.row S.Slot.row S.Value.row self.entry result) }
        ensures value { result.now ≡ self.old.parts }
    {
        &mut self.parts
    }

    /// How many jobs wait.
    pub fn waiting(&self) -> usize
        ensures { result ≡ length (world_state S.table S.ids self.now).jobs }
    {
        let queued = self.parts.lazy.count();
        if self.kept.is_some() {
            queued + 1
        } else {
            queued
        }
    }
}

impl<S: Storages, J: WorldJob<S>> World<S, J> {
    /// Takes up pending births, lets the marked die with their components, and then does jobs in order while fewer than `limit` were done;
    /// those that jobs queue come last. It takes memory for the list of the dead, for events, and for what the jobs do. A refused call did
    /// nothing. A job that finds no memory ends the run and stays the first. Ports `WorldExt::maintain`.
    pub fn maintain(&mut self, limit: u64) -> Result<Maintained, AllocError>
        ensures ok { IfOk result (λ m. Maintains S.place S.marks J.does J.wants (world_state S.table S.ids self.old) limit m (world_state S.table S.ids self.new)) }
        ensures gone { IfOk result (λ m. All (IsGone (state_of S.table S.ids self.new).people) m.deleted.items) }
        ensures living { KeepsLiving (state_of S.table S.ids self.old) (state_of S.table S.ids self.new) }
        ensures stays_gone { KeepsGone (state_of S.table S.ids self.old).people (state_of S.table S.ids self.new).people }
        ensures idle { NoneMarked (state_of S.table S.ids self.old).people → IsOk result }
        ensures err { OnErr result (world_state S.table S.ids self.new ≡ world_state S.table S.ids self.old) }
    {
        let deleted = self.parts.core.merge()?;
        let ending = run_jobs(
            &mut self.parts.core,
            &mut self.kept,
            &mut self.parts.lazy,
            limit,
        );
        Ok(Maintained {
            deleted,
            ran: ending.ran,
            refused: ending.refused,
            left: self.waiting(),
            stopped: ending.stopped,
        })
    }
}

impl<S: CloneStorages, J: WorldJob<S>> World<S, J> {
    /// Does commands in order, with room for all replies got first. Where that room was refused, nothing was done. The empty list is not refused.
    pub fn run(&mut self, commands: Vec<Command<S, J>>) -> Result<Vec<Reply<S::Value>>, AllocError>
        ensures run { IfOk result (λ replies. Run S.place S.clones S.marks J.does J.wants (world_state S.table S.ids self.old) commands.items replies.items (world_state S.table S.ids self.new)) }
        ensures err { OnErr result (world_state S.table S.ids self.new ≡ world_state S.table S.ids self.old) }
        ensures idle { commands.items ≡ [] → IsOk result }

        // The laws of runs, as this run kept them.
        ensures living { KeepsLiving (state_of S.table S.ids self.old) (state_of S.table S.ids self.new) }
        ensures gone { KeepsGone (state_of S.table S.ids self.old).people (state_of S.table S.ids self.new).people }
        ensures events { IfOk result (λ replies. FollowsQuietly J.spares S.Slot.eq (world_state S.table S.ids self.old) commands.items replies.items (world_state S.table S.ids self.new)) }
    {
        let mut replies = Vec::with_capacity(self.parts.core.alloc, commands.len())?;
        for command in commands {
            let reply = self.apply(command);
            match replies.push(reply) {
                Ok(()) => {}
                Err(_) => unreachable!(),
            }
        }
        Ok(replies)
    }
}
