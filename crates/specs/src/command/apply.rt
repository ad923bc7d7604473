//! What a world does at each command.
ghost use Rattle.specs.specs.Laws.Gone.{KeepsGone};
ghost use Rattle.specs.specs.Laws.Reached.{KeepsLiving};
ghost use Rattle.specs.specs.World.State.{core_state, state_of};
ghost use Rattle.specs.specs.Job.Steps.{world_state, Step};
ghost use Rattle.specs.specs.World.Refused.{BirthStep, CountStep};
ghost use Rattle.specs.specs.declared.command.Command.TheVariants.{Register, Delete, DeleteAll, MarkDead, Insert, Get, Remove, Clear, Select, Queue, Maintain, Reader, Events, DropReader, Emit};

use crate::command::{Command, Refusal, Reply, SetExpr};
use crate::job::{Job, WorldJob};
use crate::slots::{CloneStorages, Storages};
use crate::world::{Core, Parts, World};
use entities::{CreateError, Entity};
use storages::ReaderId;

impl<S: CloneStorages, J: WorldJob<S>> World<S, J> {
    /// Does one command.
    pub fn apply(&mut self, command: Command<S, J>) -> Reply<S::Value>
        ensures step { Step S.place S.clones S.marks J.does J.wants (world_state S.table S.ids self.old) command result (world_state S.table S.ids self.new) }
        ensures living { KeepsLiving (state_of S.table S.ids self.old) (state_of S.table S.ids self.new) }
        ensures gone { KeepsGone (state_of S.table S.ids self.old).people (state_of S.table S.ids self.new).people }
    {
        self.answer(command)
    }

    fn answer(&mut self, command: Command<S, J>) -> Reply<S::Value>
        ensures { Step S.place S.clones S.marks J.does J.wants (world_state S.table S.ids self.old) command result (world_state S.table S.ids self.new) }
    {
        match command {
            Command::Register(slot) => self.answer_register(slot),
            Command::Create => self.parts.core.birth(false),
            Command::CreatePending => self.parts.core.birth(true),
            Command::Delete(list) => self.answer_delete(list),
            Command::DeleteAll => self.answer_delete_all(),
            Command::MarkDead(e) => self.answer_mark(e),
            Command::IsAlive(e) => Reply::Bool(self.parts.core.is_alive(e)),
            Command::IsLiving(e) => Reply::Bool(self.parts.core.parts.entities.is_alive(e)),
            Command::EntityAt(index) => Reply::Entity(self.parts.core.parts.entities.entity(index)),
            Command::Insert(e, value) => self.answer_insert(e, value),
            Command::Get(slot, e) => self.answer_get(slot, e),
            Command::Remove(slot, e) => self.answer_remove(slot, e),
            Command::Clear(slot) => self.answer_clear(slot),
            Command::Count(slot) => self.parts.core.count(slot),
            Command::Select(set) => self.answer_select(set),
            Command::Queue(job) => self.answer_queue(job),
            Command::Maintain(limit) => self.answer_maintain(limit),
            Command::Reader(slot) => self.answer_reader(slot),
            Command::Events(slot, reader) => self.answer_events(slot, reader),
            Command::DropReader(slot, reader) => self.answer_drop_reader(slot, reader),
            Command::Emit(slot, on) => self.answer_emit(slot, on),
        }
    }

    fn answer_delete(&mut self, list: Vec<Entity>) -> Reply<S::Value>
        ensures { Step S.place S.clones S.marks J.does J.wants (world_state S.table S.ids self.old) (Delete list) result (world_state S.table S.ids self.new) }
    {
        match self.parts.core.delete_entities(list.as_slice()) {
            Ok(()) => Reply::Done,
            Err(refused) => Reply::Refused(refused.into()),
        }
    }

    fn answer_delete_all(&mut self) -> Reply<S::Value>
        ensures { Step S.place S.clones S.marks J.does J.wants (world_state S.table S.ids self.old) DeleteAll result (world_state S.table S.ids self.new) }
    {
        match self.parts.core.delete_all() {
            Ok(()) => Reply::Done,
            Err(_) => Reply::Refused(Refusal::OutOfMemory),
        }
    }

    fn answer_mark(&mut self, e: Entity) -> Reply<S::Value>
        ensures { Step S.place S.clones S.marks J.does J.wants (world_state S.table S.ids self.old) (MarkDead e) result (world_state S.table S.ids self.new) }
    {
        match self.parts.core.parts.entities.delete(e) {
            Ok(()) => Reply::Done,
            Err(wrong) => Reply::Refused(Refusal::WrongGeneration(wrong)),
        }
    }

    fn answer_queue(&mut self, job: Job<S, J>) -> Reply<S::Value>
        ensures { Step S.place S.clones S.marks J.does J.wants (world_state S.table S.ids self.old) (Queue job) result (world_state S.table S.ids self.new) }
    {
        match self.parts.lazy.push(job) {
            Ok(()) => Reply::Done,
            Err(_) => Reply::Refused(Refusal::OutOfMemory),
        }
    }

    fn answer_maintain(&mut self, limit: u64) -> Reply<S::Value>
        ensures { Step S.place S.clones S.marks J.does J.wants (world_state S.table S.ids self.old) (Maintain limit) result (world_state S.table S.ids self.new) }
    {
        match self.maintain(limit) {
            Ok(maintained) => Reply::Maintained(maintained),
            Err(_) => Reply::Refused(Refusal::OutOfMemory),
        }
    }

    fn answer_register(&mut self, slot: S::Slot) -> Reply<S::Value>
        ensures { Step S.place S.clones S.marks J.does J.wants (world_state S.table S.ids self.old) (Register slot) result (world_state S.table S.ids self.new) }
    {
        match self
            .parts
            .core
            .parts
            .storages
            .register(self.parts.core.alloc, slot)
        {
            Ok(()) => Reply::Done,
            Err(_) => Reply::Refused(Refusal::OutOfMemory),
        }
    }

    fn answer_insert(&mut self, e: Entity, value: S::Value) -> Reply<S::Value>
        ensures { Step S.place S.clones S.marks J.does J.wants (world_state S.table S.ids self.old) (Insert e value) result (world_state S.table S.ids self.new) }
    {
        let Parts { entities, storages } = &mut self.parts.core.parts;
        match storages.insert(entities, e, value) {
            Ok(before) => Reply::Value(before),
            Err((refusal, value)) => Reply::InsertRefused(refusal, value),
        }
    }

    fn answer_get(&self, slot: S::Slot, e: Entity) -> Reply<S::Value>
        ensures { Step S.place S.clones S.marks J.does J.wants (world_state S.table S.ids self.now) (Get slot e) result (world_state S.table S.ids self.now) }
    {
        let Parts { entities, storages } = &self.parts.core.parts;
        match storages.get(entities, slot, e) {
            Ok(found) => Reply::Value(found),
            Err(refusal) => Reply::Refused(refusal),
        }
    }

    fn answer_remove(&mut self, slot: S::Slot, e: Entity) -> Reply<S::Value>
        ensures { Step S.place S.clones S.marks J.does J.wants (world_state S.table S.ids self.old) (Remove slot e) result (world_state S.table S.ids self.new) }
    {
        let Parts { entities, storages } = &mut self.parts.core.parts;
        match storages.remove(entities, slot, e) {
            Ok(found) => Reply::Value(found),
            Err(refusal) => Reply::Refused(refusal),
        }
    }

    fn answer_clear(&mut self, slot: S::Slot) -> Reply<S::Value>
        ensures { Step S.place S.clones S.marks J.does J.wants (world_state S.table S.ids self.old) (Clear slot) result (world_state S.table S.ids self.new) }
    {
        match self.parts.core.parts.storages.clear(slot) {
            Ok(()) => Reply::Done,
            Err(refusal) => Reply::Refused(refusal),
        }
    }

    fn answer_select(&self, set: SetExpr<S::Slot>) -> Reply<S::Value>
        ensures { Step S.place S.clones S.marks J.does J.wants (world_state S.table S.ids self.now) (Select set) result (world_state S.table S.ids self.now) }
    {
        match self.parts.core.select(&set) {
            Ok(indices) => Reply::Indices(indices),
            Err(refusal) => Reply::Refused(refusal),
        }
    }

    fn answer_reader(&mut self, slot: S::Slot) -> Reply<S::Value>
        ensures { Step S.place S.clones S.marks J.does J.wants (world_state S.table S.ids self.old) (Reader slot) result (world_state S.table S.ids self.new) }
    {
        match self.parts.core.parts.storages.register_reader(slot) {
            Ok(reader) => Reply::Reader(reader),
            Err(refusal) => Reply::Refused(refusal),
        }
    }

    fn answer_events(&mut self, slot: S::Slot, reader: ReaderId) -> Reply<S::Value>
        ensures { Step S.place S.clones S.marks J.does J.wants (world_state S.table S.ids self.old) (Events slot reader) result (world_state S.table S.ids self.new) }
    {
        match self.parts.core.parts.storages.read(slot, &reader) {
            Ok(events) => Reply::Events(events),
            Err(refusal) => Reply::Refused(refusal),
        }
    }

    fn answer_drop_reader(&mut self, slot: S::Slot, reader: ReaderId) -> Reply<S::Value>
        ensures { Step S.place S.clones S.marks J.does J.wants (world_state S.table S.ids self.old) (DropReader slot reader) result (world_state S.table S.ids self.new) }
    {
        match self.parts.core.parts.storages.drop_reader(slot, reader) {
            Ok(()) => Reply::Done,
            Err(refusal) => Reply::Refused(refusal),
        }
    }

    fn answer_emit(&mut self, slot: S::Slot, on: bool) -> Reply<S::Value>
        ensures { Step S.place S.clones S.marks J.does J.wants (world_state S.table S.ids self.old) (Emit slot on) result (world_state S.table S.ids self.new) }
    {
        match self.parts.core.parts.storages.set_event_emission(slot, on) {
            Ok(()) => Reply::Done,
            Err(refusal) => Reply::Refused(refusal),
        }
    }
}

impl<S: Storages> Core<S> {
    /// A birth, at once or pending.
    fn birth(&mut self, pending: bool) -> Reply<S::Value>
        ensures { BirthStep pending (core_state S.table S.ids self.old) result (core_state S.table S.ids self.new) }
    {
        let allocator = self.parts.entities.alloc_mut();
        let given = if pending {
            allocator.allocate_atomic()
        } else {
            allocator.allocate()
        };
        match given {
            Ok(e) => Reply::Entity(e),
            Err(CreateError::IndexLimit) => Reply::Refused(Refusal::IndexLimit),
            Err(CreateError::OutOfMemory) => Reply::Refused(Refusal::OutOfMemory),
        }
    }

    /// How many values a slot has.
    fn count(&self, slot: S::Slot) -> Reply<S::Value>
        ensures { CountStep (core_state S.table S.ids self.now).table slot result }
    {
        match self.parts.storages.mask(slot) {
            Some(mask) => Reply::Count(mask.count()),
            None => Reply::Refused(Refusal::Unregistered),
        }
    }
}
