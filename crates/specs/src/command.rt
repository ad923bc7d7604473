//! Commands and their replies.
mod apply;
mod channel_call;

use crate::job::{Job, NoJob};
use crate::slots::Held;
pub use channel_call::{ChannelCall, ChannelReply};
use entities::{Entity, Index, WrongGeneration};
use storages::{ComponentEvent, ReaderId};
use thiserror::Error;

/// A set of indices below the limit.
#[derive(Debug, Drop)]
pub enum SetExpr<K> {
    /// The indices with a value in a slot.
    Slot(K),
    /// The indices of the living entities, those of pending births among them.
    Living,
    /// The indices of both sets.
    And(Box<SetExpr<K>>, Box<SetExpr<K>>),
    /// The indices of either set.
    Or(Box<SetExpr<K>>, Box<SetExpr<K>>),
    /// The indices of one set and not of the other.
    Xor(Box<SetExpr<K>>, Box<SetExpr<K>>),
    /// The indices below the limit that are not of the set.
    Not(Box<SetExpr<K>>),
}

/// What a world over the storages `S`, with jobs `J` of the user's, is asked to do.
#[derive(Drop)]
pub enum Command<S: Held, J = NoJob> {
    /// Makes an empty storage for a slot that has none.
    Register(S::Slot),
    /// A birth at once.
    Create,
    /// A birth that is pending until `Maintain`.
    CreatePending,
    /// The death at once of a list of entities, with their components.
    Delete(Vec<Entity>),
    /// The death at once of every living entity, pending births among them, with their components.
    DeleteAll,
    /// Marks an entity, which dies at the next `Maintain`.
    MarkDead(Entity),
    /// Asks whether an entity is alive and not pending.
    IsAlive(Entity),
    /// Asks whether an entity is alive, pending births counted.
    IsLiving(Entity),
    /// Asks for the entity of an index, as it is or as it would first be born.
    EntityAt(Index),
    /// Puts a value at an entity that is alive, in the value's slot.
    Insert(Entity, S::Value),
    /// Asks for a copy of the value of an entity in a slot.
    Get(S::Slot, Entity),
    /// Takes the value of an entity out of a slot.
    Remove(S::Slot, Entity),
    /// Removes every value of a slot.
    Clear(S::Slot),
    /// Asks how many values a slot has.
    Count(S::Slot),
    /// Asks for the ascending list of the members of a set.
    Select(SetExpr<S::Slot>),
    /// Queues a job, which the next `Maintain` does in its turn.
    Queue(Job<S, J>),
    /// Takes up pending births, lets the marked die with their components, and then does at most so many of the queued jobs.
    Maintain(u64),
    /// Registers a reader of a slot's events.
    Reader(S::Slot),
    /// Asks for the events of a slot that a reader has not read, which it has read then.
    Events(S::Slot, ReaderId),
    /// Ends a reader of a slot's events.
    DropReader(S::Slot, ReaderId),
    /// Turns the events of a slot on or off.
    Emit(S::Slot, bool),
}

/// The answer to a command.
#[derive(Debug, Drop)]
pub enum Reply<V> {
    /// A registration, a deletion, a mark, a clearing, the end of a reader or a switch of events was done, or a job was queued.
    Done,
    /// The entity that was born, or that an index has.
    Entity(Entity),
    /// Whether the entity is alive, as it was asked.
    Bool(bool),
    /// The value before an insertion, the value that was read, or the one that was removed, if there was one.
    Value(Option<V>),
    /// How many values the slot has.
    Count(usize),
    /// The members of the set, ascending.
    Indices(Vec<Index>),
    /// What a `Maintain` did.
    Maintained(Maintained),
    /// The reader that was registered.
    Reader(ReaderId),
    /// What the reader had not read, in order.
    Events(Vec<ComponentEvent>),
    /// The command was refused, and changed nothing.
    Refused(Refusal),
    /// An insertion was refused, and changed nothing: the value is handed back.
    InsertRefused(Refusal, V),
}

/// What `World::maintain` did.
#[derive(Debug, Drop)]
pub struct Maintained {
    /// The entities that died, as they lived, ascending by index.
    pub deleted: Vec<Entity>,
    /// How many queued jobs ran to their end.
    pub ran: u64,
    /// How many insertions and marks of those jobs were refused for another cause than memory.
    pub refused: u128,
    /// How many jobs are queued still.
    pub left: usize,
    /// Whether a job found no memory.
    pub stopped: bool,
}

/// Why a command was refused.
#[derive(Clone, Copy, Debug, PartialEq, Eq, Error)]
pub enum Refusal {
    /// The entity is not alive.
    #[error("{0}")]
    WrongGeneration(WrongGeneration),
    /// The slot has no storage.
    #[error("the slot is not registered")]
    Unregistered,
    /// No index is free, and each index below the limit was born.
    #[error("every index below the limit is used")]
    IndexLimit,
    /// Memory was refused.
    #[error("out of memory")]
    OutOfMemory,
    /// The slot's storage has no channel of events.
    #[error("the slot's storage has no channel of events")]
    Untracked,
    /// The number is of no registered reader of the slot.
    #[error("the number is of no registered reader")]
    UnknownReader,
}
