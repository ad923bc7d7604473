//! Storages of components: six kinds under one contract, storages with their masks, views beside the entities, and
//! the entries of single indices.
#![tactic(auto)]

mod anti_storage;
mod any_storage;
mod builder;
mod channel;
mod entry;
mod event;
mod flagged;
mod generic;
mod kinds;
mod life;
mod masked;
mod maybe_tracked;
mod read_storage;
mod reader_id;
mod slices;
mod tracked;
mod tracked_views;
mod unprotected;
mod write_storage;

pub use anti_storage::AntiStorage;
pub use any_storage::AnyStorage;
pub use builder::WithComponent;
pub use channel::EventChannel;
pub use entry::{OccupiedEntry, StorageEntry, VacantEntry};
pub use event::ComponentEvent;
pub use flagged::FlaggedStorage;
pub use generic::{GenericReadStorage, GenericWriteStorage};
pub use kinds::{
    BTreeStorage, DefaultVecStorage, DenseVecStorage, HashMapStorage, NullComponent, NullStorage,
    VecStorage,
};
pub use masked::{MaskedStorage, NotLent, Replaced};
pub use maybe_tracked::{MaybeTracked, NoReaders, ReaderCalls, Silent, WithReaders};
pub use read_storage::ReadStorage;
pub use reader_id::{ReaderId, UnknownReader};
pub use slices::{SliceAccess, SliceAccessMut};
pub use tracked::Tracked;
pub use unprotected::{Component, Kind, Numbered, TryDefault, UnprotectedStorage};
pub use write_storage::{INSERT, InsertError, WriteStorage};
