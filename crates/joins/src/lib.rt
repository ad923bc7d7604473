//! Joins over sets, storages and entities, and change sets: values that combine at each entity until they are applied.
#![tactic(auto)]

mod bit_and;
mod change_set;
mod combine;
mod components;
mod consumed;
mod cursors;
mod indexed;
mod iter;
mod join;
mod lent_sets;
mod living;
mod lookup;
mod lookup_tuples;
mod optional;
mod repeatable;
mod restricted;
mod sets;
mod tuples;

pub use bit_and::BitAnd;
pub use change_set::{ChangeError, ChangeSet};
pub use combine::{Combine, Refused};
pub use cursors::change_join::ChangeJoin;
pub use cursors::drain::Drain;
pub use cursors::each::ForEach;
pub use cursors::each_error::EachError;
pub use cursors::entry_join::EntryJoin;
pub use cursors::join_living::JoinLiving;
pub use cursors::join_mut::JoinMut;
pub use cursors::restricted_mut::RestrictedStorageMut;
pub use cursors::write_join::WriteJoin;
pub use cursors::write_join2::WriteJoin2;
pub use indexed::IndexedStorage;
pub use iter::JoinIter;
pub use join::Join;
pub use lookup::Lookup;
pub use optional::{MaybeJoin, MaybeValues, maybe};
pub use repeatable::RepeatableJoin;
pub use restricted::{PairedStorage, Restrict, RestrictedStorage};
