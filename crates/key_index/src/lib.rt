//! An index of the components of a tracked storage by a key, kept from the storage's events.
#![tactic(auto)]

mod following;
mod key_index;
mod key_lists;
mod key_of;
mod lists;
mod ranked;

pub use key_index::{IndexError, KeyIndex, Stale};
pub use key_of::KeyOf;
