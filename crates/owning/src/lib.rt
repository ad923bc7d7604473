//! Components that own memory, as a user's crate declares them: each type in each kind of storage that needs no default value, one in a kind that does, and what is proved of three calls.
#![tactic(auto)]

pub mod boxes;
mod calls;
pub mod cargos;
pub mod counts;
mod jobs;
pub mod labels;
pub mod names;
mod world;

pub use calls::{goods_of, named, unloaded};
pub use jobs::Renaming;
pub use world::{Ledger, Store, called, ledger, told};
