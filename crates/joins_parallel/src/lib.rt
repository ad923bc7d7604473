//! Joins that are mapped in several threads, and storages that are updated by what threads made.
#![tactic(auto)]

mod cut;
mod in_place;
mod map;
mod pieces;
mod restricted;
mod sharing;
mod update;

pub use in_place::{Placed, par_for_each};
pub use map::{JoinParIter, ParJoin};
pub use restricted::{Remake, par_restrict_mut};
pub use update::par_update;
