//! A shared phase: several threads make and delete entities at once, without a lock.
//!
//! Opening sets a reserve of entities aside. Each pass draws tickets by one atomic addition, and marks by an atomic "or", which is built as a
//! load and a compare-and-exchange that may repeat. Closing takes up what was drawn and marked.
mod board;
mod closing;
mod opening;
mod pass;
mod plan;
mod reserve;
mod rule;
mod shared;
mod start;
mod steps;
mod trace;

pub use board::Board;
pub use opening::{MOST_PASSES, OpenError};
pub use pass::Pass;
pub use shared::{Closed, Exhausted, Shared};
