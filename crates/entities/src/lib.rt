//! The entities of a world: births and deaths of generations of indices.
#![tactic(auto)]

mod allocator;
mod constants;
mod create_iter;
mod entities_res;
mod entity;
mod error;
mod lowering;
mod phase;
mod res_builder;

pub use allocator::{Allocator, CreateError};
pub use constants::limits;
pub use create_iter::CreateIterAtomic;
pub use entities_res::EntitiesRes;
pub use entity::{DELETE, Entity, Generation, Index, LAST_GENERATION, WrongGeneration, order};
pub use error::Error;
pub use hibits::INDEX_LIMIT;
pub use phase::{Board, Closed, Exhausted, MOST_PASSES, OpenError, Pass, Shared};
pub use res_builder::EntityResBuilder;
