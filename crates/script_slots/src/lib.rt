//! The storages of the program `specs-run`, one for each of its component types, and the jobs of its own.
#![tactic(auto)]

mod components;
mod saved;
mod script_job;
mod slots;

pub use components::{Defense, Health, HealthValue, Link, Mapped, Position, Tag, Treed, Velocity};
pub use script_job::ScriptJob;
pub use slots::{
    DEF, HP, ID, LINK, Label, Labels, MAP, POS, Saved, SavedPlaces, SavedSlots, Slot, Slots, TAG,
    TREE, VEL, Value,
};
