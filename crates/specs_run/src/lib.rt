//! Scripts of world commands: how their lines are read, run and answered.
#![tactic(auto)]

mod finding;
mod parse;
mod printed;
mod saving;
mod script;
mod sets;
mod slot_names;
mod values;
mod words;

pub use script::run_script;
pub use sets::NESTING_LIMIT;
