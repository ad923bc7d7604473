//! Storages at concrete types, as tests: what callers learn of a loan, and what every kind of storage does.
#![tactic(auto)]

#[cfg(test)]
mod asserts;
mod components;
#[cfg(test)]
mod default_vec_tests;
#[cfg(test)]
mod entry_calls;
#[cfg(test)]
mod entry_tests;
#[cfg(test)]
mod event_tests;
#[cfg(test)]
mod kind_tests;
#[cfg(test)]
mod kinds;
#[cfg(test)]
mod loans;
#[cfg(test)]
mod memory_tests;
#[cfg(test)]
mod numbers;
#[cfg(test)]
mod shelf;
#[cfg(test)]
mod shelf_calls;
#[cfg(test)]
mod stories;
#[cfg(test)]
mod told_calls;
#[cfg(test)]
mod vec_tests;
#[cfg(test)]
mod view_tests;
#[cfg(test)]
mod world;

pub use components::InDense;
