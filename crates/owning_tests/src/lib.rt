//! Components that own memory, in each kind of storage and in worlds, as tests.
#![tactic(auto)]

#[cfg(test)]
mod kinds;
#[cfg(test)]
mod worlds;
