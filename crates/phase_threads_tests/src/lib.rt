//! Phases, alone and in threads, as tests.
#![tactic(auto)]

#[cfg(test)]
mod phases;
