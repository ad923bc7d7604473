//! Births, deaths, marks and merges, as tests.
#![tactic(auto)]

#[cfg(test)]
mod stories;
