//! Sets and their views, as tests.
#![tactic(auto)]

#[cfg(test)]
mod asserts;
#[cfg(test)]
mod sets;
