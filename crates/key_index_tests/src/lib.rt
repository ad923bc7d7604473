//! Indices that are kept from events, as tests.
#![tactic(auto)]

#[cfg(test)]
mod calls;
#[cfg(test)]
mod refusals;
#[cfg(test)]
mod scores;
