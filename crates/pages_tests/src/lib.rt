//! Pages, as tests.
#![tactic(auto)]

#[cfg(test)]
mod asserts;
#[cfg(test)]
mod rows;
#[cfg(test)]
mod tables;
