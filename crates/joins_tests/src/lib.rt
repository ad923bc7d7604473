//! Joins and change sets as callers walk them, as tests.
#![tactic(auto)]

#[cfg(test)]
mod asserts;
#[cfg(test)]
mod change_set_tests;
#[cfg(test)]
mod closure_tests;
#[cfg(test)]
mod closure_walks;
#[cfg(test)]
mod cursor_tests;
#[cfg(test)]
mod cursor_walks;
#[cfg(test)]
mod getting_tests;
#[cfg(test)]
mod join_tests;
#[cfg(test)]
mod joined_calls;
#[cfg(test)]
mod stories;
#[cfg(test)]
mod walks;
#[cfg(test)]
mod worlds;
#[cfg(test)]
mod yard;
#[cfg(test)]
mod yard_calls;
