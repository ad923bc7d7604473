//! Tests of joins in threads.
#![tactic(auto)]

#[cfg(test)]
mod components;
#[cfg(test)]
mod cut_tests;
#[cfg(test)]
mod meeting_tests;
#[cfg(test)]
mod meeting_update_tests;
#[cfg(test)]
mod place_tests;
#[cfg(test)]
mod relying_tests;
#[cfg(test)]
mod restricted_tests;
#[cfg(test)]
mod update_tests;
#[cfg(test)]
mod upstream_tests;
