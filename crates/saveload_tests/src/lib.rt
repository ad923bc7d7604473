//! Markers, saving and loading, as tests.
#![tactic(auto)]

#[cfg(test)]
mod components;
#[cfg(test)]
mod equality_tests;
#[cfg(test)]
mod json_tests;
#[cfg(test)]
mod link_tests;
#[cfg(test)]
mod marker_tests;
#[cfg(test)]
mod own_marker_tests;
#[cfg(test)]
mod saving_tests;
#[cfg(test)]
mod shape_tests;
#[cfg(test)]
mod single_tests;
#[cfg(test)]
mod stopped_tests;
#[cfg(test)]
mod tuple_tests;
#[cfg(test)]
mod uuid_tests;
#[cfg(test)]
mod worlds;
