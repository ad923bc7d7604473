//! Tests of phases under many passes, in threads.
#![tactic(auto)]

#[cfg(test)]
mod calls;
#[cfg(test)]
mod dropped;
#[cfg(test)]
mod many;
#[cfg(test)]
mod meeting;
#[cfg(test)]
mod random;
#[cfg(test)]
mod small;
#[cfg(test)]
mod stories;
#[cfg(test)]
mod turns;
#[cfg(test)]
mod wander;
