//! Worked examples of worlds, by their calls.
#![tactic(auto)]

#[cfg(test)]
mod acts;
#[cfg(test)]
mod asserts;
#[cfg(test)]
mod callers;
#[cfg(test)]
mod calls;
#[cfg(test)]
mod composed_slots;
#[cfg(test)]
mod doc_jobs;
#[cfg(test)]
mod indexed_worlds;
#[cfg(test)]
mod jobs;
#[cfg(test)]
mod listed;
#[cfg(test)]
mod own_jobs;
#[cfg(test)]
mod phases;
#[cfg(test)]
mod saved_worlds;
#[cfg(test)]
mod stories;
#[cfg(test)]
mod two_at_once;
#[cfg(test)]
mod typed_worlds;
#[cfg(test)]
mod upstream_births;
#[cfg(test)]
mod upstream_lazy;
#[cfg(test)]
mod upstream_markers;
#[cfg(test)]
mod worlds;
