//! Worked examples of the program: scripts with their status and both outputs.
#![tactic(auto)]

#[cfg(test)]
mod failing_streams;
#[cfg(test)]
mod hostile_entities;
#[cfg(test)]
mod hostile_scripts;
#[cfg(test)]
mod index_scripts;
#[cfg(test)]
mod job_scripts;
#[cfg(test)]
mod runs;
#[cfg(test)]
mod saving_scripts;
#[cfg(test)]
mod scripts;
#[cfg(test)]
mod selections;
#[cfg(test)]
mod streams;
#[cfg(test)]
mod upstream_entities;
#[cfg(test)]
mod upstream_storages;
