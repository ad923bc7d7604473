//! The lines of a script that have to do with the index of `hp`, and what others do to it.
use crate::parse::Finding;
use script_slots::{Health, HealthValue};
use specs::{
    Command, Core, EntitiesRes, Has, Index, KeyIndex, MaskedStorage, Parts, Storages,
    WorldIndexError, WriteStorage, slot,
};
use std::fmt;

/// The index of `hp`, if there is one.
pub type HealthIndex = Option<KeyIndex<Health, HealthValue>>;

/// What is printed for a line that has to do with the index.
#[derive(Drop)]
pub enum Found<'a> {
    /// It is done.
    Done,
    /// The indices that have a value.
    Indices(&'a [Index]),
    /// The line is refused.
    Refused(FindingError),
}

/// Why a line that has to do with the index is refused.
#[derive(Clone, Copy)]
pub enum FindingError {
    /// The slot is not registered.
    Unregistered,
    /// The slot's events are off, so that an index would not follow it.
    EmissionOff,
    /// There is no index.
    NoIndex,
    /// The index's reader is not registered.
    UnknownReader,
    /// There is no memory.
    OutOfMemory,
}

impl From<WorldIndexError> for FindingError {
    fn from(error: WorldIndexError) -> Self {
        match error {
            WorldIndexError::Unregistered => FindingError::Unregistered,
            WorldIndexError::UnknownReader => FindingError::UnknownReader,
            WorldIndexError::OutOfMemory => FindingError::OutOfMemory,
        }
    }
}

impl fmt::Display for FindingError {
    fn fmt<W: fmt::Write>(&self, f: &mut fmt::Formatter<W>) -> fmt::Result {
        match self {
            FindingError::Unregistered => write!(f, "unregistered"),
            FindingError::EmissionOff => write!(f, "emission off"),
            FindingError::NoIndex => write!(f, "no index"),
            FindingError::UnknownReader => write!(f, "unknown reader"),
            FindingError::OutOfMemory => write!(f, "out of memory"),
        }
    }
}

impl<'a> fmt::Display for Found<'a> {
    fn fmt<W: fmt::Write>(&self, f: &mut fmt::Formatter<W>) -> fmt::Result {
        match self {
            Found::Done => write!(f, "ok"),
            Found::Indices(indices) => write!(f, "{indices:?}"),
            Found::Refused(error) => write!(f, "error: {error}"),
        }
    }
}

/// Does a line that has to do with the index.
pub fn answered<'a, S: Has<Health, I>, I>(
    core: &mut Core<S>,
    index: &'a mut HealthIndex,
    line: Finding,
) -> Found<'a> {
    match line {
        Finding::Index => match make(core, index) {
            Ok(()) => Found::Done,
            Err(error) => Found::Refused(error),
        },
        Finding::Find(value) => match find(core, index, value) {
            Ok(indices) => Found::Indices(indices),
            Err(error) => Found::Refused(error),
        },
    }
}

/// A new index, in the place of an earlier one, which stays where the new one is refused.
fn make<S: Has<Health, I>, I>(
    core: &mut Core<S>,
    index: &mut HealthIndex,
) -> Result<(), FindingError> {
    match core.parts().storages.field() {
        None => return Err(FindingError::Unregistered),
        Some(health) => {
            if !health.event_emission() {
                return Err(FindingError::EmissionOff);
            }
        }
    }
    let made = core.make_index(HealthValue)?;
    end(core, index);
    *index = Some(made);
    Ok(())
}

/// The indices that have a value now.
fn find<'a, S: Has<Health, I>, I>(
    core: &mut Core<S>,
    index: &'a mut HealthIndex,
    value: i64,
) -> Result<&'a [Index], FindingError> {
    let Some(index) = index else {
        return Err(FindingError::NoIndex);
    };
    core.refresh_index(index)?;
    match index.at(value) {
        Ok(indices) => Ok(indices),
        Err(_) => Err(FindingError::OutOfMemory),
    }
}

/// Ends an index with its reader.
fn end_on(
    health: &mut MaskedStorage<Health>,
    entities: &EntitiesRes,
    ended: KeyIndex<Health, HealthValue>,
) {
    ended.end(&mut WriteStorage::new(entities, health));
}

/// Ends the index with its reader, if there is one.
fn end<S: Has<Health, I>, I>(core: &mut Core<S>, index: &mut HealthIndex) {
    if let Some(ended) = index.take() {
        let Parts { entities, storages } = core.parts();
        if let Some(health) = storages.field_mut() {
            end_on(health, entities, ended);
        }
    }
}

/// Ends the index where a command turns the events of `hp` off.
pub fn before<S: Storages + Has<Health, I>, I, J>(
    core: &mut Core<S>,
    index: &mut HealthIndex,
    command: &Command<S, J>,
) {
    if let Command::Emit(of, false) = command
        && *of == slot::<Health, S, I>()
    {
        end(core, index);
    }
}

/// Whether a command reads the events of the index's own reader, which a script does not have.
pub fn reads_own<S: Storages + Has<Health, I>, I, J>(
    index: &HealthIndex,
    command: &Command<S, J>,
) -> bool {
    match (index, command) {
        (Some(index), Command::Events(of, reader)) => {
            *of == slot::<Health, S, I>() && reader.number() == index.reader().number()
        }
        _ => false,
    }
}
