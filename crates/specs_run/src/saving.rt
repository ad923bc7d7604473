//! The lines of a script that have to do with labels.
use crate::parse::Saving;
use crate::printed::write_entity;
use composed::{Both, LoadWorldError, SaveWorldError, SavedTypes, Sole, TwoFields};
use saveload::{LoadError, SaveError, serialize_recursive, to_json};
use script_slots::{Label, Labels, Link, Position, SavedPlaces, SavedSlots};
use specs::{CloneStorages, EntitiesRes, Entity, MarkError, Refusal};
use std::alloc::{AllocError, Global};
use std::fmt;
use storages::{MaskedStorage, ReadStorage, WriteStorage};

/// The component types that are saved.
type SavedComponents = (Position, Link);

/// What is printed for a line that has to do with labels.
#[derive(Drop)]
pub enum Said {
    /// It is done.
    Done,
    /// The label of an entity.
    Label(Label),
    /// The text of what is saved.
    Text(String),
    /// The line is refused.
    Refused(SavingError),
}

/// Why a line that has to do with labels is refused.
#[derive(Debug, Drop)]
pub enum SavingError {
    /// A slot that it is of is not registered.
    Unregistered,
    /// The entity that was to get a label is not alive.
    NotAlive,
    /// A saved component refers to this entity, which has no label.
    Unmarked(Entity),
    /// Every id was given.
    IdsExhausted,
    /// No index is left for an entity.
    IndexLimit,
    /// The text is none of a list.
    NotTheForm,
    /// There is no memory.
    OutOfMemory,
}

impl From<AllocError> for SavingError {
    fn from(_error: AllocError) -> Self {
        SavingError::OutOfMemory
    }
}

impl From<MarkError> for SavingError {
    fn from(error: MarkError) -> Self {
        match error {
            MarkError::Unregistered | MarkError::NoMarker => SavingError::Unregistered,
            // Ids are numbers, of which none that is new is taken.
            MarkError::IdsExhausted | MarkError::IdTaken => SavingError::IdsExhausted,
            MarkError::OutOfMemory => SavingError::OutOfMemory,
        }
    }
}

impl From<Refusal> for SavingError {
    fn from(refusal: Refusal) -> Self {
        match refusal {
            Refusal::OutOfMemory => SavingError::OutOfMemory,
            _ => SavingError::Unregistered,
        }
    }
}

impl From<SaveError> for SavingError {
    fn from(error: SaveError) -> Self {
        match error {
            SaveError::Unmarked(e) => SavingError::Unmarked(e),
            SaveError::IdsExhausted | SaveError::IdTaken => SavingError::IdsExhausted,
            // No saved component has a cause of its own.
            SaveError::Custom(_) | SaveError::OutOfMemory => SavingError::OutOfMemory,
        }
    }
}

impl From<LoadError> for SavingError {
    fn from(error: LoadError) -> Self {
        match error {
            LoadError::NotTheForm => SavingError::NotTheForm,
            LoadError::IndexLimit => SavingError::IndexLimit,
            // No saved component has a cause of its own.
            LoadError::Custom(_) | LoadError::OutOfMemory => SavingError::OutOfMemory,
        }
    }
}

impl From<SaveWorldError> for SavingError {
    fn from(error: SaveWorldError) -> Self {
        match error {
            SaveWorldError::Unregistered => SavingError::Unregistered,
            SaveWorldError::Refused(error) => SavingError::from(error),
        }
    }
}

impl From<LoadWorldError> for SavingError {
    fn from(error: LoadWorldError) -> Self {
        match error {
            LoadWorldError::Unregistered => SavingError::Unregistered,
            LoadWorldError::Refused(error) => SavingError::from(error),
        }
    }
}

impl fmt::Display for SavingError {
    fn fmt<W: fmt::Write>(&self, f: &mut fmt::Formatter<W>) -> fmt::Result {
        match self {
            SavingError::Unregistered => write!(f, "unregistered"),
            SavingError::NotAlive => write!(f, "not alive"),
            SavingError::Unmarked(e) => {
                write!(f, "unmarked ")?;
                write_entity(f, *e)
            }
            SavingError::IdsExhausted => write!(f, "ids exhausted"),
            SavingError::IndexLimit => write!(f, "index limit"),
            SavingError::NotTheForm => write!(f, "not the form"),
            SavingError::OutOfMemory => write!(f, "out of memory"),
        }
    }
}

impl fmt::Display for Said {
    fn fmt<W: fmt::Write>(&self, f: &mut fmt::Formatter<W>) -> fmt::Result {
        match self {
            Said::Done => write!(f, "ok"),
            Said::Label(label) => write!(f, "{label}"),
            Said::Text(text) => write!(f, "{text}"),
            Said::Refused(error) => write!(f, "error: {error}"),
        }
    }
}

/// Storages of which some are saved.
pub trait Saves {
    /// Does a line that has to do with labels.
    fn said(&mut self, alloc: Global, entities: &mut EntitiesRes, line: Saving<'_>) -> Said;
}

impl<A> Saves for Both<A, SavedSlots> {
    fn said(&mut self, alloc: Global, entities: &mut EntitiesRes, line: Saving<'_>) -> Said {
        let Both {
            first: places,
            rest: labels,
        } = &mut self.rest;
        let done = match line {
            Saving::Label(e) => {
                label(labels, entities, Sole::Sole, e).map(|label| Said::Label(label))
            }
            Saving::Save => save(alloc, entities, places, labels).map(|text| Said::Text(text)),
            Saving::SaveAll => {
                save_all(alloc, entities, places, labels).map(|text| Said::Text(text))
            }
            Saving::Load(text) => {
                load(alloc, entities, places, labels, text).map(|()| Said::Done)
            }
        };
        match done {
            Ok(said) => said,
            Err(error) => Said::Refused(error),
        }
    }
}

/// The marker of an entity, which gets one if it has none.
fn label<S: CloneStorages>(
    storages: &mut S,
    entities: &EntitiesRes,
    slot: S::Slot,
    e: Entity,
) -> Result<S::Value, SavingError> {
    match storages.mark(entities, slot, e)? {
        Some(_) => storages
            .get(entities, slot, e)?
            .ok_or(SavingError::NotAlive),
        None => Err(SavingError::NotAlive),
    }
}

/// The text of the entities that have labels.
fn save(
    alloc: Global,
    entities: &EntitiesRes,
    places: &SavedPlaces,
    labels: &Labels,
) -> Result<String, SavingError> {
    Ok(SavedComponents::save(alloc, places, entities, labels)?)
}

/// The text of the entities that have labels, and of those that they lead to, which get labels.
fn save_all(
    alloc: Global,
    entities: &EntitiesRes,
    places: &SavedPlaces,
    labels: &mut Labels,
) -> Result<String, SavingError> {
    let storages: Option<(&MaskedStorage<Position>, &MaskedStorage<Link>)> = places.two();
    let (Some((positions, links)), Some(markers)) = (storages, &mut labels.markers.field) else {
        return Err(SavingError::Unregistered);
    };
    let saved = (
        ReadStorage::new(entities, positions),
        ReadStorage::new(entities, links),
    );
    let mut markers = WriteStorage::new(entities, markers);
    let list = serialize_recursive(alloc, &saved, &mut labels.allocator, &mut markers)?;
    Ok(to_json(alloc, &list)?)
}

/// Makes the entities of a text, and stores what it tells of them.
fn load(
    alloc: Global,
    entities: &mut EntitiesRes,
    places: &mut SavedPlaces,
    labels: &mut Labels,
    text: &str,
) -> Result<(), SavingError> {
    SavedComponents::load(alloc, places, entities, labels, text)?;
    Ok(())
}
