//! The component types of the game, and what is saved of them.
ghost use Rattle.std.specs.Prelude.{Some};

use composed::{
    BTreeStorage, Both, Component, DenseVecStorage, FlaggedStorage, HashMapStorage, JsonFields,
    Link, Marking, Of6, Relation, SavedText, SimpleMarker, SimpleMarkerAllocator, VecStorage,
};
use std::alloc::{AllocError, Global};

/// Where somebody is.
#[derive(Clone, Copy, Debug)]
pub struct Position(pub f64, pub f64);

impl Component for Position {
    type Storage = VecStorage<Self>;
}

/// How far somebody goes in a turn.
#[derive(Clone, Copy, Debug)]
pub struct Velocity(pub f64, pub f64);

impl Component for Velocity {
    type Storage = VecStorage<Self>;
}

/// What a ship is called.
#[derive(Debug, Drop)]
pub struct Name(pub SavedText);

impl Component for Name {
    type Storage = HashMapStorage<Self>;
}

/// What a ship carries.
#[derive(Debug, Drop)]
pub struct Cargo(pub Vec<u32>);

impl Component for Cargo {
    type Storage = BTreeStorage<Self>;
}

/// That a ship hunts another: its component is `Link<Hunts>`.
pub struct Hunts;

impl Relation for Hunts {
    type Storage = DenseVecStorage<Link<Self>>;
}

/// The points of a ship. Readers are told of each change.
#[derive(Clone, Copy, Debug)]
pub struct Score(pub u32);

impl Component for Score {
    type Storage = FlaggedStorage<Self, DenseVecStorage<Self>>;
}

/// What has a label is saved.
#[derive(Clone, Copy)]
pub struct Saved;

/// Names an entity in a saved text.
pub type Label = SimpleMarker<Saved>;

/// The labels, and what gives their ids.
pub type Labels = Marking<Label, SimpleMarkerAllocator<Saved>>;

/// The storages of the game.
pub type Stores = Both<Of6<Position, Velocity, Name, Cargo, Link<Hunts>, Score>, Labels>;

/// A name is saved as its text.
impl JsonFields for Name {
    type As = SavedText;

    ghost fields = { λ n. n.0 };

    ghost of_fields = { λ t. Some (record { 0 = t }) };

    fn fields(&self, alloc: Global) -> Result<SavedText, AllocError> {
        self.0.copy(alloc)
    }

    fn of_fields(saved: SavedText) -> Option<Name> {
        Some(Name(saved))
    }
}
