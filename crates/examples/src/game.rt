//! The game of the examples: its component types, and the storages of a world of them.
use composed::{
    Component, DenseVecStorage, FlaggedStorage, HashMapStorage, Link, Of2, Relation, VecStorage,
};

/// Where an entity is.
#[derive(Clone, Copy, Debug, PartialEq)]
pub struct Position {
    pub x: f64,
    pub y: f64,
}

impl Component for Position {
    type Storage = VecStorage<Self>;
}

/// How far it goes in a step.
#[derive(Clone, Copy, Debug, PartialEq)]
pub struct Velocity {
    pub x: f64,
    pub y: f64,
}

impl Component for Velocity {
    type Storage = DenseVecStorage<Self>;
}

/// How many steps are left until it bursts.
#[derive(Clone, Copy, Debug, PartialEq, Eq)]
pub struct Fuse(pub u32);

impl Component for Fuse {
    type Storage = HashMapStorage<Self>;
}

/// Its points. Readers are told of each change.
#[derive(Clone, Copy, Debug, PartialEq, Eq)]
pub struct Score(pub i64);

impl Component for Score {
    type Storage = FlaggedStorage<Self, VecStorage<Self>>;
}

/// That an entity follows another: its component is `Link<Follows>`.
pub struct Follows;

impl Relation for Follows {
    type Storage = DenseVecStorage<Link<Self>>;
}

/// The storages of a world: of positions, and of velocities.
pub type Stores = Of2<Position, Velocity>;
