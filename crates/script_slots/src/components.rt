//! The program's component types, one for each slot.
ghost use Rattle.std.specs.Prelude.{◌≡◌, refl};

use specs::{Entity, KeyOf};
use std::fmt;
use storages::{
    BTreeStorage, Component, DefaultVecStorage, DenseVecStorage, FlaggedStorage, HashMapStorage,
    NullComponent, NullStorage, VecStorage,
};

/// A whole number, kept in a vector.
#[derive(Clone, Copy, Debug, Default, PartialEq, Eq)]
pub struct Position(pub i64);

impl Component for Position {
    type Storage = VecStorage<Position>;
}

impl fmt::Display for Position {
    fn fmt<W: fmt::Write>(&self, f: &mut fmt::Formatter<W>) -> fmt::Result {
        self.0.fmt(f)
    }
}

/// A whole number, kept in a dense vector.
#[derive(Clone, Copy, Debug, Default, PartialEq, Eq)]
pub struct Velocity(pub i64);

impl Component for Velocity {
    type Storage = DenseVecStorage<Velocity>;
}

impl fmt::Display for Velocity {
    fn fmt<W: fmt::Write>(&self, f: &mut fmt::Formatter<W>) -> fmt::Result {
        self.0.fmt(f)
    }
}

/// A whole number, kept in a vector with default values.
#[derive(Clone, Copy, Debug, Default, PartialEq, Eq)]
pub struct Defense(pub i64);

impl Component for Defense {
    type Storage = DefaultVecStorage<Defense>;
}

impl fmt::Display for Defense {
    fn fmt<W: fmt::Write>(&self, f: &mut fmt::Formatter<W>) -> fmt::Result {
        self.0.fmt(f)
    }
}

/// A whole number, kept in a hash map.
#[derive(Clone, Copy, Debug, Default, PartialEq, Eq)]
pub struct Mapped(pub i64);

impl Component for Mapped {
    type Storage = HashMapStorage<Mapped>;
}

impl fmt::Display for Mapped {
    fn fmt<W: fmt::Write>(&self, f: &mut fmt::Formatter<W>) -> fmt::Result {
        self.0.fmt(f)
    }
}

/// A whole number, kept in a tree.
#[derive(Clone, Copy, Debug, Default, PartialEq, Eq)]
pub struct Treed(pub i64);

impl Component for Treed {
    type Storage = BTreeStorage<Treed>;
}

impl fmt::Display for Treed {
    fn fmt<W: fmt::Write>(&self, f: &mut fmt::Formatter<W>) -> fmt::Result {
        self.0.fmt(f)
    }
}

/// A mark without data.
#[derive(Clone, Copy, Debug, Default, PartialEq, Eq)]
pub struct Tag;

impl Component for Tag {
    type Storage = NullStorage<Tag>;
}

impl fmt::Display for Tag {
    fn fmt<W: fmt::Write>(&self, f: &mut fmt::Formatter<W>) -> fmt::Result {
        write!(f, "tag")
    }
}

impl NullComponent for Tag {
    ghost all_equal = { λ a b. refl };
}

/// A whole number, kept in a dense vector whose changes are told.
#[derive(Clone, Copy, Debug, Default, PartialEq, Eq)]
pub struct Health(pub i64);

impl Component for Health {
    type Storage = FlaggedStorage<Health, DenseVecStorage<Health>>;
}

impl fmt::Display for Health {
    fn fmt<W: fmt::Write>(&self, f: &mut fmt::Formatter<W>) -> fmt::Result {
        self.0.fmt(f)
    }
}

/// Entities are found by their health.
#[derive(Clone, Copy, Debug, PartialEq, Eq)]
pub struct HealthValue;

impl KeyOf<Health> for HealthValue {
    type Key = i64;

    ghost key = { λ s h. h.0 };

    fn key_of(&self, component: &Health) -> i64 {
        component.0
    }
}

/// An entity that another one refers to, kept in a vector.
#[derive(Clone, Copy, Debug, PartialEq, Eq)]
pub struct Link(pub Entity);

impl Component for Link {
    type Storage = VecStorage<Link>;
}

impl fmt::Display for Link {
    fn fmt<W: fmt::Write>(&self, f: &mut fmt::Formatter<W>) -> fmt::Result {
        let index = self.0.id();
        let generation = self.0.generation().id();
        write!(f, "{index}:{generation}")
    }
}
