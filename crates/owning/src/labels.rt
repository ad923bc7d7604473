//! Components that are one of several things, some with a text, one for each kind of storage, and one where a value stands at each index.
use storages::{
    BTreeStorage, Component, DefaultVecStorage, DenseVecStorage, FlaggedStorage, HashMapStorage,
    VecStorage,
};

/// A label or none, kept by index.
#[derive(Drop)]
pub enum InVec {
    /// Nothing is known.
    Unknown,
    /// So it is called.
    Called(String),
}

impl Component for InVec {
    type Storage = VecStorage<Self>;
}

/// A label or none, kept side by side.
#[derive(Drop)]
pub enum InDenseVec {
    /// Nothing is known.
    Unknown,
    /// So it is called.
    Called(String),
}

impl Component for InDenseVec {
    type Storage = DenseVecStorage<Self>;
}

/// A label or none, kept by hash.
#[derive(Drop)]
pub enum InHashMap {
    /// Nothing is known.
    Unknown,
    /// So it is called.
    Called(String),
}

impl Component for InHashMap {
    type Storage = HashMapStorage<Self>;
}

/// A label or none, kept in a tree.
#[derive(Clone, Drop)]
pub enum InBTree {
    /// Nothing is known.
    Unknown,
    /// So it is called.
    Called(String),
}

impl Component for InBTree {
    type Storage = BTreeStorage<Self>;
}

/// A label or none, kept with events.
#[derive(Drop)]
pub enum InFlagged {
    /// Nothing is known.
    Unknown,
    /// So it is called.
    Called(String),
}

impl Component for InFlagged {
    type Storage = FlaggedStorage<Self>;
}

/// A label or none, kept by index, with events.
#[derive(Drop)]
pub enum InFlaggedVec {
    /// Nothing is known.
    Unknown,
    /// So it is called.
    Called(String),
}

impl Component for InFlaggedVec {
    type Storage = FlaggedStorage<Self, VecStorage<Self>>;
}

/// A label or none, kept by index, where one stands everywhere.
#[derive(Drop)]
pub enum InDefaultVec {
    /// Nothing is known.
    Unknown,
    /// So it is called.
    Called(String),
}

impl Default for InDefaultVec {
    fn default() -> Self {
        InDefaultVec::Unknown
    }
}

impl Component for InDefaultVec {
    type Storage = DefaultVecStorage<Self>;
}

/// A name or none, by default none.
#[derive(Default, Drop)]
pub struct MaybeNamed(pub Option<String>);

impl Component for MaybeNamed {
    type Storage = DefaultVecStorage<Self>;
}
