//! Components that are a text, one for each kind of storage.
use storages::{
    BTreeStorage, Component, DenseVecStorage, FlaggedStorage, HashMapStorage, VecStorage,
};

/// A name, kept by index.
#[derive(Clone, Drop)]
pub struct InVec(pub String);

impl Component for InVec {
    type Storage = VecStorage<Self>;
}

/// A name, kept side by side.
#[derive(Drop)]
pub struct InDenseVec(pub String);

impl Component for InDenseVec {
    type Storage = DenseVecStorage<Self>;
}

/// A name, kept by hash.
#[derive(Drop)]
pub struct InHashMap(pub String);

impl Component for InHashMap {
    type Storage = HashMapStorage<Self>;
}

/// A name, kept in a tree.
#[derive(Drop)]
pub struct InBTree(pub String);

impl Component for InBTree {
    type Storage = BTreeStorage<Self>;
}

/// A name, kept with events.
#[derive(Drop)]
pub struct InFlagged(pub String);

impl Component for InFlagged {
    type Storage = FlaggedStorage<Self>;
}

/// A name, kept by index, with events.
#[derive(Drop)]
pub struct InFlaggedVec(pub String);

impl Component for InFlaggedVec {
    type Storage = FlaggedStorage<Self, VecStorage<Self>>;
}
