//! Components that are in a box, one for each kind of storage.
use storages::{
    BTreeStorage, Component, DenseVecStorage, FlaggedStorage, HashMapStorage, VecStorage,
};

/// A number in a box, kept by index.
#[derive(Drop)]
pub struct InVec(pub Box<u32>);

impl Component for InVec {
    type Storage = VecStorage<Self>;
}

/// A number in a box, kept side by side.
#[derive(Drop)]
pub struct InDenseVec(pub Box<u32>);

impl Component for InDenseVec {
    type Storage = DenseVecStorage<Self>;
}

/// A number in a box, kept by hash.
#[derive(Drop)]
pub struct InHashMap(pub Box<u32>);

impl Component for InHashMap {
    type Storage = HashMapStorage<Self>;
}

/// A number in a box, kept in a tree.
#[derive(Drop)]
pub struct InBTree(pub Box<u32>);

impl Component for InBTree {
    type Storage = BTreeStorage<Self>;
}

/// A number in a box, kept with events.
#[derive(Clone, Drop)]
pub struct InFlagged(pub Box<u32>);

impl Component for InFlagged {
    type Storage = FlaggedStorage<Self>;
}

/// A number in a box, kept by index, with events.
#[derive(Drop)]
pub struct InFlaggedVec(pub Box<u32>);

impl Component for InFlaggedVec {
    type Storage = FlaggedStorage<Self, VecStorage<Self>>;
}
