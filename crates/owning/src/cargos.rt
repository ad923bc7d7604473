//! Components that are a list, one for each kind of storage.
use storages::{
    BTreeStorage, Component, DenseVecStorage, FlaggedStorage, HashMapStorage, VecStorage,
};

/// A list of goods, kept by index.
#[derive(Drop)]
pub struct InVec(pub Vec<u32>);

impl Component for InVec {
    type Storage = VecStorage<Self>;
}

/// A list of goods, kept side by side.
#[derive(Clone, Drop)]
pub struct InDenseVec(pub Vec<u32>);

impl Component for InDenseVec {
    type Storage = DenseVecStorage<Self>;
}

/// A list of goods, kept by hash.
#[derive(Drop)]
pub struct InHashMap(pub Vec<u32>);

impl Component for InHashMap {
    type Storage = HashMapStorage<Self>;
}

/// A list of goods, kept in a tree.
#[derive(Drop)]
pub struct InBTree(pub Vec<u32>);

impl Component for InBTree {
    type Storage = BTreeStorage<Self>;
}

/// A list of goods, kept with events.
#[derive(Drop)]
pub struct InFlagged(pub Vec<u32>);

impl Component for InFlagged {
    type Storage = FlaggedStorage<Self>;
}

/// A list of goods, kept by index, with events.
#[derive(Drop)]
pub struct InFlaggedVec(pub Vec<u32>);

impl Component for InFlaggedVec {
    type Storage = FlaggedStorage<Self, VecStorage<Self>>;
}
