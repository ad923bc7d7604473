//! Components that are counted references, one for each kind of storage.
use std::rc::Rc;
use storages::{
    BTreeStorage, Component, DenseVecStorage, FlaggedStorage, HashMapStorage, VecStorage,
};

/// A number that others may hold too, kept by index.
#[derive(Drop)]
pub struct InVec(pub Rc<u32>);

impl Component for InVec {
    type Storage = VecStorage<Self>;
}

/// A number that others may hold too, kept side by side.
#[derive(Drop)]
pub struct InDenseVec(pub Rc<u32>);

impl Component for InDenseVec {
    type Storage = DenseVecStorage<Self>;
}

/// A number that others may hold too, kept by hash.
#[derive(Clone, Drop)]
pub struct InHashMap(pub Rc<u32>);

impl Component for InHashMap {
    type Storage = HashMapStorage<Self>;
}

/// A number that others may hold too, kept in a tree.
#[derive(Drop)]
pub struct InBTree(pub Rc<u32>);

impl Component for InBTree {
    type Storage = BTreeStorage<Self>;
}

/// A number that others may hold too, kept with events.
#[derive(Drop)]
pub struct InFlagged(pub Rc<u32>);

impl Component for InFlagged {
    type Storage = FlaggedStorage<Self>;
}

/// A number that others may hold too, kept by index, with events.
#[derive(Drop)]
pub struct InFlaggedVec(pub Rc<u32>);

impl Component for InFlaggedVec {
    type Storage = FlaggedStorage<Self, VecStorage<Self>>;
}
