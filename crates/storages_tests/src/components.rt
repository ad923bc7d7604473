//! The component that the definitions of `specs/` name.
use storages::{Component, DenseVecStorage};

/// A number in a `DenseVecStorage`.
#[derive(Clone, Copy, Default)]
pub struct InDense(pub u32);

impl Component for InDense {
    type Storage = DenseVecStorage<Self>;
}
