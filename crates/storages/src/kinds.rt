//! The kinds of storage, each a finite map from indices to components.

mod btree_storage;
mod default_vec_storage;
mod dense_vec_storage;
mod hash_map_storage;
mod null_storage;
mod room;
mod vec_storage;

pub use btree_storage::BTreeStorage;
pub use default_vec_storage::DefaultVecStorage;
pub use dense_vec_storage::DenseVecStorage;
pub use hash_map_storage::HashMapStorage;
pub use null_storage::{NullComponent, NullStorage};
pub use vec_storage::VecStorage;
