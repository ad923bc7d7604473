//! Why an index is not in a set.

use thiserror::Error;

/// Why a set refused an index. The set is as it was.
#[derive(Clone, Copy, PartialEq, Eq, Debug, Error)]
pub enum SetError {
    /// The index is not below `INDEX_LIMIT`.
    #[error("the index is not below the limit")]
    IndexLimit,
    /// There is no memory for the words of the index.
    #[error("out of memory")]
    OutOfMemory,
}
