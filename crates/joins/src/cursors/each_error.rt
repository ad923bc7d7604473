//! Why a loop by calls of a closure ended early.
use thiserror::Error;

/// Why a loop by calls of a closure ended before its last index. The calls before it stay made.
#[derive(Clone, Copy, Debug, PartialEq, Eq, Error)]
pub enum EachError<E> {
    /// Memory was refused for the event of the next index, where no call was made.
    #[error("out of memory")]
    OutOfMemory,
    /// The closure refused with this. What it wrote to its component before stays.
    #[error("the call refuses to go on")]
    Refused(E),
}
