//! Why an entity was given no marker.
use thiserror::Error;

/// Why an entity was given no marker.
#[derive(Clone, Copy, Debug, PartialEq, Eq, Drop, Error)]
pub enum MarkError {
    /// The marker's component is not registered. Nothing changed.
    #[error("the component is not registered")]
    Unregistered,
    /// The component is not a marker's. Nothing changed.
    #[error("the component is no marker")]
    NoMarker,
    /// Every id was given out. Nothing changed.
    #[error("every id was given out")]
    IdsExhausted,
    /// The new id already names an entity. No id and no component changed.
    #[error("the id is taken")]
    IdTaken,
    /// There is no memory. No component changed.
    #[error("out of memory")]
    OutOfMemory,
}
