//! The passes of a phase.
use crate::phase::rule::Record;

/// What one thread makes its steps of a phase with. It may be dropped; given back to `close` it proves what it did.
#[derive(Drop)]
pub struct Pass {
    pub(crate) record: Record,
    pub(crate) spent: bool,
}
