//! Cursors: walks over storages that are changed on the way, beside another join.

pub(crate) mod change_join;
pub(crate) mod drain;
pub(crate) mod each;
pub(crate) mod each_error;
pub(crate) mod entry_join;
pub(crate) mod join_living;
pub(crate) mod join_mut;
pub(crate) mod restricted_mut;
pub(crate) mod steps;
pub(crate) mod write_join;
pub(crate) mod write_join2;
