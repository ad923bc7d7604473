//! Layered bit sets.
#![tactic(auto)]

mod bit_iter;
mod bit_set;
mod error;
mod layers;
mod limits;
mod lowest;
mod mask_expr;
mod operators;
mod reads;
mod rows;
mod views;
mod walk;
mod word_indices;
mod word_iter;

pub use bit_iter::BitIter;
pub use bit_set::BitSet;
pub use error::SetError;
pub use layers::{BitSetLike, Layers};
pub use limits::{INDEX_LIMIT, Index, LAYERS, range_of_indices};
pub use mask_expr::MaskExpr;
pub use reads::Reads;
pub use views::{BitSetAll, BitSetAnd, BitSetNot, BitSetOr, BitSetXor};
pub use walk::Walk;
pub use word_indices::WordIndices;
pub use word_iter::WordIter;
