//! Sets that are made of others at run time.
ghost use Rattle.std.specs.Prelude.{◌≡◌, ℕ, ◌+◌, ◌-◌, ◌*◌, ◌^◌, ◌<◌, Bool, cond, min};
ghost use Rattle.std.specs.Int.{bit_at};
ghost use Rattle.hibits.specs.MaskExprs.{expr_has, expr_cost, expr_most, expr_covers, expr_few};

use crate::layers::{BitSetLike, Layers};
use crate::limits::{INDEX_LIMIT, Index};
use crate::reads::Reads;
use crate::views::BitSetAll;

/// A set that is made of masks by the same operations as the views, in a tree that is built at run time.
/// The masks may be borrowed: `MaskExpr<&BitSet>` is a mask over sets that stay where they are.
#[derive(Debug, Drop)]
pub enum MaskExpr<M> {
    /// A mask.
    Mask(M),
    /// The members of both.
    And(Box<MaskExpr<M>>, Box<MaskExpr<M>>),
    /// The members of either.
    Or(Box<MaskExpr<M>>, Box<MaskExpr<M>>),
    /// The members of one and not of the other.
    Xor(Box<MaskExpr<M>>, Box<MaskExpr<M>>),
    /// The indices below the limit that are no members.
    Not(Box<MaskExpr<M>>),
    /// Every index below the limit.
    All,
}

impl<M: Layers> Layers for MaskExpr<M> {
    ghost has = { expr_has M.has };

    ghost cost = { expr_cost M.cost };

    ghost most = { expr_most M.most };

    ghost covers = { λ s l i. expr_covers M.has M.covers s l i };

    ghost few = { λ s l n lt le. expr_few M.has M.most M.few s l n lt le };

    fn word(&self, level: usize, place: u32, reads: &mut Reads) -> u64 {
        match self {
            MaskExpr::Mask(mask) => mask.word(level, place, reads),
            MaskExpr::And(a, b) => a.word(level, place, reads) & b.word(level, place, reads),
            MaskExpr::Or(a, b) => a.word(level, place, reads) | b.word(level, place, reads),
            MaskExpr::Xor(a, b) => {
                let first = a.word(level, place, reads);
                let second = b.word(level, place, reads);
                if level == 0 {
                    first ^ second
                } else {
                    first | second
                }
            }
            MaskExpr::Not(a) => {
                let word = a.word(level, place, reads);
                if level == 0 { !word } else { u64::MAX }
            }
            MaskExpr::All => BitSetAll.word(level, place, reads),
        }
    }
}

impl<M: BitSetLike> BitSetLike for MaskExpr<M> {
    fn contains(&self, id: Index) -> bool {
        match self {
            MaskExpr::Mask(mask) => mask.contains(id),
            MaskExpr::And(a, b) => a.contains(id) && b.contains(id),
            MaskExpr::Or(a, b) => a.contains(id) || b.contains(id),
            MaskExpr::Xor(a, b) => a.contains(id) != b.contains(id),
            MaskExpr::Not(a) => id < INDEX_LIMIT && !a.contains(id),
            MaskExpr::All => id < INDEX_LIMIT,
        }
    }
}
