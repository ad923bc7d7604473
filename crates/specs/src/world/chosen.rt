//! Sets of indices, each as what a mask has or as what it lacks.
ghost use Rattle.std.specs.Prelude.{◌≡◌, ℕ, ◌<◌, ◌&&◌, ◌||◌, not, IfOk};
ghost use Rattle.hibits.specs.declared.limits.TheConstants.{INDEX_LIMIT};
ghost use Rattle.hibits.specs.MaskExprs.{expr_has};
ghost use Rattle.hibits.specs.Sets.{has_part};
ghost use Rattle.specs.specs.World.Sets.{differ, is_chosen};

use hibits::{BitSet, MaskExpr};
use std::alloc::{AllocError, Global};
use std::boxed::Box;

/// A set: what the mask has or, turned, every other index. So a set that is bounded is walked by a mask that is bounded, however often it is turned
/// on the way: the complement of a mask has words wherever there is an index.
#[derive(Drop)]
pub(crate) struct Chosen<'a> {
    pub mask: MaskExpr<&'a BitSet>,
    pub is_turned: bool,
}

impl<'a> Chosen<'a> {
    /// Every other index. It takes no memory.
    pub fn turned(self) -> Self
        ensures { (i : ℕ) → is_chosen result i ≡ not (is_chosen self.entry i) }
    {
        Chosen {
            mask: self.mask,
            is_turned: !self.is_turned,
        }
    }

    /// The set as a mask alone.
    pub fn into_mask(self, alloc: Global) -> Result<MaskExpr<&'a BitSet>, AllocError>
        ensures { IfOk result (λ m. (i : ℕ) → i < INDEX_LIMIT → expr_has (λ b. has_part b.now.members) m 0 i ≡ is_chosen self.entry i) }
    {
        if self.is_turned {
            let inner = Box::new(alloc, self.mask)?;
            return Ok(MaskExpr::Not(inner));
        }
        Ok(self.mask)
    }

    /// What both have.
    pub fn and(self, other: Self, alloc: Global) -> Result<Self, AllocError>
        ensures { IfOk result (λ it. (i : ℕ) → i < INDEX_LIMIT → is_chosen it i ≡ (is_chosen self.entry i && is_chosen other.entry i)) }
    {
        if self.is_turned && other.is_turned {
            let left = Box::new(alloc, self.mask)?;
            let right = Box::new(alloc, other.mask)?;
            return Ok(Chosen {
                mask: MaskExpr::Or(left, right),
                is_turned: true,
            });
        }
        let left = Box::new(alloc, self.into_mask(alloc)?)?;
        let right = Box::new(alloc, other.into_mask(alloc)?)?;
        Ok(Chosen {
            mask: MaskExpr::And(left, right),
            is_turned: false,
        })
    }

    /// What either has.
    pub fn or(self, other: Self, alloc: Global) -> Result<Self, AllocError>
        ensures { IfOk result (λ it. (i : ℕ) → i < INDEX_LIMIT → is_chosen it i ≡ (is_chosen self.entry i || is_chosen other.entry i)) }
    {
        let neither = self.turned().and(other.turned(), alloc)?;
        Ok(neither.turned())
    }

    /// What one of the two has, and not both.
    pub fn xor(self, other: Self, alloc: Global) -> Result<Self, AllocError>
        ensures { IfOk result (λ it. (i : ℕ) → i < INDEX_LIMIT → is_chosen it i ≡ differ (is_chosen self.entry i) (is_chosen other.entry i)) }
    {
        let is_turned = self.is_turned != other.is_turned;
        let left = Box::new(alloc, self.mask)?;
        let right = Box::new(alloc, other.mask)?;
        Ok(Chosen {
            mask: MaskExpr::Xor(left, right),
            is_turned,
        })
    }
}
