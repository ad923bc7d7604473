//! The layers of a set or of a view, word by word.
ghost use Rattle.std.specs.Prelude.{◌≡◌, ℕ, ◌+◌, ◌-◌, ◌*◌, ◌/◌, ◌^◌, ◌<◌, ◌≤◌, Bool, true, cond, min};
ghost use Rattle.std.specs.Int.{bit_at};
ghost use Rattle.hibits.specs.Counts.{count_below};
ghost use Rattle.hibits.specs.declared.limits.TheConstants.{LAYERS};

use crate::limits::{Index, LAYERS};
use crate::reads::Reads;

/// Layers of words of 64 bits. Bit `j` of word `w` of a layer is its bit `64 w + j`. The bits of layer 0 are the
/// indices, and a bit of a layer above stands for a word of the layer below: where that word is not 0 the bit is set.
pub trait Layers {
    // Whether bit `i` of layer `l` is set.
    ghost has: { Self → ℕ → ℕ → Bool };

    // How many words of plain sets one word takes.
    ghost cost: { Self → ℕ };

    // No layer has more bits set.
    ghost most: { Self → ℕ };

    /// One word of a layer. Each word of a plain set that it takes is counted in `reads`.
    fn word(&self, level: usize, place: u32, reads: &mut Reads) -> u64
        requires level_in { level < LAYERS }
        requires place_in { place < 64 ^ (LAYERS - 1 - level) }
        ensures bits { (j : ℕ) → j < 64 → bit_at result j ≡ cond (has self.now level (64 * place + j)) 1 0 }
        ensures reads { reads.new ≡ min (reads.old + cost self.now) (2 ^ 64 - 1) };

    // A bit that is set is told by the layer above.
    ghost covers: { (s : Self) (l i : ℕ) → has s l i ≡ true → has s (l + 1) (i / 64) ≡ true };

    ghost few: { (s : Self) (l n : ℕ) → l < LAYERS → n ≤ 64 ^ (LAYERS - l) → count_below (has s l) n ≤ most s };
}

/// What can be asked for one index. Ports `hibitset::BitSetLike`, whose layers are those of `Layers`.
pub trait BitSetLike: Layers {
    /// Whether the index is a member.
    fn contains(&self, id: Index) -> bool
        ensures { result ≡ Self.has self.now 0 id };
}

impl<'a, A: Layers> Layers for &'a A {
    ghost has = { λ s. A.has s.now };

    ghost cost = { λ s. A.cost s.now };

    ghost most = { λ s. A.most s.now };

    ghost covers = { λ s. A.covers s.now };

    ghost few = { λ s. A.few s.now };

    #[inline(always)]
    fn word(&self, level: usize, place: u32, reads: &mut Reads) -> u64 {
        (**self).word(level, place, reads)
    }
}

impl<'a, A: BitSetLike> BitSetLike for &'a A {
    #[inline(always)]
    fn contains(&self, id: Index) -> bool {
        (**self).contains(id)
    }
}
