//! A walk over layers, which is passed them at each step.
ghost use Rattle.std.specs.Prelude.{◌≡◌, ℕ, ◌+◌, ◌-◌, ◌*◌, ◌/◌, ◌%◌, ◌^◌, ◌<◌, ◌≤◌, Bool, true, false, cond, [], ◌∷◌, MatchOption, IfSome, IfNone, bit_and, min};
ghost use Rattle.std.specs.Int.{trailing_zeros, bit_at, w64};
ghost use Rattle.hibits.specs.Walks.{IsNext};
ghost use Rattle.hibits.specs.Left.{left};
ghost use Rattle.hibits.specs.WalkOf.{IsWalkOf, IsWordWalkOf, next_place, position, steps_left, words_read};
ghost use Rattle.hibits.specs.Words.{IsNextWord};

use crate::layers::Layers;
use crate::limits::{INDEX_LIMIT, Index, LAYERS};
use crate::reads::Reads;

/// Where a walk is in layers that stand apart from it, and are passed to each step: so a cursor can walk the mask of
/// a storage that it also changes, as long as the mask stays. It keeps the word of each layer that it is in, and reads none of them twice.
#[derive(Clone, Copy)]
pub struct Walk {
    // What is left of the current word of each layer.
    word0: u64,
    word1: u64,
    word2: u64,
    word3: u64,
    word4: u64,
    reads: Reads,
    // The first index that isn't walked.
    from: Index,
    // Where the current word of each layer below the top ends: the first index of the layer after it.
    end0: u32,
    end1: u32,
    end2: u32,
    end3: u32,
}

/// The least index that is left of a word of a layer.
#[inline(always)]
fn least(word: u64, end: u32) -> u32
    requires some { 0 < word }
    requires end { 64 ≤ end }
    ensures { result ≡ end - 64 + trailing_zeros w64 word }
{
    end - 64 + word.trailing_zeros()
}

/// Goes from the word of a layer to that of its least index, in the layer `level` below it.
#[inline(always)]
fn descend<M: Layers>(
    mask: &M,
    level: usize,
    above: &mut u64,
    above_end: u32,
    end: &mut u32,
    reads: &mut Reads,
) -> u64
    requires level { level + 1 < LAYERS }
    requires some { 0 < above.old }
    requires within { 64 ≤ above_end }
    requires fits { above_end ≤ 64 ^ (LAYERS - 1 - level) }
    ensures above { above.new ≡ bit_and above.old (above.old - 1) }
    ensures end { end.new ≡ 64 * (above_end - 64 + trailing_zeros w64 above.old + 1) }
    ensures bits { (j : ℕ) → j < 64 → bit_at result j ≡ cond (M.has mask.now level (64 * (above_end - 64 + trailing_zeros w64 above.old) + j)) 1 0 }
    ensures reads { reads.new ≡ min (reads.old + M.cost mask.now) (2 ^ 64 - 1) }
{
    let place = least(*above, above_end);
    *above &= *above - 1;
    *end = 64 * (place + 1);
    mask.word(level, place, reads)
}

impl Walk {
    /// A walk from the first index on. It reads the top word.
    pub fn new<M: Layers>(mask: &M) -> Self
        ensures walk { IsWalkOf (M.has mask.now) (M.cost mask.now) result }
        ensures position { position result ≡ 0 }
        ensures reads { words_read result ≡ min (M.cost mask.now) (2 ^ 64 - 1) }
    {
        Walk::by_words(mask)
    }

    /// The same, as a walk that takes whole words.
    pub(crate) fn by_words<M: Layers>(mask: &M) -> Self
        ensures walk { IsWordWalkOf (M.has mask.now) (M.cost mask.now) result }
        ensures position { position result ≡ 0 }
        ensures reads { words_read result ≡ min (M.cost mask.now) (2 ^ 64 - 1) }
    {
        let mut reads = Reads::new();
        let top = mask.word(LAYERS - 1, 0, &mut reads);
        Walk {
            word0: 0,
            word1: 0,
            word2: 0,
            word3: 0,
            word4: top,
            reads,
            from: 0,
            end0: 0,
            end1: 0,
            end2: 0,
            end3: 0,
        }
    }

    /// The least member that isn't walked. Each step down reads one word. A set needs fewer than `LAYERS`, and mostly none; a view
    /// can have words that are 0 below bits that are set, and goes down to each: all steps of a walk together are bounded by `BitIter::reads`.
    #[inline(always)]
    pub fn next<M: Layers>(&mut self, mask: &M) -> Option<Index>
        requires { IsWalkOf (M.has mask.now) (M.cost mask.now) self.old }
        ensures walk { IsWalkOf (M.has mask.now) (M.cost mask.now) self.new }
        ensures items { MatchOption result (left (M.has mask.now 0) (position self.old) ≡ []) (λ i. left (M.has mask.now 0) (position self.old) ≡ i ∷ left (M.has mask.now 0) (position self.new)) }
        ensures forward { position self.old ≤ position self.new }
        ensures reads { words_read self.old ≤ words_read self.new }
        ensures next { IfSome result (IsNext (M.has mask.now 0) (position self.old)) }
        ensures after { IfSome result (λ i. position self.new ≡ i + 1) }
        ensures below { IfSome result (λ i. i < INDEX_LIMIT) }
        ensures end { IfNone result ((i : ℕ) → position self.old ≤ i → i < INDEX_LIMIT → M.has mask.now 0 i ≡ true → ⊥) }
        ensures stays { IfNone result (position self.new ≡ position self.old) }
    {
        if !self.fill0(mask) {
            return None;
        }
        let index = least(self.word0, self.end0);
        self.word0 &= self.word0 - 1;
        self.from = index + 1;
        Some(index)
    }

    /// The next word of layer 0 that is not 0, with its place before it, where the walk is between two words. It takes the whole word.
    #[inline(always)]
    pub(crate) fn next_word<M: Layers>(&mut self, mask: &M) -> Option<(u32, u64)>
        requires { IsWordWalkOf (M.has mask.now) (M.cost mask.now) self.old }
        ensures walk { IsWordWalkOf (M.has mask.now) (M.cost mask.now) self.new }
        ensures reads { words_read self.old ≤ words_read self.new }
        ensures next { IfSome result (λ r. IsNextWord (M.has mask.now 0) (next_place self.old) r.0 r.1) }
        ensures after { IfSome result (λ r. position self.new ≡ 64 * (r.0 + 1)) }
        ensures below { IfSome result (λ r. r.0 < 64 ^ (LAYERS - 1)) }
        ensures end { IfNone result ((i : ℕ) → position self.old ≤ i → i < INDEX_LIMIT → M.has mask.now 0 i ≡ true → ⊥) }
        ensures stays { IfNone result (position self.new ≡ position self.old) }
    {
        if !self.fill0(mask) {
            return None;
        }
        let word = self.word0;
        self.word0 = 0;
        self.from = self.end0;
        Some((self.end0 / 64 - 1, word))
    }

    /// Goes on to a word of layer 0 that has something left, or says that there is none.
    #[inline(always)]
    fn fill0<M: Layers>(&mut self, mask: &M) -> bool
        requires { IsWalkOf (M.has mask.now) (M.cost mask.now) self.old }
        ensures walk { IsWalkOf (M.has mask.now) (M.cost mask.now) self.new }
        ensures position { position self.new ≡ position self.old }
        ensures reads { words_read self.old ≤ words_read self.new }
        ensures some { result ≡ true → 0 < self.new.word0 }
        ensures none { result ≡ false → (self.new.word0 ≡ 0) × (self.new.word1 ≡ 0) × (self.new.word2 ≡ 0) × (self.new.word3 ≡ 0) × (self.new.word4 ≡ 0) }
    {
        while self.word0 == 0 {
            if !self.fill1(mask) {
                return false;
            }
            self.word0 = descend(
                mask,
                0,
                &mut self.word1,
                self.end1,
                &mut self.end0,
                &mut self.reads,
            );
        }
        true
    }

    /// The same for layer 1. Layer 0 stays.
    #[inline(always)]
    fn fill1<M: Layers>(&mut self, mask: &M) -> bool
        requires { IsWalkOf (M.has mask.now) (M.cost mask.now) self.old }
        ensures walk { IsWalkOf (M.has mask.now) (M.cost mask.now) self.new }
        ensures position { position self.new ≡ position self.old }
        ensures reads { words_read self.old ≤ words_read self.new }
        ensures word0 { self.new.word0 ≡ self.old.word0 }
        ensures end0 { self.new.end0 ≡ self.old.end0 }
        ensures some { result ≡ true → 0 < self.new.word1 }
        ensures none { result ≡ false → (self.new.word1 ≡ 0) × (self.new.word2 ≡ 0) × (self.new.word3 ≡ 0) × (self.new.word4 ≡ 0) }
        ensures nearer { steps_left self.new ≤ steps_left self.old }
    {
        while self.word1 == 0 {
            if !self.fill2(mask) {
                return false;
            }
            self.word1 = descend(
                mask,
                1,
                &mut self.word2,
                self.end2,
                &mut self.end1,
                &mut self.reads,
            );
        }
        true
    }

    /// The same for layer 2. The layers below stay.
    #[inline(always)]
    fn fill2<M: Layers>(&mut self, mask: &M) -> bool
        requires { IsWalkOf (M.has mask.now) (M.cost mask.now) self.old }
        ensures walk { IsWalkOf (M.has mask.now) (M.cost mask.now) self.new }
        ensures position { position self.new ≡ position self.old }
        ensures reads { words_read self.old ≤ words_read self.new }
        ensures word0 { self.new.word0 ≡ self.old.word0 }
        ensures end0 { self.new.end0 ≡ self.old.end0 }
        ensures word1 { self.new.word1 ≡ self.old.word1 }
        ensures end1 { self.new.end1 ≡ self.old.end1 }
        ensures some { result ≡ true → 0 < self.new.word2 }
        ensures none { result ≡ false → (self.new.word2 ≡ 0) × (self.new.word3 ≡ 0) × (self.new.word4 ≡ 0) }
        ensures nearer { steps_left self.new ≤ steps_left self.old }
    {
        while self.word2 == 0 {
            if !self.fill3(mask) {
                return false;
            }
            self.word2 = descend(
                mask,
                2,
                &mut self.word3,
                self.end3,
                &mut self.end2,
                &mut self.reads,
            );
        }
        true
    }

    /// The same for layer 3. The layers below stay.
    #[inline(always)]
    fn fill3<M: Layers>(&mut self, mask: &M) -> bool
        requires { IsWalkOf (M.has mask.now) (M.cost mask.now) self.old }
        ensures walk { IsWalkOf (M.has mask.now) (M.cost mask.now) self.new }
        ensures position { position self.new ≡ position self.old }
        ensures reads { words_read self.old ≤ words_read self.new }
        ensures word0 { self.new.word0 ≡ self.old.word0 }
        ensures end0 { self.new.end0 ≡ self.old.end0 }
        ensures word1 { self.new.word1 ≡ self.old.word1 }
        ensures end1 { self.new.end1 ≡ self.old.end1 }
        ensures word2 { self.new.word2 ≡ self.old.word2 }
        ensures end2 { self.new.end2 ≡ self.old.end2 }
        ensures some { result ≡ true → 0 < self.new.word3 }
        ensures none { result ≡ false → (self.new.word3 ≡ 0) × (self.new.word4 ≡ 0) }
        ensures nearer { steps_left self.new ≤ steps_left self.old }
    {
        while self.word3 == 0 {
            if self.word4 == 0 {
                return false;
            }
            self.word3 = descend(
                mask,
                3,
                &mut self.word4,
                64,
                &mut self.end3,
                &mut self.reads,
            );
        }
        true
    }

    /// How many words of plain sets were read so far.
    #[inline(always)]
    pub fn reads(&self) -> u64
        ensures { result ≡ words_read self.now }
    {
        self.reads.count()
    }
}
