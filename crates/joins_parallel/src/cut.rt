//! The indices of a join as a list that is cut into pieces, of indices or of words.
ghost use Rattle.std.specs.Prelude.{◌≡◌, ◌+◌, ◌-◌, ◌*◌, ◌^◌, ◌<◌, ◌≤◌, ◌++◌, [], IfOk, IsOk, OnOk, length, flat_map, nat_le};
ghost use Rattle.hibits.specs.Left.{left};
ghost use Rattle.hibits.specs.Words.{indices_of, words_from};
ghost use Rattle.joins_parallel.specs.Cutting.{listed, is_at_words};

use hibits::{Index, LAYERS, Layers, WordIndices, WordIter};
use std::alloc::{AllocError, Global};

/// From so many words that are not 0 on, a join is cut at words: its indices are then not listed one by one.
pub(crate) const LEAST_WORDS: usize = 2048;

/// The indices of a mask, ascending.
#[derive(Drop)]
pub(crate) enum Cut {
    /// Each by itself.
    Indices(Vec<Index>),
    /// The words that stand for them.
    Words(Vec<WordIndices>),
}

/// The indices of a mask, to be cut at words where these are many.
pub(crate) fn cut_of<M: Layers + Drop>(alloc: Global, mask: M) -> Result<Cut, AllocError>
    ensures indices { IfOk result (λ c. listed c ≡ left (M.has mask 0) 0) }
    ensures at_words { IfOk result (λ c. is_at_words c ≡ nat_le LEAST_WORDS (length (words_from (M.has mask 0) 0))) }
    ensures idle { left (M.has mask 0) 0 ≡ [] → IsOk result }
{
    let words = words_of(alloc, mask)?;
    if words.len() >= LEAST_WORDS {
        return Ok(Cut::Words(words));
    }
    Ok(Cut::Indices(indices_in(alloc, &words)?))
}

/// The words of a mask that are not 0, ascending.
fn words_of<M: Layers + Drop>(alloc: Global, mask: M) -> Result<Vec<WordIndices>, AllocError>
    ensures items { IfOk result (λ v. v.items ≡ words_from (M.has mask 0) 0) }
    ensures idle { left (M.has mask 0) 0 ≡ [] → IsOk result }
{
    let mut walk = WordIter::new(mask);
    let mut words = Vec::new(alloc);
    while let Some((place, word)) = walk.next() {
        words.push(WordIndices::new(place, word))?;
    }
    Ok(words)
}

/// How many words of a mask are not 0.
pub(crate) fn words_in<M: Layers + Drop>(mask: M) -> usize
    ensures { result ≡ length (words_from (M.has mask 0) 0) }
{
    let mut walk = WordIter::new(mask);
    let mut count: u32 = 0;
    while let Some(_word) = walk.next() {
        count += 1;
    }
    count as usize
}

/// How many members a mask has.
pub(crate) fn count_of<M: Layers + Drop>(mask: M) -> usize
    ensures { result ≡ length (left (M.has mask 0) 0) }
{
    let mut walk = WordIter::new(mask);
    let mut count: u32 = 0;
    while let Some((place, word)) = walk.next() {
        count += WordIndices::new(place, word).count();
    }
    count as usize
}

/// How many indices words stand for.
pub(crate) fn indices_count(words: &[WordIndices]) -> usize
    ensures { words.now ≡ [] → result ≡ 0 }
{
    let mut count: usize = 0;
    for word in words {
        count = count.saturating_add(word.count() as usize);
    }
    count
}

/// The indices that words stand for, in turn.
fn indices_in(alloc: Global, words: &[WordIndices]) -> Result<Vec<Index>, AllocError>
    ensures items { IfOk result (λ v. v.items ≡ flat_map indices_of words.now) }
    ensures idle { words.now ≡ [] → IsOk result }
{
    let mut list = Vec::new(alloc);
    list.reserve(indices_count(words))?;
    for word in words {
        push_indices(&mut list, *word)?;
    }
    Ok(list)
}

/// Puts the indices of a word at the end of a list.
#[inline(always)]
fn push_indices(list: &mut Vec<Index>, word: WordIndices) -> Result<(), AllocError>
    ensures { OnOk result (list.new.items ≡ list.old.items ++ indices_of word) }
{
    let mut rest = word;
    while let Some(i) = rest.next() {
        list.push(i)?;
    }
    Ok(())
}
