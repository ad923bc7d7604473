//! Lists whose indices are asked piece by piece, in threads.
ghost use Rattle.std.specs.Prelude.{◌≡◌, ℕ, ◌+◌, ◌<◌, Some, false, [], IfOk, IsOk, IsOkAnd, OnOk, flat_map, Option, length, ◌^◌};
ghost use Rattle.std.specs.List.{AllZip, All};
ghost use Rattle.hibits.specs.Words.{indices_of};
ghost use Rattle.joins_parallel.specs.Cutting.{listed, is_at_words, Asked, AsksMore};

use crate::cut::{Cut, indices_count};
use hibits::{Index, WordIndices};
use rayon::prelude::*;
use std::alloc::{AllocError, Global};
use std::thread::Threads;

/// Fewer indices stay in the caller's thread.
pub(crate) const LEAST_SHARED: usize = 4096;

/// What `f` answers at each index of a part of a list.
pub(crate) fn piece<X: Drop, F: Fn(Index) -> Option<X>>(
    alloc: Global,
    part: &[Index],
    f: &F,
) -> Result<Vec<X>, AllocError>
    requires called { All (F.pre f.now) part.now }
    ensures { IfOk result (λ v. Asked (F.post f.now) part.now v.items) }
{
    let mut made = Vec::new(alloc);
    made.reserve(part.len())?;
    for i in part {
        if let Some(value) = f(*i) {
            made.push(value)?;
        }
    }
    Ok(made)
}

/// What `f` answers at each index of a word, at the end of a list.
#[inline(always)]
fn ask_word<X: Drop, F: Fn(Index) -> Option<X>>(
    made: &mut Vec<X>,
    word: WordIndices,
    f: &F,
) -> Result<(), AllocError>
    requires called { All (F.pre f.now) (indices_of word) }
    ensures { OnOk result (AsksMore (F.post f.now) (indices_of word) made.old.items made.new.items) }
{
    let mut rest = word;
    while let Some(i) = rest.next() {
        if let Some(value) = f(i) {
            made.push(value)?;
        }
    }
    Ok(())
}

/// What `f` answers at each index of a part of a list of words.
pub(crate) fn piece_of_words<X: Drop, F: Fn(Index) -> Option<X>>(
    alloc: Global,
    part: &[WordIndices],
    f: &F,
) -> Result<Vec<X>, AllocError>
    requires called { All (F.pre f.now) (flat_map indices_of part.now) }
    ensures { IfOk result (λ v. Asked (F.post f.now) (flat_map indices_of part.now) v.items) }
{
    let mut made = Vec::new(alloc);
    made.reserve(indices_count(part))?;
    for word in part {
        ask_word(&mut made, *word, f)?;
    }
    Ok(made)
}

/// How long the pieces of a list are that so many threads share. It is rounded down, so that no thread gets two: what is left over goes with the last.
fn piece_len(len: usize, threads: usize) -> usize
    requires { 0 < threads }
    ensures { 0 < result }
{
    (len / threads).max(1)
}

/// What `f` answers at each index of a list, by a piece for each thread.
fn ask_list<X: Send + Drop, F: Fn(Index) -> Option<X> + Sync>(
    rt: &(impl Threads + Sync),
    alloc: Global,
    threads: usize,
    list: &[Index],
    f: &F,
) -> Result<Vec<Vec<X>>, AllocError>
    requires threads { 0 < threads }
    requires called { All (F.pre f.now) list.now }
    ensures { IfOk result (λ v. Asked (F.post f.now) list.now (flat_map (λ w. w.items) v.items)) }
{
    let parts: Vec<Vec<X>> = list
        .par_chunks(piece_len(list.len(), threads))
        .with_min_len(1)
        .map(
            |part: &[Index]| -> Result<Vec<X>, AllocError>
                requires { All (F.pre f.now) part.now }
                ensures { IfOk result (λ v. Asked (F.post f.entry.now) part.now v.items) }
            { piece(alloc, part, f) },
        )
        .collect::<Result<Vec<Vec<X>>, AllocError>>(rt, alloc)??;
    Ok(parts)
}

/// The same of the indices that words stand for.
fn ask_words<X: Send + Drop, F: Fn(Index) -> Option<X> + Sync>(
    rt: &(impl Threads + Sync),
    alloc: Global,
    threads: usize,
    list: &[WordIndices],
    f: &F,
) -> Result<Vec<Vec<X>>, AllocError>
    requires threads { 0 < threads }
    requires called { All (F.pre f.now) (flat_map indices_of list.now) }
    ensures { IfOk result (λ v. Asked (F.post f.now) (flat_map indices_of list.now) (flat_map (λ w. w.items) v.items)) }
{
    let parts: Vec<Vec<X>> = list
        .par_chunks(piece_len(list.len(), threads))
        .with_min_len(1)
        .map(
            |part: &[WordIndices]| -> Result<Vec<X>, AllocError>
                requires { All (F.pre f.now) (flat_map indices_of part.now) }
                ensures { IfOk result (λ v. Asked (F.post f.entry.now) (flat_map indices_of part.now) v.items) }
            { piece_of_words(alloc, part, f) },
        )
        .collect::<Result<Vec<Vec<X>>, AllocError>>(rt, alloc)??;
    Ok(parts)
}

/// What `f` answers at each index of a join, in turn, in as many lists as there are pieces: one for each processor, or one for few indices.
pub(crate) fn ask_each<X: Send + Drop, F: Fn(Index) -> Option<X> + Sync>(
    rt: &(impl Threads + Sync),
    alloc: Global,
    cut: &Cut,
    f: &F,
) -> Result<Vec<Vec<X>>, AllocError>
    requires called { All (F.pre f.now) (listed cut.now) }
    ensures asked { IfOk result (λ v. Asked (F.post f.now) (listed cut.now) (flat_map (λ w. w.items) v.items)) }
    ensures idle { is_at_words cut.now ≡ false → listed cut.now ≡ [] → IsOkAnd result (λ v. v.items ≡ []) }
{
    match cut {
        Cut::Words(words) => ask_words(rt, alloc, rayon::current_num_threads(rt), words, f),
        Cut::Indices(list) => {
            if list.is_empty() {
                return Ok(Vec::new(alloc));
            }
            let threads = if list.len() < LEAST_SHARED {
                1
            } else {
                rayon::current_num_threads(rt)
            };
            ask_list(rt, alloc, threads, list, f)
        }
    }
}

/// How many values there are in all lists.
pub(crate) fn values_count<R>(parts: &[Vec<R>]) -> usize
    requires { length (flat_map (λ w. w.items) parts.now) < 2 ^ 64 }
    ensures { result ≡ length (flat_map (λ w. w.items) parts.now) }
{
    let mut count = 0;
    for part in parts {
        count += part.len();
    }
    count
}

/// Lists side by side, in one. Of a single list it is that one.
pub(crate) fn side_by_side<R: Drop>(
    alloc: Global,
    mut parts: Vec<Vec<R>>,
) -> Result<Vec<R>, AllocError>
    requires { length (flat_map (λ w. w.items) parts.items) < 2 ^ 64 }
    ensures items { IfOk result (λ v. v.items ≡ flat_map (λ w. w.items) parts.items) }
    ensures idle { parts.items ≡ [] → IsOk result }
{
    if parts.len() == 1 {
        if let Some(only) = parts.pop() {
            return Ok(only);
        }
    }
    let mut all = Vec::new(alloc);
    all.reserve(values_count(&parts))?;
    for part in parts {
        let mut part = part;
        all.append(&mut part)?;
    }
    Ok(all)
}
