//! A join that is mapped in several threads.
ghost use Rattle.std.specs.Prelude.{◌≡◌, ◌≤◌, ℕ, true, false, [], IfOk, IsOk, Ok, Some, Option, length, nat_le};
ghost use Rattle.std.specs.List.{AllZip, All};
ghost use Rattle.hibits.specs.Left.{left};
ghost use Rattle.hibits.specs.Words.{words_from};
ghost use Rattle.joins_parallel.specs.Cutting.{listed, is_at_words};

use crate::cut::{Cut, LEAST_WORDS, count_of, cut_of, words_in};
use crate::pieces::{ask_each, side_by_side};
use hibits::{INDEX_LIMIT, Index};
use joins::{Join, Lookup, RepeatableJoin};
use std::alloc::{Alloc, AllocError, Global};
use std::thread::Threads;

/// A join whose values threads may read at the same time. Ports `specs::join::ParJoin`.
pub trait ParJoin: Join {
    /// The join, to be mapped in several threads.
    final fn par_join(self) -> JoinParIter<Self>
    where
        Self: Drop,
        ensures { result.join ≡ self }
    {
        JoinParIter { join: self }
    }
}

impl<J: RepeatableJoin> ParJoin for J
where
    J::Value: Lookup<J::Type> + Sync,
{}

/// What `f` makes of what is looked up at each index.
fn map_each<T, V: Lookup<T> + Sync, R: Send + Drop, F: Fn(T) -> R + Sync>(
    rt: &(impl Threads + Sync),
    alloc: Global,
    cut: &Cut,
    values: &V,
    f: &F,
) -> Result<Vec<R>, AllocError>
    requires called { All (λ i. (x : T) → V.finds values.now i x → F.pre f.now x) (listed cut.now) }
    requires ready { All (λ i. V.can_look values.now i ≡ true) (listed cut.now) }
    requires few { length (listed cut.now) ≤ INDEX_LIMIT }
    ensures made { IfOk result (λ v. AllZip (λ i y. (x : T) × V.finds values.now i x × F.post f.now x y) (listed cut.now) v.items) }
    ensures idle { is_at_words cut.now ≡ false → listed cut.now ≡ [] → IsOk result }
{
    let map = |id: Index| -> Option<R>
        requires { (V.can_look values.now id ≡ true) × ((x : T) → V.finds values.now id x → F.pre f.now x) }
        ensures { (y : R) × (x : T) × V.finds values.entry.now id x × F.post f.entry.now x y × (result ≡ Some y) }
    { Some(f(values.at(id))) };
    let parts = ask_each(rt, alloc, cut, &map)?;
    side_by_side(alloc, parts)
}

/// A join that is to be mapped in several threads. Ports `specs::join::JoinParIter`, which is a parallel iterator.
#[derive(Drop)]
pub struct JoinParIter<J: Drop> {
    join: J,
}

impl<J: RepeatableJoin + Drop> JoinParIter<J>
where
    J::Value: Lookup<J::Type> + Sync,
{
    /// What `f` makes of the items, in the order of the indices, from as many threads as there are processors. `f` is called with what the join
    /// gives at its indices, and with nothing else. The indices are listed first, and fewer than 4,096 of them stay in the caller's thread; where
    /// they lie in 2,048 words of 64 or more, these words are listed instead, and threads take parts of this list.
    /// Where the calls of `f` together take less than some 0.5 ms, a loop over `Join::join` is faster.
    ///
    /// Where memory is refused there is no list, and some calls of `f` may have been made. Where the join has no index it is not refused.
    pub fn map_collect<R: Send + Drop, F: Fn(J::Type) -> R + Sync + Drop>(
        self,
        rt: &(impl Threads + Alloc<A = Global> + Sync),
        f: F,
    ) -> Result<Vec<R>, AllocError>
        requires called { (i : ℕ) (x : J.Type) → J.has self.join i ≡ true → J.gives self.join i x → F.pre f x }
        ensures idle { left (J.has self.join) 0 ≡ [] → IsOk result }
        ensures made { IfOk result (λ v. AllZip (λ i y. (x : J.Type) × J.gives self.join i x × F.post f x y) (left (J.has self.join) 0) v.items) }
    {
        let alloc = rt.alloc();
        let (mask, values) = self.join.open();
        let cut = cut_of(alloc, mask)?;
        map_each(rt, alloc, &cut, &values, &f)
    }

    /// How many items there are. It counts the bits of the mask's words in the caller's thread, which is faster than to share so little work, and
    /// takes no memory: it is never refused.
    pub fn count(self, _rt: &(impl Threads + Sync)) -> Result<usize, AllocError>
        ensures { result ≡ Ok (length (left (J.has self.join) 0)) }
    {
        let (mask, _values) = self.join.open();
        Ok(count_of(mask))
    }

    /// Whether the join is cut at words: where its indices lie in 2,048 words of 64 or more. Else its indices are listed one by one.
    pub fn is_cut_at_words(self) -> bool
        ensures { result ≡ nat_le LEAST_WORDS (length (words_from (J.has self.join) 0)) }
    {
        let (mask, _values) = self.join.open();
        words_in(mask) >= LEAST_WORDS
    }
}
