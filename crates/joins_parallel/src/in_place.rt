//! Components that threads change in their places.
ghost use Rattle.std.specs.Prelude.{◌≡◌, ◌<◌, ℕ, Some, true, false, List, length, slice_get, slice_index_or, slice_index, refl, [], IfOk, IsOk, OnOk, OnErr};
ghost use Rattle.std.specs.Borrow.{MutBor};
ghost use Rattle.std.specs.FinMap as map;
ghost use Rattle.hibits.specs.Left.{left};
ghost use Rattle.hibits.specs.Rows.{row_bit};
ghost use Rattle.joins.specs.Keys.{shared_indices};
ghost use Rattle.joins_parallel.specs.InPlace.{EachMember, MayBeCalled, MayLeave, ChangedAt, OnlyChanges};

use crate::pieces::LEAST_SHARED;
use crate::sharing::change_shared;
use hibits::{BitSetAnd, INDEX_LIMIT, Index, Layers, WordIter};
use joins::{Lookup, RepeatableJoin};
use std::alloc::{Alloc, AllocError, Global};
use std::thread::Threads;
use storages::{Component, DefaultVecStorage, MaskedStorage, SliceAccessMut};

/// A storage that has each component at its index's place of a slice. It has no method of its own.
pub trait Placed<T>: SliceAccessMut<T> {
    ghost by_index: { (order : List ℕ) (xs : List T) (q : ℕ) → Self.item_at order xs q ≡ slice_get xs q };
}

impl<T: Default + Drop> Placed<T> for DefaultVecStorage<T> {
    ghost by_index = { λ order xs q. refl };
}

/// The words of a mask, each at its place, up to the last that is not 0.
fn row_of<M: Layers + Drop>(alloc: Global, mask: M) -> Result<Vec<u64>, AllocError>
    ensures members { IfOk result (λ v. (i : ℕ) → i < INDEX_LIMIT → row_bit v.items i ≡ M.has mask 0 i) }
    ensures below { IfOk result (λ v. (i : ℕ) → row_bit v.items i ≡ true → i < INDEX_LIMIT) }
    ensures idle { left (M.has mask 0) 0 ≡ [] → IsOk result }
{
    let mut walk = WordIter::new(mask);
    let mut row: Vec<u64> = Vec::new(alloc);
    while let Some((place, word)) = walk.next() {
        row.resize(place as usize, 0)?;
        row.push(word)?;
    }
    Ok(row)
}

/// The word at a place, which is 0 past the end.
#[inline(always)]
fn word_at(row: &[u64], place: usize) -> u64
    ensures { result ≡ slice_index row.now place }
{
    match row.get(place) {
        Some(word) => *word,
        None => 0,
    }
}

/// Whether an index is a member by a row of words.
#[inline(always)]
fn is_member(row: &[u64], index: usize) -> bool
    ensures { result ≡ row_bit row.now index }
{
    (word_at(row, index / 64) >> (index % 64)) & 1 == 1
}

/// Calls `f` with each place of a slice whose number is a member, and with what is looked up there, in so many threads at most.
fn change_each<T: Send, I, V: Lookup<I> + Sync, F: Fn(&mut T, I) + Sync>(
    rt: &(impl Threads + Sync),
    slice: &mut [T],
    threads: usize,
    members: &[u64],
    values: &V,
    f: &F,
)
    requires threads { 0 < threads }
    requires called { (i : ℕ) (x : MutBor T) (z : I) → i < length slice.old → row_bit members.now i ≡ true → x.now ≡ slice_index_or slice.old i x.now → V.finds values.now i z → F.pre f.now x z }
    requires ready { EachMember members.now (λ i. V.can_look values.now i ≡ true) }
    requires below { EachMember members.now (λ i. i < INDEX_LIMIT) }
    ensures changed { (i : ℕ) (d : T) → i < length slice.old → row_bit members.now i ≡ true → MayLeave (V.finds values.now) (F.post f.now) i (slice_index_or slice.old i d) (slice_index_or slice.new i d) }
    ensures others { (i : ℕ) (d : T) → i < length slice.old → row_bit members.now i ≡ false → slice_index_or slice.new i d ≡ slice_index_or slice.old i d }
{
    let change = |place: usize, component: &mut T|
        requires { (row_bit members.now place ≡ true → MayBeCalled (V.finds values.now place) (F.pre f.now) component.now) × EachMember members.now (λ i. V.can_look values.now i ≡ true) × EachMember members.now (λ i. i < INDEX_LIMIT) }
        ensures changed { row_bit members.entry.now place ≡ true → MayLeave (V.finds values.entry.now) (F.post f.entry.now) place component.entry.now component.exit.now }
        ensures others { row_bit members.entry.now place ≡ false → component.exit.now ≡ component.entry.now }
    {
        if is_member(members, place) {
            f(component, values.at(place as Index));
        }
    };
    change_shared(rt, slice, threads, &change);
}

/// Calls `f` with a `&mut` to each component at the indices of a storage and of a join, and with the join's item, in as many threads at a time as
/// there are processors, below 4,096 places in the caller's. Each component is written in its place, so no answers are kept; the words of the
/// join's mask are listed first, and `f` is called with nothing else. A thread that has much left shares it with a new one where another has done
/// its part. Threads have to be started, so for little work a loop over a cursor is faster.
///
/// After an error nothing has changed: memory was refused for the words. Where the two share no index it is not refused. Stands for
/// `rayon`'s `for_each` on `specs::join::ParJoin::par_join` over a storage to write to, for storages that have each component at its
/// index's place.
pub fn par_for_each<T: Component + Send, J: RepeatableJoin, F: Fn(&mut T, J::Type) + Sync + Drop>(
    rt: &(impl Threads + Alloc<A = Global> + Sync),
    storage: &mut MaskedStorage<T>,
    join: J,
    f: F,
) -> Result<(), AllocError>
where
    T::Storage: Placed<T>,
    J::Value: Lookup<J::Type> + Sync,
    requires called { (i : ℕ) (x : MutBor T) (z : J.Type) → map.get storage.old.map i ≡ Some x.now → J.has join i ≡ true → J.gives join i z → F.pre f x z }
    ensures each { OnOk result ((i : ℕ) → i < INDEX_LIMIT → map.contains_key storage.old.map i ≡ true → J.has join i ≡ true → ChangedAt (J.gives join) (F.post f) storage.old storage.new i) }
    ensures others { OnOk result ((i : ℕ) → J.has join i ≡ false → map.get storage.new.map i ≡ map.get storage.old.map i) }
    ensures rest { OnOk result (OnlyChanges storage.old storage.new) }
    ensures err { OnErr result (storage.new ≡ storage.old) }
    ensures idle { shared_indices storage.old.map (J.has join) ≡ [] → IsOk result }
{
    let (mask, values) = join.open();
    let members = row_of(rt.alloc(), BitSetAnd(storage.mask(), mask))?;
    let slice = storage.as_mut_slice();
    let threads = if slice.len() < LEAST_SHARED {
        1
    } else {
        rayon::current_num_threads(rt)
    };
    change_each(rt, slice, threads, &members, &values, &f);
    Ok(())
}
