//! Places of a slice that are changed in threads: whenever a thread has done its part, another shares what it has left with a new one, so that
//! no slow thread holds the others up.
ghost use Rattle.std.specs.Prelude.{◌≡◌, ℕ, ◌+◌, ◌^◌, ◌<◌, ◌≤◌, length, slice_index_or};
ghost use Rattle.std.specs.Fork.{AcceptsAt, ChangesAt, AcceptsEach, ChangesEach};
ghost use Rattle.std.specs.Thread.{IsSync, IsSend};
ghost use Rattle.joins_parallel.specs.Sharing.{EachFrom, IsPart, BecomesFrom};

use crate::pieces::LEAST_SHARED;
use std::sync::atomic::{AtomicUsize, Ordering};
use std::thread::{Threads, join_mut};

/// Into so many blocks the part of a thread is cut at least: after each it may share the rest.
const BLOCKS: usize = 16;

/// Fewer places are changed without a look at whether to share the rest.
const LEAST_BLOCK: usize = 64;

/// A handle that starts threads, with how many more may run: as many as have done their part.
trait Turns {
    /// Whether a thread more may run for a share of so many places, which is then one of those that do.
    fn take_turn(&self, places: usize) -> bool;

    /// A thread has done its part.
    fn give_turn(&self);
}

impl<R> Turns for (R, AtomicUsize) {
    #[inline(always)]
    fn take_turn(&self, places: usize) -> bool {
        if places < LEAST_SHARED {
            return false;
        }
        let now = self.1.load(Ordering::Relaxed);
        now > 0
            && self
                .1
                .compare_exchange(now, now - 1, Ordering::Relaxed, Ordering::Relaxed)
                .is_ok()
    }

    #[inline(always)]
    fn give_turn(&self) {
        self.1.fetch_add(1, Ordering::Relaxed);
    }
}

/// Calls `f` at one place.
#[inline(always)]
fn change_one<T, F: Fn(usize, &mut T)>(f: &F, place: usize, component: &mut T)
    requires { AcceptsAt F.Fn f.now place component.old }
    ensures { ChangesAt F.Fn f.now place component.old component.new }
{
    f(place, component);
}

/// Calls `f` at each place of a slice that begins at place `base`.
fn change_in_turn<T, F: Fn(usize, &mut T)>(f: &F, base: usize, slice: &mut [T])
    requires room { base + length slice.old < 2 ^ 64 }
    requires accepts { EachFrom (AcceptsAt F.Fn f.now) base slice.old }
    ensures { BecomesFrom (ChangesAt F.Fn f.now) base slice.old slice.new }
{
    for k in 0..slice.len() {
        change_one(f, base + k, &mut slice[k]);
    }
}

/// The same of so many places, in so many parts at the same time, each of them block by block: where a thread has done its part, what is left of
/// another is shared with a new one.
#[cycle(shares)]
fn change_from<R: Threads + Turns + Sync, T: Send, F: Fn(usize, &mut T) + Sync>(
    rt: &R,
    f: &F,
    block: usize,
    parts: usize,
    base: usize,
    count: usize,
    slice: &mut [T],
)
    requires { IsPart (AcceptsAt F.Fn f.now) block base count slice.old }
    ensures { BecomesFrom (ChangesAt F.Fn f.now) base slice.old slice.new }
{
    if count <= block {
        change_in_turn(f, base, slice);
        rt.give_turn();
        return;
    }
    if parts > 1 || rt.take_turn(count) {
        let middle = count / 2;
        let (low, high) = slice.split_at_mut(middle);
        change_both(
            rt,
            f,
            block,
            parts,
            base,
            middle,
            low,
            base + middle,
            count - middle,
            high,
        );
    } else {
        let (low, high) = slice.split_at_mut(block);
        change_in_turn(f, base, low);
        change_from(rt, f, block, 1, base + block, count - block, high);
    }
}

/// Two parts at the same time. How long they are is passed too, since the borrow checker does not cover closures that would look.
#[cycle(shares)]
fn change_both<R: Threads + Turns + Sync, T: Send, F: Fn(usize, &mut T) + Sync>(
    rt: &R,
    f: &F,
    block: usize,
    parts: usize,
    base: usize,
    lower: usize,
    low: &mut [T],
    middle: usize,
    upper: usize,
    high: &mut [T],
)
    requires front { IsPart (AcceptsAt F.Fn f.now) block base lower low.old }
    requires back { IsPart (AcceptsAt F.Fn f.now) block middle upper high.old }
    ensures front { BecomesFrom (ChangesAt F.Fn f.now) base low.old low.new }
    ensures back { BecomesFrom (ChangesAt F.Fn f.now) middle high.old high.new }
{
    let mut front = ||
        requires { IsSync R.row × IsSync F.row × IsSend T.row × IsPart (AcceptsAt F.Fn f.now) block base lower low.now }
        ensures { BecomesFrom (ChangesAt F.Fn f.entry.now) base low.entry.now low.exit.now }
    { change_from(rt, f, block, parts / 2, base, lower, low) };
    let mut back = ||
        requires { IsSync R.row × IsSync F.row × IsSend T.row × IsPart (AcceptsAt F.Fn f.now) block middle upper high.now }
        ensures { BecomesFrom (ChangesAt F.Fn f.entry.now) middle high.entry.now high.exit.now }
    { change_from(rt, f, block, parts - parts / 2, middle, upper, high) };
    join_mut(rt, &mut front, &mut back);
}

/// Calls `f` at each place of a slice, in so many threads at most.
pub(crate) fn change_shared<R: Threads + Sync, T: Send, F: Fn(usize, &mut T) + Sync>(
    rt: &R,
    slice: &mut [T],
    threads: usize,
    f: &F,
)
    requires threads { 0 < threads }
    requires accepts { AcceptsEach F.Fn f.now slice.old }
    ensures { ChangesEach F.Fn f.now slice.old slice.new }
{
    if threads == 1 || slice.is_empty() {
        change_in_turn(f, 0, slice);
        return;
    }
    let block = (slice.len() / threads / BLOCKS).max(LEAST_BLOCK);
    let rt = (rt, AtomicUsize::new(0));
    change_from(&rt, f, block, threads, 0, slice.len(), slice);
}
