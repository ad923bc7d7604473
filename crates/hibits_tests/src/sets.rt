//! What no clause says: counts of words as they were worked out by hand, and that calls that grow succeed.
use crate::asserts::{equal, holds};
use hibits::*;
use std::alloc::{AllocError, Global};
use std::cell::Cell;
use std::process::Abort;
use std::test::Fail;

/// Adds these indices.
fn fill(set: &mut BitSet, members: &[Index]) -> Result<(), SetError> {
    for id in members {
        set.add(*id)?;
    }
    Ok(())
}

fn set_of(alloc: Global, members: &[Index]) -> Result<BitSet, SetError> {
    let mut set = BitSet::new(alloc);
    fill(&mut set, members)?;
    Ok(set)
}

/// What is told of two sets.
#[derive(Clone, Copy)]
enum Story<'a> {
    /// A walk over both gives these indices, for which so many words are read.
    WordsAreRead(&'a [Index], u64),
    /// A walk over both by words gives these, for which so many words are read.
    Words(&'a [(u32, u64)], u64),
    CallsAreCounted,
    Views,
    Complement,
    Trees,
}

/// Tells it.
fn tell<R: Abort>(
    rt: &R,
    alloc: Global,
    story: Story<'_>,
    a: &BitSet,
    b: &BitSet,
) -> Result<(), AllocError> {
    match story {
        Story::WordsAreRead(both, reads) => words_are_read(rt, a & b, both, reads),
        Story::Words(words, reads) => words_are_given(rt, a & b, words, reads),
        Story::CallsAreCounted => calls_are_counted(rt, a, b),
        Story::Views => are_shown(rt, alloc, a, b)?,
        Story::Trees => is_tree(rt, alloc, &outside(alloc, a, b)?)?,
        Story::Complement => holds!(rt; begins(alloc, !a, &[1, 2, 3])?),
    }
    Ok(())
}

/// The same of sets of these indices. A function that owns sets is slow to prove, so this one does for all stories.
fn told<R: Abort>(
    rt: &R,
    alloc: Global,
    first: &[Index],
    second: &[Index],
    story: Story<'_>,
) -> Result<(), Fail> {
    let a = set_of(alloc, first)?;
    let b = set_of(alloc, second)?;
    Ok(tell(rt, alloc, story, &a, &b)?)
}

/// A walk over a view gives these indices, for which so many words are read.
fn words_are_read<R: Abort, M: Layers + Drop>(rt: &R, view: M, members: &[Index], reads: u64) {
    let mut walk = BitIter::new(view);
    for id in members {
        equal!(rt; walk.next(), Some(*id));
    }
    equal!(rt; walk.next(), None);
    equal!(rt; walk.reads(), reads);
}

#[test]
fn walks_count_words(rt: HostRuntime) -> Result<(), Fail> {
    let both: &[Index] = &[64, INDEX_LIMIT - 1];
    let story = Story::WordsAreRead(both, 18);
    told(
        &rt,
        rt.alloc(),
        &[1, 64, 4096, INDEX_LIMIT - 1],
        both,
        story,
    )?;
    let both: &[Index] = &[64, 16_777_215];
    let story = Story::WordsAreRead(both, 16);
    told(&rt, rt.alloc(), &[1, 64, 4096, 16_777_215], both, story)?;
    told(&rt, rt.alloc(), &[0], &[1], Story::WordsAreRead(&[], 10))?;
    told(&rt, rt.alloc(), &[], &[], Story::WordsAreRead(&[], 2))
}

/// A walk by words over a view gives these, each with its place, for which so many words are read.
fn words_are_given<R: Abort, M: Layers + Drop>(rt: &R, view: M, words: &[(u32, u64)], reads: u64) {
    let mut walk = WordIter::new(view);
    for word in words {
        equal!(rt; walk.next(), Some(*word));
    }
    equal!(rt; walk.next(), None);
    equal!(rt; walk.next(), None);
    equal!(rt; walk.reads(), reads);
}

#[test]
fn words_are_walked_with_their_places(rt: HostRuntime) -> Result<(), Fail> {
    let ends: &[Index] = &[0, 63, 64, 4096, INDEX_LIMIT - 1];
    let words: &[(u32, u64)] = &[
        (0, 9223372036854775809),
        (1, 1),
        (64, 1),
        (INDEX_LIMIT / 64 - 1, 9223372036854775808),
    ];
    told(&rt, rt.alloc(), ends, ends, Story::Words(words, 24))?;
    told(
        &rt,
        rt.alloc(),
        &[0, 65],
        &[1, 65],
        Story::Words(&[(1, 2)], 12),
    )?;
    told(&rt, rt.alloc(), &[], &[], Story::Words(&[], 2))
}

/// A word at a place stands for these indices, so many.
fn stands_for<R: Abort>(rt: &R, place: u32, word: u64, indices: &[Index], count: u32) {
    let mut rest = WordIndices::new(place & 0xff, word);
    equal!(rt; rest.count(), count);
    for id in indices {
        equal!(rt; rest.next(), Some(*id));
    }
    equal!(rt; rest.next(), None);
    equal!(rt; rest.count(), 0);
}

#[test]
fn words_stand_for_their_indices(rt: HostRuntime) -> Result<(), Fail> {
    stands_for(&rt, 2, 9223372036854775813, &[128, 130, 191], 3);
    stands_for(&rt, 0, 0, &[], 0);
    Ok(())
}

fn add(set: &mut BitSet, id: Index) -> Result<bool, SetError> {
    set.add(id)
}

fn reserve_for(set: &mut BitSet, id: Index) -> Result<(), SetError> {
    set.reserve_for(id)
}

fn first_from(set: &BitSet, id: Index) -> Option<Index> {
    set.first_from(id)
}

/// What the addition of an index to a set with room for so many answers.
fn added_to_roomy(alloc: Global, max: Index, id: Index) -> Result<bool, SetError> {
    let mut roomy = BitSet::with_capacity(alloc, max)?;
    add(&mut roomy, id)
}

/// Why there is no set with room for so many.
fn refused(alloc: Global, max: Index) -> Option<SetError> {
    BitSet::with_capacity(alloc, max).err()
}

fn is_added_to<R: Abort>(rt: &R, set: &mut BitSet) {
    equal!(rt; add(set, 16_777_216), Ok(false));
    holds!(rt; remove(set, 16_777_216));
    equal!(rt; add(set, INDEX_LIMIT - 1), Ok(false));
    equal!(rt; add(set, INDEX_LIMIT - 1), Ok(true));
    equal!(rt; add(set, INDEX_LIMIT), Err(SetError::IndexLimit));
    equal!(rt; set.count(), 1);
    equal!(rt; first_from(set, 0), Some(INDEX_LIMIT - 1));
    equal!(rt; reserve_for(set, 7), Ok(()));
    equal!(rt; reserve_for(set, INDEX_LIMIT), Err(SetError::IndexLimit));
}

#[test]
fn adds(rt: HostRuntime) -> Result<(), Fail> {
    let mut set = BitSet::new(rt.alloc());
    is_added_to(&rt, &mut set);
    for max in [0, 1, 64, 4097, INDEX_LIMIT - 1, INDEX_LIMIT] {
        equal!(&rt; added_to_roomy(rt.alloc(), max, 4097), Ok(false));
    }
    equal!(&rt; refused(rt.alloc(), INDEX_LIMIT + 1), Some(SetError::IndexLimit));
    Ok(())
}

/// A set that counts what it is asked.
#[derive(Drop)]
struct Counting<'a> {
    set: &'a BitSet,
    calls: Cell<u64>,
}

impl<'a> Layers for Counting<'a> {
    ghost use Rattle.std.specs.FinSet as set;
    ghost use Rattle.hibits.specs.Sets.{has_part, part_covers, part_few};

    ghost has = { λ s. has_part s.set.now.members };

    ghost cost = { λ _. 1 };

    ghost most = { λ s. set.len s.set.now.members };

    ghost covers = { λ s. part_covers s.set.now.members };

    ghost few = { λ s l n lt le. part_few s.set.now.members l n };

    fn word(&self, level: usize, place: u32, reads: &mut Reads) -> u64 {
        self.calls.set(self.calls.get().saturating_add(1));
        self.set.word(level, place, reads)
    }
}

impl<'a> BitSetLike for Counting<'a> {
    fn contains(&self, id: Index) -> bool {
        self.calls.set(self.calls.get().saturating_add(1));
        BitSetLike::contains(self.set, id)
    }
}

/// Both sets are asked nine times.
fn calls_are_counted<R: Abort>(rt: &R, first: &BitSet, second: &BitSet) {
    let a = Counting {
        set: first,
        calls: Cell::new(0),
    };
    let b = Counting {
        set: second,
        calls: Cell::new(0),
    };
    words_are_read(rt, BitSetAnd(&a, &b), &[64, INDEX_LIMIT - 1], 18);
    equal!(rt; a.calls.get(), 9);
    equal!(rt; b.calls.get(), 9);
}

#[test]
fn every_call_is_counted(rt: HostRuntime) -> Result<(), Fail> {
    let both: &[Index] = &[64, INDEX_LIMIT - 1];
    told(
        &rt,
        rt.alloc(),
        &[1, 64, 4096, INDEX_LIMIT - 1],
        both,
        Story::CallsAreCounted,
    )
}

fn first_three<M: Layers + Drop>(alloc: Global, mask: M) -> Result<Vec<Index>, AllocError> {
    BitIter::new(mask).take(3).collect(alloc)
}

/// Whether the first three of a view are these.
fn begins<M: Layers + Drop>(alloc: Global, mask: M, members: &[Index]) -> Result<bool, AllocError> {
    Ok(first_three(alloc, mask)?.as_slice() == members)
}

fn are_shown<R: Abort>(rt: &R, alloc: Global, a: &BitSet, b: &BitSet) -> Result<(), AllocError> {
    holds!(rt; begins(alloc, a ^ b, &[1, 3])?);
    holds!(rt; begins(alloc, a | b, &[1, 2, 3])?);
    holds!(rt; begins(alloc, BitSetAll, &[0, 1, 2])?);
    Ok(())
}

#[test]
fn views(rt: HostRuntime) -> Result<(), Fail> {
    told(&rt, rt.alloc(), &[1, 2], &[2, 3], Story::Views)?;
    told(&rt, rt.alloc(), &[0], &[], Story::Complement)
}

/// The members of `b` that are none of `a`.
fn outside<'a>(
    alloc: Global,
    a: &'a BitSet,
    b: &'a BitSet,
) -> Result<MaskExpr<&'a BitSet>, AllocError> {
    let not_a = MaskExpr::Not(Box::new(alloc, MaskExpr::Mask(a))?);
    Ok(MaskExpr::And(Box::new(alloc, not_a)?, Box::new(alloc, MaskExpr::Mask(b))?))
}

fn is_tree<R: Abort>(rt: &R, alloc: Global, expr: &MaskExpr<&BitSet>) -> Result<(), AllocError> {
    holds!(rt; begins(alloc, expr, &[3])?);
    holds!(rt; expr.contains(3));
    holds!(rt; !expr.contains(2));
    Ok(())
}

#[test]
fn trees(rt: HostRuntime) -> Result<(), Fail> {
    told(&rt, rt.alloc(), &[1, 2], &[2, 3], Story::Trees)
}

/// A set with the first `count` multiples of `step`.
fn scattered(alloc: Global, count: u32, step: u32) -> Result<BitSet, SetError> {
    let mut set = BitSet::new(alloc);
    for place in 0..count {
        set.add(place.saturating_mul(step))?;
    }
    Ok(set)
}

fn remove(set: &mut BitSet, id: Index) -> bool {
    set.remove(id)
}

/// The first index and the last take a page each, which are kept when they go.
fn keeps_its_pages<R: Abort>(rt: &R, set: &mut BitSet) {
    equal!(rt; set.page_count(), 2);
    holds!(rt; remove(set, 0));
    holds!(rt; remove(set, INDEX_LIMIT - 1));
    equal!(rt; set.count(), 0);
    equal!(rt; set.page_count(), 2);
    equal!(rt; add(set, 4095), Ok(false));
    equal!(rt; set.page_count(), 2);
    equal!(rt; add(set, 4096), Ok(false));
    equal!(rt; set.page_count(), 3);
    set.clear();
    equal!(rt; set.page_count(), 3);
}

#[test]
fn pages_are_made_for_members_and_kept(rt: HostRuntime) -> Result<(), Fail> {
    let mut set = set_of(rt.alloc(), &[0, INDEX_LIMIT - 1])?;
    keeps_its_pages(&rt, &mut set);
    Ok(())
}

/// What is told of a set by its members and its pages.
fn has_members_and_pages<R: Abort>(rt: &R, set: &BitSet, members: usize, pages: usize) {
    equal!(rt; set.count(), members);
    equal!(rt; set.page_count(), pages);
}

#[test]
fn scattered_members_take_a_page_each(rt: HostRuntime) -> Result<(), Fail> {
    has_members_and_pages(&rt, &scattered(rt.alloc(), 1024, 16384)?, 1024, 1024);
    has_members_and_pages(&rt, &scattered(rt.alloc(), 8192, 2048)?, 8192, 4096);
    has_members_and_pages(&rt, &BitSet::with_capacity(rt.alloc(), 4097)?, 0, 2);
    Ok(())
}

/// A set covers another where a block that it has not has no member there.
fn covers<R: Abort>(rt: &R, small: &BitSet, large: &BitSet) {
    holds!(rt; large.contains_set(small));
    holds!(rt; !small.contains_set(large));
    holds!(rt; !large.contains(8192));
    equal!(rt; large.first_from(8192), Some(12288));
}

#[test]
fn blocks_that_are_missing_have_no_member(rt: HostRuntime) -> Result<(), Fail> {
    let small = set_of(rt.alloc(), &[12288])?;
    let mut large = set_of(rt.alloc(), &[4096, 12288])?;
    reserve_for(&mut large, 500000)?;
    covers(&rt, &small, &large);
    Ok(())
}
