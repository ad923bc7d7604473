//! Joins.
use crate::walks::{
    beside, contradictions, given, of_lent, of_tree, one_at, ones, outside, shared, six,
};
use hibits::{BitSet, BitSetLike, INDEX_LIMIT, SetError};
use joins::{BitAnd, Join, maybe};
use std::alloc::Global;
use std::test::Fail;

// Adds these indices.
fn fill(set: &mut BitSet, indices: &[u32]) -> Result<(), SetError> {
    for index in indices {
        set.add(*index)?;
    }
    Ok(())
}

// A set of these indices.
fn set_of(alloc: Global, indices: &[u32]) -> Result<BitSet, SetError> {
    let mut set = BitSet::new(alloc);
    fill(&mut set, indices)?;
    Ok(set)
}

// What two sets have to do with each other.
#[derive(Clone, Copy)]
enum Story {
    FewWordsAreRead,
    AreApart,
    AreEmpty,
    SixAreJoined,
    MayBeThere,
    ShareNothing,
    AreUnconstrained,
    OneIsJoined,
    LentOnesAreJoined,
    TreesAreJoined,
}

// Whether a story of two sets comes true.
fn tell(alloc: Global, story: Story, a: &BitSet, b: &BitSet) -> Result<bool, Fail> {
    match story {
        Story::FewWordsAreRead => is_shared(alloc, a, b, [64, INDEX_LIMIT - 1].as_slice(), 18),
        Story::AreApart => is_shared(alloc, a, b, [].as_slice(), 10),
        Story::AreEmpty => is_shared(alloc, a, b, [].as_slice(), 2),
        Story::SixAreJoined => Ok(six(a, b) == 2 && are_combined(a, b)),
        Story::MayBeThere => Ok(beside(alloc, a, b)?.as_slice() == [0, 102, 4].as_slice()),
        Story::ShareNothing => Ok(contradictions(a) == 0),
        Story::AreUnconstrained => Ok(are_unconstrained(a)),
        Story::OneIsJoined => Ok(ones(a) == 3 && one_at(a, 2) && !one_at(a, 3)),
        Story::LentOnesAreJoined => are_lent(alloc, a, b),
        Story::TreesAreJoined => is_tree(alloc, a, b),
    }
}

// Whether two sets share these indices, for which so many words were read.
fn is_shared(
    alloc: Global,
    a: &BitSet,
    b: &BitSet,
    indices: &[u32],
    words: u64,
) -> Result<bool, Fail> {
    let (list, reads) = shared(alloc, a, b)?;
    Ok(list.as_slice() == indices && reads == words)
}

// The same of sets of these indices. A function that owns sets is slow to prove, so this one does for all stories.
fn comes_true(alloc: Global, a: &[u32], b: &[u32], story: Story) -> Result<bool, Fail> {
    let a = set_of(alloc, a)?;
    let b = set_of(alloc, b)?;
    tell(alloc, story, &a, &b)
}

#[test]
fn a_join_of_sets_reads_few_words(rt: HostRuntime) -> Result<(), Fail> {
    assert!(rt;
        comes_true(
            rt.alloc(),
            &[1, 64, 4096, INDEX_LIMIT - 1],
            &[64, INDEX_LIMIT - 1],
            Story::FewWordsAreRead
        )?
    );
    Ok(())
}

#[test]
fn a_join_of_sets_apart_is_empty(rt: HostRuntime) -> Result<(), Fail> {
    assert!(rt; comes_true(rt.alloc(), &[0], &[1], Story::AreApart)?);
    assert!(rt; comes_true(rt.alloc(), &[], &[], Story::AreEmpty)?);
    Ok(())
}

#[test]
fn six_are_joined_flat(rt: HostRuntime) -> Result<(), Fail> {
    assert!(rt;
        comes_true(
            rt.alloc(),
            &[0, 2, 4, 6],
            &[0, 3, 6, 9],
            Story::SixAreJoined
        )?
    );
    Ok(())
}

// The combined set of six has what both have.
fn are_combined(a: &BitSet, b: &BitSet) -> bool {
    let all = (a, b, a, b, a, b).and();
    all.contains(0) && all.contains(6) && !all.contains(2) && !all.contains(3)
}

#[test]
fn what_may_be_there_shrinks_nothing(rt: HostRuntime) -> Result<(), Fail> {
    assert!(rt; comes_true(rt.alloc(), &[0, 2, 4], &[2, 3], Story::MayBeThere)?);
    Ok(())
}

#[test]
fn a_set_and_its_complement_share_nothing(rt: HostRuntime) -> Result<(), Fail> {
    assert!(rt;
        comes_true(
            rt.alloc(),
            &[0, 1, 2, 3, 4, 5, 6, 7, 8, 9],
            &[],
            Story::ShareNothing
        )?
    );
    Ok(())
}

// Whether a join has every index.
fn unconstrained<J: Join>(_join: &J) -> bool {
    J::is_unconstrained()
}

// A join of what may be there alone is, and no join with a set that has to have the index.
fn are_unconstrained(a: &BitSet) -> bool {
    !unconstrained(&a)
        && unconstrained(&maybe(a))
        && !unconstrained(&(a, maybe(a)))
        && unconstrained(&(maybe(a), maybe(a), maybe(a)))
}

#[test]
fn joins_of_what_may_be_there_alone_are_unconstrained(rt: HostRuntime) -> Result<(), Fail> {
    assert!(rt; comes_true(rt.alloc(), &[0, 2], &[], Story::AreUnconstrained)?);
    Ok(())
}

#[test]
fn a_tuple_of_one_is_a_join(rt: HostRuntime) -> Result<(), Fail> {
    assert!(rt; comes_true(rt.alloc(), &[0, 2, 4], &[], Story::OneIsJoined)?);
    Ok(())
}

// Whether views of 0, 2, 4 and of 2, 3 that are lent give what they have.
fn are_lent(alloc: Global, a: &BitSet, b: &BitSet) -> Result<bool, Fail> {
    let (both, either, one) = of_lent(alloc, a, b)?;
    Ok(are_given(both.as_slice(), either.as_slice(), one.as_slice()) && outside(a, b) == 2)
}

// Whether these are what 0, 2, 4 and 2, 3 have in both, in either, and in one alone.
fn are_given(both: &[u32], either: &[u32], one: &[u32]) -> bool {
    both == [2].as_slice() && either == [0, 2, 3, 4].as_slice() && one == [0, 3, 4].as_slice()
}

#[test]
fn views_that_are_lent_are_joins(rt: HostRuntime) -> Result<(), Fail> {
    assert!(rt; comes_true(rt.alloc(), &[0, 2, 4], &[2, 3], Story::LentOnesAreJoined)?);
    Ok(())
}

// Whether a tree of 0, 2, 4 without 2, 3 gives 0 and 4, lent and given up.
fn is_tree(alloc: Global, a: &BitSet, b: &BitSet) -> Result<bool, Fail> {
    let (lent, own) = of_tree(alloc, a, b)?;
    Ok(lent.as_slice() == [0, 4].as_slice() && own.as_slice() == [0, 4].as_slice())
}

#[test]
fn trees_of_sets_are_joins(rt: HostRuntime) -> Result<(), Fail> {
    assert!(rt; comes_true(rt.alloc(), &[0, 2, 4], &[2, 3], Story::TreesAreJoined)?);
    Ok(())
}

#[test]
fn a_set_that_is_given_up_is_a_join(rt: HostRuntime) -> Result<(), Fail> {
    let set = set_of(rt.alloc(), &[1, 64, INDEX_LIMIT - 1])?;
    assert!(rt; given(rt.alloc(), set)?.as_slice() == [1, 64, INDEX_LIMIT - 1].as_slice());
    Ok(())
}
