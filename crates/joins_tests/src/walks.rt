//! Walks of joins.
use hibits::{
    BitSet, BitSetAll, BitSetAnd, BitSetNot, BitSetOr, BitSetXor, INDEX_LIMIT, Index, MaskExpr,
};
use joins::{Join, JoinIter, maybe};
use std::alloc::{AllocError, Global};

/// The indices of both sets, and how many words were read for them.
pub fn shared(alloc: Global, a: &BitSet, b: &BitSet) -> Result<(Vec<u32>, u64), AllocError> {
    let mut list = Vec::new(alloc);
    let mut iter = JoinIter::new((a, b));
    while let Some((index, _)) = iter.next() {
        list.push(index)?;
    }
    Ok((list, iter.reads()))
}

/// How many indices six joins share.
pub fn six(a: &BitSet, b: &BitSet) -> u32 {
    let mut count: u32 = 0;
    let mut iter = JoinIter::new((a, b, a, b, a, b));
    while let Some((i, j, _, _, _, k)) = iter.next() {
        if i == j && j == k && i < INDEX_LIMIT {
            count = count.wrapping_add(1);
        }
    }
    count
}

/// What a set has beside what may be in another: the index, and 100 more where the other has it.
pub fn beside(alloc: Global, a: &BitSet, b: &BitSet) -> Result<Vec<u32>, AllocError> {
    let mut list = Vec::new(alloc);
    let mut iter = JoinIter::new((a, maybe(b)));
    while let Some((i, other)) = iter.next() {
        let more = if other.is_some() { 100 } else { 0 };
        list.push(i.wrapping_add(more))?;
    }
    Ok(list)
}

/// How many indices a set shares with its complement.
pub fn contradictions(a: &BitSet) -> u32 {
    let mut count: u32 = 0;
    let mut iter = JoinIter::new((a, BitSetNot(a)));
    while let Some((_, _)) = iter.next() {
        count = count.wrapping_add(1);
    }
    count
}

/// The indices that a join gives.
pub fn given<J: Join<Type = Index>>(alloc: Global, join: J) -> Result<Vec<u32>, AllocError> {
    let mut list = Vec::new(alloc);
    let mut iter = JoinIter::new(join);
    while let Some(index) = iter.next() {
        list.push(index)?;
    }
    Ok(list)
}

/// How many indices a join of one has, of which each is the one beside it.
pub fn ones(a: &BitSet) -> u32 {
    let mut count: u32 = 0;
    let mut iter = JoinIter::new(((a,), &BitSetAll));
    while let Some(((i,), j)) = iter.next() {
        if i == j {
            count = count.wrapping_add(1);
        }
    }
    count
}

/// Whether a join of one gives at an index what it gives on the way.
pub fn one_at(a: &BitSet, index: Index) -> bool {
    match JoinIter::new((a,)).get_unchecked(index) {
        Some((i,)) => i == index,
        None => false,
    }
}

/// The indices in both sets, in one of them, and in just one of them, of views that are lent.
pub fn of_lent(
    alloc: Global,
    a: &BitSet,
    b: &BitSet,
) -> Result<(Vec<u32>, Vec<u32>, Vec<u32>), AllocError> {
    let both = given(alloc, &BitSetAnd(a, b))?;
    let either = given(alloc, &BitSetOr(a, b))?;
    let one = given(alloc, &BitSetXor(a, b))?;
    Ok((both, either, one))
}

/// The indices in a set and not in another, as a tree that is lent, and then given up.
pub fn of_tree(alloc: Global, a: &BitSet, b: &BitSet) -> Result<(Vec<u32>, Vec<u32>), AllocError> {
    let not = MaskExpr::Not(Box::new(alloc, MaskExpr::Mask(b))?);
    let tree = MaskExpr::And(Box::new(alloc, MaskExpr::Mask(a))?, Box::new(alloc, not)?);
    let lent = given(alloc, &tree)?;
    let own = given(alloc, tree)?;
    Ok((lent, own))
}

/// How many indices a set has that are in the complement of another, which is lent.
pub fn outside(a: &BitSet, b: &BitSet) -> u32 {
    let not = BitSetNot(b);
    let mut count: u32 = 0;
    let mut iter = JoinIter::new((a, &not));
    while let Some((i, j)) = iter.next() {
        if i == j {
            count = count.wrapping_add(1);
        }
    }
    count
}
