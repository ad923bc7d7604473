//! Change sets.
use crate::asserts::{equal, gives, gives_two, holds};
use crate::stories::{Story, told};
use crate::worlds::first_at;
use crate::yard::Yard;
use entities::Entity;
use hibits::{BitSet, INDEX_LIMIT, Index};
use joins::{ChangeError, ChangeSet};
use std::alloc::{AllocError, Global};
use std::process::Abort;
use std::test::Fail;

// The value of an index, or none.
fn at(set: &ChangeSet<i32>, id: u32) -> Option<i32> {
    set.get(id).copied()
}

// How many indices have a value.
fn count(set: &ChangeSet<i32>) -> usize {
    set.mask().count()
}

// Whether a value is added.
fn adds(set: &mut ChangeSet<i32>, e: Entity, value: i32) -> bool {
    set.add(e, value).is_ok()
}

// Why a value is refused.
fn refuses(set: &mut ChangeSet<i32>, e: Entity, value: i32) -> Option<ChangeError> {
    set.add(e, value).err()
}

// Leaves no value.
fn clear(set: &mut ChangeSet<i32>) {
    set.clear();
}

// Why a list of values is refused.
fn refuses_one_of(set: &mut ChangeSet<i32>, list: Vec<(Entity, i32)>) -> Option<ChangeError> {
    set.extend(list).err()
}

// A list of changes, which takes memory that is there.
fn listed(alloc: Global, changes: &[(Entity, i32)]) -> Result<Vec<(Entity, i32)>, AllocError> {
    let mut list = Vec::new(alloc);
    for change in changes {
        list.push(*change)?;
    }
    Ok(list)
}

// Healths of 100, 200 and 300, at the indices 0 to 2.
fn fill<R: Abort, Y: Yard>(rt: &R, yard: &mut Y) {
    holds!(rt; yard.put_first(0, (100, 0)));
    holds!(rt; yard.put_first(1, (200, 0)));
    holds!(rt; yard.put_first(2, (300, 0)));
}

// The healths that are left at the three indices.
fn are_left<R: Abort, Y: Yard>(rt: &R, yard: &Y) {
    gives_two!(rt; yard.first(0), Some((68, 0)));
    gives_two!(rt; yard.first(1), Some((175, 0)));
    gives_two!(rt; yard.first(2), Some((300, 0)));
}

// The change set of a list.
fn changes(alloc: Global, list: Vec<(Entity, i32)>) -> Option<ChangeSet<i32>> {
    ChangeSet::from_list(alloc, list).ok()
}

// The changes of three healths: 32 of the first, and 12 and 13 of the second.
fn three_changes(alloc: Global) -> Result<ChangeSet<i32>, Fail> {
    let (a, b) = (first_at(0)?, first_at(1)?);
    let list = listed(alloc, &[(a, 32), (b, 12), (b, 13)])?;
    Ok(changes(alloc, list).ok_or("refused")?)
}

/// The changes are subtracted, and stay.
pub fn subtracts<R: Abort, Y: Yard>(rt: &R, alloc: Global, yard: &mut Y) -> Result<(), Fail> {
    let set = three_changes(alloc)?;
    fill(rt, yard);
    yard.subtract(&set);
    are_left(rt, yard);
    equal!(rt; count(&set), 2);
    Ok(())
}

#[test]
fn changes_are_subtracted_from_healths(rt: HostRuntime) -> Result<(), Fail> {
    told(&rt, rt.alloc(), 0, Story::Subtracts)
}

/// The changes are subtracted, and given up.
pub fn subtracts_all<R: Abort, Y: Yard>(rt: &R, alloc: Global, yard: &mut Y) -> Result<(), Fail> {
    fill(rt, yard);
    yard.subtract_all(three_changes(alloc)?);
    are_left(rt, yard);
    Ok(())
}

#[test]
fn a_change_set_that_is_given_up_gives_its_changes(rt: HostRuntime) -> Result<(), Fail> {
    told(&rt, rt.alloc(), 0, Story::SubtractsAll)
}

/// The changes by a cursor: of two the second is more than the health beside it.
pub fn are_bounded<R: Abort, Y: Yard>(rt: &R, alloc: Global, yard: &mut Y) -> Result<(), Fail> {
    let mut set = three_changes(alloc)?;
    holds!(rt; yard.put_first(0, (100, 0)));
    holds!(rt; yard.put_first(1, (20, 0)));
    yard.bound(&mut set);
    gives!(rt; at(&set, 0), Some(32));
    gives!(rt; at(&set, 1), Some(20));
    Ok(())
}

#[test]
fn a_cursor_lends_the_changes(rt: HostRuntime) -> Result<(), Fail> {
    told(&rt, rt.alloc(), 0, Story::Bounded)
}

// Doubles the changes of the indices of a set, by a closure, and answers the sum of those before.
fn double(set: &mut ChangeSet<i32>, indices: &BitSet) -> i32 {
    let mut sum = 0i32;
    set.join_mut(indices)
        .for_each(|change: &mut i32, _index: Index| {
            sum = change.saturating_add(sum);
            *change = change.saturating_mul(2);
        });
    sum
}

#[test]
fn a_closure_writes_to_the_changes(rt: HostRuntime) -> Result<(), Fail> {
    let mut set = three_changes(rt.alloc())?;
    holds!(&rt; adds(&mut set, first_at(4)?, 9));
    let mut indices = BitSet::new(rt.alloc());
    for id in 1..9 {
        holds!(&rt; indices.add(id).is_ok());
    }
    equal!(&rt; double(&mut set, &indices), 34);
    gives!(&rt; at(&set, 0), Some(32));
    gives!(&rt; at(&set, 1), Some(50));
    gives!(&rt; at(&set, 4), Some(18));
    equal!(&rt; count(&set), 3);
    Ok(())
}

// A sum that does not fit is refused, and changes nothing.
fn refuses_a_sum<R: Abort>(rt: &R, set: &mut ChangeSet<i32>) -> Result<(), Fail> {
    let e = first_at(7)?;
    holds!(rt; adds(set, e, 2147483647));
    holds!(rt; matches!(refuses(set, e, 1), Some(ChangeError::Refused)));
    gives!(rt; at(set, 7), Some(2147483647));
    Ok(())
}

// Adds a list of which one is refused; those before it stay.
fn stops<R: Abort>(rt: &R, alloc: Global, set: &mut ChangeSet<i32>) -> Result<(), Fail> {
    let (a, b) = (first_at(0)?, first_at(1)?);
    let list = listed(alloc, &[(a, 2147483647), (b, 5), (a, 1), (b, 6)])?;
    holds!(rt; matches!(refuses_one_of(set, list), Some(ChangeError::Refused)));
    gives!(rt; at(set, 0), Some(2147483647));
    gives!(rt; at(set, 1), Some(5));
    Ok(())
}

// Two lives of an index share a value, and an index past the limit has none.
fn looks_at_indices<R: Abort>(rt: &R, set: &mut ChangeSet<i32>) -> Result<(), Fail> {
    let (old, far) = (first_at(3)?, first_at(INDEX_LIMIT)?);
    let new = Entity::from_parts(3, 2).ok_or("no entity")?;
    holds!(rt; adds(set, old, 1));
    holds!(rt; adds(set, new, 2));
    gives!(rt; at(set, 3), Some(3));
    holds!(rt; matches!(refuses(set, far, 1), Some(ChangeError::IndexLimit)));
    clear(set);
    gives!(rt; at(set, 3), None);
    equal!(rt; count(set), 0);
    Ok(())
}

// What is told of a change set.
#[derive(Clone, Copy)]
enum Tale {
    SumIsRefused,
    StopsAtARefusal,
    IndexAloneCounts,
}

// Tells it of a new change set.
fn tell<R: Abort>(rt: &R, alloc: Global, tale: Tale) -> Result<(), Fail> {
    let mut set = ChangeSet::new(alloc);
    match tale {
        Tale::SumIsRefused => refuses_a_sum(rt, &mut set),
        Tale::StopsAtARefusal => stops(rt, alloc, &mut set),
        Tale::IndexAloneCounts => looks_at_indices(rt, &mut set),
    }
}

#[test]
fn a_sum_that_does_not_fit_is_refused(rt: HostRuntime) -> Result<(), Fail> {
    tell(&rt, rt.alloc(), Tale::SumIsRefused)
}

#[test]
fn what_came_before_a_refused_value_stays(rt: HostRuntime) -> Result<(), Fail> {
    tell(&rt, rt.alloc(), Tale::StopsAtARefusal)
}

#[test]
fn the_index_alone_counts(rt: HostRuntime) -> Result<(), Fail> {
    tell(&rt, rt.alloc(), Tale::IndexAloneCounts)
}
