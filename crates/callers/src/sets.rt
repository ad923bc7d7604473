//! Sets of indices.
ghost use Rattle.std.specs.Prelude.{◌≡◌, ◌≢◌, ◌<◌, true, false, IfOk};

use hibits::{BitSet, Index, SetError};
use std::alloc::Global;

/// An index that was added is a member.
pub fn added_and_found(set: &mut BitSet, id: Index) -> Result<bool, SetError>
    ensures { IfOk result (λ found. found ≡ true) }
{
    set.add(id)?;
    Ok(set.contains(id))
}

/// An index that was removed is no member.
pub fn removed_and_gone(set: &mut BitSet, id: Index) -> bool
    ensures { result ≡ false }
{
    set.remove(id);
    set.contains(id)
}

/// A member stays one when another index is removed.
pub fn others_stay(set: &mut BitSet, id: Index, other: Index) -> Result<bool, SetError>
    requires { id ≢ other }
    ensures { IfOk result (λ found. found ≡ true) }
{
    set.add(id)?;
    set.remove(other);
    Ok(set.contains(id))
}

/// A new set with one index has one member.
pub fn one(alloc: Global, id: Index) -> Result<usize, SetError>
    ensures { IfOk result (λ n. n ≡ 1) }
{
    let mut set = BitSet::new(alloc);
    set.add(id)?;
    Ok(set.count())
}

/// Where no member is counted, a walk ends at once.
pub fn none_to_walk(set: &BitSet) -> bool
    ensures { result ≡ true }
{
    let mut walk = set.iter();
    let first = walk.next();
    set.count() != 0 || first.is_none()
}

/// What a walk gives first is a member.
pub fn first_is_member(set: &BitSet) -> bool
    ensures { result ≡ true }
{
    let mut walk = set.iter();
    match walk.next() {
        Some(id) => set.contains(id),
        None => true,
    }
}

/// An index that has room is added without memory.
pub fn added_in_its_room(set: &mut BitSet, id: Index) -> Result<bool, SetError>
    ensures { IfOk result (λ added. added ≡ true) }
{
    set.reserve_for(id)?;
    Ok(set.add(id).is_ok())
}

/// Each index below its capacity is added to a set without memory.
pub fn added_within_capacity(alloc: Global, max: Index, id: Index) -> Result<bool, SetError>
    requires { id < max }
    ensures { IfOk result (λ added. added ≡ true) }
{
    let mut set = BitSet::with_capacity(alloc, max)?;
    Ok(set.add(id).is_ok())
}

/// A set that contains another has each member of it.
pub fn has_what_is_in_another(set: &BitSet, other: &BitSet, id: Index) -> bool
    ensures { result ≡ true }
{
    !set.contains_set(other) || !other.contains(id) || set.contains(id)
}

/// A set still contains another once an index more was added to it.
pub fn contains_it_still(set: &mut BitSet, other: &BitSet, id: Index) -> Result<bool, SetError>
    ensures { IfOk result (λ contains. contains ≡ true) }
{
    let before = set.contains_set(other);
    set.add(id)?;
    Ok(!before || set.contains_set(other))
}

/// The first member from an index on is a member, and not below it; where there is none, the index itself is no member.
pub fn first_is_found(set: &BitSet, id: Index) -> bool
    ensures { result ≡ true }
{
    match set.first_from(id) {
        Some(first) => first >= id && set.contains(first),
        None => !set.contains(id),
    }
}

/// No member stands between an index and the first from it on.
pub fn none_between(set: &BitSet, id: Index, other: Index) -> bool
    ensures { result ≡ true }
{
    match set.first_from(id) {
        Some(first) => !(id <= other && other < first && set.contains(other)),
        None => !(id <= other && set.contains(other)),
    }
}
