//! Change sets, joined and given up.
ghost use Rattle.std.specs.Prelude.{◌≡◌, ℕ, Some, true, IfSome};
ghost use Rattle.std.specs.FinMap as map;
ghost use Rattle.std.specs.FinSet as set;
ghost use Rattle.joins.specs.Each.{each_becomes};
ghost use Rattle.joins.specs.Keys.{shared_indices};

use hibits::{BitSet, Index};
use joins::{ChangeSet, Join};

/// Each change of an index that a set has is the same, and nothing else changed.
pub fn all_changes_are(changes: &mut ChangeSet<u32>, other: &BitSet, value: u32)
    ensures { changes.new ≡ each_becomes (λ _ _. value) (shared_indices changes.old (set.contains other.now.members)) changes.old }
{
    let mut cursor = changes.join_mut(other);
    while let Some(_id) = cursor.next() {
        if let Some(place) = cursor.item() {
            *place = value;
        }
    }
}

/// Each change of an index that a set has is taken back, by a closure, with no proof file.
pub fn all_changes_taken_back(changes: &mut ChangeSet<u32>, other: &BitSet)
    ensures { changes.new ≡ each_becomes (λ _ _. 0) (shared_indices changes.old (set.contains other.now.members)) changes.old }
{
    changes
        .join_mut(other)
        .for_each(|change: &mut u32, _index: Index| {
            *change = 0;
        })
}

/// No step of a cursor beside any join writes to a change set.
pub fn change_beside<J: Join>(changes: &mut ChangeSet<u32>, join: J) -> Option<Index>
    ensures { changes.new ≡ changes.old }
{
    let mut cursor = changes.join_mut(join);
    let found = cursor.next();
    let _changes = cursor.into_changes();
    found
}

/// What a change set gives when it is given up are its changes.
pub fn first_change(changes: ChangeSet<u32>) -> Option<u32>
    ensures { IfSome result (λ x. (i : ℕ) × (map.get changes i ≡ Some x)) }
{
    let mut walk = changes.join();
    let first = walk.next()?;
    Some(first)
}
