//! A change set as a join by value: it gives its values away.
ghost use Rattle.std.specs.Prelude.{◌≡◌, Some, length};
ghost use Rattle.std.specs.FinMap as map;
ghost use Rattle.hibits.specs.Left.{left};
ghost use Rattle.joins.specs.Given.{has_value, value_given};

use crate::change_set::{Change, ChangeSet};
use crate::combine::Combine;
use crate::join::Join;
use hibits::{BitSet, Index};
use storages::{UnprotectedStorage, VecStorage};

impl<T: Combine + Drop> Join for ChangeSet<T> {
    type Type = T;

    type Value = VecStorage<Change<T>>;

    type Mask = BitSet;

    ghost has = { λ j i. map.contains_key j i };

    ghost cost = { λ _. 1 };

    ghost most = { λ j. length (left (λ i. map.contains_key j i) 0) };

    ghost gives = { λ j i r. map.get j i ≡ Some r };

    ghost can_get = { λ v i. has_value v i };

    ghost value_gives = { λ v i r. value_given v i ≡ Some r };

    #[inline(always)]
    fn open(self) -> (BitSet, VecStorage<Change<T>>) {
        let (mask, changes) = self.into_parts();
        mask.sized();
        (mask, changes)
    }

    #[inline(always)]
    fn get(changes: &mut VecStorage<Change<T>>, id: Index) -> T {
        match changes.remove(id) {
            Ok(change) => change.value,
            Err(_) => unreachable!(),
        }
    }

    #[inline(always)]
    fn is_unconstrained() -> bool {
        false
    }
}
