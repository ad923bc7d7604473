//! Joins that lend a storage's components for writing, as calls of the storage.
ghost use Rattle.std.specs.Prelude.{◌≡◌, ℕ, None};
ghost use Rattle.std.specs.Borrow.{sem};
ghost use Rattle.std.specs.FinMap as map;
ghost use Rattle.joins.specs.Cursor.{slot, storage_name, here, rest, gives};
ghost use Rattle.joins.specs.Draining as draining;
ghost use Rattle.joins.specs.Keys.{shared_indices};
ghost use Rattle.storages.specs.Slot.{indices_of};
ghost use Rattle.storages.specs.WriteView as view;

use crate::cursors::drain::Drain;
use crate::cursors::write_join::WriteJoin;
use crate::join::Join;
use hibits::BitSetAll;
use storages::{Component, MaskedStorage, WriteStorage};

/// What can be joined for writing.
pub trait JoinMut<T: Component> {
    /// A cursor before the first index that this and the join share. It stands for `(&mut storage, join).join()` of specs.
    fn join_mut<J: Join>(&mut self, join: J) -> WriteJoin<'_, T, J>;

    /// A cursor before the first index, which takes components out where it is asked to. Joined with others by `Drain::join_with`. It ports
    /// `specs::Storage::drain`.
    fn drain(&mut self) -> Drain<'_, T, BitSetAll>;
}

impl<T: Component> JoinMut<T> for MaskedStorage<T> {
    #[inline(always)]
    fn join_mut<J: Join>(&mut self, join: J) -> WriteJoin<'_, T, J>
        ensures same_reference { storage_name result ≡ self.entry.ghost_name }
        ensures slot { slot result ≡ self.old }
        ensures rest { rest result ≡ shared_indices self.old.map (J.has join) }
        ensures here { here result ≡ None }
        ensures gives { (i : ℕ) (r : J.Type) → gives result i r → J.gives join i r }
    {
        WriteJoin::new(self, join)
    }

    #[inline(always)]
    fn drain(&mut self) -> Drain<'_, T, BitSetAll>
        ensures same_reference { draining.storage_name result ≡ self.entry.ghost_name }
        ensures slot { draining.slot result ≡ self.old }
        ensures rest { draining.rest result ≡ indices_of self.old }
        ensures here { draining.here result ≡ None }
    {
        Drain::new(self, BitSetAll)
    }
}

impl<'a, T: Component> JoinMut<T> for WriteStorage<'a, T> {
    ghost use Rattle.joins.specs.CursorOfView.{lends_cursor};
    ghost use Rattle.joins.specs.Draining.{lends_drain};

    #[inline(always)]
    fn join_mut<J: Join>(&mut self, join: J) -> WriteJoin<'_, T, J>
        ensures* lends { sem 𝓛 (lends_cursor T.row T.Storage.row self.entry result) }
        ensures slot { slot result ≡ view.slot self.old }
        ensures rest { rest result ≡ shared_indices (view.slot self.old).map (J.has join) }
        ensures here { here result ≡ None }
        ensures gives { (i : ℕ) (r : J.Type) → gives result i r → J.gives join i r }
    {
        WriteJoin::new(self.masked_mut(), join)
    }

    #[inline(always)]
    fn drain(&mut self) -> Drain<'_, T, BitSetAll>
        ensures* lends { sem 𝓛 (lends_drain T.row T.Storage.row self.entry result) }
        ensures slot { draining.slot result ≡ view.slot self.old }
        ensures rest { draining.rest result ≡ indices_of (view.slot self.old) }
        ensures here { draining.here result ≡ None }
    {
        self.masked_mut().drain()
    }
}
