//! Cursors that know the entities, as calls of a storage beside them.
ghost use Rattle.std.specs.Prelude.{◌≡◌, None};
ghost use Rattle.std.specs.Borrow.{sem};
ghost use Rattle.entities.specs.Census.{population};
ghost use Rattle.entities.specs.Population.{lives};
ghost use Rattle.hibits.specs.Left.{left};
ghost use Rattle.joins.specs.EntryCursor as entry;
ghost use Rattle.joins.specs.Restricting as restricting;
ghost use Rattle.storages.specs.Slot.{indices_of};
ghost use Rattle.storages.specs.WriteView.{slot, entities_of};

use crate::cursors::entry_join::EntryJoin;
use crate::cursors::restricted_mut::RestrictedStorageMut;
use hibits::BitSetAll;
use storages::{Component, WriteStorage};

/// What can be joined for writing beside the entities.
pub trait JoinLiving<T: Component> {
    /// A cursor before the first index that lives, which lends the place of each. Joined with others by `EntryJoin::join_with`. Ports
    /// `specs::Storage::entries`.
    fn entries<'s>(&'s mut self) -> EntryJoin<'s, 's, T, BitSetAll>;

    /// A cursor before the first index, which shows components and lends them where it is asked to. Joined with others by
    /// `RestrictedStorageMut::join_with`. Ports `specs::Storage::restrict_mut`.
    fn restrict_mut<'s>(&'s mut self) -> RestrictedStorageMut<'s, 's, T, BitSetAll>;
}

impl<'a, T: Component> JoinLiving<T> for WriteStorage<'a, T> {
    ghost use Rattle.joins.specs.CursorOfView.{lends_entries, lends_restricted};

    #[inline(always)]
    fn entries<'s>(&'s mut self) -> EntryJoin<'s, 's, T, BitSetAll>
        ensures* lends { sem 𝓛 (lends_entries T.row T.Storage.row self.entry result) }
        ensures slot { entry.slot result ≡ slot self.old }
        ensures entities { entry.entities_of result ≡ entities_of self.old }
        ensures rest { entry.rest result ≡ left (λ i. lives (population (entities_of self.old)) i) 0 }
        ensures here { entry.here result ≡ None }
    {
        let entities = self.fetched_entities();
        EntryJoin::over(entities, self.masked_mut())
    }

    #[inline(always)]
    fn restrict_mut<'s>(&'s mut self) -> RestrictedStorageMut<'s, 's, T, BitSetAll>
        ensures* lends { sem 𝓛 (lends_restricted T.row T.Storage.row self.entry result) }
        ensures slot { restricting.slot result ≡ slot self.old }
        ensures entities { restricting.entities_of result ≡ entities_of self.old }
        ensures rest { restricting.rest result ≡ indices_of (slot self.old) }
        ensures here { restricting.here result ≡ None }
    {
        let entities = self.fetched_entities();
        RestrictedStorageMut::over(entities, self.masked_mut())
    }
}
