//! Storages, views of them and change sets as joins: they give what they have at an index.
ghost use Rattle.std.specs.Prelude.{◌≡◌, Some, true, length};
ghost use Rattle.std.specs.FinMap as map;
ghost use Rattle.hibits.specs.Left.{left};
ghost use Rattle.storages.specs.ReadView.{slot};
ghost use Rattle.storages.specs.WriteView as writing;

use crate::change_set::ChangeSet;
use crate::combine::Combine;
use crate::join::Join;
use hibits::{BitSet, Index};
use storages::{Component, MaskedStorage, ReadStorage, UnprotectedStorage, WriteStorage};

impl<'a, T: Component> Join for &'a MaskedStorage<T>
where
    T::Storage: UnprotectedStorage<T>,
{
    type Type = &'a T;

    type Value = &'a MaskedStorage<T>;

    type Mask = &'a BitSet;

    ghost has = { λ j i. map.contains_key j.now.map i };

    ghost cost = { λ _. 1 };

    ghost most = { λ j. length (left (λ i. map.contains_key j.now.map i) 0) };

    ghost repeats = { true };

    ghost gives = { λ j i r. map.get j.now.map i ≡ Some r.now };

    ghost can_get = { λ v i. map.contains_key v.now.map i };

    ghost value_gives = { λ v i r. map.get v.now.map i ≡ Some r.now };

    #[inline(always)]
    fn open(self) -> (&'a BitSet, &'a MaskedStorage<T>) {
        let mask = self.mask();
        mask.sized();
        (mask, self)
    }

    #[inline(always)]
    fn get(value: &mut &'a MaskedStorage<T>, id: Index) -> &'a T {
        let storage: &'a MaskedStorage<T> = *value;
        storage.unprotected_storage().get(id)
    }

    #[inline(always)]
    fn is_unconstrained() -> bool {
        false
    }
}

impl<'a, 'b, T: Component> Join for &'b ReadStorage<'a, T>
where
    T::Storage: UnprotectedStorage<T>,
{
    type Type = &'b T;

    type Value = &'b ReadStorage<'a, T>;

    type Mask = &'b BitSet;

    ghost has = { λ j i. map.contains_key (slot j.now).map i };

    ghost cost = { λ _. 1 };

    ghost most = { λ j. length (left (λ i. map.contains_key (slot j.now).map i) 0) };

    ghost repeats = { true };

    ghost gives = { λ j i r. map.get (slot j.now).map i ≡ Some r.now };

    ghost can_get = { λ v i. map.contains_key (slot v.now).map i };

    ghost value_gives = { λ v i r. map.get (slot v.now).map i ≡ Some r.now };

    #[inline(always)]
    fn open(self) -> (&'b BitSet, &'b ReadStorage<'a, T>) {
        let mask = self.mask();
        mask.sized();
        (mask, self)
    }

    #[inline(always)]
    fn get(value: &mut &'b ReadStorage<'a, T>, id: Index) -> &'b T {
        let view: &'b ReadStorage<'a, T> = *value;
        view.unprotected_storage().get(id)
    }

    #[inline(always)]
    fn is_unconstrained() -> bool {
        false
    }
}

impl<'a, 'b, T: Component> Join for &'b WriteStorage<'a, T>
where
    T::Storage: UnprotectedStorage<T>,
{
    type Type = &'b T;

    type Value = &'b WriteStorage<'a, T>;

    type Mask = &'b BitSet;

    ghost has = { λ j i. map.contains_key (writing.slot j.now).map i };

    ghost cost = { λ _. 1 };

    ghost most = { λ j. length (left (λ i. map.contains_key (writing.slot j.now).map i) 0) };

    ghost repeats = { true };

    ghost gives = { λ j i r. map.get (writing.slot j.now).map i ≡ Some r.now };

    ghost can_get = { λ v i. map.contains_key (writing.slot v.now).map i };

    ghost value_gives = { λ v i r. map.get (writing.slot v.now).map i ≡ Some r.now };

    #[inline(always)]
    fn open(self) -> (&'b BitSet, &'b WriteStorage<'a, T>) {
        let mask = self.mask();
        mask.sized();
        (mask, self)
    }

    #[inline(always)]
    fn get(value: &mut &'b WriteStorage<'a, T>, id: Index) -> &'b T {
        let view: &'b WriteStorage<'a, T> = *value;
        view.unprotected_storage().get(id)
    }

    #[inline(always)]
    fn is_unconstrained() -> bool {
        false
    }
}

impl<'a, T: Combine + Drop> Join for &'a ChangeSet<T> {
    type Type = &'a T;

    type Value = &'a ChangeSet<T>;

    type Mask = &'a BitSet;

    ghost has = { λ j i. map.contains_key j.now i };

    ghost cost = { λ _. 1 };

    ghost most = { λ j. length (left (λ i. map.contains_key j.now i) 0) };

    ghost repeats = { true };

    ghost gives = { λ j i r. map.get j.now i ≡ Some r.now };

    ghost can_get = { λ v i. map.contains_key v.now i };

    ghost value_gives = { λ v i r. map.get v.now i ≡ Some r.now };

    #[inline(always)]
    fn open(self) -> (&'a BitSet, &'a ChangeSet<T>) {
        let mask = self.mask();
        mask.sized();
        (mask, self)
    }

    #[inline(always)]
    fn get(value: &mut &'a ChangeSet<T>, id: Index) -> &'a T {
        let changes: &'a ChangeSet<T> = *value;
        changes.present(id)
    }

    #[inline(always)]
    fn is_unconstrained() -> bool {
        false
    }
}
