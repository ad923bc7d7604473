//! Values without gaps, with a table from ids to places and one back.
ghost use Rattle.std.specs.Prelude.{refl, ◌≡◌, ◌≤◌, ◌<◌, ◌^◌, [], IfSome, IsSome, length, vec_len, ⊤};
ghost use Rattle.storages.specs.Dense.{IsConsistent, ArePaged, value_of};
ghost use Rattle.storages.specs.declared.kinds.dense_vec_storage.TheConstants.{PAGE_LEN};

use crate::kinds::room::make_room;
use crate::slices::{SliceAccess, SliceAccessMut};
use crate::unprotected::{Kind, TryDefault, UnprotectedStorage};
use hibits::{BitSet, Index};
use pages::PagedRow;
use std::alloc::{AllocError, Global};

// How many ids a page of the table has.
const PAGE_LEN: u32 = 64;

/// Best where few entities have the component. The values have no gaps and no stated order.
///
/// Besides the values it takes 4 bytes for each, 256 for each 64 indices of which one had a value since it was last cleared, and 4 for each 64
/// indices up to the greatest of these; as lists grow, up to four times that. A look into the table is one load where the indices lie side by side
/// from 0 on, with no 64 between them that never had a value, and two loads past these.
pub struct DenseVecStorage<T> {
    values: Vec<T>,
    // the id of each value
    ids: Vec<u32>,
    // the place of each id that has a value, and anything at the others
    places: PagedRow<u32, PAGE_LEN>,
    ghost consistent: { IsConsistent (vec_len values) ids.items places.items },
    ghost paged: { ArePaged PAGE_LEN ids.items places },
    ghost within: { length places.items ≤ 2 ^ 32 },
}

impl<T: Drop> Drop for DenseVecStorage<T> {
    fn drop(self) {
        let DenseVecStorage {
            values: _values,
            ids: _ids,
            places: _places,
        } = self;
    }
}

impl<T> TryDefault for DenseVecStorage<T> {
    ghost IsDefault = { λ s. s.places.items ≡ [] };

    ghost TakesNone = { ⊤ };

    fn try_default(alloc: Global) -> Result<Self, String> {
        Ok(DenseVecStorage {
            values: Vec::new(alloc),
            ids: Vec::new(alloc),
            places: PagedRow::new(alloc),
        })
    }
}

impl<T> DenseVecStorage<T> {
    ghost use Rattle.std.specs.FinSet as set;
    ghost use Rattle.storages.specs.DenseValues.{dense_meaning, dense_pages};
    ghost use Rattle.storages.specs.Meaning.{IsNew};

    /// A storage without values, which takes no memory.
    pub fn new(alloc: Global) -> Self
        ensures new { IsNew (dense_meaning result) }
        ensures pages { dense_pages result ≡ set.empty }
    {
        DenseVecStorage {
            values: Vec::new(alloc),
            ids: Vec::new(alloc),
            places: PagedRow::new(alloc),
        }
    }

    /// How many pages its table from indices to places has, of 64 indices each: one for each of these in which a value was inserted since the
    /// storage was last cleared. A removal keeps its page. It looks at each of these up to the last, and reads none.
    pub fn page_count(&self) -> usize
        ensures { result ≡ set.len (dense_pages self.now) }
    {
        self.places.count()
    }
}

impl<T> Kind<T> for DenseVecStorage<T> {
    ghost use Rattle.storages.specs.DenseValues.{dense_meaning};

    ghost meaning = { λ s. dense_meaning s };
}

impl<T: Drop> UnprotectedStorage<T> for DenseVecStorage<T> {
    ghost use Rattle.storages.specs.Dense.{new_of_empty};

    fn clean(&mut self, _has: &BitSet) -> Result<(), AllocError> {
        self.values.clear();
        self.ids.clear();
        self.places.clear();
        Ok(())
    }

    #[inline(always)]
    fn get(&self, id: Index) -> &T {
        let place = self.places.get_present(id);
        &self.values[place as usize]
    }

    #[inline(always)]
    fn get_mut(&mut self, id: Index) -> Result<&mut T, AllocError> {
        let place = self.places.get_present(id);
        Ok(&mut self.values[place as usize])
    }

    #[inline(always)]
    fn insert(&mut self, id: Index, value: T) -> Result<(), (AllocError, T)> {
        let Some(place) = next_place(&self.values) else {
            return Err((AllocError, value));
        };
        let len = self.values.len() + 1;
        if make_room(&mut self.values, len).is_err() || make_room(&mut self.ids, len).is_err() {
            return Err((AllocError, value));
        }
        match self.places.reserve(id) {
            Ok(()) => {}
            Err(e) => return Err((e, value)),
        }
        self.places.set(id, place);
        self.ids.push_reserved(id);
        self.values.push_reserved(value);
        Ok(())
    }

    #[inline(always)]
    fn remove(&mut self, id: Index) -> Result<T, AllocError> {
        let place = self.places.get_present(id);
        let last = self.ids[self.ids.len() - 1];
        self.places.set(last, place);
        self.ids.swap_remove(place as usize);
        Ok(self.values.swap_remove(place as usize))
    }

    #[inline(always)]
    fn drop(&mut self, id: Index) {
        match self.remove(id) {
            Ok(_) => {}
            Err(_) => {}
        }
    }

    fn reserve_events(&mut self, _n: usize) -> Result<(), AllocError> {
        Ok(())
    }

    fn needs_room(&self) -> bool {
        false
    }

    ghost room_is_wanted = { λ s. record { wanted = refl; inner = λ n h. h } };

    ghost default_is_new = { λ s e. new_of_empty s.values.items s.ids.items s.places.items e };
}

impl<T: Drop> SliceAccess<T> for DenseVecStorage<T> {
    ghost use Rattle.storages.specs.Slices.{Arranges, item_beside};
    ghost use Rattle.storages.specs.SliceLaws.{arrangement_has};

    type Element = T;

    ghost IsSlice = { λ at _ order xs. Arranges at order xs };

    ghost item_at = { λ order xs q. item_beside order xs q };

    ghost has_all = { λ at _ order xs s q h. arrangement_has at order xs s q h };

    #[inline(always)]
    fn as_slice(&self) -> &[T] {
        &self.values
    }
}

impl<T: Drop> SliceAccessMut<T> for DenseVecStorage<T> {
    ghost use Rattle.std.specs.Vec.{with_items as with_values};

    ghost with_items = { λ s xs. record s { values = with_values s.values xs; consistent = s.consistent } };

    #[inline]
    fn as_mut_slice(&mut self) -> &mut [T] {
        &mut self.values
    }
}

// The place of the value that is pushed next. There is always one, since each value has an index of its own.
#[inline(always)]
fn next_place<T>(values: &Vec<T>) -> Option<u32>
    ensures place { IfSome result (λ place. place ≡ vec_len values.now) }
    ensures fits { vec_len values.now < 2 ^ 32 → IsSome result }
{
    u32::try_from(values.len()).ok()
}
