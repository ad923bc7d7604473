//! A vector of options, with the component of an index at that place.
ghost use Rattle.std.specs.Prelude.{refl, ◌≡◌, ◌≤◌, ◌+◌, ℕ, [], OnErr, OnOk, vec_len, length, ⊤};
ghost use Rattle.storages.specs.Vec.{value_at, meaning_of};

use crate::kinds::room::make_room;
use crate::slices::SliceAccess;
use crate::unprotected::{Kind, TryDefault, UnprotectedStorage};
use hibits::{BitSet, Index};
use std::alloc::{AllocError, Global};

/// Components at the places of their indices: best where most entities have one. Its slice has the option of each
/// index at that place, and ends at the greatest index that was inserted since it was last cleared.
///
/// Ports `specs::storage::VecStorage`.
pub struct VecStorage<T> {
    items: Vec<Option<T>>,
}

impl<T: Drop> Drop for VecStorage<T> {
    fn drop(self) {
        let VecStorage { items: _items } = self;
    }
}

impl<T> TryDefault for VecStorage<T> {
    ghost IsDefault = { λ s. s.items.items ≡ [] };

    ghost TakesNone = { ⊤ };

    fn try_default(alloc: Global) -> Result<Self, String> {
        Ok(VecStorage {
            items: Vec::new(alloc),
        })
    }
}

impl<T> Kind<T> for VecStorage<T> {
    ghost meaning = { λ s. meaning_of s.items.items };
}

impl<T: Drop> UnprotectedStorage<T> for VecStorage<T> {
    ghost use Rattle.storages.specs.Vec.{new_of_empty};

    fn clean(&mut self, _has: &BitSet) -> Result<(), AllocError> {
        self.items.clear();
        Ok(())
    }

    #[inline(always)]
    fn get(&self, id: Index) -> &T {
        match &self.items[id as usize] {
            Some(value) => value,
            None => unreachable!(),
        }
    }

    #[inline(always)]
    fn get_mut(&mut self, id: Index) -> Result<&mut T, AllocError> {
        match &mut self.items[id as usize] {
            Some(value) => Ok(value),
            None => unreachable!(),
        }
    }

    #[inline(always)]
    fn insert(&mut self, id: Index, value: T) -> Result<(), (AllocError, T)> {
        let place = id as usize;
        if self.items.len() <= place {
            match extend_to(&mut self.items, place + 1) {
                Ok(()) => {}
                Err(e) => return Err((e, value)),
            }
        }
        self.items[place] = Some(value);
        Ok(())
    }

    #[inline(always)]
    fn remove(&mut self, id: Index) -> Result<T, AllocError> {
        match self.items[id as usize].take() {
            Some(value) => Ok(value),
            None => unreachable!(),
        }
    }

    #[inline(always)]
    fn drop(&mut self, id: Index) {
        self.items[id as usize] = None;
    }

    fn reserve_events(&mut self, _n: usize) -> Result<(), AllocError> {
        Ok(())
    }

    fn needs_room(&self) -> bool {
        false
    }

    ghost room_is_wanted = { λ s. record { wanted = refl; inner = λ n h. h } };

    ghost default_is_new = { λ s e. new_of_empty s.items.items e };
}

impl<T: Drop> SliceAccess<T> for VecStorage<T> {
    ghost use Rattle.storages.specs.Slices.{IsOptionSlice};
    ghost use Rattle.storages.specs.SliceLaws.{option_slice_has};

    type Element = Option<T>;

    ghost IsSlice = { λ at extent _ xs. IsOptionSlice at extent xs };

    ghost item_at = { λ _ xs q. value_at xs q };

    ghost has_all = { λ at extent _ xs s q h. option_slice_has at extent xs s q h };

    #[inline(always)]
    fn as_slice(&self) -> &[Option<T>] {
        &self.items
    }
}

// Fills the vector up with empty places.
fn extend_to<T>(items: &mut Vec<Option<T>>, len: usize) -> Result<(), AllocError>
    requires { vec_len items.old ≤ len }
    ensures len { OnOk result (length items.new.items ≡ len) }
    ensures values { (q : ℕ) → value_at items.new.items q ≡ value_at items.old.items q }
    ensures err { OnErr result (items.new.items ≡ items.old.items) }
{
    let start = items.len();
    make_room(items, len)?;
    for _i in start..len {
        items.push_reserved(None);
    }
    Ok(())
}
