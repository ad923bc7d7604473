//! A vector with default values at its unused places.
ghost use Rattle.std.specs.Prelude.{refl, ◌≡◌, ◌<◌, ◌≤◌, ◌+◌, ℕ, Some, [], IsTrue, is_some, IfOk, IfSome, OnErr, OnOk, IsOk, vec_len, length, slice_get, ⊤};
ghost use Rattle.storages.specs.DefaultVec.{meaning_of};

use crate::kinds::room::make_room;
use crate::slices::{SliceAccess, SliceAccessMut};
use crate::unprotected::{Kind, TryDefault, UnprotectedStorage};
use hibits::{BitSet, Index};
use std::alloc::{AllocError, Global};
use std::mem;

/// Components at the places of their indices, and default values at the others, unless something else was left there
/// through `as_mut_slice`: its slice has a value at each place, and ends at the greatest index that was inserted since
/// it was last cleared.
///
/// Ports `specs::storage::DefaultVecStorage`.
pub struct DefaultVecStorage<T> {
    items: Vec<T>,
}

impl<T: Drop> Drop for DefaultVecStorage<T> {
    fn drop(self) {
        let DefaultVecStorage { items: _items } = self;
    }
}

impl<T> TryDefault for DefaultVecStorage<T> {
    ghost IsDefault = { λ s. s.items.items ≡ [] };

    ghost TakesNone = { ⊤ };

    fn try_default(alloc: Global) -> Result<Self, String> {
        Ok(DefaultVecStorage {
            items: Vec::new(alloc),
        })
    }
}

impl<T> Kind<T> for DefaultVecStorage<T> {
    ghost meaning = { λ s. meaning_of s.items.items };
}

impl<T: Default + Drop> UnprotectedStorage<T> for DefaultVecStorage<T> {
    ghost use Rattle.storages.specs.DefaultVec.{new_of_empty};
    ghost use Rattle.storages.specs.Meaning.{Frees, Keeps, IsReady};

    fn clean(&mut self, _has: &BitSet) -> Result<(), AllocError> {
        self.items.clear();
        Ok(())
    }

    #[inline(always)]
    fn get(&self, id: Index) -> &T {
        &self.items[id as usize]
    }

    #[inline(always)]
    fn get_mut(&mut self, id: Index) -> Result<&mut T, AllocError> {
        Ok(&mut self.items[id as usize])
    }

    #[inline]
    fn insert(&mut self, id: Index, value: T) -> Result<(), (AllocError, T)> {
        let place = id as usize;
        if self.items.len() <= place {
            match extend_to(&mut self.items, place + 1) {
                Ok(()) => {}
                Err(e) => return Err((e, value)),
            }
        }
        self.items[place] = value;
        Ok(())
    }

    #[inline]
    fn remove(&mut self, id: Index) -> Result<T, AllocError>
        requires { IsTrue (is_some ((meaning_of self.old.items.items).at id)) }
        ensures value { IfOk result (λ x. (meaning_of self.old.items.items).at id ≡ Some x) }
        ensures ok { OnOk result (Frees (meaning_of self.old.items.items) (meaning_of self.new.items.items) id) }
        ensures default { OnOk result (IfSome ((meaning_of self.new.items.items).at id) T.is_default) }
        ensures err { OnErr result (Keeps (meaning_of self.old.items.items) (meaning_of self.new.items.items)) }
        ensures succeeds { IsReady (meaning_of self.old.items.items) → IsOk result }
    {
        let place = &mut self.items[id as usize];
        Ok(mem::replace(place, T::default()))
    }

    #[inline]
    fn drop(&mut self, id: Index)
        requires present { IsTrue (is_some ((meaning_of self.old.items.items).at id)) }
        requires ready { IsReady (meaning_of self.old.items.items) }
        ensures freed { Frees (meaning_of self.old.items.items) (meaning_of self.new.items.items) id }
        ensures default { IfSome ((meaning_of self.new.items.items).at id) T.is_default }
    {
        self.items[id as usize] = T::default();
    }

    fn reserve_events(&mut self, _n: usize) -> Result<(), AllocError> {
        Ok(())
    }

    fn needs_room(&self) -> bool {
        false
    }

    ghost room_is_wanted = { λ s. record { wanted = refl; inner = λ n h. h } };

    ghost default_is_new = { λ s e. new_of_empty s.items.items e };
}

impl<T: Default + Drop> SliceAccess<T> for DefaultVecStorage<T> {
    ghost use Rattle.storages.specs.Slices.{IsFullSlice};

    type Element = T;

    ghost IsSlice = { λ at extent _ xs. IsFullSlice at extent xs };

    ghost item_at = { λ _ xs q. slice_get xs q };

    ghost has_all = { λ at extent _ xs s q h. s.each q h };

    #[inline]
    fn as_slice(&self) -> &[T] {
        &self.items
    }
}

impl<T: Default + Drop> SliceAccessMut<T> for DefaultVecStorage<T> {
    ghost use Rattle.std.specs.Vec.{with_items as with_values};

    ghost with_items = { λ s xs. record s { items = with_values s.items xs } };

    #[inline]
    fn as_mut_slice(&mut self) -> &mut [T] {
        &mut self.items
    }
}

// Fills the vector up with default values.
fn extend_to<T: Default>(items: &mut Vec<T>, len: usize) -> Result<(), AllocError>
    requires { vec_len items.old ≤ len }
    ensures len { OnOk result (length items.new.items ≡ len) }
    ensures values { (q : ℕ) (x : T) → slice_get items.old.items q ≡ Some x → slice_get items.new.items q ≡ Some x }
    ensures err { OnErr result (items.new.items ≡ items.old.items) }
{
    let start = items.len();
    make_room(items, len)?;
    for _i in start..len {
        items.push_reserved(T::default());
    }
    Ok(())
}
