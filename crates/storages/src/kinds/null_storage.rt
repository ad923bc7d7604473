//! A storage for components without data.
ghost use Rattle.std.specs.Prelude.{refl, ◌≡◌, ℕ, Some, IsOk, ⊤};
ghost use Rattle.storages.specs.Null.{meaning_of};

use crate::unprotected::{Kind, TryDefault, UnprotectedStorage};
use hibits::{BitSet, Index};
use std::alloc::{AllocError, Global};

/// A component without data: any two of its values are equal.
pub trait NullComponent: Default + Drop {
    // Any two values are equal.
    ghost all_equal: { (a b : Self) → a ≡ b };
}

/// One value, which stands for the component of each entity that has it: for components without data, of which the
/// mask alone matters.
///
/// Ports `specs::storage::NullStorage`.
pub struct NullStorage<T> {
    value: T,
}

impl<T: Drop> Drop for NullStorage<T> {
    fn drop(self) {
        let NullStorage { value: _value } = self;
    }
}

impl<T: NullComponent> TryDefault for NullStorage<T> {
    ghost IsDefault = { λ _. ⊤ };

    ghost TakesNone = { ⊤ };

    fn try_default(_alloc: Global) -> Result<Self, String> {
        Ok(NullStorage {
            value: T::default(),
        })
    }
}

impl<T> Kind<T> for NullStorage<T> {
    ghost meaning = { λ s. meaning_of s.value };
}

impl<T: NullComponent> UnprotectedStorage<T> for NullStorage<T> {
    ghost use Rattle.storages.specs.Null.{new_of_value};

    fn clean(&mut self, _has: &BitSet) -> Result<(), AllocError> {
        Ok(())
    }

    #[inline(always)]
    fn get(&self, _id: Index) -> &T {
        &self.value
    }

    #[inline(always)]
    fn get_mut(&mut self, _id: Index) -> Result<&mut T, AllocError> {
        Ok(&mut self.value)
    }

    #[inline]
    fn insert(&mut self, _id: Index, value: T) -> Result<(), (AllocError, T)> {
        self.value = value;
        Ok(())
    }

    #[inline]
    fn remove(&mut self, _id: Index) -> Result<T, AllocError> {
        Ok(T::default())
    }

    #[inline]
    fn drop(&mut self, _id: Index) {}

    fn reserve_events(&mut self, _n: usize) -> Result<(), AllocError> {
        Ok(())
    }

    fn needs_room(&self) -> bool {
        false
    }

    ghost room_is_wanted = { λ s. record { wanted = refl; inner = λ n h. h } };

    ghost default_is_new = { λ s e. new_of_value s.value };
}
