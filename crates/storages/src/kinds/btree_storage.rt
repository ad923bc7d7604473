//! An ordered map from indices to components.
ghost use Rattle.std.specs.Prelude.{refl, ◌≡◌, ℕ, [], Some, IsOk, ⊤};
ghost use Rattle.std.specs.BTreeMap.{IsEmpty};
ghost use Rattle.storages.specs.Maps.{meaning_of_tree};

use crate::unprotected::{Kind, TryDefault, UnprotectedStorage};
use hibits::{BitSet, Index};
use std::alloc::{AllocError, Global};
use std::collections::BTreeMap;

/// Components in an ordered map: best where very few entities have one.
///
/// Ports `specs::storage::BTreeStorage`.
pub struct BTreeStorage<T> {
    map: BTreeMap<Index, T>,
}

impl<T: Drop> Drop for BTreeStorage<T> {
    fn drop(self) {
        let BTreeStorage { map: _map } = self;
    }
}

impl<T> TryDefault for BTreeStorage<T> {
    ghost IsDefault = { λ s. IsEmpty s.map };

    ghost TakesNone = { ⊤ };

    fn try_default(alloc: Global) -> Result<Self, String> {
        Ok(BTreeStorage {
            map: BTreeMap::new(alloc),
        })
    }
}

impl<T> Kind<T> for BTreeStorage<T> {
    ghost meaning = { λ s. meaning_of_tree s.map };
}

impl<T: Drop> UnprotectedStorage<T> for BTreeStorage<T> {
    ghost use Rattle.storages.specs.Maps.{new_of_no_tree};

    fn clean(&mut self, _has: &BitSet) -> Result<(), AllocError> {
        self.map.clear();
        Ok(())
    }

    #[inline(always)]
    fn get(&self, id: Index) -> &T {
        match self.map.get(&id) {
            Some(value) => value,
            None => unreachable!(),
        }
    }

    #[inline(always)]
    fn get_mut(&mut self, id: Index) -> Result<&mut T, AllocError> {
        match self.map.get_mut(&id) {
            Some(value) => Ok(value),
            None => unreachable!(),
        }
    }

    #[inline]
    fn insert(&mut self, id: Index, value: T) -> Result<(), (AllocError, T)> {
        match self.map.insert(id, value) {
            Ok(_) => Ok(()),
            Err(refused) => {
                let (_, value) = refused.value;
                Err((AllocError, value))
            }
        }
    }

    #[inline]
    fn remove(&mut self, id: Index) -> Result<T, AllocError> {
        match self.map.remove(&id) {
            Some(value) => Ok(value),
            None => unreachable!(),
        }
    }

    #[inline]
    fn drop(&mut self, id: Index) {
        let _ = self.map.remove(&id);
    }

    fn reserve_events(&mut self, _n: usize) -> Result<(), AllocError> {
        Ok(())
    }

    fn needs_room(&self) -> bool {
        false
    }

    ghost room_is_wanted = { λ s. record { wanted = refl; inner = λ n h. h } };

    ghost default_is_new = { λ s e. new_of_no_tree s.map e };
}
