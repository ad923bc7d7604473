//! The dense form, without its slice.
ghost use Rattle.std.specs.Prelude.{refl, ◌≡◌, [], ⊤};
ghost use Rattle.storages.specs.DenseValues.{dense_meaning};
ghost use Rattle.storages.specs.Unordered.{unordered};

use crate::kinds::dense_vec_storage::DenseVecStorage;
use crate::unprotected::{Kind, TryDefault, UnprotectedStorage};
use hibits::{BitSet, Index};
use std::alloc::{AllocError, Global};

/// Components without gaps and without a slice, found by a table in pages: a get takes two loads, three past the first 64 indices of which none
/// has had a value since the storage was last cleared, and no hash. It takes what `DenseVecStorage` takes.
///
/// Ports `specs::storage::HashMapStorage`, which is a hash map.
pub struct HashMapStorage<T> {
    dense: DenseVecStorage<T>,
}

impl<T: Drop> Drop for HashMapStorage<T> {
    fn drop(self) {
        let HashMapStorage { dense: _dense } = self;
    }
}

impl<T> TryDefault for HashMapStorage<T> {
    ghost IsDefault = { λ s. s.dense.places.items ≡ [] };

    ghost TakesNone = { ⊤ };

    fn try_default(alloc: Global) -> Result<Self, String> {
        let dense = DenseVecStorage::try_default(alloc)?;
        Ok(HashMapStorage { dense })
    }
}

impl<T> Kind<T> for HashMapStorage<T> {
    ghost meaning = { λ s. unordered (dense_meaning s.dense) };
}

impl<T: Drop> UnprotectedStorage<T> for HashMapStorage<T> {
    ghost use Rattle.storages.specs.Dense.{new_of_empty};
    ghost use Rattle.storages.specs.Unordered.{new_unordered};

    #[tactic(auto, using(crate::proofs::Unordered::masks_unordered, crate::proofs::Unordered::empties_unordered, crate::proofs::Unordered::keeps_unordered))]
    fn clean(&mut self, has: &BitSet) -> Result<(), AllocError> {
        self.dense.clean(has)
    }

    #[inline(always)]
    fn get(&self, id: Index) -> &T {
        self.dense.get(id)
    }

    #[inline(always)]
    #[tactic(auto, using(crate::proofs::Unordered::writes_unordered, crate::proofs::Unordered::presence_unordered, crate::proofs::Unordered::keeps_unordered))]
    fn get_mut(&mut self, id: Index) -> Result<&mut T, AllocError> {
        self.dense.get_mut(id)
    }

    #[inline(always)]
    #[tactic(auto, using(crate::proofs::Unordered::puts_unordered, crate::proofs::Unordered::keeps_unordered))]
    fn insert(&mut self, id: Index, value: T) -> Result<(), (AllocError, T)> {
        self.dense.insert(id, value)
    }

    #[inline(always)]
    #[tactic(auto, using(crate::proofs::Unordered::frees_unordered, crate::proofs::Unordered::keeps_unordered))]
    fn remove(&mut self, id: Index) -> Result<T, AllocError> {
        self.dense.remove(id)
    }

    #[inline(always)]
    #[tactic(auto, using(crate::proofs::Unordered::frees_unordered))]
    fn drop(&mut self, id: Index) {
        self.dense.drop(id);
    }

    fn reserve_events(&mut self, _n: usize) -> Result<(), AllocError> {
        Ok(())
    }

    fn needs_room(&self) -> bool {
        false
    }

    ghost room_is_wanted = { λ s. record { wanted = refl; inner = λ n h. h } };

    ghost default_is_new = { λ s e. new_unordered (dense_meaning s.dense) (new_of_empty s.dense.values.items s.dense.ids.items s.dense.places.items e) };
}
