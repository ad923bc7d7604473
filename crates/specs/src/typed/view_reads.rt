//! What a view to write tells of its storage.
ghost use Rattle.std.specs.Prelude.{◌≡◌, ◌↔◌, ℕ, Some, IsSome, IsTrue, IfSome, length};
ghost use Rattle.std.specs.FinMap as map;
ghost use Rattle.std.specs.FinSet as set;
ghost use Rattle.storages.specs.Slot as masked;
ghost use Rattle.specs.specs.Typed.Writing.{storages_of};

use crate::typed::{Field, Has, Writing};
use hibits::BitSet;
use storages::{Component, MaskedStorage, SliceAccess};

impl<'a, S: Has<T, I>, T: Component, I> Writing<'a, S, T, I> {
    /// The storage without the entities, to read.
    pub fn storage(&self) -> &MaskedStorage<T>
        requires { IsSome (S.part (storages_of self.now)) }
        ensures { S.part (storages_of self.now) ≡ Some result.now }
    {
        match self.core.parts.storages.field() {
            Some(storage) => storage,
            None => unreachable!(),
        }
    }

    /// The indices that have a component. Ports `Storage::mask`.
    pub fn mask(&self) -> &BitSet
        requires { IsSome (S.part (storages_of self.now)) }
        ensures { IfSome (S.part (storages_of self.now)) (λ w. (q : ℕ) → set.contains result.now.members q ≡ map.contains_key w.map q) }
    {
        self.storage().mask()
    }

    /// How many indices have a component. It reads the words of the mask. Ports `Storage::count`.
    pub fn count(&self) -> usize
        requires { IsSome (S.part (storages_of self.now)) }
        ensures { IfSome (S.part (storages_of self.now)) (λ w. result ≡ length (masked.indices_of w)) }
    {
        self.storage().count()
    }

    /// Whether no index has a component. Ports `Storage::is_empty`.
    pub fn is_empty(&self) -> bool
        requires { IsSome (S.part (storages_of self.now)) }
        ensures { IfSome (S.part (storages_of self.now)) (λ w. IsTrue result ↔ (w.map ≡ map.empty)) }
    {
        self.storage().is_empty()
    }
}

impl<'a, S: Has<T, I>, T: Component, I> Writing<'a, S, T, I>
where
    T::Storage: SliceAccess<T>,
{
    /// The components as a slice. Ports `Storage::as_slice`.
    pub fn as_slice(&self) -> &[<T::Storage as SliceAccess<T>>::Element]
        requires { IsSome (S.part (storages_of self.now)) }
        ensures { IfSome (S.part (storages_of self.now)) (λ w. T.Storage.IsSlice (map.get w.map) w.extent w.order result.now) }
    {
        self.storage().as_slice()
    }
}
