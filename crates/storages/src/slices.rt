//! Storages whose components lie in a slice.
ghost use Rattle.std.specs.Prelude.{◌≡◌, ℕ, Option, None, List, IsTrue, IsSome, is_some, cond};
ghost use Rattle.std.specs.FinMap as map;
ghost use Rattle.std.specs.Borrow.{sem};
ghost use Rattle.storages.specs.Meaning.{Meaning, Shows};
ghost use Rattle.storages.specs.SliceLends.{left_as, with_slice, Rewrites, lends_items};

use crate::masked::MaskedStorage;
use crate::read_storage::ReadStorage;
use crate::unprotected::{Component, UnprotectedStorage};
use crate::write_storage::WriteStorage;

/// A storage whose components can be read as a slice. Ports `specs::storage::SliceAccess`.
pub trait SliceAccess<T>: UnprotectedStorage<T> {
    /// What the slice has at a place.
    type Element;

    // What the slice is of the map that the storage is, and of the length and the order in its state.
    ghost IsSlice: { (ℕ → Option T) → Option ℕ → List ℕ → List Self.Element → Type 0 };

    // What a slice has at the place of an index, where the list is the order in the state.
    ghost item_at: { List ℕ → List Self.Element → ℕ → Option T };

    // A slice has what the map has.
    ghost has_all: { (at : ℕ → Option T) (extent : Option ℕ) (order : List ℕ) (xs : List Self.Element) → IsSlice at extent order xs → (q : ℕ) → IsTrue (is_some (at q)) → item_at order xs q ≡ at q };

    /// The components as a slice.
    fn as_slice(&self) -> &[Self::Element]
        ensures { (at : ℕ → Option T) → Shows (Self.meaning self.now) at → IsSlice at (Self.meaning self.now).extent (Self.meaning self.now).order result.now };
}

/// A storage whose components can be written to as a slice. specs has no such call.
pub trait SliceAccessMut<T>: SliceAccess<T, Element = T> {
    // The state with other values in its slice.
    ghost with_items: { Self → List T → Self };

    /// The components as a slice, to write to: what is left at an index's place is its component, and no component
    /// comes or goes. It takes no memory and emits no event.
    fn as_mut_slice(&mut self) -> &mut [T]
        ensures* writes_back { sem 𝓛 (lends_items Self.row T.row with_items self.entry result) }
        ensures value { (at : ℕ → Option T) → Shows (Self.meaning self.old) at → Self.IsSlice at (Self.meaning self.old).extent (Self.meaning self.old).order result.now }
        ensures places { (q : ℕ) → IsTrue (is_some ((Self.meaning self.old).at q)) → Self.item_at (Self.meaning self.old).order result.now q ≡ (Self.meaning self.old).at q }
        ensures rewrites { (xs : List T) → Rewrites Self.item_at (Self.meaning self.old) (Self.meaning (with_items self.old xs)) (left_as result.now xs) };
}

impl<T: Component> MaskedStorage<T>
where
    T::Storage: SliceAccess<T>,
{
    /// The components as a slice. Ports `MaskedStorage`'s part of `specs::Storage::as_slice`.
    pub fn as_slice(&self) -> &[<T::Storage as SliceAccess<T>>::Element]
        ensures { T.Storage.IsSlice (map.get self.now.map) self.now.extent self.now.order result.now }
    {
        self.unprotected_storage().as_slice()
    }
}

impl<T: Component> MaskedStorage<T>
where
    T::Storage: SliceAccessMut<T>,
{
    ghost use Rattle.storages.specs.Lending.{lends_slice};

    /// The components as a slice, to write to: what is left at an index's place is its component, and no component
    /// comes or goes. It takes no memory and emits no event.
    pub fn as_mut_slice(&mut self) -> &mut [T]
        ensures* writes_back { sem 𝓛 (lends_slice T.row T.Storage.row T.Storage.meaning T.Storage.item_at self.entry result) }
        ensures value { T.Storage.IsSlice (map.get self.old.map) self.old.extent self.old.order result.now }
        ensures places { (q : ℕ) → IsSome (map.get self.old.map q) → T.Storage.item_at self.old.order result.now q ≡ map.get self.old.map q }
        ensures each { (xs : List T) (q : ℕ) → map.get (with_slice T.Storage.item_at self.old xs).map q ≡ cond (map.contains_key self.old.map q) (T.Storage.item_at self.old.order xs q) None }
    {
        self.inner.as_mut_slice()
    }
}

impl<'a, T: Component> ReadStorage<'a, T>
where
    T::Storage: SliceAccess<T>,
{
    ghost use Rattle.storages.specs.ReadView.{slot};

    /// The components as a slice. Ports `specs::Storage::as_slice`.
    pub fn as_slice(&self) -> &[<T::Storage as SliceAccess<T>>::Element]
        ensures { T.Storage.IsSlice (map.get (slot self.now).map) (slot self.now).extent (slot self.now).order result.now }
    {
        self.storage().as_slice()
    }
}

impl<'a, T: Component> WriteStorage<'a, T>
where
    T::Storage: SliceAccess<T>,
{
    ghost use Rattle.storages.specs.WriteView.{slot};

    /// The components as a slice. Ports `specs::Storage::as_slice`.
    pub fn as_slice(&self) -> &[<T::Storage as SliceAccess<T>>::Element]
        ensures { T.Storage.IsSlice (map.get (slot self.now).map) (slot self.now).extent (slot self.now).order result.now }
    {
        self.storage().as_slice()
    }
}

impl<'a, T: Component> WriteStorage<'a, T>
where
    T::Storage: SliceAccessMut<T>,
{
    ghost use Rattle.storages.specs.WriteView.{slot, lends_slice};

    /// The components as a slice, to write to: what is left at an index's place is its component, and no component
    /// comes or goes. It takes no memory and emits no event.
    pub fn as_mut_slice(&mut self) -> &mut [T]
        ensures* writes_back { sem 𝓛 (lends_slice T.row T.Storage.row T.Storage.meaning T.Storage.item_at self.entry result) }
        ensures value { T.Storage.IsSlice (map.get (slot self.old).map) (slot self.old).extent (slot self.old).order result.now }
        ensures places { (q : ℕ) → IsSome (map.get (slot self.old).map q) → T.Storage.item_at (slot self.old).order result.now q ≡ map.get (slot self.old).map q }
        ensures each { (xs : List T) (q : ℕ) → map.get (with_slice T.Storage.item_at (slot self.old) xs).map q ≡ cond (map.contains_key (slot self.old).map q)
            (T.Storage.item_at (slot self.old).order xs q) None }
    {
        self.masked_mut().as_mut_slice()
    }
}
