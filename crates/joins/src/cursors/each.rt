//! Loops over a storage that is written to beside a join, by calls of a closure.
ghost use Rattle.std.specs.Prelude.{◌≡◌, ◌≢◌, ◌<◌, ℕ, true, false, Some, None, Ok, Err, OnOk, OnErr, IsOk, is_some, length, ⊤};
ghost use Rattle.std.specs.Borrow.{MutBor};
ghost use Rattle.std.specs.FinMap as map;
ghost use Rattle.joins.specs.Each.{each_becomes};
ghost use Rattle.joins.specs.Keys.{shared_indices};
ghost use Rattle.joins.specs.Visits.{CalledAtEach, ChangedAt, StoppedIn, RefusedIn, EachCalled, ChangedOnce, EachStopped, CallsLeave, EachLeaves};
ghost use Rattle.storages.specs.Meaning.{HasRoom};
ghost use Rattle.storages.specs.Slot.{Slot};
ghost use Rattle.storages.specs.WriteView as view;

use crate::cursors::each_error::EachError;
use crate::cursors::join_mut::JoinMut;
use crate::join::Join;
use hibits::INDEX_LIMIT;
use std::alloc::AllocError;
use storages::{Component, MaskedStorage, UnprotectedStorage, WriteStorage};

/// What calls a closure at each of its components that a join shares. Its callers need no proof of their own: what a storage, or a view, ends as
/// is said by the closure's own clauses. A view is of the same storage afterwards, and beside the same entities.
pub trait ForEach<T: Component> {
    // the storage
    ghost held: { Self → Slot T };

    // what else this is stays: a view is of the same storage beside the same entities
    ghost SameHolder: { Self → Self → Type 0 };

    /// Calls `f` at each index of this and of the join, ascending, with a `&mut` to the component there and with what the join has beside it. It
    /// stands for `for (component, item) in (&mut storage, join).join()` of specs, and costs what that walk and the calls cost.
    ///
    /// `Err` where memory was refused for the event of the next index: the calls before it stay made. A storage of which nobody reads events is
    /// never refused.
    fn for_each_with<J: Join, F: FnMut(&mut T, J::Type)>(
        &mut self,
        join: J,
        f: F,
    ) -> Result<(), AllocError>
    where
        T::Storage: UnprotectedStorage<T>,
        J::Type: Drop,
        requires called { (state : F) (i : ℕ) (x : MutBor T) (z : J.Type) → map.get (held self.old).map i ≡ Some x.now → J.gives join i z → F.pre state x z }
        ensures each { OnOk result ((i : ℕ) → i < INDEX_LIMIT → map.contains_key (held self.old).map i ≡ true → J.has join i ≡ true → ChangedAt (J.gives join) F.step tt (held self.old) (held self.new) i) }
        ensures others { OnOk result ((i : ℕ) → J.has join i ≡ false → map.get (held self.new).map i ≡ map.get (held self.old).map i) }
        ensures absent { OnOk result ((i : ℕ) → map.get (held self.old).map i ≡ None → map.get (held self.new).map i ≡ None) }
        ensures becomes { OnOk result ((to : ℕ → T → T) → CallsLeave (J.gives join) F.step tt to → (held self.new).map ≡ each_becomes to (shared_indices (held self.old).map (J.has join)) (held self.old).map) }
        ensures calls { OnOk result ((last : F) × CalledAtEach (J.gives join) F.step tt (shared_indices (held self.old).map (J.has join)) f (held self.old) last (held self.new)) }
        ensures err { OnErr result (StoppedIn (J.gives join) F.step tt (shared_indices (held self.old).map (J.has join)) f (held self.old) (held self.new)) }
        ensures succeeds { HasRoom (held self.old).room (length (shared_indices (held self.old).map (J.has join))) → IsOk result }
        ensures room { is_some (held self.new).room ≡ is_some (held self.old).room }
        ensures holder { SameHolder self.old self.new };

    /// `for_each_with` of a closure that keeps what it captured as it is, which callers' proofs then know in each call.
    fn update_each_with<J: Join, F: Fn(&mut T, J::Type)>(
        &mut self,
        join: J,
        f: F,
    ) -> Result<(), AllocError>
    where
        T::Storage: UnprotectedStorage<T>,
        J::Type: Drop,
        requires called { (i : ℕ) (x : MutBor T) (z : J.Type) → map.get (held self.old).map i ≡ Some x.now → J.gives join i z → F.pre f x z }
        ensures each { OnOk result ((i : ℕ) → i < INDEX_LIMIT → map.contains_key (held self.old).map i ≡ true → J.has join i ≡ true → ChangedOnce (J.gives join) (F.post f) (held self.old) (held self.new) i) }
        ensures others { OnOk result ((i : ℕ) → J.has join i ≡ false → map.get (held self.new).map i ≡ map.get (held self.old).map i) }
        ensures absent { OnOk result ((i : ℕ) → map.get (held self.old).map i ≡ None → map.get (held self.new).map i ≡ None) }
        ensures becomes { OnOk result ((to : ℕ → T → T) → EachLeaves (J.gives join) (F.post f) to → (held self.new).map ≡ each_becomes to (shared_indices (held self.old).map (J.has join)) (held self.old).map) }
        ensures calls { OnOk result (EachCalled (J.gives join) (F.post f) (shared_indices (held self.old).map (J.has join)) (held self.old) (held self.new)) }
        ensures err { OnErr result (EachStopped (J.gives join) (F.post f) (shared_indices (held self.old).map (J.has join)) (held self.old) (held self.new)) }
        ensures succeeds { HasRoom (held self.old).room (length (shared_indices (held self.old).map (J.has join))) → IsOk result }
        ensures room { is_some (held self.new).room ≡ is_some (held self.old).room }
        ensures holder { SameHolder self.old self.new };

    /// `for_each_with` of a closure that may refuse, which ends the loop: the calls before it stay made, as does what it wrote to its component.
    fn try_for_each_with<J: Join, E, F: FnMut(&mut T, J::Type) -> Result<(), E>>(
        &mut self,
        join: J,
        f: F,
    ) -> Result<(), EachError<E>>
    where
        T::Storage: UnprotectedStorage<T>,
        J::Type: Drop,
        requires called { (state : F) (i : ℕ) (x : MutBor T) (z : J.Type) → map.get (held self.old).map i ≡ Some x.now → J.gives join i z → F.pre state x z }
        ensures each { OnOk result ((i : ℕ) → i < INDEX_LIMIT → map.contains_key (held self.old).map i ≡ true → J.has join i ≡ true → ChangedAt (J.gives join) F.step (Ok tt) (held self.old) (held self.new) i) }
        ensures others { OnOk result ((i : ℕ) → J.has join i ≡ false → map.get (held self.new).map i ≡ map.get (held self.old).map i) }
        ensures absent { OnOk result ((i : ℕ) → map.get (held self.old).map i ≡ None → map.get (held self.new).map i ≡ None) }
        ensures becomes { OnOk result ((to : ℕ → T → T) → CallsLeave (J.gives join) F.step (Ok tt) to → (held self.new).map ≡ each_becomes to (shared_indices (held self.old).map (J.has join)) (held self.old).map) }
        ensures calls { OnOk result ((last : F) × CalledAtEach (J.gives join) F.step (Ok tt) (shared_indices (held self.old).map (J.has join)) f (held self.old) last (held self.new)) }
        ensures memory { (result ≡ Err EachError.OutOfMemory) → StoppedIn (J.gives join) F.step (Ok tt) (shared_indices (held self.old).map (J.has join)) f (held self.old) (held self.new) }
        ensures refused { (e : E) → result ≡ Err (EachError.Refused e) → RefusedIn (J.gives join) F.step (Ok tt) (Err e) (shared_indices (held self.old).map (J.has join)) f (held self.old) (held self.new) }
        ensures succeeds { HasRoom (held self.old).room (length (shared_indices (held self.old).map (J.has join))) → result ≢ Err EachError.OutOfMemory }
        ensures room { is_some (held self.new).room ≡ is_some (held self.old).room }
        ensures holder { SameHolder self.old self.new };
}

impl<T: Component> ForEach<T> for MaskedStorage<T> {
    ghost held = { λ s. s };

    ghost SameHolder = { λ _ _. ⊤ };

    fn for_each_with<J: Join, F: FnMut(&mut T, J::Type)>(
        &mut self,
        join: J,
        f: F,
    ) -> Result<(), AllocError>
    where
        T::Storage: UnprotectedStorage<T>,
        J::Type: Drop,
    {
        let mut cursor = self.join_mut(join);
        let done = cursor.for_each(f);
        // A cursor that is taken apart tells the proof what the storage is now; one that is dropped does not.
        let _storage = cursor.into_storage();
        match done {
            Ok(()) => Ok(()),
            Err(e) => Err(e),
        }
    }

    fn update_each_with<J: Join, F: Fn(&mut T, J::Type)>(
        &mut self,
        join: J,
        f: F,
    ) -> Result<(), AllocError>
    where
        T::Storage: UnprotectedStorage<T>,
        J::Type: Drop,
    {
        let mut cursor = self.join_mut(join);
        let done = cursor.update_each(f);
        // A cursor that is taken apart tells the proof what the storage is now; one that is dropped does not.
        let _storage = cursor.into_storage();
        match done {
            Ok(()) => Ok(()),
            Err(e) => Err(e),
        }
    }

    fn try_for_each_with<J: Join, E, F: FnMut(&mut T, J::Type) -> Result<(), E>>(
        &mut self,
        join: J,
        f: F,
    ) -> Result<(), EachError<E>>
    where
        T::Storage: UnprotectedStorage<T>,
        J::Type: Drop,
    {
        let mut cursor = self.join_mut(join);
        let done = cursor.try_for_each(f);
        // A cursor that is taken apart tells the proof what the storage is now; one that is dropped does not.
        let _storage = cursor.into_storage();
        match done {
            Ok(()) => Ok(()),
            Err(e) => Err(e),
        }
    }
}

impl<'a, T: Component> ForEach<T> for WriteStorage<'a, T> {
    ghost held = { λ v. view.slot v };

    ghost SameHolder = { λ v w. (view.storage_name w ≡ view.storage_name v) × (view.entities_of w ≡ view.entities_of v) };

    fn for_each_with<J: Join, F: FnMut(&mut T, J::Type)>(
        &mut self,
        join: J,
        f: F,
    ) -> Result<(), AllocError>
    where
        T::Storage: UnprotectedStorage<T>,
        J::Type: Drop,
    {
        self.masked_mut().for_each_with(join, f)
    }

    fn update_each_with<J: Join, F: Fn(&mut T, J::Type)>(
        &mut self,
        join: J,
        f: F,
    ) -> Result<(), AllocError>
    where
        T::Storage: UnprotectedStorage<T>,
        J::Type: Drop,
    {
        self.masked_mut().update_each_with(join, f)
    }

    fn try_for_each_with<J: Join, E, F: FnMut(&mut T, J::Type) -> Result<(), E>>(
        &mut self,
        join: J,
        f: F,
    ) -> Result<(), EachError<E>>
    where
        T::Storage: UnprotectedStorage<T>,
        J::Type: Drop,
    {
        self.masked_mut().try_for_each_with(join, f)
    }
}
