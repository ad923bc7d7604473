//! A cursor that lends components for writing.
ghost use Rattle.std.specs.Prelude.{◌≡◌, ◌≢◌, ℕ, Bool, ◌&&◌, ◌||◌, not, true, false, Some, None, Ok, Err, IfSome, IfNone, IfOk, IsOk, OnOk, OnErr, IsSome, [], ◌∷◌, MatchOption, is_some, ◌↔◌, length};
ghost use Rattle.std.specs.Borrow.{sem, MutBor};
ghost use Rattle.std.specs.List.{Contains};
ghost use Rattle.std.specs.FinMap as map;
ghost use Rattle.std.specs.Option.{ForSome};
ghost use Rattle.hibits.specs.Sets.{has_part};
ghost use Rattle.joins.specs.Over.{IsOver, over_is_fact};
ghost use Rattle.joins.specs.Keys.{keys_of, shared_indices};
ghost use Rattle.storages.specs.Limit.{IsIndex};

use crate::cursors::each_error::EachError;
use crate::cursors::steps::Steps;
use crate::join::Join;
use hibits::{Index, Layers};
use std::alloc::AllocError;
use storages::{Component, MaskedStorage, NotLent, UnprotectedStorage};

/// Walks the indices that a storage and a join share, ascending, and lends the storage's component for writing.
///
/// Over a view, callers' proofs know exactly what it ends as where the cursor is made over the storage that the view lends:
/// `let masked = view.masked_mut();`, a cursor over `masked`, and after its last use `let _masked = &*masked;`. Where the cursor is made of the
/// view itself, they know what each call leaves, and not what the view ends as.
#[derive(Drop)]
pub struct WriteJoin<'a, T: Component, J: Join> {
    storage: &'a mut MaskedStorage<T>,
    steps: Steps<J>,
    ghost valid: { IsOver (λ l i. has_part (keys_of storage.now.map) l i && J.Mask.has steps.mask l i) steps.walk } by { over_is_fact _ _ },
    ghost there: { ForSome steps.current (λ i. map.contains_key storage.now.map i ≡ true) },
}

impl<'a, T: Component, J: Join> WriteJoin<'a, T, J> {
    ghost use Rattle.joins.specs.Cursor.{slot, storage_name, here, is_given, rest, gives, lends_item};
    ghost use Rattle.joins.specs.Each.{each_becomes};
    ghost use Rattle.joins.specs.Visits.{CalledAtEach, ChangedAt, StoppedIn, StoppedAt, RefusedIn, RefusedAt, EachCalled, ChangedOnce, EachStopped, EachStoppedAt, CallsLeave, EachLeaves};
    ghost use Rattle.storages.specs.Meaning.{HasRoom};

    /// Before the first index.
    #[inline(always)]
    pub fn new(storage: &'a mut MaskedStorage<T>, join: J) -> Self
        ensures same_reference { storage_name result ≡ storage.entry.ghost_name }
        ensures slot { slot result ≡ storage.old }
        ensures rest { rest result ≡ shared_indices storage.old.map (J.has join) }
        ensures here { here result ≡ None }
        ensures gives { (i : ℕ) (r : J.Type) → gives result i r → J.gives join i r }
    {
        let steps = Steps::new(storage.mask(), join);
        WriteJoin { storage, steps }
    }

    /// The storage, with what was written to it. A caller that is generic over the join ends the cursor so: of a cursor that is only dropped
    /// its proof does not know what the storage ends as.
    #[inline(always)]
    pub fn into_storage(self) -> &'a mut MaskedStorage<T>
        ensures same_reference { result.ghost_name ≡ storage_name self.entry }
        ensures slot { result.now ≡ slot self.entry }
    {
        let WriteJoin { storage, steps: _ } = self;
        storage
    }

    /// Goes on to the next index, which it answers.
    #[inline(always)]
    pub fn next(&mut self) -> Option<Index>
        ensures same_reference { storage_name self.new ≡ storage_name self.old }
        ensures slot { slot self.new ≡ slot self.old }
        ensures rest { MatchOption result (rest self.old ≡ []) (λ i. rest self.old ≡ i ∷ rest self.new) }
        ensures ended { IfNone result (rest self.new ≡ []) }
        ensures here { here self.new ≡ result }
        ensures there { IfSome result (λ i. map.contains_key (slot self.old).map i ≡ true) }
        ensures limit { IfSome result IsIndex }
        ensures given { is_given self.new ≡ false }
        ensures gives { (i : ℕ) (r : J.Type) → gives self.new i r → gives self.old i r }
    {
        self.steps.next(self.storage.mask())
    }

    /// The component at the current index, to write to.
    #[inline(always)]
    pub fn item(&mut self) -> Result<&mut T, NotLent>
    where
        T::Storage: UnprotectedStorage<T>,
        ensures* writes_back { sem 𝓛 (lends_item T.row J.row T.Storage.row J.Type.row J.Value.row J.Mask.row self.entry result) }
        ensures absent { (result ≡ Err NotLent.Absent) ↔ (here self.old ≡ None) }
        ensures value { IfOk result (λ x. IfSome (here self.old) (λ i. map.get (slot self.old).map i ≡ Some x.now)) }
        ensures succeeds { IsSome (here self.old) → HasRoom (slot self.old).room 1 → IsOk result }
    {
        let Some(id) = self.steps.current else {
            return Err(NotLent::Absent);
        };
        self.storage.lend_present(id)
    }

    /// What the join has at the current index. It is given once.
    #[inline(always)]
    pub fn beside(&mut self) -> Option<J::Type>
        ensures same_reference { storage_name self.new ≡ storage_name self.old }
        ensures slot { slot self.new ≡ slot self.old }
        ensures rest { rest self.new ≡ rest self.old }
        ensures here { here self.new ≡ here self.old }
        ensures some { is_some result ≡ (not (is_given self.old) && is_some (here self.old)) }
        ensures given { IfSome result (λ r. IfSome (here self.old) (λ i. gives self.old i r)) }
        ensures once { is_given self.new ≡ (is_some (here self.old) || is_given self.old) }
        ensures gives { (i : ℕ) (r : J.Type) → gives self.new i r → gives self.old i r }
    {
        self.steps.beside()
    }

    /// Calls `f` at each index that is left, ascending, with a `&mut` to the component there and with what the join has beside it. It stands for
    /// `for (component, item) in (&mut storage, join).join()` of specs, and costs what that walk and the calls cost.
    ///
    /// `Err` where memory was refused for the event of the next index: the calls before it stay made, and the cursor stands at that index, before
    /// those behind it. What is beside that index was taken for its call, and is not given again. After `Ok` nothing is left. A storage of which
    /// nobody reads events is never refused. `for_each_with` of a storage, or of a view, says the same of what that ends as.
    pub fn for_each<F: FnMut(&mut T, J::Type)>(&mut self, mut f: F) -> Result<(), AllocError>
    where
        T::Storage: UnprotectedStorage<T>,
        J::Type: Drop,
        requires called { (state : F) (i : ℕ) (x : MutBor T) (z : J.Type) → map.get (slot self.old).map i ≡ Some x.now → gives self.old i z → F.pre state x z }
        ensures same_reference { storage_name self.new ≡ storage_name self.old }
        ensures calls { OnOk result ((last : F) × CalledAtEach (gives self.old) F.step tt (rest self.old) f (slot self.old) last (slot self.new)) }
        ensures each { OnOk result ((i : ℕ) → Contains (rest self.old) i → ChangedAt (gives self.old) F.step tt (slot self.old) (slot self.new) i) }
        ensures others { OnOk result ((i : ℕ) → (Contains (rest self.old) i → ⊥) → map.get (slot self.new).map i ≡ map.get (slot self.old).map i) }
        ensures becomes { OnOk result ((to : ℕ → T → T) → CallsLeave (gives self.old) F.step tt to → (slot self.new).map ≡ each_becomes to (rest self.old) (slot self.old).map) }
        ensures err { OnErr result (StoppedIn (gives self.old) F.step tt (rest self.old) f (slot self.old) (slot self.new)) }
        ensures place { OnErr result (StoppedAt (gives self.old) F.step tt (rest self.old) f (slot self.old) (slot self.new) (here self.new) (rest self.new)) }
        ensures given { OnErr result (is_given self.new ≡ true) }
        ensures ended { OnOk result ((here self.new ≡ None) × (rest self.new ≡ [])) }
        ensures gives { (i : ℕ) (r : J.Type) → gives self.new i r → gives self.old i r }
        ensures succeeds { HasRoom (slot self.old).room (length (rest self.old)) → IsOk result }
        ensures room { is_some (slot self.new).room ≡ is_some (slot self.old).room }
    {
        while let Some(_id) = self.next() {
            let Some(item) = self.beside() else {
                unreachable!()
            };
            match self.item() {
                Ok(component) => f(component, item),
                Err(_) => return Err(AllocError),
            }
        }
        Ok(())
    }

    /// `for_each` of a closure that keeps what it captured as it is, which callers' proofs then know in each call.
    pub fn update_each<F: Fn(&mut T, J::Type)>(&mut self, f: F) -> Result<(), AllocError>
    where
        T::Storage: UnprotectedStorage<T>,
        J::Type: Drop,
        requires called { (i : ℕ) (x : MutBor T) (z : J.Type) → map.get (slot self.old).map i ≡ Some x.now → gives self.old i z → F.pre f x z }
        ensures same_reference { storage_name self.new ≡ storage_name self.old }
        ensures calls { OnOk result (EachCalled (gives self.old) (F.post f) (rest self.old) (slot self.old) (slot self.new)) }
        ensures each { OnOk result ((i : ℕ) → Contains (rest self.old) i → ChangedOnce (gives self.old) (F.post f) (slot self.old) (slot self.new) i) }
        ensures others { OnOk result ((i : ℕ) → (Contains (rest self.old) i → ⊥) → map.get (slot self.new).map i ≡ map.get (slot self.old).map i) }
        ensures becomes { OnOk result ((to : ℕ → T → T) → EachLeaves (gives self.old) (F.post f) to → (slot self.new).map ≡ each_becomes to (rest self.old) (slot self.old).map) }
        ensures err { OnErr result (EachStopped (gives self.old) (F.post f) (rest self.old) (slot self.old) (slot self.new)) }
        ensures place { OnErr result (EachStoppedAt (gives self.old) (F.post f) (rest self.old) (slot self.old) (slot self.new) (here self.new) (rest self.new)) }
        ensures given { OnErr result (is_given self.new ≡ true) }
        ensures ended { OnOk result ((here self.new ≡ None) × (rest self.new ≡ [])) }
        ensures gives { (i : ℕ) (r : J.Type) → gives self.new i r → gives self.old i r }
        ensures succeeds { HasRoom (slot self.old).room (length (rest self.old)) → IsOk result }
        ensures room { is_some (slot self.new).room ≡ is_some (slot self.old).room }
    {
        while let Some(_id) = self.next() {
            let Some(item) = self.beside() else {
                unreachable!()
            };
            match self.item() {
                Ok(place) => f(place, item),
                Err(_refused) => return Err(AllocError),
            }
        }
        Ok(())
    }

    /// `for_each` of a closure that may refuse, which ends the loop: the calls before it stay made, as does what it wrote to its component, and
    /// the cursor stands at its index, before those behind it. It stands so too at the index for whose event memory was refused.
    pub fn try_for_each<E, F: FnMut(&mut T, J::Type) -> Result<(), E>>(
        &mut self,
        mut f: F,
    ) -> Result<(), EachError<E>>
    where
        T::Storage: UnprotectedStorage<T>,
        J::Type: Drop,
        requires called { (state : F) (i : ℕ) (x : MutBor T) (z : J.Type) → map.get (slot self.old).map i ≡ Some x.now → gives self.old i z → F.pre state x z }
        ensures same_reference { storage_name self.new ≡ storage_name self.old }
        ensures calls { OnOk result ((last : F) × CalledAtEach (gives self.old) F.step (Ok tt) (rest self.old) f (slot self.old) last (slot self.new)) }
        ensures each { OnOk result ((i : ℕ) → Contains (rest self.old) i → ChangedAt (gives self.old) F.step (Ok tt) (slot self.old) (slot self.new) i) }
        ensures others { OnOk result ((i : ℕ) → (Contains (rest self.old) i → ⊥) → map.get (slot self.new).map i ≡ map.get (slot self.old).map i) }
        ensures becomes { OnOk result ((to : ℕ → T → T) → CallsLeave (gives self.old) F.step (Ok tt) to → (slot self.new).map ≡ each_becomes to (rest self.old) (slot self.old).map) }
        ensures memory { (result ≡ Err EachError.OutOfMemory) → StoppedIn (gives self.old) F.step (Ok tt) (rest self.old) f (slot self.old) (slot self.new) }
        ensures refused { (e : E) → result ≡ Err (EachError.Refused e) → RefusedIn (gives self.old) F.step (Ok tt) (Err e) (rest self.old) f (slot self.old) (slot self.new) }
        ensures memory_place { (result ≡ Err EachError.OutOfMemory) → StoppedAt (gives self.old) F.step (Ok tt) (rest self.old) f (slot self.old) (slot self.new) (here self.new) (rest self.new) }
        ensures place { (e : E) → result ≡ Err (EachError.Refused e) → RefusedAt (gives self.old) F.step (Ok tt) (Err e) (rest self.old) f (slot self.old) (slot self.new) (here self.new) (rest self.new) }
        ensures given { OnErr result (is_given self.new ≡ true) }
        ensures ended { OnOk result ((here self.new ≡ None) × (rest self.new ≡ [])) }
        ensures gives { (i : ℕ) (r : J.Type) → gives self.new i r → gives self.old i r }
        ensures succeeds { HasRoom (slot self.old).room (length (rest self.old)) → result ≢ Err EachError.OutOfMemory }
        ensures room { is_some (slot self.new).room ≡ is_some (slot self.old).room }
    {
        while let Some(_id) = self.next() {
            let Some(item) = self.beside() else {
                unreachable!()
            };
            match self.item() {
                Ok(component) => match f(component, item) {
                    Ok(()) => {}
                    Err(e) => return Err(EachError::Refused(e)),
                },
                Err(_) => return Err(EachError::OutOfMemory),
            }
        }
        Ok(())
    }
}
