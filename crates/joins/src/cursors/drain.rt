//! A cursor that takes components out.
ghost use Rattle.std.specs.Prelude.{◌≡◌, ℕ, ◌&&◌, ◌||◌, not, true, false, Some, None, Ok, IfSome, IfNone, IfOk, IsOk, OnOk, OnErr, IsSome, [], ◌∷◌, MatchOption, is_some, length};
ghost use Rattle.std.specs.FinMap as map;
ghost use Rattle.hibits.specs.Sets.{has_part};
ghost use Rattle.joins.specs.Over.{IsOver, over_is_fact};
ghost use Rattle.joins.specs.Keys.{keys_of, shared_indices};
ghost use Rattle.storages.specs.Limit.{IsIndex};

use crate::cursors::steps::Steps;
use crate::join::Join;
use hibits::{Index, Layers};
use std::alloc::AllocError;
use storages::{Component, MaskedStorage, UnprotectedStorage};

/// Walks the indices that a storage and a join share, ascending, and takes the storage's component out where it is asked to. Ports
/// `specs::storage::Drain`, which takes each out.
///
/// Over a view, callers' proofs know exactly what it ends as where the cursor is made over the storage that the view lends:
/// `let masked = view.masked_mut();`, a cursor over `masked`, and after its last use `let _masked = &*masked;`. Where the cursor is made of the
/// view itself, they know what each call leaves, and not what the view ends as.
#[derive(Drop)]
pub struct Drain<'a, T: Component, J: Join> {
    storage: &'a mut MaskedStorage<T>,
    steps: Steps<J>,
    ghost valid: { IsOver (λ l i. has_part (keys_of storage.now.map) l i && J.Mask.has steps.mask l i) steps.walk } by { over_is_fact _ _ },
}

impl<'a, T: Component, J: Join> Drain<'a, T, J> {
    ghost use Rattle.joins.specs.Draining.{slot, storage_name, here, component, is_given, rest, gives};
    ghost use Rattle.joins.specs.Each.{each_gone};
    ghost use Rattle.joins.specs.Taking.{TakenAtEach, TakingStopped, TakingStoppedAt};
    ghost use Rattle.storages.specs.Meaning.{HasRoom};
    ghost use Rattle.storages.specs.Slot.{IsSame, Takes};

    /// Before the first index.
    #[inline(always)]
    pub fn new(storage: &'a mut MaskedStorage<T>, join: J) -> Self
        ensures same_reference { storage_name result ≡ storage.entry.ghost_name }
        ensures slot { slot result ≡ storage.old }
        ensures rest { rest result ≡ shared_indices storage.old.map (J.has join) }
        ensures here { here result ≡ None }
        ensures gives { (i : ℕ) (r : J.Type) → gives result i r → J.gives join i r }
    {
        let steps = Steps::new(storage.mask(), join);
        Drain { storage, steps }
    }

    /// Before the first index that the storage and another join share. The join of this cursor is given up.
    #[inline(always)]
    pub fn join_with<K: Join>(self, join: K) -> Drain<'a, T, K>
        ensures same_reference { storage_name result ≡ storage_name self.entry }
        ensures slot { slot result ≡ slot self.entry }
        ensures rest { rest result ≡ shared_indices (slot self.entry).map (K.has join) }
        ensures here { here result ≡ None }
        ensures gives { (i : ℕ) (r : K.Type) → gives result i r → K.gives join i r }
    {
        let Drain { storage, steps: _ } = self;
        Drain::new(storage, join)
    }

    /// The storage, with what was taken out of it. A caller that is generic over the join ends the cursor so: of a cursor that is only dropped
    /// its proof does not know what the storage ends as.
    #[inline(always)]
    pub fn into_storage(self) -> &'a mut MaskedStorage<T>
        ensures same_reference { result.ghost_name ≡ storage_name self.entry }
        ensures slot { result.now ≡ slot self.entry }
    {
        let Drain { storage, steps: _ } = self;
        storage
    }

    /// Goes on to the next index, which it answers.
    #[inline(always)]
    pub fn next(&mut self) -> Option<Index>
        ensures same_reference { storage_name self.new ≡ storage_name self.old }
        ensures slot { slot self.new ≡ slot self.old }
        ensures rest { MatchOption result (rest self.old ≡ []) (λ i. rest self.old ≡ i ∷ rest self.new) }
        ensures ended { IfNone result (rest self.new ≡ []) }
        ensures here { here self.new ≡ result }
        ensures there { IfSome result (λ i. map.contains_key (slot self.old).map i ≡ true) }
        ensures limit { IfSome result IsIndex }
        ensures given { is_given self.new ≡ false }
        ensures gives { (i : ℕ) (r : J.Type) → gives self.new i r → gives self.old i r }
    {
        self.steps.next(self.storage.mask())
    }

    /// Takes the component at the current index out, if it was not taken before. After an error it is there as before.
    #[inline(always)]
    pub fn item(&mut self) -> Result<Option<T>, AllocError>
    where
        T::Storage: UnprotectedStorage<T>,
        ensures same_reference { storage_name self.new ≡ storage_name self.old }
        ensures here { here self.new ≡ here self.old }
        ensures rest { rest self.new ≡ rest self.old }
        ensures given { is_given self.new ≡ is_given self.old }
        ensures gives { (i : ℕ) (r : J.Type) → gives self.new i r → gives self.old i r }
        ensures value { IfOk result (λ x. x ≡ component self.old) }
        ensures removed { OnOk result (IfSome (here self.old) (λ i. IsSome (component self.old) → Takes (slot self.old) (slot self.new) i)) }
        ensures absent { component self.old ≡ None → (result ≡ Ok None) × (slot self.new ≡ slot self.old) }
        ensures err { OnErr result (IsSame (slot self.old) (slot self.new)) }
        ensures succeeds { HasRoom (slot self.old).room 1 → IsOk result }
    {
        let Some(id) = self.steps.current else {
            return Ok(None);
        };
        self.storage.remove(id)
    }

    /// What the join has at the current index. It is given once.
    #[inline(always)]
    pub fn beside(&mut self) -> Option<J::Type>
        ensures same_reference { storage_name self.new ≡ storage_name self.old }
        ensures slot { slot self.new ≡ slot self.old }
        ensures rest { rest self.new ≡ rest self.old }
        ensures here { here self.new ≡ here self.old }
        ensures some { is_some result ≡ (not (is_given self.old) && is_some (here self.old)) }
        ensures given { IfSome result (λ r. IfSome (here self.old) (λ i. gives self.old i r)) }
        ensures once { is_given self.new ≡ (is_some (here self.old) || is_given self.old) }
        ensures gives { (i : ℕ) (r : J.Type) → gives self.new i r → gives self.old i r }
    {
        self.steps.beside()
    }

    /// Takes the component out at each index that is left, ascending, and calls `f` with it and with what the join has beside it. It stands for
    /// `for (component, item) in (storage.drain(), join).join()` of specs, and costs what that walk and the calls cost.
    ///
    /// `Err` where memory was refused for the event of the next index: what was taken out before it stays so, and the cursor stands at that
    /// index, whose component is there, before those behind it. What is beside that index was taken for its call, and is not given again. After
    /// `Ok` nothing is left.
    pub fn for_each<F: FnMut(T, J::Type)>(&mut self, mut f: F) -> Result<(), AllocError>
    where
        T::Storage: UnprotectedStorage<T>,
        J::Type: Drop,
        requires called { (state : F) (i : ℕ) (x : T) (z : J.Type) → map.get (slot self.old).map i ≡ Some x → gives self.old i z → F.pre state x z }
        ensures same_reference { storage_name self.new ≡ storage_name self.old }
        ensures calls { OnOk result ((last : F) × TakenAtEach (gives self.old) F.step (rest self.old) f (slot self.old) last (slot self.new)) }
        ensures gone { OnOk result ((slot self.new).map ≡ each_gone (rest self.old) (slot self.old).map) }
        ensures err { OnErr result (TakingStopped (gives self.old) F.step (rest self.old) f (slot self.old) (slot self.new)) }
        ensures place { OnErr result (TakingStoppedAt (gives self.old) F.step (rest self.old) f (slot self.old) (slot self.new) (here self.new) (rest self.new)) }
        ensures there { OnErr result (IsSome (component self.new)) }
        ensures given { OnErr result (is_given self.new ≡ true) }
        ensures ended { OnOk result ((here self.new ≡ None) × (rest self.new ≡ [])) }
        ensures gives { (i : ℕ) (r : J.Type) → gives self.new i r → gives self.old i r }
        ensures succeeds { HasRoom (slot self.old).room (length (rest self.old)) → IsOk result }
        ensures room { is_some (slot self.new).room ≡ is_some (slot self.old).room }
    {
        while let Some(_id) = self.next() {
            let Some(item) = self.beside() else {
                unreachable!()
            };
            match self.item() {
                Ok(Some(component)) => f(component, item),
                Ok(None) => unreachable!(),
                Err(e) => return Err(e),
            }
        }
        Ok(())
    }
}
