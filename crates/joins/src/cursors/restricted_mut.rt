//! A cursor of a restricted storage.
ghost use Rattle.std.specs.Prelude.{◌≡◌, ℕ, Bool, ◌&&◌, ◌||◌, not, true, false, Some, None, Err, IfSome, IfNone, IfOk, IsOk, IsSome, [], ◌∷◌, MatchOption, is_some, option_copied, ◌↔◌};
ghost use Rattle.std.specs.Borrow.{sem};
ghost use Rattle.std.specs.FinMap as map;
ghost use Rattle.std.specs.Option.{ForSome};
ghost use Rattle.entities.specs.Population.{index_of};
ghost use Rattle.hibits.specs.Sets.{has_part};
ghost use Rattle.joins.specs.Over.{IsOver, over_is_fact};
ghost use Rattle.joins.specs.Keys.{keys_of, shared_indices};
ghost use Rattle.storages.specs.Limit.{IsIndex};

use crate::cursors::steps::Steps;
use crate::join::Join;
use crate::living::is_living;
use entities::{EntitiesRes, Entity};
use hibits::{BitSetAll, Index, Layers};
use storages::{Component, MaskedStorage, NotLent, UnprotectedStorage};

/// Walks the indices that a storage and a join share, ascending. The component at the current index, and those of living entities, are
/// shown and lent for writing; none is inserted or removed. Ports the joined `specs::storage::RestrictedStorage` of `restrict_mut`, and the
/// `PairedStorage` that it gives.
///
/// Over a view, callers' proofs know exactly what it ends as where the cursor is made over the storage that the view lends:
/// `let masked = view.masked_mut();`, a cursor over `masked`, and after its last use `let _masked = &*masked;`. Where the cursor is made of the
/// view itself, they know what each call leaves, and not what the view ends as.
#[derive(Drop)]
pub struct RestrictedStorageMut<'a, 'b, T: Component, J: Join> {
    storage: &'a mut MaskedStorage<T>,
    entities: &'b EntitiesRes,
    steps: Steps<J>,
    ghost valid: { IsOver (λ l i. has_part (keys_of storage.now.map) l i && J.Mask.has steps.mask l i) steps.walk } by { over_is_fact _ _ },
    ghost there: { ForSome steps.current (λ i. map.contains_key storage.now.map i ≡ true) },
}

impl<'a, 'b, T: Component> RestrictedStorageMut<'a, 'b, T, BitSetAll> {
    ghost use Rattle.joins.specs.Restricting.{slot, entities_of, storage_name, here, rest};
    ghost use Rattle.storages.specs.Slot.{indices_of};

    /// Before the first index of the storage, beside nothing else.
    #[inline(always)]
    pub fn over(entities: &'b EntitiesRes, storage: &'a mut MaskedStorage<T>) -> Self
        ensures same_reference { storage_name result ≡ storage.entry.ghost_name }
        ensures slot { slot result ≡ storage.old }
        ensures entities { entities_of result ≡ entities.now }
        ensures rest { rest result ≡ indices_of storage.old }
        ensures here { here result ≡ None }
    {
        RestrictedStorageMut::new(entities, storage, BitSetAll)
    }
}

impl<'a, 'b, T: Component, J: Join> RestrictedStorageMut<'a, 'b, T, J> {
    ghost use Rattle.joins.specs.Restricting.{slot, storage_name, entities_of, found, here, component, is_given, rest, gives, lends_at};
    ghost use Rattle.storages.specs.Meaning.{HasRoom};

    /// Before the first index.
    #[inline(always)]
    pub fn new(entities: &'b EntitiesRes, storage: &'a mut MaskedStorage<T>, join: J) -> Self
        ensures same_reference { storage_name result ≡ storage.entry.ghost_name }
        ensures slot { slot result ≡ storage.old }
        ensures entities { entities_of result ≡ entities.now }
        ensures rest { rest result ≡ shared_indices storage.old.map (J.has join) }
        ensures here { here result ≡ None }
        ensures gives { (i : ℕ) (r : J.Type) → gives result i r → J.gives join i r }
    {
        let steps = Steps::new(storage.mask(), join);
        RestrictedStorageMut {
            storage,
            entities,
            steps,
        }
    }

    /// Before the first index that the storage and another join share. The join of this cursor is given up.
    #[inline(always)]
    pub fn join_with<K: Join>(self, join: K) -> RestrictedStorageMut<'a, 'b, T, K>
        ensures same_reference { storage_name result ≡ storage_name self.entry }
        ensures slot { slot result ≡ slot self.entry }
        ensures entities { entities_of result ≡ entities_of self.entry }
        ensures rest { rest result ≡ shared_indices (slot self.entry).map (K.has join) }
        ensures here { here result ≡ None }
        ensures gives { (i : ℕ) (r : K.Type) → gives result i r → K.gives join i r }
    {
        let RestrictedStorageMut {
            storage,
            entities,
            steps: _,
        } = self;
        RestrictedStorageMut::new(entities, storage, join)
    }

    /// The storage, with what was written to it. A caller that is generic over the join ends the cursor so: of a cursor that is only dropped
    /// its proof does not know what the storage ends as.
    #[inline(always)]
    pub fn into_storage(self) -> &'a mut MaskedStorage<T>
        ensures same_reference { result.ghost_name ≡ storage_name self.entry }
        ensures slot { result.now ≡ slot self.entry }
    {
        let RestrictedStorageMut {
            storage,
            entities: _,
            steps: _,
        } = self;
        storage
    }

    /// Goes on to the next index, which it answers.
    #[inline(always)]
    pub fn next(&mut self) -> Option<Index>
        ensures same_reference { storage_name self.new ≡ storage_name self.old }
        ensures slot { slot self.new ≡ slot self.old }
        ensures entities { entities_of self.new ≡ entities_of self.old }
        ensures rest { MatchOption result (rest self.old ≡ []) (λ i. rest self.old ≡ i ∷ rest self.new) }
        ensures ended { IfNone result (rest self.new ≡ []) }
        ensures here { here self.new ≡ result }
        ensures there { IfSome result (λ i. map.contains_key (slot self.old).map i ≡ true) }
        ensures limit { IfSome result IsIndex }
        ensures given { is_given self.new ≡ false }
        ensures gives { (i : ℕ) (r : J.Type) → gives self.new i r → gives self.old i r }
    {
        self.steps.next(self.storage.mask())
    }

    /// The component at the current index.
    #[inline(always)]
    pub fn get_unchecked(&self) -> Option<&T>
    where
        T::Storage: UnprotectedStorage<T>,
        ensures { option_copied result ≡ component self.now }
    {
        let id = self.steps.current?;
        Some(self.storage.unprotected_storage().get(id))
    }

    /// The component of any entity that is alive.
    #[inline(always)]
    pub fn get(&self, entity: Entity) -> Option<&T>
    where
        T::Storage: UnprotectedStorage<T>,
        ensures { option_copied result ≡ found self.now entity }
    {
        if is_living(self.entities, entity) {
            self.storage.get(entity.id())
        } else {
            None
        }
    }

    /// The component at the current index, to write to.
    #[inline(always)]
    pub fn get_mut_unchecked(&mut self) -> Result<&mut T, NotLent>
    where
        T::Storage: UnprotectedStorage<T>,
        ensures* writes_back { sem 𝓛 (lends_at T.row J.row T.Storage.row J.Type.row J.Value.row J.Mask.row self.entry (here self.old) result) }
        ensures absent { (result ≡ Err NotLent.Absent) ↔ (here self.old ≡ None) }
        ensures value { IfOk result (λ x. component self.old ≡ Some x.now) }
        ensures succeeds { IsSome (here self.old) → HasRoom (slot self.old).room 1 → IsOk result }
    {
        let Some(id) = self.steps.current else {
            return Err(NotLent::Absent);
        };
        self.storage.lend_present(id)
    }

    /// The component of any entity that is alive, to write to.
    #[inline(always)]
    pub fn get_mut(&mut self, entity: Entity) -> Result<&mut T, NotLent>
    where
        T::Storage: UnprotectedStorage<T>,
        ensures* writes_back { sem 𝓛 (lends_at T.row J.row T.Storage.row J.Type.row J.Value.row J.Mask.row self.entry (Some (index_of entity)) result) }
        ensures absent { (result ≡ Err NotLent.Absent) ↔ (found self.old entity ≡ None) }
        ensures value { IfOk result (λ x. found self.old entity ≡ Some x.now) }
        ensures succeeds { IsSome (found self.old entity) → HasRoom (slot self.old).room 1 → IsOk result }
    {
        if !is_living(self.entities, entity) {
            return Err(NotLent::Absent);
        }
        self.storage.get_mut(entity.id())
    }

    /// What the join has at the current index. It is given once.
    #[inline(always)]
    pub fn beside(&mut self) -> Option<J::Type>
        ensures same_reference { storage_name self.new ≡ storage_name self.old }
        ensures slot { slot self.new ≡ slot self.old }
        ensures entities { entities_of self.new ≡ entities_of self.old }
        ensures rest { rest self.new ≡ rest self.old }
        ensures here { here self.new ≡ here self.old }
        ensures some { is_some result ≡ (not (is_given self.old) && is_some (here self.old)) }
        ensures given { IfSome result (λ r. IfSome (here self.old) (λ i. gives self.old i r)) }
        ensures once { is_given self.new ≡ (is_some (here self.old) || is_given self.old) }
        ensures gives { (i : ℕ) (r : J.Type) → gives self.new i r → gives self.old i r }
    {
        self.steps.beside()
    }
}
