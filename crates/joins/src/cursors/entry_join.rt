//! A cursor over the places of the living in a storage.
ghost use Rattle.std.specs.Prelude.{◌≡◌, ◌↔◌, ℕ, ◌&&◌, ◌||◌, true, false, not, None, Err, IfSome, IfNone, IfOk, IsOk, IsSome, [], ◌∷◌, MatchOption, is_some};
ghost use Rattle.std.specs.Borrow.{sem};
ghost use Rattle.entities.specs.Census.{population};
ghost use Rattle.entities.specs.Population.{lives};
ghost use Rattle.hibits.specs.Sets.{has_part};
ghost use Rattle.joins.specs.Over.{IsOver, over_is_fact};

use crate::cursors::steps::Steps;
use crate::join::Join;
use entities::EntitiesRes;
use hibits::{BitSet, BitSetAll, BitSetOr, Index, Layers};
use storages::{Component, MaskedStorage, NotLent};

/// Walks the indices that live and that a join has, ascending, and lends the storage, whose place for the index may have a component or
/// none. Ports `specs::storage::Entries`, which can be joined without the entities and then goes over dead indices too.
///
/// Over a view, callers' proofs know exactly what it ends as where the cursor is made over the storage that the view lends:
/// `let masked = view.masked_mut();`, a cursor over `masked`, and after its last use `let _masked = &*masked;`. Where the cursor is made of the
/// view itself, they know what each call leaves, and not what the view ends as.
#[derive(Drop)]
pub struct EntryJoin<'a, 'b, T: Component, J: Join> {
    storage: &'a mut MaskedStorage<T>,
    entities: &'b EntitiesRes,
    living: BitSetOr<&'b BitSet, &'b BitSet>,
    steps: Steps<J>,
    ghost valid: { IsOver (λ l i. (has_part living.0.now.members l i || has_part living.1.now.members l i) && J.Mask.has steps.mask l i) steps.walk } by { over_is_fact _ _ },
    ghost alive: { (i : ℕ) → (has_part living.0.now.members 0 i || has_part living.1.now.members 0 i) ≡ lives (population entities.now) i },
}

impl<'a, 'b, T: Component> EntryJoin<'a, 'b, T, BitSetAll> {
    ghost use Rattle.hibits.specs.Left.{left};
    ghost use Rattle.joins.specs.EntryCursor.{slot, entities_of, storage_name, here, rest};

    /// Before the first index that lives, beside nothing else.
    #[inline(always)]
    pub fn over(entities: &'b EntitiesRes, storage: &'a mut MaskedStorage<T>) -> Self
        ensures same_reference { storage_name result ≡ storage.entry.ghost_name }
        ensures slot { slot result ≡ storage.old }
        ensures entities { entities_of result ≡ entities.now }
        ensures rest { rest result ≡ left (λ i. lives (population entities.now) i) 0 }
        ensures here { here result ≡ None }
    {
        EntryJoin::new(entities, storage, BitSetAll)
    }
}

impl<'a, 'b, T: Component, J: Join> EntryJoin<'a, 'b, T, J> {
    ghost use Rattle.hibits.specs.Left.{left};
    ghost use Rattle.joins.specs.EntryCursor.{slot, entities_of, storage_name, here, is_given, rest, gives, lends_storage};
    ghost use Rattle.storages.specs.Limit.{IsIndex};

    /// Before the first index.
    #[inline(always)]
    pub fn new(entities: &'b EntitiesRes, storage: &'a mut MaskedStorage<T>, join: J) -> Self
        ensures same_reference { storage_name result ≡ storage.entry.ghost_name }
        ensures slot { slot result ≡ storage.old }
        ensures entities { entities_of result ≡ entities.now }
        ensures rest { rest result ≡ left (λ i. lives (population entities.now) i && J.has join i) 0 }
        ensures here { here result ≡ None }
        ensures gives { (i : ℕ) (r : J.Type) → gives result i r → J.gives join i r }
    {
        let living = entities.living();
        let steps = Steps::new(&living, join);
        EntryJoin {
            storage,
            entities,
            living,
            steps,
        }
    }

    /// Before the first index that lives and that another join has. The join of this cursor is given up.
    #[inline(always)]
    pub fn join_with<K: Join>(self, join: K) -> EntryJoin<'a, 'b, T, K>
        ensures same_reference { storage_name result ≡ storage_name self.entry }
        ensures slot { slot result ≡ slot self.entry }
        ensures entities { entities_of result ≡ entities_of self.entry }
        ensures rest { rest result ≡ left (λ i. lives (population (entities_of self.entry)) i && K.has join i) 0 }
        ensures here { here result ≡ None }
        ensures gives { (i : ℕ) (r : K.Type) → gives result i r → K.gives join i r }
    {
        let EntryJoin {
            storage,
            entities,
            living: _,
            steps: _,
        } = self;
        EntryJoin::new(entities, storage, join)
    }

    /// The storage, with what was written to it. A caller that is generic over the join ends the cursor so: of a cursor that is only dropped
    /// its proof does not know what the storage ends as.
    #[inline(always)]
    pub fn into_storage(self) -> &'a mut MaskedStorage<T>
        ensures same_reference { result.ghost_name ≡ storage_name self.entry }
        ensures slot { result.now ≡ slot self.entry }
    {
        let EntryJoin {
            storage,
            entities: _,
            living: _,
            steps: _,
        } = self;
        storage
    }

    /// Goes on to the next index, which it answers.
    #[inline(always)]
    pub fn next(&mut self) -> Option<Index>
        ensures same_reference { storage_name self.new ≡ storage_name self.old }
        ensures slot { slot self.new ≡ slot self.old }
        ensures entities { entities_of self.new ≡ entities_of self.old }
        ensures rest { MatchOption result (rest self.old ≡ []) (λ i. rest self.old ≡ i ∷ rest self.new) }
        ensures ended { IfNone result (rest self.new ≡ []) }
        ensures here { here self.new ≡ result }
        ensures there { IfSome result (λ i. lives (population (entities_of self.old)) i ≡ true) }
        ensures limit { IfSome result IsIndex }
        ensures given { is_given self.new ≡ false }
        ensures gives { (i : ℕ) (r : J.Type) → gives self.new i r → gives self.old i r }
    {
        self.steps.next(&self.living)
    }

    /// The storage: its `entry` at the index that `next` answered is the place, occupied or vacant. `Absent` where there is no such index.
    ///
    /// Where a place that the storage lent was written to, the cursor is known to have it once the storage is looked at again: a caller
    /// writes `let _masked = &*masked;` after the last write.
    #[inline(always)]
    pub fn item(&mut self) -> Result<&mut MaskedStorage<T>, NotLent>
        ensures* lends { sem 𝓛 (lends_storage T.row J.row T.Storage.row J.Type.row J.Value.row J.Mask.row self.entry result) }
        ensures absent { (result ≡ Err NotLent.Absent) ↔ (here self.old ≡ None) }
        ensures some { IsSome (here self.old) → IsOk result }
        ensures slot { IfOk result (λ r. r.now ≡ slot self.old) }
    {
        if self.steps.current.is_none() {
            return Err(NotLent::Absent);
        }
        Ok(&mut *self.storage)
    }

    /// What the join has at the current index. It is given once.
    #[inline(always)]
    pub fn beside(&mut self) -> Option<J::Type>
        ensures same_reference { storage_name self.new ≡ storage_name self.old }
        ensures slot { slot self.new ≡ slot self.old }
        ensures entities { entities_of self.new ≡ entities_of self.old }
        ensures rest { rest self.new ≡ rest self.old }
        ensures here { here self.new ≡ here self.old }
        ensures some { is_some result ≡ (not (is_given self.old) && is_some (here self.old)) }
        ensures given { IfSome result (λ r. IfSome (here self.old) (λ i. gives self.old i r)) }
        ensures once { is_given self.new ≡ (is_some (here self.old) || is_given self.old) }
        ensures gives { (i : ℕ) (r : J.Type) → gives self.new i r → gives self.old i r }
    {
        self.steps.beside()
    }
}
