//! A cursor that lends the components of two storages for writing.
ghost use Rattle.std.specs.Prelude.{◌≡◌, ℕ, Bool, ◌&&◌, ◌||◌, not, true, false, Some, None, Err, IfSome, IfNone, IfOk, IsOk, IsSome, [], ◌∷◌, MatchOption, is_some, ◌↔◌};
ghost use Rattle.std.specs.Borrow.{sem};
ghost use Rattle.std.specs.FinMap as map;
ghost use Rattle.std.specs.Option.{ForSome};
ghost use Rattle.hibits.specs.Sets.{has_part};
ghost use Rattle.joins.specs.Over.{IsOver, over_is_fact};
ghost use Rattle.joins.specs.Keys.{keys_of};
ghost use Rattle.storages.specs.Limit.{IsIndex};

use crate::cursors::steps::Steps;
use crate::join::Join;
use hibits::{BitSetAnd, Index, Layers};
use storages::{Component, MaskedStorage, NotLent, UnprotectedStorage};

/// Walks the indices that two storages and a join share, ascending, and lends the components of both storages for writing. It stands for
/// `(&mut a, &mut b, join).join()` of specs.
///
/// Over a view, callers' proofs know exactly what it ends as where the cursor is made over the storage that the view lends:
/// `let masked = view.masked_mut();`, a cursor over `masked`, and after its last use `let _masked = &*masked;`. Where the cursor is made of the
/// view itself, they know what each call leaves, and not what the views end as.
#[derive(Drop)]
pub struct WriteJoin2<'a, 'b, A: Component, B: Component, J: Join> {
    first: &'a mut MaskedStorage<A>,
    second: &'b mut MaskedStorage<B>,
    steps: Steps<J>,
    ghost valid: { IsOver (λ l i. (has_part (keys_of first.now.map) l i && has_part (keys_of second.now.map) l i) && J.Mask.has steps.mask l i) steps.walk } by { over_is_fact _ _ },
    ghost in_first: { ForSome steps.current (λ i. map.contains_key first.now.map i ≡ true) },
    ghost in_second: { ForSome steps.current (λ i. map.contains_key second.now.map i ≡ true) },
}

impl<'a, 'b, A: Component, B: Component, J: Join> WriteJoin2<'a, 'b, A, B, J> {
    ghost use Rattle.hibits.specs.Left.{left};
    ghost use Rattle.joins.specs.CursorOfTwo.{first_slot, second_slot, first_name, second_name, here, is_given, rest, gives, lends_first, lends_second};
    ghost use Rattle.storages.specs.Meaning.{HasRoom};

    /// Before the first index.
    #[inline(always)]
    pub fn new(first: &'a mut MaskedStorage<A>, second: &'b mut MaskedStorage<B>, join: J) -> Self
        ensures first_reference { first_name result ≡ first.entry.ghost_name }
        ensures second_reference { second_name result ≡ second.entry.ghost_name }
        ensures first_slot { first_slot result ≡ first.old }
        ensures second_slot { second_slot result ≡ second.old }
        ensures rest { rest result ≡ left (λ i. (map.contains_key first.old.map i && map.contains_key second.old.map i) && J.has join i) 0 }
        ensures here { here result ≡ None }
        ensures gives { (i : ℕ) (r : J.Type) → gives result i r → J.gives join i r }
    {
        let steps = Steps::new(&BitSetAnd(first.mask(), second.mask()), join);
        WriteJoin2 {
            first,
            second,
            steps,
        }
    }

    /// The storages, with what was written to them. A caller that is generic over the join ends the cursor so: of a cursor that is only dropped
    /// its proof does not know what the storages end as.
    #[inline(always)]
    pub fn into_storages(self) -> (&'a mut MaskedStorage<A>, &'b mut MaskedStorage<B>)
        ensures first_reference { result.0.ghost_name ≡ first_name self.entry }
        ensures second_reference { result.1.ghost_name ≡ second_name self.entry }
        ensures first_slot { result.0.now ≡ first_slot self.entry }
        ensures second_slot { result.1.now ≡ second_slot self.entry }
    {
        let WriteJoin2 {
            first,
            second,
            steps: _,
        } = self;
        (first, second)
    }

    /// Goes on to the next index, which it answers.
    #[inline(always)]
    pub fn next(&mut self) -> Option<Index>
        ensures first_reference { first_name self.new ≡ first_name self.old }
        ensures second_reference { second_name self.new ≡ second_name self.old }
        ensures first_slot { first_slot self.new ≡ first_slot self.old }
        ensures second_slot { second_slot self.new ≡ second_slot self.old }
        ensures rest { MatchOption result (rest self.old ≡ []) (λ i. rest self.old ≡ i ∷ rest self.new) }
        ensures ended { IfNone result (rest self.new ≡ []) }
        ensures here { here self.new ≡ result }
        ensures there_first { IfSome result (λ i. map.contains_key (first_slot self.old).map i ≡ true) }
        ensures there_second { IfSome result (λ i. map.contains_key (second_slot self.old).map i ≡ true) }
        ensures limit { IfSome result IsIndex }
        ensures given { is_given self.new ≡ false }
        ensures gives { (i : ℕ) (r : J.Type) → gives self.new i r → gives self.old i r }
    {
        self.steps
            .next(&BitSetAnd(self.first.mask(), self.second.mask()))
    }

    /// The component of the first storage at the current index, to write to.
    #[inline(always)]
    pub fn first(&mut self) -> Result<&mut A, NotLent>
    where
        A::Storage: UnprotectedStorage<A>,
        ensures* writes_back { sem 𝓛 (lends_first A.row B.row J.row A.Storage.row B.Storage.row J.Type.row J.Value.row J.Mask.row self.entry result) }
        ensures absent { (result ≡ Err NotLent.Absent) ↔ (here self.old ≡ None) }
        ensures value { IfOk result (λ x. IfSome (here self.old) (λ i. map.get (first_slot self.old).map i ≡ Some x.now)) }
        ensures succeeds { IsSome (here self.old) → HasRoom (first_slot self.old).room 1 → IsOk result }
    {
        let Some(id) = self.steps.current else {
            return Err(NotLent::Absent);
        };
        self.first.lend_present(id)
    }

    /// The component of the second storage at the current index, to write to.
    #[inline(always)]
    pub fn second(&mut self) -> Result<&mut B, NotLent>
    where
        B::Storage: UnprotectedStorage<B>,
        ensures* writes_back { sem 𝓛 (lends_second A.row B.row J.row A.Storage.row B.Storage.row J.Type.row J.Value.row J.Mask.row self.entry result) }
        ensures absent { (result ≡ Err NotLent.Absent) ↔ (here self.old ≡ None) }
        ensures value { IfOk result (λ x. IfSome (here self.old) (λ i. map.get (second_slot self.old).map i ≡ Some x.now)) }
        ensures succeeds { IsSome (here self.old) → HasRoom (second_slot self.old).room 1 → IsOk result }
    {
        let Some(id) = self.steps.current else {
            return Err(NotLent::Absent);
        };
        self.second.lend_present(id)
    }

    /// What the join has at the current index. It is given once.
    #[inline(always)]
    pub fn beside(&mut self) -> Option<J::Type>
        ensures first_reference { first_name self.new ≡ first_name self.old }
        ensures second_reference { second_name self.new ≡ second_name self.old }
        ensures first_slot { first_slot self.new ≡ first_slot self.old }
        ensures second_slot { second_slot self.new ≡ second_slot self.old }
        ensures rest { rest self.new ≡ rest self.old }
        ensures here { here self.new ≡ here self.old }
        ensures some { is_some result ≡ (not (is_given self.old) && is_some (here self.old)) }
        ensures given { IfSome result (λ r. IfSome (here self.old) (λ i. gives self.old i r)) }
        ensures once { is_given self.new ≡ (is_some (here self.old) || is_given self.old) }
        ensures gives { (i : ℕ) (r : J.Type) → gives self.new i r → gives self.old i r }
    {
        self.steps.beside()
    }
}
