//! A cursor that lends the values of a change set for writing.
ghost use Rattle.std.specs.Prelude.{◌≡◌, ◌↔◌, ℕ, Bool, ◌&&◌, ◌||◌, not, true, false, Some, None, IfSome, IfNone, [], ◌∷◌, MatchOption, is_some};
ghost use Rattle.std.specs.Borrow.{sem, MutBor};
ghost use Rattle.std.specs.List.{Contains};
ghost use Rattle.std.specs.FinMap as map;
ghost use Rattle.std.specs.Option.{ForSome};
ghost use Rattle.hibits.specs.Sets.{has_part};
ghost use Rattle.joins.specs.Over.{IsOver, over_is_fact};
ghost use Rattle.joins.specs.Keys.{keys_of, shared_indices};
ghost use Rattle.joins.specs.Visits.{CallsLeave};
ghost use Rattle.storages.specs.Limit.{IsIndex};

use crate::change_set::ChangeSet;
use crate::combine::Combine;
use crate::cursors::steps::Steps;
use crate::join::Join;
use hibits::{Index, Layers};

/// Walks the indices that a change set and a join share, ascending, and lends the change set's value for writing. It stands for
/// `(&mut change_set, join).join()` of specs.
#[derive(Drop)]
pub struct ChangeJoin<'a, T: Drop, J: Join> {
    changes: &'a mut ChangeSet<T>,
    steps: Steps<J>,
    ghost valid: { IsOver (λ l i. has_part (keys_of changes.now) l i && J.Mask.has steps.mask l i) steps.walk } by { over_is_fact _ _ },
    ghost there: { ForSome steps.current (λ i. map.contains_key changes.now i ≡ true) },
}

impl<'a, T: Combine + Drop, J: Join> ChangeJoin<'a, T, J> {
    ghost use Rattle.joins.specs.ChangeCursor.{values, changes_name, here, is_given, rest, gives, lends_value};
    ghost use Rattle.joins.specs.ChangeVisits.{ValuesCalled, ValueChanged};
    ghost use Rattle.joins.specs.Each.{each_becomes};

    /// Before the first index.
    #[inline(always)]
    pub fn new(changes: &'a mut ChangeSet<T>, join: J) -> Self
        ensures same_reference { changes_name result ≡ changes.entry.ghost_name }
        ensures values { values result ≡ changes.old }
        ensures rest { rest result ≡ shared_indices changes.old (J.has join) }
        ensures here { here result ≡ None }
        ensures gives { (i : ℕ) (r : J.Type) → gives result i r → J.gives join i r }
    {
        let steps = Steps::new(changes.mask(), join);
        ChangeJoin { changes, steps }
    }

    /// The change set, with what was written to it. A caller that is generic over the join ends the cursor so: of a cursor that is only dropped
    /// its proof does not know what the change set ends as.
    #[inline(always)]
    pub fn into_changes(self) -> &'a mut ChangeSet<T>
        ensures same_reference { result.ghost_name ≡ changes_name self.entry }
        ensures values { result.now ≡ values self.entry }
    {
        let ChangeJoin { changes, steps: _ } = self;
        changes
    }

    /// Goes on to the next index, which it answers.
    #[inline(always)]
    pub fn next(&mut self) -> Option<Index>
        ensures same_reference { changes_name self.new ≡ changes_name self.old }
        ensures values { values self.new ≡ values self.old }
        ensures rest { MatchOption result (rest self.old ≡ []) (λ i. rest self.old ≡ i ∷ rest self.new) }
        ensures ended { IfNone result (rest self.new ≡ []) }
        ensures here { here self.new ≡ result }
        ensures there { IfSome result (λ i. map.contains_key (values self.old) i ≡ true) }
        ensures limit { IfSome result IsIndex }
        ensures given { is_given self.new ≡ false }
        ensures gives { (i : ℕ) (r : J.Type) → gives self.new i r → gives self.old i r }
    {
        self.steps.next(self.changes.mask())
    }

    /// The value at the current index, to write to. It takes no memory.
    #[inline(always)]
    pub fn item(&mut self) -> Option<&mut T>
        ensures* writes_back { sem 𝓛 (lends_value T.row J.row J.Type.row J.Value.row J.Mask.row self.entry result) }
        ensures absent { (result ≡ None) ↔ (here self.old ≡ None) }
        ensures value { IfSome result (λ x. IfSome (here self.old) (λ i. map.get (values self.old) i ≡ Some x.now)) }
    {
        let id = self.steps.current?;
        self.changes.get_mut(id)
    }

    /// What the join has at the current index. It is given once.
    #[inline(always)]
    pub fn beside(&mut self) -> Option<J::Type>
        ensures same_reference { changes_name self.new ≡ changes_name self.old }
        ensures values { values self.new ≡ values self.old }
        ensures rest { rest self.new ≡ rest self.old }
        ensures here { here self.new ≡ here self.old }
        ensures some { is_some result ≡ (not (is_given self.old) && is_some (here self.old)) }
        ensures given { IfSome result (λ r. IfSome (here self.old) (λ i. gives self.old i r)) }
        ensures once { is_given self.new ≡ (is_some (here self.old) || is_given self.old) }
        ensures gives { (i : ℕ) (r : J.Type) → gives self.new i r → gives self.old i r }
    {
        self.steps.beside()
    }

    /// Calls `f` at each index that is left, ascending, with a `&mut` to the value there and with what the join has beside it. It stands for
    /// `for (value, item) in (&mut change_set, join).join()` of specs, and costs what that walk and the calls cost. It takes no memory. Nothing is
    /// left after it.
    pub fn for_each<F: FnMut(&mut T, J::Type)>(&mut self, mut f: F)
    where
        J::Type: Drop,
        requires called { (state : F) (i : ℕ) (x : MutBor T) (z : J.Type) → map.get (values self.old) i ≡ Some x.now → gives self.old i z → F.pre state x z }
        ensures same_reference { changes_name self.new ≡ changes_name self.old }
        ensures calls { (last : F) × ValuesCalled (gives self.old) F.step (rest self.old) f (values self.old) last (values self.new) }
        ensures each { (i : ℕ) → Contains (rest self.old) i → ValueChanged (gives self.old) F.step (values self.old) (values self.new) i }
        ensures others { (i : ℕ) → (Contains (rest self.old) i → ⊥) → map.get (values self.new) i ≡ map.get (values self.old) i }
        ensures becomes { (to : ℕ → T → T) → CallsLeave (gives self.old) F.step tt to → values self.new ≡ each_becomes to (rest self.old) (values self.old) }
        ensures ended { (here self.new ≡ None) × (rest self.new ≡ []) }
        ensures gives { (i : ℕ) (r : J.Type) → gives self.new i r → gives self.old i r }
    {
        while let Some(_id) = self.next() {
            let Some(item) = self.beside() else {
                unreachable!()
            };
            let Some(value) = self.item() else {
                unreachable!()
            };
            f(value, item);
        }
    }
}

impl<T: Combine + Drop> ChangeSet<T> {
    ghost use Rattle.joins.specs.ChangeCursor.{values, changes_name, here, rest, gives};

    /// A cursor before the first index that this and the join share, which lends the values for writing.
    #[inline(always)]
    pub fn join_mut<J: Join>(&mut self, join: J) -> ChangeJoin<'_, T, J>
        ensures same_reference { changes_name result ≡ self.entry.ghost_name }
        ensures values { values result ≡ self.old }
        ensures rest { rest result ≡ shared_indices self.old (J.has join) }
        ensures here { here result ≡ None }
        ensures gives { (i : ℕ) (r : J.Type) → gives result i r → J.gives join i r }
    {
        ChangeJoin::new(self, join)
    }
}
