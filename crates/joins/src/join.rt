//! Joins: what several hold at the indices that all of them have.
ghost use Rattle.std.specs.Prelude.{◌≡◌, ℕ, Bool, ◌&&◌, ◌+◌, ◌<◌, ◌≤◌, true, false, min};
ghost use Rattle.hibits.specs.Left.{left};

use crate::iter::JoinIter;
use crate::optional::MaybeJoin;
use hibits::{BitSetAnd, INDEX_LIMIT, Index, Layers};

/// What several hold at the indices that all of them have. Ports `specs::join::Join`, for joins that only read.
pub trait Join: Sized {
    /// What stands at an index.
    type Type;
    /// What is asked for it.
    type Value: Drop;
    /// The indices.
    type Mask: Layers + Drop;

    // the indices that all have
    ghost has: { Self → ℕ → Bool };

    // how many plain masks it walks
    ghost cost: { Self → ℕ };

    // how many indices the smallest of them has
    ghost most: { Self → ℕ };

    // what it gives at an index
    ghost gives: { Self → ℕ → Self.Type → Type 0 };

    // the same of an opened one
    ghost can_get: { Self.Value → ℕ → Bool };

    ghost value_gives: { Self.Value → ℕ → Self.Type → Type 0 };

    // whether it gives at each index as often as it is asked
    ghost repeats: { Bool } = { false };

    // whether all of it is what may be there
    ghost unconstrained: { Bool } = { false };

    /// The mask and the values.
    fn open(self) -> (Self::Mask, Self::Value)
        ensures mask { (i : ℕ) → Self.Mask.has result.0 0 i ≡ has self i }
        ensures cost { Self.Mask.cost result.0 ≡ cost self }
        ensures most { Self.Mask.most result.0 ≡ most self }
        ensures ready { (i : ℕ) → has self i ≡ true → can_get result.1 i ≡ true }
        ensures gives { (i : ℕ) (r : Self.Type) → value_gives result.1 i r → gives self i r };

    /// Gives what stands at the index. Later indices may still be asked, and give the same.
    fn get(value: &mut Self::Value, id: Index) -> Self::Type
        requires { can_get value.old id ≡ true }
        ensures given { value_gives value.old id result }
        ensures later { (i : ℕ) → id < i → can_get value.old i ≡ true → can_get value.new i ≡ true }
        ensures later_gives { (i : ℕ) (r : Self.Type) → id < i → value_gives value.new i r → value_gives value.old i r }
        ensures again { repeats ≡ true → (i : ℕ) → can_get value.old i ≡ true → can_get value.new i ≡ true }
        ensures again_gives { repeats ≡ true → (i : ℕ) (r : Self.Type) → value_gives value.new i r → value_gives value.old i r };

    /// Whether it has every index, as what may be there has. A walk over such joins alone, without one that has fewer, takes all the
    /// indices: `INDEX_LIMIT` steps.
    fn is_unconstrained() -> bool
        ensures may { result ≡ unconstrained }
        ensures all { result ≡ true → (j : Self) (i : ℕ) → i < INDEX_LIMIT → has j i ≡ true };

    /// The values at the indices, ascending.
    #[inline(always)]
    final fn join(self) -> JoinIter<Self>
        ensures mask { (i : ℕ) → Self.Mask.has result.keys.mask 0 i ≡ has self i }
        ensures items { left (Self.Mask.has result.keys.mask 0) 0 ≡ left (has self) 0 }
        ensures gives { (i : ℕ) (r : Self.Type) → value_gives result.values i r → gives self i r }
        ensures position { result.keys.position ≡ 0 }
        ensures cost { Self.Mask.cost result.keys.mask ≡ cost self }
        ensures most { Self.Mask.most result.keys.mask ≡ most self }
    {
        JoinIter::new(self)
    }

    /// The same, which shrinks no other join, and gives `None` where it has nothing.
    #[inline(always)]
    final fn maybe(self) -> MaybeJoin<Self>
    where
        Self: Drop,
        ensures { result.0 ≡ self }
    {
        MaybeJoin(self)
    }
}

impl<A: Join, B: Join> Join for (A, B) {
    type Type = (A::Type, B::Type);

    type Value = (A::Value, B::Value);

    type Mask = BitSetAnd<A::Mask, B::Mask>;

    ghost has = { λ j i. A.has j.0 i && B.has j.1 i };

    ghost cost = { λ j. A.cost j.0 + B.cost j.1 };

    ghost most = { λ j. min (A.most j.0) (B.most j.1) };

    ghost repeats = { A.repeats && B.repeats };

    ghost unconstrained = { A.unconstrained && B.unconstrained };

    ghost gives = { λ j i r. A.gives j.0 i r.0 × B.gives j.1 i r.1 };

    ghost can_get = { λ v i. A.can_get v.0 i && B.can_get v.1 i };

    ghost value_gives = { λ v i r. A.value_gives v.0 i r.0 × B.value_gives v.1 i r.1 };

    #[inline(always)]
    fn open(self) -> (BitSetAnd<A::Mask, B::Mask>, (A::Value, B::Value)) {
        let (a, b) = self;
        let (left, first) = a.open();
        let (right, rest) = b.open();
        (BitSetAnd(left, right), (first, rest))
    }

    #[inline(always)]
    fn get(value: &mut (A::Value, B::Value), id: Index) -> (A::Type, B::Type) {
        let first = A::get(&mut value.0, id);
        let rest = B::get(&mut value.1, id);
        (first, rest)
    }

    #[inline(always)]
    fn is_unconstrained() -> bool {
        A::is_unconstrained() && B::is_unconstrained()
    }
}
