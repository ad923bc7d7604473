//! The walk of a cursor.
ghost use Rattle.std.specs.Prelude.{◌≡◌, ℕ, Bool, ◌&&◌, ◌||◌, ◌+◌, ◌<◌, ◌≤◌, true, false, IfSome, IfNone, [], is_some, not};
ghost use Rattle.std.specs.Option.{ForSome};
ghost use Rattle.hibits.specs.Left.{left};
ghost use Rattle.hibits.specs.WalkOf.{position};
ghost use Rattle.joins.specs.Over.{IsOver};
ghost use Rattle.joins.specs.Next.{StepsTo};

use crate::join::Join;
use hibits::{BitSetAnd, INDEX_LIMIT, Index, Layers, Reads, Walk};

// Layers whose words are not counted: a cursor tells no number of reads, and the words may change behind it.
#[derive(Drop)]
struct Uncounted<M>(M);

impl<M: Layers> Layers for Uncounted<M> {
    ghost has = { λ s. M.has s.0 };

    ghost cost = { λ _. 0 };

    ghost most = { λ s. M.most s.0 };

    ghost covers = { λ s. M.covers s.0 };

    ghost few = { λ s. M.few s.0 };

    #[inline(always)]
    fn word(&self, level: usize, place: u32, reads: &mut Reads) -> u64 {
        // That the count stays is a fact of `u64`, which a proof has once the count is read.
        let _ = reads.count();
        self.0.word(level, place, &mut Reads::new())
    }
}

// Where a cursor stands, and what is beside it. The indices of its own are passed to each step, and may change behind it.
#[derive(Drop)]
pub(crate) struct Steps<J: Join> {
    mask: J::Mask,
    values: J::Value,
    walk: Walk,
    // Where the cursor stands.
    pub(crate) current: Option<Index>,
    // Whether what is beside that was given.
    given: bool,
    ghost ready: { (i : ℕ) → position walk ≤ i → J.Mask.has mask 0 i ≡ true → J.can_get values i ≡ true },
    ghost here: { ForSome current (λ i. (given ≡ false → J.can_get values i ≡ true) × (i < position walk)) },
}

impl<J: Join> Steps<J> {
    ghost use Rattle.joins.specs.Beside.{Gives};

    // Before the first index.
    #[inline(always)]
    pub(crate) fn new<M: Layers>(own: &M, join: J) -> Self
        ensures walk { IsOver (λ l i. M.has own.now l i && J.Mask.has result.mask l i) result.walk }
        ensures position { position result.walk ≡ 0 }
        ensures current { is_some result.current ≡ false }
        ensures mask { (i : ℕ) → J.Mask.has result.mask 0 i ≡ J.has join i }
        ensures values { (i : ℕ) (r : J.Type) → J.value_gives result.values i r → J.gives join i r }
        ensures gives { (i : ℕ) (r : J.Type) → Gives result i r → J.gives join i r }
    {
        let (mask, values) = join.open();
        let walk = Walk::new(&Uncounted(BitSetAnd(own, &mask)));
        Steps {
            mask,
            values,
            walk,
            current: None,
            given: false,
        }
    }

    // Goes on to the next index of both.
    #[inline(always)]
    pub(crate) fn next<M: Layers>(&mut self, own: &M) -> Option<Index>
        requires { IsOver (λ l i. M.has own.now l i && J.Mask.has self.old.mask l i) self.old.walk }
        ensures walk { IsOver (λ l i. M.has own.now l i && J.Mask.has self.old.mask l i) self.new.walk }
        ensures items { StepsTo (λ i. M.has own.now 0 i && J.Mask.has self.old.mask 0 i) (position self.old.walk) (position self.new.walk) result }
        ensures member { IfSome result (λ i. M.has own.now 0 i ≡ true) }
        ensures below { IfSome result (λ i. i < INDEX_LIMIT) }
        ensures forward { position self.old.walk ≤ position self.new.walk }
        ensures after { IfSome result (λ i. position self.new.walk ≡ i + 1) }
        ensures ended { IfNone result (left (λ i. M.has own.now 0 i && J.Mask.has self.old.mask 0 i) (position self.new.walk) ≡ []) }
        ensures current { self.new.current ≡ result }
        ensures mask { self.new.mask ≡ self.old.mask }
        ensures values { self.new.values ≡ self.old.values }
        ensures given { self.new.given ≡ false }
        ensures gives { (i : ℕ) (r : J.Type) → Gives self.new i r → Gives self.old i r }
    {
        let found = self.walk.next(&Uncounted(BitSetAnd(own, &self.mask)));
        self.current = found;
        self.given = false;
        found
    }

    // What is beside the current index. It is given once.
    #[inline(always)]
    pub(crate) fn beside(&mut self) -> Option<J::Type>
        ensures walk { self.new.walk ≡ self.old.walk }
        ensures current { self.new.current ≡ self.old.current }
        ensures mask { self.new.mask ≡ self.old.mask }
        ensures given { IfSome result (λ r. IfSome self.old.current (λ i. Gives self.old i r)) }
        ensures some { is_some result ≡ (not self.old.given && is_some self.old.current) }
        ensures once { self.new.given ≡ (is_some self.old.current || self.old.given) }
        ensures gives { (i : ℕ) (r : J.Type) → Gives self.new i r → Gives self.old i r }
        ensures later { (i : ℕ) (r : J.Type) → position self.new.walk ≤ i → J.value_gives self.new.values i r → J.value_gives self.old.values i r }
    {
        let id = self.current?;
        if self.given {
            return None;
        }
        self.given = true;
        Some(J::get(&mut self.values, id))
    }
}
