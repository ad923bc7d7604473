//! The merge of pending births and of marks.
ghost use Rattle.std.specs.Prelude.{◌≡◌, ℕ, ◌<◌, ◌||◌, true, false, IfOk, IsOk, OnOk, OnErr};
ghost use Rattle.hibits.specs.Sets.{HasRoom};
ghost use Rattle.entities.specs.Census.{population, has};
ghost use Rattle.entities.specs.Merges.{the_marked, merge};

use crate::allocator::Allocator;
use crate::entity::Entity;
use hibits::{BitSet, INDEX_LIMIT, Walk};
use std::alloc::{AllocError, Global};

impl Allocator {
    /// Takes up the pending births, then the marked die: they are answered as they lived, ascending by index. It takes memory for that
    /// list alone, got first: where that is refused, nothing changes. Its time goes by the pending and the marked, and where any is pending
    /// the words of room of one set are written, each of which is of 64 indices.
    ///
    /// Ports `Allocator::merge`.
    pub fn merge(&mut self, alloc: Global) -> Result<Vec<Entity>, AllocError>
        ensures dead { IfOk result (λ v. v.items ≡ the_marked (population self.old)) }
        ensures merged { OnOk result (population self.new ≡ merge (population self.old)) }
        ensures none { ((i : ℕ) → (population self.old).marked i ≡ false) → IsOk result }
        ensures err { OnErr result (self.new ≡ self.old) }
        ensures room { self.new.room ≡ self.old.room }
    {
        let dead = self.marked_entities(alloc)?;
        self.take_up();
        self.bury_all(dead.as_slice());
        Ok(dead)
    }

    fn marked_entities(&self, alloc: Global) -> Result<Vec<Entity>, AllocError>
        ensures dead { IfOk result (λ v. v.items ≡ the_marked (population self.now)) }
        ensures below { OnOk result ((i : ℕ) → (population self.now).marked i ≡ true → i < INDEX_LIMIT) }
        ensures none { ((i : ℕ) → (population self.now).marked i ≡ false) → IsOk result }
    {
        let mut dead = Vec::new(alloc);
        let mut walk = Walk::new(&self.killed);
        while let Some(id) = walk.next(&self.killed) {
            dead.push(self.entity(id))?;
        }
        Ok(dead)
    }

    /// Makes the pending births merged ones.
    fn take_up(&mut self)
        ensures generations { self.new.generations ≡ self.old.generations }
        ensures killed { self.new.killed ≡ self.old.killed }
        ensures none { (j : ℕ) → has self.new.raised j ≡ true → ⊥ }
        ensures room { self.new.room ≡ self.old.room }
    {
        if !self.raised.is_empty() {
            add_all(&mut self.alive, &self.raised);
            self.raised.clear();
        }
    }
}

/// Adds the indices of another set, for which there is room.
fn add_all(indices: &mut BitSet, others: &BitSet)
    requires { (i : ℕ) → has others.now.members i ≡ true → HasRoom indices.old i × i < INDEX_LIMIT }
    ensures members { (i : ℕ) → has indices.new.members i ≡ (has indices.old.members i || has others.now.members i) }
    ensures room { (i : ℕ) → HasRoom indices.old i → HasRoom indices.new i }
{
    let mut walk = Walk::new(others);
    while let Some(i) = walk.next(others) {
        let _ = indices.add(i);
    }
}
