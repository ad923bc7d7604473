//! Marks and deaths.
ghost use Rattle.std.specs.Prelude.{◌≡◌, ◌∷◌, [], IfErr, OnOk, OnErr, MatchOption};
ghost use Rattle.entities.specs.Population.{mark, IsAlive, generation_reported, index_of, number_of};
ghost use Rattle.entities.specs.Census.{population};
ghost use Rattle.entities.specs.Deaths.{MayAllDie, IsFirstRefused, all_dead};

use crate::allocator::Allocator;
use crate::entity::{DELETE, Entity, LAST_GENERATION, WrongGeneration};
use crate::lowering::{lower, raise};

impl Allocator {
    /// Marks an entity that lives, merged or pending: it dies at the next `merge`, and lives until then. Marking it again succeeds. One
    /// that doesn't live is refused, and nothing changes. It takes constant time and no memory.
    ///
    /// Ports `Allocator::kill_atomic`.
    pub fn kill_atomic(&mut self, e: Entity) -> Result<(), WrongGeneration>
        ensures alive { OnOk result (IsAlive (population self.old) e) }
        ensures marked { OnOk result (population self.new ≡ mark (population self.old) (index_of e)) }
        ensures refused { IfErr result (λ w. (w.entity ≡ e) × (IsAlive (population self.old) e → ⊥)) }
        ensures actual { IfErr result (λ w. number_of w.actual_gen ≡ generation_reported (population self.old) (index_of w.entity)) }
        ensures action { IfErr result (λ w. w.action.now ≡ DELETE.now) }
        ensures err { OnErr result (self.new ≡ self.old) }
        ensures room { self.new.room ≡ self.old.room }
    {
        if !self.is_alive(e) {
            return Err(self.wrong_generation(DELETE, e));
        }
        let _ = self.killed.add(e.0);
        Ok(())
    }

    /// The death at once of a list of entities, which may be pending or marked. The first that doesn't live, or that equals an earlier
    /// one, refuses the whole list, and nothing changes. It takes time linear in the list, and no memory.
    ///
    /// Ports `Allocator::kill`.
    pub fn kill(&mut self, list: &[Entity]) -> Result<(), WrongGeneration>
        ensures may { OnOk result (MayAllDie (population self.old) list.now) }
        ensures dead { OnOk result (population self.new ≡ all_dead list.now (population self.old)) }
        ensures first { IfErr result (λ w. IsFirstRefused (population self.old) list.now w.entity) }
        ensures actual { IfErr result (λ w. number_of w.actual_gen ≡ generation_reported (population self.old) (index_of w.entity)) }
        ensures action { IfErr result (λ w. w.action.now ≡ DELETE.now) }
        ensures err { OnErr result (self.new ≡ self.old) }
        ensures room { self.new.room ≡ self.old.room }
    {
        self.may_kill(list)?;
        self.bury_all(list);
        Ok(())
    }

    /// Whether a list may die at once: the test of `kill`, which changes nothing. It takes time linear in the list, and no memory.
    pub fn may_kill(&mut self, list: &[Entity]) -> Result<(), WrongGeneration>
        ensures may { OnOk result (MayAllDie (population self.old) list.now) }
        ensures first { IfErr result (λ w. IsFirstRefused (population self.old) list.now w.entity) }
        ensures actual { IfErr result (λ w. number_of w.actual_gen ≡ generation_reported (population self.old) (index_of w.entity)) }
        ensures action { IfErr result (λ w. w.action.now ≡ DELETE.now) }
        ensures same { self.new ≡ self.old }
    {
        match self.first_refused(list) {
            Some(entity) => Err(self.wrong_generation(DELETE, entity)),
            None => Ok(()),
        }
    }

    /// The first of a list that doesn't live, or that equals an earlier one.
    fn first_refused(&mut self, list: &[Entity]) -> Option<Entity>
        ensures refused { MatchOption result (MayAllDie (population self.old) list.now) (λ e. IsFirstRefused (population self.old) list.now e) }
        ensures same { self.new ≡ self.old }
    {
        let generations = self.generations.as_mut_slice();
        let lowered = lower(generations, list);
        raise(generations, &list[..lowered]);
        if lowered < list.len() {
            return Some(list[lowered]);
        }
        None
    }

    pub(super) fn bury_all(&mut self, list: &[Entity])
        requires { MayAllDie (population self.old) list.now }
        ensures dead { population self.new ≡ all_dead list.now (population self.old) }
        ensures room { self.new.room ≡ self.old.room }
    {
        for e in list {
            self.bury(*e);
        }
    }

    #[inline]
    fn bury(&mut self, e: Entity)
        requires { IsAlive (population self.old) e }
        ensures dead { population self.new ≡ all_dead (e ∷ []) (population self.old) }
        ensures room { self.new.room ≡ self.old.room }
    {
        let i = e.0 as usize;
        self.generations[i] = -e.1.0;
        self.alive.remove(e.0);
        self.raised.remove(e.0);
        self.killed.remove(e.0);
        if e.1.0 < LAST_GENERATION {
            let _ = self.free.push(e.0);
        }
    }
}
