//! The death of everyone.
ghost use Rattle.std.specs.Prelude.{◌≡◌, ℕ, true, false, map, IfOk, IsOk, OnOk, OnErr};
ghost use Rattle.std.specs.List.{All};
ghost use Rattle.hibits.specs.Left.{left};
ghost use Rattle.entities.specs.Census.{population};
ghost use Rattle.entities.specs.Merges.{living_entity};
ghost use Rattle.entities.specs.Population.{lives};
ghost use Rattle.specs.specs.Laws.Going.{GoesOn};
ghost use Rattle.specs.specs.Laws.Gone.{IsGone, KeepsGone};
ghost use Rattle.specs.specs.World.People.{NobodyLives, the_living};
ghost use Rattle.specs.specs.Laws.Reached.{KeepsLiving, OnlyLiving};
ghost use Rattle.specs.specs.World.State.{core_state, Deletes};

use crate::slots::Storages;
use crate::world::{Core, Parts};
use entities::{EntitiesRes, Entity};
use hibits::{Layers, Walk};
use std::alloc::{AllocError, Global};

impl<S: Storages> Core<S> {
    /// The death at once of every living entity, pending births among them, with their components. It takes memory for the list of them, and
    /// for events. Ports `WorldExt::delete_all`.
    pub fn delete_all(&mut self) -> Result<(), AllocError>
        ensures ok { OnOk result (Deletes (the_living (core_state S.table S.ids self.old).people) (core_state S.table S.ids self.old) (core_state S.table S.ids self.new)) }
        ensures nobody { OnOk result (OnlyLiving (core_state S.table S.ids self.old) → NobodyLives (core_state S.table S.ids self.new).people) }
        ensures gone { OnOk result (All (IsGone (core_state S.table S.ids self.new).people) (the_living (core_state S.table S.ids self.old).people)) }
        ensures living { KeepsLiving (core_state S.table S.ids self.old) (core_state S.table S.ids self.new) }
        ensures goes_on { GoesOn (core_state S.table S.ids self.old) (core_state S.table S.ids self.new) }
        ensures stays_gone { KeepsGone (core_state S.table S.ids self.old).people (core_state S.table S.ids self.new).people }
        ensures idle { NobodyLives (core_state S.table S.ids self.old).people → IsOk result }
        ensures err { OnErr result (core_state S.table S.ids self.new ≡ core_state S.table S.ids self.old) }
    {
        let list = self.living()?;
        let Parts { entities, storages } = &mut self.parts;
        storages.reserve_drop(list.len())?;
        match entities.alloc_mut().kill(list.as_slice()) {
            Ok(()) => {
                storages.drop_all(list.as_slice());
                Ok(())
            }
            Err(_) => unreachable!(),
        }
    }

    /// The living entities, pending births among them, ascending.
    fn living(&self) -> Result<Vec<Entity>, AllocError>
        ensures all { IfOk result (λ list. list.items ≡ the_living (core_state S.table S.ids self.now).people) }
        ensures none { NobodyLives (core_state S.table S.ids self.now).people → IsOk result }
    {
        let entities = &self.parts.entities;
        list_of(self.alloc, entities, &entities.living())
    }
}

/// The living entities of a mask, ascending.
fn list_of<M: Layers>(
    alloc: Global,
    entities: &EntitiesRes,
    mask: &M,
) -> Result<Vec<Entity>, AllocError>
    requires { (i : ℕ) → M.has mask.now 0 i ≡ true → lives (population entities.now) i ≡ true }
    ensures items { IfOk result (λ list. list.items ≡ map (living_entity (population entities.now)) (left (M.has mask.now 0) 0)) }
    ensures none { ((i : ℕ) → M.has mask.now 0 i ≡ false) → IsOk result }
{
    let mut list = Vec::new(alloc);
    let mut walk = Walk::new(mask);
    while let Some(i) = walk.next(mask) {
        list.push(entities.entity(i))?;
    }
    Ok(list)
}
