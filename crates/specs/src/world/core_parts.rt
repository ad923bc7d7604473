//! Entities and storages, below the queue of a world.
ghost use Rattle.std.specs.Prelude.{◌≡◌, ◌∷◌, [], IsTrue, ◌↔◌, IfOk, IfErr, IsOk, OnOk, OnErr};
ghost use Rattle.std.specs.Borrow.{sem};
ghost use Rattle.std.specs.List.{All};
ghost use Rattle.entities.specs.Census.{population};
ghost use Rattle.entities.specs.Population.{no_one, IsMerged};
ghost use Rattle.entities.specs.Merges.{the_marked};
ghost use Rattle.specs.specs.Laws.Going.{GoesOn};
ghost use Rattle.specs.specs.Laws.Gone.{IsGone, KeepsGone};
ghost use Rattle.specs.specs.World.People.{NoneMarked};
ghost use Rattle.specs.specs.Laws.Reached.{HasNoValue, IsNew, KeepsLiving, OnlyLiving};
ghost use Rattle.specs.specs.World.State.{core_state, Deletes, merged};
ghost use Rattle.specs.specs.World.Refused.{DeleteIsRefused};
ghost use Rattle.specs.specs.World.Lending.{LendsParts};
ghost use Rattle.specs.specs.Slots.Table.{WantsMemory};

use crate::command::Refusal;
use crate::slots::{Held, Storages};
use entities::{EntitiesRes, Entity, WrongGeneration};
use std::alloc::{AllocError, Global};
use thiserror::Error;

/// Why a list of entities was not deleted. Nothing changed.
#[derive(Clone, Copy, Debug, PartialEq, Eq, Error)]
pub enum DeleteError {
    /// The first entity of the list that is not alive, or that equals an earlier one.
    #[error("{0}")]
    WrongGeneration(WrongGeneration),
    /// Memory was refused.
    #[error("out of memory")]
    OutOfMemory,
}

impl From<DeleteError> for Refusal {
    ghost use Rattle.specs.specs.World.Refused.{refusal_of};

    ghost from_gives = { λ e r. r ≡ refusal_of e };

    fn from(e: DeleteError) -> Refusal {
        match e {
            DeleteError::WrongGeneration(wrong) => Refusal::WrongGeneration(wrong),
            DeleteError::OutOfMemory => Refusal::OutOfMemory,
        }
    }
}

/// Entities and storages.
pub struct Parts<S> {
    /// The entities.
    pub entities: EntitiesRes,
    /// The storages.
    pub storages: S,
}

impl<S: Drop> Drop for Parts<S> {
    fn drop(self) {
        let Parts {
            entities: _entities,
            storages: _storages,
        } = self;
    }
}

/// Entities and their components, without a queue of jobs.
pub struct Core<S> {
    pub(crate) parts: Parts<S>,
    pub(crate) alloc: Global,
}

impl<S: Drop> Drop for Core<S> {
    fn drop(self) {
        let Core {
            parts: _parts,
            alloc: _alloc,
        } = self;
    }
}

impl<S: Held> Core<S> {
    /// A core without entities, over storages that are empty or not registered.
    #[tactic(auto, using(crate::specs::Laws::Living::begins))]
    pub fn new(alloc: Global, storages: S) -> Self
        ensures storages { result.parts.storages ≡ storages }
        ensures people { (core_state S.table S.ids result).people ≡ no_one }
        ensures table { (core_state S.table S.ids result).table ≡ S.table storages }
        ensures ids { (core_state S.table S.ids result).ids ≡ S.ids storages }
        ensures begins { HasNoValue (S.table storages) → IsNew (core_state S.table S.ids result) }
        ensures living { HasNoValue (S.table storages) → OnlyLiving (core_state S.table S.ids result) }
    {
        Core {
            parts: Parts {
                entities: EntitiesRes::new(alloc),
                storages,
            },
            alloc,
        }
    }

    /// The entities.
    pub fn entities(&self) -> &EntitiesRes
        ensures { population result.now ≡ (core_state S.table S.ids self.now).people }
    {
        &self.parts.entities
    }

    /// Both parts, to change them: `let Parts { entities, storages } = core.parts();` lends each.
    pub fn parts(&mut self) -> &mut Parts<S>
        ensures* lends { sem 𝓛 (LendsParts S.row self.entry result) }
        ensures value { result.now ≡ self.old.parts }
    {
        &mut self.parts
    }

    /// Whether the entity is alive and not pending. Ports `World::is_alive`.
    pub fn is_alive(&self, e: Entity) -> bool
        ensures { IsTrue result ↔ IsMerged (core_state S.table S.ids self.now).people e }
    {
        self.parts.entities.is_alive(e) && self.parts.entities.alive().contains(e.id())
    }
}

impl<S: Storages> Core<S> {
    /// The death at once of an entity, with its components. Ports `WorldExt::delete_entity`.
    pub fn delete_entity(&mut self, e: Entity) -> Result<(), DeleteError>
        ensures ok { OnOk result (Deletes (e ∷ []) (core_state S.table S.ids self.old) (core_state S.table S.ids self.new)) }
        ensures gone { OnOk result (IsGone (core_state S.table S.ids self.new).people e) }
        ensures living { KeepsLiving (core_state S.table S.ids self.old) (core_state S.table S.ids self.new) }
        ensures goes_on { GoesOn (core_state S.table S.ids self.old) (core_state S.table S.ids self.new) }
        ensures stays_gone { KeepsGone (core_state S.table S.ids self.old).people (core_state S.table S.ids self.new).people }
        ensures refused { IfErr result (DeleteIsRefused (core_state S.table S.ids self.old) (e ∷ [])) }
        ensures err { OnErr result (core_state S.table S.ids self.new ≡ core_state S.table S.ids self.old) }
    {
        self.delete_entities(&[e])?;
        Ok(())
    }

    /// The death at once of a list of entities, with their components. The whole list is tested first. It takes time near linear in the
    /// list, and memory for events alone; the empty list is never refused. Ports `WorldExt::delete_entities`.
    pub fn delete_entities(&mut self, list: &[Entity]) -> Result<(), DeleteError>
        ensures ok { OnOk result (Deletes list.now (core_state S.table S.ids self.old) (core_state S.table S.ids self.new)) }
        ensures gone { OnOk result (All (IsGone (core_state S.table S.ids self.new).people) list.now) }
        ensures living { KeepsLiving (core_state S.table S.ids self.old) (core_state S.table S.ids self.new) }
        ensures goes_on { GoesOn (core_state S.table S.ids self.old) (core_state S.table S.ids self.new) }
        ensures stays_gone { KeepsGone (core_state S.table S.ids self.old).people (core_state S.table S.ids self.new).people }
        ensures refused { IfErr result (DeleteIsRefused (core_state S.table S.ids self.old) list.now) }
        ensures err { OnErr result (core_state S.table S.ids self.new ≡ core_state S.table S.ids self.old) }
        ensures idle { list.now ≡ [] → IsOk result }
    {
        self.delete_all_of(list)?;
        Ok(())
    }

    // `delete_entities`, without what holds of each state.
    fn delete_all_of(&mut self, list: &[Entity]) -> Result<(), DeleteError>
        ensures ok { OnOk result (Deletes list.now (core_state S.table S.ids self.old) (core_state S.table S.ids self.new)) }
        ensures gone { OnOk result (All (IsGone (core_state S.table S.ids self.new).people) list.now) }
        ensures refused { IfErr result (DeleteIsRefused (core_state S.table S.ids self.old) list.now) }
        ensures err { OnErr result (core_state S.table S.ids self.new ≡ core_state S.table S.ids self.old) }
        ensures idle { list.now ≡ [] → IsOk result }
    {
        if self.parts.storages.reserve_drop(list.len()).is_err() {
            return Err(self.no_room(list));
        }
        match self.parts.entities.alloc_mut().kill(list) {
            Ok(()) => {
                self.parts.storages.drop_all(list);
                Ok(())
            }
            Err(wrong) => Err(DeleteError::WrongGeneration(wrong)),
        }
    }

    // Takes up pending births, and lets the marked die with their components. All room is got before anything changes.
    pub(crate) fn merge(&mut self) -> Result<Vec<Entity>, AllocError>
        ensures dead { IfOk result (λ dead. dead.items ≡ the_marked (core_state S.table S.ids self.old).people) }
        ensures gone { IfOk result (λ dead. All (IsGone (core_state S.table S.ids self.new).people) dead.items) }
        ensures merged { OnOk result (core_state S.table S.ids self.new ≡ merged (core_state S.table S.ids self.old)) }
        ensures living { KeepsLiving (core_state S.table S.ids self.old) (core_state S.table S.ids self.new) }
        ensures stays_gone { KeepsGone (core_state S.table S.ids self.old).people (core_state S.table S.ids self.new).people }
        ensures idle { NoneMarked (core_state S.table S.ids self.old).people → IsOk result }
        ensures err { OnErr result (core_state S.table S.ids self.new ≡ core_state S.table S.ids self.old) }
    {
        let alloc = self.alloc;
        self.parts
            .storages
            .reserve_drop(self.parts.entities.marked().count())?;
        let dead = self.parts.entities.alloc_mut().merge(alloc)?;
        self.parts.storages.drop_all(dead.as_slice());
        Ok(dead)
    }

    // Why a list is not deleted that has no room: it is tested first.
    fn no_room(&mut self, list: &[Entity]) -> DeleteError
        requires { WantsMemory (core_state S.table S.ids self.old).table }
        ensures refused { DeleteIsRefused (core_state S.table S.ids self.old) list.now result }
        ensures same { core_state S.table S.ids self.new ≡ core_state S.table S.ids self.old }
    {
        match self.parts.entities.alloc_mut().may_kill(list) {
            Ok(()) => DeleteError::OutOfMemory,
            Err(wrong) => DeleteError::WrongGeneration(wrong),
        }
    }
}
