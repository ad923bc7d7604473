//! What a core's entities are told, to be taken up by `World::maintain`, and markers.
ghost use Rattle.std.specs.Prelude.{◌≡◌, true, IfOk, IfErr, OnOk, OnErr};
ghost use Rattle.entities.specs.Population.{born_pending};
ghost use Rattle.specs.specs.Laws.Going.{GoesOn};
ghost use Rattle.specs.specs.Laws.Gone.{KeepsGone};
ghost use Rattle.specs.specs.World.Marking.{GivesMarkerIn, GetsNoMarker};
ghost use Rattle.specs.specs.World.People.{Births, Marks, MarkIsRefused};
ghost use Rattle.specs.specs.Laws.Reached.{KeepsLiving};
ghost use Rattle.specs.specs.World.Refused.{CreateIsRefused};
ghost use Rattle.specs.specs.World.State.{core_state, OnPeople};

use crate::slots::{Held, Storages};
use crate::world::Core;
use entities::{CreateError, Entity, WrongGeneration};
use saveload::MarkError;

impl<S: Held> Core<S> {
    /// A birth that is pending until `World::maintain`: the entity can get components at once. A refused call changes nothing. Ports
    /// `EntitiesRes::create` of a world's entities.
    pub fn create_pending(&mut self) -> Result<Entity, CreateError>
        ensures storages { self.new.parts.storages ≡ self.old.parts.storages }
        ensures ok { IfOk result (λ e. OnPeople (λ p p'. Births born_pending p e p') (core_state S.table S.ids self.old) (core_state S.table S.ids self.new)) }
        ensures living { KeepsLiving (core_state S.table S.ids self.old) (core_state S.table S.ids self.new) }
        ensures goes_on { GoesOn (core_state S.table S.ids self.old) (core_state S.table S.ids self.new) }
        ensures gone { KeepsGone (core_state S.table S.ids self.old).people (core_state S.table S.ids self.new).people }
        ensures refused { IfErr result (CreateIsRefused (core_state S.table S.ids self.old).people) }
        ensures err { OnErr result (core_state S.table S.ids self.new ≡ core_state S.table S.ids self.old) }
    {
        let entity = self.bear_later()?;
        Ok(entity)
    }

    // `create_pending`, without what holds of each state.
    fn bear_later(&mut self) -> Result<Entity, CreateError>
        ensures storages { self.new.parts.storages ≡ self.old.parts.storages }
        ensures ok { IfOk result (λ e. OnPeople (λ p p'. Births born_pending p e p') (core_state S.table S.ids self.old) (core_state S.table S.ids self.new)) }
        ensures refused { IfErr result (CreateIsRefused (core_state S.table S.ids self.old).people) }
        ensures err { OnErr result (self.new ≡ self.old) }
    {
        self.parts.entities.create()
    }

    /// Marks an entity that is alive as one that dies at `World::maintain`; until then it lives. A refused call changes nothing. Ports
    /// `EntitiesRes::delete` of a world's entities.
    pub fn mark_dead(&mut self, e: Entity) -> Result<(), WrongGeneration>
        ensures storages { self.new.parts.storages ≡ self.old.parts.storages }
        ensures ok { OnOk result (OnPeople (λ p p'. Marks p e p') (core_state S.table S.ids self.old) (core_state S.table S.ids self.new)) }
        ensures living { KeepsLiving (core_state S.table S.ids self.old) (core_state S.table S.ids self.new) }
        ensures goes_on { GoesOn (core_state S.table S.ids self.old) (core_state S.table S.ids self.new) }
        ensures gone { KeepsGone (core_state S.table S.ids self.old).people (core_state S.table S.ids self.new).people }
        ensures refused { IfErr result (MarkIsRefused (core_state S.table S.ids self.old).people e) }
        ensures err { OnErr result (core_state S.table S.ids self.new ≡ core_state S.table S.ids self.old) }
    {
        self.doom(e)?;
        Ok(())
    }

    // `mark_dead`, without what holds of each state.
    fn doom(&mut self, e: Entity) -> Result<(), WrongGeneration>
        ensures storages { self.new.parts.storages ≡ self.old.parts.storages }
        ensures ok { OnOk result (OnPeople (λ p p'. Marks p e p') (core_state S.table S.ids self.old) (core_state S.table S.ids self.new)) }
        ensures refused { IfErr result (MarkIsRefused (core_state S.table S.ids self.old).people e) }
        ensures err { OnErr result (self.new ≡ self.old) }
    {
        self.parts.entities.delete(e)
    }
}

impl<S: Storages> Core<S> {
    /// Gives an entity a marker in a slot of markers, if it is alive and has none there. The answer is whether the marker is new, and none for an
    /// entity that is not alive. A new marker takes an id, and a refused call changes nothing. Ports `MarkerAllocator::mark`.
    pub fn mark(&mut self, slot: S::Slot, e: Entity) -> Result<Option<bool>, MarkError>
        ensures ok { IfOk result (λ given. GivesMarkerIn S.marks slot e given (core_state S.table S.ids self.old) (core_state S.table S.ids self.new)) }
        ensures marker { OnOk result (S.marks.holds slot ≡ true) }
        ensures living { KeepsLiving (core_state S.table S.ids self.old) (core_state S.table S.ids self.new) }
        ensures goes_on { GoesOn (core_state S.table S.ids self.old) (core_state S.table S.ids self.new) }
        ensures gone { KeepsGone (core_state S.table S.ids self.old).people (core_state S.table S.ids self.new).people }
        ensures refused { IfErr result (GetsNoMarker S.marks (core_state S.table S.ids self.old) slot e) }
        ensures err { OnErr result (core_state S.table S.ids self.new ≡ core_state S.table S.ids self.old) }
    {
        let given = self.label(slot, e)?;
        Ok(given)
    }

    // `mark`, without what holds of each state.
    fn label(&mut self, slot: S::Slot, e: Entity) -> Result<Option<bool>, MarkError>
        ensures ok { IfOk result (λ given. GivesMarkerIn S.marks slot e given (core_state S.table S.ids self.old) (core_state S.table S.ids self.new)) }
        ensures marker { OnOk result (S.marks.holds slot ≡ true) }
        ensures refused { IfErr result (GetsNoMarker S.marks (core_state S.table S.ids self.old) slot e) }
        ensures err { OnErr result (core_state S.table S.ids self.new ≡ core_state S.table S.ids self.old) }
    {
        self.parts.storages.mark(&self.parts.entities, slot, e)
    }
}
