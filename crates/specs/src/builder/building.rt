//! Entities of a core that are built, or made one after another.
ghost use Rattle.std.specs.Prelude.{◌≡◌, false, IfOk, IfErr, OnOk, OnErr};
ghost use Rattle.std.specs.Borrow.{sem};
ghost use Rattle.entities.specs.Census.{population};
ghost use Rattle.entities.specs.Population.{born, MarkedIfAlive};
ghost use Rattle.specs.specs.Builder.Building.{lent_to, built, MarksOne, RestsUnborn, RestsMarkedAt, PutsAlone};
ghost use Rattle.specs.specs.Builder.Building as building;
ghost use Rattle.specs.specs.Builder.Creating as creating;
ghost use Rattle.specs.specs.Typed.Field.{FieldInsertIsRefused, field_column};
ghost use Rattle.specs.specs.Laws.Going.{GoesOn};
ghost use Rattle.specs.specs.Laws.Gone.{KeepsGone};
ghost use Rattle.specs.specs.World.Marking.{HasMarkerThen, GetsNoMarker};
ghost use Rattle.specs.specs.World.People.{Births};
ghost use Rattle.specs.specs.Laws.Reached.{KeepsLiving};
ghost use Rattle.specs.specs.World.Refused.{CreateIsRefused};
ghost use Rattle.specs.specs.World.State.{core_state, parts_state, OnPeople};

use crate::builder::{BuildError, CreateIter, EntityBuilder};
use crate::slots::{Held, Storages};
use crate::typed::{Field, Has, by_type};
use crate::world::{Core, Parts};
use entities::{CreateError, EntitiesRes, Entity};
use saveload::MarkError;
use storages::{Component, UnprotectedStorage};

impl<S: Held> Core<S> {
    /// The birth of an entity, at once, with a builder for it. Ports `WorldExt::create_entity`.
    #[inline(always)]
    pub fn create_entity(&mut self) -> Result<EntityBuilder<'_, S>, CreateError>
        ensures* rests { sem 𝓛 (RestsUnborn S.row self.entry result) }
        ensures same_reference { IfOk result (λ b. (lent_to b).ghost_name ≡ self.entry.ghost_name) }
        ensures ok { IfOk result (λ b. OnPeople (λ p p'. Births born p (built b) p') (core_state S.table S.ids self.old) (building.shown S.table S.ids b)) }
        ensures living { IfOk result (λ b. KeepsLiving (core_state S.table S.ids self.old) (building.shown S.table S.ids b)) }
        ensures goes_on { IfOk result (λ b. GoesOn (core_state S.table S.ids self.old) (building.shown S.table S.ids b)) }
        ensures gone { IfOk result (λ b. KeepsGone (core_state S.table S.ids self.old).people (building.shown S.table S.ids b).people) }
        ensures storages { IfOk result (λ b. (lent_to b).now.parts.storages ≡ self.old.parts.storages) }
        ensures refused { IfErr result (CreateIsRefused (core_state S.table S.ids self.old).people) }
    {
        let entity = self.bear_lawfully()?;
        Ok(EntityBuilder { core: self, entity })
    }

    // The birth of an entity, at once.
    #[inline(always)]
    fn bear(&mut self) -> Result<Entity, CreateError>
        ensures storages { self.new.parts.storages ≡ self.old.parts.storages }
        ensures ok { IfOk result (λ e. OnPeople (λ p p'. Births born p e p') (core_state S.table S.ids self.old) (core_state S.table S.ids self.new)) }
        ensures refused { IfErr result (CreateIsRefused (core_state S.table S.ids self.old).people) }
        ensures err { OnErr result (self.new ≡ self.old) }
    {
        self.parts.entities.alloc_mut().allocate()
    }

    // `bear`, and what holds of each state still does.
    #[inline(always)]
    pub(crate) fn bear_lawfully(&mut self) -> Result<Entity, CreateError>
        ensures storages { self.new.parts.storages ≡ self.old.parts.storages }
        ensures ok { IfOk result (λ e. OnPeople (λ p p'. Births born p e p') (core_state S.table S.ids self.old) (core_state S.table S.ids self.new)) }
        ensures living { OnOk result (KeepsLiving (core_state S.table S.ids self.old) (core_state S.table S.ids self.new)) }
        ensures goes_on { OnOk result (GoesOn (core_state S.table S.ids self.old) (core_state S.table S.ids self.new)) }
        ensures gone { OnOk result (KeepsGone (core_state S.table S.ids self.old).people (core_state S.table S.ids self.new).people) }
        ensures refused { IfErr result (CreateIsRefused (core_state S.table S.ids self.old).people) }
        ensures err { OnErr result (self.new ≡ self.old) }
    {
        let entity = self.bear()?;
        Ok(entity)
    }

    /// Entities that are born at once, as they are asked for. Ports `WorldExt::create_iter`.
    pub fn create_iter(&mut self) -> CreateIter<'_, S>
        ensures same_reference { (creating.lent_to result).ghost_name ≡ self.entry.ghost_name }
        ensures core { (creating.lent_to result).now ≡ self.old }
        ensures ended { creating.has_failed result ≡ false }
    {
        CreateIter {
            core: self,
            ended: false,
        }
    }

    // `EntityBuilder::with`, of the core and the entity that it held.
    #[inline(always)]
    pub(crate) fn build_with<T: Component + Drop, I>(
        &mut self,
        entity: Entity,
        component: T,
    ) -> Result<EntityBuilder<'_, S>, BuildError<T>>
    where
        S: Has<T, I>,
        T::Storage: UnprotectedStorage<T>,
        ensures* rests { sem 𝓛 (RestsMarkedAt S.row S.table S.ids self.entry entity result) }
        ensures same_reference { IfOk result (λ b. (lent_to b).ghost_name ≡ self.entry.ghost_name) }
        ensures entity { IfOk result (λ b. built b ≡ entity) }
        ensures ok { IfOk result (λ b. PutsAlone S.place entity (S.as_value component) (core_state S.table S.ids self.old) (building.shown S.table S.ids b)) }
        ensures living { IfOk result (λ b. KeepsLiving (core_state S.table S.ids self.old) (building.shown S.table S.ids b)) }
        ensures goes_on { IfOk result (λ b. GoesOn (core_state S.table S.ids self.old) (building.shown S.table S.ids b)) }
        ensures gone { IfOk result (λ b. KeepsGone (core_state S.table S.ids self.old).people (building.shown S.table S.ids b).people) }
        ensures refused { IfErr result (λ r. FieldInsertIsRefused (core_state S.table S.ids self.old).people (field_column (S.part self.old.parts.storages)) entity r.refusal) }
        ensures back { IfErr result (λ r. r.component ≡ component) }
    {
        put_or_mark(&mut self.parts, entity, component)?;
        Ok(EntityBuilder { core: self, entity })
    }
}

impl<S: Storages> Core<S> {
    // `EntityBuilder::marked`, of the core and the entity that it held.
    pub(crate) fn build_marked(
        &mut self,
        entity: Entity,
        slot: S::Slot,
    ) -> Result<EntityBuilder<'_, S>, MarkError>
        ensures* rests { sem 𝓛 (RestsMarkedAt S.row S.table S.ids self.entry entity result) }
        ensures same_reference { IfOk result (λ b. (lent_to b).ghost_name ≡ self.entry.ghost_name) }
        ensures entity { IfOk result (λ b. built b ≡ entity) }
        ensures ok { IfOk result (λ b. HasMarkerThen S.marks slot entity (core_state S.table S.ids self.old) (building.shown S.table S.ids b)) }
        ensures living { IfOk result (λ b. KeepsLiving (core_state S.table S.ids self.old) (building.shown S.table S.ids b)) }
        ensures goes_on { IfOk result (λ b. GoesOn (core_state S.table S.ids self.old) (building.shown S.table S.ids b)) }
        ensures gone { IfOk result (λ b. KeepsGone (core_state S.table S.ids self.old).people (building.shown S.table S.ids b).people) }
        ensures refused { IfErr result (GetsNoMarker S.marks (core_state S.table S.ids self.old) slot entity) }
    {
        give_marker(&mut self.parts, entity, slot)?;
        Ok(EntityBuilder { core: self, entity })
    }
}

// Marks an entity that is alive.
pub(crate) fn mark_if_alive(entities: &mut EntitiesRes, entity: Entity)
    ensures { MarkedIfAlive (population entities.old) entity (population entities.new) }
{
    let _ = entities.delete(entity);
}

// Puts a component at an entity, or marks the entity.
#[inline(always)]
fn put_or_mark<T: Component + Drop, S: Has<T, I>, I>(
    parts: &mut Parts<S>,
    entity: Entity,
    component: T,
) -> Result<(), BuildError<T>>
where
    T::Storage: UnprotectedStorage<T>,
    ensures ok { OnOk result (PutsAlone S.place entity (S.as_value component) (parts_state S.table S.ids parts.old) (parts_state S.table S.ids parts.new)) }
    ensures living { OnOk result (KeepsLiving (parts_state S.table S.ids parts.old) (parts_state S.table S.ids parts.new)) }
    ensures goes_on { OnOk result (GoesOn (parts_state S.table S.ids parts.old) (parts_state S.table S.ids parts.new)) }
    ensures gone { OnOk result (KeepsGone (parts_state S.table S.ids parts.old).people (parts_state S.table S.ids parts.new).people) }
    ensures err { OnErr result (MarksOne entity (parts_state S.table S.ids parts.old) (parts_state S.table S.ids parts.new)) }
    ensures refused { IfErr result (λ r. FieldInsertIsRefused (parts_state S.table S.ids parts.old).people (field_column (S.part parts.old.storages)) entity r.refusal) }
    ensures back { IfErr result (λ r. r.component ≡ component) }
{
    match by_type::insert(&mut parts.storages, &parts.entities, entity, component) {
        Ok(_before) => Ok(()),
        Err((refusal, component)) => {
            mark_if_alive(&mut parts.entities, entity);
            Err(BuildError { refusal, component })
        }
    }
}

// Gives an entity a marker, or marks the entity as one that dies.
#[tactic(auto, using(crate::proofs::Kept::living_labelled, crate::proofs::Kept::gone_labelled))]
fn give_marker<S: Storages>(
    parts: &mut Parts<S>,
    entity: Entity,
    slot: S::Slot,
) -> Result<(), MarkError>
    ensures ok { OnOk result (HasMarkerThen S.marks slot entity (parts_state S.table S.ids parts.old) (parts_state S.table S.ids parts.new)) }
    ensures living { OnOk result (KeepsLiving (parts_state S.table S.ids parts.old) (parts_state S.table S.ids parts.new)) }
    ensures goes_on { OnOk result (GoesOn (parts_state S.table S.ids parts.old) (parts_state S.table S.ids parts.new)) }
    ensures gone { OnOk result (KeepsGone (parts_state S.table S.ids parts.old).people (parts_state S.table S.ids parts.new).people) }
    ensures err { OnErr result (MarksOne entity (parts_state S.table S.ids parts.old) (parts_state S.table S.ids parts.new)) }
    ensures refused { IfErr result (GetsNoMarker S.marks (parts_state S.table S.ids parts.old) slot entity) }
{
    match parts.storages.mark(&parts.entities, slot, entity) {
        Ok(_given) => Ok(()),
        Err(refused) => {
            mark_if_alive(&mut parts.entities, entity);
            Err(refused)
        }
    }
}
