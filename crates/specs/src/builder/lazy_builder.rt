//! A builder of an entity whose components are queued.
ghost use Rattle.std.specs.Prelude.{◌≡◌, [], ◌∷◌, ◌++◌, Some, IfOk, IfErr, OnOk, OnErr};
ghost use Rattle.std.specs.Option.{option_map, option_to_list};
ghost use Rattle.std.specs.Borrow.{sem};
ghost use Rattle.entities.specs.Population.{born_pending};
ghost use Rattle.specs.specs.Laws.Gone.{KeepsGone};
ghost use Rattle.specs.specs.Builder.LazyBuilding.{lent_to, built, shown, waiting, RestsUnborn, RestsMarked, RestsMarkedAt, Marked};
ghost use Rattle.specs.specs.World.People.{Births};
ghost use Rattle.specs.specs.Job.Queue.{queued};
ghost use Rattle.specs.specs.Laws.Reached.{KeepsLiving};
ghost use Rattle.specs.specs.World.Refused.{CreateIsRefused};
ghost use Rattle.specs.specs.World.State.{core_state, OnPeople};
ghost use Rattle.specs.specs.declared.job.Job.TheVariants.{Insert, Mark};

use crate::builder::building::mark_if_alive;
use crate::builder::{BuildError, Builder, MarkedBuilder};
use crate::command::Refusal;
use crate::job::Job;
use crate::slots::Held;
use crate::typed::Has;
use crate::world::WorldParts;
use entities::{CreateError, Entity};
use std::alloc::AllocFailed;
use storages::{Component, UnprotectedStorage};

/// A builder of an entity whose birth is pending; its components are queued. Dropped unbuilt, it marks the entity if it is alive. It borrows the
/// world's parts, from which queue and entities come. Ports `specs::world::LazyBuilder`.
pub struct LazyBuilder<'a, S: Held, J: Drop> {
    pub(crate) parts: &'a mut WorldParts<S, J>,
    pub(crate) entity: Entity,
}

impl<S: Held, J: Drop> WorldParts<S, J> {
    /// A birth that is pending, with a builder that queues what the entity gets. Ports `LazyUpdate::create_entity`.
    pub fn create_entity(&mut self) -> Result<LazyBuilder<'_, S, J>, CreateError>
        ensures* rests { sem 𝓛 (RestsUnborn S.row J.row S.Slot.row S.Value.row self.entry result) }
        ensures same_reference { IfOk result (λ b. (lent_to b).ghost_name ≡ self.entry.ghost_name) }
        ensures ok { IfOk result (λ b. OnPeople (λ p p'. Births born_pending p (built b) p') (core_state S.table S.ids self.old.core) (shown S.table S.ids b)) }
        ensures living { IfOk result (λ b. KeepsLiving (core_state S.table S.ids self.old.core) (shown S.table S.ids b)) }
        ensures gone { IfOk result (λ b. KeepsGone (core_state S.table S.ids self.old.core).people (shown S.table S.ids b).people) }
        ensures queue { IfOk result (λ b. waiting b ≡ queued self.old.lazy) }
        ensures refused { IfErr result (CreateIsRefused (core_state S.table S.ids self.old.core).people) }
    {
        let entity = self.bear_lawfully()?;
        Ok(LazyBuilder {
            parts: self,
            entity,
        })
    }

    // A birth that is pending.
    fn bear(&mut self) -> Result<Entity, CreateError>
        ensures ok { IfOk result (λ e. OnPeople (λ p p'. Births born_pending p e p') (core_state S.table S.ids self.old.core) (core_state S.table S.ids self.new.core)) }
        ensures queue { queued self.new.lazy ≡ queued self.old.lazy }
        ensures refused { IfErr result (CreateIsRefused (core_state S.table S.ids self.old.core).people) }
        ensures err { OnErr result (self.new ≡ self.old) }
    {
        self.core.parts.entities.create()
    }

    // `bear`, and what holds of each state still does.
    fn bear_lawfully(&mut self) -> Result<Entity, CreateError>
        ensures ok { IfOk result (λ e. OnPeople (λ p p'. Births born_pending p e p') (core_state S.table S.ids self.old.core) (core_state S.table S.ids self.new.core)) }
        ensures living { OnOk result (KeepsLiving (core_state S.table S.ids self.old.core) (core_state S.table S.ids self.new.core)) }
        ensures gone { OnOk result (KeepsGone (core_state S.table S.ids self.old.core).people (core_state S.table S.ids self.new.core).people) }
        ensures queue { queued self.new.lazy ≡ queued self.old.lazy }
        ensures refused { IfErr result (CreateIsRefused (core_state S.table S.ids self.old.core).people) }
        ensures err { OnErr result (self.new ≡ self.old) }
    {
        let entity = self.bear()?;
        Ok(entity)
    }

    // A job more for an entity that is being built, or none, and the entity is marked.
    fn build_with(
        &mut self,
        entity: Entity,
        job: Job<S, J>,
    ) -> Result<LazyBuilder<'_, S, J>, AllocFailed<Job<S, J>>>
        ensures* rests { sem 𝓛 (RestsMarkedAt S.row J.row S.Slot.row S.Value.row S.table S.ids self.entry entity result) }
        ensures same_reference { IfOk result (λ b. (lent_to b).ghost_name ≡ self.entry.ghost_name) }
        ensures entity { IfOk result (λ b. built b ≡ entity) }
        ensures core { IfOk result (λ b. shown S.table S.ids b ≡ core_state S.table S.ids self.old.core) }
        ensures queue { IfOk result (λ b. waiting b ≡ queued self.old.lazy ++ job ∷ []) }
        ensures back { IfErr result (λ r. r.value ≡ job) }
    {
        push_or_mark(self, entity, job)?;
        Ok(LazyBuilder {
            parts: self,
            entity,
        })
    }

    // `LazyBuilder::with`, of the parts and the entity that it held.
    fn build_component<T: Component + Drop, I>(
        &mut self,
        entity: Entity,
        component: T,
    ) -> Result<LazyBuilder<'_, S, J>, BuildError<T>>
    where
        S: Has<T, I>,
        ensures* rests { sem 𝓛 (RestsMarkedAt S.row J.row S.Slot.row S.Value.row S.table S.ids self.entry entity result) }
        ensures same_reference { IfOk result (λ b. (lent_to b).ghost_name ≡ self.entry.ghost_name) }
        ensures entity { IfOk result (λ b. built b ≡ entity) }
        ensures core { IfOk result (λ b. shown S.table S.ids b ≡ core_state S.table S.ids self.old.core) }
        ensures queue { IfOk result (λ b. waiting b ≡ queued self.old.lazy ++ Insert entity (S.as_value component) ∷ []) }
        ensures refused { IfErr result (λ r. r.refusal ≡ Refusal.OutOfMemory) }
        ensures back { IfErr result (λ r. r.component ≡ component) }
    {
        push_component(self, entity, component)?;
        Ok(LazyBuilder {
            parts: self,
            entity,
        })
    }
}

// Queues a component of an entity, or marks the entity.
fn push_component<T: Component + Drop, S: Has<T, I>, J: Drop, I>(
    parts: &mut WorldParts<S, J>,
    entity: Entity,
    component: T,
) -> Result<(), BuildError<T>>
    ensures core { OnOk result (core_state S.table S.ids parts.new.core ≡ core_state S.table S.ids parts.old.core) }
    ensures queue { OnOk result (queued parts.new.lazy ≡ queued parts.old.lazy ++ Insert entity (S.as_value component) ∷ []) }
    ensures err { OnErr result (Marked S.table S.ids entity parts.old parts.new) }
    ensures refused { IfErr result (λ r. r.refusal ≡ Refusal.OutOfMemory) }
    ensures back { IfErr result (λ r. r.component ≡ component) }
{
    match push_or_mark(parts, entity, Job::Insert(entity, S::value(component))) {
        Ok(()) => Ok(()),
        Err(
            AllocFailed {
                value: Job::Insert(_, value),
            },
        ) => match S::component(value) {
            Ok(component) => Err(BuildError {
                refusal: Refusal::OutOfMemory,
                component,
            }),
            Err(_) => unreachable!(),
        },
        Err(_) => unreachable!(),
    }
}

// Queues a job, or marks the entity that it is for.
fn push_or_mark<S: Held, J: Drop>(
    parts: &mut WorldParts<S, J>,
    entity: Entity,
    job: Job<S, J>,
) -> Result<(), AllocFailed<Job<S, J>>>
    ensures core { OnOk result (core_state S.table S.ids parts.new.core ≡ core_state S.table S.ids parts.old.core) }
    ensures queue { OnOk result (queued parts.new.lazy ≡ queued parts.old.lazy ++ job ∷ []) }
    ensures err { OnErr result (Marked S.table S.ids entity parts.old parts.new) }
    ensures back { IfErr result (λ r. r.value ≡ job) }
{
    match parts.lazy.push(job) {
        Ok(()) => Ok(()),
        Err(refused) => {
            mark_if_alive(&mut parts.core.parts.entities, entity);
            Err(refused)
        }
    }
}

impl<S: Held, J: Drop> Drop for LazyBuilder<'_, S, J> {
    ghost use Rattle.specs.specs.Builder.LazyBuilding.{lent_to, built, Marked};

    fn drop(self)
        ensures { Marked S.table S.ids (built self.entry) (lent_to self.entry).now self.exit.0.now }
    {
        let LazyBuilder { parts, entity } = self;
        mark_if_alive(&mut parts.core.parts.entities, entity);
    }
}

impl<'a, S: Held, J: Drop> LazyBuilder<'a, S, J> {
    /// The entity that is being built.
    pub fn entity(&self) -> Entity
        ensures { result ≡ built self.now }
    {
        self.entity
    }

    /// Queues a component that is a value of the world's. A refused call drops the builder, and hands the component back in its job.
    pub fn with_value(self, value: S::Value) -> Result<Self, AllocFailed<Job<S, J>>>
        ensures* rests { sem 𝓛 (RestsMarked S.row J.row S.Slot.row S.Value.row S.table S.ids self.entry result) }
        ensures same_reference { IfOk result (λ b. (lent_to b).ghost_name ≡ (lent_to self.entry).ghost_name) }
        ensures entity { IfOk result (λ b. built b ≡ built self.entry) }
        ensures core { IfOk result (λ b. shown S.table S.ids b ≡ shown S.table S.ids self.entry) }
        ensures queue { IfOk result (λ b. waiting b ≡ waiting self.entry ++ Insert (built self.entry) value ∷ []) }
        ensures back { IfErr result (λ r. r.value ≡ Insert (built self.entry) value) }
    {
        let LazyBuilder { parts, entity } = self;
        parts.build_with(entity, Job::Insert(entity, value))
    }
}

impl<'a, S: Held, J: Drop> Builder<S> for LazyBuilder<'a, S, J> {
    fn with<T: Component + Drop, I>(self, component: T) -> Result<Self, BuildError<T>>
    where
        S: Has<T, I>,
        T::Storage: UnprotectedStorage<T>,
        ensures* rests { sem 𝓛 (RestsMarked S.row J.row S.Slot.row S.Value.row S.table S.ids self.entry result) }
        ensures same_reference { IfOk result (λ b. (lent_to b).ghost_name ≡ (lent_to self.entry).ghost_name) }
        ensures entity { IfOk result (λ b. built b ≡ built self.entry) }
        ensures core { IfOk result (λ b. shown S.table S.ids b ≡ shown S.table S.ids self.entry) }
        ensures queue { IfOk result (λ b. waiting b ≡ waiting self.entry ++ Insert (built self.entry) (S.as_value component) ∷ []) }
        ensures refused { IfErr result (λ r. r.refusal ≡ Refusal.OutOfMemory) }
        ensures back { IfErr result (λ r. r.component ≡ component) }
    {
        let LazyBuilder { parts, entity } = self;
        parts.build_component(entity, component)
    }

    fn maybe_with<T: Component + Drop, I>(self, component: Option<T>) -> Result<Self, BuildError<T>>
    where
        S: Has<T, I>,
        T::Storage: UnprotectedStorage<T>,
        ensures* rests { sem 𝓛 (RestsMarked S.row J.row S.Slot.row S.Value.row S.table S.ids self.entry result) }
        ensures same_reference { IfOk result (λ b. (lent_to b).ghost_name ≡ (lent_to self.entry).ghost_name) }
        ensures entity { IfOk result (λ b. built b ≡ built self.entry) }
        ensures core { IfOk result (λ b. shown S.table S.ids b ≡ shown S.table S.ids self.entry) }
        ensures queue { IfOk result (λ b. waiting b ≡ waiting self.entry ++ option_to_list (option_map (λ t. Insert (built self.entry) (S.as_value t)) component)) }
        ensures refused { IfErr result (λ r. r.refusal ≡ Refusal.OutOfMemory) }
        ensures back { IfErr result (λ r. component ≡ Some r.component) }
    {
        let LazyBuilder { parts, entity } = self;
        match component {
            Some(component) => parts.build_component(entity, component),
            None => Ok(LazyBuilder { parts, entity }),
        }
    }

    /// The entity, which then is as it is: nothing marks it.
    fn build(self) -> Entity
        ensures entity { result ≡ built self.entry }
        ensures parts { self.exit.0.now ≡ (lent_to self.entry).now }
    {
        let LazyBuilder { parts: _, entity } = self;
        entity
    }
}

impl<'a, S: Held, J: Drop> MarkedBuilder<S> for LazyBuilder<'a, S, J>
where
    S::Slot: Drop,
    S::Value: Drop,
{
    type Refused = AllocFailed<Job<S, J>>;

    fn marked(self, slot: S::Slot) -> Result<Self, AllocFailed<Job<S, J>>>
        ensures* rests { sem 𝓛 (RestsMarked S.row J.row S.Slot.row S.Value.row S.table S.ids self.entry result) }
        ensures same_reference { IfOk result (λ b. (lent_to b).ghost_name ≡ (lent_to self.entry).ghost_name) }
        ensures entity { IfOk result (λ b. built b ≡ built self.entry) }
        ensures core { IfOk result (λ b. shown S.table S.ids b ≡ shown S.table S.ids self.entry) }
        ensures queue { IfOk result (λ b. waiting b ≡ waiting self.entry ++ Mark slot (built self.entry) ∷ []) }
        ensures back { IfErr result (λ r. r.value ≡ Mark slot (built self.entry)) }
    {
        let LazyBuilder { parts, entity } = self;
        parts.build_with(entity, Job::Mark(slot, entity))
    }
}
