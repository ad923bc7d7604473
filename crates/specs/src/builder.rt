//! A builder of one entity of a core.
ghost use Rattle.std.specs.Prelude.{◌≡◌, Some, IfOk, IfErr};
ghost use Rattle.std.specs.Borrow.{sem};
ghost use Rattle.specs.specs.Builder.Building.{lent_to, built, shown, RestsMarked, MaybePuts, PutsAlone};
ghost use Rattle.specs.specs.Typed.Field.{FieldInsertIsRefused, field_column};
ghost use Rattle.specs.specs.Laws.Going.{GoesOn};
ghost use Rattle.specs.specs.Laws.Gone.{KeepsGone};
ghost use Rattle.specs.specs.World.Marking.{HasMarkerThen, GetsNoMarker};
ghost use Rattle.specs.specs.Laws.Reached.{KeepsLiving};

mod building;
mod create_iter;
mod lazy_builder;

use crate::command::Refusal;
use crate::slots::{Held, Storages};
use crate::typed::{Field, Has};
use crate::world::Core;
use building::mark_if_alive;
pub use create_iter::CreateIter;
use entities::Entity;
pub use lazy_builder::LazyBuilder;
use saveload::MarkError;
use std::fmt::Debug;
use std::{error, fmt};
use storages::{Component, UnprotectedStorage};

/// Why a builder did not give a component, with the component. Its entity is marked, if it is alive.
#[derive(Debug, Drop)]
pub struct BuildError<T> {
    /// Why the component was refused.
    pub refusal: Refusal,
    /// The component.
    pub component: T,
}

/// It is written as its refusal.
impl<T> fmt::Display for BuildError<T> {
    ghost output = { λ e. ⟦<Refusal as fmt::Display>⟧.output e.refusal };

    fn fmt<W: fmt::Write>(&self, f: &mut fmt::Formatter<W>) -> fmt::Result {
        let refusal = &self.refusal;
        write!(f, "{refusal}")
    }
}

impl<T: Debug + Drop> error::Error for BuildError<T> {}

/// Puts components at an entity that is being built. Ports `specs::Builder`.
pub trait Builder<S: Held>: Sized {
    /// The builder again, once the component is at its entity. A refused call drops the builder, and hands the component back.
    fn with<T: Component + Drop, I>(self, component: T) -> Result<Self, BuildError<T>>
    where
        S: Has<T, I>,
        T::Storage: UnprotectedStorage<T>;

    /// The same for a component that is there, and without one the builder again.
    fn maybe_with<T: Component + Drop, I>(self, component: Option<T>) -> Result<Self, BuildError<T>>
    where
        S: Has<T, I>,
        T::Storage: UnprotectedStorage<T>;

    /// The entity, which then is as it is: nothing marks it.
    fn build(self) -> Entity;
}

/// Gives a marker to an entity that is being built. Ports `specs::saveload::MarkedBuilder`.
pub trait MarkedBuilder<S: Held>: Sized {
    /// Why there is none.
    type Refused: Drop;

    /// The builder again, once its entity has a marker in a slot of markers, a new one or the one that it had, or one is queued for it. A refused
    /// call drops the builder, so that the entity is marked as one that dies.
    fn marked(self, slot: S::Slot) -> Result<Self, Self::Refused>;
}

/// A builder of an entity that was born. Dropped unbuilt, it marks the entity if it is alive, in room got when the entity was made.
/// Ports `specs::world::EntityBuilder`.
pub struct EntityBuilder<'a, S: Held> {
    pub(crate) core: &'a mut Core<S>,
    pub(crate) entity: Entity,
}

impl<S: Held> Drop for EntityBuilder<'_, S> {
    ghost use Rattle.specs.specs.Builder.Building.{lent_to, built, IsDropped, MarksOne};
    ghost use Rattle.specs.specs.World.State.{core_state};

    fn drop(self)
        ensures dropped { IsDropped (lent_to self.entry).now (built self.entry) self.exit.0.now }
        ensures lasts { MarksOne (built self.entry) (core_state S.table S.ids (lent_to self.entry).now) (core_state S.table S.ids self.exit.0.now) }
    {
        let EntityBuilder { core, entity } = self;
        mark_if_alive(&mut core.parts.entities, entity);
    }
}

impl<'a, S: Held> EntityBuilder<'a, S> {
    /// The entity that is being built.
    pub fn entity(&self) -> Entity
        ensures { result ≡ built self.now }
    {
        self.entity
    }
}

impl<'a, S: Held> Builder<S> for EntityBuilder<'a, S> {
    #[inline(always)]
    fn with<T: Component + Drop, I>(self, component: T) -> Result<Self, BuildError<T>>
    where
        S: Has<T, I>,
        T::Storage: UnprotectedStorage<T>,
        ensures* rests { sem 𝓛 (RestsMarked S.row S.table S.ids self.entry result) }
        ensures same_reference { IfOk result (λ b. (lent_to b).ghost_name ≡ (lent_to self.entry).ghost_name) }
        ensures entity { IfOk result (λ b. built b ≡ built self.entry) }
        ensures ok { IfOk result (λ b. PutsAlone S.place (built self.entry) (S.as_value component) (shown S.table S.ids self.entry) (shown S.table S.ids b)) }
        ensures living { IfOk result (λ b. KeepsLiving (shown S.table S.ids self.entry) (shown S.table S.ids b)) }
        ensures goes_on { IfOk result (λ b. GoesOn (shown S.table S.ids self.entry) (shown S.table S.ids b)) }
        ensures gone { IfOk result (λ b. KeepsGone (shown S.table S.ids self.entry).people (shown S.table S.ids b).people) }
        ensures refused { IfErr result (λ r. FieldInsertIsRefused (shown S.table S.ids self.entry).people
            (field_column (S.part (lent_to self.entry).now.parts.storages)) (built self.entry) r.refusal) }
        ensures back { IfErr result (λ r. r.component ≡ component) }
    {
        let EntityBuilder { core, entity } = self;
        core.build_with(entity, component)
    }

    fn maybe_with<T: Component + Drop, I>(self, component: Option<T>) -> Result<Self, BuildError<T>>
    where
        S: Has<T, I>,
        T::Storage: UnprotectedStorage<T>,
        ensures* rests { sem 𝓛 (RestsMarked S.row S.table S.ids self.entry result) }
        ensures same_reference { IfOk result (λ b. (lent_to b).ghost_name ≡ (lent_to self.entry).ghost_name) }
        ensures entity { IfOk result (λ b. built b ≡ built self.entry) }
        ensures ok { IfOk result (λ b. MaybePuts S.place S.as_value (built self.entry) component (shown S.table S.ids self.entry) (shown S.table S.ids b)) }
        ensures living { IfOk result (λ b. KeepsLiving (shown S.table S.ids self.entry) (shown S.table S.ids b)) }
        ensures goes_on { IfOk result (λ b. GoesOn (shown S.table S.ids self.entry) (shown S.table S.ids b)) }
        ensures gone { IfOk result (λ b. KeepsGone (shown S.table S.ids self.entry).people (shown S.table S.ids b).people) }
        ensures refused { IfErr result (λ r. FieldInsertIsRefused (shown S.table S.ids self.entry).people
            (field_column (S.part (lent_to self.entry).now.parts.storages)) (built self.entry) r.refusal) }
        ensures back { IfErr result (λ r. component ≡ Some r.component) }
    {
        let EntityBuilder { core, entity } = self;
        match component {
            Some(component) => core.build_with(entity, component),
            None => Ok(EntityBuilder { core, entity }),
        }
    }

    #[inline(always)]
    fn build(self) -> Entity
        ensures entity { result ≡ built self.entry }
        ensures core { self.exit.0.now ≡ (lent_to self.entry).now }
    {
        let EntityBuilder { core: _, entity } = self;
        entity
    }
}

impl<'a, S: Storages> MarkedBuilder<S> for EntityBuilder<'a, S> {
    type Refused = MarkError;

    fn marked(self, slot: S::Slot) -> Result<Self, MarkError>
        ensures* rests { sem 𝓛 (RestsMarked S.row S.table S.ids self.entry result) }
        ensures same_reference { IfOk result (λ b. (lent_to b).ghost_name ≡ (lent_to self.entry).ghost_name) }
        ensures entity { IfOk result (λ b. built b ≡ built self.entry) }
        ensures ok { IfOk result (λ b. HasMarkerThen S.marks slot (built self.entry) (shown S.table S.ids self.entry) (shown S.table S.ids b)) }
        ensures living { IfOk result (λ b. KeepsLiving (shown S.table S.ids self.entry) (shown S.table S.ids b)) }
        ensures goes_on { IfOk result (λ b. GoesOn (shown S.table S.ids self.entry) (shown S.table S.ids b)) }
        ensures gone { IfOk result (λ b. KeepsGone (shown S.table S.ids self.entry).people (shown S.table S.ids b).people) }
        ensures refused { IfErr result (GetsNoMarker S.marks (shown S.table S.ids self.entry) slot (built self.entry)) }
    {
        let EntityBuilder { core, entity } = self;
        core.build_marked(entity, slot)
    }
}
