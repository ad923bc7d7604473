//! A builder of one entity.
ghost use Rattle.std.specs.Prelude.{◌≡◌, ◌<◌, IfOk};
ghost use Rattle.hibits.specs.declared.limits.TheConstants.{INDEX_LIMIT};
ghost use Rattle.std.specs.Borrow.{sem};
ghost use Rattle.entities.specs.Population.{IsAlive, MarkedIfAlive, index_of};
ghost use Rattle.entities.specs.Census.{population};

use crate::entities_res::EntitiesRes;
use crate::entity::Entity;

/// A builder of an entity that was made. Dropped unbuilt, it marks the entity if it lives, in room got when the entity was made.
///
/// Ports `specs::world::EntityResBuilder`.
pub struct EntityResBuilder<'a> {
    pub(crate) entities: &'a mut EntitiesRes,
    pub(crate) entity: Entity,
    ghost lives: { IsAlive (population entities.now) entity },
    ghost below: { index_of entity < INDEX_LIMIT },
}

impl<'a> EntityResBuilder<'a> {
    ghost use Rattle.entities.specs.Lending.{lent_to_builder, entity_built, KeptRests, err_of};

    /// The entity being built. It lives.
    pub fn entity(&self) -> Entity
        ensures entity { result ≡ entity_built self.now }
        ensures alive { IsAlive (population (lent_to_builder self.now).now) (entity_built self.now) }
        ensures below { index_of (entity_built self.now) < INDEX_LIMIT }
    {
        self.entity
    }

    /// The entities, of which it is one.
    pub fn entities(&self) -> &EntitiesRes
        ensures { result.now ≡ (lent_to_builder self.now).now }
    {
        self.entities
    }

    /// The entity, which then is as it is: nothing marks it.
    ///
    /// Ports `EntityResBuilder::build`.
    pub fn build(self) -> Entity
        ensures entity { result ≡ entity_built self.entry }
        ensures entities { self.exit.0.now ≡ (lent_to_builder self.entry).now }
    {
        let EntityResBuilder {
            entities: _,
            entity,
        } = self;
        entity
    }

    /// The builder again, unless the outcome is an error: then its entity is marked, as where it is dropped.
    pub fn kept_if<E>(self, outcome: Result<(), E>) -> Result<Self, E>
        ensures* rests { sem 𝓛 (KeptRests self.entry result) }
        ensures same_reference { IfOk result (λ b. (lent_to_builder b).ghost_name ≡ (lent_to_builder self.entry).ghost_name) }
        ensures entity { IfOk result (λ b. entity_built b ≡ entity_built self.entry) }
        ensures entities { IfOk result (λ b. (lent_to_builder b).now ≡ (lent_to_builder self.entry).now) }
        ensures outcome { err_of result ≡ err_of outcome }
    {
        let EntityResBuilder { entities, entity } = self;
        match outcome {
            Ok(()) => Ok(EntityResBuilder { entities, entity }),
            Err(e) => {
                let _marked = entities.delete(entity);
                Err(e)
            }
        }
    }
}

impl Drop for EntityResBuilder<'_> {
    ghost use Rattle.entities.specs.Lending.{lent_to_builder, entity_built};

    fn drop(self)
        ensures marked { MarkedIfAlive (population (lent_to_builder self.entry).now) (entity_built self.entry) (population self.exit.0.now) }
        ensures room { self.exit.0.now.room ≡ (lent_to_builder self.entry).now.room }
    {
        let EntityResBuilder { entities, entity } = self;
        let _ = entities.delete(entity);
    }
}
