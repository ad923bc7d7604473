//! Components for an entity that is being built.
ghost use Rattle.std.specs.Prelude.{◌≡◌, IfOk, IfErr, OnOk, OnErr, IsOk, IsSome};
ghost use Rattle.std.specs.Borrow.{sem};
ghost use Rattle.std.specs.FinMap as map;
ghost use Rattle.entities.specs.Lending.{lent_to_builder, entity_built, KeptRests};
ghost use Rattle.entities.specs.Population.{index_of};
ghost use Rattle.entities.specs.declared.entity.Entity.{Entity};
ghost use Rattle.storages.specs.Meaning.{HasRoom};
ghost use Rattle.storages.specs.Slot.{IsSame, Puts};

use crate::masked::MaskedStorage;
use crate::unprotected::{Component, UnprotectedStorage};
use entities::EntityResBuilder;
use std::alloc::AllocError;

/// Puts a component at the entity that a builder builds.
pub trait WithComponent: Sized {
    // The entity that is being built.
    ghost built: { Self → Entity };

    /// The builder again, once the component is at its entity. Where memory is refused the storage is as before, the
    /// builder is dropped, which marks its entity, and the component is handed back.
    ///
    /// Ports `specs::world::EntityResBuilder::with`.
    fn with<T: Component + Drop>(
        self,
        masked: &mut MaskedStorage<T>,
        component: T,
    ) -> Result<Self, (AllocError, T)>
    where
        T::Storage: UnprotectedStorage<T>,
        ensures entity { IfOk result (λ b. built b ≡ built self) }
        ensures ok { OnOk result (Puts masked.old masked.new (index_of (built self)) component (map.contains_key masked.old.map (index_of (built self)))) }
        ensures err { OnErr result (IsSame masked.old masked.new) }
        ensures refused { IfErr result (λ e. e.1 ≡ component) }
        ensures succeeds { IsSome (map.get masked.old.map (index_of (built self))) → HasRoom masked.old.room 1 → IsOk result };
}

impl<'a> WithComponent for EntityResBuilder<'a> {
    ghost built = { λ b. entity_built b };

    fn with<T: Component + Drop>(
        self,
        masked: &mut MaskedStorage<T>,
        component: T,
    ) -> Result<Self, (AllocError, T)>
    where
        T::Storage: UnprotectedStorage<T>,
        ensures* rests { sem 𝓛 (KeptRests self.entry result) }
        ensures same_reference { IfOk result (λ b. (lent_to_builder b).ghost_name ≡ (lent_to_builder self.entry).ghost_name) }
        ensures entity { IfOk result (λ b. entity_built b ≡ entity_built self.entry) }
        ensures entities { IfOk result (λ b. (lent_to_builder b).now ≡ (lent_to_builder self.entry).now) }
        ensures ok { OnOk result (Puts masked.old masked.new (index_of (entity_built self.entry)) component (map.contains_key masked.old.map (index_of (entity_built self.entry)))) }
        ensures err { OnErr result (IsSame masked.old masked.new) }
        ensures refused { IfErr result (λ e. e.1 ≡ component) }
        ensures succeeds { IsSome (map.get masked.old.map (index_of (entity_built self.entry))) → HasRoom masked.old.room 1 → IsOk result }
    {
        let outcome = put_at(&self, masked, component);
        self.kept_if(outcome)
    }
}

// Puts a component at the entity that is being built.
fn put_at<T: Component + Drop>(
    builder: &EntityResBuilder<'_>,
    masked: &mut MaskedStorage<T>,
    component: T,
) -> Result<(), (AllocError, T)>
where
    T::Storage: UnprotectedStorage<T>,
    ensures ok { OnOk result (Puts masked.old masked.new (index_of (entity_built builder.now)) component (map.contains_key masked.old.map (index_of (entity_built builder.now)))) }
    ensures err { OnErr result (IsSame masked.old masked.new) }
    ensures refused { IfErr result (λ e. e.1 ≡ component) }
    ensures succeeds { IsSome (map.get masked.old.map (index_of (entity_built builder.now))) → HasRoom masked.old.room 1 → IsOk result }
{
    match masked.put(builder.entity().id(), component) {
        Ok(_before) => Ok(()),
        Err(e) => Err(e),
    }
}
