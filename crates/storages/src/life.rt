//! Whether an entity is alive.
ghost use Rattle.std.specs.Prelude.{◌≡◌, true};
ghost use Rattle.entities.specs.Census.{population};
ghost use Rattle.entities.specs.Population.{index_of};
ghost use Rattle.storages.specs.Limit.{IsIndex};
ghost use Rattle.storages.specs.Life.{is_alive};

use entities::{EntitiesRes, Entity};

// Whether an entity is alive; then its index is below the limit.
#[inline(always)]
pub(crate) fn is_living(entities: &EntitiesRes, entity: Entity) -> bool
    ensures alive { result ≡ is_alive (population entities.now) entity }
    ensures limit { result ≡ true → IsIndex (index_of entity) }
{
    entities.is_alive(entity)
}
