//! Births and deaths by the entities alone, without a world.
ghost use Rattle.std.specs.Prelude.{◌≡◌, true, false, IfOk};

use entities::{Allocator, CreateError, EntitiesRes, Entity, Index};

/// A list that names one entity twice is refused, and so nobody of it dies.
pub fn not_twice(allocator: &mut Allocator, entity: Entity) -> bool
    ensures refused { result ≡ false }
    ensures same { allocator.new ≡ allocator.old }
{
    allocator.kill([entity, entity].as_slice()).is_ok()
}

/// An entity that is built without components is alive.
pub fn built_bare(entities: &mut EntitiesRes) -> Result<bool, CreateError>
    ensures { IfOk result (λ alive. alive ≡ true) }
{
    let entity = entities.build_entity()?.build();
    Ok(entities.is_alive(entity))
}

/// An entity of an index and a generation has these.
pub fn made_of_its_parts(index: Index, generation: i32) -> bool
    ensures { result ≡ true }
{
    match Entity::from_parts(index, generation) {
        Some(entity) => entity.id() == index && entity.generation().id() == generation,
        None => generation == 0,
    }
}
