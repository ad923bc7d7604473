//! What an ordinary caller learns of a world, without a proof file.
ghost use Rattle.std.specs.Prelude.{◌≡◌, true};
ghost use Rattle.entities.specs.Population.{IsMerged};
ghost use Rattle.specs.specs.World.State.{state_of};

use specs::{Entity, Storages, World};
use std::alloc::Global;

/// Whether an entity is gone, or not yet merged.
pub fn is_gone<S: Storages>(world: &World<S>, e: Entity) -> bool
    ensures { result ≡ true → IsMerged (state_of S.table S.ids world.now).people e → ⊥ }
{
    !world.is_alive(e)
}

/// A phase of one entity and one pass over the entities of a world, which marks an entity. It answers the entity that the pass was given,
/// whose birth is pending, if it was given one and the mark was made.
pub fn born_in_a_phase<S: Storages>(
    alloc: Global,
    world: &mut World<S>,
    doomed: Entity,
) -> Option<Entity> {
    let mut given = None;
    if let Ok((shared, mut passes)) = world.parts().core.parts().entities.open(alloc, 1, 1) {
        if let Some(mut pass) = passes.pop() {
            let born = shared.create(&mut pass).ok();
            if shared.delete(&mut pass, doomed).is_ok() {
                given = born;
            }
        }
        let _ = shared.close(passes);
    }
    given
}
