//! A world over components that own memory, each of which says by its own `Clone` what a clone of it is.
ghost use Rattle.specs.specs.Laws.Reached.{OnlyLiving};
ghost use Rattle.specs.specs.World.State.{state_of};

use crate::{boxes, cargos, counts, labels, names};
use composed::{
    Builder, CloneStorages, Command, Component, Core, Empty, Entity, Has, Held, Of5, Reply,
    UnprotectedStorage, World,
};
use std::alloc::{AllocError, Global};

/// A text, a list, a box, a counted box and a label, each in a storage of another kind.
pub type Store = Of5<
    names::InVec,
    cargos::InDenseVec,
    boxes::InFlagged,
    counts::InHashMap,
    labels::InBTree,
>;

/// A world over them.
pub type Ledger = World<Store>;

/// A new ledger, in which each component belongs to a living entity, since there is none.
pub fn ledger(alloc: Global) -> Ledger
    ensures { OnlyLiving (state_of ⟦<Store as Held>⟧.table ⟦<Store as Held>⟧.ids result) }
{
    begun(alloc)
}

fn begun<S: Empty>(alloc: Global) -> World<S>
    ensures { OnlyLiving (state_of S.table S.ids result) }
{
    World::new(alloc, S::empty(alloc))
}

/// An entity with a component of whichever type, in whichever world, or the component again.
pub fn called<T: Component<Storage: UnprotectedStorage<T>> + Drop, S: Has<T, I>, I>(
    core: &mut Core<S>,
    component: T,
) -> Result<Entity, T> {
    match core.create_entity() {
        Ok(builder) => match builder.with::<T, I>(component) {
            Ok(builder) => Ok(builder.build()),
            Err(refused) => Err(refused.component),
        },
        Err(_) => Err(component),
    }
}

/// Does commands, of which one may ask for a clone of a component.
pub fn told(
    ledger: &mut Ledger,
    commands: Vec<Command<Store>>,
) -> Result<Vec<Reply<<Store as Held>::Value>>, AllocError>
    requires { OnlyLiving (state_of ⟦<Store as Held>⟧.table ⟦<Store as Held>⟧.ids ledger.old) }
    ensures { OnlyLiving (state_of ⟦<Store as Held>⟧.table ⟦<Store as Held>⟧.ids ledger.new) }
{
    replies(ledger, commands)
}

fn replies<S: CloneStorages>(
    world: &mut World<S>,
    commands: Vec<Command<S>>,
) -> Result<Vec<Reply<S::Value>>, AllocError>
    requires { OnlyLiving (state_of S.table S.ids world.old) }
    ensures { OnlyLiving (state_of S.table S.ids world.new) }
{
    world.run(commands)
}
