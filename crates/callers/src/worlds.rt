//! Worlds.
ghost use Rattle.std.specs.Prelude.{◌≡◌, Some, None, true, IfOk};
ghost use Rattle.specs.specs.Slots.Column.{WantsNone};
ghost use Rattle.specs.specs.Laws.Gone.{IsGone};
ghost use Rattle.specs.specs.Laws.Reached.{OnlyLiving};
ghost use Rattle.specs.specs.World.State.{state_of};

use composed::{Both, Either, Empty, Only, Sole};
use script_slots::Position;
use specs::{
    CloneStorages, Command, DeleteError, EntitiesRes, Entity, Refusal, Reply, Storages, World,
    component,
};
use std::alloc::{AllocError, Global};

/// Whatever a new world is asked to do, each component belongs to a living entity.
pub fn lived<S: Empty + CloneStorages + Drop>(
    alloc: Global,
    commands: Vec<Command<S>>,
) -> Result<World<S>, AllocError>
    ensures { IfOk result (λ world. OnlyLiving (state_of S.table S.ids world)) }
{
    let mut world = World::new(alloc, S::empty(alloc));
    let _replies = world.run(commands)?;
    Ok(world)
}

/// A deleted entity is not alive, and has no component.
pub fn deleted_is_gone<S: CloneStorages>(
    world: &mut World<S>,
    slot: S::Slot,
    e: Entity,
) -> Result<(bool, Option<S::Value>), DeleteError>
    ensures alive { IfOk result (λ r. r.0 ≡ true → ⊥) }
    ensures found { IfOk result (λ r. r.1 ≡ None) }
{
    world.delete_entity(e)?;
    let alive = world.is_alive(e);
    match world.apply(Command::Get(slot, e)) {
        Reply::Value(found) => Ok((alive, found)),
        _ => Ok((alive, None)),
    }
}

/// Whether an entity that is gone is alive. It never is.
pub fn is_back<S: Storages>(world: &World<S>, e: Entity) -> bool
    requires { IsGone (state_of S.table S.ids world.now).people e }
    ensures { result ≡ true → ⊥ }
{
    world.is_alive(e)
}

/// Storages of positions, and of whatever else.
pub type Placed<B> = Both<Only<Position>, B>;

/// The position of an entity, if it is alive and has one. It is read without memory, since copies of positions take none.
pub fn position<B: CloneStorages>(world: &mut World<Placed<B>>, e: Entity) -> Option<Position> {
    match world.apply(Command::Get(Either::First(Sole::Sole), e)) {
        Reply::Value(Some(found)) => component::<Position, Placed<B>, _>(found).ok(),
        Reply::Value(None) | Reply::Refused(Refusal::Unregistered) => None,
        _ => unreachable!(),
    }
}

/// A new world, in which each component belongs to a living entity, since there is none.
pub fn new_world<S: Empty>(alloc: Global) -> World<S>
    ensures { OnlyLiving (state_of S.table S.ids result) }
{
    World::new(alloc, S::empty(alloc))
}

/// A removal of which nobody hears wants no memory.
pub fn removed_unheard<S: Storages>(
    storages: &mut S,
    entities: &EntitiesRes,
    slot: S::Slot,
    e: Entity,
) -> Option<S::Value>
    requires { WantsNone (S.table storages.old slot) }
{
    match storages.remove(entities, slot, e) {
        Ok(found) => found,
        Err(Refusal::Unregistered) => None,
        Err(_) => unreachable!(),
    }
}

/// Once everyone died nobody is alive.
pub fn is_alive_at_the_end<S: Storages>(world: &mut World<S>, e: Entity) -> Result<bool, AllocError>
    requires { OnlyLiving (state_of S.table S.ids world.old) }
    ensures { IfOk result (λ alive. alive ≡ true → ⊥) }
{
    world.delete_all()?;
    Ok(world.is_alive(e))
}
