//! Storages of cores and worlds by component types, and builders.
ghost use Rattle.std.specs.Prelude.{◌≡◌, true, MatchOption, IfOk, OnErr};
ghost use Rattle.entities.specs.Population.{born, IsMerged};
ghost use Rattle.specs.specs.World.People.{Births};
ghost use Rattle.specs.specs.World.State.{core_state, state_of};

use specs::{Builder, Core, Entity, Has, Storages, Unregistered, World};
use std::alloc::AllocError;
use storages::{Component, UnprotectedStorage};

/// A component that was written through a view is found through it.
#[tactic(auto, using(specs::specs::Typed::Finds::found_put))]
pub fn written_and_found<T: Component<Storage: UnprotectedStorage<T>> + Copy, S: Has<T, I>, I>(
    core: &mut Core<S>,
    e: Entity,
    component: T,
) -> Result<Option<T>, Unregistered>
    ensures found { IfOk result (λ found. MatchOption found (Unit {0}) (λ x. x ≡ component)) }
    ensures people { (core_state S.table S.ids core.new).people ≡ (core_state S.table S.ids core.old).people }
    ensures err { OnErr result (core.new ≡ core.old) }
{
    let mut view = core.write_storage::<T, I>()?;
    match view.insert(e, component) {
        Ok(_before) => Ok(view.get(e).copied()),
        Err(_refused) => Ok(None),
    }
}

/// Through a view nobody is born or dies.
pub fn two_written<T: Component<Storage: UnprotectedStorage<T>> + Drop, S: Has<T, I>, I>(
    core: &mut Core<S>,
    e: Entity,
    f: Entity,
    x: T,
    y: T,
) -> Result<(), Unregistered>
    ensures entities { core.new.parts.entities ≡ core.old.parts.entities }
    ensures err { OnErr result (core.new ≡ core.old) }
{
    let mut view = core.write_storage::<T, I>()?;
    let _ = view.insert(e, x);
    let _ = view.remove(e);
    let _ = view.insert(f, y);
    Ok(())
}

/// The same in a world, whose core is passed on.
pub fn written_in_world<T: Component<Storage: UnprotectedStorage<T>> + Drop, S: Has<T, I>, I>(
    world: &mut World<S>,
    e: Entity,
    f: Entity,
    x: T,
    y: T,
) -> Result<(), Unregistered>
    ensures people { (state_of S.table S.ids world.new).people ≡ (state_of S.table S.ids world.old).people }
    ensures err { OnErr result (world.new ≡ world.old) }
{
    two_written(&mut **world, e, f, x, y)
}

/// A component that is written in its place is the one found there, and the core's entities stay.
pub fn overwritten<T: Component<Storage: UnprotectedStorage<T>> + Drop, S: Has<T, I>, I>(
    core: &mut Core<S>,
    e: Entity,
    component: T,
) -> Result<bool, Unregistered>
    ensures entities { core.new.parts.entities ≡ core.old.parts.entities }
    ensures err { OnErr result (core.new ≡ core.old) }
{
    let mut view = core.write_storage::<T, I>()?;
    match view.get_mut(e) {
        Ok(place) => {
            *place = component;
            Ok(true)
        }
        Err(_) => Ok(false),
    }
}

/// An entity that is built with a component is a birth.
pub fn built_with<T: Component<Storage: UnprotectedStorage<T>> + Drop, S: Has<T, I>, I>(
    core: &mut Core<S>,
    component: T,
) -> Option<Entity>
    ensures { MatchOption result (Unit {0}) (λ e. Births born (core_state S.table S.ids core.old).people e (core_state S.table S.ids core.new).people) }
{
    let Ok(builder) = core.create_entity() else {
        return None;
    };
    let Ok(builder) = builder.with::<T, I>(component) else {
        return None;
    };
    Some(builder.build())
}

/// An entity that loses its components stays alive.
pub fn stripped<S: Storages>(core: &mut Core<S>, e: Entity) -> Result<bool, AllocError>
    ensures { IfOk result (λ alive. alive ≡ true → IsMerged (core_state S.table S.ids core.old).people e) }
{
    core.delete_components(&[e])?;
    Ok(core.is_alive(e))
}

/// The component of an entity, taken out in room that was got for the event before: there is nothing left to go wrong.
pub fn taken_in_room<T: Component<Storage: UnprotectedStorage<T>> + Drop, S: Has<T, I>, I>(
    core: &mut Core<S>,
    e: Entity,
) -> Result<Option<T>, AllocError>
    ensures entities { core.new.parts.entities ≡ core.old.parts.entities }
{
    let Ok(mut view) = core.write_storage::<T, I>() else {
        return Ok(None);
    };
    view.masked_mut().reserve_events(1)?;
    match view.remove(e) {
        Ok(found) => Ok(found),
        Err(_) => unreachable!(),
    }
}

/// The first of two components whose values are one: it is the second.
pub fn equal_by_value<T: Component + Drop, S: Has<T, I>, I>(first: T, _second: T) -> T
    requires { S.as_value first ≡ S.as_value _second }
    ensures { result ≡ _second }
{
    first
}
