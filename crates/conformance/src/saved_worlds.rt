//! Worlds that are saved and loaded in one call each, by the types that are saved.
use crate::asserts::{equal, holds};
use crate::calls::{fresh, register};
use composed::{Both, Empty, LoadWorldError, Marking, Of3, SaveWorldError, SavedTypes, SavesWorld};
use saveload::{LoadError, SimpleMarker, SimpleMarkerAllocator};
use script_slots::{Health, Link, Position, Saved};
use specs::{
    Builder, Entity, EntityBuilder, Has, Held, MarkedBuilder, NoJob, Parts, Storages, World, slot,
};
use std::alloc::Global;
use std::process::Abort;
use std::test::Fail;

/// Names an entity in a text.
type Name = SimpleMarker<Saved>;

/// The markers.
type Names = Marking<Name, SimpleMarkerAllocator<Saved>>;

/// Three component types, and the markers.
type Stored = Both<Of3<Position, Health, Link>, Names>;

/// Positions with their links.
type Linked = (Position, Link);

/// Positions alone.
type Alone = (Position,);

/// Storages of which some types are saved and loaded. It is asked for where the struct is not known.
trait Carries<T, P>: Sized {
    fn save(parts: &mut Parts<Self>, alloc: Global) -> Result<String, SaveWorldError>;

    fn load(parts: &mut Parts<Self>, alloc: Global, text: &str) -> Result<(), LoadWorldError>;
}

impl<F, T: SavedTypes<Name, F, P>, P> Carries<T, P> for Both<F, Names> {
    fn save(parts: &mut Parts<Self>, alloc: Global) -> Result<String, SaveWorldError> {
        parts.save_to_json::<T, P>(alloc)
    }

    fn load(parts: &mut Parts<Self>, alloc: Global, text: &str) -> Result<(), LoadWorldError> {
        parts.load_from_json::<T, P>(alloc, text)
    }
}

/// Gives a marker to an entity that is being built.
fn labelled<N, S: Storages + Has<Name, N>>(builder: EntityBuilder<'_, S>) -> Option<Entity> {
    let builder = builder.marked(slot::<Name, S, N>()).ok()?;
    Some(builder.build())
}

/// An entity with a marker, a position, and perhaps a link.
fn built<P, L, N, S: Storages + Has<Position, P> + Has<Link, L> + Has<Name, N>>(
    world: &mut World<S>,
    position: i64,
    link: Option<Entity>,
) -> Option<Entity> {
    let builder = world.create_entity().ok()?;
    let builder = builder.with(Position(position)).ok()?;
    labelled(builder.maybe_with(link.map(Link)).ok()?)
}

/// The same where links are not registered.
fn built_alone<P, N, S: Storages + Has<Position, P> + Has<Name, N>>(
    world: &mut World<S>,
    position: i64,
) -> Option<Entity> {
    let builder = world.create_entity().ok()?;
    labelled(builder.with(Position(position)).ok()?)
}

/// The text of these types.
fn saved<T, P, S: Held + Carries<T, P>>(world: &mut World<S>, alloc: Global) -> Option<String> {
    S::save(world.parts().core.parts(), alloc).ok()
}

/// Whether a save of these is refused since not all is registered.
fn is_not_saved<T, P, S: Held + Carries<T, P>>(world: &mut World<S>, alloc: Global) -> bool {
    let saved = S::save(world.parts().core.parts(), alloc);
    matches!(saved, Err(SaveWorldError::Unregistered))
}

/// What a load of a text answers.
fn loaded<T, P, S: Held + Carries<T, P>>(
    world: &mut World<S>,
    alloc: Global,
    text: &str,
) -> Result<(), LoadWorldError> {
    S::load(world.parts().core.parts(), alloc, text)
}

/// Whether a text was loaded.
fn is_loaded<T, P, S: Held + Carries<T, P>>(
    world: &mut World<S>,
    alloc: Global,
    text: &str,
) -> bool {
    loaded::<T, P, S>(world, alloc, text).is_ok()
}

/// Whether a text is not of the form.
fn is_no_list<T, P, S: Held + Carries<T, P>>(
    world: &mut World<S>,
    alloc: Global,
    text: &str,
) -> bool {
    let loaded = loaded::<T, P, S>(world, alloc, text);
    matches!(loaded, Err(LoadWorldError::Refused(LoadError::NotTheForm)))
}

/// Whether a load is refused since not all is registered.
fn is_not_loaded<T, P, S: Held + Carries<T, P>>(
    world: &mut World<S>,
    alloc: Global,
    text: &str,
) -> bool {
    let loaded = loaded::<T, P, S>(world, alloc, text);
    matches!(loaded, Err(LoadWorldError::Unregistered))
}

/// The position of an entity.
fn position<P, S: Has<Position, P>>(world: &World<S>, e: Entity) -> Option<Position> {
    match world.read_storage::<Position, P>() {
        Ok(view) => view.get(e).copied(),
        Err(_) => None,
    }
}

/// Where an entity's link leads.
fn link<L, S: Has<Link, L>>(world: &World<S>, e: Entity) -> Option<Entity> {
    match world.read_storage::<Link, L>() {
        Ok(view) => view.get(e).map(|link: &Link| link.0),
        Err(_) => None,
    }
}

/// A world in which positions, links and markers are registered.
fn registered<
    R: Abort,
    P,
    L,
    N,
    S: Storages + Empty + Has<Position, P> + Has<Link, L> + Has<Name, N>,
>(rt: &R, alloc: Global) -> World<S> {
    let mut world = fresh(alloc);
    holds!(rt; register::<Position, P, S, NoJob>(&mut world));
    holds!(rt; register::<Link, L, S, NoJob>(&mut world));
    holds!(rt; register::<Name, N, S, NoJob>(&mut world));
    world
}

/// Two that are linked are saved, and loaded where another lives already.
fn tell_of_two<R: Abort, P, L, N, A, S>(rt: &R, alloc: Global) -> Result<(), Fail>
where
    S: Storages + Empty + Has<Position, P> + Has<Link, L> + Has<Name, N>,
    S: Carries<Linked, A> + Drop,
{
    let mut old: World<S> = registered(rt, alloc);
    let first = built(&mut old, 1, None).ok_or("a building")?;
    let _second = built(&mut old, 2, Some(first)).ok_or("a building")?;
    let text = saved::<Linked, A, S>(&mut old, alloc).ok_or("a save")?;
    equal!(rt; text.as_str(), "[{\"components\":[[1],null],\"marker\":0},{\"components\":[[2],[0]],\"marker\":1}]");
    let mut new: World<S> = registered(rt, alloc);
    let _other = new.create_entity().map_err(|_| "a building")?.build();
    holds!(rt; is_loaded::<Linked, A, S>(&mut new, alloc, text.as_str()));
    let first = Entity::from_parts(1, 1).ok_or("an entity")?;
    let second = Entity::from_parts(2, 1).ok_or("an entity")?;
    equal!(rt; position(&new, first), Some(Position(1)));
    equal!(rt; position(&new, second), Some(Position(2)));
    equal!(rt; link(&new, first), None);
    equal!(rt; link(&new, second), Some(first));
    let again = saved::<Linked, A, S>(&mut new, alloc).ok_or("a save")?;
    equal!(rt; again.as_str(), text.as_str());
    Ok(())
}

/// What is not registered, and what is no list, is refused, and nothing changes.
fn tell_of_refusals<R: Abort, P, L, N, A, B, S>(rt: &R, alloc: Global) -> Result<(), Fail>
where
    S: Storages + Empty + Has<Position, P> + Has<Link, L> + Has<Name, N>,
    S: Carries<Linked, A> + Carries<Alone, B> + Drop,
{
    let mut world: World<S> = fresh(alloc);
    holds!(rt; register::<Position, P, S, NoJob>(&mut world));
    holds!(rt; register::<Name, N, S, NoJob>(&mut world));
    let _one = built_alone(&mut world, 7).ok_or("a building")?;
    let text = saved::<Alone, B, S>(&mut world, alloc).ok_or("a save")?;
    equal!(rt; text.as_str(), "[{\"components\":[[7]],\"marker\":0}]");
    holds!(rt; is_not_saved::<Linked, A, S>(&mut world, alloc));
    holds!(rt; is_not_loaded::<Linked, A, S>(&mut world, alloc, "[]"));
    holds!(rt; register::<Link, L, S, NoJob>(&mut world));
    holds!(rt; is_no_list::<Linked, A, S>(&mut world, alloc, text.as_str()));
    holds!(rt; is_no_list::<Linked, A, S>(&mut world, alloc, "[{\"marker\":0}]"));
    holds!(rt; is_no_list::<Linked, A, S>(&mut world, alloc, "no JSON"));
    let again = saved::<Alone, B, S>(&mut world, alloc).ok_or("a save")?;
    equal!(rt; again.as_str(), text.as_str());
    holds!(rt; is_loaded::<Alone, B, S>(&mut world, alloc, text.as_str()));
    Ok(())
}

/// Tells both. The storages are named here alone: each call at storages of known types is slow to prove.
fn told<R: Abort>(rt: &R, alloc: Global, refusals: bool) -> Result<(), Fail> {
    tell::<R, _, _, _, _, _, Stored>(rt, alloc, refusals)
}

fn tell<R: Abort, P, L, N, A, B, S>(rt: &R, alloc: Global, refusals: bool) -> Result<(), Fail>
where
    S: Storages + Empty + Has<Position, P> + Has<Link, L> + Has<Name, N>,
    S: Carries<Linked, A> + Carries<Alone, B> + Drop,
{
    if refusals {
        tell_of_refusals::<R, P, L, N, A, B, S>(rt, alloc)
    } else {
        tell_of_two::<R, P, L, N, A, S>(rt, alloc)
    }
}

#[test]
fn a_world_is_saved_and_loaded_in_one_call_each(rt: HostRuntime) -> Result<(), Fail> {
    told(&rt, rt.alloc(), false)
}

#[test]
fn what_can_not_be_saved_or_loaded_is_refused(rt: HostRuntime) -> Result<(), Fail> {
    told(&rt, rt.alloc(), true)
}
