//! Worlds by component types: registrations, views, builders.
use crate::asserts::{equal, holds};
use crate::calls::{delete, die, fresh, lives, register_both};
use crate::stories::{self, told};
use composed::Empty;
use script_slots::{Health, Position};
use specs::{Builder, CloneStorages, Entity, Has, Storages, Unregistered, World};
use std::alloc::Global;
use std::process::Abort;
use std::test::Fail;
use storages::{Component, TryDefault, UnprotectedStorage};

/// An entity with a position and a health.
fn build<P, H, S: Storages + Has<Position, P> + Has<Health, H>>(
    world: &mut World<S>,
    x: i64,
    points: i64,
) -> Result<Entity, Fail> {
    Ok(built(world, x, points).ok_or("a building")?)
}

/// Such an entity, if its builder is refused nothing.
fn built<P, H, S: Storages + Has<Position, P> + Has<Health, H>>(
    world: &mut World<S>,
    x: i64,
    points: i64,
) -> Option<Entity> {
    let builder = world.create_entity().ok()?;
    let builder = builder.with(Position(x)).ok()?;
    let builder = builder.with(Health(points)).ok()?;
    Some(builder.build())
}

/// An entity without components.
fn built_empty<S: Storages>(world: &mut World<S>) -> Option<Entity> {
    let builder = world.create_entity().ok()?;
    Some(builder.build())
}

/// The position of an entity.
fn position<P, S: Storages + Has<Position, P>>(world: &World<S>, e: Entity) -> Option<Position> {
    match world.read_storage::<Position, _>() {
        Ok(positions) => positions.get(e).copied(),
        Err(_) => None,
    }
}

/// The health of an entity.
fn health<H, S: Storages + Has<Health, H>>(world: &World<S>, e: Entity) -> Option<Health> {
    match world.read_component::<Health, _>() {
        Ok(healths) => healths.get(e).copied(),
        Err(_) => None,
    }
}

/// Puts a position at an entity, by a view, and answers whether it is there then.
fn place<P, S: Storages + Has<Position, P>>(world: &mut World<S>, e: Entity, x: i64) -> bool {
    match world.write_storage::<Position, _>() {
        Ok(mut positions) => {
            let put = positions.insert(e, Position(x)).is_ok();
            positions.contains(e) && put
        }
        Err(_) => false,
    }
}

/// The births of an iterator, so many.
fn births<S: Storages>(
    alloc: Global,
    world: &mut World<S>,
    count: usize,
) -> Result<Vec<Entity>, Fail> {
    let mut list = Vec::new(alloc);
    for item in world.create_iter().take(count) {
        list.push(item.ok().ok_or("a birth")?)?;
    }
    Ok(list)
}

/// Whether the entities are those of the first births, in order, and alive.
fn are_the_first<S: Storages>(world: &World<S>, list: &[Entity]) -> bool {
    for (index, e) in list.iter().enumerate() {
        if e.id() as usize != index || e.generation().id() != 1 || !lives(world, *e) {
            return false;
        }
    }
    true
}

fn are_five<R: Abort, S: Storages>(
    rt: &R,
    alloc: Global,
    world: &mut World<S>,
) -> Result<(), Fail> {
    let list = births(alloc, world, 5)?;
    assert_eq!(rt; list.len(), 5);
    holds!(rt; are_the_first(world, list.as_slice()));
    Ok(())
}

fn are_built_and_written<R: Abort, P, H, S: Storages + Has<Position, P> + Has<Health, H>>(
    rt: &R,
    world: &mut World<S>,
) -> Result<(), Fail> {
    holds!(rt; register_both(world));
    let a = build(world, 1, 10)?;
    let b = build(world, 3, 30)?;
    let c = build(world, 5, 50)?;
    let empty = built_empty(world).ok_or("a birth")?;
    equal!(rt; position(world, b), Some(Position(3)));
    equal!(rt; health(world, a), Some(Health(10)));
    equal!(rt; health(world, c), Some(Health(50)));
    equal!(rt; position(world, empty), None);
    holds!(rt; place(world, empty, 4));
    equal!(rt; position(world, empty), Some(Position(4)));
    Ok(())
}

/// An entity whose builder is given a position and no health.
fn built_in_part<P, H, S: Storages + Has<Position, P> + Has<Health, H>>(
    world: &mut World<S>,
) -> Option<Entity> {
    let builder = world.create_entity().ok()?;
    let builder = builder.maybe_with(Some(Position(6))).ok()?;
    let builder = builder.maybe_with::<Health, _>(None).ok()?;
    Some(builder.build())
}

fn may_lack_a_component<R: Abort, P, H, S: Storages + Has<Position, P> + Has<Health, H>>(
    rt: &R,
    world: &mut World<S>,
) -> Result<(), Fail> {
    holds!(rt; register_both(world));
    let e = built_in_part(world).ok_or("a building")?;
    equal!(rt; position(world, e), Some(Position(6)));
    equal!(rt; health(world, e), None);
    holds!(rt; die(world, &[]));
    Ok(())
}

/// Registers an empty storage of a component type.
fn register_empty<T: Component, I, S: Storages + Has<T, I>>(
    alloc: Global,
    world: &mut World<S>,
) -> Result<(), Fail>
where
    T::Storage: UnprotectedStorage<T> + TryDefault,
{
    world.register_with_storage::<T, I>(T::Storage::try_default(alloc)?);
    Ok(())
}

/// Puts a health at an entity, by a view, and answers the one before.
fn heal<H, S: Storages + Has<Health, H>>(
    world: &mut World<S>,
    e: Entity,
    points: i64,
) -> Option<Health> {
    match world.write_component::<Health, _>() {
        Ok(mut healths) => healths.insert(e, Health(points)).ok()?,
        Err(_) => None,
    }
}

fn takes_storages<R: Abort, P, H, S: Storages + Has<Position, P> + Has<Health, H>>(
    rt: &R,
    alloc: Global,
    world: &mut World<S>,
) -> Result<(), Fail> {
    register_empty::<Position, _, S>(alloc, world)?;
    register_empty::<Health, _, S>(alloc, world)?;
    let e = build(world, 7, 70)?;
    register_empty::<Health, _, S>(alloc, world)?;
    equal!(rt; heal(world, e, 71), Some(Health(70)));
    equal!(rt; position(world, e), Some(Position(7)));
    equal!(rt; health(world, e), Some(Health(71)));
    Ok(())
}

/// An entity whose builder is dropped.
fn dropped<S: Storages>(world: &mut World<S>) -> Option<Entity> {
    let builder = world.create_entity().ok()?;
    let e = builder.entity();
    drop(builder);
    Some(e)
}

/// The next maintain lets this one die, and no other.
fn dies_next<R: Abort, S: Storages>(rt: &R, world: &mut World<S>, e: Entity) {
    holds!(rt; lives(world, e));
    holds!(rt; die(world, &[e]));
    holds!(rt; !lives(world, e));
}

fn marks_the_dropped<R: Abort, S: Storages>(rt: &R, world: &mut World<S>) -> Result<(), Fail> {
    let e = dropped(world).ok_or("a birth")?;
    dies_next(rt, world, e);
    Ok(())
}

/// An entity whose builder was refused a component, and the component that came back.
fn refused<P, S: Storages + Has<Position, P>>(world: &mut World<S>) -> Option<(Entity, Position)> {
    let builder = world.create_entity().ok()?;
    let e = builder.entity();
    match builder.with(Position(5)) {
        Ok(_builder) => None,
        Err(refused) => Some((e, refused.component)),
    }
}

fn marks_the_refused<R: Abort, P, S: Storages + Has<Position, P>>(
    rt: &R,
    world: &mut World<S>,
) -> Result<(), Fail> {
    let (e, back) = refused(world).ok_or("a refusal")?;
    equal!(rt; back, Position(5));
    dies_next(rt, world, e);
    Ok(())
}

/// Whether positions are refused to be read.
fn reads_none<P, S: Storages + Has<Position, P>>(world: &World<S>) -> bool {
    matches!(&world.read_storage::<Position, _>(), Err(Unregistered))
}

/// Whether positions are refused to be written to.
fn writes_none<P, S: Storages + Has<Position, P>>(world: &mut World<S>) -> bool {
    matches!(&world.write_storage::<Position, _>(), Err(Unregistered))
}

fn has_no_positions<R: Abort, P, S: Storages + Has<Position, P>>(rt: &R, world: &mut World<S>) {
    holds!(rt; reads_none(world));
    holds!(rt; writes_none(world));
}

/// Takes the components of a list, and answers whether it was not refused.
fn delete_components<S: Storages>(world: &mut World<S>, list: &[Entity]) -> bool {
    world.delete_components(list).is_ok()
}

fn lose_components<R: Abort, P, H, S: Storages + Has<Position, P> + Has<Health, H>>(
    rt: &R,
    world: &mut World<S>,
) -> Result<(), Fail> {
    holds!(rt; register_both(world));
    let a = build(world, 1, 10)?;
    let b = build(world, 2, 20)?;
    let dead = build(world, 3, 30)?;
    holds!(rt; delete(world, dead));
    let reborn = build(world, 4, 40)?;
    equal!(rt; reborn.id(), dead.id());
    holds!(rt; delete_components(world, &[dead, a]));
    equal!(rt; position(world, a), None);
    equal!(rt; health(world, a), None);
    equal!(rt; position(world, b), Some(Position(2)));
    equal!(rt; health(world, b), Some(Health(20)));
    equal!(rt; position(world, reborn), Some(Position(4)));
    holds!(rt; lives(world, a));
    Ok(())
}

/// What is told of a world.
#[derive(Clone, Copy)]
pub enum Story {
    AreFive,
    AreBuiltAndWritten,
    MayLackAComponent,
    TakesStorages,
    MarksTheDropped,
    MarksTheRefused,
    HasNoPositions,
    LoseComponents,
}

fn tell<R: Abort, P, H, S: CloneStorages + Has<Position, P> + Has<Health, H>>(
    rt: &R,
    alloc: Global,
    story: Story,
    world: &mut World<S>,
) -> Result<(), Fail> {
    match story {
        Story::AreFive => are_five(rt, alloc, world),
        Story::AreBuiltAndWritten => are_built_and_written(rt, world),
        Story::MayLackAComponent => may_lack_a_component(rt, world),
        Story::TakesStorages => takes_storages(rt, alloc, world),
        Story::MarksTheDropped => marks_the_dropped(rt, world),
        Story::MarksTheRefused => marks_the_refused(rt, world),
        Story::HasNoPositions => {
            has_no_positions(rt, world);
            Ok(())
        }
        Story::LoseComponents => lose_components(rt, world),
    }
}

/// Tells a story of a new world.
pub fn tell_of_new<
    R: Abort,
    P,
    H,
    S: CloneStorages + Empty + Has<Position, P> + Has<Health, H> + Drop,
>(rt: &R, alloc: Global, story: Story) -> Result<(), Fail> {
    let mut world = fresh::<S, _>(alloc);
    tell(rt, alloc, story, &mut world)
}

#[test]
fn five_are_born_one_after_another(rt: HostRuntime) -> Result<(), Fail> {
    told(&rt, rt.alloc(), stories::Story::Typed(Story::AreFive))
}

#[test]
fn entities_are_built_read_and_written(rt: HostRuntime) -> Result<(), Fail> {
    told(
        &rt,
        rt.alloc(),
        stories::Story::Typed(Story::AreBuiltAndWritten),
    )
}

#[test]
fn a_component_that_may_lack_is_built_in_if_it_is_there(rt: HostRuntime) -> Result<(), Fail> {
    told(
        &rt,
        rt.alloc(),
        stories::Story::Typed(Story::MayLackAComponent),
    )
}

#[test]
fn an_empty_storage_is_registered_where_none_was(rt: HostRuntime) -> Result<(), Fail> {
    told(&rt, rt.alloc(), stories::Story::Typed(Story::TakesStorages))
}

#[test]
fn a_builder_that_is_dropped_marks_its_entity(rt: HostRuntime) -> Result<(), Fail> {
    told(
        &rt,
        rt.alloc(),
        stories::Story::Typed(Story::MarksTheDropped),
    )
}

#[test]
fn a_refused_component_comes_back_and_its_entity_is_marked(rt: HostRuntime) -> Result<(), Fail> {
    told(
        &rt,
        rt.alloc(),
        stories::Story::Typed(Story::MarksTheRefused),
    )
}

#[test]
fn a_type_without_a_storage_is_unregistered(rt: HostRuntime) -> Result<(), Fail> {
    told(
        &rt,
        rt.alloc(),
        stories::Story::Typed(Story::HasNoPositions),
    )
}

#[test]
fn components_go_without_their_entities(rt: HostRuntime) -> Result<(), Fail> {
    told(
        &rt,
        rt.alloc(),
        stories::Story::Typed(Story::LoseComponents),
    )
}
