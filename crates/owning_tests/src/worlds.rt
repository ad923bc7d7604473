//! A world over components that own memory: it gives clones, keeps its own, and lets what it has go with its entities.
use composed::{
    CloneStorages, Command, Doing, Empty, Entity, Has, NoJob, Reply, Storages, World, slot,
};
use owning::{Renaming, Store, boxes, called, cargos, names};
use std::alloc::Global;
use std::marker::PhantomData;
use std::process::Abort;
use std::test::Fail;

/// What is told of a new world.
#[derive(Clone, Copy)]
enum Story {
    /// A command gives a clone of a name.
    Clone,
    /// A name goes with its entity.
    Goes,
    /// What has no storage comes back.
    ComesBack,
    /// Jobs change a name.
    Renamed,
}

/// A world with an entity that has a name.
fn begin<N, C, B, S>(alloc: Global, name: &str) -> Result<(World<S>, Entity), Fail>
where
    S: Storages
        + Empty
        + Has<names::InVec, N>
        + Has<cargos::InDenseVec, C>
        + Has<boxes::InFlagged, B>
        + Drop,
{
    let mut world = World::new(alloc, S::empty(alloc));
    world.register::<names::InVec, N>()?;
    world.register::<cargos::InDenseVec, C>()?;
    world.register::<boxes::InFlagged, B>()?;
    let name = names::InVec(String::from_str(alloc, name)?);
    let entity = called(&mut world, name).ok().ok_or("a birth")?;
    Ok((world, entity))
}

/// How long the name of an entity is.
fn length_of_name<N, S: Has<names::InVec, N>, J: Drop>(
    world: &World<S, J>,
    entity: Entity,
) -> Option<usize> {
    match world.read_storage::<names::InVec, N>() {
        Ok(names) => names.get(entity).map(|name: &names::InVec| name.0.len()),
        Err(_) => None,
    }
}

/// Asks for the name of an entity twice.
fn asks_twice<N, S: CloneStorages + Has<names::InVec, N>>(
    alloc: Global,
    world: &mut World<S>,
    entity: Entity,
) -> Result<Vec<Reply<S::Value>>, Fail> {
    let slot = slot::<names::InVec, S, N>();
    let mut commands: Vec<Command<S, NoJob>> = Vec::new(alloc);
    commands.push(Command::Get(slot, entity))?;
    commands.push(Command::Get(slot, entity))?;
    Ok(world.run(commands)?)
}

/// Whether each reply is a value that is there.
fn are_given<V>(replies: &[Reply<V>]) -> bool {
    replies
        .iter()
        .all(|reply: &Reply<V>| matches!(reply, Reply::Value(Some(_))))
}

/// The name of an entity is asked for twice, and stays.
fn gives_clones<R: Abort, N, C, B, S>(rt: &R, alloc: Global) -> Result<(), Fail>
where
    S: CloneStorages
        + Empty
        + Has<names::InVec, N>
        + Has<cargos::InDenseVec, C>
        + Has<boxes::InFlagged, B>
        + Drop,
{
    let (mut world, entity) = begin::<N, C, B, S>(alloc, "Ada")?;
    let replies = asks_twice(alloc, &mut world, entity)?;
    assert!(rt; replies.len() == 2);
    assert!(rt; are_given(replies.as_slice()));
    assert_eq!(rt; length_of_name(&world, entity), Some(3));
    Ok(())
}

/// An entity with a name dies, and another with a cargo has none.
fn lets_names_go<R: Abort, N, C, B, S>(rt: &R, alloc: Global) -> Result<(), Fail>
where
    S: Storages
        + Empty
        + Has<names::InVec, N>
        + Has<cargos::InDenseVec, C>
        + Has<boxes::InFlagged, B>
        + Drop,
{
    let (mut world, entity) = begin::<N, C, B, S>(alloc, "Ada")?;
    world.delete_entity(entity)?;
    assert_eq!(rt; length_of_name(&world, entity), None);
    let other = called(&mut world, cargos::InDenseVec(Vec::new(alloc)));
    let other = other.ok().ok_or("a birth")?;
    assert_eq!(rt; length_of_name(&world, other), None);
    Ok(())
}

/// A name is handed back where names are not registered.
fn hands_back<R: Abort, N, S: Storages + Empty + Has<names::InVec, N> + Drop>(
    rt: &R,
    alloc: Global,
) -> Result<(), Fail> {
    let mut world: World<S> = World::new(alloc, S::empty(alloc));
    let name = names::InVec(String::from_str(alloc, "Ada")?);
    match called(&mut world, name) {
        Ok(_) => assert!(rt; false),
        Err(name) => assert_eq!(rt; name.0.len(), 3),
    }
    Ok(())
}

/// A name is changed by one job, and emptied by the next.
fn is_renamed<R: Abort, N, S: Storages + Empty + Has<names::InVec, N> + Drop>(
    rt: &R,
    alloc: Global,
) -> Result<(), Fail> {
    let mut world: World<S, Doing<Renaming<N>>> = World::new(alloc, S::empty(alloc));
    world.register::<names::InVec, N>()?;
    let name = names::InVec(String::from_str(alloc, "Ada")?);
    let entity = called(&mut world, name).ok().ok_or("a birth")?;
    let other = String::from_str(alloc, "Grace")?;
    let mut parts = world.parts();
    parts
        .lazy
        .exec(Doing(Renaming::Called(entity, other, PhantomData)))?;
    parts
        .lazy
        .exec(Doing(Renaming::Unnamed(entity, alloc, PhantomData)))?;
    world.maintain(1)?;
    assert_eq!(rt; length_of_name(&world, entity), Some(5));
    world.maintain(1)?;
    assert_eq!(rt; length_of_name(&world, entity), Some(0));
    Ok(())
}

/// Tells a story over whatever storages have these types.
fn tell<R: Abort, N, C, B, S>(rt: &R, alloc: Global, story: Story) -> Result<(), Fail>
where
    S: CloneStorages
        + Empty
        + Has<names::InVec, N>
        + Has<cargos::InDenseVec, C>
        + Has<boxes::InFlagged, B>
        + Drop,
{
    match story {
        Story::Clone => gives_clones::<R, N, C, B, S>(rt, alloc),
        Story::Goes => lets_names_go::<R, N, C, B, S>(rt, alloc),
        Story::ComesBack => hands_back::<R, N, S>(rt, alloc),
        Story::Renamed => is_renamed::<R, N, S>(rt, alloc),
    }
}

/// Tells it over five types. They are named here alone: each call at storages of known types is slow to prove.
fn told<R: Abort>(rt: &R, alloc: Global, story: Story) -> Result<(), Fail> {
    tell::<R, _, _, _, Store>(rt, alloc, story)
}

#[test]
fn a_command_gives_a_clone_and_the_name_stays(rt: HostRuntime) -> Result<(), Fail> {
    told(&rt, rt.alloc(), Story::Clone)
}

#[test]
fn a_name_goes_with_its_entity(rt: HostRuntime) -> Result<(), Fail> {
    told(&rt, rt.alloc(), Story::Goes)
}

#[test]
fn jobs_change_a_name(rt: HostRuntime) -> Result<(), Fail> {
    told(&rt, rt.alloc(), Story::Renamed)
}

#[test]
fn what_has_no_storage_comes_back(rt: HostRuntime) -> Result<(), Fail> {
    told(&rt, rt.alloc(), Story::ComesBack)
}
