//! A level of entities with names that follow one another, saved as JSON and loaded into another world.
use crate::game::Follows;
use anyhow::Result;
use composed::{
    Both, Builder, Datum, Empty, Entity, Has, HashMapStorage, Link, Marking, Of2, Parts, Plain,
    SavedText, SavesWorld, SimpleMarker, SimpleMarkerAllocator, Storages, World, slot,
};
use std::alloc::Global;

/// What an entity is called.
pub struct Called;

impl Plain<SavedText> for Called {
    type Storage = HashMapStorage<Datum<Self, SavedText>>;
}

/// The name of an entity.
pub type Name = Datum<Called, SavedText>;

/// What has a marker is saved.
#[derive(Clone, Copy)]
pub struct Saved;

/// Names an entity in a saved text.
pub type Label = SimpleMarker<Saved>;

/// The storages of a level: names, who follows whom, and the markers beside them.
pub type Level = Both<Of2<Name, Link<Follows>>, Marking<Label, SimpleMarkerAllocator<Saved>>>;

/// What a level can do that asks for its very struct.
trait Saves: Sized {
    /// Loads into another what is saved of this. It answers the text.
    fn carry(from: &mut Parts<Self>, to: &mut Parts<Self>, alloc: Global) -> Result<String>;
}

impl Saves for Level {
    fn carry(from: &mut Parts<Self>, to: &mut Parts<Self>, alloc: Global) -> Result<String> {
        let text = from.save_to_json::<(Name, Link<Follows>), _>(alloc)?;
        to.load_from_json::<(Name, Link<Follows>), _>(alloc, text.as_str())?;
        Ok(text)
    }
}

/// A world without entities.
fn new<N, F, L, S>(alloc: Global) -> Result<World<S>>
where
    S: Empty + Storages + Has<Name, N> + Has<Link<Follows>, F> + Has<Label, L> + Drop,
{
    let mut world = World::new(alloc, S::empty(alloc));
    world.register::<Name, _>()?;
    world.register::<Link<Follows>, _>()?;
    world.register::<Label, _>()?;
    Ok(world)
}

/// An entity with a name, which is to be saved.
fn add<N, L, S: Storages + Has<Name, N> + Has<Label, L>>(
    world: &mut World<S>,
    name: &str,
    alloc: Global,
) -> Result<Entity> {
    let name: Name = Datum::new(SavedText::from_str(alloc, name)?);
    let entity = world.create_entity()?.with(name)?.build();
    world.parts().core.mark(slot::<Label, S, L>(), entity)?;
    Ok(entity)
}

/// Three that follow one another in a circle.
fn fill<N, F, L, S: Storages + Has<Name, N> + Has<Link<Follows>, F> + Has<Label, L>>(
    world: &mut World<S>,
    alloc: Global,
) -> Result<()> {
    let ann = add(world, "Ann", alloc)?;
    let bea = add(world, "Bea", alloc)?;
    let cid = add(world, "Cid", alloc)?;
    let mut follows = world.write_storage::<Link<Follows>, _>()?;
    follows.insert(ann, Link::new(bea))?;
    follows.insert(bea, Link::new(cid))?;
    follows.insert(cid, Link::new(ann))?;
    Ok(())
}

/// A line: who follows whom.
fn show<N, F, S: Has<Name, N> + Has<Link<Follows>, F>>(
    text: &mut String,
    world: &World<S>,
) -> Result<()> {
    let names = world.read_storage::<Name, _>()?;
    let follows = world.read_storage::<Link<Follows>, _>()?;
    write!(text, "who follows whom:")?;
    for id in follows.mask().iter() {
        let link = follows.storage().get(id);
        let leader = link.and_then(|link: &Link<Follows>| names.get(link.entity));
        if let (Some(one), Some(leader)) = (names.storage().get(id), leader) {
            write!(text, " {id}:{:?}->{:?}", one.value, leader.value)?;
        }
    }
    writeln!(text)?;
    Ok(())
}

/// A level is saved, and loaded where another entity lives already.
fn told<N, F, L, S>(alloc: Global) -> Result<String>
where
    S: Storages + Has<Name, N> + Has<Link<Follows>, F> + Has<Label, L> + Saves + Empty + Drop,
{
    let mut text = String::new(alloc);
    let mut old: World<S> = new(alloc)?;
    fill(&mut old, alloc)?;
    show(&mut text, &old)?;
    let mut other: World<S> = new(alloc)?;
    other.create_entity()?.build();
    let saved = S::carry(old.parts().core.parts(), other.parts().core.parts(), alloc)?;
    writeln!(text, "{saved}")?;
    show(&mut text, &other)?;
    Ok(text)
}

/// Who follows whom before, the saved text, and who follows whom where it was loaded.
pub fn saving(alloc: Global) -> Result<String> {
    told::<_, _, _, Level>(alloc)
}
