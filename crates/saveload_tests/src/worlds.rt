//! Worlds of entities with positions, links and markers. A call of a library at a known type is slow to prove wherever it stands: so there is one of
//! each in a function without a contract, and those that save and load know no type.
ghost use Rattle.std.specs.Prelude.{◌≡◌};

use crate::components::{Link, Position};
use entities::{EntitiesRes, Entity};
use saveload::{
    DeserializeComponents, EntityData, JsonData, JsonPlaces, LoadError, MarkError, Marker,
    MarkerAllocator, SaveError, SerializeComponents, SimpleMarker, SimpleMarkerAllocator,
    WithMarker, deserialize, from_json, serialize, serialize_recursive, serialize_to_json, to_json,
};
use std::alloc::{AllocError, Global};
use std::test::Fail;
use storages::{
    Component, MaskedStorage, ReadStorage, TryDefault, UnprotectedStorage, WriteStorage,
};

/// A kind of markers.
#[derive(Clone, Copy)]
pub struct NetworkSync;

/// Its markers.
pub type NetMarker = SimpleMarker<NetworkSync>;

/// What is saved of an entity's position and link.
pub type SavedPair = (Option<Position>, Option<NetMarker>);

/// What is saved of an entity.
pub type Record = EntityData<NetMarker, SavedPair>;

/// Entities, with what is stored for them.
pub struct World {
    /// Where lists get their memory.
    pub alloc: Global,
    /// The entities.
    pub entities: EntitiesRes,
    /// Their positions.
    pub positions: MaskedStorage<Position>,
    /// Their links.
    pub links: MaskedStorage<Link>,
    /// Their markers.
    pub markers: MaskedStorage<NetMarker>,
    /// What gives the markers their ids.
    pub allocator: SimpleMarkerAllocator<NetworkSync>,
}

impl Drop for World {
    fn drop(self) {
        let World {
            alloc: _alloc,
            entities: _entities,
            positions: _positions,
            links: _links,
            markers: _markers,
            allocator: _allocator,
        } = self;
    }
}

/// A world from which entities are saved, and one into which they are loaded.
pub struct Worlds {
    /// The first.
    pub old: World,
    /// The other.
    pub new: World,
}

impl Drop for Worlds {
    fn drop(self) {
        let Worlds {
            old: _old,
            new: _new,
        } = self;
    }
}

/// What a story can be told of.
pub trait Told: Sized {
    /// So many living entities, from index 0 on, without a component.
    fn with_entities(alloc: Global, count: u32) -> Result<Self, Fail>;
}

/// A storage without components.
pub fn empty<T: Component>(alloc: Global) -> Result<MaskedStorage<T>, Fail>
where
    T::Storage: UnprotectedStorage<T> + TryDefault,
{
    Ok(MaskedStorage::new(alloc, T::Storage::try_default(alloc)?))
}

/// So many living entities, from index 0 on.
pub fn living(alloc: Global, count: u32) -> Result<EntitiesRes, Fail> {
    let mut entities = EntitiesRes::new(alloc);
    populate(&mut entities, count)?;
    Ok(entities)
}

/// So many are born.
fn populate(entities: &mut EntitiesRes, count: u32) -> Result<(), Fail> {
    for _ in 0..count {
        entities.create().ok().ok_or("no entity")?;
    }
    Ok(())
}

impl Told for World {
    fn with_entities(alloc: Global, count: u32) -> Result<Self, Fail> {
        let positions = empty(alloc)?;
        let links = empty(alloc)?;
        let markers = empty(alloc)?;
        Ok(World {
            alloc,
            entities: living(alloc, count)?,
            positions,
            links,
            markers,
            allocator: SimpleMarkerAllocator::new(alloc),
        })
    }
}

impl Told for Worlds {
    /// The entities are those of the first; nobody lives in the other.
    fn with_entities(alloc: Global, count: u32) -> Result<Self, Fail> {
        Ok(Worlds {
            old: World::with_entities(alloc, count)?,
            new: World::with_entities(alloc, 0)?,
        })
    }
}

/// Whether a story of a world of so many living entities, from index 0 on, comes true. The world is a local here alone, where its type is
/// not known: a function that owns storages is slow to prove.
pub fn comes_true<W: Told + Drop, F: FnOnce(&mut W) -> Result<bool, Fail>>(
    alloc: Global,
    count: u32,
    story: F,
) -> Result<bool, Fail>
    requires { F.IsAlwaysCallable story }
{
    let mut world = W::with_entities(alloc, count)?;
    story(&mut world)
}

/// The entity of an index and a generation.
pub fn entity(index: u32, generation: i32) -> Result<Entity, Fail> {
    Ok(Entity::from_parts(index, generation).ok_or("no entity")?)
}

/// The entity of an index.
pub fn entity_at(world: &World, index: u32) -> Entity {
    world.entities.entity(index)
}

/// Whether an entity is alive.
pub fn lives(world: &World, entity: Entity) -> bool {
    world.entities.is_alive(entity)
}

/// Whether the birth of an index is pending.
pub fn is_raised(world: &World, index: u32) -> bool {
    world.entities.raised().contains(index)
}

/// The entity that an id is mapped to.
pub fn known(world: &World, id: u64) -> Option<Entity> {
    world.allocator.retrieve_entity_internal(id)
}

/// Whether an index lost its marker.
pub fn is_unmarked_now(world: &mut World, index: u32) -> bool {
    world.markers.drop(index).is_ok()
}

/// How many there are in a storage.
pub fn count_of<T: Component>(storage: &MaskedStorage<T>) -> usize {
    storage.count()
}

/// How many markers there are.
pub fn markers(world: &World) -> usize {
    count_of(&world.markers)
}

/// How many positions.
pub fn positions(world: &World) -> usize {
    count_of(&world.positions)
}

/// How many links.
pub fn links(world: &World) -> usize {
    count_of(&world.links)
}

/// Marks an entity.
pub fn mark(world: &mut World, entity: Entity) -> Result<Option<bool>, MarkError> {
    let mut markers = WriteStorage::new(&world.entities, &mut world.markers);
    world.allocator.mark(entity, &mut markers)
}

/// Whether the entity of an index just got its marker.
pub fn is_marked_now(world: &mut World, index: u32) -> bool {
    let entity = entity_at(world, index);
    mark(world, entity) == Ok(Some(true))
}

/// A new entity with a marker.
pub fn built(world: &mut World) -> Result<Entity, Fail> {
    let builder = world.entities.build_entity().ok().ok_or("no entity")?;
    let builder = builder.marked(&mut world.markers, &mut world.allocator);
    Ok(builder.ok().ok_or("refused")?.build())
}

/// Whether an entity could be given a component.
pub fn is_put<T: Component + Drop>(
    entities: &EntitiesRes,
    storage: &mut MaskedStorage<T>,
    entity: Entity,
    component: T,
) -> bool
where
    T::Storage: UnprotectedStorage<T>,
{
    WriteStorage::new(entities, storage)
        .insert(entity, component)
        .is_ok()
}

/// Whether an index could be given a position.
pub fn is_placed(world: &mut World, index: u32, place: i64) -> bool {
    let entity = entity_at(world, index);
    is_put(
        &world.entities,
        &mut world.positions,
        entity,
        Position(place),
    )
}

/// Whether an entity could be linked to another.
pub fn is_linked_to(world: &mut World, source: Entity, target: Entity) -> bool {
    is_put(&world.entities, &mut world.links, source, Link(target))
}

/// Whether an index could be linked to another.
pub fn is_linked(world: &mut World, from: u32, to: u32) -> bool {
    let target = entity_at(world, to);
    let source = entity_at(world, from);
    is_linked_to(world, source, target)
}

/// The id at an index.
pub fn id_at(world: &World, index: u32) -> Option<u64> {
    match world.markers.get(index) {
        Some(marker) => Some(marker.id()),
        None => None,
    }
}

/// The place of an index.
pub fn place_of(world: &World, index: u32) -> Option<i64> {
    match world.positions.get(index) {
        Some(position) => Some(position.0),
        None => None,
    }
}

/// The index that an index is linked to.
pub fn link_of(world: &World, index: u32) -> Option<u32> {
    match world.links.get(index) {
        Some(link) => Some(link.0.id()),
        None => None,
    }
}

/// The entity that an index is linked to.
pub fn target_of(world: &World, index: u32) -> Option<Entity> {
    match world.links.get(index) {
        Some(link) => Some(link.0),
        None => None,
    }
}

/// Whether the indices from 0 on have these ids.
pub fn ids_are(world: &World, ids: &[Option<u64>]) -> bool {
    let mut index = 0u32;
    for id in ids {
        if id_at(world, index) != *id {
            return false;
        }
        index = index.wrapping_add(1);
    }
    true
}

/// Whether the indices from 0 on have these links.
pub fn links_are(world: &World, links: &[Option<u32>]) -> bool {
    let mut index = 0u32;
    for link in links {
        if link_of(world, index) != *link {
            return false;
        }
        index = index.wrapping_add(1);
    }
    true
}

/// A marker of an id, from an allocator that knows no other.
pub fn marker_of(alloc: Global, id: u64, entity: Entity) -> Result<NetMarker, Fail> {
    let mut allocator = SimpleMarkerAllocator::new(alloc);
    Ok(
        allocator
            .allocate(entity, Some(id))
            .ok()
            .ok_or("no marker")?,
    )
}

/// Saves what is at whatever places, of those that have markers.
pub fn save_places<M: Marker + Copy, P: SerializeComponents<M>>(
    alloc: Global,
    places: &P,
    markers: &ReadStorage<'_, M>,
) -> Result<Vec<EntityData<M, P::Data>>, SaveError> {
    serialize(alloc, places, markers)
}

/// The same as a text.
fn save_places_as_text<M: Marker + Copy + JsonData, P: SerializeComponents<M>>(
    alloc: Global,
    places: &P,
    markers: &ReadStorage<'_, M>,
) -> Result<String, SaveError>
where
    P::Data: JsonPlaces,
{
    serialize_to_json(alloc, places, markers)
}

/// The same with what they lead to.
fn save_all_places<M: Marker + Copy, A: MarkerAllocator<M>, P: SerializeComponents<M>>(
    alloc: Global,
    places: &P,
    allocator: &mut A,
    markers: &mut WriteStorage<'_, M>,
) -> Result<Vec<EntityData<M, P::Data>>, SaveError> {
    serialize_recursive(alloc, places, allocator, markers)
}

/// Loads records into whatever places.
pub fn load_places<M: Marker, P: DeserializeComponents<M>>(
    alloc: Global,
    places: &mut P,
    entities: &mut EntitiesRes,
    markers: &mut MaskedStorage<M>,
    allocator: &mut M::Allocator,
    list: Vec<EntityData<M, P::Data>>,
) -> Result<(), LoadError>
where
    M::Allocator: MarkerAllocator<M>,
    requires { (m n : M) → M.is_clone m n → m ≡ n }
{
    deserialize(alloc, places, entities, markers, allocator, list)
}

/// Loads records from a text into whatever places.
pub fn load_places_from<M: Marker + JsonData, P: DeserializeComponents<M>>(
    alloc: Global,
    places: &mut P,
    entities: &mut EntitiesRes,
    markers: &mut MaskedStorage<M>,
    allocator: &mut M::Allocator,
    text: &str,
) -> Result<(), LoadError>
where
    M::Allocator: MarkerAllocator<M>,
    P::Data: JsonPlaces,
    requires { (m n : M) → M.is_clone m n → m ≡ n }
{
    let list = records_of(alloc, text)?;
    load_places(alloc, places, entities, markers, allocator, list)
}

/// The records of a text.
pub fn records_of<M: JsonData + Drop, D: JsonPlaces + Drop>(
    alloc: Global,
    text: &str,
) -> Result<Vec<EntityData<M, D>>, LoadError> {
    from_json(alloc, text)
}

/// The text of records.
pub fn text_of<M: JsonData, D: JsonPlaces>(
    alloc: Global,
    list: &[EntityData<M, D>],
) -> Result<String, AllocError> {
    to_json(alloc, list)
}

/// A view to read.
pub fn view<'a, T: Component>(
    entities: &'a EntitiesRes,
    storage: &'a MaskedStorage<T>,
) -> ReadStorage<'a, T> {
    ReadStorage::new(entities, storage)
}

/// Saves those that have markers.
pub fn save(world: &World) -> Result<Vec<Record>, SaveError> {
    let places = (
        view(&world.entities, &world.positions),
        view(&world.entities, &world.links),
    );
    let markers = view(&world.entities, &world.markers);
    save_places(world.alloc, &places, &markers)
}

/// Saves them as a text.
pub fn save_text(world: &World) -> Result<String, SaveError> {
    let places = (
        view(&world.entities, &world.positions),
        view(&world.entities, &world.links),
    );
    let markers = view(&world.entities, &world.markers);
    save_places_as_text(world.alloc, &places, &markers)
}

/// Saves them and what they lead to.
pub fn save_all(world: &mut World) -> Result<Vec<Record>, SaveError> {
    let places = (
        view(&world.entities, &world.positions),
        view(&world.entities, &world.links),
    );
    let mut markers = WriteStorage::new(&world.entities, &mut world.markers);
    save_all_places(world.alloc, &places, &mut world.allocator, &mut markers)
}

/// Loads records.
pub fn load(world: &mut World, list: Vec<Record>) -> Result<(), LoadError> {
    load_places(
        world.alloc,
        &mut (&mut world.positions, &mut world.links),
        &mut world.entities,
        &mut world.markers,
        &mut world.allocator,
        list,
    )
}

// The id of a record, and that of its link.
fn ids_of(record: &Record) -> (u64, Option<u64>) {
    let link = match &record.components.1 {
        Some(marker) => Some(marker.id()),
        None => None,
    };
    (record.marker.id(), link)
}

/// Whether these are the ids of records and of their links.
pub fn records_are(list: &[Record], ids: &[(u64, Option<u64>)]) -> bool {
    if list.len() != ids.len() {
        return false;
    }
    for (record, expected) in list.iter().zip(ids) {
        if ids_of(record) != *expected {
            return false;
        }
    }
    true
}
