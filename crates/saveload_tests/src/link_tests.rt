//! Links of two relations, saved in one world and loaded in another.
use crate::worlds::{
    NetMarker, NetworkSync, Told, comes_true, empty, entity, is_put, living, load_places_from,
    save_places, text_of, view,
};
use entities::{EntitiesRes, Entity};
use saveload::{EntityData, Link, MarkerAllocator, Relation, SaveError, SimpleMarkerAllocator};
use std::alloc::Global;
use std::test::Fail;
use storages::{DenseVecStorage, MaskedStorage, VecStorage, WriteStorage};

// Whom somebody hunts. It can be neither copied nor compared, and its links can.
struct Hunts;

impl Relation for Hunts {
    type Storage = DenseVecStorage<Link<Self>>;
}

// Whom somebody feeds.
struct Feeds;

impl Relation for Feeds {
    type Storage = VecStorage<Link<Self>>;
}

// What is saved of an entity: whom it hunts, and whom it feeds.
type Record = EntityData<NetMarker, (Option<NetMarker>, Option<NetMarker>)>;

// Entities that hunt and feed each other.
struct Wood {
    alloc: Global,
    entities: EntitiesRes,
    hunts: MaskedStorage<Link<Hunts>>,
    feeds: MaskedStorage<Link<Feeds>>,
    markers: MaskedStorage<NetMarker>,
    allocator: SimpleMarkerAllocator<NetworkSync>,
}

impl Drop for Wood {
    fn drop(self) {
        let Wood {
            alloc: _alloc,
            entities: _entities,
            hunts: _hunts,
            feeds: _feeds,
            markers: _markers,
            allocator: _allocator,
        } = self;
    }
}

impl Told for Wood {
    fn with_entities(alloc: Global, count: u32) -> Result<Self, Fail> {
        let hunts = empty(alloc)?;
        let feeds = empty(alloc)?;
        let markers = empty(alloc)?;
        Ok(Wood {
            alloc,
            entities: living(alloc, count)?,
            hunts,
            feeds,
            markers,
            allocator: SimpleMarkerAllocator::new(alloc),
        })
    }
}

// A wood that is saved, and one into which it is loaded.
struct Woods {
    old: Wood,
    new: Wood,
}

impl Drop for Woods {
    fn drop(self) {
        let Woods {
            old: _old,
            new: _new,
        } = self;
    }
}

impl Told for Woods {
    fn with_entities(alloc: Global, count: u32) -> Result<Self, Fail> {
        Ok(Woods {
            old: Wood::with_entities(alloc, count)?,
            new: Wood::with_entities(alloc, 0)?,
        })
    }
}

// Whether the entity of an index just got its marker.
fn is_marked_now(wood: &mut Wood, index: u32) -> bool {
    let entity = wood.entities.entity(index);
    let mut markers = WriteStorage::new(&wood.entities, &mut wood.markers);
    wood.allocator.mark(entity, &mut markers) == Ok(Some(true))
}

// Whether an index could be made to hunt another.
fn is_hunting(wood: &mut Wood, from: u32, to: u32) -> bool {
    let source = wood.entities.entity(from);
    let target = wood.entities.entity(to);
    is_put(&wood.entities, &mut wood.hunts, source, Link::new(target))
}

// Whether an index could be made to feed another.
fn is_feeding(wood: &mut Wood, from: u32, to: u32) -> bool {
    let source = wood.entities.entity(from);
    let target = wood.entities.entity(to);
    is_put(&wood.entities, &mut wood.feeds, source, Link::new(target))
}

// Whether an index hunts just this entity, by a copy of its link.
fn hunts_only(wood: &Wood, index: u32, target: Entity) -> bool {
    match wood.hunts.get(index) {
        Some(link) => {
            let copy = *link;
            copy.entity == target && copy == Link::new(target)
        }
        None => false,
    }
}

// Whether an index feeds just this entity.
fn feeds_only(wood: &Wood, index: u32, target: Entity) -> bool {
    match wood.feeds.get(index) {
        Some(link) => *link == Link::new(target),
        None => false,
    }
}

// The links of those that have markers.
fn records(wood: &Wood) -> Result<Vec<Record>, SaveError> {
    let places = (
        view(&wood.entities, &wood.hunts),
        view(&wood.entities, &wood.feeds),
    );
    let markers = view(&wood.entities, &wood.markers);
    save_places(wood.alloc, &places, &markers)
}

// The same as a text.
fn saved(wood: &Wood) -> Result<String, Fail> {
    let list = records(wood).ok().ok_or("not saved")?;
    Ok(text_of(wood.alloc, &list)?)
}

// Whether the links of a text were loaded.
fn is_loaded(wood: &mut Wood, text: &str) -> bool {
    load_places_from(
        wood.alloc,
        &mut (&mut wood.hunts, &mut wood.feeds),
        &mut wood.entities,
        &mut wood.markers,
        &mut wood.allocator,
        text,
    )
    .is_ok()
}

const HUNTER_AND_PREY: &str =
    "[{\"components\":[[1],null],\"marker\":0},{\"components\":[null,[0]],\"marker\":1}]";

// The third of six hunts the last, which feeds it, and both are marked.
fn hunted(wood: &mut Wood) -> bool {
    is_marked_now(wood, 2)
        && is_marked_now(wood, 5)
        && is_hunting(wood, 2, 5)
        && is_feeding(wood, 5, 2)
}

// In the other wood the first hunts the second, which feeds it.
fn carried(woods: &mut Woods) -> Result<bool, Fail> {
    let hunted = hunted(&mut woods.old);
    let text = saved(&woods.old)?;
    let loaded = is_loaded(&mut woods.new, text.as_str());
    let hunter = entity(0, 1)?;
    let prey = entity(1, 1)?;
    let led = hunts_only(&woods.new, 0, prey) && feeds_only(&woods.new, 1, hunter);
    let alone = woods.new.hunts.count() == 1 && woods.new.feeds.count() == 1;
    Ok(hunted && text.as_str() == HUNTER_AND_PREY && loaded && led && alone)
}

#[test]
fn links_of_two_relations_lead_to_the_loaded_counterparts(rt: HostRuntime) -> Result<(), Fail> {
    assert!(rt; comes_true(rt.alloc(), 6, carried)?);
    Ok(())
}

// The prey has no marker.
fn refused(wood: &mut Wood) -> Result<bool, Fail> {
    let hunted = is_marked_now(wood, 2) && is_hunting(wood, 2, 5);
    let prey = wood.entities.entity(5);
    let named = match records(wood) {
        Err(SaveError::Unmarked(unmarked)) => unmarked == prey,
        _ => false,
    };
    Ok(hunted && named)
}

#[test]
fn a_link_to_one_without_a_marker_is_not_saved(rt: HostRuntime) -> Result<(), Fail> {
    assert!(rt; comes_true(rt.alloc(), 6, refused)?);
    Ok(())
}
