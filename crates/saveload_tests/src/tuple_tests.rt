//! Tuples of three and of six storages, saved and loaded.
use crate::components::{Level, Link, Position};
use crate::worlds::{
    NetMarker, Told, World, comes_true, empty, entity_at, ids_are, is_linked, is_marked_now,
    is_placed, is_put, link_of, load_places, place_of, save_places, view,
};
use saveload::{EntityData, LoadError, SaveError};
use std::alloc::Global;
use std::test::Fail;
use storages::{Component, MaskedStorage, UnprotectedStorage};

// What is saved of an entity's position, link and level.
type Three = EntityData<NetMarker, (Option<Position>, Option<NetMarker>, Option<Level>)>;

// What is saved of its aim, its friend and its depth besides.
type Six = EntityData<
    NetMarker,
    (
        Option<Position>,
        Option<NetMarker>,
        Option<Level>,
        Option<Position>,
        Option<NetMarker>,
        Option<Level>,
    ),
>;

// A world with four storages more.
struct Shelves {
    world: World,
    levels: MaskedStorage<Level>,
    aims: MaskedStorage<Position>,
    friends: MaskedStorage<Link>,
    depths: MaskedStorage<Level>,
}

impl Drop for Shelves {
    fn drop(self) {
        let Shelves {
            world: _world,
            levels: _levels,
            aims: _aims,
            friends: _friends,
            depths: _depths,
        } = self;
    }
}

impl Told for Shelves {
    fn with_entities(alloc: Global, count: u32) -> Result<Self, Fail> {
        Ok(Shelves {
            world: World::with_entities(alloc, count)?,
            levels: empty(alloc)?,
            aims: empty(alloc)?,
            friends: empty(alloc)?,
            depths: empty(alloc)?,
        })
    }
}

// One from which entities are saved, and one into which they are loaded.
struct Moved {
    old: Shelves,
    new: Shelves,
}

impl Drop for Moved {
    fn drop(self) {
        let Moved {
            old: _old,
            new: _new,
        } = self;
    }
}

impl Told for Moved {
    /// The entities are those of the first; nobody lives in the other.
    fn with_entities(alloc: Global, count: u32) -> Result<Self, Fail> {
        Ok(Moved {
            old: Shelves::with_entities(alloc, count)?,
            new: Shelves::with_entities(alloc, 0)?,
        })
    }
}

// Saves three components of each entity that has a marker.
fn save_three(shelves: &Shelves) -> Result<Vec<Three>, SaveError> {
    let entities = &shelves.world.entities;
    let places = (
        view(entities, &shelves.world.positions),
        view(entities, &shelves.world.links),
        view(entities, &shelves.levels),
    );
    save_places(
        shelves.world.alloc,
        &places,
        &view(entities, &shelves.world.markers),
    )
}

// Loads them.
fn load_three(shelves: &mut Shelves, list: Vec<Three>) -> Result<(), LoadError> {
    load_places(
        shelves.world.alloc,
        &mut (
            &mut shelves.world.positions,
            &mut shelves.world.links,
            &mut shelves.levels,
        ),
        &mut shelves.world.entities,
        &mut shelves.world.markers,
        &mut shelves.world.allocator,
        list,
    )
}

// Saves all six.
fn save_six(shelves: &Shelves) -> Result<Vec<Six>, SaveError> {
    let entities = &shelves.world.entities;
    let places = (
        view(entities, &shelves.world.positions),
        view(entities, &shelves.world.links),
        view(entities, &shelves.levels),
        view(entities, &shelves.aims),
        view(entities, &shelves.friends),
        view(entities, &shelves.depths),
    );
    save_places(
        shelves.world.alloc,
        &places,
        &view(entities, &shelves.world.markers),
    )
}

// Loads them.
fn load_six(shelves: &mut Shelves, list: Vec<Six>) -> Result<(), LoadError> {
    load_places(
        shelves.world.alloc,
        &mut (
            &mut shelves.world.positions,
            &mut shelves.world.links,
            &mut shelves.levels,
            &mut shelves.aims,
            &mut shelves.friends,
            &mut shelves.depths,
        ),
        &mut shelves.world.entities,
        &mut shelves.world.markers,
        &mut shelves.world.allocator,
        list,
    )
}

// Whether an entity could be given a component beside those of the world.
fn is_put_at<T: Component + Drop>(
    world: &World,
    storage: &mut MaskedStorage<T>,
    index: u32,
    component: T,
) -> bool
where
    T::Storage: UnprotectedStorage<T>,
{
    is_put(&world.entities, storage, entity_at(world, index), component)
}

// The height at an index.
fn height_of(levels: &MaskedStorage<Level>, index: u32) -> Option<i64> {
    match levels.get(index) {
        Some(level) => Some(level.0),
        None => None,
    }
}

// The aim of an index.
fn aim_of(shelves: &Shelves, index: u32) -> Option<i64> {
    match shelves.aims.get(index) {
        Some(aim) => Some(aim.0),
        None => None,
    }
}

// The index of the friend of an index.
fn friend_of(shelves: &Shelves, index: u32) -> Option<u32> {
    match shelves.friends.get(index) {
        Some(friend) => Some(friend.0.id()),
        None => None,
    }
}

// Index 2 gets id 0, and index 0 gets id 1 and is linked to index 2, which has no level.
fn is_filled(shelves: &mut Shelves) -> bool {
    let marked = is_marked_now(&mut shelves.world, 2) && is_marked_now(&mut shelves.world, 0);
    let placed = is_placed(&mut shelves.world, 0, 5) && is_placed(&mut shelves.world, 2, 6);
    let linked = is_linked(&mut shelves.world, 0, 2) && is_linked(&mut shelves.world, 2, 2);
    marked && placed && linked && is_put_at(&shelves.world, &mut shelves.levels, 0, Level(3))
}

// Each has an aim and a friend as well, but index 0 no friend, and index 2 no depth.
fn is_filled_up(shelves: &mut Shelves) -> bool {
    let friend = Link(entity_at(&shelves.world, 0));
    let aimed = is_put_at(&shelves.world, &mut shelves.aims, 0, Position(-7))
        && is_put_at(&shelves.world, &mut shelves.aims, 2, Position(8));
    aimed
        && is_put_at(&shelves.world, &mut shelves.friends, 2, friend)
        && is_put_at(&shelves.world, &mut shelves.depths, 0, Level(9))
}

// Whether what `is_filled` put is there, under the indices 0 and 1.
fn are_three_there(shelves: &Shelves) -> bool {
    ids_are(&shelves.world, [Some(1), Some(0), None].as_slice())
        && place_of(&shelves.world, 0) == Some(5)
        && place_of(&shelves.world, 1) == Some(6)
        && link_of(&shelves.world, 0) == Some(1)
        && link_of(&shelves.world, 1) == Some(1)
        && height_of(&shelves.levels, 0) == Some(3)
        && height_of(&shelves.levels, 1) == None
}

// Whether what `is_filled_up` put is there besides.
fn are_six_there(shelves: &Shelves) -> bool {
    are_three_there(shelves)
        && aim_of(shelves, 0) == Some(-7)
        && aim_of(shelves, 1) == Some(8)
        && friend_of(shelves, 0) == None
        && friend_of(shelves, 1) == Some(0)
        && height_of(&shelves.depths, 0) == Some(9)
        && height_of(&shelves.depths, 1) == None
}

// Three storages are carried over.
fn three_carried(moved: &mut Moved) -> Result<bool, Fail> {
    let filled = is_filled(&mut moved.old);
    let list = save_three(&moved.old).ok().ok_or("not saved")?;
    let loaded = load_three(&mut moved.new, list).is_ok();
    Ok(filled && loaded && are_three_there(&moved.new))
}

// Six are.
fn six_carried(moved: &mut Moved) -> Result<bool, Fail> {
    let filled = is_filled(&mut moved.old) && is_filled_up(&mut moved.old);
    let list = save_six(&moved.old).ok().ok_or("not saved")?;
    let loaded = load_six(&mut moved.new, list).is_ok();
    Ok(filled && loaded && are_six_there(&moved.new))
}

#[test]
fn three_storages_are_saved_and_loaded(rt: HostRuntime) -> Result<(), Fail> {
    assert!(rt; comes_true(rt.alloc(), 3, three_carried)?);
    Ok(())
}

#[test]
fn six_storages_are_saved_and_loaded(rt: HostRuntime) -> Result<(), Fail> {
    assert!(rt; comes_true(rt.alloc(), 3, six_carried)?);
    Ok(())
}
