//! What a load or a save that was refused keeps.
use crate::components::{Level, Position};
use crate::worlds::{
    NetMarker, Told, World, comes_true, empty, entity, entity_at, ids_are, is_linked, is_linked_to,
    is_marked_now, load_places, marker_of, place_of, save_all,
};
use entities::Entity;
use saveload::{EntityData, LoadError, MarkerAllocator, SaveError};
use std::alloc::Global;
use std::test::Fail;
use storages::MaskedStorage;

// What is saved of an entity's position and level.
type Standing = EntityData<NetMarker, (Option<Position>, Option<Level>)>;

// A world with levels.
struct Leveled {
    world: World,
    levels: MaskedStorage<Level>,
}

impl Drop for Leveled {
    fn drop(self) {
        let Leveled {
            world: _world,
            levels: _levels,
        } = self;
    }
}

impl Told for Leveled {
    fn with_entities(alloc: Global, count: u32) -> Result<Self, Fail> {
        Ok(Leveled {
            world: World::with_entities(alloc, count)?,
            levels: empty(alloc)?,
        })
    }
}

// The level of an index.
fn level_of(leveled: &Leveled, index: u32) -> Option<i64> {
    match leveled.levels.get(index) {
        Some(level) => Some(level.0),
        None => None,
    }
}

// A record.
fn standing(alloc: Global, id: u64, place: Option<i64>, level: i64) -> Result<Standing, Fail> {
    let any = entity(0, 1)?;
    Ok(EntityData {
        marker: marker_of(alloc, id, any)?,
        components: (place.map(|p| Position(p)), Some(Level(level))),
    })
}

// Whether a conversion of a list's own refused it.
fn is_stopped(leveled: &mut Leveled, list: Vec<Standing>) -> bool {
    let loaded = load_places(
        leveled.world.alloc,
        &mut (&mut leveled.world.positions, &mut leveled.levels),
        &mut leveled.world.entities,
        &mut leveled.world.markers,
        &mut leveled.world.allocator,
        list,
    );
    match loaded {
        Err(LoadError::Custom(_)) => true,
        _ => false,
    }
}

// Three records, of which the second is refused at its second place.
fn three(alloc: Global) -> Result<Vec<Standing>, Fail> {
    let mut list = Vec::with_capacity(alloc, 3)?;
    list.push(standing(alloc, 0, Some(5), 1)?)?;
    list.push(standing(alloc, 1, Some(6), -1)?)?;
    list.push(standing(alloc, 2, Some(7), 2)?)?;
    Ok(list)
}

// The first record is loaded, of the second its entity and its first place are, and of the third nothing is.
fn stopped_at_the_second(leveled: &mut Leveled) -> Result<bool, Fail> {
    let list = three(leveled.world.alloc)?;
    let stopped = is_stopped(leveled, list);
    Ok(
        stopped
            && ids_are(&leveled.world, [Some(0), Some(1), None].as_slice())
            && place_of(&leveled.world, 0) == Some(5)
            && place_of(&leveled.world, 1) == Some(6)
            && place_of(&leveled.world, 2) == None
            && level_of(leveled, 0) == Some(1)
            && level_of(leveled, 1) == None
            && level_of(leveled, 2) == None,
    )
}

// A place that is refused keeps what was there, after one that was emptied.
fn stopped_over(leveled: &mut Leveled) -> Result<bool, Fail> {
    let first = stopped_at_the_second(leveled)?;
    let mut list = Vec::with_capacity(leveled.world.alloc, 1)?;
    list.push(standing(leveled.world.alloc, 0, None, -4)?)?;
    let stopped = is_stopped(leveled, list);
    Ok(first && stopped && place_of(&leveled.world, 0) == None && level_of(leveled, 0) == Some(1))
}

#[test]
fn a_load_that_is_refused_keeps_what_came_before(rt: HostRuntime) -> Result<(), Fail> {
    assert!(rt; comes_true(rt.alloc(), 0, stopped_over)?);
    Ok(())
}

// The entity that a save of all can't name, if that is why it is refused.
fn unnamed_of(world: &mut World) -> Option<Entity> {
    match save_all(world) {
        Err(SaveError::Unmarked(entity)) => Some(entity),
        _ => None,
    }
}

// Whether a save of all is refused since no id is left.
fn is_out_of_ids(world: &mut World) -> bool {
    matches!(save_all(world), Err(SaveError::IdsExhausted))
}

// Whether the first entity could be given an id, without a marker.
fn is_given(world: &mut World, id: u64) -> bool {
    let first = entity_at(world, 0);
    world.allocator.allocate(first, Some(id)).is_ok()
}

// The second of a chain refers to one that isn't alive.
fn refused_in_a_chain(world: &mut World) -> Result<bool, Fail> {
    let stale = entity(4, 9)?;
    let second = entity_at(world, 3);
    let begun = is_marked_now(world, 0) && is_linked(world, 0, 3);
    let linked = is_linked_to(world, second, stale);
    let refused = unnamed_of(world) == Some(stale);
    Ok(
        begun
            && linked
            && refused
            && ids_are(world, [Some(0), None, None, Some(1), None].as_slice()),
    )
}

// A chain of three, of which one id is left for two.
fn refused_without_ids(world: &mut World) -> Result<bool, Fail> {
    let begun = is_marked_now(world, 0) && is_linked(world, 0, 2) && is_linked(world, 2, 1);
    let given = is_given(world, u64::MAX - 1);
    let refused = is_out_of_ids(world);
    Ok(begun && given && refused && ids_are(world, [Some(0), None, Some(u64::MAX)].as_slice()))
}

#[test]
fn a_save_without_ids_keeps_the_first_markers(rt: HostRuntime) -> Result<(), Fail> {
    assert!(rt; comes_true(rt.alloc(), 3, refused_without_ids)?);
    Ok(())
}

#[test]
fn a_save_that_is_refused_keeps_the_markers_it_gave(rt: HostRuntime) -> Result<(), Fail> {
    assert!(rt; comes_true(rt.alloc(), 5, refused_in_a_chain)?);
    Ok(())
}
