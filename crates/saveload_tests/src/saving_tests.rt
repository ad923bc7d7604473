//! What is saved, and what a load makes of it.
use crate::components::Position;
use crate::worlds::{
    NetMarker, Record, SavedPair, World, Worlds, built, comes_true, entity, entity_at, id_at,
    ids_are, is_linked, is_marked_now, is_placed, is_raised, links_are, load, marker_of, markers,
    place_of, positions, records_are, save, save_all, target_of, view,
};
use entities::Entity;
use saveload::{DeserializeComponents, EntityData, Marker, SaveError, SerializeComponents};
use std::alloc::Global;
use std::test::Fail;

// Whether the marked ones are saved with these ids and links, and loaded into the other world.
fn carried(worlds: &mut Worlds, ids: &[(u64, Option<u64>)]) -> Result<bool, Fail> {
    let list = save(&worlds.old).ok().ok_or("not saved")?;
    let saved = records_are(&list, ids);
    Ok(saved && load(&mut worlds.new, list).is_ok())
}

// Two that refer to each other.
fn carried_crosswise(worlds: &mut Worlds) -> Result<bool, Fail> {
    let marked = is_marked_now(&mut worlds.old, 2) && is_marked_now(&mut worlds.old, 5);
    let linked = is_linked(&mut worlds.old, 2, 5) && is_linked(&mut worlds.old, 5, 2);
    let carried = carried(worlds, [(0, Some(1)), (1, Some(0))].as_slice())?;
    Ok(
        marked
            && linked
            && carried
            && links_are(&worlds.new, [Some(1), Some(0), None].as_slice())
            && ids_are(&worlds.new, [Some(0), Some(1), None].as_slice())
            && births_are(&worlds.new, [true, true, false].as_slice()),
    )
}

// Whether the births of just these of the indices from 0 on are pending.
fn births_are(world: &World, births: &[bool]) -> bool {
    let mut index = 0u32;
    for pending in births {
        if is_raised(world, index) != *pending {
            return false;
        }
        index = index.wrapping_add(1);
    }
    !is_merged(world, 0)
}

// Whether an index lives, and its birth was merged.
fn is_merged(world: &World, index: u32) -> bool {
    world.entities.living().0.contains(index)
}

#[test]
fn links_of_marked_ones_are_saved_and_loaded(rt: HostRuntime) -> Result<(), Fail> {
    assert!(rt; comes_true(rt.alloc(), 6, carried_crosswise)?);
    Ok(())
}

// A chain of three, of which the first is marked.
fn chained(world: &mut World) -> bool {
    is_linked(world, 0, 3) && is_linked(world, 3, 5) && is_marked_now(world, 0)
}

// The index of the entity for which a save is refused.
fn refused_for(world: &World) -> Option<u32> {
    match save(world) {
        Err(SaveError::Unmarked(entity)) => Some(entity.id()),
        _ => None,
    }
}

// Whether the marked ones and what they lead to are saved with these ids and links, and loaded into the other world.
fn carried_whole(worlds: &mut Worlds, ids: &[(u64, Option<u64>)]) -> Result<bool, Fail> {
    let list = save_all(&mut worlds.old).ok().ok_or("not saved")?;
    let saved = records_are(&list, ids);
    Ok(saved && load(&mut worlds.new, list).is_ok())
}

// A chain is refused, and then marked and saved whole.
fn chain_carried(worlds: &mut Worlds) -> Result<bool, Fail> {
    let refused = chained(&mut worlds.old) && refused_for(&worlds.old) == Some(3);
    let carried = carried_whole(worlds, [(0, Some(1)), (1, Some(2)), (2, None)].as_slice())?;
    Ok(
        refused
            && carried
            && ids_are(
                &worlds.old,
                [Some(0), None, None, Some(1), None, Some(2)].as_slice(),
            )
            && links_are(&worlds.new, [Some(1), Some(2), None].as_slice())
            && births_are(&worlds.new, [true, true, true, false].as_slice()),
    )
}

#[test]
fn a_chain_is_refused_or_saved_whole(rt: HostRuntime) -> Result<(), Fail> {
    assert!(rt; comes_true(rt.alloc(), 6, chain_carried)?);
    Ok(())
}

// Two are loaded, and two more built beside them.
fn carried_and_built(worlds: &mut Worlds) -> Result<bool, Fail> {
    let placed = is_placed(&mut worlds.old, 0, 32) && is_placed(&mut worlds.old, 1, 64);
    let marked = is_marked_now(&mut worlds.old, 0) && is_marked_now(&mut worlds.old, 1);
    let carried = carried(worlds, [(0, None), (1, None)].as_slice())?;
    Ok(placed && marked && carried && go_on_from_two(&mut worlds.new)?)
}

// Whether two were loaded, and two more get the next ids.
fn go_on_from_two(world: &mut World) -> Result<bool, Fail> {
    let loaded = markers(world) == 2;
    let _third = built(world)?;
    let _fourth = built(world)?;
    Ok(
        loaded
            && place_of(world, 0) == Some(32)
            && place_of(world, 1) == Some(64)
            && ids_are(world, [Some(0), Some(1), Some(2), Some(3)].as_slice())
            && markers(world) == 4,
    )
}

#[test]
fn bumps_index_after_reload(rt: HostRuntime) -> Result<(), Fail> {
    assert!(rt; comes_true(rt.alloc(), 2, carried_and_built)?);
    Ok(())
}

// A record of a place.
fn record_at(marker: NetMarker, place: i64) -> Record {
    EntityData {
        marker,
        components: (Some(Position(place)), None),
    }
}

// Two records of one id.
fn two_of_one_id(alloc: Global) -> Result<Vec<Record>, Fail> {
    let any = entity(0, 1)?;
    let marker = marker_of(alloc, 0, any)?;
    let mut list = Vec::with_capacity(alloc, 2)?;
    list.push(record_at(marker, 5))?;
    list.push(record_at(marker, 7))?;
    Ok(list)
}

// Both are loaded.
fn loaded_over(world: &mut World) -> Result<bool, Fail> {
    let list = two_of_one_id(world.alloc)?;
    let loaded = load(world, list).is_ok();
    Ok(loaded && place_of(world, 0) == Some(7) && positions(world) == 1 && markers(world) == 1)
}

#[test]
fn the_later_of_two_records_of_one_id_stays(rt: HostRuntime) -> Result<(), Fail> {
    assert!(rt; comes_true(rt.alloc(), 0, loaded_over)?);
    Ok(())
}

// The place and the id of the link that are saved of index 0, where this entity alone has a marker; or the entity that is refused.
fn saved_with(
    world: &World,
    marked: Entity,
    marker: NetMarker,
) -> Result<(Option<i64>, Option<u64>), Option<Entity>> {
    let places = (
        view(&world.entities, &world.positions),
        view(&world.entities, &world.links),
    );
    let ids = |e: Entity| { if e == marked { Some(marker) } else { None } };
    match places.serialize_entity(world.alloc, entity_at(world, 0), ids) {
        Ok((position, link)) => Ok((position.map(|p| p.0), link.map(|m: NetMarker| m.id()))),
        Err(SaveError::Unmarked(entity)) => Err(Some(entity)),
        Err(_) => Err(None),
    }
}

// Whether this was stored at index 1, where each marker names this entity.
fn is_stored(world: &mut World, saved: SavedPair, target: Entity) -> bool {
    let entity = entity_at(world, 1);
    let mut lent = (&mut world.positions, &mut world.links);
    lent.deserialize_entity(
        world.alloc,
        &world.entities,
        entity,
        saved,
        |_m: NetMarker| { Some(target) },
    )
    .is_ok()
}

// One entity is saved where its target has an id, and refused where another has it.
fn saved_alone(world: &mut World) -> Result<bool, Fail> {
    let target = entity(3, 1)?;
    let other = entity(2, 1)?;
    let seven = marker_of(world.alloc, 7, target)?;
    Ok(
        is_linked(world, 0, 3)
            && saved_with(world, target, seven) == Ok((None, Some(7)))
            && saved_with(world, other, seven) == Err(Some(target)),
    )
}

// One is stored, and then nothing in its place.
fn stored_alone(world: &mut World) -> Result<bool, Fail> {
    let target = entity(3, 1)?;
    let seven = marker_of(world.alloc, 7, target)?;
    let stored = is_stored(world, (Some(Position(4)), Some(seven)), target);
    let there = place_of(world, 1) == Some(4) && target_of(world, 1) == Some(target);
    let emptied = is_stored(world, (None, None), target);
    let gone = place_of(world, 1) == None && target_of(world, 1) == None;
    Ok(stored && there && emptied && gone && id_at(world, 1) == None)
}

#[test]
fn one_entity_is_saved_by_ids_handed_in(rt: HostRuntime) -> Result<(), Fail> {
    assert!(rt; comes_true(rt.alloc(), 4, saved_alone)?);
    Ok(())
}

#[test]
fn one_entity_is_stored_by_ids_handed_in(rt: HostRuntime) -> Result<(), Fail> {
    assert!(rt; comes_true(rt.alloc(), 4, stored_alone)?);
    Ok(())
}
