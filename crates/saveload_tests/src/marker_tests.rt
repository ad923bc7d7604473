//! Numbered markers: which id an entity gets, and which entity an id names.
use crate::worlds::{
    World, built, comes_true, entity, entity_at, id_at, ids_are, is_marked_now, is_unmarked_now,
    known, mark, marker_of,
};
use entities::Entity;
use saveload::{MarkError, MarkerAllocator};
use std::test::Fail;

// Two are marked, the first of them twice.
fn marked_in_turn(world: &mut World) -> Result<bool, Fail> {
    let first = entity_at(world, 0);
    let second = entity_at(world, 1);
    let is_new = mark(world, first) == Ok(Some(true));
    let is_old = mark(world, first) == Ok(Some(false));
    let is_next = mark(world, second) == Ok(Some(true));
    Ok(
        is_new
            && is_old
            && is_next
            && ids_are(world, [Some(0), Some(1)].as_slice())
            && known(world, 1) == Some(second)
            && known(world, 2) == None,
    )
}

#[test]
fn mark_gives_the_next_number_once(rt: HostRuntime) -> Result<(), Fail> {
    assert!(rt; comes_true(rt.alloc(), 2, marked_in_turn)?);
    Ok(())
}

// Nobody lives, and one is marked.
fn marked_in_vain(world: &mut World) -> Result<bool, Fail> {
    let stale = entity(0, 1)?;
    Ok(mark(world, stale) == Ok(None) && id_at(world, 0) == None)
}

#[test]
fn mark_of_one_that_is_not_alive(rt: HostRuntime) -> Result<(), Fail> {
    assert!(rt; comes_true(rt.alloc(), 0, marked_in_vain)?);
    Ok(())
}

// The entity that a marker of an id names.
fn named_by(world: &mut World, id: u64) -> Result<Entity, Fail> {
    let marker = marker_of(world.alloc, id, entity_at(world, 0))?;
    let named = world
        .allocator
        .retrieve_entity(marker, &mut world.markers, &mut world.entities);
    Ok(named.ok().ok_or("refused")?)
}

// An id names a new entity, and then that one again, and the next id another; a new id is above both.
fn named_twice(world: &mut World) -> Result<bool, Fail> {
    let named = named_by(world, 7)?;
    let again = named_by(world, 7)?;
    let other = named_by(world, 8)?;
    Ok(
        named.id() == 1
            && again == named
            && other.id() == 2
            && known(world, 7) == Some(named)
            && is_marked_now(world, 0)
            && ids_are(world, [Some(9), Some(7), Some(8)].as_slice()),
    )
}

#[test]
fn a_marker_names_one_entity(rt: HostRuntime) -> Result<(), Fail> {
    assert!(rt; comes_true(rt.alloc(), 1, named_twice)?);
    Ok(())
}

// An entity loses its marker, whose id then names another.
fn lost_and_named(world: &mut World) -> Result<bool, Fail> {
    let lost = is_marked_now(world, 0) && is_unmarked_now(world, 0);
    let named = named_by(world, 0)?;
    Ok(
        lost && named.id() == 1
            && known(world, 0) == Some(named)
            && ids_are(world, [None, Some(0)].as_slice()),
    )
}

#[test]
fn a_lost_marker_is_not_found_again(rt: HostRuntime) -> Result<(), Fail> {
    assert!(rt; comes_true(rt.alloc(), 1, lost_and_named)?);
    Ok(())
}

// After the last id none is left.
fn named_by_the_last(world: &mut World) -> Result<bool, Fail> {
    let _named = named_by(world, u64::MAX)?;
    let first = entity_at(world, 0);
    Ok(mark(world, first) == Err(MarkError::IdsExhausted) && id_at(world, 0) == None)
}

#[test]
fn ids_are_used_up(rt: HostRuntime) -> Result<(), Fail> {
    assert!(rt; comes_true(rt.alloc(), 1, named_by_the_last)?);
    Ok(())
}

// Whether an index is to die.
fn is_doomed(world: &World, index: u32) -> bool {
    world.entities.marked().contains(index)
}

// Two are built.
fn built_in_turn(world: &mut World) -> Result<bool, Fail> {
    let first = built(world)?;
    let second = built(world)?;
    Ok(
        first.id() == 0
            && second.id() == 1
            && ids_are(world, [Some(0), Some(1)].as_slice())
            && !is_doomed(world, 0),
    )
}

#[test]
fn a_builder_marks_its_entity(rt: HostRuntime) -> Result<(), Fail> {
    assert!(rt; comes_true(rt.alloc(), 0, built_in_turn)?);
    Ok(())
}

// Whether an entity was killed.
fn is_killed(world: &mut World, entity: Entity) -> bool {
    world.entities.alloc_mut().kill([entity].as_slice()).is_ok()
}

// Whether ids could be forgotten.
fn is_maintained(world: &mut World) -> bool {
    world
        .allocator
        .maintain(world.alloc, &world.entities, &world.markers)
        .is_ok()
}

// One of three dies, another loses its marker, and only the third is known then.
fn known_after_maintain(world: &mut World) -> Result<bool, Fail> {
    let marked = is_marked_now(world, 0) && is_marked_now(world, 1) && is_marked_now(world, 2);
    let third = entity_at(world, 2);
    let first = entity_at(world, 0);
    let killed = is_killed(world, first);
    let lost = is_unmarked_now(world, 1);
    let before = known(world, 1);
    let maintained = is_maintained(world);
    Ok(
        marked
            && killed
            && lost
            && maintained
            && before.is_some()
            && known(world, 0) == None
            && known(world, 1) == None
            && known(world, 2) == Some(third)
            && is_marked_now(world, 1)
            && id_at(world, 1) == Some(3),
    )
}

#[test]
fn maintain_forgets_all_but_the_living_with_markers(rt: HostRuntime) -> Result<(), Fail> {
    assert!(rt; comes_true(rt.alloc(), 3, known_after_maintain)?);
    Ok(())
}
