//! Lists that are saved of one storage alone, and what a load makes of them.
use crate::worlds::{
    World, Worlds, comes_true, entity, id_at, is_linked, is_marked_now, is_raised, links, lives,
    load_places_from, mark, markers, place_of, positions, save_places, target_of, text_of, view,
};
use entities::Entity;
use saveload::{LoadError, MarkError};
use std::test::Fail;

// The links of those that have markers, as a text.
fn links_text(world: &World) -> Result<String, Fail> {
    let links = (view(&world.entities, &world.links),);
    let markers = view(&world.entities, &world.markers);
    let list = save_places(world.alloc, &links, &markers)
        .ok()
        .ok_or("not saved")?;
    Ok(text_of(world.alloc, &list)?)
}

// Loads links from a text.
fn load_links(world: &mut World, text: &str) -> Result<(), LoadError> {
    load_places_from(
        world.alloc,
        &mut (&mut world.links,),
        &mut world.entities,
        &mut world.markers,
        &mut world.allocator,
        text,
    )
}

// Loads positions from a text.
fn load_positions(world: &mut World, text: &str) -> Result<(), LoadError> {
    load_places_from(
        world.alloc,
        &mut (&mut world.positions,),
        &mut world.entities,
        &mut world.markers,
        &mut world.allocator,
        text,
    )
}

const CROSSWISE: &str = "[{\"components\":[[1]],\"marker\":0},{\"components\":[[0]],\"marker\":1}]";

// Two of six are marked and linked to each other, and their text is this one.
fn written_crosswise(world: &mut World) -> Result<bool, Fail> {
    let marked = is_marked_now(world, 2) && is_marked_now(world, 5);
    let linked = is_linked(world, 2, 5) && is_linked(world, 5, 2);
    let named = id_at(world, 2) == Some(0) && id_at(world, 5) == Some(1);
    let text = links_text(world)?;
    Ok(marked && linked && named && text.as_str() == CROSSWISE)
}

// Whether the first two entities were born, with these ids, and are linked to each other.
fn linked_crosswise(world: &World) -> Result<bool, Fail> {
    let first = entity(0, 1)?;
    let second = entity(1, 1)?;
    let born = lives(world, first) && lives(world, second);
    let linked = target_of(world, 0) == Some(second) && target_of(world, 1) == Some(first);
    let named = id_at(world, 0) == Some(0) && id_at(world, 1) == Some(1);
    Ok(born && linked && named && links(world) == 2 && markers(world) == 2)
}

fn links_carried(worlds: &mut Worlds) -> Result<bool, Fail> {
    let written = written_crosswise(&mut worlds.old)?;
    let loaded = load_links(&mut worlds.new, CROSSWISE).is_ok();
    Ok(written && loaded && linked_crosswise(&worlds.new)?)
}

#[test]
fn links_alone_are_written_and_loaded(rt: HostRuntime) -> Result<(), Fail> {
    assert!(rt; comes_true(rt.alloc(), 6, links_carried)?);
    Ok(())
}

// A new entity.
fn born(world: &mut World) -> Result<Entity, Fail> {
    Ok(world.entities.create().ok().ok_or("no entity")?)
}

// A record has the last id; the next entity gets none.
fn loaded_with_the_last_id(world: &mut World) -> Result<bool, Fail> {
    let text = "[{\"components\":[null],\"marker\":18446744073709551615}]";
    let loaded = load_links(world, text).is_ok() && id_at(world, 0) == Some(u64::MAX);
    let next = born(world)?;
    let exhausted = mark(world, next) == Err(MarkError::IdsExhausted);
    Ok(loaded && exhausted && id_at(world, 1) == None)
}

#[test]
fn a_load_of_the_last_id_uses_the_ids_up(rt: HostRuntime) -> Result<(), Fail> {
    assert!(rt; comes_true(rt.alloc(), 0, loaded_with_the_last_id)?);
    Ok(())
}

// Whether there are so many markers, and so many positions.
fn counts_are(world: &World, marked: usize, placed: usize) -> bool {
    markers(world) == marked && positions(world) == placed
}

// Whether a text is refused as one of another form, and nothing is loaded.
fn is_of_another_form(world: &mut World, text: &str) -> bool {
    matches!(load_positions(world, text), Err(LoadError::NotTheForm))
        && counts_are(world, 0, 0)
        && !is_raised(world, 0)
}

// An empty list and two that are no lists of positions load nothing.
fn nothing_loaded(world: &mut World) -> Result<bool, Fail> {
    let empty = load_positions(world, "[]").is_ok();
    let bare = counts_are(world, 0, 0) && !is_raised(world, 0);
    let short = is_of_another_form(world, "[{\"components\":[],\"marker\":0}]");
    let cut = is_of_another_form(world, "[{\"components\":[null],\"marker\":0},");
    Ok(empty && bare && short && cut)
}

#[test]
fn lists_without_a_record_load_nothing(rt: HostRuntime) -> Result<(), Fail> {
    assert!(rt; comes_true(rt.alloc(), 0, nothing_loaded)?);
    Ok(())
}

// Two records of one marker make one entity, with the later position.
fn placed_twice(world: &mut World) -> Result<bool, Fail> {
    let text = "[{\"components\":[[5]],\"marker\":0},{\"components\":[[7]],\"marker\":0}]";
    let loaded = load_positions(world, text).is_ok();
    let one = is_raised(world, 0) && !is_raised(world, 1);
    Ok(loaded && one && counts_are(world, 1, 1) && place_of(world, 0) == Some(7))
}

#[test]
fn the_later_of_two_positions_of_one_marker_stays(rt: HostRuntime) -> Result<(), Fail> {
    assert!(rt; comes_true(rt.alloc(), 0, placed_twice)?);
    Ok(())
}
