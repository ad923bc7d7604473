//! Markers that are identifiers of sixteen bytes.
ghost use Rattle.std.specs.Prelude.{◌≡◌, ℕ, ◌+◌, ◌%◌, ◌^◌};
ghost use Rattle.rand_core.specs.Steps.{stream_of, steps_u32};

use crate::components::Position;
use crate::worlds::{
    Told, comes_true, count_of, empty, is_put, living, load_places, records_of, save_places,
    text_of, view,
};
use entities::{EntitiesRes, Entity};
use rand_core::utils::NextWord;
use rand_core::{Rng, utils};
use saveload::{
    EntityData, LoadError, MarkError, MarkerAllocator, UuidMarker, UuidMarkerAllocator, WithMarker,
};
use std::alloc::Global;
use std::test::Fail;
use storages::{MaskedStorage, WriteStorage};
use uuid::Uuid;

/// A generator of words, each of which is the one before and as much more, past the greatest from 0 on. One that adds 0 gives one word again and
/// again.
#[derive(Drop)]
pub struct Adding {
    word: u32,
    more: u32,
}

impl NextWord<u32> for Adding {
    ghost step = { λ s. (s.word, record { word = (s.word + s.more) % 2 ^ 32; more = s.more }) };

    fn next_word(&mut self) -> u32 {
        let word = self.word;
        self.word = word.wrapping_add(self.more);
        word
    }
}

impl Rng for Adding {
    ghost stream = { stream_of (steps_u32 (λ s. (s.word, record { word = (s.word + s.more) % 2 ^ 32; more = s.more }))) };

    fn next_u32(&mut self) -> u32 {
        self.next_word()
    }

    fn next_u64(&mut self) -> u64 {
        utils::next_u64_via_u32(self)
    }

    fn fill_bytes(&mut self, dst: &mut [u8]) {
        utils::fill_bytes_via_u32(self, dst)
    }
}

type Label = UuidMarker<Adding>;

type Saved = EntityData<Label, (Option<u64>,)>;

type Placed = EntityData<Label, (Option<Position>,)>;

/// Entities, with their positions and labels.
struct Labelled {
    alloc: Global,
    entities: EntitiesRes,
    positions: MaskedStorage<Position>,
    labels: MaskedStorage<Label>,
    allocator: UuidMarkerAllocator<Adding>,
}

impl Drop for Labelled {
    fn drop(self) {
        let Labelled {
            alloc: _alloc,
            entities: _entities,
            positions: _positions,
            labels: _labels,
            allocator: _allocator,
        } = self;
    }
}

// A generator, from a word on.
fn generator(word: u32, more: u32) -> Adding {
    Adding { word, more }
}

impl Told for Labelled {
    fn with_entities(alloc: Global, count: u32) -> Result<Self, Fail> {
        let positions = empty(alloc)?;
        let labels = empty(alloc)?;
        Ok(Labelled {
            alloc,
            entities: living(alloc, count)?,
            positions,
            labels,
            allocator: UuidMarkerAllocator::new(alloc, generator(0x1234_5678, 0)),
        })
    }
}

/// Entities from which some are saved, and those to which they are loaded.
struct Reloaded {
    old: Labelled,
    new: Labelled,
}

impl Drop for Reloaded {
    fn drop(self) {
        let Reloaded {
            old: _old,
            new: _new,
        } = self;
    }
}

impl Told for Reloaded {
    /// The entities are those of the first; nobody lives in the other.
    fn with_entities(alloc: Global, count: u32) -> Result<Self, Fail> {
        Ok(Reloaded {
            old: Labelled::with_entities(alloc, count)?,
            new: Labelled::with_entities(alloc, 0)?,
        })
    }
}

// The entity of an index.
fn entity_at(world: &Labelled, index: u32) -> Entity {
    world.entities.entity(index)
}

// The entity that an identifier is mapped to.
fn known(world: &Labelled, id: Uuid) -> Option<Entity> {
    world.allocator.retrieve_entity_internal(id)
}

// How many labels there are.
fn labels(world: &Labelled) -> usize {
    count_of(&world.labels)
}

fn label(world: &mut Labelled, index: u32) -> Result<Option<bool>, MarkError> {
    let entity = entity_at(world, index);
    let mut labels = WriteStorage::new(&world.entities, &mut world.labels);
    world.allocator.mark(entity, &mut labels)
}

// The identifier at an index.
fn uuid_at(world: &Labelled, index: u32) -> Option<Uuid> {
    match world.labels.get(index) {
        Some(label) => Some(label.uuid()),
        None => None,
    }
}

// The second draw gives the same bytes as the first.
fn drawn_twice(world: &mut Labelled) -> Result<bool, Fail> {
    let first = label(world, 0) == Ok(Some(true));
    let id = uuid_at(world, 0).ok_or("no label")?;
    let taken = label(world, 1) == Err(MarkError::IdTaken);
    let kept = uuid_at(world, 0) == Some(id) && labels(world) == 1;
    let old = label(world, 0) == Ok(Some(false));
    Ok(
        first
            && taken
            && kept
            && old
            && uuid_at(world, 1) == None
            && known(world, id) == Some(entity_at(world, 0)),
    )
}

#[test]
fn a_drawn_identifier_that_is_held_is_refused(rt: HostRuntime) -> Result<(), Fail> {
    assert!(rt; comes_true(rt.alloc(), 2, drawn_twice)?);
    Ok(())
}

// Whether an index could be given a position and a label.
fn is_placed_and_labelled(world: &mut Labelled, index: u32, place: i64) -> bool {
    let entity = entity_at(world, index);
    let placed = is_put(
        &world.entities,
        &mut world.positions,
        entity,
        Position(place),
    );
    placed && label(world, index) == Ok(Some(true))
}

// The place of an index.
fn place_of(world: &Labelled, index: u32) -> Option<i64> {
    match world.positions.get(index) {
        Some(position) => Some(position.0),
        None => None,
    }
}

// The positions of those that have labels.
fn save(world: &Labelled) -> Result<Vec<Placed>, Fail> {
    let places = (view(&world.entities, &world.positions),);
    let labels = view(&world.entities, &world.labels);
    Ok(
        save_places(world.alloc, &places, &labels)
            .ok()
            .ok_or("not saved")?,
    )
}

// Loads them.
fn load(world: &mut Labelled, list: Vec<Placed>) -> Result<(), LoadError> {
    load_places(
        world.alloc,
        &mut (&mut world.positions,),
        &mut world.entities,
        &mut world.labels,
        &mut world.allocator,
        list,
    )
}

// A new entity with a label.
fn built(world: &mut Labelled) -> Result<Entity, Fail> {
    let builder = world.entities.build_entity().ok().ok_or("no entity")?;
    let builder = builder.marked(&mut world.labels, &mut world.allocator);
    Ok(builder.ok().ok_or("refused")?.build())
}

// Whether the first four have labels, no two of which are alike.
fn four_differ(world: &Labelled) -> bool {
    for index in 0..4u32 {
        if uuid_at(world, index) == None {
            return false;
        }
        for earlier in 0..index {
            if uuid_at(world, earlier) == uuid_at(world, index) {
                return false;
            }
        }
    }
    true
}

// Two are saved and loaded with their identifiers.
fn two_reloaded(worlds: &mut Reloaded) -> Result<bool, Fail> {
    let placed = is_placed_and_labelled(&mut worlds.old, 0, 32)
        && is_placed_and_labelled(&mut worlds.old, 1, 64);
    let list = save(&worlds.old)?;
    let loaded = load(&mut worlds.new, list).is_ok() && labels(&worlds.new) == 2;
    let same = uuid_at(&worlds.new, 0) == uuid_at(&worlds.old, 0)
        && uuid_at(&worlds.new, 1) == uuid_at(&worlds.old, 1);
    let there = place_of(&worlds.new, 0) == Some(32) && place_of(&worlds.new, 1) == Some(64);
    Ok(placed && loaded && same && there)
}

// Two more are built beside the two that were loaded.
fn go_on_from_two(world: &mut Labelled) -> Result<bool, Fail> {
    let third = built(world)?;
    let fourth = built(world)?;
    let counted = labels(world) == 4;
    Ok(third.id() == 2 && fourth.id() == 3 && counted && four_differ(world))
}

// From now on words from this one on are drawn, each of them once.
fn draw_from(world: &mut Labelled, word: u32) {
    world.allocator = UuidMarkerAllocator::new(world.alloc, generator(word, 1));
}

// The draws differ each time.
fn reloaded_and_built(worlds: &mut Reloaded) -> Result<bool, Fail> {
    draw_from(&mut worlds.old, 0);
    draw_from(&mut worlds.new, 100);
    Ok(two_reloaded(worlds)? && go_on_from_two(&mut worlds.new)?)
}

#[test]
fn bumps_index_after_reload(rt: HostRuntime) -> Result<(), Fail> {
    assert!(rt; comes_true(rt.alloc(), 2, reloaded_and_built)?);
    Ok(())
}

const LOWER: &str = "[{\"components\":[[7]],\"marker\":\"67e55044-10b1-426f-9247-bb680e5fe0c8\"}]";

const UPPER: &str = "[{\"components\":[[7]],\"marker\":\"67e55044-10b1-426f-9247-Bb680e5fe0c8\"}]";

const BARE: &str = "[{\"components\":[[7]],\"marker\":\"67e5504410b1426f9247bb680e5fe0c8\"}]";

fn read(alloc: Global, text: &str) -> Result<Vec<Saved>, LoadError> {
    records_of(alloc, text)
}

fn is_read_again(alloc: Global, text: &str) -> Result<bool, Fail> {
    match read(alloc, text) {
        Ok(list) => Ok(text_of(alloc, &list)?.as_str() == text),
        Err(_) => Ok(false),
    }
}

#[test]
fn an_identifier_is_written_in_one_way(rt: HostRuntime) -> Result<(), Fail> {
    assert!(rt; is_read_again(rt.alloc(), LOWER)?);
    assert!(rt; matches!(read(rt.alloc(), UPPER), Err(LoadError::NotTheForm)));
    assert!(rt; matches!(read(rt.alloc(), BARE), Err(LoadError::NotTheForm)));
    Ok(())
}
