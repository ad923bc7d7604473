//! Builders that give markers, in a world that has markers alone.
use crate::asserts::{equal, holds};
use crate::calls::{die, got, is_done, maintained};
use composed::Sole;
use saveload::{Marker, SimpleMarker};
use script_slots::{Labels, Saved};
use specs::{
    Builder, CloneStorages, Command, Entity, Held, MarkError, MarkedBuilder, Storages, World,
};
use std::alloc::Global;
use std::process::Abort;
use std::test::Fail;

/// Gives a marker to what any builder builds.
fn mark_entity<S: Held, B: MarkedBuilder<S>>(builder: B, slot: S::Slot) -> Result<B, B::Refused> {
    builder.marked(slot)
}

/// An entity that is built with a marker, and why it got none, if it did not.
fn built<S: Storages>(world: &mut World<S>, slot: S::Slot) -> Option<(Entity, Option<MarkError>)> {
    let builder = world.create_entity().ok()?;
    let e = builder.entity();
    match mark_entity(builder, slot) {
        Ok(builder) => Some((builder.build(), None)),
        Err(refusal) => Some((e, Some(refusal))),
    }
}

/// An entity whose birth is pending, and whose marker is queued.
fn built_lazily<S: Storages>(world: &mut World<S>, slot: S::Slot) -> Option<Entity> {
    let builder = world.parts().create_entity().ok()?;
    let builder = mark_entity(builder, slot).ok()?;
    Some(builder.build())
}

/// The id of an entity's marker.
fn id_of<S: CloneStorages<Value = SimpleMarker<Saved>>>(
    world: &mut World<S>,
    slot: S::Slot,
    e: Entity,
) -> Option<u64> {
    match got(world, slot, e) {
        Some(marker) => Some(marker.id()),
        None => None,
    }
}

/// Two are built lazily, and then two at once, which get the first two ids. The lazy ones have none before the next maintain, and the next two after it.
fn are_marked_later<R: Abort, S: CloneStorages<Value = SimpleMarker<Saved>>>(
    rt: &R,
    world: &mut World<S>,
    slot: S::Slot,
) -> Result<(), Fail> {
    let late = built_lazily(world, slot).ok_or("a birth")?;
    let later = built_lazily(world, slot).ok_or("a birth")?;
    let (first, refusal) = built(world, slot).ok_or("a birth")?;
    equal!(rt; refusal, None);
    let (second, refusal) = built(world, slot).ok_or("a birth")?;
    equal!(rt; refusal, None);
    equal!(rt; id_of(world, slot, first), Some(0));
    equal!(rt; id_of(world, slot, second), Some(1));
    equal!(rt; id_of(world, slot, late), None);
    equal!(rt; id_of(world, slot, later), None);
    let told = maintained(world, 100)?;
    equal!(rt; (told.ran, told.refused, told.left), (2, 0, 0));
    holds!(rt; told.deleted.is_empty());
    equal!(rt; id_of(world, slot, first), Some(0));
    equal!(rt; id_of(world, slot, second), Some(1));
    equal!(rt; id_of(world, slot, late), Some(2));
    equal!(rt; id_of(world, slot, later), Some(3));
    Ok(())
}

/// A birth before the slot is registered is refused its marker, and dies next. Those after it are given theirs.
fn are_marked<R: Abort, S: CloneStorages<Value = SimpleMarker<Saved>>>(
    rt: &R,
    world: &mut World<S>,
    slot: S::Slot,
) -> Result<(), Fail> {
    let (early, refusal) = built(world, slot).ok_or("a birth")?;
    equal!(rt; refusal, Some(MarkError::Unregistered));
    holds!(rt; die(world, &[early]));
    holds!(rt; is_done(world, Command::Register(slot)));
    are_marked_later(rt, world, slot)
}

/// The same of a new world over these storages.
fn are_marked_in_new<R: Abort, S: CloneStorages<Value = SimpleMarker<Saved>> + Drop>(
    rt: &R,
    alloc: Global,
    storages: S,
    slot: S::Slot,
) -> Result<(), Fail> {
    let mut world = World::new(alloc, storages);
    are_marked(rt, &mut world, slot)
}

/// The storages are named here alone: each call at storages of known types is slow to prove.
fn told<R: Abort>(rt: &R, alloc: Global) -> Result<(), Fail> {
    are_marked_in_new(rt, alloc, Labels::new(alloc), Sole::Sole)
}

#[test]
fn builders_give_markers_or_let_their_entities_die(rt: HostRuntime) -> Result<(), Fail> {
    told(&rt, rt.alloc())
}
