//! Slots that compose: what is told of each change, and calls by type.
use crate::asserts::{equal, holds};
use crate::calls::{health, healths, positions};
use crate::stories::{Story, told};
use composed::Empty;
use entities::EntitiesRes;
use script_slots::{Health, Position};
use specs::{Entity, Has, Storages, by_type};
use std::alloc::Global;
use std::process::Abort;
use std::test::Fail;
use storages::ComponentEvent::{Inserted, Modified, Removed};
use storages::{ComponentEvent, MaskedStorage, ReaderId};

/// Entities, with a slot that nobody reads and one whose changes are told.
struct Clinic<S> {
    entities: EntitiesRes,
    slots: S,
}

impl<S: Drop> Drop for Clinic<S> {
    fn drop(self) {
        let Clinic {
            entities: _entities,
            slots: _slots,
        } = self;
    }
}

/// A clinic in which nobody was born.
fn fresh<S: Storages + Empty>(alloc: Global) -> Clinic<S> {
    Clinic {
        entities: EntitiesRes::new(alloc),
        slots: S::empty(alloc),
    }
}

impl<S: Storages> Clinic<S> {
    fn register(&mut self, alloc: Global, slot: S::Slot) -> bool {
        self.slots.register(alloc, slot).is_ok()
    }

    fn bear(&mut self) -> Option<Entity> {
        self.entities.create().ok()
    }

    fn insert(&mut self, e: Entity, value: S::Value) -> bool {
        self.slots.insert(&self.entities, e, value).is_ok()
    }

    fn remove(&mut self, slot: S::Slot, e: Entity) -> bool {
        self.slots.remove(&self.entities, slot, e).is_ok()
    }

    fn clear(&mut self, slot: S::Slot) -> bool {
        self.slots.clear(slot).is_ok()
    }
}

/// The storage of healths, if it is there.
fn ward<H, S: Storages + Has<Health, H>>(slots: &mut S) -> Option<&mut MaskedStorage<Health>> {
    slots.field_mut()
}

/// Registers a reader of the healths.
fn listen<H, S: Storages + Has<Health, H>>(clinic: &mut Clinic<S>) -> bool {
    match ward(&mut clinic.slots) {
        Some(healths) => healths.register_reader().is_ok(),
        None => false,
    }
}

/// Whether the reader of the healths reads just these events.
fn reads<H, S: Storages + Has<Health, H>>(
    clinic: &mut Clinic<S>,
    wanted: &[ComponentEvent],
) -> bool {
    match ward(&mut clinic.slots) {
        Some(healths) => match healths.read(&ReaderId::of(0)) {
            Ok(events) => events.as_slice() == wanted,
            Err(_) => false,
        },
        None => false,
    }
}

/// Puts a position at an entity, by its type.
fn move_to<P, S: Storages + Has<Position, P>>(clinic: &mut Clinic<S>, e: Entity, x: i64) -> bool {
    by_type::insert(&mut clinic.slots, &clinic.entities, e, Position(x)).is_ok()
}

/// The position of an entity, by its type.
fn place<P, S: Storages + Has<Position, P>>(clinic: &Clinic<S>, e: Entity) -> Option<Position> {
    match by_type::get(&clinic.slots, &clinic.entities, e) {
        Ok(found) => found,
        Err(_) => None,
    }
}

/// Registers both slots, and a reader of the healths, for two entities.
fn open<R: Abort, P, H, S: Storages + Has<Position, P> + Has<Health, H>>(
    rt: &R,
    alloc: Global,
    clinic: &mut Clinic<S>,
) -> Result<(Entity, Entity), Fail> {
    holds!(rt; clinic.register(alloc, positions::<P, S>()));
    holds!(rt; clinic.register(alloc, healths::<H, S>()));
    holds!(rt; listen(clinic));
    let e = clinic.bear().ok_or("a birth")?;
    let f = clinic.bear().ok_or("a birth")?;
    Ok((e, f))
}

fn tells_each_change<R: Abort, P, H, S: Storages + Has<Position, P> + Has<Health, H>>(
    rt: &R,
    alloc: Global,
    clinic: &mut Clinic<S>,
) -> Result<(), Fail> {
    let (e, f) = open(rt, alloc, clinic)?;
    holds!(rt; clinic.insert(e, health::<H, S>(7)));
    holds!(rt; clinic.insert(e, health::<H, S>(8)));
    holds!(rt; clinic.remove(healths::<H, S>(), e));
    holds!(rt; clinic.remove(healths::<H, S>(), e));
    holds!(rt; reads(clinic, &[Inserted(0), Modified(0), Removed(0)]));
    holds!(rt; clinic.insert(e, health::<H, S>(1)));
    holds!(rt; clinic.insert(f, health::<H, S>(2)));
    holds!(rt; clinic.clear(healths::<H, S>()));
    holds!(rt; reads(clinic, &[Inserted(0), Inserted(1), Removed(0), Removed(1)]));
    holds!(rt; move_to(clinic, e, 3));
    equal!(rt; place(clinic, e), Some(Position(3)));
    holds!(rt; reads(clinic, &[]));
    Ok(())
}

/// Tells of each change of new storages.
pub fn tell_of_new<R: Abort, P, H, S: Storages + Empty + Has<Position, P> + Has<Health, H> + Drop>(
    rt: &R,
    alloc: Global,
) -> Result<(), Fail> {
    let mut clinic = fresh::<S>(alloc);
    tells_each_change(rt, alloc, &mut clinic)
}

#[test]
fn each_change_is_told(rt: HostRuntime) -> Result<(), Fail> {
    told(&rt, rt.alloc(), Story::Changes)
}
