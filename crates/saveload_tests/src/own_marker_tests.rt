//! A marker of the user's own, with what gives its ids: after the example of `Marker`.
ghost use Rattle.std.specs.Prelude.{◌≡◌, ℕ, ◌+◌, ◌^◌, ◌<◌, ◌≤◌, max, true, false, Some, None, Ok, Err, IfOk, IfErr, OnOk, OnErr, is_some, nat_eq, refl};
ghost use Rattle.std.proofs.Common.{ap, sym};
ghost use Rattle.std.specs.HashMap as hash;
ghost use Rattle.entities.specs.Census.{population};
ghost use Rattle.saveload.specs.Marking.{MarksNew, MayHaveGiven, IsOfIds, TakesOne};
ghost use Rattle.saveload.specs.Naming.{put_id, once_given};
ghost use Rattle.saveload.specs.Numbers.{same_numbers};
ghost use Rattle.saveload.specs.Simple.{comes_next, numbers_are_counted, numbers_from, numbers_past};
ghost use Rattle.storages.specs.Life.{is_alive};
ghost use Rattle.storages.specs.Slot.{IsSame};
ghost use Rattle.storages.specs.WriteView.{slot, entities_of, found, storage_name};

use crate::worlds::{Told, comes_true, count_of, empty, living};
use entities::{EntitiesRes, Entity};
use saveload::{IdSupply, MarkError, Marker, MarkerAllocator};
use std::alloc::{AllocError, Global};
use std::collections::HashMap;
use std::test::Fail;
use storages::{Component, DenseVecStorage, MaskedStorage, WriteStorage};

/// An id, and how new what is known of it is.
#[derive(Clone, Copy)]
struct NetMarker {
    id: u64,
    seq: u64,
}

impl Component for NetMarker {
    type Storage = DenseVecStorage<Self>;
}

impl Marker for NetMarker {
    type Identifier = u64;

    type Allocator = NetNode;

    ghost id_of = { λ m. m.id };

    ghost updated = { λ old new. record { id = old.id; seq = new.seq } };

    fn id(&self) -> u64 {
        self.id
    }

    fn update(&mut self, new: Self) {
        self.seq = new.seq;
    }

    ghost same_ids = { same_numbers };
}

/// Gives the numbers from 0 on, and forgets none.
struct NetNode {
    next: u128,
    mapping: HashMap<u64, Entity>,
}

impl Drop for NetNode {
    fn drop(self) {
        let NetNode {
            next: _next,
            mapping: _mapping,
        } = self;
    }
}

impl IdSupply<NetMarker> for NetNode {
    ghost ids = { λ a. numbers_from a.next };

    ghost ComesNext = { λ left m. comes_next left m.id };
}

impl MarkerAllocator<NetMarker> for NetNode {
    ghost mapping = { λ a. hash.get nat_eq a.mapping };

    ghost MayBeNew = { λ a id. id ≡ a.next };

    ghost ids_past = { λ a. numbers_past a.next };

    ghost ids_now = { λ a. refl };

    ghost comes = { λ a m e. ap numbers_from (sym e) };

    ghost coming = { λ a. a.next };

    ghost new_is_coming = { λ a id e. e };

    ghost unmapped = { λ a id drawn e. absurd (numbers_are_counted a.next drawn) };

    fn allocate(&mut self, entity: Entity, id: Option<u64>) -> Result<NetMarker, MarkError>
        ensures given { (i : ℕ) → id ≡ Some i → IfOk result (λ m. m.id ≡ i) }
        ensures new { id ≡ None → IfOk result (λ m. m.id ≡ self.old.next) }
        ensures next { IfOk result (λ m. self.new.next ≡ max self.old.next (m.id + 1)) }
        ensures exhausted { result ≡ Err MarkError.IdsExhausted → (id ≡ None) × (2 ^ 64 ≤ self.old.next) }
        ensures memory { id ≡ None → result ≡ Err MarkError.OutOfMemory → self.old.next < 2 ^ 64 }
        ensures others { IfErr result (λ e. (e ≡ MarkError.IdsExhausted → ⊥) → e ≡ MarkError.OutOfMemory) }
        ensures mapped { IfOk result (λ m. hash.get nat_eq self.new.mapping ≡ put_id nat_eq (hash.get nat_eq self.old.mapping) m.id entity) }
        ensures err { OnErr result (hash.get nat_eq self.new.mapping ≡ hash.get nat_eq self.old.mapping) }
        ensures err_next { OnErr result (self.new.next ≡ self.old.next) }
        ensures refused { IfErr result IsOfIds }
        ensures given_refused { (i : ℕ) → id ≡ Some i → IfErr result (λ e. e ≡ MarkError.OutOfMemory) }
        ensures takes { id ≡ None → OnOk result (TakesOne (numbers_from self.old.next) (numbers_from self.new.next)) }
        ensures passes { (i : ℕ) → id ≡ Some i → OnOk result (numbers_past self.new.next ≡ once_given (numbers_past self.old.next) i) }
    {
        let chosen = match id {
            Some(given) => given,
            None => {
                if self.next > u64::MAX as u128 {
                    return Err(MarkError::IdsExhausted);
                }
                self.next as u64
            }
        };
        if self.mapping.insert(chosen, entity).is_err() {
            return Err(MarkError::OutOfMemory);
        }
        if chosen as u128 >= self.next {
            self.next = chosen as u128 + 1;
        }
        Ok(NetMarker { id: chosen, seq: 0 })
    }

    fn retrieve_entity_internal(&self, id: u64) -> Option<Entity> {
        self.mapping.get(&id).copied()
    }

    /// It is refused, and forgets none.
    fn maintain(
        &mut self,
        _alloc: Global,
        _entities: &EntitiesRes,
        _storage: &MaskedStorage<NetMarker>,
    ) -> Result<(), AllocError> {
        Err(AllocError)
    }

    fn mark(
        &mut self,
        entity: Entity,
        storage: &mut WriteStorage<'_, NetMarker>,
    ) -> Result<Option<bool>, MarkError>
        ensures same_reference { storage_name storage.new ≡ storage_name storage.old }
        ensures entities { entities_of storage.new ≡ entities_of storage.old }
        ensures dead { IfOk result (λ o. is_some o ≡ is_alive (population (entities_of storage.old)) entity) }
        ensures is_new { IfOk result (λ o. o ≡ Some true → found storage.old entity ≡ None) }
        ensures old { IfOk result (λ o. (o ≡ Some true → ⊥) → (slot storage.new ≡ slot storage.old) × (hash.get nat_eq self.new.mapping ≡ hash.get nat_eq self.old.mapping)) }
        ensures old_self { IfOk result (λ o. (o ≡ Some true → ⊥) → self.new ≡ self.old) }
        ensures was { IfOk result (λ o. o ≡ Some false → is_some (found storage.old entity) ≡ true) }
        ensures new { IfOk result (λ o. o ≡ Some true → MarksNew (λ (m : _). m.id) nat_eq (λ id. id ≡ self.old.next) entity (hash.get nat_eq self.old.mapping) (hash.get nat_eq self.new.mapping) (slot storage.old) (slot storage.new)) }
        ensures next { IfOk result (λ o. o ≡ Some true → self.new.next ≡ self.old.next + 1) }
        ensures old_next { IfOk result (λ o. (o ≡ Some true → ⊥) → self.new.next ≡ self.old.next) }
        ensures alive { OnErr result (is_alive (population (entities_of storage.old)) entity ≡ true) }
        ensures unmarked { OnErr result (found storage.old entity ≡ None) }
        ensures err { OnErr result (IsSame (slot storage.old) (slot storage.new)) }
        ensures err_given { OnErr result (hash.get nat_eq self.new.mapping ≡ hash.get nat_eq self.old.mapping) }
        ensures err_next { OnErr result (self.new.next ≡ self.old.next) }
        ensures err_mapped { OnErr result (MayHaveGiven nat_eq (λ id. id ≡ self.old.next) entity (hash.get nat_eq self.old.mapping) (hash.get nat_eq self.new.mapping)) }
        ensures exhausted { result ≡ Err MarkError.IdsExhausted → 2 ^ 64 ≤ self.old.next }
        ensures memory { result ≡ Err MarkError.OutOfMemory → self.old.next < 2 ^ 64 }
        ensures others { IfErr result (λ e. (e ≡ MarkError.IdsExhausted → ⊥) → e ≡ MarkError.OutOfMemory) }
        ensures refused { IfErr result IsOfIds }
        ensures takes { IfOk result (λ o. o ≡ Some true → TakesOne (numbers_from self.old.next) (numbers_from self.new.next)) }
    {
        if !storage.fetched_entities().is_alive(entity) {
            return Ok(None);
        }
        if storage.contains(entity) {
            return Ok(Some(false));
        }
        if self.next > u64::MAX as u128 {
            return Err(MarkError::IdsExhausted);
        }
        let id = self.next as u64;
        if self.mapping.reserve(1).is_err() {
            return Err(MarkError::OutOfMemory);
        }
        if storage.insert(entity, NetMarker { id, seq: 0 }).is_err() {
            return Err(MarkError::OutOfMemory);
        }
        match self.mapping.insert(id, entity) {
            Ok(_) => {}
            Err(_) => unreachable!(),
        }
        self.next += 1;
        Ok(Some(true))
    }
}

/// Entities with such markers.
struct Net {
    entities: EntitiesRes,
    markers: MaskedStorage<NetMarker>,
    node: NetNode,
}

impl Drop for Net {
    fn drop(self) {
        let Net {
            entities: _entities,
            markers: _markers,
            node: _node,
        } = self;
    }
}

impl Told for Net {
    fn with_entities(alloc: Global, count: u32) -> Result<Self, Fail> {
        let markers = empty(alloc)?;
        Ok(Net {
            entities: living(alloc, count)?,
            markers,
            node: NetNode {
                next: 0,
                mapping: HashMap::new(alloc),
            },
        })
    }
}

// Whether the entity of an index just got its marker.
fn is_marked_now(net: &mut Net, entity: Entity) -> bool {
    let mut markers = WriteStorage::new(&net.entities, &mut net.markers);
    net.node.mark(entity, &mut markers) == Ok(Some(true))
}

// What is stored at an index.
fn id_and_seq(net: &Net, index: u32) -> Option<(u64, u64)> {
    match net.markers.get(index) {
        Some(marker) => Some((marker.id, marker.seq)),
        None => None,
    }
}

// The entity of an index.
fn entity_at(net: &Net, index: u32) -> Entity {
    net.entities.entity(index)
}

// The entity that a marker names.
fn named_by(net: &mut Net, marker: NetMarker) -> Option<Entity> {
    net.node
        .retrieve_entity(marker, &mut net.markers, &mut net.entities)
        .ok()
}

// A newer marker names the entity, and what is stored is updated.
fn named_by_a_newer_one(net: &mut Net) -> Result<bool, Fail> {
    let entity = entity_at(net, 0);
    let marked = is_marked_now(net, entity) && id_and_seq(net, 0) == Some((0, 0));
    let named = named_by(net, NetMarker { id: 0, seq: 7 });
    let updated = id_and_seq(net, 0) == Some((0, 7)) && count_of(&net.markers) == 1;
    Ok(marked && named == Some(entity) && updated)
}

// A marker of an unknown id names a new entity, which has all that the marker holds.
fn named_anew(net: &mut Net) -> Result<bool, Fail> {
    let entity = entity_at(net, 0);
    let marked = is_marked_now(net, entity);
    let named = named_by(net, NetMarker { id: 5, seq: 9 });
    let whole = id_and_seq(net, 1) == Some((5, 9)) && count_of(&net.markers) == 2;
    Ok(marked && named == Some(entity_at(net, 1)) && whole && id_and_seq(net, 0) == Some((0, 0)))
}

#[test]
fn a_marker_is_updated_by_a_newer_one_of_its_id(rt: HostRuntime) -> Result<(), Fail> {
    assert!(rt; comes_true(rt.alloc(), 1, named_by_a_newer_one)?);
    Ok(())
}

#[test]
fn a_new_entity_has_all_that_its_marker_holds(rt: HostRuntime) -> Result<(), Fail> {
    assert!(rt; comes_true(rt.alloc(), 1, named_anew)?);
    Ok(())
}
