//! Storages written to beside others.
ghost use Rattle.std.specs.Prelude.{◌≡◌, None, IfSome, IfOk, OnOk, OnErr};
ghost use Rattle.std.specs.FinMap as map;
ghost use Rattle.std.specs.FinSet as set;
ghost use Rattle.joins.specs.CursorOfTwo.{first_slot, second_slot};
ghost use Rattle.joins.specs.Each.{each_becomes, each_gone};
ghost use Rattle.joins.specs.Keys.{shared_indices};
ghost use Rattle.storages.specs.Meaning.{HasRoom};
ghost use Rattle.storages.specs.WriteView.{slot};

use crate::components::Health;
use entities::EntitiesRes;
use hibits::{BitSet, BitSetAll, Index};
use joins::{Drain, EntryJoin, Join, JoinMut, RestrictedStorageMut, WriteJoin2};
use std::alloc::AllocError;
use storages::{Component, MaskedStorage, VecStorage, WriteStorage};

/// How much an entity is shielded.
#[derive(Clone, Copy, PartialEq, Eq, Debug)]
pub struct Shield(
    /// How much.
    pub u32,
);

impl Component for Shield {
    type Storage = VecStorage<Self>;
}

/// A health at the first index of both.
pub fn first_has(
    storage: &mut MaskedStorage<Health>,
    other: &BitSet,
    health: Health,
) -> Option<Index>
    ensures { IfSome result (λ i. HasRoom storage.old.room 1 → storage.new.map ≡ map.insert storage.old.map i health) }
{
    let mut cursor = storage.join_mut(other);
    let found = cursor.next();
    if let Ok(place) = cursor.item() {
        *place = health;
    }
    found
}

/// The same through a view.
pub fn first_in_view_has(
    view: &mut WriteStorage<'_, Health>,
    other: &BitSet,
    health: Health,
) -> Option<Index>
    ensures { IfSome result (λ i. HasRoom (slot view.old).room 1 → (slot view.new).map ≡ map.insert (slot view.old).map i health) }
{
    let masked = view.masked_mut();
    let mut cursor = masked.join_mut(other);
    let found = cursor.next();
    if let Ok(place) = cursor.item() {
        *place = health;
    }
    let _masked = &*masked;
    found
}

/// A health at each index of both, and nothing else changed.
pub fn all_have(storage: &mut MaskedStorage<Health>, other: &BitSet, health: Health)
    requires { storage.old.room ≡ None }
    ensures { storage.new.map ≡ each_becomes (λ _ _. health) (shared_indices storage.old.map (set.contains other.now.members)) storage.old.map }
{
    let mut cursor = storage.join_mut(other);
    while let Some(_id) = cursor.next() {
        if let Ok(place) = cursor.item() {
            *place = health;
        }
    }
}

/// What a join has at the first two indices that it shares with a storage, each after its index.
pub fn first_two_beside<J: Join>(
    storage: &mut MaskedStorage<Health>,
    join: J,
) -> Option<((Index, J::Type), (Index, J::Type))>
where
    J::Type: Drop,
    ensures first { IfSome result (λ r. J.gives join r.0.0 r.0.1) }
    ensures second { IfSome result (λ r. J.gives join r.1.0 r.1.1) }
{
    let mut cursor = storage.join_mut(join);
    let first = cursor.next()?;
    let beside_first = cursor.beside()?;
    let second = cursor.next()?;
    let beside_second = cursor.beside()?;
    Some(((first, beside_first), (second, beside_second)))
}

/// The component of the first index of both is taken out, and no other.
pub fn first_taken(
    storage: &mut MaskedStorage<Health>,
    other: &BitSet,
) -> Result<Option<Index>, AllocError>
    ensures ok { IfOk result (λ found. IfSome found (λ i. storage.new.map ≡ map.remove storage.old.map i)) }
    ensures err { OnErr result (storage.new.map ≡ storage.old.map) }
{
    let mut cursor = Drain::new(storage, other);
    let found = cursor.next();
    cursor.item()?;
    Ok(found)
}

/// All that both have is taken out, and nothing else.
pub fn all_taken(storage: &mut MaskedStorage<Health>, other: &BitSet) -> Result<(), AllocError>
    ensures { OnOk result (storage.new.map ≡ each_gone (shared_indices storage.old.map (set.contains other.now.members)) storage.old.map) }
{
    let mut cursor = Drain::new(storage, other);
    while let Some(_id) = cursor.next() {
        cursor.item()?;
    }
    Ok(())
}

/// A health at the first index that lives, whether there was one or not.
pub fn first_living_has(
    entities: &EntitiesRes,
    storage: &mut MaskedStorage<Health>,
    health: Health,
) -> Option<Index>
    ensures { IfSome result (λ i. storage.new.map ≡ map.insert storage.old.map i health) }
{
    let mut cursor = EntryJoin::over(entities, storage);
    let id = cursor.next()?;
    let Ok(masked) = cursor.item() else {
        return None;
    };
    match masked.entry(id).or_insert(health) {
        Ok(place) => *place = health,
        Err(_) => return None,
    }
    let _masked = &*masked;
    Some(id)
}

// Whether the health at a cursor is below another.
fn is_low(cursor: &RestrictedStorageMut<'_, '_, Health, BitSetAll>, health: Health) -> bool {
    match cursor.get_unchecked() {
        Some(now) => now.points < health.points,
        None => false,
    }
}

/// The first health that is low is made whole, and others are only looked at.
pub fn first_low_healed(
    entities: &EntitiesRes,
    storage: &mut MaskedStorage<Health>,
    health: Health,
) -> Option<Index>
    ensures { IfSome result (λ i. HasRoom storage.old.room 1 → storage.new.map ≡ map.insert storage.old.map i health) }
{
    let mut cursor = RestrictedStorageMut::over(entities, storage);
    let found = cursor.next();
    if !is_low(&cursor, health) {
        return None;
    }
    if let Ok(place) = cursor.get_mut_unchecked() {
        *place = health;
    }
    found
}

/// A health and a shield at the next index of two storages and a set.
pub fn next_pair_has(
    cursor: &mut WriteJoin2<'_, '_, Health, Shield, &BitSet>,
    health: Health,
    shield: Shield,
) -> Option<Index>
    ensures healths { IfSome result (λ i. HasRoom (first_slot cursor.old).room 1 → (first_slot cursor.new).map ≡ map.insert (first_slot cursor.old).map i health) }
    ensures shields { IfSome result (λ i. HasRoom (second_slot cursor.old).room 1 → (second_slot cursor.new).map ≡ map.insert (second_slot cursor.old).map i shield) }
{
    let found = cursor.next();
    if let Ok(place) = cursor.first() {
        *place = health;
    }
    if let Ok(place) = cursor.second() {
        *place = shield;
    }
    found
}
