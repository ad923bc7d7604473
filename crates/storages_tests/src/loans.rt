//! What an ordinary caller learns where a component was lent to it, without a proof file.
ghost use Rattle.std.specs.Prelude.{◌≡◌, ℕ, Some, None, true, IsSome, IsOk, OnOk, IfOk, is_some};
ghost use Rattle.std.specs.FinMap as map;
ghost use Rattle.std.specs.Option.{option_map};
ghost use Rattle.entities.specs.Population.{index_of};
ghost use Rattle.storages.specs.Limit.{IsIndex};
ghost use Rattle.storages.specs.Meaning.{HasRoom};
ghost use Rattle.storages.specs.WriteView.{slot, found};
ghost use Rattle.storages_tests.specs.Doubled.{doubled, all_doubled};

use crate::components::InDense;
use crate::numbers::{InDefaultVec, InVec};
use entities::Entity;
use storages::{MaskedStorage, NotLent, StorageEntry, WriteStorage};

/// Seven at an index that has a component.
pub fn seven_through_storage(masked: &mut MaskedStorage<InDense>, id: u32) -> bool
    requires present { IsSome (map.get masked.old.map id) }
    requires room { HasRoom masked.old.room 1 }
    ensures { masked.new.map ≡ map.insert masked.old.map id (record { 0 = 7 }) }
{
    match masked.get_mut(id) {
        Ok(place) => {
            *place = InDense(7);
            true
        }
        Err(_) => unreachable!(),
    }
}

/// Seven at an entity that is alive and has a component, if memory is there for the event.
pub fn seven_through_view(view: &mut WriteStorage<'_, InVec>, entity: Entity) -> Result<(), NotLent>
    ensures { OnOk result ((slot view.new).map ≡ map.insert (slot view.old).map (index_of entity) (record { 0 = 7 })) }
{
    let place = view.get_mut(entity)?;
    *place = InVec(7);
    Ok(())
}

/// Seven at an index, which gives the component that was there up.
pub fn seven_through_entry(masked: &mut MaskedStorage<InVec>, id: u32) -> bool
    requires index { IsIndex id }
    requires room { HasRoom masked.old.room 1 }
    ensures { map.contains_key masked.old.map id ≡ true → masked.new.map ≡ map.insert masked.old.map id (record { 0 = 7 }) }
{
    match masked.entry(id) {
        StorageEntry::Occupied(entry) => match entry.into_mut() {
            Ok(place) => {
                *place = InVec(7);
                true
            }
            Err(_) => unreachable!(),
        },
        StorageEntry::Vacant(_entry) => false,
    }
}

/// Seven at an index, in the end, whether it had a component or not, if memory is there.
pub fn entry_or_seven(masked: &mut MaskedStorage<InVec>, id: u32) -> bool
    requires { IsIndex id }
    ensures { result ≡ true → masked.new.map ≡ map.insert masked.old.map id (record { 0 = 7 }) }
{
    match masked.entry(id).or_insert(InVec(0)) {
        Ok(place) => {
            *place = InVec(7);
            true
        }
        Err(_) => false,
    }
}

/// Twice the number at each index, past the greatest from 0 on.
pub fn double_all(masked: &mut MaskedStorage<InDense>)
    ensures { (q : ℕ) → map.get masked.new.map q ≡ option_map doubled (map.get masked.old.map q) }
{
    double_each(masked.as_mut_slice());
}

// Doubles each number.
fn double_each(values: &mut [InDense])
    ensures { values.new ≡ all_doubled values.old }
{
    for i in 0..values.len() {
        let number = values[i].0;
        values[i] = InDense(number.wrapping_add(number));
    }
}

/// Seven at an index that has a component, through the slice.
pub fn seven_at_place(masked: &mut MaskedStorage<InDefaultVec>, id: u32)
    requires { IsSome (map.get masked.old.map id) }
    ensures { map.get masked.new.map id ≡ Some (record { 0 = 7 }) }
{
    masked.as_mut_slice()[id as usize] = InDefaultVec(7);
}
