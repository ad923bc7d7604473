//! One storage of a world, with the entities beside it: its entries, and its restriction.
ghost use Rattle.std.specs.Prelude.{◌≡◌, None, IfSome, IfNone};
ghost use Rattle.std.specs.FinMap as map;
ghost use Rattle.storages.specs.Meaning.{HasRoom};

use crate::own_world::{Game, Load, Stores};
use composed::{
    BitSetAll, Core, EntitiesRes, EntryJoin, Index, MaskedStorage, RestrictedStorageMut, WithOne,
};

// A load at the first index that lives, whether there was one or not.
fn first_living_has(
    entities: &EntitiesRes,
    loads: &mut MaskedStorage<Load>,
    load: Load,
) -> Option<Index>
    ensures { IfSome result (λ i. loads.new.map ≡ map.insert loads.old.map i load) }
{
    let mut cursor = EntryJoin::over(entities, loads);
    let id = cursor.next()?;
    let Ok(masked) = cursor.item() else {
        return None;
    };
    match masked.entry(id).or_insert(load) {
        Ok(place) => *place = load,
        Err(_) => return None,
    }
    let _masked = &*masked;
    Some(id)
}

/// The first that lives gets a load, through the entries of its storage. Nobody is born or dies, and no other storage changes.
pub fn first_living_is_loaded(core: &mut Core<Stores>, load: Load) -> Option<Option<Index>>
    ensures loaded { IfSome result (λ found. IfSome found (λ i. IfSome core.old.parts.storages.rest.first.field
        (λ before. IfSome core.new.parts.storages.rest.first.field (λ after. after.map ≡ map.insert before.map i load)))) }
    ensures people { core.new.parts.entities ≡ core.old.parts.entities }
    ensures first { core.new.parts.storages.first ≡ core.old.parts.storages.first }
    ensures rest { core.new.parts.storages.rest.rest ≡ core.old.parts.storages.rest.rest }
    ensures none { IfNone result (core.old.parts.storages.rest.first.field ≡ None) }
    ensures same { IfNone result (core.new ≡ core.old) }
{
    core.with_one(|entities, loads: &mut MaskedStorage<Load>| {
        first_living_has(entities, loads, load)
    })
}

// Whether the load at a cursor is below another.
fn is_light(cursor: &RestrictedStorageMut<'_, '_, Load, BitSetAll>, load: Load) -> bool {
    match cursor.get_unchecked() {
        Some(now) => now.0 < load.0,
        None => false,
    }
}

// The first load is raised if it is below another, and else only looked at.
fn first_light_is_raised(
    entities: &EntitiesRes,
    loads: &mut MaskedStorage<Load>,
    load: Load,
) -> Option<Index>
    ensures { IfSome result (λ i. HasRoom loads.old.room 1 → loads.new.map ≡ map.insert loads.old.map i load) }
{
    let mut cursor = RestrictedStorageMut::over(entities, loads);
    let found = cursor.next();
    if !is_light(&cursor, load) {
        return None;
    }
    if let Ok(place) = cursor.get_mut_unchecked() {
        *place = load;
    }
    found
}

/// The same in a world, through the restriction of its storage: only a load that is below another is written. Its queue stays.
pub fn first_light_load_is_raised(game: &mut Game, load: Load) -> Option<Option<Index>>
    ensures first { game.new.parts.core.parts.storages.first ≡ game.old.parts.core.parts.storages.first }
    ensures rest { game.new.parts.core.parts.storages.rest.rest ≡ game.old.parts.core.parts.storages.rest.rest }
    ensures queue { game.new.parts.lazy ≡ game.old.parts.lazy }
    ensures same { IfNone result (game.new ≡ game.old) }
{
    game.with_one(|entities, loads: &mut MaskedStorage<Load>| {
        first_light_is_raised(entities, loads, load)
    })
}
