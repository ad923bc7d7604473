//! Two and three storages of a world at once, by their types.
ghost use Rattle.std.specs.Prelude.{◌≡◌, ◌⊎◌, None, IsTrue, IfSome, IfNone};
ghost use Rattle.std.specs.FinMap as map;
ghost use Rattle.entities.specs.Population.{index_of};
ghost use Rattle.specs.specs.World.State.{state_of};

use crate::own_world::{Frozen, Game, Leader, Load, Place, Speed, Stores};
use composed::{
    Core, EntitiesRes, Entity, Held, INDEX_LIMIT, MaskedStorage, ThreeFields, TwoFields, WithThree,
    WithTwo,
};

// Whether an entity got the place of another.
fn is_moved(places: &mut MaskedStorage<Place>, e: Entity, other: Entity) -> bool
    ensures { IsTrue result → IfSome (map.get places.old.map (index_of other)) (λ p. places.new.map ≡ map.insert places.old.map (index_of e) p) }
{
    match places.get(other.id()).copied() {
        Some(place) => e.id() < INDEX_LIMIT && places.put(e.id(), place).is_ok(),
        None => false,
    }
}

// Whether an entity got the place of its leader.
fn is_at_its_leader(
    places: &mut MaskedStorage<Place>,
    leaders: &MaskedStorage<Leader>,
    e: Entity,
) -> bool
    ensures { IsTrue result → IfSome (map.get leaders.now.map (index_of e)) (λ l. IfSome (map.get places.old.map (index_of l.0)) (λ p. places.new.map ≡ map.insert places.old.map (index_of e) p)) }
{
    match leaders.get(e.id()).copied() {
        Some(leader) => is_moved(places, e, leader.0),
        None => false,
    }
}

/// One storage is written while another is read: an entity gets the place of its leader, and nothing but that place changes.
pub fn gone_to_its_leader(storages: &mut Stores, e: Entity) -> Option<bool>
    ensures moved { IfSome result (λ done. IsTrue done → IfSome storages.old.rest.rest.both.rest.field
        (λ leaders. IfSome storages.old.first.both.first.field (λ before. IfSome storages.new.first.both.first.field
        (λ after. IfSome (map.get leaders.map (index_of e)) (λ l. IfSome (map.get before.map (index_of l.0)) (λ p. after.map ≡ map.insert before.map (index_of e) p)))))) }
    ensures speeds { storages.new.first.both.rest ≡ storages.old.first.both.rest }
    ensures rest { storages.new.rest ≡ storages.old.rest }
    ensures none { IfNone result ((storages.old.first.both.first.field ≡ None) ⊎ (storages.old.rest.rest.both.rest.field ≡ None)) }
    ensures same { IfNone result (storages.new ≡ storages.old) }
{
    storages.with_two(|places: &mut MaskedStorage<Place>, leaders: &mut MaskedStorage<Leader>| {
        is_at_its_leader(places, leaders, e)
    })
}

/// The same of each of a list, one after the other: nothing but places changes.
pub fn all_gone_to_their_leaders(storages: &mut Stores, list: &[Entity]) -> Option<()>
    ensures speeds { storages.new.first.both.rest ≡ storages.old.first.both.rest }
    ensures rest { storages.new.rest ≡ storages.old.rest }
    ensures same { IfNone result (storages.new ≡ storages.old) }
{
    storages.with_two(|places: &mut MaskedStorage<Place>, leaders: &mut MaskedStorage<Leader>| {
        all_at_their_leaders(places, leaders, list);
    })
}

// Each of a list gets the place of its leader.
fn all_at_their_leaders(
    places: &mut MaskedStorage<Place>,
    leaders: &MaskedStorage<Leader>,
    list: &[Entity],
) {
    for e in list {
        let _ = is_at_its_leader(places, leaders, *e);
    }
}

// Whether an entity got a load and a speed.
fn is_loaded(
    loads: &mut MaskedStorage<Load>,
    speeds: &mut MaskedStorage<Speed>,
    e: Entity,
    load: Load,
    speed: Speed,
) -> bool
    ensures loads { IsTrue result → loads.new.map ≡ map.insert loads.old.map (index_of e) load }
    ensures speeds { IsTrue result → speeds.new.map ≡ map.insert speeds.old.map (index_of e) speed }
{
    e.id() < INDEX_LIMIT && loads.put(e.id(), load).is_ok() && speeds.put(e.id(), speed).is_ok()
}

/// Both are written, of which the first stands behind the second in the struct: an entity is loaded, and slower.
pub fn loaded_and_slower(storages: &mut Stores, e: Entity, load: Load, speed: Speed) -> Option<bool>
    ensures loads { IfSome result (λ done. IsTrue done → IfSome storages.old.rest.first.field
        (λ before. IfSome storages.new.rest.first.field (λ after. after.map ≡ map.insert before.map (index_of e) load))) }
    ensures speeds { IfSome result (λ done. IsTrue done → IfSome storages.old.first.both.rest.field
        (λ before. IfSome storages.new.first.both.rest.field (λ after. after.map ≡ map.insert before.map (index_of e) speed))) }
    ensures places { storages.new.first.both.first ≡ storages.old.first.both.first }
    ensures rest { storages.new.rest.rest ≡ storages.old.rest.rest }
    ensures none { IfNone result ((storages.old.rest.first.field ≡ None) ⊎ (storages.old.first.both.rest.field ≡ None)) }
    ensures same { IfNone result (storages.new ≡ storages.old) }
{
    storages.with_two(|loads: &mut MaskedStorage<Load>, speeds: &mut MaskedStorage<Speed>| {
        is_loaded(loads, speeds, e, load, speed)
    })
}

/// Both of one part of the struct are read: whether an entity is frozen and has a leader. Nothing changes.
pub fn is_led_while_frozen(storages: &mut Stores, e: Entity) -> Option<bool>
    ensures { storages.new ≡ storages.old }
{
    storages.with_two(|frozen: &mut MaskedStorage<Frozen>, leaders: &mut MaskedStorage<Leader>| {
        frozen.contains(e.id()) && leaders.contains(e.id())
    })
}

// Whether an entity that is alive got the place of its leader.
fn is_living_at_its_leader(
    entities: &EntitiesRes,
    places: &mut MaskedStorage<Place>,
    leaders: &MaskedStorage<Leader>,
    e: Entity,
) -> bool
    ensures { IsTrue result → IfSome (map.get leaders.now.map (index_of e)) (λ l. IfSome (map.get places.old.map (index_of l.0)) (λ p. places.new.map ≡ map.insert places.old.map (index_of e) p)) }
{
    entities.is_alive(e) && is_at_its_leader(places, leaders, e)
}

/// In a core, with its entities beside: an entity that is alive gets the place of its leader. Nobody is born or dies.
pub fn led_in_core(core: &mut Core<Stores>, e: Entity) -> Option<bool>
    ensures moved { IfSome result (λ done. IsTrue done → IfSome core.old.parts.storages.rest.rest.both.rest.field
        (λ leaders. IfSome core.old.parts.storages.first.both.first.field
        (λ before. IfSome core.new.parts.storages.first.both.first.field
        (λ after. IfSome (map.get leaders.map (index_of e)) (λ l. IfSome (map.get before.map (index_of l.0)) (λ p. after.map ≡ map.insert before.map (index_of e) p)))))) }
    ensures people { core.new.parts.entities ≡ core.old.parts.entities }
    ensures speeds { core.new.parts.storages.first.both.rest ≡ core.old.parts.storages.first.both.rest }
    ensures rest { core.new.parts.storages.rest ≡ core.old.parts.storages.rest }
    ensures same { IfNone result (core.new ≡ core.old) }
{
    core.with_two(|entities, places: &mut MaskedStorage<Place>, leaders: &mut MaskedStorage<
        Leader,
    >| { is_living_at_its_leader(entities, places, leaders, e) })
}

/// The same in a world. Its queue stays.
pub fn led_in_world(game: &mut Game, e: Entity) -> Option<bool>
    ensures people { (state_of ⟦<Stores as Held>⟧.table ⟦<Stores as Held>⟧.ids game.new).people ≡ (state_of ⟦<Stores as Held>⟧.table ⟦<Stores as Held>⟧.ids game.old).people }
    ensures rest { game.new.parts.core.parts.storages.rest ≡ game.old.parts.core.parts.storages.rest }
    ensures queue { game.new.parts.lazy ≡ game.old.parts.lazy }
    ensures same { IfNone result (game.new ≡ game.old) }
{
    game.with_two(|entities, places: &mut MaskedStorage<Place>, leaders: &mut MaskedStorage<
        Leader,
    >| { is_living_at_its_leader(entities, places, leaders, e) })
}

// Whether an entity got a load and a speed, and its place was found.
fn is_loaded_somewhere(
    loads: &mut MaskedStorage<Load>,
    places: &MaskedStorage<Place>,
    speeds: &mut MaskedStorage<Speed>,
    e: Entity,
    load: Load,
    speed: Speed,
) -> bool
    ensures loads { IsTrue result → loads.new.map ≡ map.insert loads.old.map (index_of e) load }
    ensures speeds { IsTrue result → speeds.new.map ≡ map.insert speeds.old.map (index_of e) speed }
{
    places.contains(e.id()) && is_loaded(loads, speeds, e, load, speed)
}

/// Of three storages two are written, in an order of the caller's: an entity that has a place is loaded, and slower.
pub fn loaded_somewhere(storages: &mut Stores, e: Entity, load: Load, speed: Speed) -> Option<bool>
    ensures loads { IfSome result (λ done. IsTrue done → IfSome storages.old.rest.first.field
        (λ before. IfSome storages.new.rest.first.field (λ after. after.map ≡ map.insert before.map (index_of e) load))) }
    ensures speeds { IfSome result (λ done. IsTrue done → IfSome storages.old.first.both.rest.field
        (λ before. IfSome storages.new.first.both.rest.field (λ after. after.map ≡ map.insert before.map (index_of e) speed))) }
    ensures places { storages.new.first.both.first ≡ storages.old.first.both.first }
    ensures rest { storages.new.rest.rest ≡ storages.old.rest.rest }
    ensures same { IfNone result (storages.new ≡ storages.old) }
{
    storages.with_three(|loads: &mut MaskedStorage<Load>, places: &mut MaskedStorage<
        Place,
    >, speeds: &mut MaskedStorage<Speed>| {
        is_loaded_somewhere(loads, places, speeds, e, load, speed)
    })
}

/// The same in a core, where the entity has to be alive.
pub fn loaded_in_core(core: &mut Core<Stores>, e: Entity, load: Load, speed: Speed) -> Option<bool>
    ensures people { core.new.parts.entities ≡ core.old.parts.entities }
    ensures places { core.new.parts.storages.first.both.first ≡ core.old.parts.storages.first.both.first }
    ensures rest { core.new.parts.storages.rest.rest ≡ core.old.parts.storages.rest.rest }
    ensures same { IfNone result (core.new ≡ core.old) }
{
    core.with_three(|entities, loads: &mut MaskedStorage<Load>, places: &mut MaskedStorage<
        Place,
    >, speeds: &mut MaskedStorage<Speed>| {
        entities.is_alive(e) && is_loaded_somewhere(loads, places, speeds, e, load, speed)
    })
}
