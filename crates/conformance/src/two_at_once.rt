//! Two and three storages at once, by their types: each form of the call, over storages that are named in one function alone.
use crate::asserts::{equal, holds};
use crate::calls::{fresh, register};
use composed::{Empty, Of3, ThreeFields, TwoFields, WithThree, WithTwo};
use script_slots::{Health, Position, Velocity};
use specs::{Builder, Entity, Has, Held, Index, Storages, World};
use std::alloc::Global;
use std::process::Abort;
use std::test::Fail;
use storages::{Component, MaskedStorage, UnprotectedStorage};

/// An entity with a position, a velocity, or both.
fn built<P, V, S: Storages + Has<Position, P> + Has<Velocity, V>>(
    world: &mut World<S>,
    position: Option<Position>,
    velocity: Option<Velocity>,
) -> Option<Entity> {
    let builder = world.create_entity().ok()?;
    let builder = builder.maybe_with(position).ok()?;
    let builder = builder.maybe_with(velocity).ok()?;
    Some(builder.build())
}

/// The component of an entity.
fn read<T: Component + Copy, I, S: Storages + Has<T, I>>(world: &World<S>, e: Entity) -> Option<T>
where
    T::Storage: UnprotectedStorage<T>,
{
    match world.read_storage::<T, I>() {
        Ok(view) => view.get(e).copied(),
        Err(_) => None,
    }
}

/// Whether the position of an index went on by a velocity.
fn goes_on(positions: &mut MaskedStorage<Position>, id: Index, velocity: Velocity) -> bool {
    match positions.get_mut(id) {
        Ok(position) => {
            position.0 = position.0.wrapping_add(velocity.0);
            true
        }
        Err(_) => false,
    }
}

/// Each position goes on by the velocity beside it; how many there were.
fn go_on(positions: &mut MaskedStorage<Position>, velocities: &MaskedStorage<Velocity>) -> usize {
    let mut count = 0usize;
    for id in velocities.mask().iter() {
        if let Some(velocity) = velocities.get(id).copied() {
            if goes_on(positions, id, velocity) {
                count = count.saturating_add(1);
            }
        }
    }
    count
}

/// One is written while the other is read.
fn moved<Q, S: Held + TwoFields<MaskedStorage<Position>, MaskedStorage<Velocity>, Q>>(
    world: &mut World<S>,
) -> Option<usize> {
    world.with_two(|_entities, positions: &mut MaskedStorage<
        Position,
    >, velocities: &mut MaskedStorage<Velocity>| go_on(positions, velocities))
}

/// Both are written, in the other order: an entity that is alive stands where its velocity was, and is at rest.
fn arrived<Q, S: Held + TwoFields<MaskedStorage<Velocity>, MaskedStorage<Position>, Q>>(
    world: &mut World<S>,
    e: Entity,
) -> Option<bool> {
    world.with_two(|entities, velocities: &mut MaskedStorage<
        Velocity,
    >, positions: &mut MaskedStorage<Position>| {
        entities.is_alive(e) && is_at_rest(velocities, positions, e.id())
    })
}

fn is_at_rest(
    velocities: &mut MaskedStorage<Velocity>,
    positions: &mut MaskedStorage<Position>,
    id: Index,
) -> bool {
    match (velocities.get_mut(id), positions.get_mut(id)) {
        (Ok(velocity), Ok(position)) => {
            position.0 = velocity.0;
            velocity.0 = 0;
            true
        }
        _ => false,
    }
}

/// How many have a velocity and how many have a health, of the struct alone.
fn counted<Q, S: TwoFields<MaskedStorage<Velocity>, MaskedStorage<Health>, Q>>(
    storages: &mut S,
) -> Option<(usize, usize)> {
    storages.with_two(|velocities: &mut MaskedStorage<Velocity>, healths: &mut MaskedStorage<
        Health,
    >| { (velocities.count(), healths.count()) })
}

/// Whether both are there.
fn are_there<Q, S: TwoFields<MaskedStorage<Velocity>, MaskedStorage<Health>, Q>>(
    storages: &S,
) -> bool {
    storages.has_two()
}

/// Of three the first is written, and both others are read: who has a position and a velocity gets the health that they make.
fn healed<
    Q,
    S: Held
        + ThreeFields<MaskedStorage<Health>, MaskedStorage<Position>, MaskedStorage<Velocity>, Q>,
>(world: &mut World<S>, e: Entity) -> Option<bool> {
    world.with_three(|entities, healths: &mut MaskedStorage<Health>, positions: &mut MaskedStorage<
        Position,
    >, velocities: &mut MaskedStorage<Velocity>| {
        entities.is_alive(e) && is_healed(healths, positions, velocities, e)
    })
}

fn is_healed(
    healths: &mut MaskedStorage<Health>,
    positions: &MaskedStorage<Position>,
    velocities: &MaskedStorage<Velocity>,
    e: Entity,
) -> bool {
    match (positions.get(e.id()), velocities.get(e.id())) {
        (Some(position), Some(velocity)) if e.id() < specs::INDEX_LIMIT => {
            let health = Health(position.0.wrapping_add(velocity.0));
            healths.put(e.id(), health).is_ok()
        }
        _ => false,
    }
}

fn tell_of_two<
    R: Abort,
    P,
    V,
    Q,
    O,
    S: Storages
        + Has<Position, P>
        + Has<Velocity, V>
        + TwoFields<MaskedStorage<Position>, MaskedStorage<Velocity>, Q>
        + TwoFields<MaskedStorage<Velocity>, MaskedStorage<Position>, O>,
>(rt: &R, world: &mut World<S>) -> Result<(), Fail> {
    equal!(rt; moved::<Q, S>(world), None);
    holds!(rt; register::<Position, P, S, _>(world));
    equal!(rt; moved::<Q, S>(world), None);
    holds!(rt; register::<Velocity, V, S, _>(world));
    equal!(rt; moved::<Q, S>(world), Some(0));
    let both = built(world, Some(Position(1)), Some(Velocity(10))).ok_or("a building")?;
    let still = built(world, Some(Position(2)), None).ok_or("a building")?;
    let nowhere = built(world, None, Some(Velocity(5))).ok_or("a building")?;
    equal!(rt; moved::<Q, S>(world), Some(1));
    equal!(rt; read(world, both), Some(Position(11)));
    equal!(rt; read(world, both), Some(Velocity(10)));
    equal!(rt; read(world, still), Some(Position(2)));
    equal!(rt; read::<Position, P, S>(world, nowhere), None);
    equal!(rt; arrived::<O, S>(world, both), Some(true));
    equal!(rt; arrived::<O, S>(world, still), Some(false));
    equal!(rt; read(world, both), Some(Position(10)));
    equal!(rt; read(world, both), Some(Velocity(0)));
    equal!(rt; read(world, nowhere), Some(Velocity(5)));
    Ok(())
}

fn tell_of_more<
    R: Abort,
    P,
    V,
    H,
    Q,
    O,
    S: Storages
        + Has<Position, P>
        + Has<Velocity, V>
        + Has<Health, H>
        + TwoFields<MaskedStorage<Velocity>, MaskedStorage<Health>, Q>
        + ThreeFields<MaskedStorage<Health>, MaskedStorage<Position>, MaskedStorage<Velocity>, O>,
>(rt: &R, world: &mut World<S>) -> Result<(), Fail> {
    holds!(rt; register::<Position, P, S, _>(world));
    holds!(rt; register::<Velocity, V, S, _>(world));
    let both = built(world, Some(Position(1)), Some(Velocity(10))).ok_or("a building")?;
    let still = built(world, Some(Position(2)), None).ok_or("a building")?;
    holds!(rt; !are_there::<Q, S>(&world.parts().core.parts().storages));
    equal!(rt; counted::<Q, S>(&mut world.parts().core.parts().storages), None);
    equal!(rt; healed::<O, S>(world, both), None);
    holds!(rt; register::<Health, H, S, _>(world));
    holds!(rt; are_there::<Q, S>(&world.parts().core.parts().storages));
    equal!(rt; healed::<O, S>(world, both), Some(true));
    equal!(rt; healed::<O, S>(world, still), Some(false));
    equal!(rt; read(world, both), Some(Health(11)));
    equal!(rt; read::<Health, H, S>(world, still), None);
    equal!(rt; counted::<Q, S>(&mut world.parts().core.parts().storages), Some((1, 1)));
    Ok(())
}

/// Both stories, each of a new world, over whatever storages have the three.
fn tell<
    R: Abort,
    P,
    V,
    H,
    A,
    B,
    C,
    D,
    S: Storages
        + Empty
        + Drop
        + Has<Position, P>
        + Has<Velocity, V>
        + Has<Health, H>
        + TwoFields<MaskedStorage<Position>, MaskedStorage<Velocity>, A>
        + TwoFields<MaskedStorage<Velocity>, MaskedStorage<Position>, B>
        + TwoFields<MaskedStorage<Velocity>, MaskedStorage<Health>, C>
        + ThreeFields<MaskedStorage<Health>, MaskedStorage<Position>, MaskedStorage<Velocity>, D>,
>(rt: &R, alloc: Global) -> Result<(), Fail> {
    tell_of_two::<R, P, V, A, B, S>(rt, &mut fresh(alloc))?;
    tell_of_more::<R, P, V, H, C, D, S>(rt, &mut fresh(alloc))
}

#[test]
fn two_and_three_storages_are_had_at_once(rt: HostRuntime) -> Result<(), Fail> {
    tell::<_, _, _, _, _, _, _, _, Of3<Position, Velocity, Health>>(&rt, rt.alloc())
}
