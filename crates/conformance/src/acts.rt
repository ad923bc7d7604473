//! Jobs without laws of their own: what they change is there at the turn in which they run, and what they queue runs after it.
ghost use Rattle.specs.specs.Laws.Going.{GoesOn};
ghost use Rattle.specs.specs.World.State.{core_state};

use crate::asserts::{equal, holds};
use crate::calls::{done, execute, fresh, raised};
use crate::stories::{self, told};
use composed::Empty;
use script_slots::{Health, Position};
use specs::{
    Act, Builder, CloneStorages, Core, Doing, Entity, Has, InsertError, LazyUpdate, Storages, World,
};
use std::alloc::{AllocError, Global};
use std::marker::PhantomData;
use std::process::Abort;
use std::test::Fail;

/// One point of health more for an entity that has some.
#[derive(Drop)]
struct Heal<H> {
    entity: Entity,
    of: PhantomData<H>,
}

impl<H, S: Has<Health, H>> Act<S> for Heal<H> {
    fn act(
        self,
        core: &mut Core<S>,
        _queue: &mut LazyUpdate<S, Doing<Self>>,
    ) -> Result<(), (Self, AllocError)> {
        let Ok(mut healths) = core.write_storage::<Health, H>() else {
            return Ok(());
        };
        let Some(Health(points)) = healths.get(self.entity).copied() else {
            return Ok(());
        };
        match healths.insert(self.entity, Health(points.wrapping_add(1))) {
            Err(InsertError::OutOfMemory(_)) => Err((self, AllocError)),
            _ => Ok(()),
        }
    }
}

/// An entity with a position is born, where memory is left.
fn settle<S: Has<Position, P>, P>(core: &mut Core<S>)
    ensures { GoesOn (core_state S.table S.ids core.old) (core_state S.table S.ids core.new) }
{
    let entity = match core.create_entity() {
        Ok(builder) => builder.build(),
        Err(_) => return,
    };
    if let Ok(mut positions) = core.write_storage::<Position, P>() {
        let _ = positions.insert(entity, Position(7));
    }
}

/// Three entities with a position are born at each turn, so many turns long, and then everyone dies.
#[derive(Drop)]
struct Spread<P> {
    turns: u32,
    of: PhantomData<P>,
}

impl<P, S: Storages + Has<Position, P>> Act<S> for Spread<P> {
    fn act(
        self,
        core: &mut Core<S>,
        queue: &mut LazyUpdate<S, Doing<Self>>,
    ) -> Result<(), (Self, AllocError)> {
        if self.turns == 0 {
            return match core.delete_all() {
                Ok(()) => Ok(()),
                Err(refused) => Err((self, refused)),
            };
        }
        let next = Spread {
            turns: self.turns - 1,
            of: PhantomData,
        };
        if queue.exec(Doing(next)).is_err() {
            return Err((self, AllocError));
        }
        core.repeat(3, |core: &mut Core<S>| settle::<S, P>(core));
        Ok(())
    }
}

/// How many entities have a position.
fn settled<P, S: Has<Position, P>, J: Drop>(world: &World<S, J>) -> usize {
    match world.read_storage::<Position, P>() {
        Ok(positions) => positions.count(),
        Err(_) => 0,
    }
}

/// The health of an entity.
fn health<H, S: Has<Health, H>, J: Drop>(world: &World<S, J>, e: Entity) -> Option<i64> {
    match world.read_storage::<Health, H>() {
        Ok(healths) => healths.get(e).map(|health| health.0),
        Err(_) => None,
    }
}

/// A healing for an entity.
fn healing<H>(entity: Entity) -> Doing<Heal<H>> {
    Doing(Heal {
        entity,
        of: PhantomData,
    })
}

fn heals<R: Abort, H, S: Storages + Has<Health, H>>(
    rt: &R,
    world: &mut World<S, Doing<Heal<H>>>,
) -> Result<(), Fail> {
    let sick = raised(world)?;
    let well = raised(world)?;
    world.register::<Health, H>()?;
    let mut healths = world.write_storage::<Health, H>()?;
    healths.insert(sick, Health(3)).ok().ok_or("memory")?;
    holds!(rt; execute(world, healing(sick)));
    holds!(rt; execute(world, healing(well)));
    holds!(rt; execute(world, healing(sick)));
    equal!(rt; health::<H, S, _>(world, sick), Some(3));
    equal!(rt; done(world, 9), Some((3, 0, 0)));
    equal!(rt; health::<H, S, _>(world, sick), Some(5));
    equal!(rt; health::<H, S, _>(world, well), None);
    Ok(())
}

fn spreads<R: Abort, P, S: Storages + Has<Position, P>>(
    rt: &R,
    world: &mut World<S, Doing<Spread<P>>>,
) -> Result<(), Fail> {
    world.register::<Position, P>()?;
    let of = PhantomData;
    holds!(rt; execute(world, Doing(Spread { turns: 2, of })));
    equal!(rt; done(world, 1), Some((1, 0, 1)));
    equal!(rt; settled::<P, S, _>(world), 3);
    equal!(rt; done(world, 1), Some((1, 0, 1)));
    equal!(rt; settled::<P, S, _>(world), 6);
    equal!(rt; done(world, 9), Some((1, 0, 0)));
    equal!(rt; settled::<P, S, _>(world), 0);
    Ok(())
}

/// What is told of a world.
#[derive(Clone, Copy)]
pub enum Story {
    Heals,
    Spreads,
}

/// Tells a story of a new world.
pub fn tell_of_new<
    R: Abort,
    P,
    H,
    S: CloneStorages + Empty + Has<Position, P> + Has<Health, H> + Drop,
>(rt: &R, alloc: Global, story: Story) -> Result<(), Fail> {
    match story {
        Story::Heals => heals::<R, H, S>(rt, &mut fresh::<S, _>(alloc)),
        Story::Spreads => spreads::<R, P, S>(rt, &mut fresh::<S, _>(alloc)),
    }
}

#[test]
fn points_are_added_twice_in_one_turn(rt: HostRuntime) -> Result<(), Fail> {
    told(&rt, rt.alloc(), stories::Story::Acts(Story::Heals))
}

#[test]
fn what_an_act_queues_runs_at_the_next_turn(rt: HostRuntime) -> Result<(), Fail> {
    told(&rt, rt.alloc(), stories::Story::Acts(Story::Spreads))
}
