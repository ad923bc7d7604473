//! Tests of specs on lazy updates, by their names there.
ghost use Rattle.std.specs.Prelude.{◌≡◌};
ghost use Rattle.specs.specs.World.State.{core_state};
ghost use Rattle.conformance.specs.Puts.{Given};

use crate::asserts::{equal, holds};
use crate::calls::{
    done, entity, entity_at, execute, fresh, has, health, healths, insert_all_later, insert_later,
    is_done, is_there, maintained, position, positions, put, raised, register_both, remove_later,
};
use crate::listed::Listed;
use crate::own_jobs::{listing, lists};
use crate::stories::{self, told};
use composed::Empty;
use script_slots::{Health, Position, ScriptJob};
use specs::{
    Builder, CloneStorages, Command, Core, Entity, Has, LazyUpdate, Parts, Refusal, Storages,
    World, WorldJob,
};
use std::alloc::{AllocError, Global};
use std::process::Abort;
use std::test::Fail;

type Busy<S> = World<S, ScriptJob>;

/// Puts a value at an entity by itself, or nothing where the insertion is refused.
#[derive(Drop)]
struct Put<S: Storages> {
    entity: Entity,
    value: S::Value,
}

impl<S: Storages> WorldJob<S> for Put<S> {
    ghost use Rattle.std.specs.Prelude.{◌≡◌, []};
    ghost use Rattle.conformance.specs.Puts.{Given, given_grows, given_lives};

    ghost does = { λ j old more new. (more ≡ []) × Given S.place j.entity j.value old new };

    ghost wants = { λ j s. ⊥ };

    ghost spares = { λ j slot n. ⊥ };

    fn update(
        self,
        core: &mut Core<S>,
        _queue: &mut LazyUpdate<S, Self>,
    ) -> Result<(), (Self, AllocError)> {
        give(core, self.entity, self.value);
        Ok(())
    }

    ghost grows = { λ j old new more s. given_grows S.place j.entity j.value old new s.1 };

    ghost lives = { λ j old new more s w. given_lives S.place j.entity j.value old new s.1 w };

    ghost tells = { λ j slot n old new more s spared l. absurd spared };
}

/// An insertion, which may be refused.
fn give<S: Storages>(core: &mut Core<S>, e: Entity, value: S::Value)
    ensures { Given S.place e value (core_state S.table S.ids core.old) (core_state S.table S.ids core.new) }
{
    let Parts { entities, storages } = core.parts();
    match storages.insert(entities, e, value) {
        Ok(_) => {}
        Err(_) => {}
    }
}

/// What a nested job does when its turn comes.
#[derive(Clone, Copy)]
enum Turn {
    /// It queues the same job for the other turn, and then looks whether the value is there: it puts 1 or 0 to the list beside the storages.
    Outer,
    /// It puts the value by itself.
    Inner,
}

/// A job within a job.
#[derive(Drop)]
struct Nested<S: Storages> {
    turn: Turn,
    entity: Entity,
    value: S::Value,
}

impl<S: CloneStorages> WorldJob<Listed<S>> for Nested<S> {
    ghost use Rattle.std.specs.Prelude.{◌≡◌};
    ghost use Rattle.conformance.specs.Puts.{Given, given_grows, given_lives};

    ghost does = { λ j old more new. Given S.place j.entity j.value old new };

    ghost wants = { λ j s. Unit {0} };

    ghost spares = { λ j slot n. ⊥ };

    fn update(
        self,
        core: &mut Core<Listed<S>>,
        queue: &mut LazyUpdate<Listed<S>, Self>,
    ) -> Result<(), (Self, AllocError)> {
        let Nested {
            turn,
            entity,
            value,
        } = self;
        match turn {
            Turn::Inner => {
                give(core, entity, value);
                Ok(())
            }
            Turn::Outer => {
                let slot = S::slot_of(&value);
                let inner = Nested {
                    turn: Turn::Inner,
                    entity,
                    value,
                };
                if let Err(failed) = queue.exec(inner) {
                    let inner = failed.value;
                    return Err((Nested { turn, ..inner }, AllocError));
                }
                let Parts { entities, storages } = core.parts();
                let found = storages.get(entities, slot, entity);
                let _ = storages.numbers.push(counted(&found));
                Ok(())
            }
        }
    }

    ghost grows = { λ j old new more s. given_grows S.place j.entity j.value old new s };

    ghost lives = { λ j old new more s w. given_lives S.place j.entity j.value old new s w };

    ghost tells = { λ j slot n old new more s spared l. absurd spared };
}

/// How many values were found.
fn counted<V>(found: &Result<Option<V>, Refusal>) -> u32 {
    match found {
        Ok(Some(_)) => 1,
        _ => 0,
    }
}

/// Storages for both component types, and two entities whose births are pending.
fn begin<R: Abort, P, H, S: CloneStorages + Has<Position, P> + Has<Health, H>>(
    rt: &R,
    world: &mut Busy<S>,
) -> Result<(Entity, Entity), Fail> {
    holds!(rt; register_both(world));
    let first = raised(world)?;
    let second = raised(world)?;
    Ok((first, second))
}

/// Maintains a world, whereby so many jobs run, none of which is refused or waits.
fn runs<R: Abort, S: Storages>(rt: &R, world: &mut Busy<S>, jobs: u64) {
    equal!(rt; done(world, u64::MAX), Some((jobs, 0, 0)));
}

/// Two values, each for its entity.
fn two<V: Drop>(
    alloc: Global,
    first: (Entity, V),
    second: (Entity, V),
) -> Result<Vec<(Entity, V)>, AllocError> {
    let mut pairs = Vec::new(alloc);
    pairs.push(first)?;
    pairs.push(second)?;
    Ok(pairs)
}

fn inserts<R: Abort, P, H, S: CloneStorages + Has<Position, P> + Has<Health, H>>(
    rt: &R,
    alloc: Global,
    world: &mut Busy<S>,
) -> Result<(), Fail> {
    let (e1, e2) = begin(rt, world)?;
    holds!(rt; insert_later(world, e1, position::<P, S>(1)));
    let pairs = two(alloc, (e1, health::<H, S>(2)), (e2, health::<H, S>(3)))?;
    holds!(rt; insert_all_later(world, pairs));
    holds!(rt; !has(world, positions::<P, S>(), e1));
    runs(rt, world, 2);
    holds!(rt; has(world, positions::<P, S>(), e1));
    holds!(rt; has(world, healths::<H, S>(), e1));
    holds!(rt; has(world, healths::<H, S>(), e2));
    Ok(())
}

fn removes<R: Abort, P, H, S: CloneStorages + Has<Position, P> + Has<Health, H>>(
    rt: &R,
    world: &mut Busy<S>,
) -> Result<(), Fail> {
    let (e, _) = begin(rt, world)?;
    holds!(rt; put(world, e, position::<P, S>(1)));
    holds!(rt; remove_later(world, positions::<P, S>(), e));
    holds!(rt; has(world, positions::<P, S>(), e));
    runs(rt, world, 1);
    holds!(rt; !has(world, positions::<P, S>(), e));
    Ok(())
}

/// A job that creates an entity; one more lives afterwards than before.
fn executes<R: Abort, P, H, S: CloneStorages + Has<Position, P> + Has<Health, H>>(
    rt: &R,
    world: &mut Busy<S>,
) -> Result<(), Fail> {
    let (_, last) = begin(rt, world)?;
    holds!(rt; execute(world, ScriptJob::Create));
    let next = entity_at(world, last.id().wrapping_add(1));
    holds!(rt; !is_there(world, next));
    runs(rt, world, 1);
    holds!(rt; is_there(world, next));
    Ok(())
}

/// A job that puts a position at an entity by itself.
fn puts<R: Abort, P, S: CloneStorages + Has<Position, P>>(
    rt: &R,
    world: &mut World<S, Put<S>>,
) -> Result<(), Fail> {
    holds!(rt; is_done(world, Command::Register(positions::<P, S>())));
    let entity = raised(world)?;
    let value = position::<P, S>(1);
    holds!(rt; execute(world, Put { entity, value }));
    holds!(rt; !has(world, positions::<P, S>(), entity));
    equal!(rt; done(world, 9), Some((1, 0, 0)));
    holds!(rt; has(world, positions::<P, S>(), entity));
    Ok(())
}

/// A job that queues a job which puts a position by itself, and sees none then: both run at one maintain.
fn puts_nested<R: Abort, P, S: CloneStorages + Has<Position, P>>(
    rt: &R,
    world: &mut World<Listed<S>, Nested<S>>,
) -> Result<(), Fail> {
    holds!(rt; is_done(world, Command::Register(positions::<P, S>())));
    let entity = raised(world)?;
    let turn = Turn::Outer;
    let value = position::<P, S>(1);
    holds!(rt;
        execute(
            world,
            Nested {
                turn,
                entity,
                value
            }
        )
    );
    equal!(rt; done(world, 9), Some((2, 0, 0)));
    holds!(rt; has(world, positions::<P, S>(), entity));
    holds!(rt; lists(world, &[0]));
    Ok(())
}

/// An entity that is built with a value, which is queued.
fn built<S: Storages>(world: &mut Busy<S>, value: S::Value) -> Option<Entity> {
    let builder = world.parts().create_entity().ok()?;
    let builder = builder.with_value(value).ok()?;
    Some(builder.build())
}

/// The value comes with the next maintain.
fn builds<R: Abort, P, H, S: CloneStorages + Has<Position, P> + Has<Health, H>>(
    rt: &R,
    world: &mut Busy<S>,
) -> Result<(), Fail> {
    let _ = begin(rt, world)?;
    let e = built(world, position::<P, S>(1)).ok_or("a building")?;
    holds!(rt; is_there(world, e));
    holds!(rt; !has(world, positions::<P, S>(), e));
    runs(rt, world, 1);
    holds!(rt; has(world, positions::<P, S>(), e));
    Ok(())
}

/// The entity of a builder that is not built.
fn unbuilt<S: Storages>(world: &mut Busy<S>) -> Option<Entity> {
    let builder = world.parts().create_entity().ok()?;
    Some(builder.entity())
}

/// Such an entity dies with the next maintain.
fn drops<R: Abort, P, H, S: CloneStorages + Has<Position, P> + Has<Health, H>>(
    rt: &R,
    world: &mut Busy<S>,
) -> Result<(), Fail> {
    let _ = begin(rt, world)?;
    let e = unbuilt(world).ok_or("a birth")?;
    holds!(rt; is_there(world, e));
    runs(rt, world, 0);
    holds!(rt; !is_there(world, e));
    Ok(())
}

/// What is told of a world.
#[derive(Clone, Copy)]
pub enum Story {
    Inserts,
    Removes,
    Executes,
    Puts,
    PutsNested,
    Builds,
    Drops,
}

fn tell<R: Abort, P, H, S: CloneStorages + Has<Position, P> + Has<Health, H>>(
    rt: &R,
    alloc: Global,
    story: Story,
    world: &mut Busy<S>,
) -> Result<(), Fail> {
    match story {
        Story::Inserts => inserts(rt, alloc, world),
        Story::Removes => removes(rt, world),
        Story::Builds => builds(rt, world),
        Story::Drops => drops(rt, world),
        _ => executes(rt, world),
    }
}

fn put_in_new<R: Abort, P, S: CloneStorages + Empty + Has<Position, P> + Drop>(
    rt: &R,
    alloc: Global,
) -> Result<(), Fail> {
    let mut world = fresh::<S, _>(alloc);
    puts(rt, &mut world)
}

fn put_nested_in_new<R: Abort, P, S: CloneStorages + Empty + Has<Position, P> + Drop>(
    rt: &R,
    alloc: Global,
) -> Result<(), Fail> {
    let mut world = listing(alloc);
    puts_nested::<R, P, S>(rt, &mut world)
}

/// Tells a story of a new world.
pub fn tell_of_new<
    R: Abort,
    P,
    H,
    S: CloneStorages + Empty + Has<Position, P> + Has<Health, H> + Drop,
>(rt: &R, alloc: Global, story: Story) -> Result<(), Fail> {
    if let Story::Puts = story {
        return put_in_new::<R, P, S>(rt, alloc);
    }
    if let Story::PutsNested = story {
        return put_nested_in_new::<R, P, S>(rt, alloc);
    }
    let mut world = fresh::<S, _>(alloc);
    tell::<R, P, H, S>(rt, alloc, story, &mut world)
}

#[test]
fn lazy_insertion(rt: HostRuntime) -> Result<(), Fail> {
    told(&rt, rt.alloc(), stories::Story::Lazy(Story::Inserts))
}

#[test]
fn lazy_removal(rt: HostRuntime) -> Result<(), Fail> {
    told(&rt, rt.alloc(), stories::Story::Lazy(Story::Removes))
}

#[test]
fn lazy_execution(rt: HostRuntime) -> Result<(), Fail> {
    told(&rt, rt.alloc(), stories::Story::Lazy(Story::Puts))
}

#[test]
fn a_job_that_creates_an_entity_waits_for_the_next_maintain(rt: HostRuntime) -> Result<(), Fail> {
    told(&rt, rt.alloc(), stories::Story::Lazy(Story::Executes))
}

#[test]
fn what_is_built_lazily_comes_with_the_next_maintain(rt: HostRuntime) -> Result<(), Fail> {
    told(&rt, rt.alloc(), stories::Story::Lazy(Story::Builds))
}

#[test]
fn a_lazy_builder_that_is_dropped_marks_its_entity(rt: HostRuntime) -> Result<(), Fail> {
    told(&rt, rt.alloc(), stories::Story::Lazy(Story::Drops))
}

#[test]
fn super_lazy_execution(rt: HostRuntime) -> Result<(), Fail> {
    told(&rt, rt.alloc(), stories::Story::Lazy(Story::PutsNested))
}
