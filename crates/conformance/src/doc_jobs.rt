//! Jobs of the doc examples of specs: one that deletes all, and one that asks whether an entity lives.
use crate::asserts::{equal, holds};
use crate::calls::{born, done, entity, execute, fresh, is_there, mark, raised};
use crate::listed::Listed;
use crate::own_jobs::{listing, lists};
use crate::stories::{self, told};
use composed::Empty;
use specs::{CloneStorages, Command, Core, Entity, LazyUpdate, Storages, World, WorldJob};
use std::alloc::{AllocError, Global};
use std::process::Abort;
use std::test::Fail;

/// Deletes all.
#[derive(Drop)]
struct DeleteAll;

impl<S: Storages> WorldJob<S> for DeleteAll {
    ghost use Rattle.specs.specs.World.People.{the_living};
    ghost use Rattle.specs.specs.World.State.{Deletes};
    ghost use Rattle.conformance.specs.Ends.{ended_grows, ended_lives};

    ghost does = { λ j old more new. Deletes (the_living old.people) old new };

    ghost wants = { λ j s. Unit {0} };

    ghost spares = { λ j slot n. ⊥ };

    fn update(
        self,
        core: &mut Core<S>,
        _queue: &mut LazyUpdate<S, Self>,
    ) -> Result<(), (Self, AllocError)> {
        match core.delete_all() {
            Ok(()) => Ok(()),
            Err(refused) => Err((self, refused)),
        }
    }

    ghost grows = { λ j old new more s. ended_grows old new s };

    ghost lives = { λ j old new more s w. ended_lives old new s w };

    ghost tells = { λ j slot n old new more s spared l. absurd spared };
}

/// Asks whether an entity lives, and puts 1 or 0 to the list beside the storages.
#[derive(Drop)]
struct Ask {
    entity: Entity,
}

impl<S: Storages> WorldJob<Listed<S>> for Ask {
    ghost use Rattle.specs.specs.Laws.Lawful.{DoesNothing, still_grows, still_lives, nothing_tells};

    ghost does = { λ j old more new. DoesNothing old more new };

    ghost wants = { λ j s. Unit {0} };

    ghost spares = { λ j slot n. Unit {0} };

    fn update(
        self,
        core: &mut Core<Listed<S>>,
        _queue: &mut LazyUpdate<Listed<S>, Ask>,
    ) -> Result<(), (Ask, AllocError)> {
        let lives = core.entities().is_alive(self.entity);
        match core.parts().storages.numbers.push(u32::from(lives)) {
            Ok(()) => Ok(()),
            Err(_) => Err((self, AllocError)),
        }
    }

    ghost grows = { λ j old new more s. still_grows old new s.1 };

    ghost lives = { λ j old new more s w. still_lives old new s.1 w };

    ghost tells = { λ j slot n old new more s spared l. nothing_tells _ slot n old new more s l };
}

/// A merged entity and a pending one live until the job runs, and an index of theirs is born again then.
fn ends_all<R: Abort, S: CloneStorages>(
    rt: &R,
    world: &mut World<S, DeleteAll>,
) -> Result<(), Fail> {
    let (first, again) = (entity(0, 1)?, entity(1, 2)?);
    equal!(rt; born(world, Command::Create), Some(first));
    let second = raised(world)?;
    holds!(rt; execute(world, DeleteAll));
    holds!(rt; is_there(world, first));
    holds!(rt; is_there(world, second));
    equal!(rt; done(world, 9), Some((1, 0, 0)));
    holds!(rt; !is_there(world, first));
    holds!(rt; !is_there(world, second));
    equal!(rt; born(world, Command::Create), Some(again));
    Ok(())
}

/// An entity that lives as its job runs, and one that dies with the same maintain.
fn asks<R: Abort, S: Storages>(rt: &R, world: &mut World<Listed<S>, Ask>) -> Result<(), Fail> {
    let first = raised(world)?;
    let second = raised(world)?;
    holds!(rt; execute(world, Ask { entity: first }));
    holds!(rt; execute(world, Ask { entity: second }));
    holds!(rt; mark(world, second));
    holds!(rt; lists(world, &[]));
    equal!(rt; done(world, 9), Some((2, 0, 0)));
    holds!(rt; lists(world, &[1, 0]));
    Ok(())
}

/// What is told of a world.
#[derive(Clone, Copy)]
pub enum Story {
    EndsAll,
    Asks,
}

fn ends_all_of_new<R: Abort, S: CloneStorages + Empty + Drop>(
    rt: &R,
    alloc: Global,
) -> Result<(), Fail> {
    let mut world = fresh::<S, _>(alloc);
    ends_all(rt, &mut world)
}

fn asks_new<R: Abort, S: Storages + Empty + Drop>(rt: &R, alloc: Global) -> Result<(), Fail> {
    let mut world = listing::<S, _>(alloc);
    asks(rt, &mut world)
}

/// Tells a story of a new world.
pub fn tell_of_new<R: Abort, S: CloneStorages + Empty + Drop>(
    rt: &R,
    alloc: Global,
    story: Story,
) -> Result<(), Fail> {
    match story {
        Story::EndsAll => ends_all_of_new::<R, S>(rt, alloc),
        Story::Asks => asks_new::<R, S>(rt, alloc),
    }
}

#[test]
fn a_job_deletes_all(rt: HostRuntime) -> Result<(), Fail> {
    told(&rt, rt.alloc(), stories::Story::Doc(Story::EndsAll))
}

#[test]
fn a_job_asks_whether_an_entity_lives(rt: HostRuntime) -> Result<(), Fail> {
    told(&rt, rt.alloc(), stories::Story::Doc(Story::Asks))
}
