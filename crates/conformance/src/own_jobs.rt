//! The order of a user's own jobs, as a list shows it that stands beside the components.
use crate::asserts::{equal, holds};
use crate::calls::{done, execute};
use crate::listed::Listed;
use crate::stories::{self, told};
use composed::Empty;
use specs::{Core, LazyUpdate, Storages, World, WorldJob};
use std::alloc::{AllocError, Global};
use std::process::Abort;
use std::test::Fail;

/// Pushes a number to the list beside the storages.
#[derive(Drop)]
struct Push {
    number: u32,
}

impl<S: Storages> WorldJob<Listed<S>> for Push {
    ghost use Rattle.specs.specs.Laws.Lawful.{DoesNothing, still_grows, still_lives, nothing_tells};

    ghost does = { λ j old more new. DoesNothing old more new };

    ghost wants = { λ j s. Unit {0} };

    ghost spares = { λ j slot n. Unit {0} };

    fn update(
        self,
        core: &mut Core<Listed<S>>,
        _queue: &mut LazyUpdate<Listed<S>, Push>,
    ) -> Result<(), (Push, AllocError)> {
        match core.parts().storages.numbers.push(self.number) {
            Ok(()) => Ok(()),
            Err(_) => Err((self, AllocError)),
        }
    }

    ghost grows = { λ j old new more s. still_grows old new s.1 };

    ghost lives = { λ j old new more s w. still_lives old new s.1 w };

    ghost tells = { λ j slot n old new more s spared l. nothing_tells _ slot n old new more s l };
}

type Listing<S> = World<Listed<S>, Push>;

/// A new world, with an empty list beside its storages.
pub fn listing<S: Storages + Empty, J: WorldJob<Listed<S>>>(alloc: Global) -> World<Listed<S>, J> {
    World::new(
        alloc,
        Listed {
            storages: S::empty(alloc),
            numbers: Vec::new(alloc),
        },
    )
}

/// Queues a job that pushes 1, and then one that pushes 2.
fn queue_both<R: Abort, S: Storages>(rt: &R, world: &mut Listing<S>) {
    holds!(rt; execute(world, Push { number: 1 }));
    holds!(rt; execute(world, Push { number: 2 }));
}

/// Whether the list is this one.
pub fn lists<S: Storages, J: WorldJob<Listed<S>>>(
    world: &mut World<Listed<S>, J>,
    numbers: &[u32],
) -> bool {
    world.parts().core.parts().storages.numbers.as_slice() == numbers
}

fn in_order<R: Abort, S: Storages>(rt: &R, world: &mut Listing<S>) {
    queue_both(rt, world);
    holds!(rt; lists(world, &[]));
    equal!(rt; done(world, 9), Some((2, 0, 0)));
    holds!(rt; lists(world, &[1, 2]));
}

fn in_two_turns<R: Abort, S: Storages>(rt: &R, world: &mut Listing<S>) {
    queue_both(rt, world);
    equal!(rt; done(world, 1), Some((1, 0, 1)));
    holds!(rt; lists(world, &[1]));
    equal!(rt; done(world, 1), Some((1, 0, 0)));
    holds!(rt; lists(world, &[1, 2]));
}

/// What is told of a world.
#[derive(Clone, Copy)]
pub enum Story {
    InOrder,
    InTwoTurns,
}

/// Tells a story of a new world, whose list is empty.
pub fn tell_of_new<R: Abort, S: Storages + Empty + Drop>(rt: &R, alloc: Global, story: Story) {
    let mut world = listing::<S, Push>(alloc);
    match story {
        Story::InOrder => in_order(rt, &mut world),
        Story::InTwoTurns => in_two_turns(rt, &mut world),
    }
}

#[test]
fn own_jobs_run_in_the_order_in_which_they_were_queued(rt: HostRuntime) -> Result<(), Fail> {
    told(&rt, rt.alloc(), stories::Story::Own(Story::InOrder))
}

#[test]
fn an_own_job_past_the_limit_runs_at_the_next_maintain(rt: HostRuntime) -> Result<(), Fail> {
    told(&rt, rt.alloc(), stories::Story::Own(Story::InTwoTurns))
}
