//! Passes meet: the first waits for the last, on two processors or more.
ghost use Rattle.std.specs.Prelude.{◌≡◌};
ghost use Rattle.std.specs.List.{All};
ghost use Rattle.entities.specs.Phase.Board.{IsPassOf};
ghost use Rattle.entities.specs.Phase.Opened.{board_of};

use entities::{Closed, EntitiesRes, OpenError, Pass, Shared};
use rayon::prelude::*;
use std::alloc::Global;
use std::hint::spin_loop;
use std::sync::atomic::{AtomicU64, Ordering};
use std::thread::Threads;

const PASSES: usize = 4_096;
// How many turns the first pass waits at most.
const MOST_TURNS: u32 = 100_000_000;

/// Where passes come to once they have created.
trait Attended {
    /// The pass of this number comes.
    fn attend(&self, number: usize);
}

/// A flag that the last pass sets, and what the first one, which waits for it, saw of it.
#[derive(Drop)]
struct Meeting {
    last_came: AtomicU64,
    first_saw: AtomicU64,
}

/// Whether a flag is set before so many turns are over.
fn is_set_in_time(flag: &AtomicU64) -> bool {
    for _turn in 0..MOST_TURNS {
        if flag.load(Ordering::SeqCst) == 1 {
            return true;
        }
        spin_loop();
    }
    false
}

impl Attended for Meeting {
    fn attend(&self, number: usize) {
        if number == PASSES - 1 {
            self.last_came.store(1, Ordering::SeqCst);
        }
        if number == 0 && is_set_in_time(&self.last_came) {
            self.first_saw.store(1, Ordering::SeqCst);
        }
    }
}

/// Each pass creates once, in threads, and comes to the meeting.
fn create_and_meet<M: Attended + Sync>(
    rt: &(impl Threads + Sync),
    shared: &Shared<'_>,
    passes: &mut [Pass],
    meeting: &M,
)
    requires { All (IsPassOf (board_of shared.now)) passes.old }
    ensures { All (IsPassOf (board_of shared.now)) passes.new }
{
    par_for_each_mut(
        rt,
        passes,
        |number: usize, pass: &mut Pass|
            requires { IsPassOf (board_of shared.now) pass.old }
            ensures { IsPassOf (board_of shared.entry.now) pass.new }
        {
            let _ = shared.create(pass);
            meeting.attend(number);
        },
    );
}

/// What a phase comes to whose passes meet.
fn met(
    rt: &(impl Threads + Sync),
    alloc: Global,
    entities: &mut EntitiesRes,
    meeting: &Meeting,
) -> Result<Closed, OpenError> {
    match entities.open(alloc, 4_096, PASSES) {
        Ok((shared, mut passes)) => {
            create_and_meet(rt, &shared, &mut passes, meeting);
            Ok(shared.close(passes))
        }
        Err(error) => Err(error),
    }
}

/// Whether the first of 4,096 passes, once it has created, sees that the last one has, and each creates.
pub fn passes_meet(rt: &(impl Threads + Sync), alloc: Global, entities: &mut EntitiesRes) -> bool {
    let meeting = Meeting {
        last_came: AtomicU64::new(0),
        first_saw: AtomicU64::new(0),
    };
    let wanted = Closed {
        births: 4_096,
        marks: 0,
        passes_back: PASSES,
    };
    met(rt, alloc, entities, &meeting) == Ok(wanted)
        && meeting.first_saw.load(Ordering::SeqCst) == 1
}
