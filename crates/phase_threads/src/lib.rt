//! Phases in threads: `in_threads` opens one, lets each pass take its `Turn` in a thread, and closes it; `in_threads_by` takes a closure for the turn.
#![tactic(auto)]

ghost use Rattle.std.specs.Prelude.{◌≡◌, ℕ, length};
ghost use Rattle.std.specs.List.{All};
ghost use Rattle.entities.specs.Phase.Board.{IsPassOf};
ghost use Rattle.entities.specs.Phase.Opened.{board_of};

mod run;
mod seats;
mod turn;

use entities::{EntitiesRes, Pass, Shared};
use rayon::prelude::*;
pub use run::{in_threads, in_threads_by};
use std::alloc::Global;
use std::thread::Threads;
pub use turn::Turn;

/// Each pass creates once, in threads. How many were given an entity is told at the close.
pub fn create_all(rt: &(impl Threads + Sync), shared: &Shared<'_>, passes: &mut [Pass])
    requires { All (IsPassOf (board_of shared.now)) passes.old }
    ensures { All (IsPassOf (board_of shared.now)) passes.new }
{
    par_for_each_mut(
        rt,
        passes,
        |_i: usize, pass: &mut Pass|
            requires { IsPassOf (board_of shared.now) pass.old }
            ensures { IsPassOf (board_of shared.entry.now) pass.new }
        {
            let _ = shared.create(pass);
        },
    );
}

/// Two phases in turn, each of one entity and one pass. The first one's pass is kept and dropped: it is of no use to the second. It answers
/// how many entities were given.
pub fn in_turn(alloc: Global, entities: &mut EntitiesRes) -> usize {
    let mut given = 0;
    let mut kept = None;
    if let Ok((first, mut passes)) = entities.open(alloc, 1, 1) {
        kept = passes.pop();
        let _ = first.close(passes);
    }
    if let Ok((second, mut passes)) = entities.open(alloc, 1, 1) {
        if let Some(mut pass) = passes.pop() {
            if second.create(&mut pass).is_ok() {
                given = 1;
            }
        }
        let _ = second.close(passes);
    }
    drop(kept);
    given
}
