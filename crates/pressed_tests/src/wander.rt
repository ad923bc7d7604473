//! Passes that create and delete at random.
ghost use Rattle.entities.specs.Phase.Board.{IsPassOf};
ghost use Rattle.entities.specs.Phase.Opened.{entities_of, board_of};
ghost use Rattle.entities.specs.Phase.Calls.{IsOpen};

use entities::{Entity, Pass, Shared};
use phase_threads::Turn;
use std::sync::atomic::{AtomicU64, Ordering};

/// What a pass did by one call.
#[derive(Clone, Copy)]
pub enum Did {
    /// It was given this entity.
    Given(Entity),
    /// It was given nothing, since the reserve is used up.
    Exhausted,
    /// It marked this entity.
    Marked(Entity),
    /// It was refused the deletion of this entity.
    Refused(Entity),
    /// It had nobody to delete.
    Nothing,
}

/// A pass that makes four calls, each of which creates, deletes what the one before was given, or deletes somebody who was given before the
/// phase. Its choices follow from the number that it takes.
#[derive(Drop)]
pub struct Wander {
    /// The number that the next pass takes.
    pub number: AtomicU64,
    /// Whom it may delete besides.
    pub older: Vec<Entity>,
}

/// The number after this one, by a xorshift generator.
fn stirred(number: u64) -> u64 {
    let once = number ^ (number << 13);
    let twice = once ^ (once >> 7);
    twice ^ (twice << 17)
}

/// Whom a call gave.
fn given_by(did: Did) -> Option<Entity> {
    match did {
        Did::Given(e) => Some(e),
        _ => None,
    }
}

fn create(shared: &Shared<'_>, pass: &mut Pass) -> Did
    requires { IsPassOf (board_of shared.now) pass.old }
    ensures { IsPassOf (board_of shared.now) pass.new }
{
    match shared.create(pass) {
        Ok(e) => Did::Given(e),
        Err(_) => Did::Exhausted,
    }
}

fn delete(shared: &Shared<'_>, pass: &mut Pass, entity: Option<Entity>) -> Did
    requires open { IsOpen (entities_of shared.now) (board_of shared.now) }
    requires pass { IsPassOf (board_of shared.now) pass.old }
    ensures { IsPassOf (board_of shared.now) pass.new }
{
    let Some(e) = entity else {
        return Did::Nothing;
    };
    match shared.delete(pass, e) {
        Ok(()) => Did::Marked(e),
        Err(_) => Did::Refused(e),
    }
}

impl Wander {
    /// The number that follows from that of the next pass, which takes it.
    fn seed(&self) -> u64 {
        let number = self.number.fetch_add(1, Ordering::SeqCst);
        stirred(number.wrapping_mul(0x9E37_79B9_7F4A_7C15))
    }

    /// Who was given before the phase, if anybody stands at such a place.
    fn older_one(&self, number: u64) -> Option<Entity> {
        self.older.get((number >> 8) as usize % 128).copied()
    }

    /// One call of a pass, after one that did something.
    fn step(&self, shared: &Shared<'_>, pass: &mut Pass, number: u64, before: Did) -> Did
        requires open { IsOpen (entities_of shared.now) (board_of shared.now) }
        requires pass { IsPassOf (board_of shared.now) pass.old }
        ensures { IsPassOf (board_of shared.now) pass.new }
    {
        match (number >> 32) % 4 {
            0 | 1 => create(shared, pass),
            2 => delete(shared, pass, given_by(before)),
            _ => delete(shared, pass, self.older_one(number)),
        }
    }
}

impl Turn for Wander {
    type Answer = [Did; 4];

    fn turn(&self, shared: &Shared<'_>, pass: &mut Pass) -> [Did; 4] {
        let number = self.seed();
        let first = self.step(shared, pass, number, Did::Nothing);
        let number = stirred(number);
        let second = self.step(shared, pass, number, first);
        let number = stirred(number);
        let third = self.step(shared, pass, number, second);
        let number = stirred(number);
        [first, second, third, self.step(shared, pass, number, third)]
    }
}
