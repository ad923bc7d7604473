//! A phase over the entities of a world.
ghost use Rattle.entities.specs.Phase.Board.{IsPassOf};
ghost use Rattle.entities.specs.Phase.Opened.{entities_of, board_of};
ghost use Rattle.entities.specs.Phase.Calls.{IsOpen};

use crate::asserts::{equal, holds};
use crate::calls::{die, entity, lives, selects};
use entities::{Closed, EntitiesRes, Pass, Shared};
use specs::{Entity, SetExpr, Storages, World};
use std::alloc::Global;
use std::process::Abort;
use std::test::Fail;

/// What was answered in a phase of two entities and three passes.
#[derive(PartialEq, Eq, Debug, Drop)]
struct Answers {
    first: FirstAnswers,
    /// What the second pass was given.
    second: Option<Entity>,
    /// What the third one was given, and when it asked again.
    third: (Option<Entity>, Option<Entity>),
    closed: Closed,
}

/// What the first pass was given, and what it was answered of an entity that it deleted.
#[derive(PartialEq, Eq, Debug, Drop)]
struct FirstAnswers {
    given: Option<Entity>,
    deleted: bool,
    alive: bool,
    pending: bool,
}

/// A pass creates, deletes an entity, and asks of it.
fn first_turn(shared: &Shared<'_>, pass: &mut Pass, doomed: Entity) -> FirstAnswers
    requires opened { IsOpen (entities_of shared.now) (board_of shared.now) }
    requires pass { IsPassOf (board_of shared.now) pass.old }
    ensures { IsPassOf (board_of shared.now) pass.new }
{
    let given = shared.create(pass).ok();
    let deleted = shared.delete(pass, doomed).is_ok();
    let alive = shared.is_alive(pass, doomed);
    let pending = shared.pending(pass, doomed);
    FirstAnswers {
        given,
        deleted,
        alive,
        pending,
    }
}

/// A pass creates twice.
fn last_turn(shared: &Shared<'_>, pass: &mut Pass) -> (Option<Entity>, Option<Entity>)
    requires opened { IsOpen (entities_of shared.now) (board_of shared.now) }
    requires pass { IsPassOf (board_of shared.now) pass.old }
    ensures { IsPassOf (board_of shared.now) pass.new }
{
    let given = shared.create(pass).ok();
    (given, shared.create(pass).ok())
}

/// Each of three passes creates once, of two in the reserve, the last one once more, and the first deletes what it was given.
fn three_passes(alloc: Global, entities: &mut EntitiesRes, doomed: Entity) -> Option<Answers> {
    match entities.open(alloc, 2, 3) {
        Ok((shared, mut passes)) => {
            let first = first_turn(&shared, &mut passes[0], doomed);
            let second = shared.create(&mut passes[1]).ok();
            let third = last_turn(&shared, &mut passes[2]);
            Some(Answers {
                first,
                second,
                third,
                closed: shared.close(passes),
            })
        }
        Err(_) => None,
    }
}

/// Two are given an entity, the third none, and what the first deleted dies with the next maintain.
pub fn third_pass_is_refused<R: Abort, S: Storages>(
    rt: &R,
    alloc: Global,
    world: &mut World<S>,
) -> Result<(), Fail> {
    let (first, second) = (entity(0, 1)?, entity(1, 1)?);
    let wanted = Answers {
        first: FirstAnswers {
            given: Some(first),
            deleted: true,
            alive: true,
            pending: true,
        },
        second: Some(second),
        third: (None, None),
        closed: Closed {
            births: 2,
            marks: 1,
            passes_back: 3,
        },
    };
    let entities = &mut world.parts().core.parts().entities;
    equal!(rt; three_passes(alloc, entities, first), Some(wanted));
    holds!(rt; die(world, &[first]));
    holds!(rt; selects(world, &SetExpr::Living, &[1]));
    holds!(rt; lives(world, second));
    Ok(())
}
