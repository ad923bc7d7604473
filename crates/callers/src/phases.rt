//! Shared phases.
ghost use Rattle.std.specs.Prelude.{◌≡◌, ◌≢◌, true, IfSome};
ghost use Rattle.entities.specs.Census.{population};
ghost use Rattle.entities.specs.Population.{IsAlive, index_of};
ghost use Rattle.entities.specs.Phase.Board.{IsPassOf};
ghost use Rattle.entities.specs.Phase.Opened.{entities_of, board_of};
ghost use Rattle.entities.specs.Phase.Calls.{IsOpen};

use entities::{EntitiesRes, Entity, Pass, Shared};
use std::alloc::Global;

/// Two passes create once each: they are given entities of two indices, which live once the phase is closed.
pub fn two_births(alloc: Global, entities: &mut EntitiesRes) -> Option<(Entity, Entity)>
    ensures apart { IfSome result (λ t. index_of t.0 ≢ index_of t.1) }
    ensures first { IfSome result (λ t. IsAlive (population entities.new) t.0) }
    ensures second { IfSome result (λ t. IsAlive (population entities.new) t.1) }
{
    match entities.open(alloc, 2, 2) {
        Ok((shared, mut passes)) => {
            let first = shared.create(&mut passes[0]);
            let second = shared.create(&mut passes[1]);
            let _ = shared.close(passes);
            match (first, second) {
                (Ok(first), Ok(second)) => Some((first, second)),
                _ => None,
            }
        }
        Err(_) => None,
    }
}

/// What is deleted in a phase is marked once the phase is closed.
pub fn marked_at_closing(alloc: Global, entities: &mut EntitiesRes, entity: Entity) -> bool
    ensures { result ≡ true → (population entities.new).marked (index_of entity) ≡ true }
{
    match entities.open(alloc, 0, 1) {
        Ok((shared, mut passes)) => {
            let deleted = shared.delete(&mut passes[0], entity);
            let _ = shared.close(passes);
            deleted.is_ok()
        }
        Err(_) => false,
    }
}

/// A pass sees alive what it was given.
pub fn sees_its_own(shared: &Shared<'_>, pass: &mut Pass) -> bool
    requires opened { IsOpen (entities_of shared.now) (board_of shared.now) }
    requires pass { IsPassOf (board_of shared.now) pass.old }
    ensures { result ≡ true }
{
    match shared.create(pass) {
        Ok(entity) => shared.is_alive(pass, entity),
        Err(_) => true,
    }
}

/// Whom a pass saw alive it sees alive again.
pub fn sees_alive_again(shared: &Shared<'_>, pass: &mut Pass, entity: Entity) -> bool
    requires opened { IsOpen (entities_of shared.now) (board_of shared.now) }
    requires pass { IsPassOf (board_of shared.now) pass.old }
    ensures { result ≡ true }
{
    if shared.is_alive(pass, entity) {
        shared.is_alive(pass, entity)
    } else {
        true
    }
}

/// Whom a pass deleted it sees as one that dies, whatever it did in between.
pub fn sees_its_own_mark(shared: &Shared<'_>, pass: &mut Pass, entity: Entity) -> bool
    requires opened { IsOpen (entities_of shared.now) (board_of shared.now) }
    requires pass { IsPassOf (board_of shared.now) pass.old }
    ensures { result ≡ true }
{
    match shared.delete(pass, entity) {
        Ok(()) => shared.pending(pass, entity),
        Err(_) => true,
    }
}
