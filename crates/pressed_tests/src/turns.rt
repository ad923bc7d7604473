//! What passes do.
use entities::{Entity, Pass, Shared};
use phase_threads::Turn;

/// A pass that creates once.
#[derive(Drop)]
pub struct Spawn;

impl Turn for Spawn {
    type Answer = Option<Entity>;

    fn turn(&self, shared: &Shared<'_>, pass: &mut Pass) -> Option<Entity> {
        shared.create(pass).ok()
    }
}

/// A pass that creates twice. It answers whether it was refused at each time.
#[derive(Drop)]
pub struct SpawnTwice;

impl Turn for SpawnTwice {
    type Answer = (bool, bool);

    fn turn(&self, shared: &Shared<'_>, pass: &mut Pass) -> (bool, bool) {
        let first = shared.create(pass).is_err();
        (first, shared.create(pass).is_err())
    }
}

/// A pass that creates once, and deletes what it was given if that has an even index.
#[derive(Drop)]
pub struct DeleteEven;

impl Turn for DeleteEven {
    type Answer = Option<Entity>;

    fn turn(&self, shared: &Shared<'_>, pass: &mut Pass) -> Option<Entity> {
        match shared.create(pass) {
            Ok(e) => {
                if e.id() % 2 == 0 {
                    let _ = shared.delete(pass, e);
                }
                Some(e)
            }
            Err(_) => None,
        }
    }
}

/// A pass that deletes an entity. It answers whether it could.
#[derive(Drop)]
pub struct Delete {
    pub entity: Entity,
}

impl Turn for Delete {
    type Answer = bool;

    fn turn(&self, shared: &Shared<'_>, pass: &mut Pass) -> bool {
        shared.delete(pass, self.entity).is_ok()
    }
}
