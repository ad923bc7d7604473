//! Code over whatever view, and over whatever join.
ghost use Rattle.std.specs.Prelude.{◌≡◌, [], true};
ghost use Rattle.hibits.specs.Left.{left};

use entities::Entity;
use joins::{Join, JoinIter};
use std::alloc::AllocError;
use storages::GenericWriteStorage;

/// Takes two components out, of one storage still.
pub fn both_taken<S: GenericWriteStorage>(
    view: &mut S,
    a: Entity,
    b: Entity,
) -> Result<(), AllocError>
where
    S::Component: Drop,
    ensures { S.SameView view.old view.new }
{
    view.remove(a)?;
    view.remove(b)
}

/// A walk of nothing, asked twice as an iterator.
pub fn ended_twice<J: Join>(join: J) -> bool
where
    J::Type: Drop,
    requires { left (J.has join) 0 ≡ [] }
    ensures { result ≡ true }
{
    let mut walk = JoinIter::new(join);
    let first = Iterator::next(&mut walk);
    let second = Iterator::next(&mut walk);
    first.is_none() && second.is_none()
}
