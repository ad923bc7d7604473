//! The indices that have no component.
ghost use Rattle.std.specs.Prelude.{◌≡◌, ℕ};
ghost use Rattle.std.specs.FinMap as map;
ghost use Rattle.std.specs.FinSet as set;

use crate::read_storage::ReadStorage;
use crate::unprotected::Component;
use crate::write_storage::WriteStorage;
use hibits::BitSet;
use std::ops::Not;

/// The indices that are not in a storage's mask, as a part of a join: `!` on a reference to a view gives it. Ports
/// `specs::storage::AntiStorage`.
#[derive(Clone, Copy)]
pub struct AntiStorage<'a>(
    /// The indices that have a component.
    pub &'a BitSet,
);

impl<'a, 'b, T: Component> Not for &'b ReadStorage<'a, T> {
    ghost use Rattle.storages.specs.ReadView.{slot};

    type Output = AntiStorage<'b>;

    ghost not_gives = { λ s r. (q : ℕ) → set.contains r.0.now.members q ≡ map.contains_key (slot s.now).map q };

    fn not(self) -> AntiStorage<'b> {
        AntiStorage(self.mask())
    }
}

impl<'a, 'b, T: Component> Not for &'b WriteStorage<'a, T> {
    ghost use Rattle.storages.specs.WriteView.{slot};

    type Output = AntiStorage<'b>;

    ghost not_gives = { λ s r. (q : ℕ) → set.contains r.0.now.members q ≡ map.contains_key (slot s.now).map q };

    fn not(self) -> AntiStorage<'b> {
        AntiStorage(self.mask())
    }
}
