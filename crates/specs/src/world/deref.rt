//! A world as its core.
ghost use Rattle.std.specs.Prelude.{◌≡◌};
ghost use Rattle.std.specs.Borrow.{sem};

use crate::slots::Held;
use crate::world::{Core, World};
use std::ops::{Deref, DerefMut};

/// The calls of a core are a world's: `world.write_storage::<T, _>()`, `world.create_entity()`.
impl<S: Held, J> Deref for World<S, J> {
    type Target = Core<S>;

    ghost deref_gives = { λ w c. c ≡ w.parts.core };

    fn deref(&self) -> &Core<S> {
        &self.parts.core
    }
}

/// What is done to the core is done to the world's. A caller whose own contract says what a view or a builder of the world did makes it in a
/// function of `&mut Core<S>`, and passes `&mut **world`.
impl<S: Held, J> DerefMut for World<S, J> {
    ghost use Rattle.specs.specs.World.Lending.{LendsCore};

    ghost deref_mut_gives = { λ w c. c ≡ w.parts.core };

    fn deref_mut(&mut self) -> &mut Core<S>
        ensures* writes_back { sem 𝓛 (LendsCore S.row J.row S.Slot.row S.Value.row self.entry result) }
        ensures value { result.now ≡ self.old.parts.core }
    {
        let parts = &mut self.parts;
        &mut parts.core
    }
}
