//! Storages without any component type registered.
ghost use Rattle.std.specs.Prelude.{◌≡◌, None};
ghost use Rattle.specs.specs.Slots.Ids.{AllLeft};
ghost use Rattle.specs.specs.Laws.Reached.{HasNoValue};

use crate::both::Both;
use crate::marking::Marking;
use crate::only::Only;
use crate::pair::Pair;
use saveload::{SimpleMarker, SimpleMarkerAllocator};
use specs::Held;
use std::alloc::Global;
use storages::Component;

/// A struct of storages that can be made empty.
pub trait Empty: Held + Sized {
    // What else holds of an empty one: of markers, that no id is mapped to an entity.
    ghost IsBlank: { Self → Type 0 };

    /// No component type is registered, no marker has been given an id, and no id leads to an entity. It takes no memory.
    fn empty(alloc: Global) -> Self
        ensures none { (slot : Self.Slot) → Self.table result slot ≡ None }
        ensures empty { HasNoValue (Self.table result) }
        ensures ids { AllLeft Self.marks.holds (Self.ids result) }
        ensures blank { IsBlank result };
}

impl<T: Component> Empty for Only<T> {
    ghost use Rattle.std.specs.Prelude.{⊤};

    ghost IsBlank = { λ s. ⊤ };

    #[tactic(auto, using(crate::proofs::Sides::has_no_value))]
    fn empty(_alloc: Global) -> Self {
        Only::new()
    }
}

impl<T> Empty for Marking<SimpleMarker<T>, SimpleMarkerAllocator<T>> {
    ghost use Rattle.std.specs.Prelude.{◌≡◌, ℕ, None};
    ghost use Rattle.saveload.specs.Simple.{given};

    ghost IsBlank = { λ m. (id : ℕ) → given m.allocator id ≡ None };

    #[tactic(auto, using(crate::proofs::Sides::has_no_value))]
    fn empty(alloc: Global) -> Self {
        Marking::new(alloc)
    }
}

impl<A: Empty, B: Empty> Empty for Both<A, B> {
    ghost IsBlank = { λ s. A.IsBlank s.first × B.IsBlank s.rest };

    #[tactic(auto, using(crate::proofs::Sides::has_no_value, crate::proofs::Sides::all_left))]
    fn empty(alloc: Global) -> Self {
        Both {
            first: A::empty(alloc),
            rest: B::empty(alloc),
        }
    }
}

/// Storages of two component types.
pub type Of2<A, B> = Pair<A, B>;
/// Storages of three component types.
pub type Of3<A, B, C> = Both<Only<A>, Of2<B, C>>;
/// Storages of four component types.
pub type Of4<A, B, C, D> = Both<Of2<A, B>, Of2<C, D>>;
/// Storages of five component types.
pub type Of5<A, B, C, D, E> = Both<Of2<A, B>, Of3<C, D, E>>;
/// Storages of six component types.
pub type Of6<A, B, C, D, E, F> = Both<Of2<A, B>, Of4<C, D, E, F>>;
/// Storages of seven component types.
pub type Of7<A, B, C, D, E, F, G> = Both<Of3<A, B, C>, Of4<D, E, F, G>>;
/// Storages of eight component types. For more, `Both` takes any two of these.
pub type Of8<A, B, C, D, E, F, G, H> = Both<Of4<A, B, C, D>, Of4<E, F, G, H>>;
