//! Markers of a world, whatever gives their ids, and identifiers that a generator draws.
ghost use Rattle.std.specs.Prelude.{◌≡◌, Some, Err, IfOk, IsTrue, true};
ghost use Rattle.std.specs.Option.{option_map};
ghost use Rattle.entities.specs.Population.{IsAlive, index_of};
ghost use Rattle.entities.specs.Census.{population};
ghost use Rattle.specs.specs.Slots.Column.{Column};
ghost use Rattle.specs.specs.Typed.Field.{field_column};

use composed::{Core, Entity, MarkError, Marker, MarkerAllocator, Marking, MaybeTracked, Sole};
use rand_core::Rng;
use saveload::{UuidMarker, UuidMarkerAllocator};

/// The storage of such markers, with what draws them.
pub type Drawn<R> = Marking<UuidMarker<R>, UuidMarkerAllocator<R>>;

/// Gives an entity an identifier, if it lives and has none. That they are used up is never told, and who gets one lives.
pub fn identified<R: Rng + Drop>(
    space: &mut Core<Drawn<R>>,
    e: Entity,
) -> Result<Option<bool>, MarkError>
    ensures never_used_up { result ≡ Err MarkError.IdsExhausted → ⊥ }
    ensures alive { IfOk result (λ given. given ≡ Some true → IsAlive (population space.old.parts.entities) e) }
{
    space.mark(Sole::Sole, e)
}

/// Whether an entity gets a new marker, whatever gives the ids: one that comes next while as many are left as there were, and it is there then.
pub fn is_named_anew<M: Marker, A: MarkerAllocator<M>>(
    space: &mut Core<Marking<M, A>>,
    e: Entity,
) -> bool
where
    M::Storage: MaybeTracked<M>,
    ensures { IsTrue result → (m : M) × A.ComesNext (A.ids space.old.parts.storages.allocator) m
        × (option_map (λ (c : Column M). c.values (index_of e)) (field_column space.new.parts.storages.markers.field) ≡ Some (Some m)) }
{
    match space.mark(Sole::Sole, e) {
        Ok(Some(given)) => given,
        _ => false,
    }
}
