//! Markers in a storage of one component type.
ghost use Rattle.std.specs.Prelude.{◌≡◌, None, Some, Err, true, false, is_some, IfOk, OnErr, IfErr};
ghost use Rattle.entities.specs.Census.{population};
ghost use Rattle.saveload.specs.Marking.{MarksNew, MayHaveGiven, IsOfIds, TakesOne};
ghost use Rattle.storages.specs.Found.{found_in};
ghost use Rattle.storages.specs.Life.{is_alive};
ghost use Rattle.specs.specs.Typed.Field.{column_of, field_column};
ghost use Rattle.specs.specs.Slots.Ids.{LeftAfter};
ghost use Rattle.specs.specs.Slots.Marks.{FieldGivesId, FieldMarkerIsRefused};

use crate::typed::field::MaybeStorage;
use entities::{EntitiesRes, Entity};
use saveload::{MarkError, Marker, MarkerAllocator};
use storages::{MaskedStorage, WriteStorage};

/// Gives an entity a marker of a new id, if it is alive and has none. The answer is whether the marker is new, and none for an entity that is not
/// alive. Where memory for the marker was refused, an id may stay mapped.
pub fn mark<M: Marker, A: MarkerAllocator<M>>(
    field: &mut MaybeStorage<M>,
    allocator: &mut A,
    entities: &EntitiesRes,
    e: Entity,
) -> Result<Option<bool>, MarkError>
    ensures ok { IfOk result (λ given. FieldGivesId M.id_of M.Identifier.eq (A.MayBeNew allocator.old) (A.mapping allocator.old) (A.mapping allocator.new)
        (population entities.now) (field_column field.old) e given (field_column field.new)) }
    ensures refused { IfErr result (FieldMarkerIsRefused (A.ids allocator.old) (population entities.now) (field_column field.old) e) }
    ensures err { OnErr result (field_column field.new ≡ field_column field.old) }
    ensures ids { IfOk result (λ given. LeftAfter given (A.ids allocator.old) (A.ids allocator.new)) }
    ensures err_ids { OnErr result (A.ids allocator.new ≡ A.ids allocator.old) }
    ensures old_self { IfOk result (λ given. (given ≡ Some true → ⊥) → allocator.new ≡ allocator.old) }
    ensures old_map { IfOk result (λ given. (given ≡ Some true → ⊥) → A.mapping allocator.new ≡ A.mapping allocator.old) }
    ensures err_mapped { OnErr result (MayHaveGiven M.Identifier.eq (A.MayBeNew allocator.old) e (A.mapping allocator.old) (A.mapping allocator.new)) }
{
    match field {
        Some(storage) => mark_in(storage, allocator, entities, e),
        None => Err(MarkError::Unregistered),
    }
}

// The same in its storage.
fn mark_in<M: Marker, A: MarkerAllocator<M>>(
    storage: &mut MaskedStorage<M>,
    allocator: &mut A,
    entities: &EntitiesRes,
    e: Entity,
) -> Result<Option<bool>, MarkError>
    ensures ok { IfOk result (λ given. FieldGivesId M.id_of M.Identifier.eq (A.MayBeNew allocator.old) (A.mapping allocator.old) (A.mapping allocator.new)
        (population entities.now) (Some (column_of storage.old)) e given (Some (column_of storage.new))) }
    ensures refused { IfErr result (FieldMarkerIsRefused (A.ids allocator.old) (population entities.now) (Some (column_of storage.old)) e) }
    ensures err { OnErr result (column_of storage.new ≡ column_of storage.old) }
    ensures ids { IfOk result (λ given. LeftAfter given (A.ids allocator.old) (A.ids allocator.new)) }
    ensures err_ids { OnErr result (A.ids allocator.new ≡ A.ids allocator.old) }
    ensures old_self { IfOk result (λ given. (given ≡ Some true → ⊥) → allocator.new ≡ allocator.old) }
    ensures old_map { IfOk result (λ given. (given ≡ Some true → ⊥) → A.mapping allocator.new ≡ A.mapping allocator.old) }
    ensures err_mapped { OnErr result (MayHaveGiven M.Identifier.eq (A.MayBeNew allocator.old) e (A.mapping allocator.old) (A.mapping allocator.new)) }
{
    if !entities.is_alive(e) {
        return Ok(None);
    }
    if storage.contains(e.id()) {
        return Ok(Some(false));
    }
    give(storage, allocator, entities, e)
}

// `MarkerAllocator::mark`, on the storage.
#[tactic(auto, using(crate::proofs::Values::same))]
fn give<M: Marker, A: MarkerAllocator<M>>(
    storage: &mut MaskedStorage<M>,
    allocator: &mut A,
    entities: &EntitiesRes,
    e: Entity,
) -> Result<Option<bool>, MarkError>
    ensures alive { IfOk result (λ given. is_some given ≡ is_alive (population entities.now) e) }
    ensures was { IfOk result (λ given. given ≡ Some false → is_some (found_in entities.now storage.old e) ≡ true) }
    ensures new { IfOk result (λ given. given ≡ Some true → MarksNew M.id_of M.Identifier.eq (A.MayBeNew allocator.old) e (A.mapping allocator.old) (A.mapping allocator.new) storage.old storage.new) }
    ensures err { OnErr result (column_of storage.new ≡ column_of storage.old) }
    ensures refused { IfErr result IsOfIds }
    ensures takes { IfOk result (λ given. given ≡ Some true → TakesOne (A.ids allocator.old) (A.ids allocator.new)) }
    ensures old_ids { IfOk result (λ given. (given ≡ Some true → ⊥) → A.ids allocator.new ≡ A.ids allocator.old) }
    ensures err_ids { OnErr result (A.ids allocator.new ≡ A.ids allocator.old) }
    ensures old_self { IfOk result (λ given. (given ≡ Some true → ⊥) → allocator.new ≡ allocator.old) }
    ensures old_map { IfOk result (λ given. (given ≡ Some true → ⊥) → A.mapping allocator.new ≡ A.mapping allocator.old) }
    ensures err_mapped { OnErr result (MayHaveGiven M.Identifier.eq (A.MayBeNew allocator.old) e (A.mapping allocator.old) (A.mapping allocator.new)) }
    ensures used_up { result ≡ Err MarkError.IdsExhausted → A.ids allocator.old ≡ Some 0 }
    ensures drawn { result ≡ Err MarkError.IdTaken → A.ids allocator.old ≡ None }
    ensures memory { result ≡ Err MarkError.OutOfMemory → A.ids allocator.old ≡ Some 0 → ⊥ }
{
    allocator.mark(e, &mut WriteStorage::new(entities, storage))
}
