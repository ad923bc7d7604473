//! Marking what saved entities refer to.
ghost use Rattle.std.specs.Prelude.{◌≡◌, ℕ, ◌++◌, Option, Some, None, Ok, Err, IfOk, IfErr, OnOk, OnErr, IsSome, List, [], ◌∷◌};
ghost use Rattle.std.specs.FinMap as map;
ghost use Rattle.entities.specs.declared.entity.Entity.{Entity as Being};
ghost use Rattle.entities.specs.Census.{population};
ghost use Rattle.entities.specs.Population.{index_of, IsAlive};
ghost use Rattle.storages.specs.WriteView.{slot, entities_of, storage_name, found};
ghost use Rattle.saveload.specs.Conversion.{Has, AllNamed};
ghost use Rattle.saveload.specs.Saved.{IsRecord, IsSavedList};
ghost use Rattle.saveload.specs.Marking.{AddsInTurn, MarksUntil};
ghost use Rattle.saveload.specs.Closing.{new_in, marked_in, IsClosed, HasMarked, IsMentioned, MarksSome, MarksBefore, MarksUpTo, RefusesMarking};

use crate::error::SaveError;
use crate::mark_error::MarkError;
use crate::marker::{Marker, MarkerAllocator};
use crate::places::SerializeComponents;
use entities::Entity;
use std::alloc::Global;
use storages::WriteStorage;

// Marks whatever the entities of a list refer to, and what those refer to, and puts them at the end of the list.
pub(crate) fn mark_all<M: Marker, A: MarkerAllocator<M>, P: SerializeComponents<M>>(
    alloc: Global,
    places: &P,
    allocator: &mut A,
    markers: &mut WriteStorage<'_, M>,
    list: &mut Vec<Entity>,
) -> Result<(), SaveError>
    ensures same_reference { storage_name markers.new ≡ storage_name markers.old }
    ensures entities { entities_of markers.new ≡ entities_of markers.old }
    ensures closed { OnOk result (IsClosed (marked_in (slot markers.old)) (λ e. P.conversion.references (P.values places.now e)) list.old.items list.new.items) }
    ensures marked { OnOk result ((added : List Being) × (list.new.items ≡ list.old.items ++ added) × HasMarked (slot markers.old) (slot markers.new) added) }
    ensures named { OnOk result ((e : Being) → Has list.new.items e → AllNamed (λ x. found markers.new x) (P.conversion.references (P.values places.now e))) }
    ensures marks { MarksSome (population (entities_of markers.old)) (IsMentioned (λ e. P.conversion.references (P.values places.now e)) list.old.items) (slot markers.old) (slot markers.new) }
    ensures refused { IfErr result (RefusesMarking (population (entities_of markers.old))
        (MarksUpTo (population (entities_of markers.old)) (λ e. P.conversion.references (P.values places.now e)) list.old.items (slot markers.old) (slot markers.new))) }
    ensures gives { OnOk result (AddsInTurn M.id_of M.Identifier.eq A.MayBeNew A.mapping A.ids
        allocator.old (slot markers.old) list.old.items allocator.new (slot markers.new) list.new.items) }
    ensures stops { OnErr result (MarksUntil M.id_of M.Identifier.eq A.MayBeNew A.mapping A.ids allocator.old (slot markers.old) allocator.new (slot markers.new)) }
    ensures used_up { result ≡ Err SaveError.IdsExhausted → A.ids allocator.new ≡ Some 0 }
    ensures drawn { result ≡ Err SaveError.IdTaken → A.ids allocator.new ≡ None }
{
    let mut i = 0;
    while i < list.len() {
        let references = places.references(alloc, list[i])?;
        mark_references(&references, allocator, markers, list)?;
        i += 1;
    }
    Ok(())
}

// Marks those of a list that have no marker, and puts them at the end of another list.
fn mark_references<M: Marker, A: MarkerAllocator<M>>(
    references: &[Entity],
    allocator: &mut A,
    markers: &mut WriteStorage<'_, M>,
    list: &mut Vec<Entity>,
) -> Result<(), SaveError>
    ensures same_reference { storage_name markers.new ≡ storage_name markers.old }
    ensures entities { entities_of markers.new ≡ entities_of markers.old }
    ensures list { OnOk result (list.new.items ≡ list.old.items ++ new_in (marked_in (slot markers.old)) references.now) }
    ensures marked { OnOk result (HasMarked (slot markers.old) (slot markers.new) (new_in (marked_in (slot markers.old)) references.now)) }
    ensures named { OnOk result (AllNamed (λ e. found markers.new e) references.now) }
    ensures marks { MarksSome (population (entities_of markers.old)) (Has references.now) (slot markers.old) (slot markers.new) }
    ensures refused { IfErr result (RefusesMarking (population (entities_of markers.old))
        (MarksBefore (population (entities_of markers.old)) references.now (slot markers.old) (slot markers.new))) }
    ensures gives { OnOk result (AddsInTurn M.id_of M.Identifier.eq A.MayBeNew A.mapping A.ids
        allocator.old (slot markers.old) list.old.items allocator.new (slot markers.new) list.new.items) }
    ensures stops { OnErr result (MarksUntil M.id_of M.Identifier.eq A.MayBeNew A.mapping A.ids allocator.old (slot markers.old) allocator.new (slot markers.new)) }
    ensures used_up { result ≡ Err SaveError.IdsExhausted → A.ids allocator.new ≡ Some 0 }
    ensures drawn { result ≡ Err SaveError.IdTaken → A.ids allocator.new ≡ None }
{
    for x in references {
        mark_one(*x, allocator, markers, list)?;
    }
    Ok(())
}

// Marks an entity if it has no marker, and then puts it at the end of a list.
fn mark_one<M: Marker, A: MarkerAllocator<M>>(
    entity: Entity,
    allocator: &mut A,
    markers: &mut WriteStorage<'_, M>,
    list: &mut Vec<Entity>,
) -> Result<(), SaveError>
    ensures same_reference { storage_name markers.new ≡ storage_name markers.old }
    ensures entities { entities_of markers.new ≡ entities_of markers.old }
    ensures list { OnOk result (list.new.items ≡ list.old.items ++ new_in (marked_in (slot markers.old)) (entity ∷ [])) }
    ensures marked { OnOk result (HasMarked (slot markers.old) (slot markers.new) (new_in (marked_in (slot markers.old)) (entity ∷ []))) }
    ensures named { OnOk result (IsSome (found markers.new entity)) }
    ensures marks { MarksSome (population (entities_of markers.old)) (Has (entity ∷ [])) (slot markers.old) (slot markers.new) }
    ensures refused { IfErr result (RefusesMarking (population (entities_of markers.old))
        (MarksBefore (population (entities_of markers.old)) (entity ∷ []) (slot markers.old) (slot markers.new))) }
    ensures gives { OnOk result (AddsInTurn M.id_of M.Identifier.eq A.MayBeNew A.mapping A.ids
        allocator.old (slot markers.old) list.old.items allocator.new (slot markers.new) list.new.items) }
    ensures stops { OnErr result (MarksUntil M.id_of M.Identifier.eq A.MayBeNew A.mapping A.ids allocator.old (slot markers.old) allocator.new (slot markers.new)) }
    ensures used_up { result ≡ Err SaveError.IdsExhausted → A.ids allocator.new ≡ Some 0 }
    ensures drawn { result ≡ Err SaveError.IdTaken → A.ids allocator.new ≡ None }
{
    match allocator.mark(entity, markers) {
        Ok(Some(true)) => {
            if list.push(entity).is_err() {
                return Err(SaveError::OutOfMemory);
            }
            Ok(())
        }
        Ok(Some(false)) => Ok(()),
        Ok(None) => Err(SaveError::Unmarked(entity)),
        Err(MarkError::IdsExhausted) => Err(SaveError::IdsExhausted),
        Err(MarkError::IdTaken) => Err(SaveError::IdTaken),
        Err(_) => Err(SaveError::OutOfMemory),
    }
}
