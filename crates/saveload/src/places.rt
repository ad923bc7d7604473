//! Saving the components of one entity, place by place.
ghost use Rattle.std.specs.Prelude.{◌≡◌, ◌++◌, ℕ, List, Option, Some, None, Ok, Err, IfOk, IfErr, OnOk, OnErr};
ghost use Rattle.entities.specs.declared.entity.Entity.{Entity as Being};
ghost use Rattle.saveload.specs.Conversion.{Conversion, IsFaithful, Answers, AllNamed, SavesBy, RefusesBy, RefusesFor, NoCause};
ghost use Rattle.saveload.specs.Places.{place, both};
ghost use Rattle.saveload.specs.Unsaved.{UnsavedOne, UnsavedPair, ComesInTurn};

use crate::convert::ConvertSaveload;
use crate::error::SaveError;
use crate::marker::Marker;
use entities::Entity;
use std::alloc::{AllocError, Global};
use storages::GenericReadStorage;

/// A tuple of one to six storages to read, whose components are saved.
///
/// Ports `specs::saveload::SerializeComponents`; its calls for whole worlds are `serialize` and `serialize_recursive`.
pub trait SerializeComponents<M: Marker> {
    // A place for each storage.
    type Row;

    type Data: Drop;

    ghost conversion: { Conversion M Self.Row Self.Data };

    ghost values: { Self → Being → Self.Row };

    // By the names that a function gives, the causes for which a row is refused: each reference of the place that has the cause, and of those before it, is named.
    ghost Unsaved: { (Being → Option M) → Self.Row → List ℕ → Type 0 };

    /// The entities that the components of an entity refer to, place by place.
    fn references(&self, alloc: Global, entity: Entity) -> Result<Vec<Entity>, AllocError>
        ensures { IfOk result (λ v. v.items ≡ conversion.references (values self.now entity)) };

    /// The data of an entity's components, by the markers that `ids` gives. The first reference of a place for which it gives none is
    /// refused as `Unmarked`, before that place is converted, and before a later place is looked at.
    ///
    /// Ports `SerializeComponents::serialize_entity`.
    fn serialize_entity<F: Fn(Entity) -> Option<M>>(
        &self,
        alloc: Global,
        entity: Entity,
        ids: F,
    ) -> Result<Self::Data, SaveError>
        requires { F.IsAlwaysCallable ids }
        ensures saved { IfOk result (SavesBy conversion (F.post ids) (values self.now entity)) }
        ensures refused { IfErr result (RefusesBy conversion (F.post ids) (values self.now entity)) }
        ensures turn { IfErr result (ComesInTurn Unsaved conversion (F.post ids) (values self.now entity)) };

    // The laws of conversions.
    ghost faithful: { IsFaithful conversion };
}

// The entities that a place refers to.
pub(crate) fn place_references<M: Marker, S: GenericReadStorage>(
    alloc: Global,
    storage: &S,
    entity: Entity,
) -> Result<Vec<Entity>, AllocError>
where
    S::Component: ConvertSaveload<M>,
    ensures { IfOk result (λ v. v.items ≡ (place S.Component.conversion).references (S.found storage.now entity)) }
{
    match storage.get(entity) {
        Some(value) => value.references(alloc),
        None => Ok(Vec::new(alloc)),
    }
}

// The data of a place.
pub(crate) fn serialize_place<M: Marker, S: GenericReadStorage, F: Fn(Entity) -> Option<M>>(
    alloc: Global,
    storage: &S,
    entity: Entity,
    ids: &F,
) -> Result<Option<<S::Component as ConvertSaveload<M>>::Data>, SaveError>
where
    S::Component: ConvertSaveload<M>,
    requires { F.IsAlwaysCallable ids.now }
    ensures saved { IfOk result (SavesBy (place S.Component.conversion) (F.post ids.now) (S.found storage.now entity)) }
    ensures refused { IfErr result (RefusesBy (place S.Component.conversion) (F.post ids.now) (S.found storage.now entity)) }
    ensures turn { IfErr result (ComesInTurn (UnsavedOne (place S.Component.conversion)) (place S.Component.conversion) (F.post ids.now) (S.found storage.now entity)) }
{
    match storage.get(entity) {
        Some(value) => {
            let references = value.references(alloc)?;
            all_named(&references, ids)?;
            Ok(Some(value.convert_into(alloc, ids)?))
        }
        None => Ok(None),
    }
}

// Refuses the first that has no marker.
fn all_named<M: Marker, F: Fn(Entity) -> Option<M>>(
    references: &[Entity],
    ids: &F,
) -> Result<(), SaveError>
    requires { F.IsAlwaysCallable ids.now }
    ensures named { (g : Being → Option M) → Answers (F.post ids.now) references.now g → OnOk result (AllNamed g references.now) }
    ensures refused { IfErr result (RefusesFor NoCause (F.post ids.now) references.now) }
{
    for x in references {
        if ids(*x).is_none() {
            return Err(SaveError::Unmarked(*x));
        }
    }
    Ok(())
}

// The data of a first place, and of the rest of a row.
pub(crate) fn serialize_with_rest<
    M: Marker,
    A: GenericReadStorage,
    R: SerializeComponents<M>,
    F: Fn(Entity) -> Option<M>,
>(
    alloc: Global,
    first: &A,
    rest: &R,
    entity: Entity,
    ids: F,
) -> Result<(Option<<A::Component as ConvertSaveload<M>>::Data>, R::Data), SaveError>
where
    A::Component: ConvertSaveload<M>,
    requires { F.IsAlwaysCallable ids }
    ensures saved { IfOk result (SavesBy (both (place A.Component.conversion) R.conversion) (F.post ids) (A.found first.now entity, R.values rest.now entity)) }
    ensures refused { IfErr result (RefusesBy (both (place A.Component.conversion) R.conversion) (F.post ids) (A.found first.now entity, R.values rest.now entity)) }
    ensures turn { IfErr result (ComesInTurn (UnsavedPair (place A.Component.conversion) R.Unsaved) (both (place A.Component.conversion) R.conversion) (F.post ids) (A.found first.now entity, R.values rest.now entity)) }
{
    let data = serialize_place(alloc, first, entity, &ids)?;
    let others = rest.serialize_entity(alloc, entity, &ids)?;
    Ok((data, others))
}
