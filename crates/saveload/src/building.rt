//! Markers for an entity that is being built.
ghost use Rattle.std.specs.Prelude.{◌≡◌, Some, None, Err, IfOk, IfErr, OnOk, OnErr};
ghost use Rattle.std.specs.Borrow.{sem};
ghost use Rattle.entities.specs.Lending.{lent_to_builder, entity_built, KeptRests};
ghost use Rattle.storages.specs.Slot.{IsSame};
ghost use Rattle.saveload.specs.Marking.{MarksOnce, MayHaveGiven, IsOfIds};

use crate::mark_error::MarkError;
use crate::marker::{Marker, MarkerAllocator};
use entities::EntityResBuilder;
use storages::{MaskedStorage, WriteStorage};

/// Gives the entity that a builder builds a marker.
pub trait WithMarker: Sized {
    /// The builder again, once its entity has a marker: the one that it had, or one of a new id. After a refusal the storage is as
    /// before, and the builder is dropped, which marks its entity as by `delete`.
    ///
    /// Ports `specs::world::EntityResBuilder::marked`.
    fn marked<M: Marker>(
        self,
        storage: &mut MaskedStorage<M>,
        allocator: &mut M::Allocator,
    ) -> Result<Self, MarkError>
    where
        M::Allocator: MarkerAllocator<M>;
}

impl<'a> WithMarker for EntityResBuilder<'a> {
    fn marked<M: Marker>(
        self,
        storage: &mut MaskedStorage<M>,
        allocator: &mut M::Allocator,
    ) -> Result<Self, MarkError>
    where
        M::Allocator: MarkerAllocator<M>,
        ensures* rests { sem 𝓛 (KeptRests self.entry result) }
        ensures same_reference { IfOk result (λ b. (lent_to_builder b).ghost_name ≡ (lent_to_builder self.entry).ghost_name) }
        ensures entity { IfOk result (λ b. entity_built b ≡ entity_built self.entry) }
        ensures entities { IfOk result (λ b. (lent_to_builder b).now ≡ (lent_to_builder self.entry).now) }
        ensures marks { OnOk result (MarksOnce M.id_of M.Identifier.eq M.Allocator.MayBeNew M.Allocator.mapping M.Allocator.ids
            (entity_built self.entry) allocator.old allocator.new storage.old storage.new) }
        ensures err { OnErr result (IsSame storage.old storage.new) }
        ensures err_mapped { OnErr result (MayHaveGiven M.Identifier.eq (M.Allocator.MayBeNew allocator.old) (entity_built self.entry)
            (M.Allocator.mapping allocator.old) (M.Allocator.mapping allocator.new)) }
        ensures err_ids { OnErr result (M.Allocator.ids allocator.new ≡ M.Allocator.ids allocator.old) }
        ensures refused { IfErr result IsOfIds }
        ensures used_up { result ≡ Err MarkError.IdsExhausted → M.Allocator.ids allocator.old ≡ Some 0 }
        ensures memory { result ≡ Err MarkError.OutOfMemory → M.Allocator.ids allocator.old ≡ Some 0 → ⊥ }
        ensures drawn { result ≡ Err MarkError.IdTaken → M.Allocator.ids allocator.old ≡ None }
    {
        let outcome = mark_at(&self, storage, allocator);
        self.kept_if(outcome)
    }
}

// Gives the entity that is being built a marker.
fn mark_at<M: Marker>(
    builder: &EntityResBuilder<'_>,
    storage: &mut MaskedStorage<M>,
    allocator: &mut M::Allocator,
) -> Result<(), MarkError>
where
    M::Allocator: MarkerAllocator<M>,
    ensures marks { OnOk result (MarksOnce M.id_of M.Identifier.eq M.Allocator.MayBeNew M.Allocator.mapping M.Allocator.ids
        (entity_built builder.now) allocator.old allocator.new storage.old storage.new) }
    ensures err { OnErr result (IsSame storage.old storage.new) }
    ensures err_mapped { OnErr result (MayHaveGiven M.Identifier.eq (M.Allocator.MayBeNew allocator.old) (entity_built builder.now)
        (M.Allocator.mapping allocator.old) (M.Allocator.mapping allocator.new)) }
    ensures err_ids { OnErr result (M.Allocator.ids allocator.new ≡ M.Allocator.ids allocator.old) }
    ensures refused { IfErr result IsOfIds }
    ensures used_up { result ≡ Err MarkError.IdsExhausted → M.Allocator.ids allocator.old ≡ Some 0 }
    ensures memory { result ≡ Err MarkError.OutOfMemory → M.Allocator.ids allocator.old ≡ Some 0 → ⊥ }
    ensures drawn { result ≡ Err MarkError.IdTaken → M.Allocator.ids allocator.old ≡ None }
{
    let entity = builder.entity();
    let mut view = WriteStorage::new(builder.entities(), storage);
    match allocator.mark(entity, &mut view) {
        Ok(_) => Ok(()),
        Err(e) => Err(e),
    }
}
