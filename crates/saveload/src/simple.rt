//! Markers that are numbers.
ghost use Rattle.std.specs.Prelude.{◌≡◌, ℕ, ◌+◌, ◌^◌, ◌<◌, ◌≤◌, ◌⊎◌, max, true, false, Option, Some, None, Ok, Err, IfOk, IfErr, OnOk, OnErr, is_some, ⊤, refl};
ghost use Rattle.entities.specs.Census.{population};
ghost use Rattle.storages.specs.Life.{is_alive};
ghost use Rattle.storages.specs.Slot.{IsSame};
ghost use Rattle.storages.specs.WriteView.{slot, entities_of, found, storage_name};
ghost use Rattle.saveload.specs.Naming.{put_id, once_given};
ghost use Rattle.saveload.specs.Marking.{MarksNew, MayHaveGiven, IsOfIds, TakesOne};
ghost use Rattle.saveload.specs.Remapping.{living_ids};
ghost use Rattle.saveload.specs.Numbers.{same_numbers};

use crate::mark_error::MarkError;
use crate::marker::{IdSupply, Marker, MarkerAllocator};
use crate::remapping::remapped;
use entities::{EntitiesRes, Entity};
use std::alloc::{AllocError, Global};
use std::collections::HashMap;
use std::fmt;
use std::hash::Hash;
use std::marker::PhantomData;
use storages::{Component, DenseVecStorage, MaskedStorage, WriteStorage};

/// A marker that is a number, of a kind `T`. Ports `specs::saveload::SimpleMarker`.
#[derive_where(PartialEq, Eq, Hash)]
pub struct SimpleMarker<T> {
    id: u64,
    kind: PhantomData<T>,
}

impl<T> SimpleMarker<T> {
    // The marker of a number.
    pub(crate) fn of(id: u64) -> Self
        ensures { result.id ≡ id }
    {
        SimpleMarker {
            id,
            kind: PhantomData,
        }
    }
}

impl<T> Clone for SimpleMarker<T> {
    ghost is_clone = { λ a b. a ≡ b };

    ghost is_infallible = { λ _. ⊤ };

    fn clone(&self) -> Result<Self, AllocError> {
        Ok(SimpleMarker {
            id: self.id,
            kind: PhantomData,
        })
    }
}

impl<T> Copy for SimpleMarker<T> {}

/// It is written as its number.
impl<T> fmt::Display for SimpleMarker<T> {
    ghost use Rattle.std.specs.Fmt.{decimal, styled_decimal};

    ghost output = { λ m. Some (decimal m.id) };

    ghost styled_output = { λ m s. Some (styled_decimal s m.id) };

    fn fmt<W: fmt::Write>(&self, f: &mut fmt::Formatter<W>) -> fmt::Result {
        self.id.fmt(f)
    }
}

impl<T> Component for SimpleMarker<T> {
    type Storage = DenseVecStorage<Self>;
}

impl<T> Marker for SimpleMarker<T> {
    type Identifier = u64;

    type Allocator = SimpleMarkerAllocator<T>;

    ghost id_of = { λ m. m.id };

    ghost updated = { λ old new. new };

    fn id(&self) -> u64 {
        self.id
    }

    /// The newer marker stays.
    fn update(&mut self, new: Self) {
        *self = new;
    }

    ghost same_ids = { same_numbers };
}

/// Gives the numbers from 0 on as ids, each once. Ports `specs::saveload::SimpleMarkerAllocator`.
pub struct SimpleMarkerAllocator<T> {
    next: u128,
    mapping: HashMap<u64, Entity>,
    kind: PhantomData<T>,
}

impl<T> Drop for SimpleMarkerAllocator<T> {
    fn drop(self) {
        let SimpleMarkerAllocator {
            next: _next,
            mapping: _mapping,
            kind: _kind,
        } = self;
    }
}

impl<T> SimpleMarkerAllocator<T> {
    ghost use Rattle.saveload.specs.Simple.{given};

    /// One that has given no id. It takes no memory.
    pub fn new(alloc: Global) -> Self
        ensures next { result.next ≡ 0 }
        ensures mapping { (id : ℕ) → given result id ≡ None }
    {
        SimpleMarkerAllocator {
            next: 0,
            mapping: HashMap::new(alloc),
            kind: PhantomData,
        }
    }
}

impl<T> IdSupply<SimpleMarker<T>> for SimpleMarkerAllocator<T> {
    ghost use Rattle.saveload.specs.Simple.{comes_next, numbers_from};

    ghost ids = { λ a. numbers_from a.next };

    ghost ComesNext = { λ left m. comes_next left m.id };
}

impl<T> MarkerAllocator<SimpleMarker<T>> for SimpleMarkerAllocator<T> {
    ghost use Rattle.std.proofs.Common.{ap, sym};
    ghost use Rattle.saveload.specs.Simple.{given, number_of_marker, numbers_are_counted, numbers_from, numbers_past};

    ghost mapping = { λ a. given a };

    ghost MayBeNew = { λ a id. id ≡ a.next };

    ghost ids_past = { λ a. numbers_past a.next };

    ghost ids_now = { λ a. refl };

    ghost comes = { λ a m e. ap numbers_from (sym e) };

    ghost coming = { λ a. a.next };

    ghost new_is_coming = { λ a id e. e };

    ghost unmapped = { λ a id drawn e. absurd (numbers_are_counted a.next drawn) };

    fn allocate(&mut self, entity: Entity, id: Option<u64>) -> Result<SimpleMarker<T>, MarkError>
        ensures given { (i : ℕ) → id ≡ Some i → IfOk result (λ m. m.id ≡ i) }
        ensures new { id ≡ None → IfOk result (λ m. m.id ≡ self.old.next) }
        ensures next { IfOk result (λ m. self.new.next ≡ max self.old.next (m.id + 1)) }
        ensures exhausted { result ≡ Err MarkError.IdsExhausted → (id ≡ None) × (2 ^ 64 ≤ self.old.next) }
        ensures memory { id ≡ None → result ≡ Err MarkError.OutOfMemory → self.old.next < 2 ^ 64 }
        ensures others { IfErr result (λ e. (e ≡ MarkError.IdsExhausted → ⊥) → e ≡ MarkError.OutOfMemory) }
        ensures mapped { IfOk result (λ m. given self.new ≡ put_id (⟦<u64 as PartialEq>⟧.eq) (given self.old) m.id entity) }
        ensures err { OnErr result (given self.new ≡ given self.old) }
        ensures err_next { OnErr result (self.new.next ≡ self.old.next) }
        ensures refused { IfErr result IsOfIds }
        ensures given_refused { (i : ℕ) → id ≡ Some i → IfErr result (λ e. e ≡ MarkError.OutOfMemory) }
        ensures takes { id ≡ None → OnOk result (TakesOne (numbers_from self.old.next) (numbers_from self.new.next)) }
        ensures passes { (i : ℕ) → id ≡ Some i → OnOk result (numbers_past self.new.next ≡ once_given (numbers_past self.old.next) i) }
    {
        let chosen = match id {
            Some(given) => given,
            None => {
                if self.next > u64::MAX as u128 {
                    return Err(MarkError::IdsExhausted);
                }
                self.next as u64
            }
        };
        if self.mapping.insert(chosen, entity).is_err() {
            return Err(MarkError::OutOfMemory);
        }
        if chosen as u128 >= self.next {
            self.next = chosen as u128 + 1;
        }
        Ok(SimpleMarker {
            id: chosen,
            kind: PhantomData,
        })
    }

    fn retrieve_entity_internal(&self, id: u64) -> Option<Entity> {
        self.mapping.get(&id).copied()
    }

    /// As the trait says. The next id stays.
    fn maintain(
        &mut self,
        alloc: Global,
        entities: &EntitiesRes,
        storage: &MaskedStorage<SimpleMarker<T>>,
    ) -> Result<(), AllocError>
        ensures ok { OnOk result (given self.new ≡ living_ids number_of_marker (⟦<u64 as PartialEq>⟧.eq) (population entities.now) storage.now) }
        ensures err { OnErr result (given self.new ≡ given self.old) }
        ensures next { self.new.next ≡ self.old.next }
    {
        self.mapping = remapped(alloc, entities, storage)?;
        Ok(())
    }

    /// As the trait says. Where memory is refused, no id is given.
    fn mark(
        &mut self,
        entity: Entity,
        storage: &mut WriteStorage<'_, SimpleMarker<T>>,
    ) -> Result<Option<bool>, MarkError>
        ensures same_reference { storage_name storage.new ≡ storage_name storage.old }
        ensures entities { entities_of storage.new ≡ entities_of storage.old }
        ensures dead { IfOk result (λ o. is_some o ≡ is_alive (population (entities_of storage.old)) entity) }
        ensures is_new { IfOk result (λ o. o ≡ Some true → found storage.old entity ≡ None) }
        ensures old { IfOk result (λ o. (o ≡ Some true → ⊥) → (slot storage.new ≡ slot storage.old) × (given self.new ≡ given self.old)) }
        ensures old_self { IfOk result (λ o. (o ≡ Some true → ⊥) → self.new ≡ self.old) }
        ensures was { IfOk result (λ o. o ≡ Some false → is_some (found storage.old entity) ≡ true) }
        ensures new { IfOk result (λ o. o ≡ Some true → MarksNew number_of_marker (⟦<u64 as PartialEq>⟧.eq) (λ id. id ≡ self.old.next) entity (given self.old) (given self.new) (slot storage.old) (slot storage.new)) }
        ensures next { IfOk result (λ o. o ≡ Some true → self.new.next ≡ self.old.next + 1) }
        ensures old_next { IfOk result (λ o. (o ≡ Some true → ⊥) → self.new.next ≡ self.old.next) }
        ensures alive { OnErr result (is_alive (population (entities_of storage.old)) entity ≡ true) }
        ensures unmarked { OnErr result (found storage.old entity ≡ None) }
        ensures err { OnErr result (IsSame (slot storage.old) (slot storage.new)) }
        ensures err_given { OnErr result (given self.new ≡ given self.old) }
        ensures err_next { OnErr result (self.new.next ≡ self.old.next) }
        ensures err_mapped { OnErr result (MayHaveGiven (⟦<u64 as PartialEq>⟧.eq) (λ id. id ≡ self.old.next) entity (given self.old) (given self.new)) }
        ensures exhausted { result ≡ Err MarkError.IdsExhausted → 2 ^ 64 ≤ self.old.next }
        ensures memory { result ≡ Err MarkError.OutOfMemory → self.old.next < 2 ^ 64 }
        ensures others { IfErr result (λ e. (e ≡ MarkError.IdsExhausted → ⊥) → e ≡ MarkError.OutOfMemory) }
        ensures refused { IfErr result IsOfIds }
        ensures takes { IfOk result (λ o. o ≡ Some true → TakesOne (numbers_from self.old.next) (numbers_from self.new.next)) }
    {
        if !storage.fetched_entities().is_alive(entity) {
            return Ok(None);
        }
        if storage.contains(entity) {
            return Ok(Some(false));
        }
        if self.next > u64::MAX as u128 {
            return Err(MarkError::IdsExhausted);
        }
        let id = self.next as u64;
        if self.mapping.reserve(1).is_err() {
            return Err(MarkError::OutOfMemory);
        }
        let marker = SimpleMarker {
            id,
            kind: PhantomData,
        };
        if storage.insert(entity, marker).is_err() {
            return Err(MarkError::OutOfMemory);
        }
        match self.mapping.insert(id, entity) {
            Ok(_) => {}
            Err(_) => unreachable!(),
        }
        self.next += 1;
        Ok(Some(true))
    }
}
