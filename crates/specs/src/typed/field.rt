//! A storage of one component type, or none where the component is not registered.
ghost use Rattle.std.specs.Prelude.{◌≡◌, ◌||◌, ℕ, None, Some, true, cond, is_some, length, option_copied, IfOk, IsOk, OnOk, OnErr, IfErr, MatchOption, IsSome};
ghost use Rattle.std.specs.FinMap as map;
ghost use Rattle.std.specs.Option.{option_map};
ghost use Rattle.entities.specs.Census.{population};
ghost use Rattle.entities.specs.Population.{index_of};
ghost use Rattle.storages.specs.Channel.{emitted};
ghost use Rattle.storages.specs.Found.{found_in};
ghost use Rattle.storages.specs.Life.{is_alive};
ghost use Rattle.storages.specs.Meaning.{HasRoom};
ghost use Rattle.storages.specs.Slot.{indices_of};
ghost use Rattle.storages.specs.declared.event.ComponentEvent.TheVariants.{Inserted, Modified, Removed};
ghost use Rattle.specs.specs.Slots.Column.{IsFresh, WantsNone, without_values};
ghost use Rattle.specs.specs.Slots.Table.{IsMask};
ghost use Rattle.storages.specs.Tracking.{with_reader, after_read, without_reader, switched};
ghost use Rattle.storages.specs.Unread.{unread_of};
ghost use Rattle.specs.specs.Slots.Readers.{RegisterReaderIsRefused, ReaderIsRefused, SwitchIsRefused};
ghost use Rattle.specs.specs.Typed.Field.{FieldRechannels, FieldInserts, FieldGets, FieldGetsClone, FieldRemoves, FieldClears, Holds, FieldInsertIsRefused, FieldGetIsRefused, FieldRemoveIsRefused, FieldClearIsRefused, PutIsRefused, column_of, field_column, field_room};

use crate::command::Refusal;
use entities::{EntitiesRes, Entity};
use hibits::BitSet;
use std::alloc::{AllocError, Global};
use storages::{
    Component, ComponentEvent, InsertError, MaskedStorage, MaybeTracked, ReadStorage, ReaderId,
    TryDefault, UnprotectedStorage, WriteStorage,
};

/// The storage of a component type, or none where the type is not registered.
pub type MaybeStorage<T> = Option<MaskedStorage<T>>;

/// An empty storage. Where the first value of its kind takes no memory, as of each kind of `storages`, it takes none.
pub fn empty<T: Component>(alloc: Global) -> Result<MaskedStorage<T>, AllocError>
where
    T::Storage: UnprotectedStorage<T>,
    ensures fresh { IfOk result (λ s. IsFresh (column_of s)) }
    ensures succeeds { T.Storage.TakesNone → IsOk result }
{
    match T::Storage::try_default(alloc) {
        Ok(storage) => Ok(MaskedStorage::new(alloc, storage)),
        Err(_) => Err(AllocError),
    }
}

/// The indices that have a component.
pub fn mask<T: Component>(field: &MaybeStorage<T>) -> Option<&BitSet>
    ensures { MatchOption result (field_column field.now ≡ None) (λ m. IsMask (field_column field.now) m.now) }
{
    match field {
        Some(storage) => Some(storage.mask()),
        None => None,
    }
}

/// Puts a component at an entity that is alive, and answers the one before.
pub fn insert<T: Component>(
    field: &mut MaybeStorage<T>,
    entities: &EntitiesRes,
    e: Entity,
    value: T,
) -> Result<Option<T>, (Refusal, T)>
where
    T::Storage: UnprotectedStorage<T>,
    ensures ok { IfOk result (λ before. FieldInserts (population entities.now) (field_column field.old) e value before (field_column field.new)) }
    ensures refused { IfErr result (λ r. FieldInsertIsRefused (population entities.now) (field_column field.old) e r.0) }
    ensures back { IfErr result (λ r. r.1 ≡ value) }
    ensures err { OnErr result (field_column field.new ≡ field_column field.old) }
{
    match field {
        Some(storage) => insert_in(storage, entities, e, value),
        None => Err((Refusal::Unregistered, value)),
    }
}

/// Puts a component at an entity that is alive, in its storage, and answers the one before.
#[inline(always)]
#[tactic(auto, using(crate::proofs::Values::held))]
pub fn insert_in<T: Component>(
    storage: &mut MaskedStorage<T>,
    entities: &EntitiesRes,
    e: Entity,
    value: T,
) -> Result<Option<T>, (Refusal, T)>
where
    T::Storage: UnprotectedStorage<T>,
    ensures ok { IfOk result (λ before. FieldInserts (population entities.now) (Some (column_of storage.old)) e value before (Some (column_of storage.new))) }
    ensures refused { IfErr result (λ r. FieldInsertIsRefused (population entities.now) (Some (column_of storage.old)) e r.0) }
    ensures back { IfErr result (λ r. r.1 ≡ value) }
    ensures err { OnErr result (column_of storage.new ≡ column_of storage.old) }
    ensures succeeds { Holds (population entities.now) (Some (column_of storage.old)) e → HasRoom storage.old.room 1 → IsOk result }
{
    // For its clauses alone, which say when the storage may want memory.
    let _heard = storage.needs_room();
    match put(storage, entities, e, value) {
        Ok(before) => Ok(before),
        Err(InsertError::WrongGeneration(wrong, value)) => {
            Err((Refusal::WrongGeneration(wrong), value))
        }
        Err(InsertError::OutOfMemory(value)) => Err((Refusal::OutOfMemory, value)),
    }
}

// `WriteStorage::insert`, on the storage.
#[inline(always)]
#[tactic(auto, using(crate::proofs::Values::same))]
fn put<T: Component>(
    storage: &mut MaskedStorage<T>,
    entities: &EntitiesRes,
    e: Entity,
    value: T,
) -> Result<Option<T>, InsertError<T>>
where
    T::Storage: UnprotectedStorage<T>,
    ensures before { IfOk result (λ before. before ≡ found_in entities.now storage.old e) }
    ensures alive { OnOk result (is_alive (population entities.now) e ≡ true) }
    ensures map { OnOk result (storage.new.map ≡ map.insert storage.old.map (index_of e) value) }
    ensures channel { OnOk result (storage.new.channel ≡ emitted (cond (is_some (found_in entities.now storage.old e)) (Modified (index_of e)) (Inserted (index_of e))) storage.old.channel) }
    ensures inner { OnOk result (is_some storage.new.inner_room ≡ is_some storage.old.inner_room) }
    ensures err { OnErr result (column_of storage.new ≡ column_of storage.old) }
    ensures succeeds { IsSome (found_in entities.now storage.old e) → HasRoom storage.old.room 1 → IsOk result }
    ensures refused { IfErr result (λ r. PutIsRefused (population entities.now) e value r) }
{
    WriteStorage::new(entities, storage).insert(e, value)
}

/// The component of an entity in its storage, or none where it is not alive.
pub fn find<'a, T: Component>(
    storage: &'a MaskedStorage<T>,
    entities: &EntitiesRes,
    e: Entity,
) -> Option<&'a T>
where
    T::Storage: UnprotectedStorage<T>,
    ensures { FieldGets (population entities.now) (Some (column_of storage.now)) e (option_copied result) }
{
    if entities.is_alive(e) {
        storage.get(e.id())
    } else {
        None
    }
}

/// A clone of the component of an entity, or none where it is not alive.
pub fn get_clone<T: Component + Clone>(
    field: &MaybeStorage<T>,
    entities: &EntitiesRes,
    e: Entity,
) -> Result<Option<T>, Refusal>
where
    T::Storage: UnprotectedStorage<T>,
    ensures ok { IfOk result (λ found. FieldGetsClone T.is_clone (population entities.now) (field_column field.now) e found) }
    ensures refused { IfErr result (FieldGetIsRefused ((t : T) → T.is_infallible t) (population entities.now) (field_column field.now) e) }
{
    match field {
        Some(storage) => get_clone_in(storage, entities, e),
        None => Err(Refusal::Unregistered),
    }
}

/// A clone of the component of an entity in its storage, or none where it is not alive.
pub fn get_clone_in<T: Component + Clone>(
    storage: &MaskedStorage<T>,
    entities: &EntitiesRes,
    e: Entity,
) -> Result<Option<T>, Refusal>
where
    T::Storage: UnprotectedStorage<T>,
    ensures ok { IfOk result (λ found. FieldGetsClone T.is_clone (population entities.now) (Some (column_of storage.now)) e found) }
    ensures refused { IfErr result (FieldGetIsRefused ((t : T) → T.is_infallible t) (population entities.now) (Some (column_of storage.now)) e) }
{
    match find(storage, entities, e) {
        None => Ok(None),
        Some(value) => match value.clone() {
            Ok(copy) => Ok(Some(copy)),
            Err(_) => Err(Refusal::OutOfMemory),
        },
    }
}

/// Removes the component of an entity and answers it, or none where the entity is not alive.
pub fn remove<T: Component>(
    field: &mut MaybeStorage<T>,
    entities: &EntitiesRes,
    e: Entity,
) -> Result<Option<T>, Refusal>
where
    T::Storage: UnprotectedStorage<T>,
    ensures ok { IfOk result (λ found. FieldRemoves (population entities.now) (field_column field.old) e found (field_column field.new)) }
    ensures refused { IfErr result (FieldRemoveIsRefused (population entities.now) (field_column field.old) e) }
    ensures err { OnErr result (field_column field.new ≡ field_column field.old) }
{
    match field {
        Some(storage) => remove_in(storage, entities, e),
        None => Err(Refusal::Unregistered),
    }
}

/// Removes the component of an entity from its storage and answers it, or none where the entity is not alive.
pub fn remove_in<T: Component>(
    storage: &mut MaskedStorage<T>,
    entities: &EntitiesRes,
    e: Entity,
) -> Result<Option<T>, Refusal>
where
    T::Storage: UnprotectedStorage<T>,
    ensures ok { IfOk result (λ found. FieldRemoves (population entities.now) (Some (column_of storage.old)) e found (Some (column_of storage.new))) }
    ensures refused { IfErr result (FieldRemoveIsRefused (population entities.now) (Some (column_of storage.old)) e) }
    ensures err { OnErr result (column_of storage.new ≡ column_of storage.old) }
    ensures succeeds { HasRoom storage.old.room 1 → IsOk result }
{
    // For its clauses alone, which say when the storage may want memory.
    let _heard = storage.needs_room();
    match take(storage, entities, e) {
        Ok(found) => Ok(found),
        Err(_) => Err(Refusal::OutOfMemory),
    }
}

// `WriteStorage::remove`, on the storage.
#[tactic(auto, using(crate::proofs::Values::same))]
fn take<T: Component>(
    storage: &mut MaskedStorage<T>,
    entities: &EntitiesRes,
    e: Entity,
) -> Result<Option<T>, AllocError>
where
    T::Storage: UnprotectedStorage<T>,
    ensures found { IfOk result (λ x. x ≡ found_in entities.now storage.old e) }
    ensures map { OnOk result (IsSome (found_in entities.now storage.old e) → storage.new.map ≡ map.remove storage.old.map (index_of e)) }
    ensures channel { OnOk result (IsSome (found_in entities.now storage.old e) → storage.new.channel ≡ emitted (Removed (index_of e)) storage.old.channel) }
    ensures inner { OnOk result (IsSome (found_in entities.now storage.old e) → is_some storage.new.inner_room ≡ is_some storage.old.inner_room) }
    ensures absent { found_in entities.now storage.old e ≡ None → storage.new ≡ storage.old }
    ensures nothing { found_in entities.now storage.old e ≡ None → IsOk result }
    ensures err { OnErr result (column_of storage.new ≡ column_of storage.old) }
    ensures succeeds { HasRoom storage.old.room 1 → IsOk result }
{
    WriteStorage::new(entities, storage).remove(e)
}

/// Removes every component.
pub fn clear<T: Component>(field: &mut MaybeStorage<T>) -> Result<(), Refusal>
where
    T::Storage: UnprotectedStorage<T>,
    ensures ok { OnOk result (FieldClears (field_column field.old) (field_column field.new)) }
    ensures refused { IfErr result (FieldClearIsRefused (field_column field.old)) }
    ensures err { OnErr result (field_column field.new ≡ field_column field.old) }
{
    match field {
        Some(storage) => clear_in(storage),
        None => Err(Refusal::Unregistered),
    }
}

/// Removes every component from its storage.
#[tactic(auto, using(crate::proofs::Values::same))]
pub fn clear_in<T: Component>(storage: &mut MaskedStorage<T>) -> Result<(), Refusal>
where
    T::Storage: UnprotectedStorage<T>,
    ensures ok { OnOk result (FieldClears (Some (column_of storage.old)) (Some (column_of storage.new))) }
    ensures refused { IfErr result (FieldClearIsRefused (Some (column_of storage.old))) }
    ensures err { OnErr result (column_of storage.new ≡ column_of storage.old) }
    ensures succeeds { HasRoom storage.old.room (length (indices_of storage.old)) → IsOk result }
{
    // For its clauses alone, which say when the storage may want memory.
    let _heard = storage.needs_room();
    match storage.clear() {
        Ok(()) => Ok(()),
        Err(_) => Err(Refusal::OutOfMemory),
    }
}

/// Makes room for the events of the removal of the components of so many entities.
pub fn reserve_drop<T: Component>(
    field: &mut MaybeStorage<T>,
    count: usize,
) -> Result<(), AllocError>
where
    T::Storage: UnprotectedStorage<T>,
    ensures same { field_column field.new ≡ field_column field.old }
    ensures ok { OnOk result (HasRoom (field_room field.new) count) }
    ensures none { count ≡ 0 → IsOk result }
    ensures unheard { WantsNone (field_column field.old) → IsOk result }
{
    match field {
        Some(storage) => reserve_in(storage, count),
        None => Ok(()),
    }
}

// The same of a storage.
#[tactic(auto, using(crate::proofs::Values::same, crate::proofs::Values::has_room, crate::proofs::Values::no_room))]
fn reserve_in<T: Component>(storage: &mut MaskedStorage<T>, count: usize) -> Result<(), AllocError>
where
    T::Storage: UnprotectedStorage<T>,
    ensures same { column_of storage.new ≡ column_of storage.old }
    ensures ok { OnOk result (HasRoom storage.new.room count) }
    ensures none { count ≡ 0 → IsOk result }
    ensures unheard { WantsNone (Some (column_of storage.old)) → IsOk result }
{
    // For its clauses alone, which say when the storage may want memory.
    let _heard = storage.needs_room();
    storage.reserve_events(count)
}

/// Removes the components at the indices of a list of entities, in room that is there for the events.
#[tactic(auto, using(crate::proofs::Values::lost_all))]
pub fn drop_all<T: Component>(field: &mut MaybeStorage<T>, es: &[Entity])
where
    T::Storage: UnprotectedStorage<T>,
    requires { HasRoom (field_room field.old) (length es.now) }
    ensures { field_column field.new ≡ option_map (without_values es.now) (field_column field.old) }
{
    if let Some(storage) = field {
        storage.drop_all(es);
    }
}

/// Registers a reader of the events.
pub fn register_reader<T: Component>(field: &mut MaybeStorage<T>) -> Result<ReaderId, Refusal>
where
    T::Storage: MaybeTracked<T>,
    ensures ok { IfOk result (λ n. FieldRechannels (field_column field.old) (λ c. n ≡ c.registered) with_reader (field_column field.new)) }
    ensures refused { IfErr result (RegisterReaderIsRefused (field_column field.old)) }
    ensures err { OnErr result (field_column field.new ≡ field_column field.old) }
{
    match field {
        Some(storage) => register_reader_in(storage),
        None => Err(Refusal::Unregistered),
    }
}

#[tactic(auto, using(crate::proofs::Values::same, crate::proofs::Values::rechanneled))]
fn register_reader_in<T: Component>(storage: &mut MaskedStorage<T>) -> Result<ReaderId, Refusal>
where
    T::Storage: MaybeTracked<T>,
    ensures ok { IfOk result (λ n. FieldRechannels (Some (column_of storage.old)) (λ c. n ≡ c.registered) with_reader (Some (column_of storage.new))) }
    ensures refused { IfErr result (RegisterReaderIsRefused (Some (column_of storage.old))) }
    ensures err { OnErr result (column_of storage.new ≡ column_of storage.old) }
{
    if !storage.is_tracked() {
        return Err(Refusal::Untracked);
    }
    match storage.new_reader() {
        Ok(reader) => Ok(reader),
        Err(_) => Err(Refusal::OutOfMemory),
    }
}

/// What a reader has not read, which it has read then.
pub fn events<T: Component>(
    field: &mut MaybeStorage<T>,
    reader: &ReaderId,
) -> Result<Vec<ComponentEvent>, Refusal>
where
    T::Storage: MaybeTracked<T>,
    ensures ok { IfOk result (λ es. FieldRechannels (field_column field.old) (λ c. unread_of reader.now c.readers ≡ Some es.items) (after_read reader.now) (field_column field.new)) }
    ensures refused { IfErr result (ReaderIsRefused reader.now (field_column field.old)) }
    ensures err { OnErr result (field_column field.new ≡ field_column field.old) }
{
    match field {
        Some(storage) => events_in(storage, reader),
        None => Err(Refusal::Unregistered),
    }
}

#[tactic(auto, using(crate::proofs::Values::unread_column, crate::proofs::Values::rechanneled))]
fn events_in<T: Component>(
    storage: &mut MaskedStorage<T>,
    reader: &ReaderId,
) -> Result<Vec<ComponentEvent>, Refusal>
where
    T::Storage: MaybeTracked<T>,
    ensures ok { IfOk result (λ es. FieldRechannels (Some (column_of storage.old)) (λ c. unread_of reader.now c.readers ≡ Some es.items) (after_read reader.now) (Some (column_of storage.new))) }
    ensures refused { IfErr result (ReaderIsRefused reader.now (Some (column_of storage.old))) }
    ensures err { OnErr result (column_of storage.new ≡ column_of storage.old) }
{
    if !storage.is_tracked() {
        return Err(Refusal::Untracked);
    }
    match storage.read_events(reader) {
        Ok(events) => Ok(events),
        Err(_) => Err(Refusal::UnknownReader),
    }
}

/// Ends a reader.
pub fn drop_reader<T: Component>(
    field: &mut MaybeStorage<T>,
    reader: ReaderId,
) -> Result<(), Refusal>
where
    T::Storage: MaybeTracked<T>,
    ensures ok { OnOk result (FieldRechannels (field_column field.old) (λ c. IsSome (unread_of reader c.readers)) (without_reader reader) (field_column field.new)) }
    ensures refused { IfErr result (ReaderIsRefused reader (field_column field.old)) }
    ensures err { OnErr result (field_column field.new ≡ field_column field.old) }
{
    match field {
        Some(storage) => drop_reader_in(storage, reader),
        None => Err(Refusal::Unregistered),
    }
}

#[tactic(auto, using(crate::proofs::Values::undropped_column, crate::proofs::Values::rechanneled))]
fn drop_reader_in<T: Component>(
    storage: &mut MaskedStorage<T>,
    reader: ReaderId,
) -> Result<(), Refusal>
where
    T::Storage: MaybeTracked<T>,
    ensures ok { OnOk result (FieldRechannels (Some (column_of storage.old)) (λ c. IsSome (unread_of reader c.readers)) (without_reader reader) (Some (column_of storage.new))) }
    ensures refused { IfErr result (ReaderIsRefused reader (Some (column_of storage.old))) }
    ensures err { OnErr result (column_of storage.new ≡ column_of storage.old) }
{
    if !storage.is_tracked() {
        return Err(Refusal::Untracked);
    }
    match storage.end_reader(reader) {
        Ok(()) => Ok(()),
        Err(_) => Err(Refusal::UnknownReader),
    }
}

/// Turns the events on or off.
pub fn emit<T: Component>(field: &mut MaybeStorage<T>, on: bool) -> Result<(), Refusal>
where
    T::Storage: MaybeTracked<T>,
    ensures ok { OnOk result (FieldRechannels (field_column field.old) (λ c. c.tracked ≡ true) (switched on) (field_column field.new)) }
    ensures refused { IfErr result (SwitchIsRefused (field_column field.old)) }
    ensures err { OnErr result (field_column field.new ≡ field_column field.old) }
{
    match field {
        Some(storage) => emit_in(storage, on),
        None => Err(Refusal::Unregistered),
    }
}

#[tactic(auto, using(crate::proofs::Values::rechanneled))]
fn emit_in<T: Component>(storage: &mut MaskedStorage<T>, on: bool) -> Result<(), Refusal>
where
    T::Storage: MaybeTracked<T>,
    ensures ok { OnOk result (FieldRechannels (Some (column_of storage.old)) (λ c. c.tracked ≡ true) (switched on) (Some (column_of storage.new))) }
    ensures refused { IfErr result (SwitchIsRefused (Some (column_of storage.old))) }
    ensures err { OnErr result (column_of storage.new ≡ column_of storage.old) }
{
    if !storage.is_tracked() {
        return Err(Refusal::Untracked);
    }
    storage.emit_events(on);
    Ok(())
}
