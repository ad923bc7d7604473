//! Calls by a component type: neither its slot, nor its place in the struct, nor the type of all values is written.
ghost use Rattle.std.specs.Prelude.{◌≡◌, ℕ, true, Some, None, IsSome, IfSome, IfOk, IsOk, OnOk, OnErr, IfErr, length};
ghost use Rattle.std.specs.Option.{option_map};
ghost use Rattle.entities.specs.Census.{population};
ghost use Rattle.storages.specs.Meaning.{HasRoom};
ghost use Rattle.storages.specs.Slot.{indices_of};
ghost use Rattle.specs.specs.Slots.Registering.{RegistersAs, column_with};
ghost use Rattle.specs.specs.Slots.Table.{Registers, Inserts, InsertIsRefused, Gets, Removes, Clears};
ghost use Rattle.specs.specs.Typed.Field.{FieldInserts, FieldGets, FieldGetsClone, FieldRemoves, FieldClears, FieldInsertIsRefused, FieldGetIsRefused, FieldRemoveIsRefused, FieldClearIsRefused, Holds, field_column, field_room};

use crate::command::Refusal;
use crate::typed::{Has, field};
use entities::{EntitiesRes, Entity};
use std::alloc::{AllocError, Global};
use storages::{Component, MaskedStorage, UnprotectedStorage};

/// Puts a component at an entity that is alive, and answers the one before. A refused component is handed back, and nothing changed.
#[inline(always)]
pub fn insert<T: Component, S: Has<T, I>, I>(
    storages: &mut S,
    entities: &EntitiesRes,
    e: Entity,
    component: T,
) -> Result<Option<T>, (Refusal, T)>
where
    T::Storage: UnprotectedStorage<T>,
    ensures ok { IfOk result (λ before. Inserts S.place (population entities.now) (S.table storages.old) e (S.as_value component) (option_map S.as_value before) (S.table storages.new)) }
    ensures field { IfOk result (λ before. FieldInserts (population entities.now) (field_column (S.part storages.old)) e component before (field_column (S.part storages.new))) }
    ensures refused { IfErr result (λ r. FieldInsertIsRefused (population entities.now) (field_column (S.part storages.old)) e r.0) }
    ensures back { IfErr result (λ r. r.1 ≡ component) }
    ensures there { IsSome (S.part storages.old) → IsSome (S.part storages.new) }
    ensures err { OnErr result (S.table storages.new ≡ S.table storages.old) }
    ensures ids { S.ids storages.new ≡ S.ids storages.old }
    ensures succeeds { Holds (population entities.now) (field_column (S.part storages.old)) e → HasRoom (field_room (S.part storages.old)) 1 → IsOk result }
{
    match storages.field_mut() {
        Some(storage) => field::insert_in(storage, entities, e, component),
        None => Err((Refusal::Unregistered, component)),
    }
}

/// The component of an entity, copied, or none where the entity is not alive or has none. It takes no memory.
pub fn get<T: Component + Copy, S: Has<T, I>, I>(
    storages: &S,
    entities: &EntitiesRes,
    e: Entity,
) -> Result<Option<T>, Refusal>
where
    T::Storage: UnprotectedStorage<T>,
    ensures ok { IfOk result (λ found. Gets (population entities.now) (S.table storages.now) S.the_slot e (option_map S.as_value found)) }
    ensures field { IfOk result (λ found. FieldGets (population entities.now) (field_column (S.part storages.now)) e found) }
    ensures refused { IfErr result (FieldGetIsRefused (Unit {0}) (population entities.now) (field_column (S.part storages.now)) e) }
{
    match storages.field() {
        Some(storage) => Ok(field::find(storage, entities, e).copied()),
        None => Err(Refusal::Unregistered),
    }
}

/// A clone of the component of an entity, or none where the entity is not alive or has none. It takes the memory that the clone takes.
pub fn get_clone<T: Component + Clone, S: Has<T, I>, I>(
    storages: &S,
    entities: &EntitiesRes,
    e: Entity,
) -> Result<Option<T>, Refusal>
where
    T::Storage: UnprotectedStorage<T>,
    ensures field { IfOk result (λ found. FieldGetsClone T.is_clone (population entities.now) (field_column (S.part storages.now)) e found) }
    ensures refused { IfErr result (FieldGetIsRefused ((t : T) → T.is_infallible t) (population entities.now) (field_column (S.part storages.now)) e) }
{
    match storages.field() {
        Some(storage) => field::get_clone_in(storage, entities, e),
        None => Err(Refusal::Unregistered),
    }
}

/// Removes the component of an entity and answers it, or none where the entity is not alive. It takes memory for an event alone, and a
/// refused call changes nothing.
pub fn remove<T: Component, S: Has<T, I>, I>(
    storages: &mut S,
    entities: &EntitiesRes,
    e: Entity,
) -> Result<Option<T>, Refusal>
where
    T::Storage: UnprotectedStorage<T>,
    ensures ok { IfOk result (λ found. Removes (population entities.now) (S.table storages.old) S.the_slot e (option_map S.as_value found) (S.table storages.new)) }
    ensures field { IfOk result (λ found. FieldRemoves (population entities.now) (field_column (S.part storages.old)) e found (field_column (S.part storages.new))) }
    ensures refused { IfErr result (FieldRemoveIsRefused (population entities.now) (field_column (S.part storages.old)) e) }
    ensures there { IsSome (S.part storages.old) → IsSome (S.part storages.new) }
    ensures err { OnErr result (S.table storages.new ≡ S.table storages.old) }
    ensures ids { S.ids storages.new ≡ S.ids storages.old }
    ensures succeeds { IsSome (S.part storages.old) → HasRoom (field_room (S.part storages.old)) 1 → IsOk result }
{
    match storages.field_mut() {
        Some(storage) => field::remove_in(storage, entities, e),
        None => Err(Refusal::Unregistered),
    }
}

/// Removes every component. It takes memory for events alone, and a refused call changes nothing.
pub fn clear<T: Component, S: Has<T, I>, I>(storages: &mut S) -> Result<(), Refusal>
where
    T::Storage: UnprotectedStorage<T>,
    ensures ok { OnOk result (Clears (S.table storages.old) S.the_slot (S.table storages.new)) }
    ensures field { OnOk result (FieldClears (field_column (S.part storages.old)) (field_column (S.part storages.new))) }
    ensures refused { IfErr result (FieldClearIsRefused (field_column (S.part storages.old))) }
    ensures there { IsSome (S.part storages.old) → IsSome (S.part storages.new) }
    ensures err { OnErr result (S.table storages.new ≡ S.table storages.old) }
    ensures ids { S.ids storages.new ≡ S.ids storages.old }
    ensures succeeds { IsSome (S.part storages.old) → IfSome (S.part storages.old) (λ w. HasRoom w.room (length (indices_of w))) → IsOk result }
{
    match storages.field_mut() {
        Some(storage) => field::clear_in::<T>(storage),
        None => Err(Refusal::Unregistered),
    }
}

/// Makes an empty storage where none was, else changes nothing. Where the first value of its kind takes no memory, as of each kind of
/// `storages`, it is not refused.
pub fn register<T: Component, S: Has<T, I>, I>(
    storages: &mut S,
    alloc: Global,
) -> Result<(), AllocError>
where
    T::Storage: UnprotectedStorage<T>,
    ensures ok { OnOk result (Registers (S.table storages.old) S.the_slot (S.table storages.new)) }
    ensures succeeds { T.Storage.TakesNone → IsOk result }
    ensures memory { OnErr result (S.table storages.old S.the_slot ≡ None) }
    ensures err { OnErr result (S.table storages.new ≡ S.table storages.old) }
    ensures ids { S.ids storages.new ≡ S.ids storages.old }
{
    if storages.field().is_none() {
        let storage = field::empty(alloc)?;
        storages.set_field(storage);
    }
    Ok(())
}

/// Takes an empty storage where none was, else lets it go and changes nothing. The slot has the readers and the emission that the storage
/// has.
pub fn register_with<T: Component, S: Has<T, I>, I>(
    storages: &mut S,
    alloc: Global,
    storage: T::Storage,
)
where
    T::Storage: Drop,
    requires { (q : ℕ) → (T.Storage.meaning storage).is_free q ≡ true }
    ensures registers { RegistersAs (S.table storages.old) S.the_slot (column_with (T.Storage.meaning storage)) (S.table storages.new) }
    ensures slice { S.part storages.old ≡ None → IfSome (S.part storages.new) (λ w. (w.extent ≡ (T.Storage.meaning storage).extent) × (w.order ≡ (T.Storage.meaning storage).order)) }
    ensures ids { S.ids storages.new ≡ S.ids storages.old }
{
    if storages.field().is_none() {
        storages.set_field(MaskedStorage::new(alloc, storage));
    }
}
