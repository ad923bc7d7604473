//! A storage of a core, to write to.
ghost use Rattle.std.specs.Prelude.{◌≡◌, ◌↔◌, Some, None, Err, IsSome, IsTrue, IfSome, IfOk, IsOk, IfErr, OnOk, OnErr, length, option_copied};
ghost use Rattle.std.specs.Borrow.{sem};
ghost use Rattle.std.specs.Option.{option_map};
ghost use Rattle.std.specs.FinMap as map;
ghost use Rattle.storages.specs.Meaning.{HasRoom};
ghost use Rattle.storages.specs.ReadView as reading;
ghost use Rattle.storages.specs.Slot as masked;
ghost use Rattle.specs.specs.Typed.Field.{FieldInserts, FieldGets, FieldRemoves, FieldClears, WriteIsRefused, Holds, column_of, field_column, field_room};
ghost use Rattle.specs.specs.Slots.Column.{wants_memory};
ghost use Rattle.specs.specs.Laws.Going.{GoesOn};
ghost use Rattle.specs.specs.Laws.Gone.{KeepsGone};
ghost use Rattle.specs.specs.Laws.Reached.{KeepsLiving};
ghost use Rattle.specs.specs.World.State.{OnTable, InsertsAlone, RemovesAlone};
ghost use Rattle.specs.specs.Slots.Table.{Inserts, Gets, Removes, RemovalWantsMemory, Clears, ClearingWantsMemory};
ghost use Rattle.specs.specs.Typed.Writing.{lent, storages_of, shown, LendsMasked, LendsHere, LendsValue, LendsComponent};

use crate::command::Refusal;
use crate::typed::{Field, Has, by_type, field};
use crate::world::{Core, Parts};
use entities::{Entity, Index};
use std::alloc::AllocError;
use std::marker::PhantomData;
use storages::{Component, InsertError, MaskedStorage, NotLent, ReadStorage, UnprotectedStorage};

/// The storage of a component type in a core, to write to. It holds the core, so that each call through it is one of the core's. The
/// component type is registered when the view is made, and no call of the view ends that. Ports `specs::WriteStorage` of a world.
#[derive(Drop)]
pub struct Writing<'a, S, T, I> {
    pub(crate) core: &'a mut Core<S>,
    pub(crate) of: PhantomData<(T, I)>,
}

impl<'a, S: Has<T, I>, T: Component, I> Writing<'a, S, T, I> {
    /// The same storage, to read.
    pub fn read(&self) -> ReadStorage<'_, T>
        requires { IsSome (S.part (storages_of self.now)) }
        ensures slot { S.part (storages_of self.now) ≡ Some (reading.slot result) }
        ensures entities { reading.entities_of result ≡ (lent self.now).now.parts.entities }
    {
        match self.core.parts.storages.field() {
            Some(storage) => ReadStorage::new(&self.core.parts.entities, storage),
            None => unreachable!(),
        }
    }

    /// The storage without the entities: its components to write to, its channel, its cursors.
    pub fn masked_mut(&mut self) -> &mut MaskedStorage<T>
        requires { IsSome (S.part (storages_of self.old)) }
        ensures* lends { sem 𝓛 (LendsMasked S.row T.row I.row T.Storage.row T.Storage.meaning self.entry result (S.with_part (storages_of self.old))) }
        ensures slot { S.part (storages_of self.old) ≡ Some result.now }
    {
        let core = &mut *self.core;
        let parts = &mut core.parts;
        let storages = &mut parts.storages;
        here(storages)
    }
}

impl<'a, S: Has<T, I>, T: Component, I> Writing<'a, S, T, I>
where
    T::Storage: UnprotectedStorage<T>,
{
    /// The component of an entity that is alive. Ports `Storage::get`.
    pub fn get(&self, e: Entity) -> Option<&T>
        requires { IsSome (S.part (storages_of self.now)) }
        ensures ok { Gets (shown S.table S.ids self.now).people (shown S.table S.ids self.now).table S.the_slot e (option_map S.as_value (option_copied result)) }
        ensures field { FieldGets (shown S.table S.ids self.now).people (field_column (S.part (storages_of self.now))) e (option_copied result) }
    {
        match self.core.parts.storages.field() {
            Some(storage) => field::find(storage, &self.core.parts.entities, e),
            None => unreachable!(),
        }
    }

    /// Whether the entity is alive and has a component. Ports `Storage::contains`.
    pub fn contains(&self, e: Entity) -> bool
        requires { IsSome (S.part (storages_of self.now)) }
        ensures { IsTrue result ↔ Holds (shown S.table S.ids self.now).people (field_column (S.part (storages_of self.now))) e }
    {
        self.get(e).is_some()
    }

    /// Puts a component at an entity that is alive, and answers the one before. A refused component is handed back, and nothing changed.
    /// Ports `Storage::insert`.
    pub fn insert(&mut self, e: Entity, component: T) -> Result<Option<T>, InsertError<T>>
        requires { IsSome (S.part (storages_of self.old)) }
        ensures same_reference { (lent self.new).ghost_name ≡ (lent self.old).ghost_name }
        ensures there { IsSome (S.part (storages_of self.new)) }
        ensures entities { (lent self.new).now.parts.entities ≡ (lent self.old).now.parts.entities }
        ensures ok { IfOk result (λ before. InsertsAlone S.place e (S.as_value component) (option_map S.as_value before) (shown S.table S.ids self.old) (shown S.table S.ids self.new)) }
        ensures field { IfOk result (λ before. FieldInserts (shown S.table S.ids self.old).people
            (field_column (S.part (storages_of self.old))) e component before (field_column (S.part (storages_of self.new)))) }
        ensures refused { IfErr result (WriteIsRefused (shown S.table S.ids self.old).people (field_column (S.part (storages_of self.old))) e component) }
        ensures err { OnErr result (shown S.table S.ids self.new ≡ shown S.table S.ids self.old) }
        ensures living { KeepsLiving (shown S.table S.ids self.old) (shown S.table S.ids self.new) }
        ensures goes_on { GoesOn (shown S.table S.ids self.old) (shown S.table S.ids self.new) }
        ensures gone { KeepsGone (shown S.table S.ids self.old).people (shown S.table S.ids self.new).people }
        ensures succeeds { Holds (shown S.table S.ids self.old).people (field_column (S.part (storages_of self.old))) e → HasRoom (field_room (S.part (storages_of self.old))) 1 → IsOk result }
    {
        let Parts { entities, storages } = &mut self.core.parts;
        match by_type::insert(storages, entities, e, component) {
            Ok(before) => Ok(before),
            Err((Refusal::WrongGeneration(wrong), component)) => {
                Err(InsertError::WrongGeneration(wrong, component))
            }
            Err((Refusal::OutOfMemory, component)) => Err(InsertError::OutOfMemory(component)),
            Err(_) => unreachable!(),
        }
    }

    /// Removes the component of an entity and answers it, or none where the entity is not alive. It takes memory for an event alone, and a
    /// refused call changes nothing. Ports `Storage::remove`.
    pub fn remove(&mut self, e: Entity) -> Result<Option<T>, AllocError>
        requires { IsSome (S.part (storages_of self.old)) }
        ensures same_reference { (lent self.new).ghost_name ≡ (lent self.old).ghost_name }
        ensures there { IsSome (S.part (storages_of self.new)) }
        ensures entities { (lent self.new).now.parts.entities ≡ (lent self.old).now.parts.entities }
        ensures ok { IfOk result (λ found. RemovesAlone S.the_slot e (option_map S.as_value found) (shown S.table S.ids self.old) (shown S.table S.ids self.new)) }
        ensures field { IfOk result (λ found. FieldRemoves (shown S.table S.ids self.old).people (field_column (S.part (storages_of self.old))) e found
            (field_column (S.part (storages_of self.new)))) }
        ensures refused { OnErr result (RemovalWantsMemory (shown S.table S.ids self.old).people (field_column (S.part (storages_of self.old))) e) }
        ensures err { OnErr result (shown S.table S.ids self.new ≡ shown S.table S.ids self.old) }
        ensures living { KeepsLiving (shown S.table S.ids self.old) (shown S.table S.ids self.new) }
        ensures goes_on { GoesOn (shown S.table S.ids self.old) (shown S.table S.ids self.new) }
        ensures gone { KeepsGone (shown S.table S.ids self.old).people (shown S.table S.ids self.new).people }
        ensures succeeds { HasRoom (field_room (S.part (storages_of self.old))) 1 → IsOk result }
    {
        let Parts { entities, storages } = &mut self.core.parts;
        match by_type::remove(storages, entities, e) {
            Ok(found) => Ok(found),
            Err(Refusal::OutOfMemory) => Err(AllocError),
            Err(_) => unreachable!(),
        }
    }

    /// Removes every component. It takes memory for events alone, and a refused call changes nothing. Ports `Storage::clear`.
    #[tactic(auto, using(crate::proofs::Kept::living_cleared, crate::proofs::Kept::gone_same, crate::proofs::Going::on_cleared, crate::proofs::Going::on_same))]
    pub fn clear(&mut self) -> Result<(), AllocError>
        requires { IsSome (S.part (storages_of self.old)) }
        ensures same_reference { (lent self.new).ghost_name ≡ (lent self.old).ghost_name }
        ensures there { IsSome (S.part (storages_of self.new)) }
        ensures entities { (lent self.new).now.parts.entities ≡ (lent self.old).now.parts.entities }
        ensures ok { OnOk result (OnTable (λ t t'. Clears t S.the_slot t') (shown S.table S.ids self.old) (shown S.table S.ids self.new)) }
        ensures field { OnOk result (FieldClears (field_column (S.part (storages_of self.old))) (field_column (S.part (storages_of self.new)))) }
        ensures refused { OnErr result (ClearingWantsMemory (field_column (S.part (storages_of self.old)))) }
        ensures err { OnErr result (shown S.table S.ids self.new ≡ shown S.table S.ids self.old) }
        ensures living { KeepsLiving (shown S.table S.ids self.old) (shown S.table S.ids self.new) }
        ensures goes_on { GoesOn (shown S.table S.ids self.old) (shown S.table S.ids self.new) }
        ensures gone { KeepsGone (shown S.table S.ids self.old).people (shown S.table S.ids self.new).people }
        ensures succeeds { IfSome (S.part (storages_of self.old)) (λ w. HasRoom w.room (length (masked.indices_of w))) → IsOk result }
    {
        match by_type::clear(&mut self.core.parts.storages) {
            Ok(()) => Ok(()),
            Err(Refusal::OutOfMemory) => Err(AllocError),
            Err(_) => unreachable!(),
        }
    }

    /// The component of an entity that is alive, to write to. It takes memory for an event alone, as a removal does. Ports `Storage::get_mut`.
    pub fn get_mut(&mut self, e: Entity) -> Result<&mut T, NotLent>
        requires { IsSome (S.part (storages_of self.old)) }
        ensures* writes_back { sem 𝓛 (LendsComponent S.row T.row I.row S.part S.with_part S.table S.ids self.entry e result) }
        ensures value { IfOk result (λ x. FieldGets (shown S.table S.ids self.old).people (field_column (S.part (storages_of self.old))) e (Some x.now)) }
        ensures absent { (result ≡ Err NotLent.Absent) ↔ FieldGets (shown S.table S.ids self.old).people (field_column (S.part (storages_of self.old))) e None }
        ensures refused { result ≡ Err NotLent.OutOfMemory → RemovalWantsMemory (shown S.table S.ids self.old).people (field_column (S.part (storages_of self.old))) e }
        ensures succeeds { Holds (shown S.table S.ids self.old).people (field_column (S.part (storages_of self.old))) e → HasRoom (field_room (S.part (storages_of self.old))) 1 → IsOk result }
    {
        if !self.core.parts.entities.is_alive(e) {
            return Err(NotLent::Absent);
        }
        let core = &mut *self.core;
        let parts = &mut core.parts;
        component_mut(&mut parts.storages, e.id())
    }
}

// The component of an index in the storage of its type.
fn component_mut<T: Component, S: Has<T, I>, I>(
    storages: &mut S,
    id: Index,
) -> Result<&mut T, NotLent>
where
    T::Storage: UnprotectedStorage<T>,
    requires { IsSome (S.part storages.old) }
    ensures* writes_back { sem 𝓛 (LendsValue S.row T.row S.part S.with_part storages.entry id result) }
    ensures value { IfOk result (λ x. option_map (λ (w : masked.Slot T). map.get w.map id) (S.part storages.old) ≡ Some (Some x.now)) }
    ensures absent { (result ≡ Err NotLent.Absent) ↔ (option_map (λ (w : masked.Slot T). map.get w.map id) (S.part storages.old) ≡ Some None) }
    ensures refused { result ≡ Err NotLent.OutOfMemory → IfSome (S.part storages.old) (λ w. IsSome (map.get w.map id) × IsTrue (wants_memory (column_of w))) }
    ensures succeeds { IfSome (S.part storages.old) (λ w. IsSome (map.get w.map id) × HasRoom w.room 1) → IsOk result }
{
    let storage = here(storages);
    // For its clauses alone, which say when the storage may want memory.
    let _heard = storage.needs_room();
    storage.get_mut(id)
}

// The storage of a component type that is registered.
fn here<T: Component, S: Has<T, I>, I>(storages: &mut S) -> &mut MaskedStorage<T>
    requires { IsSome (S.part storages.old) }
    ensures* lends { sem 𝓛 (LendsHere S.row T.row T.Storage.row T.Storage.meaning storages.entry result (S.with_part storages.old)) }
    ensures slot { S.part storages.old ≡ Some result.now }
{
    storages.field_mut().unwrap()
}
