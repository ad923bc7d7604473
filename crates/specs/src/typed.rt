//! Storages of a core, by their component types.
ghost use Rattle.std.specs.Prelude.{◌≡◌, ℕ, true, Some, None, IsSome, IfSome, IfOk, IsOk, OnOk, OnErr};
ghost use Rattle.std.specs.Borrow.{sem};
ghost use Rattle.storages.specs.ReadView as reading;
ghost use Rattle.specs.specs.Laws.Going.{GoesOn};
ghost use Rattle.specs.specs.Laws.Gone.{KeepsGone};
ghost use Rattle.specs.specs.Laws.Reached.{KeepsLiving};
ghost use Rattle.specs.specs.Slots.Registering.{RegistersAs, column_with};
ghost use Rattle.specs.specs.World.State.{core_state, OnTable};
ghost use Rattle.specs.specs.Slots.Table.{Registers};
ghost use Rattle.specs.specs.Typed.Writing.{lent, RestsUnregistered};

pub mod by_type;
pub mod field;
pub mod field_marks;
mod has;
mod view_reads;
mod writing;

use crate::slots::Held;
use crate::world::Core;
pub use has::{Field, Has, component, slot, value};
use std::alloc::AllocError;
use std::marker::PhantomData;
use storages::{Component, ReadStorage, UnprotectedStorage};
use thiserror::Error;
pub use writing::Writing;

/// No storage is registered for the component type. Nothing changed.
#[derive(Clone, Copy, Debug, PartialEq, Eq, Error)]
#[error("the component type is not registered")]
pub struct Unregistered;

impl<S: Held> Core<S> {
    /// Makes an empty storage for a component type where none was, else changes nothing. Where the first value of the storage's kind takes no
    /// memory, as of each kind of `storages`, it is not refused. Ports `WorldExt::register`.
    #[tactic(auto, using(crate::proofs::Kept::living_registered, crate::proofs::Kept::gone_same))]
    pub fn register<T: Component, I>(&mut self) -> Result<(), AllocError>
    where
        S: Has<T, I>,
        T::Storage: UnprotectedStorage<T>,
        ensures ok { OnOk result (OnTable (λ t t'. Registers t S.the_slot t') (core_state S.table S.ids self.old) (core_state S.table S.ids self.new)) }
        ensures succeeds { T.Storage.TakesNone → IsOk result }
        ensures memory { OnErr result ((core_state S.table S.ids self.old).table S.the_slot ≡ None) }
        ensures living { KeepsLiving (core_state S.table S.ids self.old) (core_state S.table S.ids self.new) }
        ensures goes_on { GoesOn (core_state S.table S.ids self.old) (core_state S.table S.ids self.new) }
        ensures gone { KeepsGone (core_state S.table S.ids self.old).people (core_state S.table S.ids self.new).people }
        ensures err { OnErr result (core_state S.table S.ids self.new ≡ core_state S.table S.ids self.old) }
    {
        by_type::register(&mut self.parts.storages, self.alloc)
    }

    /// Takes an empty storage for a component type where none was, else lets it go and changes nothing. The slot has the readers, the
    /// emission and the slice that the storage has. Ports `WorldExt::register_with_storage`.
    #[tactic(auto, using(crate::proofs::Kept::living_begun, crate::proofs::Kept::gone_same))]
    pub fn register_with_storage<T: Component, I>(&mut self, storage: T::Storage)
    where
        S: Has<T, I>,
        T::Storage: Drop,
        requires { (q : ℕ) → (T.Storage.meaning storage).is_free q ≡ true }
        ensures registers { OnTable (λ t t'. RegistersAs t S.the_slot (column_with (T.Storage.meaning storage)) t') (core_state S.table S.ids self.old) (core_state S.table S.ids self.new) }
        ensures living { KeepsLiving (core_state S.table S.ids self.old) (core_state S.table S.ids self.new) }
        ensures gone { KeepsGone (core_state S.table S.ids self.old).people (core_state S.table S.ids self.new).people }
        ensures slice { S.part self.old.parts.storages ≡ None
            → IfSome (S.part self.new.parts.storages) (λ w. (w.extent ≡ (T.Storage.meaning storage).extent) × (w.order ≡ (T.Storage.meaning storage).order)) }
    {
        by_type::register_with(&mut self.parts.storages, self.alloc, storage);
    }

    /// The storage of a component type, to read. Ports `WorldExt::read_storage`.
    pub fn read_storage<T: Component, I>(&self) -> Result<ReadStorage<'_, T>, Unregistered>
    where
        S: Has<T, I>,
        ensures ok { IfOk result (λ v. S.part self.now.parts.storages ≡ Some (reading.slot v)) }
        ensures entities { IfOk result (λ v. reading.entities_of v ≡ self.now.parts.entities) }
        ensures err { OnErr result (S.part self.now.parts.storages ≡ None) }
    {
        match self.parts.storages.field() {
            Some(storage) => Ok(ReadStorage::new(&self.parts.entities, storage)),
            None => Err(Unregistered),
        }
    }

    /// `read_storage`, by another name. Ports `WorldExt::read_component`.
    pub fn read_component<T: Component, I>(&self) -> Result<ReadStorage<'_, T>, Unregistered>
    where
        S: Has<T, I>,
        ensures ok { IfOk result (λ v. S.part self.now.parts.storages ≡ Some (reading.slot v)) }
        ensures entities { IfOk result (λ v. reading.entities_of v ≡ self.now.parts.entities) }
        ensures err { OnErr result (S.part self.now.parts.storages ≡ None) }
    {
        self.read_storage()
    }

    /// The storage of a component type, to write to. Ports `WorldExt::write_storage`.
    pub fn write_storage<T: Component, I>(&mut self) -> Result<Writing<'_, S, T, I>, Unregistered>
    where
        S: Has<T, I>,
        ensures* rests { sem 𝓛 (RestsUnregistered S.row self.entry result) }
        ensures same_reference { IfOk result (λ w. (lent w).ghost_name ≡ self.entry.ghost_name) }
        ensures now { IfOk result (λ w. (lent w).now ≡ self.old) }
        ensures ok { OnOk result (IsSome (S.part self.old.parts.storages)) }
        ensures err { OnErr result (S.part self.old.parts.storages ≡ None) }
    {
        if self.parts.storages.field().is_none() {
            return Err(Unregistered);
        }
        Ok(Writing {
            core: self,
            of: PhantomData,
        })
    }

    /// `write_storage`, by another name. Ports `WorldExt::write_component`.
    pub fn write_component<T: Component, I>(&mut self) -> Result<Writing<'_, S, T, I>, Unregistered>
    where
        S: Has<T, I>,
        ensures* rests { sem 𝓛 (RestsUnregistered S.row self.entry result) }
        ensures same_reference { IfOk result (λ w. (lent w).ghost_name ≡ self.entry.ghost_name) }
        ensures now { IfOk result (λ w. (lent w).now ≡ self.old) }
        ensures ok { OnOk result (IsSome (S.part self.old.parts.storages)) }
        ensures err { OnErr result (S.part self.old.parts.storages ≡ None) }
    {
        self.write_storage()
    }
}
