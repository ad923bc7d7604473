//! What a world asks of a struct of storages.
ghost use Rattle.std.specs.Prelude.{◌≡◌, ℕ, Option, Some, None, true, false, IfOk, OnOk, IfErr, OnErr, IsTrue, ◌↔◌, IsOk, IsSome, MatchOption, length};
ghost use Rattle.std.specs.Bool.{Decides};
ghost use Rattle.std.specs.Option.{option_map};
ghost use Rattle.entities.specs.Census.{population};
ghost use Rattle.storages.specs.Meaning.{HasRoom};
ghost use Rattle.specs.specs.Slots.Clones.{Clones};
ghost use Rattle.specs.specs.Slots.Column.{Column, WantsNone, without_values};
ghost use Rattle.specs.specs.Slots.Ids.{IdsAfter};
ghost use Rattle.specs.specs.Slots.Marks.{Markers, GivesMarker, MarkerIsRefused};
ghost use Rattle.specs.specs.Slots.ChannelCalls.{Calls, CallIsRefused};
ghost use Rattle.specs.specs.Slots.Readers.{RegistersReader, RegisterReaderIsRefused, ReadsEvents, DropsReader, ReaderIsRefused, Switches, SwitchIsRefused};
ghost use Rattle.specs.specs.Slots.Table.{Registers, Inserts, InsertIsRefused, GetsClone, GetIsRefused, Removes, RemoveIsRefused, Clears, ClearIsRefused, IsMask};

use crate::command::{ChannelCall, ChannelReply, Refusal};
use entities::{EntitiesRes, Entity};
use hibits::BitSet;
use saveload::MarkError;
use std::alloc::{AllocError, Global};
use storages::{ComponentEvent, ReaderId};

/// What a struct of storages holds, in the words of contracts. It has no function, so that a bound by it costs a proof next to nothing.
pub trait Held {
    /// One value for each component type.
    type Slot;

    /// One variant for each component type.
    type Value;

    /// The values of each slot with the channel of its events, or nothing where the slot is not registered.
    ghost table: { Self → Self.Slot → Option (Column Self.Value) };

    /// The slot of a value.
    ghost place: { Self.Value → Self.Slot };

    /// Whether the slot is of markers.
    ghost marks: { Markers Self.Slot Self.Value };

    /// How many new ids a slot's markers can still get, and none where that can't be told.
    ghost ids: { Self → Self.Slot → Option ℕ };
}

/// A struct with a storage, or none, for each component type. A call touches the one slot that it names, and a refused call changes nothing.
pub trait Storages: Held<Slot: Copy + Eq, Value: Drop> {
    /// For how many events a slot has room, and nothing where no event needs any.
    ghost room: { Self → Self.Slot → Option ℕ };

    /// The slot of a value.
    fn slot_of(value: &Self::Value) -> Self::Slot
        ensures { result ≡ Self.place value.now };

    /// Makes an empty storage where none was, else changes nothing.
    fn register(&mut self, alloc: Global, slot: Self::Slot) -> Result<(), AllocError>
        ensures ok { OnOk result (Registers (Self.table self.old) slot (Self.table self.new)) }
        ensures memory { OnErr result (Self.table self.old slot ≡ None) }
        ensures err { OnErr result (Self.table self.new ≡ Self.table self.old) }
        ensures ids { Self.ids self.new ≡ Self.ids self.old };

    /// The indices with a value in a slot, or none where it is not registered.
    fn mask(&self, slot: Self::Slot) -> Option<&BitSet>
        ensures { MatchOption result (Self.table self.now slot ≡ None) (λ m. IsMask (Self.table self.now slot) m.now) };

    /// Whether the slot has a storage.
    final fn is_registered(&self, slot: Self::Slot) -> bool
        ensures { IsTrue result ↔ IsSome (Self.table self.now slot) }
    {
        self.mask(slot).is_some()
    }

    /// Puts a value at an entity that is alive, in the value's slot, and answers the one before. A refused value is handed back.
    fn insert(
        &mut self,
        entities: &EntitiesRes,
        e: Entity,
        value: Self::Value,
    ) -> Result<Option<Self::Value>, (Refusal, Self::Value)>
        ensures ok { IfOk result (λ before. Inserts Self.place (population entities.now) (Self.table self.old) e value before (Self.table self.new)) }
        ensures refused { IfErr result (λ r. InsertIsRefused Self.place (population entities.now) (Self.table self.old) e value r.0) }
        ensures back { IfErr result (λ r. r.1 ≡ value) }
        ensures err { OnErr result (Self.table self.new ≡ Self.table self.old) }
        ensures ids { Self.ids self.new ≡ Self.ids self.old };

    /// Removes the value of an entity and answers it, or none where the entity is not alive. It takes memory for an event alone.
    fn remove(
        &mut self,
        entities: &EntitiesRes,
        slot: Self::Slot,
        e: Entity,
    ) -> Result<Option<Self::Value>, Refusal>
        ensures ok { IfOk result (λ found. Removes (population entities.now) (Self.table self.old) slot e found (Self.table self.new)) }
        ensures refused { IfErr result (RemoveIsRefused (population entities.now) (Self.table self.old) slot e) }
        ensures err { OnErr result (Self.table self.new ≡ Self.table self.old) }
        ensures ids { Self.ids self.new ≡ Self.ids self.old };

    /// Removes every value of a slot. It takes memory for events alone.
    fn clear(&mut self, slot: Self::Slot) -> Result<(), Refusal>
        ensures ok { OnOk result (Clears (Self.table self.old) slot (Self.table self.new)) }
        ensures refused { IfErr result (ClearIsRefused (Self.table self.old) slot) }
        ensures err { OnErr result (Self.table self.new ≡ Self.table self.old) }
        ensures ids { Self.ids self.new ≡ Self.ids self.old };

    /// Gives an entity a marker in a slot of markers, if it is alive and has none there. The answer is whether the marker is new, and none for an
    /// entity that is not alive. A new marker takes an id, and a refused call changes nothing.
    fn mark(
        &mut self,
        entities: &EntitiesRes,
        slot: Self::Slot,
        e: Entity,
    ) -> Result<Option<bool>, MarkError>
        ensures ok { IfOk result (λ given. GivesMarker (Self.marks.comes slot (Self.ids self.old slot)) (population entities.now) (Self.table self.old) slot e given (Self.table self.new)) }
        ensures ids { IfOk result (λ given. IdsAfter given (Self.ids self.old) slot (Self.ids self.new)) }
        ensures marker { OnOk result (Self.marks.holds slot ≡ true) }
        ensures refused { IfErr result (MarkerIsRefused (Self.marks.holds slot) (Self.ids self.old slot) (population entities.now) (Self.table self.old) slot e) }
        ensures err { OnErr result (Self.table self.new ≡ Self.table self.old) }
        ensures err_ids { OnErr result (Self.ids self.new ≡ Self.ids self.old) };

    /// A call on the channel of a slot's events: `register_reader`, `read`, `drop_reader` and `set_event_emission` are each one.
    fn call_channel(
        &mut self,
        slot: Self::Slot,
        call: ChannelCall<'_>,
    ) -> Result<ChannelReply, Refusal>
        ensures ok { IfOk result (λ reply. Calls (Self.table self.old) slot call.entry reply (Self.table self.new)) }
        ensures refused { IfErr result (CallIsRefused call.entry (Self.table self.old slot)) }
        ensures err { OnErr result (Self.table self.new ≡ Self.table self.old) }
        ensures ids { Self.ids self.new ≡ Self.ids self.old };

    /// Registers a reader of a slot's events, which has nothing to read yet.
    final fn register_reader(&mut self, slot: Self::Slot) -> Result<ReaderId, Refusal>
        ensures ok { IfOk result (λ n. RegistersReader (Self.table self.old) slot n (Self.table self.new)) }
        ensures refused { IfErr result (RegisterReaderIsRefused (Self.table self.old slot)) }
        ensures err { OnErr result (Self.table self.new ≡ Self.table self.old) }
        ensures ids { Self.ids self.new ≡ Self.ids self.old }
    {
        match self.call_channel(slot, ChannelCall::Register)? {
            ChannelReply::Reader(reader) => Ok(reader),
            _ => unreachable!(),
        }
    }

    /// What a reader has not read of a slot's events, which it has read then. It takes no memory.
    final fn read(
        &mut self,
        slot: Self::Slot,
        reader: &ReaderId,
    ) -> Result<Vec<ComponentEvent>, Refusal>
        ensures ok { IfOk result (λ es. ReadsEvents (Self.table self.old) slot reader.now es.items (Self.table self.new)) }
        ensures refused { IfErr result (ReaderIsRefused reader.now (Self.table self.old slot)) }
        ensures err { OnErr result (Self.table self.new ≡ Self.table self.old) }
        ensures ids { Self.ids self.new ≡ Self.ids self.old }
    {
        match self.call_channel(slot, ChannelCall::Read(reader))? {
            ChannelReply::Events(events) => Ok(events),
            _ => unreachable!(),
        }
    }

    /// Ends a reader of a slot's events. Its number is not used again.
    final fn drop_reader(&mut self, slot: Self::Slot, reader: ReaderId) -> Result<(), Refusal>
        ensures ok { OnOk result (DropsReader (Self.table self.old) slot reader (Self.table self.new)) }
        ensures refused { IfErr result (ReaderIsRefused reader (Self.table self.old slot)) }
        ensures err { OnErr result (Self.table self.new ≡ Self.table self.old) }
        ensures ids { Self.ids self.new ≡ Self.ids self.old }
    {
        match self.call_channel(slot, ChannelCall::End(reader))? {
            ChannelReply::Done => Ok(()),
            _ => unreachable!(),
        }
    }

    /// Turns the events of a slot on or off.
    final fn set_event_emission(&mut self, slot: Self::Slot, on: bool) -> Result<(), Refusal>
        ensures ok { OnOk result (Switches (Self.table self.old) slot on (Self.table self.new)) }
        ensures refused { IfErr result (SwitchIsRefused (Self.table self.old slot)) }
        ensures err { OnErr result (Self.table self.new ≡ Self.table self.old) }
        ensures ids { Self.ids self.new ≡ Self.ids self.old }
    {
        match self.call_channel(slot, ChannelCall::Emit(on))? {
            ChannelReply::Done => Ok(()),
            _ => unreachable!(),
        }
    }

    /// Makes room for the events of a removal of the values of so many entities. It takes no memory where nobody hears of any slot, or for
    /// no entity. Nothing changes but the room.
    fn reserve_drop(&mut self, count: usize) -> Result<(), AllocError>
        ensures same { Self.table self.new ≡ Self.table self.old }
        ensures ids { Self.ids self.new ≡ Self.ids self.old }
        ensures ok { OnOk result ((s : Self.Slot) → HasRoom (room self.new s) count) }
        ensures none { count ≡ 0 → IsOk result }
        ensures unheard { ((s : Self.Slot) → WantsNone (Self.table self.old s)) → IsOk result };

    /// Removes the values at the indices of a list of entities, of each slot, in room that is there for the events.
    fn drop_all(&mut self, es: &[Entity])
        requires { (s : Self.Slot) → HasRoom (room self.old s) (length es.now) }
        ensures values { (s : Self.Slot) → Self.table self.new s ≡ option_map (without_values es.now) (Self.table self.old s) }
        ensures ids { Self.ids self.new ≡ Self.ids self.old };

    /// Equal slots are one.
    ghost exact: { (a b : Self.Slot) → Decides (Self.Slot.eq a b) (a ≡ b) };

    /// A slot without markers has no id to give.
    ghost idless: { (s : Self) (k : Self.Slot) → Self.marks.holds k ≡ false → Self.ids s k ≡ Some 0 };
}

/// A struct of storages whose values can be cloned, as the command that asks for a value does, and so a list of commands. No other call of
/// a world asks for it, so that components that can't be cloned have every other.
pub trait CloneStorages: Storages {
    /// Which values a clone of one may be, and of which slots none takes memory.
    ghost clones: { Clones Self.Slot Self.Value };

    /// A clone of the value of an entity, or none where it is not alive.
    fn get(
        &self,
        entities: &EntitiesRes,
        slot: Self::Slot,
        e: Entity,
    ) -> Result<Option<Self::Value>, Refusal>
        ensures ok { IfOk result (λ found. GetsClone clones.is_clone (population entities.now) (Self.table self.now) slot e found) }
        ensures refused { IfErr result (GetIsRefused clones (population entities.now) (Self.table self.now) slot e) };
}
