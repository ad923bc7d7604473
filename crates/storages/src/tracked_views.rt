//! The channels of storages beside the entities.
ghost use Rattle.std.specs.Prelude.{◌≡◌, ◌+◌, ℕ, [], IsOk, false, true, is_some, OnOk, OnErr, IfOk, MatchResult, None, Some};
ghost use Rattle.storages.specs.Unread.{unread_of, with_event, is_read};
ghost use Rattle.storages.specs.Heard.{OthersKeep};
ghost use Rattle.storages.specs.Tracking.{Turns, with_reader, after_read, without_reader, switched, written_by_hand};
ghost use Rattle.storages.specs.Slot.{IsSame};
ghost use Rattle.storages.specs.Meaning.{HasRoom};
ghost use Rattle.storages.specs.Lent.{emitting};

use crate::channel::EventChannel;
use crate::event::ComponentEvent;
use crate::read_storage::ReadStorage;
use crate::reader_id::{ReaderId, UnknownReader};
use crate::tracked::Tracked;
use crate::unprotected::Component;
use crate::write_storage::WriteStorage;
use std::alloc::AllocError;

impl<'a, T: Component> ReadStorage<'a, T>
where
    T::Storage: Tracked<T>,
{
    ghost use Rattle.storages.specs.ReadView.{slot};

    /// The channel of the storage's events. Ports `Storage::channel`.
    pub fn channel(&self) -> &EventChannel<ComponentEvent>
        ensures { emitting (slot self.now).channel.emission result.now ≡ (slot self.now).channel }
    {
        self.storage().channel()
    }

    /// Whether events are emitted. Ports `Storage::event_emission`.
    pub fn event_emission(&self) -> bool
        ensures { result ≡ (slot self.now).channel.emission }
    {
        self.storage().event_emission()
    }
}

impl<'a, T: Component> WriteStorage<'a, T>
where
    T::Storage: Tracked<T>,
{
    ghost use Rattle.storages.specs.WriteView.{slot, entities_of, storage_name};

    /// A new reader, which has nothing to read yet. Ports `Storage::register_reader`.
    ///
    /// Where memory is refused nothing has changed. A channel that gave 2^64 - 1 numbers out gives no more, and says so as want
    /// of memory.
    pub fn register_reader(&mut self) -> Result<ReaderId, AllocError>
        ensures number { IfOk result (λ id. id ≡ (slot self.old).channel.registered) }
        ensures fresh { unread_of (slot self.old).channel.registered (slot self.old).channel.readers ≡ None }
        ensures ok { OnOk result (Turns (slot self.old) (slot self.new) (with_reader (slot self.old).channel)) }
        ensures begins { IfOk result (λ id. unread_of id (slot self.new).channel.readers ≡ Some []) }
        ensures others { IfOk result (λ id. OthersKeep id (slot self.old).channel (slot self.new).channel) }
        ensures err { OnErr result (IsSame (slot self.old) (slot self.new)) }
        ensures entities { entities_of self.new ≡ entities_of self.old }
        ensures same_reference { storage_name self.new ≡ storage_name self.old }
    {
        self.data.register_reader()
    }

    /// What a reader has not read, in the order of the events, which it has read then. It takes no memory. Ports
    /// `EventChannel::read`.
    #[inline(always)]
    pub fn read(&mut self, id: &ReaderId) -> Result<Vec<ComponentEvent>, UnknownReader>
        ensures events { MatchResult result (λ v. unread_of id.now (slot self.old).channel.readers ≡ Some v.items) (λ _. unread_of id.now (slot self.old).channel.readers ≡ None) }
        ensures turned { Turns (slot self.old) (slot self.new) (after_read id.now (slot self.old).channel) }
        ensures nothing { OnOk result (unread_of id.now (slot self.new).channel.readers ≡ Some []) }
        ensures others { OthersKeep id.now (slot self.old).channel (slot self.new).channel }
        ensures unknown { OnErr result (IsSame (slot self.old) (slot self.new)) }
        ensures entities { entities_of self.new ≡ entities_of self.old }
        ensures same_reference { storage_name self.new ≡ storage_name self.old }
    {
        self.data.read(id)
    }

    /// Ends a reader, whose number is not used again.
    pub fn drop_reader(&mut self, id: ReaderId) -> Result<(), UnknownReader>
        ensures ok { OnOk result (is_some (unread_of id (slot self.old).channel.readers) ≡ true) }
        ensures err { OnErr result (unread_of id (slot self.old).channel.readers ≡ None) }
        ensures room { (n : ℕ) → HasRoom (slot self.old).room n → HasRoom (slot self.new).room n }
        ensures turned { Turns (slot self.old) (slot self.new) (without_reader id (slot self.old).channel) }
        ensures gone { unread_of id (slot self.new).channel.readers ≡ None }
        ensures others { OthersKeep id (slot self.old).channel (slot self.new).channel }
        ensures unknown { OnErr result (IsSame (slot self.old) (slot self.new)) }
        ensures entities { entities_of self.new ≡ entities_of self.old }
        ensures same_reference { storage_name self.new ≡ storage_name self.old }
    {
        self.data.drop_reader(id)
    }

    /// Writes an event by hand, also while emission is off. Where memory is refused no reader has got it. Ports `Storage::flag`.
    pub fn flag(&mut self, event: ComponentEvent) -> Result<(), AllocError>
        ensures ok { OnOk result (Turns (slot self.old) (slot self.new) (written_by_hand event (slot self.old).channel)) }
        ensures told { OnOk result ((n : ℕ) → unread_of n (slot self.new).channel.readers ≡ with_event event (unread_of n (slot self.old).channel.readers)) }
        ensures needs_room { is_some (slot self.new).room ≡ is_some (slot self.old).room }
        ensures room { OnOk result ((n : ℕ) → HasRoom (slot self.old).room (n + 1) → HasRoom (slot self.new).room n) }
        ensures err { OnErr result (IsSame (slot self.old) (slot self.new)) }
        ensures inner_room { (slot self.new).inner_room ≡ (slot self.old).inner_room }
        ensures succeeds { (slot self.old).channel.emission ≡ true → HasRoom (slot self.old).room 1 → IsOk result }
        ensures unheard { is_read (slot self.old).channel.readers ≡ false → IsOk result }
        ensures entities { entities_of self.new ≡ entities_of self.old }
        ensures same_reference { storage_name self.new ≡ storage_name self.old }
    {
        self.data.flag(event)
    }

    /// The channel of the storage's events. Ports `Storage::channel`.
    pub fn channel(&self) -> &EventChannel<ComponentEvent>
        ensures { emitting (slot self.now).channel.emission result.now ≡ (slot self.now).channel }
    {
        self.storage().channel()
    }

    /// Whether events are emitted. Ports `Storage::event_emission`.
    pub fn event_emission(&self) -> bool
        ensures { result ≡ (slot self.now).channel.emission }
    {
        self.storage().event_emission()
    }

    /// Turns events on or off. Ports `Storage::set_event_emission`.
    pub fn set_event_emission(&mut self, on: bool)
        ensures slot { Turns (slot self.old) (slot self.new) (switched on (slot self.old).channel) }
        ensures off { on ≡ false → (slot self.new).room ≡ (slot self.new).inner_room }
        ensures idle { on ≡ (slot self.old).channel.emission → (slot self.new).room ≡ (slot self.old).room }
        ensures entities { entities_of self.new ≡ entities_of self.old }
        ensures same_reference { storage_name self.new ≡ storage_name self.old }
    {
        self.data.set_event_emission(on);
    }
}
