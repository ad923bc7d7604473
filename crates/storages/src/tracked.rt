//! Storages that tell of each change, and their channels.
ghost use Rattle.std.specs.Prelude.{◌≡◌, ◌+◌, ℕ, [], IsOk, false, true, is_some, OnOk, OnErr, IfOk, IfSome, MatchResult, None, Some};
ghost use Rattle.std.specs.Borrow.{sem};
ghost use Rattle.storages.specs.Unread.{unread_of, with_event, is_read};
ghost use Rattle.storages.specs.Heard.{OthersKeep};
ghost use Rattle.storages.specs.Tracking.{Rechannels, with_reader, after_read, without_reader, switched, written_by_hand};
ghost use Rattle.storages.specs.Meaning.{Keeps, HasRoom};
ghost use Rattle.storages.specs.Lent.{emitting, lends_channel, lends_slot_channel};
ghost use Rattle.storages.specs.ChannelState.{ChannelState, room_with};
ghost use Rattle.storages.specs.declared.event.ComponentEvent.{ComponentEvent};

use crate::channel::EventChannel;
use crate::event::ComponentEvent;
use crate::masked::MaskedStorage;
use crate::reader_id::{ReaderId, UnknownReader};
use crate::unprotected::{Component, UnprotectedStorage};
use std::alloc::AllocError;

/// A storage that tells of each change. Ports `specs::storage::Tracked`.
pub trait Tracked<T>: UnprotectedStorage<T> {
    // The state with another channel.
    ghost with_channel: { Self → ChannelState ComponentEvent → Self };

    /// A new reader, which has nothing to read yet.
    fn register_reader(&mut self) -> Result<ReaderId, AllocError>
        ensures number { IfOk result (λ id. id ≡ (Self.meaning self.old).channel.registered) }
        ensures fresh { unread_of (Self.meaning self.old).channel.registered (Self.meaning self.old).channel.readers ≡ None }
        ensures ok { OnOk result (Rechannels (Self.meaning self.old) (Self.meaning self.new) (with_reader (Self.meaning self.old).channel)) }
        ensures err { OnErr result (Keeps (Self.meaning self.old) (Self.meaning self.new)) };

    /// What a reader has not read, which it has read then.
    fn read(&mut self, id: &ReaderId) -> Result<Vec<ComponentEvent>, UnknownReader>
        ensures events { MatchResult result (λ v. unread_of id.now (Self.meaning self.old).channel.readers ≡ Some v.items) (λ _. unread_of id.now (Self.meaning self.old).channel.readers ≡ None) }
        ensures turned { Rechannels (Self.meaning self.old) (Self.meaning self.new) (after_read id.now (Self.meaning self.old).channel) }
        ensures unknown { OnErr result (Keeps (Self.meaning self.old) (Self.meaning self.new)) };

    /// Ends a reader.
    fn drop_reader(&mut self, id: ReaderId) -> Result<(), UnknownReader>
        ensures ok { OnOk result (is_some (unread_of id (Self.meaning self.old).channel.readers) ≡ true) }
        ensures err { OnErr result (unread_of id (Self.meaning self.old).channel.readers ≡ None) }
        ensures room { (n : ℕ) → HasRoom (Self.meaning self.old).room n → HasRoom (Self.meaning self.new).room n }
        ensures turned { Rechannels (Self.meaning self.old) (Self.meaning self.new) (without_reader id (Self.meaning self.old).channel) }
        ensures unknown { OnErr result (Keeps (Self.meaning self.old) (Self.meaning self.new)) };

    /// The channel.
    fn channel(&self) -> &EventChannel<ComponentEvent>
        ensures { emitting (Self.meaning self.now).channel.emission result.now ≡ (Self.meaning self.now).channel };

    /// The channel, to write to.
    fn channel_mut(&mut self) -> &mut EventChannel<ComponentEvent>
        ensures* writes_back { sem 𝓛 (lends_channel Self.row with_channel self.entry result) }
        ensures value { emitting (Self.meaning self.old).channel.emission result.now ≡ (Self.meaning self.old).channel }
        ensures room { (Self.meaning self.old).room ≡ room_with (Self.meaning self.old).channel.emission result.now (Self.meaning self.old).inner_room }
        ensures rooms { (c : ChannelState ComponentEvent) → (Self.meaning (with_channel self.old c)).room ≡ room_with (Self.meaning self.old).channel.emission c (Self.meaning self.old).inner_room }
        ensures turned { (c : ChannelState ComponentEvent) → Rechannels (Self.meaning self.old) (Self.meaning (with_channel self.old c)) (emitting (Self.meaning self.old).channel.emission c) };

    /// Whether events are emitted.
    fn event_emission(&self) -> bool
        ensures { result ≡ (Self.meaning self.now).channel.emission };

    /// Turns events on or off.
    fn set_event_emission(&mut self, on: bool)
        ensures turned { Rechannels (Self.meaning self.old) (Self.meaning self.new) (switched on (Self.meaning self.old).channel) }
        ensures off { on ≡ false → (Self.meaning self.new).room ≡ (Self.meaning self.new).inner_room }
        ensures idle { on ≡ (Self.meaning self.old).channel.emission → (Self.meaning self.new).room ≡ (Self.meaning self.old).room };
}

impl<T: Component> MaskedStorage<T>
where
    T::Storage: Tracked<T>,
{
    ghost use Rattle.storages.specs.Slot.{IsSame};
    ghost use Rattle.storages.specs.Tracking.{Turns};

    /// A new reader, which has nothing to read yet.
    #[tactic(auto, using(crate::specs::Heard::registered_unread, crate::specs::Heard::registered_others))]
    pub fn register_reader(&mut self) -> Result<ReaderId, AllocError>
        ensures number { IfOk result (λ id. id ≡ self.old.channel.registered) }
        ensures fresh { unread_of self.old.channel.registered self.old.channel.readers ≡ None }
        ensures ok { OnOk result (Turns self.old self.new (with_reader self.old.channel)) }
        ensures begins { IfOk result (λ id. unread_of id self.new.channel.readers ≡ Some []) }
        ensures others { IfOk result (λ id. OthersKeep id self.old.channel self.new.channel) }
        ensures err { OnErr result (IsSame self.old self.new) }
    {
        self.inner.register_reader()
    }

    /// What a reader has not read, which it has read then.
    #[inline(always)]
    #[tactic(auto, using(crate::specs::Heard::emptied_unread, crate::specs::Heard::emptied_others))]
    pub fn read(&mut self, id: &ReaderId) -> Result<Vec<ComponentEvent>, UnknownReader>
        ensures events { MatchResult result (λ v. unread_of id.now self.old.channel.readers ≡ Some v.items) (λ _. unread_of id.now self.old.channel.readers ≡ None) }
        ensures turned { Turns self.old self.new (after_read id.now self.old.channel) }
        ensures nothing { OnOk result (unread_of id.now self.new.channel.readers ≡ Some []) }
        ensures others { OthersKeep id.now self.old.channel self.new.channel }
        ensures unknown { OnErr result (IsSame self.old self.new) }
    {
        self.inner.read(id)
    }

    /// Ends a reader. Its number is not used again.
    #[tactic(auto, using(crate::specs::Heard::dropped_gone, crate::specs::Heard::dropped_others))]
    pub fn drop_reader(&mut self, id: ReaderId) -> Result<(), UnknownReader>
        ensures ok { OnOk result (is_some (unread_of id self.old.channel.readers) ≡ true) }
        ensures err { OnErr result (unread_of id self.old.channel.readers ≡ None) }
        ensures room { (n : ℕ) → HasRoom self.old.room n → HasRoom self.new.room n }
        ensures turned { Turns self.old self.new (without_reader id self.old.channel) }
        ensures gone { unread_of id self.new.channel.readers ≡ None }
        ensures others { OthersKeep id self.old.channel self.new.channel }
        ensures unknown { OnErr result (IsSame self.old self.new) }
    {
        self.inner.drop_reader(id)
    }

    /// The channel.
    pub fn channel(&self) -> &EventChannel<ComponentEvent>
        ensures { emitting self.now.channel.emission result.now ≡ self.now.channel }
    {
        self.inner.channel()
    }

    /// Whether events are emitted.
    pub fn event_emission(&self) -> bool
        ensures { result ≡ self.now.channel.emission }
    {
        self.inner.event_emission()
    }

    /// The channel, to write to.
    pub fn channel_mut(&mut self) -> Option<&mut EventChannel<ComponentEvent>>
        ensures* writes_back { sem 𝓛 (lends_slot_channel T.row T.Storage.row T.Storage.meaning self.entry result) }
        ensures value { IfSome result (λ c. emitting self.old.channel.emission c.now ≡ self.old.channel) }
        ensures room { IfSome result (λ c. self.old.room ≡ room_with self.old.channel.emission c.now self.old.inner_room) }
        ensures there { is_some result ≡ true }
    {
        Some(self.inner.channel_mut())
    }

    /// Writes an event by hand, also while emission is off.
    #[tactic(auto, using(crate::proofs::Telling::flag_needs, crate::proofs::Telling::flag_rest, crate::proofs::Telling::flag_ready, crate::proofs::Telling::flag_unheard, crate::specs::Heard::written_unread))]
    pub fn flag(&mut self, event: ComponentEvent) -> Result<(), AllocError>
        ensures ok { OnOk result (Turns self.old self.new (written_by_hand event self.old.channel)) }
        ensures told { OnOk result ((n : ℕ) → unread_of n self.new.channel.readers ≡ with_event event (unread_of n self.old.channel.readers)) }
        ensures needs_room { is_some self.new.room ≡ is_some self.old.room }
        ensures room { OnOk result ((n : ℕ) → HasRoom self.old.room (n + 1) → HasRoom self.new.room n) }
        ensures err { OnErr result (IsSame self.old self.new) }
        ensures inner_room { self.new.inner_room ≡ self.old.inner_room }
        ensures succeeds { self.old.channel.emission ≡ true → HasRoom self.old.room 1 → IsOk result }
        ensures unheard { is_read self.old.channel.readers ≡ false → IsOk result }
    {
        match self.channel_mut() {
            Some(channel) => channel.single_write(event),
            None => unreachable!(),
        }
    }

    /// Turns events on or off.
    pub fn set_event_emission(&mut self, on: bool)
        ensures turned { Turns self.old self.new (switched on self.old.channel) }
        ensures off { on ≡ false → self.new.room ≡ self.new.inner_room }
        ensures idle { on ≡ self.old.channel.emission → self.new.room ≡ self.old.room }
    {
        self.inner.set_event_emission(on);
    }
}
