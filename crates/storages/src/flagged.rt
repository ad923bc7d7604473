//! A storage that tells of each change.
ghost use Rattle.std.specs.Prelude.{◌≡◌, ◌+◌, ◌&&◌, ◌||◌, ℕ, true, length, is_some};
ghost use Rattle.storages.specs.Unread.{is_read};
ghost use Rattle.hibits.specs.Left.{left};
ghost use Rattle.hibits.specs.Sets.{has_part};
ghost use Rattle.storages.specs.Channel.{written_removals};
ghost use Rattle.storages.specs.Meaning.{HasRoom};
ghost use Rattle.storages.specs.ChannelState.{room_in};

use crate::channel::EventChannel;
use crate::event::ComponentEvent;
use crate::kinds::DenseVecStorage;
use crate::reader_id::{ReaderId, UnknownReader};
use crate::tracked::Tracked;
use crate::unprotected::{Kind, TryDefault, UnprotectedStorage};
use hibits::{BitSet, Index};
use std::alloc::{AllocError, Global};
use std::marker::PhantomData;

/// A storage that writes an event at each change. Ports `specs::storage::FlaggedStorage`.
pub struct FlaggedStorage<C, T = DenseVecStorage<C>> {
    channel: EventChannel<ComponentEvent>,
    storage: T,
    event_emission: bool,
    phantom: PhantomData<C>,
}

impl<C, T: Drop> Drop for FlaggedStorage<C, T> {
    fn drop(self) {
        let FlaggedStorage {
            channel: _channel,
            storage: _storage,
            event_emission: _event_emission,
            phantom: _phantom,
        } = self;
    }
}

impl<C, T: TryDefault> TryDefault for FlaggedStorage<C, T> {
    ghost use Rattle.storages.specs.Flagged.{IsNewFlagged};

    ghost IsDefault = { λ s. IsNewFlagged T.IsDefault s.storage s.channel s.event_emission };

    ghost TakesNone = { T.TakesNone };

    fn try_default(alloc: Global) -> Result<Self, String> {
        Ok(FlaggedStorage {
            channel: EventChannel::new(alloc),
            storage: T::try_default(alloc)?,
            event_emission: true,
            phantom: PhantomData,
        })
    }
}

impl<C, T: Kind<C>> Kind<C> for FlaggedStorage<C, T> {
    ghost use Rattle.storages.specs.Flagged.{flagged};

    ghost meaning = { λ s. flagged s.event_emission s.channel (T.meaning s.storage) };
}

impl<C: Drop, T: UnprotectedStorage<C>> UnprotectedStorage<C> for FlaggedStorage<C, T> {
    ghost use Rattle.storages.specs.Flagged.{flagged, new_of_new, wanted_by_readers};

    fn clean(&mut self, has: &BitSet) -> Result<(), AllocError> {
        if !self.event_emission || !self.channel.has_readers() {
            return self.storage.clean(has);
        }
        self.channel.reserve(has.count())?;
        self.storage.clean(has)?;
        write_removals(&mut self.channel, has);
        Ok(())
    }

    #[inline(always)]
    fn get(&self, id: Index) -> &C {
        self.storage.get(id)
    }

    #[inline(always)]
    fn get_mut(&mut self, id: Index) -> Result<&mut C, AllocError> {
        if !self.event_emission {
            return self.storage.get_mut(id);
        }
        self.channel.reserve(1)?;
        self.storage.reserve_events(1)?;
        self.channel.write_reserved(ComponentEvent::Modified(id));
        self.storage.get_mut(id)
    }

    #[inline(always)]
    fn insert(&mut self, id: Index, value: C) -> Result<(), (AllocError, C)> {
        if !self.event_emission {
            return self.storage.insert(id, value);
        }
        match self.channel.reserve(1) {
            Ok(()) => {}
            Err(e) => return Err((e, value)),
        }
        match self.storage.insert(id, value) {
            Ok(()) => {}
            Err(e) => return Err(e),
        }
        self.channel.write_reserved(ComponentEvent::Inserted(id));
        Ok(())
    }

    #[inline(always)]
    fn remove(&mut self, id: Index) -> Result<C, AllocError> {
        if self.event_emission {
            self.channel.reserve(1)?;
        }
        let value = self.storage.remove(id)?;
        if self.event_emission {
            self.channel.write_reserved(ComponentEvent::Removed(id));
        }
        Ok(value)
    }

    #[inline(always)]
    fn drop(&mut self, id: Index) {
        self.storage.drop(id);
        if self.event_emission {
            self.channel.write_reserved(ComponentEvent::Removed(id));
        }
    }

    fn reserve_events(&mut self, n: usize) -> Result<(), AllocError> {
        if self.event_emission {
            self.channel.reserve(n)?;
        }
        self.storage.reserve_events(n)
    }

    #[inline(always)]
    fn needs_room(&self) -> bool
        ensures told { result ≡ is_some (flagged self.now.event_emission self.now.channel (T.meaning self.now.storage)).room }
        ensures exact { result ≡ ((self.now.event_emission && is_read self.now.channel.readers) || is_some (T.meaning self.now.storage).room) }
    {
        (self.event_emission && self.channel.has_readers()) || self.storage.needs_room()
    }

    ghost default_is_new = { λ s e. new_of_new s.event_emission s.channel (T.meaning s.storage) (T.default_is_new s.storage e.storage) e.registered e.readers e.emission_is_on };

    ghost room_is_wanted = { λ s. wanted_by_readers s.event_emission s.channel (T.meaning s.storage) };
}

impl<C: Drop, T: UnprotectedStorage<C>> Tracked<C> for FlaggedStorage<C, T> {
    ghost with_channel = { λ s c. record s { channel = c } };

    fn register_reader(&mut self) -> Result<ReaderId, AllocError> {
        self.channel.register_reader()
    }

    #[inline(always)]
    fn read(&mut self, id: &ReaderId) -> Result<Vec<ComponentEvent>, UnknownReader> {
        self.channel.read(id)
    }

    fn drop_reader(&mut self, id: ReaderId) -> Result<(), UnknownReader> {
        self.channel.drop_reader(id)
    }

    fn channel(&self) -> &EventChannel<ComponentEvent> {
        &self.channel
    }

    fn channel_mut(&mut self) -> &mut EventChannel<ComponentEvent> {
        &mut self.channel
    }

    fn event_emission(&self) -> bool {
        self.event_emission
    }

    fn set_event_emission(&mut self, on: bool) {
        self.event_emission = on;
    }
}

// Writes the removals of the members of a set, ascending, in room that is there.
fn write_removals(channel: &mut EventChannel<ComponentEvent>, has: &BitSet)
    requires { HasRoom (room_in channel.old) (length (left (has_part has.now.members 0) 0)) }
    ensures readers { channel.new.readers ≡ written_removals (left (has_part has.now.members 0) 0) channel.old.readers }
    ensures registered { channel.new.registered ≡ channel.old.registered }
    ensures needs_room { is_some (room_in channel.new) ≡ is_some (room_in channel.old) }
    ensures room { (n : ℕ) → HasRoom (room_in channel.old) (length (left (has_part has.now.members 0) 0) + n) → HasRoom (room_in channel.new) n }
{
    for id in has.iter() {
        channel.write_reserved(ComponentEvent::Removed(id));
    }
}
