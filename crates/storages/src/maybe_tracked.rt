//! Storages that may tell of each change: the calls on a channel, where there is one.
ghost use Rattle.std.specs.Prelude.{refl, ◌≡◌, ℕ, [], true, false, is_some, OnOk, OnErr, IfOk, MatchResult, None, Some};
ghost use Rattle.storages.specs.Unread.{unread_of};
ghost use Rattle.storages.specs.Heard.{OthersKeep};
ghost use Rattle.storages.specs.Tracking.{Rechannels, with_reader, after_read, without_reader, switched};
ghost use Rattle.storages.specs.Channel.{silent};
ghost use Rattle.storages.specs.Meaning.{Keeps, HasRoom};

use crate::event::ComponentEvent;
use crate::flagged::FlaggedStorage;
use crate::kinds::{
    BTreeStorage, DefaultVecStorage, DenseVecStorage, HashMapStorage, NullComponent, NullStorage,
    VecStorage,
};
use crate::masked::MaskedStorage;
use crate::reader_id::{ReaderId, UnknownReader};
use crate::tracked::Tracked;
use crate::unprotected::{Component, Kind, UnprotectedStorage};
use std::alloc::AllocError;

/// How a storage of components `T` answers the calls of `Tracked`, whether it is tracked or not. Not in specs.
pub trait ReaderCalls<T, S: Kind<T>> {
    /// Whether the storage is tracked.
    fn is_tracked(storage: &S) -> bool
        ensures { result ≡ (S.meaning storage.now).channel.tracked };

    /// A new reader, which has nothing to read yet. An untracked storage has none.
    fn new_reader(storage: &mut S) -> Result<ReaderId, AllocError>
        ensures number { IfOk result (λ id. id ≡ (S.meaning storage.old).channel.registered) }
        ensures fresh { unread_of (S.meaning storage.old).channel.registered (S.meaning storage.old).channel.readers ≡ None }
        ensures ok { OnOk result (Rechannels (S.meaning storage.old) (S.meaning storage.new) (with_reader (S.meaning storage.old).channel)) }
        ensures err { OnErr result (Keeps (S.meaning storage.old) (S.meaning storage.new)) };

    /// What a reader has not read, which it has read then. An untracked storage knows no reader.
    fn read_events(storage: &mut S, id: &ReaderId) -> Result<Vec<ComponentEvent>, UnknownReader>
        ensures events { MatchResult result (λ v. unread_of id.now (S.meaning storage.old).channel.readers ≡ Some v.items) (λ _. unread_of id.now (S.meaning storage.old).channel.readers ≡ None) }
        ensures turned { Rechannels (S.meaning storage.old) (S.meaning storage.new) (after_read id.now (S.meaning storage.old).channel) }
        ensures unknown { OnErr result (Keeps (S.meaning storage.old) (S.meaning storage.new)) };

    /// Ends a reader. An untracked storage knows none.
    fn end_reader(storage: &mut S, id: ReaderId) -> Result<(), UnknownReader>
        ensures ok { OnOk result (is_some (unread_of id (S.meaning storage.old).channel.readers) ≡ true) }
        ensures err { OnErr result (unread_of id (S.meaning storage.old).channel.readers ≡ None) }
        ensures room { (n : ℕ) → HasRoom (S.meaning storage.old).room n → HasRoom (S.meaning storage.new).room n }
        ensures turned { Rechannels (S.meaning storage.old) (S.meaning storage.new) (without_reader id (S.meaning storage.old).channel) }
        ensures unknown { OnErr result (Keeps (S.meaning storage.old) (S.meaning storage.new)) };

    /// Turns events on or off. An untracked storage stays as it is.
    fn emit_events(storage: &mut S, on: bool)
        ensures tracked { (S.meaning storage.old).channel.tracked ≡ true → Rechannels (S.meaning storage.old) (S.meaning storage.new) (switched on (S.meaning storage.old).channel) }
        ensures off { on ≡ false → (S.meaning storage.old).channel.tracked ≡ true → (S.meaning storage.new).room ≡ (S.meaning storage.new).inner_room }
        ensures idle { on ≡ (S.meaning storage.old).channel.emission → (S.meaning storage.new).room ≡ (S.meaning storage.old).room }
        ensures untracked { (S.meaning storage.old).channel.tracked ≡ false → storage.new ≡ storage.old };
}

/// A storage that tells of nothing. Not in specs.
pub trait Silent<T>: Kind<T> {
    // Its channel is the one to which nobody listens.
    ghost quiet: { (s : Self) → (Self.meaning s).channel ≡ silent };
}

/// As a storage without a channel answers: it has no reader and knows none. Not in specs.
pub struct NoReaders;

impl<T, S: Silent<T>> ReaderCalls<T, S> for NoReaders {
    fn is_tracked(_storage: &S) -> bool {
        false
    }

    fn new_reader(_storage: &mut S) -> Result<ReaderId, AllocError> {
        Err(AllocError)
    }

    fn read_events(_storage: &mut S, _id: &ReaderId) -> Result<Vec<ComponentEvent>, UnknownReader> {
        Err(UnknownReader)
    }

    fn end_reader(_storage: &mut S, _id: ReaderId) -> Result<(), UnknownReader> {
        Err(UnknownReader)
    }

    fn emit_events(_storage: &mut S, _on: bool) {}
}

/// As a storage with a channel answers. Not in specs.
pub struct WithReaders;

impl<C: Drop, T: UnprotectedStorage<C>> ReaderCalls<C, FlaggedStorage<C, T>> for WithReaders {
    fn is_tracked(_storage: &FlaggedStorage<C, T>) -> bool {
        true
    }

    fn new_reader(storage: &mut FlaggedStorage<C, T>) -> Result<ReaderId, AllocError> {
        storage.register_reader()
    }

    #[inline(always)]
    fn read_events(
        storage: &mut FlaggedStorage<C, T>,
        id: &ReaderId,
    ) -> Result<Vec<ComponentEvent>, UnknownReader> {
        storage.read(id)
    }

    fn end_reader(storage: &mut FlaggedStorage<C, T>, id: ReaderId) -> Result<(), UnknownReader> {
        storage.drop_reader(id)
    }

    fn emit_events(storage: &mut FlaggedStorage<C, T>, on: bool) {
        storage.set_event_emission(on);
    }
}

/// A storage, tracked or not: so storages of any kind can be held by one struct. Not in specs.
pub trait MaybeTracked<T>: UnprotectedStorage<T> {
    /// How it answers the calls of `Tracked`.
    type Readers: ReaderCalls<T, Self>;
}

impl<C: Drop, T: UnprotectedStorage<C>> MaybeTracked<C> for FlaggedStorage<C, T> {
    type Readers = WithReaders;
}

impl<T: Drop> Silent<T> for VecStorage<T> {
    ghost quiet = { λ s. refl };
}

impl<T: Drop> MaybeTracked<T> for VecStorage<T> {
    type Readers = NoReaders;
}

impl<T: Drop> Silent<T> for DenseVecStorage<T> {
    ghost quiet = { λ s. refl };
}

impl<T: Drop> MaybeTracked<T> for DenseVecStorage<T> {
    type Readers = NoReaders;
}

impl<T: Default + Drop> Silent<T> for DefaultVecStorage<T> {
    ghost quiet = { λ s. refl };
}

impl<T: Default + Drop> MaybeTracked<T> for DefaultVecStorage<T> {
    type Readers = NoReaders;
}

impl<T: Drop> Silent<T> for HashMapStorage<T> {
    ghost quiet = { λ s. refl };
}

impl<T: Drop> MaybeTracked<T> for HashMapStorage<T> {
    type Readers = NoReaders;
}

impl<T: Drop> Silent<T> for BTreeStorage<T> {
    ghost quiet = { λ s. refl };
}

impl<T: Drop> MaybeTracked<T> for BTreeStorage<T> {
    type Readers = NoReaders;
}

impl<T: NullComponent> Silent<T> for NullStorage<T> {
    ghost quiet = { λ s. refl };
}

impl<T: NullComponent> MaybeTracked<T> for NullStorage<T> {
    type Readers = NoReaders;
}

impl<T: Component> MaskedStorage<T>
where
    T::Storage: MaybeTracked<T>,
{
    ghost use Rattle.storages.specs.Slot.{IsSame};
    ghost use Rattle.storages.specs.Tracking.{Turns};

    /// Whether the storage is tracked.
    pub fn is_tracked(&self) -> bool
        ensures { result ≡ self.now.channel.tracked }
    {
        <T::Storage as MaybeTracked<T>>::Readers::is_tracked(&self.inner)
    }

    /// A new reader of a tracked storage, which has nothing to read yet.
    #[tactic(auto, using(crate::specs::Heard::registered_unread, crate::specs::Heard::registered_others))]
    pub fn new_reader(&mut self) -> Result<ReaderId, AllocError>
        requires { self.old.channel.tracked ≡ true }
        ensures number { IfOk result (λ id. id ≡ self.old.channel.registered) }
        ensures fresh { unread_of self.old.channel.registered self.old.channel.readers ≡ None }
        ensures ok { OnOk result (Turns self.old self.new (with_reader self.old.channel)) }
        ensures begins { IfOk result (λ id. unread_of id self.new.channel.readers ≡ Some []) }
        ensures others { IfOk result (λ id. OthersKeep id self.old.channel self.new.channel) }
        ensures err { OnErr result (IsSame self.old self.new) }
    {
        <T::Storage as MaybeTracked<T>>::Readers::new_reader(&mut self.inner)
    }

    /// What a reader of a tracked storage has not read, which it has read then.
    #[tactic(auto, using(crate::specs::Heard::emptied_unread, crate::specs::Heard::emptied_others))]
    pub fn read_events(&mut self, id: &ReaderId) -> Result<Vec<ComponentEvent>, UnknownReader>
        requires { self.old.channel.tracked ≡ true }
        ensures events { MatchResult result (λ v. unread_of id.now self.old.channel.readers ≡ Some v.items) (λ _. unread_of id.now self.old.channel.readers ≡ None) }
        ensures turned { Turns self.old self.new (after_read id.now self.old.channel) }
        ensures nothing { OnOk result (unread_of id.now self.new.channel.readers ≡ Some []) }
        ensures others { OthersKeep id.now self.old.channel self.new.channel }
        ensures unknown { OnErr result (IsSame self.old self.new) }
    {
        <T::Storage as MaybeTracked<T>>::Readers::read_events(&mut self.inner, id)
    }

    /// Ends a reader of a tracked storage. Its number is not used again.
    #[tactic(auto, using(crate::specs::Heard::dropped_gone, crate::specs::Heard::dropped_others))]
    pub fn end_reader(&mut self, id: ReaderId) -> Result<(), UnknownReader>
        requires { self.old.channel.tracked ≡ true }
        ensures ok { OnOk result (is_some (unread_of id self.old.channel.readers) ≡ true) }
        ensures err { OnErr result (unread_of id self.old.channel.readers ≡ None) }
        ensures room { (n : ℕ) → HasRoom self.old.room n → HasRoom self.new.room n }
        ensures turned { Turns self.old self.new (without_reader id self.old.channel) }
        ensures gone { unread_of id self.new.channel.readers ≡ None }
        ensures others { OthersKeep id self.old.channel self.new.channel }
        ensures unknown { OnErr result (IsSame self.old self.new) }
    {
        <T::Storage as MaybeTracked<T>>::Readers::end_reader(&mut self.inner, id)
    }

    /// Turns the events of a tracked storage on or off.
    pub fn emit_events(&mut self, on: bool)
        requires { self.old.channel.tracked ≡ true }
        ensures turned { Turns self.old self.new (switched on self.old.channel) }
        ensures off { on ≡ false → self.new.room ≡ self.new.inner_room }
        ensures idle { on ≡ self.old.channel.emission → self.new.room ≡ self.old.room }
    {
        <T::Storage as MaybeTracked<T>>::Readers::emit_events(&mut self.inner, on);
    }
}
