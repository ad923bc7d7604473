//! The index.
ghost use Rattle.std.specs.Prelude.{◌≡◌, ℕ, None, Some, [], Err, false, true, IsOk, IfOk, OnOk, OnErr, IfErr};
ghost use Rattle.storages.specs.WriteView.{slot, entities_of, storage_name};
ghost use Rattle.storages.specs.Meaning.{HasRoom};
ghost use Rattle.storages.specs.Slot.{IsSame};
ghost use Rattle.storages.specs.Tracking.{Turns, with_reader, after_read, without_reader};
ghost use Rattle.storages.specs.Unread.{unread_of};
ghost use Rattle.storages.specs.Heard.{OthersKeep};
ghost use Rattle.key_index.specs.Keys.{key_at, indices_with};
ghost use Rattle.key_index.specs.Indexed.{Covers, FollowsSlot, IsIndexOf, Keeps};

use crate::following::{all_keys, follow};
use crate::key_lists::KeyLists;
use crate::key_of::KeyOf;
use hibits::Index;
use std::alloc::{AllocError, Global};
use std::marker::PhantomData;
use storages::{Component, ReaderId, Tracked, WriteStorage};
use thiserror::Error;

/// Why an index was not brought up to its storage.
#[derive(Clone, Copy, PartialEq, Eq, Debug, Error)]
pub enum IndexError {
    /// The index's reader is not registered. Nothing has changed.
    #[error("unknown reader")]
    UnknownReader,
    /// There is no memory: the index is stale.
    #[error("out of memory")]
    OutOfMemory,
}

/// The index found no memory when it was to follow its storage, and has not since.
#[derive(Clone, Copy, PartialEq, Eq, Debug)]
pub struct Stale;

/// The components of a tracked storage by a key, kept from the storage's events.
#[derive(Drop)]
pub struct KeyIndex<T, K: KeyOf<T>> {
    lists: KeyLists<K::Key>,
    key: K,
    reader: ReaderId,
    stale: bool,
    alloc: Global,
    of: PhantomData<T>,
}

impl<T: Component, K: KeyOf<T>> KeyIndex<T, K>
where
    T::Storage: Tracked<T>,
{
    /// An index of what a storage has now. As its last step it registers a reader; a refusal registers none.
    pub fn new(alloc: Global, key: K, storage: &mut WriteStorage<'_, T>) -> Result<Self, AllocError>
    where
        K: Drop,
        ensures key { IfOk result (λ x. x.key ≡ key) }
        ensures fresh { IfOk result (λ x. x.stale ≡ false) }
        ensures reader { IfOk result (λ x. x.reader ≡ (slot storage.old).channel.registered) }
        ensures unused { IfOk result (λ x. unread_of x.reader (slot storage.old).channel.readers ≡ None) }
        ensures begins { IfOk result (λ x. unread_of x.reader (slot storage.new).channel.readers ≡ Some []) }
        ensures others { IfOk result (λ x. OthersKeep x.reader (slot storage.old).channel (slot storage.new).channel) }
        ensures keeps { IfOk result (λ x. Keeps (K.key key) x.lists (slot storage.new)) }
        ensures slot { OnOk result (Turns (slot storage.old) (slot storage.new) (with_reader (slot storage.old).channel)) }
        ensures err { OnErr result (IsSame (slot storage.old) (slot storage.new)) }
        ensures entities { entities_of storage.new ≡ entities_of storage.old }
        ensures same_reference { storage_name storage.new ≡ storage_name storage.old }
    {
        let lists = all_keys(alloc, &key, storage.storage())?;
        let reader = storage.register_reader()?;
        Ok(KeyIndex {
            lists,
            key,
            reader,
            stale: false,
            alloc,
            of: PhantomData,
        })
    }

    /// The ascending list of the indices whose component has a key, and the empty one where no component has it. It takes no memory.
    pub fn at(&self, key: K::Key) -> Result<&[Index], Stale>
        ensures ok { IfOk result (λ xs. xs.now ≡ indices_with K.Key.cmp (key_at self.now.lists) key) }
        ensures fresh { OnOk result (self.now.stale ≡ false) }
        ensures stale { OnErr result (self.now.stale ≡ true) }
    {
        if self.stale {
            return Err(Stale);
        }
        Ok(self.lists.at(key))
    }

    /// The reader of the storage's events.
    pub fn reader(&self) -> &ReaderId
        ensures { result.now ≡ self.now.reader }
    {
        &self.reader
    }

    /// Reads the events, and brings the indices that stand in them up to the storage now; a stale index is built from the storage. It takes what
    /// the reading takes, and for each index that stands in events, once, a search in the lists of two keys. Where it is not stale and nothing is unread, it takes
    /// no memory, and succeeds. Where events were turned off, or written by hand, it follows what was told, and each index that stands in no event keeps its key. Then it
    /// may not be the storage's: `ok` and `keeps` ask that each index of which it keeps another key stands in an event.
    pub fn refresh(&mut self, storage: &mut WriteStorage<'_, T>) -> Result<(), IndexError>
        ensures ok { (self.old.stale ≡ false → Covers (K.key self.old.key) self.old.lists self.old.reader (slot storage.old)) → OnOk result (IsIndexOf (K.key self.old.key) K.Key.cmp self.new.lists (slot storage.new)) }
        ensures keeps { (self.old.stale ≡ false → Covers (K.key self.old.key) self.old.lists self.old.reader (slot storage.old)) → OnOk result (Keeps (K.key self.old.key) self.new.lists (slot storage.new)) }
        ensures follows { self.old.stale ≡ false → OnOk result (FollowsSlot K.key self.old self.new (slot storage.old) (slot storage.new)) }
        ensures idle { self.old.stale ≡ false → unread_of self.old.reader (slot storage.old).channel.readers ≡ Some [] → IsOk result }
        ensures fresh { OnOk result (self.new.stale ≡ false) }
        ensures memory { result ≡ Err IndexError.OutOfMemory → self.new.stale ≡ true }
        ensures unknown { result ≡ Err IndexError.UnknownReader → unread_of self.old.reader (slot storage.old).channel.readers ≡ None }
        ensures unregistered { unread_of self.old.reader (slot storage.old).channel.readers ≡ None → result ≡ Err IndexError.UnknownReader }
        ensures unchanged { result ≡ Err IndexError.UnknownReader → self.new ≡ self.old }
        ensures rest { result ≡ Err IndexError.UnknownReader → IsSame (slot storage.old) (slot storage.new) }
        ensures slot { Turns (slot storage.old) (slot storage.new) (after_read self.old.reader (slot storage.old).channel) }
        ensures nothing { OnOk result (unread_of self.old.reader (slot storage.new).channel.readers ≡ Some []) }
        ensures others { OthersKeep self.old.reader (slot storage.old).channel (slot storage.new).channel }
        ensures key { self.new.key ≡ self.old.key }
        ensures reader { self.new.reader ≡ self.old.reader }
        ensures entities { entities_of storage.new ≡ entities_of storage.old }
        ensures same_reference { storage_name storage.new ≡ storage_name storage.old }
    {
        let Ok(events) = storage.read(&self.reader) else {
            return Err(IndexError::UnknownReader);
        };
        let done = if self.stale {
            match all_keys(self.alloc, &self.key, storage.storage()) {
                Ok(lists) => {
                    self.lists = lists;
                    true
                }
                Err(_) => false,
            }
        } else {
            follow(
                self.alloc,
                &mut self.lists,
                &self.key,
                &events,
                storage.storage(),
            )
            .is_ok()
        };
        self.stale = !done;
        if done {
            Ok(())
        } else {
            Err(IndexError::OutOfMemory)
        }
    }

    /// Ends the index, and its reader if it is still registered. No room for events is lost.
    pub fn end(self, storage: &mut WriteStorage<'_, T>)
    where
        K: Drop,
        ensures room { (n : ℕ) → HasRoom (slot storage.old).room n → HasRoom (slot storage.new).room n }
        ensures slot { Turns (slot storage.old) (slot storage.new) (without_reader self.reader (slot storage.old).channel) }
        ensures gone { unread_of self.reader (slot storage.new).channel.readers ≡ None }
        ensures unregistered { unread_of self.reader (slot storage.old).channel.readers ≡ None → IsSame (slot storage.old) (slot storage.new) }
        ensures others { OthersKeep self.reader (slot storage.old).channel (slot storage.new).channel }
        ensures entities { entities_of storage.new ≡ entities_of storage.old }
        ensures same_reference { storage_name storage.new ≡ storage_name storage.old }
    {
        let KeyIndex { reader, .. } = self;
        let _ = storage.drop_reader(reader);
    }
}
