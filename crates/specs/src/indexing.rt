//! Indices by a key over a core's storages, kept from events.
ghost use Rattle.std.specs.Prelude.{◌≡◌, ◌⊎◌, [], None, Some, Err, IsOk, IsSome, IfOk, IfErr, IfSome, OnOk, OnErr};
ghost use Rattle.key_index.specs.Indexed.{CoversSlot, FollowsSlot, IsFresh, IsIndexOfSlot, IsStale, KeepsSlot};
ghost use Rattle.storages.specs.Slot.{IsSame};
ghost use Rattle.storages.specs.Tracking as tracking;
ghost use Rattle.storages.specs.Tracking.{with_reader, after_read};
ghost use Rattle.storages.specs.Unread.{unread_of};
ghost use Rattle.specs.specs.Reading.Following.{IsFollowed, IsListening};
ghost use Rattle.specs.specs.Laws.Gone.{KeepsGone};
ghost use Rattle.specs.specs.Indexing.{Turns, FollowsAll, IsEmitting, KeepsAll, Knows, IsUpToDate};
ghost use Rattle.specs.specs.Laws.Reached.{KeepsLiving};
ghost use Rattle.specs.specs.World.State.{core_state, OnTable};

mod indexed_runs;

use crate::slots::Held;
use crate::typed::{Field, Has};
use crate::world::{Core, Parts};
use entities::EntitiesRes;
use key_index::{IndexError, KeyIndex, KeyOf};
use std::alloc::{AllocError, Global};
use storages::{Component, MaskedStorage, Tracked, WriteStorage};
use thiserror::Error;

/// Why an index was not made, or was not brought up to its storage.
#[derive(Clone, Copy, PartialEq, Eq, Debug, Error)]
pub enum WorldIndexError {
    /// No storage is registered for the component type. Nothing changed.
    #[error("the component type is not registered")]
    Unregistered,
    /// The index's reader is not registered. Nothing changed.
    #[error("unknown reader")]
    UnknownReader,
    /// Memory was refused. An index that was to be made is not there; one that was to be refreshed is stale.
    #[error("out of memory")]
    OutOfMemory,
}

// An index of a storage.
fn make_on<T: Component, K: KeyOf<T>>(
    masked: &mut MaskedStorage<T>,
    entities: &EntitiesRes,
    alloc: Global,
    key: K,
) -> Result<KeyIndex<T, K>, AllocError>
where
    T::Storage: Tracked<T>,
    K: Drop,
    ensures keeps { IfOk result (λ x. KeepsSlot K.key x masked.new) }
    ensures key { IfOk result (λ x. x.key ≡ key) }
    ensures fresh { IfOk result (λ x. IsFresh x) }
    ensures number { IfOk result (λ x. x.reader ≡ masked.old.channel.registered) }
    ensures begins { IfOk result (λ x. IsSome (unread_of x.reader masked.new.channel.readers)) }
    ensures turns { OnOk result (tracking.Turns masked.old masked.new (with_reader masked.old.channel)) }
    ensures err { OnErr result (IsSame masked.old masked.new) }
{
    KeyIndex::new(alloc, key, &mut WriteStorage::new(entities, masked))
}

// The same of a component type.
fn make_in<T: Component, S: Has<T, I>, I, K: KeyOf<T>>(
    storages: &mut S,
    entities: &EntitiesRes,
    alloc: Global,
    key: K,
) -> Result<KeyIndex<T, K>, WorldIndexError>
where
    T::Storage: Tracked<T>,
    K: Drop,
    ensures keeps { IfOk result (λ x. KeepsAll K.key x (S.part storages.new)) }
    ensures key { IfOk result (λ x. x.key ≡ key) }
    ensures fresh { IfOk result (λ x. IsFresh x) }
    ensures number { IfOk result (λ x. IfSome (S.table storages.old S.the_slot) (λ c. x.reader ≡ c.channel.registered)) }
    ensures there { OnOk result (IsSome (S.part storages.new)) }
    ensures turns { OnOk result (Turns (S.table storages.old) S.the_slot with_reader (S.table storages.new)) }
    ensures followed { IfOk result (λ x. IsEmitting (S.part storages.old) → IsListening x.reader (S.table storages.new S.the_slot)) }
    ensures unregistered { IfErr result (λ e. e ≡ WorldIndexError.Unregistered → S.part storages.old ≡ None) }
    ensures known { IfErr result (λ e. e ≡ WorldIndexError.UnknownReader → ⊥) }
    ensures err { OnErr result (S.table storages.new ≡ S.table storages.old) }
    ensures ids { S.ids storages.new ≡ S.ids storages.old }
{
    match storages.field_mut() {
        Some(masked) => match make_on(masked, entities, alloc, key) {
            Ok(index) => Ok(index),
            Err(_) => Err(WorldIndexError::OutOfMemory),
        },
        None => Err(WorldIndexError::Unregistered),
    }
}

// `KeyIndex::refresh` on a storage.
fn refresh_on<T: Component, K: KeyOf<T>>(
    masked: &mut MaskedStorage<T>,
    entities: &EntitiesRes,
    index: &mut KeyIndex<T, K>,
) -> Result<(), IndexError>
where
    T::Storage: Tracked<T>,
    ensures ok { (IsFresh index.old → CoversSlot K.key index.old masked.old) → OnOk result (IsIndexOfSlot K.key K.Key.cmp index.new masked.new) }
    ensures keeps { (IsFresh index.old → CoversSlot K.key index.old masked.old) → OnOk result (KeepsSlot K.key index.new masked.new) }
    ensures fresh { OnOk result (IsFresh index.new) }
    ensures memory { result ≡ Err IndexError.OutOfMemory → IsStale index.new }
    ensures unknown { result ≡ Err IndexError.UnknownReader → unread_of index.old.reader masked.old.channel.readers ≡ None }
    ensures unchanged { result ≡ Err IndexError.UnknownReader → index.new ≡ index.old }
    ensures unregistered { unread_of index.old.reader masked.old.channel.readers ≡ None → result ≡ Err IndexError.UnknownReader }
    ensures idle { IsFresh index.old → unread_of index.old.reader masked.old.channel.readers ≡ Some [] → IsOk result }
    ensures follows { IsFresh index.old → OnOk result (FollowsSlot K.key index.old index.new masked.old masked.new) }
    ensures turns { tracking.Turns masked.old masked.new (after_read index.old.reader masked.old.channel) }
    ensures key { index.new.key ≡ index.old.key }
    ensures reader { index.new.reader ≡ index.old.reader }
{
    index.refresh(&mut WriteStorage::new(entities, masked))
}

// The same of a component type.
fn refresh_in<T: Component, S: Has<T, I>, I, K: KeyOf<T>>(
    storages: &mut S,
    entities: &EntitiesRes,
    index: &mut KeyIndex<T, K>,
) -> Result<(), WorldIndexError>
where
    T::Storage: Tracked<T>,
    ensures ok { Knows K.key index.old (S.part storages.old) → OnOk result (IsUpToDate K.key K.Key.cmp index.new (S.part storages.new)) }
    ensures keeps { Knows K.key index.old (S.part storages.old) → OnOk result (KeepsAll K.key index.new (S.part storages.new)) }
    ensures fresh { OnOk result (IsFresh index.new) }
    ensures there { OnOk result (IsSome (S.part storages.new)) }
    ensures memory { result ≡ Err WorldIndexError.OutOfMemory → IsStale index.new }
    ensures unregistered { result ≡ Err WorldIndexError.Unregistered → S.part storages.old ≡ None }
    ensures unknown { result ≡ Err WorldIndexError.UnknownReader → IfSome (S.part storages.old) (λ s. unread_of index.old.reader s.channel.readers ≡ None) }
    ensures unchanged { (result ≡ Err WorldIndexError.Unregistered) ⊎ (result ≡ Err WorldIndexError.UnknownReader) → index.new ≡ index.old }
    ensures no_slot { S.part storages.old ≡ None → result ≡ Err WorldIndexError.Unregistered }
    ensures no_reader { IfSome (S.part storages.old) (λ s. unread_of index.old.reader s.channel.readers ≡ None → result ≡ Err WorldIndexError.UnknownReader) }
    ensures idle { IsFresh index.old → IfSome (S.part storages.old) (λ s. unread_of index.old.reader s.channel.readers ≡ Some [] → IsOk result) }
    ensures follows { IsFresh index.old → OnOk result (FollowsAll K.key index.old index.new (S.part storages.old) (S.part storages.new)) }
    ensures turns { Turns (S.table storages.old) S.the_slot (after_read index.old.reader) (S.table storages.new) }
    ensures followed { IsListening index.old.reader (S.table storages.old S.the_slot) → IsListening index.old.reader (S.table storages.new S.the_slot) }
    ensures key { index.new.key ≡ index.old.key }
    ensures reader { index.new.reader ≡ index.old.reader }
    ensures ids { S.ids storages.new ≡ S.ids storages.old }
{
    match storages.field_mut() {
        Some(masked) => match refresh_on(masked, entities, index) {
            Ok(()) => Ok(()),
            Err(IndexError::UnknownReader) => Err(WorldIndexError::UnknownReader),
            Err(IndexError::OutOfMemory) => Err(WorldIndexError::OutOfMemory),
        },
        None => Err(WorldIndexError::Unregistered),
    }
}

impl<S: Held> Core<S> {
    /// An index of the components of a type by a key, of what the core has now: for each key the ascending list of the indices whose component
    /// has it. It registers a reader of the storage's events, and is kept from those by `refresh_index`, and by `World::run_indexed`. It follows
    /// nothing that happens while the storage's events are off (`MaskedStorage::event_emission`). It asks for the key of each component once.
    #[tactic(auto, using(crate::proofs::Covering::knows_kept, crate::proofs::Kept::living_left, crate::proofs::Kept::gone_same))]
    pub fn make_index<T: Component, K: KeyOf<T>, I>(
        &mut self,
        key: K,
    ) -> Result<KeyIndex<T, K>, WorldIndexError>
    where
        S: Has<T, I>,
        T::Storage: Tracked<T>,
        K: Drop,
        ensures keeps { IfOk result (λ x. KeepsAll K.key x (S.part self.new.parts.storages)) }
        ensures knows { IfOk result (λ x. Knows K.key x (S.part self.new.parts.storages)) }
        ensures key { IfOk result (λ x. x.key ≡ key) }
        ensures fresh { IfOk result (λ x. IsFresh x) }
        ensures number { IfOk result (λ x. IfSome ((core_state S.table S.ids self.old).table S.the_slot) (λ c. x.reader ≡ c.channel.registered)) }
        ensures there { OnOk result (IsSome (S.part self.new.parts.storages)) }
        ensures turns { OnOk result (OnTable (λ t t'. Turns t S.the_slot with_reader t') (core_state S.table S.ids self.old) (core_state S.table S.ids self.new)) }
        ensures followed { IfOk result (λ x. IsEmitting (S.part self.old.parts.storages) → IsFollowed S.the_slot x.reader (core_state S.table S.ids self.new)) }
        ensures unregistered { IfErr result (λ e. e ≡ WorldIndexError.Unregistered → S.part self.old.parts.storages ≡ None) }
        ensures known { IfErr result (λ e. e ≡ WorldIndexError.UnknownReader → ⊥) }
        ensures living { KeepsLiving (core_state S.table S.ids self.old) (core_state S.table S.ids self.new) }
        ensures gone { KeepsGone (core_state S.table S.ids self.old).people (core_state S.table S.ids self.new).people }
        ensures err { OnErr result (core_state S.table S.ids self.new ≡ core_state S.table S.ids self.old) }
    {
        let alloc = self.alloc;
        let Parts { entities, storages } = &mut self.parts;
        let index = make_in(storages, entities, alloc, key)?;
        Ok(index)
    }

    /// Reads the events of an index's reader, and brings the indices that stand in them up to the storage now, each once; a stale index is built
    /// from the storage. Then the index is what `make_index` would make now, if each index of which it kept another key stood in such an event.
    /// Where it is not stale and nothing is unread, it takes no memory, and succeeds.
    #[tactic(auto, using(crate::proofs::Covering::living_turned, crate::proofs::Kept::gone_same))]
    pub fn refresh_index<T: Component, K: KeyOf<T>, I>(
        &mut self,
        index: &mut KeyIndex<T, K>,
    ) -> Result<(), WorldIndexError>
    where
        S: Has<T, I>,
        T::Storage: Tracked<T>,
        ensures ok { Knows K.key index.old (S.part self.old.parts.storages) → OnOk result (IsUpToDate K.key K.Key.cmp index.new (S.part self.new.parts.storages)) }
        ensures keeps { Knows K.key index.old (S.part self.old.parts.storages) → OnOk result (KeepsAll K.key index.new (S.part self.new.parts.storages)) }
        ensures knows { Knows K.key index.old (S.part self.old.parts.storages) → OnOk result (Knows K.key index.new (S.part self.new.parts.storages)) }
        ensures fresh { OnOk result (IsFresh index.new) }
        ensures there { OnOk result (IsSome (S.part self.new.parts.storages)) }
        ensures memory { result ≡ Err WorldIndexError.OutOfMemory → IsStale index.new }
        ensures unregistered { result ≡ Err WorldIndexError.Unregistered → S.part self.old.parts.storages ≡ None }
        ensures unknown { result ≡ Err WorldIndexError.UnknownReader → IfSome (S.part self.old.parts.storages) (λ s. unread_of index.old.reader s.channel.readers ≡ None) }
        ensures unchanged { (result ≡ Err WorldIndexError.Unregistered) ⊎ (result ≡ Err WorldIndexError.UnknownReader) → index.new ≡ index.old }
        ensures no_slot { S.part self.old.parts.storages ≡ None → result ≡ Err WorldIndexError.Unregistered }
        ensures no_reader { IfSome (S.part self.old.parts.storages) (λ s. unread_of index.old.reader s.channel.readers ≡ None → result ≡ Err WorldIndexError.UnknownReader) }
        ensures idle { IsFresh index.old → IfSome (S.part self.old.parts.storages) (λ s. unread_of index.old.reader s.channel.readers ≡ Some [] → IsOk result) }
        ensures follows { IsFresh index.old → OnOk result (FollowsAll K.key index.old index.new (S.part self.old.parts.storages) (S.part self.new.parts.storages)) }
        ensures turns { OnTable (λ t t'. Turns t S.the_slot (after_read index.old.reader) t') (core_state S.table S.ids self.old) (core_state S.table S.ids self.new) }
        ensures followed { IsFollowed S.the_slot index.old.reader (core_state S.table S.ids self.old) → IsFollowed S.the_slot index.old.reader (core_state S.table S.ids self.new) }
        ensures living { KeepsLiving (core_state S.table S.ids self.old) (core_state S.table S.ids self.new) }
        ensures gone { KeepsGone (core_state S.table S.ids self.old).people (core_state S.table S.ids self.new).people }
        ensures key { index.new.key ≡ index.old.key }
        ensures reader { index.new.reader ≡ index.old.reader }
    {
        let Parts { entities, storages } = &mut self.parts;
        refresh_in(storages, entities, index)
    }
}
