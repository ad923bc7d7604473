//! A channel of events: for each reader a list of what it has not read.
ghost use Rattle.std.specs.Prelude.{◌≡◌, ◌≢◌, ◌<◌, ◌+◌, ◌^◌, ◌++◌, ◌∷◌, ℕ, [], None, Some, is_some, IsOk, OnOk, OnErr, IfOk, IfErr, IfSome, MatchOption, MatchResult, true, false, map, length};
ghost use Rattle.std.specs.List.{remove};
ghost use Rattle.storages.specs.Unread.{written, with_event, unread_of, is_read, emptied, dropped, first_dropped};
ghost use Rattle.storages.specs.Readers.{shown, least_room};
ghost use Rattle.storages.specs.Meaning.{HasRoom};

use crate::reader_id::{ReaderId, UnknownReader};
use std::alloc::{AllocError, Global};
use std::marker::Model;
use std::mem;

#[derive(Drop)]
struct Reader<E> {
    number: u64,
    unread: Vec<E>,
}

/// The events that each reader has not read. Ports `shrev::EventChannel`.
pub struct EventChannel<E> {
    readers: Vec<Reader<E>>,
    registered: u64,
    alloc: Global,
}

impl<E: Drop> Drop for EventChannel<E> {
    fn drop(self) {
        let EventChannel {
            readers: _readers,
            registered: _registered,
            alloc: _alloc,
        } = self;
    }
}

impl<E> Model for EventChannel<E> {
    ghost use Rattle.std.specs.Prelude.{map};
    ghost use Rattle.storages.specs.ChannelState.{ChannelState, state_code};
    ghost use Rattle.storages.specs.Unread.{IsNumbered};
    ghost use Rattle.storages.specs.Readers.{shown, least};

    ghost Value = { ChannelState E };

    ghost coded = { state_code E.code };

    ghost view = { λ c. record { registered = c.registered; readers = map shown c.readers.items; spare = least c.readers.items } };

    ghost invariant = { λ c. IsNumbered 0 c.registered (map shown c.readers.items) };
}

impl<E: Copy> EventChannel<E> {
    ghost use Rattle.storages.specs.ChannelState.{KeepsEvents, room_in};

    /// A channel without readers.
    pub fn new(alloc: Global) -> Self
        ensures readers { result.readers ≡ [] }
        ensures registered { result.registered ≡ 0 }
    {
        EventChannel {
            readers: Vec::new(alloc),
            registered: 0,
            alloc,
        }
    }

    /// A new reader, which has nothing to read yet.
    pub fn register_reader(&mut self) -> Result<ReaderId, AllocError>
        ensures number { IfOk result (λ id. id ≡ self.old.registered) }
        ensures fresh { unread_of self.old.registered self.old.readers ≡ None }
        ensures ok { OnOk result (self.new.readers ≡ self.old.readers ++ (self.old.registered, []) ∷ []) }
        ensures begins { OnOk result (unread_of self.old.registered self.new.readers ≡ Some []) }
        ensures registered { OnOk result (self.new.registered ≡ self.old.registered + 1) }
        ensures err { OnErr result (self.new ≡ self.old) }
    {
        let number = self.registered;
        if number == u64::MAX {
            return Err(AllocError);
        }
        self.readers.push(Reader {
            number,
            unread: Vec::new(self.alloc),
        })?;
        self.registered = number + 1;
        Ok(ReaderId { number })
    }

    /// Makes room for the next `n` events.
    #[inline(always)]
    pub fn reserve(&mut self, n: usize) -> Result<(), AllocError>
        ensures keeps { KeepsEvents self.old self.new }
        ensures ok { OnOk result (HasRoom (room_in self.new) n) }
        ensures succeeds { HasRoom (room_in self.old) n → IsOk result }
    {
        reserve_all(&mut self.readers, n)
    }

    /// Writes an event for every reader.
    #[inline(always)]
    pub fn single_write(&mut self, event: E) -> Result<(), AllocError>
        ensures ok { OnOk result (self.new.readers ≡ written event self.old.readers) }
        ensures told { OnOk result ((n : ℕ) → unread_of n self.new.readers ≡ with_event event (unread_of n self.old.readers)) }
        ensures registered { self.new.registered ≡ self.old.registered }
        ensures needs_room { is_some (room_in self.new) ≡ is_some (room_in self.old) }
        ensures room { (n : ℕ) → HasRoom (room_in self.old) (n + 1) → HasRoom (room_in self.new) n }
        ensures err { OnErr result (KeepsEvents self.old self.new) }
        ensures succeeds { HasRoom (room_in self.old) 1 → IsOk result }
    {
        self.reserve(1)?;
        self.write_reserved(event);
        Ok(())
    }

    /// Writes an event in room that is there.
    #[inline(always)]
    pub fn write_reserved(&mut self, event: E)
        requires { HasRoom (room_in self.old) 1 }
        ensures readers { self.new.readers ≡ written event self.old.readers }
        ensures registered { self.new.registered ≡ self.old.registered }
        ensures needs_room { is_some (room_in self.new) ≡ is_some (room_in self.old) }
        ensures room { (n : ℕ) → HasRoom (room_in self.old) (n + 1) → HasRoom (room_in self.new) n }
    {
        write_all(&mut self.readers, event);
    }

    /// What a reader has not read, which it has read then.
    #[inline(always)]
    pub fn read(&mut self, id: &ReaderId) -> Result<Vec<E>, UnknownReader>
        ensures events { MatchResult result (λ v. unread_of id.now self.old.readers ≡ Some v.items) (λ _. unread_of id.now self.old.readers ≡ None) }
        ensures readers { self.new.readers ≡ emptied id.now self.old.readers }
        ensures nothing { OnOk result (unread_of id.now self.new.readers ≡ Some []) }
        ensures others { (n : ℕ) → n ≢ id.now → unread_of n self.new.readers ≡ unread_of n self.old.readers }
        ensures registered { self.new.registered ≡ self.old.registered }
        ensures needs_room { is_some (room_in self.new) ≡ is_some (room_in self.old) }
        ensures unknown { OnErr result (self.new ≡ self.old) }
    {
        match take_unread(&mut self.readers, id.number, self.alloc) {
            Some(events) => Ok(events),
            None => Err(UnknownReader),
        }
    }

    /// Ends a reader. Its number is not used again.
    pub fn drop_reader(&mut self, id: ReaderId) -> Result<(), UnknownReader>
        ensures ok { OnOk result (is_some (unread_of id self.old.readers) ≡ true) }
        ensures err { OnErr result (unread_of id self.old.readers ≡ None) }
        ensures readers { self.new.readers ≡ dropped id self.old.readers }
        ensures gone { unread_of id self.new.readers ≡ None }
        ensures registered { self.new.registered ≡ self.old.registered }
        ensures unknown { OnErr result (self.new ≡ self.old) }
        ensures room { (n : ℕ) → HasRoom (room_in self.old) n → HasRoom (room_in self.new) n }
    {
        match place_of(&self.readers, id.number) {
            Some(place) => {
                self.readers.remove(place);
                Ok(())
            }
            None => Err(UnknownReader),
        }
    }

    /// Whether there is a reader, so that an event needs room.
    #[inline(always)]
    pub fn has_readers(&self) -> bool
        ensures exact { result ≡ is_some (room_in self.now) }
        ensures read { result ≡ is_read self.now.readers }
        ensures none { result ≡ false → self.now.readers ≡ [] }
    {
        !self.readers.is_empty()
    }
}

#[inline(always)]
fn reserve_all<E>(readers: &mut [Reader<E>], n: usize) -> Result<(), AllocError>
    ensures shown { map shown readers.new ≡ map shown readers.old }
    ensures needs_room { is_some (least_room readers.new) ≡ is_some (least_room readers.old) }
    ensures room { (k : ℕ) → HasRoom (least_room readers.old) k → HasRoom (least_room readers.new) k }
    ensures ok { OnOk result (HasRoom (least_room readers.new) n) }
    ensures succeeds { HasRoom (least_room readers.old) n → IsOk result }
{
    for reader in readers.iter_mut() {
        reader.unread.reserve(n)?;
    }
    Ok(())
}

#[inline(always)]
fn write_all<E: Copy>(readers: &mut [Reader<E>], event: E)
    requires { HasRoom (least_room readers.old) 1 }
    ensures shown { map shown readers.new ≡ written event (map shown readers.old) }
    ensures needs_room { is_some (least_room readers.new) ≡ is_some (least_room readers.old) }
    ensures room { (n : ℕ) → HasRoom (least_room readers.old) (n + 1) → HasRoom (least_room readers.new) n }
{
    for reader in readers.iter_mut() {
        match reader.unread.push(event) {
            Ok(()) => {}
            Err(_) => unreachable!(),
        }
    }
}

#[inline(always)]
fn take_unread<E>(readers: &mut [Reader<E>], number: u64, alloc: Global) -> Option<Vec<E>>
    ensures events { MatchOption result (unread_of number (map shown readers.old) ≡ None) (λ v. unread_of number (map shown readers.old) ≡ Some v.items) }
    ensures shown { map shown readers.new ≡ emptied number (map shown readers.old) }
    ensures unknown { result ≡ None → readers.new ≡ readers.old }
    ensures needs_room { is_some (least_room readers.new) ≡ is_some (least_room readers.old) }
{
    for reader in readers.iter_mut() {
        if reader.number == number {
            return Some(mem::replace(&mut reader.unread, Vec::new(alloc)));
        }
    }
    None
}

// The place of a reader.
fn place_of<E>(readers: &[Reader<E>], number: u64) -> Option<usize>
    ensures found { MatchOption result (unread_of number (map shown readers.now) ≡ None) (λ _. is_some (unread_of number (map shown readers.now)) ≡ true) }
    ensures place { IfSome result (λ k. k < length readers.now) }
    ensures room { IfSome result (λ k. (n : ℕ) → HasRoom (least_room readers.now) n → HasRoom (least_room (remove readers.now k)) n) }
    ensures dropped { IfSome result (λ k. first_dropped number (map shown readers.now) ≡ map shown (remove readers.now k)) }
{
    for (place, reader) in readers.iter().enumerate() {
        if reader.number == number {
            return Some(place);
        }
    }
    None
}
