//! Events of storages that tell of each change.
use crate::asserts::{equal, gives, holds, replaces};
use crate::kinds::{fill, nth};
use crate::numbers::{InFlagged, Number};
use crate::shelf::{Entries, Sorted, Told};
use crate::stories::{OF_EACH_KIND, in_flagged, in_flagged_dense};
use crate::world::{new_world, populate};
use entities::Entity;
use hibits::{BitSet, SetError};
use std::alloc::{AllocError, Global};
use std::process::Abort;
use std::test::Fail;
use storages::ComponentEvent::{Inserted, Modified, Removed};
use storages::{ComponentEvent, EventChannel, ReaderId, Tracked, TryDefault};

// Whether the reader of a number reads just these events.
fn reads<S: Told>(shelf: &mut S, number: u64, wanted: &[ComponentEvent]) -> bool {
    match shelf.events(number) {
        Some(events) => events.as_slice() == wanted,
        None => false,
    }
}

#[test]
fn flagged_storage_meets_all(rt: HostRuntime) -> Result<(), Fail> {
    in_flagged(&rt, rt.alloc(), 1000, OF_EACH_KIND.as_slice())?;
    in_flagged_dense(&rt, rt.alloc(), 1000, OF_EACH_KIND.as_slice())
}

// One reads at once, the other later.
fn both_are_told<R: Abort, S: Told>(rt: &R, shelf: &mut S, e: Entity) {
    equal!(rt; shelf.listen(), Some(0));
    equal!(rt; shelf.listen(), Some(1));
    replaces!(rt; shelf.put(e, 7), Some(None));
    holds!(rt; reads(shelf, 0, &[Inserted(4)]));
    gives!(rt; shelf.take(e), Some(7));
    holds!(rt; reads(shelf, 0, &[Removed(4)]));
    holds!(rt; reads(shelf, 1, &[Inserted(4), Removed(4)]));
}

// A reader that ended reads nothing and does not end again, and its number is not given out anew.
fn first_is_gone<R: Abort, S: Told>(rt: &R, shelf: &mut S) {
    holds!(rt; shelf.end(0));
    equal!(rt; shelf.listen(), Some(2));
    holds!(rt; shelf.events(0).is_none());
    holds!(rt; !shelf.end(0));
}

// Two readers, of which the first ends.
fn two_readers<R: Abort, S: Told>(rt: &R, shelf: &mut S, list: &[Entity]) {
    equal!(rt; list.len(), 5);
    both_are_told(rt, shelf, nth(rt, list, 4));
    first_is_gone(rt, shelf);
}

// Components are inserted, replaced, taken out and cleared.
fn change<R: Abort, S: Told>(rt: &R, shelf: &mut S, list: &[Entity]) {
    equal!(rt; list.len(), 4);
    replaces!(rt; shelf.put(nth(rt, list, 0), 1), Some(None));
    replaces!(rt; shelf.put(nth(rt, list, 0), 2), Some(Some(1)));
    holds!(rt; shelf.put_by_entry(nth(rt, list, 1), 3));
    holds!(rt; shelf.put_by_entry(nth(rt, list, 3), 4));
    gives!(rt; shelf.take(nth(rt, list, 0)), Some(2));
    holds!(rt; shelf.clear());
}

// The events of these changes, in their order.
const CHANGES: [ComponentEvent; 9] = [
    Inserted(0),
    Modified(0),
    Inserted(1),
    Modified(1),
    Inserted(3),
    Modified(3),
    Removed(0),
    Removed(1),
    Removed(3),
];

// The changes are read once, and a change while emission is off is not.
fn changes_are_told<R: Abort, S: Told>(rt: &R, shelf: &mut S, list: &[Entity]) {
    equal!(rt; list.len(), 4);
    equal!(rt; shelf.listen(), Some(0));
    change(rt, shelf, list);
    holds!(rt; reads(shelf, 0, CHANGES.as_slice()));
    holds!(rt; reads(shelf, 0, &[]));
    shelf.emit(false);
    replaces!(rt; shelf.put(nth(rt, list, 0), 1), Some(None));
    holds!(rt; reads(shelf, 0, &[]));
}

// What happened before the first reader was there is told to nobody.
fn nothing_is_kept<R: Abort, S: Told>(rt: &R, shelf: &mut S, list: &[Entity]) {
    equal!(rt; list.len(), 2);
    holds!(rt; shelf.emits());
    replaces!(rt; shelf.put(nth(rt, list, 0), 1), Some(None));
    equal!(rt; shelf.listen(), Some(0));
    holds!(rt; reads(shelf, 0, &[]));
    holds!(rt; shelf.add(nth(rt, list, 0), 1));
    holds!(rt; reads(shelf, 0, &[Modified(0)]));
}

// Emission is off, and an event is written by hand.
fn told_by_hand<R: Abort, S: Told>(rt: &R, shelf: &mut S) {
    equal!(rt; shelf.listen(), Some(0));
    shelf.emit(false);
    holds!(rt; !shelf.emits());
    holds!(rt; shelf.flag(Modified(9)));
    holds!(rt; reads(shelf, 0, &[Modified(9)]));
}

// What an entry puts where there was nothing is told as inserted and as modified, and what it replaces as modified.
fn replacements_are_told<R: Abort, S: Told + Entries>(rt: &R, shelf: &mut S, list: &[Entity]) {
    equal!(rt; list.len(), 1);
    equal!(rt; shelf.listen(), Some(0));
    replaces!(rt; shelf.replace(nth(rt, list, 0), 1), Some(None));
    holds!(rt; reads(shelf, 0, &[Inserted(0), Modified(0)]));
    replaces!(rt; shelf.replace(nth(rt, list, 0), 2), Some(Some(1)));
    holds!(rt; reads(shelf, 0, &[Modified(0)]));
}

// An event needs room while it is emitted and somebody reads.
fn room_is_needed<R: Abort, S: Told>(rt: &R, shelf: &mut S) {
    holds!(rt; !shelf.wants_room());
    equal!(rt; shelf.listen(), Some(0));
    holds!(rt; shelf.wants_room());
    shelf.emit(false);
    holds!(rt; !shelf.wants_room());
    shelf.emit(true);
    holds!(rt; shelf.wants_room());
    holds!(rt; shelf.end(0));
    holds!(rt; !shelf.wants_room());
}

// What is written in the channel that is lent is told, also while emission is off.
fn channel_is_lent<R: Abort, S: Told>(rt: &R, shelf: &mut S) {
    equal!(rt; shelf.listen(), Some(0));
    holds!(rt; shelf.write_in_channel(Removed(3)));
    shelf.emit(false);
    holds!(rt; shelf.write_in_channel(Modified(4)));
    holds!(rt; !shelf.emits());
    holds!(rt; reads(shelf, 0, &[Removed(3), Modified(4)]));
}

// No index of any kind of event.
fn nothing_sorted(alloc: Global) -> Sorted {
    Sorted {
        inserted: BitSet::new(alloc),
        modified: BitSet::new(alloc),
        removed: BitSet::new(alloc),
    }
}

// The indices of each kind of event are added to theirs.
fn sort(events: &[ComponentEvent], sorted: &mut Sorted) -> Result<(), SetError> {
    for event in events {
        match *event {
            Inserted(id) => sorted.inserted.add(id)?,
            Modified(id) => sorted.modified.add(id)?,
            Removed(id) => sorted.removed.add(id)?,
        };
    }
    Ok(())
}

// What the first reader reads.
fn sorted<S: Told>(alloc: Global, shelf: &mut S) -> Result<Sorted, Fail> {
    let events = shelf.events(0).ok_or("no reader")?;
    let mut all = nothing_sorted(alloc);
    sort(events.as_slice(), &mut all)?;
    Ok(all)
}

// A set has the indices of all, and no other.
fn has_all<R: Abort>(rt: &R, set: &BitSet, list: &[Entity]) {
    for e in list {
        holds!(rt; set.contains(e.id()));
    }
    equal!(rt; set.count(), list.len());
}

// All were inserted, and then all were modified, and then all were removed.
fn rounds_are_told<R: Abort, S: Told>(
    rt: &R,
    alloc: Global,
    shelf: &mut S,
    list: &[Entity],
) -> Result<(), Fail> {
    equal!(rt; list.len(), 15);
    equal!(rt; shelf.listen(), Some(0));
    fill(rt, shelf, list, 1);
    are_inserted(rt, &sorted(alloc, shelf)?, list);
    add_to_each(rt, shelf, list);
    are_modified(rt, &sorted(alloc, shelf)?, list);
    take_each(rt, shelf, list);
    are_removed(rt, &sorted(alloc, shelf)?, list);
    Ok(())
}

fn are_inserted<R: Abort>(rt: &R, sorted: &Sorted, list: &[Entity]) {
    has_all(rt, &sorted.inserted, list);
    has_all(rt, &sorted.modified, &[]);
    has_all(rt, &sorted.removed, &[]);
}

fn are_modified<R: Abort>(rt: &R, sorted: &Sorted, list: &[Entity]) {
    has_all(rt, &sorted.inserted, &[]);
    has_all(rt, &sorted.modified, list);
    has_all(rt, &sorted.removed, &[]);
}

fn are_removed<R: Abort>(rt: &R, sorted: &Sorted, list: &[Entity]) {
    has_all(rt, &sorted.inserted, &[]);
    has_all(rt, &sorted.modified, &[]);
    has_all(rt, &sorted.removed, list);
}

// One more for each.
fn add_to_each<R: Abort, S: Told>(rt: &R, shelf: &mut S, list: &[Entity]) {
    for e in list {
        holds!(rt; shelf.add(*e, 1));
    }
}

// Each loses its number.
fn take_each<R: Abort, S: Told>(rt: &R, shelf: &mut S, list: &[Entity]) {
    for e in list {
        holds!(rt; shelf.take(*e).is_some());
    }
}

// A story of a storage that tells of each change.
#[derive(Clone, Copy)]
enum Story {
    TwoReaders,
    Changes,
    LateReader,
    ByHand,
    Rounds,
    Replaced,
    Room,
    Channel,
}

// Tells a story of a shelf and its entities.
fn tell<R: Abort, S: Told + Entries>(
    rt: &R,
    story: Story,
    alloc: Global,
    shelf: &mut S,
    list: &[Entity],
) -> Result<(), Fail> {
    match story {
        Story::TwoReaders => two_readers(rt, shelf, list),
        Story::Changes => changes_are_told(rt, shelf, list),
        Story::LateReader => nothing_is_kept(rt, shelf, list),
        Story::ByHand => told_by_hand(rt, shelf),
        Story::Rounds => rounds_are_told(rt, alloc, shelf, list)?,
        Story::Replaced => replacements_are_told(rt, shelf, list),
        Story::Room => room_is_needed(rt, shelf),
        Story::Channel => channel_is_lent(rt, shelf),
    }
    Ok(())
}

// Tells a story of a new storage and so many entities.
fn tell_of_new<R: Abort, T: Number>(
    rt: &R,
    alloc: Global,
    count: u32,
    story: Story,
) -> Result<(), Fail>
where
    T::Storage: Tracked<T> + TryDefault,
{
    let mut world = new_world::<T>(alloc)?;
    let list = populate(alloc, &mut world.entities, count)?;
    tell(rt, story, alloc, &mut world, list.as_slice())
}

// The same of numbers. The type stands here alone: a call at a tracked storage is slow to prove.
fn told<R: Abort>(rt: &R, alloc: Global, count: u32, story: Story) -> Result<(), Fail> {
    tell_of_new::<R, InFlagged>(rt, alloc, count, story)
}

#[test]
fn two_readers_are_told_until_they_read(rt: HostRuntime) -> Result<(), Fail> {
    told(&rt, rt.alloc(), 5, Story::TwoReaders)
}

#[test]
fn each_change_is_told_in_its_order(rt: HostRuntime) -> Result<(), Fail> {
    told(&rt, rt.alloc(), 4, Story::Changes)
}

#[test]
fn a_channel_keeps_nothing_for_nobody(rt: HostRuntime) -> Result<(), Fail> {
    told(&rt, rt.alloc(), 2, Story::LateReader)
}

#[test]
fn an_event_by_hand_is_told_while_emission_is_off(rt: HostRuntime) -> Result<(), Fail> {
    told(&rt, rt.alloc(), 1, Story::ByHand)
}

#[test]
fn a_replacement_at_a_vacant_entry_is_told_twice(rt: HostRuntime) -> Result<(), Fail> {
    told(&rt, rt.alloc(), 1, Story::Replaced)
}

#[test]
fn an_event_needs_room_while_somebody_is_told(rt: HostRuntime) -> Result<(), Fail> {
    told(&rt, rt.alloc(), 0, Story::Room)
}

#[test]
fn what_is_written_in_a_lent_channel_is_told(rt: HostRuntime) -> Result<(), Fail> {
    told(&rt, rt.alloc(), 0, Story::Channel)
}

#[test]
fn flagged(rt: HostRuntime) -> Result<(), Fail> {
    told(&rt, rt.alloc(), 15, Story::Rounds)
}

// A reader that is there, and a place for one more.
fn numbers(channel: &mut EventChannel<u32>) -> Result<ReaderId, AllocError> {
    let id = channel.register_reader()?;
    channel.reserve(2)?;
    channel.single_write(5)?;
    channel.single_write(6)?;
    Ok(id)
}

// Whether a reader reads just these.
fn reads_numbers(channel: &mut EventChannel<u32>, id: &ReaderId, wanted: &[u32]) -> bool {
    match channel.read(id) {
        Ok(events) => events.as_slice() == wanted,
        Err(_) => false,
    }
}

// Ends a reader.
fn ends(channel: &mut EventChannel<u32>, number: u64) -> bool {
    channel.drop_reader(ReaderId::of(number)).is_ok()
}

// What the reader of a channel reads; it ends once.
fn reads_and_ends<R: Abort>(rt: &R, channel: &mut EventChannel<u32>) -> Result<(), Fail> {
    let id = numbers(channel)?;
    holds!(rt; reads_numbers(channel, &id, &[5, 6]));
    holds!(rt; ends(channel, 0));
    holds!(rt; !ends(channel, 1));
    Ok(())
}

#[test]
fn a_channel_of_numbers(rt: HostRuntime) -> Result<(), Fail> {
    let mut channel = EventChannel::new(rt.alloc());
    reads_and_ends(&rt, &mut channel)
}
