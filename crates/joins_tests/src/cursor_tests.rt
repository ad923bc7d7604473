//! Cursors, and what they write.
use crate::asserts::{equal, gives, gives_two, holds};
use crate::stories::{Story, TrackedStory, told, told_of_defaults, told_of_tracked};
use crate::worlds::first_at;
use crate::yard::{Joined, Told, Viewed, Yard};
use entities::Entity;
use hibits::{BitSet, SetError};
use std::alloc::Global;
use std::process::Abort;
use std::test::Fail;
use storages::ComponentEvent;
use storages::ComponentEvent::{Inserted, Modified, Removed};

// Puts a number at each index of the first storage.
fn put_first<R: Abort, Y: Yard>(rt: &R, yard: &mut Y, ids: &[u32], number: i32) {
    for id in ids {
        holds!(rt; yard.put_first(*id, (number, 0)));
    }
}

// The same of the second.
fn put_second<R: Abort, Y: Yard>(rt: &R, yard: &mut Y, ids: &[u32], number: i32) {
    for id in ids {
        holds!(rt; yard.put_second(*id, (number, 0)));
    }
}

// The first storage has these numbers at the indices from 0 on.
fn are_first<R: Abort, Y: Yard>(rt: &R, yard: &Y, numbers: [Option<i32>; 4]) {
    gives!(rt; first_number(yard, 0), numbers[0]);
    gives!(rt; first_number(yard, 1), numbers[1]);
    gives!(rt; first_number(yard, 2), numbers[2]);
    gives!(rt; first_number(yard, 3), numbers[3]);
}

// The number of an index in the first storage.
fn first_number<Y: Yard>(yard: &Y, id: u32) -> Option<i32> {
    match yard.first(id) {
        Some((number, _)) => Some(number),
        None => None,
    }
}

// The same of the second storage.
fn second_number<Y: Yard>(yard: &Y, id: u32) -> Option<i32> {
    match yard.second(id) {
        Some((number, _)) => Some(number),
        None => None,
    }
}

/// Two positions of which one has a velocity go on.
pub fn goes_on<R: Abort, Y: Yard>(rt: &R, yard: &mut Y) {
    holds!(rt; yard.put_first(0, (0, 0)));
    holds!(rt; yard.put_first(1, (0, 0)));
    holds!(rt; yard.put_second(0, (5, 2)));
    yard.go_on();
    gives_two!(rt; yard.first(0), Some((5, 2)));
    gives_two!(rt; yard.first(1), Some((0, 0)));
    gives_two!(rt; yard.first(2), None);
    yard.go_on();
    gives_two!(rt; yard.first(0), Some((10, 4)));
    gives_two!(rt; yard.second(0), Some((5, 2)));
}

#[test]
fn positions_go_on_where_there_is_a_velocity(rt: HostRuntime) -> Result<(), Fail> {
    told(&rt, rt.alloc(), 2, Story::GoesOn)
}

/// Ten components, of which none stands beside its absence.
pub fn is_never_absent<R: Abort, Y: Yard>(rt: &R, yard: &mut Y) {
    put_first(rt, yard, &[0, 1, 2, 3, 4, 5, 6, 7, 8, 9], 0);
    equal!(rt; yard.count_first(), 10);
    equal!(rt; yard.count_beside_absence(), 0);
}

#[test]
fn vec_test_anti(rt: HostRuntime) -> Result<(), Fail> {
    told(&rt, rt.alloc(), 0, Story::NeverAbsent)
}

#[test]
fn default_vec_test_anti(rt: HostRuntime) -> Result<(), Fail> {
    told_of_defaults(&rt, rt.alloc(), 0, Story::NeverAbsent)
}

/// Of three positions one is taken, once.
pub fn one_is_taken<R: Abort, Y: Yard>(rt: &R, alloc: Global, yard: &mut Y) -> Result<(), Fail> {
    put_first(rt, yard, &[1, 2, 4], 7);
    let (list, once) = yard.drain_at(alloc, 2)?;
    holds!(rt; once);
    holds!(rt; list.as_slice() == [1, 2, 4].as_slice());
    gives!(rt; first_number(yard, 1), Some(7));
    gives!(rt; first_number(yard, 2), None);
    gives!(rt; first_number(yard, 4), Some(7));
    Ok(())
}

#[test]
fn a_drain_takes_what_it_is_asked_for(rt: HostRuntime) -> Result<(), Fail> {
    told(&rt, rt.alloc(), 0, Story::OneIsTaken)
}

/// Three positions are taken beside their entities.
pub fn all_are_taken<R: Abort, Y: Yard>(rt: &R, alloc: Global, yard: &mut Y) -> Result<(), Fail> {
    put_first(rt, yard, &[1, 2, 4], 7);
    let list = yard.drain(alloc)?;
    let wanted = [first_at(1)?, first_at(2)?, first_at(4)?];
    holds!(rt; list.as_slice() == wanted.as_slice());
    equal!(rt; yard.count_first(), 0);
    Ok(())
}

#[test]
fn basic_drain(rt: HostRuntime) -> Result<(), Fail> {
    told(&rt, rt.alloc(), 5, Story::AllAreTaken)
}

/// Of four entities the last dies; all but the first are chosen, and the second has a number. The numbers of the chosen are counted up to 10, and
/// from 0 again.
pub fn chosen_are_counted<R: Abort, Y: Yard>(rt: &R, yard: &mut Y) -> Result<(), Fail> {
    holds!(rt; yard.kill(first_at(3)?));
    put_first(rt, yard, &[1], 8);
    put_second(rt, yard, &[1, 2, 3], 0);
    holds!(rt; yard.increase(10));
    are_first(rt, yard, [None, Some(9), Some(1), None]);
    holds!(rt; yard.increase(10));
    are_first(rt, yard, [None, Some(0), Some(2), None]);
    Ok(())
}

#[test]
fn entries_are_those_of_the_living(rt: HostRuntime) -> Result<(), Fail> {
    told(&rt, rt.alloc(), 4, Story::ChosenAreCounted)
}

// Each index below a count gets its own number.
fn number_each<R: Abort, Y: Yard>(rt: &R, yard: &mut Y, count: u32) {
    let mut number = 0;
    for id in 0..count {
        holds!(rt; yard.put_first(id, (number, 0)));
        number = number.wrapping_add(1);
    }
}

/// The sum of the numbers of 30 entities, of which the first 15 have their indices, and the others get 2.
pub fn numbers_are_summed<R: Abort, Y: Yard>(rt: &R, yard: &mut Y) -> Result<(), Fail> {
    number_each(rt, yard, 15);
    equal!(rt; yard.sum(2)?, 135);
    Ok(())
}

#[test]
fn entries(rt: HostRuntime) -> Result<(), Fail> {
    told(&rt, rt.alloc(), 30, Story::NumbersAreSummed)
}

/// Fifty numbers, each another, are shown once each, and lent the same.
pub fn are_shown_and_lent<R: Abort, Y: Yard>(
    rt: &R,
    alloc: Global,
    yard: &mut Y,
) -> Result<(), Fail> {
    number_each(rt, yard, 50);
    let list = yard.shown_and_lent(alloc)?.ok_or("another")?;
    let mut wanted = 0;
    for number in list.as_slice() {
        equal!(rt; *number, wanted);
        wanted = wanted.wrapping_add(1);
    }
    equal!(rt; wanted, 50);
    Ok(())
}

#[test]
fn restricted_storage(rt: HostRuntime) -> Result<(), Fail> {
    told(&rt, rt.alloc(), 50, Story::ShownAndLent)
}

/// Another is shown where it has a position.
pub fn others_are_shown<R: Abort, Y: Yard>(
    rt: &R,
    alloc: Global,
    yard: &mut Y,
) -> Result<(), Fail> {
    put_first(rt, yard, &[0], 10);
    put_first(rt, yard, &[3], 13);
    let some = yard.beside_one(alloc, first_at(3)?)?;
    holds!(rt; some.as_slice() == [(10, 13), (13, 13)].as_slice());
    let none = yard.beside_one(alloc, first_at(1)?)?;
    holds!(rt; none.as_slice() == [(10, -1), (13, -1)].as_slice());
    Ok(())
}

#[test]
fn a_restricted_storage_shows_others(rt: HostRuntime) -> Result<(), Fail> {
    told(&rt, rt.alloc(), 4, Story::OthersAreShown)
}

/// Of three positions and two velocities those of the third are exchanged.
pub fn are_exchanged<R: Abort, Y: Yard>(rt: &R, yard: &mut Y) {
    put_first(rt, yard, &[0, 1, 2], 1);
    put_second(rt, yard, &[0, 2], 3);
    holds!(rt; yard.choose(1));
    holds!(rt; yard.choose(2));
    yard.exchange();
    are_first(rt, yard, [Some(1), Some(1), Some(3), None]);
    gives!(rt; second_number(yard, 0), Some(3));
    gives!(rt; second_number(yard, 1), None);
    gives!(rt; second_number(yard, 2), Some(1));
}

#[test]
fn two_storages_are_exchanged(rt: HostRuntime) -> Result<(), Fail> {
    told(&rt, rt.alloc(), 3, Story::Exchanged)
}

/// A cursor over two, of which both have the second alone.
pub fn lends_only_where_it_stands<R: Abort, Y: Yard>(rt: &R, yard: &mut Y) {
    put_first(rt, yard, &[0, 1], 1);
    put_second(rt, yard, &[1, 2], 3);
    yard.tell_of_cursor(rt);
}

#[test]
fn a_cursor_lends_nothing_where_it_does_not_stand(rt: HostRuntime) -> Result<(), Fail> {
    told(&rt, rt.alloc(), 3, Story::LendsWhereItStands)
}

// Whether the first reader reads just these events.
fn reads<Y: Told>(yard: &mut Y, wanted: &[ComponentEvent]) -> bool {
    match yard.events() {
        Some(events) => events.as_slice() == wanted,
        None => false,
    }
}

// The numbers 1, 6 and 2 at the indices 0 to 2.
fn put_three<R: Abort, Y: Yard>(rt: &R, yard: &mut Y) {
    put_first(rt, yard, &[0], 1);
    put_first(rt, yard, &[1], 6);
    put_first(rt, yard, &[2], 2);
}

/// The low ones of three numbers are raised, and told.
pub fn low_ones_are_told<R: Abort, Y: Told>(rt: &R, yard: &mut Y) {
    put_three(rt, yard);
    holds!(rt; yard.listen());
    yard.raise_low(5);
    holds!(rt; reads(yard, &[Modified(0), Modified(2)]));
    are_first(rt, yard, [Some(2), Some(6), Some(3), None]);
}

#[test]
fn a_restricted_storage_tells_what_was_written(rt: HostRuntime) -> Result<(), Fail> {
    told_of_tracked(&rt, rt.alloc(), 4, TrackedStory::LowOnesAreTold)
}

/// An entry, a write and a removal by cursors.
pub fn all_are_told<R: Abort, Y: Told>(rt: &R, yard: &mut Y) {
    put_first(rt, yard, &[1], 6);
    put_second(rt, yard, &[0, 1], 0);
    holds!(rt; yard.listen());
    holds!(rt; yard.increase(10));
    holds!(rt; reads(yard, &[Inserted(0), Modified(0), Modified(1)]));
    equal!(rt; yard.take_next(), (Some(0), Some(1), Some(7)));
    holds!(rt; reads(yard, &[Removed(1)]));
}

#[test]
fn cursors_tell_their_events(rt: HostRuntime) -> Result<(), Fail> {
    told_of_tracked(&rt, rt.alloc(), 4, TrackedStory::AllAreTold)
}

// Adds the indices that were modified.
fn add_modified(set: &mut BitSet, events: &[ComponentEvent]) -> Result<(), SetError> {
    for event in events {
        if let Modified(id) = *event {
            set.add(id)?;
        }
    }
    Ok(())
}

// The indices that were modified.
fn modified(alloc: Global, events: &[ComponentEvent]) -> Result<BitSet, SetError> {
    let mut set = BitSet::new(alloc);
    add_modified(&mut set, events)?;
    Ok(set)
}

/// What was told of is joined with the storage.
pub fn told_are_joined<R: Abort, Y: Told>(rt: &R, alloc: Global, yard: &mut Y) -> Result<(), Fail> {
    put_three(rt, yard);
    holds!(rt; yard.listen());
    yard.raise_low(5);
    let events = yard.events().ok_or("no reader")?;
    let set = modified(alloc, events.as_slice())?;
    equal!(rt; set.count(), 2);
    equal!(rt; yard.sum_at(&set), 5);
    Ok(())
}

#[test]
fn what_was_told_is_joined(rt: HostRuntime) -> Result<(), Fail> {
    told_of_tracked(&rt, rt.alloc(), 4, TrackedStory::ToldAreJoined)
}

/// The cursors of a view of two positions, of which the second has a velocity.
pub fn by_a_view<R: Abort, Y: Viewed>(rt: &R, yard: &mut Y) -> Result<(), Fail> {
    let one = first_at(1)?;
    put_first(rt, yard, &[0, 1], 1);
    put_second(rt, yard, &[1], 3);
    equal!(rt; yard.write(9), Some(1));
    equal!(rt; yard.take(), (Some(0), Some(1)));
    equal!(rt; yard.place(), Some(0));
    equal!(rt; yard.look(one), (Some(1), true, true));
    gives!(rt; yard.show(), Some(9));
    gives!(rt; yard.at(one), Some(9));
    Ok(())
}

#[test]
fn cursors_of_views(rt: HostRuntime) -> Result<(), Fail> {
    told(&rt, rt.alloc(), 2, Story::ByAView)
}
