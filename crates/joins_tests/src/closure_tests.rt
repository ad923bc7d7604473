//! Loops by calls of a closure.
use crate::asserts::{equal, gives_two, holds};
use crate::closure_walks::Looped;
use crate::stories::{Story, TrackedStory, told, told_of_tracked};
use crate::yard::Told;
use joins::EachError;
use std::alloc::Global;
use std::process::Abort;
use std::test::Fail;
use storages::ComponentEvent::Modified;

// Three of the first storage, of which those at 0 and 2 have a second beside them, as has 3, which has no first.
fn stand_beside<R: Abort, Y: Looped>(rt: &R, yard: &mut Y, numbers: [i32; 3]) {
    holds!(rt; yard.put_first(0, (10, 1)));
    holds!(rt; yard.put_first(1, (20, 1)));
    holds!(rt; yard.put_first(2, (30, 1)));
    holds!(rt; yard.put_second(0, (numbers[0], 1)));
    holds!(rt; yard.put_second(2, (numbers[1], 1)));
    holds!(rt; yard.put_second(3, (numbers[2], 1)));
}

// What the first storage has at 0 to 3.
fn are<R: Abort, Y: Looped>(rt: &R, yard: &Y, numbers: [(i32, i32); 3]) {
    gives_two!(rt; yard.first(0), Some(numbers[0]));
    gives_two!(rt; yard.first(1), Some(numbers[1]));
    gives_two!(rt; yard.first(2), Some(numbers[2]));
    gives_two!(rt; yard.first(3), None);
}

/// Each that has one beside it is called with it, once; from a cursor those that are left.
pub fn each_is_called<R: Abort, Y: Looped>(rt: &R, yard: &mut Y) {
    stand_beside(rt, yard, [5, 6, 7]);
    holds!(rt; yard.add_each());
    are(rt, yard, [(15, 2), (20, 1), (36, 2)]);
    holds!(rt; yard.add_often(10));
    are(rt, yard, [(65, 2), (20, 1), (96, 2)]);
    holds!(rt; yard.add_behind_first());
    are(rt, yard, [(65, 2), (20, 1), (102, 3)]);
}

#[test]
fn a_closure_is_called_at_each_index(rt: HostRuntime) -> Result<(), Fail> {
    told(&rt, rt.alloc(), 4, Story::EachIsCalled)
}

/// A refusal ends the loop, and what came before it stays.
pub fn a_call_refuses<R: Abort, Y: Looped>(rt: &R, yard: &mut Y) {
    stand_beside(rt, yard, [5, -6, 7]);
    equal!(rt; yard.add_until(), Err(EachError::Refused(-6)));
    are(rt, yard, [(15, 1), (20, 1), (30, 1)]);
    holds!(rt; yard.put_second(2, (6, 0)));
    equal!(rt; yard.add_until(), Ok(()));
    are(rt, yard, [(20, 1), (20, 1), (36, 1)]);
}

#[test]
fn a_closure_that_refuses_ends_the_loop(rt: HostRuntime) -> Result<(), Fail> {
    told(&rt, rt.alloc(), 4, Story::ACallRefuses)
}

/// What a join gives is summed, listed in its order, and taken out.
pub fn all_are_read<R: Abort, Y: Looped>(rt: &R, alloc: Global, yard: &mut Y) -> Result<(), Fail> {
    stand_beside(rt, yard, [5, 6, 7]);
    equal!(rt; yard.sum_beside(), 40);
    let list = yard.listed(alloc)?;
    holds!(rt; list.as_slice() == [10, 20, 30].as_slice());
    holds!(rt; yard.take_each());
    gives_two!(rt; yard.first(0), None);
    gives_two!(rt; yard.first(1), Some((20, 1)));
    gives_two!(rt; yard.first(2), None);
    Ok(())
}

#[test]
fn a_closure_is_called_on_what_a_join_gives(rt: HostRuntime) -> Result<(), Fail> {
    told(&rt, rt.alloc(), 4, Story::AllAreRead)
}

/// Each call is one event, where the storage tells of them.
pub fn calls_are_told<R: Abort, Y: Told + Looped>(rt: &R, yard: &mut Y) {
    stand_beside(rt, yard, [5, 6, 7]);
    holds!(rt; yard.listen());
    holds!(rt; yard.add_each());
    match yard.events() {
        Some(events) => holds!(rt; events.as_slice() == [Modified(0), Modified(2)].as_slice()),
        None => holds!(rt; false),
    }
}

#[test]
fn calls_of_a_closure_tell_their_events(rt: HostRuntime) -> Result<(), Fail> {
    told_of_tracked(&rt, rt.alloc(), 4, TrackedStory::CallsAreTold)
}
