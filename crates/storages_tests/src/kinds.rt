//! Tests that every kind of storage of numbers is put to.
use crate::asserts::{equal, gives, holds, replaces};
use crate::shelf::Shelf;
use entities::Entity;
use std::process::Abort;

/// The entity at a place of a list, which has to be long enough. A story that indexes the list itself is slower to prove.
pub fn nth<R: Abort>(rt: &R, list: &[Entity], place: usize) -> Entity {
    assert!(rt; place < list.len(), "no entity at {place}");
    list[place]
}

/// Inserts the number at each entity, its index and `more`.
pub fn fill<R: Abort, S: Shelf>(rt: &R, shelf: &mut S, list: &[Entity], more: u32) {
    for e in list {
        replaces!(rt; shelf.put(*e, e.id().wrapping_add(more)), Some(None));
    }
}

// Each entity has its index and `more`.
fn have<R: Abort, S: Shelf>(rt: &R, shelf: &mut S, list: &[Entity], more: u32) {
    for e in list {
        gives!(rt; shelf.at(*e), Some(e.id().wrapping_add(more)));
    }
}

/// One component is inserted, replaced, counted and removed.
pub fn test_one<R: Abort, S: Shelf>(rt: &R, shelf: &mut S, list: &[Entity]) {
    let e = nth(rt, list, 0);
    replaces!(rt; shelf.put(e, 4), Some(None));
    replaces!(rt; shelf.put(e, 6), Some(Some(4)));
    equal!(rt; shelf.count(), 1);
    gives!(rt; shelf.take(e), Some(6));
    gives!(rt; shelf.take(e), None);
    gives!(rt; shelf.at(e), None);
    holds!(rt; shelf.is_empty());
}

/// All are inserted and found again.
pub fn test_add<R: Abort, S: Shelf>(rt: &R, shelf: &mut S, list: &[Entity]) {
    fill(rt, shelf, list, 2718);
    have(rt, shelf, list, 2718);
}

/// All are inserted and removed, once each.
pub fn test_sub<R: Abort, S: Shelf>(rt: &R, shelf: &mut S, list: &[Entity]) {
    fill(rt, shelf, list, 2718);
    for e in list {
        gives!(rt; shelf.take(*e), Some(e.id().wrapping_add(2718)));
        gives!(rt; shelf.take(*e), None);
    }
}

/// All are inserted and written to.
pub fn test_get_mut<R: Abort, S: Shelf>(rt: &R, shelf: &mut S, list: &[Entity]) {
    fill(rt, shelf, list, 2000);
    for e in list {
        holds!(rt; shelf.add(*e, 718));
    }
    have(rt, shelf, list, 2718);
}

/// Those below 500 have a component; each is added its index, or gets it.
pub fn test_get_mut_or_default<R: Abort, S: Shelf>(rt: &R, shelf: &mut S, list: &[Entity]) {
    for e in list {
        let id = e.id();
        if id < 500 {
            replaces!(rt; shelf.put(*e, id), Some(None));
        }
        holds!(rt; shelf.add_or_default(*e, id));
    }
    for e in list {
        let id = e.id();
        let wanted = if id < 500 { id.wrapping_add(id) } else { id };
        gives!(rt; shelf.at(*e), Some(wanted));
    }
}

// The next generation of each can't be inserted, and is not found.
fn later_are_refused<R: Abort, S: Shelf>(rt: &R, shelf: &mut S, list: &[Entity]) {
    for e in list {
        let later = Entity::from_parts(e.id(), 2);
        holds!(rt; later.is_some());
        if let Some(later) = later {
            replaces!(rt; shelf.put(later, 31415), None);
            gives!(rt; shelf.at(later), None);
        }
    }
}

/// All are inserted; those of a generation to come can't be, and are not found.
pub fn test_add_gen<R: Abort, S: Shelf>(rt: &R, shelf: &mut S, list: &[Entity]) {
    fill(rt, shelf, list, 2718);
    later_are_refused(rt, shelf, list);
    have(rt, shelf, list, 2718);
}

/// Those of a generation to come can't be inserted, and there is nothing to remove.
pub fn test_sub_gen<R: Abort, S: Shelf>(rt: &R, shelf: &mut S, list: &[Entity]) {
    later_are_refused(rt, shelf, list);
    for e in list {
        gives!(rt; shelf.take(*e), None);
    }
    holds!(rt; shelf.is_empty());
}

/// All are inserted, and none is found after `clear`.
pub fn test_clear<R: Abort, S: Shelf>(rt: &R, shelf: &mut S, list: &[Entity]) {
    for e in list {
        replaces!(rt; shelf.put(*e, 10), Some(None));
    }
    holds!(rt; shelf.clear());
    for e in list {
        gives!(rt; shelf.at(*e), None);
    }
}

/// Puts each number at its index.
pub fn put_all<R: Abort, S: Shelf>(rt: &R, shelf: &mut S, numbers: &[(u32, u32)]) {
    for pair in numbers {
        holds!(rt; shelf.put_in(pair.0, pair.1));
    }
}

// An index beyond the last, one below it, and one that was left.
fn test_put_places<R: Abort, S: Shelf>(rt: &R, shelf: &mut S) {
    put_all(rt, shelf, &[(7, 70), (2, 20), (9, 90)]);
    gives!(rt; shelf.take_out(2), Some(20));
    put_all(rt, shelf, &[(2, 21), (2, 22)]);
    gives!(rt; shelf.number_in(2), Some(22));
}

// Two indices with a component and one without, which then has 0, until it is taken out.
fn test_lent_places<R: Abort, S: Shelf>(rt: &R, shelf: &mut S) {
    holds!(rt; shelf.lend(7));
    holds!(rt; shelf.lend_or_default(9));
    holds!(rt; shelf.lend_or_default(4));
    gives!(rt; shelf.take_out(4), Some(0));
    holds!(rt; !shelf.contains(4));
}

// One index gets a component, and one loses its own, of which two are left.
fn test_left_places<R: Abort, S: Shelf>(rt: &R, shelf: &mut S) {
    holds!(rt; shelf.insert_in(4, 50, 0));
    holds!(rt; shelf.drop_in(9));
    holds!(rt; shelf.drop_in(9));
    gives!(rt; shelf.take_out(4), Some(50));
    gives!(rt; shelf.take_out(4), None);
    holds!(rt; shelf.reserve_events(3));
    equal!(rt; shelf.count_in(), 2);
}

/// Places of each kind, each by each way to put a component there.
pub fn test_places<R: Abort, S: Shelf>(rt: &R, shelf: &mut S) {
    test_put_places(rt, shelf);
    test_lent_places(rt, shelf);
    test_left_places(rt, shelf);
}
