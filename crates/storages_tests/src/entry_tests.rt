//! Entries of single indices.
use crate::asserts::{equal, gives, holds, replaces};
use crate::kinds::nth;
use crate::shelf::Entries;
use crate::stories::{Story, in_btree, in_vec};
use entities::Entity;
use std::cell::Cell;
use std::process::Abort;
use std::test::Fail;

// Basic use, and closures, which are called only where there is none; each is occupied then.
fn basic_use<R: Abort, S: Entries>(rt: &R, shelf: &mut S, list: &[Entity], calls: &Cell<u32>) {
    equal!(rt; list.len(), 8);
    gives!(rt; shelf.or_insert(nth(rt, list, 0), 5), Some(5));
    gives!(rt; shelf.or_insert(nth(rt, list, 1), 5), Some(10));
    gives!(rt; shelf.or_insert_with(nth(rt, list, 2), 5, calls), Some(5));
    equal!(rt; calls.get(), 1);
    gives!(rt; shelf.or_insert_with(nth(rt, list, 3), 5, calls), Some(10));
    equal!(rt; calls.get(), 1);
    gives!(rt; shelf.occupied(nth(rt, list, 0)), Some(5));
    gives!(rt; shelf.occupied(nth(rt, list, 1)), Some(10));
    gives!(rt; shelf.occupied(nth(rt, list, 2)), Some(5));
    gives!(rt; shelf.occupied(nth(rt, list, 3)), Some(10));
}

// Occupied and vacant change places, and what is replaced is answered.
fn swapped_and_replaced<R: Abort, S: Entries>(rt: &R, shelf: &mut S, list: &[Entity]) {
    equal!(rt; list.len(), 8);
    holds!(rt; shelf.toggle(nth(rt, list, 4)));
    holds!(rt; shelf.toggle(nth(rt, list, 5)));
    gives!(rt; shelf.at(nth(rt, list, 4)), Some(15));
    gives!(rt; shelf.at(nth(rt, list, 5)), None);
    replaces!(rt; shelf.replace(nth(rt, list, 6), 1337), Some(None));
    replaces!(rt; shelf.replace(nth(rt, list, 7), 11), Some(Some(10)));
    replaces!(rt; shelf.replace(nth(rt, list, 6), 9001), Some(Some(1337)));
    gives!(rt; shelf.at(nth(rt, list, 6)), Some(9001));
    gives!(rt; shelf.at(nth(rt, list, 7)), Some(11));
}

// Every second entity has ten from the start.
fn put_tens<R: Abort, S: Entries>(rt: &R, shelf: &mut S, list: &[Entity]) {
    for e in list {
        if e.id() % 2 == 1 {
            replaces!(rt; shelf.put(*e, 10), Some(None));
        }
    }
}

/// Entries of eight entities with and without a number.
pub fn entries<R: Abort, S: Entries>(rt: &R, shelf: &mut S, list: &[Entity]) {
    let calls = Cell::new(0);
    put_tens(rt, shelf, list);
    basic_use(rt, shelf, list, &calls);
    swapped_and_replaced(rt, shelf, list);
}

#[test]
fn storage_entry(rt: HostRuntime) -> Result<(), Fail> {
    in_vec(&rt, rt.alloc(), 8, &[Story::Entries])
}

/// The entry of an index that has a component: read, replaced, lent, lent for good, and taken out.
pub fn occupied_entry<R: Abort, S: Entries>(rt: &R, shelf: &mut S) {
    holds!(rt; shelf.put_in(3, 10));
    equal!(rt; shelf.write_entry(3, 15), Some((10, 16)));
    holds!(rt; shelf.lend_entry(3));
    gives!(rt; shelf.take_entry(3), Some(17));
    holds!(rt; !shelf.contains(3));
}

#[test]
fn occupied_entries(rt: HostRuntime) -> Result<(), Fail> {
    in_btree(&rt, rt.alloc(), 0, &[Story::OccupiedEntry])
}
