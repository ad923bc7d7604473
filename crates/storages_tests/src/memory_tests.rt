//! Calls that may want memory, each with ample memory.
use crate::asserts::{equal, gives, holds};
use crate::shelf::Shelf;
use crate::stories::{Story, in_dense};
use std::process::Abort;
use std::test::Fail;

/// An entity that was built lives, and has the later number.
pub fn is_built<R: Abort, S: Shelf>(rt: &R, shelf: &mut S) {
    let built = shelf.build(6, 7);
    holds!(rt; built.is_some());
    if let Some(e) = built {
        holds!(rt; shelf.lives(e));
        gives!(rt; shelf.number_in(e.id()), Some(7));
    }
}

#[test]
fn a_builder_puts_its_component(rt: HostRuntime) -> Result<(), Fail> {
    in_dense(&rt, rt.alloc(), 0, &[Story::Builds])
}

/// A number is inserted and lent, lent again, and taken out.
pub fn comes_and_goes<R: Abort, S: Shelf>(rt: &R, shelf: &mut S) {
    holds!(rt; shelf.insert_in(3, 1, 1));
    holds!(rt; shelf.add_present(3, 3));
    gives!(rt; shelf.take_present(3), Some(5));
    equal!(rt; shelf.count_in(), 0);
}

#[test]
fn a_component_is_inserted_lent_and_taken_out(rt: HostRuntime) -> Result<(), Fail> {
    in_dense(&rt, rt.alloc(), 0, &[Story::ComesAndGoes])
}
