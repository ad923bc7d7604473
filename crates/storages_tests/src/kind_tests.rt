//! Each kind of storage, and the dense vector.
use crate::asserts::{equal, gives, holds, replaces};
use crate::components::InDense;
use crate::kinds::{nth, put_all};
use crate::loans::double_all;
use crate::shelf::{Shelf, Sliced};
use crate::stories::{
    OF_EACH_KIND, Story, in_btree, in_default_vec, in_dense, in_hash, in_null, in_vec,
};
use crate::world::{World, new_world};
use entities::Entity;
use hibits::INDEX_LIMIT;
use std::alloc::Global;
use std::process::Abort;
use std::test::Fail;

#[test]
fn vec_storage_meets_all(rt: HostRuntime) -> Result<(), Fail> {
    in_vec(&rt, rt.alloc(), 1000, OF_EACH_KIND.as_slice())
}

#[test]
fn default_vec_storage_meets_all(rt: HostRuntime) -> Result<(), Fail> {
    in_default_vec(&rt, rt.alloc(), 1000, OF_EACH_KIND.as_slice())
}

#[test]
fn dense_vec_storage_meets_all(rt: HostRuntime) -> Result<(), Fail> {
    in_dense(&rt, rt.alloc(), 1000, OF_EACH_KIND.as_slice())
}

#[test]
fn hash_map_storage_meets_all(rt: HostRuntime) -> Result<(), Fail> {
    in_hash(&rt, rt.alloc(), 1000, OF_EACH_KIND.as_slice())
}

#[test]
fn btree_storage_meets_all(rt: HostRuntime) -> Result<(), Fail> {
    in_btree(&rt, rt.alloc(), 1000, OF_EACH_KIND.as_slice())
}

#[test]
fn dummy_test_clear(rt: HostRuntime) -> Result<(), Fail> {
    in_null(&rt, rt.alloc(), 10, &[Story::Clear])
}

/// The component of the first is inserted, replaced, and removed; the other has none.
pub fn is_set_twice<R: Abort, S: Shelf>(rt: &R, shelf: &mut S, list: &[Entity]) {
    equal!(rt; list.len(), 2);
    let (e, other) = (nth(rt, list, 0), nth(rt, list, 1));
    replaces!(rt; shelf.put(e, 0), Some(None));
    replaces!(rt; shelf.put(e, 0), Some(Some(0)));
    holds!(rt; shelf.add(e, 0));
    gives!(rt; shelf.at(other), None);
    gives!(rt; shelf.take(e), Some(0));
    gives!(rt; shelf.take(e), None);
    gives!(rt; shelf.at(e), None);
}

#[test]
fn test_null_insert_twice(rt: HostRuntime) -> Result<(), Fail> {
    in_null(&rt, rt.alloc(), 2, &[Story::SetTwice])
}

/// A slice whose numbers are doubled, by a table in pages.
trait Doubled: Sliced {
    /// Doubles each number.
    fn double(&mut self);

    /// How many pages there are.
    fn pages(&self) -> usize;
}

impl Doubled for World<InDense> {
    fn double(&mut self) {
        double_all(&mut self.masked);
    }

    fn pages(&self) -> usize {
        self.masked.unprotected_storage().page_count()
    }
}

// The last value moves to the place of the one that was taken out.
fn the_last_is_moved<R: Abort, S: Sliced>(rt: &R, shelf: &mut S) {
    put_all(rt, shelf, &[(0, 1), (1, 2), (2, 3)]);
    gives!(rt; shelf.take_out(0), Some(1));
    holds!(rt; shelf.has_slice(&[3, 2]));
    holds!(rt; shelf.clear_all());
    holds!(rt; shelf.has_slice(&[]));
}

// The values of indices that are far apart have no gaps, and each has a page, which goes as all do.
fn far_indices_lie_close<R: Abort, S: Doubled>(rt: &R, shelf: &mut S) {
    put_all(rt, shelf, &[(0, 1), (4095, 2), (4096, 3), (16_777_215, 4)]);
    equal!(rt; shelf.pages(), 4);
    gives!(rt; shelf.take_out(4095), Some(2));
    holds!(rt; shelf.has_slice(&[1, 4, 3]));
    gives!(rt; shelf.take_out(0), Some(1));
    holds!(rt; shelf.has_slice(&[3, 4]));
    equal!(rt; shelf.pages(), 4);
    put_all(rt, shelf, &[(4095, 5)]);
    holds!(rt; shelf.has_slice(&[3, 4, 5]));
    equal!(rt; shelf.pages(), 4);
    holds!(rt; shelf.clear_all());
    holds!(rt; shelf.has_slice(&[]));
    equal!(rt; shelf.pages(), 0);
    put_all(rt, shelf, &[(INDEX_LIMIT - 1, 6), (0, 7)]);
    holds!(rt; shelf.has_slice(&[6, 7]));
    holds!(rt; shelf.clear_all());
}

// Indices of one page share it, and one beside it has another. A page is made again after all have gone.
fn near_indices_share_a_page<R: Abort, S: Doubled>(rt: &R, shelf: &mut S) {
    put_all(rt, shelf, &[(63, 1), (0, 2)]);
    equal!(rt; shelf.pages(), 1);
    put_all(rt, shelf, &[(64, 3)]);
    equal!(rt; shelf.pages(), 2);
    holds!(rt; shelf.clear_all());
    gives!(rt; shelf.number_in(63), None);
    put_all(rt, shelf, &[(63, 4)]);
    equal!(rt; shelf.pages(), 1);
    gives!(rt; shelf.number_in(63), Some(4));
    gives!(rt; shelf.number_in(0), None);
    holds!(rt; shelf.clear_all());
}

// Four numbers without the one that is taken out are doubled, and found at the indices.
fn three_are_doubled<R: Abort, S: Doubled>(rt: &R, shelf: &mut S) {
    put_all(rt, shelf, &[(0, 0), (1, 1), (2, 2), (3, 3)]);
    gives!(rt; shelf.take_out(1), Some(1));
    shelf.double();
    holds!(rt; shelf.has_slice(&[0, 6, 4]));
    gives!(rt; shelf.number_in(3), Some(6));
    gives!(rt; shelf.number_in(2), Some(4));
    gives!(rt; shelf.number_in(1), None);
}

// Values move, lie close, and are all written to.
fn slices<R: Abort, S: Doubled>(rt: &R, shelf: &mut S) {
    the_last_is_moved(rt, shelf);
    far_indices_lie_close(rt, shelf);
    near_indices_share_a_page(rt, shelf);
    three_are_doubled(rt, shelf);
}

// The same of a new storage. Its type stands here alone.
fn dense_slices_of_new<R: Abort>(rt: &R, alloc: Global) -> Result<(), Fail> {
    let mut world = new_world::<InDense>(alloc)?;
    slices(rt, &mut world);
    Ok(())
}

#[test]
fn dense_slices(rt: HostRuntime) -> Result<(), Fail> {
    dense_slices_of_new(&rt, rt.alloc())
}

/// Each gets 0 and then its index.
pub fn are_inserted_twice<R: Abort, S: Shelf>(rt: &R, shelf: &mut S, list: &[Entity]) {
    for e in list {
        replaces!(rt; shelf.put(*e, 0), Some(None));
        replaces!(rt; shelf.put(*e, e.id()), Some(Some(0)));
        gives!(rt; shelf.at(*e), Some(e.id()));
    }
}

#[test]
fn insert_same_key(rt: HostRuntime) -> Result<(), Fail> {
    in_vec(&rt, rt.alloc(), 10_000, &[Story::SameKey])
}

/// Of three indices the first and the third are dropped. The list names an entity twice, and one that has no component.
pub fn first_and_third_are_dropped<R: Abort, S: Shelf>(rt: &R, shelf: &mut S, list: &[Entity]) {
    equal!(rt; list.len(), 4);
    put_all(rt, shelf, &[(0, 0), (1, 1), (2, 2)]);
    let (first, third) = (nth(rt, list, 0), nth(rt, list, 2));
    holds!(rt; shelf.drop_list(&[first, third, first, nth(rt, list, 3)]));
    holds!(rt; !shelf.contains(0));
    holds!(rt; shelf.contains(1));
    holds!(rt; !shelf.contains(2));
}

#[test]
fn drops_a_list(rt: HostRuntime) -> Result<(), Fail> {
    in_hash(&rt, rt.alloc(), 4, &[Story::DropsAList])
}
