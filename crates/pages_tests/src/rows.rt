//! What no clause says of a row of pages: that calls that grow succeed, and what is read on both sides of the row's end.
use crate::asserts::{equal, holds};
use pages::{Item, PagedRow};
use std::alloc::AllocError;
use std::fmt::Debug;
use std::process::Abort;
use std::test::Fail;

fn reserve<T: Item, const LEN: u32>(row: &mut PagedRow<T, LEN>, at: u32) -> Result<(), AllocError> {
    row.reserve(at)
}

/// Writes where there is a page, and says whether there is one.
fn put<T: Item, const LEN: u32>(row: &mut PagedRow<T, LEN>, at: u32, item: T) -> bool {
    if !row.has_page(at) {
        return false;
    }
    row.set(at, item);
    true
}

fn get<T: Item, const LEN: u32>(row: &PagedRow<T, LEN>, at: u32) -> T {
    row.get(at)
}

/// The item where there is a page.
fn present<T: Item, const LEN: u32>(row: &PagedRow<T, LEN>, at: u32) -> Option<T> {
    if !row.has_page(at) {
        return None;
    }
    Some(row.get_present(at))
}

/// How many pages there are below the row's reach.
fn count<T: Item, const LEN: u32>(row: &PagedRow<T, LEN>) -> usize {
    let mut pages: usize = 0;
    for page in 0..row.reach() {
        if u32::try_from(page).is_ok_and(|page| !row.page(page).is_empty()) {
            pages = pages.saturating_add(1);
        }
    }
    pages
}

fn reach<T: Item, const LEN: u32>(row: &PagedRow<T, LEN>) -> usize {
    row.reach()
}

fn fill<T: Item, const LEN: u32>(row: &mut PagedRow<T, LEN>) {
    row.fill();
}

fn clear<T: Item, const LEN: u32>(row: &mut PagedRow<T, LEN>) {
    row.clear();
}

/// How many items a page has, and the last of them.
fn page<T: Item, const LEN: u32>(row: &PagedRow<T, LEN>, page: u32) -> (usize, Option<T>) {
    let items = row.page(page);
    (items.len(), items.last().copied())
}

/// Each of these places gets its page, and so many pages are there then.
fn have_pages<R: Abort, T: Item, const LEN: u32>(
    rt: &R,
    row: &mut PagedRow<T, LEN>,
    places: &[u32],
    wanted: usize,
) {
    for at in places {
        equal!(rt; reserve(row, *at), Ok(()));
        holds!(rt; row.has_page(*at));
    }
    equal!(rt; count(row), wanted);
}

/// Each of these places reads as an item.
fn read_as<R: Abort, T: Item + PartialEq + Debug + Drop, const LEN: u32>(
    rt: &R,
    row: &PagedRow<T, LEN>,
    places: &[u32],
    item: T,
) {
    for at in places {
        equal!(rt; get(row, *at), item);
    }
}

/// An item is written at each of these places, and read there.
fn are_written<R: Abort, T: Item + PartialEq + Debug + Drop, const LEN: u32>(
    rt: &R,
    row: &mut PagedRow<T, LEN>,
    places: &[u32],
    item: T,
) {
    for at in places {
        holds!(rt; put(row, *at, item));
        equal!(rt; present(row, *at), Some(item));
    }
}

/// Each place up to an end has a page, is written its own number, and is read so when all are written.
fn keep_their_own<R: Abort, const LEN: u32>(rt: &R, row: &mut PagedRow<u32, LEN>, end: u32) {
    for at in 0..end {
        holds!(rt; put(row, at, at));
    }
    for at in 0..end {
        equal!(rt; get(row, at), at);
        equal!(rt; present(row, at), Some(at));
    }
}

fn tell_of_growth<R: Abort>(rt: &R, row: &mut PagedRow<u32, 10>) {
    equal!(rt; count(row), 0);
    equal!(rt; reach(row), 0);
    equal!(rt; page(row, 0), (0, None));
    have_pages(rt, row, &[0], 1);
    equal!(rt; reach(row), 1);
    have_pages(rt, row, &[10, 29, 5], 3);
    equal!(rt; reach(row), 3);
    keep_their_own(rt, row, 30);
    read_as(rt, row, &[30, 31, u32::MAX], 0);
    equal!(rt; page(row, 2), (10, Some(29)));
    equal!(rt; page(row, 3), (0, None));
    equal!(rt; present(row, 30), None);
    equal!(rt; put(row, 30, 1), false);
}

#[test]
fn a_row_grows_page_by_page(rt: HostRuntime) -> Result<(), Fail> {
    let mut row = PagedRow::new(rt.alloc());
    tell_of_growth(&rt, &mut row);
    Ok(())
}

fn tell_of_a_far_page<R: Abort>(rt: &R, row: &mut PagedRow<u32, 10>) {
    have_pages(rt, row, &[47], 1);
    equal!(rt; reach(row), 5);
    are_written(rt, row, &[40, 49], 9);
    have_pages(rt, row, &[0, 10, 20, 30], 5);
    read_as(rt, row, &[40, 49], 9);
    read_as(rt, row, &[0, 39, 41, 48, 50], 0);
    have_pages(rt, row, &[40, 50, 60], 7);
    equal!(rt; reach(row), 7);
    equal!(rt; page(row, 3), (10, Some(0)));
    equal!(rt; page(row, 4), (10, Some(9)));
    equal!(rt; page(row, 6), (10, Some(0)));
    equal!(rt; page(row, 7), (0, None));
    equal!(rt; page(row, u32::MAX), (0, None));
    keep_their_own(rt, row, 70);
}

#[test]
fn a_far_page_keeps_its_items_as_the_row_comes_up_to_it(rt: HostRuntime) -> Result<(), Fail> {
    let mut row = PagedRow::new(rt.alloc());
    tell_of_a_far_page(&rt, &mut row);
    Ok(())
}

fn tell_of_an_end<R: Abort>(rt: &R, row: &mut PagedRow<u32, 10>) {
    have_pages(rt, row, &[0, 47], 2);
    are_written(rt, row, &[3, 47], 9);
    clear(row);
    equal!(rt; count(row), 0);
    equal!(rt; reach(row), 0);
    read_as(rt, row, &[3, 47], 0);
    have_pages(rt, row, &[47, 10], 2);
    read_as(rt, row, &[10, 47], 0);
    are_written(rt, row, &[47], 8);
}

#[test]
fn a_row_that_is_cleared_begins_anew(rt: HostRuntime) -> Result<(), Fail> {
    let mut row = PagedRow::new(rt.alloc());
    tell_of_an_end(&rt, &mut row);
    Ok(())
}

fn tell_of_words<R: Abort>(rt: &R, row: &mut PagedRow<u64, 64>) {
    have_pages(rt, row, &[0, 16777215, 63, 16777152], 2);
    equal!(rt; reach(row), 262144);
    are_written(rt, row, &[0, 16777215], u64::MAX);
    are_written(rt, row, &[0, 16777215], 0);
    equal!(rt; count(row), 2);
    are_written(rt, row, &[1, 16777214], 5);
    equal!(rt; page(row, 262143), (64, Some(0)));
    equal!(rt; page(row, 1), (0, None));
    fill(row);
    read_as(rt, row, &[0, 1, 64, 16777214, 16777215], 0);
    equal!(rt; count(row), 2);
    equal!(rt; reach(row), 262144);
}

#[test]
fn a_near_and_a_far_word_have_two_pages_which_stay(rt: HostRuntime) -> Result<(), Fail> {
    let mut row = PagedRow::new(rt.alloc());
    tell_of_words(&rt, &mut row);
    Ok(())
}

/// After a reservation, whatever it answered, what was written is read; a refused one made no page.
fn goes_on<R: Abort>(rt: &R, row: &mut PagedRow<u64, 64>, at: u32) {
    let before = count(row);
    let had = row.has_page(at);
    match reserve(row, at) {
        Ok(()) => {
            equal!(rt; count(row), before.wrapping_add(usize::from(!had)));
            holds!(rt; put(row, at, u64::from(at)));
        }
        Err(_) => {
            equal!(rt; count(row), before);
            equal!(rt; row.has_page(at), had);
            equal!(rt; get(row, at), 0);
        }
    }
}

fn tell_of_want<R: Abort>(rt: &R, row: &mut PagedRow<u64, 64>) {
    for at in [1, 64, 6400, 128, 64, 262143] {
        goes_on(rt, row, at);
        let kept = if row.has_page(1) { 1 } else { 0 };
        equal!(rt; get(row, 1), kept);
    }
}

#[test]
fn a_refused_page_leaves_the_row_and_what_is_behind_it(rt: HostRuntime) -> Result<(), Fail> {
    let mut row = PagedRow::new(rt.alloc());
    tell_of_want(&rt, &mut row);
    Ok(())
}
