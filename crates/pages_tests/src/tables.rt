//! What no clause says: that calls that grow succeed, and numbers of pages as they were worked out by hand.
use crate::asserts::{equal, holds};
use pages::{Item, Pages};
use std::alloc::AllocError;
use std::fmt::Debug;
use std::process::Abort;
use std::test::Fail;

fn reserve<T: Item, const LEN: u32>(pages: &mut Pages<T, LEN>, at: u32) -> Result<(), AllocError> {
    pages.reserve(at)
}

/// Writes where there is a page, and says whether there is one.
fn put<T: Item, const LEN: u32>(pages: &mut Pages<T, LEN>, at: u32, item: T) -> bool {
    if !pages.has_page(at) {
        return false;
    }
    pages.set(at, item);
    true
}

fn get<T: Item, const LEN: u32>(pages: &Pages<T, LEN>, at: u32) -> T {
    pages.get(at)
}

/// The item where there is a page.
fn present<T: Item, const LEN: u32>(pages: &Pages<T, LEN>, at: u32) -> Option<T> {
    if !pages.has_page(at) {
        return None;
    }
    Some(pages.get_present(at))
}

fn count<T: Item, const LEN: u32>(pages: &Pages<T, LEN>) -> usize {
    pages.count()
}

fn reach<T: Item, const LEN: u32>(pages: &Pages<T, LEN>) -> usize {
    pages.reach()
}

fn fill<T: Item, const LEN: u32>(pages: &mut Pages<T, LEN>) {
    pages.fill();
}

fn clear<T: Item, const LEN: u32>(pages: &mut Pages<T, LEN>) {
    pages.clear();
}

/// How many items a page has, and the last of them.
fn page<T: Item, const LEN: u32>(pages: &Pages<T, LEN>, page: u32) -> (usize, Option<T>) {
    let items = pages.page(page);
    (items.len(), items.last().copied())
}

/// Each of these places gets its page, and so many pages are there then.
fn have_pages<R: Abort, T: Item, const LEN: u32>(
    rt: &R,
    pages: &mut Pages<T, LEN>,
    places: &[u32],
    wanted: usize,
) {
    for at in places {
        equal!(rt; reserve(pages, *at), Ok(()));
        holds!(rt; pages.has_page(*at));
    }
    equal!(rt; count(pages), wanted);
}

/// Each of these places reads as an item.
fn read_as<R: Abort, T: Item + PartialEq + Debug + Drop, const LEN: u32>(
    rt: &R,
    pages: &Pages<T, LEN>,
    places: &[u32],
    item: T,
) {
    for at in places {
        equal!(rt; get(pages, *at), item);
    }
}

/// An item is written at each of these places, and read there.
fn are_written<R: Abort, T: Item + PartialEq + Debug + Drop, const LEN: u32>(
    rt: &R,
    pages: &mut Pages<T, LEN>,
    places: &[u32],
    item: T,
) {
    for at in places {
        holds!(rt; put(pages, *at, item));
        equal!(rt; present(pages, *at), Some(item));
    }
}

fn tell_of_places<R: Abort>(rt: &R, pages: &mut Pages<u32, 4096>) {
    have_pages(rt, pages, &[0, 4095, 4096, 16_777_215], 3);
    are_written(rt, pages, &[0, 4095, 4096, 16_777_215], 7);
    clear(pages);
    equal!(rt; count(pages), 0);
    equal!(rt; reach(pages), 0);
    read_as(rt, pages, &[0, 4095, 4096, 16_777_215], 0);
    have_pages(rt, pages, &[16_777_215], 1);
    read_as(rt, pages, &[16_777_215], 0);
}

#[test]
fn places_get_three_pages_and_clear_leaves_none(rt: HostRuntime) -> Result<(), Fail> {
    let mut pages = Pages::new(rt.alloc());
    tell_of_places(&rt, &mut pages);
    Ok(())
}

fn tell_of_words<R: Abort>(rt: &R, pages: &mut Pages<u64, 64>) {
    have_pages(rt, pages, &[0, 262143], 2);
    are_written(rt, pages, &[0, 262143], u64::MAX);
    are_written(rt, pages, &[0, 262143], 0);
    equal!(rt; count(pages), 2);
    are_written(rt, pages, &[1, 262142], 5);
    fill(pages);
    read_as(rt, pages, &[0, 1, 262142, 262143], 0);
    equal!(rt; count(pages), 2);
    equal!(rt; reach(pages), 4096);
}

#[test]
fn pages_stay_when_their_words_are_the_filler_again(rt: HostRuntime) -> Result<(), Fail> {
    let mut pages = Pages::new(rt.alloc());
    tell_of_words(&rt, &mut pages);
    Ok(())
}

fn tell_of_gaps<R: Abort>(rt: &R, pages: &mut Pages<u64, 64>) {
    read_as(rt, pages, &[0, 63, 64, u32::MAX], 0);
    have_pages(rt, pages, &[640], 1);
    are_written(rt, pages, &[640, 703], 9);
    read_as(rt, pages, &[0, 63, 639, 641, 702, 704, 262144, u32::MAX], 0);
    equal!(rt; present(pages, 639), None);
    equal!(rt; present(pages, 704), None);
    equal!(rt; put(pages, 639, 1), false);
    equal!(rt; page(pages, 9), (0, None));
    equal!(rt; page(pages, 10), (64, Some(9)));
    equal!(rt; page(pages, 11), (0, None));
}

#[test]
fn a_missing_page_and_places_past_the_table_read_as_the_filler(
    rt: HostRuntime,
) -> Result<(), Fail> {
    let mut pages = Pages::new(rt.alloc());
    tell_of_gaps(&rt, &mut pages);
    Ok(())
}

fn tell_of_neighbours<R: Abort, const LEN: u32>(rt: &R, pages: &mut Pages<u32, LEN>) {
    have_pages(rt, pages, &[29, 5, 17], 3);
    for at in 0..30 {
        holds!(rt; put(pages, at, at));
    }
    for at in 0..30 {
        equal!(rt; get(pages, at), at);
    }
}

#[test]
fn each_place_keeps_its_own_item_in_whatever_order_pages_came(rt: HostRuntime) -> Result<(), Fail> {
    let mut pages: Pages<u32, 10> = Pages::new(rt.alloc());
    tell_of_neighbours(&rt, &mut pages);
    Ok(())
}

/// After a reservation, whatever it answered, what was written is read; a refused one made no page.
fn goes_on<R: Abort>(rt: &R, pages: &mut Pages<u64, 64>, at: u32) {
    let before = count(pages);
    let had = pages.has_page(at);
    match reserve(pages, at) {
        Ok(()) => {
            equal!(rt; count(pages), before.wrapping_add(usize::from(!had)));
            holds!(rt; put(pages, at, u64::from(at)));
        }
        Err(_) => {
            equal!(rt; count(pages), before);
            equal!(rt; pages.has_page(at), had);
            equal!(rt; get(pages, at), 0);
        }
    }
}

fn tell_of_want<R: Abort>(rt: &R, pages: &mut Pages<u64, 64>) {
    for at in [1, 64, 128, 6400, 64, 262143] {
        goes_on(rt, pages, at);
        let kept = if pages.has_page(1) { 1 } else { 0 };
        equal!(rt; get(pages, 1), kept);
    }
}

#[test]
fn a_refused_page_leaves_the_others(rt: HostRuntime) -> Result<(), Fail> {
    let mut pages = Pages::new(rt.alloc());
    tell_of_want(&rt, &mut pages);
    Ok(())
}
