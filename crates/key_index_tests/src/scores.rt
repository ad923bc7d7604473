//! An index of the points of players.
use crate::calls::{
    Score, adds, board, ends, has, is_followed, leaves, no_scores, player, players, refreshed,
    scores,
};
use entities::{EntitiesRes, Entity};
use std::alloc::Global;
use std::cell::Cell;
use std::process::Abort;
use std::test::Fail;
use storages::WriteStorage;

/// Three players: a score that is there before the index, one that comes later, one that is written to in place, and one that goes.
fn follows<R: Abort>(
    rt: &R,
    alloc: Global,
    view: &mut WriteStorage<'_, Score>,
    list: &[Entity],
) -> Result<(), Fail> {
    let asked = Cell::new(0);
    let (a, b) = (player(list, 0)?, player(list, 2)?);
    assert!(rt; scores(view, a, 3));
    let mut board = board(alloc, &asked, view).ok_or("an index")?;
    assert!(rt; has(&board, 3, &[0]));
    assert!(rt; scores(view, b, 3));
    assert!(rt; has(&board, 3, &[0]));
    assert_eq!(rt; refreshed(&mut board, view), Ok(()));
    assert!(rt; has(&board, 3, &[0, 2]));
    assert!(rt; adds(view, a, 1));
    assert_eq!(rt; refreshed(&mut board, view), Ok(()));
    assert!(rt; has(&board, 3, &[2]));
    assert!(rt; has(&board, 4, &[0]));
    assert!(rt; leaves(view, b));
    assert_eq!(rt; refreshed(&mut board, view), Ok(()));
    assert!(rt; has(&board, 3, &[]));
    assert!(rt; has(&board, 4, &[0]));
    ends(board, view);
    Ok(())
}

#[test]
fn an_index_follows_what_changes(rt: HostRuntime) -> Result<(), Fail> {
    let mut masked = no_scores(rt.alloc()).ok_or("a storage")?;
    let mut entities = EntitiesRes::new(rt.alloc());
    let list = players(rt.alloc(), &mut entities, 3)?;
    let mut view = WriteStorage::new(&entities, &mut masked);
    follows(&rt, rt.alloc(), &mut view, list.as_slice())
}

/// After one change among a thousand a refresh asks for two keys at most.
fn asks_twice<R: Abort>(
    rt: &R,
    alloc: Global,
    view: &mut WriteStorage<'_, Score>,
    list: &[Entity],
) -> Result<(), Fail> {
    let asked = Cell::new(0);
    let mut points = 0u32;
    for e in list {
        assert!(rt; scores(view, *e, points));
        points = points.wrapping_add(1) % 7;
    }
    let mut board = board(alloc, &asked, view).ok_or("an index")?;
    assert_eq!(rt; asked.get(), 1000);
    asked.set(0);
    assert!(rt; scores(view, player(list, 500)?, 100));
    assert_eq!(rt; refreshed(&mut board, view), Ok(()));
    assert!(rt; asked.get() <= 2);
    assert!(rt; has(&board, 100, &[500]));
    asked.set(0);
    assert_eq!(rt; refreshed(&mut board, view), Ok(()));
    assert_eq!(rt; asked.get(), 0);
    ends(board, view);
    Ok(())
}

#[test]
fn one_change_of_a_thousand_asks_for_two_keys_at_most(rt: HostRuntime) -> Result<(), Fail> {
    let mut masked = no_scores(rt.alloc()).ok_or("a storage")?;
    let mut entities = EntitiesRes::new(rt.alloc());
    let list = players(rt.alloc(), &mut entities, 1000)?;
    let mut view = WriteStorage::new(&entities, &mut masked);
    asks_twice(&rt, rt.alloc(), &mut view, list.as_slice())
}

/// After so many writes to one component a refresh asks for one key.
fn asks_once<R: Abort>(
    rt: &R,
    alloc: Global,
    view: &mut WriteStorage<'_, Score>,
    list: &[Entity],
    times: u32,
) -> Result<(), Fail> {
    let asked = Cell::new(0);
    let written = player(list, 1)?;
    for e in list {
        assert!(rt; scores(view, *e, 5));
    }
    let mut board = board(alloc, &asked, view).ok_or("an index")?;
    asked.set(0);
    for _ in 0..times {
        assert!(rt; adds(view, written, 1));
    }
    assert_eq!(rt; refreshed(&mut board, view), Ok(()));
    assert_eq!(rt; asked.get(), 1);
    assert!(rt; has(&board, times.saturating_add(5), &[1]));
    assert!(rt; has(&board, 5, &[0, 2]));
    ends(board, view);
    Ok(())
}

#[test]
fn a_thousand_writes_to_one_component_ask_for_one_key(rt: HostRuntime) -> Result<(), Fail> {
    let mut masked = no_scores(rt.alloc()).ok_or("a storage")?;
    let mut entities = EntitiesRes::new(rt.alloc());
    let list = players(rt.alloc(), &mut entities, 3)?;
    let mut view = WriteStorage::new(&entities, &mut masked);
    asks_once(&rt, rt.alloc(), &mut view, list.as_slice(), 1000)
}

#[test]
fn ten_writes_to_one_component_ask_for_one_key(rt: HostRuntime) -> Result<(), Fail> {
    let mut masked = no_scores(rt.alloc()).ok_or("a storage")?;
    let mut entities = EntitiesRes::new(rt.alloc());
    let list = players(rt.alloc(), &mut entities, 3)?;
    let mut view = WriteStorage::new(&entities, &mut masked);
    asks_once(&rt, rt.alloc(), &mut view, list.as_slice(), 10)
}

/// Of two indices one is ended, and the other goes on.
fn ends_alone<R: Abort>(
    rt: &R,
    alloc: Global,
    view: &mut WriteStorage<'_, Score>,
    list: &[Entity],
) -> Result<(), Fail> {
    let (first, second) = (Cell::new(0), Cell::new(0));
    assert!(rt; scores(view, player(list, 0)?, 3));
    let mut lasting = board(alloc, &first, view).ok_or("an index")?;
    let ended = board(alloc, &second, view).ok_or("an index")?;
    assert!(rt; is_followed(view, &ended));
    ends(ended, view);
    assert!(rt; is_followed(view, &lasting));
    assert_eq!(rt; refreshed(&mut lasting, view), Ok(()));
    assert!(rt; has(&lasting, 3, &[0]));
    ends(lasting, view);
    Ok(())
}

#[test]
fn an_index_ends_with_its_own_reader_alone(rt: HostRuntime) -> Result<(), Fail> {
    let mut masked = no_scores(rt.alloc()).ok_or("a storage")?;
    let mut entities = EntitiesRes::new(rt.alloc());
    let list = players(rt.alloc(), &mut entities, 1)?;
    let mut view = WriteStorage::new(&entities, &mut masked);
    ends_alone(&rt, rt.alloc(), &mut view, list.as_slice())
}
