//! Tests of specs on births and deaths, by their names there.
use crate::runs::{Tale, assert_tale};
use std::alloc::{AllocError, Global};
use std::test::Fail;

#[test]
fn kill_atomic_create_merge(rt: HostRuntime) -> Result<(), Fail> {
    assert_tale(
        &rt,
        rt.alloc(),
        "
        create -> 0:1
        mark 0:1 -> ok
        create -> 1:1
        maintain 0 -> deleted [0:1] ran 0 refused 0 left 0
        ",
    )?;
    Ok(())
}

#[test]
fn kill_atomic_kill_now_create_merge(rt: HostRuntime) -> Result<(), Fail> {
    assert_tale(
        &rt,
        rt.alloc(),
        "
        create -> 0:1
        mark 0:1 -> ok
        create -> 1:1
        delete 0:1 -> ok
        create -> 0:2
        maintain 0 -> deleted [] ran 0 refused 0 left 0
        ",
    )?;
    Ok(())
}

#[test]
fn is_alive(rt: HostRuntime) -> Result<(), Fail> {
    assert_tale(
        &rt,
        rt.alloc(),
        "
        create -> 0:1
        alive 0:1 -> true
        delete 0:1 -> ok
        alive 0:1 -> false
        create -> 0:2
        mark 0:2 -> ok
        alive 0:2 -> true
        maintain 0 -> deleted [0:2] ran 0 refused 0 left 0
        alive 0:2 -> false
        ",
    )?;
    Ok(())
}

#[test]
fn delete_twice(rt: HostRuntime) -> Result<(), Fail> {
    assert_tale(
        &rt,
        rt.alloc(),
        "
        create -> 0:1
        delete 0:1 -> ok
        mark 0:1 -> error: Tried to delete entity Entity(0, Generation(1)), but the generation is no longer valid; it should be Generation(-1)
        ",
    )?;
    Ok(())
}

/// Pending births of new indices, each of which is marked at once if so wanted.
fn pending_births(alloc: Global, count: u32, marked: bool) -> Result<Tale, AllocError> {
    let mut tale = Tale::new(alloc);
    for index in 0..count {
        let entity = format!(in alloc; "{index}:1")?;
        tale.line("create pending", entity.as_str())?;
        if marked {
            mark(alloc, &mut tale, index)?;
        }
    }
    Ok(tale)
}

/// One index is marked.
fn mark(alloc: Global, tale: &mut Tale, index: u32) -> Result<(), AllocError> {
    let mark = format!(in alloc; "mark {index}:1")?;
    tale.line(mark.as_str(), "ok")
}

#[test]
fn dynamic_create(rt: HostRuntime) -> Result<(), Fail> {
    let tale = pending_births(rt.alloc(), 1000, false)?;
    tale.assert_holds(&rt, rt.alloc());
    Ok(())
}

#[test]
fn dynamic_deletion(rt: HostRuntime) -> Result<(), Fail> {
    let tale = pending_births(rt.alloc(), 1000, true)?;
    tale.assert_holds(&rt, rt.alloc());
    Ok(())
}

#[test]
fn dynamic_create_and_delete(rt: HostRuntime) -> Result<(), Fail> {
    let mut tale = pending_births(rt.alloc(), 5, false)?;
    for index in 0..5u32 {
        mark(rt.alloc(), &mut tale, index)?;
    }
    tale.line(
        "maintain 0",
        "deleted [0:1, 1:1, 2:1, 3:1, 4:1] ran 0 refused 0 left 0",
    )?;
    tale.assert_holds(&rt, rt.alloc());
    Ok(())
}

#[test]
fn maintain_entity_deletion(rt: HostRuntime) -> Result<(), Fail> {
    assert_tale(
        &rt,
        rt.alloc(),
        "
        register pos -> ok
        register tag -> ok
        create -> 0:1
        create -> 1:1
        create -> 2:1
        insert pos 0:1 12 -> none
        insert pos 1:1 12 -> none
        insert pos 2:1 12 -> none
        insert tag 0:1 tag -> none
        insert tag 1:1 tag -> none
        insert tag 2:1 tag -> none
        maintain 0 -> deleted [] ran 0 refused 0 left 0
        select and pos tag -> [0, 1, 2]
        select and living and pos tag -> [0, 1, 2]
        mark 1:1 -> ok
        maintain 0 -> deleted [1:1] ran 0 refused 0 left 0
        select and pos tag -> [0, 2]
        select and living and pos tag -> [0, 2]
        select pos -> [0, 2]
        ",
    )?;
    Ok(())
}

#[test]
fn delete_all(rt: HostRuntime) -> Result<(), Fail> {
    assert_tale(
        &rt,
        rt.alloc(),
        "
        register pos -> ok
        register vel -> ok
        create -> 0:1
        create -> 1:1
        insert pos 1:1 1 -> none
        insert vel 1:1 1 -> none
        create -> 2:1
        insert pos 2:1 1 -> none
        insert vel 2:1 1 -> none
        select living -> [0, 1, 2]
        delete-all -> ok
        select living -> []
        get pos 1:1 -> none
        ",
    )?;
    Ok(())
}

#[test]
fn delete_and_lazy(rt: HostRuntime) -> Result<(), Fail> {
    assert_tale(
        &rt,
        rt.alloc(),
        "
        job create -> ok
        maintain 1 -> deleted [] ran 1 refused 0 left 0
        job create -> ok
        living 0:1 -> true
        delete-all -> ok
        living 0:1 -> false
        maintain 1 -> deleted [] ran 1 refused 0 left 0
        living 0:2 -> true
        ",
    )?;
    Ok(())
}
