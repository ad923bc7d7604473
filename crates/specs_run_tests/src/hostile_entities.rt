//! Scripts of entities that never lived, or live no more, and of jobs without end.
use crate::runs::{Tale, assert_tale};
use std::alloc::{AllocError, Global};
use std::process::Abort;
use std::test::Fail;

#[test]
fn the_dead_and_the_never_born_reach_nothing(rt: HostRuntime) -> Result<(), Fail> {
    assert_tale(
        &rt,
        rt.alloc(),
        "
        register pos -> ok
        create -> 0:1
        delete 0:1 -> ok
        alive 0:-1 -> false
        living 0:-1 -> false
        insert pos 0:-1 1 -> error: Tried to insert component for entity entity Entity(0, Generation(-1)), but the generation is no longer valid; it should be Generation(-1)
        entity 1073741824 -> 1073741824:1
        alive 1073741824:1 -> false
        mark 4294967295:1 -> error: Tried to delete entity Entity(4294967295, Generation(1)), but the generation is no longer valid; it should be Generation(1)
        ",
    )?;
    Ok(())
}

#[test]
fn jobs_that_queue_themselves_end_at_the_limit(rt: HostRuntime) -> Result<(), Fail> {
    assert_tale(
        &rt,
        rt.alloc(),
        "
        job again -> ok
        job again -> ok
        maintain 1000 -> deleted [] ran 1000 refused 0 left 2
        maintain 0 -> deleted [] ran 0 refused 0 left 2
        ",
    )?;
    Ok(())
}

/// A script that registers what a load is of.
fn ready_to_load<R: Abort>(rt: &R, alloc: Global) -> Result<Tale, AllocError> {
    Tale::told(
        rt,
        alloc,
        "
        register pos -> ok
        register link -> ok
        register id -> ok
        ",
    )
}

fn push_often(line: &mut String, character: char, times: u32) -> Result<(), AllocError> {
    for _ in 0..times {
        line.push(character)?;
    }
    Ok(())
}

/// A load of so many lists within one another.
fn deep_load(alloc: Global, depth: u32) -> Result<String, AllocError> {
    let mut line = "load ".to_string(alloc)?;
    push_often(&mut line, '[', depth)?;
    push_often(&mut line, ']', depth)?;
    Ok(line)
}

#[test]
fn lists_within_one_another_load_nothing(rt: HostRuntime) -> Result<(), Fail> {
    let mut tale = ready_to_load(&rt, rt.alloc())?;
    let deep = deep_load(rt.alloc(), 128)?;
    tale.line(deep.as_str(), "error: not the form")?;
    let deepest = deep_load(rt.alloc(), 1_000_000)?;
    tale.line(deepest.as_str(), "error: not the form")?;
    tale.line("select living", "[]")?;
    tale.assert_holds(&rt, rt.alloc());
    Ok(())
}

/// A saved list of two, but for its last character.
const UNCLOSED: &str =
    "[{\"components\":[[5],[1]],\"marker\":0},{\"components\":[[-7],[0]],\"marker\":1}";

/// Loads every beginning of a saved list, and then the list.
fn load_beginnings(alloc: Global, tale: &mut Tale) -> Result<(), AllocError> {
    let mut line = "load ".to_string(alloc)?;
    for character in UNCLOSED.chars() {
        line.push(character)?;
        tale.line(line.as_str(), "error: not the form")?;
    }
    tale.line("select living", "[]")?;
    line.push(']')?;
    tale.line(line.as_str(), "ok")?;
    tale.line("select living", "[0, 1]")
}

#[test]
fn no_beginning_of_a_saved_list_is_loaded(rt: HostRuntime) -> Result<(), Fail> {
    let mut tale = ready_to_load(&rt, rt.alloc())?;
    load_beginnings(rt.alloc(), &mut tale)?;
    tale.assert_holds(&rt, rt.alloc());
    Ok(())
}
