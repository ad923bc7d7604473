//! Scripts that find entities by their value.
use crate::runs::assert_tale;
use std::test::Fail;

#[test]
fn an_index_follows_insertions_deaths_and_the_end_of_events(rt: HostRuntime) -> Result<(), Fail> {
    assert_tale(
        &rt,
        rt.alloc(),
        "
        register hp -> ok
        create -> 0:1
        create -> 1:1
        create -> 2:1
        insert hp 0:1 3 -> none
        index hp -> ok
        find 3 -> [0]
        insert hp 2:1 3 -> none
        insert hp 0:1 4 -> 3
        find 3 -> [2]
        delete 2:1 -> ok
        find 3 -> []
        find 4 -> [0]
        emit hp off -> ok
        find 4 -> error: no index
        index hp -> error: emission off
        ",
    )?;
    Ok(())
}

#[test]
fn without_a_slot_or_an_index_nothing_is_found(rt: HostRuntime) -> Result<(), Fail> {
    assert_tale(
        &rt,
        rt.alloc(),
        "
        index hp -> error: unregistered
        find 3 -> error: no index
        register hp -> ok
        find 3 -> error: no index
        index hp -> ok
        find 3 -> []
        ",
    )?;
    Ok(())
}

#[test]
fn the_number_of_an_index_is_of_no_reader(rt: HostRuntime) -> Result<(), Fail> {
    assert_tale(
        &rt,
        rt.alloc(),
        "
        register hp -> ok
        reader hp -> reader 0
        index hp -> ok
        reader hp -> reader 2
        create -> 0:1
        insert hp 0:1 7 -> none
        events hp 1 -> error: unknown reader
        find 7 -> [0]
        events hp 0 -> [Inserted(0)]
        events hp 2 -> [Inserted(0)]
        index hp -> ok
        events hp 1 -> error: unknown reader
        events hp 3 -> error: unknown reader
        find 7 -> [0]
        ",
    )?;
    Ok(())
}

#[test]
fn an_index_follows_jobs_maintenance_and_clearing(rt: HostRuntime) -> Result<(), Fail> {
    assert_tale(
        &rt,
        rt.alloc(),
        "
        register hp -> ok
        index hp -> ok
        create -> 0:1
        create -> 1:1
        create pending -> 2:1
        job insert hp 1:1 -5 -> ok
        job insert hp 2:1 -5 -> ok
        find -5 -> []
        maintain 9 -> deleted [] ran 2 refused 0 left 0
        find -5 -> [1, 2]
        mark 1:1 -> ok
        find -5 -> [1, 2]
        maintain 9 -> deleted [1:1] ran 0 refused 0 left 0
        find -5 -> [2]
        clear hp -> ok
        find -5 -> []
        ",
    )?;
    Ok(())
}
