//! Scripts that select indices.
use crate::runs::{assert_runs, assert_tale};
use specs_run::NESTING_LIMIT;
use std::alloc::{AllocError, Global};
use std::test::Fail;

#[test]
fn each_kind_of_set_selects_its_members(rt: HostRuntime) -> Result<(), Fail> {
    assert_tale(
        &rt,
        rt.alloc(),
        "
        register pos -> ok
        register tag -> ok
        create -> 0:1
        create -> 1:1
        create -> 2:1
        create pending -> 3:1
        insert pos 0:1 5 -> none
        insert pos 1:1 6 -> none
        insert tag 1:1 tag -> none
        insert tag 3:1 tag -> none
        select pos -> [0, 1]
        select living -> [0, 1, 2, 3]
        select and pos tag -> [1]
        select or pos tag -> [0, 1, 3]
        select xor pos tag -> [0, 3]
        select and living not pos -> [2, 3]
        delete 1:1 -> ok
        select living -> [0, 2, 3]
        select xor living or tag pos -> [2]
        select and not not pos or living tag -> [0]
        select and or pos tag not and pos tag -> [0, 3]
        ",
    )?;
    Ok(())
}

/// A walk of a complement looks at a word for each 64 indices below the limit: these would take minutes, one by one.
#[test]
fn a_set_that_is_turned_and_back_is_as_fast(rt: HostRuntime) -> Result<(), Fail> {
    assert_tale(
        &rt,
        rt.alloc(),
        "
        register pos -> ok
        create -> 0:1
        create -> 1:1
        insert pos 0:1 5 -> none
        select not not pos -> [0]
        select not or not pos not living -> [0]
        select not or not living pos -> [1]
        select not and not pos not living -> [0, 1]
        select xor not living not pos -> [1]
        select not xor not living pos -> [1]
        select and not pos and not not pos living -> []
        ",
    )?;
    Ok(())
}

#[test]
fn a_set_of_an_unregistered_slot_is_refused(rt: HostRuntime) -> Result<(), Fail> {
    assert_tale(
        &rt,
        rt.alloc(),
        "
        select vel -> error: unregistered
        select not vel -> error: unregistered
        select or living vel -> error: unregistered
        register vel -> ok
        select or living vel -> []
        select and vel xor living not pos -> error: unregistered
        ",
    )?;
    Ok(())
}

/// A line that selects those that live and have no position, or have one, by so many operators, one within another.
fn nested(alloc: Global, depth: u32) -> Result<String, AllocError> {
    let mut line = String::new(alloc);
    line.push_str("create\nselect and living ")?;
    for _ in 1..depth {
        line.push_str("not ")?;
    }
    line.push_str("living\n")?;
    Ok(line)
}

#[test]
fn sets_nest_up_to_a_limit(rt: HostRuntime) -> Result<(), Fail> {
    let deepest = nested(rt.alloc(), NESTING_LIMIT)?;
    assert_runs(&rt, rt.alloc(), deepest.as_str(), 0, "0:1\n[]\n", "");
    let deeper = nested(rt.alloc(), NESTING_LIMIT + 1)?;
    assert_runs(
        &rt,
        rt.alloc(),
        deeper.as_str(),
        2,
        "0:1\n",
        "line 2: cannot read\n",
    );
    let hostile = nested(rt.alloc(), 1_000_000)?;
    assert_runs(
        &rt,
        rt.alloc(),
        hostile.as_str(),
        2,
        "0:1\n",
        "line 2: cannot read\n",
    );
    Ok(())
}
