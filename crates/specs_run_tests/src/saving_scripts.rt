//! Scripts that give labels, save and load.
use crate::runs::assert_tale;
use std::test::Fail;

#[test]
fn what_has_labels_is_saved_with_its_links(rt: HostRuntime) -> Result<(), Fail> {
    assert_tale(
        &rt,
        rt.alloc(),
        "
        register pos -> ok
        register link -> ok
        register id -> ok
        create -> 0:1
        create -> 1:1
        insert pos 0:1 5 -> none
        insert link 0:1 1:1 -> none
        insert link 1:1 0:1 -> none
        label 0:1 -> 0
        label 1:1 -> 1
        save -> [{\"components\":[[5],[1]],\"marker\":0},{\"components\":[null,[0]],\"marker\":1}]
        ",
    )?;
    Ok(())
}

#[test]
fn loaded_entities_are_pending_until_maintained(rt: HostRuntime) -> Result<(), Fail> {
    assert_tale(
        &rt,
        rt.alloc(),
        "
        register pos -> ok
        register link -> ok
        register id -> ok
        load [{\"components\":[[5],[1]],\"marker\":0},{\"components\":[null,[0]],\"marker\":1}] -> ok
        select living -> [0, 1]
        get link 0:1 -> 1:1
        get pos 1:1 -> none
        alive 0:1 -> false
        maintain 0 -> deleted [] ran 0 refused 0 left 0
        alive 0:1 -> true
        ",
    )?;
    Ok(())
}

#[test]
fn saving_all_labels_what_is_led_to(rt: HostRuntime) -> Result<(), Fail> {
    assert_tale(
        &rt,
        rt.alloc(),
        "
        save -> error: unregistered
        register pos -> ok
        register link -> ok
        save-all -> error: unregistered
        load [] -> error: unregistered
        label 0:1 -> error: unregistered
        register id -> ok
        create -> 0:1
        create -> 1:1
        create -> 2:1
        create -> 3:1
        create -> 4:1
        create -> 5:1
        insert link 0:1 3:1 -> none
        insert link 3:1 5:1 -> none
        label 0:1 -> 0
        save -> error: unmarked 3:1
        save-all -> [{\"components\":[null,[1]],\"marker\":0},{\"components\":[null,[2]],\"marker\":1},{\"components\":[null,null],\"marker\":2}]
        get id 5:1 -> 2
        count id -> 3
        ",
    )?;
    Ok(())
}

#[test]
fn what_was_saved_loads_in_a_new_world(rt: HostRuntime) -> Result<(), Fail> {
    assert_tale(
        &rt,
        rt.alloc(),
        "
        register pos -> ok
        register link -> ok
        register id -> ok
        load [{\"components\":[null,[1]],\"marker\":0},{\"components\":[null,[2]],\"marker\":1},{\"components\":[null,null],\"marker\":2}] -> ok
        get link 0:1 -> 1:1
        get link 1:1 -> 2:1
        get link 2:1 -> none
        select living -> [0, 1, 2]
        select id -> [0, 1, 2]
        ",
    )?;
    Ok(())
}

#[test]
fn a_label_is_for_the_living_and_stays(rt: HostRuntime) -> Result<(), Fail> {
    assert_tale(
        &rt,
        rt.alloc(),
        "
        register id -> ok
        create -> 0:1
        label 1:1 -> error: not alive
        label 0:1 -> 0
        label 0:1 -> 0
        get id 0:1 -> 0
        create pending -> 1:1
        label 1:1 -> 1
        delete 0:1 -> ok
        label 0:1 -> error: not alive
        create -> 0:2
        get id 0:2 -> none
        label 0:2 -> 2
        remove id 0:2 -> 2
        label 0:2 -> 3
        ",
    )?;
    Ok(())
}

#[test]
fn jobs_give_labels(rt: HostRuntime) -> Result<(), Fail> {
    assert_tale(
        &rt,
        rt.alloc(),
        "
        create -> 0:1
        job label 0:1 -> ok
        maintain 9 -> deleted [] ran 1 refused 1 left 0
        register id -> ok
        job label 0:1 -> ok
        job label 7:1 -> ok
        job label 0:1 -> ok
        job label 1:1 -> ok
        create pending -> 1:1
        maintain 9 -> deleted [] ran 4 refused 1 left 0
        get id 0:1 -> 0
        get id 1:1 -> 1
        ",
    )?;
    Ok(())
}

#[test]
fn a_marker_names_one_entity_however_often_it_is_mentioned(rt: HostRuntime) -> Result<(), Fail> {
    assert_tale(
        &rt,
        rt.alloc(),
        "
        register pos -> ok
        register link -> ok
        register id -> ok
        load [ {\"marker\":0, \"components\":[null,[7]]} ] -> ok
        get link 0:1 -> 1:1
        select living -> [0, 1]
        create -> 2:1
        label 2:1 -> 8
        ",
    )?;
    Ok(())
}

#[test]
fn the_last_id_is_given_once(rt: HostRuntime) -> Result<(), Fail> {
    assert_tale(
        &rt,
        rt.alloc(),
        "
        register pos -> ok
        register link -> ok
        register id -> ok
        load [{\"components\":[null,null],\"marker\":18446744073709551615}] -> ok
        create -> 1:1
        label 1:1 -> error: ids exhausted
        label 0:1 -> 18446744073709551615
        ",
    )?;
    Ok(())
}

#[test]
fn a_load_takes_no_dead_entity(rt: HostRuntime) -> Result<(), Fail> {
    assert_tale(
        &rt,
        rt.alloc(),
        "
        register pos -> ok
        register link -> ok
        register id -> ok
        create -> 0:1
        label 0:1 -> 0
        delete 0:1 -> ok
        load [{\"components\":[[3],null],\"marker\":0}] -> ok
        get pos 0:2 -> 3
        ",
    )?;
    Ok(())
}

#[test]
fn a_load_changes_those_that_are_there(rt: HostRuntime) -> Result<(), Fail> {
    assert_tale(
        &rt,
        rt.alloc(),
        "
        register pos -> ok
        register link -> ok
        register id -> ok
        create -> 0:1
        insert pos 0:1 4 -> none
        insert link 0:1 0:1 -> none
        label 0:1 -> 0
        load [{\"components\":[[3],null],\"marker\":0}] -> ok
        get pos 0:1 -> 3
        get link 0:1 -> none
        select living -> [0]
        ",
    )?;
    Ok(())
}

#[test]
fn a_link_to_the_dead_is_not_saved(rt: HostRuntime) -> Result<(), Fail> {
    assert_tale(
        &rt,
        rt.alloc(),
        "
        register pos -> ok
        register link -> ok
        register id -> ok
        create -> 0:1
        create -> 1:1
        insert link 0:1 1:1 -> none
        label 0:1 -> 0
        delete 1:1 -> ok
        save-all -> error: unmarked 1:1
        ",
    )?;
    Ok(())
}

#[test]
fn texts_of_another_form_load_nothing(rt: HostRuntime) -> Result<(), Fail> {
    assert_tale(
        &rt,
        rt.alloc(),
        "
        register pos -> ok
        register link -> ok
        register id -> ok
        load {} -> error: not the form
        load [0] -> error: not the form
        load [{\"components\":[null,null]}] -> error: not the form
        load [{\"components\":[null,null],\"marker\":0,\"x\":1}] -> error: not the form
        load [{\"components\":[null],\"marker\":0}] -> error: not the form
        load [{\"components\":[[1,2],null],\"marker\":0}] -> error: not the form
        load [{\"components\":[[9223372036854775808],null],\"marker\":0}] -> error: not the form
        load [{\"components\":[null,null],\"marker\":-1}] -> error: not the form
        load [{\"components\":[null,null],\"marker\":1.0}] -> error: not the form
        load [{\"components\":[null,null],\"marker\":\"0\"}] -> error: not the form
        load [{\"components\":[null,null],\"marker\":18446744073709551616}] -> error: not the form
        load [{\"components\":[[5],[1]],\"marker\":0},{\"components\":[null,[0]],\"marker\":1} -> error: not the form
        select living -> []
        load [] -> ok
        ",
    )?;
    Ok(())
}

/// Two are loaded, two are labelled at once, and two by jobs: no two have one marker.
#[test]
fn bumps_index_after_reload(rt: HostRuntime) -> Result<(), Fail> {
    assert_tale(
        &rt,
        rt.alloc(),
        "
        register pos -> ok
        register link -> ok
        register id -> ok
        load [{\"components\":[[32],null],\"marker\":0},{\"components\":[[64],null],\"marker\":1}] -> ok
        count id -> 2
        create pending -> 2:1
        job insert pos 2:1 128 -> ok
        job label 2:1 -> ok
        create pending -> 3:1
        job insert pos 3:1 256 -> ok
        job label 3:1 -> ok
        create -> 4:1
        insert pos 4:1 512 -> none
        label 4:1 -> 2
        create -> 5:1
        insert pos 5:1 1024 -> none
        label 5:1 -> 3
        count id -> 4
        label 0:1 -> 0
        label 1:1 -> 1
        maintain 100 -> deleted [] ran 4 refused 0 left 0
        count id -> 6
        label 0:1 -> 0
        label 1:1 -> 1
        label 2:1 -> 4
        label 3:1 -> 5
        ",
    )?;
    Ok(())
}
