//! Scripts that run to their end.
use crate::runs::{assert_runs, assert_tale};
use std::test::Fail;

#[test]
fn an_index_is_used_again_with_the_next_generation(rt: HostRuntime) {
    assert_runs(
        &rt,
        rt.alloc(),
        "create\ndelete 0:1\ncreate\n",
        0,
        "0:1\nok\n0:2\n",
        "",
    );
}

#[test]
fn a_selection_of_two_slots_is_what_they_share(rt: HostRuntime) {
    assert_runs(
        &rt,
        rt.alloc(),
        "register pos\nregister link\ncreate\ncreate\ncreate\ninsert pos 0:1 5\ninsert pos 2:1 6\ninsert link 2:1 0:1\nselect and pos link\n",
        0,
        "ok\nok\n0:1\n1:1\n2:1\nnone\nnone\nnone\n[2]\n",
        "",
    );
}

#[test]
fn a_deletion_is_told_to_the_reader_of_a_slot(rt: HostRuntime) {
    assert_runs(
        &rt,
        rt.alloc(),
        "register hp\ncreate\nreader hp\ninsert hp 0:1 3\ndelete 0:1\nevents hp 0\nevents hp 1\nevents pos 0\n",
        0,
        "ok\n0:1\nreader 0\nnone\nok\n[Inserted(0), Removed(0)]\nerror: unknown reader\nerror: unregistered\n",
        "",
    );
}

#[test]
fn events_are_told_in_order_while_they_are_on(rt: HostRuntime) {
    assert_runs(
        &rt,
        rt.alloc(),
        "register hp\nregister pos\nreader pos\nemit pos on\nreader hp\ncreate\ncreate\ninsert hp 0:1 3\ninsert hp 0:1 4\nremove hp 0:1\nremove hp 0:1\nevents hp 0\nevents hp 0\nemit hp off\ninsert hp 0:1 5\ninsert hp 1:1 6\nemit hp on\nmark 1:1\nmaintain 0\nclear hp\nevents hp 0\n",
        0,
        "ok\nok\nerror: untracked\nerror: untracked\nreader 0\n0:1\n1:1\nnone\n3\n4\nnone\n[Inserted(0), Modified(0), Removed(0)]\n[]\nok\nnone\nnone\nok\nok\ndeleted [1:1] ran 0 refused 0 left 0\nok\n[Removed(1), Removed(0)]\n",
        "",
    );
}

#[test]
fn a_stale_entity_is_not_deleted(rt: HostRuntime) {
    assert_runs(
        &rt,
        rt.alloc(),
        "create\ndelete 0:1\ncreate\ndelete 0:1\n",
        0,
        "0:1\nok\n0:2\nerror: Tried to delete entity Entity(0, Generation(1)), but the generation is no longer valid; it should be Generation(2)\n",
        "",
    );
}

#[test]
fn a_refused_deletion_changes_nothing(rt: HostRuntime) {
    assert_runs(
        &rt,
        rt.alloc(),
        "register pos\ncreate\ninsert pos 0:1 5\ndelete 0:1\ncreate\ninsert pos 0:2 7\ndelete 0:1\nget pos 0:2\ndelete 0:2 0:2\nget pos 0:2\nalive 0:2\n",
        0,
        "ok\n0:1\nnone\nok\n0:2\nnone\nerror: Tried to delete entity Entity(0, Generation(1)), but the generation is no longer valid; it should be Generation(2)\n7\nerror: Tried to delete entity Entity(0, Generation(2)), but the generation is no longer valid; it should be Generation(2)\n7\ntrue\n",
        "",
    );
}

#[test]
fn an_empty_script_prints_nothing(rt: HostRuntime) {
    assert_runs(&rt, rt.alloc(), "", 0, "", "");
    assert_runs(&rt, rt.alloc(), "\n\n", 0, "", "");
}

#[test]
fn the_last_line_may_lack_its_line_feed(rt: HostRuntime) {
    assert_runs(&rt, rt.alloc(), "create\n\ncreate", 0, "0:1\n1:1\n", "");
}

#[test]
fn pending_births_and_marks_wait_for_maintain(rt: HostRuntime) {
    assert_runs(
        &rt,
        rt.alloc(),
        "create pending\nalive 0:1\nliving 0:1\nmark 0:1\nliving 0:1\nmaintain 0\nliving 0:1\nentity 0\ncreate\nentity 9\nmark 9:1\n",
        0,
        "0:1\nfalse\ntrue\nok\ntrue\ndeleted [0:1] ran 0 refused 0 left 0\nfalse\n0:-1\n0:2\n9:1\nerror: Tried to delete entity Entity(9, Generation(1)), but the generation is no longer valid; it should be Generation(1)\n",
        "",
    );
}

#[test]
fn the_dead_of_a_maintain_are_ascending_and_lose_their_components(rt: HostRuntime) {
    assert_runs(
        &rt,
        rt.alloc(),
        "register pos\ncreate\ncreate\ncreate\ninsert pos 0:1 1\ninsert pos 1:1 2\ninsert pos 2:1 3\nmark 2:1\nmark 0:1\nselect pos\nmaintain 5\nselect pos\nget pos 1:1\nget pos 2:1\n",
        0,
        "ok\n0:1\n1:1\n2:1\nnone\nnone\nnone\nok\nok\n[0, 1, 2]\ndeleted [0:1, 2:1] ran 0 refused 0 left 0\n[1]\n2\nnone\n",
        "",
    );
}

#[test]
fn each_kind_of_storage_answers_alike(rt: HostRuntime) {
    for slot in ["pos", "vel", "def", "map", "tree", "hp"] {
        let alloc = rt.alloc();
        let script = format!(in alloc;
            "register {slot}\ncreate\ninsert {slot} 0:1 4\ninsert {slot} 0:1 6\ncount {slot}\nremove {slot} 0:1\nremove {slot} 0:1\nget {slot} 0:1\n"
        );
        assert!(rt; script.is_ok(), "memory for the script");
        if let Ok(script) = script {
            assert_runs(
                &rt,
                alloc,
                script.as_str(),
                0,
                "ok\n0:1\nnone\n4\n1\n6\nnone\nnone\n",
                "",
            );
        }
    }
}

#[test]
fn each_component_is_read(rt: HostRuntime) -> Result<(), Fail> {
    assert_tale(
        &rt,
        rt.alloc(),
        "
        create -> 0:1
        register pos -> ok
        register vel -> ok
        register def -> ok
        register map -> ok
        register tree -> ok
        register tag -> ok
        register link -> ok
        insert pos 0:1 1 -> none
        insert vel 0:1 2 -> none
        insert def 0:1 3 -> none
        insert map 0:1 4 -> none
        insert tree 0:1 5 -> none
        insert tag 0:1 tag -> none
        insert link 0:1 0:1 -> none
        get pos 0:1 -> 1
        get vel 0:1 -> 2
        get def 0:1 -> 3
        get map 0:1 -> 4
        get tree 0:1 -> 5
        get tag 0:1 -> tag
        get link 0:1 -> 0:1
        ",
    )?;
    Ok(())
}

#[test]
fn the_storage_without_data_answers_alike(rt: HostRuntime) {
    assert_runs(
        &rt,
        rt.alloc(),
        "register tag\ncreate\ninsert tag 0:1 tag\ninsert tag 0:1 tag\ncount tag\nremove tag 0:1\nremove tag 0:1\nget tag 0:1\n",
        0,
        "ok\n0:1\nnone\ntag\n1\ntag\nnone\nnone\n",
        "",
    );
}

#[test]
fn a_cleared_slot_is_empty_and_stays_registered(rt: HostRuntime) {
    assert_runs(
        &rt,
        rt.alloc(),
        "clear vel\nregister vel\ncreate\ncreate\ninsert vel 0:1 1\ninsert vel 1:1 2\nclear vel\ncount vel\nselect vel\nget vel 1:1\ninsert vel 1:1 -9223372036854775808\nget vel 1:1\n",
        0,
        "error: unregistered\nok\n0:1\n1:1\nnone\nnone\nok\n0\n[]\nnone\nnone\n-9223372036854775808\n",
        "",
    );
}

#[test]
fn refused_commands_name_their_cause(rt: HostRuntime) {
    assert_runs(
        &rt,
        rt.alloc(),
        "register pos\ncreate\ninsert pos 0:1 5\ninsert pos 0:1 -7\ndelete 0:1\ncreate\nget pos 0:1\nget vel 0:2\nselect pos\nmaintain 0\ninsert pos 0:1 1\n",
        0,
        "ok\n0:1\nnone\n5\nok\n0:2\nnone\nerror: unregistered\n[]\ndeleted [] ran 0 refused 0 left 0\nerror: Tried to insert component for entity entity Entity(0, Generation(1)), but the generation is no longer valid; it should be Generation(2)\n",
        "",
    );
}

#[test]
fn replies_stand_before_a_line_that_cannot_be_read(rt: HostRuntime) {
    assert_runs(
        &rt,
        rt.alloc(),
        "register pos\ncreate\ninsert pos 0:1 5\ninsert pos 0:1 -7\ndelete 0:1\ncreate\nget pos 0:1\nget vel 0:2\nselect pos\nmaintain 0\nfrob\n",
        2,
        "ok\n0:1\nnone\n5\nok\n0:2\nnone\nerror: unregistered\n[]\ndeleted [] ran 0 refused 0 left 0\n",
        "line 11: cannot read\n",
    );
}

#[test]
fn everyone_dies_at_once(rt: HostRuntime) -> Result<(), Fail> {
    assert_tale(
        &rt,
        rt.alloc(),
        "
        delete-all -> ok
        register hp -> ok
        reader hp -> reader 0
        create -> 0:1
        create -> 1:1
        create pending -> 2:1
        insert hp 2:1 7 -> none
        insert hp 0:1 8 -> none
        mark 1:1 -> ok
        events hp 0 -> [Inserted(2), Inserted(0)]
        delete-all -> ok
        events hp 0 -> [Removed(0), Removed(2)]
        select living -> []
        select hp -> []
        living 2:1 -> false
        maintain 0 -> deleted [] ran 0 refused 0 left 0
        entity 1 -> 1:-1
        entity 2 -> 2:-1
        ",
    )?;
    Ok(())
}

#[test]
fn a_refused_list_keeps_all_until_everyone_dies(rt: HostRuntime) -> Result<(), Fail> {
    assert_tale(
        &rt,
        rt.alloc(),
        "
        register pos -> ok
        create -> 0:1
        create -> 1:1
        insert pos 1:1 8 -> none
        delete 1:1 0:1 1:1 -> error: Tried to delete entity Entity(1, Generation(1)), but the generation is no longer valid; it should be Generation(1)
        get pos 1:1 -> 8
        delete-all -> ok
        select living -> []
        ",
    )?;
    Ok(())
}
