//! Scripts that queue jobs.
use crate::runs::assert_runs;

#[test]
fn jobs_of_a_script_run_in_their_order(rt: HostRuntime) {
    assert_runs(
        &rt,
        rt.alloc(),
        "register pos\njob insert pos 0:1 4\njob again\ncreate pending\nmaintain 2\nget pos 0:1\n",
        0,
        "ok\nok\nok\n0:1\ndeleted [] ran 2 refused 0 left 1\n4\n",
        "",
    );
}

#[test]
fn a_job_on_an_entity_that_is_not_alive_is_counted(rt: HostRuntime) {
    assert_runs(
        &rt,
        rt.alloc(),
        "register pos\njob insert pos 7:1 4\nmaintain 9\n",
        0,
        "ok\nok\ndeleted [] ran 1 refused 1 left 0\n",
        "",
    );
}

#[test]
fn jobs_come_after_the_dead_are_removed(rt: HostRuntime) {
    assert_runs(
        &rt,
        rt.alloc(),
        "register pos\ncreate\ninsert pos 0:1 5\nmark 0:1\njob insert pos 0:1 7\njob remove pos 0:1\nmaintain 9\nselect pos\ncreate\nget pos 0:2\n",
        0,
        "ok\n0:1\nnone\nok\nok\nok\ndeleted [0:1] ran 2 refused 1 left 0\n[]\n0:2\nnone\n",
        "",
    );
}

#[test]
fn the_limit_is_of_the_jobs_that_ran(rt: HostRuntime) {
    assert_runs(
        &rt,
        rt.alloc(),
        "job create\njob again\nmaintain 0\nselect living\nmaintain 3\nselect living\nalive 0:1\nliving 0:1\nmaintain 18446744073709551615 \n",
        2,
        "ok\nok\ndeleted [] ran 0 refused 0 left 2\n[]\ndeleted [] ran 3 refused 0 left 1\n[0]\nfalse\ntrue\n",
        "line 9: cannot read\n",
    );
}

#[test]
fn a_removal_from_an_unregistered_slot_is_not_counted(rt: HostRuntime) {
    assert_runs(
        &rt,
        rt.alloc(),
        "create\njob remove vel 0:1\njob insert vel 0:1 3\nmaintain 18446744073709551615\n",
        0,
        "0:1\nok\nok\ndeleted [] ran 2 refused 1 left 0\n",
        "",
    );
}

#[test]
fn a_job_that_no_line_tells_is_not_read(rt: HostRuntime) {
    assert_runs(
        &rt,
        rt.alloc(),
        "job create\njob mark 0:1\n",
        2,
        "ok\n",
        "line 2: cannot read\n",
    );
}
