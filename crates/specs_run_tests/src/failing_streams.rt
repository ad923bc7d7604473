//! Scripts over readers and writers that fail, each at every place where it can, or that go a byte at a time.
use crate::runs::Tale;
use crate::streams::{Sink, Source};
use specs_run::run_script;
use std::alloc::{AllocError, Global};
use std::process::Abort;
use std::test::Fail;

/// Each line of the language, with its reply.
const LINES: &str = "
    register pos -> ok
    register vel -> ok
    register hp -> ok
    register link -> ok
    register id -> ok
    reader hp -> reader 0
    create -> 0:1
    create -> 1:1
    create pending -> 2:1
    insert pos 0:1 5 -> none
    insert pos 0:1 -7 -> 5
    insert hp 0:1 100 -> none
    insert hp 1:1 80 -> none
    insert link 0:1 1:1 -> none
    get pos 0:1 -> -7
    count hp -> 2
    select or pos hp -> [0, 1]
    emit hp off -> ok
    insert hp 2:1 9 -> none
    emit hp on -> ok
    alive 2:1 -> false
    living 2:1 -> true
    label 0:1 -> 0
    save -> error: unmarked 1:1
    save-all -> [{\"components\":[[-7],[1]],\"marker\":0},{\"components\":[null,null],\"marker\":1}]
    save -> [{\"components\":[[-7],[1]],\"marker\":0},{\"components\":[null,null],\"marker\":1}]
    job insert vel 0:1 3 -> ok
    job remove hp 1:1 -> ok
    job label 2:1 -> ok
    job create -> ok
    job again -> ok
    mark 1:1 -> ok
    maintain 5 -> deleted [1:1] ran 5 refused 0 left 1
    events hp 0 -> [Inserted(0), Inserted(1), Removed(1)]
    entity 1 -> 1:2
    get vel 0:1 -> 3
    remove vel 0:1 -> 3
    clear hp -> ok
    events hp 0 -> [Removed(0), Removed(2)]
    load [{\"components\":[[4],null],\"marker\":7}] -> ok
    select living -> [0, 1, 2, 3]
    get pos 3:1 -> 4
    insert map 0:1 1 -> error: unregistered
    delete 2:1 0:1 -> ok
    delete 2:1 -> error: Tried to delete entity Entity(2, Generation(1)), but the generation is no longer valid; it should be Generation(-1)
    delete-all -> ok
    select living -> []
    ";

const ALL: usize = usize::MAX;

/// How a run's reader and writers behave: how many bytes the reader gives, and how many calls of each writer go well, before one fails; and
/// how many bytes each gives or takes at a time.
#[derive(Clone, Copy)]
struct Streams {
    read: usize,
    written: usize,
    told: usize,
    most: usize,
}

/// None fails.
const SOUND: Streams = Streams {
    read: ALL,
    written: ALL,
    told: ALL,
    most: ALL,
};

/// What a script came to: its status, and what was taken of both outputs.
#[derive(Drop)]
struct Outcome {
    status: u8,
    written: Vec<u8>,
    told: Vec<u8>,
}

fn run(alloc: Global, script: &[u8], streams: Streams) -> Outcome {
    let mut written = Vec::new(alloc);
    let mut told = Vec::new(alloc);
    let most = streams.most;
    let status = run_script(
        alloc,
        Source {
            left: script,
            most,
            sound: streams.read,
        },
        Sink {
            taken: &mut written,
            most,
            sound: streams.written,
        },
        Sink {
            taken: &mut told,
            most,
            sound: streams.told,
        },
    );
    Outcome {
        status,
        written,
        told,
    }
}

fn lines_in(bytes: &[u8]) -> usize {
    bytes.iter().filter(|byte| **byte == b'\n').count()
}

fn lines_in_first(bytes: &[u8], count: usize) -> usize {
    bytes
        .iter()
        .take(count)
        .filter(|byte| **byte == b'\n')
        .count()
}

/// Asserts that a script whose reader fails after so many bytes has printed its replies to the whole lines of these, and nothing else.
fn assert_fails_after<R: Abort>(rt: &R, alloc: Global, tale: &Tale, read: usize, most: usize) {
    let outcome = run(
        alloc,
        tale.script(),
        Streams {
            read,
            most,
            ..SOUND
        },
    );
    assert_eq!(rt; outcome.status, 1, "after {read} bytes");
    assert!(rt;
        tale.printed().starts_with(outcome.written.as_slice()),
        "after {read} bytes"
    );
    let lines = lines_in_first(tale.script(), read);
    assert_eq!(rt;
        lines_in(outcome.written.as_slice()),
        lines,
        "after {read} bytes"
    );
    assert_eq!(rt; outcome.told.len(), 0, "after {read} bytes");
}

/// The same, whether it fails at any byte or at the end.
fn assert_fails_at_each<R: Abort>(rt: &R, alloc: Global, tale: &Tale, most: usize) {
    for read in 0..tale.script().len() {
        assert_fails_after(rt, alloc, tale, read, most);
    }
    assert_fails_after(rt, alloc, tale, tale.script().len(), most);
}

#[test]
fn a_reader_that_fails_leaves_the_replies_to_the_lines_before(rt: HostRuntime) -> Result<(), Fail> {
    let tale = Tale::told(&rt, rt.alloc(), LINES)?;
    assert_fails_at_each(&rt, rt.alloc(), &tale, ALL);
    assert_fails_at_each(&rt, rt.alloc(), &tale, 1);
    Ok(())
}

/// Asserts that a script prints these replies, and tells that.
fn assert_whole<R: Abort>(rt: &R, outcome: &Outcome, printed: &[u8], status: u8, told: &str) {
    assert_eq!(rt; outcome.status, status);
    assert!(rt; outcome.written.as_slice() == printed);
    assert!(rt; outcome.told.as_slice() == told.as_bytes());
}

#[test]
fn a_byte_at_a_time_is_read_and_written_whole(rt: HostRuntime) -> Result<(), Fail> {
    let tale = Tale::told(&rt, rt.alloc(), LINES)?;
    let plain = run(rt.alloc(), tale.script(), SOUND);
    assert_whole(&rt, &plain, tale.printed(), 0, "");
    let slow = run(rt.alloc(), tale.script(), Streams { most: 1, ..SOUND });
    assert_whole(&rt, &slow, tale.printed(), 0, "");
    Ok(())
}

/// A script whose last line but one can't be read, with what it prints and tells.
#[derive(Drop)]
struct Unreadable {
    tale: Tale,
    script: Vec<u8>,
    told: String,
}

fn with_unreadable_line<R: Abort>(rt: &R, alloc: Global) -> Result<Unreadable, AllocError> {
    let tale = Tale::told(rt, alloc, LINES)?;
    let mut script = Vec::new(alloc);
    script.extend_from_slice(tale.script())?;
    script.extend_from_slice(b"frob\ncreate\n")?;
    let before = lines_in(tale.script()) as u64;
    let told = format!(in alloc; "line {}: cannot read\n", before.wrapping_add(1))?;
    Ok(Unreadable { tale, script, told })
}

#[test]
fn a_byte_at_a_time_of_an_unreadable_line_is_told_whole(rt: HostRuntime) -> Result<(), Fail> {
    let lines = with_unreadable_line(&rt, rt.alloc())?;
    let plain = run(rt.alloc(), &lines.script, SOUND);
    assert_whole(&rt, &plain, lines.tale.printed(), 2, lines.told.as_str());
    let slow = run(rt.alloc(), &lines.script, Streams { most: 1, ..SOUND });
    assert_whole(&rt, &slow, lines.tale.printed(), 2, lines.told.as_str());
    Ok(())
}

/// Asserts that a script of which a call of the first writer fails has printed a beginning of its replies, and tells whether there was no such call.
fn is_past_the_last_call<R: Abort>(
    rt: &R,
    alloc: Global,
    tale: &Tale,
    written: usize,
    most: usize,
) -> bool {
    let streams = Streams {
        read: ALL,
        written,
        told: ALL,
        most,
    };
    let outcome = run(alloc, tale.script(), streams);
    assert!(rt;
        tale.printed().starts_with(outcome.written.as_slice()),
        "at call {written}"
    );
    assert_eq!(rt; outcome.told.len(), 0, "at call {written}");
    if outcome.status == 0 {
        assert!(rt; outcome.written.as_slice() == tale.printed());
        return true;
    }
    assert_eq!(rt; outcome.status, 1, "at call {written}");
    false
}

/// The number of calls that a script makes of its writer, each of which fails once.
fn calls_that_fail<R: Abort>(rt: &R, alloc: Global, tale: &Tale, most: usize) -> usize {
    for written in 0..100_000 {
        if is_past_the_last_call(rt, alloc, tale, written, most) {
            return written;
        }
    }
    panic!(rt; "there are no so many calls");
}

#[test]
fn a_writer_that_fails_has_a_beginning_of_the_replies(rt: HostRuntime) -> Result<(), Fail> {
    let tale = Tale::told(&rt, rt.alloc(), LINES)?;
    assert!(rt; calls_that_fail(&rt, rt.alloc(), &tale, ALL) > 0);
    let calls = calls_that_fail(&rt, rt.alloc(), &tale, 1);
    assert!(rt;
        calls > tale.printed().len(),
        "a call for each byte, and more to flush"
    );
    Ok(())
}

/// Asserts that an unreadable line, where a call of the second writer fails, is told in its beginning, and says whether there was no such call.
fn is_told_whole<R: Abort>(
    rt: &R,
    alloc: Global,
    lines: &Unreadable,
    told: usize,
    most: usize,
) -> bool {
    let streams = Streams {
        read: ALL,
        written: ALL,
        told,
        most,
    };
    let outcome = run(alloc, &lines.script, streams);
    assert!(rt;
        outcome.written.as_slice() == lines.tale.printed(),
        "at call {told}"
    );
    assert!(rt;
        lines.told.as_bytes().starts_with(outcome.told.as_slice()),
        "at call {told}"
    );
    if outcome.status == 2 {
        assert!(rt; outcome.told.as_slice() == lines.told.as_bytes());
        return true;
    }
    assert_eq!(rt; outcome.status, 1, "at call {told}");
    false
}

/// The number of calls by which an unreadable line is told, each of which fails once.
fn telling_calls_that_fail<R: Abort>(
    rt: &R,
    alloc: Global,
    lines: &Unreadable,
    most: usize,
) -> usize {
    for told in 0..1_000 {
        if is_told_whole(rt, alloc, lines, told, most) {
            return told;
        }
    }
    panic!(rt; "there are no so many calls");
}

#[test]
fn a_second_writer_that_fails_has_a_beginning_of_what_is_told(rt: HostRuntime) -> Result<(), Fail> {
    let lines = with_unreadable_line(&rt, rt.alloc())?;
    assert!(rt; telling_calls_that_fail(&rt, rt.alloc(), &lines, ALL) > 0);
    let calls = telling_calls_that_fail(&rt, rt.alloc(), &lines, 1);
    assert!(rt;
        calls > lines.told.len(),
        "a call for each byte, and one to flush"
    );
    Ok(())
}
