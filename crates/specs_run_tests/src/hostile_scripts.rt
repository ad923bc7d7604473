//! Scripts that can't be read, and readers and writers that fail.
use crate::runs::assert_runs;
use specs_run::run_script;
use std::io::{self, Read, Write};

#[test]
fn an_unreadable_line_ends_the_script(rt: HostRuntime) {
    assert_runs(
        &rt,
        rt.alloc(),
        "create\nfrob\ncreate\n",
        2,
        "0:1\n",
        "line 2: cannot read\n",
    );
    assert_runs(&rt, rt.alloc(), "\n\nfrob", 2, "", "line 3: cannot read\n");
}

#[test]
fn lines_of_another_form_are_not_read(rt: HostRuntime) {
    for line in [
        " create",
        "create ",
        "create  pending",
        "create\r",
        "\t",
        "delete",
        "delete 0",
        "delete 0:0",
        "delete 00:1",
        "delete 0:01",
        "delete +0:1",
        "delete 0:2147483648",
        "delete 0:-2147483649",
        "delete 4294967296:1",
        "insert pos 0:1 -0",
        "insert pos 0:1 +1",
        "insert pos 0:1 9223372036854775808",
        "insert pos 0:1 -9223372036854775809",
        "insert pos 0:1",
        "insert tag 0:1 5",
        "insert link 0:1 5",
        "register ids",
        "insert id 0:1 0",
        "job insert id 0:1 0",
        "label",
        "label 0",
        "label 0:1 1:1",
        "job label",
        "save all",
        "save ",
        "save-all 0:1",
        "load",
        "load ",
        "load  []",
        "load [] ",
        "select",
        "select and pos",
        "select not",
        "select pos pos",
        "select living living",
        "select pos not",
        "select and pos pos pos",
        "select nor pos vel",
        "select  pos",
        "select pos ",
        "entity 4294967296",
        "maintain",
        "maintain 18446744073709551616",
        "maintain -1",
        "CREATE",
    ] {
        assert_runs(&rt, rt.alloc(), line, 2, "", "line 1: cannot read\n");
    }
}

#[test]
fn the_greatest_numbers_are_read(rt: HostRuntime) {
    assert_runs(
        &rt,
        rt.alloc(),
        "alive 4294967295:2147483647\nliving 0:-2147483648\nentity 4294967295\nmaintain 18446744073709551615\n",
        0,
        "false\nfalse\n4294967295:1\ndeleted [] ran 0 refused 0 left 0\n",
        "",
    );
}

#[test]
fn bytes_that_are_no_text_are_an_unreadable_line(rt: HostRuntime) {
    let mut written = Vec::new(rt.alloc());
    let mut told = Vec::new(rt.alloc());
    let script = [b'c', b'r', b'e', b'a', b't', b'e', b'\n', 0xff, b'\n'];
    let status = run_script(rt.alloc(), script.as_slice(), &mut written, &mut told);
    assert_eq!(rt; status, 2);
    assert_eq!(rt; written.as_slice(), b"0:1\n".as_slice());
    assert_eq!(rt; told.as_slice(), b"line 2: cannot read\n".as_slice());
}

/// A reader that fails after some bytes.
#[derive(Drop)]
struct FailingReader {
    left: usize,
}

impl Read for FailingReader {
    fn read(&mut self, buf: &mut [u8]) -> io::Result<usize> {
        if self.left == 0 || buf.is_empty() {
            return Err(io::Error::from(io::ErrorKind::Other));
        }
        self.left -= 1;
        buf[0] = b'\n';
        Ok(1)
    }
}

/// A writer that takes nothing.
#[derive(Drop)]
struct FailingWriter;

impl Write for FailingWriter {
    fn write(&mut self, _buf: &[u8]) -> io::Result<usize> {
        Err(io::Error::from(io::ErrorKind::Other))
    }

    fn flush(&mut self) -> io::Result<()> {
        Ok(())
    }
}

#[test]
fn failing_reads_and_writes_are_status_one(rt: HostRuntime) {
    let mut written = Vec::new(rt.alloc());
    let mut told = Vec::new(rt.alloc());
    let status = run_script(
        rt.alloc(),
        FailingReader { left: 3 },
        &mut written,
        &mut told,
    );
    assert_eq!(rt; status, 1);
    assert_eq!(rt; told.len(), 0);
    let status = run_script(rt.alloc(), b"create\n".as_slice(), FailingWriter, &mut told);
    assert_eq!(rt; status, 1);
    assert_eq!(rt; told.len(), 0);
    let status = run_script(
        rt.alloc(),
        b"frob\n".as_slice(),
        &mut written,
        FailingWriter,
    );
    assert_eq!(rt; status, 1);
}
