//! Runs a script and compares.
use specs_run::run_script;
use std::alloc::{AllocError, Global};
use std::process::Abort;

/// What a script came to: its status, and what it wrote to both outputs.
#[derive(Drop)]
struct Outcome {
    status: u8,
    written: Vec<u8>,
    told: Vec<u8>,
}

fn run(alloc: Global, script: &[u8]) -> Outcome {
    let mut written = Vec::new(alloc);
    let mut told = Vec::new(alloc);
    let status = run_script(alloc, script, &mut written, &mut told);
    Outcome {
        status,
        written,
        told,
    }
}

/// Runs a script of lines, and asserts its status and both outputs. Each line and each reply ends with a line feed.
pub fn assert_runs<R: Abort>(
    rt: &R,
    alloc: Global,
    script: &str,
    status: u8,
    output: &str,
    faults: &str,
) {
    let outcome = run(alloc, script.as_bytes());
    assert_text(rt, outcome.written.as_slice(), output, script);
    assert_text(rt, outcome.told.as_slice(), faults, script);
    assert_eq!(rt; outcome.status, status, "of {script}");
}

/// Asserts that the lines of a text are these, of which a failure tells the first that differs.
fn assert_text<R: Abort>(rt: &R, bytes: &[u8], wanted: &str, script: &str) {
    if bytes == wanted.as_bytes() {
        return;
    }
    let text = str::from_utf8(bytes).unwrap_or_default();
    for (line, other) in text.split('\n').zip(wanted.split('\n')) {
        assert_eq!(rt; line, other, "of {script}");
    }
    panic!(rt; "more lines or fewer, of {script}");
}

/// A script, with what it prints.
#[derive(Drop)]
pub struct Tale {
    script: String,
    printed: String,
}

impl Tale {
    /// An empty script, which prints nothing.
    pub fn new(alloc: Global) -> Self {
        Tale {
            script: String::new(alloc),
            printed: String::new(alloc),
        }
    }

    /// Commands, each with its reply: `create -> 0:1` in a line.
    pub fn told<R: Abort>(rt: &R, alloc: Global, lines: &str) -> Result<Tale, AllocError> {
        let mut tale = Tale::new(alloc);
        tale.tell(rt, lines)?;
        Ok(tale)
    }

    /// The bytes of the script.
    pub fn script(&self) -> &[u8] {
        self.script.as_bytes()
    }

    /// The bytes that the script prints.
    pub fn printed(&self) -> &[u8] {
        self.printed.as_bytes()
    }

    /// One command more, with its reply.
    pub fn line(&mut self, command: &str, reply: &str) -> Result<(), AllocError> {
        self.script.push_str(command)?;
        self.script.push('\n')?;
        self.printed.push_str(reply)?;
        self.printed.push('\n')
    }

    /// Commands, each with its reply: `create -> 0:1` in a line. A line that is not blank has an arrow.
    fn tell<R: Abort>(&mut self, rt: &R, lines: &str) -> Result<(), AllocError> {
        for line in lines.split('\n') {
            match line.split_once(" -> ") {
                Some((command, reply)) => self.line(command.trim(), reply)?,
                None => assert_eq!(rt; line.trim(), "", "a line without an arrow"),
            }
        }
        Ok(())
    }

    /// Asserts that the script runs to its end and prints that. A failure tells the command whose reply differs.
    pub fn assert_holds<R: Abort>(&self, rt: &R, alloc: Global) {
        let outcome = run(alloc, self.script.as_bytes());
        self.assert_replies(rt, outcome.written.as_slice());
        assert_text(rt, outcome.told.as_slice(), "", self.script.as_str());
        assert_eq!(rt; outcome.status, 0);
    }

    /// Asserts that these are the replies.
    fn assert_replies<R: Abort>(&self, rt: &R, bytes: &[u8]) {
        if bytes == self.printed.as_bytes() {
            return;
        }
        let replies = str::from_utf8(bytes).unwrap_or_default();
        let commands = self.script.split('\n');
        let pairs = replies.split('\n').zip(self.printed.split('\n'));
        for ((reply, wanted), command) in pairs.zip(commands) {
            assert_eq!(rt; reply, wanted, "to {command}");
        }
        panic!(rt; "more replies or fewer");
    }
}

/// Asserts that commands have these replies: `create -> 0:1` in a line.
pub fn assert_tale<R: Abort>(rt: &R, alloc: Global, lines: &str) -> Result<(), AllocError> {
    Tale::told(rt, alloc, lines)?.assert_holds(rt, alloc);
    Ok(())
}
