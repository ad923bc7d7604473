//! `specs-run`: reads a script of world commands on standard input, a line each, and prints the replies.
#![tactic(auto)]

ghost use Rattle.std.specs.Prelude.{◌≡◌};
ghost use Rattle.std.specs.Process.{exit_status};

use specs_run::run_script;
use std::process::ExitCode;

fn main(rt: HostRuntime) -> ExitCode {
    let status = run_script(rt.alloc(), rt.stdin(), rt.stdout(), rt.stderr());
    exit_code(status)
}

/// The program ends with the status of its script.
fn exit_code(status: u8) -> ExitCode
    ensures { exit_status result ≡ status }
{
    ExitCode::from(status)
}
