//! Checks records of JSON, one on a line, against the rules of a file.
#![tactic(auto)]

use std::io::IsTerminal;
use std::process::ExitCode;
use vet_program::{Terminals, run_program};

fn main(rt: HostRuntime) -> ExitCode {
    let terminals = Terminals {
        output: rt.stdout().is_terminal(),
        error: rt.stderr().is_terminal(),
    };
    ExitCode::from(run_program(&rt, terminals))
}
