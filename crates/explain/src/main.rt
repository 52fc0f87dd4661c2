//! Explains, for each line of standard input, whether it passes the check that the words name.
#![tactic(auto)]

use explain_run::run_program;
use std::process::ExitCode;

fn main(rt: HostRuntime) -> ExitCode {
    ExitCode::from(run_program(&rt))
}
