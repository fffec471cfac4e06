//! The program: `run_program` on this machine's arguments and streams.
#![tactic(auto)]

use sg_shell::run_program;
use std::process::ExitCode;

fn main(rt: HostRuntime) -> ExitCode {
    ExitCode::from(run_program(&rt))
}
