//! The table of lines, as a stored run of the program: its lines show each form of a line that is
//! read and each error of a line itself.
#![tactic(auto)]

use sg_shell::run_program;
use std::process::ExitCode;

fn main(rt: HostRuntime) -> ExitCode {
    ExitCode::from(run_program(&rt))
}
