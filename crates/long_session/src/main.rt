//! A long session, as a stored run of the program: documents come, change and go while views stay
//! open, and many queries find their queue spent on deleted paths. Each reply was worked out by a
//! model in another language.
#![tactic(auto)]

use sg_shell::run_program;
use std::process::ExitCode;

fn main(rt: HostRuntime) -> ExitCode {
    ExitCode::from(run_program(&rt))
}
