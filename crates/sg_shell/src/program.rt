//! The program as `main` runs it.
ghost use Rattle.std.specs.Prelude.{◌≡◌};
ghost use Rattle.sg_shell.specs.Limits.{AreLimits};
ghost use Rattle.sg_shell.specs.Statuses.{code_of};
ghost use Rattle.sg_shell.specs.declared.status.Status.{Status};

use crate::running::run;
use crate::status::Status;
use sg_base::Text;
use sg_edge::{StdSink, StdSource};
use std::env::Env;
use std::io::{Eprint, ErrorKind};
use std::sync::Wait;
use std::{env, io};

// The arguments after the program's name.
fn arguments(rt: &(impl Env + AllocGlobal)) -> io::Result<Vec<Text>> {
    let mut words = Vec::new(rt.alloc());
    for word in env::args(rt)?.skip(1) {
        words.push(Text::of(rt.alloc(), word.as_str())?)?;
    }
    Ok(words)
}

// An argument that isn't UTF-8 has no reading.
fn unread(error: &io::Error) -> Status {
    if error.kind() == ErrorKind::OutOfMemory {
        Status::Memory
    } else {
        Status::Usage
    }
}

fn status<R: Env + Input + Print + AllocGlobal + Wait>(rt: &R) -> Status {
    let words = match arguments(rt) {
        Ok(words) => words,
        Err(error) => return unread(&error),
    };
    let mut source = StdSource::new(rt.reader());
    let mut sink = StdSink::new(io::writer(rt));
    run(rt, rt.alloc(), words.as_slice(), &mut source, &mut sink)
}

/// Gives the arguments, standard input and standard output to `run`, says on standard error how it
/// ended where it didn't end well, and answers the exit status.
pub fn run_program<R: Env + Input + Print + Eprint + AllocGlobal + Wait>(rt: &R) -> u8
    ensures { (s : Status) × (result ≡ code_of s) }
{
    let status = status(rt);
    if let Some(message) = status.message() {
        // A message that can't be written leaves the status to tell of the end.
        let _ = eprintln!(rt; "{message}");
    }
    status.code()
}

/// Each limit is the number that is documented.
pub fn limits_are_exact()
    ensures { AreLimits }
{}
