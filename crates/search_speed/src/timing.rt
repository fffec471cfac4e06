//! How long a work takes.

use std::io;
use std::io::ErrorKind;
use std::time::Instant;

/// Writes what was done since the start, and how often.
pub fn report(rt: &HostRuntime, work: &str, count: usize, start: Instant) -> io::Result<()> {
    let time = start.elapsed(rt)?;
    eprintln!(rt; "{work}\t{count}\t{}", time.as_nanos())
}

/// For input of another form.
pub fn invalid() -> io::Error {
    io::Error::from(ErrorKind::InvalidData)
}
