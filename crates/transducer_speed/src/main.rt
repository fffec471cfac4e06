//! Sorts the paths of standard input, builds their transducer and checks its bytes, for
//! `bench/transducers`. Standard output has the counts, standard error the times.
#![tactic(auto)]

mod reading;

use fst_code::{CodeError, Transducer};
use fst_tests::{Row, RowsError, transducer_of};
use reading::read_rows;
use sg_base::Bytes;
use std::io;
use std::io::ErrorKind;
use std::process::ExitCode;
use std::time::Instant;

fn report(rt: &HostRuntime, work: &str, start: Instant) -> io::Result<()> {
    let time = start.elapsed(rt)?;
    eprintln!(rt; "{work} {} us", time.as_micros())
}

fn invalid<T>() -> io::Result<T> {
    Err(io::Error::from(ErrorKind::InvalidData))
}

fn path_bytes(rows: &[Row]) -> u64 {
    let lengths = rows.iter().map(|row| row.path.len() as u64);
    lengths.fold(0, |sum: u64, length| sum.saturating_add(length))
}

fn build(rt: &HostRuntime, rows: &[Row]) -> io::Result<Transducer> {
    let start = Instant::now(rt)?;
    let transducer = transducer_of(rt.alloc(), rows);
    report(rt, "build", start)?;
    match transducer {
        Ok(transducer) => Ok(transducer),
        Err(RowsError::Row { at: _ }) => invalid(),
        Err(RowsError::Memory) => Err(io::Error::from(ErrorKind::OutOfMemory)),
    }
}

fn check(rt: &HostRuntime, bytes: Bytes) -> io::Result<Transducer> {
    let start = Instant::now(rt)?;
    let checked = Transducer::check(rt.alloc(), bytes);
    report(rt, "check", start)?;
    match checked {
        Ok(transducer) => Ok(transducer),
        Err(CodeError::Bad { rule: _, at: _ }) => invalid(),
        Err(CodeError::Memory) => Err(io::Error::from(ErrorKind::OutOfMemory)),
    }
}

fn measure(rt: &HostRuntime) -> io::Result<()> {
    let mut rows = read_rows(rt)?;
    let start = Instant::now(rt)?;
    rows.sort_unstable_by(|a, b| a.path.as_slice().cmp(&b.path.as_slice()));
    report(rt, "sort", start)?;
    let transducer = build(rt, &rows)?;
    let transducer = check(rt, Bytes::of(rt.alloc(), transducer.bytes())?)?;
    println!(rt; "{} paths", transducer.paths())?;
    println!(rt; "{} bytes of paths", path_bytes(&rows))?;
    println!(rt; "{} bytes of the transducer", transducer.bytes().len())
}

fn main(rt: HostRuntime) -> ExitCode {
    match measure(&rt) {
        Ok(()) => ExitCode::SUCCESS,
        Err(error) => {
            let _ = eprintln!(rt; "{error}");
            ExitCode::FAILURE
        }
    }
}
