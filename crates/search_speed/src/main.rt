//! Builds segments of the documents of standard input, and asks one the queries behind them, for
//! `bench/segments` and `bench/search`. Standard output has the answers, standard error a line for
//! each work: what was done, how often, and how many nanoseconds it took.
#![tactic(auto)]

mod building;
mod queries;
mod reading;
mod searching;
mod timing;

use building::{build, build_copies};
use queries::answer_groups;
use reading::{read_count, read_documents};
use std::io;
use std::io::BufReader;
use std::process::ExitCode;

fn measure(rt: &HostRuntime) -> io::Result<()> {
    let alloc = rt.alloc();
    let mut source = BufReader::new(alloc, rt.reader())?;
    let segments = read_count(alloc, &mut source)?;
    let documents = read_documents(alloc, &mut source)?;
    // They are kept, so that memory can be seen to grow by a segment at a time.
    let _copies = build_copies(alloc, documents.as_slice(), segments)?;
    let segment = build(rt, documents)?;
    eprintln!(rt; "ready")?;
    answer_groups(rt, &segment, &mut source)
}

fn main(rt: HostRuntime) -> ExitCode {
    match measure(&rt) {
        Ok(()) => ExitCode::SUCCESS,
        Err(error) => {
            let _ = eprintln!(rt; "{error}");
            ExitCode::FAILURE
        }
    }
}
