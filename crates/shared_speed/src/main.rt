//! Threads that share one index, to see how fast it is, for `bench/shared`. Each has a handle of
//! its own.
//!
//! - `shared_speed accept THREADS TIMES`: so many threads add so many documents each.
//! - `shared_speed query THREADS TIMES`: so many threads ask so many queries each, over one segment
//!   of 10,000 documents, each query in a view of its own.
//! - `shared_speed beside THREADS TIMES`: so many threads ask queries likewise, for as long as one
//!   thread more makes so many changes: adds, with an offer and at most one merge behind each
//!   hundredth.
//!
//! Standard output has what is known beforehand, standard error how many adds or queries were made
//! and how many nanoseconds that took. Without arguments there is a little of each.
#![tactic(auto)]

mod adding;
mod changing;
mod documents;
mod querying;
mod tally;
mod working;

ghost use Rattle.std.specs.Prelude.{◌<◌, length};
ghost use Rattle.index_shared.specs.Sections.{IsAt};
ghost use Rattle.turn_lock.specs.declared.limits.TheConstants.{MOST_SEATS};
ghost use Rattle.shared_speed.specs.Sharing.{AreAt};

use crate::adding::add_often;
use crate::changing::ask_beside_changes;
use crate::querying::ask_numbered;
use crate::tally::Tally;
use crate::working::{Shift, Task, work_beside};
use index_shared::{Handle, Index};
use path_desk::Desk;
use std::alloc::Global;
use std::env::Env;
use std::io::ErrorKind;
use std::process::ExitCode;
use std::rt::Clock;
use std::sync::Wait;
use std::thread::Threads;
use std::time::Instant;
use std::{env, io};
use turn_lock::MOST_SEATS;

/// How many documents are there before queries.
const DOCUMENTS: u32 = 10_000;

/// What is measured.
#[derive(Clone, Copy, Debug, PartialEq, Eq)]
enum Measure {
    Accept,
    Query,
    Beside,
}

/// How many threads there are, and how often each does its work, or the one that changes.
#[derive(Clone, Copy, Debug)]
struct Load {
    measure: Measure,
    threads: u32,
    times: u32,
}

/// What came of a load.
#[derive(Clone, Copy, Debug)]
struct Outcome {
    tally: Tally,
    nanoseconds: u128,
    /// How many operations a view sees in the end.
    upto: u64,
}

fn measure_of(word: &str) -> Option<Measure> {
    match word {
        "accept" => Some(Measure::Accept),
        "query" => Some(Measure::Query),
        "beside" => Some(Measure::Beside),
        _ => None,
    }
}

// The load that three words ask for.
fn load_of(measure: &str, threads: &str, times: &str) -> Option<Load> {
    Some(Load {
        measure: measure_of(measure)?,
        threads: threads.parse::<u32>().ok()?,
        times: times.parse::<u32>().ok()?,
    })
}

/// What the arguments ask for.
#[derive(Clone, Copy, Debug)]
enum Request {
    ALittleOfEach,
    One(Load),
}

fn wanted(rt: &(impl Env + AllocGlobal)) -> Option<Request> {
    let mut words = env::args(rt).ok()?.skip(1);
    let Some(measure) = words.next() else {
        return Some(Request::ALittleOfEach);
    };
    let threads = words.next()?;
    let times = words.next()?;
    let load = load_of(measure.as_str(), threads.as_str(), times.as_str())?;
    Some(Request::One(load))
}

// What is there before the time counts.
fn fill(
    wait: &impl Wait,
    alloc: Global,
    index: &Index,
    handle: &mut Handle,
    measure: Measure,
) -> Option<()>
    requires at { IsAt index.now handle.old }
    ensures at { IsAt index.now handle.new }
{
    if measure == Measure::Accept {
        return Some(());
    }
    add_often(wait, alloc, index, handle, DOCUMENTS)?;
    index.offer(wait, handle).ok()?;
    Some(())
}

// What is counted.
fn work<R: Threads + Wait + Sync>(
    rt: &R,
    alloc: Global,
    index: &Index,
    main: &mut Handle,
    others: &mut [Handle],
    load: Load,
) -> Option<Tally>
    requires at { IsAt index.now main.old }
    requires others { AreAt index.now others.old }
    ensures at { IsAt index.now main.new }
{
    let times = load.times;
    match load.measure {
        Measure::Accept => work_beside(rt, alloc, index, others, &Shift::new(Task::Add, times)),
        Measure::Query => work_beside(rt, alloc, index, others, &Shift::new(Task::Ask, times)),
        Measure::Beside => ask_beside_changes(rt, alloc, index, main, others, times),
    }
}

fn run_through<R: Threads + Wait + Sync + Clock>(
    rt: &R,
    alloc: Global,
    index: &Index,
    main: &mut Handle,
    others: &mut [Handle],
    load: Load,
) -> Option<Outcome>
    requires at { IsAt index.now main.old }
    requires others { AreAt index.now others.old }
{
    fill(rt, alloc, index, main, load.measure)?;
    let start = Instant::now(rt).ok()?;
    let tally = work(rt, alloc, index, main, others, load)?;
    let nanoseconds = start.elapsed(rt).ok()?.as_nanos();
    let mut desk = Desk::new(alloc);
    let found = ask_numbered(rt, alloc, index, main, 0, &mut desk)?;
    Some(Outcome {
        tally,
        nanoseconds,
        upto: found.upto,
    })
}

fn run_through_all<R: Threads + Wait + Sync + Clock>(
    rt: &R,
    alloc: Global,
    index: &Index,
    handles: &mut [Handle],
    load: Load,
) -> Option<Outcome>
    requires some { 0 < length handles.old }
    requires at { AreAt index.now handles.old }
{
    let (main, others) = handles.split_at_mut(1);
    run_through(rt, alloc, index, &mut main[0], others, load)
}

/// What comes of a load over an index of its own. None where there is no memory or no clock, or the
/// index is full.
fn run<R: Threads + Wait + Sync + Clock>(rt: &R, alloc: Global, load: Load) -> Option<Outcome>
    requires threads { load.threads < MOST_SEATS }
{
    let Ok((index, mut handles)) = Index::new(alloc, load.threads + 1) else {
        return None;
    };
    run_through_all(rt, alloc, &index, handles.as_mut_slice(), load)
}

fn tell<R: Print + Eprint>(rt: &R, load: Load, outcome: Outcome) -> io::Result<()> {
    let Outcome {
        tally: Tally { times, rows },
        nanoseconds,
        upto,
    } = outcome;
    match load.measure {
        Measure::Accept => println!(rt; "{times} accepted, upto {upto}")?,
        Measure::Query => println!(rt; "{times} queries, {rows} rows, upto {upto}")?,
        Measure::Beside => println!(rt; "{} changes beside queries, upto {upto}", load.times)?,
    }
    eprintln!(rt; "{times}\t{nanoseconds}")
}

fn run_and_tell<R: Threads + Wait + Sync + Clock + Print + Eprint + AllocGlobal>(
    rt: &R,
    load: Load,
) -> io::Result<()> {
    if load.threads < 1 || load.threads >= MOST_SEATS {
        return Err(io::Error::from(ErrorKind::InvalidInput));
    }
    match run(rt, rt.alloc(), load) {
        Some(outcome) => tell(rt, load, outcome),
        None => Err(io::Error::from(ErrorKind::OutOfMemory)),
    }
}

fn little(measure: Measure, times: u32) -> Load {
    Load {
        measure,
        threads: 2,
        times,
    }
}

fn answer<R: Threads + Wait + Sync + Clock + Print + Eprint + AllocGlobal>(
    rt: &R,
    request: Request,
) -> io::Result<()> {
    match request {
        Request::One(load) => run_and_tell(rt, load),
        Request::ALittleOfEach => {
            run_and_tell(rt, little(Measure::Accept, 1_000))?;
            run_and_tell(rt, little(Measure::Query, 100))?;
            run_and_tell(rt, little(Measure::Beside, 300))
        }
    }
}

fn main(rt: HostRuntime) -> ExitCode {
    let Some(request) = wanted(&rt) else {
        return ExitCode::from(2);
    };
    match answer(&rt, request) {
        Ok(()) => ExitCode::SUCCESS,
        Err(error) => {
            let _ = eprintln!(rt; "{error}");
            ExitCode::FAILURE
        }
    }
}

#[cfg(test)]
mod tests;
