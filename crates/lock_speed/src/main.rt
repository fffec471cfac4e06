//! Threads that take and give one lock in turn, to see how fast it is. `lock_speed THREADS TIMES`
//! has so many threads, from 1 to 17, with so many critical sections each, and prints how often each
//! handle came by. Without arguments it has two threads and 1,000 sections each.
#![tactic(auto)]

mod visits;

ghost use Rattle.std.specs.Prelude.{◌<◌, ◌≤◌, ℕ, length, slice_index_or};
ghost use Rattle.turn_lock.specs.Handles.{Handle};
ghost use Rattle.lock_speed.specs.Visiting.{IsOutside};
ghost use Rattle.turn_lock.specs.declared.limits.TheConstants.{MOST_SEATS};

use crate::visits::{Visits, numbers_found, visit_beside};
use std::alloc::{AllocError, Global};
use std::env;
use std::env::Env;
use std::process::ExitCode;
use std::sync::Wait;
use std::thread::Threads;
use turn_lock::{MOST_SEATS, Pass, TurnLock};

/// How many threads there are, and how many critical sections each of them has.
#[derive(Drop)]
struct Load {
    threads: u32,
    times: u32,
}

/// What the arguments ask for.
fn wanted_load(rt: &(impl Env + AllocGlobal)) -> Option<Load> {
    let mut words = env::args(rt).ok()?.skip(1);
    let Some(threads) = words.next() else {
        return Some(Load {
            threads: 2,
            times: 1_000,
        });
    };
    let times = words.next()?;
    Some(Load {
        threads: threads.as_str().parse::<u32>().ok()?,
        times: times.as_str().parse::<u32>().ok()?,
    })
}

/// How often each number stands in the list, for those below `seats`.
fn count_each(alloc: Global, numbers: &[u32], seats: u32) -> Result<Vec<u32>, AllocError> {
    let mut counts = vec![in alloc; 0u32; seats as usize]?;
    for number in numbers {
        if let Some(count) = counts.get_mut(*number as usize) {
            *count = count.saturating_add(1);
        }
    }
    Ok(counts)
}

/// So many visits of each handle beside one another, and then all numbers.
fn visit_and_look<R: Threads + Wait + Sync>(
    rt: &R,
    alloc: Global,
    lock: &TurnLock<Visits>,
    passes: &mut [Pass<Visits>],
    times: u32,
) -> Result<Vec<u32>, AllocError>
    requires some { 0 < length passes.old }
    requires outside { (k : ℕ) (h : Handle ℕ ℕ) → k < length passes.old
        → IsOutside lock.now (slice_index_or passes.old k h) }
{
    if !visit_beside(rt, lock, passes, times) {
        return Err(AllocError);
    }
    numbers_found(rt, alloc, lock, &mut passes[0])
}

/// How often each handle came by, by its number.
fn run<R: Threads + Wait + Sync>(
    rt: &R,
    alloc: Global,
    threads: u32,
    times: u32,
) -> Result<Vec<u32>, AllocError>
    requires threads { (1 ≤ threads) × (threads ≤ MOST_SEATS) }
{
    let visits = Visits::with_room(alloc, threads as usize * times as usize)?;
    let (lock, mut passes) = TurnLock::new(alloc, visits, threads)?;
    let numbers = visit_and_look(rt, alloc, &lock, passes.as_mut_slice(), times)?;
    count_each(alloc, numbers.as_slice(), threads)
}

fn main(rt: HostRuntime) -> ExitCode {
    let Some(load) = wanted_load(&rt) else {
        return ExitCode::from(2);
    };
    if load.threads < 1 || load.threads > MOST_SEATS {
        return ExitCode::from(2);
    }
    let Ok(counts) = run(&rt, rt.alloc(), load.threads, load.times) else {
        return ExitCode::FAILURE;
    };
    for (number, count) in counts.iter().enumerate() {
        if println!(rt; "handle {number}: {count}").is_err() {
            return ExitCode::FAILURE;
        }
    }
    ExitCode::SUCCESS
}

#[cfg(test)]
mod tests;
