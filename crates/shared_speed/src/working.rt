//! Threads beside one another, each with a handle of its own.
ghost use Rattle.std.specs.Prelude.{◌<◌, ℕ, length, slice_index_or};
ghost use Rattle.std.specs.Thread.{IsSync};
ghost use Rattle.index_shared.specs.Sections.{HandleState, IsAt};
ghost use Rattle.shared_speed.specs.Sharing.{AreAt};

use crate::adding::add_often;
use crate::querying::ask_often;
use crate::tally::Tally;
use index_shared::{Handle, Index};
use std::alloc::Global;
use std::sync::Wait;
use std::sync::atomic::{AtomicBool, Ordering};
use std::thread::{Threads, join_mut};

/// What a thread does again and again.
#[derive(Clone, Copy, Debug, PartialEq, Eq)]
pub enum Task {
    Add,
    Ask,
}

/// What each of some threads does, and how often at most.
#[derive(Drop)]
pub struct Shift {
    pub task: Task,
    pub times: u32,
    over: AtomicBool,
}

impl Shift {
    pub fn new(task: Task, times: u32) -> Shift {
        Shift {
            task,
            times,
            over: AtomicBool::new(false),
        }
    }

    /// No more queries are begun.
    pub fn end(&self) {
        self.over.store(true, Ordering::SeqCst);
    }

    pub fn is_over(&self) -> bool {
        self.over.load(Ordering::SeqCst)
    }
}

// The work of one thread.
fn work(
    wait: &impl Wait,
    alloc: Global,
    index: &Index,
    handle: &mut Handle,
    shift: &Shift,
) -> Option<Tally>
    requires at { IsAt index.now handle.old }
    ensures at { IsAt index.now handle.new }
{
    match shift.task {
        Task::Add => add_often(wait, alloc, index, handle, shift.times),
        Task::Ask => ask_often(wait, alloc, index, handle, shift),
    }
}

/// The work of as many threads as handles, each of them through its own. What they did together,
/// unless one of them had to stop.
pub fn work_beside<R: Threads + Wait + Sync>(
    rt: &R,
    alloc: Global,
    index: &Index,
    handles: &mut [Handle],
    shift: &Shift,
) -> Option<Tally>
    requires at { AreAt index.now handles.old }
    ensures at { (k : ℕ) (h : HandleState) → k < length handles.old
        → IsAt index.now (slice_index_or handles.new k h) }
{
    if handles.is_empty() {
        return Some(Tally { times: 0, rows: 0 });
    }
    if handles.len() == 1 {
        return work(rt, alloc, index, &mut handles[0], shift);
    }
    let half = handles.len() / 2;
    let (left, right) = handles.split_at_mut(half);
    let (one, other) = join_mut(
        rt,
        &mut || -> Option<Tally>
            requires { IsSync R.row × ((k : ℕ) (h : HandleState) → k < length left.now
                → IsAt index.now (slice_index_or left.now k h)) }
            ensures { (k : ℕ) (h : HandleState) → k < length left.entry.now
                → IsAt index.entry.now (slice_index_or left.exit.now k h) }
        { work_beside(rt, alloc, index, left, shift) },
        &mut || -> Option<Tally>
            requires { IsSync R.row × ((k : ℕ) (h : HandleState) → k < length right.now
                → IsAt index.now (slice_index_or right.now k h)) }
            ensures { (k : ℕ) (h : HandleState) → k < length right.entry.now
                → IsAt index.entry.now (slice_index_or right.exit.now k h) }
        { work_beside(rt, alloc, index, right, shift) },
    );
    Some(one?.and(other?))
}
