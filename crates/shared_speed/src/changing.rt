//! Changes through a handle, beside the queries of others.
ghost use Rattle.std.specs.Prelude.{◌<◌, ℕ, length, slice_index_or};
ghost use Rattle.std.specs.Thread.{IsSync};
ghost use Rattle.index_shared.specs.OwnViews.{HasMerge};
ghost use Rattle.index_shared.specs.Sections.{HandleState, IsAt};
ghost use Rattle.shared_speed.specs.Sharing.{AreAt};

use crate::adding::add;
use crate::tally::Tally;
use crate::working::{Shift, Task, work_beside};
use index_shared::{Handle, Index};
use merge_work::MergeJob;
use std::alloc::Global;
use std::sync::Wait;
use std::thread::{Threads, join_mut};

/// How many adds come before an offer.
const BETWEEN_OFFERS: u32 = 100;

// Works a merge and commits it, or gives it up where there is no memory.
fn work_merge(wait: &impl Wait, index: &Index, handle: &mut Handle, job: MergeJob) -> Option<()>
    requires at { IsAt index.now handle.old }
    requires begun { HasMerge handle.old job }
    ensures at { IsAt index.now handle.new }
{
    match job.work() {
        Ok(done) => {
            index.commit_merge(wait, handle, done);
            Some(())
        }
        Err(job) => {
            index.drop_merge(wait, handle, job);
            None
        }
    }
}

// Works one merge where one is planned.
fn merge(wait: &impl Wait, index: &Index, handle: &mut Handle) -> Option<()>
    requires at { IsAt index.now handle.old }
    ensures at { IsAt index.now handle.new }
{
    match index.begin_merge(wait, handle) {
        Ok(Some(job)) => work_merge(wait, index, handle, job),
        Ok(None) => Some(()),
        Err(_) => None,
    }
}

// An offer, and one merge.
fn refresh(wait: &impl Wait, index: &Index, handle: &mut Handle) -> Option<()>
    requires at { IsAt index.now handle.old }
    ensures at { IsAt index.now handle.new }
{
    index.offer(wait, handle).ok()?;
    merge(wait, index, handle)
}

// Adds a document. Behind each hundredth, what is buffered becomes a segment.
fn change(
    wait: &impl Wait,
    alloc: Global,
    index: &Index,
    handle: &mut Handle,
    round: u32,
) -> Option<()>
    requires at { IsAt index.now handle.old }
    ensures at { IsAt index.now handle.new }
{
    add(wait, alloc, index, handle, round as u64)?;
    if round % BETWEEN_OFFERS == BETWEEN_OFFERS - 1 {
        refresh(wait, index, handle)?;
    }
    Some(())
}

/// Adds so many documents, with an offer and at most one merge behind each hundredth.
pub fn change_often(
    wait: &impl Wait,
    alloc: Global,
    index: &Index,
    handle: &mut Handle,
    times: u32,
) -> Option<()>
    requires at { IsAt index.now handle.old }
    ensures at { IsAt index.now handle.new }
{
    for round in 0..times {
        change(wait, alloc, index, handle, round)?;
    }
    Some(())
}

// Changes, and then the shift of the others is over.
fn change_and_end(
    wait: &impl Wait,
    alloc: Global,
    index: &Index,
    handle: &mut Handle,
    times: u32,
    shift: &Shift,
) -> Option<()>
    requires at { IsAt index.now handle.old }
    ensures at { IsAt index.now handle.new }
{
    let changed = change_often(wait, alloc, index, handle, times);
    shift.end();
    changed
}

/// So many changes through one handle, and queries through the others for as long as that lasts.
/// What these found together.
pub fn ask_beside_changes<R: Threads + Wait + Sync>(
    rt: &R,
    alloc: Global,
    index: &Index,
    changer: &mut Handle,
    handles: &mut [Handle],
    times: u32,
) -> Option<Tally>
    requires at { IsAt index.now changer.old }
    requires others { AreAt index.now handles.old }
    ensures at { IsAt index.now changer.new }
{
    let shift = Shift::new(Task::Ask, u32::MAX);
    let (changed, asked) = join_mut(
        rt,
        &mut || -> Option<()>
            requires { IsSync R.row × IsAt index.now changer.now }
            ensures { IsAt index.entry.now changer.exit.now }
        { change_and_end(rt, alloc, index, changer, times, &shift) },
        &mut || -> Option<Tally>
            requires { IsSync R.row × ((k : ℕ) (h : HandleState) → k < length handles.now
                → IsAt index.now (slice_index_or handles.now k h)) }
        { work_beside(rt, alloc, index, handles, &shift) },
    );
    changed?;
    asked
}
