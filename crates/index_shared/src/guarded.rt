//! The core as the value of a lock.
ghost use Rattle.std.specs.Prelude.{◌≡◌, ◌<◌, ◌+◌, [], ◌∷◌, ◌++◌, IfOk, IfErr, OnOk, OnErr};
ghost use Rattle.std.specs.Prelude.{length, option_map, Contains};
ghost use Rattle.std.specs.Option.{IfSome};
ghost use Rattle.sg_paths.specs.Operations.{plain_op};
ghost use Rattle.merge_work.specs.Merging.{AreMergeable, unless_empty};
ghost use Rattle.index_core.specs.declared.limits.TheConstants.{MOST_OPERATIONS, MOST_OPEN_VIEWS};
ghost use Rattle.index_core.specs.Records.{accepted, open_views, open_merges};
ghost use Rattle.index_core.specs.LegalHistories.{IsLegal, merged_documents};
ghost use Rattle.index_core.specs.Calls.{empty_record, after_accept, after_begin, after_end};
ghost use Rattle.index_core.specs.Calls.{begun_by, released_by_end};
ghost use Rattle.index_core.specs.Calls.{RefusesOperation, RefusesView};
ghost use Rattle.index_core.specs.MergeCalls.{merge_of, merge_begun_by, after_begin_merge};
ghost use Rattle.index_core.specs.MergeCalls.{released_by_merge, after_commit, after_drop};
ghost use Rattle.index_core.specs.MergeCalls.{without_merge, AreMergeOf};
ghost use Rattle.index_core.specs.OpenViews.{view_of, without};
ghost use Rattle.index_core.specs.CurrentPieces.{AreOf};
ghost use Rattle.index_shared.specs.Sections.{caller_of};

use index_core::{Core, Event, Freed, MergeParts, Refused, ViewError, ViewParts};
use merge_work::MergeJob;
use segment::Segment;
use sg_paths::Op;
use sg_view::Ticket;
use std::alloc::{AllocError, Global};
use std::marker::Model;
use std::sync::Arc;
use turn_lock::Counted;

/// An event as contracts see it.
pub struct LoggedEvent {
    event: Event,
}

impl Model for LoggedEvent {
    ghost use Rattle.index_core.specs.Histories.{HistoryEvent, event_of};

    ghost Value = { HistoryEvent };

    ghost view = { λ e. event_of e.event };
}

/// An operation as contracts see it.
pub struct LoggedOperation {
    op: Op,
}

impl Model for LoggedOperation {
    ghost use Rattle.sg_paths.specs.Operations.{PlainOp, plain_op};

    ghost Value = { PlainOp };

    ghost view = { λ o. plain_op o.op };
}

/// A core whose history the lock can count. Contracts see it as its record, which is legal; each
/// call is the core's, and what it asks may be shown of a legal record.
#[derive(Drop)]
pub struct Guarded {
    pub(crate) core: Core,
}

impl Model for Guarded {
    ghost use Rattle.index_core.specs.Histories.{Record};
    ghost use Rattle.index_core.specs.LegalHistories.{IsLegal};

    ghost Value = { Record };

    ghost view = { λ g. g.core };

    ghost invariant = { λ g. IsLegal g.core };
}

impl Counted for Guarded {
    type Event = LoggedEvent;

    type Operation = LoggedOperation;

    ghost history = { λ r. r.history };

    ghost journal = { λ r. r.journal };

    ghost caller = { caller_of };

    fn count(&self) -> u64 {
        self.core.history().len() as u64
    }
}

/// The job of a merge that has begun, if one has.
fn job_of(begun: Option<MergeParts>) -> Option<MergeJob>
    requires { IfSome begun AreMergeable }
    ensures { result ≡ begun }
{
    match begun {
        Some(parts) => Some(MergeJob::of(parts)),
        None => None,
    }
}

impl Guarded {
    pub(crate) fn new(alloc: Global) -> Guarded
        ensures value { result ≡ empty_record }
        ensures legal { IsLegal result }
    {
        Guarded {
            core: Core::new(alloc),
        }
    }

    pub(crate) fn accept(&mut self, caller: u32, op: Op) -> Result<u64, Refused>
        ensures number { IfOk result (λ seq. seq ≡ accepted self.old + 1) }
        ensures ok { OnOk result (self.new ≡ after_accept caller (plain_op op) self.old) }
        ensures room { OnOk result (accepted self.old < MOST_OPERATIONS) }
        ensures refused { IfErr result (λ r. RefusesOperation self.old r.why) }
        ensures returned { IfErr result (λ r. plain_op r.op ≡ plain_op op) }
        ensures err { OnErr result (self.new ≡ self.old) }
        ensures views { open_views self.new ≡ open_views self.old }
        ensures before { IsLegal self.old }
        ensures legal { IsLegal self.new }
    {
        self.core.accept(caller, op)
    }

    /// The view isn't built yet: that is for outside the lock.
    pub(crate) fn begin_view(&mut self, alloc: Global, caller: u32) -> Result<Ticket, ViewError>
        ensures view { IfOk result (λ t. view_of caller t ≡ begun_by caller self.old) }
        ensures parts { IfOk result (AreOf self.new) }
        ensures ok { OnOk result (self.new ≡ after_begin caller self.old) }
        ensures opened { IfOk result (λ t. open_views self.new
            ≡ open_views self.old ++ view_of caller t ∷ []) }
        ensures others { IfOk result (λ t.
            without t.number (open_views self.new) ≡ open_views self.old) }
        ensures room { OnOk result (length (open_views self.old) < MOST_OPEN_VIEWS) }
        ensures refused { IfErr result (RefusesView self.old) }
        ensures err { OnErr result (self.new ≡ self.old) }
        ensures before { IsLegal self.old }
        ensures legal { IsLegal self.new }
    {
        let parts = self.core.begin_view(caller)?;
        Ok(Ticket::of(alloc, parts))
    }

    pub(crate) fn end_view(&mut self, caller: u32, parts: ViewParts) -> Freed
        requires { IsLegal self.old → Contains (open_views self.old) (view_of caller parts) }
        ensures freed { result.gens.items ≡ released_by_end caller parts.number self.old }
        ensures ok { self.new ≡ after_end caller parts.number self.old }
        ensures ended { open_views self.new
            ≡ without parts.number (open_views self.old) }
        ensures before { IsLegal self.old }
        ensures legal { IsLegal self.new }
    {
        self.core.end_view(caller, parts)
    }

    /// The merge isn't worked yet: that is for outside the lock.
    pub(crate) fn begin_merge(&mut self, caller: u32) -> Result<Option<MergeJob>, AllocError>
        ensures merge { IfOk result (λ found.
            option_map (merge_of caller) found ≡ merge_begun_by caller self.old) }
        ensures parts { IfOk result (λ found. IfSome found (AreMergeOf self.new)) }
        ensures begun { IfOk result (λ found. IfSome found (λ job.
            Contains (open_merges self.new) (merge_of caller job))) }
        ensures ok { OnOk result (self.new ≡ after_begin_merge caller self.old) }
        ensures err { OnErr result (self.new ≡ self.old) }
        ensures views { open_views self.new ≡ open_views self.old }
        ensures before { IsLegal self.old }
        ensures legal { IsLegal self.new }
    {
        let begun = self.core.begin_merge(caller)?;
        Ok(job_of(begun))
    }

    pub(crate) fn commit_merge(
        &mut self,
        caller: u32,
        parts: MergeParts,
        segment: Option<Arc<Segment>>,
    ) -> Freed
        requires open { IsLegal self.old
            → Contains (open_merges self.old) (merge_of caller parts) }
        requires segment { IsLegal self.old → option_map (λ s. s.value) segment
            ≡ unless_empty (merged_documents self.old (merge_of caller parts)) }
        ensures freed { result.gens.items
            ≡ released_by_merge caller (merge_of caller parts) self.old }
        ensures ok { self.new ≡ after_commit caller (merge_of caller parts) self.old }
        ensures ended { open_merges self.new
            ≡ without_merge parts.number (open_merges self.old) }
        ensures views { open_views self.new ≡ open_views self.old }
        ensures before { IsLegal self.old }
        ensures legal { IsLegal self.new }
    {
        self.core.commit_merge(caller, parts, segment)
    }

    pub(crate) fn drop_merge(&mut self, caller: u32, parts: MergeParts)
        requires { IsLegal self.old → Contains (open_merges self.old) (merge_of caller parts) }
        ensures ok { self.new ≡ after_drop caller (merge_of caller parts) self.old }
        ensures ended { open_merges self.new
            ≡ without_merge parts.number (open_merges self.old) }
        ensures views { open_views self.new ≡ open_views self.old }
        ensures before { IsLegal self.old }
        ensures legal { IsLegal self.new }
    {
        self.core.drop_merge(caller, parts);
    }
}
