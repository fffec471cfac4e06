//! The calls of an index that one thread has.
ghost use Rattle.std.specs.Prelude.{◌≡◌, ◌<◌, ◌+◌, [], ◌∷◌, ◌++◌, IfOk, IfErr, OnOk, OnErr};
ghost use Rattle.std.specs.Prelude.{option_map, length, Contains};
ghost use Rattle.std.specs.Option.{IfSome};
ghost use Rattle.sg_paths.specs.Operations.{plain_op};
ghost use Rattle.index_core.specs.declared.limits.TheConstants.{MOST_OPERATIONS, MOST_OPEN_VIEWS};
ghost use Rattle.index_core.specs.Records.{accepted, open_views, open_merges};
ghost use Rattle.index_core.specs.LegalHistories.{IsLegal};
ghost use Rattle.index_core.specs.Calls.{empty_record, after_accept, after_begin, after_end};
ghost use Rattle.index_core.specs.Calls.{begun_by, released_by_end};
ghost use Rattle.index_core.specs.Calls.{RefusesOperation, RefusesView};
ghost use Rattle.index_core.specs.MergeCalls.{merge_of, merge_begun_by, after_begin_merge};
ghost use Rattle.index_core.specs.MergeCalls.{released_by_merge, after_commit, after_drop};
ghost use Rattle.index_core.specs.MergeCalls.{without_merge, AreMergeOf};
ghost use Rattle.index_core.specs.OpenViews.{view_of, without};
ghost use Rattle.index_core.specs.CurrentPieces.{AreOf};
ghost use Rattle.index_shared.specs.Offers.{AddsUpkeep, after_flush, built_by_flush};
ghost use Rattle.index_shared.specs.OwnViews.{view_in};
ghost use Rattle.index_single.specs.Alone.{HasJob};
ghost use Rattle.index_single.specs.declared.caller.TheConstants.{CALLER};

use index_core::{Freed, Refused, ViewError};
use index_shared::{Handle, Index};
use merge_work::{MergeDone, MergeJob};
use sg_paths::Op;
use sg_view::{Ticket, View};
use std::alloc::{AllocError, Global};
use std::marker::Model;
use std::sync::Wait;

/// A shared index with both of its handles. The worker's makes each call, and main's then observes
/// it, so both have always seen the same.
#[derive(Drop)]
pub struct SingleIndex {
    index: Index,
    main: Handle,
    worker: Handle,
}

impl Model for SingleIndex {
    ghost use Rattle.index_core.specs.Histories.{Record};
    ghost use Rattle.index_shared.specs.Sections.{seen_by};
    ghost use Rattle.index_single.specs.Handles.{AreAlone};

    ghost Value = { Record };

    ghost view = { λ i. seen_by i.worker };

    ghost invariant = { λ i. AreAlone i.index i.main i.worker };
}

impl SingleIndex {
    /// An empty index.
    pub fn new(alloc: Global) -> Result<SingleIndex, AllocError>
        ensures value { IfOk result (λ index. index ≡ empty_record) }
    {
        let (index, mut handles) = Index::new(alloc, 2)?;
        let worker = handles.remove(1);
        let main = handles.remove(0);
        Ok(SingleIndex {
            index,
            main,
            worker,
        })
    }

    /// Accepts an operation, and answers its number. The errors in order: `Full`, `Memory`.
    pub fn accept(&mut self, wait: &impl Wait, op: Op) -> Result<u64, Refused>
        // What an Ok answers and appends, and where it comes.
        ensures number { IfOk result (λ seq. seq ≡ accepted self.old + 1) }
        ensures ok { OnOk result (self.new ≡ after_accept CALLER (plain_op op) self.old) }
        ensures room { OnOk result (accepted self.old < MOST_OPERATIONS) }

        // Why it is refused, and what that leaves.
        ensures refused { IfErr result (λ r. RefusesOperation self.old r.why) }
        ensures returned { IfErr result (λ r. plain_op r.op ≡ plain_op op) }
        ensures err { OnErr result (self.new ≡ self.old) }

        // After both.
        ensures views { open_views self.new ≡ open_views self.old }
        ensures merges { open_merges self.new ≡ open_merges self.old }
        ensures legal { IsLegal self.new }
    {
        let answer = self.index.accept(wait, &mut self.worker, op);
        self.index.meet(&mut self.worker, &mut self.main);
        answer
    }

    /// Begins a view of all operations, and answers its ticket. The errors in order: `TooMany`,
    /// `Memory`.
    pub fn begin_view(&mut self, wait: &impl Wait) -> Result<Ticket, ViewError>
        // The view.
        ensures view { IfOk result (λ t. view_of CALLER t ≡ begun_by CALLER self.old) }
        ensures parts { IfOk result (AreOf self.new) }
        ensures begun { IfOk result (λ t. Contains (open_views self.new) (view_of CALLER t)) }

        // What an Ok appends, and where it comes.
        ensures ok { OnOk result (self.new ≡ after_begin CALLER self.old) }
        ensures opened { IfOk result (λ t. open_views self.new
            ≡ open_views self.old ++ view_of CALLER t ∷ []) }
        ensures others { IfOk result (λ t.
            without t.number (open_views self.new) ≡ open_views self.old) }
        ensures room { OnOk result (length (open_views self.old) < MOST_OPEN_VIEWS) }

        // Why it is refused, and what that leaves.
        ensures refused { IfErr result (RefusesView self.old) }
        ensures err { OnErr result (self.new ≡ self.old) }

        // After both.
        ensures merges { open_merges self.new ≡ open_merges self.old }
        ensures legal { IsLegal self.new }
    {
        let answer = self.index.begin_view(wait, &mut self.worker);
        self.index.meet(&mut self.worker, &mut self.main);
        answer
    }

    /// Ends a view, and answers the generations that nothing references any more. Takes no memory.
    pub fn end_view(&mut self, wait: &impl Wait, view: View) -> Freed
        requires { Contains (open_views self.old) (view_in CALLER view) }
        ensures freed { result.gens.items ≡ released_by_end CALLER view.number self.old }
        ensures ok { self.new ≡ after_end CALLER view.number self.old }
        ensures ended { open_views self.new ≡ without view.number (open_views self.old) }
        ensures merges { open_merges self.new ≡ open_merges self.old }
        ensures legal { IsLegal self.new }
    {
        let freed = self.index.end_view(wait, &mut self.worker, view);
        self.index.meet(&mut self.worker, &mut self.main);
        freed
    }

    /// Ends a view that isn't built. Takes no memory.
    pub fn end_ticket(&mut self, wait: &impl Wait, ticket: Ticket) -> Freed
        requires { Contains (open_views self.old) (view_of CALLER ticket) }
        ensures freed { result.gens.items ≡ released_by_end CALLER ticket.number self.old }
        ensures ok { self.new ≡ after_end CALLER ticket.number self.old }
        ensures ended { open_views self.new ≡ without ticket.number (open_views self.old) }
        ensures merges { open_merges self.new ≡ open_merges self.old }
        ensures legal { IsLegal self.new }
    {
        let freed = self.index.end_ticket(wait, &mut self.worker, ticket);
        self.index.meet(&mut self.worker, &mut self.main);
        freed
    }

    /// Brings the index up to date: freezes what is buffered, builds the segments that are missing,
    /// and applies all deletes that are frozen. Answers how many segments it built. Want of memory
    /// may come between two of these steps, and what was done stays done.
    pub fn offer(&mut self, wait: &impl Wait) -> Result<u32, AllocError>
        // What an Ok answers and leaves.
        ensures count { IfOk result (λ count. count ≡ built_by_flush CALLER self.old) }
        ensures ok { OnOk result (self.new ≡ after_flush CALLER self.old) }

        // What an Err leaves.
        ensures stopped { OnErr result (AddsUpkeep self.old self.new) }

        // After both.
        ensures views { open_views self.new ≡ open_views self.old }
        ensures merges { open_merges self.new ≡ open_merges self.old }
        ensures legal { IsLegal self.new }
    {
        let answer = self.index.offer(wait, &mut self.worker);
        self.index.meet(&mut self.worker, &mut self.main);
        answer
    }

    /// Begins the merge that is planned, and answers its job; `None` where none is, without an
    /// event.
    pub fn begin_merge(&mut self, wait: &impl Wait) -> Result<Option<MergeJob>, AllocError>
        // The merge.
        ensures merge { IfOk result (λ job.
            option_map (merge_of CALLER) job ≡ merge_begun_by CALLER self.old) }
        ensures parts { IfOk result (λ job. IfSome job (AreMergeOf self.new)) }
        ensures begun { IfOk result (λ job. IfSome job (HasJob self.new)) }

        // What an Ok appends, and what an Err leaves.
        ensures ok { OnOk result (self.new ≡ after_begin_merge CALLER self.old) }
        ensures err { OnErr result (self.new ≡ self.old) }

        // After both.
        ensures views { open_views self.new ≡ open_views self.old }
        ensures legal { IsLegal self.new }
    {
        let answer = self.index.begin_merge(wait, &mut self.worker);
        self.index.meet(&mut self.worker, &mut self.main);
        answer
    }

    /// Ends a merge with the segment that its work brought, and answers the generations that
    /// nothing references any more. Takes no memory.
    pub fn commit_merge(&mut self, wait: &impl Wait, done: MergeDone) -> Freed
        requires { HasJob self.old done.parts }
        ensures freed { result.gens.items
            ≡ released_by_merge CALLER (merge_of CALLER done.parts) self.old }
        ensures ok { self.new ≡ after_commit CALLER (merge_of CALLER done.parts) self.old }
        ensures ended { open_merges self.new
            ≡ without_merge done.parts.number (open_merges self.old) }
        ensures views { open_views self.new ≡ open_views self.old }
        ensures legal { IsLegal self.new }
    {
        let freed = self.index.commit_merge(wait, &mut self.worker, done);
        self.index.meet(&mut self.worker, &mut self.main);
        freed
    }

    /// Gives a merge up; its generations stay current. Takes no memory.
    pub fn drop_merge(&mut self, wait: &impl Wait, job: MergeJob)
        requires { Contains (open_merges self.old) (merge_of CALLER job) }
        ensures ok { self.new ≡ after_drop CALLER (merge_of CALLER job) self.old }
        ensures ended { open_merges self.new ≡ without_merge job.number (open_merges self.old) }
        ensures views { open_views self.new ≡ open_views self.old }
        ensures legal { IsLegal self.new }
    {
        self.index.drop_merge(wait, &mut self.worker, job);
        self.index.meet(&mut self.worker, &mut self.main);
    }
}
