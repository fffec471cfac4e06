//! The calls of the index.
ghost use Rattle.std.specs.Prelude.{◌≡◌, ◌<◌, ◌≤◌, ◌+◌, [], ◌∷◌, ◌++◌, IfOk, IfErr};
ghost use Rattle.std.specs.Prelude.{OnOk, OnErr, true, Some, option_map, length, map, Contains};
ghost use Rattle.std.specs.Option.{IfSome};
ghost use Rattle.std.specs.List.Sorted.{IsStrictlyIncreasing};
ghost use Rattle.sg_paths.specs.Operations.{plain_op};
ghost use Rattle.segment.specs.Pieces.{live_docs_at};
ghost use Rattle.segment.specs.Views.{AreBuildable};
ghost use Rattle.merge_work.specs.Merging.{AreMergeable, unless_empty};
ghost use Rattle.index_core.specs.Histories.{event_of};
ghost use Rattle.index_core.specs.Records.{accepted, frozen, buffered, open_views, open_merges};
ghost use Rattle.index_core.specs.Generations.{documents_of};
ghost use Rattle.index_core.specs.Merges.{merge_plan};
ghost use Rattle.index_core.specs.LegalHistories.{IsLegal, merged_documents};
ghost use Rattle.index_core.specs.Calls.{empty_record, after_accept, after_freeze, after_begin};
ghost use Rattle.index_core.specs.Calls.{after_end, begun_by, frozen_generation, released_by_end};
ghost use Rattle.index_core.specs.Calls.{RefusesOperation, RefusesView};
ghost use Rattle.index_core.specs.MergeCalls.{merge_of, merge_begun_by, after_begin_merge};
ghost use Rattle.index_core.specs.MergeCalls.{released_by_merge, after_commit, after_drop};
ghost use Rattle.index_core.specs.MergeCalls.{without_merge, AreMergeOf};
ghost use Rattle.index_core.specs.Fields.{AreSizesWithin};
ghost use Rattle.index_core.specs.OpenViews.{view_of, without};
ghost use Rattle.index_core.specs.CurrentPieces.{AreOf, is_unbuilt, after_built, is_behind};
ghost use Rattle.index_core.specs.CurrentPieces.{after_lived};

use crate::event::Event;
use crate::limits::{MOST_OPEN_VIEWS, MOST_OPERATIONS};
use crate::own_list::TwoLists;
use crate::parts::CurrentParts;
use crate::refusal::{Refused, ViewError, Why};
use crate::store::Store;
use index_holds::Freed;
use seg_live::Live;
use segment::{MergeParts, Segment, ViewParts};
use sg_paths::Op;
use std::alloc::{AllocError, Global};
use std::marker::Model;
use std::sync::Arc;

/// The index as a pure machine. Operations are buffered until 16,384 are, or until a view begins,
/// and then frozen as a batch under a generation of its own, of which a segment is built outside.
#[derive(Drop)]
pub struct Core {
    store: Store,
}

impl Model for Core {
    ghost use Rattle.index_core.specs.Histories.{Record};
    ghost use Rattle.index_core.specs.Fields.{IsKept, record_of};

    ghost Value = { Record };

    ghost view = { λ c. record_of c.store };

    ghost invariant = { λ c. IsKept c.store };
}

impl Core {
    /// The empty record. Takes no memory.
    pub fn new(alloc: Global) -> Core
        ensures value { result ≡ empty_record }
        ensures legal { IsLegal result }
    {
        Core {
            store: Store::new(alloc),
        }
    }

    /// The history from its first event on.
    pub fn history(&self) -> &[Event]
        ensures value { map event_of result.now ≡ self.now.history }
        ensures legal { IsLegal self.now }
    {
        self.store.history()
    }

    /// How many operations are accepted.
    pub fn accepted(&self) -> u64
        ensures count { result ≡ accepted self.now }
        ensures journal { result ≡ length self.now.journal }
        ensures most { result ≤ MOST_OPERATIONS }
    {
        self.store.accepted()
    }

    /// How many views are open.
    pub fn open_views(&self) -> u32
        ensures { result ≡ length (open_views self.now) }
    {
        self.store.opened()
    }

    /// Appends an accept, and a freeze where the buffer is then full; answers the number of the
    /// operation. The errors in order: `Full`, `Memory`.
    pub fn accept(&mut self, caller: u32, op: Op) -> Result<u64, Refused>
        // What an Ok answers and appends, and where it comes.
        ensures number { IfOk result (λ seq. seq ≡ accepted self.old + 1) }
        ensures ok { OnOk result (self.new ≡ after_accept caller (plain_op op) self.old) }
        ensures room { OnOk result (accepted self.old < MOST_OPERATIONS) }

        // Why it is refused, and what that leaves.
        ensures refused { IfErr result (λ r. RefusesOperation self.old r.why) }
        ensures returned { IfErr result (λ r. plain_op r.op ≡ plain_op op) }
        ensures err { OnErr result (self.new ≡ self.old) }

        // After both.
        ensures views { open_views self.new ≡ open_views self.old }
        ensures legal { IsLegal self.new }
    {
        let count = self.store.accepted();
        if count >= MOST_OPERATIONS {
            return Err(Refused {
                op,
                why: Why::Full { count },
            });
        }
        // A place for the accept and one for a freeze, beside those that are reserved.
        let places = self.store.reserved() + 2;
        let Ok(()) = self.store.make_room(places) else {
            return Err(Refused::out_of_memory(op));
        };
        if let Err(op) = self.store.accept(caller, op) {
            return Err(Refused::out_of_memory(op));
        }
        Ok(count + 1)
    }

    /// Freezes what is buffered, and answers its generation; `None` where nothing is, which takes
    /// no memory.
    pub fn seal(&mut self, caller: u32) -> Result<Option<u32>, AllocError>
        ensures generation { IfOk result (λ g. g ≡ frozen_generation self.old) }
        ensures ok { OnOk result (self.new ≡ after_freeze caller self.old) }
        ensures cause { OnErr result (0 < buffered self.old) }
        ensures err { OnErr result (self.new ≡ self.old) }
        ensures views { open_views self.new ≡ open_views self.old }
        ensures legal { IsLegal self.new }
    {
        if self.store.accepted() == self.store.frozen() {
            return Ok(None);
        }
        // A place for the freeze, beside those that are reserved.
        let places = self.store.reserved() + 1;
        self.store.reserve(places)?;
        self.store.close()?;
        self.store.freeze(caller);
        Ok(Some(self.store.drawn()))
    }

    /// Gives an unbuilt generation the segment of its batch; false where it isn't current and
    /// unbuilt.
    pub fn built(
        &mut self,
        caller: u32,
        generation: u32,
        segment: Arc<Segment>,
    ) -> Result<bool, AllocError>
        requires { is_unbuilt self.old generation ≡ true
            → segment.value ≡ documents_of self.old generation }
        ensures answer { IfOk result (λ done. done ≡ is_unbuilt self.old generation) }
        ensures ok { OnOk result (self.new ≡ after_built caller generation self.old) }
        ensures err { OnErr result (self.new ≡ self.old) }
        ensures views { open_views self.new ≡ open_views self.old }
        ensures legal { IsLegal self.new }
    {
        // A place for the event, beside those that are reserved.
        let places = self.store.reserved() + 1;
        self.store.reserve(places)?;
        let done = self.store.build(caller, generation, segment);
        Ok(done)
    }

    /// Gives a built generation live docs that know the deletes of the first `applied` operations;
    /// false where it isn't current and built, or knows as many.
    pub fn lived(
        &mut self,
        caller: u32,
        generation: u32,
        live: Arc<Live>,
        applied: u64,
    ) -> Result<bool, AllocError>
        requires within { applied ≤ frozen self.old }
        requires live_docs { is_behind self.old generation applied ≡ true
            → live.value
            ≡ live_docs_at self.old.journal applied (documents_of self.old generation) }
        ensures answer { IfOk result (λ done. done ≡ is_behind self.old generation applied) }
        ensures ok { OnOk result (self.new ≡ after_lived caller generation applied self.old) }
        ensures err { OnErr result (self.new ≡ self.old) }
        ensures views { open_views self.new ≡ open_views self.old }
        ensures legal { IsLegal self.new }
    {
        // A place for the event, beside those that are reserved.
        let places = self.store.reserved() + 1;
        self.store.reserve(places)?;
        let done = self.store.live(caller, generation, live, applied);
        Ok(done)
    }

    /// The current pieces and what is frozen of the journal behind them: one shared owner each.
    pub fn pieces(&self) -> Result<CurrentParts, AllocError>
        ensures parts { IfOk result (AreOf self.now) }
        ensures buildable { IfOk result AreBuildable }
        ensures none { IfOk result (λ p. p.pieces ≡ [] → p.batches ≡ []) }
    {
        let parts = self.store.share_frozen()?;
        Ok(parts)
    }

    /// Freezes what is buffered, and begins a view of all operations: one shared owner a piece.
    /// The errors in order: `TooMany`, `Memory`.
    pub fn begin_view(&mut self, caller: u32) -> Result<ViewParts, ViewError>
        // The view.
        ensures view { IfOk result (λ p. view_of caller p ≡ begun_by caller self.old) }
        ensures parts { IfOk result (AreOf self.new) }
        ensures buildable { IfOk result AreBuildable }
        ensures begun { IfOk result (λ p.
            Contains (open_views self.new) (view_of caller p)) }

        // What an Ok appends, and where it comes.
        ensures ok { OnOk result (self.new ≡ after_begin caller self.old) }
        ensures opened { IfOk result (λ p. open_views self.new
            ≡ open_views self.old ++ view_of caller p ∷ []) }
        ensures others { IfOk result (λ p.
            without p.number (open_views self.new) ≡ open_views self.old) }
        ensures room { OnOk result (length (open_views self.old) < MOST_OPEN_VIEWS) }

        // Why it is refused, and what that leaves.
        ensures refused { IfErr result (RefusesView self.old) }
        ensures err { OnErr result (self.new ≡ self.old) }

        // After both.
        ensures legal { IsLegal self.new }
    {
        let opened = self.store.opened();
        if opened >= MOST_OPEN_VIEWS {
            return Err(ViewError::TooMany { count: opened });
        }
        // A place for a freeze, for the begin and for its end, beside those that are reserved.
        let places = self.store.reserved() + 3;
        self.store.reserve(places)?;
        self.store.close()?;
        let parts = self.store.share()?;
        // No step after the first event can fail.
        let Ok(lists) = self.store.view_lists(&parts) else {
            let ViewParts {
                view: _,
                upto: _,
                pieces: _,
                batches: _,
                gens: _,
            } = parts;
            return Err(ViewError::Memory);
        };
        let TwoLists { event, own } = lists;
        self.store.freeze_all(caller);
        self.store.begin(caller, event, own);
        Ok(parts)
    }

    /// Ends a view, and answers the generations that nothing references any more. Takes no memory:
    /// the place of its event is reserved when the view begins.
    pub fn end_view(&mut self, caller: u32, parts: ViewParts) -> Freed
        requires { Contains (open_views self.old) (view_of caller parts) }
        ensures freed { result.gens.items ≡ released_by_end caller parts.number self.old }
        ensures ok { self.new ≡ after_end caller parts.number self.old }
        ensures ended { open_views self.new
            ≡ without parts.number (open_views self.old) }
        ensures legal { IsLegal self.new }
    {
        let ViewParts {
            view,
            upto: _,
            pieces: _,
            batches: _,
            gens,
        } = parts;
        self.store.end(caller, view, gens.into_vec())
    }

    /// Begins the merge that is planned: one shared owner a piece, over what is frozen. `None`
    /// where none is, without an event. Sorts the generations of open merges, looks each current
    /// one up among them, and goes ten times over the sizes. Reserves what the end of the merge
    /// takes. An error is want of memory.
    pub fn begin_merge(&mut self, caller: u32) -> Result<Option<MergeParts>, AllocError>
        // The merge.
        ensures merge { IfOk result (λ found.
            option_map (merge_of caller) found ≡ merge_begun_by caller self.old) }
        ensures parts { IfOk result (λ found. IfSome found (AreMergeOf self.new)) }
        ensures mergeable { IfOk result (λ found. IfSome found AreMergeable) }
        ensures begun { IfOk result (λ found. IfSome found (λ p.
            Contains (open_merges self.new) (merge_of caller p))) }

        // What an Ok appends, and what an Err leaves.
        ensures ok { OnOk result (self.new ≡ after_begin_merge caller self.old) }
        ensures err { OnErr result (self.new ≡ self.old) }

        // After both.
        ensures views { open_views self.new ≡ open_views self.old }
        ensures legal { IsLegal self.new }
    {
        let planned = self.store.plan()?;
        match planned {
            Some(gens) => self.begin_planned(caller, gens),
            None => Ok(None),
        }
    }

    /// Begins the merge of the planned generations.
    fn begin_planned(
        &mut self,
        caller: u32,
        gens: Vec<u32>,
    ) -> Result<Option<MergeParts>, AllocError>
        requires plan { merge_plan self.old ≡ Some gens.items }
        requires rising { IsStrictlyIncreasing gens.items }
        requires within { AreSizesWithin self.old }
        ensures merge { IfOk result (λ found.
            option_map (merge_of caller) found ≡ merge_begun_by caller self.old) }
        ensures parts { IfOk result (λ found. IfSome found (AreMergeOf self.new)) }
        ensures mergeable { IfOk result (λ found. IfSome found AreMergeable) }
        ensures begun { IfOk result (λ found. IfSome found (λ p.
            Contains (open_merges self.new) (merge_of caller p))) }
        ensures ok { OnOk result (self.new ≡ after_begin_merge caller self.old) }
        ensures err { OnErr result (self.new ≡ self.old) }
        ensures views { open_views self.new ≡ open_views self.old }
        ensures legal { IsLegal self.new }
    {
        // A place for the begin and for its end, beside those that are reserved.
        let places = self.store.reserved() + 2;
        self.store.reserve(places)?;
        let parts = self.store.share_sources(gens)?;
        let Ok(()) = self.store.merge(caller, parts.gens.items()) else {
            let MergeParts {
                merge: _,
                upto: _,
                pieces: _,
                batches: _,
                gens: _,
            } = parts;
            return Err(AllocError);
        };
        Ok(Some(parts))
    }

    /// Ends a merge with the segment of what it keeps, or with none, and answers the generations
    /// that nothing references any more. Takes no memory: what it needs is reserved when the merge
    /// begins.
    pub fn commit_merge(
        &mut self,
        caller: u32,
        parts: MergeParts,
        segment: Option<Arc<Segment>>,
    ) -> Freed
        requires open { Contains (open_merges self.old) (merge_of caller parts) }
        requires segment { option_map (λ s. s.value) segment
            ≡ unless_empty (merged_documents self.old (merge_of caller parts)) }
        ensures freed { result.gens.items
            ≡ released_by_merge caller (merge_of caller parts) self.old }
        ensures ok { self.new ≡ after_commit caller (merge_of caller parts) self.old }
        ensures ended { open_merges self.new
            ≡ without_merge parts.number (open_merges self.old) }
        ensures views { open_views self.new ≡ open_views self.old }
        ensures legal { IsLegal self.new }
    {
        let MergeParts {
            merge,
            upto,
            pieces: _,
            batches: _,
            gens,
        } = parts;
        match segment {
            Some(segment) => self
                .store
                .bring(caller, merge, upto, gens.into_vec(), segment),
            None => self.store.retire(caller, merge, gens.into_vec()),
        }
    }

    /// Gives a merge up; its generations stay current. Takes no memory: the place of its event is
    /// reserved when the merge begins.
    pub fn drop_merge(&mut self, caller: u32, parts: MergeParts)
        requires { Contains (open_merges self.old) (merge_of caller parts) }
        ensures ok { self.new ≡ after_drop caller (merge_of caller parts) self.old }
        ensures ended { open_merges self.new
            ≡ without_merge parts.number (open_merges self.old) }
        ensures views { open_views self.new ≡ open_views self.old }
        ensures legal { IsLegal self.new }
    {
        let MergeParts {
            merge,
            upto: _,
            pieces: _,
            batches: _,
            gens,
        } = parts;
        self.store.drop_merge(caller, merge, gens.into_vec());
    }
}
