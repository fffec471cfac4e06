//! The index that handles share.
ghost use Rattle.std.specs.Prelude.{◌≡◌, ◌≢◌, ◌≤◌, [], ◌∷◌, ◌++◌, IfOk, IfErr, OnErr, option_map};
ghost use Rattle.std.specs.Prelude.{Contains};
ghost use Rattle.std.specs.List.{AllByRecursion};
ghost use Rattle.std.specs.Option.{IfSome, option_to_list};
ghost use Rattle.sg_paths.specs.Operations.{plain_op};
ghost use Rattle.segment.specs.Views.{PlainParts};
ghost use Rattle.turn_lock.specs.declared.limits.TheConstants.{MOST_SEATS};
ghost use Rattle.turn_lock.specs.Handles.{Met, new_handles};
ghost use Rattle.index_core.specs.LegalHistories.{IsLegal};
ghost use Rattle.index_core.specs.MergeCalls.{merge_of, without_merge, AreMergeOf};
ghost use Rattle.index_core.specs.OpenViews.{view_of, without};
ghost use Rattle.index_core.specs.CurrentPieces.{AreOf};
ghost use Rattle.index_shared.specs.Sections.{IsAt, IsSameHandle, caller_of, seen_by};
ghost use Rattle.index_shared.specs.SharedCalls.{Accepted, AcceptRefused, Begun, BeginRefused};
ghost use Rattle.index_shared.specs.SharedCalls.{Ended, MergeBegun, MergeRefused, Committed};
ghost use Rattle.index_shared.specs.SharedCalls.{Dropped};
ghost use Rattle.index_shared.specs.OwnViews.{HasMerge, merges_by, open_by, view_in};

use crate::guarded::Guarded;
use index_core::{Freed, Refused, ViewError, ViewParts};
use merge_work::{MergeDone, MergeJob};
use sg_paths::Op;
use sg_view::{Ticket, View};
use std::alloc::{AllocError, Global};
use std::marker::Model;
use std::sync::Wait;
use turn_lock::{Pass, TurnLock};

/// A handle of a shared index, for one thread at a time.
pub type Handle = Pass<Guarded>;

/// An index that handles share.
#[derive(Drop)]
pub struct Index {
    pub(crate) alloc: Global,
    pub(crate) lock: TurnLock<Guarded>,
}

impl Model for Index {
    ghost use Rattle.turn_lock.specs.Handles.{LockId};

    ghost Value = { LockId };

    ghost view = { λ i. i.lock };
}

impl Index {
    /// An empty index, and as many handles as seats, in the order of their numbers.
    pub fn new(alloc: Global, seats: u32) -> Result<(Index, Vec<Handle>), AllocError>
        requires seats { (1 ≤ seats) × (seats ≤ MOST_SEATS) }
        ensures handles { IfOk result (λ made. made.1.items ≡ new_handles made.0 seats) }
        ensures legal { IfOk result (λ made.
            AllByRecursion (λ h. IsLegal (seen_by h)) made.1.items) }
    {
        let (lock, handles) = TurnLock::new(alloc, Guarded::new(alloc), seats)?;
        Ok((Index { alloc, lock }, handles))
    }

    /// Accepts an operation, and answers its number. The errors in order: `Full`, `Memory`.
    pub fn accept(&self, wait: &impl Wait, handle: &mut Handle, op: Op) -> Result<u64, Refused>
        requires at { IsAt self.now handle.old }

        // What an Ok answers and appends; why it is refused.
        ensures ok { IfOk result (λ seq.
            Accepted handle.old (plain_op op) seq (seen_by handle.new)) }
        ensures refused { IfErr result (λ r. AcceptRefused handle.old r.why (seen_by handle.new)) }
        ensures returned { IfErr result (λ r. plain_op r.op ≡ plain_op op) }

        // What is open by this handle.
        ensures views { open_by handle.old.number (seen_by handle.new)
            ≡ open_by handle.old.number (seen_by handle.old) }
        ensures merges { merges_by handle.old.number (seen_by handle.new)
            ≡ merges_by handle.old.number (seen_by handle.old) }
        ensures keeps { (parts : PlainParts) → HasMerge handle.old parts
            → HasMerge handle.new parts }

        // After both.
        ensures handle { IsSameHandle handle.old handle.new }
        ensures legal { IsLegal (seen_by handle.new) }
    {
        let mut hold = self.lock.take(wait, handle);
        let answer = hold.value().accept(handle.number(), op);
        self.lock.give(handle, hold);
        answer
    }

    /// Begins a view of all operations, and answers its ticket, which is built outside. The errors
    /// in order: `TooMany`, `Memory`.
    pub fn begin_view(&self, wait: &impl Wait, handle: &mut Handle) -> Result<Ticket, ViewError>
        requires at { IsAt self.now handle.old }

        // What an Ok answers and appends; why it is refused.
        ensures ok { IfOk result (λ t.
            Begun handle.old (view_of handle.old.number t) (seen_by handle.new)) }
        ensures parts { IfOk result (AreOf (seen_by handle.new)) }
        ensures refused { IfErr result (λ why.
            BeginRefused handle.old why (seen_by handle.new)) }

        // What is open by this handle.
        ensures views { IfOk result (λ t. open_by handle.old.number (seen_by handle.new)
            ≡ open_by handle.old.number (seen_by handle.old)
            ++ view_of handle.old.number t ∷ []) }
        ensures fresh { IfOk result (λ t. without t.number
            (open_by handle.old.number (seen_by handle.new))
            ≡ open_by handle.old.number (seen_by handle.old)) }
        ensures no_view { OnErr result (open_by handle.old.number (seen_by handle.new)
            ≡ open_by handle.old.number (seen_by handle.old)) }
        ensures merges { merges_by handle.old.number (seen_by handle.new)
            ≡ merges_by handle.old.number (seen_by handle.old) }
        ensures keeps { (parts : PlainParts) → HasMerge handle.old parts
            → HasMerge handle.new parts }

        // After both.
        ensures handle { IsSameHandle handle.old handle.new }
        ensures legal { IsLegal (seen_by handle.new) }
    {
        let mut hold = self.lock.take(wait, handle);
        let answer = hold.value().begin_view(self.alloc, handle.number());
        self.lock.give(handle, hold);
        answer
    }

    /// Ends a view that this handle began, and answers the generations that nothing references any
    /// more. Takes no memory.
    pub fn end_view(&self, wait: &impl Wait, handle: &mut Handle, view: View) -> Freed
        requires at { IsAt self.now handle.old }
        requires begun { Contains (open_by handle.old.number (seen_by handle.old))
            (view_in handle.old.number view) }
        ensures ended { Ended handle.old view.number result.gens.items (seen_by handle.new) }
        ensures views { open_by handle.old.number (seen_by handle.new)
            ≡ without view.number (open_by handle.old.number (seen_by handle.old)) }
        ensures merges { merges_by handle.old.number (seen_by handle.new)
            ≡ merges_by handle.old.number (seen_by handle.old) }
        ensures keeps { (parts : PlainParts) → HasMerge handle.old parts
            → HasMerge handle.new parts }
        ensures handle { IsSameHandle handle.old handle.new }
        ensures legal { IsLegal (seen_by handle.new) }
    {
        self.end(wait, handle, view.parts())
    }

    /// Ends a view that this handle began and that isn't built, and answers the generations that
    /// nothing references any more. Takes no memory.
    pub fn end_ticket(&self, wait: &impl Wait, handle: &mut Handle, ticket: Ticket) -> Freed
        requires at { IsAt self.now handle.old }
        requires begun { Contains (open_by handle.old.number (seen_by handle.old))
            (view_of handle.old.number ticket) }
        ensures ended { Ended handle.old ticket.number result.gens.items (seen_by handle.new) }
        ensures views { open_by handle.old.number (seen_by handle.new)
            ≡ without ticket.number (open_by handle.old.number (seen_by handle.old)) }
        ensures merges { merges_by handle.old.number (seen_by handle.new)
            ≡ merges_by handle.old.number (seen_by handle.old) }
        ensures keeps { (parts : PlainParts) → HasMerge handle.old parts
            → HasMerge handle.new parts }
        ensures handle { IsSameHandle handle.old handle.new }
        ensures legal { IsLegal (seen_by handle.new) }
    {
        self.end(wait, handle, ticket.parts())
    }

    /// Ends the view of these parts.
    fn end(&self, wait: &impl Wait, handle: &mut Handle, parts: ViewParts) -> Freed
        requires at { IsAt self.now handle.old }
        requires begun { Contains (open_by handle.old.number (seen_by handle.old))
            (view_of handle.old.number parts) }
        ensures ended { Ended handle.old parts.number result.gens.items (seen_by handle.new) }
        ensures views { open_by handle.old.number (seen_by handle.new)
            ≡ without parts.number (open_by handle.old.number (seen_by handle.old)) }
        ensures merges { merges_by handle.old.number (seen_by handle.new)
            ≡ merges_by handle.old.number (seen_by handle.old) }
        ensures keeps { (merging : PlainParts) → HasMerge handle.old merging
            → HasMerge handle.new merging }
        ensures handle { IsSameHandle handle.old handle.new }
        ensures legal { IsLegal (seen_by handle.new) }
    {
        let mut hold = self.lock.take(wait, handle);
        let freed = hold.value().end_view(handle.number(), parts);
        self.lock.give(handle, hold);
        freed
    }

    /// Begins the merge that is planned over the record found, and answers its job, which is worked
    /// outside; `None` where none is planned.
    pub fn begin_merge(
        &self,
        wait: &impl Wait,
        handle: &mut Handle,
    ) -> Result<Option<MergeJob>, AllocError>
        requires at { IsAt self.now handle.old }

        // What an Ok answers and appends, and what an Err leaves.
        ensures ok { IfOk result (λ job. MergeBegun handle.old
            (option_map (merge_of handle.old.number) job) (seen_by handle.new)) }
        ensures parts { IfOk result (λ job. IfSome job (AreMergeOf (seen_by handle.new))) }
        ensures has { IfOk result (λ job. IfSome job (HasMerge handle.new)) }
        ensures refused { OnErr result (MergeRefused handle.old (seen_by handle.new)) }

        // What is open by this handle.
        ensures views { open_by handle.old.number (seen_by handle.new)
            ≡ open_by handle.old.number (seen_by handle.old) }
        ensures merges { IfOk result (λ job. merges_by handle.old.number (seen_by handle.new)
            ≡ merges_by handle.old.number (seen_by handle.old)
            ++ option_to_list (option_map (merge_of handle.old.number) job)) }
        ensures fresh { IfOk result (λ found. IfSome found (λ job. without_merge job.number
            (merges_by handle.old.number (seen_by handle.new))
            ≡ merges_by handle.old.number (seen_by handle.old))) }
        ensures no_merge { OnErr result (merges_by handle.old.number (seen_by handle.new)
            ≡ merges_by handle.old.number (seen_by handle.old)) }
        ensures keeps { (parts : PlainParts) → HasMerge handle.old parts
            → HasMerge handle.new parts }

        // After both.
        ensures handle { IsSameHandle handle.old handle.new }
        ensures legal { IsLegal (seen_by handle.new) }
    {
        let mut hold = self.lock.take(wait, handle);
        let answer = hold.value().begin_merge(handle.number());
        self.lock.give(handle, hold);
        answer
    }

    /// Ends a merge that this handle began, with the segment that the work brought, and answers the
    /// generations that nothing references any more. Takes no memory.
    pub fn commit_merge(&self, wait: &impl Wait, handle: &mut Handle, done: MergeDone) -> Freed
        requires at { IsAt self.now handle.old }
        requires begun { HasMerge handle.old done.parts }
        ensures ended { Committed handle.old (merge_of handle.old.number done.parts)
            result.gens.items (seen_by handle.new) }
        ensures views { open_by handle.old.number (seen_by handle.new)
            ≡ open_by handle.old.number (seen_by handle.old) }
        ensures merges { merges_by handle.old.number (seen_by handle.new)
            ≡ without_merge done.parts.number
            (merges_by handle.old.number (seen_by handle.old)) }
        ensures keeps { (parts : PlainParts) → parts.number ≢ done.parts.number
            → HasMerge handle.old parts → HasMerge handle.new parts }
        ensures handle { IsSameHandle handle.old handle.new }
        ensures legal { IsLegal (seen_by handle.new) }
    {
        let (parts, segment) = done.parts();
        let mut hold = self.lock.take(wait, handle);
        let freed = hold.value().commit_merge(handle.number(), parts, segment);
        self.lock.give(handle, hold);
        freed
    }

    /// Gives up a merge that this handle began. Takes no memory.
    pub fn drop_merge(&self, wait: &impl Wait, handle: &mut Handle, job: MergeJob)
        requires at { IsAt self.now handle.old }
        requires begun { Contains (merges_by handle.old.number (seen_by handle.old))
            (merge_of handle.old.number job) }
        ensures dropped { Dropped handle.old (merge_of handle.old.number job)
            (seen_by handle.new) }
        ensures views { open_by handle.old.number (seen_by handle.new)
            ≡ open_by handle.old.number (seen_by handle.old) }
        ensures merges { merges_by handle.old.number (seen_by handle.new)
            ≡ without_merge job.number (merges_by handle.old.number (seen_by handle.old)) }
        ensures keeps { (parts : PlainParts) → parts.number ≢ job.number
            → HasMerge handle.old parts → HasMerge handle.new parts }
        ensures handle { IsSameHandle handle.old handle.new }
        ensures legal { IsLegal (seen_by handle.new) }
    {
        let parts = job.parts();
        let mut hold = self.lock.take(wait, handle);
        hold.value().drop_merge(handle.number(), parts);
        self.lock.give(handle, hold);
    }

    /// Lets `to` see all that `from` has. It waits for nobody, and appends nothing.
    pub fn meet(&self, from: &mut Handle, to: &mut Handle)
        requires handles { (from.old.lock ≡ self.now) × (to.old.lock ≡ self.now) }
        ensures from { from.new ≡ from.old }
        ensures handle { IsSameHandle to.old to.new }
        ensures met { Met caller_of from.old to.old to.new.history to.new.journal }

        // What is known once both are legal.
        ensures legal { IsLegal (seen_by from.old) → IsLegal (seen_by to.old)
            → IsLegal (seen_by to.new) }
        ensures views { IsLegal (seen_by to.new) → open_by to.old.number (seen_by to.new)
            ≡ open_by to.old.number (seen_by to.old) }
        ensures merges { IsLegal (seen_by to.new) → merges_by to.old.number (seen_by to.new)
            ≡ merges_by to.old.number (seen_by to.old) }
        ensures keeps { IsLegal (seen_by to.new) → (parts : PlainParts) → HasMerge to.old parts
            → HasMerge to.new parts }
    {
        self.lock.meet(from, to);
    }
}

fn shared<T: Sync>(_value: &T) {}

fn sent<T: Send + Drop>(_value: T) {}

// Threads may share an index, and each may have a handle.
fn may_be_shared(index: &Index) {
    shared(index);
}

fn may_be_sent(index: Index, handle: Handle) {
    sent(index);
    sent(handle);
}
