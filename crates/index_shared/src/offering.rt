//! Offers: what is buffered is frozen, and each generation gets its segment and its live docs. What
//! takes time happens outside the lock: each critical section appends what was made before it.
ghost use Rattle.std.specs.Prelude.{◌≡◌, ◌<◌, ◌⊎◌, ◌^◌, ◌&&◌, IfOk, OnOk, OnErr, length, map};
ghost use Rattle.std.specs.Prelude.{nat_le, if◌then◌else◌};
ghost use Rattle.std.specs.List.{AllByRecursion};
ghost use Rattle.segment.specs.Views.{PlainParts, AreBuildable};
ghost use Rattle.index_core.specs.LegalHistories.{IsLegal};
ghost use Rattle.index_core.specs.Calls.{after_freeze};
ghost use Rattle.index_core.specs.CurrentPieces.{is_segment, is_unbuilt, after_built, AreOf};
ghost use Rattle.index_shared.specs.Sections.{IsAt, IsSameHandle, seen_by};
ghost use Rattle.index_shared.specs.OwnViews.{HasMerge, merges_by, open_by};
ghost use Rattle.index_shared.specs.Offers.{refreshed, Refreshed, Refreshes, Offered, StoppedIn};
ghost use Rattle.index_shared.specs.Offers.{StopsAt, OfferStopped, UpkeepAlone};
ghost use Rattle.index_shared.specs.Offering.{IsTended, Tends, Froze, FreezeStopped, Fits};
ghost use Rattle.index_shared.specs.Offering.{IsReady};

use crate::guarded::Guarded;
use crate::index::{Handle, Index};
use index_core::{CurrentParts, Kind, Piece};
use piece_docs::{live_docs_less, segment_of};
use seg_live::Live;
use segment::Segment;
use sg_paths::Batch;
use std::alloc::AllocError;
use std::sync::{Arc, Wait};

/// Whether a piece has its segment, with live docs that know the deletes of so many operations.
fn is_refreshed(piece: &Piece, upto: u64) -> bool
    ensures { result ≡ (is_segment piece.now.body && nat_le upto piece.now.applied) }
{
    match &piece.kind {
        Kind::Raw(_) => false,
        Kind::Built(_) => upto <= piece.applied,
    }
}

impl Guarded {
    /// Freezes what is buffered, and shares the current pieces.
    fn freeze(&mut self, caller: u32) -> Result<CurrentParts, AllocError>
        ensures parts { IfOk result (AreOf self.new) }
        ensures buildable { IfOk result AreBuildable }
        ensures ok { OnOk result (self.new ≡ after_freeze caller self.old) }
        ensures err { OnErr result
            ((self.new ≡ self.old) ⊎ (self.new ≡ after_freeze caller self.old)) }
        ensures tended { IsTended caller 2 self.old self.new }
        ensures before { IsLegal self.old }
        ensures legal { IsLegal self.new }
    {
        self.core.seal(caller)?;
        let parts = self.core.pieces()?;
        Ok(parts)
    }

    /// Gives a generation its segment and its live docs, and answers whether it had no segment. An
    /// error may come between the two.
    fn refresh(
        &mut self,
        caller: u32,
        generation: u32,
        segment: Arc<Segment>,
        live: Arc<Live>,
        upto: u64,
    ) -> Result<bool, AllocError>
        requires { IsLegal self.old → Fits self.old upto generation segment.value live.value }
        ensures answer { IfOk result (λ done. done ≡ is_unbuilt self.old generation) }
        ensures ok { OnOk result (self.new ≡ refreshed caller upto self.old generation) }
        ensures err { OnErr result
            ((self.new ≡ self.old) ⊎ (self.new ≡ after_built caller generation self.old)) }
        ensures tended { IsTended caller 2 self.old self.new }
        ensures before { IsLegal self.old }
        ensures legal { IsLegal self.new }
    {
        let done = self.core.built(caller, generation, segment)?;
        self.core.lived(caller, generation, live, upto)?;
        Ok(done)
    }
}

impl Index {
    /// Freezes what is buffered, builds the segments that are missing, and applies all deletes that
    /// are frozen. Answers how many segments it built. One critical section freezes; then there is
    /// one for each generation that wasn't up to date there. What was appended before an error
    /// stays.
    pub fn offer(&self, wait: &impl Wait, handle: &mut Handle) -> Result<u32, AllocError>
        requires at { IsAt self.now handle.old }

        // What an Ok answers and appends, and what an Err leaves.
        ensures ok { IfOk result (λ count. Offered handle.old count handle.new) }
        ensures stopped { OnErr result (OfferStopped handle.old handle.new) }

        // What is open by this handle.
        ensures views { open_by handle.old.number (seen_by handle.new)
            ≡ open_by handle.old.number (seen_by handle.old) }
        ensures merges { merges_by handle.old.number (seen_by handle.new)
            ≡ merges_by handle.old.number (seen_by handle.old) }
        ensures keeps { (parts : PlainParts) → HasMerge handle.old parts
            → HasMerge handle.new parts }

        // After both.
        ensures upkeep { UpkeepAlone handle.old (seen_by handle.new) }
        ensures handle { IsSameHandle handle.old handle.new }
        ensures legal { IsLegal (seen_by handle.new) }
    {
        let parts = self.freeze(wait, handle)?;
        let count = self.refresh_all(
            wait,
            handle,
            parts.pieces.items(),
            parts.upto,
            parts.batches.items(),
        )?;
        Ok(count)
    }

    /// Freezes what is buffered, in one critical section, and shares the pieces that are current in
    /// it.
    fn freeze(&self, wait: &impl Wait, handle: &mut Handle) -> Result<CurrentParts, AllocError>
        requires at { IsAt self.now handle.old }
        ensures ok { OnOk result (Froze handle.old (seen_by handle.new)) }
        ensures err { OnErr result (FreezeStopped handle.old handle.new) }
        ensures parts { IfOk result (AreOf (seen_by handle.new)) }
        ensures buildable { IfOk result AreBuildable }
        ensures tends { Tends handle.old handle.new }
    {
        let mut hold = self.lock.take(wait, handle);
        let answer = hold.value().freeze(handle.number());
        self.lock.give(handle, hold);
        answer
    }

    /// Refreshes the generations of pieces, in their order, and answers how many segments it built.
    fn refresh_all(
        &self,
        wait: &impl Wait,
        handle: &mut Handle,
        pieces: &[Piece],
        upto: u64,
        batches: &[Arc<Batch>],
    ) -> Result<u32, AllocError>
        requires at { IsAt self.now handle.old }
        requires legal { IsLegal (seen_by handle.old) }
        requires few { length pieces.now < 2 ^ 32 }
        requires ready { AllByRecursion
            (IsReady (seen_by handle.old) upto (map (λ b. b.value) batches.now)) pieces.now }
        ensures ok { IfOk result (λ count. Refreshes handle.old upto
            (map (λ p. p.generation) pieces.now) count handle.new) }
        ensures err { OnErr result (StopsAt handle.old upto
            (map (λ p. p.generation) pieces.now) handle.new) }
        ensures tends { Tends handle.old handle.new }
    {
        let mut count = 0;
        for piece in pieces {
            let done = self.refresh(wait, handle, piece, upto, batches)?;
            count = if done { count + 1 } else { count };
        }
        Ok(count)
    }

    /// Refreshes the generation of a piece, and answers whether it built its segment. There is no
    /// critical section where the piece is up to date: then the generation is too, whatever others
    /// did since.
    fn refresh(
        &self,
        wait: &impl Wait,
        handle: &mut Handle,
        piece: &Piece,
        upto: u64,
        batches: &[Arc<Batch>],
    ) -> Result<bool, AllocError>
        requires at { IsAt self.now handle.old }
        requires legal { IsLegal (seen_by handle.old) }
        requires ready { IsReady (seen_by handle.old) upto
            (map (λ b. b.value) batches.now) piece.now }
        ensures ok { IfOk result (λ done. Refreshed handle.old upto piece.now.generation
            (if done then 1 else 0) handle.new) }
        ensures err { OnErr result ((handle.new ≡ handle.old)
            ⊎ StoppedIn handle.old piece.now.generation handle.new) }
        ensures tends { Tends handle.old handle.new }
    {
        if is_refreshed(piece, upto) {
            return Ok(false);
        }
        let segment = segment_of(self.alloc, &piece.kind)?;
        let live = live_docs_less(self.alloc, piece, segment.table(), upto, batches)?;
        self.give(wait, handle, piece.generation, segment, live, upto)
    }

    /// Gives a generation its segment and its live docs, in one critical section, and answers
    /// whether it had no segment there. Others may have built it, refreshed it or merged it away
    /// since it was looked at, so the core decides what is appended.
    fn give(
        &self,
        wait: &impl Wait,
        handle: &mut Handle,
        generation: u32,
        segment: Arc<Segment>,
        live: Arc<Live>,
        upto: u64,
    ) -> Result<bool, AllocError>
        requires at { IsAt self.now handle.old }
        requires legal { IsLegal (seen_by handle.old) }
        requires fits { Fits (seen_by handle.old) upto generation segment.value live.value }
        ensures ok { IfOk result (λ done. Refreshed handle.old upto generation
            (if done then 1 else 0) handle.new) }
        ensures err { OnErr result (StoppedIn handle.old generation handle.new) }
        ensures tends { Tends handle.old handle.new }
    {
        let mut hold = self.lock.take(wait, handle);
        let answer = hold
            .value()
            .refresh(handle.number(), generation, segment, live, upto);
        self.lock.give(handle, hold);
        answer
    }
}
