//! Steps of the core that begin merges and end them.
ghost use Rattle.std.specs.Prelude.{◌≡◌, ◌<◌, ◌≤◌, ◌+◌, ◌*◌, false};
ghost use Rattle.std.specs.Prelude.{IfOk, OnOk, OnErr, length, map, drop, All, option_map};
ghost use Rattle.std.specs.Option.{IfSome};
ghost use Rattle.std.specs.List.{AllByRecursion};
ghost use Rattle.std.specs.List.Sorted.{IsStrictlyIncreasing};
ghost use Rattle.index_holds.specs.Holders.{is_held, HasRoom, HasHolder, IsCurrentAndHeld};
ghost use Rattle.index_holds.specs.Holders.{after_retire, given_up};
ghost use Rattle.merge_plan.specs.Merges.{plan};
ghost use Rattle.index_core.specs.declared.limits.TheConstants.{MOST_OPERATIONS};
ghost use Rattle.index_core.specs.EndedMerges.{sources};
ghost use Rattle.index_core.specs.HeldGenerations.{RisesFrom};
ghost use Rattle.index_core.specs.Keeping.{least_applied, known_batches};
ghost use Rattle.index_core.specs.PlannedMerges.{IsWithinSegment};
ghost use Rattle.index_core.specs.OwnLists.{list_of};
ghost use Rattle.index_core.specs.Fields.{with_list_places, sizes_of};
ghost use Rattle.index_core.specs.Fields.{merging, dropping, retiring, bringing};

use crate::changing::remove_slots;
use crate::event::Event;
use crate::own_list::{OwnList, TwoLists, take_list, told_in, two_lists};
use crate::sharing::{behind, known_batches, least_applied, shared_batches, shared_sources};
use crate::sizing::{merged_generations, sizes_of};
use crate::slot::Slot;
use crate::store::Store;
use index_holds::Freed;
use merge_plan::plan;
use segment::{MergeParts, Segment};
use sg_base::List;
use std::alloc::AllocError;
use std::sync::Arc;

impl Store {
    /// The generations of the merge that is planned, if one is.
    pub(crate) fn plan(&self) -> Result<Option<Vec<u32>>, AllocError>
        requires rising { RisesFrom 1 (map (λ piece. piece.generation) self.now.pieces) }
        ensures plan { IfOk result (λ found.
            option_map (λ gens. gens.items) found ≡ plan (sizes_of self.now)) }
        ensures rising { IfOk result (λ found.
            IfSome found (λ gens. IsStrictlyIncreasing gens.items)) }
        ensures within { OnOk result (AllByRecursion IsWithinSegment (sizes_of self.now)) }
    {
        let merged = merged_generations(self.alloc, self.merge_lists.as_slice())?;
        let sizes = sizes_of(self.alloc, self.slots.as_slice(), merged.as_slice())?;
        plan(self.alloc, sizes.as_slice())
    }

    /// The parts of the merge of these generations that begins next.
    pub(crate) fn share_sources(&self, gens: Vec<u32>) -> Result<MergeParts, AllocError>
        requires room { length self.now.history < self.now.places }
        requires begun { self.now.lists.merges_begun ≤ length self.now.history }
        requires rising { IsStrictlyIncreasing gens.items }
        ensures number { IfOk result (λ p. p.number ≡ self.now.lists.merges_begun + 1) }
        ensures upto { IfOk result (λ p. p.upto ≡ self.now.frozen_count) }
        ensures pieces { IfOk result (λ p. p.pieces ≡ sources gens.items self.now.pieces) }
        ensures batches { IfOk result (λ p. p.batches
            ≡ drop (known_batches (least_applied p.upto (sources gens.items self.now.pieces))
            self.now.batches) self.now.batches) }
        ensures gens { IfOk result (λ p. p.generations ≡ gens.items) }
    {
        let batches = self.batches.as_slice();
        let pieces = shared_sources(self.alloc, self.slots.as_slice(), batches, gens.as_slice())?;
        let least = least_applied(pieces.as_slice(), self.frozen);
        let known = known_batches(batches, least);
        let unknown = shared_batches(self.alloc, behind(batches, known))?;
        Ok(MergeParts {
            merge: self.merges + 1,
            upto: self.frozen,
            pieces: List::of(pieces),
            batches: List::of(unknown),
            gens: List::of(gens),
        })
    }

    /// Begins a merge of these generations, with places for what its end takes.
    pub(crate) fn merge(&mut self, caller: u32, gens: &[u32]) -> Result<(), AllocError>
        requires room { length self.old.history < self.old.places }
        requires begun { self.old.lists.merges_begun ≤ length self.old.history }
        requires few { self.old.lists.merges_open ≤ 3 * MOST_OPERATIONS }
        requires rising { IsStrictlyIncreasing gens.now }
        requires holders { All (HasRoom self.old.held) gens.now }
        ensures ok { OnOk result (self.new ≡ merging caller gens.now
            (with_list_places self.old.lists.view_places self.new.lists.merge_places self.old)) }
        ensures err { OnErr result (self.new
            ≡ with_list_places self.old.lists.view_places self.new.lists.merge_places self.old) }
    {
        // Places for what it brings, beside those of open merges and of a closed batch.
        self.slots.reserve(self.merging as usize + 2)?;
        self.holds.reserve(self.merging + 2)?;
        self.merge_lists.reserve(1)?;
        let TwoLists { event, own } = two_lists(self.alloc, gens)?;
        self.holds.hold(gens);
        self.merges += 1;
        self.merging += 1;
        self.merge_lists.push_reserved(OwnList {
            number: self.merges,
            gens: own,
        });
        self.events.push_reserved(Event::MergeBegin {
            caller,
            merge: self.merges,
            gens: event,
        });
        Ok(())
    }

    /// Drops a merge of these generations.
    pub(crate) fn drop_merge(&mut self, caller: u32, merge: u64, gens: Vec<u32>)
        requires some { 0 < self.old.lists.merges_open }
        requires room { length self.old.history < self.old.places }
        requires rising { IsStrictlyIncreasing gens.items }
        requires holders { All (HasHolder self.old.held) gens.items }
        ensures { self.new ≡ dropping caller merge gens.items self.old }
    {
        let _ = take_list(self.alloc, &mut self.merge_lists, merge);
        let _ = self.holds.release(gens);
        self.merging -= 1;
        self.events
            .push_reserved(Event::MergeDrop { caller, merge });
    }

    /// Ends a merge of these generations that brings nothing, and answers those that nothing holds
    /// any more, in the given vector.
    pub(crate) fn retire(&mut self, caller: u32, merge: u64, gens: Vec<u32>) -> Freed
        requires some { 0 < self.old.lists.merges_open }
        requires room { length self.old.history < self.old.places }
        requires own { list_of merge self.old.lists.merges ≡ gens.items }
        requires few_freed { length (given_up self.old.held
            (after_retire gens.items self.old.held)) ≤ length gens.items }
        requires rising { IsStrictlyIncreasing gens.items }
        requires holders { All (IsCurrentAndHeld self.old.held) gens.items }
        ensures store { self.new ≡ retiring caller merge gens.items self.old }
        ensures freed { result.gens.items
            ≡ given_up self.old.held (after_retire gens.items self.old.held) }
    {
        let own = take_list(self.alloc, &mut self.merge_lists, merge);
        remove_slots(&mut self.slots, gens.as_slice());
        let freed = self.holds.retire(gens);
        self.merging -= 1;
        self.events.push_reserved(Event::MergeEnd {
            caller,
            merge,
            into: None,
            freed: told_in(own, freed.gens.items()),
        });
        freed
    }

    /// The same of one that brings a segment, to which deletes are applied through `upto`.
    pub(crate) fn bring(
        &mut self,
        caller: u32,
        merge: u64,
        upto: u64,
        gens: Vec<u32>,
        segment: Arc<Segment>,
    ) -> Freed
        requires some { 0 < self.old.lists.merges_open }
        requires room { length self.old.history < self.old.places }
        requires few { self.old.drawn_count ≤ 3 * MOST_OPERATIONS }
        requires own { list_of merge self.old.lists.merges ≡ gens.items }
        requires few_freed { length (given_up self.old.held
            (after_retire gens.items self.old.held)) ≤ length gens.items }
        requires rising { IsStrictlyIncreasing gens.items }
        requires holders { All (IsCurrentAndHeld self.old.held) gens.items }
        requires new { is_held (after_retire gens.items self.old.held) (self.old.drawn_count + 1)
            ≡ false }
        ensures store { self.new ≡ bringing caller merge upto gens.items segment.value self.old }
        ensures freed { result.gens.items
            ≡ given_up self.old.held (after_retire gens.items self.old.held) }
    {
        let generation = self.drawn + 1;
        let own = take_list(self.alloc, &mut self.merge_lists, merge);
        remove_slots(&mut self.slots, gens.as_slice());
        self.slots.push_reserved(Slot {
            generation,
            at: 0,
            segment: Some(segment),
            live: None,
            applied: upto,
        });
        let freed = self.holds.retire(gens);
        self.holds.bring(generation);
        self.merging -= 1;
        self.drawn = generation;
        self.events.push_reserved(Event::MergeEnd {
            caller,
            merge,
            into: Some(generation),
            freed: told_in(own, freed.gens.items()),
        });
        freed
    }
}
