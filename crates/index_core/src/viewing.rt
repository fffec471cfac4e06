//! Steps of the core that share its pieces out, and begin and end views of them.
ghost use Rattle.std.specs.Prelude.{◌≡◌, ◌<◌, ◌≤◌, ◌+◌, ◌*◌, true, IfOk, OnOk, length, map, drop};
ghost use Rattle.std.specs.Prelude.{All};
ghost use Rattle.std.specs.List.Sorted.{IsStrictlyIncreasing};
ghost use Rattle.index_holds.specs.Holders.{HasRoom, HasHolder, after_release, given_up};
ghost use Rattle.index_core.specs.declared.limits.TheConstants.{MOST_OPERATIONS, MOST_OPEN_VIEWS};
ghost use Rattle.index_core.specs.Keeping.{least_applied, known_batches};
ghost use Rattle.index_core.specs.Fields.{all_pieces, all_batches, viewing, ending};
ghost use Rattle.index_core.specs.Fields.{with_list_places};
ghost use Rattle.index_core.specs.OwnLists.{list_of};

use crate::event::Event;
use crate::own_list::{OwnList, TwoLists, take_list, told_in, two_lists};
use crate::parts::CurrentParts;
use crate::sharing::{
    behind, generations_of, known_batches, least_applied, shared_batches, shared_pieces,
};
use crate::store::Store;
use index_holds::Freed;
use segment::{Kind, Piece, ViewParts};
use sg_base::List;
use sg_paths::Batch;
use std::alloc::AllocError;
use std::sync::Arc;

impl Store {
    /// The parts of the view that begins next, where the closed batch is one of the pieces.
    pub(crate) fn share(&self) -> Result<ViewParts, AllocError>
        requires most { self.now.frozen_count + length self.now.buffer ≤ MOST_OPERATIONS }
        requires few { self.now.drawn_count ≤ 3 * MOST_OPERATIONS }
        requires room { length self.now.history < self.now.places }
        requires begun { self.now.begun_count ≤ length self.now.history }
        requires some { self.now.closed ≡ true → 0 < length self.now.buffer }
        ensures number { IfOk result (λ p. p.number ≡ self.now.begun_count + 1) }
        ensures upto { IfOk result (λ p. p.upto ≡ self.now.frozen_count + length self.now.buffer) }
        ensures pieces { IfOk result (λ p. p.pieces ≡ all_pieces self.now) }
        ensures batches { IfOk result (λ p. p.batches
            ≡ drop (known_batches (least_applied p.upto (all_pieces self.now))
            (all_batches self.now)) (all_batches self.now)) }
        ensures gens { IfOk result (λ p.
            p.generations ≡ map (λ piece. piece.generation) (all_pieces self.now)) }
    {
        let upto = self.accepted();
        let pieces = self.share_pieces()?;
        let least = least_applied(pieces.as_slice(), upto);
        let batches = self.share_batches(least)?;
        let gens = generations_of(self.alloc, pieces.as_slice())?;
        Ok(ViewParts {
            view: self.begun + 1,
            upto,
            pieces: List::of(pieces),
            batches: List::of(batches),
            gens: List::of(gens),
        })
    }

    fn share_pieces(&self) -> Result<Vec<Piece>, AllocError>
        requires few { self.now.drawn_count ≤ 3 * MOST_OPERATIONS }
        requires most { self.now.frozen_count + length self.now.buffer ≤ MOST_OPERATIONS }
        ensures { IfOk result (λ v. v.items ≡ all_pieces self.now) }
    {
        let mut pieces = shared_pieces(self.alloc, self.slots.as_slice(), self.batches.as_slice())?;
        if let Some(batch) = &self.closed {
            pieces.push(Piece {
                generation: self.drawn + 1,
                kind: Kind::Raw(Arc::try_clone(batch)?),
                live: None,
                applied: self.frozen,
            })?;
        }
        Ok(pieces)
    }

    fn share_batches(&self, least: u64) -> Result<Vec<Arc<Batch>>, AllocError>
        requires { self.now.closed ≡ true
            → least < self.now.frozen_count + length self.now.buffer }
        ensures { IfOk result (λ v. map (λ b. b.value) v.items
            ≡ drop (known_batches least (all_batches self.now)) (all_batches self.now)) }
    {
        let batches = self.batches.as_slice();
        let known = known_batches(batches, least);
        let mut copies = shared_batches(self.alloc, behind(batches, known))?;
        if let Some(batch) = &self.closed {
            copies.push(Arc::try_clone(batch)?)?;
        }
        Ok(copies)
    }

    /// The current pieces, over what is frozen.
    pub(crate) fn share_frozen(&self) -> Result<CurrentParts, AllocError>
        ensures number { IfOk result (λ p. p.number ≡ 0) }
        ensures upto { IfOk result (λ p. p.upto ≡ self.now.frozen_count) }
        ensures pieces { IfOk result (λ p. p.pieces ≡ self.now.pieces) }
        ensures batches { IfOk result (λ p. p.batches
            ≡ drop (known_batches (least_applied p.upto self.now.pieces) self.now.batches)
            self.now.batches) }
        ensures gens { IfOk result (λ p.
            p.generations ≡ map (λ piece. piece.generation) self.now.pieces) }
    {
        let batches = self.batches.as_slice();
        let pieces = shared_pieces(self.alloc, self.slots.as_slice(), batches)?;
        let least = least_applied(pieces.as_slice(), self.frozen);
        let known = known_batches(batches, least);
        let unknown = shared_batches(self.alloc, behind(batches, known))?;
        Ok(CurrentParts {
            upto: self.frozen,
            pieces: List::of(pieces),
            batches: List::of(unknown),
        })
    }

    /// Two lists of the generations of the parts of a view, and a place for the second.
    pub(crate) fn view_lists(&mut self, parts: &ViewParts) -> Result<TwoLists, AllocError>
        ensures event { IfOk result (λ lists. lists.event.items ≡ parts.now.generations) }
        ensures own { IfOk result (λ lists. lists.own.items ≡ parts.now.generations) }
        ensures room { OnOk result (length self.new.lists.views < self.new.lists.view_places) }
        ensures same { self.new
            ≡ with_list_places self.new.lists.view_places self.old.lists.merge_places self.old }
    {
        self.view_lists.reserve(1)?;
        two_lists(self.alloc, parts.gens.items())
    }

    /// Begins a view.
    pub(crate) fn begin(&mut self, caller: u32, gens: List<u32>, own: Vec<u32>)
        requires room { length self.old.history < self.old.places }
        requires list_room { length self.old.lists.views < self.old.lists.view_places }
        requires same { own.items ≡ gens.items }
        requires begun { self.old.begun_count ≤ length self.old.history }
        requires few { self.old.open_count < MOST_OPEN_VIEWS }
        requires rising { IsStrictlyIncreasing gens.items }
        requires holders { All (HasRoom self.old.held) gens.items }
        ensures { self.new ≡ viewing caller gens.items self.old }
    {
        self.holds.hold(gens.items());
        self.begun += 1;
        self.opened += 1;
        self.view_lists.push_reserved(OwnList {
            number: self.begun,
            gens: own,
        });
        self.events.push_reserved(Event::Begin {
            view: self.begun,
            caller,
            upto: self.frozen,
            gens,
        });
    }

    /// Ends a view of these generations, and answers those that nothing holds any more, in the
    /// given vector.
    pub(crate) fn end(&mut self, caller: u32, view: u64, gens: Vec<u32>) -> Freed
        requires some { 0 < self.old.open_count }
        requires room { length self.old.history < self.old.places }
        requires own { list_of view self.old.lists.views ≡ gens.items }
        requires few { length (given_up self.old.held (after_release gens.items self.old.held))
            ≤ length gens.items }
        requires rising { IsStrictlyIncreasing gens.items }
        requires holders { All (HasHolder self.old.held) gens.items }
        ensures store { self.new ≡ ending caller view gens.items self.old }
        ensures freed { result.gens.items ≡ given_up self.old.held self.new.held }
    {
        let own = take_list(self.alloc, &mut self.view_lists, view);
        let freed = self.holds.release(gens);
        self.opened -= 1;
        self.events.push_reserved(Event::End {
            caller,
            view,
            freed: told_in(own, freed.gens.items()),
        });
        freed
    }
}
