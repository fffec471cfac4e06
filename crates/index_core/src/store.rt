//! The fields of the core. What a step on them does is one equation of plain data; steps stand in
//! `freezing`, `viewing`, `building` and `merging`.
ghost use Rattle.std.specs.Prelude.{◌≡◌, ◌<◌, ◌≤◌, ◌+◌, ◌^◌, OnOk, length, map};
ghost use Rattle.index_core.specs.declared.limits.TheConstants.{MOST_OPERATIONS};
ghost use Rattle.index_core.specs.Histories.{event_of};
ghost use Rattle.index_core.specs.Fields.{empty_store, with_places, with_list_places};

use crate::event::Event;
use crate::own_list::OwnList;
use crate::slot::Slot;
use index_holds::Holds;
use sg_paths::{Batch, Op};
use std::alloc::{AllocError, Global};
use std::marker::Model;
use std::sync::Arc;

/// The fields of the core.
#[derive(Drop)]
pub(crate) struct Store {
    pub(crate) alloc: Global,
    pub(crate) events: Vec<Event>,
    /// All batches, in the order of their operations: the journal but for what is buffered.
    pub(crate) batches: Vec<Arc<Batch>>,
    /// The table of current pieces, in the order of their generations.
    pub(crate) slots: Vec<Slot>,
    pub(crate) buffered: Vec<Op>,
    /// All that is buffered, as a batch for which the lists have places.
    pub(crate) closed: Option<Arc<Batch>>,
    /// What holds each generation.
    pub(crate) holds: Holds,
    /// A list for each open view, in the order of their begin.
    pub(crate) view_lists: Vec<OwnList>,
    /// A list for each open merge, in the order of their begin.
    pub(crate) merge_lists: Vec<OwnList>,
    /// How many operations the batches have.
    pub(crate) frozen: u64,
    /// How many generations were drawn.
    pub(crate) drawn: u32,
    /// How many views were begun.
    pub(crate) begun: u64,
    /// How many of them are open.
    pub(crate) opened: u32,
    /// How many merges were begun.
    pub(crate) merges: u64,
    /// How many of them are open.
    pub(crate) merging: u32,
}

impl Model for Store {
    ghost use Rattle.std.specs.Prelude.{map, option_map, vec_len};
    ghost use Rattle.std.specs.Vec.{vec_capacity};
    ghost use Rattle.index_core.specs.Histories.{event_of};
    ghost use Rattle.index_core.specs.Fields.{Stored, buffer_of, is_closed, IsClosed};
    ghost use Rattle.index_core.specs.Slots.{slot_piece};
    ghost use Rattle.index_core.specs.Slots.{HaveBatches};

    ghost Value = { Stored };

    ghost view = { λ s. record {
      history = map event_of s.events.items;
      batches = map (λ b. b.value) s.batches.items;
      pieces = map (slot_piece (map (λ b. b.value) s.batches.items)) s.slots.items;
      buffer = buffer_of (option_map (λ b. b.value) s.closed) s.buffered.items;
      closed = is_closed (option_map (λ b. b.value) s.closed);
      held = s.holds.entries;
      lists = record {
        views = s.view_lists.items;
        merges = s.merge_lists.items;
        view_places = vec_capacity s.view_lists;
        merge_places = vec_capacity s.merge_lists;
        merges_begun = s.merges;
        merges_open = s.merging;
      };
      frozen_count = s.frozen;
      drawn_count = s.drawn;
      begun_count = s.begun;
      open_count = s.opened;
      places = vec_capacity s.events;
    } };

    ghost invariant = { λ s.
        IsClosed s.frozen (option_map (λ b. b.value) s.closed) s.buffered.items
        (vec_len s.batches) (vec_capacity s.batches) (vec_len s.slots) (vec_capacity s.slots)
        s.holds.spare s.merging
        × HaveBatches (map (λ b. b.value) s.batches.items) s.slots.items };
}

impl Store {
    pub(crate) fn new(alloc: Global) -> Store
        ensures { result ≡ with_places result.places (with_list_places result.lists.view_places
            result.lists.merge_places empty_store) }
    {
        Store {
            alloc,
            events: Vec::new(alloc),
            batches: Vec::new(alloc),
            slots: Vec::new(alloc),
            buffered: Vec::new(alloc),
            closed: None,
            holds: Holds::new(alloc),
            view_lists: Vec::new(alloc),
            merge_lists: Vec::new(alloc),
            frozen: 0,
            drawn: 0,
            begun: 0,
            opened: 0,
            merges: 0,
            merging: 0,
        }
    }

    pub(crate) fn history(&self) -> &[Event]
        ensures { map event_of result.now ≡ self.now.history }
    {
        self.events.as_slice()
    }

    pub(crate) fn frozen(&self) -> u64
        ensures { result ≡ self.now.frozen_count }
    {
        self.frozen
    }

    pub(crate) fn drawn(&self) -> u32
        ensures { result ≡ self.now.drawn_count }
    {
        self.drawn
    }

    pub(crate) fn opened(&self) -> u32
        ensures { result ≡ self.now.open_count }
    {
        self.opened
    }

    /// How many events' places are reserved: one for the end of each open view and merge.
    pub(crate) fn reserved(&self) -> usize
        ensures count { result ≡ self.now.open_count + self.now.lists.merges_open }
        ensures most { result < 2 ^ 33 }
    {
        self.opened as usize + self.merging as usize
    }

    /// How many operations are accepted.
    pub(crate) fn accepted(&self) -> u64
        requires { self.now.frozen_count + length self.now.buffer ≤ MOST_OPERATIONS }
        ensures { result ≡ self.now.frozen_count + length self.now.buffer }
    {
        match &self.closed {
            Some(batch) => self.frozen + batch.ops.items().len() as u64,
            None => self.frozen + self.buffered.len() as u64,
        }
    }

    /// Room for so many events.
    pub(crate) fn reserve(&mut self, places: usize) -> Result<(), AllocError>
        ensures ok { OnOk result (length self.new.history + places ≤ self.new.places) }
        ensures same { self.new ≡ with_places self.new.places self.old }
        ensures more { self.old.places ≤ self.new.places }
    {
        self.events.reserve(places)
    }
}
