//! The table of current pieces.
use seg_live::Live;
use segment::Segment;
use std::marker::Model;
use std::sync::Arc;

/// A generation. Its batch has one owner, the list of batches, and is shared where a view begins.
#[derive(Drop)]
pub(crate) struct Slot {
    pub generation: u32,
    /// The place of its batch among the batches, while it has no segment.
    pub at: usize,
    pub segment: Option<Arc<Segment>>,
    /// Its live docs: without these all documents are live.
    pub live: Option<Arc<Live>>,
    /// The number of the operation through which deletes are applied to it.
    pub applied: u64,
}

impl Model for Slot {
    ghost use Rattle.std.specs.Prelude.{option_map};
    ghost use Rattle.index_core.specs.Slots.{PlainSlot};

    ghost Value = { PlainSlot };

    ghost view = { λ s. record {
      generation = s.generation;
      at = s.at;
      documents = option_map (λ d. d.value) s.segment;
      live_docs = option_map (λ l. l.value) s.live;
      applied = s.applied;
    } };
}
