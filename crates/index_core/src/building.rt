//! Steps of the core that give a piece its segment, and live docs that know more.
ghost use Rattle.std.specs.Prelude.{◌≡◌, ◌<◌, length, map};
ghost use Rattle.index_core.specs.HeldGenerations.{RisesFrom};
ghost use Rattle.index_core.specs.Keeping.{has_unbuilt, has_behind};
ghost use Rattle.index_core.specs.Fields.{building, living};

use crate::changing::{build_slot, live_slot};
use crate::event::Event;
use crate::store::Store;
use seg_live::Live;
use segment::Segment;
use std::sync::Arc;

impl Store {
    /// Gives the piece of a generation its segment, if there is one without; answers whether there
    /// is.
    pub(crate) fn build(&mut self, caller: u32, generation: u32, segment: Arc<Segment>) -> bool
        requires room { length self.old.history < self.old.places }
        requires rising { RisesFrom 1 (map (λ piece. piece.generation) self.old.pieces) }
        ensures answer { result ≡ has_unbuilt generation self.old.pieces }
        ensures store { self.new ≡ building caller generation segment.value self.old }
    {
        if !build_slot(&mut self.slots, generation, segment) {
            return false;
        }
        self.events
            .push_reserved(Event::Built { caller, generation });
        true
    }

    /// Gives the piece of a generation live docs that know more, if there is one with a segment;
    /// answers whether there is.
    pub(crate) fn live(
        &mut self,
        caller: u32,
        generation: u32,
        live: Arc<Live>,
        applied: u64,
    ) -> bool
        requires room { length self.old.history < self.old.places }
        requires rising { RisesFrom 1 (map (λ piece. piece.generation) self.old.pieces) }
        ensures answer { result ≡ has_behind generation applied self.old.pieces }
        ensures store { self.new ≡ living caller generation live.value applied self.old }
    {
        if !live_slot(&mut self.slots, generation, live, applied) {
            return false;
        }
        self.events.push_reserved(Event::Lived {
            caller,
            generation,
            applied,
        });
        true
    }
}
