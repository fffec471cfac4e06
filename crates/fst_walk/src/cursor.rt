//! All paths, in the order of the list.
ghost use Rattle.std.specs.Prelude.{◌≡◌, ◌∷◌, [], MatchOption};
ghost use Rattle.fst_code.specs.Lists.{list_of};
ghost use Rattle.fst_code.specs.Bytes.{nodes_of};
ghost use Rattle.fst_walk.specs.PathsLeft.{PathsLeft};

use crate::seeking::root_spot;
use crate::spot::Spot;
use crate::trail::{Trail, TrailStage};
use crate::trailing::{descend, move_on};
use fst_code::Transducer;
use sg_base::{Cost, NodeId, Steps};
use std::marker::Model;

/// All paths with their costs, in the order of the list. It has about 4 KB and takes no memory.
/// Going down to a path takes a node look for each byte beyond the front that it shares with the
/// one before, and going up one for each byte that is left again: two a byte over all calls.
#[derive(Drop)]
pub struct Cursor<'a> {
    transducer: &'a Transducer,
    stage: TrailStage,
    given: u32,
    /// How many bytes the path has that was given last.
    shown: usize,
    trail: Trail,
}

impl<'a> Model for Cursor<'a> {
    ghost use Rattle.std.specs.Prelude.{◌≡◌, ◌≤◌, take, drop};
    ghost use Rattle.fst_code.specs.Bytes.{nodes_of};
    ghost use Rattle.fst_code.specs.Lists.{list_of};
    ghost use Rattle.fst_code.specs.Transducers.{IsTransducer};
    ghost use Rattle.fst_walk.specs.Trails.{Stands};
    ghost use Rattle.fst_walk.specs.PathsLeft.{PathsLeft};

    ghost Value = { PathsLeft };

    ghost view = { λ c. record {
      nodes = nodes_of c.transducer.now;
      paths = drop c.given (list_of c.transducer.now);
      path = take c.shown c.trail.bytes;
    } };

    ghost invariant = { λ c. record {
      sound : IsTransducer (nodes_of c.transducer.now);
      fits : c.shown ≤ 324;
      stands : Stands (nodes_of c.transducer.now) c.stage c.given c.trail;
    } };
}

impl<'a> Cursor<'a> {
    /// Before the first path, with none at hand.
    pub fn new(t: &'a Transducer) -> Cursor<'a>
        ensures nodes { result.nodes ≡ nodes_of t.entry.now }
        ensures paths { result.paths ≡ list_of t.entry.now }
        ensures path { result.path ≡ [] }
    {
        match root_spot(t) {
            None => Cursor {
                transducer: t,
                stage: TrailStage::Past,
                given: 0,
                shown: 0,
                trail: Trail::new(Spot {
                    node: NodeId(0),
                    cost: 0,
                    ordinal: 0,
                }),
            },
            Some(root) => Cursor {
                transducer: t,
                stage: TrailStage::Fresh,
                given: 0,
                shown: 0,
                trail: Trail::new(root),
            },
        }
    }

    /// The cost of the next path, and None after the last, which leaves the path at hand.
    pub fn next<L>(&mut self, steps: &mut Steps<L>) -> Option<Cost>
        ensures nodes { self.new.nodes ≡ self.old.nodes }
        ensures path { MatchOption result ((self.old.paths ≡ []) × (self.new.paths ≡ [])
            × (self.new.path ≡ self.old.path))
            (λ cost. self.old.paths ≡ (self.new.path, cost) ∷ self.new.paths) }
    {
        if !move_on(self.transducer, self.stage, &mut self.trail, steps) {
            self.stage = TrailStage::Past;
            return None;
        }
        descend(self.transducer, &mut self.trail, steps);
        self.stage = TrailStage::AtPath;
        self.given += 1;
        self.shown = self.trail.len;
        Some(self.trail.top().cost)
    }

    /// The path that was given last. It is empty before the first.
    pub fn path(&self) -> &[u8]
        ensures { result.now ≡ self.now.path }
    {
        &self.trail.bytes[..self.shown]
    }
}
