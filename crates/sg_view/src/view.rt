//! Views.
ghost use Rattle.std.specs.Prelude.{◌≡◌, ◌<◌, ◌^◌, [], length, get_or};
ghost use Rattle.std.specs.List.{AllByRecursion};
ghost use Rattle.sg_view.specs.Building.{IsCounted};
ghost use Rattle.sg_view.specs.Rows.{no_segment};

use seg_live::Live;
use segment::{Segment, ViewParts};
use sg_base::List;
use std::alloc::Global;
use std::marker::Model;
use std::sync::Arc;

/// A segment of a view.
#[derive(Drop)]
pub(crate) struct Viewed {
    pub(crate) generation: u32,
    pub(crate) segment: Arc<Segment>,
    pub(crate) live: Arc<Live>,
}

impl Model for Viewed {
    ghost use Rattle.sg_view.specs.Viewing.{LiveSegment};

    ghost Value = { LiveSegment };

    ghost view = { λ s. record {
      generation = s.generation;
      documents = s.segment.value;
      live_docs = s.live.value;
    } };
}

/// A point-in-time view: the documents that the first operations leave, whatever comes later. It
/// can't be dropped; its parts are given back.
pub struct View {
    alloc: Global,
    number: u64,
    upto: u64,
    segments: List<Viewed>,
    gens: List<u32>,
}

impl Model for View {
    ghost use Rattle.sg_view.specs.Viewing.{PlainView};
    ghost use Rattle.sg_view.specs.Building.{AreSegments};

    ghost Value = { PlainView };

    ghost view = { λ v. record {
      number = v.number;
      upto = v.upto;
      segments = v.segments.items;
      generations = v.gens.items;
    } };

    ghost invariant = { λ v. AreSegments v.segments.items };
}

impl View {
    pub(crate) fn new(
        alloc: Global,
        number: u64,
        upto: u64,
        segments: Vec<Viewed>,
        gens: List<u32>,
    ) -> View
        requires counted { AllByRecursion IsCounted segments.items }
        requires few { length segments.items < 2 ^ 32 }
        ensures { result ≡ record {
          number = number;
          upto = upto;
          segments = segments.items;
          generations = gens.items;
        } }
    {
        View {
            alloc,
            number,
            upto,
            segments: List::of(segments),
            gens,
        }
    }

    /// The segment at a place.
    pub(crate) fn viewed(&self, piece: u32) -> &Viewed
        requires { piece < length self.now.segments }
        ensures value { result.now ≡ get_or self.entry.now.segments piece no_segment }
        ensures counted { IsCounted (get_or self.entry.now.segments piece no_segment) }
    {
        let segments = self.segments.items();
        &segments[piece as usize]
    }

    /// Its segments.
    pub(crate) fn segments(&self) -> &[Viewed]
        ensures value { result.now ≡ self.entry.now.segments }
        ensures few { length self.now.segments < 2 ^ 32 }
        ensures counted { AllByRecursion IsCounted self.now.segments }
    {
        self.segments.items()
    }

    /// How many operations it sees.
    pub fn upto(&self) -> u64
        ensures { result ≡ self.now.upto }
    {
        self.upto
    }

    /// What is given back: the view's number, its upto and its generations. Its pieces and batches
    /// are let go. Takes no memory.
    pub fn parts(self) -> ViewParts
        ensures number { result.number ≡ self.number }
        ensures upto { result.upto ≡ self.upto }
        ensures generations { result.generations ≡ self.generations }
        ensures pieces { result.pieces ≡ [] }
        ensures batches { result.batches ≡ [] }
    {
        let View {
            alloc,
            number,
            upto,
            segments: _,
            gens,
        } = self;
        ViewParts {
            view: number,
            upto,
            pieces: List::of(Vec::new(alloc)),
            batches: List::of(Vec::new(alloc)),
            gens,
        }
    }
}
