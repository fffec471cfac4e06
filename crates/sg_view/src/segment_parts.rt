//! A segment as a search sees it.
ghost use Rattle.std.specs.Prelude.{◌≡◌, ◌<◌, ◌+◌, length, get_or, refl};
ghost use Rattle.fst_code.specs.Bytes.{nodes_of};
ghost use Rattle.sg_paths.specs.AllPaths.{FullPath, all_paths};
ghost use Rattle.seg_table.specs.Owners.{most_paths, owner_of};
ghost use Rattle.best_first.specs.Parts.{AreDocuments, IsMapping, HasSuggestion, key_at};
ghost use Rattle.best_first.specs.Parts.{no_suggestion, suggestions_at};
ghost use Rattle.best_first.specs.PathMatches.{seq_at};

use best_first::SegParts;
use collector::Keys;
use fst_code::{NodeRef, Transducer};
use fst_walk::Starts;
use seg_table::{Owner, SegTable};
use segment::Segment;
use sg_base::{Hit, NodeId, Steps};
use sg_context::Query;
use std::marker::Model;

/// The table and the transducer of a segment, borrowed.
#[derive(Drop)]
pub struct SegmentParts<'a> {
    table: &'a SegTable,
    transducer: &'a Transducer,
}

impl<'a> Model for SegmentParts<'a> {
    ghost use Rattle.fst_code.specs.Bytes.{nodes_of};
    ghost use Rattle.sg_view.specs.PlainParts.{PlainSegment, IsSegment};

    ghost Value = { PlainSegment };

    ghost view = { λ p. record {
      documents = p.table.now;
      nodes = nodes_of p.transducer.now;
    } };

    ghost invariant = { λ p. IsSegment p.table.now (nodes_of p.transducer.now) };
}

impl<'a> SegmentParts<'a> {
    /// Those of a segment.
    pub fn of(segment: &'a Segment) -> SegmentParts<'a>
        ensures { result.documents ≡ segment.entry.now }
    {
        SegmentParts {
            table: segment.table(),
            transducer: segment.transducer(),
        }
    }
}

/// The text of the suggestion at a place of a document.
pub(crate) fn text_at(table: &SegTable, doc: u32, place: u8) -> &str
    requires { HasSuggestion table.now doc place }
    ensures { result.now
        ≡ (get_or (suggestions_at table.entry.now doc) place no_suggestion).text }
{
    table.text(doc, place)
}

/// Its key.
pub(crate) fn key_at(table: &SegTable, doc: u32, place: u8) -> &[u8]
    requires { HasSuggestion table.now doc place }
    ensures { result.now ≡ key_at table.entry.now doc place }
{
    table.key(doc, place)
}

impl Keys for SegmentParts<'_> {
    ghost key_of = { λ s h. key_at s.documents h.doc h.place };

    ghost known = { λ s h. HasSuggestion s.documents h.doc h.place };

    fn key(&self, hit: &Hit) -> &[u8] {
        key_at(self.table, hit.doc, hit.place)
    }
}

impl<L> SegParts<L> for SegmentParts<'_> {
    ghost listed = { λ s. s.documents };

    ghost nodes = { λ s. s.nodes };

    ghost keyed = { λ s h has. (has, refl) };

    fn starts<'b>(&'b self, query: &'b Query) -> Starts<'b, L> {
        Starts::new(self.transducer, query)
    }

    fn node(&self, id: NodeId, steps: &mut Steps<L>) -> NodeRef<'_> {
        self.transducer.node(id, steps)
    }

    fn owner(&self, ordinal: u32, steps: &mut Steps<L>) -> Owner {
        self.table.owner(ordinal, steps)
    }

    fn documents(&self) -> u32 {
        self.table.len()
    }

    fn most_paths(&self) -> u32 {
        self.table.most_paths()
    }

    fn seq(&self, doc: u32) -> u64 {
        self.table.seq(doc)
    }
}
