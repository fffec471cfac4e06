//! Rows of a view's reports.
ghost use Rattle.std.specs.Prelude.{◌≡◌};
ghost use Rattle.sg_view.specs.Rows.{HasHit, hit_document, hit_suggestion, hit_key};

use crate::segment_parts::{key_at, text_at};
use crate::view::View;
use collector::Keys;
use segment::Segment;
use sg_base::Hit;

/// What a row shows, borrowed from the view.
#[derive(Clone, Copy, Debug)]
pub struct Row<'v> {
    /// Of the document.
    pub id: &'v str,
    /// Of the suggestion, as it was given.
    pub text: &'v str,
    pub key: &'v [u8],
    /// Weight times boost.
    pub score: u64,
    /// The number of the operation that added the document.
    pub seq: u64,
}

impl View {
    /// What a hit of a report of this view shows. Takes no memory.
    pub fn row(&self, hit: &Hit) -> Row<'_>
        requires { HasHit self.now.segments hit.now }
        ensures id { result.id.now ≡ (hit_document self.entry.now.segments hit.entry.now).id }
        ensures text { result.text.now
            ≡ (hit_suggestion self.entry.now.segments hit.entry.now).text }
        ensures key { result.key.now ≡ hit_key self.entry.now.segments hit.entry.now }
        ensures score { result.score ≡ hit.entry.now.score }
        ensures seq { result.seq ≡ hit.entry.now.seq }
    {
        let viewed = self.viewed(hit.piece);
        let segment: &Segment = &viewed.segment;
        let table = segment.table();
        Row {
            id: table.id(hit.doc),
            text: text_at(table, hit.doc, hit.place),
            key: key_at(table, hit.doc, hit.place),
            score: hit.score,
            seq: hit.seq,
        }
    }
}

impl Keys for View {
    ghost use Rattle.sg_view.specs.Searched.{IsHitIn};

    ghost key_of = { λ v h. hit_key v.segments h };

    ghost known = { λ v h. IsHitIn v.segments h };

    fn key(&self, hit: &Hit) -> &[u8] {
        let viewed = self.viewed(hit.piece);
        let segment: &Segment = &viewed.segment;
        key_at(segment.table(), hit.doc, hit.place)
    }
}
