//! Rows of paths.
ghost use Rattle.std.specs.Prelude.{◌≡◌, ◌<◌, ◌+◌, false, true, length, MatchOption};
ghost use Rattle.sg_paths.specs.AllPaths.{all_paths};
ghost use Rattle.best_first.specs.Hits.{path_at, hit_of};
ghost use Rattle.best_first.specs.PathMatches.{live_at};

use crate::parts::SegParts;
use path_desk::Entry;
use seg_live::Live;
use sg_base::{Hit, Steps};

/// The row of the path at whose end an entry stands, where its document is live.
pub fn row<S: SegParts<L>, L>(
    parts: &S,
    live: &Live,
    piece: u32,
    end: Entry,
    steps: &mut Steps<L>,
) -> Option<Hit>
    requires marks { length live.now ≡ length (S.listed parts.now) }
    requires ordinal { end.ordinal < length (all_paths (S.listed parts.now)) }
    requires doc { (path_at (S.listed parts.now) end.ordinal).entry.doc
        < length (S.listed parts.now) }
    ensures row { MatchOption result
        (live_at live.now (path_at (S.listed parts.now) end.ordinal).entry.doc ≡ false)
        (λ h. (live_at live.now (path_at (S.listed parts.now) end.ordinal).entry.doc ≡ true)
        × (h ≡ hit_of (S.listed parts.now) piece end.score
        (path_at (S.listed parts.now) end.ordinal))) }
    ensures tick { steps.new ≡ steps.old + 1 }
{
    let owner = parts.owner(end.ordinal, steps);
    if !live.is_live(owner.doc) {
        return None;
    }
    Some(Hit {
        score: end.score,
        seq: parts.seq(owner.doc),
        piece,
        doc: owner.doc,
        place: owner.place,
    })
}
