//! Reaching one path after another.
ghost use Rattle.std.specs.Prelude.{◌≡◌, ◌<◌, ◌≤◌, ◌+◌, ◌*◌, List, All, length, take, IfOk, OnOk};
ghost use Rattle.std.specs.Prelude.{IsSome, if◌then◌else◌, nat_le};
ghost use Rattle.sg_base.specs.Ranking.{IsKept};
ghost use Rattle.sg_base.specs.Rows.{put_row, ranked};
ghost use Rattle.sg_paths.specs.AllPaths.{all_paths};
ghost use Rattle.sg_answers.specs.Reports.{live_of, viewed_segment, queue_size};
ghost use Rattle.path_desk.specs.Desks.{path_ended};
ghost use Rattle.collector.specs.Hits.{row_of, rows_of};
ghost use Rattle.best_first.specs.Ends.{last_row, is_done};
ghost use Rattle.best_first.specs.Followed.{FollowsPath, BetweenPaths, HasBegun, ClosesAs};
ghost use Rattle.best_first.specs.Followed.{setting, starts_of};
ghost use Rattle.best_first.specs.Hits.{path_at, hit_of, IsHitOf};
ghost use Rattle.best_first.specs.Matches.{Match, ranks_of};
ghost use Rattle.best_first.specs.Parts.{HasSuggestion};
ghost use Rattle.best_first.specs.PathMatches.{live_at};
ghost use Rattle.best_first.specs.Steps.{most_path_bytes};

use crate::following::follow_to_end;
use crate::parts::SegParts;
use crate::rows::row;
use collector::{Keys, Top};
use path_desk::{Desk, Entry};
use seg_live::Live;
use sg_base::{Cut, Steps};
use sg_context::Query;
use std::alloc::AllocError;

// Whether k rows are kept and nothing that is left can stand before the last of them.
fn is_done<K: Keys>(keys: &K, desk: &Desk, top: &Top, one_start: bool) -> bool
    requires { All (K.known keys.now) top.now.hits }
    ensures { result ≡ is_done one_start desk.now
        (last_row top.now.k (rows_of (K.key_of keys.now) top.now.hits)) }
{
    let Some(last) = top.last() else {
        return false;
    };
    one_start || desk.is_settled(last.score, keys.key(&last))
}

// The followed path is at its end: the row of a live document is kept.
fn reach<S: SegParts<L>, L>(
    parts: &S,
    live: &Live,
    piece: u32,
    end: Entry,
    desk: &mut Desk,
    top: &mut Top,
    steps: &mut Steps<L>,
)
    requires followed { IsSome desk.old.followed }
    requires marks { length live.now ≡ length (S.listed parts.now) }
    requires ordinal { end.ordinal < length (all_paths (S.listed parts.now)) }
    requires suggestion { HasSuggestion (S.listed parts.now)
        (path_at (S.listed parts.now) end.ordinal).entry.doc
        (path_at (S.listed parts.now) end.ordinal).entry.place }
    requires hits { All (IsHitOf (S.listed parts.now) piece) top.old.hits }
    requires kept { IsKept (rows_of (S.key_of parts.now) top.old.hits) }
    ensures desk { desk.new ≡ path_ended desk.old }
    ensures rows { rows_of (S.key_of parts.now) top.new.hits
        ≡ (if live_at live.now (path_at (S.listed parts.now) end.ordinal).entry.doc
        then take top.old.k (put_row (row_of (S.key_of parts.now)
        (hit_of (S.listed parts.now) piece end.score (path_at (S.listed parts.now) end.ordinal)))
        (rows_of (S.key_of parts.now) top.old.hits))
        else rows_of (S.key_of parts.now) top.old.hits) }
    ensures hits { All (IsHitOf (S.listed parts.now) piece) top.new.hits }
    ensures kept { IsKept (rows_of (S.key_of parts.now) top.new.hits) }
    ensures k { top.new.k ≡ top.old.k }
    ensures places { top.new.places ≡ top.old.places }
    ensures tick { steps.new ≡ steps.old + 1 }
{
    desk.reached();
    if let Some(hit) = row(parts, live, piece, end, steps) {
        top.put(parts, hit);
    }
}

// Follows the first queued entry to its end.
fn follow_and_reach<S: SegParts<L>, L>(
    parts: &S,
    live: &Live,
    query: &Query,
    piece: u32,
    entry: Entry,
    desk: &mut Desk,
    top: &mut Top,
    steps: &mut Steps<L>,
) -> Result<(), AllocError>
    requires follows { (r : List Match)
        × FollowsPath (setting query.now (S.nodes parts.now) (S.listed parts.now) live.now)
        (S.nodes parts.now) (S.listed parts.now) r desk.old entry
        × (rows_of (S.key_of parts.now) top.old.hits ≡ take top.old.k (ranked (ranks_of r))) }
    requires marks { length live.now ≡ length (S.listed parts.now) }
    requires hits { All (IsHitOf (S.listed parts.now) piece) top.old.hits }
    requires kept { IsKept (rows_of (S.key_of parts.now) top.old.hits) }
    ensures between { OnOk result ((r : List Match)
        × BetweenPaths query.now (S.nodes parts.now) (S.listed parts.now) live.now r top.new.k
        desk.new (rows_of (S.key_of parts.now) top.new.hits)) }
    ensures reached { OnOk result (desk.new.reached ≡ desk.old.reached + 1) }
    ensures room { OnOk result (desk.new.room ≡ desk.old.room) }
    ensures hits { All (IsHitOf (S.listed parts.now) piece) top.new.hits }
    ensures kept { IsKept (rows_of (S.key_of parts.now) top.new.hits) }
    ensures k { top.new.k ≡ top.old.k }
    ensures places { top.new.places ≡ top.old.places }
    ensures ticks { steps.new ≤ steps.old + (most_path_bytes (S.nodes parts.now) + 1) }
    ensures lists { (desk.new.lists ≡ desk.old.lists) × (desk.new.need ≡ desk.old.need) }
{
    let end = follow_to_end(parts, entry, desk, steps)?;
    reach(parts, live, piece, end, desk, top, steps);
    Ok(())
}

/// Reaches one path after another until k rows are settled or the queue is empty, and answers the
/// truncation point.
pub fn reach_all<S: SegParts<L>, L>(
    parts: &S,
    live: &Live,
    query: &Query,
    generation: u32,
    piece: u32,
    one_start: bool,
    desk: &mut Desk,
    top: &mut Top,
    steps: &mut Steps<L>,
) -> Result<Option<Cut>, AllocError>
    requires begun { HasBegun query.now (S.nodes parts.now) (S.listed parts.now) }
    requires between { (r : List Match)
        × BetweenPaths query.now (S.nodes parts.now) (S.listed parts.now) live.now r top.old.k
        desk.old (rows_of (S.key_of parts.now) top.old.hits) }
    requires marks { length live.now ≡ length (S.listed parts.now) }
    requires live { 0 < length (live_of (S.listed parts.now) live.now) }
    requires hits { All (IsHitOf (S.listed parts.now) piece) top.old.hits }
    requires kept { IsKept (rows_of (S.key_of parts.now) top.old.hits) }
    requires k { top.old.k ≡ query.now.k }
    requires room { desk.old.room ≡ queue_size query.now.k
        (viewed_segment generation (S.listed parts.now) live.now) }
    requires fresh { desk.old.reached ≡ 0 }
    requires one { one_start ≡ nat_le (length (starts_of (S.nodes parts.now) query.now)) 1 }
    ensures search { IfOk result (λ cut. ClosesAs query.now
        (viewed_segment generation (S.listed parts.now) live.now) top.new.k
        (row_of (S.key_of parts.now)) top.new.hits cut) }
    ensures hits { All (IsHitOf (S.listed parts.now) piece) top.new.hits }
    ensures kept { IsKept (rows_of (S.key_of parts.now) top.new.hits) }
    ensures k { top.new.k ≡ top.old.k }
    ensures places { top.new.places ≡ top.old.places }
    ensures ticks { steps.new
        ≤ steps.old + desk.old.room * (most_path_bytes (S.nodes parts.now) + 1) }
    ensures lists { (desk.new.lists ≡ desk.old.lists) × (desk.new.need ≡ desk.old.need) }
{
    while !is_done(parts, desk, top, one_start) {
        let Some(entry) = desk.follow() else {
            let cut = desk.cut(generation)?;
            return Ok(cut);
        };
        follow_and_reach(parts, live, query, piece, entry, desk, top, steps)?;
    }
    Ok(None)
}
