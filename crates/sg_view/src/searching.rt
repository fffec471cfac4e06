//! The searches of a view's segments.
ghost use Rattle.std.specs.Prelude.{◌≡◌, ◌<◌, ◌≤◌, ◌+◌, [], All, length, IfOk, OnErr, OnOk};
ghost use Rattle.sg_base.specs.Ranking.{IsKept};
ghost use Rattle.sg_answers.specs.Reports.{IsSearch};
ghost use Rattle.collector.specs.Hits.{rows_of};
ghost use Rattle.sg_view.specs.Rows.{hit_key};
ghost use Rattle.sg_view.specs.Searched.{IsHitIn, segment_at, collected, AddsSearch, HaveSearched};
ghost use Rattle.sg_view.specs.Searching.{search_steps, segment_steps, view_steps};
ghost use Rattle.sg_view.specs.Viewing.{viewed_segments};

use crate::cuts::first_cut;
use crate::segment_parts::SegmentParts;
use crate::view::View;
use best_first::search;
use collector::Top;
use path_desk::{Desk, SegReport};
use segment::Segment;
use sg_base::{Cut, Hit, Steps};
use sg_context::Query;
use std::alloc::AllocError;

// The report of the search of one segment, by the view's hits.
fn search_viewed<L>(
    view: &View,
    piece: u32,
    query: &Query,
    desk: &mut Desk,
    steps: &mut Steps<L>,
) -> Result<SegReport, AllocError>
    requires piece { piece < length view.now.segments }
    requires live { 0 < length (segment_at view.now.segments piece).live }
    requires reserved { query.now.k ≤ desk.old.need.k }
    requires list { 0 < desk.old.lists }
    ensures search { IfOk result (λ r. IsSearch query.now (segment_at view.now.segments piece)
        (rows_of (hit_key view.now.segments) r.hits.items) r.cut) }
    ensures hits { IfOk result (λ r. All (IsHitIn view.now.segments) r.hits.items) }
    ensures places { IfOk result (λ r. desk.old.need.k ≤ r.hits.places) }
    ensures ok { OnOk result (desk.new.lists + 1 ≡ desk.old.lists) }
    ensures err { OnErr result (desk.new.lists ≡ desk.old.lists) }
    ensures need { desk.new.need ≡ desk.old.need }
    ensures ticks { steps.new
        ≤ steps.old + search_steps query.now (segment_at view.now.segments piece) }
{
    let viewed = view.viewed(piece);
    let segment: &Segment = &viewed.segment;
    let parts = SegmentParts::of(segment);
    let report = search(
        &parts,
        &viewed.live,
        query,
        viewed.generation,
        piece,
        desk,
        steps,
    )?;
    Ok(report)
}

// Puts hits, one after another.
fn put_hits(view: &View, hits: &[Hit], top: &mut Top)
    requires hits { All (IsHitIn view.now.segments) hits.now }
    requires known { All (IsHitIn view.now.segments) top.old.hits }
    requires kept { IsKept (rows_of (hit_key view.now.segments) top.old.hits) }
    ensures rows { rows_of (hit_key view.now.segments) top.new.hits
        ≡ collected top.old.k (rows_of (hit_key view.now.segments) hits.now)
        (rows_of (hit_key view.now.segments) top.old.hits) }
    ensures known { All (IsHitIn view.now.segments) top.new.hits }
    ensures kept { IsKept (rows_of (hit_key view.now.segments) top.new.hits) }
    ensures k { top.new.k ≡ top.old.k }
    ensures places { top.new.places ≡ top.old.places }
{
    for hit in hits {
        top.put(view, *hit);
    }
}

// Searches one segment, puts its rows, gives the list back to the desk and answers the truncation
// point.
fn search_live<L>(
    view: &View,
    piece: u32,
    query: &Query,
    desk: &mut Desk,
    top: &mut Top,
    steps: &mut Steps<L>,
) -> Result<Option<Cut>, AllocError>
    requires piece { piece < length view.now.segments }
    requires live { 0 < length (segment_at view.now.segments piece).live }
    requires reserved { query.now.k ≤ desk.old.need.k }
    requires list { desk.old.lists ≡ 1 }
    requires known { All (IsHitIn view.now.segments) top.old.hits }
    requires kept { IsKept (rows_of (hit_key view.now.segments) top.old.hits) }
    ensures adds { IfOk result (AddsSearch query.now (segment_at view.now.segments piece) top.new.k
        (rows_of (hit_key view.now.segments) top.old.hits)
        (rows_of (hit_key view.now.segments) top.new.hits)) }
    ensures known { All (IsHitIn view.now.segments) top.new.hits }
    ensures kept { IsKept (rows_of (hit_key view.now.segments) top.new.hits) }
    ensures k { top.new.k ≡ top.old.k }
    ensures places { top.new.places ≡ top.old.places }
    ensures list { desk.new.lists ≡ 1 }
    ensures need { desk.new.need ≡ desk.old.need }
    ensures ticks { steps.new
        ≤ steps.old + search_steps query.now (segment_at view.now.segments piece) }
{
    let report = search_viewed(view, piece, query, desk, steps)?;
    let SegReport { hits, cut } = report;
    put_hits(view, hits.items(), top);
    desk.take_back(SegReport { hits, cut: None });
    Ok(cut)
}

// The same where a document of the segment is live. Else nothing is done.
fn search_piece<L>(
    view: &View,
    piece: u32,
    query: &Query,
    desk: &mut Desk,
    top: &mut Top,
    steps: &mut Steps<L>,
) -> Result<Option<Cut>, AllocError>
    requires piece { piece < length view.now.segments }
    requires reserved { query.now.k ≤ desk.old.need.k }
    requires list { desk.old.lists ≡ 1 }
    requires known { All (IsHitIn view.now.segments) top.old.hits }
    requires kept { IsKept (rows_of (hit_key view.now.segments) top.old.hits) }
    ensures adds { IfOk result (AddsSearch query.now (segment_at view.now.segments piece) top.new.k
        (rows_of (hit_key view.now.segments) top.old.hits)
        (rows_of (hit_key view.now.segments) top.new.hits)) }
    ensures known { All (IsHitIn view.now.segments) top.new.hits }
    ensures kept { IsKept (rows_of (hit_key view.now.segments) top.new.hits) }
    ensures k { top.new.k ≡ top.old.k }
    ensures places { top.new.places ≡ top.old.places }
    ensures list { desk.new.lists ≡ 1 }
    ensures need { desk.new.need ≡ desk.old.need }
    ensures ticks { steps.new
        ≤ steps.old + segment_steps query.now (segment_at view.now.segments piece) }
{
    let viewed = view.viewed(piece);
    if viewed.live.count() == 0 {
        return Ok(None);
    }
    let cut = search_live(view, piece, query, desk, top, steps)?;
    Ok(cut)
}

/// Searches all segments, the last one first, and answers the first of their truncation points.
pub(crate) fn search_all<L>(
    view: &View,
    query: &Query,
    desk: &mut Desk,
    top: &mut Top,
    steps: &mut Steps<L>,
) -> Result<Option<Cut>, AllocError>
    requires reserved { query.now.k ≤ desk.old.need.k }
    requires list { desk.old.lists ≡ 1 }
    requires empty { top.old.hits ≡ [] }
    ensures searched { IfOk result (HaveSearched query.now (viewed_segments view.now) top.new.k
        (rows_of (hit_key view.now.segments) top.new.hits)) }
    ensures known { All (IsHitIn view.now.segments) top.new.hits }
    ensures kept { IsKept (rows_of (hit_key view.now.segments) top.new.hits) }
    ensures k { top.new.k ≡ top.old.k }
    ensures places { top.new.places ≡ top.old.places }
    ensures list { desk.new.lists ≡ 1 }
    ensures need { desk.new.need ≡ desk.old.need }
    ensures ticks { steps.new ≤ steps.old + view_steps query.now (viewed_segments view.now) }
{
    let mut first = None;
    let segments = view.segments();
    let mut left = segments.len() as u32;
    while left > 0 {
        let cut = search_piece(view, left - 1, query, desk, top, steps)?;
        first = first_cut(cut, first);
        left -= 1;
    }
    Ok(first)
}
