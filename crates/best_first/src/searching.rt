//! The search of one segment.
ghost use Rattle.std.specs.Prelude.{◌≡◌, ◌<◌, ◌≤◌, ◌+◌, ◌*◌, [], All, length, IfOk, OnErr, OnOk};
ghost use Rattle.sg_base.specs.Ranking.{IsKept};
ghost use Rattle.sg_paths.specs.AllPaths.{all_paths};
ghost use Rattle.sg_answers.specs.Reports.{IsSearch, live_of, viewed_segment, queue_size};
ghost use Rattle.seg_live.specs.LiveDocs.{live_count};
ghost use Rattle.fst_code.specs.Lists.{root_paths};
ghost use Rattle.fst_walk.specs.Starts.{most_steps};
ghost use Rattle.collector.specs.Hits.{row_of, rows_of};
ghost use Rattle.collector.specs.Tops.{closed};
ghost use Rattle.best_first.specs.Followed.{ClosesAs};
ghost use Rattle.best_first.specs.Hits.{IsHitOf};
ghost use Rattle.best_first.specs.PathMatches.{path_tails};
ghost use Rattle.best_first.specs.Steps.{most_bytes, most_path_bytes};

use crate::loading::load_starts;
use crate::parts::SegParts;
use crate::reaching::reach_all;
use crate::sizing::queue_size;
use collector::Top;
use path_desk::{Desk, SegReport};
use seg_live::Live;
use sg_base::{Cut, Steps};
use sg_context::Query;
use std::alloc::AllocError;

// Puts the starts in and reaches one path after another. Answers the truncation point.
fn run<S: SegParts<L>, L>(
    parts: &S,
    live: &Live,
    query: &Query,
    generation: u32,
    piece: u32,
    room: u32,
    desk: &mut Desk,
    top: &mut Top,
    steps: &mut Steps<L>,
) -> Result<Option<Cut>, AllocError>
    requires marks { length live.now ≡ length (S.listed parts.now) }
    requires live { 0 < length (live_of (S.listed parts.now) live.now) }
    requires room { room ≡ queue_size query.now.k
        (viewed_segment generation (S.listed parts.now) live.now) }
    requires empty { top.old.hits ≡ [] }
    requires k { top.old.k ≡ query.now.k }
    ensures search { IfOk result (λ cut. ClosesAs query.now
        (viewed_segment generation (S.listed parts.now) live.now) top.new.k
        (row_of (S.key_of parts.now)) top.new.hits cut) }
    ensures hits { All (IsHitOf (S.listed parts.now) piece) top.new.hits }
    ensures kept { IsKept (rows_of (S.key_of parts.now) top.new.hits) }
    ensures k { top.new.k ≡ top.old.k }
    ensures places { top.new.places ≡ top.old.places }
    ensures ticks { steps.new ≤ steps.old
        + (most_steps (path_tails (all_paths (S.listed parts.now))) query.now
        + room * (most_bytes (path_tails (all_paths (S.listed parts.now))) + 1)) }
    ensures lists { (desk.new.lists ≡ desk.old.lists) × (desk.new.need ≡ desk.old.need) }
{
    desk.begin(room);
    let starts = load_starts(parts, query, desk, steps)?;
    let one_start = starts <= 1;
    let cut = reach_all(
        parts, live, query, generation, piece, one_start, desk, top, steps,
    )?;
    Ok(cut)
}

// The report of the collected rows.
fn report_of<S: SegParts<L>, L>(parts: &S, piece: u32, top: Top, cut: Option<Cut>) -> SegReport
    requires hits { All (IsHitOf (S.listed parts.now) piece) top.hits }
    requires kept { IsKept (rows_of (S.key_of parts.now) top.hits) }
    ensures hits { result.hits.items
        ≡ (closed top.k (row_of (S.key_of parts.now)) top.hits cut).hits }
    ensures cut { result.cut ≡ (closed top.k (row_of (S.key_of parts.now)) top.hits cut).cut }
    ensures of { All (IsHitOf (S.listed parts.now) piece) result.hits.items }
    ensures places { result.hits.places ≡ top.places }
{
    let report = top.close(parts, cut);
    SegReport {
        hits: report.hits,
        cut: report.cut,
    }
}

/// The first k rows of a segment by rank, one for each live document, or those that precede a
/// truncation point. Best first over a queue of bounded depth.
pub fn search<S: SegParts<L>, L>(
    parts: &S,
    live: &Live,
    query: &Query,
    generation: u32,
    piece: u32,
    desk: &mut Desk,
    steps: &mut Steps<L>,
) -> Result<SegReport, AllocError>
    requires marks { length live.now ≡ length (S.listed parts.now) }
    requires live { 0 < live_count live.now }
    requires reserved { query.now.k ≤ desk.old.need.k }
    requires list { 0 < desk.old.lists }
    // What the report is.
    ensures search { IfOk result (λ report. IsSearch query.now
        (viewed_segment generation (S.listed parts.now) live.now)
        (rows_of (S.key_of parts.now) report.hits.items) report.cut) }
    ensures hits { IfOk result (λ report.
        All (IsHitOf (S.listed parts.now) piece) report.hits.items) }
    ensures places { IfOk result (λ report. desk.old.need.k ≤ report.hits.places) }
    // What becomes of the desk.
    ensures ok { OnOk result (desk.new.lists + 1 ≡ desk.old.lists) }
    ensures err { OnErr result (desk.new.lists ≡ desk.old.lists) }
    ensures need { desk.new.need ≡ desk.old.need }
    // What it takes.
    ensures ticks { steps.new ≤ steps.old
        + (most_steps (path_tails (all_paths (S.listed parts.now))) query.now
        + queue_size query.now.k (viewed_segment generation (S.listed parts.now) live.now)
        * (most_bytes (path_tails (all_paths (S.listed parts.now))) + 1)) }
{
    let k = query.k;
    let room = queue_size(k, parts.most_paths(), parts.documents(), live.count());
    let mut top = Top::new(desk.hits(), k);
    match run(
        parts, live, query, generation, piece, room, desk, &mut top, steps,
    ) {
        Ok(cut) => Ok(report_of(parts, piece, top, cut)),
        Err(error) => {
            desk.take_back(report_of(parts, piece, top, None));
            Err(error)
        }
    }
}
