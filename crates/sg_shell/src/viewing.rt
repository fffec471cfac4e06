//! Views of the index, and what a query prints in one.
ghost use Rattle.std.specs.Prelude.{◌≡◌, ◌≤◌, All, Contains, IfOk, OnOk, OnErr, map, List as Items};
ghost use Rattle.sg_paths.specs.Operations.{PlainOp};
ghost use Rattle.sg_answers.specs.Reports.{IsReport};
ghost use Rattle.collector.specs.Hits.{rows_of};
ghost use Rattle.sg_answers.specs.declared.limits.TheConstants.{MOST_QUEUED};
ghost use Rattle.index_core.specs.Histories.{Record};
ghost use Rattle.index_core.specs.Records.{open_views};
ghost use Rattle.index_core.specs.LegalHistories.{IsLegal};
ghost use Rattle.index_core.specs.OpenViews.{view_of};
ghost use Rattle.index_core.specs.Calls.{after_end};
ghost use Rattle.segment.specs.Views.{AreParts};
ghost use Rattle.index_shared.specs.OwnViews.{view_in};
ghost use Rattle.sg_view.specs.Viewing.{IsViewOf, Represents, viewed_segments};
ghost use Rattle.sg_view.specs.Rows.{HasHit, IsNumbered, hit_key};
ghost use Rattle.index_shared.specs.Offers.{after_flush, built_by_flush};
ghost use Rattle.index_single.specs.declared.caller.TheConstants.{CALLER};
ghost use Rattle.wire_replies.specs.ReplyForms.{plain_reply};
ghost use Rattle.sg_shell.specs.Runs.{IsReportReply};
ghost use Rattle.sg_shell.specs.Working.{Passes, IsShown, Begins, hit_row};

use collector::Report;
use index_core::ViewError;
use index_single::SingleIndex;
use path_desk::{Desk, SegReport};
use sg_base::{Hit, List, Plain, Steps, Text};
use sg_context::Query;
use sg_view::{Ticket, View};
use std::alloc::{AllocError, Global};
use std::sync::Wait;
use wire_replies::{OutRow, Reply};

/// Brings the index up to date: what is buffered is frozen, the segments that are missing are
/// built, and all deletes that are frozen applied. Answers how many segments it built. Want of
/// memory may come between two of these steps, and what was done stays done.
pub(crate) fn refresh(index: &mut SingleIndex, wait: &impl Wait) -> Result<u32, AllocError>
    ensures count { IfOk result (λ count. count ≡ built_by_flush CALLER index.old) }
    ensures ok { OnOk result (index.new ≡ after_flush CALLER index.old) }
    ensures passes { Passes index.old index.new }
{
    index.offer(wait)
}

// Builds the view that has begun; ends it where there is no memory for that.
fn build(index: &mut SingleIndex, wait: &impl Wait, ticket: Ticket) -> Result<View, AllocError>
    requires { Contains (open_views index.old) (view_of CALLER ticket) }
    ensures ok { IfOk result (IsViewOf ticket) }
    ensures represents { IfOk result (λ v. (journal : Items PlainOp)
        → AreParts journal ticket → Represents journal v) }
    ensures unchanged { OnOk result (index.new ≡ index.old) }
    ensures ended { OnErr result (index.new ≡ after_end CALLER ticket.number index.old) }
    ensures legal { OnErr result (IsLegal index.new) }
{
    match ticket.build() {
        Ok(view) => Ok(view),
        Err(ticket) => {
            let _ = index.end_ticket(wait, ticket);
            Err(AllocError)
        }
    }
}

/// Begins a view of all operations and builds it; `None` where too many are open. After want of
/// memory it has ended again.
pub(crate) fn begin(index: &mut SingleIndex, wait: &impl Wait) -> Result<Option<View>, AllocError>
    ensures ok { IfOk result (Begins index.old index.new) }
    ensures err { OnErr result (Passes index.old index.new) }
    ensures legal { IsLegal index.new }
{
    match index.begin_view(wait) {
        Ok(ticket) => match build(index, wait, ticket) {
            Ok(view) => Ok(Some(view)),
            Err(error) => Err(error),
        },
        Err(ViewError::TooMany { .. }) => Ok(None),
        Err(ViewError::Memory) => Err(AllocError),
    }
}

/// Ends a view. Takes no memory.
pub(crate) fn end(index: &mut SingleIndex, wait: &impl Wait, view: View)
    requires { Contains (open_views index.old) (view_in CALLER view) }
    ensures ended { index.new ≡ after_end CALLER view.number index.old }
    ensures legal { IsLegal index.new }
{
    let _ = index.end_view(wait, view);
}

fn out_row(alloc: Global, view: &View, hit: &Hit) -> Result<OutRow, AllocError>
    requires { HasHit view.now.segments hit.now }
    ensures { IfOk result (λ row. row ≡ hit_row view.now.segments hit.now) }
{
    let row = view.row(hit);
    Ok(OutRow {
        id: Text::of(alloc, row.id)?,
        score: row.score,
        seq: row.seq,
        text: Text::of(alloc, row.text)?,
    })
}

fn out_rows(alloc: Global, view: &View, hits: &[Hit]) -> Result<Vec<OutRow>, AllocError>
    requires { All (HasHit view.now.segments) hits.now }
    ensures { IfOk result (λ rows. rows.items ≡ map (hit_row view.now.segments) hits.now) }
{
    let mut rows = Vec::with_capacity(alloc, hits.len())?;
    for hit in hits {
        rows.push(out_row(alloc, view, hit)?)?;
    }
    Ok(rows)
}

fn report_in(desk: &mut Desk, view: &View, query: &Query) -> Result<Report, AllocError>
    ensures report { IfOk result (λ report. (journal : Items PlainOp)
        → Represents journal view.now → IsReport query.now (viewed_segments view.now)
        (rows_of (hit_key view.now.segments) report.hits.items) report.cut) }
    ensures hits { IfOk result (λ report. All (HasHit view.now.segments) report.hits.items) }
    ensures numbers { IfOk result (λ report.
        All (IsNumbered view.now.segments) report.hits.items) }
{
    view.reserve(query, desk)?;
    view.suggest(query, desk, &mut Steps::new(Plain))
}

// A query asks for no more rows than a queue holds.
fn is_few(query: &Query)
    ensures { query.now.k ≤ MOST_QUEUED }
{
    let _rows = query.k;
}

/// What a query prints as line number `line` in a view. The desk's memory is used again.
pub(crate) fn answer_in(
    desk: &mut Desk,
    alloc: Global,
    view: &View,
    line: u64,
    query: &Query,
) -> Result<Reply, AllocError>
    ensures reply { IfOk result (λ reply. (r : Record) → IsShown r view.now
        → IsReportReply line (plain_reply reply) r (view_in CALLER view.now) query.now) }
    ensures few { query.now.k ≤ MOST_QUEUED }
{
    is_few(query);
    let report = report_in(desk, view, query)?;
    let rows = out_rows(alloc, view, report.hits.items())?;
    let Report { hits, cut } = report;
    desk.take_back(SegReport { hits, cut: None });
    Ok(Reply::Rows {
        line,
        upto: view.upto(),
        rows: List::of(rows),
        cut,
    })
}
