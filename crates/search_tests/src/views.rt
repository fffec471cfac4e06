ghost use Rattle.std.specs.Prelude.{◌≡◌, ◌<◌, ◌≤◌, ◌^◌, All, IfOk, OnOk, length};
ghost use Rattle.std.specs.List.{AllByRecursion};
ghost use Rattle.segment.specs.Views.{AreBuildable, IsBuildable, IsBuildablePiece};
ghost use Rattle.sg_view.specs.Rows.{HasHit};

use crate::making::{document_of, query_of};
use crate::reports;
use crate::table::{assert_same, given};
use collector::Report;
use path_desk::{Desk, SegReport};
use segment::{Kind, Piece, ViewParts};
use sg_base::{Hit, List, Plain, Steps, Text};
use sg_context::Query;
use sg_paths::{Batch, Op};
use sg_view::{Ticket, View};
use std::alloc::Global;
use std::sync::Arc;
use std::test::Fail;

// `-d1` deletes, and `d1=` with suggestions behind it adds a document.
fn op_of(alloc: Global, spelled: &str) -> Result<Op, Fail> {
    if let Some(id) = spelled.strip_prefix('-') {
        return Ok(Op::Delete(Text::of(alloc, id)?));
    }
    let Some((id, suggestions)) = spelled.split_once('=') else {
        return Err("no id".into());
    };
    Ok(Op::Add(document_of(alloc, id, suggestions)?))
}

// A batch of operations with `;` between them.
fn batch_of(alloc: Global, from: u64, spelled: &str) -> Result<Batch, Fail>
    ensures buildable { IfOk result IsBuildable }
    ensures upto { IfOk result (λ b. b.upto < 2 ^ 21) }
{
    let mut operations = Vec::new(alloc);
    for word in spelled.split(';') {
        operations.push(op_of(alloc, word)?)?;
    }
    let count = operations.len();
    if from == 0 || from > 1_000_000 || count == 0 || count > 16_384 {
        return Err("no number, no operation, or too many".into());
    }
    Ok(Batch {
        from,
        upto: from + (count as u64 - 1),
        ops: List::of(operations),
    })
}

fn piece_of(generation: u32, batch: Arc<Batch>) -> Piece
    requires { IsBuildable batch.value }
    ensures { IsBuildablePiece result }
{
    let applied = batch.from - 1;
    Piece {
        generation,
        kind: Kind::Raw(batch),
        live: None,
        applied,
    }
}

// The piece and the batch of a generation more.
fn push_batch(
    pieces: &mut Vec<Piece>,
    batches: &mut Vec<Arc<Batch>>,
    generation: u32,
    batch: Batch,
) -> Result<(), Fail>
    requires batch { IsBuildable batch }
    requires pieces { AllByRecursion IsBuildablePiece pieces.old.items }
    ensures { OnOk result (AllByRecursion IsBuildablePiece pieces.new.items) }
{
    let batch = Arc::new(*batches.allocator(), batch)?;
    pieces.push(piece_of(generation, Arc::try_clone(&batch)?))?;
    batches.push(batch)?;
    Ok(())
}

// The parts of a view over batches with ` / ` between them.
fn parts_of(alloc: Global, spelled: &str) -> Result<ViewParts, Fail>
    ensures { IfOk result AreBuildable }
{
    let mut pieces = Vec::new(alloc);
    let mut batches = Vec::new(alloc);
    let mut gens = Vec::new(alloc);
    let mut upto = 0u64;
    let mut generation = 1u32;
    for batch in spelled.split(" / ") {
        let batch = batch_of(alloc, upto + 1, batch)?;
        upto = batch.upto;
        push_batch(&mut pieces, &mut batches, generation, batch)?;
        gens.push(generation)?;
        generation = generation.saturating_add(1);
    }
    if pieces.len() > 9 {
        return Err("too many batches".into());
    }
    Ok(ViewParts {
        view: 1,
        upto,
        pieces: List::of(pieces),
        batches: List::of(batches),
        gens: List::of(gens),
    })
}

fn push_hits(told: &mut String, view: &View, hits: &[Hit]) -> Result<(), Fail>
    requires { All (HasHit view.now.segments) hits.now }
{
    for hit in hits {
        let row = view.row(hit);
        reports::push_row(told, row.key, row.score, row.seq, hit.place)?;
    }
    Ok(())
}

// The rows and the truncation point of a report.
fn shown(alloc: Global, view: &View, report: &Report) -> Result<String, Fail>
    requires { All (HasHit view.now.segments) report.now.hits.items }
{
    let mut told = String::new(alloc);
    push_hits(&mut told, view, report.hits.items())?;
    if let Some(cut) = &report.cut {
        reports::push_cut(&mut told, cut)?;
    }
    Ok(told)
}

fn report_of(view: &View, query: &Query, desk: &mut Desk) -> Result<Report, Fail>
    ensures { IfOk result (λ report. All (HasHit view.now.segments) report.hits.items) }
{
    view.reserve(query, desk)?;
    let mut steps = Steps::new(Plain);
    let report = view.suggest(query, desk, &mut steps)?;
    Ok(report)
}

// A query's report, whose list goes back to the desk.
fn push_report(told: &mut String, view: &View, query: &str, desk: &mut Desk) -> Result<(), Fail> {
    let query = query_of(*told.allocator(), query)?;
    let report = report_of(view, &query, desk)?;
    let shown = shown(*told.allocator(), view, &report)?;
    let Report { hits, cut } = report;
    desk.take_back(SegReport { hits, cut });
    write!(told, "{shown};")?;
    Ok(())
}

// The reports of queries with `&` between them, at one desk.
fn reports_of(alloc: Global, view: &View, queries: &str) -> Result<String, Fail> {
    let mut told = String::new(alloc);
    let mut desk = Desk::new(alloc);
    for query in queries.split('&') {
        push_report(&mut told, view, query, &mut desk)?;
    }
    Ok(told)
}

fn let_go(parts: ViewParts) {
    let ViewParts {
        view: _,
        upto: _,
        pieces: _,
        batches: _,
        gens: _,
    } = parts;
}

fn answered(alloc: Global, queries: &str, batches: &str) -> Result<String, Fail> {
    let ticket = Ticket::of(alloc, parts_of(alloc, batches)?);
    match ticket.build() {
        Ok(view) => {
            let told = reports_of(alloc, &view, queries);
            let_go(view.parts());
            told
        }
        Err(ticket) => {
            let_go(ticket.parts());
            Err("no memory".into())
        }
    }
}

// A row each: its name, queries with `&` between them, the batches of the view's segments, which
// have the generations 1, 2 .., and the reports, each with `;` behind it.
const ROWS: &str = "\
eleven of twelve equal ones are deleted|oy 1|\
    e1=oy:1;e2=oy:1;e3=oy:1;e4=oy:1;e5=oy:1;e6=oy:1;\
    e7=oy:1;e8=oy:1;e9=oy:1;e10=oy:1;e11=oy:1;e12=oy:1;-e1;-e2;-e3;-e4;-e5;-e6;-e7;-e8;-e9;-e10;-e11\
    |1 oy 12/0;
two contexts, one score|ab 1|d1=abz:5@a zzz:1@a;d2=abc:5@b|5 abc 2/0;
the same with the lesser queue|ab 1|d1=abz:5@a;d2=abc:5@b|cut at 5 ab of 1, 1 queued;
rows of two segments|ort 3|a=ort:5;b=ort:2 / c=ort:3|5 ort 1/0, 3 ort 3/0, 2 ort 2/0;
a later batch deletes|ort 3|a=ort:5;b=ort:2 / -a;c=ort:3|3 ort 4/0, 2 ort 2/0;
an id that comes again|ort 3|a=ort:5 / -a;a=ort:3|3 ort 3/0;
only k of each segment count|ort 2|a=ort:1;b=ort:2;c=ort:3 / d=ort:4;e=ort:1|4 ort 4/0, 3 ort 3/0;
a spent queue, and a row before it|ort 1|\
    a=ort:6;b=ort:5;c=ort:4;d=ort:3;e=ort:2;f=ort:1 / -a;-b;-c;-d;g=ort:4\
    |4 ort 11/0;
a spent queue, and a row behind it|ort 1|\
    a=ort:6;b=ort:5;c=ort:4;d=ort:3;e=ort:2;f=ort:1 / -a;-b;-c;-d;g=ort:1\
    |cut at 3 ort of 1, 3 queued;
the first of two truncation points|ort 1|\
    a=ort:4;b=ort:3;c=ort:2;d=ort:1 / e=ort:9;f=ort:8;g=ort:7;h=ort:6 / -a;-b;-e;-f\
    |cut at 7 ort of 2, 2 queued;
of equal ones that of the lesser generation|ort 1|\
    a=ort:4;b=ort:3;c=ort:2;d=ort:1 / e=ort:4;f=ort:3;g=ort:2;h=ort:1 / -a;-b;-e;-f\
    |cut at 2 ort of 1, 2 queued;
no document is live|ort 1|a=ort:4 / -a|;
one desk for several queries|ort 1&o 3&x 2&ort 1|\
    a=ort:4;b=ohm:3 / c=oder:5\
    |4 ort 1/0;5 oder 3/0, 4 ort 1/0, 3 ohm 2/0;;4 ort 1/0;
";

fn push_row(told: &mut String, row: &str) -> Result<(), Fail> {
    let Some((front, given)) = given(row) else {
        return Err("no reports".into());
    };
    let Some((queries, batches)) = given.split_once('|') else {
        return Err("no batches".into());
    };
    let answer = answered(*told.allocator(), queries, batches)?;
    write!(told, "{front}|{answer}\n")?;
    Ok(())
}

fn rows_again(alloc: Global) -> Result<String, Fail> {
    let mut told = String::new(alloc);
    for row in ROWS.lines() {
        push_row(&mut told, row)?;
    }
    Ok(told)
}

#[test]
fn views_answer_over_their_segments(rt: HostRuntime) -> Result<(), Fail> {
    let told = rows_again(rt.alloc())?;
    assert_same(&rt, told.as_str(), ROWS);
    Ok(())
}
