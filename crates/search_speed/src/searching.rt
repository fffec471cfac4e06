//! Searches of a segment, and its start nodes.
ghost use Rattle.std.specs.Prelude.{◌≡◌, ◌<◌, length};
ghost use Rattle.seg_live.specs.LiveDocs.{live_count};

use crate::timing::report;
use best_first::search;
use fst_walk::{Starts, seek};
use path_desk::{Desk, Need, SegReport};
use seg_live::Live;
use segment::Segment;
use sg_answers::MOST_QUEUED;
use sg_base::{CONTEXT_END, Plain, Steps};
use sg_context::Query;
use sg_view::SegmentParts;
use std::alloc::{AllocError, Global};
use std::io;
use std::time::Instant;

/// The most bytes of a path.
const MOST_PATH_BYTES: u32 = 324;

fn ask(
    parts: &SegmentParts<'_>,
    live: &Live,
    query: &Query,
    desk: &mut Desk,
    steps: &mut Steps<Plain>,
) -> Result<SegReport, AllocError>
    requires marks { length live.now ≡ length parts.now.documents }
    requires live { 0 < live_count live.now }
{
    desk.reserve(Need {
        room: MOST_QUEUED,
        bytes: MOST_PATH_BYTES,
        k: query.k,
    })?;
    search(parts, live, query, 1, 0, desk, steps)
}

fn print_report(rt: &HostRuntime, report: &SegReport) -> io::Result<()> {
    let mut line = String::new(rt.alloc());
    line.push_str(match report.cut {
        None => "complete",
        Some(_) => "truncated",
    })?;
    for hit in report.hits.items() {
        line.push_str(format!(in rt.alloc(); " {}:{}", hit.doc, hit.score)?.as_str())?;
    }
    println!(rt; "{line}")
}

/// Answers each query.
pub fn print_answers(
    rt: &HostRuntime,
    parts: &SegmentParts<'_>,
    live: &Live,
    queries: &[Query],
    desk: &mut Desk,
) -> io::Result<()>
    requires marks { length live.now ≡ length parts.now.documents }
    requires live { 0 < live_count live.now }
{
    let mut steps = Steps::new(Plain);
    for query in queries {
        let report = ask(parts, live, query, desk, &mut steps)?;
        print_report(rt, &report)?;
        desk.take_back(report);
    }
    Ok(())
}

/// Answers each query, and tells no answer.
pub fn time_searches(
    rt: &HostRuntime,
    title: &str,
    parts: &SegmentParts<'_>,
    live: &Live,
    queries: &[Query],
    desk: &mut Desk,
) -> io::Result<()>
    requires marks { length live.now ≡ length parts.now.documents }
    requires live { 0 < live_count live.now }
{
    let mut steps = Steps::new(Plain);
    let start = Instant::now(rt)?;
    for query in queries {
        let report = ask(parts, live, query, desk, &mut steps)?;
        desk.take_back(report);
    }
    report(rt, title, queries.len(), start)
}

fn count_starts(segment: &Segment, query: &Query, steps: &mut Steps<Plain>) -> u32 {
    let mut starts = Starts::new(segment.transducer(), query);
    for count in 0..u32::MAX {
        if starts.next(steps).is_none() {
            return count;
        }
    }
    u32::MAX
}

/// Finds all start nodes of each query.
pub fn time_starts(
    rt: &HostRuntime,
    title: &str,
    segment: &Segment,
    queries: &[Query],
) -> io::Result<()> {
    let mut steps = Steps::new(Plain);
    let start = Instant::now(rt)?;
    for query in queries {
        count_starts(segment, query, &mut steps);
    }
    report(rt, title, queries.len(), start)
}

// The bytes that begin the paths of a query's first context and prefix.
fn front_of(alloc: Global, query: &Query) -> Result<Vec<u8>, AllocError> {
    let mut front = Vec::new(alloc);
    if let Some(asked) = query.contexts.items().first() {
        front.extend_from_slice(asked.context.as_str().as_bytes())?;
    }
    front.push(CONTEXT_END)?;
    front.extend_from_slice(query.prefix.as_slice())?;
    Ok(front)
}

fn fronts_of(alloc: Global, queries: &[Query]) -> Result<Vec<Vec<u8>>, AllocError> {
    let mut fronts = Vec::new(alloc);
    for query in queries {
        fronts.push(front_of(alloc, query)?)?;
    }
    Ok(fronts)
}

/// Seeks the first context of each query with its prefix, without its start nodes.
pub fn time_seeks(
    rt: &HostRuntime,
    title: &str,
    segment: &Segment,
    queries: &[Query],
) -> io::Result<()> {
    let fronts = fronts_of(rt.alloc(), queries)?;
    let mut steps = Steps::new(Plain);
    let mut found: usize = 0;
    let start = Instant::now(rt)?;
    for front in &fronts {
        if seek(segment.transducer(), front.as_slice(), &mut steps).is_some() {
            found = found.saturating_add(1);
        }
    }
    report(rt, title, found, start)
}
