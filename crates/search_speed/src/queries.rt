//! Groups of queries.
ghost use Rattle.std.specs.Prelude.{◌≡◌, IfOk, length};

use crate::building::{time_bytes, time_sort};
use crate::reading::{context_of, key_of, next_line};
use crate::searching::{print_answers, time_searches, time_seeks, time_starts};
use crate::timing::invalid;
use path_desk::Desk;
use seg_live::Live;
use segment::Segment;
use sg_context::{Query, QueryContext};
use sg_view::SegmentParts;
use std::alloc::Global;
use std::io;
use std::io::BufRead;

/// A context with `*` and its boost.
fn query_context_of(alloc: Global, word: &str) -> io::Result<QueryContext> {
    let Some((context, boost)) = word.split_once('*') else {
        return Err(invalid());
    };
    let Ok(boost) = boost.parse::<u32>() else {
        return Err(invalid());
    };
    match QueryContext::new(context_of(alloc, context)?, boost, false) {
        Ok(context) => Ok(context),
        Err(_) => Err(invalid()),
    }
}

/// A prefix, k, and contexts with commas between them; tabs between the three.
fn query_of(alloc: Global, line: &str) -> io::Result<Query> {
    let Some((prefix, rest)) = line.split_once('\t') else {
        return Err(invalid());
    };
    let Some((k, listed)) = rest.split_once('\t') else {
        return Err(invalid());
    };
    let Ok(k) = k.parse::<u32>() else {
        return Err(invalid());
    };
    let mut contexts = Vec::new(alloc);
    for word in listed.split(',') {
        if !word.is_empty() {
            contexts.push(query_context_of(alloc, word)?)?;
        }
    }
    match Query::new(key_of(alloc, prefix)?, contexts, k) {
        Ok(query) => Ok(query),
        Err(_) => Err(invalid()),
    }
}

/// What a group of queries is measured for.
#[derive(Drop)]
struct Group {
    title: String,
    queries: Vec<Query>,
}

fn all_live(alloc: Global, count: u32) -> io::Result<Live>
    ensures { IfOk result (λ live. length live ≡ count) }
{
    let live = Live::all(alloc, count);
    Ok(live)
}

fn search_group(
    rt: &HostRuntime,
    segment: &Segment,
    group: &Group,
    desk: &mut Desk,
) -> io::Result<()> {
    let live = all_live(rt.alloc(), segment.table().len())?;
    if live.count() == 0 {
        return Ok(());
    }
    let parts = SegmentParts::of(segment);
    let queries = group.queries.as_slice();
    print_answers(rt, &parts, &live, queries, desk)?;
    time_searches(rt, group.title.as_str(), &parts, &live, queries, desk)
}

fn answer_group(
    rt: &HostRuntime,
    segment: &Segment,
    group: &Group,
    desk: &mut Desk,
) -> io::Result<()> {
    let title = group.title.as_str();
    if title == "bytes" {
        time_sort(rt, segment)?;
        return time_bytes(rt, segment);
    }
    if group.queries.is_empty() {
        return Ok(());
    }
    if title.starts_with("starts") {
        return time_starts(rt, title, segment, group.queries.as_slice());
    }
    if title == "seek" {
        return time_seeks(rt, title, segment, group.queries.as_slice());
    }
    search_group(rt, segment, group, desk)
}

/// Reads and answers all groups: a line with `# ` and a title, then a line for each query. The
/// group `bytes` has no query: paths are sorted, and the segment is written and checked.
pub fn answer_groups<R: BufRead>(
    rt: &HostRuntime,
    segment: &Segment,
    source: &mut R,
) -> io::Result<()> {
    let alloc = rt.alloc();
    let mut desk = Desk::new(alloc);
    let mut group = Group {
        title: String::new(alloc),
        queries: Vec::new(alloc),
    };
    for _ in 0..u64::MAX {
        let Some(line) = next_line(alloc, source)? else {
            break;
        };
        match line.as_str().strip_prefix("# ") {
            Some(title) => {
                answer_group(rt, segment, &group, &mut desk)?;
                group.title = String::from_str(alloc, title)?;
                group.queries.clear();
            }
            None => group.queries.push(query_of(alloc, line.as_str())?)?,
        }
    }
    answer_group(rt, segment, &group, &mut desk)
}
