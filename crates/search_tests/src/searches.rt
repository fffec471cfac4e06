ghost use Rattle.std.specs.Prelude.{◌≡◌, length};

use crate::making::{documents_of, live_of, query_of, segment_of};
use crate::reports::shown_report;
use crate::table::{assert_same, given};
use best_first::search;
use path_desk::{Desk, Need, SegReport};
use seg_live::Live;
use segment::Segment;
use sg_answers::MOST_QUEUED;
use sg_base::{Plain, Steps};
use sg_context::Query;
use sg_view::SegmentParts;
use std::alloc::Global;
use std::test::Fail;

/// The generation that searches of tests name.
const GENERATION: u32 = 7;

/// The report of a search on a desk of its own.
pub fn searched(
    alloc: Global,
    segment: &Segment,
    live: &Live,
    query: &Query,
) -> Result<SegReport, Fail>
    requires { length live.now ≡ length segment.now }
{
    if live.count() == 0 {
        return Err("no live document".into());
    }
    let mut desk = Desk::new(alloc);
    desk.reserve(Need {
        room: MOST_QUEUED,
        bytes: 324,
        k: query.k,
    })?;
    let parts = SegmentParts::of(segment);
    let mut steps = Steps::new(Plain);
    let report = search(&parts, live, query, GENERATION, 0, &mut desk, &mut steps)?;
    Ok(report)
}

// What a search answers over a segment of which some documents are deleted.
fn shown_search(
    alloc: Global,
    query: &Query,
    segment: &Segment,
    dead: &str,
) -> Result<String, Fail> {
    let live = live_of(alloc, segment.table().len(), dead)?;
    let report = searched(alloc, segment, &live, query)?;
    let documents = documents_of(alloc, segment)?;
    shown_report(alloc, documents.as_slice(), &report)
}

fn answered(alloc: Global, query: &str, documents: &str, dead: &str) -> Result<String, Fail> {
    let query = query_of(alloc, query)?;
    let segment = segment_of(alloc, documents)?;
    shown_search(alloc, &query, &segment, dead)
}

// A row each: its name, a query with its prefix, its number of rows and its contexts, documents
// with the numbers 1, 2 .., the places of the deleted ones, and the rows: score, key, number and
// place, and where the report is truncated the point's score and key, the generation and the queue
// size.
const ROWS: &str = "\
one start, equal keys|oy 1|oy:1;oy:1;oy:1;oy:1;oy:1;oy:1;oy:1;oy:1;oy:1;oy:1;oy:1;oy:1\
    |0 1 2 3 4 5 6 7 8 9 10|1 oy 12/0
two starts, a tie, both queued|ab 1|abz:5@a zzz:1@a;abc:5@b||5 abc 2/0
two starts, a tie, one dropped|ab 1|abz:5@a;abc:5@b||cut at 5 ab of 7, 1 queued
a tie that is asked for|ab 1 a=1 b=1|abz:5@a zzz:1@a;abc:5@b||5 abc 2/0
a queue that is too short|ort 1|ort:1;ort:2;ort:3;ort:4;ort:5;ort:6\
    |3 4 5|cut at 4 ort of 7, 2 queued
the same, where it suffices|ort 1|ort:1;ort:2;ort:3;ort:4;ort:5;ort:6|5|5 ort 5/0
nothing that precedes was dropped|ab 2|abbey:9@a;abbot:7@a;aberdeen:8@b;abc:7@b\
    |2|9 abbey 1/0, 7 abbot 2/0
the queue went on deleted ones|ab 1|abbey:9@a;abbot:7@a;aberdeen:8@b;abc:7@b\
    |0 2|cut at 7 abbo of 7, 2 queued
a row that precedes the point|ab 2|ab:9;ab:3;ab:5;ab:4;ab:6;ab:1\
    |2 4|9 ab 1/0, cut at 4 ab of 7, 3 queued
no start|b 3|ab:9;ac:3||
no context that matches|ab 3 x=2|ab:9;ab:3@y||
the greatest boost|a 2 x=2 y=3 *=1|ab:5@x;ac:4@y;ad:11@z||12 ac 2/0, 11 ad 3/0
one row for each document|a 3|ab:9 ac:8 ad:7;ae:1||9 ab 1/0, 1 ae 2/0
the lesser weight is live|a 1|ab:9 ac:8;ad:7|0|7 ad 2/0
every key|. 2|b:1;a:1;c:2||2 c 3/0, 1 a 2/0
keys that are fronts of others|a 3|abc:1;ab:1;a:1||1 a 3/0, 1 ab 2/0, 1 abc 1/0
a weight of 0|a 2|ab:0;aa:0||0 aa 2/0, 0 ab 1/0
the greatest score|pa 1 x=2147483647|pau:2147483647@x||4611686014132420609 pau 1/0
";

// The query, the documents and the places of the deleted ones.
fn search_parts(given: &str) -> Option<(&str, &str, &str)> {
    let (query, rest) = given.split_once('|')?;
    let (documents, dead) = rest.split_once('|')?;
    Some((query, documents, dead))
}

fn push_row(told: &mut String, row: &str) -> Result<(), Fail> {
    let Some((front, given)) = given(row) else {
        return Err("no rows".into());
    };
    let Some((query, documents, dead)) = search_parts(given) else {
        return Err("no documents".into());
    };
    let answer = answered(*told.allocator(), query, documents, dead)?;
    write!(told, "{front}|{answer}\n")?;
    Ok(())
}

fn rows_again(alloc: Global) -> Result<String, Fail> {
    let mut told = String::new(alloc);
    for row in ROWS.lines() {
        push_row(&mut told, row)?;
    }
    Ok(told)
}

#[test]
fn searches_find_the_first_rows_or_say_where_they_stop(rt: HostRuntime) -> Result<(), Fail> {
    let told = rows_again(rt.alloc())?;
    assert_same(&rt, told.as_str(), ROWS);
    Ok(())
}

// So many documents with one key and the weights 1, 2 ..
fn weights(alloc: Global, count: u32) -> Result<String, Fail> {
    let mut documents = String::from_str(alloc, "ort:1")?;
    for weight in 2..=count {
        write!(documents, ";ort:{weight}")?;
    }
    Ok(documents)
}

// The places from one on.
fn places_from(alloc: Global, first: u32, count: u32) -> Result<String, Fail> {
    let mut places = String::new(alloc);
    for place in first..count {
        write!(places, "{place} ")?;
    }
    Ok(places)
}

// The first 500 of so many documents are live.
fn answered_by_the_first(alloc: Global, query: &str, count: u32) -> Result<String, Fail> {
    let documents = weights(alloc, count)?;
    let dead = places_from(alloc, 500, count)?;
    answered(alloc, query, documents.as_str(), dead.as_str())
}

#[test]
fn the_longest_queue_is_spent_on_deleted_documents(rt: HostRuntime) -> Result<(), Fail> {
    let told = answered_by_the_first(rt.alloc(), "ort 500", 6_000)?;
    assert_same(&rt, told.as_str(), "cut at 1000 ort of 7, 5000 queued");
    Ok(())
}
