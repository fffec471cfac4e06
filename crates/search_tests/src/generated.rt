ghost use Rattle.std.specs.Prelude.{◌≡◌, ◌<◌, length};

use crate::making::{documents_of, live_of, query_of, segment_of};
use crate::reports::{shown_hits, shown_ranks};
use crate::searches::searched;
use crate::table::assert_same;
use path_desk::SegReport;
use seg_live::Live;
use segment::Segment;
use sg_answers::{NumberedRef, first_rows};
use sg_base::{Cut, Rank};
use sg_context::Query;
use sg_paths::Numbered;
use std::alloc::Global;
use std::process::Abort;
use std::test::Fail;

const KEYS: &str = "a|ab|abc|abd|ac|aba|b|ba";

const ONE_CONTEXT: &str = "|@p|@q|@p";

const CONTEXTS: &str = "@r|@p|@q|@p,q";

const PREFIXES: &str = ".|a|ab|b";

const ASKED: &str = "| p=1| p=2 q=1| *=3| q=2 p=1 r=2| r=1| =2 p=1|";

// A linear congruential generator.
#[derive(Drop)]
struct Numbers {
    state: u64,
}

impl Numbers {
    fn below(&mut self, count: u32) -> u32
        requires { 0 < count }
        ensures { result < count }
    {
        self.state = self
            .state
            .wrapping_mul(6_364_136_223_846_793_005)
            .wrapping_add(1_442_695_040_888_963_407);
        (self.state >> 33) as u32 % count
    }

    // One of so many parts, with `|` between them.
    fn part<'p>(&mut self, parts: &'p str, count: u32) -> Result<&'p str, Fail>
        requires { 0 < count }
    {
        let at = self.below(count) as usize;
        Ok(parts.split('|').nth(at).ok_or("no such part")?)
    }
}

// The texts of documents, of the places of the deleted ones, which have the greater weights, and of
// a query.
#[derive(Drop)]
struct Case {
    documents: String,
    dead: String,
    query: String,
}

fn push_suggestion(
    numbers: &mut Numbers,
    documents: &mut String,
    contexts: &str,
    is_dead: bool,
) -> Result<(), Fail> {
    let key = numbers.part(KEYS, 8)?;
    let contexts = numbers.part(contexts, 4)?;
    let weight = numbers.below(5);
    let weight = if is_dead { weight + 5 } else { weight };
    write!(documents, " {key}:{weight}{contexts}")?;
    Ok(())
}

// A document with at most so many suggestions. Where there is one, it has one context, so that
// queues are short.
fn push_document(
    numbers: &mut Numbers,
    documents: &mut String,
    most: u32,
    is_dead: bool,
) -> Result<(), Fail>
    requires { 0 < most }
{
    if !documents.is_empty() {
        documents.push_str(";")?;
    }
    let contexts = if most == 1 { ONE_CONTEXT } else { CONTEXTS };
    for _ in 0..1 + numbers.below(most) {
        push_suggestion(numbers, documents, contexts, is_dead)?;
    }
    Ok(())
}

fn push_query(numbers: &mut Numbers, query: &mut String) -> Result<(), Fail> {
    let prefix = numbers.part(PREFIXES, 4)?;
    let at_most = 1 + numbers.below(20);
    let k = 1 + numbers.below(at_most);
    let asked = numbers.part(ASKED, 8)?;
    write!(query, "{prefix} {k}{asked}")?;
    Ok(())
}

// The document at a place, with at most so many suggestions; of four, so many are deleted.
fn push_place(
    numbers: &mut Numbers,
    case: &mut Case,
    place: u32,
    most: u32,
    deleted: u32,
) -> Result<(), Fail>
    requires { 0 < most }
{
    let is_dead = numbers.below(4) < deleted;
    if is_dead {
        write!(case.dead, "{place} ")?;
    }
    push_document(numbers, &mut case.documents, most, is_dead)
}

fn push_documents(numbers: &mut Numbers, case: &mut Case) -> Result<(), Fail> {
    let deleted = numbers.below(4);
    let most = 1 + numbers.below(2);
    for place in 0..1 + numbers.below(20) {
        push_place(numbers, case, place, most, deleted)?;
    }
    Ok(())
}

fn case_of(alloc: Global, numbers: &mut Numbers) -> Result<Case, Fail> {
    let mut case = Case {
        documents: String::new(alloc),
        dead: String::new(alloc),
        query: String::new(alloc),
    };
    push_documents(numbers, &mut case)?;
    push_query(numbers, &mut case.query)?;
    Ok(case)
}

// Lends the document at a place.
fn push_lent<'d>(
    lent: &mut Vec<NumberedRef<'d>>,
    docs: &'d [Numbered],
    doc: u32,
) -> Result<(), Fail> {
    let Some(numbered) = docs.get(doc as usize) else {
        return Err("no document".into());
    };
    lent.push(NumberedRef {
        seq: numbered.seq,
        document: &numbered.document,
    })?;
    Ok(())
}

// The first rows of the live documents of a segment, by a look at each of them.
fn plain_rows(
    alloc: Global,
    query: &Query,
    segment: &Segment,
    docs: &[Numbered],
    live: &Live,
) -> Result<Vec<Rank>, Fail>
    requires { length live.now ≡ length segment.now }
{
    let mut documents = Vec::new(alloc);
    for doc in 0..segment.table().len() {
        if live.is_live(doc) {
            push_lent(&mut documents, docs, doc)?;
        }
    }
    Ok(first_rows(alloc, query, documents.as_slice())?)
}

fn precedes(row: &Rank, cut: &Cut) -> bool {
    row.score > cut.score || row.score == cut.score && row.key.as_slice() < cut.key.as_slice()
}

// What the documents give: all of it, or what precedes the truncation point.
fn plain_answer(
    alloc: Global,
    query: &Query,
    segment: &Segment,
    docs: &[Numbered],
    live: &Live,
    cut: &Option<Cut>,
) -> Result<String, Fail>
    requires { length live.now ≡ length segment.now }
{
    let mut rows = plain_rows(alloc, query, segment, docs, live)?;
    if let Some(cut) = cut {
        rows.retain(|row| precedes(row, cut));
    }
    shown_ranks(alloc, rows.as_slice())
}

// Whether a report is truncated; its rows are compared with what the documents give.
fn is_truncated(
    rt: &impl Abort,
    alloc: Global,
    query: &Query,
    segment: &Segment,
    live: &Live,
    report: &SegReport,
) -> Result<bool, Fail>
    requires { length live.now ≡ length segment.now }
{
    let docs = documents_of(alloc, segment)?;
    let told = shown_hits(alloc, docs.as_slice(), report.hits.items())?;
    let wanted = plain_answer(alloc, query, segment, docs.as_slice(), live, &report.cut)?;
    assert_same(rt, told.as_str(), wanted.as_str());
    Ok(report.cut.is_some())
}

// The same of a search, where a document is live.
fn is_search_truncated(
    rt: &impl Abort,
    alloc: Global,
    query: &Query,
    segment: &Segment,
    dead: &str,
) -> Result<bool, Fail> {
    let live = live_of(alloc, segment.table().len(), dead)?;
    if live.count() == 0 {
        return Ok(false);
    }
    let report = searched(alloc, segment, &live, query)?;
    is_truncated(rt, alloc, query, segment, &live, &report)
}

fn is_case_truncated(rt: &impl Abort, alloc: Global, case: &Case) -> Result<bool, Fail> {
    let query = query_of(alloc, case.query.as_str())?;
    let segment = segment_of(alloc, case.documents.as_str())?;
    is_search_truncated(rt, alloc, &query, &segment, case.dead.as_str())
}

fn is_next_truncated(rt: &impl Abort, alloc: Global, numbers: &mut Numbers) -> Result<bool, Fail> {
    let case = case_of(alloc, numbers)?;
    is_case_truncated(rt, alloc, &case)
}

// How many of so many cases are truncated.
fn count_truncated(rt: &impl Abort, alloc: Global, cases: u32) -> Result<u32, Fail> {
    let mut numbers = Numbers { state: 1 };
    let mut truncated: u32 = 0;
    for _ in 0..cases {
        if is_next_truncated(rt, alloc, &mut numbers)? {
            truncated = truncated.saturating_add(1);
        }
    }
    Ok(truncated)
}

#[test]
fn reports_are_what_documents_give(rt: HostRuntime) -> Result<(), Fail> {
    let truncated = count_truncated(&rt, rt.alloc(), 200)?;
    assert!(rt; truncated >= 10);
    Ok(())
}
