//! An index through its handles: threads beside one another, a merge beside changes, and a queue
//! that deleted documents spend.
ghost use Rattle.std.specs.Prelude.{◌<◌, All, length};
ghost use Rattle.std.specs.Thread.{IsSync};
ghost use Rattle.index_shared.specs.Sections.{IsAt};
ghost use Rattle.sg_view.specs.Rows.{HasHit};
ghost use Rattle.shared_speed.specs.Sharing.{AreAt, KeepsMerges};

use crate::documents::{document_of, query_of};
use crate::querying::ask;
use collector::Report;
use index_core::Freed;
use index_shared::{Handle, Index};
use path_desk::{Desk, SegReport};
use sg_base::{Cut, Hit, Plain, Steps, Text};
use sg_context::Query;
use sg_paths::Op;
use sg_view::{Ticket, View};
use std::alloc::Global;
use std::sync::Wait;
use std::test::Fail;
use std::thread::{Threads, join_mut};

// What two threads were answered, and how many operations a view saw afterwards.
#[derive(Drop)]
struct Deletes {
    left: Vec<u64>,
    right: Vec<u64>,
    upto: u64,
}

fn delete(
    wait: &impl Wait,
    alloc: Global,
    index: &Index,
    handle: &mut Handle,
    id: &str,
) -> Option<u64>
    requires at { IsAt index.now handle.old }
    ensures at { IsAt index.now handle.new }
    ensures keeps { KeepsMerges handle.old handle.new }
{
    let op = Op::Delete(Text::of(alloc, id).ok()?);
    index.accept(wait, handle, op).ok()
}

// 1,000 deletes, and the numbers that they get.
fn delete_often(
    wait: &impl Wait,
    alloc: Global,
    index: &Index,
    handle: &mut Handle,
) -> Option<Vec<u64>>
    requires at { IsAt index.now handle.old }
    ensures at { IsAt index.now handle.new }
{
    let mut numbers = Vec::new(alloc);
    for _round in 0..1_000 {
        let number = delete(wait, alloc, index, handle, "a")?;
        numbers.push(number).ok()?;
    }
    Some(numbers)
}

// How many operations a view sees.
fn upto_of(wait: &impl Wait, alloc: Global, index: &Index, handle: &mut Handle) -> Option<u64>
    requires at { IsAt index.now handle.old }
{
    let query = query_of(alloc, "", 1)?;
    let mut desk = Desk::new(alloc);
    let found = ask(wait, index, handle, &query, &mut desk)?;
    Some(found.upto)
}

// Two delete, each in a thread of its own, and main's handle meets both.
fn both_delete<R: Threads + Wait + Sync>(
    rt: &R,
    alloc: Global,
    index: &Index,
    main: &mut Handle,
    left: &mut Handle,
    right: &mut Handle,
) -> Option<Deletes>
    requires at { IsAt index.now main.old × IsAt index.now left.old × IsAt index.now right.old }
{
    let (one, other) = join_mut(
        rt,
        &mut || -> Option<Vec<u64>>
            requires { IsSync R.row × IsAt index.now left.now }
            ensures { IsAt index.entry.now left.exit.now }
        { delete_often(rt, alloc, index, left) },
        &mut || -> Option<Vec<u64>>
            requires { IsSync R.row × IsAt index.now right.now }
            ensures { IsAt index.entry.now right.exit.now }
        { delete_often(rt, alloc, index, right) },
    );
    index.meet(left, main);
    index.meet(right, main);
    Some(Deletes {
        left: one?,
        right: other?,
        upto: upto_of(rt, alloc, index, main)?,
    })
}

fn last_two_delete<R: Threads + Wait + Sync>(
    rt: &R,
    alloc: Global,
    index: &Index,
    handles: &mut [Handle],
) -> Option<Deletes>
    requires three { 2 < length handles.old }
    requires at { AreAt index.now handles.old }
{
    let (main, others) = handles.split_at_mut(1);
    let (left, right) = others.split_at_mut(1);
    both_delete(rt, alloc, index, &mut main[0], &mut left[0], &mut right[0])
}

#[test]
fn each_number_is_given_once(rt: HostRuntime) -> Result<(), Fail> {
    let alloc = rt.alloc();
    let (index, mut handles) = Index::new(alloc, 3)?;
    let deletes = last_two_delete(&rt, alloc, &index, handles.as_mut_slice());
    let Deletes { left, right, upto } = deletes.ok_or("no memory")?;
    assert!(rt; left.as_slice().is_sorted() && right.as_slice().is_sorted());
    assert_eq!(rt; (left.len(), right.len(), upto), (1_000, 1_000, 2_000));
    let mut all = left;
    all.extend_from_slice(right.as_slice())?;
    all.as_mut_slice().sort_unstable();
    for (at, number) in all.iter().enumerate() {
        assert_eq!(rt; *number, at as u64 + 1);
    }
    Ok(())
}

// `-x` deletes, and `x=Xanten:1` adds a document with one suggestion and its weight.
fn op_of(alloc: Global, spelled: &str) -> Result<Op, Fail> {
    if let Some(id) = spelled.strip_prefix('-') {
        return Ok(Op::Delete(Text::of(alloc, id)?));
    }
    let (id, suggestion) = spelled.split_once('=').ok_or("no id")?;
    let (text, weight) = suggestion.split_once(':').ok_or("no weight")?;
    let weight = weight.parse::<u32>()?;
    Ok(Op::Add(document_of(alloc, id, text, weight).ok_or("no document")?))
}

// Accepts an operation.
fn accept(
    wait: &impl Wait,
    alloc: Global,
    index: &Index,
    handle: &mut Handle,
    spelled: &str,
) -> Result<u64, Fail>
    requires at { IsAt index.now handle.old }
    ensures at { IsAt index.now handle.new }
    ensures keeps { KeepsMerges handle.old handle.new }
{
    let op = op_of(alloc, spelled)?;
    let number = index.accept(wait, handle, op)?;
    Ok(number)
}

// Accepts operations with blanks between them, and answers the number of the last.
fn accept_all(
    wait: &impl Wait,
    alloc: Global,
    index: &Index,
    handle: &mut Handle,
    spelled: &str,
) -> Result<u64, Fail>
    requires at { IsAt index.now handle.old }
    ensures at { IsAt index.now handle.new }
    ensures keeps { KeepsMerges handle.old handle.new }
{
    let mut last = 0;
    for word in spelled.split_whitespace() {
        last = accept(wait, alloc, index, handle, word)?;
    }
    Ok(last)
}

// What a merge was of, and what it released.
#[derive(Drop)]
struct Merged {
    sources: u32,
    upto: u64,
    freed: Freed,
}

// Begins a merge, accepts operations, works the merge and commits it.
fn merge_beside_changes(
    wait: &impl Wait,
    alloc: Global,
    index: &Index,
    handle: &mut Handle,
    changes: &str,
) -> Result<Merged, Fail>
    requires at { IsAt index.now handle.old }
    ensures at { IsAt index.now handle.new }
{
    let Some(job) = index.begin_merge(wait, handle)? else {
        return Err("no merge is planned".into());
    };
    let sources = job.sources();
    let upto = job.upto();
    let changed = accept_all(wait, alloc, index, handle, changes);
    match job.work() {
        Ok(done) => {
            let freed = index.commit_merge(wait, handle, done);
            changed?;
            Ok(Merged {
                sources,
                upto,
                freed,
            })
        }
        Err(job) => {
            index.drop_merge(wait, handle, job);
            changed?;
            Err("no memory".into())
        }
    }
}

fn push_rows(told: &mut String, view: &View, hits: &[Hit]) -> Result<(), Fail>
    requires { All (HasHit view.now.segments) hits.now }
{
    for hit in hits {
        let row = view.row(hit);
        write!(told, " {} {} {}", row.seq, row.id, row.text)?;
    }
    Ok(())
}

fn push_cut(told: &mut String, cut: &Cut) -> Result<(), Fail> {
    let key = str::from_utf8(cut.key.as_slice())?;
    let (score, generation, room) = (cut.score, cut.generation, cut.room);
    write!(told, " cut at {score} {key} of {generation}, {room} queued")?;
    Ok(())
}

// The rows of a query, and where they are cut off.
fn report_of(alloc: Global, view: &View, query: &Query) -> Result<String, Fail> {
    let mut desk = Desk::new(alloc);
    view.reserve(query, &mut desk)?;
    let mut steps = Steps::new(Plain);
    let Report { hits, cut } = view.suggest(query, &mut desk, &mut steps)?;
    let mut told = String::new(alloc);
    push_rows(&mut told, view, hits.items())?;
    if let Some(cut) = &cut {
        push_cut(&mut told, cut)?;
    }
    desk.take_back(SegReport { hits, cut });
    Ok(told)
}

fn told_view(
    alloc: Global,
    upto: u64,
    generations: &[u32],
    report: Result<String, Fail>,
) -> Result<String, Fail> {
    let report = report?;
    let mut told = String::new(alloc);
    write!(told, "{upto} {generations:?}{report}")?;
    Ok(told)
}

// What a view of all operations is: its upto, its generations, and the report of a query.
fn seen(
    wait: &impl Wait,
    alloc: Global,
    index: &Index,
    handle: &mut Handle,
    query: &Query,
) -> Result<String, Fail>
    requires at { IsAt index.now handle.old }
{
    match index.begin_view(wait, handle)?.build() {
        Ok(view) => {
            let report = report_of(alloc, &view, query);
            let parts = view.parts();
            let told = told_view(alloc, parts.upto, parts.gens.items(), report);
            index.end_ticket(wait, handle, Ticket::of(alloc, parts));
            told
        }
        Err(ticket) => {
            index.end_ticket(wait, handle, ticket);
            Err("no memory".into())
        }
    }
}

// The merge has documents that were deleted after it began.
#[test]
fn a_merge_brings_what_was_live_as_it_began(rt: HostRuntime) -> Result<(), Fail> {
    let alloc = rt.alloc();
    let (index, mut handles) = Index::new(alloc, 1)?;
    let mut handle = handles.pop().ok_or("no handle")?;
    let before = "y=York:1 z=Zell:1 x=Xanten:1 -y -z";
    assert_eq!(rt; accept_all(&rt, alloc, &index, &mut handle, before)?, 5);
    assert_eq!(rt; index.offer(&rt, &mut handle)?, 1);
    let changes = "-x x=Xanten:1";
    let merged = merge_beside_changes(&rt, alloc, &index, &mut handle, changes)?;
    assert_eq!(rt; (merged.sources, merged.upto), (1, 5));
    assert_eq!(rt; merged.freed.gens.items(), [1].as_slice());
    let query = query_of(alloc, "", 10).ok_or("no query")?;
    let told = seen(&rt, alloc, &index, &mut handle, &query)?;
    assert_eq!(rt; told.as_str(), "7 [2, 3] 7 x Xanten");
    Ok(())
}

// Adds documents with the weights 1, 2 ..
fn add_weights(
    wait: &impl Wait,
    alloc: Global,
    index: &Index,
    handle: &mut Handle,
    most: u32,
) -> Result<(), Fail>
    requires at { IsAt index.now handle.old }
    ensures at { IsAt index.now handle.new }
{
    for weight in 1..=most {
        let spelled = format!(in alloc; "o{weight}=Ort:{weight}")?;
        accept(wait, alloc, index, handle, spelled.as_str())?;
    }
    Ok(())
}

// Deletes those from one on.
fn delete_weights(
    wait: &impl Wait,
    alloc: Global,
    index: &Index,
    handle: &mut Handle,
    first: u32,
    most: u32,
) -> Result<(), Fail>
    requires at { IsAt index.now handle.old }
    ensures at { IsAt index.now handle.new }
{
    for weight in first..=most {
        let spelled = format!(in alloc; "-o{weight}")?;
        accept(wait, alloc, index, handle, spelled.as_str())?;
    }
    Ok(())
}

#[test]
fn deleted_documents_spend_the_longest_queue(rt: HostRuntime) -> Result<(), Fail> {
    let alloc = rt.alloc();
    let (index, mut handles) = Index::new(alloc, 1)?;
    let mut handle = handles.pop().ok_or("no handle")?;
    add_weights(&rt, alloc, &index, &mut handle, 6_000)?;
    delete_weights(&rt, alloc, &index, &mut handle, 501, 6_000)?;
    let query = query_of(alloc, "ort", 500).ok_or("no query")?;
    let told = seen(&rt, alloc, &index, &mut handle, &query)?;
    assert_eq!(rt;
        told.as_str(),
        "11500 [1] cut at 1000 ort of 1, 5000 queued"
    );
    Ok(())
}
