ghost use Rattle.std.specs.Prelude.{◌≡◌, ◌≤◌, IfOk, length};
ghost use Rattle.sg_paths.specs.declared.limits.TheConstants.{MOST_SEGMENT_DOCUMENTS};
ghost use Rattle.sg_paths.specs.declared.limits.TheConstants.{MOST_SEGMENT_PATHS};
ghost use Rattle.sg_paths.specs.AllPaths.{all_paths, path_entries};

use crate::making::documents_of;
use crate::table::{assert_same, given};
use seg_table::{Owner, SegTable};
use sg_base::{Plain, Steps};
use sg_paths::{MOST_SEGMENT_PATHS, Numbered, Path, paths_at_most, paths_of};
use std::alloc::{AllocError, Global};
use std::test::Fail;

// A row each: its name, documents, their paths as context/key#number=weight, with the document and
// the place of their owner, the most paths of a document, and the documents with an id.
const ROWS: &str = "\
two documents|d1 abz:5@a zzz:1@a; d2 abc:5@b|d2|a/abz#0=5(0.0) a/zzz#0=1(0.1) b/abc#0=5(1.0) / 2 / 1
one id, key and weight|d k:5@a; e k:5@a; d k:9@a; d k:5@a|d\
    |a/k#0=9(2.0) a/k#1=5(0.0) a/k#2=5(1.0) a/k#3=5(3.0) / 1 / 0 2 3
the empty context beside others|d k:5@,a; e k:7; f k:1@a|e\
    |/k#0=7(1.0) /k#1=5(0.0) a/k#0=5(0.0) a/k#1=1(2.0) / 2 / 1
a context that is a front of others|d k:1@ab,a,a\u{1}|d\
    |a\u{1}/k#0=1(0.0) a/k#0=1(0.0) ab/k#0=1(0.0) / 3 / 0
a key that is a front of others|d abc:1@a ab:2@a a:3@a|d\
    |a/a#0=3(0.2) a/ab#0=2(0.1) a/abc#0=1(0.0) / 3 / 0
a context and a key given again|d k:5@a,a k:7@a k:7@a,b; e k:6@a|e\
    |a/k#0=7(0.1) a/k#1=6(1.0) b/k#0=7(0.2) / 2 / 1
ids that are fronts of others|ab k:1; a k:1; abc k:1; ab k:1; b k:1|ab\
    |/k#0=1(0.0) /k#1=1(1.0) /k#2=1(2.0) /k#3=1(3.0) /k#4=1(4.0) / 1 / 0 3
an id of no document|b k:1; d k:1|c|/k#0=1(0.0) /k#1=1(1.0) / 1 /
";

fn push_path(told: &mut String, path: &Path, owner: Owner) -> Result<(), Fail> {
    let key = str::from_utf8(path.key.as_slice())?;
    let (context, number, weight) = (path.context.as_str(), path.n, path.weight);
    write!(
        told,
        "{context}/{key}#{number}={weight}({}.{}) ",
        owner.doc, owner.place
    )?;
    Ok(())
}

fn push_run(told: &mut String, table: &SegTable, id: &str) -> Result<(), AllocError> {
    write!(told, "/ {} /", table.most_paths())?;
    for doc in table.with_id(id) {
        write!(told, " {doc}")?;
    }
    told.push_str("\n")
}

fn push_paths(told: &mut String, table: &SegTable, paths: &[Path]) -> Result<(), Fail>
    requires many { length paths.now ≤ MOST_SEGMENT_PATHS }
    requires paths { paths.now ≡ all_paths table.now }
{
    let mut steps = Steps::new(Plain);
    for (ordinal, path) in paths.iter().enumerate() {
        let owner = table.owner(ordinal as u32, &mut steps);
        push_path(told, path, owner)?;
    }
    Ok(())
}

fn hundred_documents_of(alloc: Global, spelled: &str) -> Result<Vec<Numbered>, Fail>
    ensures few { IfOk result (λ docs. length docs.items ≤ MOST_SEGMENT_DOCUMENTS) }
    ensures many { IfOk result (λ docs. length (path_entries 0 docs.items) ≤ MOST_SEGMENT_PATHS) }
{
    let documents = documents_of(alloc, spelled)?;
    if documents.len() > 100 || paths_at_most(documents.as_slice()) > MOST_SEGMENT_PATHS {
        return Err("too many".into());
    }
    Ok(documents)
}

// The paths with their owners, the most of a document, and the documents with an id.
fn push_answer(told: &mut String, spelled: &str, id: &str) -> Result<(), Fail> {
    let documents = hundred_documents_of(*told.allocator(), spelled)?;
    let paths = paths_of(*told.allocator(), documents.as_slice())?;
    let table = SegTable::of(documents, paths.as_slice())?;
    push_paths(told, &table, paths.as_slice())?;
    push_run(told, &table, id)?;
    Ok(())
}

fn push_row(told: &mut String, row: &str) -> Result<(), Fail> {
    let Some((front, given)) = given(row) else {
        return Err("no paths".into());
    };
    let Some((documents, id)) = given.split_once('|') else {
        return Err("no id".into());
    };
    write!(told, "{front}|")?;
    push_answer(told, documents, id)
}

fn rows_again(alloc: Global) -> Result<String, Fail> {
    let mut told = String::new(alloc);
    for row in ROWS.lines() {
        push_row(&mut told, row)?;
    }
    Ok(told)
}

#[test]
fn paths_owners_and_ids_are_those_of_the_documents(rt: HostRuntime) -> Result<(), Fail> {
    let told = rows_again(rt.alloc())?;
    assert_same(&rt, told.as_str(), ROWS);
    Ok(())
}

fn table_of(alloc: Global, spelled: &str) -> Result<SegTable, Fail> {
    let documents = hundred_documents_of(alloc, spelled)?;
    let paths = paths_of(alloc, documents.as_slice())?;
    Ok(SegTable::of(documents, paths.as_slice())?)
}

// The id, and the text and the key of a suggestion.
fn push_suggestion(told: &mut String, table: &SegTable, doc: u32, place: u8) -> Result<(), Fail> {
    if doc >= table.len() {
        return Err("no document".into());
    }
    let copy = table.document(doc)?;
    if place as usize >= copy.document.suggestions.items().len() {
        return Err("no suggestion".into());
    }
    let key = str::from_utf8(table.key(doc, place))?;
    let id = table.id(doc);
    write!(told, "{id}: {} {key}\n", table.text(doc, place))?;
    Ok(())
}

fn push_lent(told: &mut String, spelled: &str) -> Result<(), Fail> {
    let table = table_of(*told.allocator(), spelled)?;
    push_suggestion(told, &table, 0, 0)?;
    push_suggestion(told, &table, 1, 2)?;
    write!(told, "{} bytes", table.bytes().len())?;
    Ok(())
}

#[test]
fn a_table_lends_ids_texts_and_keys(rt: HostRuntime) -> Result<(), Fail> {
    let mut told = String::new(rt.alloc());
    push_lent(&mut told, "d k:5@a,b; e abz:5@x,y zzz:1 abc:2@")?;
    assert_same(&rt, told.as_str(), "d: k k\ne: abc abc\n83 bytes");
    Ok(())
}
