use crate::making::{batches_of, document_of};
use delete_queue::dead_in;
use seg_table::SegTable;
use sg_paths::{MOST_SEGMENT_PATHS, Numbered, paths_at_most, paths_of};
use std::alloc::Global;
use std::test::Fail;

// A row each: its name, the documents of a table as id@number, batches with the number of the first
// operation (+ adds, = updates, - deletes), the range, and the places of the documents reached.
const ROWS: &str = "\
a delete reaches a document that was added before: a@1 b@2 | 1 +a +b -a | 2 3 => 0
a delete before an add: a@3 | 1 -a +b +a | 0 3 =>
an update leaves its own document: a@1 a@2 | 1 +a =a | 0 2 => 0
two documents with one id: a@1 b@2 a@3 | 1 +a +b +a -a | 3 4 => 0 2
an add between two deletes: a@1 a@3 | 1 +a -a +a -a | 0 4 => 0 1
the later of two deletes is behind the range: a@1 a@3 | 1 +a -a +a -a | 0 3 => 0
the delete with the number applied is known: a@1 | 1 +a -a +b | 2 3 =>
the delete with the number upto counts: a@1 | 1 +a -a | 1 2 => 0
the one behind it doesn't: a@1 | 1 +a +b -a | 1 2 =>
a batch that begins before the range and ends behind it: a@1 b@2 c@3 | 1 +a +b +c -a -b -c | 4 5 => 1
batches in turn: a@1 b@2 | 1 +a +b / 3 -c -b / 5 -a +a | 2 5 => 0 1
batches outside the range: a@1 b@3 | 1 +a -a / 3 +b / 4 -b / 5 -a | 2 4 => 1
an add deletes nothing: a@1 | 1 +a +a | 1 2 =>
an empty range: a@1 | 1 +a -a | 2 2 =>
places rise, whatever the order of ids: z@1 y@2 x@3 | 1 +z +y +x -x -z | 3 5 => 0 2";

fn table_of(alloc: Global, spelled: &str) -> Result<SegTable, Fail> {
    let mut documents = Vec::new(alloc);
    for word in spelled.split_whitespace() {
        let (id, seq) = word.split_once('@').ok_or("no number")?;
        let seq = seq.parse::<u64>()?;
        let document = document_of(alloc, id)?;
        documents.push(Numbered { seq, document })?;
    }
    if documents.len() > 100 || paths_at_most(documents.as_slice()) > MOST_SEGMENT_PATHS {
        return Err("too many".into());
    }
    let paths = paths_of(alloc, documents.as_slice())?;
    Ok(SegTable::of(documents, paths.as_slice())?)
}

// The range, and the places of the documents that are reached in it.
fn told(alloc: Global, table: &str, batches: &str, range: &str) -> Result<String, Fail> {
    let (applied, upto) = range.split_once(' ').ok_or("no range")?;
    let (applied, upto) = (applied.parse::<u64>()?, upto.parse::<u64>()?);
    let table = table_of(alloc, table)?;
    let batches = batches_of(alloc, batches)?;
    let dead = dead_in(alloc, &table, applied, upto, batches.as_slice())?;
    let mut told = format!(in alloc; "{range} =>")?;
    for place in dead.as_slice() {
        told.push_str(format!(in alloc; " {place}")?.as_str())?;
    }
    Ok(told)
}

#[test]
fn the_deletes_in_a_range_reach_documents_added_before(rt: HostRuntime) -> Result<(), Fail> {
    for row in ROWS.lines() {
        let (name, rest) = row.split_once(": ").ok_or("no name")?;
        let (table, rest) = rest.split_once(" | ").ok_or("no batches")?;
        let (batches, wanted) = rest.split_once(" | ").ok_or("no range")?;
        let (range, _) = wanted.split_once(" =>").ok_or("no places")?;
        let told = told(rt.alloc(), table, batches, range)?;
        assert_eq!(rt; told.as_str(), wanted, "{name}");
    }
    Ok(())
}
