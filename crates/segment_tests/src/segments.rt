use crate::making::document_of;
use crate::table::{assert_same, given};
use fst_walk::{Start, Starts};
use seg_table::{Owner, SegTable};
use segment::Segment;
use sg_base::{Bytes, Key, List, Plain, Steps, Text};
use sg_context::Query;
use sg_paths::{Batch, Op};
use std::alloc::{AllocError, Global};
use std::test::Fail;

// A row each: its name, operations (`+` adds, `~` updates, `-` deletes), the prefix of a query; the
// numbers of the documents, the owners by ordinal, the most paths of a document, and the first
// three starts as number, ordinal, boost and cost.
const ROWS: &str = "\
two documents|+d1 abz:5@a zzz:1@a; +d2 abc:5@b|ab\
    |1 2 / 0.0 0.1 1.0 / 2 / 0:0*1=2147483642 1:2*1=2147483642 none
updates and deletes|~d1 abz:5@a zzz:1@a; -d1; ~d2 abc:5@b|ab\
    |1 3 / 0.0 0.1 1.0 / 2 / 0:0*1=2147483642 1:2*1=2147483642 none
one id, key and weight|+d k:5; ~d k:5; +d k:5|k|1 2 3 / 0.0 1.0 2.0 / 1 / 0:0*1=2147483642 none none
deletes alone|-d; -e|a|/ / 0 / none none none
";

fn op_of(alloc: Global, spelled: &str) -> Result<Op, Fail> {
    let Some((kind, rest)) = spelled.split_at_checked(1) else {
        return Err("no operation".into());
    };
    if kind == "-" {
        return Ok(Op::Delete(Text::of(alloc, rest)?));
    }
    let document = document_of(alloc, rest)?;
    Ok(if kind == "+" {
        Op::Add(document)
    } else {
        Op::Update(document)
    })
}

fn ops_of(alloc: Global, spelled: &str) -> Result<Vec<Op>, Fail> {
    let mut ops = Vec::new(alloc);
    for op in spelled.split(';') {
        ops.push(op_of(alloc, op.trim())?)?;
    }
    Ok(ops)
}

fn segment_of(alloc: Global, spelled: &str) -> Result<Segment, Fail> {
    let ops = ops_of(alloc, spelled)?;
    let count = ops.len() as u64;
    if count == 0 || count > 100 {
        return Err("too many operations".into());
    }
    let batch = Batch {
        from: 1,
        upto: count,
        ops: List::of(ops),
    };
    Ok(Segment::of_batch(alloc, &batch)?)
}

fn push_numbers(told: &mut String, table: &SegTable) -> Result<(), AllocError> {
    for doc in 0..table.len() {
        write!(told, "{} ", table.seq(doc))?;
    }
    Ok(())
}

fn push_owners(told: &mut String, owners: &[Owner]) -> Result<(), AllocError> {
    told.push_str("/")?;
    for owner in owners {
        write!(told, " {}.{}", owner.doc, owner.place)?;
    }
    Ok(())
}

fn push_start(told: &mut String, start: Option<Start>) -> Result<(), AllocError> {
    let Some(start) = start else {
        return told.push_str(" none");
    };
    let spot = start.spot;
    write!(
        told,
        " {}:{}*{}={}",
        start.number, spot.ordinal, start.boost, spot.cost
    )
}

fn query_of(alloc: Global, prefix: &str) -> Result<Query, Fail> {
    let prefix = Key::of(Bytes::of(alloc, prefix.as_bytes())?)?;
    Ok(Query::new(prefix, Vec::new(alloc), 1)?)
}

fn push_starts(told: &mut String, segment: &Segment, query: &Query) -> Result<(), AllocError> {
    let mut steps = Steps::new(Plain);
    let mut starts = Starts::new(segment.transducer(), query);
    for _ in 0..3 {
        push_start(told, starts.next(&mut steps))?;
    }
    Ok(())
}

// The numbers of the documents, the owners, and the most paths of a document.
fn push_table(told: &mut String, table: &SegTable) -> Result<(), AllocError> {
    push_numbers(told, table)?;
    push_owners(told, table.owners())?;
    write!(told, " / {} /", table.most_paths())
}

fn push_answer(told: &mut String, ops: &str, prefix: &str) -> Result<(), Fail> {
    let segment = segment_of(*told.allocator(), ops)?;
    let query = query_of(*told.allocator(), prefix)?;
    push_table(told, segment.table())?;
    push_starts(told, &segment, &query)?;
    Ok(())
}

fn push_row(told: &mut String, row: &str) -> Result<(), Fail> {
    let Some((front, given)) = given(row) else {
        return Err("no answer".into());
    };
    let Some((ops, prefix)) = given.split_once('|') else {
        return Err("no prefix".into());
    };
    write!(told, "{front}|")?;
    push_answer(told, ops, prefix)?;
    told.push_str("\n")?;
    Ok(())
}

fn rows_again(alloc: Global) -> Result<String, Fail> {
    let mut told = String::new(alloc);
    for row in ROWS.lines() {
        push_row(&mut told, row)?;
    }
    Ok(told)
}

#[test]
fn a_batch_gives_its_documents_owners_and_starts(rt: HostRuntime) -> Result<(), Fail> {
    let told = rows_again(rt.alloc())?;
    assert_same(&rt, told.as_str(), ROWS);
    Ok(())
}
