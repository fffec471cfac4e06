use crate::making::{batches_of, ops_of};
use piece_docs::{live_docs_less, segment_of};
use seg_live::Live;
use segment::{Kind, Piece, Segment};
use sg_base::List;
use sg_paths::Batch;
use std::alloc::Global;
use std::sync::Arc;
use std::test::Fail;

// A row each: its name, the batches behind the first three operations, which add a, b and c, the
// number up to which they count, how many have the piece's live docs then, and how many are live.
// The test and the piece are two of those that have them.
const ROWS: &str = "\
an add: 4 +d | 4 => 3 have them, 3 live
a delete of another id: 4 -x | 4 => 3 have them, 3 live
a delete behind the number: 4 +d -a | 4 => 3 have them, 3 live
a delete: 4 +d -a | 5 => 2 have them, 2 live
two deletes: 4 -a / 5 -c | 5 => 2 have them, 1 live";

fn three_documents(alloc: Global) -> Result<Arc<Segment>, Fail> {
    let ops = ops_of(alloc, "+a +b +c")?;
    let count = ops.len() as u64;
    if count == 0 || count > 100 {
        return Err("too many operations".into());
    }
    let batch = Batch {
        from: 1,
        upto: count,
        ops: List::of(ops),
    };
    let kind = Kind::Raw(Arc::new(alloc, batch)?);
    Ok(segment_of(alloc, &kind)?)
}

fn told(alloc: Global, segment: &Arc<Segment>, batches: &str, upto: &str) -> Result<String, Fail> {
    let upto = upto.parse::<u64>()?;
    let batches = batches_of(alloc, batches)?;
    let own = Arc::new(alloc, Live::all(alloc, segment.table().len()))?;
    let piece = Piece {
        generation: 1,
        kind: Kind::Built(Arc::try_clone(segment)?),
        live: Some(Arc::try_clone(&own)?),
        applied: 3,
    };
    let live = live_docs_less(alloc, &piece, segment.table(), upto, batches.as_slice())?;
    Ok(format!(in alloc;
        "{} have them, {} live",
        Arc::strong_count(&own),
        live.count()
    )?)
}

#[test]
fn live_docs_are_shared_where_nothing_is_deleted(rt: HostRuntime) -> Result<(), Fail> {
    let segment = three_documents(rt.alloc())?;
    for row in ROWS.lines() {
        let (name, rest) = row.split_once(": ").ok_or("no name")?;
        let (batches, rest) = rest.split_once(" | ").ok_or("no batches")?;
        let (upto, wanted) = rest.split_once(" => ").ok_or("no number")?;
        let told = told(rt.alloc(), &segment, batches, upto)?;
        assert_eq!(rt; told.as_str(), wanted, "{name}");
    }
    Ok(())
}

#[test]
fn a_built_segment_is_shared(rt: HostRuntime) -> Result<(), Fail> {
    let segment = three_documents(rt.alloc())?;
    let kind = Kind::Built(segment);
    let shared = segment_of(rt.alloc(), &kind)?;
    assert_eq!(rt; Arc::strong_count(&shared), 2);
    Ok(())
}
