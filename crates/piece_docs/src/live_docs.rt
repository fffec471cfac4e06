//! Live docs of pieces.
ghost use Rattle.std.specs.Prelude.{◌≡◌, ◌<◌, IfOk, length, map, option_map};
ghost use Rattle.std.specs.List.{All};
ghost use Rattle.seg_live.specs.LiveDocs.{live_without};
ghost use Rattle.segment.specs.Pieces.{piece_documents, live_docs_or_all};
ghost use Rattle.piece_docs.specs.PieceDocs.{live_docs_less};

use delete_queue::dead_in;
use seg_live::Live;
use seg_table::SegTable;
use segment::Piece;
use sg_paths::Batch;
use std::alloc::{AllocError, AllocFailed, Global};
use std::sync::Arc;

fn shared(alloc: Global, live: Live) -> Result<Arc<Live>, AllocError>
    ensures { IfOk result (λ l. l.value ≡ live) }
{
    match Arc::new(alloc, live) {
        Ok(live) => Ok(live),
        Err(AllocFailed { value: _ }) => Err(AllocError),
    }
}

/// These live docs, shared, or all documents of the table where none are said.
fn live_docs_or_all(
    alloc: Global,
    live: &Option<Arc<Live>>,
    table: &SegTable,
) -> Result<Arc<Live>, AllocError>
    ensures { IfOk result (λ l. l.value
        ≡ live_docs_or_all table.now (option_map (λ l. l.value) live.now)) }
{
    match live {
        Some(live) => Arc::try_clone(live),
        None => shared(alloc, Live::all(alloc, table.len())),
    }
}

/// Live docs less the documents at these places: the same, shared, where there are none.
fn live_without(alloc: Global, live: Arc<Live>, dead: &[u32]) -> Result<Arc<Live>, AllocError>
    requires { All (λ place. place < length live.value) dead.now }
    ensures { IfOk result (λ l. l.value ≡ live_without 0 dead.now live.value) }
{
    if dead.is_empty() {
        return Ok(live);
    }
    shared(alloc, live.with_dead(dead)?)
}

/// The live docs of a piece, less the documents that the batches delete up to `upto`. Where they
/// delete none, the piece's own are shared: no step or byte a document.
pub fn live_docs_less(
    alloc: Global,
    piece: &Piece,
    table: &SegTable,
    upto: u64,
    batches: &[Arc<Batch>],
) -> Result<Arc<Live>, AllocError>
    requires table { table.now ≡ piece_documents piece.now }
    requires counted { length (live_docs_or_all (piece_documents piece.now) piece.now.live_docs)
        ≡ length (piece_documents piece.now) }
    ensures { IfOk result (λ l. l.value
        ≡ live_docs_less upto (map (λ b. b.value) batches.now) piece.now) }
{
    let dead = dead_in(alloc, table, piece.applied, upto, batches)?;
    let live = live_docs_or_all(alloc, &piece.live, table)?;
    live_without(alloc, live, dead.as_slice())
}
