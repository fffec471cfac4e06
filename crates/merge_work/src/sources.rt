//! The live documents of one source.
ghost use Rattle.std.specs.Prelude.{◌≡◌, ◌∷◌, ◌++◌, [], IfOk, OnOk, length, map};
ghost use Rattle.segment.specs.Pieces.{body_of, body_documents};
ghost use Rattle.segment.specs.Represents.{NumbersRise};
ghost use Rattle.merge_work.specs.Merging.{HasSegment, IsSource};
ghost use Rattle.merge_work.specs.Working.{kept_of, live_of};

use crate::document_ref::DocumentRef;
use piece_docs::live_docs_less;
use seg_live::Live;
use seg_table::SegTable;
use segment::{Kind, Piece, Segment};
use sg_paths::Batch;
use std::alloc::{AllocError, Global};
use std::sync::Arc;

/// The segment of a source.
pub(crate) fn segment_of(kind: &Kind) -> &Segment
    requires { HasSegment (body_of kind.now) }
    ensures { result.now ≡ body_documents (body_of kind.entry.now) }
{
    match kind {
        Kind::Built(segment) => segment,
        Kind::Raw(_) => unreachable!(),
    }
}

fn push_if_live<'a>(
    kept: &mut Vec<DocumentRef<'a>>,
    doc: DocumentRef<'a>,
    is_live: bool,
) -> Result<(), AllocError>
    ensures { OnOk result (kept.new.items
        ≡ kept.old.items ++ live_of (doc.entry ∷ []) (is_live ∷ [])) }
{
    if is_live {
        kept.push(doc)?;
    }
    Ok(())
}

/// The documents that are live.
fn kept_of<'a>(
    alloc: Global,
    table: &'a SegTable,
    live: &Live,
) -> Result<Vec<DocumentRef<'a>>, AllocError>
    requires { length live.now ≡ length table.now }
    ensures { IfOk result (λ kept. kept.items ≡ live_of table.entry.now live.now) }
{
    let mut kept = Vec::new(alloc);
    for doc in 0..table.len() {
        push_if_live(&mut kept, DocumentRef::of(table, doc), live.is_live(doc))?;
    }
    Ok(kept)
}

/// The documents of a source, by number, that neither its live docs nor the deletes of the batches
/// take away, up to `upto`.
pub(crate) fn live_documents<'a>(
    alloc: Global,
    piece: &'a Piece,
    upto: u64,
    batches: &[Arc<Batch>],
) -> Result<Vec<DocumentRef<'a>>, AllocError>
    requires { IsSource piece.now }
    ensures value { IfOk result (λ kept. kept.items
        ≡ kept_of upto (map (λ b. b.value) batches.now) piece.entry.now) }
    ensures rise { IfOk result (λ kept. NumbersRise kept.items) }
{
    let segment = segment_of(&piece.kind);
    let table = segment.table();
    let live = live_docs_less(alloc, piece, table, upto, batches)?;
    let kept = kept_of(alloc, table, &live)?;
    Ok(kept)
}
