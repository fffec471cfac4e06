//! How the segments of a view are built.
ghost use Rattle.std.specs.Prelude.{◌≡◌, IfOk, map};
ghost use Rattle.std.specs.List.{AllByRecursion};
ghost use Rattle.segment.specs.Views.{IsBuildablePiece};
ghost use Rattle.sg_view.specs.Building.{piece_at};

use crate::view::Viewed;
use piece_docs::{live_docs_less, segment_of};
use segment::Piece;
use sg_paths::Batch;
use std::alloc::{AllocError, Global};
use std::sync::Arc;

/// The segment of a piece and its live docs, both shared where the piece has its segment and the
/// batches delete none of its documents.
fn view_piece(
    alloc: Global,
    piece: &Piece,
    upto: u64,
    batches: &[Arc<Batch>],
) -> Result<Viewed, AllocError>
    requires { IsBuildablePiece piece.now }
    ensures { IfOk result (λ s. s ≡ piece_at upto (map (λ b. b.value) batches.now) piece.now) }
{
    let segment = segment_of(alloc, &piece.kind)?;
    let live = live_docs_less(alloc, piece, segment.table(), upto, batches)?;
    Ok(Viewed {
        generation: piece.generation,
        segment,
        live,
    })
}

/// The segments of pieces, less the documents that the batches delete, up to `upto`.
pub(crate) fn view_pieces(
    alloc: Global,
    pieces: &[Piece],
    upto: u64,
    batches: &[Arc<Batch>],
) -> Result<Vec<Viewed>, AllocError>
    requires { AllByRecursion IsBuildablePiece pieces.now }
    ensures { IfOk result (λ v. v.items
        ≡ map (piece_at upto (map (λ b. b.value) batches.now)) pieces.now) }
{
    let mut segments = Vec::with_capacity(alloc, pieces.len())?;
    for piece in pieces {
        segments.push(view_piece(alloc, piece, upto, batches)?)?;
    }
    Ok(segments)
}
