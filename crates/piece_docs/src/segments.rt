//! Segments of pieces.
ghost use Rattle.std.specs.Prelude.{◌≡◌, IfOk};
ghost use Rattle.segment.specs.Pieces.{body_of, body_documents};
ghost use Rattle.segment.specs.Views.{IsBuildableBody};

use segment::{Kind, Segment};
use std::alloc::{AllocError, AllocFailed, Global};
use std::sync::Arc;

fn shared(alloc: Global, segment: Segment) -> Result<Arc<Segment>, AllocError>
    ensures { IfOk result (λ s. s.value ≡ segment) }
{
    match Arc::new(alloc, segment) {
        Ok(segment) => Ok(segment),
        Err(AllocFailed { value: _ }) => Err(AllocError),
    }
}

/// The segment of a piece: its own, shared, or one that is built of its batch.
pub fn segment_of(alloc: Global, kind: &Kind) -> Result<Arc<Segment>, AllocError>
    requires { IsBuildableBody (body_of kind.now) }
    ensures { IfOk result (λ s. s.value ≡ body_documents (body_of kind.now)) }
{
    match kind {
        Kind::Raw(batch) => shared(alloc, Segment::of_batch(alloc, batch)?),
        Kind::Built(segment) => Arc::try_clone(segment),
    }
}
