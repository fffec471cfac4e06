//! The segment of a merge's documents.
ghost use Rattle.std.specs.Prelude.{◌≡◌, ◌≤◌, IfOk, length, option_map};
ghost use Rattle.sg_paths.specs.declared.limits.TheConstants.{MOST_SEGMENT_DOCUMENTS};
ghost use Rattle.sg_paths.specs.declared.limits.TheConstants.{MOST_SEGMENT_PATHS};
ghost use Rattle.sg_paths.specs.AllPaths.{path_entries};
ghost use Rattle.segment.specs.Represents.{NumbersRise};
ghost use Rattle.merge_work.specs.Merging.{unless_empty};

use crate::document_ref::DocumentRef;
use segment::Segment;
use sg_paths::Numbered;
use std::alloc::{AllocError, AllocFailed, Global};
use std::sync::Arc;

fn copied(alloc: Global, docs: &[DocumentRef<'_>]) -> Result<Vec<Numbered>, AllocError>
    ensures { IfOk result (λ copies. copies.items ≡ docs.now) }
{
    let mut copies = Vec::with_capacity(alloc, docs.len())?;
    for doc in docs {
        copies.push(doc.copy()?)?;
    }
    Ok(copies)
}

fn shared(alloc: Global, segment: Segment) -> Result<Option<Arc<Segment>>, AllocError>
    ensures { IfOk result (λ s. option_map (λ x. x.value) s ≡ Some segment) }
{
    match Arc::new(alloc, segment) {
        Ok(segment) => Ok(Some(segment)),
        Err(AllocFailed { value: _ }) => Err(AllocError),
    }
}

/// The segment of these documents, copied, or none of none. Sorts their paths.
pub(crate) fn segment_of(
    alloc: Global,
    docs: &[DocumentRef<'_>],
) -> Result<Option<Arc<Segment>>, AllocError>
    requires rise { NumbersRise docs.now }
    requires documents { length docs.now ≤ MOST_SEGMENT_DOCUMENTS }
    requires paths { length (path_entries 0 docs.now) ≤ MOST_SEGMENT_PATHS }
    ensures { IfOk result (λ s. option_map (λ x. x.value) s ≡ unless_empty docs.now) }
{
    if docs.is_empty() {
        return Ok(None);
    }
    let segment = Segment::of_docs(alloc, copied(alloc, docs)?)?;
    shared(alloc, segment)
}
