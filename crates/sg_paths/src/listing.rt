//! All paths of documents.
ghost use Rattle.std.specs.Prelude.{◌≡◌, ◌≤◌, [], IfOk, length, map};
ghost use Rattle.std.specs.List.{All};
ghost use Rattle.sg_paths.specs.declared.limits.TheConstants.{MOST_SEGMENT_DOCUMENTS};
ghost use Rattle.sg_paths.specs.declared.limits.TheConstants.{MOST_SEGMENT_PATHS};
ghost use Rattle.sg_paths.specs.AllPaths.{all_paths, path_entries, path_bytes};
ghost use Rattle.sg_paths.specs.PathLaws.{IsLegal, Rises};

use crate::collecting::document_entries;
use crate::numbering::numbered_paths;
use crate::op::Numbered;
use crate::path::Path;
use crate::sorting::sort_entries;
use sg_base::Context;
use std::alloc::{AllocError, Global};

fn empty_context(alloc: Global) -> Result<Context, AllocError>
    ensures { IfOk result (λ c. c ≡ []) }
{
    match Context::new(alloc, "") {
        Ok(context) => Ok(context),
        Err(_) => Err(AllocError),
    }
}

/// The paths of all documents in byte order: n log n comparisons of n paths, beside at most 256 an
/// entry that tell which of its document are kept. Borrows until the paths are numbered.
pub fn paths_of(alloc: Global, docs: &[Numbered]) -> Result<Vec<Path>, AllocError>
    requires documents { length docs.now ≤ MOST_SEGMENT_DOCUMENTS }
    requires paths { length (path_entries 0 docs.now) ≤ MOST_SEGMENT_PATHS }
    ensures value { IfOk result (λ paths. paths.items ≡ all_paths docs.now) }
    ensures count { IfOk result (λ paths. length paths.items ≡ length (path_entries 0 docs.now)) }
    ensures legal { IfOk result (λ paths. All (λ p. IsLegal p.entry) paths.items) }
    ensures rises { IfOk result (λ paths. Rises (map path_bytes paths.items)) }
{
    let empty = empty_context(alloc)?;
    let mut entries = document_entries(alloc, docs, &empty)?;
    sort_entries(&mut entries)?;
    let paths = numbered_paths(alloc, entries.as_slice())?;
    Ok(paths)
}
