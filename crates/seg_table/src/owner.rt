//! Owners of paths.
ghost use Rattle.std.specs.Prelude.{◌≡◌, IfOk, map};
ghost use Rattle.seg_table.specs.Owners.{owner_of};

use sg_paths::Path;
use std::alloc::{AllocError, Global};

/// Whose path it is.
#[derive(Clone, Copy, Debug, PartialEq, Eq)]
pub struct Owner {
    /// The place of the document in the segment.
    pub doc: u32,
    /// The place of the suggestion in the document.
    pub place: u8,
}

fn owner_of_path(path: &Path) -> Owner
    ensures { result ≡ owner_of path.now }
{
    Owner {
        doc: path.doc,
        place: path.place,
    }
}

/// The owner of each path.
pub(crate) fn owners_of(alloc: Global, paths: &[Path]) -> Result<Vec<Owner>, AllocError>
    ensures { IfOk result (λ owners. owners.items ≡ map owner_of paths.now) }
{
    let mut owners = Vec::with_capacity(alloc, paths.len())?;
    for path in paths {
        owners.push(owner_of_path(path))?;
    }
    Ok(owners)
}
