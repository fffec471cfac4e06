//! How many paths documents have, where a segment can't be made of them.
ghost use Rattle.std.specs.Prelude.{◌≡◌, ◌≤◌, nat_lt, IfOk, length};
ghost use Rattle.sg_paths.specs.declared.limits.TheConstants.{MOST_SEGMENT_DOCUMENTS};
ghost use Rattle.sg_paths.specs.declared.limits.TheConstants.{MOST_SEGMENT_PATHS};
ghost use Rattle.sg_paths.specs.AllPaths.{path_entries};

use sg_paths::{MOST_SEGMENT_PATHS, Numbered, paths_at_most, paths_of};
use std::alloc::{AllocError, Global};

/// How many paths one document has.
fn count_of_one(alloc: Global, doc: &[Numbered]) -> Result<u64, AllocError>
    requires { length doc.now ≤ 1 }
    ensures value { IfOk result (λ n. n ≡ length (path_entries 0 doc.now)) }
    ensures most { IfOk result (λ n. n ≤ 256) }
{
    prove!(paths_at_most(doc) <= 256);
    let paths = paths_of(alloc, doc)?;
    Ok(paths.len() as u64)
}

/// How many paths documents have, one document after the other.
fn count_paths(alloc: Global, docs: &[Numbered]) -> Result<u64, AllocError>
    requires { length docs.now ≤ MOST_SEGMENT_DOCUMENTS }
    ensures { IfOk result (λ n. n ≡ length (path_entries 0 docs.now)) }
{
    let mut count: u64 = 0;
    for i in 0..docs.len() {
        count += count_of_one(alloc, &docs[i..i + 1])?;
    }
    Ok(count)
}

/// Whether documents have more paths than a segment may have. They are counted only where the
/// contexts that they are given with allow it.
pub(crate) fn exceed(alloc: Global, docs: &[Numbered]) -> Result<bool, AllocError>
    requires { length docs.now ≤ MOST_SEGMENT_DOCUMENTS }
    ensures { IfOk result (λ b. b ≡ nat_lt MOST_SEGMENT_PATHS (length (path_entries 0 docs.now))) }
{
    if paths_at_most(docs) <= MOST_SEGMENT_PATHS {
        return Ok(false);
    }
    let count = count_paths(alloc, docs)?;
    Ok(count > MOST_SEGMENT_PATHS)
}
