//! How many paths each document has.
ghost use Rattle.std.specs.Prelude.{◌≡◌, ◌≤◌, ◌<◌, ◌+◌, IfOk, length, get_or, set};
ghost use Rattle.std.specs.List.{All};
ghost use Rattle.sg_paths.specs.declared.limits.TheConstants.{MOST_SEGMENT_PATHS};
ghost use Rattle.seg_table.specs.Counts.{counts_of};
ghost use Rattle.seg_table.specs.Owners.{greatest};

use crate::owner::Owner;
use std::alloc::{AllocError, Global};

/// Counts a path for the document of its owner.
fn add_path(counts: &mut Vec<u32>, owner: Owner)
    requires within { owner.doc < length counts.old.items }
    requires fits { get_or counts.old.items owner.doc 0 < 4294967295 }
    ensures { counts.new.items
        ≡ set counts.old.items owner.doc (get_or counts.old.items owner.doc 0 + 1) }
{
    counts[owner.doc as usize] += 1;
}

/// How many of the owners each of so many documents has.
fn owner_counts(alloc: Global, documents: usize, owners: &[Owner]) -> Result<Vec<u32>, AllocError>
    requires within { All (λ o. o.doc < documents) owners.now }
    requires few { length owners.now ≤ MOST_SEGMENT_PATHS }
    ensures { IfOk result (λ counts. counts.items ≡ counts_of documents owners.now) }
{
    let mut counts = vec![in alloc; 0u32; documents]?;
    for owner in owners {
        add_path(&mut counts, *owner);
    }
    Ok(counts)
}

fn greatest_of(counts: &[u32]) -> u32
    ensures { result ≡ greatest counts.now }
{
    let mut most = 0;
    for count in counts {
        most = most.max(*count);
    }
    most
}

/// The greatest number of paths of one document.
pub(crate) fn most_owned(
    alloc: Global,
    documents: usize,
    owners: &[Owner],
) -> Result<u32, AllocError>
    requires within { All (λ o. o.doc < documents) owners.now }
    requires few { length owners.now ≤ MOST_SEGMENT_PATHS }
    ensures { IfOk result (λ most. most ≡ greatest (counts_of documents owners.now)) }
{
    let counts = owner_counts(alloc, documents, owners)?;
    Ok(greatest_of(counts.as_slice()))
}
