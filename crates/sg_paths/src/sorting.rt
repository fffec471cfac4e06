//! The order of entries.
ghost use Rattle.std.specs.Prelude.{◌≡◌, OnOk};
ghost use Rattle.sg_base.specs.Ranking.{in_order};
ghost use Rattle.sg_paths.specs.AllPaths.{entry_cmp};

use crate::entry::EntryRef;
use std::alloc::AllocError;

/// Sorts by the bytes up to the number, then by weight descending, then by document: in n log n
/// comparisons.
pub(crate) fn sort_entries(entries: &mut Vec<EntryRef<'_>>) -> Result<(), AllocError>
    ensures { OnOk result (entries.new.items ≡ in_order entry_cmp entries.old.items) }
{
    entries.sort()
}
