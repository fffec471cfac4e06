//! The number of each path among those with its context and key.
ghost use Rattle.std.specs.Prelude.{◌≡◌, ◌<◌, ◌≤◌, option_map, IfOk, length, None};
ghost use Rattle.std.specs.List.{AllByRecursion};
ghost use Rattle.sg_paths.specs.declared.limits.TheConstants.{MOST_SEGMENT_PATHS};
ghost use Rattle.sg_paths.specs.AllPaths.{number_after, numbered, is_alike};
ghost use Rattle.sg_paths.specs.PathLaws.{IsLegal};

use crate::entry::EntryRef;
use crate::path::Path;
use std::alloc::{AllocError, Global};

fn are_alike(first: &EntryRef<'_>, second: &EntryRef<'_>) -> bool
    ensures { result ≡ is_alike first.now second.now }
{
    first.context.as_str() == second.context.as_str()
        && first.key.as_slice() == second.key.as_slice()
}

fn number_after(last: Option<&EntryRef<'_>>, n: u32, entry: &EntryRef<'_>) -> u32
    requires { n < MOST_SEGMENT_PATHS }
    ensures { result ≡ number_after (option_map (λ e. (e.now, n)) last.entry) entry.now }
{
    match last {
        None => 0,
        Some(last) => { if are_alike(last, entry) { n + 1 } else { 0 } }
    }
}

fn path_of(entry: &EntryRef<'_>, n: u32) -> Result<Path, AllocError>
    ensures entry { IfOk result (λ p. p.entry ≡ entry.now) }
    ensures n { IfOk result (λ p. p.n ≡ n) }
    ensures legal { IfOk result (λ p. IsLegal p.entry) }
{
    let _ = entry.context.as_str();
    let _ = entry.key.as_slice();
    let weight = entry.weight;
    let context = entry.context.copy()?;
    let key = entry.key.copy()?;
    Ok(Path {
        context,
        key,
        n,
        weight,
        doc: entry.doc,
        place: entry.place,
    })
}

/// Sorted entries as paths of their own.
pub(crate) fn numbered_paths(
    alloc: Global,
    entries: &[EntryRef<'_>],
) -> Result<Vec<Path>, AllocError>
    requires { length entries.now ≤ MOST_SEGMENT_PATHS }
    ensures value { IfOk result (λ paths. paths.items ≡ numbered None entries.now) }
    ensures legal { IfOk result (λ paths. AllByRecursion (λ p. IsLegal p.entry) paths.items) }
{
    let mut paths = Vec::with_capacity(alloc, entries.len())?;
    let mut last: Option<&EntryRef<'_>> = None;
    let mut n: u32 = 0;
    for entry in entries {
        n = number_after(last, n, entry);
        paths.push(path_of(entry, n)?)?;
        last = Some(entry);
    }
    Ok(paths)
}
