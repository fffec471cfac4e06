//! The live documents of all sources as one list by number.
ghost use Rattle.std.specs.Prelude.{◌≡◌, ◌≤◌, ◌+◌, ◌++◌, IfOk, OnOk, length, map, take, drop};
ghost use Rattle.std.specs.List.{AllByRecursion, flat_map};
ghost use Rattle.sg_base.specs.Ranking.{in_order};
ghost use Rattle.merge_work.specs.Merging.{document_cmp, IsSource};
ghost use Rattle.merge_work.specs.Working.{count_below, kept_of, merged};

use crate::document_ref::DocumentRef;
use crate::sources::live_documents;
use segment::Piece;
use sg_paths::Batch;
use std::alloc::{AllocError, Global};
use std::sync::Arc;

/// How many at the front have lesser numbers.
fn count_below(docs: &[DocumentRef<'_>], seq: u64) -> usize
    ensures value { result ≡ count_below seq docs.now }
    ensures within { result ≤ length docs.now }
{
    for (i, doc) in docs.iter().enumerate() {
        if seq <= doc.seq() {
            return i;
        }
    }
    docs.len()
}

fn push_all<'a>(
    merged: &mut Vec<DocumentRef<'a>>,
    docs: &[DocumentRef<'a>],
) -> Result<(), AllocError>
    ensures { OnOk result (merged.new.items ≡ merged.old.items ++ docs.now) }
{
    for doc in docs {
        merged.push(doc.again())?;
    }
    Ok(())
}

/// Pushes those from a place on that have lesser numbers, and says how many.
fn push_below<'a>(
    merged: &mut Vec<DocumentRef<'a>>,
    docs: &[DocumentRef<'a>],
    at: usize,
    seq: u64,
) -> Result<usize, AllocError>
    requires { at ≤ length docs.now }
    ensures value { IfOk result (λ count. count ≡ count_below seq (drop at docs.now)) }
    ensures pushed { OnOk result (merged.new.items ≡ merged.old.items
        ++ take (count_below seq (drop at docs.now)) (drop at docs.now)) }
    ensures within { IfOk result (λ count. at + count ≤ length docs.now) }
{
    let (_, rest) = docs.split_at(at);
    let count = count_below(rest, seq);
    let (below, _) = rest.split_at(count);
    push_all(merged, below)?;
    Ok(count)
}

/// Two lists by number as one: a step a document.
fn merged<'a>(
    alloc: Global,
    first: &[DocumentRef<'a>],
    later: &[DocumentRef<'a>],
) -> Result<Vec<DocumentRef<'a>>, AllocError>
    ensures { IfOk result (λ docs. docs.items ≡ merged first.now later.now) }
{
    let mut docs = Vec::new(alloc);
    let mut at = 0;
    for doc in first {
        let count = push_below(&mut docs, later, at, doc.seq())?;
        docs.push(doc.again())?;
        at += count;
    }
    let (_, rest) = later.split_at(at);
    push_all(&mut docs, rest)?;
    Ok(docs)
}

/// The live documents of all sources, by number: a step a document for each source.
pub(crate) fn merged_sources<'a>(
    alloc: Global,
    pieces: &'a [Piece],
    upto: u64,
    batches: &[Arc<Batch>],
) -> Result<Vec<DocumentRef<'a>>, AllocError>
    requires { AllByRecursion IsSource pieces.now }
    ensures { IfOk result (λ docs. docs.items ≡ in_order document_cmp
        (flat_map (kept_of upto (map (λ b. b.value) batches.now)) pieces.entry.now)) }
{
    let mut docs = Vec::new(alloc);
    let mut at = pieces.len();
    while at > 0 {
        at -= 1;
        let live = live_documents(alloc, &pieces[at], upto, batches)?;
        docs = merged(alloc, live.as_slice(), docs.as_slice())?;
    }
    Ok(docs)
}
