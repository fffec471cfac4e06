//! Segments of documents.
ghost use Rattle.std.specs.Prelude.{◌≡◌, ◌≤◌, true, length};
ghost use Rattle.sg_paths.specs.declared.limits.TheConstants.{MOST_SEGMENT_DOCUMENTS};
ghost use Rattle.segment.specs.Represents.{NumbersRise};

use crate::timing::{invalid, report};
use seg_bytes::{documents_len, misplaced_number};
use segment::Segment;
use sg_base::{CONTEXT_END, KEY_END};
use sg_paths::{MOST_SEGMENT_DOCUMENTS, MOST_SEGMENT_PATHS, Numbered, paths_at_most};
use std::alloc::{AllocError, Global};
use std::io;
use std::time::Instant;

// Whether the documents' numbers rise strictly from 1, and stay within those of a segment's bytes.
fn numbers_rise(documents: &[Numbered]) -> bool
    requires { length documents.now ≤ MOST_SEGMENT_DOCUMENTS }
    ensures { result ≡ true → NumbersRise documents.now }
{
    // No length is past what an address can count.
    let _ = documents_len(documents);
    misplaced_number(documents, 0).is_none()
}

fn segment_of(alloc: Global, documents: Vec<Numbered>) -> io::Result<Segment> {
    if documents.len() as u64 > MOST_SEGMENT_DOCUMENTS || !numbers_rise(documents.as_slice()) {
        return Err(invalid());
    }
    if paths_at_most(documents.as_slice()) > MOST_SEGMENT_PATHS {
        return Err(invalid());
    }
    Ok(Segment::of_docs(alloc, documents)?)
}

fn copied(alloc: Global, documents: &[Numbered]) -> Result<Vec<Numbered>, AllocError> {
    let mut copies = Vec::with_capacity(alloc, documents.len())?;
    for numbered in documents {
        copies.push(numbered.copy()?)?;
    }
    Ok(copies)
}

/// All segments but the last of so many.
pub fn build_copies(
    alloc: Global,
    documents: &[Numbered],
    segments: u32,
) -> io::Result<Vec<Segment>> {
    let mut copies = Vec::new(alloc);
    for _ in 1..segments {
        copies.push(segment_of(alloc, copied(alloc, documents)?)?)?;
    }
    Ok(copies)
}

/// The segment of the documents, whose building is timed.
pub fn build(rt: &HostRuntime, documents: Vec<Numbered>) -> io::Result<Segment> {
    let count = documents.len();
    let start = Instant::now(rt)?;
    let segment = segment_of(rt.alloc(), documents)?;
    report(rt, "of_docs", count, start)?;
    Ok(segment)
}

fn add_paths(
    paths: &mut Vec<Vec<u8>>,
    alloc: Global,
    numbered: &Numbered,
) -> Result<(), AllocError> {
    for suggestion in numbered.document.suggestions.items() {
        for context in suggestion.contexts.items() {
            let mut path = Vec::new(alloc);
            path.extend_from_slice(context.as_str().as_bytes())?;
            path.push(CONTEXT_END)?;
            path.extend_from_slice(suggestion.key.as_slice())?;
            path.push(KEY_END)?;
            paths.push(path)?;
        }
    }
    Ok(())
}

/// Sorts the paths of the segment's documents, without numbers among equal ones.
pub fn time_sort(rt: &HostRuntime, segment: &Segment) -> io::Result<()> {
    let table = segment.table();
    let mut paths = Vec::new(rt.alloc());
    for doc in 0..table.len() {
        add_paths(&mut paths, rt.alloc(), &table.document(doc)?)?;
    }
    let count = paths.len();
    let start = Instant::now(rt)?;
    paths.sort_unstable();
    report(rt, "sort", count, start)
}

/// Writes the segment's bytes, and checks them anew.
pub fn time_bytes(rt: &HostRuntime, segment: &Segment) -> io::Result<()> {
    let start = Instant::now(rt)?;
    let bytes = segment.write()?;
    report(rt, "write", bytes.as_slice().len(), start)?;
    let count = segment.table().len() as usize;
    let start = Instant::now(rt)?;
    let checked = Segment::check(rt.alloc(), bytes);
    report(rt, "check", count, start)?;
    match checked {
        Ok(_) => Ok(()),
        Err(_) => Err(invalid()),
    }
}
