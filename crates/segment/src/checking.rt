//! The check of a segment's bytes.
ghost use Rattle.std.specs.Prelude.{◌≡◌, ◌≤◌, length, IfErr, IfOk, None};
ghost use Rattle.segment.specs.Checking.{IsBuilt, IsFound, IsRead, RefusesEarly};
ghost use Rattle.segment.specs.Faults.{Accepts, Refuses};
ghost use Rattle.segment.specs.Rules.{header_broken};

use crate::comparing::{wrong_counts, wrong_rest};
use crate::counting::exceed;
use crate::header::{header_fault, number_in_four};
use crate::layout::{DOCUMENT_COUNT, HEADER, PATH_COUNT};
use crate::segment::Segment;
use fst_code::CodeError;
use seg_bytes::{DocumentsRead, ReadError, misplaced_number, read_documents};
use sg_paths::{Numbered, paths_of};
use std::alloc::Global;

/// The documents, where their numbers are sound.
fn numbered(bytes: &[u8], read: DocumentsRead) -> Result<DocumentsRead, CodeError>
    requires { IsFound bytes.now read.docs.items read.end }
    ensures ok { IfOk result (λ r. IsRead bytes.now r.docs.items r.end) }
    ensures err { IfErr result (RefusesEarly bytes.now) }
{
    match misplaced_number(read.docs.as_slice(), HEADER) {
        None => Ok(read),
        Some(at) => Err(CodeError::Bad {
            rule: 5,
            at: at as u64,
        }),
    }
}

/// The documents behind a sound header, where the fourth and the fifth rule hold.
fn documents_behind(alloc: Global, bytes: &[u8]) -> Result<DocumentsRead, CodeError>
    requires header { header_broken bytes.now ≡ None }
    requires whole { 20 ≤ length bytes.now }
    ensures ok { IfOk result (λ r. IsRead bytes.now r.docs.items r.end) }
    ensures err { IfErr result (RefusesEarly bytes.now) }
{
    let count = number_in_four(bytes, DOCUMENT_COUNT);
    match read_documents(alloc, bytes, HEADER, count) {
        Ok(read) => numbered(bytes, read),
        Err(ReadError::Bad { at }) => Err(CodeError::Bad { rule: 4, at }),
        Err(ReadError::Memory) => Err(CodeError::Memory),
    }
}

/// The documents, where the first five rules hold.
fn documents_of(alloc: Global, bytes: &[u8]) -> Result<DocumentsRead, CodeError>
    ensures ok { IfOk result (λ r. IsRead bytes.now r.docs.items r.end) }
    ensures err { IfErr result (RefusesEarly bytes.now) }
{
    match header_fault(bytes) {
        None => documents_behind(alloc, bytes),
        Some((rule, at)) => Err(CodeError::Bad {
            rule,
            at: at as u64,
        }),
    }
}

/// The segment of the documents, where the sixth rule holds too.
fn built(alloc: Global, bytes: &[u8], docs: Vec<Numbered>, end: usize) -> Result<Segment, CodeError>
    requires { IsRead bytes.now docs.items end }
    ensures ok { IfOk result (λ s. IsBuilt bytes.now docs.items end s) }
    ensures err { IfErr result (RefusesEarly bytes.now) }
{
    let Ok(exceeds) = exceed(alloc, docs.as_slice()) else {
        return Err(CodeError::Memory);
    };
    if exceeds {
        return Err(CodeError::Bad {
            rule: 6,
            at: PATH_COUNT as u64,
        });
    }
    let Ok(paths) = paths_of(alloc, docs.as_slice()) else {
        return Err(CodeError::Memory);
    };
    if let Some(at) = wrong_counts(bytes, paths.len(), end) {
        return Err(CodeError::Bad {
            rule: 6,
            at: at as u64,
        });
    }
    match Segment::of_paths(alloc, docs, paths.as_slice()) {
        Ok(segment) => Ok(segment),
        Err(_) => Err(CodeError::Memory),
    }
}

/// The segment of bytes that break no rule. What is built of their documents is compared with them.
pub(crate) fn checked(alloc: Global, bytes: &[u8]) -> Result<Segment, CodeError>
    ensures ok { IfOk result (Accepts bytes.now) }
    ensures err { IfErr result (Refuses bytes.now) }
{
    let DocumentsRead { docs, end } = documents_of(alloc, bytes)?;
    let segment = built(alloc, bytes, docs, end)?;
    match wrong_rest(alloc, segment.table(), segment.text(), bytes, end) {
        Ok(None) => Ok(segment),
        Ok(Some(at)) => Err(CodeError::Bad {
            rule: 7,
            at: at as u64,
        }),
        Err(_) => Err(CodeError::Memory),
    }
}
