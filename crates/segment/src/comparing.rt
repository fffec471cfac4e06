//! The rules of what stands behind the documents.
ghost use Rattle.std.specs.Prelude.{◌≡◌, ◌≤◌, ◌+◌, not, bytes_eq, drop, length, IfOk, IfSome};
ghost use Rattle.fst_code.specs.Rules.{broken_if, common};
ghost use Rattle.fst_code.specs.Shapes.{IsBytes};
ghost use Rattle.seg_bytes.specs.Fields.{reads};
ghost use Rattle.segment.specs.SegmentBytes.{rest_bytes};
ghost use Rattle.segment.specs.Rules.{rule_6, rule_7};

use crate::header::{common_front, number_in_eight, number_in_four};
use crate::layout::{DOCUMENT_COUNT, OWNER, PATH_COUNT, PLACE, TEXT_LENGTH};
use crate::writing::put_rest;
use seg_table::SegTable;
use std::alloc::{AllocError, Global};

/// The header's count of paths, or the end of the bytes, where these aren't as the header says.
pub(crate) fn wrong_counts(bytes: &[u8], paths: usize, end: usize) -> Option<usize>
    requires header { 20 ≤ length bytes.now }
    requires within { end ≤ length bytes.now }
    ensures { result ≡ rule_6 paths end bytes.now }
{
    let count = number_in_four(bytes, PATH_COUNT) as usize;
    let places = number_in_four(bytes, DOCUMENT_COUNT) as usize;
    if count != paths {
        return Some(PATH_COUNT);
    }
    let table = OWNER * count + PLACE * places;
    let text = number_in_eight(bytes, TEXT_LENGTH);
    let rest = bytes.len() - end;
    if rest >= table && (rest - table) as u64 == text {
        None
    } else {
        Some(bytes.len())
    }
}

/// The first byte that differs, or where the shorter one ends.
fn first_difference(wanted: &[u8], given: &[u8]) -> Option<usize>
    ensures value { result ≡ broken_if (not (bytes_eq wanted.now given.now))
        (common wanted.now given.now) }
    ensures within { IfSome result (λ at. at ≤ length given.now) }
{
    if wanted == given {
        None
    } else {
        Some(common_front(wanted, given))
    }
}

/// Where what stands behind the documents differs from what they give, with the bytes of their
/// transducer.
pub(crate) fn wrong_rest(
    alloc: Global,
    table: &SegTable,
    text: &[u8],
    bytes: &[u8],
    end: usize,
) -> Result<Option<usize>, AllocError>
    requires { end ≤ length bytes.now }
    ensures { IfOk result (λ at. at ≡ rule_7 (reads table.now end) text.now bytes.now) }
{
    let mut rest = Vec::with_capacity(alloc, bytes.len() - end)?;
    put_rest(&mut rest, table, text)?;
    match first_difference(rest.as_slice(), &bytes[end..]) {
        None => Ok(None),
        Some(same) => Ok(Some(end + same)),
    }
}
