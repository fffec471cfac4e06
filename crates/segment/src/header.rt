//! The rules of the header.
ghost use Rattle.std.specs.Prelude.{◌≡◌, ◌≤◌, ◌+◌, length};
ghost use Rattle.std.specs.Int.{w32, w64};
ghost use Rattle.fst_code.specs.Bytes.{number_at};
ghost use Rattle.fst_code.specs.Rules.{common};
ghost use Rattle.segment.specs.Rules.{header_broken, rule_1, rule_2, rule_3};

use crate::layout::{DOCUMENT_COUNT, HEADER, PATH_COUNT};
use sg_paths::{MOST_SEGMENT_DOCUMENTS, MOST_SEGMENT_PATHS};

/// The number in four bytes, the greatest first.
pub(crate) fn number_in_four(bytes: &[u8], at: usize) -> u32
    requires { at + 4 ≤ length bytes.now }
    ensures { result ≡ number_at w32 at bytes.now }
{
    u32::from_be_bytes([bytes[at], bytes[at + 1], bytes[at + 2], bytes[at + 3]])
}

/// The number in eight bytes, the greatest first.
pub(crate) fn number_in_eight(bytes: &[u8], at: usize) -> u64
    requires { at + 8 ≤ length bytes.now }
    ensures { result ≡ number_at w64 at bytes.now }
{
    u64::from_be_bytes([
        bytes[at],
        bytes[at + 1],
        bytes[at + 2],
        bytes[at + 3],
        bytes[at + 4],
        bytes[at + 5],
        bytes[at + 6],
        bytes[at + 7],
    ])
}

/// How many bytes at the front of both are the same.
pub(crate) fn common_front(wanted: &[u8], given: &[u8]) -> usize
    ensures value { result ≡ common wanted.now given.now }
    ensures wanted { result ≤ length wanted.now }
    ensures given { result ≤ length given.now }
{
    let least = wanted.len().min(given.len());
    for i in 0..least {
        if wanted[i] != given[i] {
            return i;
        }
    }
    least
}

/// Where bytes end that have no whole header.
fn missing_header(bytes: &[u8]) -> Option<usize>
    ensures { result ≡ rule_1 bytes.now }
{
    if bytes.len() < HEADER {
        Some(bytes.len())
    } else {
        None
    }
}

/// The first byte that isn't that of the name.
fn wrong_name(bytes: &[u8]) -> Option<usize>
    ensures { result ≡ rule_2 bytes.now }
{
    let same = common_front(b"SGS1", bytes);
    if same < 4 { Some(same) } else { None }
}

/// The count that is over its limit.
fn great_count(bytes: &[u8]) -> Option<usize>
    requires { 20 ≤ length bytes.now }
    ensures { result ≡ rule_3 bytes.now }
{
    if number_in_four(bytes, DOCUMENT_COUNT) as u64 > MOST_SEGMENT_DOCUMENTS {
        Some(DOCUMENT_COUNT)
    } else if number_in_four(bytes, PATH_COUNT) as u64 > MOST_SEGMENT_PATHS {
        Some(PATH_COUNT)
    } else {
        None
    }
}

/// The first broken rule of the header, and its offset.
pub(crate) fn header_fault(bytes: &[u8]) -> Option<(u8, usize)>
    ensures { result ≡ header_broken bytes.now }
{
    if let Some(at) = missing_header(bytes) {
        return Some((1, at));
    }
    if let Some(at) = wrong_name(bytes) {
        return Some((2, at));
    }
    if let Some(at) = great_count(bytes) {
        return Some((3, at));
    }
    None
}
