//! Small texts, in pairs of hexadecimal digits.
use std::alloc::{AllocError, Global};

/// The paths `ab` with cost 5 and `ac` with cost 3.
pub const FIRST: &str = "
    53475431 00000003 00000003 00000002
    00000000 00000002 00000003
    62 00000002 00000000 00000000
    63 00000000 00000001 00000000
    61 00000003 00000000 00000001";

/// The paths `ab` and `cb`, both with cost 0, with two equal nodes.
pub const SECOND: &str = "
    53475431 00000004 00000004 00000002
    00000000 00000001 00000002 00000004
    62 00000000 00000000 00000000
    62 00000000 00000000 00000000
    61 00000000 00000000 00000001
    63 00000000 00000001 00000002";

/// The paths `xa` with cost 1, `ya` with cost 0 and `yb` with cost 7.
pub const THIRD: &str = "
    53475431 00000004 00000005 00000003
    00000000 00000001 00000003 00000005
    61 00000000 00000000 00000000
    61 00000000 00000000 00000000
    62 00000007 00000001 00000000
    78 00000001 00000000 00000001
    79 00000000 00000001 00000002";

/// The third text with its two inner nodes numbered the other way round.
pub const SWAPPED: &str = "
    53475431 00000004 00000005 00000003
    00000000 00000002 00000003 00000005
    61 00000000 00000000 00000000
    62 00000007 00000001 00000000
    61 00000000 00000000 00000000
    78 00000001 00000000 00000002
    79 00000000 00000001 00000001";

/// A node that no walk from the root reaches.
pub const UNREACHED: &str = "
    53475431 00000004 00000003 00000001
    00000000 00000001 00000002 00000003
    61 00000000 00000000 00000000
    62 00000000 00000000 00000000
    78 00000000 00000000 00000001";

pub const NO_PATH: &str = "53475431 00000000 00000000 00000000";

pub const NO_NODE_BUT_AN_ARC: &str = "
    53475431 00000000 00000001 00000000
    61 00000000 00000000 00000000";

pub const NO_NODE_BUT_A_PATH: &str = "53475431 00000000 00000000 00000001";

pub const ONE_NODE: &str = "53475431 00000001 00000000 00000001 00000000";

fn digit_of(byte: u8) -> Option<u8> {
    match byte {
        b'0'..=b'9' => Some(byte - b'0'),
        b'a'..=b'f' => Some(byte - b'a' + 10),
        _ => None,
    }
}

/// The bytes of pairs of hexadecimal digits, between which blanks may stand.
pub fn bytes_of(alloc: Global, text: &str) -> Result<Vec<u8>, AllocError> {
    let mut bytes = Vec::new(alloc);
    let mut high = None;
    for byte in text.bytes() {
        if let Some(digit) = digit_of(byte) {
            match high {
                None => high = Some(digit),
                Some(first) => {
                    bytes.push(first.wrapping_mul(16).wrapping_add(digit))?;
                    high = None;
                }
            }
        }
    }
    Ok(bytes)
}
