//! The rule of documents' numbers.
ghost use Rattle.std.specs.Prelude.{◌≡◌, ◌+◌, ◌^◌, ◌<◌, ◌&&◌, nat_le, nat_lt, length};
ghost use Rattle.seg_bytes.specs.DocumentBytes.{documents_bytes};
ghost use Rattle.seg_bytes.specs.Numbers.{wrong_number};

use crate::lengths::document_len;
use crate::limits::MOST_SEQ;
use sg_paths::Numbered;

fn may_follow(last: u64, seq: u64) -> bool
    ensures { result ≡ (nat_lt last seq && nat_le seq MOST_SEQ) }
{
    last < seq && seq <= MOST_SEQ
}

/// Where the first number stands that doesn't rise or isn't 1 to `MOST_SEQ`, of documents whose
/// bytes begin at an offset.
pub fn misplaced_number(docs: &[Numbered], at: usize) -> Option<usize>
    requires { at + length (documents_bytes docs.now) < 2 ^ 64 }
    ensures { result ≡ wrong_number at docs.now }
{
    let mut last = 0;
    let mut start = at;
    for numbered in docs {
        let seq = numbered.seq;
        if !may_follow(last, seq) {
            return Some(start);
        }
        last = seq;
        start += document_len(numbered);
    }
    None
}
