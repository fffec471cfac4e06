//! The characters of a text that are read, in NFKC and with their case folded.
ghost use Rattle.std.specs.Prelude.{◌≡◌, IfOk, chars, encode_utf8_all, string_bytes, take};
ghost use Rattle.unicode_normalization.specs.Forms.{nfkc};
ghost use Rattle.caseless.specs.Caseless.{default_case_fold};
ghost use Rattle.sg_analysis.specs.Analysis.{folded_characters, AreLimits};

use caseless::default_case_fold_str;
use std::alloc::{AllocError, Global};
use unicode_normalization::to_nfkc;

/// How many Unicode scalar values of an input are read.
pub const MOST_INPUT_CHARS: usize = 50;

/// The limit is the number that is documented.
pub fn limits_are_exact()
    ensures { AreLimits }
{}

fn front_of(alloc: Global, text: &str) -> Result<String, AllocError>
    ensures { IfOk result
        (λ s. string_bytes s ≡ encode_utf8_all (take MOST_INPUT_CHARS (chars text.now))) }
{
    text.chars().take(MOST_INPUT_CHARS).collect(alloc)
}

fn normalize_and_fold(alloc: Global, text: &str) -> Result<String, AllocError>
    ensures { IfOk result
        (λ s. string_bytes s ≡ encode_utf8_all (default_case_fold (nfkc (chars text.now)))) }
{
    let normalized = to_nfkc(alloc, text)?;
    default_case_fold_str(alloc, normalized.as_str())
}

/// The characters that are read, in NFKC and with their case folded.
pub fn folded_text(alloc: Global, text: &str, cut: bool) -> Result<String, AllocError>
    ensures { IfOk result (λ s. string_bytes s ≡ encode_utf8_all (folded_characters text.now cut)) }
{
    if cut {
        let front = front_of(alloc, text)?;
        normalize_and_fold(alloc, front.as_str())
    } else {
        normalize_and_fold(alloc, text)
    }
}
