//! The fields of documents, each with its limits.
#![tactic(auto, using(crate::proofs::ReadingLemmas::test_steps))]

ghost use Rattle.std.specs.Prelude.{◌≡◌, ◌≤◌, ◌<◌, IfOk, length};
ghost use Rattle.std.specs.Int.{w8, w16, w32};
ghost use Rattle.sg_base.specs.declared.limits.TheConstants.{MOST_WEIGHT};
ghost use Rattle.sg_paths.specs.declared.limits.TheConstants.{MOST_CONTEXTS, MOST_SUGGESTIONS};
ghost use Rattle.sg_paths.specs.declared.limits.TheConstants.{MOST_ID_BYTES, MOST_TEXT_BYTES};
ghost use Rattle.seg_bytes.specs.Answers.{Reads};
ghost use Rattle.seg_bytes.specs.DocumentsRead.{context_at as context_is, may_be_contexts};
ghost use Rattle.seg_bytes.specs.DocumentsRead.{may_be_id, may_be_key, may_be_suggestions};
ghost use Rattle.seg_bytes.specs.DocumentsRead.{may_be_text, may_be_weight};
ghost use Rattle.seg_bytes.specs.Fields.{number_at, tested, text_at as text_is};

use crate::error::ReadError;
use crate::field::Field;
use crate::fields::{long_at, short_at, u8_at, u32_at};
use crate::texts::{context_of, id_of, key_of, text_of};
use sg_base::{Context, Key, MOST_WEIGHT, Text, Weight};
use sg_paths::{MOST_CONTEXTS, MOST_SUGGESTIONS};
use std::alloc::Global;

pub(crate) fn text_at(alloc: Global, bytes: &[u8], at: usize) -> Result<Field<Text>, ReadError>
    ensures value { Reads (λ t. t) (tested may_be_text (text_is w16) bytes.now at) result }
    ensures most { IfOk result (λ t. length t.value ≤ MOST_TEXT_BYTES) }
{
    let part = long_at(bytes, at)?;
    let text = text_of(alloc, part.value, at)?;
    Ok(Field {
        value: text,
        end: part.end,
    })
}

pub(crate) fn id_at(alloc: Global, bytes: &[u8], at: usize) -> Result<Field<Text>, ReadError>
    ensures value { Reads (λ t. t) (tested may_be_id (text_is w8) bytes.now at) result }
    ensures some { IfOk result (λ t. 0 < length t.value) }
    ensures most { IfOk result (λ t. length t.value ≤ MOST_ID_BYTES) }
{
    let part = short_at(bytes, at)?;
    let id = id_of(alloc, part.value, at)?;
    Ok(Field {
        value: id,
        end: part.end,
    })
}

pub(crate) fn key_at(alloc: Global, bytes: &[u8], at: usize) -> Result<Field<Key>, ReadError>
    ensures value { Reads (λ k. k) (tested may_be_key (text_is w8) bytes.now at) result }
    ensures some { IfOk result (λ k. 0 < length k.value) }
{
    let part = short_at(bytes, at)?;
    let key = key_of(alloc, part.value, at)?;
    Ok(Field {
        value: key,
        end: part.end,
    })
}

pub(crate) fn context_at(
    alloc: Global,
    bytes: &[u8],
    at: usize,
) -> Result<Field<Context>, ReadError>
    ensures { Reads (λ c. c) (context_is bytes.now at) result }
{
    let part = short_at(bytes, at)?;
    let context = context_of(alloc, part.value, at)?;
    Ok(Field {
        value: context,
        end: part.end,
    })
}

pub(crate) fn weight_at(bytes: &[u8], at: usize) -> Result<Field<Weight>, ReadError>
    ensures value { Reads (λ n. n) (tested may_be_weight (number_at w32) bytes.now at) result }
    ensures most { IfOk result (λ n. n.value ≤ MOST_WEIGHT) }
{
    let weight = u32_at(bytes, at)?;
    if weight.value > MOST_WEIGHT {
        return Err(ReadError::bad(at));
    }
    Ok(weight)
}

/// The number of a suggestion's contexts.
pub(crate) fn context_count_at(bytes: &[u8], at: usize) -> Result<Field<u8>, ReadError>
    ensures value { Reads (λ n. n) (tested may_be_contexts (number_at w8) bytes.now at) result }
    ensures most { IfOk result (λ n. n.value ≤ MOST_CONTEXTS) }
{
    let count = u8_at(bytes, at)?;
    if count.value as usize > MOST_CONTEXTS {
        return Err(ReadError::bad(at));
    }
    Ok(count)
}

/// The number of a document's suggestions.
pub(crate) fn suggestion_count_at(bytes: &[u8], at: usize) -> Result<Field<u8>, ReadError>
    ensures value { Reads (λ n. n) (tested may_be_suggestions (number_at w8) bytes.now at) result }
    ensures some { IfOk result (λ n. 0 < n.value) }
    ensures most { IfOk result (λ n. n.value ≤ MOST_SUGGESTIONS) }
{
    let count = u8_at(bytes, at)?;
    if count.value == 0 {
        return Err(ReadError::bad(at));
    }
    if count.value as usize > MOST_SUGGESTIONS {
        return Err(ReadError::bad(at));
    }
    Ok(count)
}
