//! Documents from bytes.
ghost use Rattle.std.specs.Prelude.{◌≡◌, IfOk, length};
ghost use Rattle.seg_bytes.specs.Answers.{Reads};
ghost use Rattle.seg_bytes.specs.DocumentsRead.{context_at as context_is};
ghost use Rattle.seg_bytes.specs.DocumentsRead.{document_at as document_is};
ghost use Rattle.seg_bytes.specs.DocumentsRead.{suggestion_at as suggestion_is};
ghost use Rattle.seg_bytes.specs.Fields.{many_at};

use crate::error::ReadError;
use crate::field::Field;
use crate::fields::u64_at;
use crate::pushing::push;
use crate::values::{
    context_at, context_count_at, id_at, key_at, suggestion_count_at, text_at, weight_at,
};
use sg_base::{Context, List};
use sg_paths::{Document, Numbered, Suggestion};
use std::alloc::Global;

fn contexts_at(
    alloc: Global,
    bytes: &[u8],
    at: usize,
    count: u8,
) -> Result<Field<Vec<Context>>, ReadError>
    ensures value { Reads (λ v. v.items) (many_at context_is count bytes.now at) result }
    ensures count { IfOk result (λ v. length v.value.items ≡ count) }
{
    let mut contexts = Vec::new(alloc);
    let mut end = at;
    for _ in 0..count {
        let context = context_at(alloc, bytes, end)?;
        push(&mut contexts, context.value)?;
        end = context.end;
    }
    Ok(Field {
        value: contexts,
        end,
    })
}

fn suggestion_at(alloc: Global, bytes: &[u8], at: usize) -> Result<Field<Suggestion>, ReadError>
    ensures { Reads (λ s. s) (suggestion_is bytes.now at) result }
{
    let text = text_at(alloc, bytes, at)?;
    let key = key_at(alloc, bytes, text.end)?;
    let weight = weight_at(bytes, key.end)?;
    let count = context_count_at(bytes, weight.end)?;
    let contexts = contexts_at(alloc, bytes, count.end, count.value)?;
    let suggestion = Suggestion {
        text: text.value,
        key: key.value,
        weight: weight.value,
        contexts: List::of(contexts.value),
    };
    Ok(Field {
        value: suggestion,
        end: contexts.end,
    })
}

fn suggestions_at(
    alloc: Global,
    bytes: &[u8],
    at: usize,
    count: u8,
) -> Result<Field<Vec<Suggestion>>, ReadError>
    ensures value { Reads (λ v. v.items) (many_at suggestion_is count bytes.now at) result }
    ensures count { IfOk result (λ v. length v.value.items ≡ count) }
{
    let mut suggestions = Vec::new(alloc);
    let mut end = at;
    for _ in 0..count {
        let suggestion = suggestion_at(alloc, bytes, end)?;
        push(&mut suggestions, suggestion.value)?;
        end = suggestion.end;
    }
    Ok(Field {
        value: suggestions,
        end,
    })
}

/// A document with its number.
pub(crate) fn document_at(
    alloc: Global,
    bytes: &[u8],
    at: usize,
) -> Result<Field<Numbered>, ReadError>
    ensures { Reads (λ d. d) (document_is bytes.now at) result }
{
    let seq = u64_at(bytes, at)?;
    let id = id_at(alloc, bytes, seq.end)?;
    let count = suggestion_count_at(bytes, id.end)?;
    let suggestions = suggestions_at(alloc, bytes, count.end, count.value)?;
    let document = Document {
        id: id.value,
        suggestions: List::of(suggestions.value),
    };
    Ok(Field {
        value: Numbered {
            seq: seq.value,
            document,
        },
        end: suggestions.end,
    })
}
