//! Documents as bytes.
ghost use Rattle.std.specs.Prelude.{◌≡◌, ◌≤◌, ◌<◌, ◌+◌, ◌++◌, OnErr, OnOk, length};
ghost use Rattle.std.specs.Vec.{vec_capacity};
ghost use Rattle.std.specs.Int.{to_be_bytes, w16, w32, w64};
ghost use Rattle.std.specs.List.{flat_map};
ghost use Rattle.sg_paths.specs.declared.limits.TheConstants.{MOST_SEGMENT_DOCUMENTS};
ghost use Rattle.seg_bytes.specs.DocumentBytes.{document_bytes, documents_bytes, short_bytes};
ghost use Rattle.seg_bytes.specs.DocumentBytes.{suggestion_bytes};
ghost use Rattle.seg_bytes.specs.DocumentsRead.{documents_at};
ghost use Rattle.seg_bytes.specs.Laws.{IsReadBack};

use crate::lengths::documents_len;
use sg_base::Context;
use sg_paths::{Numbered, Suggestion};
use std::alloc::AllocError;

fn put_u16(out: &mut Vec<u8>, number: u16) -> Result<(), AllocError>
    ensures appended { OnOk result (out.new.items ≡ out.old.items ++ to_be_bytes w16 number) }
    ensures room { vec_capacity out.old ≤ vec_capacity out.new }
    ensures full { OnErr result (vec_capacity out.old < length out.old.items + 2) }
{
    out.extend_from_slice(&number.to_be_bytes())
}

fn put_u32(out: &mut Vec<u8>, number: u32) -> Result<(), AllocError>
    ensures appended { OnOk result (out.new.items ≡ out.old.items ++ to_be_bytes w32 number) }
    ensures room { vec_capacity out.old ≤ vec_capacity out.new }
    ensures full { OnErr result (vec_capacity out.old < length out.old.items + 4) }
{
    out.extend_from_slice(&number.to_be_bytes())
}

fn put_u64(out: &mut Vec<u8>, number: u64) -> Result<(), AllocError>
    ensures appended { OnOk result (out.new.items ≡ out.old.items ++ to_be_bytes w64 number) }
    ensures room { vec_capacity out.old ≤ vec_capacity out.new }
    ensures full { OnErr result (vec_capacity out.old < length out.old.items + 8) }
{
    out.extend_from_slice(&number.to_be_bytes())
}

/// Appends bytes behind their length.
fn put_short(out: &mut Vec<u8>, bytes: &[u8]) -> Result<(), AllocError>
    requires { length bytes.now ≤ 255 }
    ensures appended { OnOk result (out.new.items ≡ out.old.items ++ short_bytes bytes.now) }
    ensures room { vec_capacity out.old ≤ vec_capacity out.new }
    ensures full { OnErr result (vec_capacity out.old
        < length out.old.items + (1 + length bytes.now)) }
{
    out.push(bytes.len() as u8)?;
    out.extend_from_slice(bytes)
}

fn put_context(out: &mut Vec<u8>, context: &Context) -> Result<(), AllocError>
    ensures appended { OnOk result (out.new.items ≡ out.old.items ++ short_bytes context.now) }
    ensures room { vec_capacity out.old ≤ vec_capacity out.new }
    ensures full { OnErr result (vec_capacity out.old
        < length out.old.items + length (short_bytes context.now)) }
{
    put_short(out, context.as_str().as_bytes())
}

fn put_contexts(out: &mut Vec<u8>, contexts: &[Context]) -> Result<(), AllocError>
    ensures appended { OnOk result (out.new.items
        ≡ out.old.items ++ flat_map short_bytes contexts.now) }
    ensures room { vec_capacity out.old ≤ vec_capacity out.new }
    ensures full { OnErr result (vec_capacity out.old
        < length out.old.items + length (flat_map short_bytes contexts.now)) }
{
    for context in contexts {
        put_context(out, context)?;
    }
    Ok(())
}

#[tactic(auto, unfolding(crate::specs::DocumentBytes::suggestion_bytes))]
fn put_suggestion(out: &mut Vec<u8>, suggestion: &Suggestion) -> Result<(), AllocError>
    ensures appended { OnOk result (out.new.items
        ≡ out.old.items ++ suggestion_bytes suggestion.now) }
    ensures room { vec_capacity out.old ≤ vec_capacity out.new }
    ensures full { OnErr result (vec_capacity out.old
        < length out.old.items + length (suggestion_bytes suggestion.now)) }
{
    let text = suggestion.text.as_str().as_bytes();
    let contexts = suggestion.contexts.items();
    put_u16(out, text.len() as u16)?;
    out.extend_from_slice(text)?;
    put_short(out, suggestion.key.as_slice())?;
    put_u32(out, suggestion.weight)?;
    out.push(contexts.len() as u8)?;
    put_contexts(out, contexts)
}

fn put_suggestions(out: &mut Vec<u8>, suggestions: &[Suggestion]) -> Result<(), AllocError>
    ensures appended { OnOk result (out.new.items
        ≡ out.old.items ++ flat_map suggestion_bytes suggestions.now) }
    ensures room { vec_capacity out.old ≤ vec_capacity out.new }
    ensures full { OnErr result (vec_capacity out.old
        < length out.old.items + length (flat_map suggestion_bytes suggestions.now)) }
{
    for suggestion in suggestions {
        put_suggestion(out, suggestion)?;
    }
    Ok(())
}

#[tactic(auto, unfolding(crate::specs::DocumentBytes::document_bytes))]
fn put_document(out: &mut Vec<u8>, numbered: &Numbered) -> Result<(), AllocError>
    ensures appended { OnOk result (out.new.items ≡ out.old.items ++ document_bytes numbered.now) }
    ensures room { vec_capacity out.old ≤ vec_capacity out.new }
    ensures full { OnErr result (vec_capacity out.old
        < length out.old.items + length (document_bytes numbered.now)) }
{
    let document = &numbered.document;
    let suggestions = document.suggestions.items();
    put_u64(out, numbered.seq)?;
    put_short(out, document.id.as_str().as_bytes())?;
    out.push(suggestions.len() as u8)?;
    put_suggestions(out, suggestions)
}

fn put_each(out: &mut Vec<u8>, docs: &[Numbered]) -> Result<(), AllocError>
    ensures appended { OnOk result (out.new.items ≡ out.old.items ++ documents_bytes docs.now) }
    ensures room { vec_capacity out.old ≤ vec_capacity out.new }
    ensures full { OnErr result (vec_capacity out.old
        < length out.old.items + length (documents_bytes docs.now)) }
{
    for numbered in docs {
        put_document(out, numbered)?;
    }
    Ok(())
}

/// Appends documents. Takes its room at once, and none where there is enough. They are read back
/// wherever their bytes stand.
pub fn put_documents(out: &mut Vec<u8>, docs: &[Numbered]) -> Result<(), AllocError>
    requires { length docs.now ≤ MOST_SEGMENT_DOCUMENTS }
    ensures appended { OnOk result (out.new.items ≡ out.old.items ++ documents_bytes docs.now) }
    ensures read_back { OnOk result
        (IsReadBack (documents_at (length docs.now)) (documents_bytes docs.now) docs.now) }
    ensures unchanged { OnErr result (out.new.items ≡ out.old.items) }
    ensures room { vec_capacity out.old ≤ vec_capacity out.new }
    ensures full { OnErr result (vec_capacity out.old
        < length out.old.items + length (documents_bytes docs.now)) }
{
    let bytes = documents_len(docs);
    out.reserve(bytes)?;
    put_each(out, docs)
}
