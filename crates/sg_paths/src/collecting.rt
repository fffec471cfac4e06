//! The paths of documents without their numbers, by document.
ghost use Rattle.std.specs.Prelude.{◌≡◌, ◌≤◌, ◌<◌, ◌+◌, ◌++◌, ◌∷◌, [], cond, map, filter, not};
ghost use Rattle.std.specs.Prelude.{OnOk, IfOk, length, bytes_eq};
ghost use Rattle.std.specs.List.{list_any};
ghost use Rattle.sg_paths.specs.Paths.{contexts_of, paths, entries_from as plain_entries};
ghost use Rattle.sg_paths.specs.declared.limits.TheConstants.{MOST_SEGMENT_DOCUMENTS};
ghost use Rattle.sg_paths.specs.AllPaths.{entry_of, path_entries};
ghost use Rattle.sg_paths.specs.Collected.{in_context, is_kept_over, kept};

use crate::document::Document;
use crate::entry::EntryRef;
use crate::op::Numbered;
use crate::suggestion::Suggestion;
use sg_base::Context;
use std::alloc::{AllocError, Global};

fn holds(contexts: &[Context], context: &Context) -> bool
    ensures { result ≡ list_any (λ c. bytes_eq c context.now) contexts.now }
{
    for other in contexts {
        if other.as_str() == context.as_str() {
            return true;
        }
    }
    false
}

/// What a suggestion has in a context, unless it stands among the earlier ones.
fn add_context<'d>(
    into: &mut Vec<EntryRef<'d>>,
    doc: u32,
    suggestion: &'d Suggestion,
    place: u8,
    earlier: &[Context],
    context: &'d Context,
) -> Result<(), AllocError>
    ensures { OnOk result (into.new.items ≡ into.old.items
        ++ map (in_context doc suggestion.entry.now place)
        (cond (list_any (λ c. bytes_eq c context.entry.now) earlier.now)
        [] (context.entry.now ∷ []))) }
{
    if holds(earlier, context) {
        return Ok(());
    }
    into.push(EntryRef {
        context,
        key: &suggestion.key,
        weight: suggestion.weight,
        doc,
        place,
    })?;
    Ok(())
}

/// What a suggestion has in each of its contexts.
fn add_suggestion<'d>(
    into: &mut Vec<EntryRef<'d>>,
    doc: u32,
    suggestion: &'d Suggestion,
    place: u8,
    empty: &'d Context,
) -> Result<(), AllocError>
    requires { empty.now ≡ [] }
    ensures { OnOk result (into.new.items ≡ into.old.items
        ++ map (in_context doc suggestion.entry.now place)
        (contexts_of suggestion.entry.now.contexts)) }
{
    let contexts = suggestion.contexts.items();
    if contexts.is_empty() {
        into.push(EntryRef {
            context: empty,
            key: &suggestion.key,
            weight: suggestion.weight,
            doc,
            place,
        })?;
        return Ok(());
    }
    for (i, context) in contexts.iter().enumerate() {
        add_context(into, doc, suggestion, place, &contexts[..i], context)?;
    }
    Ok(())
}

/// What each suggestion of a document has.
fn add_suggestions<'d>(
    into: &mut Vec<EntryRef<'d>>,
    doc: u32,
    suggestions: &'d [Suggestion],
    empty: &'d Context,
) -> Result<(), AllocError>
    requires empty { empty.now ≡ [] }
    requires few { length suggestions.now ≤ 16 }
    ensures { OnOk result (into.new.items ≡ into.old.items
        ++ map (entry_of doc) (plain_entries 0 suggestions.entry.now)) }
{
    for (place, suggestion) in suggestions.iter().enumerate() {
        add_suggestion(into, doc, suggestion, place as u8, empty)?;
    }
    Ok(())
}

fn is_kept_over(p: &EntryRef<'_>, q: &EntryRef<'_>) -> bool
    ensures { result ≡ is_kept_over p.now q.now }
{
    p.context.as_str() == q.context.as_str()
        && p.key.as_slice() == q.key.as_slice()
        && (q.weight < p.weight || (p.weight == q.weight && p.place < q.place))
}

fn is_beaten(entries: &[EntryRef<'_>], q: &EntryRef<'_>) -> bool
    ensures { result ≡ list_any (λ p. is_kept_over p q.now) entries.now }
{
    for p in entries {
        if is_kept_over(p, q) {
            return true;
        }
    }
    false
}

/// An entry that borrows the same.
fn same_entry<'d>(entry: &EntryRef<'d>) -> EntryRef<'d>
    ensures { result ≡ entry.now }
{
    EntryRef {
        context: entry.context,
        key: entry.key,
        weight: entry.weight,
        doc: entry.doc,
        place: entry.place,
    }
}

/// An entry over which none is kept.
fn add_unbeaten<'d>(
    into: &mut Vec<EntryRef<'d>>,
    entries: &[EntryRef<'d>],
    entry: &EntryRef<'d>,
) -> Result<(), AllocError>
    ensures { OnOk result (into.new.items ≡ into.old.items
        ++ filter (λ q. not (list_any (λ p. is_kept_over p q) entries.now))
        (entry.now ∷ [])) }
{
    if is_beaten(entries, entry) {
        return Ok(());
    }
    into.push(same_entry(entry))?;
    Ok(())
}

/// The entries over which none is kept.
fn add_kept<'d>(into: &mut Vec<EntryRef<'d>>, entries: &[EntryRef<'d>]) -> Result<(), AllocError>
    ensures { OnOk result (into.new.items ≡ into.old.items ++ kept entries.now) }
{
    for entry in entries {
        add_unbeaten(into, entries, entry)?;
    }
    Ok(())
}

/// The paths of a document; what it had in `raw` is gone.
fn add_document<'d>(
    into: &mut Vec<EntryRef<'d>>,
    raw: &mut Vec<EntryRef<'d>>,
    doc: u32,
    document: &'d Document,
    empty: &'d Context,
) -> Result<(), AllocError>
    requires { empty.now ≡ [] }
    ensures { OnOk result (into.new.items ≡ into.old.items
        ++ map (entry_of doc) (paths document.entry.now)) }
{
    raw.clear();
    add_suggestions(raw, doc, document.suggestions.items(), empty)?;
    add_kept(into, raw.as_slice())?;
    Ok(())
}

/// The paths of all documents, by document.
pub(crate) fn document_entries<'d>(
    alloc: Global,
    docs: &'d [Numbered],
    empty: &'d Context,
) -> Result<Vec<EntryRef<'d>>, AllocError>
    requires empty { empty.now ≡ [] }
    requires few { length docs.now ≤ MOST_SEGMENT_DOCUMENTS }
    ensures { IfOk result (λ entries. entries.items ≡ path_entries 0 docs.entry.now) }
{
    let mut entries = Vec::new(alloc);
    let mut raw = Vec::new(alloc);
    for (doc, numbered) in docs.iter().enumerate() {
        add_document(
            &mut entries,
            &mut raw,
            doc as u32,
            &numbered.document,
            empty,
        )?;
    }
    Ok(entries)
}
