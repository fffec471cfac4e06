//! Commands of lines without an error.
ghost use Rattle.std.specs.Prelude.{◌≡◌, ◌<◌, ◌≤◌, false, true, IfOk, length, map};
ghost use Rattle.std.specs.Prelude.{Some, [], ◌∷◌, is_none, option_map, unwrap_or};
ghost use Rattle.sg_base.specs.declared.limits.TheConstants.{MOST_WEIGHT};
ghost use Rattle.std.specs.List.{filter_map, list_any, list_all};
ghost use Rattle.serde_json.specs.View.{view};
ghost use Rattle.sg_paths.specs.Documents.{is_id};
ghost use Rattle.sg_paths.specs.Operations.{plain_op};
ghost use Rattle.sg_paths.specs.declared.limits.TheConstants.{MOST_TEXT_BYTES, MOST_CONTEXTS};
ghost use Rattle.sg_paths.specs.declared.limits.TheConstants.{MOST_SUGGESTIONS};
ghost use Rattle.wire_json.specs.Suggested.{is_reserved_context, is_context_text};
ghost use Rattle.wire_json.specs.declared.limits.TheConstants.{DEFAULT_K};
ghost use Rattle.wire_json.specs.Suggested.{has_context_length, has_reserved_byte, context_given};
ghost use Rattle.wire_json.specs.Asked.{is_query_context, asks_for_reserved_context};
ghost use Rattle.wire_json.specs.Asked.{has_wrong_boost, rows_asked};
ghost use Rattle.wire_json.specs.Asked.{query_context_of};
ghost use Rattle.wire_json.specs.Commands.{suggestion_by, operation_by, key_or_empty};
ghost use Rattle.wire_json.specs.EntryForms.{plain_entry};
ghost use Rattle.wire_json.specs.ReadyForms.{IsReady, AreReady, AreKeys, AreAsked, suggestions_by};

use crate::asked::{boost_asked, context_asked, prefix_flag, rows_asked};
use crate::forms::Change;
use crate::keys::Keyed;
use crate::suggested::{Entry, contexts, weight};
use serde_json::Value;
use sg_base::{Context, ContextError, Key, Text, Weight};
use sg_context::{Query, QueryContext};
use sg_paths::{Document, Op, Suggestion};
use std::alloc::{AllocError, Global};

// The context of a text that is one.
fn context_of(alloc: Global, text: &str) -> Result<Context, AllocError>
    requires fits { has_context_length text.now ≡ true }
    requires not_reserved { has_reserved_byte text.now ≡ false }
    ensures { IfOk result (λ c. c ≡ text.now) }
{
    match Context::new(alloc, text) {
        Ok(context) => Ok(context),
        Err(ContextError::Memory) => Err(AllocError),
        Err(_) => unreachable!(),
    }
}

// The context of a value that is one.
fn context(alloc: Global, given: &Value) -> Result<Context, AllocError>
    requires fits { is_context_text (view given.now) ≡ true }
    requires not_reserved { is_reserved_context (view given.now) ≡ false }
    ensures { IfOk result (λ c. context_given (view given.now) ≡ Some c) }
{
    let Some(text) = given.as_str() else {
        unreachable!();
    };
    context_of(alloc, text)
}

// The contexts of texts that are each one.
fn contexts_of(alloc: Global, given: &[Value]) -> Result<Vec<Context>, AllocError>
    requires fit { list_all is_context_text (map view given.now) ≡ true }
    requires not_reserved { list_any is_reserved_context (map view given.now) ≡ false }
    ensures value { IfOk result (λ cs. cs.items ≡ filter_map context_given (map view given.now)) }
    ensures count { IfOk result (λ cs. length cs.items ≡ length given.now) }
{
    let mut contexts = Vec::with_capacity(alloc, given.len())?;
    for value in given {
        contexts.push(context(alloc, value)?)?;
    }
    Ok(contexts)
}

// A suggestion within its limits.
fn make_suggestion(
    alloc: Global,
    text: &str,
    key: Key,
    weight: Weight,
    contexts: Vec<Context>,
) -> Result<Suggestion, AllocError>
    requires text { length text.now ≤ MOST_TEXT_BYTES }
    requires filled { 0 < length key }
    requires weight { weight ≤ MOST_WEIGHT }
    requires contexts { length contexts.items ≤ MOST_CONTEXTS }
    ensures { IfOk result (λ s. s ≡ record {
      text = text.now;
      key = key;
      weight = weight;
      contexts = contexts.items;
    }) }
{
    let text = Text::of(alloc, text)?;
    let Ok(suggestion) = Suggestion::new(text, key, weight, contexts) else {
        unreachable!();
    };
    Ok(suggestion)
}

// The suggestion of an entry with its key.
fn suggestion(alloc: Global, entry: &Entry<'_>, key: Keyed) -> Result<Suggestion, AllocError>
    requires { IsReady (plain_entry entry.now) key }
    ensures { IfOk result (λ s. s ≡ suggestion_by (plain_entry entry.now) key) }
{
    let Ok(key) = key else {
        unreachable!();
    };
    let Some(weight) = weight(entry.given) else {
        unreachable!();
    };
    let contexts = contexts_of(alloc, contexts(entry.given))?;
    make_suggestion(alloc, entry.text, key, weight, contexts)
}

// The suggestions of entries with their keys.
fn suggestions(
    alloc: Global,
    entries: &[Entry<'_>],
    keys: Vec<Keyed>,
) -> Result<Vec<Suggestion>, AllocError>
    requires { AreReady (map plain_entry entries.now) keys.items }
    ensures value { IfOk result (λ ss. ss.items
        ≡ suggestions_by (map plain_entry entries.now) keys.items) }
    ensures count { IfOk result (λ ss. length ss.items ≡ length entries.now) }
{
    let mut suggestions = Vec::with_capacity(alloc, entries.len())?;
    let mut rest = keys.into_iter();
    for entry in entries {
        let Some(key) = rest.next() else {
            unreachable!();
        };
        suggestions.push(suggestion(alloc, entry, key)?)?;
    }
    Ok(suggestions)
}

/// The document of entries with their keys, under an id.
pub fn document(
    alloc: Global,
    id: &str,
    entries: &[Entry<'_>],
    keys: Vec<Keyed>,
) -> Result<Document, AllocError>
    requires id { is_id id.now ≡ true }
    requires some { 0 < length entries.now }
    requires most { length entries.now ≤ MOST_SUGGESTIONS }
    requires ready { AreReady (map plain_entry entries.now) keys.items }
    ensures { IfOk result (λ d. d ≡ record {
      id = id.now;
      suggestions = suggestions_by (map plain_entry entries.now) keys.items;
    }) }
{
    let suggestions = suggestions(alloc, entries, keys)?;
    let id = Text::of(alloc, id)?;
    let Ok(document) = Document::new(id, suggestions) else {
        unreachable!();
    };
    Ok(document)
}

/// A document that comes in.
pub fn operation(how: Change, document: Document) -> Op
    ensures { plain_op result ≡ operation_by how document }
{
    match how {
        Change::Add => Op::Add(document),
        Change::Update => Op::Update(document),
    }
}

// A query context without an error.
fn query_context(alloc: Global, value: &Value) -> Result<QueryContext, AllocError>
    requires asked { is_query_context (view value.now) ≡ true }
    requires not_reserved { asks_for_reserved_context (view value.now) ≡ false }
    requires boost { has_wrong_boost (view value.now) ≡ false }
    ensures { IfOk result (λ q. q ≡ query_context_of (view value.now)) }
{
    let Some(text) = context_asked(value) else {
        unreachable!();
    };
    let Some(boost) = boost_asked(value) else {
        unreachable!();
    };
    let Some(prefix) = prefix_flag(value) else {
        unreachable!();
    };
    let context = context_of(alloc, text)?;
    let Ok(query_context) = QueryContext::new(context, boost, prefix) else {
        unreachable!();
    };
    Ok(query_context)
}

fn query_contexts(alloc: Global, values: &[Value]) -> Result<Vec<QueryContext>, AllocError>
    requires { AreAsked (map view values.now) }
    ensures { IfOk result (λ qs. qs.items ≡ map query_context_of (map view values.now)) }
{
    let mut query_contexts = Vec::with_capacity(alloc, values.len())?;
    for value in values {
        query_contexts.push(query_context(alloc, value)?)?;
    }
    Ok(query_contexts)
}

/// The query for a prefix with this key.
pub fn query(
    alloc: Global,
    key: Keyed,
    k: Option<&Value>,
    contexts: &[Value],
) -> Result<Query, AllocError>
    requires key { AreKeys (key ∷ []) }
    requires contexts { AreAsked (map view contexts.now) }
    requires rows { is_none (rows_asked (option_map (λ v. view v.now) k)) ≡ false }
    ensures { IfOk result (λ q. q ≡ record {
      prefix = key_or_empty key;
      contexts = map query_context_of (map view contexts.now);
      k = unwrap_or (rows_asked (option_map (λ v. view v.now) k.entry)) DEFAULT_K;
    }) }
{
    let Ok(prefix) = key else {
        unreachable!();
    };
    let Some(rows) = rows_asked(k) else {
        unreachable!();
    };
    let contexts = query_contexts(alloc, contexts)?;
    let Ok(query) = Query::new(prefix, contexts, rows) else {
        unreachable!();
    };
    Ok(query)
}
