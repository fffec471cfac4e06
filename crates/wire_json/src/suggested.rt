//! The suggestions of a line, as they are given.
ghost use Rattle.std.specs.Prelude.{◌≡◌, ◌≤◌, ◌++◌, IfOk, IfSome, OnOk, map, option_map};
ghost use Rattle.std.specs.Prelude.{option_to_list, option_and_then};
ghost use Rattle.std.specs.List.{list_all, list_any, filter_map};
ghost use Rattle.serde_json.specs.View.{view};
ghost use Rattle.serde_json.specs.Find.{as_str};
ghost use Rattle.sg_base.specs.declared.limits.TheConstants.{MOST_WEIGHT};
ghost use Rattle.wire_json.specs.Members.{is_text};
ghost use Rattle.wire_json.specs.Suggested.{input_of, is_suggestion, texts_of, entry_of};
ghost use Rattle.wire_json.specs.Suggested.{entries_in, entries_of};
ghost use Rattle.wire_json.specs.Suggested.{are_digits, number_of_digits, weight_upto};
ghost use Rattle.wire_json.specs.Suggested.{weight_given};
ghost use Rattle.wire_json.specs.Suggested.{weight_of, contexts_given, has_reserved_byte};
ghost use Rattle.wire_json.specs.Suggested.{has_context_length};
ghost use Rattle.wire_json.specs.Suggested.{is_reserved_context, is_context_text, is_digit};
ghost use Rattle.wire_json.specs.Suggested.{has_wrong_weight, has_reserved_context};
ghost use Rattle.wire_json.specs.Suggested.{has_wrong_contexts};
ghost use Rattle.wire_json.specs.EntryForms.{plain_entry};

use crate::limits::{DEFAULT_WEIGHT, MOST_WEIGHT_DIGITS};
use crate::members::{is_text, listed, listed_at, member, whole};
use serde_json::Value;
use sg_base::{MOST_CONTEXT_BYTES, MOST_WEIGHT, Weight, first_reserved};
use sg_paths::MOST_CONTEXTS;
use std::alloc::{AllocError, Global};

/// A text to suggest, with the suggestion in which it is given.
#[derive(Clone, Copy)]
pub struct Entry<'v> {
    pub text: &'v str,
    pub given: &'v Value,
}

// The input of a suggestion: a text is its own, an object has a member.
fn input(value: &Value) -> Option<&Value>
    ensures { option_map (λ v. view v.now) result ≡ input_of (view value.now) }
{
    if value.is_string() {
        Some(value)
    } else {
        member(value, "input")
    }
}

fn inputs(value: &Value) -> &[Value]
    ensures { filter_map as_str (map view result.now) ≡ texts_of (view value.now) }
{
    match input(value) {
        Some(input) => listed(input),
        None => &[],
    }
}

fn are_texts(values: &[Value]) -> bool
    ensures { result ≡ list_all is_text (map view values.now) }
{
    values.iter().all(|value| is_text(value))
}

// Whether it has an input, a text or a list of texts.
fn is_suggestion(value: &Value) -> bool
    ensures { result ≡ is_suggestion (view value.now) }
{
    match input(value) {
        Some(input) => are_texts(listed(input)),
        None => false,
    }
}

fn push_entry<'v>(
    entries: &mut Vec<Entry<'v>>,
    given: &'v Value,
    input: &'v Value,
) -> Result<(), AllocError>
    ensures { OnOk result (map plain_entry entries.new.items ≡ map plain_entry entries.old.items
        ++ option_to_list (option_map (entry_of (view given.now)) (as_str (view input.now)))) }
{
    if let Some(text) = input.as_str() {
        entries.push(Entry { text, given })?;
    }
    Ok(())
}

fn push_entries<'v>(entries: &mut Vec<Entry<'v>>, given: &'v Value) -> Result<(), AllocError>
    ensures { OnOk result (map plain_entry entries.new.items
        ≡ map plain_entry entries.old.items ++ entries_in (view given.now)) }
{
    for input in inputs(given) {
        push_entry(entries, given, input)?;
    }
    Ok(())
}

/// One entry a text, in order over all suggestions.
pub fn entries(alloc: Global, suggestions: &[Value]) -> Result<Vec<Entry<'_>>, AllocError>
    ensures { IfOk result (λ es. map plain_entry es.items
        ≡ entries_of (map view suggestions.entry.now)) }
{
    let mut entries = Vec::new(alloc);
    for given in suggestions {
        push_entries(&mut entries, given)?;
    }
    Ok(entries)
}

fn is_digit(byte: u8) -> bool
    ensures { result ≡ is_digit byte }
{
    b'0' <= byte && byte <= b'9'
}

fn are_all_digits(bytes: &[u8]) -> bool
    ensures { result ≡ list_all is_digit bytes.now }
{
    bytes.iter().all(|byte| is_digit(*byte))
}

// 1 to 20 ASCII digits.
fn are_digits(text: &str) -> bool
    ensures { result ≡ are_digits text.now }
{
    1 <= text.len() && text.len() <= MOST_WEIGHT_DIGITS && are_all_digits(text.as_bytes())
}

// The number that a text of digits writes, where it is a weight.
fn weight_of_digits(text: &str) -> Option<Weight>
    ensures { result ≡ option_and_then weight_upto (number_of_digits text.now) }
{
    if !are_digits(text) {
        return None;
    }
    match text.parse::<Weight>() {
        Ok(weight) => {
            if weight <= MOST_WEIGHT {
                Some(weight)
            } else {
                None
            }
        }
        Err(_) => None,
    }
}

fn weight_of_number(number: u64) -> Option<Weight>
    ensures { result ≡ weight_upto number }
{
    if number <= u64::from(MOST_WEIGHT) {
        Some(number as Weight)
    } else {
        None
    }
}

// A weight as it is given: a whole number or digits.
fn weight_given(value: &Value) -> Option<Weight>
    ensures { result ≡ weight_given (view value.now) }
{
    if let Some(number) = whole(value) {
        return weight_of_number(number);
    }
    match value.as_str() {
        Some(text) => weight_of_digits(text),
        None => None,
    }
}

/// The weight of a suggestion, where it is within its limits; `DEFAULT_WEIGHT` where it is absent.
pub fn weight(suggestion: &Value) -> Option<Weight>
    ensures value { result ≡ weight_of (view suggestion.now) }
    ensures most { IfSome result (λ w. w ≤ MOST_WEIGHT) }
{
    match member(suggestion, "weight") {
        Some(given) => weight_given(given),
        None => Some(DEFAULT_WEIGHT),
    }
}

/// The contexts of a suggestion, as they are given.
pub fn contexts(suggestion: &Value) -> &[Value]
    ensures { map view result.now ≡ contexts_given (view suggestion.now) }
{
    listed_at(suggestion, "contexts")
}

/// Whether a byte of a text structures paths.
pub fn has_reserved_byte(text: &str) -> bool
    ensures { result ≡ has_reserved_byte text.now }
{
    first_reserved(text.as_bytes()).is_some()
}

/// Whether a text has at most the bytes of a context.
pub fn has_context_length(text: &str) -> bool
    ensures { result ≡ has_context_length text.now }
{
    text.len() <= MOST_CONTEXT_BYTES
}

fn is_reserved_context(value: &Value) -> bool
    ensures { result ≡ is_reserved_context (view value.now) }
{
    match value.as_str() {
        Some(text) => has_reserved_byte(text),
        None => false,
    }
}

fn is_context_text(value: &Value) -> bool
    ensures { result ≡ is_context_text (view value.now) }
{
    match value.as_str() {
        Some(text) => has_context_length(text),
        None => false,
    }
}

fn any_context_is_reserved(contexts: &[Value]) -> bool
    ensures { result ≡ list_any is_reserved_context (map view contexts.now) }
{
    contexts.iter().any(|context| is_reserved_context(context))
}

fn are_context_texts(contexts: &[Value]) -> bool
    ensures { result ≡ list_all is_context_text (map view contexts.now) }
{
    contexts.iter().all(|context| is_context_text(context))
}

fn has_wrong_weight(suggestion: &Value) -> bool
    ensures { result ≡ has_wrong_weight (view suggestion.now) }
{
    weight(suggestion).is_none()
}

fn has_reserved_context(suggestion: &Value) -> bool
    ensures { result ≡ has_reserved_context (view suggestion.now) }
{
    any_context_is_reserved(contexts(suggestion))
}

fn has_wrong_contexts(suggestion: &Value) -> bool
    ensures { result ≡ has_wrong_contexts (view suggestion.now) }
{
    let contexts = contexts(suggestion);
    contexts.len() > MOST_CONTEXTS || !are_context_texts(contexts)
}

/// Whether the weight of one of them is out of its limits or of a wrong kind.
pub fn any_has_wrong_weight(suggestions: &[Value]) -> bool
    ensures { result ≡ list_any has_wrong_weight (map view suggestions.now) }
{
    suggestions
        .iter()
        .any(|suggestion| has_wrong_weight(suggestion))
}

/// Whether a context of one of them has a reserved byte.
pub fn any_has_reserved_context(suggestions: &[Value]) -> bool
    ensures { result ≡ list_any has_reserved_context (map view suggestions.now) }
{
    suggestions
        .iter()
        .any(|suggestion| has_reserved_context(suggestion))
}

/// Whether one of them has too many contexts, or one that is too long or no text.
pub fn any_has_wrong_contexts(suggestions: &[Value]) -> bool
    ensures { result ≡ list_any has_wrong_contexts (map view suggestions.now) }
{
    suggestions
        .iter()
        .any(|suggestion| has_wrong_contexts(suggestion))
}

/// Whether each is a suggestion.
pub fn all_are_suggestions(values: &[Value]) -> bool
    ensures { result ≡ list_all is_suggestion (map view values.now) }
{
    values.iter().all(|value| is_suggestion(value))
}
