//! The query contexts and the number of rows of a line, as they are given.
ghost use Rattle.std.specs.Prelude.{◌≡◌, ◌≤◌, IfSome, map, option_map};
ghost use Rattle.std.specs.List.{list_all, list_any};
ghost use Rattle.serde_json.specs.View.{view};
ghost use Rattle.sg_context.specs.Boosts.{IsBoost};
ghost use Rattle.sg_context.specs.Queries.{IsRowCount};
ghost use Rattle.wire_json.specs.Asked.{whole_within, context_asked, prefix_flag, boost_asked};
ghost use Rattle.wire_json.specs.Asked.{rows_asked, asks_for_reserved_context, is_query_context};
ghost use Rattle.wire_json.specs.Asked.{query_contexts_are_wrong};
ghost use Rattle.wire_json.specs.Asked.{has_wrong_boost};

use crate::limits::DEFAULT_K;
use crate::members::{member, text, whole};
use crate::suggested::{has_context_length, has_reserved_byte};
use serde_json::Value;
use sg_base::MOST_BOOST;
use sg_context::{Boost, DEFAULT_BOOST, LEAST_BOOST, LEAST_K, MOST_K, MOST_QUERY_CONTEXTS};

fn whole_within(value: &Value, least: u32, most: u32) -> Option<u32>
    ensures value { result ≡ whole_within least most (view value.now) }
    ensures within { IfSome result (λ n. (least ≤ n) × (n ≤ most)) }
{
    match whole(value) {
        Some(number) => {
            if u64::from(least) <= number && number <= u64::from(most) {
                Some(number as u32)
            } else {
                None
            }
        }
        None => None,
    }
}

/// The context that is asked for: a text is its own, an object has a member.
pub fn context_asked(value: &Value) -> Option<&str>
    ensures { option_map (λ s. s.now) result ≡ context_asked (view value.now) }
{
    if value.is_object() {
        text(value, "context")
    } else {
        value.as_str()
    }
}

/// Whether contexts that begin with it are asked for too, where the member is true or false.
pub fn prefix_flag(value: &Value) -> Option<bool>
    ensures { result ≡ prefix_flag (view value.now) }
{
    match member(value, "prefix") {
        Some(given) => given.as_bool(),
        None => Some(false),
    }
}

/// The boost, where it is within its limits; `DEFAULT_BOOST` where it is absent.
pub fn boost_asked(value: &Value) -> Option<Boost>
    ensures value { result ≡ boost_asked (view value.now) }
    ensures limits { IfSome result IsBoost }
{
    match member(value, "boost") {
        Some(given) => whole_within(given, LEAST_BOOST, MOST_BOOST),
        None => Some(DEFAULT_BOOST),
    }
}

/// The number of rows, where it is within its limits; `DEFAULT_K` where it is absent.
pub fn rows_asked(k: Option<&Value>) -> Option<u32>
    ensures value { result ≡ rows_asked (option_map (λ v. view v.now) k.entry) }
    ensures limits { IfSome result IsRowCount }
{
    match k {
        Some(given) => whole_within(given, LEAST_K, MOST_K),
        None => Some(DEFAULT_K),
    }
}

fn asks_for_reserved_context(value: &Value) -> bool
    ensures { result ≡ asks_for_reserved_context (view value.now) }
{
    match context_asked(value) {
        Some(text) => has_reserved_byte(text),
        None => false,
    }
}

fn is_query_context(value: &Value) -> bool
    ensures { result ≡ is_query_context (view value.now) }
{
    match context_asked(value) {
        Some(text) => has_context_length(text) && prefix_flag(value).is_some(),
        None => false,
    }
}

fn has_wrong_boost(value: &Value) -> bool
    ensures { result ≡ has_wrong_boost (view value.now) }
{
    boost_asked(value).is_none()
}

fn all_are_query_contexts(values: &[Value]) -> bool
    ensures { result ≡ list_all is_query_context (map view values.now) }
{
    values.iter().all(|value| is_query_context(value))
}

/// Whether one of the contexts that are asked for has a reserved byte.
pub fn any_asks_for_reserved_context(values: &[Value]) -> bool
    ensures { result ≡ list_any asks_for_reserved_context (map view values.now) }
{
    values.iter().any(|value| asks_for_reserved_context(value))
}

/// Whether there are too many, or one is of a wrong kind or too long.
pub fn query_contexts_are_wrong(values: &[Value]) -> bool
    ensures { result ≡ query_contexts_are_wrong (map view values.now) }
{
    values.len() > MOST_QUERY_CONTEXTS || !all_are_query_contexts(values)
}

/// Whether the boost of one of them is out of its limits or of a wrong kind.
pub fn any_has_wrong_boost(values: &[Value]) -> bool
    ensures { result ≡ list_any has_wrong_boost (map view values.now) }
{
    values.iter().any(|value| has_wrong_boost(value))
}
