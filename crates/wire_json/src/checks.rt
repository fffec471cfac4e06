//! The errors of a line that has a form, the first that applies.
ghost use Rattle.std.specs.Prelude.{◌≡◌, false, true, is_none, None, IfErr, OnOk, map, option_map};
ghost use Rattle.std.specs.Prelude.{[], ◌∷◌};
ghost use Rattle.serde_json.specs.View.{view};
ghost use Rattle.sg_paths.specs.Documents.{is_id};
ghost use Rattle.wire_json.specs.Asked.{rows_asked};
ghost use Rattle.wire_json.specs.LineErrors.{lane_of, used_by_change, used_by_delete};
ghost use Rattle.wire_json.specs.LineErrors.{used_by_query, used_by_lane, errors_by};
ghost use Rattle.wire_json.specs.LineErrors.{first_that_applies};
ghost use Rattle.wire_json.specs.Commands.{lane_or_first};
ghost use Rattle.wire_json.specs.CommandForms.{kind_of};
ghost use Rattle.wire_json.specs.ReadForms.{plain_options};
ghost use Rattle.wire_json.specs.ReadyForms.{AreKeys, AreSuggestions, AreAsked};

use crate::asked::{
    any_asks_for_reserved_context, any_has_wrong_boost, query_contexts_are_wrong, rows_asked,
};
use crate::errors::LineError;
use crate::keys::{Keyed, any_is_empty, any_is_reserved, any_is_too_long};
use crate::members::whole;
use crate::suggested::{any_has_reserved_context, any_has_wrong_contexts, any_has_wrong_weight};
use serde_json::Value;
use sg_paths::is_id;
use std::slice;

/// The worker of a line, of so many; the first where none is given.
fn lane_of(lanes: u32, lane: Option<&Value>) -> Option<u32>
    ensures { result ≡ lane_of lanes (option_map (λ v. view v.now) lane.entry) }
{
    let Some(given) = lane else {
        return Some(0);
    };
    match whole(given) {
        Some(number) => {
            if number < u64::from(lanes) {
                Some(number as u32)
            } else {
                None
            }
        }
        None => None,
    }
}

/// The worker of a line without an error; of one whose worker is none it is the first, and nobody
/// asks for that.
pub fn lane_or_first(lanes: u32, lane: Option<&Value>) -> u32
    ensures { result ≡ lane_or_first lanes (option_map (λ v. view v.now) lane.entry) }
{
    match lane_of(lanes, lane) {
        Some(lane) => lane,
        None => 0,
    }
}

/// A change of suggestions, whose texts have these keys.
pub fn check_change(
    lanes: u32,
    lane: Option<&Value>,
    id: &str,
    suggestions: &[Value],
    keys: &[Keyed],
) -> Result<(), LineError>
    ensures ok { OnOk result (first_that_applies (errors_by lanes
        (used_by_change (option_map (λ v. view v.now) lane.entry) id.now
        (map view suggestions.now)) keys.now) ≡ None) }
    ensures refused { IfErr result (λ e. first_that_applies (errors_by lanes
        (used_by_change (option_map (λ v. view v.now) lane.entry) id.now
        (map view suggestions.now)) keys.now) ≡ kind_of e) }
    ensures id { OnOk result (is_id id.now ≡ true) }
    ensures keys { OnOk result (AreKeys keys.now) }
    ensures suggestions { OnOk result (AreSuggestions (map view suggestions.now)) }
{
    if lane_of(lanes, lane).is_none() {
        return Err(LineError::Lane);
    }
    if !is_id(id) {
        return Err(LineError::Id);
    }
    if any_is_empty(keys) {
        return Err(LineError::Empty);
    }
    if any_has_wrong_weight(suggestions) {
        return Err(LineError::Weight);
    }
    if any_is_reserved(keys) || any_has_reserved_context(suggestions) {
        return Err(LineError::Reserved);
    }
    if any_is_too_long(keys) {
        return Err(LineError::Key);
    }
    if any_has_wrong_contexts(suggestions) {
        return Err(LineError::Contexts);
    }
    Ok(())
}

/// A delete.
pub fn check_delete(lanes: u32, lane: Option<&Value>, id: &str) -> Result<(), LineError>
    ensures ok { OnOk result (first_that_applies (errors_by lanes
        (used_by_delete (option_map (λ v. view v.now) lane.entry) id.now) []) ≡ None) }
    ensures refused { IfErr result (λ e. first_that_applies (errors_by lanes
        (used_by_delete (option_map (λ v. view v.now) lane.entry) id.now) []) ≡ kind_of e) }
{
    if lane_of(lanes, lane).is_none() {
        return Err(LineError::Lane);
    }
    if !is_id(id) {
        return Err(LineError::Id);
    }
    Ok(())
}

/// What has its worker alone, or a view's name with it.
pub fn check_lane(lanes: u32, lane: Option<&Value>) -> Result<(), LineError>
    ensures ok { OnOk result (first_that_applies (errors_by lanes
        (used_by_lane (option_map (λ v. view v.now) lane.entry)) []) ≡ None) }
    ensures refused { IfErr result (λ e. first_that_applies (errors_by lanes
        (used_by_lane (option_map (λ v. view v.now) lane.entry)) []) ≡ kind_of e) }
{
    if lane_of(lanes, lane).is_none() {
        return Err(LineError::Lane);
    }
    Ok(())
}

/// A query, whose prefix has this key.
pub fn check_suggest(
    lanes: u32,
    lane: Option<&Value>,
    k: Option<&Value>,
    contexts: &[Value],
    key: &Keyed,
) -> Result<(), LineError>
    ensures ok { OnOk result (first_that_applies (errors_by lanes
        (used_by_query (option_map (λ v. view v.now) lane.entry)
        (plain_options k.entry contexts.now)) (key.now ∷ [])) ≡ None) }
    ensures refused { IfErr result (λ e. first_that_applies (errors_by lanes
        (used_by_query (option_map (λ v. view v.now) lane.entry)
        (plain_options k.entry contexts.now)) (key.now ∷ [])) ≡ kind_of e) }
    ensures key { OnOk result (AreKeys (key.now ∷ [])) }
    ensures contexts { OnOk result (AreAsked (map view contexts.now)) }
    ensures rows { OnOk result (is_none (rows_asked (option_map (λ v. view v.now) k.entry))
        ≡ false) }
{
    let only = slice::from_ref(key);
    if lane_of(lanes, lane).is_none() {
        return Err(LineError::Lane);
    }
    // Only the cut asks for a token, so no prefix is refused as empty; the table stays whole.
    if any_is_empty(only) {
        return Err(LineError::Empty);
    }
    if any_is_reserved(only) || any_asks_for_reserved_context(contexts) {
        return Err(LineError::Reserved);
    }
    if any_is_too_long(only) {
        return Err(LineError::Key);
    }
    if query_contexts_are_wrong(contexts) {
        return Err(LineError::Contexts);
    }
    if any_has_wrong_boost(contexts) {
        return Err(LineError::Boost);
    }
    if rows_asked(k).is_none() {
        return Err(LineError::K);
    }
    Ok(())
}
