//! The members of a JSON value.
ghost use Rattle.std.specs.Prelude.{◌≡◌, map, option_map};
ghost use Rattle.serde_json.specs.View.{view};
ghost use Rattle.wire_json.specs.Members.{member_of, text_of, is_text, whole_of, listed};
ghost use Rattle.wire_json.specs.Members.{listed_at};

use serde_json::Value;
use std::slice;

/// A member that is there and isn't null.
pub fn member<'v>(value: &'v Value, name: &str) -> Option<&'v Value>
    ensures { option_map (λ v. view v.now) result ≡ member_of name.now (view value.now) }
{
    match value.get(name) {
        Some(found) => { if found.is_null() { None } else { Some(found) } }
        None => None,
    }
}

/// A member that is a text.
pub fn text<'v>(value: &'v Value, name: &str) -> Option<&'v str>
    ensures { option_map (λ s. s.now) result ≡ text_of name.now (view value.now) }
{
    match member(value, name) {
        Some(found) => found.as_str(),
        None => None,
    }
}

pub fn is_text(value: &Value) -> bool
    ensures { result ≡ is_text (view value.now) }
{
    value.as_str().is_some()
}

/// A number that is held as an unsigned 64-bit number.
pub fn whole(value: &Value) -> Option<u64>
    ensures { result ≡ whole_of (view value.now) }
{
    value.as_u64()
}

/// One thing, or a list of them.
#[tactic(auto, using(crate::proofs::MemberLemmas::items_listed))]
pub fn listed(value: &Value) -> &[Value]
    ensures { map view result.now ≡ listed (view value.now) }
{
    match value.as_array() {
        Some(list) => list.as_slice(),
        None => slice::from_ref(value),
    }
}

/// What a member lists: nothing where it is absent.
pub fn listed_at<'v>(value: &'v Value, name: &str) -> &'v [Value]
    ensures { map view result.now ≡ listed_at name.now (view value.now) }
{
    match member(value, name) {
        Some(found) => listed(found),
        None => &[],
    }
}
