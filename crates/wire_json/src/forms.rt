//! The form of a line's value.
ghost use Rattle.std.specs.Prelude.{◌≡◌, ◌&&◌, nat_le, is_some, IfOk, IfSome, codes, map};
ghost use Rattle.std.specs.Prelude.{option_map, Some};
ghost use Rattle.sg_paths.specs.declared.limits.TheConstants.{MOST_SUGGESTIONS};
ghost use Rattle.serde_json.specs.View.{view};
ghost use Rattle.wire_json.specs.Members.{listed_at};
ghost use Rattle.wire_json.specs.Suggested.{entries_of};
ghost use Rattle.wire_json.specs.Forms.{lane_given, change_of, delete_of, suggest_of, suggest_in};
ghost use Rattle.wire_json.specs.Forms.{is_view_name, view_name, view_asked, open_view_of};
ghost use Rattle.wire_json.specs.Forms.{close_view_of, form_of, make_a_document};
ghost use Rattle.wire_json.specs.EntryForms.{plain_entry};
ghost use Rattle.wire_json.specs.ReadForms.{plain_form, HasItsEntries};

use crate::limits::MOST_VIEW_NAME_BYTES;
use crate::members::{listed_at, member, text};
use crate::suggested::{Entry, all_are_suggestions, entries};
use serde_json::Value;
use sg_paths::MOST_SUGGESTIONS;
use std::alloc::{AllocError, Global};

/// How a document comes in.
#[derive(Clone, Copy, Debug, PartialEq, Eq)]
pub enum Change {
    /// Beside the documents with its id.
    Add,
    /// In their place.
    Update,
}

/// A change as it is given.
#[derive(Drop)]
pub struct GivenChange<'v> {
    pub how: Change,
    pub lane: Option<&'v Value>,
    pub id: &'v str,
    pub suggestions: &'v [Value],
    /// One a text, of all suggestions.
    pub entries: Vec<Entry<'v>>,
}

/// A query as it is given.
#[derive(Clone, Copy)]
pub struct GivenQuery<'v> {
    pub lane: Option<&'v Value>,
    pub prefix: &'v str,
    pub k: Option<&'v Value>,
    pub contexts: &'v [Value],
    /// The name of the view that it is in, if it is in one.
    pub view: Option<&'v str>,
}

/// What a line asks for, its members as they are given.
#[derive(Drop)]
pub enum Form<'v> {
    Change {
        given: GivenChange<'v>,
    },
    Delete {
        lane: Option<&'v Value>,
        id: &'v str,
    },
    Suggest {
        given: GivenQuery<'v>,
    },
    OpenView {
        lane: Option<&'v Value>,
        name: &'v str,
    },
    CloseView {
        lane: Option<&'v Value>,
        name: &'v str,
    },
    Flush {
        lane: Option<&'v Value>,
    },
    Merge {
        lane: Option<&'v Value>,
    },
}

fn lane_given(value: &Value) -> Option<&Value>
    ensures { option_map (λ v. view v.now) result ≡ lane_given (view value.now) }
{
    member(value, "lane")
}

fn is_count_of_suggestions(count: usize) -> bool
    ensures { result ≡ (nat_le 1 count && nat_le count MOST_SUGGESTIONS) }
{
    1 <= count && count <= MOST_SUGGESTIONS
}

// The entries of suggestions, where they make a document.
fn entries_of_document(
    alloc: Global,
    suggestions: &[Value],
) -> Result<Option<Vec<Entry<'_>>>, AllocError>
    ensures found { IfOk result (λ found.
        is_some found ≡ make_a_document (map view suggestions.entry.now)) }
    ensures entries { IfOk result (λ found. IfSome found (λ es.
        map plain_entry es.items ≡ entries_of (map view suggestions.entry.now))) }
{
    if !all_are_suggestions(suggestions) {
        return Ok(None);
    }
    let entries = entries(alloc, suggestions)?;
    if is_count_of_suggestions(entries.len()) {
        Ok(Some(entries))
    } else {
        Ok(None)
    }
}

fn read_change(alloc: Global, how: Change, value: &Value) -> Result<Option<Form<'_>>, AllocError>
    ensures form { IfOk result (λ form. option_map plain_form form
        ≡ change_of how (view value.entry.now)
        (listed_at (codes "suggest") (view value.entry.now))) }
    ensures entries { IfOk result (λ form. IfSome form HasItsEntries) }
{
    let Some(id) = text(value, "id") else {
        return Ok(None);
    };
    let suggestions = listed_at(value, "suggest");
    match entries_of_document(alloc, suggestions)? {
        Some(entries) => {
            let lane = lane_given(value);
            let given = GivenChange {
                how,
                lane,
                id,
                suggestions,
                entries,
            };
            Ok(Some(Form::Change { given }))
        }
        None => Ok(None),
    }
}

fn read_delete(value: &Value) -> Option<Form<'_>>
    ensures form { option_map plain_form result ≡ delete_of (view value.now) }
    ensures entries { IfSome result HasItsEntries }
{
    match text(value, "id") {
        Some(id) => Some(Form::Delete {
            lane: lane_given(value),
            id,
        }),
        None => None,
    }
}

// A name of a view has 1 to 255 bytes.
fn is_view_name(name: &str) -> bool
    ensures { result ≡ is_view_name name.now }
{
    1 <= name.len() && name.len() <= MOST_VIEW_NAME_BYTES
}

fn view_name(value: &Value) -> Option<&str>
    ensures { option_map (λ s. s.now) result ≡ view_name (view value.now) }
{
    match text(value, "view") {
        Some(name) => { if is_view_name(name) { Some(name) } else { None } }
        None => None,
    }
}

// The view that a query is in, if it is in one; nothing where that has no name.
fn view_asked(value: &Value) -> Option<Option<&str>>
    ensures { option_map (option_map (λ s. s.now)) result ≡ view_asked (view value.now) }
{
    if member(value, "view").is_none() {
        return Some(None);
    }
    match view_name(value) {
        Some(name) => Some(Some(name)),
        None => None,
    }
}

// A query in a view, or in none.
fn read_suggest_in<'v>(value: &'v Value, name: Option<&'v str>) -> Option<Form<'v>>
    ensures form { option_map plain_form result
        ≡ suggest_in (view value.now) (Some (option_map (λ s. s.now) name.entry)) }
    ensures entries { IfSome result HasItsEntries }
{
    match text(value, "prefix") {
        Some(prefix) => {
            let given = GivenQuery {
                lane: lane_given(value),
                prefix,
                k: member(value, "k"),
                contexts: listed_at(value, "contexts"),
                view: name,
            };
            Some(Form::Suggest { given })
        }
        None => None,
    }
}

fn read_suggest(value: &Value) -> Option<Form<'_>>
    ensures form { option_map plain_form result ≡ suggest_of (view value.now) }
    ensures entries { IfSome result HasItsEntries }
{
    match view_asked(value) {
        Some(name) => read_suggest_in(value, name),
        None => None,
    }
}

fn read_open_view(value: &Value) -> Option<Form<'_>>
    ensures form { option_map plain_form result ≡ open_view_of (view value.now) }
    ensures entries { IfSome result HasItsEntries }
{
    match view_name(value) {
        Some(name) => Some(Form::OpenView {
            lane: lane_given(value),
            name,
        }),
        None => None,
    }
}

fn read_close_view(value: &Value) -> Option<Form<'_>>
    ensures form { option_map plain_form result ≡ close_view_of (view value.now) }
    ensures entries { IfSome result HasItsEntries }
{
    match view_name(value) {
        Some(name) => Some(Form::CloseView {
            lane: lane_given(value),
            name,
        }),
        None => None,
    }
}

/// The form of a line's value, if it has one.
pub fn read_form(alloc: Global, value: &Value) -> Result<Option<Form<'_>>, AllocError>
    ensures form { IfOk result (λ form.
        option_map plain_form form ≡ form_of (view value.entry.now)) }
    ensures entries { IfOk result (λ form. IfSome form HasItsEntries) }
{
    match text(value, "op") {
        Some("add") => read_change(alloc, Change::Add, value),
        Some("update") => read_change(alloc, Change::Update, value),
        Some("delete") => Ok(read_delete(value)),
        Some("suggest") => Ok(read_suggest(value)),
        Some("open") => Ok(read_open_view(value)),
        Some("close") => Ok(read_close_view(value)),
        Some("flush") => Ok(Some(Form::Flush {
            lane: lane_given(value),
        })),
        Some("merge") => Ok(Some(Form::Merge {
            lane: lane_given(value),
        })),
        _ => Ok(None),
    }
}
