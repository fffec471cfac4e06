//! Values for tests, from short texts.

use sg_base::{Bytes, Context, Key, Text};
use sg_context::{Query, QueryContext};
use sg_paths::{Document, Suggestion};
use std::alloc::Global;
use std::test::Fail;

pub fn key_of(alloc: Global, spelled: &str) -> Result<Key, Fail> {
    Ok(Key::of(Bytes::of(alloc, spelled.as_bytes())?)?)
}

fn contexts_of(alloc: Global, spelled: Option<&str>) -> Result<Vec<Context>, Fail> {
    let mut contexts = Vec::new(alloc);
    if let Some(spelled) = spelled {
        for name in spelled.split(',') {
            contexts.push(Context::new(alloc, name)?)?;
        }
    }
    Ok(contexts)
}

// The key, the weight and the contexts of a suggestion.
fn suggestion_parts(spelled: &str) -> Option<(&str, u32, Option<&str>)> {
    let (key, rest) = spelled.split_once(':')?;
    let (weight, contexts) = match rest.split_once('@') {
        Some((weight, contexts)) => (weight, Some(contexts)),
        None => (rest, None),
    };
    Some((key, weight.parse::<u32>().ok()?, contexts))
}

/// A suggestion: its key, `:`, its weight and, behind `@`, its contexts.
pub fn suggestion_of(alloc: Global, spelled: &str) -> Result<Suggestion, Fail> {
    let Some((key, weight, contexts)) = suggestion_parts(spelled) else {
        return Err("no suggestion".into());
    };
    let contexts = contexts_of(alloc, contexts)?;
    let text = Text::of(alloc, key)?;
    Ok(Suggestion::new(text, key_of(alloc, key)?, weight, contexts)?)
}

/// A document of suggestions with blanks between them.
pub fn document_of(alloc: Global, id: &str, spelled: &str) -> Result<Document, Fail> {
    let mut suggestions = Vec::new(alloc);
    for word in spelled.split_whitespace() {
        suggestions.push(suggestion_of(alloc, word)?)?;
    }
    Ok(Document::new(Text::of(alloc, id)?, suggestions)?)
}

fn query_context_of(alloc: Global, spelled: &str) -> Result<QueryContext, Fail> {
    let Some((name, boost)) = spelled.split_once('=') else {
        return Err("no boost".into());
    };
    let boost = boost.parse::<u32>()?;
    let beginning = name.strip_suffix('*');
    let context = Context::new(alloc, beginning.unwrap_or(name))?;
    Ok(QueryContext::new(context, boost, beginning.is_some())?)
}

/// Query contexts with blanks between them: `x=2` has the boost 2, and `x*=2` matches what begins
/// with `x`.
pub fn asked_of(alloc: Global, spelled: &str) -> Result<Vec<QueryContext>, Fail> {
    let mut asked = Vec::new(alloc);
    for word in spelled.split_whitespace() {
        asked.push(query_context_of(alloc, word)?)?;
    }
    Ok(asked)
}

// The prefix, the number of rows and the contexts of a query.
fn query_parts(spelled: &str) -> Option<(&str, u32, &str)> {
    let (prefix, rest) = spelled.split_once(' ')?;
    let (k, contexts) = rest.split_once(' ').unwrap_or((rest, ""));
    let prefix = if prefix == "." { "" } else { prefix };
    Some((prefix, k.parse::<u32>().ok()?, contexts))
}

/// A query: its prefix, where `.` is the empty one, its number of rows and its contexts.
pub fn query_of(alloc: Global, spelled: &str) -> Result<Query, Fail> {
    let Some((prefix, k, contexts)) = query_parts(spelled) else {
        return Err("no query".into());
    };
    let asked = asked_of(alloc, contexts)?;
    Ok(Query::new(key_of(alloc, prefix)?, asked, k)?)
}
