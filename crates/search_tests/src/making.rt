//! Segments and queries for tests, from short texts.
ghost use Rattle.std.specs.Prelude.{◌≡◌, ◌<◌, IfOk, length};
ghost use Rattle.std.specs.List.{All};

use seg_live::Live;
use segment::Segment;
use sg_base::{Bytes, Context, Key, List, Text};
use sg_context::{Query, QueryContext};
use sg_paths::{Batch, Document, Numbered, Op, Suggestion};
use std::alloc::Global;
use std::test::Fail;

fn key_of(alloc: Global, spelled: &str) -> Result<Key, Fail> {
    Ok(Key::of(Bytes::of(alloc, spelled.as_bytes())?)?)
}

fn contexts_of(alloc: Global, spelled: Option<&str>) -> Result<Vec<Context>, Fail> {
    let mut contexts = Vec::new(alloc);
    if let Some(spelled) = spelled {
        for name in spelled.split(',') {
            contexts.push(Context::new(alloc, name)?)?;
        }
    }
    Ok(contexts)
}

// The key, the weight and the contexts of a suggestion.
fn suggestion_parts(spelled: &str) -> Option<(&str, u32, Option<&str>)> {
    let (key, rest) = spelled.split_once(':')?;
    let (weight, contexts) = match rest.split_once('@') {
        Some((weight, contexts)) => (weight, Some(contexts)),
        None => (rest, None),
    };
    Some((key, weight.parse::<u32>().ok()?, contexts))
}

// A suggestion: its key, `:`, its weight and, behind `@`, its contexts.
fn suggestion_of(alloc: Global, spelled: &str) -> Result<Suggestion, Fail> {
    let Some((key, weight, contexts)) = suggestion_parts(spelled) else {
        return Err("no suggestion".into());
    };
    let contexts = contexts_of(alloc, contexts)?;
    let text = Text::of(alloc, key)?;
    Ok(Suggestion::new(text, key_of(alloc, key)?, weight, contexts)?)
}

/// A document of suggestions with blanks between them.
pub fn document_of(alloc: Global, id: &str, spelled: &str) -> Result<Document, Fail> {
    let mut suggestions = Vec::new(alloc);
    for word in spelled.split_whitespace() {
        suggestions.push(suggestion_of(alloc, word)?)?;
    }
    Ok(Document::new(Text::of(alloc, id)?, suggestions)?)
}

// The segment of a batch.
fn segment_of_batch(alloc: Global, operations: Vec<Op>) -> Result<Segment, Fail> {
    let count = operations.len();
    if count == 0 || count > 16_384 {
        return Err("no operation, or too many".into());
    }
    let batch = Batch {
        from: 1,
        upto: count as u64,
        ops: List::of(operations),
    };
    Ok(Segment::of_batch(alloc, &batch)?)
}

/// The segment of documents with `;` between them, which have the numbers 1, 2 ..
pub fn segment_of(alloc: Global, spelled: &str) -> Result<Segment, Fail> {
    let mut operations = Vec::new(alloc);
    for document in spelled.split(';') {
        operations.push(Op::Add(document_of(alloc, "id", document)?))?;
    }
    segment_of_batch(alloc, operations)
}

/// Copies of the segment's documents.
pub fn documents_of(alloc: Global, segment: &Segment) -> Result<Vec<Numbered>, Fail> {
    let table = segment.table();
    let mut documents = Vec::new(alloc);
    for doc in 0..table.len() {
        documents.push(table.document(doc)?)?;
    }
    Ok(documents)
}

fn places_of(alloc: Global, count: u32, spelled: &str) -> Result<Vec<u32>, Fail>
    ensures { IfOk result (λ places. All (λ place. place < count) places.items) }
{
    let mut places = Vec::new(alloc);
    for word in spelled.split_whitespace() {
        let place = word.parse::<u32>()?;
        if place >= count {
            return Err("a place of no document".into());
        }
        places.push(place)?;
    }
    Ok(places)
}

fn all_live(alloc: Global, count: u32) -> Result<Live, Fail>
    ensures { IfOk result (λ live. length live ≡ count) }
{
    let live = Live::all(alloc, count);
    Ok(live)
}

fn without(live: &Live, count: u32, dead: &[u32]) -> Result<Live, Fail>
    requires counted { length live.now ≡ count }
    requires within { All (λ place. place < count) dead.now }
    ensures { IfOk result (λ later. length later ≡ count) }
{
    let later = live.with_dead(dead)?;
    Ok(later)
}

/// The live docs of so many documents without those at these places, with blanks between them.
pub fn live_of(alloc: Global, count: u32, spelled: &str) -> Result<Live, Fail>
    ensures { IfOk result (λ live. length live ≡ count) }
{
    let dead = places_of(alloc, count, spelled)?;
    let live = all_live(alloc, count)?;
    let live = without(&live, count, dead.as_slice())?;
    Ok(live)
}

fn query_context_of(alloc: Global, spelled: &str) -> Result<QueryContext, Fail> {
    let Some((name, boost)) = spelled.split_once('=') else {
        return Err("no boost".into());
    };
    let boost = boost.parse::<u32>()?;
    let beginning = name.strip_suffix('*');
    let context = Context::new(alloc, beginning.unwrap_or(name))?;
    Ok(QueryContext::new(context, boost, beginning.is_some())?)
}

// Query contexts with blanks between them: `x=2` has the boost 2, and `x*=2` matches what begins
// with `x`.
fn asked_of(alloc: Global, spelled: &str) -> Result<Vec<QueryContext>, Fail> {
    let mut asked = Vec::new(alloc);
    for word in spelled.split_whitespace() {
        asked.push(query_context_of(alloc, word)?)?;
    }
    Ok(asked)
}

// The prefix, the number of rows and the contexts of a query.
fn query_parts(spelled: &str) -> Option<(&str, u32, &str)> {
    let (prefix, rest) = spelled.split_once(' ')?;
    let (k, contexts) = rest.split_once(' ').unwrap_or((rest, ""));
    let prefix = if prefix == "." { "" } else { prefix };
    Some((prefix, k.parse::<u32>().ok()?, contexts))
}

/// A query: its prefix, where `.` is the empty one, its number of rows and its contexts.
pub fn query_of(alloc: Global, spelled: &str) -> Result<Query, Fail> {
    let Some((prefix, k, contexts)) = query_parts(spelled) else {
        return Err("no query".into());
    };
    let asked = asked_of(alloc, contexts)?;
    Ok(Query::new(key_of(alloc, prefix)?, asked, k)?)
}
