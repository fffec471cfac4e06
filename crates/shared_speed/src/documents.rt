//! Documents with one suggestion each, and queries for them. None where a text has no key, a number
//! is out of range, or there is no memory.

use sg_analysis::Analyzer;
use sg_base::Text;
use sg_context::Query;
use sg_paths::{Document, Suggestion};
use std::alloc::Global;

const ANALYZER: Analyzer = Analyzer { separators: true };

/// How many names there are: one for each four letters.
const NAMES: u64 = 456_976;

/// How many rows a numbered query asks for.
const ROWS: u32 = 5;

/// A document with one suggestion.
pub fn document_of(alloc: Global, id: &str, text: &str, weight: u32) -> Option<Document> {
    let key = ANALYZER.key(alloc, text, true).ok()?;
    let text = Text::of(alloc, text).ok()?;
    let suggestion = Suggestion::new(text, key, weight, Vec::new(alloc)).ok()?;
    let suggestions = vec![in alloc; suggestion].ok()?;
    Document::new(Text::of(alloc, id).ok()?, suggestions).ok()
}

/// A query for the first k rows in no context.
pub fn query_of(alloc: Global, prefix: &str, k: u32) -> Option<Query> {
    let prefix = ANALYZER.key(alloc, prefix, false).ok()?;
    Query::new(prefix, Vec::new(alloc), k).ok()
}

// So many letters of a number's name. Numbers that follow one another have other first letters.
fn letters(alloc: Global, number: u64, count: u32) -> Option<String> {
    let mut rest = number % NAMES * 7_919 % NAMES;
    let mut letters = String::new(alloc);
    for _ in 0..count {
        letters.push((b'a' + (rest % 26) as u8) as char).ok()?;
        rest /= 26;
    }
    Some(letters)
}

/// The document with this number, whose name has four letters.
pub fn numbered_document(alloc: Global, number: u64) -> Option<Document> {
    let id = format!(in alloc; "n{number}").ok()?;
    let name = letters(alloc, number, 4)?;
    document_of(alloc, id.as_str(), name.as_str(), (number % 1_000) as u32)
}

/// A query for names that begin with the same two letters as this number's.
pub fn numbered_query(alloc: Global, number: u64) -> Option<Query> {
    let prefix = letters(alloc, number, 2)?;
    query_of(alloc, prefix.as_str(), ROWS)
}
