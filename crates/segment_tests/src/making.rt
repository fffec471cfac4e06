//! Documents for tests, from short texts.

use sg_base::{Bytes, Context, Key, Text};
use sg_paths::{Document, Numbered, Suggestion};
use std::alloc::{AllocError, Global};
use std::test::Fail;

fn contexts_of(alloc: Global, spelled: Option<&str>) -> Result<Vec<Context>, Fail> {
    let mut contexts = Vec::new(alloc);
    if let Some(spelled) = spelled {
        for name in spelled.split(',') {
            contexts.push(Context::new(alloc, name)?)?;
        }
    }
    Ok(contexts)
}

// The key, the weight and the contexts of a suggestion.
fn suggestion_parts(spelled: &str) -> Option<(&str, u32, Option<&str>)> {
    let (key, rest) = spelled.split_once(':')?;
    let (weight, contexts) = match rest.split_once('@') {
        Some((weight, contexts)) => (weight, Some(contexts)),
        None => (rest, None),
    };
    Some((key, weight.parse::<u32>().ok()?, contexts))
}

fn key_of(alloc: Global, spelled: &str) -> Result<Key, Fail> {
    Ok(Key::of(Bytes::of(alloc, spelled.as_bytes())?)?)
}

/// A suggestion: its key, `:`, its weight and, behind `@`, its contexts.
fn suggestion_of(alloc: Global, spelled: &str) -> Result<Suggestion, Fail> {
    let Some((key, weight, contexts)) = suggestion_parts(spelled) else {
        return Err("no suggestion".into());
    };
    let contexts = contexts_of(alloc, contexts)?;
    let text = Text::of(alloc, key)?;
    Ok(Suggestion::new(text, key_of(alloc, key)?, weight, contexts)?)
}

/// A document: its id, and its suggestions with blanks between them.
pub fn document_of(alloc: Global, spelled: &str) -> Result<Document, Fail> {
    let Some((id, rest)) = spelled.trim().split_once(' ') else {
        return Err("no suggestion".into());
    };
    let mut suggestions = Vec::new(alloc);
    for word in rest.split_whitespace() {
        suggestions.push(suggestion_of(alloc, word)?)?;
    }
    Ok(Document::new(Text::of(alloc, id)?, suggestions)?)
}

/// Documents with `;` between them, which have the numbers 1, 2 ..
pub fn documents_of(alloc: Global, spelled: &str) -> Result<Vec<Numbered>, Fail> {
    let mut documents = Vec::new(alloc);
    for document in spelled.split(';') {
        let seq = documents.len() as u64 + 1;
        let document = document_of(alloc, document)?;
        documents.push(Numbered { seq, document })?;
    }
    Ok(documents)
}

fn digit_of(byte: u8) -> Option<u8> {
    match byte {
        b'0'..=b'9' => Some(byte - b'0'),
        b'a'..=b'f' => Some(byte - b'a' + 10),
        _ => None,
    }
}

/// The bytes of pairs of hexadecimal digits, between which blanks may stand.
pub fn bytes_of(alloc: Global, text: &str) -> Result<Vec<u8>, AllocError> {
    let mut bytes = Vec::new(alloc);
    let mut high = None;
    for byte in text.bytes() {
        if let Some(digit) = digit_of(byte) {
            match high {
                None => high = Some(digit),
                Some(first) => {
                    bytes.push(first.wrapping_mul(16).wrapping_add(digit))?;
                    high = None;
                }
            }
        }
    }
    Ok(bytes)
}
